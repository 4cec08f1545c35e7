//! The picture of a session, as a text and a status.

ghost use Rattle.std.specs.Prelude.{ℕ, List, IfOk};
ghost use Rattle.std.specs.Thread.{IsSync};
ghost use Rattle.text_lines.specs.Answer.{IsRead};
ghost use Rattle.session_log.specs.Grammar.{SpellsSession};
ghost use Rattle.cert_text.specs.Order.{SpellsOrder};
ghost use Rattle.audit_report.specs.RefusalText.{refusal_text};
ghost use Rattle.command_texts.specs.Answers.{Says};
ghost use Rattle.commands.specs.Drawings.{IsDrawAnswer, IsDrawAlongAnswer, IsDrawn, IsDrawnAlong};

use audit_report::{audit, print_refused_session};
use cert_text::OrderReader;
use command_texts::{
    ACCEPTED, Answer, Fault, Given, OnOne, OnTwo, REFUSED, SessionTaker, Telling, given,
    given_alone, refused,
};
use migration_types::{Run, Seq, Session, Topic};
use order_picture::{print_picture_along, print_picture_on};
use std::alloc::{AllocError, Global};
use std::thread::Threads;

/// Returns the answer for a session's text that is refused at this line.
fn refused_session(alloc: Global, line: u32) -> Result<Answer, AllocError>
    ensures { IfOk result (λ answer. Says answer (refusal_text line) 1) }
{
    Ok(Answer {
        text: print_refused_session(alloc, line)?,
        status: REFUSED,
    })
}

/// Returns the picture of a session about this topic, in the order of its report.
#[tactic(auto, using(crate::proofs::Drawn::is_drawn))]
fn drawn<R: Threads + Sync>(
    rt: &R,
    alloc: Global,
    topic: Topic,
    session: &Session,
) -> Result<Vec<u8>, AllocError>
    ensures { IfOk result (λ text. IsDrawn topic session.now text.items) }
{
    let report = audit(rt, alloc, session)?;
    let text = print_picture_on(alloc, session, &report, topic)?;
    Ok(text)
}

/// Returns the picture of a session about this topic, along runs.
fn drawn_along<R: Threads + Sync>(
    rt: &R,
    alloc: Global,
    topic: Topic,
    session: &Session,
    runs: &Seq<Run>,
) -> Result<Vec<u8>, AllocError>
    ensures { IfOk result (λ text. IsDrawnAlong topic runs.now session.now text.items) }
{
    let report = audit(rt, alloc, session)?;
    let text = print_picture_along(alloc, session, &report, topic, runs.as_slice())?;
    Ok(text)
}

/// Returns the picture of a session, given what was read from its text.
fn draw_read<R: Threads + Sync>(
    rt: &R,
    alloc: Global,
    topic: Topic,
    session: &Result<Session, u32>,
) -> Result<Answer, AllocError>
    ensures { (text : List ℕ) → IsRead SpellsSession text session.now → IfOk result (λ answer. IsDrawAnswer topic text answer.text.items answer.status) }
{
    match session {
        Ok(session) => {
            let text = drawn(rt, alloc, topic, session)?;
            Ok(Answer {
                text,
                status: ACCEPTED,
            })
        }
        Err(line) => refused_session(alloc, *line),
    }
}

/// Returns the picture of a session along runs, given what was read from their texts.
fn draw_along_read<R: Threads + Sync>(
    rt: &R,
    alloc: Global,
    topic: Topic,
    session: &Result<Session, u32>,
    runs: &Result<Seq<Run>, u32>,
) -> Result<Answer, AllocError>
    ensures { (first second : List ℕ) → IsRead SpellsSession first session.now → IsRead SpellsOrder second runs.now → IfOk result (λ answer. IsDrawAlongAnswer topic (first, second) answer.text.items answer.status) }
{
    match session {
        Ok(session) => match runs {
            Ok(runs) => {
                let text = drawn_along(rt, alloc, topic, session, runs)?;
                Ok(Answer {
                    text,
                    status: ACCEPTED,
                })
            }
            Err(line) => refused(alloc, b"runs-text line ", *line),
        },
        Err(line) => refused_session(alloc, *line),
    }
}

/// `draw` with a session: its picture.
#[derive(Clone, Copy)]
pub struct DrawCommand<'a, R> {
    pub rt: &'a R,
    /// What the picture is about.
    pub topic: Topic,
}

impl<R: Threads + Sync> OnOne for DrawCommand<'_, R> {
    type Text = SessionTaker;

    ghost ready = { IsSync R.row };

    ghost is_answer = { λ self. IsDrawAnswer self.topic };

    fn telling(&self) -> Telling {
        Telling::Short
    }

    fn answer(&self, alloc: Global, session: &Result<Session, u32>) -> Given {
        given(draw_read(self.rt, alloc, self.topic, session))
    }

    fn note(
        &self,
        _alloc: Global,
        _session: &Result<Session, u32>,
        _answer: &Answer,
    ) -> Result<Option<Vec<u8>>, AllocError> {
        Ok(None)
    }
}

/// `draw` with a session and runs: its picture along them.
#[derive(Clone, Copy)]
pub struct DrawAlongCommand<'a, R> {
    pub rt: &'a R,
    /// What the picture is about.
    pub topic: Topic,
}

impl<R: Threads + Sync> OnTwo for DrawAlongCommand<'_, R> {
    type First = SessionTaker;

    type Second = OrderReader;

    type Said = ();

    ghost ready = { IsSync R.row };

    ghost is_answer = { λ self. IsDrawAlongAnswer self.topic };

    fn is_about_second(&self) -> bool {
        false
    }

    fn answer(
        &self,
        alloc: Global,
        session: &Result<Session, u32>,
        runs: &Result<Seq<Run>, u32>,
    ) -> Result<(Answer, ()), Fault<'static>> {
        given_alone(draw_along_read(self.rt, alloc, self.topic, session, runs))
    }

    fn push_more(
        &self,
        _out: &mut Vec<u8>,
        _name: &[u8],
        _session: &Result<Session, u32>,
        _runs: &Result<Seq<Run>, u32>,
        _said: (),
    ) -> Result<(), AllocError> {
        Ok(())
    }

    fn note(
        &self,
        _alloc: Global,
        _first: &Result<Session, u32>,
        _second: &Result<Seq<Run>, u32>,
        _answer: &Answer,
    ) -> Result<Option<Vec<u8>>, AllocError> {
        Ok(None)
    }
}
