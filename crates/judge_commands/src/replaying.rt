//! The outcome of a replay of a session along runs, as a line and a status.

ghost use Rattle.std.specs.Prelude.{◌≡◌, ◌++◌, ℕ, List, IfOk, OnOk};
ghost use Rattle.std.specs.Thread.{IsSync};
ghost use Rattle.text_lines.specs.Answer.{IsRead};
ghost use Rattle.session_log.specs.Grammar.{SpellsSession};
ghost use Rattle.cert_text.specs.Order.{SpellsOrder};
ghost use Rattle.judge_commands.specs.Replayed.{AddsReason, AddsReasonOf, IsReplayAnswer, outcome_line, outcome_status};
ghost use Rattle.judged_texts.specs.Replayed.{IsOutcome};

use audit_report::{push_refused_session, push_shape};
use cert_text::OrderReader;
use command_texts::{Answer, Fault, OnTwo, SessionTaker, given, status_where};
use judged_texts::{Outcome, find_outcome};
use migration_types::{Run, Seq, Session};
use std::alloc::{AllocError, Global};
use std::thread::Threads;
use text_lines::{push_keyed, push_line};

/// Why runs are no merging, after the name of their text.
const NO_MERGING: &[u8] =
    b": these runs do not take each record of the session once, after the record that it names\n";

/// Returns the status of an outcome.
fn outcome_status(outcome: Outcome) -> u8
    ensures { result ≡ outcome_status outcome }
{
    status_where(matches!(outcome, Outcome::Safe))
}

/// Appends the line of an outcome.
fn push_outcome(out: &mut Vec<u8>, outcome: Outcome) -> Result<(), AllocError>
    ensures { OnOk result (out.new.items ≡ out.old.items ++ outcome_line outcome) }
{
    match outcome {
        Outcome::SessionText(line) => push_refused_session(out, line),
        Outcome::RunsText(line) => push_keyed(out, b"runs-text line ", line),
        Outcome::Shape(fault) => push_shape(out, &fault),
        Outcome::NoMerging => push_line(out, b"no-merging"),
        Outcome::Broken(line) => push_keyed(out, b"broken line ", line),
        Outcome::Safe => push_line(out, b"safe"),
    }
}

/// Appends why runs are no merging, if that is the outcome. `name` is the name of their text.
fn push_reason(out: &mut Vec<u8>, name: &[u8], outcome: Outcome) -> Result<(), AllocError>
    ensures { OnOk result (AddsReason name.now outcome out.old.items out.new.items) }
{
    match outcome {
        Outcome::NoMerging => {
            out.extend_from_slice(name)?;
            out.extend_from_slice(NO_MERGING)
        }
        Outcome::SessionText(_)
        | Outcome::RunsText(_)
        | Outcome::Shape(_)
        | Outcome::Broken(_)
        | Outcome::Safe => Ok(()),
    }
}

/// Returns the outcome of the replay of a session along runs, as an answer and as a value, given what was read from their
/// texts.
fn replay_read<R: Threads + Sync>(
    rt: &R,
    alloc: Global,
    session: &Result<Session, u32>,
    runs: &Result<Seq<Run>, u32>,
) -> Result<(Answer, Outcome), AllocError>
    ensures told { (first second : List ℕ) → IsRead SpellsSession first session.now → IsRead SpellsOrder second runs.now → IfOk result (λ replayed. IsReplayAnswer first second replayed.0.text.items replayed.0.status) }
    ensures right { (first second : List ℕ) → IsRead SpellsSession first session.now → IsRead SpellsOrder second runs.now → IfOk result (λ replayed. IsOutcome first second replayed.1) }
{
    let outcome = find_outcome(rt, alloc, session, runs)?;
    let mut text = Vec::new(alloc);
    push_outcome(&mut text, outcome)?;
    let answer = Answer {
        text,
        status: outcome_status(outcome),
    };
    Ok((answer, outcome))
}

/// `replay`: the outcome for a session along runs.
#[derive(Clone, Copy)]
pub struct ReplayCommand<'a, R> {
    pub rt: &'a R,
}

impl<R: Threads + Sync> OnTwo for ReplayCommand<'_, R> {
    type First = SessionTaker;

    type Second = OrderReader;

    type Said = Outcome;

    ghost ready = { IsSync R.row };

    ghost is_answer = { λ _ texts. IsReplayAnswer texts.0 texts.1 };

    ghost is_said = { λ _ texts outcome. IsOutcome texts.0 texts.1 outcome };

    ghost adds_more = { λ _. AddsReasonOf };

    fn is_about_second(&self) -> bool {
        false
    }

    fn answer(
        &self,
        alloc: Global,
        session: &Result<Session, u32>,
        runs: &Result<Seq<Run>, u32>,
    ) -> Result<(Answer, Outcome), Fault<'static>> {
        given(replay_read(self.rt, alloc, session, runs))
    }

    fn push_more(
        &self,
        out: &mut Vec<u8>,
        name: &[u8],
        _session: &Result<Session, u32>,
        _runs: &Result<Seq<Run>, u32>,
        outcome: Outcome,
    ) -> Result<(), AllocError> {
        push_reason(out, name, outcome)
    }

    fn note(
        &self,
        _alloc: Global,
        _first: &Result<Session, u32>,
        _second: &Result<Seq<Run>, u32>,
        _answer: &Answer,
    ) -> Result<Option<Vec<u8>>, AllocError> {
        Ok(None)
    }
}
