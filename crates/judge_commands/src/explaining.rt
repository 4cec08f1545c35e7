//! Stories of sessions whose line numbers come from a table.

ghost use Rattle.std.specs.Prelude.{ℕ, List, IfOk, true};
ghost use Rattle.std.specs.Thread.{IsSync};
ghost use Rattle.text_lines.specs.Answer.{IsRead};
ghost use Rattle.session_log.specs.Grammar.{SpellsSession};
ghost use Rattle.session_answers.specs.Forms.{TellsStory};
ghost use Rattle.session_answers.specs.Judged.{IsJudgedTold};
ghost use Rattle.windows.specs.Tables.{SpellsTable};
ghost use Rattle.command_texts.specs.Answers.{Says};
ghost use Rattle.judge_commands.specs.Answers.{story_telling};
ghost use Rattle.judge_commands.specs.ByTables.{IsExplainedByTable, refused_table};
ghost use Rattle.judge_commands.specs.Completed.{IsExplained};
ghost use Rattle.judge_commands.specs.Noted.{IsBeside};
ghost use Rattle.judge_commands.specs.inner.Reported.{SaysRefusal, SaysReport};

use crate::auditing::report_status;
use crate::completing::held;
use crate::forms::telling_by;
use crate::noting::note_on;
use audit_report::{Lines, audit};
use command_texts::{
    Answer, Fault, Gathered, OnTwo, REFUSED, SessionTaker, Telling, given_alone, refused,
};
use completeness::Extent;
use migration_types::{Seq, Session};
use session_answers::{LackForm, Story, print_story, print_story_refusal, push_refused_table};
use session_log::session_texts_are_unambiguous;
use std::alloc::{AllocError, Global};
use std::thread::Threads;
use windows::TableParts;

/// Returns the story of a session in this form, with these line numbers.
fn told<R: Threads + Sync, L: Lines>(
    rt: &R,
    lines: &L,
    story: Story,
    alloc: Global,
    session: &Session,
) -> Result<Answer, AllocError>
    ensures { IfOk result (SaysReport (TellsStory (L.tell lines.now) story) session.now) }
{
    let report = audit(rt, alloc, session)?;
    let text = print_story(alloc, lines, session, &report, story)?;
    let status = report_status(&report);
    Ok(Answer { text, status })
}

/// Returns the answer for a session's text that is refused at this line, in this form, with these line numbers.
fn told_refused<L: Lines>(
    lines: &L,
    story: Story,
    alloc: Global,
    line: u32,
) -> Result<Answer, AllocError>
    ensures { IfOk result (SaysRefusal (TellsStory (L.tell lines.now) story) line) }
{
    let text = print_story_refusal(alloc, lines, line, story)?;
    Ok(Answer {
        text,
        status: REFUSED,
    })
}

/// Returns the story of a session in this form, with these line numbers, given what was read from its text.
fn told_read<R: Threads + Sync, L: Lines>(
    rt: &R,
    lines: &L,
    story: Story,
    alloc: Global,
    session: &Result<Session, u32>,
) -> Result<Answer, AllocError>
    ensures { (text : List ℕ) → IsRead SpellsSession text session.now → IfOk result (λ answer. IsJudgedTold (TellsStory (L.tell lines.now) story) text answer.text.items answer.status) }
{
    match session {
        Ok(session) => told(rt, lines, story, alloc, session),
        Err(line) => told_refused(lines, story, alloc, *line),
    }
}

/// Returns the answer to what is asked about a session, with these line numbers, given what was read from its text.
fn explained<R: Threads + Sync, L: Lines>(
    rt: &R,
    lines: &L,
    story: Story,
    complete: Option<Extent>,
    alloc: Global,
    session: &Result<Session, u32>,
) -> Result<Answer, AllocError>
    ensures { (text : List ℕ) → IsRead SpellsSession text session.now → IfOk result (λ answer. IsExplained (L.tell lines.now) story complete text answer.text.items answer.status) }
{
    session_texts_are_unambiguous();
    let answer = told_read(rt, lines, story, alloc, session)?;
    held(lines, story.of_lack(), complete, alloc, session, answer)
}

/// Returns the answer to a table that is refused at this line, by the form of what a session lacks.
fn table_refused(alloc: Global, form: LackForm, line: u32) -> Result<Answer, AllocError>
    ensures { IfOk result (λ answer. Says answer (refused_table form line) 1) }
{
    match form {
        LackForm::Line | LackForm::Words => refused(alloc, b"lines-text line ", line),
        LackForm::Object => {
            let mut text = Vec::new(alloc);
            push_refused_table(&mut text, line)?;
            Ok(Answer {
                text,
                status: REFUSED,
            })
        }
    }
}

/// Returns the answer with the line numbers of a table, given what was read from the texts of a session and of the
/// table.
fn explained_by<R: Threads + Sync>(
    rt: &R,
    story: Story,
    complete: Option<Extent>,
    alloc: Global,
    session: &Result<Session, u32>,
    table: &Result<Seq<u64>, u32>,
) -> Result<Answer, AllocError>
    ensures { (first second : List ℕ) → IsRead SpellsSession first session.now → IsRead SpellsTable second table.now → IfOk result (λ answer. IsExplainedByTable story complete (first, second) answer.text.items answer.status) }
{
    match table {
        Ok(table) => explained(rt, table, story, complete, alloc, session),
        Err(line) => table_refused(alloc, story.of_lack(), *line),
    }
}

/// `explain` with a table: the story of a session, with the line numbers of the table that the second text spells.
#[derive(Clone, Copy)]
pub struct ExplainByTable<'a, R> {
    pub rt: &'a R,
    /// The form of the story.
    pub story: Story,
    /// To what extent the session must be complete, if that is asked.
    pub complete: Option<Extent>,
}

impl<R: Threads + Sync> OnTwo for ExplainByTable<'_, R> {
    type First = SessionTaker;

    type Second = Gathered<TableParts>;

    type Said = ();

    ghost ready = { IsSync R.row };

    ghost is_answer = { λ command. IsExplainedByTable command.story command.complete };

    ghost how_much = { λ command. story_telling command.story };

    ghost about_second = { λ _. true };

    ghost has_note = { λ command texts. IsBeside command.complete texts.0 };

    fn telling(&self) -> Telling {
        telling_by(self.story.of_lack())
    }

    fn is_about_second(&self) -> bool {
        true
    }

    fn answer(
        &self,
        alloc: Global,
        session: &Result<Session, u32>,
        table: &Result<Seq<u64>, u32>,
    ) -> Result<(Answer, ()), Fault<'static>> {
        given_alone(explained_by(self.rt, self.story, self.complete, alloc, session, table))
    }

    fn push_more(
        &self,
        _out: &mut Vec<u8>,
        _name: &[u8],
        _session: &Result<Session, u32>,
        _table: &Result<Seq<u64>, u32>,
        _said: (),
    ) -> Result<(), AllocError> {
        Ok(())
    }

    fn note(
        &self,
        alloc: Global,
        session: &Result<Session, u32>,
        _table: &Result<Seq<u64>, u32>,
        answer: &Answer,
    ) -> Result<Option<Vec<u8>>, AllocError> {
        note_on(alloc, session, self.complete, self.story.of_lack(), answer)
    }
}
