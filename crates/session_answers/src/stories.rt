//! The story of a session, written in a form.

ghost use Rattle.std.specs.Prelude.{IfOk};
ghost use Rattle.audit_report.specs.Reports.{IsReport};
ghost use Rattle.session_answers.specs.Judged.{Refused, Reported};
ghost use Rattle.session_answers.specs.Forms.{TellsRecords, TellsRefusalObject, TellsStory};

use crate::forms::Story;
use crate::telling::{print_refused, print_topic};
use crate::{push_refused, push_told};
use audit_report::{Lines, Report};
use migration_types::{Session, Topic};
use session_story::tell;
use std::alloc::{AllocError, Global};

/// Returns the object of the report with the records of the story on a topic, with its line numbers from `lines`. Fails
/// only if memory runs out.
fn object_of_story<L: Lines>(
    alloc: Global,
    lines: &L,
    session: &Session,
    report: &Report,
    topic: Topic,
) -> Result<Vec<u8>, AllocError>
    requires { IsReport session.now report.now }
    ensures { IfOk result (λ text. TellsRecords (L.tell lines.now) session.now report.now topic text.items) }
{
    let told = tell(alloc, session, report, topic)?;
    let mut object = Vec::new(alloc);
    push_told(alloc, &mut object, lines, session, report, &told)?;
    Ok(object)
}

/// Returns the story of a session with this report in this form, with its line numbers from `lines`. Fails only if
/// memory runs out.
pub fn print_story<L: Lines>(
    alloc: Global,
    lines: &L,
    session: &Session,
    report: &Report,
    story: Story,
) -> Result<Vec<u8>, AllocError>
    requires { IsReport session.now report.now }
    ensures { IfOk result (λ text. TellsStory (L.tell lines.now) story (Reported session.now report.now) text.items) }
{
    match story {
        Story::Words(topic) => print_topic(alloc, lines, session, report, topic),
        Story::Object(topic) => object_of_story(alloc, lines, session, report, topic),
    }
}

/// Returns the object that says that a session's text is refused at this line, with its line number from `lines`. Fails
/// only if memory runs out.
pub(crate) fn object_of_refusal<L: Lines>(
    alloc: Global,
    lines: &L,
    line: u32,
) -> Result<Vec<u8>, AllocError>
    ensures { IfOk result (λ text. TellsRefusalObject (L.tell lines.now line) text.items) }
{
    let mut object = Vec::new(alloc);
    push_refused(&mut object, lines, line)?;
    Ok(object)
}

/// Returns the text that says in this form that a session's text is refused at this line, with its line number from
/// `lines`. Fails only if memory runs out.
pub fn print_story_refusal<L: Lines>(
    alloc: Global,
    lines: &L,
    line: u32,
    story: Story,
) -> Result<Vec<u8>, AllocError>
    ensures { IfOk result (λ text. TellsStory (L.tell lines.now) story (Refused line) text.items) }
{
    match story {
        Story::Words(_) => print_refused(alloc, lines, line),
        Story::Object(_) => object_of_refusal(alloc, lines, line),
    }
}
