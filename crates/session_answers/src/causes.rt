//! The cause of a fault of a page.

ghost use Rattle.std.specs.Prelude.{◌≡◌, ◌++◌, OnOk};
ghost use Rattle.session_answers.specs.CausesText.{against_at, against_told, blamed_at, blamed_told, cause_told, kind_told, line_shown};

use crate::fields::{open, push_record, push_record_in};
use audit_report::Lines;
use migration_types::Session;
use session_story::{Cause, CauseKind, Name, line_at};
use std::alloc::AllocError;

/// Returns the line number that is printed for a record, if the session has the record.
pub(crate) fn line_shown<L: Lines>(lines: &L, session: &Session, name: Name) -> Option<u64>
    ensures { result ≡ line_shown (L.tell lines.now) session.now name }
{
    match line_at(session, name.0, name.1) {
        Some(line) => Some(lines.line(line)),
        None => None,
    }
}

/// Appends the record with which a page goes wrong, if it has a line.
#[tactic(auto, unfolding(crate::specs::CausesText::blamed_at))]
fn push_blamed_at(out: &mut Vec<u8>, name: Name, line: Option<u64>) -> Result<(), AllocError>
    ensures { OnOk result (out.new.items ≡ out.old.items ++ blamed_at name line) }
{
    match line {
        Some(line) => push_record(out, line, name.0, name.1),
        None => Ok(()),
    }
}

/// Appends the record with which a page goes wrong, if there is one.
#[tactic(auto, unfolding(crate::specs::CausesText::blamed_told))]
fn push_blamed<L: Lines>(
    out: &mut Vec<u8>,
    lines: &L,
    session: &Session,
    name: Option<Name>,
) -> Result<(), AllocError>
    ensures { OnOk result (out.new.items ≡ out.old.items ++ blamed_told (L.tell lines.now) session.now name) }
{
    match name {
        Some(name) => push_blamed_at(out, name, line_shown(lines, session, name)),
        None => Ok(()),
    }
}

/// Appends the record that a cause is set against, if it has a line.
#[tactic(auto, unfolding(crate::specs::CausesText::against_at))]
fn push_against_at(out: &mut Vec<u8>, name: Name, line: Option<u64>) -> Result<(), AllocError>
    ensures { OnOk result (out.new.items ≡ out.old.items ++ against_at name line) }
{
    match line {
        Some(line) => {
            out.extend_from_slice(b",\"against\":")?;
            open(out, b"line", line)?;
            push_record_in(out, name.0, name.1)?;
            out.extend_from_slice(b"}")
        }
        None => Ok(()),
    }
}

/// Appends the record that a cause is set against, if there is one.
#[tactic(auto, unfolding(crate::specs::CausesText::against_told))]
fn push_against<L: Lines>(
    out: &mut Vec<u8>,
    lines: &L,
    session: &Session,
    name: Option<Name>,
) -> Result<(), AllocError>
    ensures { OnOk result (out.new.items ≡ out.old.items ++ against_told (L.tell lines.now) session.now name) }
{
    match name {
        Some(name) => push_against_at(out, name, line_shown(lines, session, name)),
        None => Ok(()),
    }
}

/// Appends what comes before the records of a cause.
#[tactic(auto, unfolding(crate::specs::CausesText::kind_told))]
fn push_kind(out: &mut Vec<u8>, kind: CauseKind) -> Result<(), AllocError>
    ensures { OnOk result (out.new.items ≡ out.old.items ++ kind_told kind) }
{
    out.extend_from_slice(b",\"cause\":{\"kind\":\"")?;
    out.extend_from_slice(kind.word())?;
    out.extend_from_slice(b"\"")
}

/// Appends the cause of a fault, if there is one.
#[tactic(auto, unfolding(crate::specs::CausesText::cause_told))]
pub(crate) fn push_cause<L: Lines>(
    out: &mut Vec<u8>,
    lines: &L,
    session: &Session,
    cause: Option<Cause>,
) -> Result<(), AllocError>
    ensures { OnOk result (out.new.items ≡ out.old.items ++ cause_told (L.tell lines.now) session.now cause) }
{
    match cause {
        Some(cause) => {
            push_kind(out, cause.kind)?;
            push_blamed(out, lines, session, cause.blamed)?;
            push_against(out, lines, session, cause.against)?;
            out.extend_from_slice(b"}")
        }
        None => Ok(()),
    }
}
