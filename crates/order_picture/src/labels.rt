//! The labels in the boxes of a picture: what the record did, to which cell of which page, and which record it names.

use crate::boxes::Label;
use crate::drawing::RecordBox;
use crate::heading::Subject;
use crate::records::guest_record;
use crate::words::RIGHT_VALUE;
use migration_types::{Field, GuestRec, Session};
use session_story::{Name, amended_by};
use std::alloc::AllocError;
use text_lines::push_number;

/// Appends a field: a page as in " p1", a cell as in "[0]", a value as in " = 9", and a record as in " guest 5".
fn push_field(out: &mut Vec<u8>, field: Field) -> Result<(), AllocError> {
    match field {
        Field::Vcpu(_) => Ok(()),
        Field::Page(page) => {
            out.extend_from_slice(b" p")?;
            push_number(out, page.number())
        }
        Field::Cell(cell) => {
            out.extend_from_slice(b"[")?;
            push_number(out, cell)?;
            out.extend_from_slice(b"]")
        }
        Field::Value(value) => {
            out.extend_from_slice(b" = ")?;
            push_number(out, value)
        }
        Field::Number(log, number) | Field::Handover(log, number) => {
            out.extend_from_slice(b" ")?;
            out.extend_from_slice(log.word().as_bytes())?;
            out.extend_from_slice(b" ")?;
            push_number(out, number)
        }
    }
}

/// Returns the word for what was done: for a use or a release, a word instead of the letter that lines have.
fn done_word(session: &Session, name: Name, word: &'static [u8]) -> &'static [u8] {
    match guest_record(session, name) {
        Some(GuestRec::Read { .. }) => b"read",
        Some(GuestRec::Write { .. }) => b"write",
        Some(GuestRec::Release { .. }) => b"release",
        _ => word,
    }
}

/// Appends the fields of a record.
fn push_fields(out: &mut Vec<u8>, fields: &[Field]) -> Result<(), AllocError> {
    for field in fields {
        push_field(out, *field)?;
    }
    Ok(())
}

/// Appends the cell with the wrong value of the faulty record, and the right one, if they are known, as in " p1[0] = 7,
/// right: 9".
fn push_wrong(out: &mut Vec<u8>, subject: Subject<'_>) -> Result<(), AllocError> {
    let Some(amended) = amended_by(subject.session, subject.told) else {
        return Ok(());
    };
    push_field(out, Field::Page(amended.page))?;
    push_field(out, Field::Cell(amended.cell))?;
    push_field(out, Field::Value(amended.wrong))?;
    out.extend_from_slice(RIGHT_VALUE)?;
    push_number(out, amended.right)
}

/// Appends the label of a box.
pub(crate) fn push_label(
    out: &mut Vec<u8>,
    subject: Subject<'_>,
    one: &RecordBox,
) -> Result<(), AllocError> {
    let Some(row) = subject.session.row(one.name) else {
        return Ok(());
    };
    out.extend_from_slice(done_word(subject.session, one.name, row.word()))?;
    match one.label {
        Label::Recorded => push_fields(out, row.fields()),
        Label::Amended => push_wrong(out, subject),
    }
}
