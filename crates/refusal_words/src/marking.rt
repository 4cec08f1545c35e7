//! A refused line with a mark under the place, and the forms that are allowed there.

use crate::fields::field_of;
use crate::line_fault::{LineFault, place_of};
use crate::quoting::{CUT, push_shown, width};
use crate::refused::Refused;
use crate::words::{push_meaning, push_new};
use std::alloc::AllocError;
use text_lines::Wanted;

/// The greatest number of columns that a line's bytes take: 100 with what comes before them, and with the mark for what
/// is left out.
const ROOM: usize = 96;

/// How many bytes before the place are shown of a line that is too long.
const BEFORE: usize = 20;

/// The beginning of a line that belongs to the one above it.
const INDENT: &str = "  ";

/// Returns how many columns bytes take.
fn columns(bytes: &[u8]) -> usize {
    let mut sum = 0usize;
    for byte in bytes {
        sum = sum.saturating_add(width(*byte));
    }
    sum
}

/// Returns how many of the first bytes fit into this many columns.
fn fitting(bytes: &[u8], room: usize) -> usize {
    let mut taken = 0usize;
    let mut count = 0usize;
    for byte in bytes {
        taken = taken.saturating_add(width(*byte));
        if taken > room {
            return count;
        }
        count = count.saturating_add(1);
    }
    count
}

/// Appends a line, cut if it is long, and a mark under the place after its first `at` bytes.
fn push_line_marked(out: &mut String, line: &[u8], at: usize) -> Result<(), AllocError> {
    let (before, behind) = line.split_at(at.min(line.len()));
    let begin = if columns(line) <= ROOM {
        0
    } else {
        before.len().saturating_sub(BEFORE)
    };
    let (left_out, front) = before.split_at(begin.min(before.len()));
    let lead = if left_out.is_empty() { "" } else { CUT };
    let taken = lead.len().saturating_add(columns(front));
    let room = ROOM.saturating_sub(taken);
    let (back, rest) = behind.split_at(fitting(behind, room).min(behind.len()));
    write!(out, "{INDENT}{lead}")?;
    push_shown(out, front)?;
    push_shown(out, back)?;
    if !rest.is_empty() {
        out.push_str(CUT)?;
    }
    write!(out, "\n{INDENT}")?;
    for _ in 0..taken.saturating_add(at.saturating_sub(line.len())) {
        out.push(' ')?;
    }
    out.push_str("^\n")
}

/// Adds the fields of a form, each once.
fn push_fields_of(fields: &mut Vec<&'static str>, form: &'static str) -> Result<(), AllocError> {
    for slot in form.split(' ') {
        if field_of(slot).is_some() {
            push_new(fields, slot)?;
        }
    }
    Ok(())
}

fn push_forms(out: &mut String, forms: &[&'static str]) -> Result<(), AllocError> {
    out.push_str(if forms.len() == 1 {
        "its form:\n"
    } else {
        "one of:\n"
    })?;
    for form in forms {
        write!(out, "{INDENT}{form}\n")?;
    }
    Ok(())
}

/// Appends the meaning of a field, on a line.
fn push_field(out: &mut String, slot: &str, wanted: &Wanted) -> Result<(), AllocError> {
    let Some(field) = field_of(slot) else {
        return Ok(());
    };
    write!(out, "{slot} is ")?;
    push_meaning(out, field, wanted)?;
    out.push('\n')
}

/// Appends the meaning of each field of the forms.
fn push_fields(out: &mut String, wanted: &Wanted) -> Result<(), AllocError> {
    let mut fields = Vec::new(*out.allocator());
    for form in wanted.forms {
        push_fields_of(&mut fields, form)?;
    }
    for slot in &fields {
        push_field(out, slot, wanted)?;
    }
    Ok(())
}

/// Appends a line with a mark under the place where it is wrong, and the forms that are allowed there.
pub(crate) fn push_marked(
    out: &mut String,
    refused: &Refused,
    fault: &LineFault<'_>,
) -> Result<(), AllocError> {
    let line = refused.misread.text.as_slice();
    if !line.is_empty() {
        push_line_marked(out, line, place_of(refused, fault))?;
    }
    match fault {
        LineFault::Memory | LineFault::Special(_) => Ok(()),
        _ if refused.misread.wanted.forms.is_empty() => Ok(()),
        _ => {
            push_forms(out, refused.misread.wanted.forms)?;
            push_fields(out, &refused.misread.wanted)
        }
    }
}
