//! The meaning of the fields of a form, in words.

use crate::fields::{FieldKind, MOST_FATES, digits_of, range_of};
use std::alloc::AllocError;
use text_lines::Wanted;

/// Returns the noun for what a field holds.
fn noun(field: FieldKind) -> &'static str {
    match field {
        FieldKind::Processor => "a virtual processor",
        FieldKind::Page => "a page",
        FieldKind::Cell => "a cell",
        FieldKind::Value => "a value",
        FieldKind::Record => "the number of a record",
        FieldKind::Number => "a number",
        FieldKind::Exact => "the number",
        FieldKind::Contents => "contents",
        FieldKind::Fates => "the fates of packets",
        FieldKind::Fate => "the fate of a packet",
    }
}

fn push_contents(out: &mut String, wanted: &Wanted) -> Result<(), AllocError> {
    match digits_of(wanted) {
        None => out.push_str("16 digits for each cell")?,
        Some(digits) => {
            let cells = wanted.cells;
            let s = if cells == 1 { "" } else { "s" };
            write!(out, "{digits} digits for {cells} cell{s}")?;
        }
    }
    out.push_str(", each 0 to 9 or a to f")
}

/// Appends the meaning of a field.
pub(crate) fn push_meaning(
    out: &mut String,
    field: FieldKind,
    wanted: &Wanted,
) -> Result<(), AllocError> {
    let noun = noun(field);
    if let Some(range) = range_of(field, wanted) {
        let least = range.least;
        let most = range.most;
        return match field {
            FieldKind::Exact => write!(out, "{noun} {most}"),
            _ if least == most => write!(out, "{noun}, here only {most}"),
            _ => write!(out, "{noun} from {least} to {most}"),
        };
    }
    match field {
        FieldKind::Contents => push_contents(out, wanted),
        FieldKind::Fates => write!(
            out,
            "{noun}, - or 1 to {MOST_FATES} letters of d, l, r and b"
        ),
        _ => write!(out, "{noun}, deliver, lose, repeat or back"),
    }
}

/// Appends a word, unless it is there already.
pub(crate) fn push_new(
    words: &mut Vec<&'static str>,
    word: &'static str,
) -> Result<(), AllocError> {
    if !words.iter().any(|other| *other == word) {
        words.push(word)?;
    }
    Ok(())
}
