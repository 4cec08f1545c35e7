//! What a file is that is no text of its kind, in words.

use crate::special::{Kind, Special};
use std::alloc::AllocError;

fn push_report(out: &mut String, behind: Option<Kind>, wanted: Kind) -> Result<(), AllocError> {
    let kind = wanted.words();
    write!(out, "this is a report of audit; expected {kind}")?;
    if behind == Some(wanted) {
        out.push_str(", which stands below its first line")?;
    }
    Ok(())
}

fn push_records(out: &mut String, wanted: Kind) -> Result<(), AllocError> {
    out.push_str("this is one file of a recording; ")?;
    if wanted == Kind::Session {
        return out.push_str("name its folder, or make a session of that (postcopy session FOLDER)");
    }
    let kind = wanted.words();
    write!(out, "expected {kind}")
}

fn push_another(
    out: &mut String,
    found: Kind,
    wanted: Kind,
    is_one_of_two: bool,
) -> Result<(), AllocError> {
    let found = found.words();
    let wanted = wanted.words();
    write!(out, "this is {found}; expected {wanted}")?;
    if is_one_of_two {
        out.push_str(": are the two files swapped?")?;
    }
    Ok(())
}

/// Appends what a file is, or how its lines end, and what helps.
pub(crate) fn push_special(out: &mut String, special: Special) -> Result<(), AllocError> {
    match special {
        Special::ByteOrderMark => {
            out.push_str("found a byte order mark; texts are ASCII and have none")
        }
        Special::Utf16 => out.push_str(
            "this is UTF-16; texts are ASCII, a byte for each character",
        ),
        Special::Packed(kind) => write!(out, "this is {kind} file; unpack it first"),
        Special::Another {
            found,
            wanted,
            is_one_of_two,
        } => push_another(out, found, wanted, is_one_of_two),
        Special::Report { behind, wanted } => push_report(out, behind, wanted),
        Special::Records { wanted } => push_records(out, wanted),
        Special::CarriageReturn => out.push_str(
            "found a carriage return at the end of the line; lines end with a line feed alone (dos2unix mends a file)",
        ),
    }
}
