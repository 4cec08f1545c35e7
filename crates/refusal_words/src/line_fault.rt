//! What is wrong with a refused line, and where.

ghost use Rattle.std.specs.Prelude.{◌≤◌};

use crate::fitting::{Departure, Fit, best_fit};
use crate::refused::Refused;
use crate::special::{Special, special_of};
use text_lines::FaultKind;

/// What is wrong with a line.
#[derive(Clone, Copy)]
pub(crate) enum LineFault<'a> {
    /// Nothing: memory ran out when it was read.
    Memory,
    Special(Special),
    /// The text ends where a line is expected.
    Ends,
    /// The text ends after a line that has one of the forms, without its line feed.
    Unended,
    Empty,
    /// The line has one of the forms, and breaks the rule.
    Rule,
    /// The line does not begin as any of the forms does.
    Other,
    /// The line begins as a form does, and departs from it later.
    Stops(Fit<'a>),
}

/// Returns what is wrong with a line that is not empty.
fn line_fault_in(refused: &Refused) -> LineFault<'_> {
    let Some(fit) = best_fit(refused) else {
        return LineFault::Other;
    };
    match fit.stop {
        Departure::Nowhere if refused.misread.is_last => LineFault::Unended,
        Departure::Nowhere => LineFault::Rule,
        Departure::Cut(_) => LineFault::Stops(fit),
        _ if fit.words == 0 => LineFault::Other,
        _ => LineFault::Stops(fit),
    }
}

/// Returns what is wrong with the refused line.
pub(crate) fn line_fault_of(refused: &Refused) -> LineFault<'_> {
    if refused.misread.kind == FaultKind::Memory {
        return LineFault::Memory;
    }
    if let Some(special) = special_of(refused) {
        return LineFault::Special(special);
    }
    if !refused.misread.text.is_empty() {
        return line_fault_in(refused);
    }
    if refused.misread.is_last {
        LineFault::Ends
    } else {
        LineFault::Empty
    }
}

/// Returns how many bytes of the line come before the place where it is wrong.
pub(crate) fn place_of(refused: &Refused, fault: &LineFault<'_>) -> usize {
    match fault {
        LineFault::Stops(fit) if fit.is_of_line() => 0,
        LineFault::Stops(fit) => fit.at,
        LineFault::Unended => refused.misread.text.len(),
        LineFault::Special(Special::CarriageReturn) => refused.misread.text.len().saturating_sub(1),
        LineFault::Memory
        | LineFault::Special(_)
        | LineFault::Ends
        | LineFault::Empty
        | LineFault::Rule
        | LineFault::Other => 0,
    }
}

/// Returns the column at which the line is wrong. Columns count bytes from 1.
pub(crate) fn column_of(refused: &Refused, fault: &LineFault<'_>) -> usize
    ensures { 1 ≤ result }
{
    place_of(refused, fault).saturating_add(1)
}
