//! What was found at a line, in words.

use crate::fields::Misfit;
use crate::fitting::{Departure, Fit};
use crate::line_fault::LineFault;
use crate::quoting::push_quote;
use crate::refused::Refused;
use crate::special::Special;
use std::alloc::AllocError;

/// Returns the part of a word that does not fit, if the word is not empty.
fn unfit_in(word: &[u8], misfit: Misfit) -> Option<&[u8]> {
    if word.is_empty() {
        return None;
    }
    match misfit {
        Misfit::Byte(at) => {
            let (_, from) = word.split_at(at.min(word.len()));
            let (byte, _) = from.split_at(from.len().min(1));
            Some(byte)
        }
        Misfit::Whole => Some(word),
    }
}

/// Returns what of a line does not fit a form, or `None` if the line ends where it departs from the form.
fn unfit_at<'a>(line: &'a [u8], fit: &Fit<'a>) -> Option<&'a [u8]> {
    match fit.stop {
        Departure::Missing(_) | Departure::Cut(_) => None,
        _ if fit.is_of_line() => Some(line),
        Departure::Word { word, misfit, .. } => unfit_in(word, misfit),
        Departure::Surplus => {
            let (_, surplus) = line.split_at(fit.at.min(line.len()));
            Some(surplus)
        }
        Departure::Nowhere => Some(line),
    }
}

/// Returns the bytes that were found where a line is wrong, or `None` if the line or the text ends there, or if it is
/// wrong as a whole.
pub(crate) fn found_in<'a>(refused: &'a Refused, fault: &LineFault<'a>) -> Option<&'a [u8]> {
    let line = refused.misread.text.as_slice();
    match fault {
        LineFault::Rule | LineFault::Other => Some(line),
        LineFault::Stops(fit) => unfit_at(line, fit),
        LineFault::Special(Special::CarriageReturn) => {
            let (_, end) = line.split_at(line.len().saturating_sub(1));
            Some(end)
        }
        LineFault::Memory
        | LineFault::Special(_)
        | LineFault::Ends
        | LineFault::Unended
        | LineFault::Empty => None,
    }
}

fn push_in_line(out: &mut String, line: &[u8]) -> Result<(), AllocError> {
    out.push_str(" in ")?;
    push_quote(out, line)
}

/// Appends the line in which something was found, unless it can be understood without the rest, as a word behind a key.
fn push_context(out: &mut String, line: &[u8], fault: &LineFault<'_>) -> Result<(), AllocError> {
    let LineFault::Stops(fit) = fault else {
        return Ok(());
    };
    match fit.stop {
        _ if fit.is_of_line() => Ok(()),
        Departure::Word {
            misfit: Misfit::Whole,
            ..
        } if fit.form.split(' ').count() <= 2 => Ok(()),
        Departure::Word { .. } => push_in_line(out, line),
        Departure::Surplus => {
            let (before, _) = line.split_at(fit.at.min(line.len()));
            out.push_str(" after ")?;
            push_quote(out, before)
        }
        Departure::Missing(_) | Departure::Cut(_) | Departure::Nowhere => Ok(()),
    }
}

/// Appends that a line departs from a form at its end, or at a second space.
fn push_missing(
    out: &mut String,
    line: &[u8],
    is_last: bool,
    fit: &Fit<'_>,
) -> Result<(), AllocError> {
    match fit.stop {
        Departure::Missing(_) | Departure::Cut(_) => {
            out.push_str(if is_last {
                "the text ends in the middle of a line, after "
            } else {
                "found the end of the line after "
            })?;
            push_quote(out, line)
        }
        Departure::Word { .. } | Departure::Surplus | Departure::Nowhere => {
            out.push_str("found a second space")?;
            push_in_line(out, line)
        }
    }
}

/// Appends what was found at a line.
pub(crate) fn push_found(
    out: &mut String,
    refused: &Refused,
    fault: &LineFault<'_>,
) -> Result<(), AllocError> {
    let line = refused.misread.text.as_slice();
    if let Some(bytes) = found_in(refused, fault) {
        out.push_str("found ")?;
        push_quote(out, bytes)?;
        return push_context(out, line, fault);
    }
    match fault {
        LineFault::Ends if refused.line == 1 => out.push_str("the text is empty"),
        LineFault::Ends => out.push_str("the text ends here"),
        LineFault::Unended => out.push_str("the text ends in the middle of a line"),
        LineFault::Empty => out.push_str("found an empty line"),
        LineFault::Stops(fit) => push_missing(out, line, refused.misread.is_last, fit),
        LineFault::Memory | LineFault::Special(_) | LineFault::Rule | LineFault::Other => Ok(()),
    }
}
