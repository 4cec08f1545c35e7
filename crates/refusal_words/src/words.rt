//! The sentence about a refused line.

mod expected;
mod found;
mod meanings;
mod specials;

use crate::line_fault::LineFault;
use crate::refused::Refused;
pub(crate) use crate::words::expected::expected_forms;
use crate::words::expected::push_expected;
pub(crate) use crate::words::found::found_in;
use crate::words::found::push_found;
use crate::words::specials::push_special;
pub(crate) use meanings::{push_meaning, push_new};
use std::alloc::AllocError;

/// Appends what was found at a line, and what is allowed there.
pub(crate) fn push_sentence(
    out: &mut String,
    refused: &Refused,
    fault: &LineFault<'_>,
) -> Result<(), AllocError> {
    match fault {
        LineFault::Memory => out.push_str("out of memory"),
        LineFault::Special(special) => push_special(out, *special),
        LineFault::Ends
        | LineFault::Unended
        | LineFault::Empty
        | LineFault::Rule
        | LineFault::Other
        | LineFault::Stops(_) => {
            push_found(out, refused, fault)?;
            push_expected(out, refused, fault)
        }
    }
}
