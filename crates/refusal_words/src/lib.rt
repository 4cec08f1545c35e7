//! Why a text is refused, in words for people. The words may change, so programs should not read them.
#![tactic(auto)]

ghost use Rattle.std.specs.Prelude.{◌≤◌, IfOk, OnOk};
ghost use Rattle.text_lines.specs.Text.{IsLine};
ghost use Rattle.refusal_words.specs.Placed.{AddsPlaced, AddsPlacedFirst};

use crate::line_fault::{LineFault, column_of, line_fault_of};
use crate::marking::push_marked;
use crate::placing::{first_line, push_placed};
use crate::quoting::push_short;
use crate::words::{expected_forms, found_in, push_sentence};
use std::alloc::{AllocError, Global};

mod fields;
mod fitting;
mod hiding;
mod line_fault;
mod marking;
mod placing;
mod quoting;
mod refused;
mod slips;
mod special;
mod words;

pub use hiding::{Escape, escape_of, is_hidden};
pub use placing::push_at;
pub use quoting::push_quote;
pub use refused::{Misread, Refused};
pub use special::{RECORDERS_FILE, text_begun};

/// Why a text is refused.
#[derive(Drop)]
pub struct Reason {
    /// The column at which the line is wrong. Columns count bytes from 1.
    pub column: usize,
    /// The bytes that were found there, as they are shown, unless the line or the text ends there.
    pub found: Option<String>,
    /// The forms that are allowed there, if the line has none of them.
    pub expected: Vec<&'static str>,
    /// What was found there, and what is allowed there, in one line without a line feed.
    pub words: Vec<u8>,
}

/// Returns what was found where a line is wrong, as it is shown.
fn shown_in(
    alloc: Global,
    refused: &Refused,
    fault: &LineFault<'_>,
) -> Result<Option<String>, AllocError> {
    let Some(bytes) = found_in(refused, fault) else {
        return Ok(None);
    };
    let mut shown = String::new(alloc);
    push_short(&mut shown, bytes)?;
    Ok(Some(shown))
}

/// Returns what was found at a line, and what is allowed there, in one line.
fn words_of(alloc: Global, refused: &Refused, fault: &LineFault<'_>) -> Result<Vec<u8>, AllocError>
    ensures { IfOk result (λ words. IsLine words.items) }
{
    let mut sentence = String::new(alloc);
    push_sentence(&mut sentence, refused, fault)?;
    let mut words = Vec::new(alloc);
    words.extend_from_slice(first_line(sentence.as_bytes()))?;
    Ok(words)
}

/// Returns why a text is refused. Fails only if memory runs out.
pub fn reason_of(alloc: Global, refused: &Refused) -> Result<Reason, AllocError>
    ensures { IfOk result (λ reason. (1 ≤ reason.column) × IsLine reason.words.items) }
{
    let fault = line_fault_of(refused);
    let found = shown_in(alloc, refused, &fault)?;
    let expected = expected_forms(alloc, refused, &fault)?;
    let words = words_of(alloc, refused, &fault)?;
    Ok(Reason {
        column: column_of(refused, &fault),
        found,
        expected,
        words,
    })
}

/// Appends why a text is refused, in one line that begins with `NAME:LINE:COLUMN: `: what was found there, and what is
/// allowed there. Columns count bytes from 1. Fails only if memory runs out.
pub fn push_why(out: &mut Vec<u8>, name: &[u8], refused: &Refused) -> Result<(), AllocError>
    ensures { OnOk result (AddsPlaced name.now refused.now.line out.old.items out.new.items) }
{
    let reason = reason_of(*out.allocator(), refused)?;
    push_placed(out, name, refused.line, reason.column, &reason.words)
}

/// Appends what `push_why` appends, and below it the line with a mark under the place, each form that the line may
/// have, and the meaning of their fields. Fails only if memory runs out.
pub fn push_why_in_full(out: &mut Vec<u8>, name: &[u8], refused: &Refused) -> Result<(), AllocError>
    ensures { OnOk result (AddsPlacedFirst name.now refused.now.line out.old.items out.new.items) }
{
    push_why(out, name, refused)?;
    let mut below = String::new(*out.allocator());
    push_marked(&mut below, refused, &line_fault_of(refused))?;
    out.extend_from_slice(below.as_bytes())
}
