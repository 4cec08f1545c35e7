//! Why a text is refused, as numbers and as words in the caller's room.

ghost use Rattle.std.specs.Prelude.{◌≡◌, ◌≤◌};
ghost use Rattle.text_lines.specs.Text.{IsLine};
ghost use Rattle.text_lines.specs.Answer.{Refused};
ghost use Rattle.postcopy_c.specs.Refusals.{no_words, TellsRefusal, IsToldOf, IsWhyOf, IsWhy};

use crate::kinds::{CERT_TEXT, NO_MEMORY, READ, RUNS_TEXT, SESSION_TEXT};
use crate::telling::put;
use cert_text::{CertLines, OrderText};
use refusal_words::{Reason, Refused, reason_of};
use session_log::SessionLines;
use std::alloc::Global;
use text_lines::{FaultKind, Refusal, Rewind, next_line, read_or_why};

/// Why a text is refused, as C has it.
#[repr(C)]
#[derive(Clone, Copy)]
pub struct PostcopyRefusal {
    /// If the text is refused, the kind that was asked for: a number of `kinds`. Otherwise `READ` or `NO_MEMORY`, or 0
    /// if no kind of text has the number that was asked for.
    pub kind: u32,
    /// The line at which the text is refused, counted from 1, or 0.
    pub line: u32,
    /// The place of the error in that line, in bytes counted from 1, or 0.
    pub column: u32,
    /// The length of the words in bytes, whether or not they fit into the room.
    pub text_len: usize,
}

/// Returns an answer without words.
fn without_words(kind: u32) -> PostcopyRefusal
    ensures { result ≡ no_words kind }
{
    PostcopyRefusal {
        kind,
        line: 0,
        column: 0,
        text_len: 0,
    }
}

/// Returns the line at which a text is refused, and writes the words about it to the room if they fit.
fn tell_reason(kind: u32, line: u32, reason: &Reason, room: &mut [u8]) -> PostcopyRefusal
    requires column { 1 ≤ reason.now.column }
    requires words { IsLine reason.now.words.items }
    ensures told { TellsRefusal kind room.old room.new result }
    ensures line { result.line ≡ line }
{
    put(&reason.words, room);
    PostcopyRefusal {
        kind,
        line,
        column: reason.column.min(4_294_967_295) as u32,
        text_len: reason.words.len(),
    }
}

/// Returns whether a line of a text is empty. Lines are counted from 1.
fn is_empty_line(text: &[u8], line: u32) -> bool {
    let mut rest = text;
    for _ in 1..line {
        match next_line(rest) {
            Some((_, after)) => rest = after,
            None => return true,
        }
    }
    match next_line(rest) {
        Some((line, _)) => line.is_empty(),
        None => rest.is_empty(),
    }
}

/// Returns whether a refusal has the first bytes of its line of the text. It does not if memory ran out for them.
fn has_line(refusal: &Refusal, text: &[u8]) -> bool {
    !refusal.line.is_empty() || is_empty_line(text, refusal.fault.line)
}

/// Returns why a text is refused. Memory may have run out while it was read, or for the words.
fn tell_refusal(
    alloc: Global,
    kind: u32,
    text: &[u8],
    refusal: Refusal,
    room: &mut [u8],
) -> PostcopyRefusal
    ensures { IsToldOf kind refusal.fault.line refusal.fault.kind room.old room.new result }
{
    if refusal.fault.kind == FaultKind::Memory || !has_line(&refusal, text) {
        return without_words(NO_MEMORY);
    }
    let line = refusal.fault.line;
    match reason_of(alloc, &Refused::new(refusal)) {
        Ok(reason) => tell_reason(kind, line, &reason, room),
        Err(_) => without_words(NO_MEMORY),
    }
}

/// Returns why a text is refused by this reader.
fn tell_text<R: Rewind>(alloc: Global, kind: u32, text: &[u8], room: &mut [u8]) -> PostcopyRefusal
    ensures { IsWhyOf R.spells kind text.now room.old room.new result }
{
    match read_or_why(R::empty(alloc), alloc, text) {
        Ok(_) => without_words(READ),
        Err(refusal) => tell_refusal(alloc, kind, text, refusal, room),
    }
}

/// Returns why a text is refused as one of a kind, given the number of the answer that refuses it.
pub(crate) fn tell_why(alloc: Global, text: &[u8], kind: u32, room: &mut [u8]) -> PostcopyRefusal
    ensures { IsWhy kind text.now room.old room.new result }
{
    match kind {
        SESSION_TEXT => tell_text::<SessionLines>(alloc, kind, text, room),
        CERT_TEXT => tell_text::<CertLines>(alloc, kind, text, room),
        RUNS_TEXT => tell_text::<OrderText>(alloc, kind, text, room),
        _ => without_words(0),
    }
}
