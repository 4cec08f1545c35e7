//! How much of an input is read. Some inputs may be longer than others: a session of a large machine, its certificate,
//! runs, a report with one of these two, and a table of lines. The first bytes of an input decide which limit applies.

ghost use Rattle.std.specs.Prelude.{◌≡◌, ◌+◌, ◌≤◌, ◌⊎◌, ◌↔◌, IfSome, IsTrue, length};
ghost use Rattle.command_texts.specs.Limits.{BeginsWith, MayBeLong, begins_with_digit};

use memchr::{memchr, memrchr};
use text_lines::after_key;

/// The most bytes of an input.
const MOST_BYTES: usize = 268_435_456;

/// The most bytes of an input that may be long.
const MOST_LONG_BYTES: usize = 17_179_869_184;

/// The most reads of an input, with the read that finds its end.
pub(crate) const MOST_READS: u32 = 1_048_576;

/// The most reads of an input that may be long.
const MOST_LONG_READS: u32 = 67_108_864;

/// The most bytes of a line, because a line is held in memory until it ends.
const LONGEST_LINE: usize = 268_435_456;

/// How much more of an input may be read.
#[derive(Clone, Copy)]
pub(crate) struct Left {
    /// In bytes.
    pub(crate) bytes: usize,
    /// In reads.
    pub(crate) reads: u32,
    /// How many bytes of the last line, which has not ended, have been read.
    pub(crate) line: usize,
}

impl Left {
    /// Returns what may follow the first piece of an input. `reads` is how many reads are left for a text that is not
    /// long.
    pub(crate) fn behind_first(piece: &[u8], reads: u32) -> Self
        requires { length piece.now ≤ 268435456 }
        ensures { (result.bytes + length piece.now ≡ 268435456) ⊎ ((result.bytes + length piece.now ≡ 17179869184) × MayBeLong piece.now) }
    {
        let line = line_after(0, piece);
        if may_be_long(piece) {
            Left {
                bytes: MOST_LONG_BYTES - piece.len(),
                reads: (MOST_LONG_READS - MOST_READS).saturating_add(reads),
                line,
            }
        } else {
            Left {
                bytes: MOST_BYTES - piece.len(),
                reads,
                line,
            }
        }
    }

    /// Returns what may follow the next piece, with this many reads left. Returns `None` if the piece or its line is
    /// too long.
    pub(crate) fn behind(self, piece: &[u8], reads: u32) -> Option<Self>
        ensures { IfSome result (λ left. left.bytes + length piece.now ≡ self.bytes) }
    {
        if piece.len() > self.bytes || line_so_far(self.line, piece) > LONGEST_LINE {
            return None;
        }
        Some(Left {
            bytes: self.bytes - piece.len(),
            reads,
            line: line_after(self.line, piece),
        })
    }
}

/// Returns how many bytes the line that a piece continues has up to its end in the piece, with this many before the
/// piece.
fn line_so_far(before: usize, piece: &[u8]) -> usize {
    let here = memchr(b'\n', piece).unwrap_or(piece.len());
    before.saturating_add(here)
}

/// Returns how many bytes of the last line have been read after a piece, with this many before it.
fn line_after(before: usize, piece: &[u8]) -> usize {
    match memrchr(b'\n', piece) {
        Some(at) => piece.len() - at - 1,
        None => before.saturating_add(piece.len()),
    }
}

/// Returns whether a text begins with these bytes.
fn begins_with(text: &[u8], front: &[u8]) -> bool
    ensures { IsTrue result ↔ BeginsWith front.now text.now }
{
    match after_key(text, front) {
        Some(_) => true,
        None => false,
    }
}

/// Returns whether a text begins with a digit, as a table of lines does.
fn begins_with_digit(text: &[u8]) -> bool
    ensures { result ≡ begins_with_digit text.now }
{
    match text.first() {
        Some(first) => *first >= b'0' && *first <= b'9',
        None => false,
    }
}

/// Returns whether an input with these first bytes may be long.
fn may_be_long(front: &[u8]) -> bool
    ensures { IsTrue result ↔ MayBeLong front.now }
{
    if begins_with(front, b"postcopy-session 3\n") {
        return true;
    }
    if begins_with(front, b"postcopy-certificate 3\n") {
        return true;
    }
    if begins_with(front, b"postcopy-runs 1\n") {
        return true;
    }
    if begins_with(front, b"clean\npostcopy-certificate 3\n") {
        return true;
    }
    if begins_with(front, b"faulty line ") {
        return true;
    }
    begins_with_digit(front)
}
