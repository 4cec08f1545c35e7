//! The place that a message names: the text's name and a line's number.

ghost use Rattle.std.specs.Prelude.{◌≡◌, ◌∷◌, ◌++◌, OnOk};
ghost use Rattle.std.specs.Fmt.{decimal};
ghost use Rattle.text_lines.specs.Text.{IsLine};
ghost use Rattle.refusal_words.specs.Placed.{AddsAt, placed, placed_at};

use std::alloc::AllocError;
use text_lines::{next_line, push_line, push_number};

/// The byte after a name and after a line's number.
const COLON: u8 = b':';

/// The bytes after a column.
const BEHIND: &[u8] = b": ";

/// Returns the bytes up to their first line feed.
pub(crate) fn first_line(words: &[u8]) -> &[u8]
    ensures { IsLine result.now }
{
    match next_line(words) {
        Some((line, _)) => line,
        None => words,
    }
}

/// Appends `NAME:LINE`.
fn push_name_and_line(out: &mut Vec<u8>, name: &[u8], line: u64) -> Result<(), AllocError>
    ensures { OnOk result (out.new.items ≡ out.old.items ++ (name.now ++ 58 ∷ decimal line)) }
{
    out.extend_from_slice(name)?;
    out.push(COLON)?;
    push_number(out, line)
}

/// Appends words after `NAME:LINE:COLUMN: `, and a line feed.
pub(crate) fn push_placed(
    out: &mut Vec<u8>,
    name: &[u8],
    line: u64,
    column: usize,
    words: &[u8],
) -> Result<(), AllocError>
    ensures { OnOk result (out.new.items ≡ out.old.items ++ placed name.now line column words.now) }
{
    push_name_and_line(out, name, line)?;
    out.push(COLON)?;
    push_number(out, column)?;
    out.extend_from_slice(BEHIND)?;
    push_line(out, words)
}

/// Appends words after `NAME:LINE: `, and a line feed.
fn push_behind(out: &mut Vec<u8>, name: &[u8], line: u64, words: &[u8]) -> Result<(), AllocError>
    ensures { OnOk result (out.new.items ≡ out.old.items ++ placed_at name.now line words.now) }
{
    push_name_and_line(out, name, line)?;
    out.extend_from_slice(BEHIND)?;
    push_line(out, words)
}

/// Appends words about a line of the text with this name, in one line that begins with `NAME:LINE: `. Of the words, it
/// takes those before their first line feed. Fails only if memory runs out.
pub fn push_at(out: &mut Vec<u8>, name: &[u8], line: u32, words: &[u8]) -> Result<(), AllocError>
    ensures { OnOk result (AddsAt name.now line out.old.items out.new.items) }
{
    push_behind(out, name, u64::from(line), first_line(words))
}
