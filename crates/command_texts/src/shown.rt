//! How the names of texts are shown.

ghost use Rattle.std.specs.Prelude.{◌≡◌, ◌++◌, OnOk, true};
ghost use Rattle.std.specs.Io.KnownBytes.{Appends};
ghost use Rattle.std.specs.Str.{chars};
ghost use Rattle.command_texts.specs.Shown.{are_printed, begins_quoted, escaped, is_plain, line_on, quoted, shown};
ghost use Rattle.refusal_words.specs.Hidden.{bytes_of, escape};
ghost use Rattle.text_access.specs.Written.{AppendsFront};

use refusal_words::{Escape, escape_of, is_hidden};
use std::alloc::AllocError;
use std::io::Write;
use text_access::write_whole;

/// Writes an escape.
fn write_escape<W: Write>(output: &mut W, escape: Escape) -> bool
    ensures front { AppendsFront (W.contents output.old) (W.contents output.new) (bytes_of escape) }
    ensures whole { result ≡ true → Appends (W.contents output.old) (W.contents output.new) (bytes_of escape) }
{
    match escape {
        Escape::One(unit) => write_whole(output, &unit),
        Escape::Two(first, second) => {
            if !write_whole(output, &first) {
                return false;
            }
            write_whole(output, &second)
        }
    }
}

/// Writes a character in the form that it has between quotation marks.
fn write_escaped<W: Write>(output: &mut W, character: char) -> bool
    ensures front { AppendsFront (W.contents output.old) (W.contents output.new) (escaped character) }
    ensures whole { result ≡ true → Appends (W.contents output.old) (W.contents output.new) (escaped character) }
{
    if is_hidden(character) {
        return write_escape(output, escape_of(character));
    }
    if character == '"' || character == '\\' {
        return write_whole(output, &[b'\\', character as u8]);
    }
    let mut buffer = [0; 4];
    write_whole(output, character.encode_utf8(&mut buffer).as_bytes())
}

/// Writes a name between quotation marks, as a JSON string.
fn write_quoted<W: Write>(output: &mut W, name: &str) -> bool
    ensures front { AppendsFront (W.contents output.old) (W.contents output.new) (quoted name.now) }
    ensures whole { result ≡ true → Appends (W.contents output.old) (W.contents output.new) (quoted name.now) }
{
    if !write_whole(output, b"\"") {
        return false;
    }
    for character in name.chars() {
        if !write_escaped(output, character) {
            return false;
        }
    }
    write_whole(output, b"\"")
}

/// Returns whether each character of a text is shown as it is.
fn are_printed(name: &str) -> bool
    ensures { result ≡ are_printed (chars name.now) }
{
    for character in name.chars() {
        if is_hidden(character) {
            return false;
        }
    }
    true
}

/// Returns whether a name begins with a quotation mark.
fn begins_quoted(name: &str) -> bool
    ensures { result ≡ begins_quoted name.now }
{
    match name.as_bytes() {
        [first, ..] => *first == b'"',
        [] => false,
    }
}

/// Returns whether a name is shown as it is: each of its characters is, and the first is no quotation mark.
pub(crate) fn is_plain(name: &str) -> bool
    ensures { result ≡ is_plain name.now }
{
    are_printed(name) && !begins_quoted(name)
}

/// Writes a name as shown. Returns whether all of it was written. Allocates no memory.
pub fn write_shown<W: Write>(output: &mut W, name: &str) -> bool
    ensures front { AppendsFront (W.contents output.old) (W.contents output.new) (shown name.now) }
    ensures whole { result ≡ true → Appends (W.contents output.old) (W.contents output.new) (shown name.now) }
{
    if is_plain(name) {
        write_whole(output, name.as_bytes())
    } else {
        write_quoted(output, name)
    }
}

/// Writes a line that begins with a name as shown, followed by words about what the name stands for. Returns whether
/// all of it was written. Allocates no memory.
pub fn write_line_on<W: Write>(output: &mut W, name: &str, words: &str) -> bool
    ensures front { AppendsFront (W.contents output.old) (W.contents output.new) (line_on name.now words.now) }
    ensures whole { result ≡ true → Appends (W.contents output.old) (W.contents output.new) (line_on name.now words.now) }
{
    write_line_of(output, name, words.as_bytes())
}

/// Writes a line as `write_line_on` does, with the bytes of the words.
pub(crate) fn write_line_of<W: Write>(output: &mut W, name: &str, words: &[u8]) -> bool
    ensures front { AppendsFront (W.contents output.old) (W.contents output.new) (line_on name.now words.now) }
    ensures whole { result ≡ true → Appends (W.contents output.old) (W.contents output.new) (line_on name.now words.now) }
{
    if !write_shown(output, name) {
        return false;
    }
    if !write_whole(output, b": ") {
        return false;
    }
    if !write_whole(output, words) {
        return false;
    }
    write_whole(output, b"\n")
}

/// Appends a name as shown.
pub fn push_shown(out: &mut Vec<u8>, name: &str) -> Result<(), AllocError>
    ensures { OnOk result (out.new.items ≡ out.old.items ++ shown name.now) }
{
    if write_shown(out, name) {
        Ok(())
    } else {
        Err(AllocError)
    }
}

/// Appends a name between quotation marks, as a JSON string.
pub(crate) fn push_quoted(out: &mut Vec<u8>, name: &str) -> Result<(), AllocError>
    ensures { OnOk result (out.new.items ≡ out.old.items ++ quoted name.now) }
{
    if write_quoted(out, name) {
        Ok(())
    } else {
        Err(AllocError)
    }
}
