//! The words of messages.

ghost use Rattle.std.specs.Prelude.{◌≡◌, ◌≢◌, [], OnOk};
ghost use Rattle.session_commands.specs.Telling.{Extends, SaysUnless};

use crate::stops::add;
use crate::system_errors::push_system_error;
use recorder_files::Party;
use refusal_words::{Escape, escape_of, is_hidden};
use std::alloc::{AllocError, Global};
use text_lines::push_number;

/// What each line of a message begins with.
const NAME: &[u8] = b"session: ";

/// How many characters of a text are quoted.
const QUOTED: usize = 60;

/// What stands in the place of a '{}' of a sentence.
#[derive(Clone, Copy)]
pub(crate) enum Piece<'a> {
    Text(&'a str),
    /// Bytes as they are.
    Bytes(&'a [u8]),
    /// Bytes between quotation marks. A long text is shortened.
    Quoted(&'a [u8]),
    /// The first bytes of a word between quotation marks.
    Word(&'a [u8]),
    /// The first bytes of a record's line between apostrophes.
    Spelled(&'a [u8]),
    Count(u64),
    /// A file's name, and the number of its line.
    At(&'a str, u64),
    /// The same, in front of what stands there.
    In(&'a str, u64),
    /// The word of a party.
    Party(Party),
    /// The beginning of a line on the log of a party, of whose records so many are left out.
    On(Party, u64),
    /// The name of a record, by its number.
    Record(Party, u64),
    /// The words on a system error.
    Error(u32),
}

/// Returns the word of a party.
fn party_word(party: Party) -> &'static str {
    match party {
        Party::Machine => "machine",
        Party::Of(log) => log.word(),
    }
}

/// Appends a text.
pub(crate) fn push(out: &mut Vec<u8>, text: &str) -> Result<(), AllocError> {
    out.extend_from_slice(text.as_bytes())
}

/// The hexadecimal digits.
const DIGITS: &[u8; 16] = b"0123456789abcdef";

/// Appends a byte as an escape of two hexadecimal digits.
#[tactic(auto, using(crate::proofs::Extended::ok_extends))]
fn push_escape(out: &mut Vec<u8>, byte: u8) -> Result<(), AllocError>
    ensures { OnOk result (Extends out.old.items out.new.items) }
{
    let (high, low) = (
        DIGITS[usize::from(byte / 16)],
        DIGITS[usize::from(byte % 16)],
    );
    out.extend_from_slice(&[b'\\', b'x', high, low])
}

/// Appends a byte, as an escape if it is not printed.
fn push_printed(out: &mut Vec<u8>, byte: u8) -> Result<(), AllocError>
    ensures { OnOk result (Extends out.old.items out.new.items) }
{
    match byte {
        b'\n' => extend(out, b"\\n"),
        b'\r' => extend(out, b"\\r"),
        b'\t' => extend(out, b"\\t"),
        0..=31 | 127 => push_escape(out, byte),
        _ => extend(out, &[byte]),
    }
}

/// Appends bytes.
#[tactic(auto, using(crate::proofs::Extended::ok_extends))]
fn extend(out: &mut Vec<u8>, bytes: &[u8]) -> Result<(), AllocError>
    ensures { OnOk result (Extends out.old.items out.new.items) }
{
    out.extend_from_slice(bytes)
}

/// Appends a character, by its escape if it is not shown as it is.
fn push_character(out: &mut Vec<u8>, character: char) -> Result<(), AllocError>
    ensures { OnOk result (Extends out.old.items out.new.items) }
{
    if is_hidden(character) {
        return match escape_of(character) {
            Escape::One(unit) => extend(out, &unit),
            Escape::Two(first, second) => {
                extend(out, &first)?;
                extend(out, &second)
            }
        };
    }
    let mut buffer = [0; 4];
    extend(out, character.encode_utf8(&mut buffer).as_bytes())
}

/// Appends a text, with the escape of each character that is not shown as it is.
fn push_text(out: &mut Vec<u8>, text: &str) -> Result<(), AllocError>
    ensures { OnOk result (Extends out.old.items out.new.items) }
{
    for character in text.chars() {
        push_character(out, character)?;
    }
    Ok(())
}

/// Appends a line of a message: a text of Unicode.
fn push_line(out: &mut Vec<u8>, line: &str) -> Result<(), AllocError>
    ensures some { OnOk result (out.new.items ≢ []) }
    ensures front { OnOk result (Extends out.old.items out.new.items) }
{
    out.extend_from_slice(NAME)?;
    push_text(out, line)?;
    add(out, b'\n')?;
    Ok(())
}

/// Appends a line of a message. Characters that are not shown as they are, as in a file's name, are escaped.
pub(crate) fn push_message(out: &mut Vec<u8>, line: &[u8]) -> Result<(), AllocError>
    ensures some { OnOk result (out.new.items ≢ []) }
    ensures front { OnOk result (Extends out.old.items out.new.items) }
{
    let line = String::from_utf8_lossy(*out.allocator(), line)?;
    push_line(out, line.as_str())
}

/// Returns a text of ASCII for bytes: those that are no ASCII are escaped.
fn ascii(alloc: Global, bytes: &[u8]) -> Result<Vec<u8>, AllocError> {
    let mut text = Vec::new(alloc);
    for byte in bytes {
        if *byte < 128 {
            text.push(*byte)?;
        } else {
            push_escape(&mut text, *byte)?;
        }
    }
    Ok(text)
}

/// Appends a text of ASCII between quotation marks.
fn push_quotation(out: &mut Vec<u8>, text: &[u8]) -> Result<(), AllocError> {
    let mark = if text.contains(&b'\'') && !text.contains(&b'"') {
        b'"'
    } else {
        b'\''
    };
    out.push(mark)?;
    for byte in text {
        if *byte == mark || *byte == b'\\' {
            out.push(b'\\')?;
        }
        push_printed(out, *byte)?;
    }
    add(out, mark)
}

/// Appends bytes between quotation marks. A long text is shortened, with these dots at its end.
fn push_quoted(
    out: &mut Vec<u8>,
    alloc: Global,
    bytes: &[u8],
    dots: &str,
) -> Result<(), AllocError> {
    let mut text = ascii(alloc, bytes)?;
    if text.len() > QUOTED {
        text.truncate(QUOTED.saturating_sub(dots.len()));
        push(&mut text, dots)?;
    }
    push_quotation(out, text.as_slice())
}

/// Appends the first bytes of a record's line between apostrophes.
fn push_spelled(out: &mut Vec<u8>, line: &[u8]) -> Result<(), AllocError> {
    push(out, "'")?;
    out.extend_from_slice(line.get(..QUOTED).unwrap_or(line))?;
    push(out, "'")
}

/// Appends a number between two texts.
fn push_between(
    out: &mut Vec<u8>,
    before: &str,
    number: u64,
    behind: &str,
) -> Result<(), AllocError> {
    push(out, before)?;
    push_number(out, number)?;
    push(out, behind)
}

/// Appends a file's name, the number of its line, and what stands behind it.
fn push_at(out: &mut Vec<u8>, path: &str, line: u64, behind: &str) -> Result<(), AllocError> {
    push(out, path)?;
    push_between(out, ":", line, behind)
}

/// Appends the name of a record.
fn push_record(out: &mut Vec<u8>, party: Party, number: u64) -> Result<(), AllocError> {
    push_between(out, "record ", number, " of the ")?;
    push(out, party_word(party))?;
    push(out, "'s log")
}

/// Appends the beginning of a line on the log of a party, of whose records so many are left out.
fn push_on(out: &mut Vec<u8>, party: Party, left_out: u64) -> Result<(), AllocError> {
    push(out, party_word(party))?;
    if left_out == 0 {
        return push(out, ": ");
    }
    push_between(out, ": ", left_out, " records left out: ")
}

/// Appends a piece of a sentence.
fn push_piece(out: &mut Vec<u8>, alloc: Global, piece: Piece<'_>) -> Result<(), AllocError> {
    match piece {
        Piece::Text(text) => push(out, text),
        Piece::Bytes(bytes) => out.extend_from_slice(bytes),
        Piece::Quoted(bytes) => push_quoted(out, alloc, bytes, "..."),
        Piece::Word(bytes) => push_quoted(out, alloc, bytes, ""),
        Piece::Spelled(line) => push_spelled(out, line),
        Piece::Count(count) => push_number(out, count),
        Piece::At(path, line) => push_at(out, path, line, ""),
        Piece::In(path, line) => push_at(out, path, line, ": "),
        Piece::Party(party) => push(out, party_word(party)),
        Piece::On(party, left_out) => push_on(out, party, left_out),
        Piece::Record(party, number) => push_record(out, party, number),
        Piece::Error(number) => push_system_error(out, number),
    }
}

/// Appends a sentence, with a piece in the place of each '{}' of its form. A form has no other braces.
pub(crate) fn push_sentence(
    out: &mut Vec<u8>,
    alloc: Global,
    form: &str,
    pieces: &[Piece<'_>],
) -> Result<(), AllocError> {
    let mut next = 0;
    for byte in form.as_bytes() {
        match *byte {
            b'{' => {
                if next < pieces.len() {
                    push_piece(out, alloc, pieces[next])?;
                    next += 1;
                }
            }
            b'}' => {}
            other => add(out, other)?,
        }
    }
    Ok(())
}

/// Returns a sentence.
pub(crate) fn sentence(
    alloc: Global,
    form: &str,
    pieces: &[Piece<'_>],
) -> Result<Vec<u8>, AllocError> {
    let mut words = Vec::new(alloc);
    push_sentence(&mut words, alloc, form, pieces)?;
    Ok(words)
}

/// Adds a line of a message: a sentence.
pub(crate) fn tell_sentence(
    said: &mut Vec<u8>,
    alloc: Global,
    form: &str,
    pieces: &[Piece<'_>],
) -> Result<(), AllocError>
    ensures { OnOk result (said.new.items ≢ []) }
{
    let line = sentence(alloc, form, pieces)?;
    push_message(said, line.as_slice())
}

/// Adds a line of a message on each of these files. In its form the name of the file comes behind this piece.
pub(crate) fn tell_each(
    said: &mut Vec<u8>,
    alloc: Global,
    form: &str,
    front: Piece<'_>,
    paths: &[String],
) -> Result<(), AllocError>
    ensures { OnOk result (SaysUnless said.old.items said.new.items (paths.now ≡ [])) }
{
    for place in 0..paths.len() {
        tell_sentence(
            said,
            alloc,
            form,
            &[front, Piece::Text(paths[place].as_str())],
        )?;
    }
    Ok(())
}

/// Returns the part of a text that has this place among those between marks, counted from 0.
pub(crate) fn part_at(text: &[u8], mark: u8, place: usize) -> &[u8] {
    text.split(|byte| *byte == mark).nth(place).unwrap_or(&[])
}

/// Returns a word of a line, whose place this is.
pub(crate) fn word_at(line: &[u8], place: usize) -> &[u8] {
    part_at(line, b' ', place)
}
