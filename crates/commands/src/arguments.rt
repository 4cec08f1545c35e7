//! The words of the command line.

use command_words::{Intent, Reading};
use refusal_words::push_quote;
use std::alloc::{AllocError, Global};
use std::env::FillError;
use std::io::Write;
use std::rt::Env;
use std::{io, str};

// Returns the bytes of a word, or `None` if there are no more words. The first word is the program's own name.
fn word_bytes<R: Env>(rt: &R, alloc: Global, number: usize) -> Result<Option<Vec<u8>>, AllocError> {
    let mut room = 256_usize;
    for _ in 0..usize::BITS {
        let mut bytes = vec![in alloc; 0u8; room]?;
        match rt.arg(number, bytes.as_mut_slice()) {
            Ok(count) => {
                bytes.truncate(count);
                return Ok(Some(bytes));
            }
            Err(FillError::TooLong) => room = room.saturating_mul(2),
            Err(FillError::NotPresent) => return Ok(None),
        }
    }
    Err(AllocError)
}

// Returns a word as text. If it is not UTF-8, each byte of it that is not ASCII becomes a byte 0 and two hexadecimal digits.
// No other word has a byte 0, and the system takes no name with one: so it is the name of no file.
fn text_of(alloc: Global, bytes: Vec<u8>) -> Result<String, AllocError> {
    if let Ok(text) = str::from_utf8(bytes.as_slice()) {
        return String::from_str(alloc, text);
    }
    let mut text = String::new(alloc);
    for byte in bytes.as_slice() {
        let byte = *byte;
        if byte.is_ascii() {
            text.push(char::from(byte))?;
        } else {
            write!(text, "\0{byte:02x}")?;
        }
    }
    Ok(text)
}

/// Returns the words of the command line. The first is the program's own name. One that is not UTF-8 has a text that no
/// other has, and that is the name of no file. Fails only if memory runs out.
pub fn words<R: Env>(rt: &R, alloc: Global) -> Result<Vec<String>, AllocError> {
    let mut words = Vec::new(alloc);
    for number in 0..usize::MAX {
        match word_bytes(rt, alloc, number)? {
            Some(bytes) => words.push(text_of(alloc, bytes)?)?,
            None => break,
        }
    }
    Ok(words)
}

// Returns how many of these words are not UTF-8, by their texts.
fn count_odd(words: &[&str]) -> usize {
    words
        .iter()
        .filter(|word| word.as_bytes().iter().any(|byte| *byte == 0))
        .count()
}

/// Returns whether a word is not UTF-8 that is no name of one of several sessions. Such a name is told as a file that cannot
/// be read, and the other sessions are audited.
pub fn has_wrong_word(words: &[&str], reading: &Reading<'_>) -> bool {
    let sessions = match reading.asks() {
        Some(Intent::Several(several)) => count_odd(several.names.as_slice()),
        _ => 0,
    };
    count_odd(words) > sessions
}

/// Returns words as slices. Fails only if memory runs out.
pub fn slices<'a>(alloc: Global, words: &'a [String]) -> io::Result<Vec<&'a str>> {
    Ok(words.iter().map(|word| word.as_str()).collect(alloc)?)
}

// Appends which word is the first that is not UTF-8.
fn push_wrong_word<R: Env>(rt: &R, alloc: Global, out: &mut String) -> Result<(), AllocError> {
    for number in 0..usize::MAX {
        let Some(bytes) = word_bytes(rt, alloc, number)? else {
            break;
        };
        if str::from_utf8(bytes.as_slice()).is_err() {
            write!(out, "error: word {number} is not UTF-8: ")?;
            push_quote(out, bytes.as_slice())?;
            break;
        }
    }
    out.push('\n')
}

/// Reports which word is not UTF-8.
pub fn tell_wrong_word<R: Env, E: Write>(rt: &R, alloc: Global, errors: &mut E) {
    let mut told = String::new(alloc);
    if push_wrong_word(rt, alloc, &mut told).is_ok() {
        let _ = errors.write_all(told.as_bytes());
    }
}
