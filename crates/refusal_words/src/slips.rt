//! Frequent slips in the writing of a word.

use crate::fields::{FieldKind, begins_as_hexadecimal, range_of};
use text_lines::{Wanted, read_decimal};

/// What is unusual about a word that does not fit.
#[derive(Clone, Copy)]
pub(crate) enum Slip {
    /// A tab, or one space too many.
    Separated,
    /// A number with a sign.
    Signed,
    /// A number in hexadecimal digits.
    Hexadecimal,
    /// A number with a leading zero.
    LeadingZero,
    /// A number of pages that no machine has.
    TooManyPages,
    /// Contents with `0x` before them.
    Prefixed,
    /// Contents in capital letters.
    Capitals,
    /// Contents of this many digits, which is the wrong number of digits.
    Length(usize),
}

/// The form of the line that gives a machine's number of pages.
const PAGES: &str = "pages N";

fn slip_of_number(word: &[u8]) -> Option<Slip> {
    if begins_as_hexadecimal(word) {
        return Some(Slip::Hexadecimal);
    }
    let (first, digits) = word.split_first()?;
    if digits.is_empty() || !digits.iter().all(|byte| byte.is_ascii_digit()) {
        return None;
    }
    match first {
        b'+' | b'-' => Some(Slip::Signed),
        b'0' => Some(Slip::LeadingZero),
        _ => None,
    }
}

fn slip_of_contents(word: &[u8]) -> Option<Slip> {
    if begins_as_hexadecimal(word) {
        return Some(Slip::Prefixed);
    }
    if !word.iter().all(|byte| byte.is_ascii_hexdigit()) {
        return None;
    }
    if word.iter().any(|byte| byte.is_ascii_uppercase()) {
        return Some(Slip::Capitals);
    }
    Some(Slip::Length(word.len()))
}

/// Returns what is unusual about how a word is separated from its neighbours.
pub(crate) fn slip_between(word: &[u8]) -> Option<Slip> {
    if word.is_empty() || word.contains(&b'\t') {
        return Some(Slip::Separated);
    }
    None
}

/// Returns what is unusual about a word that does not fit a field of a form.
pub(crate) fn slip_of(form: &str, field: FieldKind, word: &[u8], wanted: &Wanted) -> Option<Slip> {
    if let Some(slip) = slip_between(word) {
        return Some(slip);
    }
    match range_of(field, wanted) {
        Some(range) if form == PAGES && read_decimal(word).is_some_and(|n| n > range.most) => {
            Some(Slip::TooManyPages)
        }
        Some(_) => slip_of_number(word),
        None => match field {
            FieldKind::Contents => slip_of_contents(word),
            _ => None,
        },
    }
}

/// Returns what is unusual about how the words of a line are separated.
pub(crate) fn slip_of_line(line: &[u8]) -> Option<Slip> {
    if line.contains(&b'\t') || line.starts_with(b" ") {
        return Some(Slip::Separated);
    }
    None
}
