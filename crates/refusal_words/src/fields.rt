//! The fields of a form, and the words that they allow.

use text_lines::{Wanted, read_decimal};

/// The greatest number of pages, used if the machine's own is not known.
const MOST_PAGES: u64 = 65_536;

const MOST_CELLS: u64 = 512;

/// The greatest number of a virtual processor.
const LAST_PROCESSOR: u64 = 63;

/// The greatest number of records in a log, used if the log's own limit is not known.
const MOST_RECORDS: u64 = 1_048_576;

/// The number of digits in the contents of a cell.
const CELL_DIGITS: u32 = 16;

/// The greatest number of letters in a list of delivery outcomes.
pub(crate) const MOST_FATES: usize = 4_096;

/// The word for: no packet has a delivery outcome of its own.
const NO_FATES: &[u8] = b"-";

/// The words of the delivery outcomes.
const FATES: [&[u8]; 4] = [b"deliver", b"lose", b"repeat", b"back"];

/// The field that a word of capital letters in a form is.
#[derive(Clone, Copy)]
pub(crate) enum FieldKind {
    Processor,
    Page,
    Cell,
    Value,
    Record,
    /// A number within the wanted limits.
    Number,
    /// The greatest of these numbers, and no other.
    Exact,
    Contents,
    Fates,
    Fate,
}

/// The least and the greatest number that a field allows.
#[derive(Clone, Copy)]
pub(crate) struct Bounds {
    pub(crate) least: u64,
    pub(crate) most: u64,
}

/// Where a word stops being allowed in its field.
#[derive(Clone, Copy)]
pub(crate) enum Misfit {
    /// At this byte.
    Byte(usize),
    /// Only as a whole.
    Whole,
}

/// Returns the field that a word of a form is, if it is one.
pub(crate) fn field_of(slot: &str) -> Option<FieldKind> {
    match slot.as_bytes() {
        b"V" => Some(FieldKind::Processor),
        b"P" => Some(FieldKind::Page),
        b"C" => Some(FieldKind::Cell),
        b"X" => Some(FieldKind::Value),
        b"I" => Some(FieldKind::Record),
        b"N" => Some(FieldKind::Number),
        b"Q" => Some(FieldKind::Exact),
        b"HEX" => Some(FieldKind::Contents),
        b"FATES" => Some(FieldKind::Fates),
        b"FATE" => Some(FieldKind::Fate),
        _ => None,
    }
}

/// Returns whether a form has a field.
pub(crate) fn has_field(form: &str) -> bool {
    form.split(' ').any(|slot| field_of(slot).is_some())
}

/// Returns the range from 0 to one less than `count`, or than `most` if the count is not known.
fn below(count: u64, most: u64) -> Bounds {
    let count = if count == 0 { most } else { count };
    Bounds {
        least: 0,
        most: count.saturating_sub(1),
    }
}

fn up_to(most: u64) -> Bounds {
    Bounds { least: 0, most }
}

/// Returns the numbers that a field allows, if it is a field of numbers.
pub(crate) fn range_of(field: FieldKind, wanted: &Wanted) -> Option<Bounds> {
    match field {
        FieldKind::Processor => Some(up_to(LAST_PROCESSOR)),
        FieldKind::Page => Some(below(u64::from(wanted.pages), MOST_PAGES)),
        FieldKind::Cell => Some(below(u64::from(wanted.cells), MOST_CELLS)),
        FieldKind::Value => Some(up_to(u64::MAX)),
        FieldKind::Record => Some(below(u64::from(wanted.records), MOST_RECORDS)),
        FieldKind::Number => Some(Bounds {
            least: u64::from(wanted.least),
            most: u64::from(wanted.most),
        }),
        FieldKind::Exact => Some(Bounds {
            least: u64::from(wanted.most),
            most: u64::from(wanted.most),
        }),
        FieldKind::Contents | FieldKind::Fates | FieldKind::Fate => None,
    }
}

/// Returns how many digits the contents of a page have, or `None` if the number of cells is not known.
pub(crate) fn digits_of(wanted: &Wanted) -> Option<u64> {
    if wanted.cells == 0 {
        return None;
    }
    Some(u64::from(wanted.cells).saturating_mul(u64::from(CELL_DIGITS)))
}

fn is_digit_of_contents(byte: u8) -> bool {
    byte.is_ascii_digit() || (b'a'..=b'f').contains(&byte)
}

/// Returns the first byte that does not fit, or `None` if all do.
fn stop_at(found: Option<usize>) -> Option<Misfit> {
    match found {
        None => None,
        Some(0) => Some(Misfit::Whole),
        Some(at) => Some(Misfit::Byte(at)),
    }
}

fn misfit_of_contents(word: &[u8], wanted: &Wanted) -> Option<Misfit> {
    if begins_as_hexadecimal(word) {
        return Some(Misfit::Whole);
    }
    if let Some(misfit) = stop_at(word.iter().position(|byte| !is_digit_of_contents(*byte))) {
        return Some(misfit);
    }
    let fits = match digits_of(wanted) {
        Some(digits) => word.len() as u64 == digits,
        None => !word.is_empty(),
    };
    if fits { None } else { Some(Misfit::Whole) }
}

fn misfit_of_fates(word: &[u8]) -> Option<Misfit> {
    if word == NO_FATES {
        return None;
    }
    if word.is_empty() || word.len() > MOST_FATES {
        return Some(Misfit::Whole);
    }
    stop_at(
        word.iter()
            .position(|byte| !matches!(*byte, b'd' | b'l' | b'r' | b'b')),
    )
}

/// Returns where a word stops being allowed in a field, or `None` if it is allowed.
pub(crate) fn misfit_of(field: FieldKind, word: &[u8], wanted: &Wanted) -> Option<Misfit> {
    if let Some(range) = range_of(field, wanted) {
        return match read_decimal(word) {
            Some(number) if range.least <= number && number <= range.most => None,
            _ => Some(Misfit::Whole),
        };
    }
    match field {
        FieldKind::Contents => misfit_of_contents(word, wanted),
        FieldKind::Fates => misfit_of_fates(word),
        _ if FATES.iter().any(|fate| word == *fate) => None,
        _ => Some(Misfit::Whole),
    }
}

fn may_go_on_as_contents(word: &[u8], wanted: &Wanted) -> bool {
    let has_room = match digits_of(wanted) {
        Some(digits) => (word.len() as u64) < digits,
        None => true,
    };
    has_room && word.iter().all(|byte| is_digit_of_contents(*byte))
}

/// Returns whether a word that does not fit a field may be the beginning of one that does.
pub(crate) fn may_go_on(field: FieldKind, word: &[u8], wanted: &Wanted) -> bool {
    match field {
        FieldKind::Contents => may_go_on_as_contents(word, wanted),
        FieldKind::Fate => FATES.iter().any(|fate| fate.starts_with(word)),
        _ => false,
    }
}

/// Returns whether a word begins with a prefix by which other programs mark hexadecimal numbers.
pub(crate) fn begins_as_hexadecimal(word: &[u8]) -> bool {
    word.starts_with(b"0x") || word.starts_with(b"0X")
}
