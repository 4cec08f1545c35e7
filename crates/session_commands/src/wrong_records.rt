//! Which field of a record's line is wrong, in words.

use crate::lines::no_record_words;
use crate::machine_words::{push_no_page, push_other_cells};
use crate::places::{FoundRecord, find_record, place_of};
use crate::stops::Stop;
use crate::words::{Piece, push, push_sentence, sentence, word_at};
use migration_types::{LogName, MOST_CELLS};
use recorder_files::Party;
use recordings::{BEYOND, WideMachine};
use std::alloc::{AllocError, Global};
use text_access::TextSource;

/// A field of a record, by what it has.
#[derive(Clone, Copy)]
enum RawField {
    Vcpu,
    Page,
    Cell,
    Value,
    Contents,
    /// The number of a record, with the field's name.
    Record(&'static str),
}

/// The fields of a log's record that has this word.
struct RawForm {
    log: LogName,
    word: &'static str,
    fields: &'static [RawField],
}

/// The form of a log's record, by its word and its fields.
macro_rules! form {
    ($log:ident, $word:literal $(, $field:ident $(($name:literal))?)*) => {
        RawForm {
            log: LogName::$log,
            word: $word,
            fields: &[$(RawField::$field $(($name))?),*],
        }
    };
}

static FORMS: [RawForm; 30] = [
    form!(Guest, "r", Vcpu, Page, Cell, Value),
    form!(Guest, "w", Vcpu, Page, Cell, Value),
    form!(Guest, "z", Vcpu, Page),
    form!(Guest, "miss", Vcpu, Page),
    form!(Guest, "halt"),
    form!(Guest, "resume", Record("ready")),
    form!(Guest, "see", Record("placement")),
    form!(Source, "halted", Record("halt")),
    form!(Source, "state"),
    form!(Source, "done"),
    form!(Source, "back"),
    form!(Source, "send", Page, Contents),
    form!(Source, "again", Record("sent")),
    form!(Source, "ask-sent", Record("sent")),
    form!(Source, "ask", Record("up")),
    form!(Link, "down", Record("sent")),
    form!(Link, "up", Record("sent")),
    form!(Lane, "down", Record("sent")),
    form!(Pager, "got", Record("down")),
    form!(Pager, "pull", Record("down")),
    form!(Pager, "got-sent", Record("sent")),
    form!(Pager, "pull-sent", Record("sent")),
    form!(Pager, "ready"),
    form!(Pager, "all"),
    form!(Pager, "fault", Record("miss")),
    form!(Pager, "join", Record("want")),
    form!(Pager, "want", Page),
    form!(Pager, "zero", Page),
    form!(Pager, "place", Page, Record("got"), Contents),
    form!(Pager, "skip", Record("got")),
];

/// Returns the fields of the record of a log that has this word.
fn fields_of(log: LogName, word: &[u8]) -> Option<&'static [RawField]> {
    for i in 0..FORMS.len() {
        if FORMS[i].log == log && FORMS[i].word.as_bytes() == word {
            return Some(FORMS[i].fields);
        }
    }
    None
}

impl RawField {
    /// Returns its name.
    fn name(self) -> &'static str {
        match self {
            RawField::Vcpu => "vcpu",
            RawField::Page => "page",
            RawField::Cell => "cell",
            RawField::Value => "value",
            RawField::Contents => "contents",
            RawField::Record(name) => name,
        }
    }

    /// Returns its greatest number.
    fn most(self) -> u64 {
        match self {
            RawField::Vcpu => 63,
            RawField::Cell => 511,
            RawField::Page => BEYOND - 1,
            RawField::Value => u64::MAX,
            _ => u64::from(u32::MAX),
        }
    }
}

/// Returns the number that a text gives in decimal digits, without a zero in front of others.
fn number_of(text: &[u8]) -> Option<u64> {
    if text.is_empty() || text.len() > 20 || (text.len() > 1 && text[0] == b'0') {
        return None;
    }
    let mut number: u64 = 0;
    for byte in text {
        if !byte.is_ascii_digit() {
            return None;
        }
        let digit = u64::from(byte.saturating_sub(b'0'));
        number = number.checked_mul(10)?.checked_add(digit)?;
    }
    Some(number)
}

/// Returns whether a text is contents: 16 digits for each cell.
fn are_contents(text: &[u8]) -> bool {
    for byte in text {
        if !byte.is_ascii_digit() && (*byte < b'a' || b'f' < *byte) {
            return false;
        }
    }
    !text.is_empty() && text.len() % 16 == 0
}

/// Returns whether a text is one of a field.
fn is_of(field: RawField, text: &[u8]) -> bool {
    match field {
        RawField::Contents => are_contents(text),
        _ => match number_of(text) {
            Some(number) => number <= field.most(),
            None => false,
        },
    }
}

/// Returns whether the text of a field fits the machine.
fn fits(machine: &WideMachine, field: RawField, text: &[u8]) -> bool {
    let number = number_of(text).unwrap_or(0);
    match field {
        RawField::Page => number < machine.pages,
        RawField::Cell => number < u64::from(machine.cells),
        RawField::Contents => { text.len() as u64 == u64::from(machine.cells.min(MOST_CELLS)) * 16 }
        _ => true,
    }
}

/// Appends why the text of a field does not fit the machine.
fn push_unfit(
    out: &mut Vec<u8>,
    alloc: Global,
    machine: &WideMachine,
    field: RawField,
    text: &[u8],
) -> Result<(), AllocError> {
    let number = number_of(text).unwrap_or(0);
    match field {
        RawField::Page => push_no_page(out, alloc, number, machine.pages),
        RawField::Cell => push_sentence(
            out,
            alloc,
            "there is no cell {}: a page has {} cells, from 0 on",
            &[Piece::Count(number), Piece::Count(u64::from(machine.cells))],
        ),
        _ => push_other_cells(out, alloc, (text.len() / 16) as u64, machine.cells),
    }
}

/// Appends what is wrong with the fields of a record.
fn push_wrong_fields(
    out: &mut Vec<u8>,
    alloc: Global,
    machine: &WideMachine,
    fields: &[RawField],
    text: &[u8],
) -> Result<(), AllocError> {
    for i in 0..fields.len() {
        let word = word_at(text, i + 1);
        if !is_of(fields[i], word) {
            let form = match fields[i] {
                RawField::Contents => "{} is no {}: 16 digits of 0 to 9 and a to f for each cell",
                _ => "{} is no {}: a number from 0 to {}",
            };
            let name = Piece::Text(fields[i].name());
            let most = Piece::Count(fields[i].most());
            return push_sentence(out, alloc, form, &[Piece::Word(word), name, most]);
        }
    }
    for i in 0..fields.len() {
        let word = word_at(text, i + 1);
        if !fits(machine, fields[i], word) {
            return push_unfit(out, alloc, machine, fields[i], word);
        }
    }
    push(out, "this is none of its records")
}

/// Returns how many fields a record's text has.
fn count_fields(text: &[u8]) -> u64 {
    let mut count: u64 = 0;
    for byte in text {
        if *byte == b' ' {
            count = count.saturating_add(1);
        }
    }
    count
}

/// Appends why a text is no record of a log.
fn push_no_record(
    out: &mut Vec<u8>,
    alloc: Global,
    machine: &WideMachine,
    log: LogName,
    text: &[u8],
) -> Result<(), AllocError> {
    let word = word_at(text, 0);
    let Some(fields) = fields_of(log, word) else {
        return push_sentence(
            out,
            alloc,
            "the {}'s log has no record {}",
            &[Piece::Text(log.word()), Piece::Word(word)],
        );
    };
    let count = count_fields(text);
    if count == fields.len() as u64 {
        return push_wrong_fields(out, alloc, machine, fields, text);
    }
    push_sentence(
        out,
        alloc,
        "'{}' has {} fields and not {}",
        &[
            Piece::Bytes(word),
            Piece::Count(fields.len() as u64),
            Piece::Count(count),
        ],
    )
}

/// Returns the words on a record that has nothing behind its number.
fn empty_words(alloc: Global, path: &str, line: u64, number: u64) -> Result<Vec<u8>, AllocError> {
    let text = sentence(alloc, "{} ", &[Piece::Count(number)])?;
    no_record_words(alloc, path, line, text.as_slice())
}

/// Returns the words on a record of a log that is none of its records, given where it stands.
fn placed_words<'a>(
    alloc: Global,
    machine: &WideMachine,
    log: LogName,
    paths: &'a [String],
    number: u64,
    placed: &'a Option<FoundRecord>,
) -> Result<Vec<u8>, AllocError> {
    if let Some(placed) = placed {
        if placed.text.is_empty() && placed.file < paths.len() {
            return empty_words(alloc, paths[placed.file].as_str(), placed.line, number);
        }
    }
    let record = Piece::Record(Party::Of(log), number);
    let mut words = sentence(alloc, "{}{}", &[place_of(paths, placed), record])?;
    if let Some(placed) = placed {
        let text = placed.text.as_slice();
        push_sentence(&mut words, alloc, ", {}: ", &[Piece::Quoted(text)])?;
        push_no_record(&mut words, alloc, machine, log, text)?;
    }
    Ok(words)
}

/// Returns the words on the record of a log that is none of its records.
pub(crate) fn record_words<S: TextSource>(
    alloc: Global,
    texts: &S,
    machine: &WideMachine,
    log: LogName,
    paths: &[String],
    number: u64,
) -> Result<Vec<u8>, Stop> {
    let placed = find_record(alloc, texts, Party::Of(log), paths, number, 0)?;
    match placed_words(alloc, machine, log, paths, number, &placed) {
        Ok(words) => Ok(words),
        Err(_) => Err(Stop::Memory),
    }
}
