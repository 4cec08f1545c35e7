//! What is wrong with the records of the machine's log, in words.

use crate::places::{FoundRecord, find_record, place_of, push_place};
use crate::stops::Stop;
use crate::words::{Piece, push, push_sentence, word_at};
use migration_types::MOST_CELLS;
use recorder_files::Party;
use session_grammar::PAGES_KEY;
use std::alloc::{AllocError, Global};
use text_access::TextSource;
use text_lines::{after_key, is_line, number_then, read_decimal};

/// Appends that the machine has no page of this number, and how many pages it has.
pub(crate) fn push_no_page(
    out: &mut Vec<u8>,
    alloc: Global,
    page: u64,
    pages: u64,
) -> Result<(), AllocError> {
    push_sentence(
        out,
        alloc,
        "there is no page {}: the machine has {} pages, from 0 on",
        &[Piece::Count(page), Piece::Count(pages)],
    )
}

/// Appends how many cells contents have, where a page of the machine has another number of them.
pub(crate) fn push_other_cells(
    out: &mut Vec<u8>,
    alloc: Global,
    found: u64,
    cells: u32,
) -> Result<(), AllocError> {
    push_sentence(
        out,
        alloc,
        "contents of {} cells, where a page of the machine has {}",
        &[Piece::Count(found), Piece::Count(u64::from(cells))],
    )
}

/// Returns the number of cells in what follows the number of pages. It may be followed by whether the lane has a log.
fn cells_told(text: &[u8]) -> Option<u64> {
    match number_then(text, u64::MAX) {
        Some((cells, lane)) if is_line(lane, b"0") || is_line(lane, b"1") => Some(cells),
        Some(_) => None,
        None => read_decimal(text),
    }
}

/// Returns how many cells a record tells, if it tells of pages with more of them than a page may have.
fn many_cells(text: &[u8]) -> Option<u64> {
    let (pages, rest) = number_then(after_key(text, PAGES_KEY)?, u64::MAX)?;
    let cells = cells_told(rest)?;
    if pages > 0 && cells > u64::from(MOST_CELLS) && cells < 1000 {
        Some(cells)
    } else {
        None
    }
}

/// Appends why a text is none of a record of the machine's.
fn push_no_record(out: &mut Vec<u8>, alloc: Global, text: &[u8]) -> Result<(), AllocError> {
    match many_cells(text) {
        Some(cells) => push_sentence(
            out,
            alloc,
            "{} cells are too many: a page has at most 512",
            &[Piece::Count(cells)],
        ),
        None => push_sentence(
            out,
            alloc,
            "found {}; expected 'pages PAGES CELLS LANE' or 'page PAGE CONTENTS'",
            &[Piece::Quoted(text)],
        ),
    }
}

/// Appends the words on a record that is none of the machine's.
pub(crate) fn push_wrong_record<S: TextSource>(
    words: &mut Vec<u8>,
    alloc: Global,
    texts: &S,
    paths: &[String],
    number: u64,
) -> Result<(), Stop> {
    let found = push_place(words, alloc, texts, Party::Machine, paths, number)?;
    push(words, ": ")?;
    if let Some(found) = &found {
        push_no_record(words, alloc, found.text.as_slice())?;
    }
    Ok(())
}

/// Returns what a record tells, if it stands in a file: its page, or else its text between quotation marks.
fn told_in(found: &Option<FoundRecord>, of_page: bool) -> Piece<'_> {
    match found {
        Some(found) if of_page => Piece::Bytes(word_at(found.text.as_slice(), 1)),
        Some(found) => Piece::Quoted(found.text.as_slice()),
        None => Piece::Text(""),
    }
}

/// Appends the words on two records that tell what a page holds, or else how many pages there are, given where they stand.
fn push_both<'a>(
    words: &mut Vec<u8>,
    alloc: Global,
    paths: &'a [String],
    numbers: (u64, u64),
    first: &'a Option<FoundRecord>,
    second: &'a Option<FoundRecord>,
    of_page: bool,
) -> Result<(), AllocError> {
    let form = if of_page {
        "{}{}: what page {} holds at first is told twice, beside {}{}"
    } else {
        "{}{}: a second {}, beside {}{}: {}"
    };
    push_sentence(
        words,
        alloc,
        form,
        &[
            place_of(paths, second),
            Piece::Record(Party::Machine, numbers.1),
            told_in(second, of_page),
            place_of(paths, first),
            Piece::Record(Party::Machine, numbers.0),
            told_in(first, of_page),
        ],
    )
}

/// Appends the words on two records that tell what a page holds, or else how many pages there are.
pub(crate) fn push_two_records<S: TextSource>(
    words: &mut Vec<u8>,
    alloc: Global,
    texts: &S,
    paths: &[String],
    one: u64,
    other: u64,
    of_page: bool,
) -> Result<(), Stop> {
    let numbers = (one.min(other), one.max(other));
    let first = find_record(alloc, texts, Party::Machine, paths, numbers.0, 0)?;
    let second = find_record(alloc, texts, Party::Machine, paths, numbers.1, 0)?;
    match push_both(words, alloc, paths, numbers, &first, &second, of_page) {
        Ok(()) => Ok(()),
        Err(_) => Err(Stop::Memory),
    }
}

/// Appends the words on a page that the machine does not have.
pub(crate) fn push_outside<S: TextSource>(
    words: &mut Vec<u8>,
    alloc: Global,
    texts: &S,
    paths: &[String],
    number: u64,
    page: u64,
    pages: u64,
) -> Result<(), Stop> {
    push_place(words, alloc, texts, Party::Machine, paths, number)?;
    push(words, ": ")?;
    push_no_page(words, alloc, page, pages)?;
    Ok(())
}

/// Appends the words on contents of another number of cells than a page.
pub(crate) fn push_other_contents<S: TextSource>(
    words: &mut Vec<u8>,
    alloc: Global,
    texts: &S,
    paths: &[String],
    number: u64,
    found: u64,
    cells: u32,
) -> Result<(), Stop> {
    push_place(words, alloc, texts, Party::Machine, paths, number)?;
    push(words, ": ")?;
    push_other_cells(words, alloc, found, cells)?;
    Ok(())
}
