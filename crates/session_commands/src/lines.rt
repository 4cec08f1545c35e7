//! Why a line is none of a recorder's file, in words.

use crate::places::line_of;
use crate::stops::Stop;
use crate::words::{Piece, sentence};
use recorder_files::{Last, Party, read_numbered};
use std::alloc::{AllocError, Global};
use text_access::TextSource;

/// The line of a file's first record.
pub(crate) const FIRST_RECORD: u64 = 4;

/// Returns the words on a line of a file's head.
fn head_words<'a>(
    alloc: Global,
    party: Party,
    path: &'a str,
    line: u64,
    found: &'a [u8],
) -> Result<Vec<u8>, AllocError> {
    let form = match line {
        1 => "{}: found {}; expected 'postcopy-records 1': no recorder of this release wrote it",
        2 => "{}: found {}; expected 'recording NAME'",
        _ => "{}: found {}; expected 'log {} FIRST OPENING'",
    };
    let pieces = [
        Piece::At(path, line),
        Piece::Quoted(found),
        Piece::Party(party),
    ];
    sentence(alloc, form, &pieces)
}

/// Returns the words on a line of a file, counted from 1, that is no record.
pub(crate) fn no_record_words<'a>(
    alloc: Global,
    path: &'a str,
    line: u64,
    found: &'a [u8],
) -> Result<Vec<u8>, AllocError> {
    sentence(
        alloc,
        "{}: found {}, which is no record: expected its number, its word and its fields",
        &[Piece::At(path, line), Piece::Quoted(found)],
    )
}

/// Returns the words on a line that is none of a recorder's file, given the line before it.
fn found_words<'a>(
    alloc: Global,
    party: Party,
    path: &'a str,
    line: u64,
    found: &'a [u8],
    before: &'a [u8],
) -> Result<Vec<u8>, AllocError> {
    if line < FIRST_RECORD {
        return head_words(alloc, party, path, line, found);
    }
    if line > FIRST_RECORD && Last::read(before).is_some() {
        return sentence(
            alloc,
            "{}: found {} after the log's end, '{}'",
            &[
                Piece::At(path, line),
                Piece::Quoted(found),
                Piece::Bytes(before),
            ],
        );
    }
    match read_numbered(before) {
        Some((record, _)) if Last::read(found).is_some() => sentence(
            alloc,
            "{}: found '{}', where the {}'s log has a record {}",
            &[
                Piece::At(path, line),
                Piece::Bytes(found),
                Piece::Party(party),
                Piece::Count(record),
            ],
        ),
        _ => no_record_words(alloc, path, line, found),
    }
}

/// Returns the words on a line that is none of a recorder's file.
pub(crate) fn line_words<S: TextSource>(
    alloc: Global,
    texts: &S,
    party: Party,
    path: &str,
    line: u64,
) -> Result<Vec<u8>, Stop> {
    let found = line_of(alloc, texts, path, line)?;
    let before = line_of(alloc, texts, path, line.saturating_sub(1))?;
    let words = found_words(
        alloc,
        party,
        path,
        line,
        found.as_slice(),
        before.as_slice(),
    );
    match words {
        Ok(words) => Ok(words),
        Err(_) => Err(Stop::Memory),
    }
}
