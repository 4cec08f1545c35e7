//! Why files are none of a recorder, or not those of one log, in words.

use crate::found::FoundLog;
use crate::lines::{FIRST_RECORD, line_words};
use crate::places::{
    FoundRecord, changed_file, find_in, find_record, line_of, open_file, place_of,
};
use crate::stops::Stop;
use crate::words::{Piece, sentence};
use recorder_files::{
    FileFault, FileReader, Last, Opening, PartFault, Party, Surveyed, read_numbered,
};
use std::alloc::{AllocError, Global};
use std::io::Read;
use text_access::TextSource;

/// Why a number is told twice.
const TWICE: &str =
    "two recordings are in one folder, or the log was opened twice from this number on";

/// Where a log is gone on with.
pub(crate) const GONE_ON: &str =
    "a log is gone on with from the number that postcopy_log_hand_over or Log.hand_over answers";

/// A file that is surveyed: the files of its log that were surveyed before it, and its process.
#[derive(Clone, Copy)]
pub(crate) struct Surveying<'a> {
    pub(crate) before: &'a [Surveyed],
    pub(crate) process: usize,
}

/// Returns the words on a record that is out of order: an earlier line of the same file has its number, if this is given, or
/// else its number is lower than the file's first, or than the one before it.
fn order_words(
    alloc: Global,
    party: Party,
    path: &str,
    line: u64,
    number: u64,
    earlier: Option<u64>,
    opening: Opening,
    why: &'static str,
) -> Result<Vec<u8>, AllocError> {
    let at = Piece::At(path, line);
    let record = Piece::Record(party, number);
    match earlier {
        Some(earlier) => {
            let beside = Piece::At(path, earlier);
            sentence(
                alloc,
                "{}: a second {}, beside {}: {}: {}",
                &[at, record, beside, record, Piece::Text(why)],
            )
        }
        None => {
            let first = u64::from(opening.first);
            let form = if number < first {
                "{}: {} is in a file of the records from {} on"
            } else {
                "{}: {} comes after one of a greater number"
            };
            sentence(alloc, form, &[at, record, Piece::Count(first)])
        }
    }
}

/// Returns the number of the record at a line of a file.
fn number_at<S: TextSource>(alloc: Global, texts: &S, path: &str, line: u64) -> Result<u64, Stop> {
    let found = line_of(alloc, texts, path, line)?;
    match read_numbered(found.as_slice()) {
        Some((number, _)) => Ok(number),
        None => Ok(0),
    }
}

/// Returns the line of the record of this number in a file, if it is in front of a line.
fn line_before<R: Read + Drop>(
    alloc: Global,
    file: &mut FileReader<R>,
    number: u64,
    line: u64,
) -> Result<Option<u64>, AllocError> {
    match find_in(alloc, file, number)? {
        Some((earlier, _)) if earlier < line => Ok(Some(earlier)),
        _ => Ok(None),
    }
}

/// Returns the words on the record at a line that is out of order.
fn number_words<S: TextSource>(
    alloc: Global,
    texts: &S,
    party: Party,
    path: &str,
    line: u64,
    surveying: Surveying<'_>,
) -> Result<Vec<u8>, Stop> {
    let number = number_at(alloc, texts, path, line)?;
    let mut file = open_file(alloc, texts, party, path)?;
    let opening = file.opening();
    let earlier = line_before(alloc, &mut file, number, line);
    drop(file);
    let why = why_twice(surveying.before, surveying.process, opening);
    Ok(order_words(alloc, party, path, line, number, earlier?, opening, why)?)
}

/// Returns why a file, which is surveyed, is none of a recorder's.
pub(crate) fn file_stop<S: TextSource>(
    alloc: Global,
    texts: &S,
    party: Party,
    path: &str,
    surveying: Surveying<'_>,
    fault: FileFault,
) -> Stop {
    let words = match fault {
        FileFault::Line(line) => line_words(alloc, texts, party, path, line),
        FileFault::Order(line) => number_words(alloc, texts, party, path, line, surveying),
        FileFault::File => Err(changed_file(alloc, path)),
        FileFault::Memory => Err(Stop::Memory),
    };
    match words {
        Ok(words) => Stop::Unfit(words),
        Err(stop) => stop,
    }
}

/// Returns whether two files are of one opening of a log.
fn are_of_one_part(one: &Surveyed, other: &Surveyed) -> bool {
    one.process == other.process && one.opening.file == other.opening.file
}

/// Returns why a number is told twice in a file of this process and this opening, given the first files of its log: another
/// process did not go on where it should, or there are two of everything.
fn why_twice(files: &[Surveyed], process: usize, opening: Opening) -> &'static str {
    let mut others = false;
    for file in files {
        if file.process != process || file.opening.file != opening.file {
            if file.opening.first == opening.first {
                return TWICE;
            }
            others = true;
        }
    }
    if others { GONE_ON } else { TWICE }
}

/// Returns why a number is told twice in a file of a log.
fn why_twice_at(log: &FoundLog, file: usize) -> &'static str {
    if file >= log.surveyed.len() {
        return TWICE;
    }
    let surveyed = log.surveyed[file];
    why_twice(&log.surveyed[..file], surveyed.process, surveyed.opening)
}

/// Returns the words on two records of one number in the files of a log. The second is in this file, if it was not found.
fn twice_words<'a>(
    alloc: Global,
    party: Party,
    log: &'a FoundLog,
    number: u64,
    file: usize,
    first: &'a Option<FoundRecord>,
    second: &'a Option<FoundRecord>,
) -> Result<Vec<u8>, AllocError> {
    let paths = log.paths.as_slice();
    let at = match second {
        Some(second) => second.file,
        None => file,
    };
    let record = Piece::Record(party, number);
    sentence(
        alloc,
        "{}a second {}, beside {}{}: {}",
        &[
            place_of(paths, second),
            record,
            place_of(paths, first),
            record,
            Piece::Text(why_twice_at(log, at)),
        ],
    )
}

/// Returns why two files have a record of this number. The second is this one, or one behind it.
pub(crate) fn twice_stop<S: TextSource>(
    alloc: Global,
    texts: &S,
    party: Party,
    log: &FoundLog,
    number: u64,
    file: usize,
) -> Result<Stop, Stop> {
    let paths = log.paths.as_slice();
    let first = find_record(alloc, texts, party, paths, number, 0)?;
    let second = find_record(alloc, texts, party, paths, number, file)?;
    match twice_words(alloc, party, log, number, file, &first, &second) {
        Ok(words) => Ok(Stop::Unfit(words)),
        Err(_) => Err(Stop::Memory),
    }
}

/// Returns the name of a file of a log.
pub(crate) fn path_of(log: &FoundLog, file: usize) -> &str {
    if file < log.paths.len() {
        log.paths[file].as_str()
    } else {
        ""
    }
}

/// Returns the place of the last line of a file, which tells how it was left.
pub(crate) fn last_place(log: &FoundLog, file: usize) -> Piece<'_> {
    let records = if file < log.surveyed.len() {
        log.surveyed[file].records
    } else {
        0
    };
    Piece::At(path_of(log, file), records.saturating_add(FIRST_RECORD))
}

/// Returns the first record of the opening that a file of a log is of, and the opening's number.
fn opening_of(log: &FoundLog, file: usize) -> (u64, u64) {
    if file < log.surveyed.len() {
        let opening = log.surveyed[file].opening;
        (u64::from(opening.first), u64::from(opening.file))
    } else {
        (0, 0)
    }
}

/// Returns the words on two files of one opening that begin with different records.
fn begin_words(
    alloc: Global,
    party: Party,
    log: &FoundLog,
    file: usize,
    beside: usize,
) -> Result<Vec<u8>, AllocError> {
    let (first, number) = opening_of(log, file);
    let (other, _) = opening_of(log, beside);
    sentence(
        alloc,
        "{}: found 'log {} {} {}', where {} begins with record {}",
        &[
            Piece::At(path_of(log, file), FIRST_RECORD - 1),
            Piece::Party(party),
            Piece::Count(first),
            Piece::Count(number),
            Piece::Text(path_of(log, beside)),
            Piece::Count(other),
        ],
    )
}

/// Returns the words on a record behind the end that another file tells.
fn end_passed_words(
    alloc: Global,
    party: Party,
    log: &FoundLog,
    file: usize,
    beside: usize,
) -> Result<Vec<u8>, AllocError> {
    let (records, next) = if file < log.surveyed.len() {
        (log.surveyed[file].records, log.surveyed[file].next)
    } else {
        (0, 0)
    };
    sentence(
        alloc,
        "{}: {} is after the end that {} tells",
        &[
            Piece::At(path_of(log, file), records.saturating_add(FIRST_RECORD - 1)),
            Piece::Record(party, next.saturating_sub(1)),
            last_place(log, beside),
        ],
    )
}

/// Returns the words on two files that tell how one opening of a log was left.
fn ends_words(
    alloc: Global,
    party: Party,
    log: &FoundLog,
    file: usize,
    beside: usize,
) -> Result<Vec<u8>, AllocError> {
    let (first, _) = opening_of(log, file);
    sentence(
        alloc,
        "{}: a second end of the {}'s log from record {} on, beside {}: {}",
        &[
            last_place(log, file),
            Piece::Party(party),
            Piece::Count(first),
            last_place(log, beside),
            Piece::Text(TWICE),
        ],
    )
}

/// Returns the words on an end in front of a record of another file.
fn end_early_words(
    alloc: Global,
    party: Party,
    log: &FoundLog,
    file: usize,
) -> Result<Vec<u8>, AllocError> {
    let last = if file < log.surveyed.len() {
        log.surveyed[file].last
    } else {
        None
    };
    let (word, count) = match last {
        Some(Last::End(count)) => ("end ", Piece::Count(u64::from(count))),
        Some(Last::Next(count)) => ("next ", Piece::Count(u64::from(count))),
        Some(Last::Lost(errno)) => ("lost ", Piece::Count(u64::from(errno))),
        None => ("", Piece::Text("")),
    };
    sentence(
        alloc,
        "{}: found '{}{}', where the {}'s log has a record {}",
        &[
            last_place(log, file),
            Piece::Text(word),
            count,
            Piece::Party(party),
            Piece::Count(greatest_before(log, file)),
        ],
    )
}

/// Returns the greatest number of a record in the files of one opening, up to this one.
fn greatest_before(log: &FoundLog, file: usize) -> u64 {
    let mut next: u64 = 0;
    for i in 0..log.surveyed.len() {
        if i <= file
            && file < log.surveyed.len()
            && are_of_one_part(&log.surveyed[i], &log.surveyed[file])
        {
            next = next.max(log.surveyed[i].next);
        }
    }
    next.saturating_sub(1)
}

/// Returns why the files of a log do not fit together.
pub(crate) fn part_stop(alloc: Global, party: Party, log: &FoundLog, fault: PartFault) -> Stop {
    let words = match fault {
        PartFault::Begin(file, beside) => begin_words(alloc, party, log, file, beside),
        PartFault::Behind(file, beside) => end_passed_words(alloc, party, log, file, beside),
        PartFault::Ends(file, beside) => ends_words(alloc, party, log, file, beside),
        PartFault::Before(file, _) => end_early_words(alloc, party, log, file),
        PartFault::Memory => return Stop::Memory,
    };
    match words {
        Ok(words) => Stop::Unfit(words),
        Err(_) => Stop::Memory,
    }
}
