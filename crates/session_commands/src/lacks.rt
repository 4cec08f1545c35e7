//! What logs lack, in words.

ghost use Rattle.std.specs.Prelude.{◌≡◌, ◌≢◌, [], IfOk, OnOk};
ghost use Rattle.recorder_files.specs.Lacks.{lacks};
ghost use Rattle.recorder_files.specs.Parts.{AllFit, ArePartsOf};
ghost use Rattle.session_commands.specs.Logs.{LacksNothing};
ghost use Rattle.session_commands.specs.Telling.{SaysUnless};

use crate::faults::{GONE_ON, last_place, part_stop, path_of, twice_stop};
use crate::found::FoundLog;
use crate::places::{changed_file, open_file, unread_file};
use crate::stops::{Stop, add};
use crate::words::{Piece, tell_each, tell_sentence};
use recorder_files::{
    FileReader, LogLack, LogPart, Party, Turn, count_records, find_lacks, find_parts, next_turn,
};
use std::alloc::{AllocError, Global};
use std::io::Read;
use text_access::TextSource;

/// What is said of a file that ends within its head, behind the party of its log.
const ENDS_EARLY: &str = "{}: {} ends in its head: its process died as it began the file";

/// What is said behind the pages that are missing in the machine's log.
const TAKEN_FOR_ZEROS: &str = ": pages whose contents are not told are taken for zeros";

/// The first number that no record of a log has, and the least one above it that a record has.
#[derive(Clone, Copy)]
pub(crate) struct Hole {
    pub first: u64,
    pub behind: Option<u64>,
}

/// Returns the parts of a log.
fn parts_of(alloc: Global, party: Party, log: &FoundLog) -> Result<Vec<LogPart>, Stop>
    ensures fit { OnOk result (AllFit log.now.surveyed.items) }
    ensures parts { IfOk result (λ parts. ArePartsOf log.now.surveyed.items parts.items) }
{
    match find_parts(alloc, log.surveyed.as_slice()) {
        Ok(parts) => Ok(parts),
        Err(fault) => Err(part_stop(alloc, party, log, fault)),
    }
}

/// Returns how many records a log has by its parts.
pub(crate) fn count_of(alloc: Global, party: Party, log: &FoundLog) -> Result<u64, Stop> {
    let parts = parts_of(alloc, party, log)?;
    Ok(count_records(parts.as_slice()))
}

/// Adds what is lacking of a log.
fn tell_lack(
    said: &mut Vec<u8>,
    alloc: Global,
    party: Party,
    log: &FoundLog,
    lack: LogLack,
) -> Result<(), AllocError>
    ensures { OnOk result (said.new.items ≢ []) }
{
    let on = Piece::On(party, 0);
    match lack {
        LogLack::Begin { file, first, front } => tell_sentence(
            said,
            alloc,
            "{}{} begins with record {}, where the log has {} in front of it: {}",
            &[
                on,
                Piece::Text(path_of(log, file)),
                Piece::Count(u64::from(first)),
                Piece::Count(front),
                Piece::Text(GONE_ON),
            ],
        ),
        LogLack::End { file } => tell_sentence(
            said,
            alloc,
            "{}{} has no end: its process died, or did not close the log (postcopy_log_close, or Log.close)",
            &[on, Piece::Text(path_of(log, file))],
        ),
        LogLack::Record { file, errno } => tell_sentence(
            said,
            alloc,
            "{}{}: a record was not written: {}",
            &[on, last_place(log, file), Piece::Error(errno)],
        ),
        LogLack::Heir { file, count } => tell_sentence(
            said,
            alloc,
            "{}{}: handed over with {} records, and there is no file of who went on",
            &[on, last_place(log, file), Piece::Count(u64::from(count))],
        ),
    }
}

/// Adds what the parts of a log lack.
fn tell_parts(
    said: &mut Vec<u8>,
    alloc: Global,
    party: Party,
    log: &FoundLog,
    parts: &[LogPart],
) -> Result<(), AllocError>
    ensures { OnOk result (SaysUnless said.old.items said.new.items (lacks parts.now ≡ [])) }
{
    let found = find_lacks(alloc, parts)?;
    let lacks = found.as_slice();
    for place in 0..lacks.len() {
        tell_lack(said, alloc, party, log, lacks[place])?;
    }
    Ok(())
}

/// Adds what is said of a log's files and of its parts. Returns how many records the log has by its parts.
pub(crate) fn tell_lacks(
    said: &mut Vec<u8>,
    alloc: Global,
    party: Party,
    log: &FoundLog,
) -> Result<u64, Stop>
    ensures { IfOk result (λ count. SaysUnless said.old.items said.new.items (LacksNothing log.now count)) }
{
    tell_each(
        said,
        alloc,
        ENDS_EARLY,
        Piece::Party(party),
        log.headless.as_slice(),
    )?;
    let parts = parts_of(alloc, party, log)?;
    tell_parts(said, alloc, party, log, parts.as_slice())?;
    Ok(count_records(parts.as_slice()))
}

/// Adds what is said of the records that are missing in a log: it does not have as many as by its parts. If none is missing any
/// more, the files have changed.
pub(crate) fn tell_missing(
    said: &mut Vec<u8>,
    alloc: Global,
    party: Party,
    log: &FoundLog,
    count: u64,
    hole: Hole,
) -> Result<(), Stop>
    ensures { OnOk result (said.new.items ≢ []) }
{
    if hole.first >= count {
        return Err(unread_file(alloc, log.paths.as_slice(), 0));
    }
    let end = match hole.behind {
        Some(behind) => behind,
        None => count,
    };
    let (left_out, rest) = match party {
        Party::Machine => (0, TAKEN_FOR_ZEROS),
        Party::Of(_) => (log.records()?.saturating_sub(hole.first), ""),
    };
    let on = Piece::On(party, left_out);
    let first = Piece::Count(hole.first);
    let last = end.saturating_sub(1);
    if last <= hole.first {
        tell_sentence(
            said,
            alloc,
            "{}record {} is missing{}",
            &[on, first, Piece::Text(rest)],
        )?;
        return Ok(());
    }
    let pieces = [on, first, Piece::Count(last), Piece::Text(rest)];
    tell_sentence(said, alloc, "{}records {} to {} are missing{}", &pieces)?;
    Ok(())
}

/// The files of a log, and the number of the next record of each.
#[derive(Drop)]
struct Scan<R: Read + Drop> {
    files: Vec<FileReader<R>>,
    heads: Vec<Option<u64>>,
}

/// Opens the files of a log, and reads each on to its first record.
fn open_scan<S: TextSource>(
    alloc: Global,
    texts: &S,
    party: Party,
    log: &FoundLog,
) -> Result<Scan<S::Text>, Stop> {
    let mut scan = Scan {
        files: Vec::new(alloc),
        heads: Vec::new(alloc),
    };
    for path in log.paths.iter() {
        let file = open_file(alloc, texts, party, path.as_str())?;
        scan.push(alloc, path.as_str(), file)?;
    }
    Ok(scan)
}

impl<R: Read + Drop> Scan<R> {
    /// Adds a file under a name, and reads it on to its first record.
    fn push(&mut self, alloc: Global, path: &str, file: FileReader<R>) -> Result<(), Stop> {
        let mut file = file;
        let Ok(head) = file.next() else {
            return Err(changed_file(alloc, path));
        };
        add(&mut self.heads, head)?;
        add(&mut self.files, file)?;
        Ok(())
    }

    /// Reads a file on to its next record. Returns whether it was read.
    fn read_on(&mut self, file: usize) -> bool {
        if file >= self.files.len() || file >= self.heads.len() {
            return false;
        }
        match self.files[file].next() {
            Ok(head) => {
                self.heads[file] = head;
                true
            }
            Err(_) => false,
        }
    }
}

/// Returns the first number that no record of a log has, and the least one above it, given its opened files.
fn hole_among<S: TextSource>(
    alloc: Global,
    texts: &S,
    party: Party,
    log: &FoundLog,
    scan: &mut Scan<S::Text>,
) -> Result<Hole, Stop> {
    let mut hole = Hole {
        first: 0,
        behind: None,
    };
    let mut wanted: u64 = 0;
    for _ in 0..u64::MAX {
        match next_turn(scan.heads.as_slice(), wanted) {
            Turn::Of(file) => {
                if !scan.read_on(file) {
                    return Err(unread_file(alloc, log.paths.as_slice(), file));
                }
                wanted = wanted.saturating_add(1);
            }
            Turn::Twice(_, file) => {
                return Err(twice_stop(alloc, texts, party, log, wanted, file)?);
            }
            Turn::Missing(least) => {
                if hole.behind.is_none() {
                    hole = Hole {
                        first: wanted,
                        behind: Some(least),
                    };
                }
                wanted = least;
            }
            Turn::End => break,
        }
    }
    if hole.behind.is_none() {
        hole.first = wanted;
    }
    Ok(hole)
}

/// Returns the first number that no record of a log has, and the least one above it. Reads on to the end of each file, so
/// that it is known that no two records have one number.
pub(crate) fn find_hole<S: TextSource>(
    alloc: Global,
    texts: &S,
    party: Party,
    log: &FoundLog,
) -> Result<Hole, Stop> {
    let mut scan = open_scan(alloc, texts, party, log)?;
    hole_among(alloc, texts, party, log, &mut scan)
}
