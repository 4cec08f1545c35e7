//! Why the logs were not gone through, or their text was not written.

ghost use Rattle.std.specs.Prelude.{◌≡◌, [], IsTrue, OnOk};
ghost use Rattle.session_commands.specs.inner.Seen.{IsUnfit};

use crate::facts::Facts;
use crate::files::OpenedLogs;
use crate::found::FoundLogs;
use crate::lacks::find_hole;
use crate::places::{FoundRecord, find_record, place_of, unopened_file, unread_file};
use crate::stops::Stop;
use crate::words::{Piece, part_at, sentence};
use crate::wrong_records::record_words;
use migration_types::{LOGS, LogName};
use recorder_files::{FileFault, Front, GatherFault, LogFault, Party};
use recordings::WideMachine;
use std::alloc::{AllocError, Global};
use text_access::TextSource;
use walked_sessions::{WalkFault, WriteFault};

/// Returns why a log was not gone through as it was surveyed: two of its records have one number, or its files have
/// changed.
fn two_records<S: TextSource>(alloc: Global, texts: &S, logs: &FoundLogs, name: LogName) -> Stop {
    let party = Party::Of(name);
    let log = logs.log(party);
    match find_hole(alloc, texts, party, log) {
        Err(stop) => stop,
        Ok(_) => unread_file(alloc, log.paths.as_slice(), 0),
    }
}

/// Returns why a log was not gone through.
fn log_stop<S: TextSource>(
    alloc: Global,
    texts: &S,
    machine: &WideMachine,
    logs: &FoundLogs,
    name: LogName,
    fault: LogFault,
) -> Result<Stop, Stop> {
    let paths = logs.log(Party::Of(name)).paths.as_slice();
    match fault {
        LogFault::Record(number) => Ok(Stop::Unfit(record_words(
            alloc, texts, machine, name, paths, number,
        )?)),
        LogFault::Files(GatherFault::Twice(_, _)) => Ok(two_records(alloc, texts, logs, name)),
        LogFault::Files(GatherFault::File(_, FileFault::Memory))
        | LogFault::Files(GatherFault::Memory)
        | LogFault::Memory => Ok(Stop::Memory),
        LogFault::Files(GatherFault::File(file, _)) => Ok(unopened_file(alloc, texts, paths, file)),
        LogFault::Files(GatherFault::Missing(_)) => Ok(unread_file(alloc, paths, 0)),
    }
}

/// Returns the words on a record that takes a message of a log, which has records of its own, given where it stands.
fn own_log_words<'a>(
    alloc: Global,
    party: Party,
    paths: &'a [String],
    own: LogName,
    number: u64,
    placed: &'a Option<FoundRecord>,
) -> Result<Vec<u8>, AllocError> {
    let (line, word) = match placed {
        Some(placed) => {
            let text = placed.text.as_slice();
            (Piece::Spelled(text), Piece::Bytes(part_at(text, b'-', 0)))
        }
        None => (Piece::Text(""), Piece::Text("")),
    };
    sentence(
        alloc,
        "{}{}, {}: the {} has a log of its own, whose number '{}' names",
        &[
            place_of(paths, placed),
            Piece::Record(party, number),
            line,
            Piece::Text(own.word()),
            word,
        ],
    )
}

/// Returns why a log was not gone through: this record takes a message of a log, which has records of its own.
fn own_log_stop<S: TextSource>(
    alloc: Global,
    texts: &S,
    logs: &FoundLogs,
    own: LogName,
    name: LogName,
    number: u64,
) -> Result<Stop, Stop> {
    let party = Party::Of(name);
    let paths = logs.log(party).paths.as_slice();
    let placed = find_record(alloc, texts, party, paths, number, 0)?;
    match own_log_words(alloc, party, paths, own, number, &placed) {
        Ok(words) => Ok(Stop::Unfit(words)),
        Err(_) => Err(Stop::Memory),
    }
}

/// The cause if the files of a recording have changed since they were surveyed.
const CHANGED: &str = "a file of this recording was not read to its end, or has changed since";

/// Returns the fault of files that have changed since they were surveyed. The folder of the machine's file stands for them all.
pub(crate) fn changed(alloc: Global, logs: &FoundLogs) -> Stop
    ensures { IsUnfit result → ⊥ }
{
    let path = match logs.machine.paths.as_slice().first() {
        Some(path) => path.as_str(),
        None => "",
    };
    let folder = match path.rsplit_once('/') {
        Some((folder, _)) => folder,
        None => path,
    };
    match String::from_str(alloc, folder) {
        Ok(folder) => Stop::File(folder, CHANGED),
        Err(_) => Stop::Memory,
    }
}

/// Returns why the logs were not gone through.
pub(crate) fn walk_stop<S: TextSource>(
    alloc: Global,
    texts: &S,
    machine: &WideMachine,
    logs: &FoundLogs,
    fault: WalkFault,
) -> Stop {
    let stop = match fault {
        WalkFault::Log(name, fault) => log_stop(alloc, texts, machine, logs, name, fault),
        WalkFault::OwnLog(own, name, number) => own_log_stop(alloc, texts, logs, own, name, number),
        WalkFault::Changed => Ok(changed(alloc, logs)),
        WalkFault::Memory => Ok(Stop::Memory),
    };
    match stop {
        Ok(stop) | Err(stop) => stop,
    }
}

/// Returns why the text was not written. The logs were gone through before, so files that make no session have changed.
pub(crate) fn write_stop<S: TextSource>(
    alloc: Global,
    texts: &S,
    machine: &WideMachine,
    logs: &FoundLogs,
    fault: WriteFault<WalkFault>,
) -> Stop
    ensures { IsUnfit result → ⊥ }
{
    match fault {
        WriteFault::Recording(fault) => match walk_stop(alloc, texts, machine, logs, fault) {
            Stop::Unfit(_) => changed(alloc, logs),
            stop => stop,
        },
        WriteFault::Output(cause) => Stop::Output(cause.words()),
        WriteFault::Changed => changed(alloc, logs),
        WriteFault::Memory => Stop::Memory,
    }
}

/// Checks that each log was gone through to the first number that no record has.
fn check_counts<S: TextSource>(
    alloc: Global,
    texts: &S,
    logs: &FoundLogs,
    counts: Front,
    expected: Front,
) -> Result<(), Stop> {
    for name in LOGS {
        if expected.of(name) > 0 && counts.of(name) != expected.of(name) {
            return Err(two_records(alloc, texts, logs, name));
        }
    }
    Ok(())
}

/// Checks that the logs were gone through as they were surveyed, given what was said of what they lack, and whether none has a
/// hole: that each was gone through to the first number that no record has, that no record names a number that no recorder
/// answers, and that a hole was told, if one was met.
pub(crate) fn check_facts<S: TextSource>(
    alloc: Global,
    machine: &WideMachine,
    files: &OpenedLogs<'_, S>,
    facts: &Facts,
    expected: Front,
    said: &[u8],
    has_all: bool,
) -> Result<(), Stop>
    ensures { OnOk result (said.now ≡ [] → IsTrue has_all) }
{
    let (texts, logs) = (files.texts, files.logs);
    check_counts(alloc, texts, logs, facts.naming.counts(), expected)?;
    if let Some((name, number)) = facts.beyond {
        let paths = logs.log(Party::Of(name)).paths.as_slice();
        let words = record_words(alloc, texts, machine, name, paths, number)?;
        return Err(Stop::Unfit(words));
    }
    if said.is_empty() && !has_all {
        return Err(changed(alloc, logs));
    }
    Ok(())
}
