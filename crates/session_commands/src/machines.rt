//! The machine that its log describes, and why it describes none, in words.

ghost use Rattle.std.specs.Prelude.{◌≡◌, ◌++◌, List, IfOk, OnOk};
ghost use Rattle.migration_types.specs.declared.size.Size.{Size as MachineSize};
ghost use Rattle.recordings.specs.Recordings.{IsMachine};
ghost use Rattle.recorder_files.specs.Machine.{FileTells};
ghost use Rattle.recorder_files.specs.declared.machine_log.MachineEntry.{MachineEntry as Entry};
ghost use Rattle.session_commands.specs.Logs.{known_in, Describe, TellMachine};

use crate::faults::twice_stop;
use crate::found::{FoundLog, push_listed};
use crate::machine_words::{
    push_other_contents, push_outside, push_two_records, push_wrong_record,
};
use crate::places::{changed_file, find_record, open_file};
use crate::stops::Stop;
use crate::words::{Piece, push_sentence, sentence};
use recorder_files::{DescribeFault, Description, FileFault, MachineLog, MachineLogFault, Party};
use std::alloc::{AllocError, Global};
use text_access::TextSource;

/// The calls that describe a machine.
const CALL: &str = "postcopy_record_machine, or Log.machine";

/// Appends the words on a log that does not tell how many pages there are.
fn push_no_pages(words: &mut Vec<u8>, alloc: Global, log: &FoundLog) -> Result<(), AllocError> {
    for place in 0..log.names.len() {
        push_listed(words, place, log.names[place].as_str())?;
    }
    push_sentence(
        words,
        alloc,
        ": no record tells how many pages there are: {}",
        &[Piece::Text(CALL)],
    )
}

/// Appends the words on why a log describes no machine.
fn push_fault<S: TextSource>(
    words: &mut Vec<u8>,
    alloc: Global,
    texts: &S,
    log: &FoundLog,
    fault: DescribeFault,
) -> Result<(), Stop> {
    let paths = log.paths.as_slice();
    match fault {
        DescribeFault::Number(number) => Err(number_twice(alloc, texts, log, number)?),
        DescribeFault::NoPages => Ok(push_no_pages(words, alloc, log)?),
        DescribeFault::Pages(one, other) => {
            push_two_records(words, alloc, texts, paths, one, other, false)
        }
        DescribeFault::Page(one, other) => {
            push_two_records(words, alloc, texts, paths, one, other, true)
        }
        DescribeFault::Outside {
            number,
            page,
            pages,
        } => push_outside(words, alloc, texts, paths, number, page, pages),
        DescribeFault::Contents {
            number,
            found,
            cells,
        } => push_other_contents(words, alloc, texts, paths, number, found as u64, cells),
        DescribeFault::Memory => Err(Stop::Memory),
    }
}

/// Returns why a log describes no machine.
fn describe_stop<S: TextSource>(
    alloc: Global,
    texts: &S,
    log: &FoundLog,
    fault: DescribeFault,
) -> Stop {
    let mut words = Vec::new(alloc);
    match push_fault(&mut words, alloc, texts, log, fault) {
        Ok(()) => Stop::Unfit(words),
        Err(stop) => stop,
    }
}

/// Returns why a record is none of the machine's.
fn record_stop<S: TextSource>(alloc: Global, texts: &S, log: &FoundLog, number: u64) -> Stop {
    let mut words = Vec::new(alloc);
    match push_wrong_record(&mut words, alloc, texts, log.paths.as_slice(), number) {
        Ok(()) => Stop::Unfit(words),
        Err(stop) => stop,
    }
}

/// Returns why two records have this number.
fn number_twice<S: TextSource>(
    alloc: Global,
    texts: &S,
    log: &FoundLog,
    number: u64,
) -> Result<Stop, Stop> {
    let paths = log.paths.as_slice();
    let first = match find_record(alloc, texts, Party::Machine, paths, number, 0)? {
        Some(first) => first.file,
        None => 0,
    };
    let behind = first.saturating_add(1);
    let second = match find_record(alloc, texts, Party::Machine, paths, number, behind)? {
        Some(second) => second.file,
        None => first,
    };
    twice_stop(alloc, texts, Party::Machine, log, number, second)
}

/// Takes the records of a file of the machine's log.
fn take_file<S: TextSource>(
    alloc: Global,
    texts: &S,
    log: &FoundLog,
    path: &str,
    taken: &mut MachineLog,
) -> Result<(), Stop>
    ensures { OnOk result ((entries : List Entry) × FileTells (S.bytes_of texts.now path.now) entries × (taken.new ≡ taken.old ++ entries)) }
{
    let mut reader = open_file(alloc, texts, Party::Machine, path)?;
    match taken.take(alloc, &mut reader) {
        Ok(()) => Ok(()),
        Err(MachineLogFault::Record(number)) => Err(record_stop(alloc, texts, log, number)),
        Err(MachineLogFault::Memory | MachineLogFault::File(FileFault::Memory)) => {
            Err(Stop::Memory)
        }
        Err(MachineLogFault::File(_)) => Err(changed_file(alloc, path)),
    }
}

/// Takes the records of all files of the machine's log.
fn take_files<S: TextSource>(alloc: Global, texts: &S, log: &FoundLog) -> Result<MachineLog, Stop>
    ensures { IfOk result (λ taken. TellMachine (known_in (S.bytes_of texts.now) log.now) taken) }
{
    let mut taken = MachineLog::new(alloc, log.records()? as usize)?;
    let paths = log.paths.as_slice();
    for place in 0..paths.len() {
        take_file(alloc, texts, log, paths[place].as_str(), &mut taken)?;
    }
    Ok(taken)
}

/// Returns the machine that its log describes.
pub(crate) fn describe<S: TextSource>(
    alloc: Global,
    texts: &S,
    log: &FoundLog,
) -> Result<Description, Stop>
    ensures described { IfOk result (λ d. Describe (known_in (S.bytes_of texts.now) log.now) d) }
    ensures machine { IfOk result (λ d. (size : MachineSize) → IsMachine (record { size = size; pages = d.pages; cells = d.cells })) }
{
    if log.is_empty() {
        return Err(Stop::Unfit(sentence(
            alloc,
            "there is no file of the machine's log, which tells how many pages there are: {}",
            &[Piece::Text(CALL)],
        )?));
    }
    let taken = take_files(alloc, texts, log)?;
    match taken.describe(alloc) {
        Ok(description) => Ok(description),
        Err(fault) => Err(describe_stop(alloc, texts, log, fault)),
    }
}
