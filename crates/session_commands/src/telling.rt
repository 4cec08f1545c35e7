//! What a recording lacks by its files and by its records, told before anything is written.

ghost use Rattle.std.specs.Prelude.{◌≡◌, None, OnOk, ◌<◌, ⊤};
ghost use Rattle.migration_types.specs.declared.records.LogName.{LogName as Log};
ghost use Rattle.recorder_files.specs.declared.lines.Party.{Party as Writer};
ghost use Rattle.session_commands.specs.Telling.{SaysUnless};
ghost use Rattle.session_commands.specs.Logs.{log_in, log_of, HasAll, IsLaneAsTold};
ghost use Rattle.migration_types.specs.Sessions.{Recorded};
ghost use Rattle.recorder_files.specs.Fronts.{cursors_of};
ghost use Rattle.session_commands.specs.Facts.{IsFacts, SomeIn};
ghost use Rattle.session_commands.specs.Unresumed.{NeverUnresumed};

use crate::facts::Facts;
use crate::files::OpenedLogs;
use crate::found::{FoundLog, FoundLogs};
use crate::lacks::{Hole, count_of, find_hole, tell_lacks, tell_missing};
use crate::places::{find_record, place_of};
use crate::stops::Stop;
use crate::words::{Piece, tell_sentence};
use migration_types::LogName;
use recorder_files::{Description, Front, Party};
use std::alloc::{AllocError, Global};
use text_access::TextSource;

/// The calls that tell that the lane has a log.
const LANE_CALL: &str = "postcopy_record_machine_with_lane, or Log.machine_with_lane";

/// The parties in the order of the names of their files.
static PARTIES: [Party; 6] = [
    Party::Of(LogName::Guest),
    Party::Of(LogName::Lane),
    Party::Of(LogName::Link),
    Party::Machine,
    Party::Of(LogName::Pager),
    Party::Of(LogName::Source),
];

/// Checks that the files of each log fit together, and that they do not have more records than the log.
pub(crate) fn check_logs<S: TextSource>(
    alloc: Global,
    texts: &S,
    logs: &FoundLogs,
) -> Result<(), Stop> {
    for party in PARTIES {
        let log = logs.log(party);
        if log.records()? > count_of(alloc, party, log)? {
            find_hole(alloc, texts, party, log)?;
        }
    }
    Ok(())
}

/// Adds what is said of a log. It has this hole, if one is known already. Returns how many records come before the first number
/// that no record has.
fn tell_log<S: TextSource>(
    said: &mut Vec<u8>,
    alloc: Global,
    files: &OpenedLogs<'_, S>,
    party: Party,
    known: Option<Hole>,
) -> Result<u64, Stop>
    ensures { OnOk result (SaysUnless said.old.items said.new.items (HasAll (log_of files.now.logs.now party) × (known ≡ None))) }
{
    let log = files.logs.log(party);
    let count = tell_lacks(said, alloc, party, log)?;
    let hole = match known {
        Some(hole) => hole,
        None => {
            if log.records()? == count {
                return Ok(count);
            }
            find_hole(alloc, files.texts, party, log)?
        }
    };
    tell_missing(said, alloc, party, log, count, hole)?;
    Ok(hole.first)
}

/// Returns the hole in the machine's log, if it has one.
fn hole_in(machine: &Description) -> Option<Hole>
    ensures { result ≡ None → machine.now.behind ≡ None }
{
    match machine.behind {
        Some(behind) => Some(Hole {
            first: machine.front,
            behind: Some(behind),
        }),
        None => None,
    }
}

/// Adds what is said where the lane's log has files and the machine's log tells that there is none, or the other way round.
fn tell_lane(
    said: &mut Vec<u8>,
    alloc: Global,
    has_lane: Option<bool>,
    lane: &FoundLog,
) -> Result<(), AllocError>
    ensures { OnOk result (SaysUnless said.old.items said.new.items (IsLaneAsTold has_lane lane.now)) }
{
    let Some(has_lane) = has_lane else {
        return Ok(());
    };
    if has_lane == !lane.is_empty() {
        return Ok(());
    }
    let form = if has_lane {
        "{}: there is no file of its log, of which the machine's log tells ({})"
    } else {
        "{}: the machine's log tells that it has no log: where it has one, call {}"
    };
    let lane = Piece::Party(Party::Of(LogName::Lane));
    tell_sentence(said, alloc, form, &[lane, Piece::Text(LANE_CALL)])
}

/// Adds what is said of each log. Returns how many records of each come before the first number that no record has.
fn tell_logs<S: TextSource>(
    said: &mut Vec<u8>,
    alloc: Global,
    files: &OpenedLogs<'_, S>,
) -> Result<Front, Stop>
    ensures { OnOk result (SaysUnless said.old.items said.new.items ((name : Log) → HasAll (log_in files.now.logs.now name))) }
{
    let guest = tell_log(said, alloc, files, Party::Of(LogName::Guest), None)?;
    let source = tell_log(said, alloc, files, Party::Of(LogName::Source), None)?;
    let link = tell_log(said, alloc, files, Party::Of(LogName::Link), None)?;
    let lane = tell_log(said, alloc, files, Party::Of(LogName::Lane), None)?;
    let pager = tell_log(said, alloc, files, Party::Of(LogName::Pager), None)?;
    Ok(Front {
        guest,
        source,
        link,
        lane,
        pager,
    })
}

/// Adds what is said of the files of each log and of the machine's, given the machine that they describe. Returns how many records
/// of each come before the first number that no record has.
pub(crate) fn tell_files<S: TextSource>(
    said: &mut Vec<u8>,
    alloc: Global,
    files: &OpenedLogs<'_, S>,
    machine: &Description,
) -> Result<Front, Stop>
    ensures { OnOk result (SaysUnless said.old.items said.new.items (((party : Writer) → HasAll (log_of files.now.logs.now party)) × (machine.now.behind ≡ None) × IsLaneAsTold machine.now.has_lane files.now.logs.now.lane)) }
{
    tell_log(said, alloc, files, Party::Machine, hole_in(machine))?;
    tell_lane(said, alloc, machine.has_lane, &files.logs.lane)?;
    tell_logs(said, alloc, files)
}

/// Adds what is said of a guest that runs after its halt without a resume.
pub(crate) fn tell_unresumed<S: TextSource>(
    said: &mut Vec<u8>,
    alloc: Global,
    files: &OpenedLogs<'_, S>,
    facts: &Facts,
) -> Result<(), Stop>
    ensures unless { OnOk result (SaysUnless said.old.items said.new.items ⊤) }
    ensures told { OnOk result ((s : Recorded) → IsFacts facts.now s → SaysUnless said.old.items said.new.items (NeverUnresumed s.guest)) }
    ensures silent { OnOk result ((s : Recorded) → IsFacts facts.now s → NeverUnresumed s.guest → said.new.items ≡ said.old.items) }
{
    let Some(halt) = facts.unresumed() else {
        return Ok(());
    };
    let party = Party::Of(LogName::Guest);
    let paths = files.logs.guest.paths.as_slice();
    let number = halt.saturating_add(1);
    let placed = find_record(alloc, files.texts, party, paths, number, 0)?;
    tell_sentence(
        said,
        alloc,
        "{}: {}{} comes after the halt, and there is no resume: postcopy_record_resume, or Log.resume, where the guest \
         runs at the target",
        &[
            Piece::Party(party),
            place_of(paths, &placed),
            Piece::Record(party, number),
        ],
    )?;
    Ok(())
}

/// Adds that a log has no record, if it has none.
fn tell_if_empty(
    said: &mut Vec<u8>,
    alloc: Global,
    name: LogName,
    counts: Front,
) -> Result<(), AllocError>
    ensures { OnOk result (SaysUnless said.old.items said.new.items (0 < cursors_of counts name)) }
{
    if counts.of(name) > 0 {
        return Ok(());
    }
    tell_sentence(
        said,
        alloc,
        "{}: there is no record",
        &[Piece::Party(Party::Of(name))],
    )
}

/// Adds which logs have no record. A recording may be without a lane.
pub(crate) fn tell_empty(said: &mut Vec<u8>, alloc: Global, counts: Front) -> Result<(), AllocError>
    ensures { OnOk result (SaysUnless said.old.items said.new.items (SomeIn (cursors_of counts))) }
{
    tell_if_empty(said, alloc, LogName::Guest, counts)?;
    tell_if_empty(said, alloc, LogName::Source, counts)?;
    tell_if_empty(said, alloc, LogName::Link, counts)?;
    tell_if_empty(said, alloc, LogName::Pager, counts)?;
    Ok(())
}
