//! Whether what was recorded is a session within its limits.

ghost use Rattle.std.specs.Prelude.{◌≡◌, ◌↔◌, ◌≤◌, IfOk, IfErr, IsTrue};
ghost use Rattle.std.specs.List.{AllByRecursion};
ghost use Rattle.migration_types.specs.Follow.{RowFits};
ghost use Rattle.migration_types.specs.Sessions.{recorded, HasSourceRec};
ghost use Rattle.host_checks.specs.Outcomes.{IsUnread};
ghost use Rattle.host_checks.specs.inner.Limits.{AreShort, AreOfMachine};

use crate::outcome::RunFault;
use guest_script::Script;
use migration_types::{
    Geometry, LogName, Logs, MOST_RECORDS, Record, Session, Size, SourceRec, Version, fits,
    limits_follow,
};
use std::alloc::Global;

/// Returns whether each record of a log is allowed in a session of the version, and its numbers are within the machine.
fn log_fits<R: Record>(version: Version, geometry: Geometry, log: LogName, records: &[R]) -> bool
    ensures { IsTrue result ↔ AllByRecursion (λ rec. RowFits version geometry log (R.consists rec) (R.contents rec)) records.now }
{
    records.iter().all(|rec| fits(version, geometry, log, rec))
}

/// Returns whether sessions of a size have each record of this log of the source.
fn are_of_size(size: Size, records: &[SourceRec]) -> bool
    ensures { IsTrue result ↔ AllByRecursion (λ rec. HasSourceRec size rec) records.now }
{
    records.iter().all(|rec| rec.is_in(size))
}

/// Returns whether no log has more records than a log may have.
fn are_short(logs: &Logs) -> bool
    ensures { IsTrue result ↔ AreShort logs.now }
{
    let most = MOST_RECORDS as usize;
    logs.guest.as_slice().len() <= most
        && logs.source.as_slice().len() <= most
        && logs.link.as_slice().len() <= most
        && logs.lane.as_slice().len() <= most
        && logs.pager.as_slice().len() <= most
}

/// Returns whether each record of the logs is allowed in a session of the version, and its numbers are within the
/// machine.
#[tactic(auto, using(crate::proofs::RowLimits::of_rows))]
fn are_of_machine(version: Version, geometry: Geometry, logs: &Logs) -> bool
    ensures { IsTrue result → AreOfMachine version geometry logs.now }
{
    limits_follow();
    log_fits(version, geometry, LogName::Guest, logs.guest.as_slice())
        && log_fits(version, geometry, LogName::Source, logs.source.as_slice())
        && are_of_size(geometry.size(), logs.source.as_slice())
        && log_fits(version, geometry, LogName::Link, logs.link.as_slice())
        && log_fits(version, geometry, LogName::Lane, logs.lane.as_slice())
        && log_fits(version, geometry, LogName::Pager, logs.pager.as_slice())
}

/// Returns the session with these logs, and with the version, machine and initial pages of a script.
///
/// # Errors
///
/// `TranscriptDiffers` if a record is beyond a session's limits, and `Memory`.
pub fn session_of(alloc: Global, script: &Script, logs: Logs) -> Result<Session, RunFault>
    ensures session { IfOk result (λ s. s ≡ recorded script.now.version script.now.geometry script.now.init logs) }
    ensures refused { IfErr result IsUnread }
{
    script.keeps_limits();
    let geometry = script.geometry();
    if !are_short(&logs) || !are_of_machine(script.version(), geometry, &logs) {
        return Err(RunFault::TranscriptDiffers);
    }
    let Ok(init) = script.copied_init(alloc) else {
        return Err(RunFault::Memory);
    };
    Ok(Session::new(script.version(), geometry, init, logs))
}
