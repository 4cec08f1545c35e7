//! The replay of a merging: its records change the machines one after the other.

ghost use Rattle.std.specs.Prelude.{◌≡◌, ◌+◌, ◌<◌, ◌≤◌, [], IfOk, OnOk, MatchResult};
ghost use Rattle.migration_types.specs.Sessions.{IsSession, GuestRecFits};
ghost use Rattle.audit_model.specs.Names.{log_length};
ghost use Rattle.audit_model.specs.Mergings.{IsMerging, spelled};
ghost use Rattle.merge_runs.specs.inner.Moving.{GuestHas, SourceHas, PagerHas};
ghost use Rattle.merge_runs.specs.inner.Replaying.{noted, unmoved_frames, AreSized, IsReplaying, HasOne, HasRun, IsGuestStep, IsSourceStep, IsPagerStep};
ghost use Rattle.merge_runs.specs.Replays.{IsReplay, IsMergeFault};

use crate::demands::{guest_met, pager_met, source_met};
use crate::is_merging;
use crate::moving::Moving;
use crate::outcome::{MergeFault, Replay};
use crate::taken::TakenCounts;
use crate::unmoved::step_unmoved;
use audit_model::mergings_are_walks;
use migration_types::{GuestRec, LogName, PagerRec, Run, Session, SourceRec};
use page_store::Store;
use std::alloc::{AllocError, Global};

/// The state of a replay.
#[derive(Drop)]
pub(crate) struct Replaying {
    pub moving: Moving,
    /// The frames of a machine that never moved, once the guest has left the source. Until then they are the source's.
    pub unmoved: Option<Store>,
    pub first_broken: Option<(LogName, u32)>,
}

/// Returns the state before the first record. Fails only if memory runs out.
fn start(alloc: Global, session: &Session) -> Result<Replaying, AllocError>
    ensures sized { IfOk result (λ r. AreSized session.now.geometry r) }
    ensures start { IfOk result (λ r. IsReplaying session.now [] r) }
{
    let moving = Moving::start(alloc, session)?;
    Ok(Replaying {
        moving,
        unmoved: None,
        first_broken: None,
    })
}

/// Notes a record whose demand is not met, if it is the first.
fn note(met: bool, first_broken: &mut Option<(LogName, u32)>, log: LogName, n: u32)
    ensures { first_broken.new ≡ noted met first_broken.old (log, n) }
{
    if !met && first_broken.is_none() {
        *first_broken = Some((log, n));
    }
}

/// Judges a record of the guest, and carries it out.
fn step_guest(
    alloc: Global,
    replaying: &mut Replaying,
    rec: &GuestRec,
    n: u32,
) -> Result<(), AllocError>
    requires moving { GuestHas replaying.old.moving rec.now }
    requires unmoved { GuestRecFits (unmoved_frames replaying.old).geometry rec.now }
    ensures { OnOk result (IsGuestStep rec.now n replaying.old replaying.new) }
{
    let met = guest_met(&replaying.moving, &replaying.unmoved, rec);
    step_unmoved(
        alloc,
        &mut replaying.unmoved,
        &replaying.moving.source.frames,
        rec,
    )?;
    note(met, &mut replaying.first_broken, LogName::Guest, n);
    replaying.moving.step_guest(rec);
    Ok(())
}

/// Judges a record of the source, which changes no machine.
fn step_source(replaying: &mut Replaying, rec: &SourceRec, n: u32)
    requires { SourceHas replaying.old.moving rec.now }
    ensures { IsSourceStep rec.now n replaying.old replaying.new }
{
    let met = source_met(&replaying.moving, rec);
    note(met, &mut replaying.first_broken, LogName::Source, n);
}

/// Judges a record of the pager, and carries it out.
fn step_pager(replaying: &mut Replaying, rec: &PagerRec, n: u32)
    requires { PagerHas replaying.old.moving rec.now }
    ensures { IsPagerStep rec.now n replaying.old replaying.new }
{
    let met = pager_met(&replaying.moving, rec);
    note(met, &mut replaying.first_broken, LogName::Pager, n);
    replaying.moving.step_pager(rec);
}

/// Replays a record of a log. Those of the link and of the lane demand nothing, and change no machine.
fn step(
    alloc: Global,
    session: &Session,
    replaying: &mut Replaying,
    log: LogName,
    n: usize,
) -> Result<(), AllocError>
    requires limits { IsSession session.now }
    requires within { n < log_length session.now log }
    requires sized { AreSized session.now.geometry replaying.old }
    ensures sized { OnOk result (AreSized session.now.geometry replaying.new) }
    ensures one { OnOk result (HasOne session.now (log, n) replaying.old replaying.new) }
{
    match log {
        LogName::Guest => step_guest(alloc, replaying, &session.guest()[n], n as u32)?,
        LogName::Source => step_source(replaying, &session.source()[n], n as u32),
        LogName::Link | LogName::Lane => {}
        LogName::Pager => step_pager(replaying, &session.pager()[n], n as u32),
    }
    Ok(())
}

/// Replays the next records of a log.
fn run_log(
    alloc: Global,
    session: &Session,
    replaying: &mut Replaying,
    log: LogName,
    from: usize,
    count: usize,
) -> Result<(), AllocError>
    requires limits { IsSession session.now }
    requires within { from + count ≤ log_length session.now log }
    requires sized { AreSized session.now.geometry replaying.old }
    ensures sized { OnOk result (AreSized session.now.geometry replaying.new) }
    ensures run { OnOk result (HasRun session.now log from count replaying.old replaying.new) }
{
    for k in 0..count {
        step(alloc, session, replaying, log, from + k)?;
    }
    Ok(())
}

/// Replays the records of all runs.
fn run_all(
    alloc: Global,
    session: &Session,
    runs: &[Run],
    replaying: &mut Replaying,
) -> Result<(), AllocError>
    requires limits { IsSession session.now }
    requires merging { IsMerging session.now (spelled runs.now) }
    requires sized { AreSized session.now.geometry replaying.old }
    requires start { IsReplaying session.now [] replaying.old }
    ensures sized { OnOk result (AreSized session.now.geometry replaying.new) }
    ensures run { OnOk result (IsReplaying session.now (spelled runs.now) replaying.new) }
{
    mergings_are_walks();
    let mut taken = TakenCounts::nothing();
    for (place, run) in runs.iter().enumerate() {
        let count = run.count as usize;
        run_log(alloc, session, replaying, run.log, taken.of(run.log), count)?;
        taken = taken.moved(run.log, count);
    }
    Ok(())
}

/// Replays a merging from the start.
fn replayed(alloc: Global, session: &Session, runs: &[Run]) -> Result<Replay, AllocError>
    requires limits { IsSession session.now }
    requires merging { IsMerging session.now (spelled runs.now) }
    ensures { IfOk result (IsReplay session.now (spelled runs.now)) }
{
    let mut replaying = start(alloc, session)?;
    run_all(alloc, session, runs, &mut replaying)?;
    Ok(Replay {
        first_broken: replaying.first_broken,
        memory: replaying.moving.into_frames(),
    })
}

/// Replays the merging that the runs spell. Returns its first record whose demand fails, and the guest's memory after
/// all records. Makes one pass over the runs and the records, and allocates memory for the frames of both machines, for
/// those of one that never moved once the guest leaves the source, and for four marks for each page.
pub fn replay(alloc: Global, session: &Session, runs: &[Run]) -> Result<Replay, MergeFault>
    ensures { MatchResult result (IsReplay session.now (spelled runs.now)) (IsMergeFault session.now (spelled runs.now)) }
{
    if !is_merging(session, runs) {
        return Err(MergeFault::NoMerging);
    }
    session.keeps_limits();
    match replayed(alloc, session, runs) {
        Ok(replay) => Ok(replay),
        Err(_) => Err(MergeFault::Memory),
    }
}
