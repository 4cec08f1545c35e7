//! The parts of an order below a cut and above it.

ghost use Rattle.std.specs.Prelude.{◌≡◌, ◌+◌, ◌-◌, ◌≤◌, ◌++◌, IfOk, OnOk, min};
ghost use Rattle.migration_types.specs.Certs.{AreRuns};
ghost use Rattle.migration_types.specs.Limits.{longest_log};
ghost use Rattle.migration_types.specs.Sessions.{IsSession};
ghost use Rattle.audit_model.specs.Mergings.{IsMerging, run_names, spelled};
ghost use Rattle.audit_model.specs.Delayed.{rearranged};
ghost use Rattle.merge_runs.specs.Taken.{cursors_of};
ghost use Rattle.audit_report.specs.inner.Parts.{ends, AreBlocks, AreBelow, AreRearranged, IsWithin};

use audit_model::mergings_are_walks;
use merge_runs::TakenCounts;
use migration_types::{LogName, Run, Seq, Session};
use std::alloc::{AllocError, Global};

/// Appends the next `count` records of a log after some runs, to the last of these if it is of that log.
fn add_part(runs: &mut Vec<Run>, log: LogName, count: u32) -> Result<(), AllocError>
    requires blocks { AreBlocks runs.old.items }
    requires room { ends runs.old.items log + count ≤ longest_log }
    ensures blocks { OnOk result (AreBlocks runs.new.items) }
    ensures spelled { OnOk result (spelled runs.new.items ≡ spelled runs.old.items ++ run_names log (ends runs.old.items log) count) }
{
    if count == 0 {
        return Ok(());
    }
    let len = runs.len();
    if len > 0 && runs[len - 1].log == log {
        runs[len - 1].count += count;
        return Ok(());
    }
    runs.push(Run { log, count })?;
    Ok(())
}

/// Returns how many of a run's records lie below the cut.
fn below_of(taken: &TakenCounts, cut: &TakenCounts, run: &Run) -> u32
    ensures { result ≡ min run.now.count (cursors_of cut.now run.now.log - cursors_of taken.now run.now.log) }
{
    let below = cut.of(run.log).saturating_sub(taken.of(run.log));
    below.min(run.count as usize) as u32
}

/// Returns the part of the order below the cut.
fn below_parts(
    alloc: Global,
    session: &Session,
    runs: &[Run],
    cut: &TakenCounts,
) -> Result<Vec<Run>, AllocError>
    requires limits { IsSession session.now }
    requires merging { IsMerging session.now (spelled runs.now) }
    requires within { IsWithin session.now (cursors_of cut.now) }
    ensures { IfOk result (λ parts. AreBelow (cursors_of cut.now) runs.now parts.items) }
{
    mergings_are_walks();
    let mut parts = Vec::new(alloc);
    let mut taken = TakenCounts::nothing();
    for run in runs {
        let below = below_of(&taken, cut, run);
        add_part(&mut parts, run.log, below)?;
        taken = taken.moved(run.log, run.count as usize);
    }
    Ok(parts)
}

/// Appends the part of the order above the cut after the part below it.
fn add_above(
    session: &Session,
    runs: &[Run],
    cut: &TakenCounts,
    parts: &mut Vec<Run>,
) -> Result<(), AllocError>
    requires limits { IsSession session.now }
    requires merging { IsMerging session.now (spelled runs.now) }
    requires within { IsWithin session.now (cursors_of cut.now) }
    requires below { AreBelow (cursors_of cut.now) runs.now parts.old.items }
    ensures { OnOk result (AreRearranged (cursors_of cut.now) runs.now parts.new.items) }
{
    mergings_are_walks();
    let mut taken = TakenCounts::nothing();
    for run in runs {
        let below = below_of(&taken, cut, run);
        add_part(parts, run.log, run.count - below)?;
        taken = taken.moved(run.log, run.count as usize);
    }
    Ok(())
}

/// Returns the order with what is above a cut moved after what is below it, in runs as long as they can be. Makes two
/// passes over the runs, and allocates memory for at most twice as many. Fails only if memory runs out.
pub(crate) fn rearranged(
    alloc: Global,
    session: &Session,
    runs: &[Run],
    cut: &TakenCounts,
) -> Result<Seq<Run>, AllocError>
    requires limits { IsSession session.now }
    requires merging { IsMerging session.now (spelled runs.now) }
    requires within { IsWithin session.now (cursors_of cut.now) }
    ensures runs { IfOk result (λ order. AreRuns session.now.version session.now.geometry.size order) }
    ensures spelled { IfOk result (λ order. spelled order ≡ rearranged (cursors_of cut.now) (spelled runs.now)) }
{
    let mut parts = below_parts(alloc, session, runs, cut)?;
    add_above(session, runs, cut, &mut parts)?;
    Ok(Seq::from_vec(parts))
}
