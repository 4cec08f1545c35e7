//! The records that runs take.

ghost use Rattle.std.specs.Prelude.{◌≡◌, ◌+◌, ◌≤◌, ◌<◌, ◌^◌, ◌++◌, IfOk, OnOk};
ghost use Rattle.migration_types.specs.Sessions.{IsSession};
ghost use Rattle.audit_model.specs.Mergings.{at_start, run_names, spelled};
ghost use Rattle.audit_model.specs.Walks.{Walks, cursors_from};
ghost use Rattle.merge_runs.specs.Taken.{cursors_of};
ghost use Rattle.order_picture.specs.OrderParts.{IsOrderPart};

use audit_model::mergings_are_walks;
use merge_runs::{TakenCounts, first_bad_run};
use migration_types::{LogName, Run, Session};
use session_story::Name;
use std::alloc::{AllocError, Global};

/// The records of an order, and how many of each log there are.
#[derive(Drop)]
pub(crate) struct OrderPart {
    pub names: Vec<Name>,
    pub taken: TakenCounts,
    /// The place of the first run that cannot be taken, or the number of runs if records are left.
    pub bad: Option<usize>,
}

/// Appends the names of this many records of a log, from a place on.
fn push_run(names: &mut Vec<Name>, log: LogName, from: u32, count: u32) -> Result<(), AllocError>
    requires { from + count < 2 ^ 32 }
    ensures { OnOk result (names.new.items ≡ names.old.items ++ run_names log from count) }
{
    for k in 0..count {
        names.push((log, from + k))?;
    }
    Ok(())
}

/// Appends the names of the records that the runs take, and returns how many of each log there are.
fn push_runs(
    names: &mut Vec<Name>,
    session: &Session,
    runs: &[Run],
) -> Result<TakenCounts, AllocError>
    requires limits { IsSession session.now }
    requires walk { Walks session.now at_start (spelled runs.now) }
    ensures names { OnOk result (names.new.items ≡ names.old.items ++ spelled runs.now) }
    ensures taken { IfOk result (λ taken. cursors_of taken ≡ cursors_from at_start (spelled runs.now)) }
{
    let mut taken = TakenCounts::nothing();
    for (place, run) in runs.iter().enumerate() {
        push_run(names, run.log, taken.of(run.log) as u32, run.count)?;
        taken = taken.moved(run.log, run.count as usize);
    }
    Ok(taken)
}

/// Returns the records that the runs take, if they spell a merging, and otherwise those that the runs before the first
/// bad one take. Allocates memory for the names. Fails only if memory runs out.
pub(crate) fn part_along(
    alloc: Global,
    session: &Session,
    runs: &[Run],
) -> Result<OrderPart, AllocError>
    ensures part { IfOk result (λ d. IsOrderPart session.now runs.now d.names.items d.bad) }
    ensures taken { IfOk result (λ d. cursors_of d.taken ≡ cursors_from at_start d.names.items) }
{
    session.keeps_limits();
    mergings_are_walks();
    let bad = first_bad_run(session, runs);
    let walked = match bad {
        Some(place) => &runs[..place],
        None => runs,
    };
    let mut names = Vec::new(alloc);
    let taken = push_runs(&mut names, session, walked)?;
    Ok(OrderPart { names, taken, bad })
}
