//! Records that wait for one another.

ghost use Rattle.std.specs.Prelude.{◌≡◌, ◌<◌, ◌≤◌, None, IfOk, MatchOption};
ghost use Rattle.migration_types.specs.Sessions.{IsSession};
ghost use Rattle.merge_runs.specs.Taken.{cursors_of};
ghost use Rattle.audit_model.specs.Names.{log_length, receipt};
ghost use Rattle.audit_model.specs.Shape.{IsRightShape};
ghost use Rattle.audit_model.specs.FoundOrder.{first_ready};
ghost use Rattle.cert_maker.specs.Orders.{IsTied};
ghost use Rattle.session_story.specs.Waits.{IsCircle};
ghost use Rattle.session_story.specs.inner.Waits.{IsNext, IsCircleAt};

use crate::{Knot, Waiting};
use cert_maker::{FirstLeft, FoundRuns};
use merge_runs::TakenCounts;
use migration_types::{LogName, Session};
use std::alloc::{AllocError, Global};

/// Returns the next record of a log, if it is a receipt.
fn next_of(session: &Session, taken: &TakenCounts, log: LogName) -> Option<Waiting>
    requires limits { IsSession session.now }
    requires left { cursors_of taken.now log < log_length session.now log }
    ensures { MatchOption result (receipt session.now (log, cursors_of taken.now log) ≡ None) (IsNext session.now (cursors_of taken.now) log) }
{
    let place = taken.of(log) as u32;
    match session.named((log, place)) {
        Some((sent_log, sent_place)) => Some(Waiting {
            log,
            place,
            sent_log,
            sent_place,
        }),
        None => None,
    }
}

/// Returns the records that wait for one another, from a log's next record on, if no next record is ready.
fn circle_from(
    alloc: Global,
    session: &Session,
    taken: &TakenCounts,
    first: LogName,
) -> Result<Knot, AllocError>
    requires limits { IsSession session.now }
    requires shape { IsRightShape session.now }
    requires stuck { first_ready session.now (cursors_of taken.now) ≡ None }
    requires left { cursors_of taken.now first < log_length session.now first }
    ensures { IfOk result (IsCircleAt session.now (cursors_of taken.now) first) }
{
    let mut waits = Vec::new(alloc);
    let mut found = TakenCounts::nothing();
    let mut log = first;
    while found.of(log) == 0 {
        let Some(waiting) = next_of(session, taken, log) else {
            unreachable!()
        };
        waits.push(waiting)?;
        found = found.with(log, waits.len());
        log = waiting.sent_log;
    }
    let back = found.of(log) - 1;
    Ok(Knot { waits, back })
}

/// Returns the records of a knot that wait for one another, from the one at the knot's line on. Looks at one record of
/// each log, and allocates memory for what these wait for. Fails only if memory runs out.
pub(crate) fn circle_of(
    alloc: Global,
    session: &Session,
    left: &FirstLeft,
    found: &FoundRuns,
) -> Result<Knot, AllocError>
    requires shape { IsRightShape session.now }
    requires tied { IsTied session.now left.now found.now }
    ensures { IfOk result (IsCircle session.now) }
{
    session.keeps_limits();
    circle_from(alloc, session, &found.taken, left.log)
}
