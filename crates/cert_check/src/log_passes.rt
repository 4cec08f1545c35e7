//! The misshapen records of a log: the first, or all of them.

ghost use Rattle.std.specs.Prelude.{◌≡◌, ◌+◌, MatchOption, OnOk, Some};
ghost use Rattle.migration_types.specs.Sessions.{IsSession, line_of, log_length};
ghost use Rattle.cert_check.specs.inner.FaultsUpTo.{AreFaultsUpTo};
ghost use Rattle.cert_check.specs.inner.FirstOfLog.{IsFirstOfLog, IsRightLog, reason_at};
ghost use Rattle.cert_check.specs.inner.Passes.{IsAt};

use crate::passes::Pass;
use crate::verdict::ShapeFault;
use audit_model::ShapeReason;
use migration_types::{LogName, Session, line_of};
use std::alloc::AllocError;

/// Returns a misshapen record of a log with its line.
fn told(session: &Session, log: LogName, n: usize, reason: ShapeReason) -> ShapeFault
    requires limits { IsSession session.now }
    requires is { reason_at session.now (log, n) ≡ Some reason }
    ensures line { result.line ≡ line_of session.now (log, n) }
    ensures log { result.log ≡ log }
    ensures place { result.place ≡ n }
    ensures reason { result.reason ≡ reason }
{
    let place = n as u32;
    ShapeFault {
        line: line_of(session, log, place),
        log,
        place,
        reason,
    }
}

/// Goes over a log, and returns its first misshapen record.
pub(crate) fn first_found(session: &Session, log: LogName, pass: &mut Pass) -> Option<ShapeFault>
    requires limits { IsSession session.now }
    requires at { IsAt session.now log 0 pass.old }
    ensures { MatchOption result (IsRightLog session.now log × IsAt session.now log (log_length session.now log) pass.new) (IsFirstOfLog session.now log) }
{
    for n in 0..session.len(log) {
        if let Some(reason) = pass.reason(session, log, n) {
            return Some(told(session, log, n, reason));
        }
        pass.step(session, log, n);
    }
    None
}

/// Appends the record of this number, if it is misshapen. Fails only if memory runs out.
fn push_if(
    session: &Session,
    log: LogName,
    n: usize,
    reason: Option<ShapeReason>,
    found: &mut Vec<ShapeFault>,
) -> Result<(), AllocError>
    requires limits { IsSession session.now }
    requires is { reason ≡ reason_at session.now (log, n) }
    requires before { AreFaultsUpTo session.now log n found.old.items }
    ensures { OnOk result (AreFaultsUpTo session.now log (n + 1) found.new.items) }
{
    if let Some(reason) = reason {
        found.push(told(session, log, n, reason))?;
    }
    Ok(())
}

/// Goes over a log, and appends each misshapen record. Fails only if memory runs out.
pub(crate) fn push_found(
    session: &Session,
    log: LogName,
    pass: &mut Pass,
    found: &mut Vec<ShapeFault>,
) -> Result<(), AllocError>
    requires limits { IsSession session.now }
    requires at { IsAt session.now log 0 pass.old }
    requires before { AreFaultsUpTo session.now log 0 found.old.items }
    ensures { OnOk result (AreFaultsUpTo session.now log (log_length session.now log) found.new.items × IsAt session.now log (log_length session.now log) pass.new) }
{
    for n in 0..session.len(log) {
        let reason = pass.reason(session, log, n);
        push_if(session, log, n, reason, found)?;
        pass.step(session, log, n);
    }
    Ok(())
}
