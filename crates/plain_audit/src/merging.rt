//! Mergings, computed plainly and slowly: whether each record of an order may follow those before it, by counting
//! these.

ghost use Rattle.std.specs.Prelude.{◌≡◌, ◌<◌, ◌↔◌, IsTrue, length, take, slice_index_or};
ghost use Rattle.migration_types.specs.Receipts.{Name};
ghost use Rattle.audit_model.specs.Names.{receipt, same_log};
ghost use Rattle.audit_model.specs.Mergings.{IsMerging, at_start};
ghost use Rattle.audit_model.specs.Walks.{cursors_from};
ghost use Rattle.audit_model.specs.FoundOrder.{is_received};
ghost use Rattle.audit_model.specs.inner.MergingTests.{may, all_taken};

use migration_types::{LogName, Session};

/// Returns whether the two logs are the same.
fn same_log(one: LogName, other: LogName) -> bool
    ensures { result ≡ same_log one other }
{
    one == other
}

/// Returns how many of these names are of the log.
fn taken(order: &[(LogName, u32)], log: LogName) -> usize
    ensures { result ≡ cursors_from at_start order.now log }
{
    let mut count = 0;
    for at in 0..order.len() {
        if same_log(order[at].0, log) {
            count += 1;
        }
    }
    count
}

/// Returns whether the record that a record is a receipt for is among these names.
fn is_received(order: &[(LogName, u32)], sent: Option<(LogName, u32)>) -> bool
    ensures { result ≡ is_received (cursors_from at_start order.now) sent }
{
    match sent {
        Some((log, place)) => (place as usize) < taken(order, log),
        None => true,
    }
}

/// Returns whether the record at this place of a log may follow the records with these names.
fn may_follow(session: &Session, order: &[(LogName, u32)], log: LogName, place: u32) -> bool
    ensures { result ≡ may session.now (cursors_from at_start order.now) (log, place) }
{
    place as usize == taken(order, log)
        && (place as usize) < session.len(log)
        && is_received(order, session.named((log, place)))
}

/// Returns whether these names are as many of each log as the log has records.
fn takes_all(session: &Session, order: &[(LogName, u32)]) -> bool
    ensures { result ≡ all_taken session.now (cursors_from at_start order.now) }
{
    taken(order, LogName::Guest) == session.len(LogName::Guest)
        && taken(order, LogName::Source) == session.len(LogName::Source)
        && taken(order, LogName::Link) == session.len(LogName::Link)
        && taken(order, LogName::Lane) == session.len(LogName::Lane)
        && taken(order, LogName::Pager) == session.len(LogName::Pager)
}

/// Returns whether a list of names is a merging of the session's logs. Counts what is before each name.
pub fn is_merging(session: &Session, order: &[(LogName, u32)]) -> bool
    ensures { IsTrue result ↔ IsMerging session.now order.now }
{
    for at in 0..order.len() {
        if !may_follow(session, &order[..at], order[at].0, order[at].1) {
            return false;
        }
    }
    takes_all(session, order)
}
