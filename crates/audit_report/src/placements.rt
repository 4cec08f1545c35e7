//! The placement that shows a fault if it is delayed.

ghost use Rattle.std.specs.Prelude.{◌≡◌, MatchOption};
ghost use Rattle.migration_types.specs.Sessions.{IsSession};
ghost use Rattle.audit_model.specs.Faults.{IsPageFault};
ghost use Rattle.audit_model.specs.Delayed.{IsFirstPlacement};
ghost use Rattle.audit_report.specs.Reports.{page_used, HasNoPlacement, IsShownWith, IsUndelayed};

use audit_model::{PageReason, is_placement_of};
use migration_types::{GuestRec, LogName, PageNo, Session};
use page_facts::PageFault;

/// Returns the page that the record at this place of a log reads or writes, if it is an access of the guest.
fn page_used(session: &Session, log: LogName, place: u32) -> Option<PageNo>
    ensures { result ≡ page_used session.now (log, place) }
{
    match log {
        LogName::Guest => match session.guest().get(place as usize) {
            Some(GuestRec::Read { page, .. }) => Some(*page),
            Some(GuestRec::Write { page, .. }) => Some(*page),
            _ => None,
        },
        _ => None,
    }
}

/// Returns the pager's first placement of a page, by one pass over the pager's log. Allocates no memory.
pub fn first_placement(session: &Session, page: PageNo) -> Option<u32>
    ensures { MatchOption result (HasNoPlacement session.now page) (IsFirstPlacement session.now page) }
{
    session.keeps_limits();
    let pager = session.pager();
    for n in 0..pager.len() {
        if is_placement_of(&pager[n], page) {
            return Some(n as u32);
        }
    }
    None
}

/// Returns the placement that is delayed to show a fault: the first placement of the page of an early access, or a
/// faulty placement over a release. Returns `None` if the fault is another one, or the page is not placed.
pub(crate) fn placement_for(session: &Session, fault: &PageFault) -> Option<u32>
    requires limits { IsSession session.now }
    requires fault { IsPageFault session.now fault.now.reason (fault.now.log, fault.now.place) }
    ensures { MatchOption result (IsUndelayed session.now fault.now.reason (fault.now.log, fault.now.place)) (IsShownWith session.now fault.now.reason (fault.now.log, fault.now.place)) }
{
    match fault.reason {
        PageReason::Early => {
            let page = page_used(session, fault.log, fault.place)?;
            first_placement(session, page)
        }
        PageReason::Over => Some(fault.place),
        PageReason::Read
        | PageReason::Given
        | PageReason::Stale
        | PageReason::Twice
        | PageReason::Altered
        | PageReason::Unfit => None,
    }
}
