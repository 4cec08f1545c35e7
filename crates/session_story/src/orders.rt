//! Whether every order of the records shows a fault.

ghost use Rattle.std.specs.Prelude.{◌≡◌, List, Decides, Some, true};
ghost use Rattle.migration_types.specs.Receipts.{Name};
ghost use Rattle.audit_model.specs.Faults.{IsPageFault};
ghost use Rattle.audit_model.specs.Laws.{BreaksAt};
ghost use Rattle.audit_model.specs.Mergings.{IsMerging};
ghost use Rattle.audit_model.specs.Shape.{IsRightShape};
ghost use Rattle.page_facts.specs.PageFaults.{page_at};
ghost use Rattle.audit_report.specs.Reports.{IsReport};
ghost use Rattle.session_story.specs.Explained.{IsInEveryOrder};
ghost use Rattle.session_story.specs.Pages.{IsPageStory};
ghost use Rattle.session_story.specs.inner.Late.{late_for};

use crate::PageStory;
use audit_model::PageReason;
use audit_report::{Report, depends_on};
use migration_types::{LogName, Session};
use page_facts::{Findings, PageFault};

/// Returns the use of a page, and the placement that must come before it, for a fault that an order shows if it does
/// not: an early use of a page that is placed, or a placement over a release.
fn late_for(fault: &PageFault, found: &Findings) -> Option<(u32, u32)>
    ensures { result ≡ late_for fault.now.reason fault.now.place found.now }
{
    match fault.reason {
        PageReason::Early => Some((fault.place, found.placement?)),
        PageReason::Over => Some((found.touch?, fault.place)),
        PageReason::Read
        | PageReason::Given
        | PageReason::Stale
        | PageReason::Twice
        | PageReason::Altered
        | PageReason::Unfit => None,
    }
}

/// Returns whether every order of the records shows a fault of a page. If its placement must come before a use, every
/// order does if the placement depends on that use. Makes one pass over the records, and allocates no memory.
pub(crate) fn in_every_order(
    session: &Session,
    report: &Report,
    fault: &PageFault,
    page: &PageStory,
) -> bool
    requires report { IsReport session.now report.now }
    requires fault { IsPageFault session.now fault.now.reason (fault.now.log, fault.now.place) }
    requires of { page_at session.now (fault.now.log, fault.now.place) ≡ Some page.now.page }
    requires story { IsPageStory session.now page.now.page page.now }
    ensures exactly { IsRightShape session.now → Decides result (IsInEveryOrder session.now fault.now.reason fault.now.place page.now.page) }
    ensures breaks { IsRightShape session.now → result ≡ true → (order : List Name) → IsMerging session.now order → BreaksAt session.now order (fault.now.log, fault.now.place) }
{
    session.keeps_limits();
    let Report::Faulty { order, .. } = report else {
        return true;
    };
    match late_for(fault, &page.found) {
        Some((used, placement)) => depends_on(
            session,
            order.as_slice(),
            (LogName::Pager, placement),
            (LogName::Guest, used),
        ),
        None => true,
    }
}
