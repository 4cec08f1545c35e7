//! The order that shows a fault.

ghost use Rattle.std.specs.Prelude.{IfOk};
ghost use Rattle.migration_types.specs.Sessions.{IsSession};
ghost use Rattle.audit_model.specs.Shape.{IsRightShape};
ghost use Rattle.audit_model.specs.FirstFault.{IsFirstPageFault};
ghost use Rattle.cert_maker.specs.Orders.{AreFoundRuns};
ghost use Rattle.audit_report.specs.Reports.{ShowsFault};

use crate::cuts::cut_for;
use crate::parts::rearranged;
use crate::placements::placement_for;
use audit_model::faults_are_unsafe;
use migration_types::{LogName, Run, Seq, Session};
use page_facts::PageFault;
use std::alloc::{AllocError, Global};

/// Returns the runs of an order in which the demand at the faulty record fails: the found order, or this order with a
/// placement delayed. That is the first placement of its page for an early access to a page that is placed, and the
/// faulty one for a placement over a release.
pub(crate) fn order_for(
    alloc: Global,
    session: &Session,
    found: Seq<Run>,
    fault: &PageFault,
) -> Result<Seq<Run>, AllocError>
    requires limits { IsSession session.now }
    requires shape { IsRightShape session.now }
    requires found { AreFoundRuns session.now found }
    requires fault { IsFirstPageFault session.now fault.now.reason (fault.now.log, fault.now.place) }
    ensures { IfOk result (λ order. ShowsFault session.now fault.now.reason (fault.now.log, fault.now.place) order) }
{
    faults_are_unsafe();
    match placement_for(session, fault) {
        Some(place) => {
            let cut = cut_for(session, found.as_slice(), LogName::Pager, place);
            rearranged(alloc, session, found.as_slice(), &cut)
        }
        None => Ok(found),
    }
}
