//! How the pager cancels the pages that the guest released at the target before they came.

ghost use Rattle.std.specs.Prelude.{◌≡◌, ◌||◌, IfOk, OnOk, OnErr, IsErrOf};
ghost use Rattle.fault_queue.specs.Waiting.{without_all};
ghost use Rattle.target_side.specs.TargetPart.{settled};
ghost use Rattle.target_side.specs.Kept.{geometry_of, part_of as target_of};
ghost use Rattle.target_side.specs.PagerPart.{is_listed};
ghost use Rattle.target_side.specs.PagerLists.{part_of, IsKept};

use super::PagerBook;
use crate::marks::mark_all;
use crate::{TargetBook, TargetFault};
use fault_queue::FaultQueue;

impl PagerBook {
    /// Removes the waiters of the pages to be cancelled. Returns the queue as it was, for a call that fails afterwards.
    /// Fails only if memory runs out, and then nothing changes.
    pub(super) fn drop_waiters(&mut self, target: &TargetBook) -> Result<FaultQueue, TargetFault>
        ensures before { IfOk result (λ before. before ≡ self.old.waiting) }
        ensures ok { OnOk result (self.new ≡ record self.old { waiting = without_all (target_of target.now).unsettled self.old.waiting }) }
        ensures kept { IsKept (part_of self.old) }
        ensures memory { IsErrOf result TargetFault.LogFull → ⊥ }
        ensures err { OnErr result (self.new ≡ self.old) }
    {
        let Ok(mut waiting) = self.waiting.left_without(target.unsettled()) else {
            return Err(TargetFault::Memory);
        };
        std::mem::swap(&mut self.waiting, &mut waiting);
        Ok(waiting)
    }

    /// Marks the pages as cancelled, in both books. Nothing else changes.
    pub(super) fn mark_settled(&mut self, target: &mut TargetBook)
        requires { geometry_of target.old ≡ self.old.geometry }
        ensures part { part_of self.new ≡ record (part_of self.old) { settled = λ page. is_listed page (target_of target.old).unsettled || (part_of self.old).settled page } }
        ensures target { target_of target.new ≡ settled (target_of target.old) }
        ensures machine { geometry_of target.new ≡ geometry_of target.old }
    {
        mark_all(&mut self.settled, target.unsettled());
        target.settle();
    }
}
