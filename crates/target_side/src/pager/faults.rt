//! How the pager learns of a miss.

ghost use Rattle.std.specs.Prelude.{◌≡◌, ◌+◌, ◌<◌, ◌≤◌, ◌||◌, [], true, false, length, is_some, OnOk, OnErr, IsErrOf};
ghost use Rattle.migration_types.specs.Limits.{most_records};
ghost use Rattle.residency.specs.Placements.{is_resident};
ghost use Rattle.fault_queue.specs.Waiting.{is_waiting, without_all};
ghost use Rattle.target_side.specs.Kept.{geometry_of, part_of as target_of};
ghost use Rattle.target_side.specs.PagerPart.{next_fault, faults_by, fault_at, zeroes};
ghost use Rattle.target_side.specs.PagerLists.{part_of};
ghost use Rattle.target_side.specs.inner.Steps.{learned, asks};

use super::{PagerBook, want_page};
use crate::log::append;
use crate::{TargetBook, TargetFault, UntakenMiss};
use fault_queue::Asked;
use migration_events::{look_for_room, make_room};
use migration_types::PagerRec;
use page_stream::Packet;

impl PagerBook {
    /// Cancels the pages that the guest released at the target before they came: nobody waits for them any more. Then
    /// it learns of the oldest miss that was not taken. If its page is neither resident nor released, the pager asks
    /// for the page, or lets the virtual processor wait with the page's other waiters. If its page is released, the
    /// pager places it as zeros at once. If there is no miss, or the state has not come, nothing more happens. The
    /// books must be of one machine. The error is `TargetFault::LogFull` exactly when the log has no room for the
    /// records; this is checked before memory is allocated. On an error, nothing changes.
    pub fn next_fault(&mut self, target: &mut TargetBook) -> Result<(), TargetFault>
        requires { geometry_of target.old ≡ self.old.geometry }
        ensures ok { OnOk result (record { pager = part_of self.new; target = target_of target.new; woken = [] } ≡ next_fault (part_of self.old) (target_of target.old)) }
        ensures machine { geometry_of target.new ≡ geometry_of target.old }
        ensures full { IsErrOf result TargetFault.LogFull → most_records < length (next_fault (part_of self.old) (target_of target.old)).pager.log }
        ensures memory { IsErrOf result TargetFault.Memory → length (next_fault (part_of self.old) (target_of target.old)).pager.log ≤ most_records }
        ensures err { OnErr result ((self.new ≡ self.old) × (target.new ≡ target.old)) }
    {
        if target.unsettled().is_empty() {
            return self.fault(target);
        }
        self.look_to_fault(target)?;
        let before = self.drop_waiters(target)?;
        if let Err(fault) = self.fault(target) {
            self.waiting = before;
            return Err(fault);
        }
        self.mark_settled(target);
        Ok(())
    }

    /// Returns whether the log has room for what a miss appends once pages are cancelled. Allocates no memory.
    pub fn look_to_fault(&self, target: &TargetBook) -> Result<(), TargetFault>
        requires { geometry_of target.now ≡ self.now.geometry }
        ensures room { OnOk result (length (next_fault (part_of self.now) (target_of target.now)).pager.log ≤ most_records) }
        ensures full { OnErr result (most_records < length (next_fault (part_of self.now) (target_of target.now)).pager.log) }
        ensures memory { IsErrOf result TargetFault.Memory → ⊥ }
    {
        let more = self.records_of_fault(target);
        look_for_room(&self.log, more)
    }

    /// Returns how many records a miss appends once pages are cancelled.
    fn records_of_fault(&self, target: &TargetBook) -> usize
        requires { geometry_of target.now ≡ self.now.geometry }
        ensures few { result ≤ 2 }
        ensures count { length (next_fault (part_of self.now) (target_of target.now)).pager.log ≡ length self.now.log + result }
    {
        if self.released.is_none() {
            return 0;
        }
        let Some(missing) = target.next_miss() else {
            return 0;
        };
        if self.is_only_learned(missing, target) {
            1
        } else {
            2
        }
    }

    /// Returns whether nothing follows from a miss once pages are cancelled: its page is resident, or its virtual
    /// processor waits.
    fn is_only_learned(&self, missing: UntakenMiss, target: &TargetBook) -> bool
        requires machine { geometry_of target.now ≡ self.now.geometry }
        requires page { missing.page < self.now.geometry.pages }
        ensures { result ≡ is_resident ((target_of target.now).placed missing.page) ((target_of target.now).freed missing.page) || is_waiting missing.vcpu (without_all (target_of target.now).unsettled self.now.waiting) }
    {
        target.resident(missing.page) || self.waiting.waits_beside(missing.vcpu, target.unsettled())
    }

    /// Learns of the oldest miss, once pages are cancelled.
    fn fault(&mut self, target: &mut TargetBook) -> Result<(), TargetFault>
        requires { geometry_of target.old ≡ self.old.geometry }
        ensures ok { OnOk result (record { pager = part_of self.new; target = target_of target.new; woken = [] } ≡ faults_by self.old.released (target_of target.old).misses (part_of self.old) (target_of target.old)) }
        ensures machine { geometry_of target.new ≡ geometry_of target.old }
        ensures full { IsErrOf result TargetFault.LogFull → most_records < length (faults_by self.old.released (target_of target.old).misses (part_of self.old) (target_of target.old)).pager.log }
        ensures memory { IsErrOf result TargetFault.Memory → length (faults_by self.old.released (target_of target.old).misses (part_of self.old) (target_of target.old)).pager.log ≤ most_records }
        ensures err { OnErr result ((self.new ≡ self.old) × (target.new ≡ target.old)) }
    {
        if self.released.is_none() {
            return Ok(());
        }
        let Some(missing) = target.next_miss() else {
            return Ok(());
        };
        self.learn_of(missing, target)?;
        target.take_miss();
        Ok(())
    }

    /// Learns of a miss.
    fn learn_of(&mut self, missing: UntakenMiss, target: &mut TargetBook) -> Result<(), TargetFault>
        requires machine { geometry_of target.old ≡ self.old.geometry }
        requires ready { is_some self.old.released ≡ true }
        requires page { missing.page < self.old.geometry.pages }
        ensures ok { OnOk result (record { pager = part_of self.new; target = target_of target.new; woken = [] } ≡ fault_at missing.page missing.vcpu (learned missing.number (part_of self.old)) (target_of target.old)) }
        ensures machine { geometry_of target.new ≡ geometry_of target.old }
        ensures full { IsErrOf result TargetFault.LogFull → most_records < length (fault_at missing.page missing.vcpu (learned missing.number (part_of self.old)) (target_of target.old)).pager.log }
        ensures memory { IsErrOf result TargetFault.Memory → length (fault_at missing.page missing.vcpu (learned missing.number (part_of self.old)) (target_of target.old)).pager.log ≤ most_records }
        ensures err { OnErr result ((self.new ≡ self.old) × (target.new ≡ target.old)) }
    {
        if target.resident(missing.page) || self.waiting.is_waiting(missing.vcpu) {
            return self.learn(missing.number);
        }
        if self.marks.at(missing.page) {
            return self.zero(missing, target);
        }
        self.ask(missing)
    }

    /// Records a miss.
    fn learn(&mut self, miss: u32) -> Result<(), TargetFault>
        requires { is_some self.old.released ≡ true }
        ensures ok { OnOk result (part_of self.new ≡ learned miss (part_of self.old)) }
        ensures full { IsErrOf result TargetFault.LogFull → most_records < length (learned miss (part_of self.old)).log }
        ensures memory { IsErrOf result TargetFault.Memory → length (learned miss (part_of self.old)).log ≤ most_records }
        ensures err { OnErr result (self.new ≡ self.old) }
    {
        make_room(&mut self.log, 1)?;
        append(&mut self.log, PagerRec::Fault { miss });
        Ok(())
    }

    /// Records a miss of a released page, and places the page as zeros.
    fn zero(&mut self, missing: UntakenMiss, target: &mut TargetBook) -> Result<(), TargetFault>
        requires machine { geometry_of target.old ≡ self.old.geometry }
        requires ready { is_some self.old.released ≡ true }
        requires page { missing.page < self.old.geometry.pages }
        requires absent { is_resident ((target_of target.old).placed missing.page) ((target_of target.old).freed missing.page) ≡ false }
        ensures ok { OnOk result (record { pager = part_of self.new; target = target_of target.new; woken = [] } ≡ zeroes missing.page (learned missing.number (part_of self.old)) (target_of target.old)) }
        ensures machine { geometry_of target.new ≡ geometry_of target.old }
        ensures full { IsErrOf result TargetFault.LogFull → most_records < length (zeroes missing.page (learned missing.number (part_of self.old)) (target_of target.old)).pager.log }
        ensures memory { IsErrOf result TargetFault.Memory → length (zeroes missing.page (learned missing.number (part_of self.old)) (target_of target.old)).pager.log ≤ most_records }
        ensures err { OnErr result ((self.new ≡ self.old) × (target.new ≡ target.old)) }
    {
        make_room(&mut self.log, 2)?;
        let number = self.log.len() as u32 + 1;
        if target.zero(missing.page, number).is_err() {
            return Err(TargetFault::Memory);
        }
        append(
            &mut self.log,
            PagerRec::Fault {
                miss: missing.number,
            },
        );
        append(&mut self.log, PagerRec::Zero { page: missing.page });
        self.placed.set(missing.page, true);
        Ok(())
    }

    /// Records a miss of an absent page, and asks for the page, or lets the virtual processor wait with the page's
    /// other waiters.
    fn ask(&mut self, missing: UntakenMiss) -> Result<(), TargetFault>
        requires ready { is_some self.old.released ≡ true }
        requires page { missing.page < self.old.geometry.pages }
        requires away { is_waiting missing.vcpu self.old.waiting ≡ false }
        ensures ok { OnOk result (part_of self.new ≡ asks missing.page missing.vcpu (learned missing.number (part_of self.old))) }
        ensures full { IsErrOf result TargetFault.LogFull → most_records < length (asks missing.page missing.vcpu (learned missing.number (part_of self.old))).log }
        ensures memory { IsErrOf result TargetFault.Memory → length (asks missing.page missing.vcpu (learned missing.number (part_of self.old))).log ≤ most_records }
        ensures err { OnErr result (self.new ≡ self.old) }
    {
        make_room(&mut self.log, 2)?;
        if self.outbox.reserve(1).is_err() {
            return Err(TargetFault::Memory);
        }
        let Ok(asked) = self.waiting.fault(missing.page, missing.vcpu) else {
            return Err(TargetFault::Memory);
        };
        append(
            &mut self.log,
            PagerRec::Fault {
                miss: missing.number,
            },
        );
        match asked {
            Asked::Joined => {
                if let Some(want) = self.wants.at(missing.page) {
                    append(&mut self.log, PagerRec::Join { want });
                }
                Ok(())
            }
            Asked::New => {
                let number = want_page(&mut self.log, &mut self.wants, missing.page);
                self.outbox.push_back_reserved(Packet::Want {
                    number,
                    page: missing.page,
                });
                Ok(())
            }
        }
    }
}
