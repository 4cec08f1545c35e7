//! How the pager lets the guest resume, and places the pages that have come.

ghost use Rattle.std.specs.Prelude.{◌≡◌, ◌<◌, ◌≤◌, ◌⊎◌, [], true, false, length, slice_get, is_some, Some, None, IfOk, OnOk, OnErr, IsErrOf};
ghost use Rattle.std.specs.Option.{option_map, unwrap_or};
ghost use Rattle.migration_types.specs.Limits.{most_records};
ghost use Rattle.residency.specs.Placements.{is_resident};
ghost use Rattle.target_side.specs.Kept.{geometry_of, part_of as target_of};
ghost use Rattle.target_side.specs.declared.incoming.Incoming.{Incoming};
ghost use Rattle.target_side.specs.PagerPart.{deliver, delivers_by};
ghost use Rattle.target_side.specs.PagerLists.{part_of};
ghost use Rattle.target_side.specs.inner.Steps.{skips, places_next};

use super::PagerBook;
use crate::log::append;
use crate::{TargetBook, TargetFault};
use migration_events::{look_for_room, make_room};
use migration_types::{PagerRec, Seq};
use std::alloc::Global;

impl PagerBook {
    /// Cancels the pages that the guest released at the target before they came: nobody waits for them any more, and
    /// nobody is woken for them. Once the state has come, it lets the guest resume at the target. After that, it takes
    /// the oldest page that has come. It places the page and returns the virtual processors that wait for it, in their
    /// order. If the page is resident already, it drops the page. In all other cases, it returns nobody. The books must
    /// be of one machine. The error is `TargetFault::LogFull` exactly when the log that gains a record has no room for
    /// it; this is checked before memory is allocated. On an error, nothing changes.
    pub fn deliver(&mut self, target: &mut TargetBook) -> Result<Seq<u8>, TargetFault>
        requires { geometry_of target.old ≡ self.old.geometry }
        ensures ok { IfOk result (λ woken. record { pager = part_of self.new; target = target_of target.new; woken = woken } ≡ deliver (part_of self.old) (target_of target.old)) }
        ensures machine { geometry_of target.new ≡ geometry_of target.old }
        ensures full { IsErrOf result TargetFault.LogFull → let after = deliver (part_of self.old) (target_of target.old) in (most_records < length after.pager.log) ⊎ (most_records < length after.target.log) }
        ensures memory { IsErrOf result TargetFault.Memory → let after = deliver (part_of self.old) (target_of target.old) in (length after.pager.log ≤ most_records) × (length after.target.log ≤ most_records) }
        ensures err { OnErr result ((self.new ≡ self.old) × (target.new ≡ target.old)) }
    {
        if target.unsettled().is_empty() {
            return self.bring(target);
        }
        self.look_to_bring(target)?;
        let before = self.drop_waiters(target)?;
        match self.bring(target) {
            Ok(woken) => {
                self.mark_settled(target);
                Ok(woken)
            }
            Err(fault) => {
                self.waiting = before;
                Err(fault)
            }
        }
    }

    /// Returns whether the log that gains a record of a delivery has room for it. Allocates no memory.
    pub fn look_to_deliver(&self, target: &TargetBook) -> Result<(), TargetFault>
        ensures room { OnOk result (let after = deliver (part_of self.now) (target_of target.now) in (length after.pager.log ≤ most_records) × (length after.target.log ≤ most_records)) }
        ensures full { OnErr result (let after = deliver (part_of self.now) (target_of target.now) in (most_records < length after.pager.log) ⊎ (most_records < length after.target.log)) }
        ensures memory { IsErrOf result TargetFault.Memory → ⊥ }
    {
        self.look_to_bring(target)
    }

    /// Returns whether the log that gains a record has room for it, if the guest resumes or a page has come. Allocates
    /// no memory.
    fn look_to_bring(&self, target: &TargetBook) -> Result<(), TargetFault>
        ensures room { OnOk result (let after = delivers_by self.now.released (part_of self.now) (target_of target.now) in (length after.pager.log ≤ most_records) × (length after.target.log ≤ most_records)) }
        ensures full { OnErr result (let after = delivers_by self.now.released (part_of self.now) (target_of target.now) in (most_records < length after.pager.log) ⊎ (most_records < length after.target.log)) }
        ensures memory { IsErrOf result TargetFault.Memory → ⊥ }
    {
        self.keeps_limits();
        target.keeps_history();
        if self.released.is_none() {
            return Ok(());
        }
        if !target.is_resumed() {
            return target.look_to_resume();
        }
        if self.inbox.is_empty() {
            return Ok(());
        }
        look_for_room(&self.log, 1)
    }

    /// Lets the guest resume, or takes the oldest page that has come, once pages are cancelled.
    fn bring(&mut self, target: &mut TargetBook) -> Result<Seq<u8>, TargetFault>
        requires { geometry_of target.old ≡ self.old.geometry }
        ensures ok { IfOk result (λ woken. record { pager = part_of self.new; target = target_of target.new; woken = woken } ≡ delivers_by self.old.released (part_of self.old) (target_of target.old)) }
        ensures machine { geometry_of target.new ≡ geometry_of target.old }
        ensures full { IsErrOf result TargetFault.LogFull → let after = delivers_by self.old.released (part_of self.old) (target_of target.old) in (most_records < length after.pager.log) ⊎ (most_records < length after.target.log) }
        ensures memory { IsErrOf result TargetFault.Memory → let after = delivers_by self.old.released (part_of self.old) (target_of target.old) in (length after.pager.log ≤ most_records) × (length after.target.log ≤ most_records) }
        ensures err { OnErr result ((self.new ≡ self.old) × (target.new ≡ target.old)) }
    {
        self.keeps_limits();
        target.keeps_history();
        if self.released.is_none() {
            return Ok(nobody(self.alloc));
        }
        if !target.is_resumed() {
            target.resume()?;
            return Ok(nobody(self.alloc));
        }
        let Some(page) = self.next_page() else {
            return Ok(nobody(self.alloc));
        };
        if target.resident(page) {
            self.skip_page()?;
            return Ok(nobody(self.alloc));
        }
        self.place_page(target)
    }

    /// Drops the oldest page that has come.
    fn skip_page(&mut self) -> Result<(), TargetFault>
        requires ready { is_some self.old.released ≡ true }
        requires come { 0 < length self.old.inbox }
        ensures ok { OnOk result (part_of self.new ≡ skips self.old.inbox (part_of self.old)) }
        ensures full { IsErrOf result TargetFault.LogFull → most_records < length (skips self.old.inbox (part_of self.old)).log }
        ensures memory { IsErrOf result TargetFault.Memory → length (skips self.old.inbox (part_of self.old)).log ≤ most_records }
        ensures err { OnErr result (self.new ≡ self.old) }
    {
        make_room(&mut self.log, 1)?;
        let Some(incoming) = self.inbox.pop_front() else {
            return Ok(());
        };
        append(&mut self.log, PagerRec::Skip { got: incoming.got });
        Ok(())
    }

    /// Places the oldest page that has come, and returns who waits for it.
    fn place_page(&mut self, target: &mut TargetBook) -> Result<Seq<u8>, TargetFault>
        requires machine { geometry_of target.old ≡ self.old.geometry }
        requires ready { is_some self.old.released ≡ true }
        requires come { 0 < length self.old.inbox }
        requires absent { (x : Incoming) → slice_get self.old.inbox 0 ≡ Some x → is_resident ((target_of target.old).placed x.page) ((target_of target.old).freed x.page) ≡ false }
        ensures ok { IfOk result (λ woken. record { pager = part_of self.new; target = target_of target.new; woken = woken } ≡ places_next self.old.inbox (part_of self.old) (target_of target.old)) }
        ensures machine { geometry_of target.new ≡ geometry_of target.old }
        ensures full { IsErrOf result TargetFault.LogFull → most_records < length (places_next self.old.inbox (part_of self.old) (target_of target.old)).pager.log }
        ensures memory { IsErrOf result TargetFault.Memory → length (places_next self.old.inbox (part_of self.old) (target_of target.old)).pager.log ≤ most_records }
        ensures err { OnErr result ((self.new ≡ self.old) × (target.new ≡ target.old)) }
    {
        make_room(&mut self.log, 1)?;
        let Some(incoming) = self.inbox.pop_front() else {
            return Ok(nobody(self.alloc));
        };
        let page = incoming.page;
        let number = self.log.len() as u32;
        if target
            .place(page, number, incoming.contents.as_slice())
            .is_err()
        {
            self.inbox.push_front_reserved(incoming);
            return Err(TargetFault::Memory);
        }
        append(
            &mut self.log,
            PagerRec::Place {
                page,
                got: incoming.got,
                contents: incoming.contents,
            },
        );
        self.placed.set(page, true);
        Ok(all_of(self.alloc, self.waiting.served(page)))
    }
}

/// Returns the virtual processors of an entry, or nobody if there is none.
fn all_of(alloc: Global, waiters: Option<Vec<u8>>) -> Seq<u8>
    ensures { result ≡ unwrap_or (option_map (λ v. v.items) waiters) [] }
{
    match waiters {
        Some(waiters) => Seq::from_vec(waiters),
        None => nobody(alloc),
    }
}

/// Returns no virtual processor.
fn nobody(alloc: Global) -> Seq<u8>
    ensures { result ≡ [] }
{
    Seq::from_vec(Vec::new(alloc))
}
