//! How the pager asks again.

ghost use Rattle.std.specs.Prelude.{◌≡◌, ◌<◌, ◌≤◌, length, IfOk, OnOk, OnErr, IsErrOf};
ghost use Rattle.migration_types.specs.Limits.{most_records};
ghost use Rattle.target_side.specs.PagerPart.{oldest, pager_tick};
ghost use Rattle.target_side.specs.PagerLists.{part_of};

use super::{PagerBook, want_page};
use crate::TargetFault;
use crate::log::append;
use crate::marks::first_unmarked;
use fault_queue::FaultQueue;
use migration_events::{look_for_room, make_room};
use migration_types::{PageNo, PagerRec};
use page_stream::Packet;

impl PagerBook {
    /// Returns whether the log has room for what a tick appends. Allocates no memory.
    pub fn look_to_tick(&self) -> Result<(), TargetFault>
        ensures room { OnOk result (length (pager_tick (part_of self.now)).book.log ≤ most_records) }
        ensures full { OnErr result (most_records < length (pager_tick (part_of self.now)).book.log) }
        ensures memory { IsErrOf result TargetFault.Memory → ⊥ }
    {
        if self.released.is_none() {
            return Ok(());
        }
        look_for_room(&self.log, 1)
    }

    /// Wants a page again: the page that is waited for longest, or if nobody waits, the least page that is not
    /// released, placed or cancelled. If there is no such page, it says that all pages are placed. Returns `None` if
    /// the state has not come, and then nothing changes. On an error, nothing changes.
    pub fn tick(&mut self) -> Result<Option<Packet>, TargetFault>
        ensures ok { IfOk result (λ packet. record { book = part_of self.new; packet = packet } ≡ pager_tick (part_of self.old)) }
        ensures full { IsErrOf result TargetFault.LogFull → most_records < length (pager_tick (part_of self.old)).book.log }
        ensures memory { IsErrOf result TargetFault.Memory → length (pager_tick (part_of self.old)).book.log ≤ most_records }
        ensures err { OnErr result (self.new ≡ self.old) }
    {
        if self.released.is_none() {
            return Ok(None);
        }
        make_room(&mut self.log, 1)?;
        let pages = self.geometry.pages();
        self.geometry.keeps_limits();
        let absent = first_unmarked(&self.marks, &self.placed, &self.settled, self.bound, pages);
        self.bound = absent;
        if absent == pages {
            let number = append(&mut self.log, PagerRec::All);
            return Ok(Some(Packet::All { number }));
        }
        let page = oldest_or(&self.waiting, PageNo::new(absent));
        let number = want_page(&mut self.log, &mut self.wants, page);
        Ok(Some(Packet::Want { number, page }))
    }
}

/// Returns the page that is waited for longest, or this one if nobody waits.
fn oldest_or(waiting: &FaultQueue, page: PageNo) -> PageNo
    ensures { result ≡ oldest waiting.now page }
{
    match waiting.first() {
        Some(first) => first,
        None => page,
    }
}
