//! The pager's book, and the calls that need only it.

ghost use Rattle.std.specs.Prelude.{◌≡◌, ◌<◌, [], ◌∷◌, ◌++◌, length, slice_get, is_some, Some, IfOk, vec_len, vec_capacity};
ghost use Rattle.std.specs.Option.{option_map};
ghost use Rattle.migration_types.specs.Limits.{most_records};
ghost use Rattle.page_store.specs.Tables.{pages_of, values, with_value, IsWith};
ghost use Rattle.target_side.specs.PagerPart.{new_pager, pager_flush};
ghost use Rattle.target_side.specs.PagerLists.{part_of, IsKept};

use crate::Incoming;
use crate::log::append;
use fault_queue::FaultQueue;
use migration_types::{Geometry, PageNo, PagerRec, Shared};
use page_store::Table;
use page_stream::Packet;
use std::alloc::{AllocError, Global};
use std::collections::VecDeque;
use std::marker::Model;

mod arrivals;
mod deliveries;
mod faults;
mod settling;
mod ticks;

/// The pager's book: its log, the pages that the source released, the pages that it placed, those that the guest
/// released at the target before they came, those that have come, its packets that are not offered yet, who waits for
/// which page, and the number of the last `want` of each page.
///
/// Its log has at most 1,048,576 records. It is empty until the state has come, and then begins with the state's `got`
/// and `ready`. A page is marked as placed exactly when the log places it. Each page that has come names its `got` or
/// `pull`, each packet names its own record, and each page that is waited for was wanted.
#[derive(Drop)]
pub struct PagerBook {
    alloc: Global,
    geometry: Geometry,
    log: Vec<PagerRec>,
    /// The released pages, once the state has come.
    released: Option<Shared<PageNo>>,
    /// The released pages, as marks.
    marks: Table<bool>,
    placed: Table<bool>,
    /// The pages that the guest released at the target before they came, as far as they are cancelled.
    settled: Table<bool>,
    /// Each page below this one is released, placed or cancelled.
    bound: u32,
    inbox: VecDeque<Incoming>,
    outbox: VecDeque<Packet>,
    waiting: FaultQueue,
    wants: Table<Option<u32>>,
}

impl Model for PagerBook {
    ghost use Rattle.target_side.specs.PagerLists.{PagerLists};
    ghost use Rattle.target_side.specs.inner.Sound.{IsSound};

    ghost Value = { PagerLists };

    ghost view = { λ b. record { geometry = b.geometry; log = b.log.items; released = b.released; placed = b.placed; settled = b.settled; inbox = b.inbox.items; outbox = b.outbox.items; waiting = b.waiting; wants = b.wants } };

    ghost invariant = { λ b. IsSound (record { geometry = b.geometry; log = b.log.items; released = b.released; placed = b.placed; settled = b.settled; inbox = b.inbox.items; outbox = b.outbox.items; waiting = b.waiting; wants = b.wants }) b.marks b.bound };
}

impl PagerBook {
    /// Returns the book before the state has come, with nothing recorded. Fails only if memory runs out for its tables.
    pub fn new(alloc: Global, geometry: Geometry) -> Result<PagerBook, AllocError>
        ensures { IfOk result (λ b. part_of b ≡ new_pager geometry) }
    {
        geometry.keeps_limits();
        let pages = geometry.pages();
        let marks = Table::no_marks(alloc, pages)?;
        let placed = Table::no_marks(alloc, pages)?;
        let settled = Table::no_marks(alloc, pages)?;
        let wants = Table::no_numbers(alloc, pages)?;
        Ok(PagerBook {
            alloc,
            geometry,
            log: Vec::new(alloc),
            released: None,
            marks,
            placed,
            settled,
            bound: 0,
            inbox: VecDeque::new(alloc),
            outbox: VecDeque::new(alloc),
            waiting: FaultQueue::new(alloc),
            wants,
        })
    }

    /// Returns the machine's geometry.
    pub fn geometry(&self) -> Geometry
        ensures { result ≡ self.now.geometry }
    {
        self.geometry
    }

    /// Returns its log.
    pub fn pager_log(&self) -> &[PagerRec]
        ensures { result.now ≡ self.now.log }
    {
        self.log.as_slice()
    }

    /// Returns its log, and consumes the book.
    pub fn into_log(self) -> Vec<PagerRec>
        ensures { result.items ≡ self.log }
    {
        self.log
    }

    /// States the invariant of every book: its log has at most 1,048,576 records and begins with the state. What has
    /// come, what is asked for, who waits and what is placed follow from the log, and the book has the last `want` of
    /// each page. Runs nothing.
    pub fn keeps_limits(&self)
        ensures { IsKept (part_of self.now) }
    {
        let _log = &self.log;
    }

    /// Returns whether the state has come, with which the log begins.
    pub fn is_ready(&self) -> bool
        ensures { result ≡ is_some self.now.released }
    {
        self.released.is_some()
    }

    /// Returns the oldest page that has come and is not placed yet, or `None` if there is none.
    pub fn next_page(&self) -> Option<PageNo>
        ensures { result ≡ option_map (λ x. x.page) (slice_get self.now.inbox 0) }
    {
        let incoming = self.inbox.front()?;
        Some(incoming.page)
    }

    /// Removes and returns the oldest packet that is not offered yet, or returns `None` if there is none. Allocates no
    /// memory.
    pub fn flush(&mut self) -> Option<Packet>
        ensures { record { book = part_of self.new; packet = result } ≡ pager_flush (part_of self.old) }
    {
        self.outbox.pop_front()
    }
}

/// Records that a page is wanted, for which there must be room, and returns the record's number.
fn want_page(log: &mut Vec<PagerRec>, wants: &mut Table<Option<u32>>, page: PageNo) -> u32
    requires room { vec_len log.old < vec_capacity log.old }
    requires few { length log.old.items < most_records }
    requires page { page < pages_of wants.old }
    ensures number { result ≡ length log.old.items }
    ensures items { log.new.items ≡ log.old.items ++ PagerRec.Want page ∷ [] }
    ensures wants { IsWith wants.old wants.new (with_value page (Some (length log.old.items)) (values wants.old)) }
{
    let number = append(log, PagerRec::Want { page });
    wants.set(page, Some(number));
    number
}
