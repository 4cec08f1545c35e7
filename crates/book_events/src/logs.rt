//! What was recorded: the logs of the books, lent, copied or taken from the books.

ghost use Rattle.std.specs.Prelude.{◌≡◌, IfOk};
ghost use Rattle.book_events.specs.Logs.{of_guest, lengths_of};

use active_push::SourceBook;
use link_book::LinkBook;
use migration_types::{GuestRec, LOG_COUNT, LaneRec, LinkRec, Logs, PagerRec, Seq, SourceRec};
use std::alloc::{AllocError, Global};
use std::marker::Model;
use target_side::PagerBook;

/// The logs of the books, lent.
#[derive(Drop)]
pub struct LentLogs<'a> {
    guest: &'a [GuestRec],
    source: &'a [SourceRec],
    link: &'a [LinkRec],
    lane: &'a [LaneRec],
    pager: &'a [PagerRec],
}

impl<'a> Model for LentLogs<'a> {
    ghost use Rattle.migration_types.specs.declared.session.Logs.{Logs};

    ghost Value = { Logs };

    ghost view = { λ l. record { guest = l.guest.now; source = l.source.now; link = l.link.now; lane = l.lane.now; pager = l.pager.now } };
}

impl<'a> LentLogs<'a> {
    /// Returns the logs if nobody but the guest has recorded anything.
    pub fn of_guest(guest: &'a [GuestRec]) -> LentLogs<'a>
        ensures { result ≡ of_guest guest.now }
    {
        LentLogs {
            guest,
            source: &[],
            link: &[],
            lane: &[],
            pager: &[],
        }
    }

    /// Returns the logs of these books, with the guest's log.
    pub fn of_books(
        guest: &'a [GuestRec],
        source: &'a SourceBook,
        link: &'a LinkBook,
        pager: &'a PagerBook,
    ) -> LentLogs<'a>
        ensures { result ≡ record { guest = guest.now; source = source.now.log; link = link.now.part.log; lane = link.now.part.lane_log; pager = pager.now.log } }
    {
        LentLogs {
            guest,
            source: source.source_log(),
            link: link.link_log(),
            lane: link.lane_log(),
            pager: pager.pager_log(),
        }
    }

    /// Returns how many records each log has, in the order of the logs.
    pub fn lengths(&self) -> [usize; LOG_COUNT]
        ensures { result ≡ lengths_of self.now }
    {
        [
            self.guest.len(),
            self.source.len(),
            self.link.len(),
            self.lane.len(),
            self.pager.len(),
        ]
    }

    /// Returns a copy of the logs. Fails only if memory runs out.
    pub fn copied(&self, alloc: Global) -> Result<Logs, AllocError>
        ensures { IfOk result (λ copy. copy ≡ self.now) }
    {
        let guest = Vec::from_slice(alloc, self.guest)?;
        let source = copies(alloc, self.source)?;
        let link = Vec::from_slice(alloc, self.link)?;
        let lane = Vec::from_slice(alloc, self.lane)?;
        let pager = copies(alloc, self.pager)?;
        Ok(Logs {
            guest: Seq::from_vec(guest),
            source,
            link: Seq::from_vec(link),
            lane: Seq::from_vec(lane),
            pager,
        })
    }
}

/// Returns the logs if nobody but the guest has recorded anything. Takes the guest's log. Allocates no memory.
pub fn logs_of_guest(alloc: Global, guest: Vec<GuestRec>) -> Logs
    ensures { result ≡ of_guest guest.items }
{
    Logs {
        guest: Seq::from_vec(guest),
        source: Seq::from_vec(Vec::new(alloc)),
        link: Seq::from_vec(Vec::new(alloc)),
        lane: Seq::from_vec(Vec::new(alloc)),
        pager: Seq::from_vec(Vec::new(alloc)),
    }
}

/// Returns the logs of these books, with the guest's log, and consumes the books. Allocates no memory.
pub fn logs_of(guest: Vec<GuestRec>, source: SourceBook, link: LinkBook, pager: PagerBook) -> Logs
    ensures { result ≡ record { guest = guest.items; source = source.log; link = link.part.log; lane = link.part.lane_log; pager = pager.log } }
{
    let (link, lane) = link.into_logs();
    Logs {
        guest: Seq::from_vec(guest),
        source: Seq::from_vec(source.into_log()),
        link: Seq::from_vec(link),
        lane: Seq::from_vec(lane),
        pager: Seq::from_vec(pager.into_log()),
    }
}

/// A record that can be copied into memory of its own.
trait Copied: Drop {
    /// Returns a copy. Fails only if memory runs out.
    fn copied(&self, alloc: Global) -> Result<Self, AllocError>
        ensures { IfOk result (λ copy. copy ≡ self.now) };
}

/// Returns a copy of the records. Fails only if memory runs out.
fn copies<T: Copied>(alloc: Global, items: &[T]) -> Result<Seq<T>, AllocError>
    ensures { IfOk result (λ copy. copy ≡ items.now) }
{
    let mut copies = Vec::with_capacity(alloc, items.len())?;
    for item in items {
        let copy = item.copied(alloc)?;
        copies.push(copy)?;
    }
    Ok(Seq::from_vec(copies))
}

impl Copied for SourceRec {
    fn copied(&self, alloc: Global) -> Result<SourceRec, AllocError> {
        match self {
            SourceRec::Halted { halt } => Ok(SourceRec::Halted { halt: *halt }),
            SourceRec::State => Ok(SourceRec::State),
            SourceRec::Send { page, contents } => {
                let contents = contents.another(alloc)?;
                Ok(SourceRec::Send {
                    page: *page,
                    contents,
                })
            }
            SourceRec::Again { sending } => Ok(SourceRec::Again { sending: *sending }),
            SourceRec::Ask { up } => Ok(SourceRec::Ask { up: *up }),
            SourceRec::Done => Ok(SourceRec::Done),
            SourceRec::Back => Ok(SourceRec::Back),
        }
    }
}

impl Copied for PagerRec {
    fn copied(&self, alloc: Global) -> Result<PagerRec, AllocError> {
        match self {
            PagerRec::Got { down } => Ok(PagerRec::Got { down: *down }),
            PagerRec::Pull { down } => Ok(PagerRec::Pull { down: *down }),
            PagerRec::Ready => Ok(PagerRec::Ready),
            PagerRec::Fault { miss } => Ok(PagerRec::Fault { miss: *miss }),
            PagerRec::Join { want } => Ok(PagerRec::Join { want: *want }),
            PagerRec::Want { page } => Ok(PagerRec::Want { page: *page }),
            PagerRec::Place {
                page,
                got,
                contents,
            } => {
                let contents = contents.another(alloc)?;
                Ok(PagerRec::Place {
                    page: *page,
                    got: *got,
                    contents,
                })
            }
            PagerRec::Zero { page } => Ok(PagerRec::Zero { page: *page }),
            PagerRec::Skip { got } => Ok(PagerRec::Skip { got: *got }),
            PagerRec::All => Ok(PagerRec::All),
        }
    }
}
