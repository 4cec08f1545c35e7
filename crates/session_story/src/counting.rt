//! The counts of a session.

ghost use Rattle.std.specs.Prelude.{◌≡◌, ◌≤◌, length, IfOk};
ghost use Rattle.migration_types.specs.Limits.{most_pages};
ghost use Rattle.audit_model.specs.Shape.{is_resume};
ghost use Rattle.page_facts.specs.Tables.{first_before};
ghost use Rattle.session_story.specs.Counted.{IsCounts, reads_after};

use crate::asking::count_of_pushes;
use crate::delivering::{count_of_undelivered_packets, count_of_undelivered_requests};
use crate::questions::{EntryQuestion, GuestQuestion, PagerQuestion, SourceQuestion};
use crate::scans::{count_of, first_of};
use completeness::{count_left_pages, count_released_pages};
use migration_types::{Entry, Session};
use std::alloc::{AllocError, Global};

/// How many pages came in which way, according to a certificate, and how many records there are of some kinds.
#[derive(Clone, Copy)]
pub struct Counts {
    /// Pages that were neither placed nor used at the target.
    pub unmoved: u32,
    /// Pages that were released at the target and never placed.
    pub fresh: u32,
    /// Pages that the source sent.
    pub sent: u32,
    /// Released pages that came back as zeros.
    pub zeroed: u32,
    /// Misses of the guest.
    pub misses: u32,
    /// First sendings of pages.
    pub sends: u32,
    /// First sendings that did not answer a request for their page.
    pub pushes: u32,
    /// Repeats of what was sent.
    pub repeats: u32,
    /// Misses that waited for a page that the pager had already asked for.
    pub waits: u32,
    /// Deliveries that the pager dropped.
    pub dropped: u32,
    /// Deliveries of the lane.
    pub by_lane: u32,
    /// Pages that were read, written or released at the target.
    pub used: u32,
    /// Reads of the guest at the target.
    pub reads: u32,
    /// Pages that were released at the halt, so that the source does not send them.
    pub released: u32,
    /// Owed pages that were never placed nor released at the target.
    pub left: u32,
    /// Packets that neither the link nor the lane delivered.
    pub undelivered: u32,
    /// Requests of the pager for a page.
    pub requests: u32,
    /// Those of them that the link did not deliver.
    pub unheard: u32,
}

/// Returns how many reads of the guest come after its first resume.
fn count_of_reads(session: &Session) -> u32
    ensures { result ≡ reads_after session.now (first_before (λ m. is_resume) session.now.guest (length session.now.guest)) }
{
    session.keeps_limits();
    match first_of(session, &GuestQuestion::Resume, session.guest()) {
        Some(resume) => count_of(session, &GuestQuestion::ReadAfter(resume), session.guest()),
        None => 0,
    }
}

/// Returns how many pages came in which way, according to the entries of a certificate, and how many records there are
/// of some kinds. Makes a few passes over the logs, and allocates memory for up to three marks for each page, and for one
/// for each record. Fails only if memory runs out.
pub fn counts_of(alloc: Global, session: &Session, entries: &[Entry]) -> Result<Counts, AllocError>
    requires { length entries.now ≤ most_pages }
    ensures { IfOk result (IsCounts session.now entries.now) }
{
    session.keeps_limits();
    let pushes = count_of_pushes(alloc, session)?;
    let released = count_released_pages(alloc, session)?;
    let left = count_left_pages(alloc, session)?;
    let undelivered = count_of_undelivered_packets(alloc, session)?;
    let unheard = count_of_undelivered_requests(alloc, session)?;
    Ok(Counts {
        unmoved: count_of(session, &EntryQuestion::Unmoved, entries),
        fresh: count_of(session, &EntryQuestion::Fresh, entries),
        sent: count_of(session, &EntryQuestion::Sent, entries),
        zeroed: count_of(session, &EntryQuestion::Zeroed, entries),
        misses: count_of(session, &GuestQuestion::Miss, session.guest()),
        sends: count_of(session, &SourceQuestion::Send, session.source()),
        pushes,
        repeats: count_of(session, &SourceQuestion::Again, session.source()),
        waits: count_of(session, &PagerQuestion::Join, session.pager()),
        dropped: count_of(session, &PagerQuestion::Skip, session.pager()),
        by_lane: session.lane().len() as u32,
        used: count_of(session, &EntryQuestion::Used, entries),
        reads: count_of_reads(session),
        released,
        left,
        undelivered,
        requests: count_of(session, &PagerQuestion::Want, session.pager()),
        unheard,
    })
}
