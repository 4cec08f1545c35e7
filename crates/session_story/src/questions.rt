//! The questions about the records of each log, and about a certificate's entries.

ghost use Rattle.std.specs.Prelude.{◌≡◌};
ghost use Rattle.session_story.specs.Values.{sets};
ghost use Rattle.session_story.specs.Giving.{puts};
ghost use Rattle.session_story.specs.Losing.{gives};
ghost use Rattle.session_story.specs.Counted.{is_read_after, is_used};
ghost use Rattle.session_story.specs.Pages.{changes, carries, lane_carries, is_access_after};
ghost use Rattle.session_story.specs.inner.Questions.{asks_guest, asks_source, asks_link, asks_lane, asks_pager, asks_entry, knows_behind};

use crate::looks::{Look, is_unseen};
use crate::scans::RecordQuestion;
use audit_model::{delivers_send, is_halt, is_miss, is_placement_of, is_resume, is_send_of, sends};
use migration_types::{Entry, GuestRec, LaneRec, LinkRec, PageNo, PagerRec, Session, SourceRec};

/// A question about a record of the guest.
#[derive(Clone, Copy)]
pub(crate) enum GuestQuestion {
    Halt,
    Resume,
    Miss,
    /// Whether it writes or releases the page.
    Changes(PageNo),
    /// Whether it writes the cell, or releases its page.
    Sets(PageNo, u16),
    /// Whether it gives the cell this value.
    Gives { page: PageNo, cell: u16, value: u64 },
    /// Whether it reads or writes some page after the record of this number.
    AccessAfter(u32),
    /// Whether it reads some page after the record of this number.
    ReadAfter(u32),
}

/// A question about a record of the source.
#[derive(Clone, Copy)]
pub(crate) enum SourceQuestion {
    /// Whether it sends the page for the first time.
    SendOf(PageNo),
    /// Whether it sends some page for the first time.
    Send,
    Again,
}

/// A question about a record of the link.
#[derive(Clone, Copy)]
pub(crate) enum LinkQuestion {
    /// Whether it delivers the page's `send`, or a repeat of it.
    Carries(PageNo),
}

/// A question about a record of the lane.
#[derive(Clone, Copy)]
pub(crate) enum LaneQuestion {
    /// Whether it delivers the page's `send`, or a repeat of it.
    Carries(PageNo),
}

/// A question about a record of the pager.
#[derive(Clone, Copy)]
pub(crate) enum PagerQuestion {
    /// Whether it takes the page's `send`, or a repeat of it.
    Gets(PageNo),
    Want,
    Join,
    Skip,
    /// Whether it places the page, and comes no later than this record.
    PlacesUpTo(PageNo, u32),
    /// Whether it places the page with a value in a cell, behind what a look reaches, if there is one, and from a record
    /// on.
    Puts {
        page: PageNo,
        cell: u16,
        value: u64,
        behind: Option<Look>,
        from: u32,
    },
    /// Whether it learns of a miss behind the guest's record of this number.
    KnowsBehind(u32),
}

/// A question about an entry of a certificate.
#[derive(Clone, Copy)]
pub(crate) enum EntryQuestion {
    Unmoved,
    Fresh,
    Sent,
    Zeroed,
    Used,
}

/// Returns whether a record writes or releases the page.
fn changes(rec: &GuestRec, page: PageNo) -> bool
    ensures { result ≡ changes page rec.now }
{
    match *rec {
        GuestRec::Write { page: written, .. } => written.number() == page.number(),
        GuestRec::Release { page: released, .. } => released.number() == page.number(),
        _ => false,
    }
}

/// Returns whether a record writes the cell, or releases its page.
fn sets(rec: &GuestRec, page: PageNo, cell: u16) -> bool
    ensures { result ≡ sets page cell rec.now }
{
    match *rec {
        GuestRec::Write {
            page: written,
            cell: at,
            ..
        } => written.number() == page.number() && at == cell,
        GuestRec::Release { page: released, .. } => released.number() == page.number(),
        _ => false,
    }
}

/// Returns whether a record gives the cell this value: a write of it, or a release of its page if the value is zero.
fn gives(rec: &GuestRec, page: PageNo, cell: u16, value: u64) -> bool
    ensures { result ≡ gives page cell value rec.now }
{
    match *rec {
        GuestRec::Write {
            page: written,
            cell: at,
            value: given,
            ..
        } => written.number() == page.number() && (at == cell && given == value),
        GuestRec::Release { page: released, .. } => {
            released.number() == page.number() && value == 0
        }
        _ => false,
    }
}

/// Returns whether the record of this number reads or writes some page after another record.
fn is_access_after(rec: &GuestRec, n: usize, resume: u32) -> bool
    ensures { result ≡ is_access_after resume n rec.now }
{
    match rec {
        GuestRec::Read { .. } | GuestRec::Write { .. } => (resume as usize) < n,
        _ => false,
    }
}

/// Returns whether the record of this number reads some page after another record.
fn is_read_after(rec: &GuestRec, n: usize, resume: u32) -> bool
    ensures { result ≡ is_read_after resume n rec.now }
{
    matches!(rec, GuestRec::Read { .. }) && is_access_after(rec, n, resume)
}

/// Returns whether a record of the link delivers the page's `send`, or a repeat of it.
fn carries(session: &Session, rec: &LinkRec, page: PageNo) -> bool
    ensures { result ≡ carries session.now page rec.now }
{
    match *rec {
        LinkRec::Down { sending } => sends(session, page, sending),
        LinkRec::Up { .. } => false,
    }
}

/// Returns whether a record of the lane delivers the page's `send`, or a repeat of it.
fn lane_carries(session: &Session, rec: &LaneRec, page: PageNo) -> bool
    ensures { result ≡ lane_carries session.now page rec.now }
{
    match *rec {
        LaneRec::Down { sending } => sends(session, page, sending),
    }
}

/// Returns whether a record places the page with this value in the cell.
fn puts(rec: &PagerRec, page: PageNo, cell: u16, value: u64) -> bool
    ensures { result ≡ puts page cell value rec.now }
{
    match rec {
        PagerRec::Place {
            page: placed,
            contents,
            ..
        } => {
            placed.number() == page.number()
                && match contents.as_slice().get(cell as usize) {
                    Some(there) => *there == value,
                    None => false,
                }
        }
        PagerRec::Zero { page: placed } => placed.number() == page.number() && value == 0,
        _ => false,
    }
}

/// Returns whether a record learns of a miss behind the guest's record of this number.
fn knows_behind(rec: &PagerRec, n: u32) -> bool
    ensures { result ≡ knows_behind n rec.now }
{
    match *rec {
        PagerRec::Fault { miss } => n < miss,
        _ => false,
    }
}

/// Returns whether the page was read, written or released at the target.
fn is_used(entry: &Entry) -> bool
    ensures { result ≡ is_used entry.now }
{
    match entry {
        Entry::Nothing => false,
        Entry::Fresh { .. } => true,
        Entry::Source { first, .. } | Entry::Balloon { first, .. } => first.is_some(),
    }
}

impl RecordQuestion for GuestQuestion {
    type Record = GuestRec;

    ghost holds = { asks_guest };

    #[inline(always)]
    fn holds(&self, _session: &Session, n: usize, rec: &GuestRec) -> bool {
        match *self {
            GuestQuestion::Halt => is_halt(rec),
            GuestQuestion::Resume => is_resume(rec),
            GuestQuestion::Miss => is_miss(rec),
            GuestQuestion::Changes(page) => changes(rec, page),
            GuestQuestion::Sets(page, cell) => sets(rec, page, cell),
            GuestQuestion::Gives { page, cell, value } => gives(rec, page, cell, value),
            GuestQuestion::AccessAfter(resume) => is_access_after(rec, n, resume),
            GuestQuestion::ReadAfter(resume) => is_read_after(rec, n, resume),
        }
    }
}

impl RecordQuestion for SourceQuestion {
    type Record = SourceRec;

    ghost holds = { asks_source };

    fn holds(&self, _session: &Session, _n: usize, rec: &SourceRec) -> bool {
        match *self {
            SourceQuestion::SendOf(page) => is_send_of(rec, page),
            SourceQuestion::Send => matches!(rec, SourceRec::Send { .. }),
            SourceQuestion::Again => matches!(rec, SourceRec::Again { .. }),
        }
    }
}

impl RecordQuestion for LinkQuestion {
    type Record = LinkRec;

    ghost holds = { asks_link };

    fn holds(&self, session: &Session, _n: usize, rec: &LinkRec) -> bool {
        match *self {
            LinkQuestion::Carries(page) => carries(session, rec, page),
        }
    }
}

impl RecordQuestion for LaneQuestion {
    type Record = LaneRec;

    ghost holds = { asks_lane };

    fn holds(&self, session: &Session, _n: usize, rec: &LaneRec) -> bool {
        match *self {
            LaneQuestion::Carries(page) => lane_carries(session, rec, page),
        }
    }
}

impl RecordQuestion for PagerQuestion {
    type Record = PagerRec;

    ghost holds = { asks_pager };

    fn holds(&self, session: &Session, n: usize, rec: &PagerRec) -> bool {
        match *self {
            PagerQuestion::Gets(page) => delivers_send(session, page, n as u32),
            PagerQuestion::Want => matches!(rec, PagerRec::Want { .. }),
            PagerQuestion::Join => matches!(rec, PagerRec::Join { .. }),
            PagerQuestion::Skip => matches!(rec, PagerRec::Skip { .. }),
            PagerQuestion::PlacesUpTo(page, last) => {
                is_placement_of(rec, page) && n <= last as usize
            }
            PagerQuestion::Puts {
                page,
                cell,
                value,
                behind,
                from,
            } => puts(rec, page, cell, value)
                && (is_unseen(behind, n as u32) && from as usize <= n),
            PagerQuestion::KnowsBehind(place) => knows_behind(rec, place),
        }
    }
}

impl RecordQuestion for EntryQuestion {
    type Record = Entry;

    ghost holds = { asks_entry };

    fn holds(&self, _session: &Session, _n: usize, entry: &Entry) -> bool {
        match *self {
            EntryQuestion::Unmoved => matches!(entry, Entry::Nothing),
            EntryQuestion::Fresh => matches!(entry, Entry::Fresh { .. }),
            EntryQuestion::Sent => matches!(entry, Entry::Source { .. }),
            EntryQuestion::Zeroed => matches!(entry, Entry::Balloon { .. }),
            EntryQuestion::Used => is_used(entry),
        }
    }
}
