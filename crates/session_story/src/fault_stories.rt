//! The story of a faulty record as a value: one with a fault of its page, or one that does not have the right shape.

use crate::{CellValue, Handover, Look, Lost, PageStory};
use cert_check::ShapeFault;
use page_facts::PageFault;

/// What the story says about a faulty record besides its page's story.
#[derive(Clone, Copy)]
pub enum Detail {
    /// For a wrong read: what one machine that never moved gives.
    Instead(Option<CellValue>),
    /// For an early access, and for a placement over a release: the look that reached furthest before that access, or
    /// before that release, if there is one.
    Seen(Option<Look>),
    /// For contents that are not the page's: the first cell that differs, with what the page has there at the halt.
    Other(Option<CellValue>),
    /// For other faults: nothing.
    Plain,
}

/// A record in which a cell of a page has another value than it had at the halt.
#[derive(Clone, Copy)]
pub struct Wrong {
    /// The number of the record.
    pub place: u32,
    /// The cell, with what the page has there at the halt.
    pub held: CellValue,
}

/// What went wrong with a page before a read of it that is wrong. A placement gives the read its value if an order has
/// it between the cell's last change and the read, with no other placement of the page before the read. The first one
/// that does counts.
#[derive(Clone, Copy)]
pub enum PageCause {
    /// The first placement gives the read its value, which the cell did not have at the halt, and the page was sent with
    /// a wrong value in the cell too.
    Sent(Wrong),
    /// The first placement gives the read such a value, and the page was sent with the right one.
    Placed(Wrong),
    /// This first placement gives the read such a value, as it puts zeros in the page's place, and the page was not sent
    /// with a wrong one.
    Zeroed(u32),
    /// This later placement gives the read its value.
    Again(u32),
    /// This first placement gives the read its value, as the cell had it at the halt, and the page's first use at the
    /// target is a release.
    Over {
        place: u32,
        /// The look that reached furthest before the release, if there is one.
        seen: Option<Look>,
    },
    /// None of these is so, and an order has the page's first placement behind this first use of it at the target, which
    /// is no release.
    Early {
        place: u32,
        /// The look that reached furthest before the use, if there is one.
        seen: Option<Look>,
    },
    /// The pager never placed it.
    Unplaced,
    /// None of these is so, or the read is at the source, and it gives a value that the cell had before its last change,
    /// which is lost.
    Lost(Lost),
    /// No record explains the value.
    Unrecorded,
}

/// A fault of a page, and the story of this page.
#[derive(Clone, Copy)]
pub struct FaultStory {
    /// The faulty record, and why it is one.
    pub fault: PageFault,
    pub page: PageStory,
    pub handover: Handover,
    pub detail: Detail,
    /// For a wrong read: what went wrong with its page before.
    pub cause: Option<PageCause>,
    /// Whether every order of the records shows it. If the session does not have the right shape, this means nothing.
    pub in_every_order: bool,
}

/// The story of the faulty page that misshapen records do not touch whose fault has the least line.
#[derive(Clone, Copy)]
pub struct ApartStory {
    pub story: FaultStory,
    /// How many other pages that misshapen records do not touch have a fault too.
    pub more: usize,
}

/// The first record that does not have the right shape.
#[derive(Clone, Copy)]
pub struct ShapeStory {
    /// The record, and why it does not have the right shape.
    pub fault: ShapeFault,
    pub handover: Handover,
    /// If the record is a `send`: the first one of its page, if that comes before it.
    pub sent: Option<u32>,
}
