//! The sentences about a page's fault, in words.

use super::Teller;
use audit_model::PageReason;
use audit_report::Lines;
use migration_types::{GuestRec, LogName, PageNo, PagerRec};
use session_story::{CauseKind, Name, log_of};
use std::alloc::AllocError;

pub(crate) const AT_SOURCE: &str =
    "The guest is at the source by then: the migration has no part in it.";

pub(crate) const NOT_THERE: &str =
    "The guest is at the target by then, and the page is never placed there.";

pub(crate) const LATE_FOR_USE: &str = "The first look that reaches it comes after the use: ";

pub(crate) const LATE_FOR_RELEASE: &str =
    "The first look that reaches it comes after the release: ";

pub(crate) const RIGHT_ORDER: &str =
    "It would be right if the guest looked at this placement before the release, or if there were no placement: the pager skips a page that was released there first.";

pub(crate) const RELEASED_AT_HALT: &str =
    "The page is released at the halt, so it is not sent: the pager places it as zeros.";

pub(crate) const NOT_RELEASED_AT_HALT: &str =
    "The page is not released at the halt, so it must not be placed as zeros.";

/// Returns the words that say that every order of the records shows a fault.
pub(crate) fn in_every_order(reason: PageReason) -> &'static str {
    match reason {
        PageReason::Early => "In every order of the records the use finds no page.",
        _ => "It is wrong in every order of the records.",
    }
}

/// Returns the words that say how the order in an audit's report shows a fault.
pub(crate) fn in_shown_order(reason: PageReason) -> &'static str {
    match reason {
        PageReason::Over => {
            "The order that the audit shows puts the placement, and all that has to come after it, behind the release, and so over the zeros."
        }
        _ => {
            "The order that the audit shows puts the placement, and all that has to come after it, behind this use, which then finds no page."
        }
    }
}

/// Returns how a page goes wrong, as the end of a sentence.
fn how_it_goes_wrong(kind: CauseKind) -> &'static str {
    match kind {
        CauseKind::StaleSend => "the source sends other contents than it has at the halt.",
        CauseKind::GivenSend => "the source sends it although it is released.",
        CauseKind::Altered => "the pager places other contents than it has at the halt.",
        CauseKind::Zeroed => "the pager puts zeros in its place.",
        CauseKind::PlacedAgain => "the pager places it a second time.",
        CauseKind::PlacedOver => "the pager places it over a release of the guest.",
        CauseKind::Early => "the guest uses it before it has come.",
        CauseKind::NeverPlaced => "the guest uses it at the target, and the pager never places it.",
        CauseKind::LostWrite => "a write is lost.",
        CauseKind::Unrecorded => "no record explains it.",
    }
}

/// Appends that no record explains what a page has.
pub(crate) fn push_unexplained(out: &mut String, page: PageNo) -> Result<(), AllocError> {
    let page = page.number();
    write!(
        out,
        "No record explains what page {page} has: somebody writes to it who records nothing, or memory is damaged."
    )
}

/// Appends that a page that misshapen records do not touch has a fault too.
pub(crate) fn push_apart(out: &mut String, page: PageNo) -> Result<(), AllocError> {
    let page = page.number();
    write!(
        out,
        "Apart from that, page {page} goes wrong too. No record of wrong shape is about it."
    )
}

/// Appends how many other pages have a fault.
pub(crate) fn push_more(out: &mut String, more: usize) -> Result<(), AllocError> {
    if more == 1 {
        out.push_str("1 more page has a fault; audit --all lists every one.")
    } else {
        write!(
            out,
            "{more} more pages have a fault; audit --all lists every one."
        )
    }
}

/// Appends how many faults a page has in all.
pub(crate) fn push_in_all(out: &mut String, page: PageNo, count: u64) -> Result<(), AllocError> {
    let page = page.number();
    write!(out, "Page {page} has {count} faults in all:")
}

/// Returns what the faults for a reason are.
fn what_is_wrong(reason: PageReason) -> &'static str {
    match reason {
        PageReason::Read => "wrong reads",
        PageReason::Early => "early uses",
        PageReason::Given => "sendings although it is released",
        PageReason::Stale => "sendings of other contents",
        PageReason::Twice => "further placements",
        PageReason::Altered => "placements of other contents",
        PageReason::Unfit => "placements as zeros",
        PageReason::Over => "placements over a release",
    }
}

impl<L: Lines> Teller<'_, L> {
    /// Appends how many faults a page has for a reason, and where the first of them is.
    pub(crate) fn push_kind(
        &self,
        out: &mut String,
        reason: PageReason,
        count: u32,
        first: u32,
    ) -> Result<(), AllocError> {
        let what = what_is_wrong(reason);
        let where_is = if count == 1 { "at" } else { "the first at" };
        write!(out, "  {what}: {count}, {where_is} ")?;
        self.push_place(out, (log_of(reason), first))
    }

    /// Appends which record is wrong.
    pub(crate) fn push_wrong(&self, out: &mut String, name: Name) -> Result<(), AllocError> {
        self.push_of_record(out, " is wrong", name)
    }

    /// Appends what a lost write or release was.
    fn push_lost(&self, out: &mut String, place: u32) -> Result<(), AllocError> {
        match self.session.guest().get(place as usize) {
            Some(GuestRec::Write { cell, value, .. }) => {
                write!(out, "the write of {value} into cell {cell} is lost.")
            }
            _ => out.push_str("its release is lost."),
        }
    }

    /// Appends the record with which a page goes wrong, and how it does.
    pub(crate) fn push_goes_wrong(
        &self,
        out: &mut String,
        page: PageNo,
        kind: CauseKind,
        name: Name,
    ) -> Result<(), AllocError> {
        let page = page.number();
        write!(out, "Page {page} goes wrong at ")?;
        self.push_place(out, name)?;
        out.push_str(": ")?;
        match kind {
            CauseKind::LostWrite => self.push_lost(out, name.1),
            other => out.push_str(how_it_goes_wrong(other)),
        }
    }

    /// Appends the value that a read gives, and since when its cell has it.
    pub(crate) fn push_keeps(
        &self,
        out: &mut String,
        read: u32,
        since: Option<u32>,
    ) -> Result<(), AllocError> {
        if let Some(GuestRec::Read { cell, value, .. }) = self.session.guest().get(read as usize) {
            write!(out, "Cell {cell} keeps {value}, ")?;
        }
        self.push_with_record_or(
            out,
            "which it has since ",
            "as at the start.",
            LogName::Guest,
            since,
        )
    }

    /// Appends the placement that no look before a use reaches.
    pub(crate) fn push_unreached(&self, out: &mut String, place: u32) -> Result<(), AllocError> {
        self.push_with_place(
            out,
            "The guest is at the target by then, and no look before this use reaches the placement of the page, ",
            (LogName::Pager, place),
        )
    }

    /// Appends the look that reaches furthest.
    pub(crate) fn push_furthest(
        &self,
        out: &mut String,
        look: Option<u32>,
    ) -> Result<(), AllocError> {
        self.push_with_record_or(
            out,
            "Of the looks before it, this one reaches furthest: ",
            "The guest looks at no placement before it.",
            LogName::Guest,
            look,
        )
    }

    /// Appends the first look that reaches a placement, after words that say what it is too late for.
    pub(crate) fn push_late(
        &self,
        out: &mut String,
        words: &str,
        look: Option<u32>,
    ) -> Result<(), AllocError> {
        self.push_with_record_or(
            out,
            words,
            "No look reaches it at all.",
            LogName::Guest,
            look,
        )
    }

    /// Appends the release over which a page is placed.
    pub(crate) fn push_released_first(
        &self,
        out: &mut String,
        place: u32,
    ) -> Result<(), AllocError> {
        self.push_with_record(
            out,
            "The first use of the page at the target is a release, which makes it zeros there: ",
            (LogName::Guest, place),
        )
    }

    /// Appends what a placement overwrites if it comes after the release.
    pub(crate) fn push_may_come_after(
        &self,
        out: &mut String,
        place: u32,
    ) -> Result<(), AllocError> {
        out.push_str(
            "No look before this release reaches the placement, so the placement may come after the release and put ",
        )?;
        match self.session.pager().get(place as usize) {
            Some(PagerRec::Zero { .. }) => {
                out.push_str("zeros over what the guest writes by then.")
            }
            _ => out.push_str("old contents over the zeros."),
        }
    }

    /// Appends the last change of a page before the halt.
    pub(crate) fn push_changed_last(
        &self,
        out: &mut String,
        place: Option<u32>,
    ) -> Result<(), AllocError> {
        self.push_with_record_or(
            out,
            "Its last change before the halt is ",
            "The guest neither writes nor releases it before the halt.",
            LogName::Guest,
            place,
        )
    }

    /// Appends the placement before a second one.
    pub(crate) fn push_placed_before(
        &self,
        out: &mut String,
        place: u32,
    ) -> Result<(), AllocError> {
        self.push_with_record(
            out,
            "A page is placed once, and this one was placed before: ",
            (LogName::Pager, place),
        )
    }
}
