//! The sentences about a page or a line that is asked for, and about a page's story, in words.

use super::Teller;
use audit_report::Lines;
use migration_types::{LogName, PageNo};
use session_story::Name;
use std::alloc::AllocError;

/// Appends that the machine has no page of this number, and how many it has.
pub(crate) fn push_no_page(out: &mut String, number: u32, pages: u32) -> Result<(), AllocError> {
    write!(out, "The machine has no page {number}: it has ")?;
    if pages == 1 {
        out.push_str("1 page, which is page 0.")
    } else {
        write!(out, "{pages} pages, and the first is page 0.")
    }
}

/// Appends whether a page has a fault.
pub(crate) fn push_verdict(
    out: &mut String,
    page: PageNo,
    is_faulty: bool,
) -> Result<(), AllocError> {
    let page = page.number();
    let which = if is_faulty { "a" } else { "no" };
    write!(out, "Page {page} has {which} fault.")
}

/// Appends the heading, which names the page of the story.
pub(crate) fn push_heading(out: &mut String, page: PageNo) -> Result<(), AllocError> {
    let page = page.number();
    write!(out, "What the logs say of page {page}:")
}

impl<L: Lines> Teller<'_, L> {
    /// Appends that there is no record at a line.
    pub(crate) fn push_no_record(&self, out: &mut String, line: u32) -> Result<(), AllocError> {
        let line = self.lines.line(line);
        write!(out, "Line {line} tells no record of the logs.")
    }

    /// Appends the record at a line.
    pub(crate) fn push_stands(&self, out: &mut String, name: Name) -> Result<(), AllocError> {
        self.push_with_record(out, "This is ", name)
    }

    /// Appends a line of a page's story: a record and its role, or that there is none.
    fn push_step(
        &self,
        out: &mut String,
        log: LogName,
        is: &str,
        none: &str,
        place: Option<u32>,
    ) -> Result<(), AllocError> {
        out.push_str("  ")?;
        match place {
            Some(place) => {
                self.push_record(out, (log, place))?;
                out.push_str(is)
            }
            None => out.push_str(none),
        }
    }

    /// Appends the last change of a page, before the halt if there is one.
    pub(crate) fn push_change(
        &self,
        out: &mut String,
        halted: bool,
        place: Option<u32>,
    ) -> Result<(), AllocError> {
        if halted {
            self.push_step(
                out,
                LogName::Guest,
                ", its last change before the halt",
                "the guest neither writes nor releases it before the halt",
                place,
            )
        } else {
            self.push_step(
                out,
                LogName::Guest,
                ", its last change",
                "the guest neither writes nor releases it",
                place,
            )
        }
    }

    /// Appends the guest's halt.
    pub(crate) fn push_halt(&self, out: &mut String, place: Option<u32>) -> Result<(), AllocError> {
        self.push_step(out, LogName::Guest, "", "the guest is not halted", place)
    }

    /// Appends the sending of a page.
    pub(crate) fn push_sending(
        &self,
        out: &mut String,
        place: Option<u32>,
    ) -> Result<(), AllocError> {
        self.push_step(
            out,
            LogName::Source,
            "",
            "the source does not send it",
            place,
        )
    }

    /// Appends the delivery of a page.
    pub(crate) fn push_delivery(
        &self,
        out: &mut String,
        log: LogName,
        place: Option<u32>,
    ) -> Result<(), AllocError> {
        let none = if self.has_lane() {
            "neither the link nor the lane delivers it"
        } else {
            "the link does not deliver it"
        };
        self.push_step(out, log, "", none, place)
    }

    /// Appends the record by which the pager took a page.
    pub(crate) fn push_taking(
        &self,
        out: &mut String,
        place: Option<u32>,
    ) -> Result<(), AllocError> {
        self.push_step(out, LogName::Pager, "", "the pager does not take it", place)
    }

    /// Appends the placement of a page.
    pub(crate) fn push_placement(
        &self,
        out: &mut String,
        place: Option<u32>,
    ) -> Result<(), AllocError> {
        self.push_step(
            out,
            LogName::Pager,
            "",
            "the pager does not place it",
            place,
        )
    }

    /// Appends the second placement of a page.
    pub(crate) fn push_second_placement(
        &self,
        out: &mut String,
        place: u32,
    ) -> Result<(), AllocError> {
        self.push_step(
            out,
            LogName::Pager,
            ", its second placement",
            "",
            Some(place),
        )
    }

    /// Appends the first look that reaches a placement of a page.
    pub(crate) fn push_first_look(
        &self,
        out: &mut String,
        place: Option<u32>,
    ) -> Result<(), AllocError> {
        self.push_step(
            out,
            LogName::Guest,
            ", the first look that reaches its placement",
            "no look of the guest reaches a placement of it",
            place,
        )
    }

    /// Appends the first use of a page at the target.
    pub(crate) fn push_first_use(
        &self,
        out: &mut String,
        releases: bool,
        place: Option<u32>,
    ) -> Result<(), AllocError> {
        let is = if releases {
            ", its first use at the target, after which it is there as zeros"
        } else {
            ", its first use at the target"
        };
        self.push_step(
            out,
            LogName::Guest,
            is,
            "the guest does not use it at the target",
            place,
        )
    }
}
