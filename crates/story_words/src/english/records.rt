//! Records in words: the place of each, and what it did.

use super::Teller;
use audit_report::Lines;
use migration_types::{GuestRec, LaneRec, LinkRec, LogName, PagerRec, SourceRec};
use session_story::{Name, line_at};
use std::alloc::AllocError;

/// A record in words.
trait Spoken {
    /// Appends what the record did.
    fn push(&self, out: &mut String) -> Result<(), AllocError>;
}

impl Spoken for GuestRec {
    fn push(&self, out: &mut String) -> Result<(), AllocError> {
        match *self {
            GuestRec::Read {
                vcpu,
                page,
                cell,
                value,
            } => {
                let page = page.number();
                write!(
                    out,
                    "virtual processor {vcpu} reads {value} in cell {cell} of page {page}"
                )
            }
            GuestRec::Write {
                vcpu,
                page,
                cell,
                value,
            } => {
                let page = page.number();
                write!(
                    out,
                    "virtual processor {vcpu} writes {value} into cell {cell} of page {page}"
                )
            }
            GuestRec::Release { vcpu, page } => {
                let page = page.number();
                write!(out, "virtual processor {vcpu} releases page {page}")
            }
            GuestRec::Miss { vcpu, page } => {
                let page = page.number();
                write!(out, "virtual processor {vcpu} misses page {page}")
            }
            GuestRec::Halt => out.push_str("the guest is halted at the source"),
            GuestRec::Resume { ready } => write!(
                out,
                "the guest is resumed at the target, for which pager {ready} was ready"
            ),
            GuestRec::See { placement } => write!(
                out,
                "the guest looks at the placement pager {placement}"
            ),
        }
    }
}

impl Spoken for SourceRec {
    fn push(&self, out: &mut String) -> Result<(), AllocError> {
        match self {
            SourceRec::Halted { halt } => {
                write!(out, "the source learns of the halt guest {halt}")
            }
            SourceRec::State => out.push_str("the source sends the processor state"),
            SourceRec::Send { page, .. } => {
                let page = page.number();
                write!(out, "the source sends page {page}")
            }
            SourceRec::Again { sending } => write!(
                out,
                "the source sends once more what source {sending} sent"
            ),
            SourceRec::Ask { up } => write!(out, "the source takes what link {up} delivered"),
            SourceRec::Done => out.push_str("the source learns that every owed page is placed"),
            SourceRec::Back => out.push_str("the source starts the guest again"),
        }
    }
}

impl Spoken for LinkRec {
    fn push(&self, out: &mut String) -> Result<(), AllocError> {
        match *self {
            LinkRec::Down { sending } => write!(
                out,
                "the link delivers to the pager what source {sending} sent"
            ),
            LinkRec::Up { asking } => write!(
                out,
                "the link delivers to the source what pager {asking} sent"
            ),
        }
    }
}

impl Spoken for LaneRec {
    fn push(&self, out: &mut String) -> Result<(), AllocError> {
        match *self {
            LaneRec::Down { sending } => write!(
                out,
                "the lane delivers to the pager what source {sending} sent"
            ),
        }
    }
}

impl Spoken for PagerRec {
    fn push(&self, out: &mut String) -> Result<(), AllocError> {
        match self {
            PagerRec::Got { down } => write!(out, "the pager takes what link {down} delivered"),
            PagerRec::Pull { down } => write!(out, "the pager pulls what lane {down} delivered"),
            PagerRec::Ready => out.push_str("the pager is ready for the guest"),
            PagerRec::Fault { miss } => write!(out, "the pager learns of the miss guest {miss}"),
            PagerRec::Join { want } => write!(
                out,
                "the pager lets a miss wait for the page that pager {want} asked for"
            ),
            PagerRec::Want { page } => {
                let page = page.number();
                write!(out, "the pager asks for page {page}")
            }
            PagerRec::Place { page, got, .. } => {
                let page = page.number();
                write!(
                    out,
                    "the pager places page {page}, which came with pager {got}"
                )
            }
            PagerRec::Zero { page } => {
                let page = page.number();
                write!(out, "the pager places page {page} as zeros")
            }
            PagerRec::Skip { got } => write!(out, "the pager drops what came with pager {got}"),
            PagerRec::All => out.push_str("the pager says that every owed page is placed"),
        }
    }
}

/// Appends what the record of this number in a log did.
fn push_at<R: Spoken>(out: &mut String, log: &[R], place: u32) -> Result<(), AllocError> {
    match log.get(place as usize) {
        Some(rec) => rec.push(out),
        None => out.push_str("no record"),
    }
}

impl<L: Lines> Teller<'_, L> {
    /// Appends a record's line, after a word for it, and its log and its number, as in "line 13 (guest 6)", or only the
    /// log and the number if the record does not exist.
    fn push_place_behind(
        &self,
        out: &mut String,
        word: &str,
        name: Name,
    ) -> Result<(), AllocError> {
        let log = name.0.word();
        let place = name.1;
        match line_at(self.session, name.0, place) {
            Some(line) => {
                let line = self.lines.line(line);
                write!(out, "{word} {line} ({log} {place})")
            }
            None => write!(out, "{log} {place}"),
        }
    }

    /// Appends the place of a record, as in "line 13 (guest 6)".
    pub(crate) fn push_place(&self, out: &mut String, name: Name) -> Result<(), AllocError> {
        self.push_place_behind(out, "line", name)
    }

    /// Appends the place of a record, at the beginning of a sentence.
    pub(crate) fn push_place_first(&self, out: &mut String, name: Name) -> Result<(), AllocError> {
        self.push_place_behind(out, "Line", name)
    }

    /// Appends what a record did.
    pub(crate) fn push_done(&self, out: &mut String, name: Name) -> Result<(), AllocError> {
        let session = self.session;
        let place = name.1;
        match name.0 {
            LogName::Guest => push_at(out, session.guest(), place),
            LogName::Source => push_at(out, session.source(), place),
            LogName::Link => push_at(out, session.link(), place),
            LogName::Lane => push_at(out, session.lane(), place),
            LogName::Pager => push_at(out, session.pager(), place),
        }
    }

    /// Appends the place of a record and what it did, as in "line 8 (guest 1): the guest is halted at the source".
    pub(crate) fn push_record(&self, out: &mut String, name: Name) -> Result<(), AllocError> {
        self.push_place(out, name)?;
        out.push_str(": ")?;
        self.push_done(out, name)
    }

    /// Appends a sentence about a record, beginning with its place, as in "Line 13 (guest 6) is wrong: ..".
    pub(crate) fn push_of_record(
        &self,
        out: &mut String,
        is: &str,
        name: Name,
    ) -> Result<(), AllocError> {
        self.push_place_first(out, name)?;
        out.push_str(is)?;
        out.push_str(": ")?;
        self.push_done(out, name)?;
        out.push_str(".")
    }
}
