//! The sentences about a record that does not have the right shape, in words.

use super::Teller;
use audit_report::Lines;
use migration_types::{GuestRec, LaneRec, LinkRec, LogName, PagerRec, Session, SourceRec, Version};
use session_story::{Handover, Name};
use std::alloc::AllocError;

/// The rule for a halted guest.
const IDLE: &str = "The guest does nothing between its halt and its resume.";

/// The records that go down, over the link or the lane.
const SENDING: &str = "a `state`, a `send` or an `again` of the source";

/// Returns the rule that a record of the guest breaks.
fn phase_rule(session: &Session, place: u32) -> &'static str {
    match session.guest().get(place as usize) {
        Some(GuestRec::Halt) => "The guest is halted once.",
        Some(GuestRec::Resume { .. }) => "The guest is resumed once, after its halt.",
        Some(GuestRec::Release { .. }) => match session.version() {
            Version::One => "The guest releases pages only before its halt.",
            Version::Two => IDLE,
        },
        Some(GuestRec::Miss { .. }) => "The guest misses pages only after its resume.",
        Some(GuestRec::See { .. }) => "The guest looks at placements only after its resume.",
        _ => IDLE,
    }
}

/// Returns what a record of the guest must name.
fn guest_wants(rec: &GuestRec) -> Option<&'static str> {
    match rec {
        GuestRec::Resume { .. } => Some("the pager's `ready`"),
        GuestRec::See { .. } => Some("a `place` or a `zero` of the pager"),
        _ => None,
    }
}

/// Returns what a record of the source must name.
fn source_wants(rec: &SourceRec) -> Option<&'static str> {
    match rec {
        SourceRec::Halted { .. } => Some("the guest's `halt`"),
        SourceRec::Again { .. } => Some("a `state` or a `send` before it"),
        SourceRec::Ask { .. } => Some("an `up` of the link"),
        _ => None,
    }
}

/// Returns what a record of the link must name.
fn link_wants(rec: &LinkRec) -> Option<&'static str> {
    match rec {
        LinkRec::Down { .. } => Some(SENDING),
        LinkRec::Up { .. } => Some("a `want` or an `all` of the pager"),
    }
}

/// Returns what a record of the lane must name.
fn lane_wants(rec: &LaneRec) -> Option<&'static str> {
    match rec {
        LaneRec::Down { .. } => Some(SENDING),
    }
}

/// Returns what a record of the pager must name, in a session with a lane or without one.
fn pager_wants(rec: &PagerRec, has_lane: bool) -> Option<&'static str> {
    match rec {
        PagerRec::Got { .. } => Some("a `down` of the link"),
        PagerRec::Pull { .. } => Some("a `down` of the lane"),
        PagerRec::Fault { .. } => Some("a `miss` of the guest"),
        PagerRec::Join { .. } => Some("a `want` before it"),
        PagerRec::Place { .. } if has_lane => Some(
            "a `got` or a `pull` before it that took a `send` of the page, or a repeat of it",
        ),
        PagerRec::Place { .. } => {
            Some("a `got` before it that took a `send` of the page, or a repeat of it")
        }
        PagerRec::Skip { .. } if has_lane => Some("a `got` or a `pull` before it"),
        PagerRec::Skip { .. } => Some("a `got` before it"),
        _ => None,
    }
}

impl<L: Lines> Teller<'_, L> {
    /// Returns whether the lane of the session has records. For other sessions, the sentences do not mention a lane.
    pub(crate) fn has_lane(&self) -> bool {
        !self.session.lane().is_empty()
    }

    /// Returns what a record must name, if it must name one.
    fn wanted_by(&self, name: Name) -> Option<&'static str> {
        let session = self.session;
        let n = name.1 as usize;
        match name.0 {
            LogName::Guest => guest_wants(session.guest().get(n)?),
            LogName::Source => source_wants(session.source().get(n)?),
            LogName::Link => link_wants(session.link().get(n)?),
            LogName::Lane => lane_wants(session.lane().get(n)?),
            LogName::Pager => pager_wants(session.pager().get(n)?, self.has_lane()),
        }
    }

    /// Appends the record that does not have the right shape.
    pub(crate) fn push_misshapen(&self, out: &mut String, name: Name) -> Result<(), AllocError> {
        self.push_of_record(out, " does not have the right shape", name)
    }

    /// Appends the guest's record of this number, or that there is none.
    fn push_move(
        &self,
        out: &mut String,
        is: &str,
        none: &str,
        place: Option<u32>,
    ) -> Result<(), AllocError> {
        match place {
            Some(place) => {
                out.push_str(is)?;
                self.push_place(out, (LogName::Guest, place))
            }
            None => out.push_str(none),
        }
    }

    /// Appends the rule that a record of the guest breaks, and where the guest is halted and resumed.
    pub(crate) fn push_phase(
        &self,
        out: &mut String,
        place: u32,
        handover: Handover,
    ) -> Result<(), AllocError> {
        out.push_str(phase_rule(self.session, place))?;
        self.push_move(
            out,
            " Its first halt is ",
            " It is never halted",
            handover.halt,
        )?;
        self.push_move(
            out,
            ", and its first resume is ",
            ", and it is never resumed",
            handover.resume,
        )?;
        out.push_str(".")
    }

    /// Appends what a record must name, and what it names.
    pub(crate) fn push_names(
        &self,
        out: &mut String,
        name: Name,
        named: Name,
    ) -> Result<(), AllocError> {
        let wanted = self.wanted_by(name).unwrap_or("another record");
        write!(out, "It has to name {wanted}, and names ")?;
        if (named.1 as usize) < self.session.len(named.0) {
            self.push_with_record(out, "", named)
        } else {
            self.push_place(out, named)?;
            out.push_str(", which is not there.")
        }
    }

    /// Returns whether a record of the source is a `back` that comes after the log's beginning, and not at its end.
    fn ends_too_early(&self, place: u32) -> bool {
        let is_back = matches!(
            self.session.source().get(place as usize),
            Some(SourceRec::Back)
        );
        is_back && place > 1
    }

    /// Returns how the log of a record must begin, or for a `back`, how it must end.
    pub(crate) fn beginning(&self, name: Name) -> &'static str {
        match name.0 {
            LogName::Pager if self.has_lane() => {
                "The pager's log begins with the `got` or the `pull` of the state and with `ready`, and has no other `ready`."
            }
            LogName::Pager => {
                "The pager's log begins with the `got` of the state and with `ready`, and has no other `ready`."
            }
            _ if self.ends_too_early(name.1) => {
                "The source's log has its `back` nowhere but at its end."
            }
            _ => { "The source's log begins with `halted` and `state`, and has them nowhere else." }
        }
    }

    /// Appends the resume of a guest that the source starts again.
    pub(crate) fn push_resumed_too(&self, out: &mut String, place: u32) -> Result<(), AllocError> {
        self.push_with_record(
            out,
            "The guest was resumed at the target, so from this `back` on it may run at both sides: ",
            (LogName::Guest, place),
        )
    }

    /// Appends the guest's first access at the target, if there is one.
    pub(crate) fn push_first_access(
        &self,
        out: &mut String,
        place: Option<u32>,
    ) -> Result<(), AllocError> {
        self.push_with_record_or(
            out,
            "Its first access there: ",
            "It read and wrote nothing there.",
            LogName::Guest,
            place,
        )
    }

    /// Appends the `send` before a second one.
    pub(crate) fn push_sent_before(&self, out: &mut String, place: u32) -> Result<(), AllocError> {
        self.push_with_record(
            out,
            "A page is sent once, and then repeated by `again`; this one was sent before: ",
            (LogName::Source, place),
        )
    }
}
