//! The story of a page.

ghost use Rattle.std.specs.Prelude.{◌≡◌, ◌<◌, IfOk, length};
ghost use Rattle.audit_model.specs.Flat.{at_halt};
ghost use Rattle.audit_model.specs.Shape.{is_send_of};
ghost use Rattle.page_facts.specs.Tables.{first_before};
ghost use Rattle.session_story.specs.Pages.{IsHandover, IsPageStory, below, changes, is_access_after, sent_before};
ghost use Rattle.session_story.specs.Scans.{last_before};

use crate::questions::{GuestQuestion, LaneQuestion, LinkQuestion, PagerQuestion, SourceQuestion};
use crate::scans::{first_of, last_of};
use migration_types::{LogName, PageNo, Session, SourceRec};
use page_facts::{Findings, findings_for, halt_place};
use std::alloc::{AllocError, Global};

/// The guest's records of the handover.
#[derive(Clone, Copy)]
pub struct Handover {
    /// Its first halt.
    pub halt: Option<u32>,
    /// Its first resume.
    pub resume: Option<u32>,
}

/// How a page came from the source to the target, by the numbers of records.
#[derive(Clone, Copy)]
pub struct PageStory {
    pub page: PageNo,
    /// The guest's last write or release of it before the halt.
    pub changed: Option<u32>,
    /// The source's `send` of it.
    pub sent: Option<u32>,
    /// The link's first delivery of that packet, or of a repeat of it.
    pub delivered: Option<u32>,
    /// The lane's first delivery of it, or of a repeat of it.
    pub by_lane: Option<u32>,
    /// The pager's first `got` or `pull` of such a delivery.
    pub got: Option<u32>,
    /// What the logs say about its placements, its uses at the target and the looks at it.
    pub found: Findings,
}

/// Returns the guest's halt and its resume. Allocates no memory.
pub fn handover_of(session: &Session) -> Handover
    ensures { IsHandover session.now result }
{
    session.keeps_limits();
    Handover {
        halt: first_of(session, &GuestQuestion::Halt, session.guest()),
        resume: first_of(session, &GuestQuestion::Resume, session.guest()),
    }
}

/// Returns the guest's last write or release of a page before the halt. Allocates no memory.
fn last_change(session: &Session, page: PageNo) -> Option<u32>
    ensures { result ≡ last_before (λ m. changes page) session.now.guest (at_halt session.now) }
{
    session.keeps_limits();
    let halt = halt_place(session.guest());
    last_of(
        session,
        &GuestQuestion::Changes(page),
        session.guest(),
        halt,
    )
}

/// Returns the source's `send` of a page, the first if there are several. Allocates no memory.
pub fn send_of(session: &Session, page: PageNo) -> Option<u32>
    ensures { result ≡ first_before (λ m. is_send_of page) session.now.source (length session.now.source) }
{
    session.keeps_limits();
    first_of(session, &SourceQuestion::SendOf(page), session.source())
}

/// Returns the number, if it is below a place.
pub(crate) fn below(place: u32, number: Option<u32>) -> Option<u32>
    ensures { result ≡ below place number }
{
    match number {
        Some(number) if number < place => Some(number),
        _ => None,
    }
}

/// Returns the first `send` of the record's page, if the record is a `send` and that comes before it.
pub fn sent_before(session: &Session, log: LogName, place: u32) -> Option<u32>
    ensures { result ≡ sent_before session.now (log, place) }
{
    match log {
        LogName::Source => match session.source().get(place as usize) {
            Some(SourceRec::Send { page, .. }) => below(place, send_of(session, *page)),
            _ => None,
        },
        _ => None,
    }
}

/// Returns the guest's first access after the record of this number, if there is one.
pub fn first_access(session: &Session, resume: u32) -> Option<u32>
    ensures { result ≡ first_before (is_access_after resume) session.now.guest (length session.now.guest) }
{
    session.keeps_limits();
    first_of(
        session,
        &GuestQuestion::AccessAfter(resume),
        session.guest(),
    )
}

/// Returns the story of a page. Makes a few passes over each log, and allocates as much memory as judging does. Fails
/// only if memory runs out.
pub fn story_of(alloc: Global, session: &Session, page: PageNo) -> Result<PageStory, AllocError>
    requires { page < session.now.geometry.pages }
    ensures { IfOk result (IsPageStory session.now page) }
{
    session.keeps_limits();
    let found = findings_for(alloc, session, page)?;
    let changed = last_change(session, page);
    let sent = send_of(session, page);
    let delivered = first_of(session, &LinkQuestion::Carries(page), session.link());
    let by_lane = first_of(session, &LaneQuestion::Carries(page), session.lane());
    let got = first_of(session, &PagerQuestion::Gets(page), session.pager());
    Ok(PageStory {
        page,
        changed,
        sent,
        delivered,
        by_lane,
        got,
        found,
    })
}
