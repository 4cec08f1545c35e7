//! The story of a faulty record: one with a fault of its page, or one that does not have the right shape.

ghost use Rattle.std.specs.Prelude.{◌≡◌, ◌<◌, ℕ, IfOk, MatchOption, Some, length, slice_get, true};
ghost use Rattle.migration_types.specs.Sessions.{log_length};
ghost use Rattle.audit_model.specs.Faults.{IsPageFault};
ghost use Rattle.audit_model.specs.Shape.{passes};
ghost use Rattle.page_facts.specs.PageFaults.{page_at, HasItsPage};
ghost use Rattle.audit_report.specs.Reports.{IsReport};
ghost use Rattle.cert_check.specs.Verdicts.{IsShapeFault};
ghost use Rattle.session_story.specs.Pages.{IsPageStory};
ghost use Rattle.session_story.specs.Giving.{IsGiver};
ghost use Rattle.session_story.specs.Explained.{IsExplained, IsFaultStory, IsGivenRight, IsGivenWrong, IsLeft, IsLookBeforeTouch, IsMissing, IsSentRight, IsShapeStory, IsToldCause, IsUnexplained, IsWrong, IsWrongSend, first_placement, is_read, is_unplaced, is_zero};
ghost use Rattle.session_story.specs.inner.Contents.{used_early};

use crate::orders::in_every_order;
use crate::reasons::{detail_of, is_read};
use crate::{
    CellValue, FaultStory, Look, PageCause, PageStory, ShapeStory, Wrong, giver_of, greatest_look,
    handover_of, is_number, is_unseen, is_used_by, lost_by, other_at_halt, sent_before, story_of,
    value_at,
};
use audit_model::PageReason;
use audit_report::Report;
use cert_check::ShapeFault;
use migration_types::{LogName, PagerRec, Session};
use page_facts::PageFault;
use std::alloc::{AllocError, Global};

/// Returns the look before a page's first use at the target that reached furthest.
pub(crate) fn look_before(session: &Session, page: &PageStory) -> Option<Look>
    requires { IsPageStory session.now page.now.page page.now }
    ensures { IsLookBeforeTouch session.now page.now.page result }
{
    match page.found.touch {
        Some(first) => greatest_look(session, first as usize),
        None => None,
    }
}

/// Returns whether the pager never places a page that the guest uses at the target, and whose first use there is not a
/// release.
fn is_unplaced(page: &PageStory) -> bool
    ensures { result ≡ is_unplaced page.now.found }
{
    page.found.placement.is_none() && page.found.touch.is_some() && !page.found.releases
}

/// Returns whether the pager's record of this number, if there is one, places a page as zeros.
fn places_zeros(session: &Session, place: u32) -> bool
    ensures { result ≡ passes is_zero (slice_get session.now.pager place) }
{
    match session.pager().get(place as usize) {
        Some(PagerRec::Zero { .. }) => true,
        _ => false,
    }
}

/// Returns the page's first `send`, if that has another value in this cell than the page has there at the halt.
fn wrong_send(session: &Session, page: &PageStory, held: CellValue) -> Option<u32>
    requires { IsPageStory session.now page.now.page page.now }
    ensures { MatchOption result (IsSentRight session.now page.now.page held) (IsWrongSend session.now page.now.page held) }
{
    let Some(place) = page.sent else {
        return None;
    };
    match value_at(session, (LogName::Source, place), held.cell) {
        Some(value) => {
            if value == held.value {
                None
            } else {
                Some(place)
            }
        }
        None => None,
    }
}

/// Returns the cause of a read whose value this first placement gives, although the cell had another one at the halt.
fn given_wrong(
    session: &Session,
    _read: u32,
    page: &PageStory,
    place: u32,
    held: CellValue,
) -> PageCause
    requires story { IsPageStory session.now page.now.page page.now }
    requires given { IsGivenWrong session.now _read page.now.page place held }
    ensures { IsWrong session.now _read page.now.page result }
{
    match wrong_send(session, page, held) {
        Some(sending) => PageCause::Sent(Wrong {
            place: sending,
            held,
        }),
        None => {
            if places_zeros(session, place) {
                PageCause::Zeroed(place)
            } else {
                PageCause::Placed(Wrong { place, held })
            }
        }
    }
}

/// Returns whether a page is used at the target before it comes, if this look reached furthest before its first use.
fn is_used_early(page: &PageStory, seen: Option<Look>) -> bool
    ensures { result ≡ used_early seen page.now.found.placement page.now.found.releases }
{
    match page.found.placement {
        Some(place) => !page.found.releases && is_unseen(seen, place),
        None => false,
    }
}

/// Returns that a page is used at the target before it comes, or that it does not come, if one of these is so.
fn missing_by(session: &Session, page: &PageStory) -> Option<PageCause>
    requires { IsPageStory session.now page.now.page page.now }
    ensures { MatchOption result ((c : PageCause) → IsMissing session.now page.now.page c → ⊥) (IsMissing session.now page.now.page) }
{
    if is_unplaced(page) {
        return Some(PageCause::Unplaced);
    }
    match page.found.touch {
        Some(place) => {
            let seen = look_before(session, page);
            if is_used_early(page, seen) {
                Some(PageCause::Early { place, seen })
            } else {
                None
            }
        }
        None => None,
    }
}

/// Returns the cause of a read whose value this first placement gives, as the cell had it at the halt, if there is one.
fn given_right(session: &Session, _read: u32, page: &PageStory, place: u32) -> Option<PageCause>
    requires story { IsPageStory session.now page.now.page page.now }
    requires first { first_placement session.now page.now.page ≡ Some place }
    requires gives { IsGiver session.now _read place }
    requires right { IsGivenRight session.now _read page.now.page }
    ensures { MatchOption result ((c : PageCause) → IsWrong session.now _read page.now.page c → ⊥) (IsWrong session.now _read page.now.page) }
{
    if page.found.releases {
        let seen = look_before(session, page);
        Some(PageCause::Over { place, seen })
    } else {
        missing_by(session, page)
    }
}

/// Returns the cause of a read whose value this first placement gives, if there is one.
fn given_first(
    alloc: Global,
    session: &Session,
    read: u32,
    page: &PageStory,
    place: u32,
) -> Result<Option<PageCause>, AllocError>
    requires there { read < length session.now.guest }
    requires story { IsPageStory session.now page.now.page page.now }
    requires first { first_placement session.now page.now.page ≡ Some place }
    requires gives { IsGiver session.now read place }
    ensures { IfOk result (λ cause. MatchOption cause ((c : PageCause) → IsWrong session.now read page.now.page c → ⊥) (IsWrong session.now read page.now.page)) }
{
    match other_at_halt(alloc, session, read as usize)? {
        Some(held) => Ok(Some(given_wrong(session, read, page, place, held))),
        None => Ok(given_right(session, read, page, place)),
    }
}

/// Returns the cause of a read whose value this placement gives, if there is one.
fn given_by(
    alloc: Global,
    session: &Session,
    read: u32,
    page: &PageStory,
    giver: u32,
) -> Result<Option<PageCause>, AllocError>
    requires there { read < length session.now.guest }
    requires story { IsPageStory session.now page.now.page page.now }
    requires gives { IsGiver session.now read giver }
    ensures { IfOk result (λ cause. MatchOption cause ((c : PageCause) → IsWrong session.now read page.now.page c → ⊥) (IsWrong session.now read page.now.page)) }
{
    if is_number(page.found.placement, giver) {
        given_first(alloc, session, read, page, giver)
    } else {
        Ok(Some(PageCause::Again(giver)))
    }
}

/// Returns the cause of a read of a page at the target, if a placement gives its value, or if the page need not have
/// been there.
fn explained_by(
    alloc: Global,
    session: &Session,
    read: u32,
    page: &PageStory,
) -> Result<Option<PageCause>, AllocError>
    requires there { read < length session.now.guest }
    requires story { IsPageStory session.now page.now.page page.now }
    ensures { IfOk result (λ cause. MatchOption cause (IsUnexplained session.now read page.now.page) (IsExplained session.now read page.now.page)) }
{
    if !is_used_by(page.found.touch, read) {
        return Ok(None);
    }
    match giver_of(session, read as usize) {
        Some(giver) => given_by(alloc, session, read, page, giver),
        None => Ok(missing_by(session, page)),
    }
}

/// Returns the cause of a read that nothing else explains: a change that is lost, or a record that is missing.
fn left_of(alloc: Global, session: &Session, read: u32) -> Result<PageCause, AllocError>
    requires { read < length session.now.guest }
    ensures { IfOk result (IsLeft session.now read) }
{
    match lost_by(alloc, session, read as usize)? {
        Some(lost) => Ok(PageCause::Lost(lost)),
        None => Ok(PageCause::Unrecorded),
    }
}

/// Returns the cause of a wrong read.
fn cause_of(
    alloc: Global,
    session: &Session,
    reason: PageReason,
    place: u32,
    page: &PageStory,
) -> Result<Option<PageCause>, AllocError>
    requires there { is_read reason ≡ true → place < length session.now.guest }
    requires story { IsPageStory session.now page.now.page page.now }
    ensures { IfOk result (IsToldCause session.now reason place page.now.page) }
{
    if !is_read(reason) {
        return Ok(None);
    }
    match explained_by(alloc, session, place, page)? {
        Some(cause) => Ok(Some(cause)),
        None => Ok(Some(left_of(alloc, session, place)?)),
    }
}

/// Returns the story of a fault of a page, given the page's story and the report on the session.
pub(crate) fn story_of_fault(
    alloc: Global,
    session: &Session,
    report: &Report,
    fault: &PageFault,
    page: &PageStory,
) -> Result<FaultStory, AllocError>
    requires report { IsReport session.now report.now }
    requires fault { IsPageFault session.now fault.now.reason (fault.now.log, fault.now.place) }
    requires of { page_at session.now (fault.now.log, fault.now.place) ≡ Some page.now.page }
    requires story { IsPageStory session.now page.now.page page.now }
    ensures fault { IfOk result (λ story. story.fault ≡ fault.now) }
    ensures story { IfOk result (IsFaultStory session.now) }
{
    session.keeps_limits();
    let place = fault.place;
    let reason = fault.reason;
    let detail = detail_of(alloc, session, reason, fault.log, place, page)?;
    let cause = cause_of(alloc, session, reason, place, page)?;
    Ok(FaultStory {
        fault: *fault,
        page: *page,
        handover: handover_of(session),
        detail,
        cause,
        in_every_order: in_every_order(session, report, fault, page),
    })
}

/// Returns the story of a fault of a page, with the page's story, given the report on the session. Makes a few passes
/// over each log, and allocates as much memory as judging does, and for one more page. Fails only if memory runs out.
pub(crate) fn fault_at(
    alloc: Global,
    session: &Session,
    report: &Report,
    fault: &PageFault,
) -> Result<FaultStory, AllocError>
    requires report { IsReport session.now report.now }
    requires fault { IsPageFault session.now fault.now.reason (fault.now.log, fault.now.place) }
    requires of { HasItsPage session.now fault.now }
    ensures fault { IfOk result (λ story. story.fault ≡ fault.now) }
    ensures story { IfOk result (IsFaultStory session.now) }
{
    session.keeps_limits();
    let story = story_of(alloc, session, fault.page)?;
    story_of_fault(alloc, session, report, fault, &story)
}

/// Returns the first record of a session that does not have the right shape. Makes a few passes over the logs, and
/// allocates no memory.
pub(crate) fn shape_at(session: &Session, fault: &ShapeFault) -> ShapeStory
    requires { IsShapeFault session.now fault.now }
    ensures { IsShapeStory session.now fault.now result }
{
    let fault = *fault;
    ShapeStory {
        fault,
        handover: handover_of(session),
        sent: sent_before(session, fault.log, fault.place),
    }
}
