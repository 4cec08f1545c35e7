//! The first fault of a session's pages.

ghost use Rattle.std.specs.Prelude.{⊤, ◌≡◌, IfOk, IfSome, MatchOption, Option};
ghost use Rattle.migration_types.specs.Sessions.{IsSession, Recorded};
ghost use Rattle.audit_model.specs.Faults.{HasNoPageFault};
ghost use Rattle.audit_model.specs.FirstFault.{IsFirstPageFault};
ghost use Rattle.page_facts.specs.Findings.{IsFindings};
ghost use Rattle.page_facts.specs.PageFaults.{HasItsPage, IsClean, IsFirstFault, IsFirstFaultFrom};
ghost use Rattle.page_facts.specs.inner.OfFindings.{told, precedes, least, or_next, page_fault};

use crate::findings::{Findings, guest_fault, pager_fault, source_fault};
use crate::question::{Question, answer_alone};
use audit_model::PageReason;
use migration_types::{LogName, PageNo, Session};
use std::alloc::{AllocError, Global};

/// A fault of a page: the page, the record that has it, and why.
#[derive(Clone, Copy, Debug, PartialEq, Eq)]
pub struct PageFault {
    /// The record's page.
    pub page: PageNo,
    /// The record's log.
    pub log: LogName,
    /// The record's number in that log.
    pub place: u32,
    /// The first of its reasons.
    pub reason: PageReason,
}

/// Returns the fault of this page's record, if there is one.
pub(crate) fn told(
    page: PageNo,
    log: LogName,
    reason: PageReason,
    place: Option<u32>,
) -> Option<PageFault>
    ensures { result ≡ told page log reason place }
{
    let place = place?;
    Some(PageFault {
        page,
        log,
        place,
        reason,
    })
}

/// Returns whether a fault's line is less than the other's.
fn precedes(one: &PageFault, other: &PageFault) -> bool
    ensures { result ≡ precedes one.now other.now }
{
    let log = one.log.index();
    let before = other.log.index();
    log < before || (log == before && one.place < other.place)
}

/// Returns the fault with the least line, or the first if both are of one record.
pub(crate) fn least(first: Option<PageFault>, other: Option<PageFault>) -> Option<PageFault>
    ensures { result ≡ least first other }
{
    match (first, other) {
        (None, other) => other,
        (Some(fault), None) => Some(fault),
        (Some(fault), Some(other)) => {
            if precedes(&other, &fault) {
                Some(other)
            } else {
                Some(fault)
            }
        }
    }
}

/// Returns the first one if it exists, and otherwise the other.
fn or_next(first: Option<PageFault>, next: Option<PageFault>) -> Option<PageFault>
    ensures { result ≡ or_next first next }
{
    match first {
        Some(fault) => Some(fault),
        None => next,
    }
}

/// Returns the first fault of a page with these findings, going through the logs in their order.
fn first_in_logs(session: &Session, findings: &Findings, page: PageNo) -> Option<PageFault>
    ensures { result ≡ page_fault session.now page findings.now }
{
    let moved = or_next(
        source_fault(findings, page),
        pager_fault(session, findings, page),
    );
    or_next(guest_fault(findings, page), moved)
}

/// Returns the fault of a page with these findings that has the least line, and then the least reason, or `None` if no
/// record of the page is a fault. Allocates no memory.
pub fn fault_of(session: &Session, findings: &Findings, page: PageNo) -> Option<PageFault>
    requires { IsFindings session.now page findings.now }
    ensures { MatchOption result (IsClean session.now page) (IsFirstFault session.now page) }
{
    first_in_logs(session, findings, page)
}

/// The question for the pages' fault with the least line, and then the least reason.
#[derive(Clone, Copy)]
pub struct FirstFault;

impl Question for FirstFault {
    type Answer = Option<PageFault>;

    ghost IsFor = { λ q s. ⊤ };

    ghost IsAnswer = { λ q s first count fault. IsFirstFaultFrom s first count fault };

    fn blank(&self, _alloc: Global, _room: usize) -> Result<Option<PageFault>, AllocError> {
        Ok(None)
    }

    fn take(
        &self,
        first: &mut Option<PageFault>,
        session: &Session,
        page: PageNo,
        findings: &Findings,
    ) -> Result<(), AllocError> {
        *first = least(*first, fault_of(session, findings, page));
        Ok(())
    }

    fn add(
        &self,
        first: &mut Option<PageFault>,
        next: Option<PageFault>,
    ) -> Result<(), AllocError> {
        *first = least(*first, next);
        Ok(())
    }
}

/// A law: the first fault of all pages of a session is its first of any page. Runs nothing.
pub fn first_of_pages_is_first()
    ensures { (s : Recorded) (fault : Option PageFault) → IsSession s → IsFirstFaultFrom s 0 s.geometry.pages fault → MatchOption fault (HasNoPageFault s) (λ f. IsFirstPageFault s f.reason (f.log, f.place)) }
{}

/// Returns the fault of a session's pages with the least line, and then the least reason, or `None` if no record is a
/// fault. Makes a few passes over each log, and allocates memory for some numbers for each page and for the cells of
/// all pages. Fails only if memory runs out.
pub fn first_page_fault(alloc: Global, session: &Session) -> Result<Option<PageFault>, AllocError>
    ensures first { IfOk result (λ fault. MatchOption fault (HasNoPageFault session.now) (λ f. IsFirstPageFault session.now f.reason (f.log, f.place))) }
    ensures page { IfOk result (λ fault. IfSome fault (HasItsPage session.now)) }
{
    session.keeps_limits();
    answer_alone(&FirstFault, alloc, session)
}
