//! The story of a report.

ghost use Rattle.std.specs.Prelude.{◌≡◌, [], IfOk, MatchOption};
ghost use Rattle.audit_model.specs.FirstFault.{IsFirstPageFault};
ghost use Rattle.page_facts.specs.FaultyPages.{AreManyFaulty};
ghost use Rattle.audit_report.specs.Reports.{IsReport};
ghost use Rattle.session_story.specs.Apart.{AreFaultyApart};
ghost use Rattle.session_story.specs.Counted.{IsCounts};
ghost use Rattle.session_story.specs.Explained.{AreMoreFaulty, IsApartStory, IsExplanation, IsLeastOf};
ghost use Rattle.session_story.specs.inner.Touched.{lesser};

use crate::faults::{fault_at, shape_at};
use crate::waits::circle_of;
use crate::{ApartStory, Counts, Explanation, counts_of, faulty_apart};
use audit_report::Report;
use migration_types::{Cert, Session};
use page_facts::{FaultyPage, PageFault};
use std::alloc::{AllocError, Global};

/// Returns the counts of a clean session.
fn clean_counts(alloc: Global, session: &Session, cert: &Cert) -> Result<Counts, AllocError>
    ensures { IfOk result (IsCounts session.now cert.now.entries) }
{
    cert.keeps_limits();
    counts_of(alloc, session, cert.entries())
}

/// Returns how many pages have a fault besides that of the session's first fault, if this many have one.
fn more_faulty(session: &Session, fault: &PageFault, pages: usize) -> usize
    requires first { IsFirstPageFault session.now fault.now.reason (fault.now.log, fault.now.place) }
    requires many { AreManyFaulty session.now pages }
    ensures { AreMoreFaulty session.now result }
{
    session.keeps_limits();
    pages - 1
}

/// Returns the page whose fault has the lesser line.
fn lesser(least: Option<FaultyPage>, page: FaultyPage) -> FaultyPage
    ensures { result ≡ lesser least page }
{
    match least {
        Some(one) if one.line <= page.line => one,
        _ => page,
    }
}

/// Returns the page whose fault has the least line, if there is one.
fn least_of(found: &[FaultyPage]) -> Option<FaultyPage>
    ensures { MatchOption result (found.now ≡ []) (IsLeastOf found.now) }
{
    let mut least: Option<FaultyPage> = None;
    for page in found {
        least = Some(lesser(least, *page));
    }
    least
}

/// Returns the story of the faulty pages that misshapen records do not touch, if there are any.
fn told_apart(
    alloc: Global,
    session: &Session,
    report: &Report,
) -> Result<Option<ApartStory>, AllocError>
    requires { IsReport session.now report.now }
    ensures { IfOk result (λ apart. MatchOption apart (AreFaultyApart session.now []) (IsApartStory session.now)) }
{
    let found = faulty_apart(alloc, session)?;
    match least_of(&found) {
        Some(first) => {
            let story = fault_at(alloc, session, report, &first.fault)?;
            let more = found.len() - 1;
            Ok(Some(ApartStory { story, more }))
        }
        None => Ok(None),
    }
}

/// Returns the story of the report on a session. Makes a few passes over each log, and allocates as much memory as an
/// audit does, and for one more page. Fails only if memory runs out.
pub fn explain(alloc: Global, session: &Session, report: &Report) -> Result<Explanation, AllocError>
    requires { IsReport session.now report.now }
    ensures { IfOk result (IsExplanation session.now report.now) }
{
    match report {
        Report::Shape(fault) => {
            let apart = told_apart(alloc, session, report)?;
            let story = shape_at(session, fault);
            Ok(Explanation::Shape { story, apart })
        }
        Report::Knot { left, found } => {
            Ok(Explanation::Knot(circle_of(alloc, session, left, found)?))
        }
        Report::Faulty { fault, pages, .. } => {
            let story = fault_at(alloc, session, report, fault)?;
            let more = more_faulty(session, fault, *pages);
            Ok(Explanation::Faulty { story, more })
        }
        Report::Clean(cert) => Ok(Explanation::Clean(clean_counts(alloc, session, cert)?)),
    }
}
