//! Judges of a session and a certificate with an entry for each page: the calling thread alone, one thing after the
//! other; or threads, which judge the shape and the runs beside the pages.

ghost use Rattle.std.specs.Prelude.{⊤, ◌≡◌, IfOk, MatchOption};
ghost use Rattle.std.specs.Thread.{IsSync};
ghost use Rattle.audit_model.specs.Mergings.{IsMerging, spelled};
ghost use Rattle.audit_model.specs.Shape.{IsRightShape};
ghost use Rattle.cert_check.specs.Verdicts.{IsVerdict, SamePages, AreRightEntries, IsFirstBadPage};

use crate::places::{BEFORE_ENTRIES, BEFORE_RUNS};
use crate::shape_fault::shape;
use crate::verdict::Verdict;
use merge_runs::first_bad_run;
use migration_types::{Cert, Session};
use page_facts::{InThreads, JudgesEntries, OneThread, is_judged_alone};
use std::alloc::{AllocError, Global};
use std::marker::Sync;
use std::thread::{Threads, join};

/// Judges of a session and a certificate. All give the same verdict.
pub trait EntryJudges {
    // The condition for their work.
    ghost ready: { Type 0 } = { ⊤ };

    /// Returns the verdict on a session and a certificate that has an entry for each page. Fails only if memory runs
    /// out.
    fn judge(&self, alloc: Global, session: &Session, cert: &Cert) -> Result<Verdict, AllocError>
        requires ready { ready }
        requires pages { SamePages session.now cert.now }
        ensures { IfOk result (IsVerdict session.now cert.now) };
}

/// Returns the verdict about the shape and the runs, if one of these is wrong. Fails only if memory runs out.
fn by_shape_and_runs(
    alloc: Global,
    session: &Session,
    cert: &Cert,
) -> Result<Option<Verdict>, AllocError>
    requires { SamePages session.now cert.now }
    ensures { IfOk result (λ found. MatchOption found (IsRightShape session.now × IsMerging session.now (spelled cert.now.runs)) (IsVerdict session.now cert.now)) }
{
    session.keeps_limits();
    cert.keeps_limits();
    let fault = shape(alloc, session)?;
    if let Some(fault) = fault {
        return Ok(Some(Verdict::Shape(fault)));
    }
    let Some(place) = first_bad_run(session, cert.runs()) else {
        return Ok(None);
    };
    let pages = session.geometry().pages();
    Ok(Some(Verdict::Runs(pages + BEFORE_RUNS + place as u32)))
}

/// Returns the first page whose entry is not right. Fails only if memory runs out.
fn first_bad_page<J: JudgesEntries>(
    judges: &J,
    alloc: Global,
    session: &Session,
    cert: &Cert,
) -> Result<Option<usize>, AllocError>
    requires ready { J.ready }
    requires pages { SamePages session.now cert.now }
    ensures { IfOk result (λ page. MatchOption page (AreRightEntries session.now cert.now.entries) (IsFirstBadPage session.now cert.now.entries)) }
{
    judges.first_wrong_entry(alloc, session, cert.entries())
}

/// Returns the verdict about the entries, given that the shape and the runs are right.
fn by_entries(session: &Session, cert: &Cert, bad: Option<usize>) -> Verdict
    requires pages { SamePages session.now cert.now }
    requires right { IsRightShape session.now × IsMerging session.now (spelled cert.now.runs) }
    requires bad { MatchOption bad (AreRightEntries session.now cert.now.entries) (IsFirstBadPage session.now cert.now.entries) }
    ensures { IsVerdict session.now cert.now result }
{
    session.keeps_limits();
    cert.keeps_limits();
    match bad {
        Some(page) => Verdict::Page(page as u32 + BEFORE_ENTRIES),
        None => Verdict::Yes,
    }
}

/// Returns the verdict about everything: what is wrong with the shape or the runs comes before the entries.
fn settled(session: &Session, cert: &Cert, first: Option<Verdict>, bad: Option<usize>) -> Verdict
    requires pages { SamePages session.now cert.now }
    requires first { MatchOption first (IsRightShape session.now × IsMerging session.now (spelled cert.now.runs)) (IsVerdict session.now cert.now) }
    requires bad { MatchOption bad (AreRightEntries session.now cert.now.entries) (IsFirstBadPage session.now cert.now.entries) }
    ensures { IsVerdict session.now cert.now result }
{
    match first {
        Some(verdict) => verdict,
        None => by_entries(session, cert, bad),
    }
}

/// Judges the pages as one range, if the shape and the runs are right. Makes one pass over each log and one more for
/// the looks, and allocates memory for the cells of all pages and some numbers for each.
impl EntryJudges for OneThread {
    fn judge(&self, alloc: Global, session: &Session, cert: &Cert) -> Result<Verdict, AllocError> {
        let first = by_shape_and_runs(alloc, session, cert)?;
        if let Some(verdict) = first {
            return Ok(verdict);
        }
        let bad = first_bad_page(self, alloc, session, cert)?;
        Ok(settled(session, cert, first, bad))
    }
}

/// Judges the shape and the runs by one thread, and beside it the pages, each range of them by a thread.
impl<R: Threads + Sync> EntryJudges for InThreads<'_, R> {
    ghost ready = { IsSync R.row };

    fn judge(&self, alloc: Global, session: &Session, cert: &Cert) -> Result<Verdict, AllocError> {
        let rt = self.rt;
        if is_judged_alone(rt, session) {
            return OneThread.judge(alloc, session, cert);
        }
        let (first, bad) = join(
            rt,
            || -> Result<Option<Verdict>, AllocError>
                requires { SamePages session.now cert.now }
                ensures { IfOk result (λ found. MatchOption found (IsRightShape session.entry.now × IsMerging session.entry.now (spelled cert.entry.now.runs)) (IsVerdict session.entry.now cert.entry.now)) }
            { by_shape_and_runs(alloc, session, cert) },
            || -> Result<Option<usize>, AllocError>
                requires { IsSync R.row × SamePages session.now cert.now }
                ensures { IfOk result (λ page. MatchOption page (AreRightEntries session.entry.now cert.entry.now.entries) (IsFirstBadPage session.entry.now cert.entry.now.entries)) }
            { first_bad_page(&InThreads { rt }, alloc, session, cert) },
        );
        let first = first?;
        let bad = bad?;
        Ok(settled(session, cert, first, bad))
    }
}
