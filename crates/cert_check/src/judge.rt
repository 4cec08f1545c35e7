//! The verdict on a session and a certificate.

ghost use Rattle.std.specs.Prelude.{◌≡◌, IfOk};
ghost use Rattle.audit_model.specs.Mergings.{HasMerging, spelled};
ghost use Rattle.audit_model.specs.World.{IsSafe, IsSafeOrder};
ghost use Rattle.audit_model.specs.Laws.{FindsResident, ReadsFlat, PlacedOnce, PlacedUntouched, ReleasedAsZeros};
ghost use Rattle.cert_check.specs.Verdicts.{IsVerdict, IsTheOneVerdict, SamePages};
ghost use Rattle.cert_check.specs.Promises.{Promises, IsReplayedBy};

use crate::entry_judges::EntryJudges;
use crate::shape_fault::shape;
use crate::verdict::Verdict;
use audit_model::certified_is_safe;
use migration_types::{Cert, Session};
use page_facts::{InThreads, OneThread};
use std::alloc::{AllocError, Global};
use std::marker::Sync;
use std::thread::Threads;

/// Returns the verdict on a session and a certificate with another number of pages.
fn of_other_pages(alloc: Global, session: &Session, _cert: &Cert) -> Result<Verdict, AllocError>
    requires { ¬ SamePages session.now _cert.now }
    ensures { IfOk result (IsVerdict session.now _cert.now) }
{
    let fault = shape(alloc, session)?;
    match fault {
        Some(fault) => Ok(Verdict::Shape(fault)),
        None => Ok(Verdict::Pages),
    }
}

/// Returns the verdict on a session and a certificate, without its promises. Fails only if memory runs out.
fn verdict_by<J: EntryJudges>(
    judges: &J,
    alloc: Global,
    session: &Session,
    cert: &Cert,
) -> Result<Verdict, AllocError>
    requires ready { J.ready }
    ensures { IfOk result (IsVerdict session.now cert.now) }
{
    if cert.entries().len() != session.geometry().pages() as usize {
        return of_other_pages(alloc, session, cert);
    }
    judges.judge(alloc, session, cert)
}

/// Returns the verdict on a session and its certificate that [`check`] returns, whichever judges are used. It promises
/// what `check` promises, and allocates the memory that these judges do. Fails only if memory runs out.
pub fn check_by<J: EntryJudges>(
    judges: &J,
    alloc: Global,
    session: &Session,
    cert: &Cert,
) -> Result<Verdict, AllocError>
    requires ready { J.ready }
    ensures verdict { IfOk result (IsVerdict session.now cert.now) }
    ensures yes { Promises (result ≡ Ok Verdict.Yes) (λ Has. Has session.now) (IsReplayedBy cert.now) }
{
    session.keeps_limits();
    certified_is_safe();
    verdict_by(judges, alloc, session, cert)
}

/// Returns the verdict on a session and its certificate: the first that applies of `Shape`, `Pages`, `Runs`, `Page` and
/// `Yes`.
///
/// On `Yes`, the session's logs have a merging, and every merging is safe. A read or a write after handover finds its
/// page resident. A read gives what one machine that never moved gives. A page is placed at most once, and before any
/// read, write or release of it at the target. A released page is never sent and comes back as zeros. So the merging
/// that the certificate's runs spell has no record whose demand fails. Nothing is assumed about who made the
/// certificate.
///
/// Makes one pass over the runs and a few over the records, and allocates memory for a few numbers for each page and
/// for the cells of all pages. Fails only if memory runs out.
pub fn check(alloc: Global, session: &Session, cert: &Cert) -> Result<Verdict, AllocError>
    ensures verdict { IfOk result (IsVerdict session.now cert.now) }
    ensures safe { result ≡ Ok Verdict.Yes → IsSafe session.now }
    ensures replays_clean { result ≡ Ok Verdict.Yes → IsSafeOrder session.now (spelled cert.now.runs) }
    ensures has_merging { result ≡ Ok Verdict.Yes → HasMerging session.now }
    ensures finds_resident { result ≡ Ok Verdict.Yes → FindsResident session.now }
    ensures reads_flat { result ≡ Ok Verdict.Yes → ReadsFlat session.now }
    ensures placed_once { result ≡ Ok Verdict.Yes → PlacedOnce session.now }
    ensures placed_untouched { result ≡ Ok Verdict.Yes → PlacedUntouched session.now }
    ensures released_as_zeros { result ≡ Ok Verdict.Yes → ReleasedAsZeros session.now }
{
    check_by(&OneThread, alloc, session, cert)
}

/// Returns the verdict that [`check`] returns, with the pages judged by threads side by side, however these share the
/// pages among them. The calling thread judges a small session alone.
///
/// On `Yes`, it promises what `check` promises. It allocates memory for a few more numbers for each page. It waits only
/// for the threads that it starts. If a thread cannot be started, another one judges its part. Fails only if memory
/// runs out.
pub fn check_par<R: Threads + Sync>(
    rt: &R,
    alloc: Global,
    session: &Session,
    cert: &Cert,
) -> Result<Verdict, AllocError>
    ensures verdict { IfOk result (IsVerdict session.now cert.now) }
    ensures parallel_equals_plain { IfOk result (IsTheOneVerdict session.now cert.now) }
    ensures safe { result ≡ Ok Verdict.Yes → IsSafe session.now }
    ensures replays_clean { result ≡ Ok Verdict.Yes → IsSafeOrder session.now (spelled cert.now.runs) }
    ensures has_merging { result ≡ Ok Verdict.Yes → HasMerging session.now }
    ensures finds_resident { result ≡ Ok Verdict.Yes → FindsResident session.now }
    ensures reads_flat { result ≡ Ok Verdict.Yes → ReadsFlat session.now }
    ensures placed_once { result ≡ Ok Verdict.Yes → PlacedOnce session.now }
    ensures placed_untouched { result ≡ Ok Verdict.Yes → PlacedUntouched session.now }
    ensures released_as_zeros { result ≡ Ok Verdict.Yes → ReleasedAsZeros session.now }
{
    session.keeps_limits();
    check_by(&InThreads { rt }, alloc, session, cert)
}
