//! The first thing that is missing.

ghost use Rattle.std.specs.Prelude.{◌≡◌, IfOk, MatchOption};
ghost use Rattle.std.specs.List.{list_any};
ghost use Rattle.audit_model.specs.Shape.{is_halt};
ghost use Rattle.migration_types.specs.Sessions.{IsSession};
ghost use Rattle.completeness.specs.Complete.{is_back, HasPages, IsComplete, IsWhole, Lacks};
ghost use Rattle.completeness.specs.inner.Walks.{AreSeen};

use crate::ending::{has_done, has_end, placed_to};
use crate::lack::{Extent, Lack};
use crate::pages::{LogFacts, first_page};
use crate::taken::first_taken;
use audit_model::{has_resume, is_halt};
use migration_types::{GuestRec, Session, SourceRec};
use std::alloc::{AllocError, Global};

/// Returns whether the guest was halted.
fn has_halt(guest: &[GuestRec]) -> bool
    ensures { result ≡ list_any is_halt guest.now }
{
    guest.iter().any(is_halt)
}

/// Returns whether it starts the guest again at the source.
fn is_back(rec: &SourceRec) -> bool
    ensures { result ≡ is_back rec.now }
{
    matches!(rec, SourceRec::Back)
}

/// Returns whether the source started the guest again.
fn has_back(source: &[SourceRec]) -> bool
    ensures { result ≡ list_any is_back source.now }
{
    source.iter().any(is_back)
}

/// Returns the first thing that is missing from a session that has its pages and must tell of a whole migration.
fn missing_behind(
    alloc: Global,
    session: &Session,
    seen: &LogFacts,
) -> Result<Option<Lack>, AllocError>
    requires is_session { IsSession session.now }
    requires seen { AreSeen session.now seen.now }
    requires pages { HasPages session.now }
    ensures { IfOk result (λ found. MatchOption found (IsWhole session.now) (Lacks Extent.Whole session.now)) }
{
    let placed = placed_to(session, seen);
    if !has_end(session, placed) {
        return Ok(Some(Lack::All));
    }
    if !has_done(session, placed) {
        return Ok(Some(Lack::Done));
    }
    match first_taken(alloc, session)? {
        Some(n) => Ok(Some(Lack::Taken(n))),
        None => Ok(None),
    }
}

/// Returns the first thing that is missing from a session that must be complete to this extent, in the order of
/// [`Lack`] and then by the number of the page or the record. Returns `None` if the session is complete to this
/// extent. Makes a few passes over the logs, and allocates memory for three marks for each page and, for the whole, one
/// for each record of the pager. Fails only if memory runs out.
pub fn first_missing(
    alloc: Global,
    session: &Session,
    extent: Extent,
) -> Result<Option<Lack>, AllocError>
    ensures { IfOk result (λ found. MatchOption found (IsComplete extent session.now) (Lacks extent session.now)) }
{
    session.keeps_limits();
    if !has_halt(session.guest()) {
        return Ok(Some(Lack::Halt));
    }
    if !has_resume(session.guest()) {
        return match has_back(session.source()) {
            true => Ok(Some(Lack::Returned)),
            false => Ok(Some(Lack::Resume)),
        };
    }
    let seen = LogFacts::of(alloc, session)?;
    if let Some(page) = first_page(session, &seen) {
        return Ok(Some(Lack::Page(page)));
    }
    match extent {
        Extent::Pages => Ok(None),
        Extent::Whole => missing_behind(alloc, session, &seen),
    }
}
