//! How many pages the target was owed that never came, and how many it was not owed.

ghost use Rattle.std.specs.Prelude.{◌≡◌, IfOk, true};
ghost use Rattle.std.specs.List.{list_any};
ghost use Rattle.migration_types.specs.PageSets.{size_below};
ghost use Rattle.audit_model.specs.Flat.{at_halt, in_ledger};
ghost use Rattle.audit_model.specs.Shape.{is_placement_of};
ghost use Rattle.page_facts.specs.Tables.{IsTable};
ghost use Rattle.completeness.specs.Left.{left_below, left_pages};
ghost use Rattle.completeness.specs.inner.Walks.{AreSeen};

use crate::pages::{LogFacts, ledger_at_halt, placed_pages};
use audit_model::has_resume;
use migration_types::{PageNo, Session};
use page_store::Table;
use std::alloc::{AllocError, Global};

/// Returns whether each page was placed. If so, none is missing.
fn are_placed(session: &Session, placed: &Table<bool>) -> bool
    requires { IsTable session.now.geometry.pages placed.now (λ page. list_any (is_placement_of page) session.now.pager) }
    ensures { result ≡ true → left_below session.now session.now.geometry.pages ≡ 0 }
{
    session.keeps_limits();
    for number in 0..session.geometry().pages() {
        if !placed.at(PageNo::new(number)) {
            return false;
        }
    }
    true
}

/// Returns how many owed pages were never placed nor released at the target. Allocates no memory.
fn count_left(session: &Session, seen: &LogFacts) -> u32
    requires { AreSeen session.now seen.now }
    ensures { result ≡ left_below session.now session.now.geometry.pages }
{
    session.keeps_limits();
    let mut count = 0;
    for number in 0..session.geometry().pages() {
        if seen.is_left(session, PageNo::new(number)) {
            count += 1;
        }
    }
    count
}

/// Returns how many pages the target was owed that were never placed nor released there, if the guest was resumed there;
/// otherwise 0. Makes a pass over the pager's log, and two over the guest's unless each page was placed. Allocates memory
/// for up to three marks for each page. Fails only if memory runs out.
pub fn count_left_pages(alloc: Global, session: &Session) -> Result<u32, AllocError>
    ensures { IfOk result (λ count. count ≡ left_pages session.now) }
{
    session.keeps_limits();
    if !has_resume(session.guest()) {
        return Ok(0);
    }
    let placed = placed_pages(alloc, session)?;
    if are_placed(session, &placed) {
        return Ok(0);
    }
    let seen = LogFacts::with(alloc, session, placed)?;
    Ok(count_left(session, &seen))
}

/// Returns how many pages are released at the halt, so that the target is not owed them. Makes a pass over the guest's
/// log up to there, and allocates memory for a mark for each page. Fails only if memory runs out.
pub fn count_released_pages(alloc: Global, session: &Session) -> Result<u32, AllocError>
    ensures { IfOk result (λ count. count ≡ size_below session.now.geometry.pages (in_ledger session.now (at_halt session.now))) }
{
    session.keeps_limits();
    let ledger = ledger_at_halt(alloc, session)?;
    Ok(session.geometry().pages() - ledger.owed_count())
}
