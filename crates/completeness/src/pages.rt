//! The owed pages that never came.

ghost use Rattle.std.specs.Prelude.{◌≡◌, ◌<◌, ◌||◌, not, length, IfOk, MatchOption};
ghost use Rattle.std.specs.List.{list_any};
ghost use Rattle.migration_types.specs.Sessions.{IsSession};
ghost use Rattle.audit_model.specs.Flat.{at_halt, freed, home_after, in_ledger};
ghost use Rattle.audit_model.specs.Shape.{is_placement_of};
ghost use Rattle.flat_machine.specs.Machines.{ledger_after};
ghost use Rattle.balloon_ledger.specs.Released.{released, IsWith as HasReleased};
ghost use Rattle.page_store.specs.Tables.{pages_of, values, IsWith};
ghost use Rattle.page_facts.specs.Moved.{PagerPage};
ghost use Rattle.page_facts.specs.Tables.{IsTable};
ghost use Rattle.completeness.specs.Complete.{is_page_left};
ghost use Rattle.completeness.specs.inner.Least.{IsLeast, NonePass};
ghost use Rattle.completeness.specs.inner.Walks.{GuestPage, IsLedger, freed_by, placed_by, AreSeen};

use audit_model::Home;
use balloon_ledger::Ledger;
use migration_types::{GuestRec, PageNo, PagerRec, Session};
use page_facts::halt_place;
use page_store::Table;
use std::alloc::{AllocError, Global};

/// What the whole logs say about the pages.
#[derive(Drop)]
pub(crate) struct LogFacts {
    /// Those that are released at the halt.
    ledger: Ledger,
    /// Those that the pager placed.
    placed: Table<bool>,
    /// Those that the guest released at the target.
    freed: Table<bool>,
}

/// Takes a record of the guest into the ledger.
fn take_change(ledger: &mut Ledger, rec: &GuestRec)
    requires { GuestPage ledger.old.geometry.pages rec.now }
    ensures { HasReleased ledger.old ledger.new (ledger_after rec.now (released ledger.old)) }
{
    match *rec {
        GuestRec::Write { page, .. } => ledger.wrote(page),
        GuestRec::Release { page, .. } => ledger.release(page),
        _ => {}
    }
}

/// Returns the pages that are released at the halt.
pub(crate) fn ledger_at_halt(alloc: Global, session: &Session) -> Result<Ledger, AllocError>
    requires { IsSession session.now }
    ensures { IfOk result (IsLedger session.now (at_halt session.now)) }
{
    let guest = session.guest();
    let mut ledger = Ledger::new(alloc, session.geometry())?;
    for n in 0..halt_place(guest) {
        take_change(&mut ledger, &guest[n]);
    }
    Ok(ledger)
}

/// Returns where the guest is after a record.
fn home_after(rec: &GuestRec, home: Home) -> Home
    ensures { result ≡ home_after rec.now home }
{
    match rec {
        GuestRec::Halt => Home::Nowhere,
        GuestRec::Resume { .. } => Home::AtTarget,
        _ => home,
    }
}

/// Marks the page of a record that releases one at the target.
fn take_release(freed: &mut Table<bool>, home: Home, rec: &GuestRec)
    requires { GuestPage (pages_of freed.old) rec.now }
    ensures { IsWith freed.old freed.new (freed_by home rec.now (values freed.old)) }
{
    if let (Home::AtTarget, GuestRec::Release { page, .. }) = (home, rec) {
        freed.set(*page, true);
    }
}

/// Returns the pages that the guest released at the target.
fn freed_pages(alloc: Global, session: &Session) -> Result<Table<bool>, AllocError>
    requires { IsSession session.now }
    ensures { IfOk result (λ table. IsTable session.now.geometry.pages table (freed session.now (length session.now.guest))) }
{
    let guest = session.guest();
    let mut freed = Table::no_marks(alloc, session.geometry().pages())?;
    let mut home = Home::AtSource;
    for n in 0..guest.len() {
        let rec = &guest[n];
        take_release(&mut freed, home, rec);
        home = home_after(rec, home);
    }
    Ok(freed)
}

/// Marks the page that a record places, if it places one.
fn take_placement(placed: &mut Table<bool>, rec: &PagerRec)
    requires { PagerPage (pages_of placed.old) rec.now }
    ensures { IsWith placed.old placed.new (placed_by rec.now (values placed.old)) }
{
    match rec {
        PagerRec::Place { page, .. } => placed.set(*page, true),
        PagerRec::Zero { page } => placed.set(*page, true),
        _ => {}
    }
}

/// Returns the pages that the pager placed.
pub(crate) fn placed_pages(alloc: Global, session: &Session) -> Result<Table<bool>, AllocError>
    requires { IsSession session.now }
    ensures { IfOk result (λ table. IsTable session.now.geometry.pages table (λ page. list_any (is_placement_of page) session.now.pager)) }
{
    let pager = session.pager();
    let mut placed = Table::no_marks(alloc, session.geometry().pages())?;
    for n in 0..pager.len() {
        take_placement(&mut placed, &pager[n]);
    }
    Ok(placed)
}

/// Returns whether a page was owed, and never placed nor released at the target.
fn is_left(released: bool, placed: bool, freed: bool) -> bool
    ensures { result ≡ not (released || (placed || freed)) }
{
    !(released || placed || freed)
}

impl LogFacts {
    /// Returns what the logs of a session say about the pages. Makes one pass over the pager's log and two over the
    /// guest's, and allocates memory for three marks for each page. Fails only if memory runs out.
    pub(crate) fn of(alloc: Global, session: &Session) -> Result<LogFacts, AllocError>
        requires { IsSession session.now }
        ensures { IfOk result (AreSeen session.now) }
    {
        let placed = placed_pages(alloc, session)?;
        LogFacts::with(alloc, session, placed)
    }

    /// Returns the same, given the pages that the pager placed. Makes two passes over the guest's log. Fails only if memory
    /// runs out.
    pub(crate) fn with(
        alloc: Global,
        session: &Session,
        placed: Table<bool>,
    ) -> Result<LogFacts, AllocError>
        requires is_session { IsSession session.now }
        requires placed { IsTable session.now.geometry.pages placed (λ page. list_any (is_placement_of page) session.now.pager) }
        ensures { IfOk result (AreSeen session.now) }
    {
        let ledger = ledger_at_halt(alloc, session)?;
        let freed = freed_pages(alloc, session)?;
        Ok(LogFacts {
            ledger,
            placed,
            freed,
        })
    }

    /// Returns whether the target was owed a page.
    pub(crate) fn is_owed(&self, _session: &Session, page: PageNo) -> bool
        requires seen { AreSeen _session.now self.now }
        requires page { page < _session.now.geometry.pages }
        ensures { result ≡ not (in_ledger _session.now (at_halt _session.now) page) }
    {
        !self.ledger.holds(page)
    }

    /// Returns whether a page was owed, and never placed nor released at the target.
    pub(crate) fn is_left(&self, _session: &Session, page: PageNo) -> bool
        requires seen { AreSeen _session.now self.now }
        requires page { page < _session.now.geometry.pages }
        ensures { result ≡ is_page_left _session.now page }
    {
        is_left(
            self.ledger.holds(page),
            self.placed.at(page),
            self.freed.at(page),
        )
    }
}

/// Returns the least owed page that was never placed nor released at the target. Allocates no memory.
pub(crate) fn first_page(session: &Session, seen: &LogFacts) -> Option<PageNo>
    requires { AreSeen session.now seen.now }
    ensures { MatchOption result (NonePass (is_page_left session.now) session.now.geometry.pages) (IsLeast (is_page_left session.now) session.now.geometry.pages) }
{
    session.keeps_limits();
    for number in 0..session.geometry().pages() {
        let page = PageNo::new(number);
        if seen.is_left(session, page) {
            return Some(page);
        }
    }
    None
}
