//! The faults of a page by kind: how many records are faults for each reason, and the first of them.

ghost use Rattle.std.specs.Prelude.{◌≡◌, ◌<◌, ◌≤◌, ℕ, IfOk, Some, length, slice_get};
ghost use Rattle.migration_types.specs.Limits.{longest_log};
ghost use Rattle.migration_types.specs.Paged.{guest_page};
ghost use Rattle.migration_types.specs.Sessions.{Recorded};
ghost use Rattle.audit_model.specs.declared.reasons.PageReason.TheVariants.{Early, Read};
ghost use Rattle.audit_model.specs.Certificates.{is_access_of};
ghost use Rattle.page_facts.specs.Ranges.{CellFits};
ghost use Rattle.session_story.specs.Kinds.{AreKinds, IsTally, in_all, log_of, tally_of};
ghost use Rattle.session_story.specs.Pages.{IsPageStory};
ghost use Rattle.session_story.specs.inner.Cells.{IsPage};
ghost use Rattle.session_story.specs.inner.Kinds.{IsHalted, IsNoted, IsTallyBy, comes_over, freed_by, is_early_by, is_placed_fault, is_sent_fault, is_uncovered, late_after, reads_other};

use crate::PageStory;
use crate::pages::below;
use crate::scans::{RecordQuestion, count_of, first_of};
use crate::values::{cells_at_start, cells_before, change};
use audit_model::{PageReason, is_halt, is_placement_of, is_resume};
use migration_types::{GuestRec, LogName, PageNo, PagerRec, Session, SourceRec};
use page_facts::{Findings, halt_place};
use std::alloc::{AllocError, Global};

/// How many records are faults of a page for one reason, and the first of them.
#[derive(Clone, Copy)]
pub struct Tally {
    pub count: u32,
    /// The number of the first in its log.
    pub first: Option<u32>,
}

/// The faults of a page by kind. A record that is a fault for two reasons is counted for both.
#[derive(Clone, Copy)]
pub struct Kinds {
    pub read: Tally,
    pub early: Tally,
    pub given: Tally,
    pub stale: Tally,
    pub twice: Tally,
    pub altered: Tally,
    pub unfit: Tally,
    pub over: Tally,
}

impl Kinds {
    /// Returns the tally of a reason.
    pub fn of(&self, reason: PageReason) -> Tally
        ensures { result ≡ tally_of reason self.now }
    {
        match reason {
            PageReason::Read => self.read,
            PageReason::Early => self.early,
            PageReason::Given => self.given,
            PageReason::Stale => self.stale,
            PageReason::Twice => self.twice,
            PageReason::Altered => self.altered,
            PageReason::Unfit => self.unfit,
            PageReason::Over => self.over,
        }
    }

    /// Returns how many faults there are in all.
    pub fn in_all(self) -> u64
        ensures { result ≡ in_all self }
    {
        u64::from(self.read.count)
            + u64::from(self.early.count)
            + u64::from(self.given.count)
            + u64::from(self.stale.count)
            + u64::from(self.twice.count)
            + u64::from(self.altered.count)
            + u64::from(self.unfit.count)
            + u64::from(self.over.count)
    }
}

/// Returns the log whose records may be faults for a reason.
pub fn log_of(reason: PageReason) -> LogName
    ensures { result ≡ log_of reason }
{
    match reason {
        PageReason::Read | PageReason::Early => LogName::Guest,
        PageReason::Given | PageReason::Stale => LogName::Source,
        PageReason::Twice | PageReason::Altered | PageReason::Unfit | PageReason::Over => {
            LogName::Pager
        }
    }
}

/// The tally of no record.
const NONE: Tally = Tally {
    count: 0,
    first: None,
};

/// Counts the record of this number, if it is a fault.
fn note(tally: &mut Tally, here: bool, n: u32)
    requires { tally.old.count < longest_log }
    ensures { IsNoted here n tally.old tally.new }
{
    if here {
        tally.count += 1;
        if tally.first.is_none() {
            tally.first = Some(n);
        }
    }
}

/// Returns the tally of a question. Makes up to two passes over the log.
fn tally_of<Q: RecordQuestion>(session: &Session, question: &Q, log: &[Q::Record]) -> Tally
    requires { length log.now ≤ longest_log }
    ensures { IsTallyBy (Q.holds question.now session.now) log.now (length log.now) result }
{
    Tally {
        count: count_of(session, question, log),
        first: first_of(session, question, log),
    }
}

/// Returns whether a record reads the page, and gives another value than its cells have.
fn reads_other(rec: &GuestRec, page: PageNo, cells: &[u64]) -> bool
    requires { CellFits (length cells.now) rec.now }
    ensures { (values : ℕ → ℕ) → IsPage cells.now values (length cells.now) → result ≡ reads_other page values rec.now }
{
    match *rec {
        GuestRec::Read {
            page: read,
            cell,
            value,
            ..
        } => read.number() == page.number() && value != cells[cell as usize],
        _ => false,
    }
}

/// Returns the tally of the reads that give another value than one machine that never moved.
#[tactic(auto, using(crate::proofs::Faulting::reads_are))]
fn wrong_reads(alloc: Global, session: &Session, page: PageNo) -> Result<Tally, AllocError>
    requires { page < session.now.geometry.pages }
    ensures { IfOk result (IsTally session.now page Read) }
{
    session.keeps_limits();
    let guest = session.guest();
    let mut cells = cells_at_start(alloc, session, page)?;
    let mut tally = NONE;
    for n in 0..guest.len() {
        let rec = &guest[n];
        note(&mut tally, reads_other(rec, page, &cells), n as u32);
        change(&mut cells, page, rec);
    }
    Ok(tally)
}

/// Returns whether a record reads or writes the page.
fn is_access_of(rec: &GuestRec, page: PageNo) -> bool
    ensures { result ≡ is_access_of page rec.now }
{
    match *rec {
        GuestRec::Read { page: used, .. } | GuestRec::Write { page: used, .. } => {
            used.number() == page.number()
        }
        _ => false,
    }
}

/// Returns whether the record of this number is an early access, given whether the guest is at the target and has
/// released the page there.
fn is_early(rec: &GuestRec, n: u32, page: &PageStory, late: bool, freed: bool) -> bool
    ensures { result ≡ is_early_by page.now n late freed rec.now }
{
    is_access_of(rec, page.page) && (!freed && (late && below(n, page.found.look).is_none()))
}

/// Returns whether the guest is at the target after a record.
fn late_after(rec: &GuestRec, late: bool) -> bool
    ensures { result ≡ late_after rec.now late }
{
    is_resume(rec) || (late && !is_halt(rec))
}

/// Returns whether the guest has released the page at the target after a record.
fn freed_after(rec: &GuestRec, page: PageNo, late: bool, freed: bool) -> bool
    ensures { result ≡ freed_by page rec.now late freed }
{
    match *rec {
        GuestRec::Release { page: released, .. } => {
            freed || (late && released.number() == page.number())
        }
        _ => freed,
    }
}

/// Returns the tally of the early accesses.
#[tactic(auto, using(crate::proofs::Faulting::early_are))]
fn early_accesses(session: &Session, page: &PageStory) -> Tally
    requires { IsPageStory session.now page.now.page page.now }
    ensures { IsTally session.now page.now.page Early result }
{
    session.keeps_limits();
    let guest = session.guest();
    let mut tally = NONE;
    let mut late = false;
    let mut freed = false;
    for n in 0..guest.len() {
        let rec = &guest[n];
        note(
            &mut tally,
            is_early(rec, n as u32, page, late, freed),
            n as u32,
        );
        freed = freed_after(rec, page.page, late, freed);
        late = late_after(rec, late);
    }
    tally
}

/// Returns whether there is a first use, and no look before it covers it.
fn is_uncovered(touch: Option<u32>, look: Option<u32>) -> bool
    ensures { result ≡ is_uncovered touch look }
{
    match touch {
        Some(touch) => below(touch, look).is_none(),
        None => false,
    }
}

/// Returns whether a page's first use at the target is a release that no look before it covers.
fn comes_over(found: &Findings) -> bool
    ensures { result ≡ comes_over found.now }
{
    found.releases && is_uncovered(found.touch, found.look)
}

/// A page at the halt, and what the logs say about it.
#[derive(Drop)]
struct Halted {
    page: PageNo,
    cells: Vec<u64>,
    found: Findings,
}

/// The question whether a record of the source is a fault of a page for a reason.
#[derive(Clone, Copy)]
struct SentFault<'a>(&'a Halted, PageReason);

impl RecordQuestion for SentFault<'_> {
    type Record = SourceRec;

    ghost holds = { λ q s n. is_sent_fault q.0.now q.1 };

    fn holds(&self, _session: &Session, _n: usize, rec: &SourceRec) -> bool {
        let halted = self.0;
        match (self.1, rec) {
            (PageReason::Given, SourceRec::Send { page, .. }) => {
                page.number() == halted.page.number() && halted.found.released
            }
            (PageReason::Stale, SourceRec::Send { page, contents }) => {
                page.number() == halted.page.number() && contents.as_slice() != &*halted.cells
            }
            _ => false,
        }
    }
}

/// The question whether a record of the pager is a fault of a page for a reason.
#[derive(Clone, Copy)]
struct PlacedFault<'a>(&'a Halted, PageReason);

impl RecordQuestion for PlacedFault<'_> {
    type Record = PagerRec;

    ghost holds = { λ q s. is_placed_fault q.0.now q.1 };

    fn holds(&self, _session: &Session, n: usize, rec: &PagerRec) -> bool {
        let halted = self.0;
        let found = &halted.found;
        match (self.1, rec) {
            (PageReason::Twice, _) => {
                is_placement_of(rec, halted.page) && below(n as u32, found.placement).is_some()
            }
            (PageReason::Altered, PagerRec::Place { page, contents, .. }) => {
                page.number() == halted.page.number() && contents.as_slice() != &*halted.cells
            }
            (PageReason::Unfit, PagerRec::Zero { page }) => {
                page.number() == halted.page.number() && !found.released
            }
            (PageReason::Over, _) => {
                is_placement_of(rec, halted.page)
                    && (below(n as u32, found.placement).is_none() && comes_over(found))
            }
            _ => false,
        }
    }
}

/// Returns the tally of a reason that records of the source show.
fn sent_faults(session: &Session, halted: &Halted, reason: PageReason) -> Tally
    requires halted { IsHalted session.now halted.now }
    requires reason { log_of reason ≡ LogName.Source }
    ensures { IsTally session.now halted.now.page reason result }
{
    session.keeps_limits();
    tally_of(session, &SentFault(halted, reason), session.source())
}

/// Returns the tally of a reason that records of the pager show.
fn placed_faults(session: &Session, halted: &Halted, reason: PageReason) -> Tally
    requires halted { IsHalted session.now halted.now }
    requires reason { log_of reason ≡ LogName.Pager }
    ensures { IsTally session.now halted.now.page reason result }
{
    session.keeps_limits();
    tally_of(session, &PlacedFault(halted, reason), session.pager())
}

/// Returns the faults of a page by kind. Makes a few passes over the logs, and allocates memory for one page at a time.
/// Fails only if memory runs out.
pub(crate) fn kinds_of(
    alloc: Global,
    session: &Session,
    page: &PageStory,
) -> Result<Kinds, AllocError>
    requires page { page.now.page < session.now.geometry.pages }
    requires story { IsPageStory session.now page.now.page page.now }
    ensures { IfOk result (AreKinds session.now page.now.page) }
{
    session.keeps_limits();
    let read = wrong_reads(alloc, session, page.page)?;
    let halt = halt_place(session.guest());
    let halted = Halted {
        page: page.page,
        cells: cells_before(alloc, session, page.page, halt)?,
        found: page.found,
    };
    Ok(Kinds {
        read,
        early: early_accesses(session, page),
        given: sent_faults(session, &halted, PageReason::Given),
        stale: sent_faults(session, &halted, PageReason::Stale),
        twice: placed_faults(session, &halted, PageReason::Twice),
        altered: placed_faults(session, &halted, PageReason::Altered),
        unfit: placed_faults(session, &halted, PageReason::Unfit),
        over: placed_faults(session, &halted, PageReason::Over),
    })
}
