//! What a run left, compared with one machine that never moved.

ghost use Rattle.std.specs.Prelude.{◌≡◌, ◌≢◌, ◌<◌, ◌≤◌, ◌⊎◌, ℕ, false, length, slice_get, Some, IfOk, MatchBool};
ghost use Rattle.migration_types.specs.Sessions.{IsSession};
ghost use Rattle.migration_types.specs.Limits.{most_pages};
ghost use Rattle.migration_types.specs.Memory.{page_of};
ghost use Rattle.migration_types.specs.declared.cert.Entry.{Entry as Said};
ghost use Rattle.migration_types.specs.declared.cert.Entry.TheVariants.{Nothing};
ghost use Rattle.balloon_ledger.specs.Released.{released};
ghost use Rattle.page_store.specs.Frames.{memory_of};
ghost use Rattle.flat_machine.specs.Machines.{IsFlat};
ghost use Rattle.audit_model.specs.Shape.{IsRightShape};
ghost use Rattle.audit_model.specs.Certificates.{IsRightCertificate};
ghost use Rattle.audit_model.specs.Mergings.{spelled};
ghost use Rattle.migration_model.specs.Promise.{HasEachOwed};
ghost use Rattle.host_checks.specs.Outcomes.{IsFlatStore};

use audit_model::worlds_follow_cursors;
use flat_machine::Machine;
use migration_types::{Cert, Entry, PageNo, Session};
use page_facts::halt_place;
use page_store::Store;
use std::alloc::{AllocError, Global};

/// Carries out the guest's records from one place to another.
fn run_to(session: &Session, machine: &mut Machine, from: usize, to: usize)
    requires limits { IsSession session.now }
    requires order { from ≤ to }
    requires within { to ≤ length session.now.guest }
    requires machine { IsFlat session.now from machine.old }
    ensures { IsFlat session.now to machine.new }
{
    let guest = session.guest();
    for n in from..to {
        machine.step(&guest[n]);
    }
}

/// Returns whether an entry says where its page was placed, or that it was released at the target.
fn says_where(entry: &Entry) -> bool
    ensures { MatchBool result (entry.now ≢ Nothing) (entry.now ≡ Nothing) }
{
    match entry {
        Entry::Nothing => false,
        Entry::Fresh { .. } => true,
        Entry::Source { .. } => true,
        Entry::Balloon { .. } => true,
    }
}

/// Returns whether a page is released, or its entry says where it was placed or released.
fn is_served(is_released: bool, entry: &Entry) -> bool
    ensures { MatchBool result (is_released ≡ false → entry.now ≢ Nothing) ((is_released ≡ false) × (entry.now ≡ Nothing)) }
{
    is_released || says_where(entry)
}

/// Returns whether each page that the machine has not released has an entry that says where it was placed or released.
fn owed_are_placed(machine: &Machine, entries: &[Entry]) -> bool
    requires pages { length entries.now ≡ machine.now.ledger.geometry.pages }
    requires few { length entries.now ≤ most_pages }
    ensures { MatchBool result
        ((page : ℕ) (entry : Said) → slice_get entries.now page ≡ Some entry → released machine.now.ledger page ≡ false → entry ≢ Nothing)
        ((page : ℕ) × (slice_get entries.now page ≡ Some Nothing) × (released machine.now.ledger page ≡ false)) }
{
    for page in 0..entries.len() {
        let number = PageNo::new(page as u32);
        if !is_served(machine.ledger.holds(number), &entries[page]) {
            return false;
        }
    }
    true
}

/// Returns whether two machines' frames have the same contents in each page.
fn are_same(one: &Store, other: &Store) -> bool
    requires { one.now.geometry ≡ other.now.geometry }
    ensures { MatchBool result
        ((page : ℕ) → page < other.now.geometry.pages → page_of other.now.geometry.cells (memory_of one.now) page ≡ page_of other.now.geometry.cells (memory_of other.now) page)
        ((page : ℕ) × (page < other.now.geometry.pages) × (page_of other.now.geometry.cells (memory_of one.now) page ≢ page_of other.now.geometry.cells (memory_of other.now) page)) }
{
    let geometry = one.geometry();
    geometry.keeps_limits();
    for page in 0..geometry.pages() {
        let number = PageNo::new(page);
        if one.page(number) != other.page(number) {
            return false;
        }
    }
    true
}

/// Returns whether each owed page is resident at the end of the certificate's merging, and each page of the frames is
/// that of one machine that never moved. Makes one pass over the guest's log, and allocates memory for the frames of
/// one machine. Fails only if memory runs out.
pub(crate) fn is_whole(
    alloc: Global,
    session: &Session,
    cert: &Cert,
    store: &Store,
) -> Result<bool, AllocError>
    requires shape { IsRightShape session.now }
    requires right { IsRightCertificate session.now cert.now }
    ensures { IfOk result (λ b. MatchBool b (HasEachOwed session.now (spelled cert.now.runs) × IsFlatStore session.now store.now) (¬ HasEachOwed session.now (spelled cert.now.runs) ⊎ ¬ IsFlatStore session.now store.now)) }
{
    session.keeps_limits();
    cert.keeps_limits();
    worlds_follow_cursors();
    if store.geometry() != session.geometry() {
        return Ok(false);
    }
    let mut machine = Machine::start(alloc, session)?;
    let halt = halt_place(session.guest());
    run_to(session, &mut machine, 0, halt);
    if !owed_are_placed(&machine, cert.entries()) {
        return Ok(false);
    }
    run_to(session, &mut machine, halt, session.guest().len());
    Ok(are_same(store, &machine.frames))
}
