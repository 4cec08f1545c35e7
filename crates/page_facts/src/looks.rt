//! The guest's first look that reaches a placement of each page.

ghost use Rattle.std.specs.Prelude.{◌≡◌, ◌≤◌, length, IfOk};
ghost use Rattle.migration_types.specs.declared.records.GuestRec.TheVariants.{See};
ghost use Rattle.migration_types.specs.Sessions.{IsSession};
ghost use Rattle.audit_model.specs.Faults.{looks_at};
ghost use Rattle.page_store.specs.Tables.{pages_of, values, IsWith};
ghost use Rattle.page_facts.specs.Moved.{PagerPage, placed_by};
ghost use Rattle.page_facts.specs.Tables.{or_here, IsTable};
ghost use Rattle.page_facts.specs.Looks.{look_of, first_look, AreNoted, AreLooks, AreLooksOf};

use migration_types::{GuestRec, PagerRec, Session};
use page_store::Table;
use std::alloc::{AllocError, Global};

/// The state of the walk over the guest's log.
#[derive(Drop)]
pub(crate) struct Looks {
    /// The guest's first look at a placement of each page, or at a later record of the pager.
    pub first: Table<Option<u32>>,
    /// How many of the pager's records the looks reach.
    pub reached: usize,
}

/// Returns the pager's record that a look sees.
fn look_of(logged: &GuestRec) -> Option<u32>
    ensures { result ≡ look_of logged.now }
{
    match *logged {
        GuestRec::See { placement } => Some(placement),
        _ => None,
    }
}

/// Notes a look for the page that a record places, if it places one and no look is noted.
fn note_placed(first: &mut Table<Option<u32>>, rec: &PagerRec, n: u32)
    requires { PagerPage (pages_of first.old) rec.now }
    ensures { IsWith first.old first.new (placed_by n rec.now (values first.old)) }
{
    match rec {
        PagerRec::Place { page, .. } => first.note(*page, n),
        PagerRec::Zero { page } => first.note(*page, n),
        _ => {}
    }
}

/// Notes a look for the pages that these records of the pager place, if no look is noted for a page.
fn note_reached(session: &Session, first: &mut Table<Option<u32>>, from: usize, to: usize, n: u32)
    requires limits { IsSession session.now }
    requires order { from ≤ to }
    requires within { to ≤ length session.now.pager }
    requires noted { AreNoted session.now n from first.old }
    ensures { AreNoted session.now n to first.new }
{
    let pager = session.pager();
    for place in from..to {
        note_placed(first, &pager[place], n);
    }
}

/// Takes in a look at this record of the pager.
fn take_look(session: &Session, looks: &mut Looks, placement: u32, n: u32)
    requires limits { IsSession session.now }
    requires looks { AreLooks session.now n looks.old }
    ensures { AreLooksOf session.now (λ page. or_here (first_look session.now n page) (looks_at session.now page (See placement)) n) looks.new }
{
    let records = session.pager().len();
    let seen = placement as usize;
    let to = if seen < records { seen + 1 } else { records };
    if looks.reached < to {
        note_reached(session, &mut looks.first, looks.reached, to, n);
        looks.reached = to;
    }
}

/// Returns the guest's first look at a placement of each page, or at a later record of the pager. Visits each record of
/// the guest and of the pager once, and allocates memory for a number for each page. Fails only if memory runs out.
pub(crate) fn first_looks(
    alloc: Global,
    session: &Session,
) -> Result<Table<Option<u32>>, AllocError>
    ensures { IfOk result (λ table. IsTable session.now.geometry.pages table (first_look session.now (length session.now.guest))) }
{
    session.keeps_limits();
    let first = Table::no_numbers(alloc, session.geometry().pages())?;
    let mut looks = Looks { first, reached: 0 };
    let guest = session.guest();
    for n in 0..guest.len() {
        if let Some(placement) = look_of(&guest[n]) {
            take_look(session, &mut looks, placement, n as u32);
        }
    }
    Ok(looks.first)
}
