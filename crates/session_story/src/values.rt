//! The value of a cell on one machine that never moved.

ghost use Rattle.std.specs.Prelude.{◌≡◌, ◌≤◌, ◌<◌, ℕ, IfOk, MatchOption, None, Some, false, length, set, slice_get, slice_index};
ghost use Rattle.migration_types.specs.declared.records.GuestRec.TheVariants.{Read};
ghost use Rattle.migration_types.specs.Memory.{initial};
ghost use Rattle.audit_model.specs.Flat.{cell_after, flat, at_halt};
ghost use Rattle.audit_model.specs.Shape.{passes};
ghost use Rattle.session_story.specs.Values.{IsHeld, IsInstead, IsOther, is_read};
ghost use Rattle.session_story.specs.inner.Cells.{AreSame, IsFirstOther, IsPage, set_by};

use crate::questions::GuestQuestion;
use crate::scans::last_of;
use migration_types::{GuestRec, PageNo, Session};
use page_facts::halt_place;
use std::alloc::{AllocError, Global};

/// The value of a cell on one machine that never moved.
#[derive(Clone, Copy)]
pub struct CellValue {
    pub cell: u16,
    pub value: u64,
    /// The guest's last record before that wrote the cell or released its page, or `None` if the cell is as at the
    /// start.
    pub by: Option<u32>,
}

/// Returns the values that a page begins with, cell 0 first. Fails only if memory runs out.
pub(crate) fn cells_at_start(
    alloc: Global,
    session: &Session,
    page: PageNo,
) -> Result<Vec<u64>, AllocError>
    requires { page < session.now.geometry.pages }
    ensures { IfOk result (λ cells. IsPage cells.items (initial session.now.init page) session.now.geometry.cells) }
{
    session.keeps_limits();
    let init = session.init();
    for given in init {
        if given.page.number() == page.number() {
            return given.cells.as_slice().to_vec(alloc);
        }
    }
    vec![in alloc; 0u64; session.geometry().cells() as usize]
}

/// Returns the value that a cell begins with. Allocates memory for one page. Fails only if memory runs out.
pub(crate) fn initial_of(
    alloc: Global,
    session: &Session,
    page: PageNo,
    cell: u16,
) -> Result<u64, AllocError>
    requires page { page < session.now.geometry.pages }
    requires cell { cell < session.now.geometry.cells }
    ensures { IfOk result (λ value. value ≡ initial session.now.init page cell) }
{
    Ok(cells_at_start(alloc, session, page)?[cell as usize])
}

/// Gives a cell a value if the page has that cell.
fn write(cells: &mut Vec<u64>, cell: u16, value: u64)
    ensures { cells.new.items ≡ set cells.old.items cell value }
{
    if let Some(there) = cells.get_mut(cell as usize) {
        *there = value;
    }
}

/// Changes a page's cells as one machine does at this record of the guest.
pub(crate) fn change(cells: &mut Vec<u64>, page: PageNo, rec: &GuestRec)
    ensures { (values : ℕ → ℕ) (count : ℕ) → IsPage cells.old.items values count → IsPage cells.new.items (λ c. cell_after page c rec.now (values c)) count }
{
    match *rec {
        GuestRec::Write {
            page: written,
            cell,
            value,
            ..
        } => {
            if written.number() == page.number() {
                write(cells, cell, value);
            }
        }
        GuestRec::Release { page: released, .. } => {
            if released.number() == page.number() {
                cells.fill(0);
            }
        }
        _ => {}
    }
}

/// Returns the values that a page has on one machine that never moved, before this record of the guest, cell 0 first.
/// Fails only if memory runs out.
pub(crate) fn cells_before(
    alloc: Global,
    session: &Session,
    page: PageNo,
    to: usize,
) -> Result<Vec<u64>, AllocError>
    requires page { page < session.now.geometry.pages }
    requires within { to ≤ length session.now.guest }
    ensures { IfOk result (λ cells. IsPage cells.items (flat session.now to page) session.now.geometry.cells) }
{
    let guest = session.guest();
    let mut cells = cells_at_start(alloc, session, page)?;
    for n in 0..to {
        change(&mut cells, page, &guest[n]);
    }
    Ok(cells)
}

/// Returns the value that the guest's record of this number, which sets a cell, gives it: what a write has, and zero for
/// a release.
fn set_by(guest: &[GuestRec], n: u32) -> u64
    ensures { result ≡ set_by (slice_get guest.now n) }
{
    match guest.get(n as usize) {
        Some(GuestRec::Write { value, .. }) => *value,
        _ => 0,
    }
}

/// Returns what a page has in a cell on one machine that never moved, before this record of the guest. Searches the
/// guest's log backwards, and allocates memory for one page. Fails only if memory runs out.
pub(crate) fn held_at(
    alloc: Global,
    session: &Session,
    page: PageNo,
    cell: u16,
    to: usize,
) -> Result<CellValue, AllocError>
    requires page { page < session.now.geometry.pages }
    requires cell { cell < session.now.geometry.cells }
    requires within { to ≤ length session.now.guest }
    ensures cell { IfOk result (λ held. held.cell ≡ cell) }
    ensures held { IfOk result (IsHeld session.now to page) }
{
    session.keeps_limits();
    let guest = session.guest();
    let by = last_of(session, &GuestQuestion::Sets(page, cell), guest, to);
    let value = match by {
        Some(n) => set_by(guest, n),
        None => initial_of(alloc, session, page, cell)?,
    };
    Ok(CellValue { cell, value, by })
}

/// Returns what one machine that never moved gives instead of a read, which is the guest's record of this number, or
/// `None` if that is not a read. Searches the guest's log backwards, and allocates memory for one page. Fails only if
/// memory runs out.
pub fn instead_of(
    alloc: Global,
    session: &Session,
    n: usize,
) -> Result<Option<CellValue>, AllocError>
    requires { n < length session.now.guest }
    ensures read { IfOk result (λ held. (vcpu page cell value : ℕ) → slice_get session.now.guest n ≡ Some (Read vcpu page cell value) → MatchOption held ⊥ (IsInstead session.now n page cell)) }
    ensures other { IfOk result (λ held. passes is_read (slice_get session.now.guest n) ≡ false → held ≡ None) }
{
    session.keeps_limits();
    let GuestRec::Read { page, cell, .. } = session.guest()[n] else {
        return Ok(None);
    };
    Ok(Some(held_at(alloc, session, page, cell, n)?))
}

/// Returns the first cell in which these contents differ from the values of a page.
fn first_other(session: &Session, contents: &[u64], cells: &[u64]) -> Option<u16>
    requires contents { length contents.now ≡ session.now.geometry.cells }
    requires cells { length cells.now ≡ session.now.geometry.cells }
    ensures { MatchOption result (AreSame contents.now (slice_index cells.now) session.now.geometry.cells) (IsFirstOther contents.now (slice_index cells.now) session.now.geometry.cells) }
{
    session.keeps_limits();
    let count = session.geometry().cells();
    for index in 0..count {
        if contents[index as usize] != cells[index as usize] {
            return Some(index as u16);
        }
    }
    None
}

/// Returns the first cell in which these contents differ from the page's at the halt, with what the page has there, or
/// `None` if they are the page's. Makes one pass over the guest's log, and allocates memory for one page. Fails only if
/// memory runs out.
pub fn other_of(
    alloc: Global,
    session: &Session,
    page: PageNo,
    contents: &[u64],
) -> Result<Option<CellValue>, AllocError>
    requires page { page < session.now.geometry.pages }
    requires contents { length contents.now ≡ session.now.geometry.cells }
    ensures { IfOk result (λ held. MatchOption held ((c : ℕ) → c < session.now.geometry.cells → slice_index contents.now c ≡ flat session.now (at_halt session.now) page c) (IsOther session.now page contents.now)) }
{
    session.keeps_limits();
    let halt = halt_place(session.guest());
    let cells = cells_before(alloc, session, page, halt)?;
    match first_other(session, contents, &cells) {
        Some(cell) => Ok(Some(held_at(alloc, session, page, cell, halt)?)),
        None => Ok(None),
    }
}
