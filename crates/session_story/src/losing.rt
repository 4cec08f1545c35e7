//! What the cell of a read had at the halt, and the change of the cell that the read does not show.

ghost use Rattle.std.specs.Prelude.{◌<◌, ◌≤◌, ℕ, Option, IfOk, MatchOption, length};
ghost use Rattle.session_story.specs.Losing.{IsLost, IsLostAt, IsOlder};
ghost use Rattle.session_story.specs.Values.{IsOtherAtHalt};

use crate::questions::GuestQuestion;
use crate::scans::last_of;
use crate::values::{CellValue, held_at, initial_of};
use migration_types::{GuestRec, PageNo, Session};
use page_facts::halt_place;
use std::alloc::{AllocError, Global};

/// A change of a cell that a read does not show: it gives a value that the cell had before.
#[derive(Clone, Copy)]
pub struct Lost {
    /// The guest's last record before the read that writes the cell or releases its page.
    pub change: u32,
    /// The last record before the change that gave the cell the value that is read, or `None` if the cell began with it.
    pub since: Option<u32>,
}

/// Returns what the cell of a read, which is the guest's record of this number, had at the halt, or `None` if the read
/// gives just this, or if the record is not a read. Searches the guest's log backwards, and allocates memory for one
/// page. Fails only if memory runs out.
pub fn other_at_halt(
    alloc: Global,
    session: &Session,
    n: usize,
) -> Result<Option<CellValue>, AllocError>
    requires { n < length session.now.guest }
    ensures { IfOk result (λ held. MatchOption held ((h : CellValue) → IsOtherAtHalt session.now n h → ⊥) (IsOtherAtHalt session.now n)) }
{
    session.keeps_limits();
    let GuestRec::Read {
        page,
        cell,
        value,
        ..
    } = session.guest()[n]
    else {
        return Ok(None);
    };
    let halt = halt_place(session.guest());
    let held = held_at(alloc, session, page, cell, halt)?;
    if held.value == value {
        Ok(None)
    } else {
        Ok(Some(held))
    }
}

/// Returns this change of a cell, if the cell had this value before.
fn lost_at(
    alloc: Global,
    session: &Session,
    page: PageNo,
    cell: u16,
    value: u64,
    change: u32,
) -> Result<Option<Lost>, AllocError>
    requires page { page < session.now.geometry.pages }
    requires cell { cell < session.now.geometry.cells }
    requires within { change ≤ length session.now.guest }
    ensures { IfOk result (λ lost. MatchOption lost ((since : Option ℕ) → IsOlder session.now page cell value change since → ⊥) (IsLostAt session.now page cell value change)) }
{
    session.keeps_limits();
    let question = GuestQuestion::Gives { page, cell, value };
    let since = last_of(session, &question, session.guest(), change as usize);
    match since {
        Some(_) => Ok(Some(Lost { change, since })),
        None => {
            if initial_of(alloc, session, page, cell)? == value {
                Ok(Some(Lost { change, since }))
            } else {
                Ok(None)
            }
        }
    }
}

/// Returns the last change of a cell before the read that is the guest's record of this number, if the read gives a
/// value that the cell had before this change. Returns `None` if it does not, or if the record is not a read. Searches
/// the guest's log backwards, and allocates memory for one page. Fails only if memory runs out.
pub fn lost_by(alloc: Global, session: &Session, n: usize) -> Result<Option<Lost>, AllocError>
    requires { n < length session.now.guest }
    ensures { IfOk result (λ lost. MatchOption lost ((l : Lost) → IsLost session.now n l → ⊥) (IsLost session.now n)) }
{
    session.keeps_limits();
    let GuestRec::Read {
        page,
        cell,
        value,
        ..
    } = session.guest()[n]
    else {
        return Ok(None);
    };
    match last_of(
        session,
        &GuestQuestion::Sets(page, cell),
        session.guest(),
        n,
    ) {
        Some(change) => lost_at(alloc, session, page, cell, value, change),
        None => Ok(None),
    }
}
