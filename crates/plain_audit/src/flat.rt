//! What the guest's log says before one of its records, computed plainly and slowly by looking at each earlier record:
//! the flat machine, the ledger, and where the guest is.

ghost use Rattle.std.specs.Prelude.{◌≡◌, ◌≤◌, length};
ghost use Rattle.migration_types.specs.Memory.{initial};
ghost use Rattle.migration_types.specs.Pages.{AreInitPages};
ghost use Rattle.audit_model.specs.Flat.{cell_after, flat, released_after, in_ledger, home_after, home, marked_late, freed_after, freed, halt_place, at_halt};
ghost use Rattle.audit_model.specs.Worlds.{touch_after, touched};

use audit_model::{Home, is_halt};
use migration_types::{GuestRec, InitPage, PageNo, Session};

/// Returns the value of a cell after a record, if it was `old` before.
fn value_after(page: PageNo, cell: u16, logged: &GuestRec, old: u64) -> u64
    ensures { result ≡ cell_after page cell logged.now old }
{
    match *logged {
        GuestRec::Write {
            page: its_page,
            cell: its_cell,
            value,
            ..
        } => {
            if its_page.number() == page.number() && its_cell == cell {
                value
            } else {
                old
            }
        }
        GuestRec::Release { page: its_page, .. } => {
            if its_page.number() == page.number() {
                0
            } else {
                old
            }
        }
        _ => old,
    }
}

/// Returns the value of a cell in the memory that begins with these pages.
pub(crate) fn initial_value(init: &[InitPage], page: PageNo, cell: u16) -> u64
    ensures { result ≡ initial init.now page cell }
{
    for given in init {
        if given.page.number() == page.number() {
            return match given.cells.as_slice().get(cell as usize) {
                Some(value) => *value,
                None => 0,
            };
        }
    }
    0
}

/// Returns the value of a cell on the flat machine before the guest's record at this place. Looks at each record before
/// it.
pub fn flat_value(session: &Session, place: usize, page: PageNo, cell: u16) -> u64
    requires { place ≤ length session.now.guest }
    ensures { result ≡ flat session.now place page cell }
{
    let mut value = initial_value(session.init(), page, cell);
    for record in &session.guest()[..place] {
        value = value_after(page, cell, record, value);
    }
    value
}

/// Returns whether a page is released after a record, if it was `old` before.
fn released_by(page: PageNo, logged: &GuestRec, old: bool) -> bool
    ensures { result ≡ released_after page logged.now old }
{
    match *logged {
        GuestRec::Write { page: its_page, .. } => its_page.number() != page.number() && old,
        GuestRec::Release { page: its_page, .. } => its_page.number() == page.number() || old,
        _ => old,
    }
}

/// Returns whether a page is released before the guest's record at this place. Looks at each record before it.
pub fn is_released(session: &Session, place: usize, page: PageNo) -> bool
    requires { place ≤ length session.now.guest }
    ensures { result ≡ in_ledger session.now place page }
{
    let mut released = false;
    for record in &session.guest()[..place] {
        released = released_by(page, record, released);
    }
    released
}

/// Returns where the guest is after a record.
fn home_by(logged: &GuestRec, old: Home) -> Home
    ensures { result ≡ home_after logged.now old }
{
    match *logged {
        GuestRec::Halt => Home::Nowhere,
        GuestRec::Resume { .. } => Home::AtTarget,
        _ => old,
    }
}

/// Returns where the guest is before its record at this place. Looks at each record before it.
pub fn home_before(session: &Session, place: usize) -> Home
    requires { place ≤ length session.now.guest }
    ensures { result ≡ home session.now place }
{
    let mut home = Home::AtSource;
    for record in &session.guest()[..place] {
        home = home_by(record, home);
    }
    home
}

/// Returns whether a page is marked after a record that marks pages only at the target, if it was `old` before.
fn marked_by(home: Home, marks: bool, old: bool) -> bool
    ensures { result ≡ marked_late home marks old }
{
    match home {
        Home::AtSource | Home::Nowhere => old,
        Home::AtTarget => marks || old,
    }
}

/// Returns whether a page was released at the target after a record, if it was `old` before, given where the guest is.
fn freed_by(home: Home, page: PageNo, logged: &GuestRec, old: bool) -> bool
    ensures { result ≡ freed_after home page logged.now old }
{
    match *logged {
        GuestRec::Release { page: its_page, .. } => {
            marked_by(home, its_page.number() == page.number(), old)
        }
        _ => old,
    }
}

/// Returns whether the guest has released a page at the target before its record at this place. Looks at each record
/// before it.
pub fn is_freed(session: &Session, place: usize, page: PageNo) -> bool
    requires { place ≤ length session.now.guest }
    ensures { result ≡ freed session.now place page }
{
    let mut freed = false;
    for n in 0..place {
        freed = match session.guest().get(n) {
            Some(logged) => freed_by(home_before(session, n), page, logged, freed),
            None => freed,
        };
    }
    freed
}

/// Returns whether a page was read, written or released at the target after a record, if it was `old` before, given
/// where the guest is.
fn touched_by(home: Home, page: PageNo, logged: &GuestRec, old: bool) -> bool
    ensures { result ≡ touch_after home page logged.now old }
{
    match *logged {
        GuestRec::Read { page: its_page, .. } => {
            marked_by(home, its_page.number() == page.number(), old)
        }
        GuestRec::Write { page: its_page, .. } => {
            marked_by(home, its_page.number() == page.number(), old)
        }
        GuestRec::Release { page: its_page, .. } => {
            marked_by(home, its_page.number() == page.number(), old)
        }
        _ => old,
    }
}

/// Returns whether the guest has read, written or released a page at the target before its record at this place. Looks
/// at each record before it.
pub fn is_touched(session: &Session, place: usize, page: PageNo) -> bool
    requires { place ≤ length session.now.guest }
    ensures { result ≡ touched session.now place page }
{
    let mut touched = false;
    for n in 0..place {
        touched = match session.guest().get(n) {
            Some(logged) => touched_by(home_before(session, n), page, logged, touched),
            None => touched,
        };
    }
    touched
}

/// Returns the place of the guest's halt, or the length of its log if there is none.
pub fn halt_place(session: &Session) -> usize
    ensures value { result ≡ at_halt session.now }
    ensures within { result ≤ length session.now.guest }
{
    let guest = session.guest();
    for place in 0..guest.len() {
        if is_halt(&guest[place]) {
            return place;
        }
    }
    guest.len()
}
