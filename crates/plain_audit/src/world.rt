//! The moving world, computed plainly and slowly: what it holds at one cell of one page after the first records of an
//! order, by doing each of these.

ghost use Rattle.std.specs.Prelude.{◌≡◌, ◌≤◌, ◌↔◌, IsTrue, MatchOption, length, slice_get, slice_index};
ghost use Rattle.migration_types.specs.Sessions.{IsSession};
ghost use Rattle.migration_types.specs.declared.records.LogName.TheVariants.{Guest, Source, Link, Lane, Pager};
ghost use Rattle.audit_model.specs.Shape.{keeps};
ghost use Rattle.audit_model.specs.World.{world_after, memory_at, Demand, IsSafeOrder, IsFirstBroken};
ghost use Rattle.plain_audit.specs.Spots.{spot_at, spot_written, spot_released, spot_read, spot_placed, guest_spot, pager_spot, spot_step};
ghost use Rattle.plain_audit.specs.inner.DemandTests.{finds, value_at, is_source_page, guest_test, source_test, pager_test, demand_test};

use crate::flat::{flat_value, initial_value};
use audit_model::Home;
use migration_types::{GuestRec, LogName, PageNo, PagerRec, Session, SourceRec};

/// What the world holds at one cell of one page: where the guest is, the cell's value on both machines, whether the
/// page is resident, placed or touched at the target, and whether it is released.
#[derive(Clone, Copy, Debug, PartialEq, Eq)]
pub struct Spot {
    pub home: Home,
    pub source: u64,
    pub target: u64,
    pub resident: bool,
    pub placed: bool,
    pub touched: bool,
    pub released: bool,
}

/// Returns the spot after a write, of the page or not, and of the cell or not.
fn written(spot: Spot, is_page: bool, is_cell: bool, value: u64) -> Spot
    ensures { result ≡ spot_written spot.home is_page is_cell value spot }
{
    let mut after = spot;
    match spot.home {
        Home::AtSource => {
            if is_page && is_cell {
                after.source = value;
            }
            if is_page {
                after.released = false;
            }
        }
        Home::Nowhere => {}
        Home::AtTarget => {
            if is_page && is_cell && spot.resident {
                after.target = value;
            }
            if is_page {
                after.touched = true;
            }
        }
    }
    after
}

/// Returns the spot after a release, of the page or not.
fn released(spot: Spot, is_page: bool) -> Spot
    ensures { result ≡ spot_released spot.home is_page spot }
{
    let mut after = spot;
    match spot.home {
        Home::AtSource => {
            if is_page {
                after.source = 0;
                after.released = true;
            }
        }
        Home::Nowhere => {}
        Home::AtTarget => {
            if is_page {
                after.resident = true;
                after.target = 0;
                after.touched = true;
            }
        }
    }
    after
}

/// Returns the spot after a read, of the page or not.
fn read(spot: Spot, is_page: bool) -> Spot
    ensures { result ≡ spot_read spot.home is_page spot }
{
    let mut after = spot;
    if matches!(spot.home, Home::AtTarget) && is_page {
        after.touched = true;
    }
    after
}

/// Returns the spot after a placement, of the page or not.
fn placed(spot: Spot, is_page: bool, value: u64) -> Spot
    ensures { result ≡ spot_placed is_page value spot }
{
    let mut after = spot;
    if is_page {
        after.target = value;
        after.resident = true;
        after.placed = true;
    }
    after
}

/// Returns the spot after a record of the guest.
fn after_guest(spot: Spot, page: PageNo, cell: u16, logged: &GuestRec) -> Spot
    ensures { result ≡ guest_spot page cell logged.now spot }
{
    match *logged {
        GuestRec::Read { page: p, .. } => read(spot, p.number() == page.number()),
        GuestRec::Write {
            page: p,
            cell: c,
            value,
            ..
        } => written(spot, p.number() == page.number(), c == cell, value),
        GuestRec::Release { page: p, .. } => released(spot, p.number() == page.number()),
        GuestRec::Halt => Spot {
            home: Home::Nowhere,
            ..spot
        },
        GuestRec::Resume { .. } => Spot {
            home: Home::AtTarget,
            ..spot
        },
        GuestRec::Miss { .. } | GuestRec::See { .. } => spot,
    }
}

/// Returns a value of the contents, or 0 beyond them.
fn value_at(contents: &[u64], cell: u16) -> u64
    ensures { result ≡ slice_index contents.now cell }
{
    match contents.get(cell as usize) {
        Some(value) => *value,
        None => 0,
    }
}

/// Returns the spot after a record of the pager.
fn after_pager(spot: Spot, page: PageNo, cell: u16, logged: &PagerRec) -> Spot
    ensures { result ≡ pager_spot page cell logged.now spot }
{
    match logged {
        PagerRec::Place {
            page: p,
            contents,
            ..
        } => {
            let value = value_at(contents.as_slice(), cell);
            placed(spot, p.number() == page.number(), value)
        }
        PagerRec::Zero { page: p } => placed(spot, p.number() == page.number(), 0),
        _ => spot,
    }
}

/// Returns the spot after the record at this place of a log.
fn after_record(
    session: &Session,
    spot: Spot,
    page: PageNo,
    cell: u16,
    log: LogName,
    place: u32,
) -> Spot
    ensures { result ≡ spot_step session.now page cell (log, place) spot }
{
    match log {
        LogName::Guest => match session.guest().get(place as usize) {
            Some(logged) => after_guest(spot, page, cell, logged),
            None => spot,
        },
        LogName::Source | LogName::Link | LogName::Lane => spot,
        LogName::Pager => match session.pager().get(place as usize) {
            Some(logged) => after_pager(spot, page, cell, logged),
            None => spot,
        },
    }
}

/// Returns what the world holds at one cell of one page after the records with these names. Does each of them.
pub fn spot_after(session: &Session, order: &[(LogName, u32)], page: PageNo, cell: u16) -> Spot
    ensures { result ≡ spot_at (world_after session.now order.now) page cell }
{
    let mut spot = Spot {
        home: Home::AtSource,
        source: initial_value(session.init(), page, cell),
        target: 0,
        resident: false,
        placed: false,
        touched: false,
        released: false,
    };
    for at in 0..order.len() {
        spot = after_record(session, spot, page, cell, order[at].0, order[at].1);
    }
    spot
}

/// Returns whether a use of the page finds it: the guest is at the source, or at the target with the page resident.
fn finds(spot: Spot) -> bool
    ensures { result ≡ finds spot.home spot.resident }
{
    match spot.home {
        Home::AtSource => true,
        Home::Nowhere => false,
        Home::AtTarget => spot.resident,
    }
}

/// Returns the cell's value where the guest is.
fn value_where_it_is(spot: Spot) -> u64
    ensures { result ≡ value_at spot.home spot.source spot.target }
{
    match spot.home {
        Home::AtSource => spot.source,
        Home::Nowhere | Home::AtTarget => spot.target,
    }
}

/// Returns whether the contents are those of the source's page after the records of these names.
fn is_source_page(
    session: &Session,
    order: &[(LogName, u32)],
    page: PageNo,
    contents: &[u64],
) -> bool
    requires { IsSession session.now }
    ensures { result ≡ is_source_page session.now (world_after session.now order.now) page contents.now }
{
    let cells = session.geometry().cells();
    if contents.len() != cells as usize {
        return false;
    }
    for cell in 0..cells {
        let spot = spot_after(session, order, page, cell as u16);
        if contents[cell as usize] != spot.source {
            return false;
        }
    }
    true
}

/// Returns whether the demand of a record of the guest holds after the records of these names.
fn guest_demand(
    session: &Session,
    order: &[(LogName, u32)],
    place: usize,
    logged: &GuestRec,
) -> bool
    requires { place ≤ length session.now.guest }
    ensures { result ≡ guest_test session.now (world_after session.now order.now) place logged.now }
{
    match *logged {
        GuestRec::Read {
            page,
            cell,
            value,
            ..
        } => {
            let spot = spot_after(session, order, page, cell);
            finds(spot)
                && value == value_where_it_is(spot)
                && value == flat_value(session, place, page, cell)
        }
        GuestRec::Write { page, .. } => finds(spot_after(session, order, page, 0)),
        _ => true,
    }
}

/// Returns whether the demand of a record of the source holds after the records of these names.
fn source_demand(session: &Session, order: &[(LogName, u32)], logged: &SourceRec) -> bool
    requires { IsSession session.now }
    ensures { result ≡ source_test session.now (world_after session.now order.now) logged.now }
{
    match logged {
        SourceRec::Send { page, contents } => {
            let spot = spot_after(session, order, *page, 0);
            !matches!(spot.home, Home::AtSource)
                && !spot.released
                && is_source_page(session, order, *page, contents.as_slice())
        }
        _ => true,
    }
}

/// Returns whether the demand of a record of the pager holds after the records of these names.
fn pager_demand(session: &Session, order: &[(LogName, u32)], logged: &PagerRec) -> bool
    requires { IsSession session.now }
    ensures { result ≡ pager_test session.now (world_after session.now order.now) logged.now }
{
    match logged {
        PagerRec::Place { page, contents, .. } => {
            let spot = spot_after(session, order, *page, 0);
            !spot.placed
                && !spot.touched
                && is_source_page(session, order, *page, contents.as_slice())
        }
        PagerRec::Zero { page } => {
            let spot = spot_after(session, order, *page, 0);
            !spot.placed && !spot.touched && spot.released
        }
        _ => true,
    }
}

/// Returns whether the demand of the record at this place of a log passes its test after the records with these names.
fn tests_demand(session: &Session, order: &[(LogName, u32)], log: LogName, place: u32) -> bool
    requires { IsSession session.now }
    ensures { result ≡ demand_test session.now (world_after session.now order.now) (log, place) }
{
    match log {
        LogName::Guest => match session.guest().get(place as usize) {
            Some(logged) => guest_demand(session, order, place as usize, logged),
            None => true,
        },
        LogName::Source => match session.source().get(place as usize) {
            Some(logged) => source_demand(session, order, logged),
            None => true,
        },
        LogName::Link | LogName::Lane => true,
        LogName::Pager => match session.pager().get(place as usize) {
            Some(logged) => pager_demand(session, order, logged),
            None => true,
        },
    }
}

/// Returns whether the demand of the record at this place of a log holds after the records with these names.
pub fn demand_holds(session: &Session, order: &[(LogName, u32)], log: LogName, place: u32) -> bool
    ensures { IsTrue result ↔ Demand session.now (log, place) (world_after session.now order.now) }
{
    session.keeps_limits();
    tests_demand(session, order, log, place)
}

/// Returns the first record of an order whose demand fails, or `None` if the order is safe.
pub fn first_broken(session: &Session, order: &[(LogName, u32)]) -> Option<(LogName, u32)>
    ensures { MatchOption result (IsSafeOrder session.now order.now) (IsFirstBroken session.now order.now) }
{
    for at in 0..order.len() {
        let (log, place) = order[at];
        if !demand_holds(session, &order[..at], log, place) {
            return Some((log, place));
        }
    }
    None
}
