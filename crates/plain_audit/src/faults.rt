//! Faults of pages, computed plainly and slowly: whether one record has a fault, by looking at each earlier record.

ghost use Rattle.std.specs.Prelude.{◌≡◌, ◌≤◌, ◌↔◌, IsTrue, length, slice_get};
ghost use Rattle.migration_types.specs.declared.records.LogName.TheVariants.{Guest, Source, Link, Lane, Pager};
ghost use Rattle.migration_types.specs.Sessions.{IsSession};
ghost use Rattle.audit_model.specs.Shape.{is_placement_of, earlier, passes};
ghost use Rattle.audit_model.specs.Faults.{looks_at, has_looked, IsPageFault};
ghost use Rattle.audit_model.specs.Flat.{at_halt};
ghost use Rattle.audit_model.specs.inner.PageFaultTests.{is_uncovered, is_wrong_read, is_early_of, is_early, is_flat_page, is_given, is_stale, is_second, is_altered, is_unfit, is_first_release, some_release, is_over_of, is_over, fault_test};

use crate::flat::{flat_value, halt_place, home_before, is_freed, is_released, is_touched};
use audit_model::{Home, PageReason, is_placement_of};
use migration_types::{GuestRec, LogName, PageNo, PagerRec, Session, SourceRec};

/// Returns whether a record of the pager before this place places the page.
fn placed_before(session: &Session, place: usize, page: PageNo) -> bool
    ensures { result ≡ earlier (is_placement_of page) session.now.pager place }
{
    let mut found = false;
    for n in 0..place {
        found = match session.pager().get(n) {
            Some(logged) => is_placement_of(logged, page) || found,
            None => found,
        };
    }
    found
}

/// Returns whether it is a look at the page's placement, or at a later one.
fn looks_at(session: &Session, logged: &GuestRec, page: PageNo) -> bool
    ensures { result ≡ looks_at session.now page logged.now }
{
    match *logged {
        GuestRec::See { placement } => placed_before(session, placement as usize + 1, page),
        _ => false,
    }
}

/// Returns whether a look before the guest's record at this place covers the page.
fn has_looked(session: &Session, place: usize, page: PageNo) -> bool
    requires { place ≤ length session.now.guest }
    ensures { result ≡ has_looked session.now page place }
{
    let mut found = false;
    for record in &session.guest()[..place] {
        found = looks_at(session, record, page) || found;
    }
    found
}

/// Returns whether the guest is at the target before its record at this place, and no look before it covers the page.
fn is_uncovered(session: &Session, place: usize, page: PageNo) -> bool
    requires { place ≤ length session.now.guest }
    ensures { result ≡ is_uncovered session.now page place }
{
    matches!(home_before(session, place), Home::AtTarget) && !has_looked(session, place, page)
}

/// Returns whether the guest's record at this place reads another value than the flat machine would.
fn is_wrong_read(session: &Session, place: usize) -> bool
    ensures { result ≡ passes (is_wrong_read session.now place) (slice_get session.now.guest place) }
{
    match session.guest().get(place) {
        Some(
            GuestRec::Read {
                page,
                cell,
                value,
                ..
            },
        ) => { *value != flat_value(session, place, *page, *cell) }
        _ => false,
    }
}

/// Returns whether an access of the page by the guest's record at this place is early: at the target, to a page that
/// was not released there before, with no look before it that covers the page.
fn is_early_of(session: &Session, place: usize, page: PageNo) -> bool
    requires { place ≤ length session.now.guest }
    ensures { result ≡ is_early_of session.now page place }
{
    !is_freed(session, place, page) && is_uncovered(session, place, page)
}

/// Returns whether the guest's record at this place, which is `logged`, is an early access.
fn is_early_record(session: &Session, place: usize, logged: &GuestRec) -> bool
    requires { place ≤ length session.now.guest }
    ensures { result ≡ is_early session.now place logged.now }
{
    match logged {
        GuestRec::Read { page, .. } => is_early_of(session, place, *page),
        GuestRec::Write { page, .. } => is_early_of(session, place, *page),
        _ => false,
    }
}

/// Returns whether the guest's record at this place is an early access.
fn is_early(session: &Session, place: usize) -> bool
    ensures { result ≡ passes (is_early session.now place) (slice_get session.now.guest place) }
{
    match session.guest().get(place) {
        Some(logged) => is_early_record(session, place, logged),
        None => false,
    }
}

/// Returns whether the contents are those that the flat machine's page has before the guest's record at this place.
fn is_flat_page(session: &Session, place: usize, page: PageNo, contents: &[u64]) -> bool
    requires limits { IsSession session.now }
    requires within { place ≤ length session.now.guest }
    ensures { result ≡ is_flat_page session.now place page contents.now }
{
    let cells = session.geometry().cells();
    if contents.len() != cells as usize {
        return false;
    }
    for cell in 0..cells {
        if contents[cell as usize] != flat_value(session, place, page, cell as u16) {
            return false;
        }
    }
    true
}

/// Returns whether the source's record at this place sends a page that is released at the halt.
fn is_given(session: &Session, place: usize) -> bool
    ensures { result ≡ passes (is_given session.now) (slice_get session.now.source place) }
{
    match session.source().get(place) {
        Some(SourceRec::Send { page, .. }) => is_released(session, halt_place(session), *page),
        _ => false,
    }
}

/// Returns whether the source's record at this place sends other contents than the page has at the halt.
fn is_stale(session: &Session, place: usize) -> bool
    requires { IsSession session.now }
    ensures { result ≡ passes (is_stale session.now) (slice_get session.now.source place) }
{
    match session.source().get(place) {
        Some(SourceRec::Send { page, contents }) => {
            !is_flat_page(session, halt_place(session), *page, contents.as_slice())
        }
        _ => false,
    }
}

/// Returns whether the pager's record at this place places a page that was placed before.
fn is_second(session: &Session, place: usize) -> bool
    ensures { result ≡ passes (is_second session.now place) (slice_get session.now.pager place) }
{
    match session.pager().get(place) {
        Some(PagerRec::Place { page, .. } | PagerRec::Zero { page }) => {
            placed_before(session, place, *page)
        }
        _ => false,
    }
}

/// Returns whether the pager's record at this place places other contents than the page has at the halt.
fn is_altered(session: &Session, place: usize) -> bool
    requires { IsSession session.now }
    ensures { result ≡ passes (is_altered session.now) (slice_get session.now.pager place) }
{
    match session.pager().get(place) {
        Some(PagerRec::Place { page, contents, .. }) => {
            !is_flat_page(session, halt_place(session), *page, contents.as_slice())
        }
        _ => false,
    }
}

/// Returns whether the pager's record at this place places zeros for a page that is not released at the halt.
fn is_unfit(session: &Session, place: usize) -> bool
    ensures { result ≡ passes (is_unfit session.now) (slice_get session.now.pager place) }
{
    match session.pager().get(place) {
        Some(PagerRec::Zero { page }) => !is_released(session, halt_place(session), *page),
        _ => false,
    }
}

/// Returns whether the guest's record at this place, which is `logged`, releases the page at the target as its first
/// touch there, with no look before it that covers the page.
fn is_first_release(session: &Session, place: usize, page: PageNo, logged: &GuestRec) -> bool
    requires { place ≤ length session.now.guest }
    ensures { result ≡ is_first_release session.now page place logged.now }
{
    match *logged {
        GuestRec::Release { page: its_page, .. } => {
            its_page.number() == page.number()
                && !is_touched(session, place, page)
                && is_uncovered(session, place, page)
        }
        _ => false,
    }
}

/// Returns whether some record of the guest releases the page at the target as its first touch there, with no look
/// before it that covers the page.
fn some_release(session: &Session, page: PageNo) -> bool
    ensures { result ≡ some_release session.now page (length session.now.guest) }
{
    let mut found = false;
    for n in 0..session.guest().len() {
        found = is_first_release(session, n, page, &session.guest()[n]) || found;
    }
    found
}

/// Returns whether a placement of the page by the pager's record at this place is its first, and may come after such a
/// release.
fn is_over_of(session: &Session, place: usize, page: PageNo) -> bool
    ensures { result ≡ is_over_of session.now page place }
{
    !placed_before(session, place, page) && some_release(session, page)
}

/// Returns whether the pager's record at this place is such a placement.
fn is_over(session: &Session, place: usize) -> bool
    ensures { result ≡ passes (is_over session.now place) (slice_get session.now.pager place) }
{
    match session.pager().get(place) {
        Some(PagerRec::Place { page, .. } | PagerRec::Zero { page }) => {
            is_over_of(session, place, *page)
        }
        _ => false,
    }
}

/// Returns whether the record at this place of a log passes the test for a fault for this reason.
fn tests_fault(session: &Session, reason: PageReason, log: LogName, place: usize) -> bool
    requires { IsSession session.now }
    ensures { result ≡ fault_test session.now reason (log, place) }
{
    match (reason, log) {
        (PageReason::Read, LogName::Guest) => is_wrong_read(session, place),
        (PageReason::Early, LogName::Guest) => is_early(session, place),
        (PageReason::Given, LogName::Source) => is_given(session, place),
        (PageReason::Stale, LogName::Source) => is_stale(session, place),
        (PageReason::Twice, LogName::Pager) => is_second(session, place),
        (PageReason::Altered, LogName::Pager) => is_altered(session, place),
        (PageReason::Unfit, LogName::Pager) => is_unfit(session, place),
        (PageReason::Over, LogName::Pager) => is_over(session, place),
        (
            PageReason::Read
            | PageReason::Early
            | PageReason::Given
            | PageReason::Stale
            | PageReason::Twice
            | PageReason::Altered
            | PageReason::Unfit
            | PageReason::Over,
            _,
        ) => false,
    }
}

/// Returns whether the record at this place of a log has a fault of its page for this reason. A record that does not
/// exist has none.
pub fn is_page_fault(session: &Session, reason: PageReason, log: LogName, place: usize) -> bool
    ensures { IsTrue result ↔ IsPageFault session.now reason (log, place) }
{
    session.keeps_limits();
    tests_fault(session, reason, log, place)
}
