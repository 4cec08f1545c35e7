//! The right shape, computed plainly and slowly: whether one record has a fault, by looking at what it names and at
//! each earlier record of its log.

ghost use Rattle.std.specs.Prelude.{◌≡◌, ◌≤◌, length, slice_get};
ghost use Rattle.migration_types.specs.declared.records.LogName.TheVariants.{Guest, Source, Link, Lane, Pager};
ghost use Rattle.audit_model.specs.Shape.{passes, is_halt, is_resume, is_state, is_send_of, is_sending, is_placement, delivery, is_or_repeats, delivers, earlier, in_phase, guest_named, source_named, link_named, lane_named, pager_named, source_start, pager_start, is_first_send, is_right};

use audit_model::{
    ShapeReason, guest_named, in_phase, is_alone, is_halt, is_resume, is_send_of, lane_named,
    link_named, pager_named, pager_start, source_named, source_start,
};
use migration_types::{GuestRec, LinkRec, LogName, PageNo, PagerRec, Session, SourceRec};

/// Returns whether a record of the guest before this place is a halt.
fn halted_before(session: &Session, place: usize) -> bool
    requires { place ≤ length session.now.guest }
    ensures { result ≡ earlier is_halt session.now.guest place }
{
    let mut found = false;
    for record in &session.guest()[..place] {
        found = is_halt(record) || found;
    }
    found
}

/// Returns whether a record of the guest before this place is a resume.
fn resumed_before(session: &Session, place: usize) -> bool
    requires { place ≤ length session.now.guest }
    ensures { result ≡ earlier is_resume session.now.guest place }
{
    let mut found = false;
    for record in &session.guest()[..place] {
        found = is_resume(record) || found;
    }
    found
}

/// Returns whether a record of the source before this place sends the page.
fn sent_before(session: &Session, place: usize, page: PageNo) -> bool
    requires { place ≤ length session.now.source }
    ensures { result ≡ earlier (is_send_of page) session.now.source place }
{
    let mut found = false;
    for record in &session.source()[..place] {
        found = is_send_of(record, page) || found;
    }
    found
}

/// Returns whether the phase allows the guest's record at this place.
fn stands_in_phase(session: &Session, place: usize, logged: &GuestRec) -> bool
    requires { place ≤ length session.now.guest }
    ensures { result ≡ in_phase session.now place logged.now }
{
    in_phase(
        session.version(),
        logged,
        halted_before(session, place),
        resumed_before(session, place),
    )
}

/// Returns whether the source's record at this place is not a second send of its page.
fn is_first_send(session: &Session, place: usize, logged: &SourceRec) -> bool
    requires { place ≤ length session.now.source }
    ensures { result ≡ is_first_send session.now place logged.now }
{
    match logged {
        SourceRec::Send { page, .. } => !sent_before(session, place, *page),
        _ => true,
    }
}

/// Returns whether the guest's record at this place has no fault of shape for this reason.
fn is_right_guest(session: &Session, reason: ShapeReason, place: usize) -> bool
    ensures { result ≡ is_right session.now reason (Guest, place) }
{
    let Some(record) = session.guest().get(place) else {
        return true;
    };
    match reason {
        ShapeReason::Phases => stands_in_phase(session, place, record),
        ShapeReason::Named => guest_named(session, record),
        ShapeReason::Start | ShapeReason::SecondSend | ShapeReason::Both => true,
    }
}

/// Returns whether the source's record at this place has no fault of shape for this reason.
fn is_right_source(session: &Session, reason: ShapeReason, place: usize) -> bool
    ensures { result ≡ is_right session.now reason (Source, place) }
{
    let Some(record) = session.source().get(place) else {
        return true;
    };
    match reason {
        ShapeReason::Phases => true,
        ShapeReason::Named => source_named(session, place, record),
        ShapeReason::Start => source_start(session, place, record),
        ShapeReason::SecondSend => is_first_send(session, place, record),
        ShapeReason::Both => is_alone(session, record),
    }
}

/// Returns whether the link's record at this place has no fault of shape for this reason.
fn is_right_link(session: &Session, reason: ShapeReason, place: usize) -> bool
    ensures { result ≡ is_right session.now reason (Link, place) }
{
    let Some(record) = session.link().get(place) else {
        return true;
    };
    match reason {
        ShapeReason::Named => link_named(session, record),
        ShapeReason::Phases | ShapeReason::Start | ShapeReason::SecondSend | ShapeReason::Both =>
            true,
    }
}

/// Returns whether the lane's record at this place has no fault of shape for this reason.
fn is_right_lane(session: &Session, reason: ShapeReason, place: usize) -> bool
    ensures { result ≡ is_right session.now reason (Lane, place) }
{
    let Some(record) = session.lane().get(place) else {
        return true;
    };
    match reason {
        ShapeReason::Named => lane_named(session, record),
        ShapeReason::Phases | ShapeReason::Start | ShapeReason::SecondSend | ShapeReason::Both =>
            true,
    }
}

/// Returns whether the pager's record at this place has no fault of shape for this reason.
fn is_right_pager(session: &Session, reason: ShapeReason, place: usize) -> bool
    ensures { result ≡ is_right session.now reason (Pager, place) }
{
    let Some(record) = session.pager().get(place) else {
        return true;
    };
    match reason {
        ShapeReason::Named => pager_named(session, place, record),
        ShapeReason::Start => pager_start(session, place, record),
        ShapeReason::Phases | ShapeReason::SecondSend | ShapeReason::Both => true,
    }
}

/// Returns whether the record at this place of a log has no fault of shape for this reason. A record that does not
/// exist has none.
pub fn is_right(session: &Session, reason: ShapeReason, log: LogName, place: usize) -> bool
    ensures { result ≡ is_right session.now reason (log, place) }
{
    match log {
        LogName::Guest => is_right_guest(session, reason, place),
        LogName::Source => is_right_source(session, reason, place),
        LogName::Link => is_right_link(session, reason, place),
        LogName::Lane => is_right_lane(session, reason, place),
        LogName::Pager => is_right_pager(session, reason, place),
    }
}
