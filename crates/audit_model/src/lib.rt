//! The meaning of a session's records: mergings of its logs, the flat machine, the moving world, the right shape, right
//! certificates and faults; and the laws about these.
//!
//! The definitions are in `specs/`. A function of [`laws`] carries a law as its contract; a caller calls it to use the
//! law. The other functions say something about one record: its kind, the page that it sends or places, what it
//! delivers, and whether it has the right shape. It has that if its phase allows it, its kind is allowed at its place,
//! and it names what it must.
#![tactic(auto)]

ghost use Rattle.std.specs.Prelude.{◌≡◌, slice_get, ◌==◌, suc, length};
ghost use Rattle.std.specs.List.{list_any};
ghost use Rattle.audit_model.specs.Shape.{is_halt, is_resume, is_miss, is_state, is_send_of, is_sending, goes_down, is_down, is_up, is_ready, is_taking, is_want, goes_up, is_placement, is_placement_of, taken_sending, delivery, is_or_repeats, delivers, passes, may_release, in_phase_by, guest_named, source_named, link_named, lane_named, pager_named, source_start, pager_start, is_alone};

mod home;
mod laws;
mod reasons;

pub use home::Home;
pub use laws::{
    any_size_is_judged_alike, certified_is_safe, clean_is_certified, faults_are_unsafe,
    first_version_is_plain, mergings_are_walks, premises_can_be_met, windows_are_sessions,
    windows_keep_faults, windows_leave_misshapen_records_out, worlds_follow_cursors,
};
use migration_types::{GuestRec, LaneRec, LinkRec, PageNo, PagerRec, Session, SourceRec, Version};
pub use reasons::{PageReason, ShapeReason};

/// Returns whether it is a halt.
pub fn is_halt(rec: &GuestRec) -> bool
    ensures { result ≡ is_halt rec.now }
{
    matches!(rec, GuestRec::Halt)
}

/// Returns whether it is a resume.
pub fn is_resume(rec: &GuestRec) -> bool
    ensures { result ≡ is_resume rec.now }
{
    matches!(rec, GuestRec::Resume { .. })
}

/// Returns whether it is a miss.
pub fn is_miss(rec: &GuestRec) -> bool
    ensures { result ≡ is_miss rec.now }
{
    matches!(rec, GuestRec::Miss { .. })
}

/// Returns whether it sends the processor state.
pub fn is_state(rec: &SourceRec) -> bool
    ensures { result ≡ is_state rec.now }
{
    matches!(rec, SourceRec::State)
}

/// Returns whether it sends the page.
pub fn is_send_of(rec: &SourceRec, page: PageNo) -> bool
    ensures { result ≡ is_send_of page rec.now }
{
    match rec {
        SourceRec::Send { page: sent, .. } => sent.number() == page.number(),
        _ => false,
    }
}

/// Returns whether it is a first sending, which an `again` may repeat.
pub fn is_sending(rec: &SourceRec) -> bool
    ensures { result ≡ is_sending rec.now }
{
    matches!(rec, SourceRec::State | SourceRec::Send { .. })
}

/// Returns whether the link or the lane delivers it down.
fn goes_down(rec: &SourceRec) -> bool
    ensures { result ≡ goes_down rec.now }
{
    matches!(
        rec,
        SourceRec::State | SourceRec::Send { .. } | SourceRec::Again { .. }
    )
}

/// Returns whether it is a delivery down.
fn is_down(rec: &LinkRec) -> bool
    ensures { result ≡ is_down rec.now }
{
    matches!(rec, LinkRec::Down { .. })
}

/// Returns whether it is a delivery up.
fn is_up(rec: &LinkRec) -> bool
    ensures { result ≡ is_up rec.now }
{
    matches!(rec, LinkRec::Up { .. })
}

/// Returns whether it says that the pager is ready.
fn is_ready(rec: &PagerRec) -> bool
    ensures { result ≡ is_ready rec.now }
{
    matches!(rec, PagerRec::Ready)
}

/// Returns whether it takes a delivery, of the link or of the lane.
pub fn is_taking(rec: &PagerRec) -> bool
    ensures { result ≡ is_taking rec.now }
{
    matches!(rec, PagerRec::Got { .. } | PagerRec::Pull { .. })
}

/// Returns whether it asks for a page.
fn is_want(rec: &PagerRec) -> bool
    ensures { result ≡ is_want rec.now }
{
    matches!(rec, PagerRec::Want { .. })
}

/// Returns whether the link delivers it up.
fn goes_up(rec: &PagerRec) -> bool
    ensures { result ≡ goes_up rec.now }
{
    matches!(rec, PagerRec::Want { .. } | PagerRec::All)
}

/// Returns whether it is a placement of some page.
pub fn is_placement(rec: &PagerRec) -> bool
    ensures { result ≡ is_placement rec.now }
{
    matches!(rec, PagerRec::Place { .. } | PagerRec::Zero { .. })
}

/// Returns whether it is a placement of this page.
pub fn is_placement_of(rec: &PagerRec, page: PageNo) -> bool
    ensures { result ≡ is_placement_of page rec.now }
{
    match rec {
        PagerRec::Place { page: placed, .. } => placed.number() == page.number(),
        PagerRec::Zero { page: placed } => placed.number() == page.number(),
        _ => false,
    }
}

/// Returns the source's record whose delivery a record of the pager takes.
fn taken_sending(session: &Session, rec: &PagerRec) -> Option<u32>
    ensures { result ≡ taken_sending session.now rec.now }
{
    match rec {
        PagerRec::Got { down } => match session.link().get(*down as usize)? {
            LinkRec::Down { sending } => Some(*sending),
            LinkRec::Up { .. } => None,
        },
        PagerRec::Pull { down } => match session.lane().get(*down as usize)? {
            LaneRec::Down { sending } => Some(*sending),
        },
        _ => None,
    }
}

/// Returns the source's record whose delivery a `got` or a `pull` takes.
pub fn delivery(session: &Session, got: u32) -> Option<u32>
    ensures { result ≡ delivery session.now got }
{
    taken_sending(session, session.pager().get(got as usize)?)
}

/// Returns whether a `got` or a `pull` takes the processor state, or a repeat of it.
fn delivers_state(session: &Session, got: u32) -> bool
    ensures { result ≡ delivers session.now is_state got }
{
    let Some(sending) = delivery(session, got) else {
        return false;
    };
    let source = session.source();
    match source.get(sending as usize) {
        Some(SourceRec::State) => true,
        Some(SourceRec::Again { sending }) => source.get(*sending as usize).is_some_and(is_state),
        _ => false,
    }
}

/// Returns whether the source's record of this number is a `send` of the page, or a repeat of it.
pub fn sends(session: &Session, page: PageNo, sending: u32) -> bool
    ensures { result ≡ passes (is_or_repeats session.now (is_send_of page)) (slice_get session.now.source sending) }
{
    let source = session.source();
    match source.get(sending as usize) {
        Some(SourceRec::Again { sending }) => {
            source
                .get(*sending as usize)
                .is_some_and(|rec| is_send_of(rec, page))
        }
        Some(rec) => is_send_of(rec, page),
        None => false,
    }
}

/// Returns whether a `got` or a `pull` takes a `send` of the page, or a repeat of it.
pub fn delivers_send(session: &Session, page: PageNo, got: u32) -> bool
    ensures { result ≡ delivers session.now (is_send_of page) got }
{
    delivery(session, got).is_some_and(|sending| sends(session, page, sending))
}

/// Returns whether the phase allows a release, given whether a halt and a resume came before it.
fn may_release(version: Version, halted: bool, resumed: bool) -> bool
    ensures { result ≡ may_release version halted resumed }
{
    match version {
        Version::One => !halted && !resumed,
        Version::Two => !halted || resumed,
    }
}

/// Returns whether the phase allows a record of the guest in a session of this version, given whether a halt and a
/// resume came before it.
pub fn in_phase(version: Version, rec: &GuestRec, halted: bool, resumed: bool) -> bool
    ensures { result ≡ in_phase_by version halted resumed rec.now }
{
    match rec {
        GuestRec::Halt => !halted,
        GuestRec::Resume { .. } => !resumed && halted,
        GuestRec::Read { .. } | GuestRec::Write { .. } => !halted || resumed,
        GuestRec::Release { .. } => may_release(version, halted, resumed),
        GuestRec::Miss { .. } | GuestRec::See { .. } => resumed,
    }
}

/// Returns whether a record of the guest names a record of the right kind, if it names one.
pub fn guest_named(session: &Session, rec: &GuestRec) -> bool
    ensures { result ≡ guest_named session.now rec.now }
{
    match rec {
        GuestRec::Resume { ready } => session.pager().get(*ready as usize).is_some_and(is_ready),
        GuestRec::See { placement } => session
            .pager()
            .get(*placement as usize)
            .is_some_and(is_placement),
        _ => true,
    }
}

/// Returns whether the source's record at this place names a record of the right kind, if it names one.
pub fn source_named(session: &Session, place: usize, rec: &SourceRec) -> bool
    ensures { result ≡ source_named session.now place rec.now }
{
    match rec {
        SourceRec::Halted { halt } => session.guest().get(*halt as usize).is_some_and(is_halt),
        SourceRec::Ask { up } => session.link().get(*up as usize).is_some_and(is_up),
        SourceRec::Again { sending } => {
            (*sending as usize) < place
                && session
                    .source()
                    .get(*sending as usize)
                    .is_some_and(is_sending)
        }
        _ => true,
    }
}

/// Returns whether the source's record is allowed at this place.
pub fn source_start(session: &Session, place: usize, rec: &SourceRec) -> bool
    ensures { result ≡ source_start session.now place rec.now }
{
    match place {
        0 => matches!(rec, SourceRec::Halted { .. }) && 1 < session.source().len(),
        1 => matches!(rec, SourceRec::State),
        _ => match rec {
            SourceRec::Halted { .. } | SourceRec::State => false,
            SourceRec::Back => is_last(session.source(), place),
            _ => true,
        },
    }
}

/// Returns whether a log ends with the record at this place.
fn is_last(log: &[SourceRec], place: usize) -> bool
    ensures { result ≡ (length log.now == suc place) }
{
    0 < log.len() && log.len() - 1 == place
}

/// Returns whether the guest was resumed. Makes a pass over its log.
pub fn has_resume(guest: &[GuestRec]) -> bool
    ensures { result ≡ list_any is_resume guest.now }
{
    guest.iter().any(is_resume)
}

/// Returns whether it does not start a guest again that was resumed at the target. At a `back`, makes a pass over the
/// guest's log.
pub fn is_alone(session: &Session, rec: &SourceRec) -> bool
    ensures { result ≡ is_alone session.now rec.now }
{
    match rec {
        SourceRec::Back => !has_resume(session.guest()),
        _ => true,
    }
}

/// Returns whether the source has a record at this place that goes down.
fn sends_down(session: &Session, sending: u32) -> bool
    ensures { result ≡ passes goes_down (slice_get session.now.source sending) }
{
    session
        .source()
        .get(sending as usize)
        .is_some_and(goes_down)
}

/// Returns whether a record of the link names a record of the right kind.
pub fn link_named(session: &Session, rec: &LinkRec) -> bool
    ensures { result ≡ link_named session.now rec.now }
{
    match rec {
        LinkRec::Down { sending } => sends_down(session, *sending),
        LinkRec::Up { asking } => session.pager().get(*asking as usize).is_some_and(goes_up),
    }
}

/// Returns whether a record of the lane names a record of the right kind.
pub fn lane_named(session: &Session, rec: &LaneRec) -> bool
    ensures { result ≡ lane_named session.now rec.now }
{
    match rec {
        LaneRec::Down { sending } => sends_down(session, *sending),
    }
}

/// Returns whether the pager's record at this place names a record of the right kind, if it names one.
pub fn pager_named(session: &Session, place: usize, rec: &PagerRec) -> bool
    ensures { result ≡ pager_named session.now place rec.now }
{
    match rec {
        PagerRec::Got { down } => session.link().get(*down as usize).is_some_and(is_down),
        PagerRec::Pull { down } => session.lane().get(*down as usize).is_some(),
        PagerRec::Fault { miss } => session.guest().get(*miss as usize).is_some_and(is_miss),
        PagerRec::Join { want } => {
            (*want as usize) < place && session.pager().get(*want as usize).is_some_and(is_want)
        }
        PagerRec::Skip { got } => (*got as usize) < place
            && session.pager().get(*got as usize).is_some_and(is_taking),
        PagerRec::Place { page, got, .. } => {
            (*got as usize) < place && delivers_send(session, *page, *got)
        }
        _ => true,
    }
}

/// Returns whether the pager's record is allowed at this place.
pub fn pager_start(session: &Session, place: usize, rec: &PagerRec) -> bool
    ensures { result ≡ pager_start session.now place rec.now }
{
    match place {
        0 => is_taking(rec) && delivers_state(session, 0),
        1 => matches!(rec, PagerRec::Ready),
        _ => !matches!(rec, PagerRec::Ready),
    }
}
