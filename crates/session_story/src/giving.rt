//! The placement that may have given a read its value.

ghost use Rattle.std.specs.Prelude.{◌<◌, ◌≤◌, ℕ, nat_le, Decides, MatchOption, length};
ghost use Rattle.migration_types.specs.Sessions.{IsSession};
ghost use Rattle.session_story.specs.Giving.{IsFirstGiver, IsGiver, MayBeLast, MayFollowChange, MayGive, MayPrecede, is_unseen};

use crate::looks::{Look, greatest_look};
use crate::questions::{GuestQuestion, PagerQuestion};
use crate::scans::{first_of, last_of};
use migration_types::{GuestRec, PageNo, Session};

/// Returns the look that reached furthest before the last record before this one of the guest that writes the cell or
/// releases its page.
fn seen_before_change(session: &Session, page: PageNo, cell: u16, n: usize) -> Option<Look>
    requires { n ≤ length session.now.guest }
    ensures { (q : ℕ) → Decides (is_unseen result q) (MayFollowChange session.now n page cell q) }
{
    session.keeps_limits();
    match last_of(
        session,
        &GuestQuestion::Sets(page, cell),
        session.guest(),
        n,
    ) {
        Some(change) => greatest_look(session, change as usize),
        None => None,
    }
}

/// Returns the least number of a record of the pager behind which each placement of the page may follow this record of
/// the guest.
fn last_seen(session: &Session, page: PageNo, n: usize) -> u32
    requires { n ≤ length session.now.guest }
    ensures { (q : ℕ) → Decides (nat_le result q) (MayBeLast session.now n page q) }
{
    session.keeps_limits();
    let Some(look) = greatest_look(session, n) else {
        return 0;
    };
    let question = PagerQuestion::PlacesUpTo(page, look.placement);
    let pager = session.pager();
    match last_of(session, &question, pager, pager.len()) {
        Some(place) => place,
        None => 0,
    }
}

/// Returns whether an order may have this record of the pager before this one of the guest.
fn may_precede(session: &Session, place: u32, n: usize) -> bool
    requires { n < length session.now.guest }
    ensures { Decides result (MayPrecede session.now place n) }
{
    session.keeps_limits();
    match first_of(
        session,
        &PagerQuestion::KnowsBehind(n as u32),
        session.pager(),
    ) {
        Some(known) => place <= known,
        None => true,
    }
}

/// Returns the first placement that may have given a cell of a page this value before the guest's record of this number.
fn first_giver(session: &Session, n: usize, page: PageNo, cell: u16, value: u64) -> Option<u32>
    requires { n < length session.now.guest }
    ensures { MatchOption result ((q : ℕ) → MayGive session.now n page cell value q → ⊥) (IsFirstGiver session.now n page cell value) }
{
    session.keeps_limits();
    let question = PagerQuestion::Puts {
        page,
        cell,
        value,
        behind: seen_before_change(session, page, cell, n),
        from: last_seen(session, page, n),
    };
    match first_of(session, &question, session.pager()) {
        Some(place) => {
            if may_precede(session, place, n) {
                Some(place)
            } else {
                None
            }
        }
        None => None,
    }
}

/// Returns the first placement that may have given its value to the read that is the guest's record of this number, or
/// `None` if there is none, or if that is not a read. Makes a few passes over the logs, and allocates no memory.
pub fn giver_of(session: &Session, n: usize) -> Option<u32>
    requires { n < length session.now.guest }
    ensures { MatchOption result ((q : ℕ) → IsGiver session.now n q → ⊥) (IsGiver session.now n) }
{
    let GuestRec::Read {
        page,
        cell,
        value,
        ..
    } = session.guest()[n]
    else {
        return None;
    };
    first_giver(session, n, page, cell, value)
}
