//! The end of a migration: whether the pager said that every owed page had come, after they had, and the source learned
//! of it.

ghost use Rattle.std.specs.Prelude.{◌≡◌, ◌&&◌, ◌||◌, length};
ghost use Rattle.migration_types.specs.Sessions.{IsSession};
ghost use Rattle.page_facts.specs.Moved.{PagerPage};
ghost use Rattle.completeness.specs.Complete.{is_all, is_done, is_end, brings_end, takes_end, has_end, has_done, places_owed, placed_to};
ghost use Rattle.completeness.specs.inner.Walks.{AreSeen};

use crate::pages::LogFacts;
use migration_types::{LinkRec, PagerRec, Session, SourceRec};

/// Returns whether it says that every owed page has come.
fn is_all(rec: &PagerRec) -> bool
    ensures { result ≡ is_all rec.now }
{
    matches!(rec, PagerRec::All)
}

/// Returns whether a record of the source says that it learned of it, after it was told.
fn is_done_behind(told: bool, rec: &SourceRec) -> bool
    ensures { result ≡ (is_done rec.now && told) }
{
    told && matches!(rec, SourceRec::Done)
}

/// Returns whether a record places a page that the target was owed.
fn places_owed(seen: &LogFacts, session: &Session, rec: &PagerRec) -> bool
    requires seen { AreSeen session.now seen.now }
    requires page { PagerPage session.now.geometry.pages rec.now }
    ensures { result ≡ places_owed session.now rec.now }
{
    match rec {
        PagerRec::Place { page, .. } => seen.is_owed(session, *page),
        PagerRec::Zero { page } => seen.is_owed(session, *page),
        _ => false,
    }
}

/// Returns the number after the pager's last record that places an owed page, or 0 if none does. Makes a pass over its
/// log.
pub(crate) fn placed_to(session: &Session, seen: &LogFacts) -> usize
    requires is_session { IsSession session.now }
    requires seen { AreSeen session.now seen.now }
    ensures { result ≡ placed_to session.now (length session.now.pager) }
{
    let pager = session.pager();
    let mut placed = 0;
    for n in 0..pager.len() {
        if places_owed(seen, session, &pager[n]) {
            placed = n + 1;
        }
    }
    placed
}

/// Returns whether the pager's log has an `all` from this number on, which is after its last placement of an owed page.
pub(crate) fn has_end(session: &Session, placed: usize) -> bool
    requires { placed ≡ placed_to session.now (length session.now.pager) }
    ensures { result ≡ has_end session.now }
{
    session.pager().iter().skip(placed).any(is_all)
}

/// Returns whether the pager's record of this number is such an `all`, after the last placement of an owed page.
fn is_end(session: &Session, placed: usize, number: u32) -> bool
    requires { placed ≡ placed_to session.now (length session.now.pager) }
    ensures { result ≡ is_end session.now number }
{
    let number = number as usize;
    number >= placed && session.pager().get(number).is_some_and(is_all)
}

/// Returns whether a record of the link delivers such an `all`.
fn brings_end(session: &Session, placed: usize, rec: &LinkRec) -> bool
    requires { placed ≡ placed_to session.now (length session.now.pager) }
    ensures { result ≡ brings_end session.now rec.now }
{
    match *rec {
        LinkRec::Up { asking } => is_end(session, placed, asking),
        LinkRec::Down { .. } => false,
    }
}

/// Returns whether a record of the source takes such a delivery.
fn takes_end(session: &Session, placed: usize, rec: &SourceRec) -> bool
    requires { placed ≡ placed_to session.now (length session.now.pager) }
    ensures { result ≡ takes_end session.now rec.now }
{
    match rec {
        SourceRec::Ask { up } => session
            .link()
            .get(*up as usize)
            .is_some_and(|rec| brings_end(session, placed, rec)),
        _ => false,
    }
}

/// Returns whether the source was told, by this record or before it.
fn is_told(session: &Session, placed: usize, told: bool, rec: &SourceRec) -> bool
    requires { placed ≡ placed_to session.now (length session.now.pager) }
    ensures { result ≡ (takes_end session.now rec.now || told) }
{
    told || takes_end(session, placed, rec)
}

/// Returns whether the source's log has a `done` after the `ask` of such an `all`. Makes a pass over it.
pub(crate) fn has_done(session: &Session, placed: usize) -> bool
    requires { placed ≡ placed_to session.now (length session.now.pager) }
    ensures { result ≡ has_done session.now }
{
    let source = session.source();
    let mut told = false;
    for n in 0..source.len() {
        let rec = &source[n];
        if is_done_behind(told, rec) {
            return true;
        }
        told = is_told(session, placed, told, rec);
    }
    false
}
