//! Whether a page's entry in a certificate is right, given the facts of the page.

ghost use Rattle.std.specs.Prelude.{◌≡◌, ◌↔◌, IsTrue, slice_get};
ghost use Rattle.audit_model.specs.Shape.{passes};
ghost use Rattle.audit_model.specs.Certificates.{IsRightEntry};
ghost use Rattle.page_facts.specs.Facts.{IsFacts};
ghost use Rattle.page_facts.specs.inner.EntryTests.{is_place, sees_from, sees_by, zeroes, covers, is_once, is_right_of, is_right_entry};

use crate::facts::PageFacts;
use migration_types::{Entry, First, GuestRec, PageNo, PagerRec, Session};

/// Returns whether guest record n is a look at this placement, or at a later one.
fn sees_from_at(session: &Session, n: u32, place: u32) -> bool
    ensures { result ≡ passes (sees_from place) (slice_get session.now.guest n) }
{
    match session.guest().get(n as usize) {
        Some(GuestRec::See { placement }) => place <= *placement,
        _ => false,
    }
}

/// Returns whether pager record n is a `zero` of the page.
fn zeroes_at(session: &Session, page: PageNo, n: u32) -> bool
    ensures { result ≡ passes (zeroes page) (slice_get session.now.pager n) }
{
    match session.pager().get(n as usize) {
        Some(PagerRec::Zero { page: zeroed }) => zeroed.number() == page.number(),
        _ => false,
    }
}

/// Returns whether guest record n is a look at this placement of a page, or at a later one. The page's first look is one.
fn sees_by(session: &Session, look: Option<u32>, place: u32, n: u32) -> bool
    ensures { result ≡ sees_by session.now look place n }
{
    is_place(look, n) || sees_from_at(session, n, place)
}

/// Returns whether an entry's first touch and its look are right, given the page's first look and first touch.
fn covers(
    session: &Session,
    look: Option<u32>,
    touch: Option<u32>,
    place: u32,
    first: &Option<First>,
) -> bool
    ensures { result ≡ covers session.now look touch place first.now }
{
    match (touch, first) {
        (None, None) => true,
        (Some(touch), Some(first)) => {
            touch == first.access && first.see < touch && sees_by(session, look, place, first.see)
        }
        _ => false,
    }
}

/// Returns whether there is a first record, and it has this number.
fn is_place(first: Option<u32>, place: u32) -> bool
    ensures { result ≡ is_place first place }
{
    match first {
        Some(n) => n == place,
        None => false,
    }
}

/// Returns whether this is the page's only placement, and is what the page is at the halt.
fn is_once(facts: &PageFacts, place: u32) -> bool
    ensures { result ≡ is_once facts.now place }
{
    is_place(facts.placement, place) && !facts.again && !facts.altered
}

/// Returns whether an entry is right, apart from the page's reads and sends.
fn is_right_of(session: &Session, page: PageNo, facts: &PageFacts, entry: &Entry) -> bool
    ensures { result ≡ is_right_of session.now page facts.now entry.now }
{
    match entry {
        Entry::Nothing => facts.placement.is_none() && facts.touch.is_none(),
        Entry::Fresh { first } => {
            facts.placement.is_none() && is_place(facts.touch, *first) && facts.releases
        }
        Entry::Source { send, place, first } => {
            is_place(facts.sent, *send)
                && is_once(facts, *place)
                && covers(session, facts.look, facts.touch, *place, first)
        }
        Entry::Balloon { place, first } => {
            zeroes_at(session, page, *place)
                && is_once(facts, *place)
                && covers(session, facts.look, facts.touch, *place, first)
        }
    }
}

/// Returns whether an entry passes all tests.
fn passes_tests(session: &Session, page: PageNo, facts: &PageFacts, entry: &Entry) -> bool
    ensures { result ≡ is_right_entry session.now page facts.now entry.now }
{
    !facts.wrong_read && !facts.wrong_send && is_right_of(session, page, facts, entry)
}

/// Returns whether an entry of a certificate is right for a page with these facts. Looks at a few records, and
/// allocates no memory.
pub fn is_right_entry(session: &Session, page: PageNo, facts: &PageFacts, entry: &Entry) -> bool
    requires { IsFacts session.now page facts.now }
    ensures { IsTrue result ↔ IsRightEntry session.now page entry.now }
{
    passes_tests(session, page, facts, entry)
}
