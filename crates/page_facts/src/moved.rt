//! What was sent and placed of a page.

ghost use Rattle.std.specs.Prelude.{◌≡◌, ◌<◌, slice_get};
ghost use Rattle.audit_model.specs.Names.{if_there};
ghost use Rattle.audit_model.specs.Shape.{passes, is_send_of};
ghost use Rattle.page_facts.specs.Moved.{differs, sending_of, origin_of};

use audit_model::{delivery, is_send_of};
use migration_types::{Contents, PageNo, PagerRec, Session, SourceRec};
use page_store::Store;

/// Returns whether contents are not those of a page.
pub(crate) fn differs(frames: &Store, page: PageNo, contents: &Contents) -> bool
    requires { page < frames.now.geometry.pages }
    ensures { result ≡ differs frames.now page contents.now }
{
    contents.as_slice() != frames.page(page)
}

/// Returns whether the source's record of this number is a `send` of the page.
fn is_send_at(session: &Session, n: u32, page: PageNo) -> bool
    ensures { result ≡ passes (is_send_of page) (slice_get session.now.source n) }
{
    session
        .source()
        .get(n as usize)
        .is_some_and(|rec| is_send_of(rec, page))
}

/// Returns the `send` of the page that the source's record of this number is, or repeats.
fn sending_of(session: &Session, page: PageNo, n: u32) -> Option<u32>
    ensures { result ≡ if_there (sending_of session.now page n) (slice_get session.now.source n) }
{
    match session.source().get(n as usize)? {
        SourceRec::Send { page: sent, .. } if sent.number() == page.number() => Some(n),
        SourceRec::Again { sending } if is_send_at(session, *sending, page) => Some(*sending),
        _ => None,
    }
}

/// Returns the `send` of the page whose contents a placement of the page has.
pub(crate) fn origin_of(session: &Session, page: PageNo, rec: &PagerRec) -> Option<u32>
    ensures { result ≡ origin_of session.now page rec.now }
{
    match rec {
        PagerRec::Place { got, .. } => {
            let delivered = delivery(session, *got)?;
            sending_of(session, page, delivered)
        }
        _ => None,
    }
}
