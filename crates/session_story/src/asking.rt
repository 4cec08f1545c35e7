//! Sendings that nobody asked the source for.

ghost use Rattle.std.specs.Prelude.{◌≡◌, ◌<◌, ℕ, length, IfOk};
ghost use Rattle.migration_types.specs.Sessions.{IsSession, SourceRecFits};
ghost use Rattle.page_store.specs.Tables.{pages_of, values, IsWith};
ghost use Rattle.session_story.specs.Counted.{asked_for, brought, is_push, wanted};
ghost use Rattle.session_story.specs.Scans.{how_many};
ghost use Rattle.session_story.specs.inner.Asked.{asked_by, is_unasked};

use migration_types::{LinkRec, PageNo, PagerRec, Session, SourceRec};
use page_store::Table;
use std::alloc::{AllocError, Global};

/// Returns the page that a record of the pager asks for.
fn wanted(rec: &PagerRec) -> Option<PageNo>
    ensures { result ≡ wanted rec.now }
{
    match rec {
        PagerRec::Want { page } => Some(*page),
        _ => None,
    }
}

/// Returns the page that a delivery up asks for.
fn brought(session: &Session, rec: &LinkRec) -> Option<PageNo>
    ensures { result ≡ brought session.now rec.now }
{
    match *rec {
        LinkRec::Up { asking } => wanted(session.pager().get(asking as usize)?),
        LinkRec::Down { .. } => None,
    }
}

/// Returns the page that a record asks the source for.
fn asked_for(session: &Session, rec: &SourceRec) -> Option<PageNo>
    ensures { result ≡ asked_for session.now rec.now }
{
    match rec {
        SourceRec::Ask { up } => brought(session, session.link().get(*up as usize)?),
        _ => None,
    }
}

/// Returns whether a record sends a page that is not asked for.
fn is_unasked(asked: &Table<bool>, _session: &Session, rec: &SourceRec) -> bool
    requires pages { pages_of asked.now ≡ _session.now.geometry.pages }
    requires fits { SourceRecFits _session.now.geometry rec.now }
    ensures { result ≡ is_unasked (values asked.now) rec.now }
{
    match rec {
        SourceRec::Send { page, .. } => !asked.at(*page),
        _ => false,
    }
}

/// Marks the page that a record asks the source for, and unmarks the page that it sends.
fn take_record(asked: &mut Table<bool>, session: &Session, rec: &SourceRec)
    requires pages { pages_of asked.old ≡ session.now.geometry.pages }
    requires fits { SourceRecFits session.now.geometry rec.now }
    ensures { IsWith asked.old asked.new (asked_by session.now rec.now (values asked.old)) }
{
    session.keeps_limits();
    if let Some(page) = asked_for(session, rec) {
        asked.set(page, true);
    } else if let SourceRec::Send { page, .. } = rec {
        asked.set(*page, false);
    }
}

/// Returns how many pages the source sent unasked. Makes one pass over its log, and allocates memory for a mark for
/// each page. Fails only if memory runs out.
pub(crate) fn count_of_pushes(alloc: Global, session: &Session) -> Result<u32, AllocError>
    ensures { IfOk result (λ count. count ≡ how_many (is_push session.now) session.now.source (length session.now.source)) }
{
    session.keeps_limits();
    let source = session.source();
    let mut asked = Table::no_marks(alloc, session.geometry().pages())?;
    let mut count = 0;
    for n in 0..source.len() {
        let rec = &source[n];
        if is_unasked(&asked, session, rec) {
            count += 1;
        }
        take_record(&mut asked, session, rec);
    }
    Ok(count)
}
