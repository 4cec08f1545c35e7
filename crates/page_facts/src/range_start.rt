//! A range of pages as they are at the start.

ghost use Rattle.std.specs.Prelude.{◌≡◌, ◌≤◌, ◌<◌, ◌+◌, length, List, [], IfOk};
ghost use Rattle.migration_types.specs.Limits.{most_pages};
ghost use Rattle.migration_types.specs.Sessions.{IsSession};
ghost use Rattle.page_facts.specs.Ranges.{IsRange};
ghost use Rattle.page_facts.specs.Begun.{AreBegun, IsGiven, AreUnseen};

use crate::range::{PageState, Range};
use crate::range_moved::index_of;
use migration_types::{Geometry, InitPage, PageNo, Session};
use page_store::Store;
use std::alloc::{AllocError, Global};

/// Returns a machine of this many pages, of the size of the session's.
fn machine_of(session: &Session, count: usize) -> Geometry
    requires some { 0 < count }
    requires within { count ≤ session.now.geometry.pages }
    ensures { result ≡ record { size = session.now.geometry.size; pages = count; cells = session.now.geometry.cells } }
{
    session.keeps_limits();
    let geometry = session.geometry();
    match Geometry::with_size(geometry.size(), count as u32, geometry.cells()) {
        Ok(geometry) => geometry,
        Err(_) => unreachable!(),
    }
}

/// Puts an initial page into the range, if it is one of the range.
fn give(range: &mut Range, given: &InitPage)
    requires pages { range.old.cells.geometry.pages ≡ length range.old.seen.items }
    requires few { length range.old.seen.items ≤ most_pages }
    requires content { length given.now.cells ≡ range.old.cells.geometry.cells }
    ensures { IsGiven given.now range.old range.new }
{
    let Some(index) = index_of(range, given.page) else {
        return;
    };
    range
        .cells
        .install(PageNo::new(index as u32), given.cells.as_slice());
}

/// Returns rows for this many pages with nothing seen. Fails only if memory runs out.
fn unseen_for(alloc: Global, count: usize) -> Result<Vec<PageState>, AllocError>
    ensures many { IfOk result (λ seen. length seen.items ≡ count) }
    ensures unseen { IfOk result (λ seen. AreUnseen seen.items) }
{
    let unseen = PageState {
        released: false,
        wrong: None,
        touch: None,
        releases: false,
    };
    Ok(vec![in alloc; unseen; count]?)
}

/// Returns a range of zeros. Fails only if memory runs out.
fn zeros_for(
    alloc: Global,
    session: &Session,
    first: usize,
    count: usize,
) -> Result<Range, AllocError>
    requires some { 0 < count }
    requires within { first + count ≤ session.now.geometry.pages }
    ensures { IfOk result (λ g. AreBegun session.now first count [] g) }
{
    let cells = Store::zeroed(alloc, machine_of(session, count))?;
    let seen = unseen_for(alloc, count)?;
    Ok(Range {
        first,
        late: false,
        cells,
        seen,
    })
}

/// Returns the pages of a range as they are at the start. Fails only if memory runs out.
pub(crate) fn range_for(
    alloc: Global,
    session: &Session,
    first: usize,
    count: usize,
) -> Result<Range, AllocError>
    requires limits { IsSession session.now }
    requires some { 0 < count }
    requires within { first + count ≤ session.now.geometry.pages }
    ensures range { IfOk result (λ g. IsRange session.now 0 g) }
    ensures first { IfOk result (λ g. g.first ≡ first) }
    ensures many { IfOk result (λ g. length g.seen.items ≡ count) }
{
    let mut range = zeros_for(alloc, session, first, count)?;
    let init = session.init();
    let mut left = init.len();
    while left > 0 {
        left -= 1;
        give(&mut range, &init[left]);
    }
    Ok(range)
}
