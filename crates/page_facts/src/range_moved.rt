//! What was sent and placed of the pages of a range, in one pass over each log.

ghost use Rattle.std.specs.Prelude.{◌≡◌, length, MatchOption};
ghost use Rattle.migration_types.specs.Sessions.{IsSession};
ghost use Rattle.audit_model.specs.Flat.{at_halt};
ghost use Rattle.page_facts.specs.Ranges.{AreSeen};
ghost use Rattle.page_facts.specs.Columns.{IsOutside, IsAt, AreSent, ArePlaced};

use crate::findings::{Placed, WrongSends, take_place, take_send};
use crate::range::Range;
use migration_types::{PageNo, Session};

/// Returns the index of a page in the range.
pub(crate) fn index_of(range: &Range, page: PageNo) -> Option<usize>
    ensures { MatchOption result (IsOutside range.now page) (IsAt range.now page) }
{
    let page = page.index();
    if page < range.first {
        return None;
    }
    let index = page - range.first;
    if index >= range.seen.len() {
        return None;
    }
    Some(index)
}

/// Takes in the source's records: what was sent of each page.
pub(crate) fn run_source(session: &Session, range: &Range, sent: &mut WrongSends)
    requires limits { IsSession session.now }
    requires halted { AreSeen session.now (at_halt session.now) range.now }
    requires sent { AreSent session.now range.now 0 sent.old }
    ensures { AreSent session.now range.now (length session.now.source) sent.new }
{
    let source = session.source();
    for n in 0..source.len() {
        take_send(session, range, sent, &source[n], n);
    }
}

/// Takes in the pager's records: what was placed of each page.
pub(crate) fn run_pager(session: &Session, range: &Range, placed: &mut Placed)
    requires limits { IsSession session.now }
    requires halted { AreSeen session.now (at_halt session.now) range.now }
    requires placed { ArePlaced session.now range.now 0 placed.old }
    ensures { ArePlaced session.now range.now (length session.now.pager) placed.new }
{
    let pager = session.pager();
    for n in 0..pager.len() {
        take_place(session, range, placed, &pager[n], n);
    }
}
