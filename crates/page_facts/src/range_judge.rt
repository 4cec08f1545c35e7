//! Judges the pages of a range in one pass over each log.

ghost use Rattle.std.specs.Prelude.{◌≡◌, ◌≤◌, ◌<◌, ◌+◌, length, slice_get, Some, IfOk};
ghost use Rattle.migration_types.specs.Sessions.{IsSession};
ghost use Rattle.audit_model.specs.Flat.{at_halt};
ghost use Rattle.page_facts.specs.Ranges.{AreSeen, IsRange};
ghost use Rattle.page_facts.specs.RangeFindings.{AreReleased, IsJudged};
ghost use Rattle.page_facts.specs.Findings.{IsFindings};

use crate::findings::{Findings, Placed, WrongSends, findings_at};
use crate::looks::first_looks;
use crate::machine::halt_place;
use crate::range::{Range, run_range};
use crate::range_moved::{run_pager, run_source};
use crate::range_start::range_for;
use migration_types::{PageNo, Session};
use std::alloc::{AllocError, Global};

/// What is known about the pages of a range once all logs are read.
#[derive(Drop)]
pub struct RangeFacts {
    /// What was seen of each at the end.
    pub range: Range,
    /// Whether each was released at the halt.
    pub released: Vec<bool>,
    /// What was sent of each.
    pub sent: WrongSends,
    /// What was placed of each.
    pub placed: Placed,
}

/// Returns whether each page of the range is released. Fails only if memory runs out.
fn released_of(_session: &Session, alloc: Global, range: &Range) -> Result<Vec<bool>, AllocError>
    requires { AreSeen _session.now (at_halt _session.now) range.now }
    ensures many { IfOk result (λ column. length column.items ≡ length range.now.seen.items) }
    ensures released { IfOk result (λ column. AreReleased _session.now range.now.first column.items) }
{
    let count = range.seen.len();
    let mut released = Vec::with_capacity(alloc, count)?;
    for index in 0..count {
        released.push(range.seen[index].released)?;
    }
    Ok(released)
}

/// Returns the item at an index.
pub(crate) fn item_at<T: Copy>(column: &Vec<T>, index: usize) -> T
    requires { index < length column.now.items }
    ensures { slice_get column.now.items index ≡ Some result }
{
    column[index]
}

/// Returns what all logs say about the pages of a range that is as at the start. Fails only if memory runs out.
fn judge_from_start(
    alloc: Global,
    session: &Session,
    start: Range,
) -> Result<RangeFacts, AllocError>
    requires limits { IsSession session.now }
    requires start { IsRange session.now 0 start }
    ensures judged { IfOk result (IsJudged session.now) }
    ensures first { IfOk result (λ judged. judged.range.first ≡ start.first) }
    ensures many { IfOk result (λ judged. length judged.range.seen.items ≡ length start.seen.items) }
{
    let mut range = start;
    let halt = halt_place(session.guest());
    run_range(session, &mut range, 0, halt);
    let released = released_of(session, alloc, &range)?;
    let mut sent = WrongSends::none(alloc, session, &range)?;
    run_source(session, &range, &mut sent);
    let mut placed = Placed::none(alloc, session, &range)?;
    run_pager(session, &range, &mut placed);
    run_range(session, &mut range, halt, session.guest().len());
    Ok(RangeFacts {
        range,
        released,
        sent,
        placed,
    })
}

/// Returns what all logs say about this many pages from the first on, by one pass over each log. Allocates memory for
/// the cells of these pages and some numbers for each. Fails only if memory runs out.
pub(crate) fn judge_range(
    alloc: Global,
    session: &Session,
    first: usize,
    count: usize,
) -> Result<RangeFacts, AllocError>
    requires limits { IsSession session.now }
    requires some { 0 < count }
    requires within { first + count ≤ session.now.geometry.pages }
    ensures judged { IfOk result (IsJudged session.now) }
    ensures first { IfOk result (λ judged. judged.range.first ≡ first) }
    ensures many { IfOk result (λ judged. length judged.range.seen.items ≡ count) }
{
    let start = range_for(alloc, session, first, count)?;
    judge_from_start(alloc, session, start)
}

/// Returns what the logs say about one page, by one pass over each log and one more for the looks. Allocates memory for
/// the cells of this page and a number for each page. Fails only if memory runs out.
pub fn findings_for(alloc: Global, session: &Session, page: PageNo) -> Result<Findings, AllocError>
    requires { page < session.now.geometry.pages }
    ensures { IfOk result (IsFindings session.now page) }
{
    session.keeps_limits();
    let looks = first_looks(alloc, session)?;
    let judged = judge_range(alloc, session, page.index(), 1)?;
    Ok(findings_at(session, &looks, &judged, 0))
}
