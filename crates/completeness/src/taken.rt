//! Packets that the pager took, and neither placed nor dropped.

ghost use Rattle.std.specs.Prelude.{◌≡◌, ◌&&◌, not, length, IfOk, MatchOption, false, replicate};
ghost use Rattle.migration_types.specs.Sessions.{IsSession};
ghost use Rattle.audit_model.specs.Shape.{is_taking};
ghost use Rattle.completeness.specs.Complete.{is_taken_left};
ghost use Rattle.completeness.specs.inner.Least.{IsLeast, NonePass};
ghost use Rattle.completeness.specs.inner.Walks.{AreSettled, IsMarked, IsSettledBy};

use audit_model::is_taking;
use migration_types::{PagerRec, Session};
use std::alloc::{AllocError, Global};

/// Returns this many marks, none of them set. Fails only if memory runs out.
fn no_marks(alloc: Global, count: usize) -> Result<Vec<bool>, AllocError>
    ensures { IfOk result (λ v. v.items ≡ replicate count false) }
{
    vec![in alloc; false; count]
}

/// Sets the mark of this number, if there is one.
fn mark(marks: &mut Vec<bool>, number: u32)
    ensures { IsMarked number marks.old.items marks.new.items }
{
    let number = number as usize;
    if number < marks.len() {
        marks[number] = true;
    }
}

/// Marks what a record places or drops.
fn take_settling(marks: &mut Vec<bool>, rec: &PagerRec)
    ensures { IsSettledBy rec.now marks.old.items marks.new.items }
{
    match *rec {
        PagerRec::Place { got, .. } => mark(marks, got),
        PagerRec::Skip { got } => mark(marks, got),
        _ => {}
    }
}

/// Returns a mark for each record of the pager: whether its packet is placed or dropped.
fn settled_of(alloc: Global, session: &Session) -> Result<Vec<bool>, AllocError>
    ensures { IfOk result (λ marks. AreSettled session.now (length session.now.pager) marks.items) }
{
    let pager = session.pager();
    let mut marks = no_marks(alloc, pager.len())?;
    for n in 0..pager.len() {
        take_settling(&mut marks, &pager[n]);
    }
    Ok(marks)
}

/// Returns whether a record took a packet that was neither placed nor dropped.
fn is_left(rec: &PagerRec, settled: bool) -> bool
    ensures { result ≡ (is_taking rec.now && not settled) }
{
    is_taking(rec) && !settled
}

/// Returns the first record of the pager, after its very first, that took a packet that was neither placed nor dropped.
/// Makes two passes over the pager's log, and allocates memory for a mark for each of its records. Fails only if memory
/// runs out.
pub(crate) fn first_taken(alloc: Global, session: &Session) -> Result<Option<u32>, AllocError>
    requires { IsSession session.now }
    ensures { IfOk result (λ found. MatchOption found (NonePass (is_taken_left session.now) (length session.now.pager)) (IsLeast (is_taken_left session.now) (length session.now.pager))) }
{
    let pager = session.pager();
    let settled = settled_of(alloc, session)?;
    for n in 1..pager.len() {
        if is_left(&pager[n], settled[n]) {
            return Ok(Some(n as u32));
        }
    }
    Ok(None)
}
