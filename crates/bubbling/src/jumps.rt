//! Jumps over pages that are known to be gone, so that no stretch of them is walked twice.

ghost use Rattle.std.specs.Prelude.{◌≡◌, ℕ, ◌<◌, ◌≤◌, true, false, length, slice_index, replicate, IfOk};
ghost use Rattle.migration_types.specs.Limits.{most_pages};
ghost use Rattle.bubbling.specs.Bubbling.{marked};
ghost use Rattle.bubbling.specs.inner.Jumps.{page_at, AreJumps, IsGone};

use std::alloc::{AllocError, Global};

/// A sweep through all pages of a machine, from page 0 up or from the last page down.
#[derive(Clone, Copy)]
pub enum Sweep {
    Up,
    Down,
}

impl Sweep {
    /// Returns the page at a place on the sweep.
    fn page(self, pages: u32, place: u32) -> u32
        requires { place < pages }
        ensures { result ≡ page_at self pages place }
    {
        match self {
            Sweep::Up => place,
            Sweep::Down => pages - 1 - place,
        }
    }
}

/// Returns jumps for a sweep of this many places, with no page known to be gone. Fails only if memory runs out.
pub fn none_known(alloc: Global, pages: usize) -> Result<Vec<u32>, AllocError>
    ensures { IfOk result (λ v. v.items ≡ replicate pages 0) }
{
    vec![in alloc; 0; pages]
}

/// Returns the first place from this one on whose page is marked, or the page count. The places passed are known from
/// then on: `jumps` holds for each place how many pages from it on are known to have no mark.
pub fn first_marked(jumps: &mut Vec<u32>, sweep: Sweep, marks: &[bool], from: u32) -> u32
    requires few { length marks.now ≤ most_pages }
    requires jumps { AreJumps sweep marks.now jumps.old.items }
    requires from { from ≤ length marks.now }
    ensures jumps { AreJumps sweep marks.now jumps.new.items }
    ensures onward { from ≤ result }
    ensures end { result ≤ length marks.now }
    ensures none { IsGone sweep marks.now from result }
    ensures rest { result < length marks.now → marked marks.now (page_at sweep (length marks.now) result) ≡ true }
{
    let mut at = from;
    loop {
        let next = jump(jumps, sweep, marks, at);
        if next == at {
            return at;
        }
        let after = jump(jumps, sweep, marks, next);
        jumps[at as usize] = after - at;
        at = after;
    }
}

/// Returns a place from this one on such that no page before it has a mark. It is this place if its page is marked, or
/// if there is no page.
fn jump(jumps: &[u32], sweep: Sweep, marks: &[bool], place: u32) -> u32
    requires few { length marks.now ≤ most_pages }
    requires jumps { AreJumps sweep marks.now jumps.now }
    requires place { place ≤ length marks.now }
    ensures onward { place ≤ result }
    ensures end { result ≤ length marks.now }
    ensures none { IsGone sweep marks.now place result }
    ensures rest { result ≡ place → place < length marks.now → marked marks.now (page_at sweep (length marks.now) place) ≡ true }
{
    let pages = marks.len() as u32;
    if place == pages || marks[sweep.page(pages, place) as usize] {
        return place;
    }
    place + jumps[place as usize].max(1)
}
