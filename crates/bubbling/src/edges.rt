//! The edges of pivots: how far pushing has come on both sides of each.

ghost use Rattle.std.specs.Prelude.{◌≡◌, ℕ, ◌+◌, ◌-◌, ◌<◌, ◌≤◌, nat_lt, true, false, [], ◌∷◌, length, take, slice_index_or, slice_set, if◌then◌else◌, IfSome, MatchOption};
ghost use Rattle.migration_types.specs.Limits.{most_pages};
ghost use Rattle.migration_types.specs.PageSets.{no_page};
ghost use Rattle.bubbling.specs.Bubbling.{most_pivots, marked, distance, IsNextPushed};
ghost use Rattle.bubbling.specs.Edges.{at_page, low_edge, high_edge, IsOnEdge, IsOutward, IsReach, IsAtRest};

use crate::pivots::ROOM;
use crate::unsent::Unsent;
use arrayvec::ArrayVec;
use migration_types::PageNo;

/// The two edges of a pivot. The pages strictly between them are those from `first` to just before `past`.
#[derive(Clone, Copy, Default)]
pub struct Edges {
    /// The page after the low edge, or 0 if the low edge is before page 0.
    pub first: u32,
    /// The high edge, or the page count if it is after the last page.
    pub past: u32,
}

impl Edges {
    /// Returns both edges at a page.
    pub fn at(page: PageNo) -> Edges
        ensures { result ≡ at_page page }
    {
        let number = page.number();
        Edges {
            first: number + 1,
            past: number,
        }
    }

    /// Returns the edges moved outward, each to the next page that is still to be pushed, or out of the machine.
    pub fn moved(self, unsent: &mut Unsent) -> Edges
        requires start { self.first ≤ length unsent.old }
        requires end { self.past ≤ length unsent.old }
        requires none { (q : ℕ) → self.first ≤ q → q < self.past → marked unsent.old q ≡ false }
        ensures same { unsent.new ≡ unsent.old }
        ensures outward { IsOutward self result }
        ensures end { result.past ≤ length unsent.old }
        ensures none { (q : ℕ) → result.first ≤ q → q < result.past → marked unsent.old q ≡ false }
        ensures rest { IsAtRest (length unsent.old) (marked unsent.old) result }
    {
        Edges {
            first: unsent.end_below(self.first),
            past: unsent.first_from(self.past),
        }
    }

    /// Returns the page on an edge that is nearest to the pivot, and of two the greater.
    pub fn nearest(self, pivot: PageNo, unsent: &Unsent) -> Option<PageNo>
        requires reach { IsReach (length unsent.now) (marked unsent.now) pivot self }
        requires rest { IsAtRest (length unsent.now) (marked unsent.now) self }
        ensures page { MatchOption result (marked unsent.now ≡ no_page) (IsNextPushed (marked unsent.now) pivot) }
        ensures on_edge { IfSome result (λ q. IsOnEdge q self) }
    {
        let pages = unsent.pages();
        match (self.low(), self.high(pages)) {
            (None, high) => high,
            (low, None) => low,
            (Some(low), Some(high)) => Some(nearer(pivot, low, high)),
        }
    }

    /// Returns the edges as numbers of pages. The low one is -1 if it is before page 0.
    pub fn told(self) -> (i32, i32)
        requires start { self.first ≤ most_pages }
        requires end { self.past ≤ most_pages }
        ensures { result ≡ (low_edge self, high_edge self) }
    {
        (self.first as i32 - 1, self.past as i32)
    }

    /// Returns the page on the low edge.
    fn low(self) -> Option<PageNo>
        requires { self.first ≤ most_pages }
        ensures { MatchOption result (self.first ≡ 0) (λ q. q + 1 ≡ self.first) }
    {
        let low = self.first.checked_sub(1)?;
        Some(PageNo::new(low))
    }

    /// Returns the page on the high edge, in a machine of this many pages.
    fn high(self, pages: u32) -> Option<PageNo>
        requires few { pages ≤ most_pages }
        requires end { self.past ≤ pages }
        ensures { MatchOption result (self.past ≡ pages) (λ q. (q ≡ self.past) × (q < pages)) }
    {
        if self.past == pages {
            return None;
        }
        Some(PageNo::new(self.past))
    }
}

/// Returns the edges of page 0, as the only pivot.
pub fn first() -> ArrayVec<Edges, ROOM>
    ensures { result.items ≡ at_page 0 ∷ [] }
{
    let mut edges = ArrayVec::new();
    edges.push(Edges::at(PageNo::new(0)));
    edges
}

/// Puts the edges of a new pivot before the others. Drops the last of a full list.
pub fn add(edges: &mut ArrayVec<Edges, ROOM>, most: usize, page: PageNo)
    requires some { 1 ≤ most }
    requires few { most ≤ most_pivots }
    ensures { edges.new.items ≡ take most (at_page page ∷ edges.old.items) }
{
    edges.truncate(most - 1);
    edges.insert(0, Edges::at(page));
}

/// Returns the edges at a place.
pub fn at(edges: &ArrayVec<Edges, ROOM>, place: usize) -> Edges
    requires { place < length edges.now.items }
    ensures { result ≡ slice_index_or edges.now.items place result }
{
    edges.as_slice()[place]
}

/// Replaces the edges at a place.
pub fn put(edges: &mut ArrayVec<Edges, ROOM>, place: usize, new: Edges)
    requires { place < length edges.old.items }
    ensures { edges.new.items ≡ slice_set edges.old.items place new }
{
    edges.as_mut_slice()[place] = new;
}

/// Returns the page nearer to the pivot, and of two as near the high one.
fn nearer(pivot: PageNo, low: PageNo, high: PageNo) -> PageNo
    ensures { result ≡ (if nat_lt (distance pivot low) (distance pivot high) then low else high) }
{
    if apart(pivot, low) < apart(pivot, high) {
        low
    } else {
        high
    }
}

/// Returns the distance between two pages.
fn apart(a: PageNo, b: PageNo) -> u32
    ensures { result ≡ distance a b }
{
    a.number().abs_diff(b.number())
}
