//! The pivots, which pushing starts from, and whose turn it is.

ghost use Rattle.std.specs.Prelude.{◌≡◌, ◌<◌, ◌≤◌, MatchOption, Contains, length, slice_index};
ghost use Rattle.bubbling.specs.Bubbling.{IsRing, most_pivots, first_ring, in_turn, turned, faulted};

use arrayvec::ArrayVec;
use migration_types::PageNo;
use std::marker::Model;

/// The greatest number of pivots.
pub const MOST_PIVOTS: u32 = 16;

/// The room for pivots.
pub const ROOM: usize = MOST_PIVOTS as usize;

/// Pages without repetition, newest first, which take turns.
#[derive(Drop)]
pub struct Pivots {
    most: usize,
    pages: ArrayVec<PageNo, ROOM>,
    turn: usize,
}

impl Model for Pivots {
    ghost use Rattle.bubbling.specs.Bubbling.{Ring, IsRing};

    ghost Value = { Ring };

    ghost view = { λ a. record { most = a.most; pivots = a.pages.items; turn = a.turn } };

    ghost invariant = { λ a. IsRing (record { most = a.most; pivots = a.pages.items; turn = a.turn }) };
}

impl Pivots {
    /// Returns page 0 as the only pivot, with room for this many.
    pub fn new(most: u32) -> Pivots
        requires some { 1 ≤ most }
        requires few { most ≤ most_pivots }
        ensures { result ≡ first_ring most }
    {
        let mut pages = ArrayVec::new();
        pages.push(PageNo::new(0));
        Pivots {
            most: most as usize,
            pages,
            turn: 0,
        }
    }

    /// Returns the pivot in turn.
    pub fn in_turn(&self) -> PageNo
        ensures { result ≡ in_turn self.now }
    {
        self.pages.as_slice()[self.turn]
    }

    /// Returns the place of the pivot in turn.
    pub fn turn(&self) -> usize
        ensures { result ≡ self.now.turn }
    {
        self.turn
    }

    /// Returns the greatest number of pivots that are kept.
    pub fn most(&self) -> usize
        ensures { result ≡ self.now.most }
    {
        self.most
    }

    /// Gives the turn to the next pivot.
    pub fn pass_turn(&mut self)
        ensures { self.new ≡ turned self.old }
    {
        self.turn = (self.turn + 1) % self.pages.len();
    }

    /// States that there are 1 to 16 pivots, all different, and one of them in turn. Runs nothing.
    pub fn keeps_limits(&self)
        ensures { IsRing self.now }
    {
        let _turn = self.turn;
    }

    /// Makes a page the newest pivot, with the turn. Drops the oldest of a full list.
    pub fn add(&mut self, page: PageNo)
        requires { ¬ (Contains self.old.pivots page) }
        ensures { self.new ≡ faulted page self.old }
    {
        self.pages.truncate(self.most - 1);
        self.pages.insert(0, page);
        self.turn = 0;
    }

    /// Returns the place of a page among the pivots, the newest at 0, or `None` if it is not a pivot.
    pub fn place(&self, page: PageNo) -> Option<usize>
        ensures { MatchOption result (¬ (Contains self.now.pivots page)) (λ j. (j < length self.now.pivots) × (slice_index self.now.pivots j ≡ page)) }
    {
        for at in 0..self.pages.len() {
            if self.pages.as_slice()[at] == page {
                return Some(at);
            }
        }
        None
    }
}
