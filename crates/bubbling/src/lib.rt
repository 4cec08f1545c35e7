//! The order in which a source pushes pages: outward on both sides of pivots, which are the pages of recent faults.
#![tactic(auto)]

ghost use Rattle.std.specs.Prelude.{◌≡◌, ◌+◌, ◌<◌, ◌≤◌, IfOk, IfSome, MatchOption, Contains, ◌∷◌, length, take};
ghost use Rattle.std.specs.Option.{option_map};

mod edges;
mod jumps;
mod pivots;
mod unsent;

use arrayvec::ArrayVec;
use balloon_ledger::Ledger;
use edges::Edges;
use migration_types::{Geometry, PageNo};
pub use pivots::MOST_PIVOTS;
use pivots::{Pivots, ROOM};
use std::alloc::{AllocError, Global};
use std::marker::Model;
use unsent::Unsent;

/// The pages of a machine that are still to be pushed, and the pivots that pushing starts from, which take turns. Only
/// the constructor allocates memory.
#[derive(Drop)]
pub struct Bubbles {
    geometry: Geometry,
    pivots: Pivots,
    /// The edges of each pivot, in the order of the pivots.
    edges: ArrayVec<Edges, ROOM>,
    unsent: Unsent,
}

impl Model for Bubbles {
    ghost use Rattle.std.specs.Prelude.{◌≡◌, length};
    ghost use Rattle.bubbling.specs.Bubbling.{Bubbling, marked};
    ghost use Rattle.bubbling.specs.Edges.{AreReaches};

    ghost Value = { Bubbling };

    ghost view = { λ a. record { geometry = a.geometry; ring = a.pivots; edges = a.edges.items; marks = a.unsent } };

    ghost invariant = { λ a. (length a.unsent ≡ a.geometry.pages) × AreReaches a.geometry.pages (marked a.unsent) a.pivots.pivots a.edges.items };
}

impl Bubbles {
    ghost use Rattle.migration_types.specs.PageSets.{no_page, without_page, size_below};
    ghost use Rattle.balloon_ledger.specs.Released.{released};
    ghost use Rattle.bubbling.specs.Bubbling.{unsent, rest_of, in_turn, turned, faulted, IsNextPushed, IsRing, most_pivots, edges_of, AreEdges, NoneInward, HasMoved, IsStart, IsWith};
    ghost use Rattle.bubbling.specs.Edges.{at_page, low_edge, high_edge};

    /// Returns the state in which all pages of the machine that are not released are to be pushed. Page 0 is the only
    /// pivot. At most this many pivots, 1 to 16, are ever kept. Fails only if memory runs out.
    pub fn new(
        alloc: Global,
        geometry: Geometry,
        pivots: u32,
        ledger: &Ledger,
    ) -> Result<Bubbles, AllocError>
        requires some { 1 ≤ pivots }
        requires few { pivots ≤ most_pivots }
        requires geometry { ledger.now.geometry ≡ geometry }
        ensures { IfOk result (IsStart geometry pivots (rest_of geometry.pages (released ledger.now))) }
    {
        let unsent = Unsent::from_ledger(alloc, geometry, ledger)?;
        Ok(Bubbles {
            geometry,
            pivots: Pivots::new(pivots),
            edges: edges::first(),
            unsent,
        })
    }

    /// Takes note of a fault at a page. If the page is not a pivot, it becomes the newest one, with both edges at
    /// itself, and has the turn; the oldest of a full list is dropped with its edges. The unsent pages and the other
    /// edges stay. At a pivot, nothing changes.
    pub fn fault_at(&mut self, page: PageNo)
        requires { page < self.old.geometry.pages }
        ensures of_pivot { Contains self.old.ring.pivots page → self.new ≡ self.old }
        ensures of_other { ¬ (Contains self.old.ring.pivots page) → self.new ≡ record self.old { ring = faulted page self.old.ring; edges = take self.old.ring.most (at_page page ∷ self.old.edges) } }
        ensures outward { NoneInward self.old self.new }
    {
        self.pivots.keeps_limits();
        if self.pivots.place(page).is_none() {
            self.pivots.add(page);
            edges::add(&mut self.edges, self.pivots.most(), page);
        }
    }

    /// Returns the unsent page nearest to the pivot in turn, and of two the greater. It counts as sent from now on, and
    /// the turn passes to the next pivot. The edges of the pivot that was in turn move outward past pages that are sent
    /// or not owed, and the page is on one of them; the other edges stay. Returns `None` if no page is unsent, and then
    /// nothing changes.
    pub fn next(&mut self) -> Option<PageNo>
        ensures of_machine { IfSome result (λ q. q < self.old.geometry.pages) }
        ensures page { MatchOption result (unsent self.old ≡ no_page) (IsNextPushed (unsent self.old) (in_turn self.old.ring)) }
        ensures state { MatchOption result (self.new ≡ self.old) (λ q. IsWith self.old self.new (turned self.old.ring) (without_page q (unsent self.old))) }
        ensures fewer { IfSome result (λ q. size_below self.old.geometry.pages (unsent self.old) ≡ size_below self.old.geometry.pages (unsent self.new) + 1) }
        ensures edges { IfSome result (HasMoved self.old self.new (in_turn self.old.ring)) }
        ensures outward { NoneInward self.old self.new }
    {
        self.pivots.keeps_limits();
        let turn = self.pivots.turn();
        let edges = edges::at(&self.edges, turn).moved(&mut self.unsent);
        let nearest = edges.nearest(self.pivots.in_turn(), &self.unsent)?;
        self.unsent.remove(nearest);
        edges::put(&mut self.edges, turn, edges);
        self.pivots.pass_turn();
        Some(nearest)
    }

    /// Counts a page as sent that did not come from `next`. Returns whether it was unsent. The pivots, their edges and
    /// the turn stay.
    pub fn mark_sent(&mut self, page: PageNo) -> bool
        requires { page < self.old.geometry.pages }
        ensures was_unsent { result ≡ unsent self.old page }
        ensures state { IsWith self.old self.new self.old.ring (without_page page (unsent self.old)) }
        ensures edges { self.new.edges ≡ self.old.edges }
        ensures outward { NoneInward self.old self.new }
    {
        self.unsent.remove(page)
    }

    /// Returns how many pages are unsent.
    pub fn left(&self) -> u32
        ensures { result ≡ size_below self.now.geometry.pages (unsent self.now) }
    {
        self.unsent.left()
    }

    /// Returns the low and the high edge of a pivot, from -1 to the page count. All pages strictly between them are
    /// sent or not owed. Returns `None` exactly when the page is not a pivot.
    pub fn edges(&self, page: PageNo) -> Option<(i32, i32)>
        ensures edges { result ≡ option_map (λ e. (low_edge e, high_edge e)) (edges_of page self.now) }
        ensures kept { MatchOption result (¬ (Contains self.now.ring.pivots page)) (λ e. Contains self.now.ring.pivots page) }
    {
        self.unsent.keeps_limits();
        self.pivots.keeps_limits();
        let place = self.pivots.place(page)?;
        Some(edges::at(&self.edges, place).told())
    }

    /// Returns the machine's geometry.
    pub fn geometry(&self) -> Geometry
        ensures { result ≡ self.now.geometry }
    {
        self.geometry
    }

    /// States that the pivots are 1 to 16, all different, and that one of them is in turn; that each page of the
    /// machine has a mark; and that each pivot is within its edges, which are within the machine, with no unsent page
    /// strictly between them. Runs nothing.
    pub fn keeps_limits(&self)
        ensures ring { IsRing self.now.ring }
        ensures marks { length self.now.marks ≡ self.now.geometry.pages }
        ensures edges { AreEdges self.now }
    {
        self.pivots.keeps_limits();
    }
}
