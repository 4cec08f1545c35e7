//! Which pages of a machine are resident at the target: those that were placed, each with the pager's record that
//! placed it, and those that the guest released there while they were absent. Also which placements a look has shown.
#![tactic(auto)]

ghost use Rattle.std.specs.Prelude.{◌≡◌, ◌<◌, ◌||◌, IfOk, None, false, is_some, replicate};
ghost use Rattle.migration_types.specs.PageSets.{no_page, with_page};
ghost use Rattle.residency.specs.declared.Presence.TheVariants.{Absent};

use migration_types::{Geometry, PageNo};
use std::alloc::{AllocError, Global};
use std::marker::Model;

/// The state of a page at the target.
#[derive(Clone, Copy, Debug, PartialEq, Eq)]
pub enum Presence {
    /// The page is not there.
    Absent,
    /// The pager placed it by its record of this number.
    Placed(u32),
    /// The guest released it while it was absent.
    Freed,
}

/// The pages that are resident at the target: those that were placed, each with the number of the pager's record that
/// placed it, and those that the guest released while they were absent. Also the frontier: the highest number of a
/// pager's record that a look has shown. Only `new` allocates memory, one block.
#[derive(Drop)]
pub struct Residency {
    geometry: Geometry,
    /// The state of each page, page 0 first.
    pages: Vec<Presence>,
    frontier: Option<u32>,
}

impl Model for Residency {
    ghost use Rattle.std.specs.Prelude.{◌≡◌, length};
    ghost use Rattle.residency.specs.Placements.{Places};

    ghost Value = { Places };

    ghost view = { λ r. record { geometry = r.geometry; pages = r.pages.items; frontier = r.frontier } };

    ghost invariant = { λ r. length r.pages.items ≡ r.geometry.pages };
}

impl Residency {
    ghost use Rattle.residency.specs.Placements.{placements, freed, no_placement, with_placement, is_resident, raised, is_covered, IsWith};

    /// Returns the residency of a machine whose pages are absent, with no frontier. Fails only if memory runs out.
    pub fn new(alloc: Global, geometry: Geometry) -> Result<Residency, AllocError>
        ensures geometry { IfOk result (λ r. r.geometry ≡ geometry) }
        ensures placements { IfOk result (λ r. placements r ≡ no_placement) }
        ensures freed { IfOk result (λ r. freed r ≡ no_page) }
        ensures frontier { IfOk result (λ r. r.frontier ≡ None) }
    {
        let pages = no_pages(alloc, geometry.pages() as usize)?;
        Ok(Residency {
            geometry,
            pages,
            frontier: None,
        })
    }

    /// Returns whether a page is resident.
    pub fn resident(&self, page: PageNo) -> bool
        requires { page < self.now.geometry.pages }
        ensures { result ≡ is_resident (placements self.now page) (freed self.now page) }
    {
        !matches!(self.pages[page.index()], Presence::Absent)
    }

    /// Returns the number of the pager's record that placed a page, or `None` if the page was not placed.
    pub fn placed_at(&self, page: PageNo) -> Option<u32>
        requires { page < self.now.geometry.pages }
        ensures { result ≡ placements self.now page }
    {
        match self.pages[page.index()] {
            Presence::Placed(number) => Some(number),
            _ => None,
        }
    }

    /// Places an absent page with the pager's record of this number. The other pages and the frontier stay as they are.
    pub fn mark(&mut self, page: PageNo, pager_at: u32)
        requires page { page < self.old.geometry.pages }
        requires absent { is_resident (placements self.old page) (freed self.old page) ≡ false }
        ensures { IsWith self.old self.new
            (with_placement page pager_at (placements self.old)) (freed self.old) self.old.frontier }
    {
        self.pages[page.index()] = Presence::Placed(pager_at);
    }

    /// Makes an absent page resident because the guest releases it. No record of the pager places it, and it is
    /// covered. The other pages and the frontier stay as they are. Allocates no memory.
    pub fn release(&mut self, page: PageNo)
        requires page { page < self.old.geometry.pages }
        requires absent { is_resident (placements self.old page) (freed self.old page) ≡ false }
        ensures { IsWith self.old self.new
            (placements self.old) (with_page page (freed self.old)) self.old.frontier }
    {
        self.pages[page.index()] = Presence::Freed;
    }

    /// Returns the frontier, the highest number of a pager's record that was seen, or `None` if none was seen.
    pub fn frontier(&self) -> Option<u32>
        ensures { result ≡ self.now.frontier }
    {
        self.frontier
    }

    /// Raises the frontier to at least this number. The frontier never falls. The placements stay as they are.
    pub fn saw(&mut self, number: u32)
        ensures { IsWith self.old self.new
            (placements self.old) (freed self.old) (raised number self.old.frontier) }
    {
        self.frontier = Some(match self.frontier {
            Some(most) => most.max(number),
            None => number,
        });
    }

    /// Returns whether a page was placed by a record at or below the frontier, or was released while it was absent.
    pub fn covers(&self, page: PageNo) -> bool
        requires { page < self.now.geometry.pages }
        ensures { result ≡ (is_covered (placements self.now page) self.now.frontier || freed self.now page) }
    {
        match (self.pages[page.index()], self.frontier) {
            (Presence::Placed(number), Some(most)) => number <= most,
            (Presence::Freed, _) => true,
            _ => false,
        }
    }

    /// Returns the machine's geometry.
    pub fn geometry(&self) -> Geometry
        ensures { result ≡ self.now.geometry }
    {
        self.geometry
    }
}

/// Returns this many absent pages. Fails only if memory runs out.
fn no_pages(alloc: Global, count: usize) -> Result<Vec<Presence>, AllocError>
    ensures { IfOk result (λ v. v.items ≡ replicate count Absent) }
{
    vec![in alloc; Presence::Absent; count]
}
