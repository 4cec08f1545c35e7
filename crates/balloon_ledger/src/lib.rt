//! The pages that a guest released to its balloon and has not written since.
#![tactic(auto)]

ghost use Rattle.std.specs.Prelude.{◌≡◌, ◌<◌, IfOk, false, replicate};

use migration_types::{Geometry, PageNo};
use std::alloc::{AllocError, Global};
use std::marker::Model;

/// The ledger: the pages of a machine that its guest released and has not written since. Only `new` and `released_list`
/// allocate memory: a byte for each page of the machine, and three for each page of the list.
#[derive(Drop)]
pub struct Ledger {
    geometry: Geometry,
    /// A mark for each page, page 0 first.
    marks: Vec<bool>,
    /// How many pages are not marked.
    owed: u32,
}

impl Model for Ledger {
    ghost use Rattle.std.specs.Prelude.{◌≡◌, length, count_by, not};
    ghost use Rattle.balloon_ledger.specs.Released.{Marks};

    ghost Value = { Marks };

    ghost view = { λ l. record { geometry = l.geometry; marks = l.marks.items } };

    ghost invariant = { λ l.
        (length l.marks.items ≡ l.geometry.pages) × (l.owed ≡ count_by not l.marks.items) };
}

impl Ledger {
    ghost use Rattle.migration_types.specs.PageSets.{no_page, with_page, without_page, size_below, others};
    ghost use Rattle.balloon_ledger.specs.Released.{released, pages_below, IsWith};

    /// Returns the ledger of a machine that has released no page. Fails only if memory runs out.
    pub fn new(alloc: Global, geometry: Geometry) -> Result<Ledger, AllocError>
        ensures geometry { IfOk result (λ l. l.geometry ≡ geometry) }
        ensures set { IfOk result (λ l. released l ≡ no_page) }
    {
        let owed = geometry.pages();
        let marks = no_marks(alloc, owed as usize)?;
        Ok(Ledger {
            geometry,
            marks,
            owed,
        })
    }

    /// Puts a page into the ledger, even if it is there already. The other pages stay as they are.
    pub fn release(&mut self, page: PageNo)
        requires { page < self.old.geometry.pages }
        ensures { IsWith self.old self.new (with_page page (released self.old)) }
    {
        let at = page.index();
        if !self.marks[at] {
            self.marks[at] = true;
            self.owed -= 1;
        }
    }

    /// Takes a page out of the ledger, even if it is not there. The other pages stay as they are.
    pub fn wrote(&mut self, page: PageNo)
        requires { page < self.old.geometry.pages }
        ensures { IsWith self.old self.new (without_page page (released self.old)) }
    {
        let at = page.index();
        if self.marks[at] {
            self.marks[at] = false;
            self.owed += 1;
        }
    }

    /// Returns whether a page was released and not written since.
    pub fn holds(&self, page: PageNo) -> bool
        requires { page < self.now.geometry.pages }
        ensures { result ≡ released self.now page }
    {
        self.marks[page.index()]
    }

    /// Returns how many of the machine's pages are not in the ledger. The ledger keeps this count, so no page is looked
    /// at.
    pub fn owed_count(&self) -> u32
        ensures { result ≡ size_below self.now.geometry.pages (others (released self.now)) }
    {
        self.owed
    }

    /// Returns the pages that are in the ledger, in rising order. Fails only if memory runs out.
    pub fn released_list(&self) -> Result<Vec<PageNo>, AllocError>
        ensures { IfOk result (λ v. v.items ≡ pages_below self.now.geometry.pages (released self.now)) }
    {
        self.geometry.keeps_limits();
        let mut list = Vec::new(*self.marks.allocator());
        for number in 0..self.geometry.pages() {
            if self.marks[number as usize] {
                list.push(PageNo::new(number))?;
            }
        }
        Ok(list)
    }

    /// Returns the machine's geometry.
    pub fn geometry(&self) -> Geometry
        ensures { result ≡ self.now.geometry }
    {
        self.geometry
    }
}

/// Returns this many marks, none of them set. Fails only if memory runs out.
fn no_marks(alloc: Global, count: usize) -> Result<Vec<bool>, AllocError>
    ensures { IfOk result (λ v. v.items ≡ replicate count false) }
{
    vec![in alloc; false; count]
}
