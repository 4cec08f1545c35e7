//! The pages that are still to be pushed.

ghost use Rattle.std.specs.Prelude.{◌≡◌, ℕ, ◌-◌, ◌<◌, ◌≤◌, true, false, IfOk, length, replicate};
ghost use Rattle.migration_types.specs.Limits.{most_pages};
ghost use Rattle.migration_types.specs.PageSets.{without_page, size_below};
ghost use Rattle.balloon_ledger.specs.Released.{released};
ghost use Rattle.bubbling.specs.Bubbling.{marked, rest_of};

use crate::jumps;
use crate::jumps::Sweep;
use balloon_ledger::Ledger;
use migration_types::{Geometry, PageNo};
use std::alloc::{AllocError, Global};
use std::marker::Model;

/// Whether each page is still to be pushed, and how many are. A page that is taken out never comes back.
#[derive(Drop)]
pub struct Unsent {
    marks: Vec<bool>,
    left: u32,
    /// What is known about the sweep up through the machine.
    up: Vec<u32>,
    /// What is known about the sweep down, which begins with the last page.
    down: Vec<u32>,
}

impl Model for Unsent {
    ghost use Rattle.std.specs.Prelude.{◌≡◌, ◌≤◌, List, Bool, length};
    ghost use Rattle.migration_types.specs.Limits.{most_pages};
    ghost use Rattle.migration_types.specs.PageSets.{size_below};
    ghost use Rattle.bubbling.specs.Bubbling.{marked};
    ghost use Rattle.bubbling.specs.declared.jumps.Sweep.TheVariants.{Up, Down};
    ghost use Rattle.bubbling.specs.inner.Jumps.{AreJumps};

    ghost Value = { List Bool };

    ghost view = { λ a. a.marks.items };

    ghost invariant = { λ a. (length a.marks.items ≤ most_pages) × (a.left ≡ size_below (length a.marks.items) (marked a.marks.items)) × AreJumps Up a.marks.items a.up.items × AreJumps Down a.marks.items a.down.items };
}

impl Unsent {
    /// Returns the pages of the machine that are not released. Fails only if memory runs out.
    pub fn from_ledger(
        alloc: Global,
        geometry: Geometry,
        ledger: &Ledger,
    ) -> Result<Unsent, AllocError>
        requires { ledger.now.geometry ≡ geometry }
        ensures len { IfOk result (λ marks. length marks ≡ geometry.pages) }
        ensures unsent { IfOk result (λ marks. marked marks ≡ rest_of geometry.pages (released ledger.now)) }
    {
        geometry.keeps_limits();
        let mut marks = no_marks(alloc, geometry.pages() as usize)?;
        mark_rest(&mut marks, ledger);
        let left = count(&marks);
        let up = jumps::none_known(alloc, marks.len())?;
        let down = jumps::none_known(alloc, marks.len())?;
        Ok(Unsent {
            marks,
            left,
            up,
            down,
        })
    }

    /// Takes a page out. Returns whether it was there.
    pub fn remove(&mut self, page: PageNo) -> bool
        requires { page < length self.old }
        ensures was_there { result ≡ marked self.old page }
        ensures len { length self.new ≡ length self.old }
        ensures pages { marked self.new ≡ without_page page (marked self.old) }
    {
        let at = page.index();
        let was_there = self.marks[at];
        if was_there {
            self.marks[at] = false;
            self.left -= 1;
        }
        was_there
    }

    /// Returns the first page from this one on that is still to be pushed, or the page count.
    pub fn first_from(&mut self, past: u32) -> u32
        requires { past ≤ length self.old }
        ensures same { self.new ≡ self.old }
        ensures outward { past ≤ result }
        ensures end { result ≤ length self.old }
        ensures none { (q : ℕ) → past ≤ q → q < result → marked self.old q ≡ false }
        ensures rest { result < length self.old → marked self.old result ≡ true }
    {
        jumps::first_marked(&mut self.up, Sweep::Up, &self.marks, past)
    }

    /// Returns the page after the last one below this that is still to be pushed, or 0.
    pub fn end_below(&mut self, first: u32) -> u32
        requires { first ≤ length self.old }
        ensures same { self.new ≡ self.old }
        ensures outward { result ≤ first }
        ensures none { (q : ℕ) → result ≤ q → q < first → marked self.old q ≡ false }
        ensures rest { 1 ≤ result → marked self.old (result - 1) ≡ true }
    {
        let pages = self.pages();
        pages - jumps::first_marked(&mut self.down, Sweep::Down, &self.marks, pages - first)
    }

    /// States that the machine has no more pages than the largest machine. Runs nothing.
    pub fn keeps_limits(&self)
        ensures { length self.now ≤ most_pages }
    {
        let _left = self.left;
    }

    /// Returns how many pages the machine has.
    pub fn pages(&self) -> u32
        ensures pages { result ≡ length self.now }
        ensures few { length self.now ≤ most_pages }
    {
        self.marks.len() as u32
    }

    /// Returns how many pages are still to be pushed.
    pub fn left(&self) -> u32
        ensures { result ≡ size_below (length self.now) (marked self.now) }
    {
        self.left
    }
}

/// Returns this many marks, none of them set. Fails only if memory runs out.
fn no_marks(alloc: Global, count: usize) -> Result<Vec<bool>, AllocError>
    ensures { IfOk result (λ v. v.items ≡ replicate count false) }
{
    vec![in alloc; false; count]
}

/// Marks each page that is not released.
fn mark_rest(marks: &mut Vec<bool>, ledger: &Ledger)
    requires len { length marks.old.items ≡ ledger.now.geometry.pages }
    requires few { length marks.old.items ≤ most_pages }
    ensures len { length marks.new.items ≡ length marks.old.items }
    ensures unsent { marked marks.new.items ≡ rest_of ledger.now.geometry.pages (released ledger.now) }
{
    for n in 0..marks.len() {
        marks[n] = !ledger.holds(PageNo::new(n as u32));
    }
}

/// Returns how many pages are marked.
fn count(marks: &[bool]) -> u32
    requires { length marks.now ≤ most_pages }
    ensures { result ≡ size_below (length marks.now) (marked marks.now) }
{
    let mut left = 0;
    for n in 0..marks.len() {
        if marks[n] {
            left += 1;
        }
    }
    left
}
