//! Values with marks for where they may be other than 0, so that zeros are not overwritten with zeros.

ghost use Rattle.std.specs.Prelude.{◌≡◌, ℕ, ◌-◌, ◌+◌, ◌*◌, ◌<◌, ◌≤◌, ◌⊎◌, ◌++◌, true, false, IfOk, length, replicate, take, drop, slice_index, slice_index_or, slice_set};
ghost use Rattle.page_store.specs.inner.Blocks.{block, IsCleared, AreTouched};

use std::alloc::{AllocError, Global};
use std::marker::Model;

/// The number of values that share a mark.
const BLOCK: usize = 64;

/// A list of values, all 0 at first. Only the constructor allocates memory.
#[derive(Drop)]
pub struct Cells {
    values: Vec<u64>,
    /// For each block of values, whether one of them may be other than 0.
    touched: Vec<bool>,
}

impl Model for Cells {
    ghost use Rattle.std.specs.Prelude.{List, ℕ};
    ghost use Rattle.page_store.specs.inner.Blocks.{AreTouched};

    ghost Value = { List ℕ };

    ghost view = { λ a. a.values.items };

    ghost invariant = { λ a. AreTouched a.values.items a.touched.items };
}

impl Cells {
    /// Returns this many zeros. Fails only if memory runs out.
    pub fn zeroed(alloc: Global, count: usize) -> Result<Cells, AllocError>
        ensures { IfOk result (λ v. v ≡ replicate count 0) }
    {
        let values = zeros(alloc, count)?;
        let touched = no_marks(alloc, count / BLOCK + 1)?;
        Ok(Cells { values, touched })
    }

    /// Returns the value at a place.
    pub fn at(&self, place: usize) -> u64
        requires { place < length self.now }
        ensures { result ≡ slice_index self.now place }
    {
        self.values[place]
    }

    /// Sets the value at a place.
    pub fn set(&mut self, place: usize, value: u64)
        requires { place < length self.old }
        ensures { self.new ≡ slice_set self.old place value }
    {
        self.values[place] = value;
        self.touched[place / BLOCK] = true;
    }

    /// Writes this many zeros from one place on. The time is proportional to the values written there since the last
    /// time, and to one mark for each block.
    pub fn clear(&mut self, from: usize, count: usize)
        requires { from + count ≤ length self.old }
        ensures { self.new ≡ take from self.old ++ (replicate count 0 ++ drop (from + count) self.old) }
    {
        clear_touched(&mut self.values, &mut self.touched, from, from + count);
    }

    /// Writes values from one place on.
    pub fn put(&mut self, from: usize, content: &[u64])
        requires { from + length content.now ≤ length self.old }
        ensures { self.new ≡ take from self.old ++ (content.now ++ drop (from + length content.now) self.old) }
    {
        put(&mut self.values, from, content);
        let to = from + content.len();
        touch(&mut self.touched, from / BLOCK, to.div_ceil(BLOCK));
    }

    /// Returns the values from one place up to another.
    pub fn slice(&self, from: usize, to: usize) -> &[u64]
        requires order { from ≤ to }
        requires within { to ≤ length self.now }
        ensures { result.now ≡ take (to - from) (drop from self.now) }
    {
        &self.values[from..to]
    }
}

/// Returns this many zeros. Fails only if memory runs out.
fn zeros(alloc: Global, count: usize) -> Result<Vec<u64>, AllocError>
    ensures { IfOk result (λ v. v.items ≡ replicate count 0) }
{
    vec![in alloc; 0; count]
}

/// Returns this many marks, none of them set. Fails only if memory runs out.
fn no_marks(alloc: Global, count: usize) -> Result<Vec<bool>, AllocError>
    ensures { IfOk result (λ v. v.items ≡ replicate count false) }
{
    vec![in alloc; false; count]
}

/// Writes zeros from one place up to another, in blocks whose mark is set. Clears the marks of blocks that lie within.
fn clear_touched(values: &mut Vec<u64>, touched: &mut Vec<bool>, from: usize, to: usize)
    requires order { from ≤ to }
    requires within { to ≤ length values.old.items }
    requires touched { AreTouched values.old.items touched.old.items }
    ensures touched { AreTouched values.new.items touched.new.items }
    ensures cleared { IsCleared from to values.old.items values.new.items }
{
    for at in from / BLOCK..to.div_ceil(BLOCK) {
        if touched[at] {
            let first = from.max(at * BLOCK);
            let past = to.min(at * BLOCK + BLOCK);
            clear(values, first, past - first);
            touched[at] = past - first < BLOCK;
        }
    }
}

/// Writes this many zeros from one place on.
fn clear(items: &mut Vec<u64>, from: usize, count: usize)
    requires { from + count ≤ length items.old.items }
    ensures { items.new.items ≡ take from items.old.items ++ (replicate count 0 ++ drop (from + count) items.old.items) }
{
    items[from..from + count].fill(0);
}

/// Writes values from one place on.
fn put(items: &mut Vec<u64>, from: usize, content: &[u64])
    requires { from + length content.now ≤ length items.old.items }
    ensures { items.new.items ≡ take from items.old.items ++ (content.now ++ drop (from + length content.now) items.old.items) }
{
    items[from..from + content.len()].copy_from_slice(content);
}

/// Sets the marks from one place up to another.
fn touch(marks: &mut Vec<bool>, from: usize, to: usize)
    requires { to ≤ length marks.old.items }
    ensures len { length marks.new.items ≡ length marks.old.items }
    ensures unset { (k : ℕ) → slice_index_or marks.new.items k false ≡ false → (slice_index_or marks.old.items k false ≡ false) × ((k < from) ⊎ (to ≤ k)) }
{
    for at in from..to {
        marks[at] = true;
    }
}
