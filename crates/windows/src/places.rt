//! Which records of a log are kept.

ghost use Rattle.std.specs.Prelude.{◌≡◌, ◌≢◌, ℕ, suc, ◌+◌, ◌^◌, ◌<◌, Bool, List, true, false, [], ◌∷◌, ◌++◌, length, map, slice_index, OnOk, IfOk};
ghost use Rattle.audit_model.specs.Windows.{rank, newest};
ghost use Rattle.windows.specs.Origins.{behind, list_origins};
ghost use Rattle.windows.specs.inner.Marks.{marks_of, Rises, has_mark, is_mark, past};

use std::alloc::{AllocError, Global};
use std::marker::Model;

/// Marks for a log's records, in their order: which of them are kept. Allocates memory only for those that are.
#[derive(Drop)]
pub(crate) struct Places {
    kept: Vec<u64>,
    count: u64,
}

impl Model for Places {
    ghost Value = { List Bool };

    ghost view = { λ a. marks_of a.kept.items a.count };

    ghost invariant = { λ a. Rises 0 a.count a.kept.items };
}

impl Places {
    /// Returns the marks of no records.
    pub(crate) fn new(alloc: Global) -> Self
        ensures { result ≡ [] }
    {
        Places {
            kept: Vec::new(alloc),
            count: 0,
        }
    }

    /// Takes the mark of the next record.
    #[tactic(auto, using(crate::proofs::Marked::noted, crate::proofs::Marked::rises_on, crate::proofs::Marked::passed_over, crate::proofs::Marked::rises_longer))]
    pub(crate) fn note(&mut self, keep: bool) -> Result<(), AllocError>
        ensures { OnOk result (self.new ≡ self.old ++ keep ∷ []) }
    {
        let next = self.count.checked_add(1).ok_or(AllocError)?;
        if keep {
            self.kept.push(self.count)?;
        }
        self.count = next;
        Ok(())
    }

    /// Returns whether the record of this number is kept. A record that does not exist is not kept.
    pub(crate) fn has(&self, number: u64) -> bool
        ensures { result ≡ has_mark self.now number }
    {
        self.kept.binary_search(&number).is_ok()
    }

    /// Returns how many records before this number are kept.
    pub(crate) fn rank(&self, number: u64) -> u64
        ensures { result ≡ rank self.now number }
    {
        self.kept.partition_point(|place| *place < number) as u64
    }

    /// Returns the newest kept record that is no later than this one.
    pub(crate) fn newest(&self, number: u64) -> Option<u64>
        ensures { past result ≡ newest is_mark self.now (suc number) }
    {
        let before = self.kept.partition_point(|place| *place <= number);
        if before > 0 {
            Some(self.kept[before - 1])
        } else {
            None
        }
    }

    /// Returns whether the marks are the same.
    pub(crate) fn is_same(&self, other: &Places) -> bool
        ensures same { result ≡ true → self.now ≡ other.now }
        ensures other { result ≡ false → self.now ≢ other.now }
    {
        self.count == other.count && self.kept == other.kept
    }

    /// Appends the lines of a list with these marks, whose line `first` gives its number of items, and returns the line
    /// after it.
    #[tactic(auto, using(crate::proofs::Lineage::marks_length))]
    pub(crate) fn push_origins(&self, lines: &mut Vec<u64>, first: u64) -> Result<u64, AllocError>
        ensures next { IfOk result (λ next. next ≡ behind first (length self.now)) }
        ensures lines { IfOk result (λ _. lines.new.items ≡ lines.old.items ++ list_origins first self.now) }
    {
        let item = first.checked_add(1).ok_or(AllocError)?;
        let next = item.checked_add(self.count).ok_or(AllocError)?;
        lines.push(first)?;
        push_lines(lines, item, &self.kept)?;
        Ok(next)
    }
}

/// Appends the lines at these places of a list that begins at line `first`.
fn push_lines(lines: &mut Vec<u64>, first: u64, places: &[u64]) -> Result<(), AllocError>
    requires { (k : ℕ) → k < length places.now → first + slice_index places.now k < 2 ^ 64 }
    ensures { OnOk result (lines.new.items ≡ lines.old.items ++ map (λ p. first + p) places.now) }
{
    for place in places {
        lines.push(first + *place)?;
    }
    Ok(())
}
