//! The records of a log that need more records of another log than those before them.

ghost use Rattle.std.specs.Prelude.{◌≡◌, ℕ, ◌<◌, ◌^◌, [], ◌∷◌, ◌++◌, List, length, Option, OnOk};
ghost use Rattle.migration_types.specs.declared.records.LogName.{LogName};
ghost use Rattle.migration_types.specs.Receipts.{Name};
ghost use Rattle.recorder_files.specs.Reaches.{need, AreSteps};
ghost use Rattle.recorder_files.specs.inner.Reaches.{before_need};

use std::alloc::{AllocError, Global};

/// A record that needs more records of another log than all before it: how many, and its place.
#[derive(Clone, Copy)]
pub(crate) struct Step {
    pub(crate) needed: u64,
    pub(crate) place: u64,
}

/// The records of a log that need more of another log than those before them, and how many are needed in all.
#[derive(Drop)]
pub(crate) struct Steps {
    pub(crate) needed: u64,
    pub(crate) steps: Vec<Step>,
    /// How many records are expected. Room for them is taken at once with the first step, so that a list that grows is not moved
    /// again and again.
    expected: usize,
}

impl Steps {
    /// Returns the steps of no records, where this many are expected. Allocates no memory.
    pub(crate) fn new(alloc: Global, expected: usize) -> Self
        ensures { (other : LogName) → AreSteps result other [] }
    {
        Steps {
            needed: 0,
            steps: Vec::new(alloc),
            expected,
        }
    }

    /// Takes room for the steps of all records that are expected before the first one, if there is so much memory.
    #[inline(always)]
    fn take_room(&mut self)
        ensures steps { self.new.steps.items ≡ self.old.steps.items }
        ensures needed { self.new.needed ≡ self.old.needed }
    {
        if self.needed == 0 {
            let _ = self.steps.reserve(self.expected);
        }
    }

    /// Takes the next record, which needs this many.
    #[inline(always)]
    pub(crate) fn note(&mut self, place: u64, needed: u64) -> Result<(), AllocError>
        ensures { (other : LogName) (names : List (Option Name)) (named : Option Name) → AreSteps self.old other names → place ≡ length names → needed ≡ need other named → OnOk result (AreSteps self.new other (names ++ named ∷ [])) }
    {
        if needed > self.needed {
            self.take_room();
            self.steps.push(Step { needed, place })?;
            self.needed = needed;
        }
        Ok(())
    }

    /// Returns how many of this many records come before the first one that needs more than there are.
    pub(crate) fn end(&self, there: u64, count: u64) -> u64
        ensures { (other : LogName) (names : List (Option Name)) → AreSteps self.now other names → count ≡ length names → result ≡ before_need other there names }
    {
        let at = self.steps.partition_point(|step| step.needed <= there);
        if at < self.steps.len() {
            self.steps[at].place
        } else {
            count
        }
    }
}
