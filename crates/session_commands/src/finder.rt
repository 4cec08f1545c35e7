//! Facts, found while another visitor meets the same recording.

ghost use Rattle.std.specs.Prelude.{◌≡◌, ⊤};
ghost use Rattle.session_commands.specs.Facts.{HasNone};

use crate::facts::Facts;
use recorder_files::Front;
use recordings::{Visitor, Wide, WideInit, WideMachine};
use std::alloc::{AllocError, Global};

/// A visitor that finds what is to be known of a recording before it is written or held, while another visitor meets it too.
#[derive(Drop)]
pub(crate) struct FactFinder<V> {
    pub facts: Facts,
    pub other: V,
}

impl<V> FactFinder<V> {
    /// Returns a visitor that has found nothing, with another visitor. They are expected to meet about this many records of
    /// each log.
    pub fn new(alloc: Global, other: V, expected: Front) -> Self
        ensures none { HasNone result.facts }
        ensures other { result.other ≡ other }
    {
        FactFinder {
            facts: Facts::new(alloc, expected),
            other,
        }
    }
}

impl<V: Visitor> Visitor for FactFinder<V> {
    ghost use Rattle.session_commands.specs.Facts.{IsFacts};

    ghost IsNew = { λ a. HasNone a.facts × V.IsNew a.other };

    ghost Met = { λ a s. IsFacts a.facts s × V.Met a.other s };

    fn machine(&mut self, machine: &WideMachine) -> Result<(), AllocError> {
        self.facts.see_machine(machine)?;
        self.other.machine(machine)?;
        Ok(())
    }

    fn init(&mut self, page: WideInit) -> Result<(), AllocError> {
        self.other.init(page)?;
        Ok(())
    }

    #[inline(always)]
    fn record(&mut self, number: u64, rec: Wide) -> Result<(), AllocError> {
        self.facts.see(number, &rec)?;
        self.other.record(number, rec)?;
        Ok(())
    }
}

/// A visitor that keeps nothing.
#[derive(Clone, Copy)]
pub(crate) struct Nobody;

impl Visitor for Nobody {
    ghost IsNew = { λ _. ⊤ };

    ghost Met = { λ _ _. ⊤ };

    fn machine(&mut self, machine: &WideMachine) -> Result<(), AllocError> {
        let _ = machine;
        Ok(())
    }

    fn init(&mut self, page: WideInit) -> Result<(), AllocError> {
        let _ = page.page;
        Ok(())
    }

    #[inline(always)]
    fn record(&mut self, number: u64, rec: Wide) -> Result<(), AllocError> {
        let _ = number;
        drop(rec);
        Ok(())
    }
}
