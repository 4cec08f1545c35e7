//! The visitor of a recording that collects what its records name.

ghost use Rattle.std.specs.Prelude.{◌≡◌, OnOk};

use crate::naming::Naming;
use recordings::{Visitor, Wide, WideInit, WideMachine};
use std::alloc::AllocError;

impl Visitor for Naming {
    ghost use Rattle.recorder_files.specs.Named.{IsBlank, IsNaming};

    ghost IsNew = { IsBlank };

    ghost Met = { IsNaming };

    fn machine(&mut self, machine: &WideMachine) -> Result<(), AllocError> {
        let _ = machine;
        let _naming = &self.guest;
        Ok(())
    }

    fn init(&mut self, page: WideInit) -> Result<(), AllocError> {
        let _ = page.page;
        let _naming = &self.guest;
        Ok(())
    }

    #[inline(always)]
    fn record(&mut self, number: u64, rec: Wide) -> Result<(), AllocError> {
        let _ = number;
        self.note(&rec)
    }
}
