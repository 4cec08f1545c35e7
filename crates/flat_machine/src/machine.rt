//! The machine, and its step.

ghost use Rattle.std.specs.Prelude.{◌<◌, IfOk};
ghost use Rattle.migration_types.specs.Memory.{with_cell, with_zeros};
ghost use Rattle.migration_types.specs.PageSets.{with_page, without_page};
ghost use Rattle.page_store.specs.Frames.{memory_of};
ghost use Rattle.balloon_ledger.specs.Released.{released};

use balloon_ledger::Ledger;
use migration_types::{GuestRec, PageNo, Session};
use page_store::Store;
use std::alloc::{AllocError, Global};

/// One machine that never moved. Only `start` allocates memory.
#[derive(Drop)]
pub struct Machine {
    /// Its frames.
    pub frames: Store,
    /// The pages that its guest released and has not written since.
    pub ledger: Ledger,
}

impl Machine {
    ghost use Rattle.flat_machine.specs.Machines.{HasFor, IsAfter, IsFlat, IsWith};

    /// Returns the machine of a session before the guest's first record. Fails only if memory runs out.
    pub fn start(alloc: Global, session: &Session) -> Result<Machine, AllocError>
        ensures { IfOk result (λ machine. IsFlat session.now 0 machine) }
    {
        session.keeps_limits();
        let frames = Store::from_init(alloc, session.geometry(), session.init())?;
        let ledger = Ledger::new(alloc, session.geometry())?;
        Ok(Machine { frames, ledger })
    }

    /// Sets the value of a cell. The page is then not released.
    pub fn write(&mut self, page: PageNo, cell: u16, value: u64)
        requires frames { page < self.old.frames.geometry.pages }
        requires cell { cell < self.old.frames.geometry.cells }
        requires ledger { page < self.old.ledger.geometry.pages }
        ensures { IsWith self.old self.new (with_cell page cell value (memory_of self.old.frames)) (without_page page (released self.old.ledger)) }
    {
        self.frames.write(page, cell, value);
        self.ledger.wrote(page);
    }

    /// Releases a page: each of its cells then has the value 0.
    pub fn release(&mut self, page: PageNo)
        requires frames { page < self.old.frames.geometry.pages }
        requires ledger { page < self.old.ledger.geometry.pages }
        ensures { IsWith self.old self.new (with_zeros page (memory_of self.old.frames)) (with_page page (released self.old.ledger)) }
    {
        self.frames.release(page);
        self.ledger.release(page);
    }

    /// Carries out one record of the guest.
    pub fn step(&mut self, rec: &GuestRec)
        requires { HasFor rec.now self.old }
        ensures { IsAfter rec.now self.old self.new }
    {
        match *rec {
            GuestRec::Write {
                page,
                cell,
                value,
                ..
            } => self.write(page, cell, value),
            GuestRec::Release { page, .. } => self.release(page),
            _ => {}
        }
    }
}
