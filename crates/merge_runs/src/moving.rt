//! Both machines while the guest moves: their frames, and marks for each page.

ghost use Rattle.std.specs.Prelude.{◌≡◌, IfOk};

use crate::target::Target;
use audit_model::Home;
use flat_machine::Machine;
use migration_types::{GuestRec, PageNo, PagerRec, Session};
use page_store::Store;
use std::alloc::{AllocError, Global};

/// Both machines, and where the guest is.
#[derive(Drop)]
pub(crate) struct Moving {
    pub home: Home,
    /// The machine at the source, which is one that never moved as long as the guest is there.
    pub source: Machine,
    /// The machine at the target.
    pub target: Target,
}

impl Moving {
    ghost use Rattle.audit_model.specs.World.{start, read_at, write_at, release_at, guest_step, pager_step};
    ghost use Rattle.merge_runs.specs.inner.Moving.{world_of, frames_at, IsSized, HasPage, HasCell, GuestHas, PagerHas, IsMoved};

    /// Returns the state at the start: the guest at the source with its initial memory, and nothing at the target.
    /// Fails only if memory runs out.
    pub(crate) fn start(alloc: Global, session: &Session) -> Result<Moving, AllocError>
        ensures sized { IfOk result (λ m. IsSized session.now.geometry m) }
        ensures world { IfOk result (λ m. world_of m ≡ start session.now) }
    {
        let source = Machine::start(alloc, session)?;
        let target = Target::start(alloc, session.geometry())?;
        Ok(Moving {
            home: Home::AtSource,
            source,
            target,
        })
    }

    /// Reads a page where the guest is.
    fn read(&mut self, page: PageNo)
        requires { HasPage self.old page }
        ensures { IsMoved self.old self.new (read_at self.old.home page (world_of self.old)) }
    {
        match self.home {
            Home::AtSource => {}
            Home::Nowhere => {}
            Home::AtTarget => self.target.touch(page),
        }
    }

    /// Writes a cell where the guest is.
    fn write(&mut self, page: PageNo, cell: u16, value: u64)
        requires page { HasPage self.old page }
        requires cell { HasCell self.old cell }
        ensures { IsMoved self.old self.new (write_at self.old.home page cell value (world_of self.old)) }
    {
        match self.home {
            Home::AtSource => self.source.write(page, cell, value),
            Home::Nowhere => {}
            Home::AtTarget => self.target.write(page, cell, value),
        }
    }

    /// Releases a page where the guest is.
    fn release(&mut self, page: PageNo)
        requires { HasPage self.old page }
        ensures { IsMoved self.old self.new (release_at self.old.home page (world_of self.old)) }
    {
        match self.home {
            Home::AtSource => self.source.release(page),
            Home::Nowhere => {}
            Home::AtTarget => self.target.release(page),
        }
    }

    /// Carries out a record of the guest.
    pub(crate) fn step_guest(&mut self, rec: &GuestRec)
        requires { GuestHas self.old rec.now }
        ensures { IsMoved self.old self.new (guest_step rec.now (world_of self.old)) }
    {
        match *rec {
            GuestRec::Read { page, .. } => self.read(page),
            GuestRec::Write {
                page,
                cell,
                value,
                ..
            } => self.write(page, cell, value),
            GuestRec::Release { page, .. } => self.release(page),
            GuestRec::Halt => self.home = Home::Nowhere,
            GuestRec::Resume { .. } => self.home = Home::AtTarget,
            _ => {}
        }
    }

    /// Carries out a record of the pager.
    pub(crate) fn step_pager(&mut self, rec: &PagerRec)
        requires { PagerHas self.old rec.now }
        ensures { IsMoved self.old self.new (pager_step rec.now (world_of self.old)) }
    {
        match rec {
            PagerRec::Place { page, contents, .. } => self.target.place(*page, contents.as_slice()),
            PagerRec::Zero { page } => self.target.place_zeros(*page),
            _ => {}
        }
    }

    /// Returns the frames where the guest is, or the source's while it is nowhere.
    pub(crate) fn into_frames(self) -> Store
        ensures { result ≡ frames_at self.home self }
    {
        let Moving {
            home,
            source,
            target,
        } = self;
        match home {
            Home::AtSource => source.frames,
            Home::Nowhere => source.frames,
            Home::AtTarget => target.frames,
        }
    }
}
