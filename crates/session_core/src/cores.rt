//! The core.

ghost use Rattle.std.specs.Prelude.{◌≡◌, Some, None, true, is_some, IfOk, OnOk, OnErr, IsErrOf};
ghost use Rattle.session_core.specs.States.{scripted_of};
ghost use Rattle.migration_model.specs.Books.{session_of};
ghost use Rattle.migration_model.specs.Events.{start, step};
ghost use Rattle.migration_model.specs.Promise.{IsReached};
ghost use Rattle.session_core.specs.Cores.{machine_of};
ghost use Rattle.session_core.specs.Promised.{IsPromised};

use crate::CoreFault;
use crate::before::BeforeHalt;
use crate::phase::Phase;
use crate::stepping::step_books;
use guest_script::Script;
use migration_events::Event;
use migration_types::{LogName, Session};
use std::alloc::{AllocError, Global};
use std::marker::Model;

/// The core: all books of a migration that follows a script, and the recorded order, which has the names of the records
/// in the order in which they were appended. Contracts see it as the machine of the events.
///
/// A core is always one that some events reach from a script's start, none of them refused. So what it has recorded is
/// a session within its limits, of the right shape and with no fault of a page, and its recorded order is a merging of
/// it.
#[derive(Drop)]
pub struct Core<'a> {
    phase: Phase<'a>,
    order: Vec<(LogName, u32)>,
}

impl<'a> Model for Core<'a> {
    ghost use Rattle.migration_model.specs.Promise.{IsReached};
    ghost use Rattle.session_core.specs.Cores.{Cored, machine, IsHeld};

    ghost Value = { Cored };

    ghost view = { λ core. record { phase = core.phase; order = core.order.items } };

    ghost invariant = { λ core. IsHeld core.phase × IsReached (machine core.phase core.order.items) };
}

impl<'a> Core<'a> {
    /// Returns the core at a script's start, with nothing recorded. Fails only if memory runs out.
    pub fn start(alloc: Global, script: &'a Script) -> Result<Core<'a>, AllocError>
        ensures { IfOk result (λ core. machine_of core ≡ start (scripted_of script.now)) }
    {
        let before = BeforeHalt::start(alloc, script)?;
        Ok(Core {
            phase: Phase::Before(before),
            order: Vec::new(alloc),
        })
    }

    /// Carries out an event. The event's definition says how the books and the recorded order change. The error is
    /// `CoreFault::LogFull` exactly when the event needs more records than a log has room for, which is checked before
    /// memory is allocated, and otherwise `CoreFault::Memory`. On an error, nothing changes.
    pub fn step(&mut self, event: Event) -> Result<(), CoreFault>
        ensures ok { OnOk result (step event (machine_of self.old) ≡ Some (machine_of self.new)) }
        ensures full { IsErrOf result CoreFault.LogFull → step event (machine_of self.old) ≡ None }
        ensures memory { IsErrOf result CoreFault.Memory → is_some (step event (machine_of self.old)) ≡ true }
        ensures err { OnErr result (machine_of self.new ≡ machine_of self.old) }
    {
        step_books(&mut self.phase, &mut self.order, event)
    }

    /// Returns what was recorded so far, copied. Fails only if memory runs out.
    pub fn session(&self) -> Result<Session, AllocError>
        ensures recorded { IfOk result (λ s. s ≡ session_of (machine_of self.now).books) }
        ensures promised { IfOk result (λ s. IsPromised s (machine_of self.now).order) }
    {
        self.keeps_promise();
        self.phase.session()
    }

    /// States the invariant of every core: some events reach it from a script's start, so what it has recorded is
    /// faultless, and its recorded order is a merging of it. Runs nothing.
    pub fn keeps_promise(&self)
        ensures reached { IsReached (machine_of self.now) }
        ensures promised { IsPromised (session_of (machine_of self.now).books) (machine_of self.now).order }
    {
        let _order = &self.order;
    }
}
