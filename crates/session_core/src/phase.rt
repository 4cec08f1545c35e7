//! A migration before its halt or from it on, and the events on it.

ghost use Rattle.std.specs.Prelude.{◌≡◌, true, false, IfOk, OnOk, OnErr, IsErrOf};
ghost use Rattle.migration_types.specs.Sessions.{IsSession};
ghost use Rattle.session_core.specs.States.{home_of};
ghost use Rattle.migration_model.specs.Books.{Before, session_of};
ghost use Rattle.migration_model.specs.Events.{books_event, home_event, has_room};
ghost use Rattle.session_core.specs.Cores.{books_of, IsHeld};
ghost use Rattle.book_events.specs.Logs.{lengths_of, logs_in};
ghost use Rattle.migration_model.specs.Orderly.{AreOrderly};

use crate::CoreFault;
use crate::after::AfterHalt;
use crate::before::BeforeHalt;
use migration_events::Event;
use migration_types::{LOG_COUNT, Session};
use std::alloc::AllocError;
use std::mem::{self, drop};

/// A migration before its halt, or from it on.
#[derive(Drop)]
pub enum Phase<'a> {
    /// The guest has not halted.
    Before(BeforeHalt<'a>),
    /// The guest has halted at the source.
    After(AfterHalt<'a>),
    /// Nothing is held, which happens only inside a halt.
    Halting,
}

impl<'a> Phase<'a> {
    /// Carries out an event on the books, which changes them as the event's definition says. The error is
    /// `CoreFault::LogFull` if a log has no room for its records. On an error, nothing changes.
    pub fn event(&mut self, event: Event) -> Result<(), CoreFault>
        requires held { IsHeld self.old }
        requires orderly { AreOrderly (books_of self.old) }
        ensures held { IsHeld self.new }
        ensures ok { OnOk result (books_of self.new ≡ books_event event (books_of self.old)) }
        ensures full { IsErrOf result CoreFault.LogFull → has_room (session_of (books_event event (books_of self.old))) ≡ false }
        ensures err { OnErr result (books_of self.new ≡ books_of self.old) }
    {
        if matches!(event, Event::Halt) {
            return self.halt();
        }
        match self {
            Phase::Before(before) => before.event(event),
            Phase::After(after) => after.event(event),
            Phase::Halting => Ok(()),
        }
    }

    /// Returns whether each log has room for what an event appends. Allocates no memory.
    pub fn look(&self, event: Event) -> Result<(), CoreFault>
        requires { IsHeld self.now }
        ensures room { OnOk result (has_room (session_of (books_event event (books_of self.now))) ≡ true) }
        ensures full { OnErr result (has_room (session_of (books_event event (books_of self.now))) ≡ false) }
        ensures memory { IsErrOf result CoreFault.Memory → ⊥ }
    {
        match self {
            Phase::Before(before) => before.look(event),
            Phase::After(after) => after.look(event),
            Phase::Halting => Ok(()),
        }
    }

    /// Carries out the guest's halt, if the guest has not halted.
    fn halt(&mut self) -> Result<(), CoreFault>
        requires held { IsHeld self.old }
        ensures held { IsHeld self.new }
        ensures ok { OnOk result (books_of self.new ≡ books_event Event.Halt (books_of self.old)) }
        ensures full { IsErrOf result CoreFault.LogFull → has_room (session_of (books_event Event.Halt (books_of self.old))) ≡ false }
        ensures err { OnErr result (books_of self.new ≡ books_of self.old) }
    {
        let (phase, answer) = halted(mem::replace(self, Phase::Halting));
        drop(mem::replace(self, phase));
        answer
    }

    /// Returns how many records each log has, in the order of the logs.
    pub fn lengths(&self) -> [usize; LOG_COUNT]
        ensures { result ≡ lengths_of (logs_in (session_of (books_of self.now))) }
    {
        match self {
            Phase::Before(before) => before.logs().lengths(),
            Phase::After(after) => after.logs().lengths(),
            Phase::Halting => [0; LOG_COUNT],
        }
    }

    /// Returns what was recorded so far, copied, if it is within the limits of a session. Fails only if memory runs
    /// out.
    pub fn session(&self) -> Result<Session, AllocError>
        requires held { IsHeld self.now }
        requires limits { IsSession (session_of (books_of self.now)) }
        ensures { IfOk result (λ s. s ≡ session_of (books_of self.now)) }
    {
        match self {
            Phase::Before(before) => before.session(),
            Phase::After(after) => after.session(),
            Phase::Halting => unreachable!(),
        }
    }

    /// Returns what was recorded, if it is within the limits of a session. Copies nothing but the initial pages. Fails
    /// only if memory runs out.
    pub fn into_session(self) -> Result<Session, AllocError>
        requires held { IsHeld self }
        requires limits { IsSession (session_of (books_of self)) }
        ensures { IfOk result (λ s. s ≡ session_of (books_of self.entry)) }
    {
        match self {
            Phase::Before(before) => before.into_session(),
            Phase::After(after) => after.into_session(),
            Phase::Halting => unreachable!(),
        }
    }

    /// States that each log is within its limit. Runs nothing.
    pub fn keeps_limits(&self)
        ensures { has_room (session_of (books_of self.now)) ≡ true }
    {
        match self {
            Phase::Before(before) => before.keeps_limits(),
            Phase::After(after) => after.keeps_limits(),
            Phase::Halting => {}
        }
    }
}

/// Returns the phase after the guest's halt, and whether the halt was refused, which leaves the phase as it was.
fn halted<'a>(phase: Phase<'a>) -> (Phase<'a>, Result<(), CoreFault>)
    requires held { IsHeld phase }
    ensures held { IsHeld result.0 }
    ensures ok { OnOk result.1 (books_of result.0 ≡ books_event Event.Halt (books_of phase.entry)) }
    ensures full { IsErrOf result.1 CoreFault.LogFull → has_room (session_of (books_event Event.Halt (books_of phase.entry))) ≡ false }
    ensures err { OnErr result.1 (books_of result.0 ≡ books_of phase.entry) }
{
    match phase {
        Phase::Before(before) => halted_before(before),
        Phase::After(after) => (Phase::After(after), Ok(())),
        Phase::Halting => (Phase::Halting, Ok(())),
    }
}

/// Returns the phase after the guest's halt, and whether the halt was refused, for a guest that has not halted.
fn halted_before<'a>(before: BeforeHalt<'a>) -> (Phase<'a>, Result<(), CoreFault>)
    ensures held { IsHeld result.0 }
    ensures ok { OnOk result.1 (books_of result.0 ≡ home_event Event.Halt (home_of before.entry)) }
    ensures full { IsErrOf result.1 CoreFault.LogFull → has_room (session_of (home_event Event.Halt (home_of before.entry))) ≡ false }
    ensures err { OnErr result.1 (books_of result.0 ≡ Before (home_of before.entry)) }
{
    if !before.all_at_move() {
        return (Phase::Before(before), Ok(()));
    }
    match before.halt() {
        Ok(after) => (Phase::After(after), Ok(())),
        Err((before, fault)) => (Phase::Before(before), Err(fault)),
    }
}
