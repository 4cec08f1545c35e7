//! A migration from its halt on.

ghost use Rattle.std.specs.Prelude.{◌≡◌, true, false, IfOk, OnOk, OnErr, IsErrOf};
ghost use Rattle.migration_types.specs.Sessions.{IsSession};
ghost use Rattle.migration_model.specs.Books.{session_after};
ghost use Rattle.migration_model.specs.Events.{away_event, has_room};
ghost use Rattle.migration_model.specs.Orderly.{IsOrderly};
ghost use Rattle.session_core.specs.States.{away_of, IsAfter};

use crate::CoreFault;
use crate::remaining::Remaining;
use active_push::SourceBook;
use book_events::logs::{LentLogs, logs_of};
use book_events::{Effect, paging, sending};
use guest_script::Script;
use link_book::LinkBook;
use migration_events::Event;
use migration_types::{InitPage, Seq, Session};
use std::alloc::{AllocError, Global};
use std::marker::Model;
use std::mem::drop;
use target_side::{Access, PagerBook, TargetBook};

/// A migration from its halt on: the books of the source, the link, the pager and the target, and what each virtual
/// processor of a script has left to do. Contracts see the script, what is left, and the books.
#[derive(Drop)]
pub struct AfterHalt<'a> {
    pub(crate) alloc: Global,
    pub(crate) script: &'a Script,
    pub(crate) vcpus: Vec<Remaining<'a>>,
    pub(crate) source: SourceBook,
    pub(crate) link: LinkBook,
    pub(crate) pager: PagerBook,
    pub(crate) target: TargetBook,
}

impl<'a> Model for AfterHalt<'a> {
    ghost use Rattle.session_core.specs.States.{AfterLists, IsAfter};

    ghost Value = { AfterLists };

    ghost view = { λ a. record { script = a.script.now; vcpus = a.vcpus.items; source = a.source; link = a.link; pager = a.pager; target = a.target } };

    ghost invariant = { λ a. IsAfter (record { script = a.script.now; vcpus = a.vcpus.items; source = a.source; link = a.link; pager = a.pager; target = a.target }) };
}

impl<'a> AfterHalt<'a> {
    ghost use Rattle.book_events.specs.Logs.{logs_in};

    /// Carries out an event on these books, which changes them as the event's definition says. Packets that have
    /// arrived must be of the script's machine. An event that finds nothing to do, such as another halt, changes
    /// nothing. The error is `CoreFault::LogFull` only if a log has no room for the event's records, and
    /// `CoreFault::Memory` if memory runs out. On an error, nothing changes.
    pub fn event(&mut self, event: Event) -> Result<(), CoreFault>
        requires { IsOrderly (away_of self.old) }
        ensures ok { OnOk result (away_of self.new ≡ away_event event (away_of self.old)) }
        ensures script { self.new.script ≡ self.old.script }
        ensures full { IsErrOf result CoreFault.LogFull → has_room (session_after (away_event event (away_of self.old))) ≡ false }
        ensures err { OnErr result (away_of self.new ≡ away_of self.old) }
    {
        let _came = match event {
            Event::GuestStep { vcpu } => return self.guest_step(vcpu),
            Event::Halt => Effect::Nothing,
            Event::Push => {
                let has_lane = self.script.lane().is_some();
                let window = self.script.window();
                sending::push(&mut self.source, &mut self.link, window, has_lane)?
            }
            Event::Serve => sending::serve(&mut self.source, &mut self.link)?,
            Event::SourceTick => sending::source_tick(&mut self.source, &mut self.link)?,
            Event::LinkTurn { direction, fate } => {
                self.link.turn(direction, fate)?;
                Effect::Made
            }
            Event::PagerPop => paging::pager_pop(&mut self.link, &mut self.pager)?,
            Event::PagerPull => paging::pager_pull(&mut self.link, &mut self.pager)?,
            Event::PagerFault => paging::pager_fault(&mut self.pager, &mut self.target)?,
            Event::PagerFlush => paging::pager_flush(&mut self.link, &mut self.pager)?,
            Event::PagerDeliver => paging::pager_deliver(&mut self.pager, &mut self.target)?,
            Event::PagerTick => paging::pager_tick(&mut self.link, &mut self.pager)?,
        };
        Ok(())
    }

    /// Returns whether each log has room for what an event appends. Allocates no memory.
    pub fn look(&self, event: Event) -> Result<(), CoreFault>
        ensures room { OnOk result (has_room (session_after (away_event event (away_of self.now))) ≡ true) }
        ensures full { OnErr result (has_room (session_after (away_event event (away_of self.now))) ≡ false) }
        ensures memory { IsErrOf result CoreFault.Memory → ⊥ }
    {
        self.keeps_limits();
        match event {
            Event::GuestStep { vcpu } => self.look_to_step(vcpu),
            Event::Push => {
                let has_lane = self.script.lane().is_some();
                let window = self.script.window();
                sending::look_to_push(&self.source, &self.link, window, has_lane)
            }
            Event::Serve => sending::look_to_serve(&self.source, &self.link),
            Event::SourceTick => sending::look_to_source_tick(&self.source, &self.link),
            Event::LinkTurn { direction, fate } => self.link.look_to_turn(direction, fate),
            Event::PagerPop => paging::look_to_pop(&self.link, &self.pager),
            Event::PagerPull => paging::look_to_pull(&self.link, &self.pager),
            Event::PagerFault => paging::look_to_fault(&self.pager, &self.target),
            Event::PagerDeliver => paging::look_to_deliver(&self.pager, &self.target),
            Event::PagerTick => paging::look_to_pager_tick(&self.link, &self.pager),
            Event::Halt | Event::PagerFlush => Ok(()),
        }
    }

    /// Returns whether the guest's log has room for what a virtual processor's next operation after its move appends.
    fn look_to_step(&self, vcpu: u8) -> Result<(), CoreFault>
        ensures room { OnOk result (has_room (session_after (away_event (Event.GuestStep vcpu) (away_of self.now))) ≡ true) }
        ensures full { OnErr result (has_room (session_after (away_event (Event.GuestStep vcpu) (away_of self.now))) ≡ false) }
        ensures memory { IsErrOf result CoreFault.Memory → ⊥ }
    {
        self.keeps_limits();
        let Some(left) = self.vcpus.get(usize::from(vcpu)) else {
            return Ok(());
        };
        let Some((op, _)) = left.late() else {
            return Ok(());
        };
        self.target.look_to_access(vcpu, &op)
    }

    /// Carries out a virtual processor's next operation after its move: once the guest has resumed, it is done, or a
    /// read or a write misses its page.
    fn guest_step(&mut self, vcpu: u8) -> Result<(), CoreFault>
        ensures ok { OnOk result (away_of self.new ≡ away_event (Event.GuestStep vcpu) (away_of self.old)) }
        ensures script { self.new.script ≡ self.old.script }
        ensures full { IsErrOf result CoreFault.LogFull → has_room (session_after (away_event (Event.GuestStep vcpu) (away_of self.old))) ≡ false }
        ensures err { OnErr result (away_of self.new ≡ away_of self.old) }
    {
        let Some(left) = self.vcpus.get(usize::from(vcpu)) else {
            return Ok(());
        };
        let Some((op, rest)) = left.late() else {
            return Ok(());
        };
        match self.target.access(vcpu, op)? {
            Access::Done(_) => self.vcpus[usize::from(vcpu)] = rest,
            Access::Missed | Access::Waiting => {}
        }
        Ok(())
    }

    /// Returns what was recorded so far, lent.
    pub fn logs(&self) -> LentLogs<'_>
        ensures { result ≡ logs_in (session_after (away_of self.now)) }
    {
        LentLogs::of_books(
            self.target.guest_log(),
            &self.source,
            &self.link,
            &self.pager,
        )
    }

    /// Returns what was recorded so far, copied, if it is within the limits of a session. Fails only if memory runs
    /// out.
    pub fn session(&self) -> Result<Session, AllocError>
        requires { IsSession (session_after (away_of self.now)) }
        ensures { IfOk result (λ s. s ≡ session_after (away_of self.now)) }
    {
        let init = self.script.copied_init(self.alloc)?;
        let logs = self.logs().copied(self.alloc)?;
        Ok(Session::new(self.script.version(), self.source.geometry(), init, logs))
    }

    /// Returns what was recorded, if it is within the limits of a session. Copies nothing but the initial pages. Fails
    /// only if memory runs out.
    pub fn into_session(self) -> Result<Session, AllocError>
        requires { IsSession (session_after (away_of self)) }
        ensures { IfOk result (λ s. s ≡ session_after (away_of self.entry)) }
    {
        match self.script.copied_init(self.alloc) {
            Ok(init) => Ok(self.into_recorded(init)),
            Err(fault) => {
                drop(self);
                Err(fault)
            }
        }
    }

    /// Returns what was recorded, with the initial pages of the script. Allocates no memory.
    fn into_recorded(self, init: Seq<InitPage>) -> Session
        requires init { init ≡ self.script.init }
        requires limits { IsSession (session_after (away_of self)) }
        ensures { result ≡ session_after (away_of self.entry) }
    {
        let version = self.script.version();
        let geometry = self.source.geometry();
        let (guest, _) = self.target.into_parts();
        let logs = logs_of(guest, self.source, self.link, self.pager);
        Session::new(version, geometry, init, logs)
    }

    /// States the invariant: all is of the script's machine, and each log is within its limit. Runs nothing.
    pub fn keeps_limits(&self)
        ensures kept { IsAfter self.now }
        ensures room { has_room (session_after (away_of self.now)) ≡ true }
    {
        self.source.keeps_limits();
        self.link.keeps_limits();
        self.pager.keeps_limits();
        self.target.keeps_history();
    }
}
