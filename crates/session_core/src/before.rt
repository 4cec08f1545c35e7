//! A migration before its halt.

ghost use Rattle.std.specs.Prelude.{◌≡◌, true, false, slice_get, IfOk, IfErr, OnOk, OnErr, IsErrOf};
ghost use Rattle.migration_types.specs.Sessions.{IsSession};
ghost use Rattle.migration_model.specs.Books.{Before, IsScript, session_of, session_before, session_after};
ghost use Rattle.migration_model.specs.Events.{start, home_step, home_event, all_at_move, halted, has_room};
ghost use Rattle.book_events.specs.Logs.{logs_in};
ghost use Rattle.target_side.specs.PagerLists.{part_of as pager_of};
ghost use Rattle.target_side.specs.PagerPart.{new_pager};
ghost use Rattle.session_core.specs.States.{home_of, away_of, scripted_of, IsBefore};

use crate::CoreFault;
use crate::after::AfterHalt;
use crate::remaining::{Remaining, all_left};
use book_events::halting::halt;
use book_events::logs::{LentLogs, logs_of_guest};
use guest_script::Script;
use link_book::LinkBook;
use migration_events::Event;
use migration_types::Session;
use std::alloc::{AllocError, Global};
use std::marker::Model;
use std::mem::drop;
use target_side::{GuestBook, PagerBook};

/// A migration before its halt: the guest's book, and what each virtual processor of a script has left to do. Contracts
/// see the script, what is left, and the guest's book.
#[derive(Drop)]
pub struct BeforeHalt<'a> {
    alloc: Global,
    script: &'a Script,
    vcpus: Vec<Remaining<'a>>,
    guest: GuestBook,
}

impl<'a> Model for BeforeHalt<'a> {
    ghost use Rattle.session_core.specs.States.{BeforeLists, IsBefore};

    ghost Value = { BeforeLists };

    ghost view = { λ h. record { script = h.script.now; vcpus = h.vcpus.items; guest = h.guest } };

    ghost invariant = { λ h. IsBefore (record { script = h.script.now; vcpus = h.vcpus.items; guest = h.guest }) };
}

impl<'a> BeforeHalt<'a> {
    /// Returns the guest of a script before its first operation. Fails only if memory runs out.
    #[tactic(auto, using(crate::proofs::Operations::script_is))]
    pub fn start(alloc: Global, script: &'a Script) -> Result<BeforeHalt<'a>, AllocError>
        ensures books { IfOk result (λ h. Before (home_of h) ≡ (start (scripted_of script.now)).books) }
        ensures script { IfOk result (λ h. h.script ≡ script.now) }
        ensures fits { IsScript (scripted_of script.now) }
    {
        script.keeps_limits();
        let vcpus = all_left(alloc, script.vcpus())?;
        let guest = GuestBook::new(alloc, script.geometry(), script.init())?;
        Ok(BeforeHalt {
            alloc,
            script,
            vcpus,
            guest,
        })
    }

    /// Carries out an event other than the halt: a virtual processor's next operation before its move. All other events
    /// change nothing. The error is `CoreFault::LogFull` if the guest's log has no room for the record. On an error,
    /// nothing changes.
    pub fn event(&mut self, event: Event) -> Result<(), CoreFault>
        requires { event ≡ Event.Halt → ⊥ }
        ensures ok { OnOk result (Before (home_of self.new) ≡ home_event event (home_of self.old)) }
        ensures full { IsErrOf result CoreFault.LogFull → has_room (session_of (home_event event (home_of self.old))) ≡ false }
        ensures err { OnErr result (home_of self.new ≡ home_of self.old) }
    {
        match event {
            Event::GuestStep { vcpu } => self.guest_step(vcpu),
            _ => Ok(()),
        }
    }

    /// Returns whether each log has room for what an event appends. Allocates no memory.
    pub fn look(&self, event: Event) -> Result<(), CoreFault>
        ensures room { OnOk result (has_room (session_of (home_event event (home_of self.now))) ≡ true) }
        ensures full { OnErr result (has_room (session_of (home_event event (home_of self.now))) ≡ false) }
        ensures memory { IsErrOf result CoreFault.Memory → ⊥ }
    {
        match event {
            Event::GuestStep { vcpu } => self.look_to_step(vcpu),
            Event::Halt => self.look_to_halt(),
            _ => {
                self.keeps_limits();
                Ok(())
            }
        }
    }

    /// Returns whether the guest's log has room for what a virtual processor's next operation before its move appends.
    fn look_to_step(&self, vcpu: u8) -> Result<(), CoreFault>
        ensures room { OnOk result (has_room (session_before (home_step vcpu (slice_get (home_of self.now).vcpus vcpu) (home_of self.now))) ≡ true) }
        ensures full { OnErr result (has_room (session_before (home_step vcpu (slice_get (home_of self.now).vcpus vcpu) (home_of self.now))) ≡ false) }
        ensures memory { IsErrOf result CoreFault.Memory → ⊥ }
    {
        self.keeps_limits();
        let Some(left) = self.vcpus.get(usize::from(vcpu)) else {
            return Ok(());
        };
        let Some((op, _)) = left.early() else {
            return Ok(());
        };
        self.guest.look_to_access(vcpu, &op)
    }

    /// Returns whether the guest's log has room for the halt's record, if each virtual processor is at its move.
    fn look_to_halt(&self) -> Result<(), CoreFault>
        ensures room { OnOk result (has_room (session_of (home_event Event.Halt (home_of self.now))) ≡ true) }
        ensures full { OnErr result (has_room (session_of (home_event Event.Halt (home_of self.now))) ≡ false) }
        ensures memory { IsErrOf result CoreFault.Memory → ⊥ }
    {
        self.keeps_limits();
        if self.all_at_move() {
            return self.guest.look_to_halt();
        }
        Ok(())
    }

    /// Carries out a virtual processor's next operation before its move, and records it. Does nothing if the virtual
    /// processor is at its move, or if the script has no virtual processor of this number. The error is
    /// `CoreFault::LogFull` if the guest's log has no room for the record. On an error, nothing changes.
    fn guest_step(&mut self, vcpu: u8) -> Result<(), CoreFault>
        ensures ok { OnOk result (home_of self.new ≡ home_step vcpu (slice_get (home_of self.old).vcpus vcpu) (home_of self.old)) }
        ensures script { self.new.script ≡ self.old.script }
        ensures full { IsErrOf result CoreFault.LogFull → has_room (session_before (home_step vcpu (slice_get (home_of self.old).vcpus vcpu) (home_of self.old))) ≡ false }
        ensures err { OnErr result (home_of self.new ≡ home_of self.old) }
    {
        let Some(left) = self.vcpus.get(usize::from(vcpu)) else {
            return Ok(());
        };
        let Some((op, rest)) = left.early() else {
            return Ok(());
        };
        self.guest.access(vcpu, op)?;
        self.vcpus[usize::from(vcpu)] = rest;
        Ok(())
    }

    /// Returns whether each virtual processor is at its move, so that the guest may be halted.
    pub fn all_at_move(&self) -> bool
        ensures { result ≡ all_at_move (home_of self.now).vcpus }
    {
        self.vcpus.iter().all(|left| left.before_move.is_empty())
    }

    /// Halts the guest and records this, and the source offers the state to the target. The error is
    /// `CoreFault::LogFull` if the guest's log has no room for the record. On an error, everything comes back as it
    /// was.
    pub fn halt(self) -> Result<AfterHalt<'a>, (BeforeHalt<'a>, CoreFault)>
        ensures ok { IfOk result (λ a. away_of a ≡ halted (home_of self.entry)) }
        ensures script { IfOk result (λ a. a.script ≡ self.entry.script) }
        ensures full { IfErr result (λ e. e.1 ≡ CoreFault.LogFull → has_room (session_after (halted (home_of self.entry))) ≡ false) }
        ensures err { IfErr result (λ e. e.0 ≡ self.entry) }
    {
        if let Err(fault) = self.guest.look_to_halt() {
            return Err((self, fault));
        }
        match PagerBook::new(self.alloc, self.script.geometry()) {
            Ok(pager) => self.halted(pager),
            Err(_) => Err((self, CoreFault::Memory)),
        }
    }

    /// Halts the guest, given the pager's book before its first event.
    fn halted(self, pager: PagerBook) -> Result<AfterHalt<'a>, (BeforeHalt<'a>, CoreFault)>
        requires { pager_of pager ≡ new_pager self.script.geometry }
        ensures ok { IfOk result (λ a. away_of a ≡ halted (home_of self.entry)) }
        ensures script { IfOk result (λ a. a.script ≡ self.entry.script) }
        ensures full { IfErr result (λ e. e.1 ≡ CoreFault.LogFull → has_room (session_after (halted (home_of self.entry))) ≡ false) }
        ensures err { IfErr result (λ e. e.0 ≡ self.entry) }
    {
        let BeforeHalt {
            alloc,
            script,
            vcpus,
            guest,
        } = self;
        script.keeps_limits();
        let mut link = LinkBook::new(alloc);
        match halt(guest, &mut link, script.pivots()) {
            Ok((source, target)) => Ok(AfterHalt {
                alloc,
                script,
                vcpus,
                source,
                link,
                pager,
                target,
            }),
            Err((guest, fault)) => {
                drop(link);
                drop(pager);
                let home = BeforeHalt {
                    alloc,
                    script,
                    vcpus,
                    guest,
                };
                Err((home, fault))
            }
        }
    }

    /// Returns what was recorded so far, lent: the guest's log.
    pub fn logs(&self) -> LentLogs<'_>
        ensures { result ≡ logs_in (session_before (home_of self.now)) }
    {
        LentLogs::of_guest(self.guest.guest_log())
    }

    /// Returns what was recorded so far, copied, if it is within the limits of a session. Fails only if memory runs
    /// out.
    pub fn session(&self) -> Result<Session, AllocError>
        requires { IsSession (session_before (home_of self.now)) }
        ensures { IfOk result (λ s. s ≡ session_before (home_of self.now)) }
    {
        let init = self.script.copied_init(self.alloc)?;
        let logs = self.logs().copied(self.alloc)?;
        Ok(Session::new(self.script.version(), self.guest.geometry(), init, logs))
    }

    /// Returns what was recorded, if it is within the limits of a session. Copies nothing but the initial pages. Fails
    /// only if memory runs out.
    pub fn into_session(self) -> Result<Session, AllocError>
        requires { IsSession (session_before (home_of self)) }
        ensures { IfOk result (λ s. s ≡ session_before (home_of self.entry)) }
    {
        let init = self.script.copied_init(self.alloc)?;
        let BeforeHalt {
            alloc,
            script,
            guest,
            ..
        } = self;
        let geometry = guest.geometry();
        let logs = logs_of_guest(alloc, guest.into_log());
        Ok(Session::new(script.version(), geometry, init, logs))
    }

    /// States the invariant: all is of the script's machine, and the log is within its limit. Runs nothing.
    pub fn keeps_limits(&self)
        ensures kept { IsBefore self.now }
        ensures room { has_room (session_before (home_of self.now)) ≡ true }
    {
        self.guest.keeps_limits();
    }
}
