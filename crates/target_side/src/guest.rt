//! The guest's book, its part of each event, and the halt, which splits it.

ghost use Rattle.std.specs.Prelude.{◌≡◌, ◌<◌, ◌≤◌, length, IfOk, IfErr, OnOk, OnErr, IsErrOf};
ghost use Rattle.std.specs.List.{AllByRecursion};
ghost use Rattle.migration_types.specs.Limits.{most_records};
ghost use Rattle.migration_events.specs.Ops.{OpFits, answer_of};
ghost use Rattle.page_store.specs.Frames.{IsPageOf, memory_of};
ghost use Rattle.balloon_ledger.specs.Released.{released};
ghost use Rattle.bubbling.specs.Bubbling.{most_pivots};
ghost use Rattle.flat_machine.specs.Machines.{IsAfter};
ghost use Rattle.active_push.specs.SourcePart.{halted_source, state_packet};
ghost use Rattle.active_push.specs.Books.{part_of as source_of};
ghost use Rattle.target_side.specs.TargetPart.{halted_target};
ghost use Rattle.target_side.specs.Kept.{part_of as target_of, geometry_of};
ghost use Rattle.target_side.specs.GuestPart.{new_guest, guest_access};
ghost use Rattle.target_side.specs.inner.Records.{record_of};

use crate::{TargetBook, TargetFault};
use active_push::SourceBook;
use balloon_ledger::Ledger;
use flat_machine::Machine;
use migration_events::{Op, look_for_room, make_room};
use migration_types::{Geometry, GuestRec, InitPage};
use page_store::Store;
use page_stream::Packet;
use std::alloc::{AllocError, Global};
use std::marker::Model;

/// The guest's book: the machine as long as the guest is at the source, and the guest's log of its reads, writes and
/// releases, at most 1,048,576. The frames are those of one machine that never moved, and the ledger has the pages that
/// were released and not written since. Contracts see the book as the guest's part of the events.
#[derive(Drop)]
pub struct GuestBook {
    alloc: Global,
    log: Vec<GuestRec>,
    machine: Machine,
}

impl Model for GuestBook {
    ghost use Rattle.target_side.specs.Guests.{GuestKept, IsGuestBook};

    ghost Value = { GuestKept };

    ghost view = { λ b. record { log = b.log.items; frames = b.machine.frames; ledger = b.machine.ledger } };

    ghost invariant = { λ b. IsGuestBook (record { log = b.log.items; frames = b.machine.frames; ledger = b.machine.ledger }) };
}

impl GuestBook {
    ghost use Rattle.target_side.specs.Guests.{part_of, IsGuestBook};

    /// Returns a book for a machine that begins with these pages, and with zeros elsewhere. If a page is given twice,
    /// the first counts. Nothing is recorded, and no page is released. Fails only if memory runs out.
    pub fn new(
        alloc: Global,
        geometry: Geometry,
        init: &[InitPage],
    ) -> Result<GuestBook, AllocError>
        requires { AllByRecursion (IsPageOf geometry) init.now }
        ensures { IfOk result (λ b. part_of b ≡ new_guest geometry init.now) }
    {
        let frames = Store::from_init(alloc, geometry, init)?;
        let ledger = Ledger::new(alloc, geometry)?;
        Ok(GuestBook {
            alloc,
            log: Vec::new(alloc),
            machine: Machine { frames, ledger },
        })
    }

    /// Carries out an operation of a virtual processor and records it. Returns the value read, the value written, or 0
    /// for a release. The error is `TargetFault::LogFull` exactly when the log has no room for the record, and
    /// otherwise `TargetFault::Memory`. On an error, nothing changes.
    pub fn access(&mut self, v: u8, op: Op) -> Result<u64, TargetFault>
        requires { OpFits self.old.frames.geometry op }
        ensures part { OnOk result (part_of self.new ≡ guest_access v op (part_of self.old)) }
        ensures answer { IfOk result (λ x. x ≡ answer_of op (part_of self.old).memory) }
        ensures full { IsErrOf result TargetFault.LogFull → most_records < length (guest_access v op (part_of self.old)).log }
        ensures memory { IsErrOf result TargetFault.Memory → length (guest_access v op (part_of self.old)).log ≤ most_records }
        ensures err { OnErr result (self.new ≡ self.old) }
    {
        make_room(&mut self.log, 1)?;
        let done = perform(&mut self.machine, v, op);
        self.log.push_reserved(done.rec);
        Ok(done.answer)
    }

    /// Returns whether the log has room for the record of an operation of a virtual processor. Allocates no memory.
    pub fn look_to_access(&self, v: u8, op: &Op) -> Result<(), TargetFault>
        ensures room { OnOk result (length (guest_access v op.now (part_of self.now)).log ≤ most_records) }
        ensures full { OnErr result (most_records < length (guest_access v op.now (part_of self.now)).log) }
        ensures memory { IsErrOf result TargetFault.Memory → ⊥ }
    {
        let (_v, _op) = (v, op);
        let log = &self.log;
        look_for_room(log, 1)
    }

    /// Returns whether the log has room for the record of the halt. Allocates no memory.
    pub fn look_to_halt(&self) -> Result<(), TargetFault>
        ensures room { OnOk result (length (halted_target self.now.log).log ≤ most_records) }
        ensures full { OnErr result (most_records < length (halted_target self.now.log).log) }
        ensures memory { IsErrOf result TargetFault.Memory → ⊥ }
    {
        look_for_room(&self.log, 1)
    }

    /// Halts the guest and records this. The frames and the ledger go to the source's book, which keeps at most this
    /// many pivots, 1 to 16, and the log goes to the target's book. Returns both with the packet of the processor
    /// state, which must be offered to the link. The target's book has room for each page of the machine that the pager
    /// may have to cancel, so a release there allocates memory only for its record. The error is `TargetFault::LogFull`
    /// exactly when the log has no room for the record, and otherwise `TargetFault::Memory`. On an error, the book
    /// comes back as it was.
    pub fn halt(
        self,
        pivots: u32,
    ) -> Result<(SourceBook, TargetBook, Packet), (GuestBook, TargetFault)>
        requires some { 1 ≤ pivots }
        requires few { pivots ≤ most_pivots }
        ensures source { IfOk result (λ r. source_of r.0 ≡ halted_source self.frames.geometry (memory_of self.frames) (released self.ledger) pivots (length self.log)) }
        ensures target { IfOk result (λ r. target_of r.1 ≡ halted_target self.log) }
        ensures geometry { IfOk result (λ r. geometry_of r.1 ≡ self.frames.geometry) }
        ensures packet { IfOk result (λ r. r.2 ≡ state_packet 1 (halted_source self.frames.geometry (memory_of self.frames) (released self.ledger) pivots (length self.log))) }
        ensures full { IfErr result (λ e. e.1 ≡ TargetFault.LogFull → most_records < length (halted_target self.log).log) }
        ensures memory { IfErr result (λ e. e.1 ≡ TargetFault.Memory → length (halted_target self.log).log ≤ most_records) }
        ensures err { IfErr result (λ e. e.0 ≡ self) }
    {
        let GuestBook {
            alloc,
            log,
            machine,
        } = self;
        let Machine { frames, ledger } = machine;
        let halt = log.len() as u32;
        let target = match TargetBook::halted(alloc, frames.geometry(), log) {
            Ok(target) => target,
            Err((log, fault)) => {
                let machine = Machine { frames, ledger };
                return Err((
                    GuestBook {
                        alloc,
                        log,
                        machine,
                    },
                    fault,
                ));
            }
        };
        match SourceBook::halted(alloc, frames, ledger, halt, pivots) {
            Ok((source, packet)) => Ok((source, target, packet)),
            Err((frames, ledger, _)) => {
                let (mut log, _) = target.into_parts();
                log.pop();
                let machine = Machine { frames, ledger };
                Err((
                    GuestBook {
                        alloc,
                        log,
                        machine,
                    },
                    TargetFault::Memory,
                ))
            }
        }
    }

    /// Returns the guest's log.
    pub fn guest_log(&self) -> &[GuestRec]
        ensures { result.now ≡ self.now.log }
    {
        &self.log
    }

    /// Returns the guest's log, and consumes the book.
    pub fn into_log(self) -> Vec<GuestRec>
        ensures { result.items ≡ self.log }
    {
        self.log
    }

    /// Returns the machine's geometry.
    pub fn geometry(&self) -> Geometry
        ensures { result ≡ self.now.frames.geometry }
    {
        self.machine.frames.geometry()
    }

    /// States the invariant of every book: its log has only reads, writes and releases, at most 1,048,576, its frames
    /// are those of one machine that never moved, and its ledger has the released pages. Runs nothing.
    pub fn keeps_limits(&self)
        ensures { IsGuestBook self.now }
    {
        let _log = &self.log;
    }
}

/// The record of an operation, and its answer.
#[derive(Clone, Copy)]
struct Performed {
    rec: GuestRec,
    answer: u64,
}

/// Carries out an operation of a virtual processor on a machine.
fn perform(machine: &mut Machine, v: u8, op: Op) -> Performed
    requires frames { OpFits machine.old.frames.geometry op }
    requires ledger { machine.old.ledger.geometry ≡ machine.old.frames.geometry }
    ensures machine { IsAfter (record_of v op (memory_of machine.old.frames)) machine.old machine.new }
    ensures rec { result.rec ≡ record_of v op (memory_of machine.old.frames) }
    ensures answer { result.answer ≡ answer_of op (memory_of machine.old.frames) }
{
    match op {
        Op::Read { page, cell } => {
            let value = machine.frames.read(page, cell);
            Performed {
                rec: GuestRec::Read {
                    vcpu: v,
                    page,
                    cell,
                    value,
                },
                answer: value,
            }
        }
        Op::Write { page, cell, value } => {
            machine.write(page, cell, value);
            Performed {
                rec: GuestRec::Write {
                    vcpu: v,
                    page,
                    cell,
                    value,
                },
                answer: value,
            }
        }
        Op::Release { page } => {
            machine.release(page);
            Performed {
                rec: GuestRec::Release { vcpu: v, page },
                answer: 0,
            }
        }
    }
}
