//! The thread of a virtual processor.

ghost use Rattle.std.specs.Prelude.{◌≡◌, ◌≢◌, ◌≤◌, ◌++◌, ℕ, take, length, OnOk};
ghost use Rattle.migration_events.specs.Ops.{OpFits};
ghost use Rattle.target_side.specs.Guests.{part_of as guest_of};
ghost use Rattle.target_side.specs.Kept.{geometry_of, part_of as target_of};
ghost use Rattle.host_threads.specs.Operations.{HasDone, IsGuestStep, IsTargetStep};

use crate::bell::ThreadRole;
use crate::gate::{Gate, most_at_once};
use crate::shared::SharedBooks;
use crate::side::TargetSide;
use crate::stop_reason::{StopReason, reason_of};
use guest_script::{Answered, Transcript, Vcpu};
use migration_events::Op;
use migration_types::Seq;
use std::alloc::Global;
use std::sync::Wait;
use target_side::{Access, GuestBook, TargetBook};

/// The result of an operation.
enum OpResult {
    /// It was answered.
    Answered(u64),
    /// Its page was missed.
    Missed,
    /// It must wait.
    Waits,
    /// The run must stop.
    Stops(StopReason),
}

/// Carries out an operation on the guest's book. The result is `Astray` only if the machine does not have its page or
/// cell.
fn step_guest(book: &mut GuestBook, vcpu: u8, op: &Op) -> OpResult
    ensures step { IsGuestStep result vcpu op.now (guest_of book.old) (guest_of book.new) }
    ensures taken { OpFits book.old.frames.geometry op.now → result ≢ OpResult.Stops StopReason.Astray }
{
    if !op.fits(book.geometry()) {
        return OpResult::Stops(StopReason::Astray);
    }
    match book.access(vcpu, *op) {
        Ok(answer) => OpResult::Answered(answer),
        Err(fault) => OpResult::Stops(reason_of(fault)),
    }
}

/// Carries out an operation on the target's book. The result is `Astray` only if the machine does not have its page or
/// cell.
fn step_target(book: &mut TargetBook, vcpu: u8, op: &Op) -> OpResult
    ensures step { IsTargetStep result vcpu op.now (target_of book.old) (target_of book.new) }
    ensures taken { OpFits (geometry_of book.old) op.now → result ≢ OpResult.Stops StopReason.Astray }
{
    if !op.fits(book.geometry()) {
        return OpResult::Stops(StopReason::Astray);
    }
    match book.access(vcpu, *op) {
        Ok(Access::Done(answer)) => OpResult::Answered(answer),
        Ok(Access::Missed) => OpResult::Missed,
        Ok(Access::Waiting) => OpResult::Waits,
        Err(fault) => OpResult::Stops(reason_of(fault)),
    }
}

/// Carries out operations on the guest's book, one after another, and appends each with its answer to the answers. If
/// one is refused, those before it are done, and no other.
fn work_at_source(
    book: &mut GuestBook,
    vcpu: u8,
    ops: &[Op],
    answers: &mut Vec<Answered>,
) -> Result<(), StopReason>
    ensures did { (count : ℕ) × HasDone vcpu (take count ops.now) (guest_of book.old) (guest_of book.new) answers.old.items answers.new.items }
    ensures all { OnOk result (HasDone vcpu ops.now (guest_of book.old) (guest_of book.new) answers.old.items answers.new.items) }
{
    for at in 0..ops.len() {
        let op = &ops[at];
        if answers.reserve(1).is_err() {
            return Err(StopReason::Memory);
        }
        match step_guest(book, vcpu, op) {
            OpResult::Answered(answer) => answers.push_reserved(Answered { op: *op, answer }),
            OpResult::Stops(fault) => return Err(fault),
            OpResult::Missed | OpResult::Waits => return Err(StopReason::Astray),
        }
    }
    Ok(())
}

/// Returns the first operations, at most as many as the gate lets a thread do at once, and the others.
fn first_at_once<'a, G: Gate>(gate: &G, ops: &'a [Op]) -> (&'a [Op], &'a [Op])
    ensures few { (G.stands_open gate.now → ⊥) → length result.0.now ≤ 1 }
    ensures all { result.0.now ++ result.1.now ≡ ops.now }
{
    ops.split_at(ops.len().min(most_at_once(gate)))
}

/// How far a sequence of operations came.
#[derive(Clone, Copy)]
struct Reached<'a> {
    /// The operations that were answered.
    done: &'a [Op],
    /// The other operations.
    rest: &'a [Op],
    /// Whether the first of the others must wait.
    waits: bool,
}

impl<'a> Reached<'a> {
    /// Returns this progress: the first `count` operations were answered.
    fn new(ops: &'a [Op], count: usize, waits: bool) -> Self {
        let (done, rest) = ops.split_at(count.min(ops.len()));
        Reached { done, rest, waits }
    }
}

/// A virtual processor at work: its number, and its answers so far.
#[derive(Drop)]
struct Worker<'s, G> {
    shared: &'s SharedBooks,
    gate: &'s G,
    vcpu: u8,
    answers: Vec<Answered>,
}

impl<'s, G: Gate> Worker<'s, G> {
    /// Carries out operations at the source, under one lock.
    fn turn_at_source<R: Wait>(&mut self, rt: &R, ops: &[Op]) -> Result<(), StopReason> {
        let mut side = self.shared.target.lock(rt);
        let TargetSide::Guest(book) = &mut *side else {
            return Err(StopReason::Astray);
        };
        work_at_source(book, self.vcpu, ops, &mut self.answers)
    }

    /// Carries out operations at the source, at most as many at once as the gate allows. Returns `false` if the run
    /// stops.
    fn run_at_source<R: Wait>(&mut self, rt: &R, ops: &[Op]) -> bool {
        let mut rest = ops;
        for _ in rt.forever() {
            if rest.is_empty() {
                return true;
            }
            if self.shared.bell.is_stopped() {
                return false;
            }
            let (some, later) = first_at_once(self.gate, rest);
            if let Err(fault) = self.turn_at_source(rt, some) {
                self.shared.bell.stop(rt, fault);
                return false;
            }
            rest = later;
        }
        false
    }

    /// Carries out operations at the target, at most as many at once as the gate allows, until one must wait. Lends the
    /// gate the book after each that is answered. Tells the bell the page of each release, because another virtual
    /// processor may wait for it, and the page that this one waits for. Rings the pager for a miss.
    fn reach<'a>(
        &mut self,
        book: &mut TargetBook,
        ops: &'a [Op],
    ) -> Result<Reached<'a>, StopReason> {
        let bell = &self.shared.bell;
        let count = ops.len().min(most_at_once(self.gate));
        for at in 0..count {
            let op = &ops[at];
            if self.answers.reserve(1).is_err() {
                return Err(StopReason::Memory);
            }
            match step_target(book, self.vcpu, op) {
                OpResult::Answered(answer) => {
                    self.answers.push_reserved(Answered { op: *op, answer });
                    if let Op::Release { page } = op {
                        bell.came(*page);
                    }
                    self.gate.held(self.vcpu, op.page(), book);
                }
                OpResult::Missed => {
                    bell.want(self.vcpu, op.page());
                    bell.ring(ThreadRole::Pager);
                    return Ok(Reached::new(ops, at, true));
                }
                OpResult::Waits => {
                    bell.want(self.vcpu, op.page());
                    return Ok(Reached::new(ops, at, true));
                }
                OpResult::Stops(fault) => return Err(fault),
            }
        }
        Ok(Reached::new(ops, count, false))
    }

    /// Carries out operations as `reach` does, under one lock. Before the halt, the first one waits.
    fn turn_at_target<'a, R: Wait>(
        &mut self,
        rt: &R,
        ops: &'a [Op],
    ) -> Result<Reached<'a>, StopReason> {
        let mut side = self.shared.target.lock(rt);
        match &mut *side {
            TargetSide::Guest(_) => {
                if let Some(op) = ops.first() {
                    self.shared.bell.want(self.vcpu, op.page());
                }
                Ok(Reached::new(ops, 0, true))
            }
            TargetSide::Moving => Err(StopReason::Astray),
            TargetSide::Target(book) => self.reach(book, ops),
        }
    }

    /// Reports an operation that was answered at the target. If it is a release, the others are told first: another
    /// virtual processor may wait for the page, and the pager must cancel it.
    fn tell_answered(&self, op: &Op) {
        if let Op::Release { .. } = op {
            self.shared.bell.ring_vcpus();
            self.shared.bell.ring(ThreadRole::Pager);
        }
        self.gate.answered(self.vcpu, op.page());
    }

    /// Carries out operations at the target, looking as often as needed. Returns `false` if the run stops.
    fn run_at_target<R: Wait>(&mut self, rt: &R, ops: &[Op]) -> bool {
        let mut rest = ops;
        for _ in rt.forever() {
            if self.shared.bell.is_stopped() {
                return false;
            }
            let reached = match self.turn_at_target(rt, rest) {
                Ok(reached) => reached,
                Err(fault) => {
                    self.shared.bell.stop(rt, fault);
                    return false;
                }
            };
            for op in reached.done {
                self.tell_answered(op);
            }
            rest = reached.rest;
            if rest.is_empty() {
                return true;
            }
            if reached.waits {
                self.shared.bell.wait_vcpu(rt, self.vcpu);
            }
        }
        false
    }
}

/// Runs a virtual processor: its operations before the move, and then those after it. Returns what it did.
pub fn run_vcpu<R: Wait, G: Gate>(
    rt: &R,
    alloc: Global,
    shared: &SharedBooks,
    gate: &G,
    vcpu: u8,
    script: &Vcpu,
) -> Transcript {
    let mut worker = Worker {
        shared,
        gate,
        vcpu,
        answers: Vec::new(alloc),
    };
    if worker.run_at_source(rt, script.before_move.as_slice()) {
        shared.bell.arrive();
        if worker.run_at_target(rt, script.after_move.as_slice()) {
            shared.bell.end();
        }
    }
    let Worker { answers, .. } = worker;
    Seq::from_vec(answers)
}
