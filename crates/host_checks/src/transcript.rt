//! Transcripts.

ghost use Rattle.std.specs.Prelude.{◌≡◌, ◌≢◌, ◌++◌, map, MatchBool};
ghost use Rattle.host_checks.specs.Outcomes.{ops_of, asked_of, AreOfScript};

use guest_script::{Answered, Transcript, Vcpu};
use migration_events::Op;

/// Returns whether two operations are equal.
pub(crate) fn is_same(one: Op, other: Op) -> bool
    ensures { MatchBool result (one ≡ other) (one ≢ other) }
{
    match one {
        Op::Read { page, cell } => is_read(page.number(), cell, other),
        Op::Write { page, cell, value } => is_write(page.number(), cell, value, other),
        Op::Release { page } => is_release(page.number(), other),
    }
}

/// Returns whether the operation is a read of this cell.
fn is_read(page: u32, cell: u16, op: Op) -> bool
    ensures { MatchBool result (Op.Read page cell ≡ op) (Op.Read page cell ≢ op) }
{
    match op {
        Op::Read { page: p, cell: c } => page == p.number() && cell == c,
        _ => false,
    }
}

/// Returns whether the operation is a write of this value to this cell.
fn is_write(page: u32, cell: u16, value: u64, op: Op) -> bool
    ensures { MatchBool result (Op.Write page cell value ≡ op) (Op.Write page cell value ≢ op) }
{
    match op {
        Op::Write {
            page: p,
            cell: c,
            value: x,
        } => page == p.number() && cell == c && value == x,
        _ => false,
    }
}

/// Returns whether the operation is a release of this page.
fn is_release(page: u32, op: Op) -> bool
    ensures { MatchBool result (Op.Release page ≡ op) (Op.Release page ≢ op) }
{
    match op {
        Op::Release { page: p } => page == p.number(),
        _ => false,
    }
}

/// Returns whether the answered operations are these operations, in order.
fn are_ops(transcript: &[Answered], ops: &[Op]) -> bool
    ensures { MatchBool result (ops_of transcript.now ≡ ops.now) (ops_of transcript.now ≢ ops.now) }
{
    if transcript.len() != ops.len() {
        return false;
    }
    for k in 0..ops.len() {
        if !is_same(transcript[k].op, ops[k]) {
            return false;
        }
    }
    true
}

/// Returns whether a transcript has a virtual processor's operations in order, each once.
fn is_of_script(transcript: &Transcript, vcpu: &Vcpu) -> bool
    ensures { MatchBool result (ops_of transcript.now ≡ asked_of vcpu.now) (ops_of transcript.now ≢ asked_of vcpu.now) }
{
    let answers = transcript.as_slice();
    let before = vcpu.before_move.as_slice();
    if answers.len() < before.len() {
        return false;
    }
    let (first, last) = answers.split_at(before.len());
    are_ops(first, before) && are_ops(last, vcpu.after_move.as_slice())
}

/// Returns whether there is one transcript for each virtual processor, with its operations in order, each once.
pub(crate) fn are_of_script(transcripts: &[Transcript], vcpus: &[Vcpu]) -> bool
    ensures { MatchBool result (AreOfScript vcpus.now transcripts.now) (¬ AreOfScript vcpus.now transcripts.now) }
{
    if transcripts.len() != vcpus.len() {
        return false;
    }
    for k in 0..vcpus.len() {
        if !is_of_script(&transcripts[k], &vcpus[k]) {
            return false;
        }
    }
    true
}
