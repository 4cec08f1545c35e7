//! Transcripts compared with the guest's log.

ghost use Rattle.std.specs.Prelude.{◌≡◌, ◌≢◌, ◌++◌, [], ◌∷◌, ℕ, List, length, slice_index_or, IfOk, MatchBool};
ghost use Rattle.migration_types.specs.declared.records.GuestRec.{GuestRec as Rec};
ghost use Rattle.host_checks.specs.Outcomes.{answered, told_by, AreOfLog};
ghost use Rattle.host_checks.specs.inner.Told.{AreTold};

use crate::transcript::is_same;
use guest_script::{Answered, Transcript};
use migration_events::Op;
use migration_types::GuestRec;
use std::alloc::{AllocError, Global};

/// Returns an operation with its answer.
fn answered(op: Op, answer: u64) -> Answered
    ensures { result ≡ answered op answer }
{
    Answered { op, answer }
}

/// Returns the virtual processor and the answered operation of a record, if it is one of an operation.
fn told_by(rec: &GuestRec) -> Option<(u8, Answered)>
    ensures { result ≡ told_by rec.now }
{
    match *rec {
        GuestRec::Read {
            vcpu,
            page,
            cell,
            value,
        } => Some((vcpu, answered(Op::Read { page, cell }, value))),
        GuestRec::Write {
            vcpu,
            page,
            cell,
            value,
        } => Some((vcpu, answered(Op::Write { page, cell, value }, value))),
        GuestRec::Release { vcpu, page } => Some((vcpu, answered(Op::Release { page }, 0))),
        _ => None,
    }
}

/// Returns whether two answered operations are equal.
fn is_answer(one: &Answered, other: &Answered) -> bool
    ensures { MatchBool result (one.now ≡ other.now) (one.now ≢ other.now) }
{
    one.answer == other.answer && is_same(one.op, other.op)
}

/// Takes one record of the guest's log, where `told` says how many answers of each transcript were found before it. If
/// the record is one of an operation, that must be the next in the transcript of its virtual processor. Otherwise it
/// returns `false`: no log that begins like this has these transcripts.
fn takes(rec: &GuestRec, transcripts: &[Transcript], told: &mut Vec<usize>) -> bool
    requires { length told.old.items ≡ length transcripts.now }
    ensures length { length told.new.items ≡ length transcripts.now }
    ensures told { MatchBool result
        ((log : List Rec) → AreTold transcripts.now told.old.items log → AreTold transcripts.now told.new.items (log ++ rec.now ∷ []))
        ((log rest : List Rec) → AreTold transcripts.now told.old.items log → ¬ AreOfLog (log ++ rec.now ∷ rest) transcripts.now) }
{
    let Some((vcpu, answered)) = told_by(rec) else {
        return true;
    };
    let vcpu = usize::from(vcpu);
    if vcpu >= transcripts.len() {
        return false;
    }
    let transcript = transcripts[vcpu].as_slice();
    let at = told[vcpu];
    if at >= transcript.len() || !is_answer(&transcript[at], &answered) {
        return false;
    }
    told[vcpu] = at + 1;
    true
}

/// Returns whether all answers of each transcript were found.
fn are_all_told(transcripts: &[Transcript], told: &[usize]) -> bool
    requires { length told.now ≡ length transcripts.now }
    ensures { MatchBool result
        ((vcpu : ℕ) → slice_index_or told.now vcpu 0 ≡ length (slice_index_or transcripts.now vcpu []))
        ((vcpu : ℕ) × (slice_index_or told.now vcpu 0 ≢ length (slice_index_or transcripts.now vcpu []))) }
{
    for vcpu in 0..transcripts.len() {
        if told[vcpu] != transcripts[vcpu].as_slice().len() {
            return false;
        }
    }
    true
}

/// Returns whether each transcript is its virtual processor's part of the guest's log, and the log has operations of no
/// other. Makes one pass over the log. Fails only if memory runs out.
pub(crate) fn are_of_log(
    alloc: Global,
    log: &[GuestRec],
    transcripts: &[Transcript],
) -> Result<bool, AllocError>
    ensures { IfOk result (λ b. MatchBool b (AreOfLog log.now transcripts.now) (¬ AreOfLog log.now transcripts.now)) }
{
    let mut told = vec![in alloc; 0usize; transcripts.len()]?;
    for rec in log {
        if !takes(rec, transcripts, &mut told) {
            return Ok(false);
        }
    }
    Ok(are_all_told(transcripts, &told))
}
