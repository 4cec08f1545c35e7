//! The records of a gathered log, taken one after another.

ghost use Rattle.std.specs.Prelude.{◌≡◌, ◌≢◌, ℕ, [], ◌∷◌, ◌++◌, List, Option, IfOk, IfErr, IfNone, IfSome, OnOk, length};
ghost use Rattle.recordings.specs.Recordings.{IsMachine};
ghost use Rattle.recordings.specs.Wide.{extent_of};
ghost use Rattle.recorder_files.specs.declared.lines.Party.{Party};
ghost use Rattle.recorder_files.specs.Logs.{Came};
ghost use Rattle.recorder_files.specs.Records.{IsTakingFault, SayUpTo};
ghost use Rattle.recorder_files.specs.inner.Noting.{IsTextFault, TakesText};

use crate::gatherers::{GatherFault, Gatherer};
use crate::records::LogRecord;
use recordings::WideMachine;
use std::alloc::Global;
use std::io::Read;
use text_lines::FaultKind;
use thiserror::Error;

/// Why files are no log of a party's records.
#[derive(Clone, Copy, Debug, Error)]
pub enum LogFault {
    /// What keeps the files from being those of a log.
    #[error("{0}")]
    Files(GatherFault),
    /// The text of the record of this number is none of the party's.
    #[error("record {0} is none of the party's")]
    Record(u64),
    /// Memory was refused.
    #[error("out of memory")]
    Memory,
}

/// Why a taker does not take a record.
#[derive(Clone, Copy)]
pub enum TakeRefusal {
    /// The record is not for it.
    Unfit,
    /// Memory was refused.
    Memory,
}

/// Why the records of a log were not taken.
#[derive(Clone, Copy)]
pub enum TakingFault {
    /// What is wrong with the log.
    Log(LogFault),
    /// The record of this number is not for the taker.
    Unfit(u64),
}

/// A taker of a log's records, with what they are put onto.
pub trait RecordTaker<K: LogRecord, S> {
    /// From the first taker, with what it put records onto, the second came by these records.
    ghost Takes: { Self → S → Self → S → List K → Type 0 };

    /// The record of this number is not for the taker.
    ghost IsUnfit: { Self → ℕ → K → Type 0 };

    /// Takes the record of this number, which is the next one.
    ///
    /// # Errors
    ///
    /// The record is not for the taker, or memory was refused.
    fn take(&mut self, onto: &mut S, number: u64, rec: K) -> Result<(), TakeRefusal>
        ensures taken { (first : Self) (from : S) (records : List K) → number ≡ length records → Takes first from self.old onto.old records → OnOk result (Takes first from self.new onto.new (records ++ rec ∷ [])) }
        ensures unfit { IfErr result (λ refusal. refusal ≡ TakeRefusal.Unfit → IsUnfit self.old number rec) };
}

/// Takes the record of this number, whose text this is.
#[inline(always)]
fn take_text<K: LogRecord, S, T: RecordTaker<K, S>>(
    alloc: Global,
    machine: &WideMachine,
    text: &[u8],
    number: u64,
    taker: &mut T,
    onto: &mut S,
) -> Result<(), TakingFault>
    requires { IsMachine (extent_of machine.now) }
    ensures taken { OnOk result (TakesText K.line (K.IsOf machine.now) T.Takes text.now number taker.old onto.old taker.new onto.new) }
    ensures refused { IfErr result (λ fault. IsTextFault K.line (K.IsOf machine.now) T.IsUnfit text.now number taker.old fault) }
{
    match K::read_line(alloc, machine, text) {
        Ok(rec) => match taker.take(onto, number, rec) {
            Ok(()) => Ok(()),
            Err(TakeRefusal::Unfit) => Err(TakingFault::Unfit(number)),
            Err(TakeRefusal::Memory) => Err(TakingFault::Log(LogFault::Memory)),
        },
        Err(kind) => {
            if kind == FaultKind::Memory {
                Err(TakingFault::Log(LogFault::Memory))
            } else {
                Err(TakingFault::Log(LogFault::Record(number)))
            }
        }
    }
}

/// Returns the least number of a record that is left, if no file has the next one.
fn missing(fault: GatherFault) -> Option<u64>
    ensures found { IfSome result (λ least. fault ≡ GatherFault.Missing least) }
    ensures none { IfNone result ((n : ℕ) → fault ≢ GatherFault.Missing n) }
{
    match fault {
        GatherFault::Missing(least) => Some(least),
        _ => None,
    }
}

/// Takes the records of a log, which is gathered from its files, up to its end or to the first number that no file has. None of its
/// records may have come yet. Answers `None` at the end, or the least number of a record that is left. Each record is let go when
/// it was taken.
///
/// # Errors
///
/// What is wrong with the files, or that a record is none of the party's, or is not for the taker. Nothing is promised about the taker
/// afterwards.
pub fn take_records<K: LogRecord, S, T: RecordTaker<K, S>, R: Read + Drop>(
    alloc: Global,
    machine: &WideMachine,
    files: &mut Gatherer<R>,
    taker: &mut T,
    onto: &mut S,
) -> Result<Option<u64>, TakingFault>
    requires { IsMachine (extent_of machine.now) }
    ensures taken { IfOk result (λ hole. (party : Party) (knowns : List (Option (List ℕ))) → Came party knowns files.old [] → (records : List K) × SayUpTo K.line (K.IsOf machine.now) party knowns files.new hole records × ((first : T) (from : S) → T.Takes first from taker.old onto.old [] → T.Takes first from taker.new onto.new records)) }
    ensures refused { IfErr result (λ fault. (party : Party) (knowns : List (Option (List ℕ))) → Came party knowns files.old [] → IsTakingFault K.line (K.IsOf machine.now) T.Takes T.IsUnfit party knowns files.new taker.old onto.old fault) }
    ensures to_hole { IfErr result (λ fault. (n : ℕ) → fault ≢ TakingFault.Log (LogFault.Files (GatherFault.Missing n))) }
{
    'records: loop {
        match files.next() {
            Ok(Some(number)) => take_text::<K, S, T>(
                alloc,
                machine,
                files.text(),
                number,
                taker,
                onto,
            )?,
            Ok(None) => return Ok(None),
            Err(fault) => match missing(fault) {
                Some(least) => return Ok(Some(least)),
                None => return Err(TakingFault::Log(LogFault::Files(fault))),
            },
        }
    }
}
