//! The machine's log, taken from its files.

ghost use Rattle.std.specs.Prelude.{◌≡◌, [], ◌∷◌, ◌++◌, ℕ, List, Option, IfErr, IfOk, OnOk};
ghost use Rattle.recorder_files.specs.Said.{CameTo};
ghost use Rattle.recorder_files.specs.declared.lines.Party.TheVariants.{Machine as OfMachine};
ghost use Rattle.recorder_files.specs.Machine.{numbered_line, AreMachineRecs, FileTells, IsMachineLogFault, IsMachineRec};
ghost use Rattle.recorder_files.specs.declared.machine_log.MachineEntry.{MachineEntry as Entry};
ghost use Rattle.recorder_files.specs.inner.Described.{IsTextFault};

use crate::files::{FileFault, FileReader};
use crate::machine_lines::MachineRec;
use std::alloc::{AllocError, Global};
use std::io::Read;
use std::marker::Model;
use text_lines::FaultKind;
use thiserror::Error;

/// A record of the machine's log, with its number.
#[derive(Drop)]
pub struct MachineEntry {
    pub number: u64,
    pub rec: MachineRec,
}

/// Why a file is not one of the machine's log, or was not read.
#[derive(Clone, Copy, Debug, Error)]
pub enum MachineLogFault {
    /// What is wrong with the file.
    #[error("{0}")]
    File(FileFault),
    /// The text of the record of this number is none of the machine's.
    #[error("record {0} is none of the machine's")]
    Record(u64),
    /// Memory was refused.
    #[error("out of memory")]
    Memory,
}

/// The records of the machine's log. Contracts see them in the order in which they came from its files.
#[derive(Drop)]
pub struct MachineLog {
    pub(crate) entries: Vec<MachineEntry>,
}

impl Model for MachineLog {
    ghost use Rattle.std.specs.Prelude.{List};
    ghost use Rattle.recorder_files.specs.Machine.{AreMachineRecs};
    ghost use Rattle.recorder_files.specs.declared.machine_log.MachineEntry.{MachineEntry};

    ghost Value = { List MachineEntry };

    ghost view = { λ a. a.entries.items };

    ghost invariant = { λ a. AreMachineRecs a.entries.items };
}

/// Appends a record of the machine's log.
fn push_entry(
    alloc: Global,
    entries: &mut Vec<MachineEntry>,
    number: u64,
    text: &[u8],
) -> Result<(), MachineLogFault>
    requires { AreMachineRecs entries.old.items }
    ensures are { AreMachineRecs entries.new.items }
    ensures pushed { OnOk result ((e : Entry) × IsMachineRec e.rec × (numbered_line e ≡ (number, text.now)) × (entries.new.items ≡ entries.old.items ++ e ∷ [])) }
    ensures refused { IfErr result (λ fault. IsTextFault text.now number fault) }
{
    match MachineRec::read(alloc, text) {
        Ok(rec) => match entries.push(MachineEntry { number, rec }) {
            Ok(()) => Ok(()),
            Err(_) => Err(MachineLogFault::Memory),
        },
        Err(kind) => {
            if kind == FaultKind::Memory {
                Err(MachineLogFault::Memory)
            } else {
                Err(MachineLogFault::Record(number))
            }
        }
    }
}

impl MachineLog {
    /// Returns a log of no records, with room for so many. It may take more.
    pub fn new(alloc: Global, room: usize) -> Result<Self, AllocError>
        ensures { IfOk result (λ log. log ≡ []) }
    {
        Ok(MachineLog {
            entries: Vec::with_capacity(alloc, room)?,
        })
    }

    /// Takes the records of a file of the machine's log, none of which were read.
    ///
    /// # Errors
    ///
    /// What is wrong with the file, or that a record is none of the machine's. Nothing is promised about the log afterwards.
    pub fn take<R: Read + Drop>(
        &mut self,
        alloc: Global,
        file: &mut FileReader<R>,
    ) -> Result<(), MachineLogFault>
        ensures taken { OnOk result ((known : Option (List ℕ)) → CameTo OfMachine known file.old [] → (entries : List Entry) × FileTells known entries × (self.new ≡ self.old ++ entries)) }
        ensures refused { IfErr result (λ fault. (known : Option (List ℕ)) → CameTo OfMachine known file.old [] → IsMachineLogFault known file.new fault) }
    {
        take_entries(alloc, &mut self.entries, file)
    }
}

/// Appends the records of a file of the machine's log.
fn take_entries<R: Read + Drop>(
    alloc: Global,
    entries: &mut Vec<MachineEntry>,
    file: &mut FileReader<R>,
) -> Result<(), MachineLogFault>
    requires { AreMachineRecs entries.old.items }
    ensures are { AreMachineRecs entries.new.items }
    ensures taken { OnOk result ((known : Option (List ℕ)) → CameTo OfMachine known file.old [] → (more : List Entry) × FileTells known more × (entries.new.items ≡ entries.old.items ++ more)) }
    ensures refused { IfErr result (λ fault. (known : Option (List ℕ)) → CameTo OfMachine known file.old [] → IsMachineLogFault known file.new fault) }
{
    'records: for _ in 0..u64::MAX {
        match file.next() {
            Ok(Some(number)) => push_entry(alloc, entries, number, file.text())?,
            Ok(None) => return Ok(()),
            Err(fault) => return Err(MachineLogFault::File(fault)),
        }
    }
    Err(MachineLogFault::File(FileFault::File))
}
