//! The files of a recording's logs.

ghost use Rattle.std.specs.Prelude.{◌≡◌, ℕ, List, [], Option, IfOk, IfErr};
ghost use Rattle.recordings.specs.Recordings.{IsMachine};
ghost use Rattle.recordings.specs.Wide.{extent_of};
ghost use Rattle.migration_types.specs.declared.records.LogName.{LogName as Log};
ghost use Rattle.recorder_files.specs.declared.lines.Party.{Party as Writer};
ghost use Rattle.recorder_files.specs.Logs.{AreBegun};
ghost use Rattle.walked_sessions.specs.Faults.{IsOpenFault};
ghost use Rattle.walked_sessions.specs.inner.Refusing.{IsFaultOf, IsTakeFault};
ghost use Rattle.walked_sessions.specs.inner.Meeting.{WalksLog};

use migration_types::LogName;
use recorder_files::{
    FileFault, FileReader, GatherFault, Gatherer, LogFault, LogRecord, RecordTaker, TakingFault,
    take_records,
};
use recordings::WideMachine;
use std::alloc::{AllocError, Global};
use std::io::Read;
use thiserror::Error;

/// The files of a recording's logs, which can be opened anew for each pass over them.
pub trait LogFiles {
    /// A file.
    type File: Read + Drop;

    /// The bytes of each file of a log, where they are known.
    ghost bytes_of: { Self → Log → List (Option (List ℕ)) };

    /// Opens the files of a log, none of whose records were read.
    ///
    /// # Errors
    ///
    /// What is wrong with one of them in front of its first record, or that memory was refused.
    fn open(&self, alloc: Global, log: LogName) -> Result<Vec<FileReader<Self::File>>, GatherFault>
        ensures opened { IfOk result (λ files. AreBegun (Writer.Of log) (bytes_of self.now log) files.items) }
        ensures refused { IfErr result (IsOpenFault (Writer.Of log) (bytes_of self.now log)) };
}

/// Why the logs of a recording are not gone through.
#[derive(Clone, Copy, Debug, Error)]
pub enum WalkFault {
    /// What is wrong with this log.
    #[error("{1}")]
    Log(LogName, LogFault),
    /// The files of the first log, the link's or the lane's, have a record. And the record of this number of the second log takes a
    /// message without it.
    #[error("record {2} takes a message of a log that has records of its own")]
    OwnLog(LogName, LogName, u64),
    /// The files have changed since the messages were noted.
    #[error("the files have changed")]
    Changed,
    /// Memory was refused.
    #[error("out of memory")]
    Memory,
}

impl From<AllocError> for WalkFault {
    ghost use Rattle.walked_sessions.specs.declared.files.WalkFault.{WalkFault};

    ghost from_gives = { λ _ fault. fault ≡ WalkFault.Memory };

    fn from(_error: AllocError) -> WalkFault {
        WalkFault::Memory
    }
}

/// Returns the fault of a log.
pub(crate) fn fault_of(log: LogName, fault: LogFault) -> WalkFault
    ensures { IsFaultOf log fault result }
{
    match fault {
        LogFault::Memory
        | LogFault::Files(GatherFault::Memory)
        | LogFault::Files(GatherFault::File(_, FileFault::Memory)) => WalkFault::Memory,
        fault => WalkFault::Log(log, fault),
    }
}

/// Takes the records of a log from its files, up to its end or to the first number that no file has. Returns whether it came to the
/// end. Where a record is not for the taker, the fault is `unfit`.
pub(crate) fn take_log<F: LogFiles, K: LogRecord, S, T: RecordTaker<K, S>>(
    alloc: Global,
    machine: &WideMachine,
    files: &F,
    log: LogName,
    unfit: WalkFault,
    taker: &mut T,
    onto: &mut S,
) -> Result<bool, WalkFault>
    requires { IsMachine (extent_of machine.now) }
    ensures taken { IfOk result (WalksLog K.line (K.IsOf machine.now) log (F.bytes_of files.now) (λ records. (first : T) (from : S) → T.Takes first from taker.old onto.old [] → T.Takes first from taker.new onto.new records)) }
    ensures refused { IfErr result (IsTakeFault K.line (K.IsOf machine.now) T.Takes T.IsUnfit log (Writer.Of log) (F.bytes_of files.now log) taker.old onto.old unfit) }
{
    let opened = match files.open(alloc, log) {
        Ok(opened) => opened,
        Err(fault) => return Err(fault_of(log, LogFault::Files(fault))),
    };
    let mut gatherer = match Gatherer::new(alloc, opened) {
        Ok(gatherer) => gatherer,
        Err(fault) => return Err(fault_of(log, LogFault::Files(fault))),
    };
    match take_records::<K, S, T, F::File>(alloc, machine, &mut gatherer, taker, onto) {
        Ok(hole) => Ok(hole.is_none()),
        Err(TakingFault::Log(fault)) => Err(fault_of(log, fault)),
        Err(TakingFault::Unfit(_)) => Err(unfit),
    }
}
