//! The result of a run.

use audit_report::Report;
use guest_script::Transcript;
use migration_types::{Cert, Seq, Session};
use page_store::Store;
use std::fmt::{self, Debug, Formatter};
use thiserror::Error;

/// What a run left, after it has passed all checks.
#[derive(Drop)]
pub struct Migrated {
    /// What was recorded.
    pub session: Session,
    /// A right certificate for it.
    pub cert: Cert,
    /// What each virtual processor did, with the answers.
    pub transcripts: Seq<Transcript>,
    /// The frames at the target.
    pub store: Store,
}

/// Why a run was refused.
#[derive(Drop, Error)]
pub enum RunFault {
    /// A log had no room for a record.
    #[error("a log is full")]
    LogFull,
    /// Memory ran out.
    #[error("out of memory")]
    Memory,
    /// A thread could not be started.
    #[error("a thread could not be made")]
    Threads,
    /// The recording is not clean. This is the audit's report.
    #[error("the audit refuses what was recorded")]
    AuditRefused(Report),
    /// A transcript is not the script's, or not the guest's log's. Or what is left is not a whole migration: a book is
    /// missing, a record is beyond a session's limits, the source was not told that all pages are placed, an owed page
    /// is not resident, or a page of the frames is not that of one machine that never moved.
    #[error("what is left is not the migration of the script")]
    TranscriptDiffers,
    /// The link failed.
    #[error("the link failed")]
    Link,
}

/// Shows only the name, because a report may hold a whole certificate.
impl Debug for RunFault {
    fn fmt<W: fmt::Write>(&self, f: &mut Formatter<W>) -> fmt::Result {
        f.write_str(match self {
            RunFault::LogFull => "LogFull",
            RunFault::Memory => "Memory",
            RunFault::Threads => "Threads",
            RunFault::AuditRefused(_) => "AuditRefused(..)",
            RunFault::TranscriptDiffers => "TranscriptDiffers",
            RunFault::Link => "Link",
        })
    }
}
