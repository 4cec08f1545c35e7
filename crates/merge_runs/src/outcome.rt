//! The result of replaying a merging.

use migration_types::LogName;
use page_store::Store;
use thiserror::Error;

/// Why no merging was replayed.
#[derive(Clone, Copy, Debug, PartialEq, Eq, Error)]
pub enum MergeFault {
    /// The runs do not spell a merging.
    #[error("the runs are no merging of the session's logs")]
    NoMerging,
    /// Memory ran out for the replay.
    #[error("no memory for the replay")]
    Memory,
}

/// The result of replaying a merging.
#[derive(Drop)]
pub struct Replay {
    /// The first record whose demand fails, by its log and its number there, or `None` if the order is safe.
    pub first_broken: Option<(LogName, u32)>,
    /// The guest's memory after all records: the target's once the guest was resumed there, and the source's before.
    pub memory: Store,
}
