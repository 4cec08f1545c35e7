//! What an operation at the target comes to.

use migration_types::PageNo;

/// The result of an operation at the target.
#[derive(Clone, Copy, Debug, PartialEq, Eq)]
pub enum Access {
    /// It was done, with this answer.
    Done(u64),
    /// Its page was missed.
    Missed,
    /// The virtual processor has a pending miss, or the guest has not resumed.
    Waiting,
}

/// A miss that the pager has not taken.
#[derive(Clone, Copy, Debug, PartialEq, Eq)]
pub struct UntakenMiss {
    /// The number of its record in the guest's log.
    pub number: u32,
    /// The virtual processor that missed.
    pub vcpu: u8,
    /// The page that it missed.
    pub page: PageNo,
}
