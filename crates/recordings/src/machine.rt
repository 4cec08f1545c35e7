//! The machine of a recording.

use migration_types::{Size, Version};

/// The bound of a recording's numbers: the numbers of pages and of records, and how many there are, are below it.
pub const BEYOND: u64 = 1 << 63;

/// How many pages a machine has, and how many cells each page has, with the version and the size that its text gives.
/// The limits of that size do not apply to a recording.
#[derive(Clone, Copy)]
pub struct WideMachine {
    pub version: Version,
    pub size: Size,
    pub pages: u64,
    pub cells: u32,
}
