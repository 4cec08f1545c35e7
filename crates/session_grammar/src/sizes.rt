//! The machine that lines are read for.

use migration_types::Size;
use std::alloc::Global;

/// A machine's size, its number of pages and of cells, and where contents are allocated.
#[derive(Clone, Copy)]
pub struct Sizes {
    pub alloc: Global,
    pub size: Size,
    pub pages: u32,
    pub cells: u32,
}
