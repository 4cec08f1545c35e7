//! Operations of virtual processors.

ghost use Rattle.std.specs.Prelude.{◌≡◌, ◌<◌, MatchBool};
ghost use Rattle.migration_events.specs.Ops.{OpFits, page_in};

use migration_types::{Geometry, PageNo};

/// An operation of a virtual processor.
#[derive(Clone, Copy, Debug, PartialEq, Eq)]
pub enum Op {
    /// Reads a cell.
    Read { page: PageNo, cell: u16 },
    /// Writes a value to a cell.
    Write { page: PageNo, cell: u16, value: u64 },
    /// Releases a page, which reads as zeros from then on.
    Release { page: PageNo },
}

impl Op {
    /// Returns the page that it is on.
    pub fn page(self) -> PageNo
        ensures { result ≡ page_in self }
    {
        match self {
            Op::Read { page, .. } => page,
            Op::Write { page, .. } => page,
            Op::Release { page } => page,
        }
    }

    /// Returns whether a machine has its page and its cell.
    pub fn fits(self, geometry: Geometry) -> bool
        ensures { MatchBool result (OpFits geometry self) (OpFits geometry self → ⊥) }
    {
        match self {
            Op::Read { page, cell } => has_cell(geometry, page, cell),
            Op::Write {
                page,
                cell,
                value: _,
            } => has_cell(geometry, page, cell),
            Op::Release { page } => geometry.has_page(page),
        }
    }
}

/// Returns whether a machine has a cell.
fn has_cell(geometry: Geometry, page: PageNo, cell: u16) -> bool
    ensures { MatchBool result ((page < geometry.pages) × (cell < geometry.cells)) ((page < geometry.pages) × (cell < geometry.cells) → ⊥) }
{
    geometry.has_page(page) && u32::from(cell) < geometry.cells()
}
