//! The geometry of a machine: how many pages and cells it has.

ghost use Rattle.std.specs.Prelude.{◌≡◌, ◌<◌, MatchBool, MatchResult};
ghost use Rattle.migration_types.specs.declared.size.Size.TheVariants.{Small};
ghost use Rattle.migration_types.specs.Extents.{IsExtent, IsGeometryFault};

use crate::pages::PageNo;
use crate::size::Size;
use std::marker::Model;
use thiserror::Error;

/// The geometry of a machine: how many pages it has, and how many cells each page has, within the limits of its size.
#[derive(Clone, Copy, Debug, PartialEq, Eq)]
pub struct Geometry {
    size: Size,
    pages: u32,
    cells: u32,
}

impl Model for Geometry {
    ghost use Rattle.migration_types.specs.Extents.{Extent, IsExtent};

    ghost Value = { Extent };

    ghost view = { λ a. record { size = a.size; pages = a.pages; cells = a.cells } };

    ghost invariant = { λ a. IsExtent (record { size = a.size; pages = a.pages; cells = a.cells }) };

    ghost inverse = { λ e. record { size = e.size; pages = e.pages; cells = e.cells } };
}

/// Why no machine has this many pages and cells.
#[derive(Clone, Copy, Debug, PartialEq, Eq, Error)]
pub enum GeometryFault {
    /// No page, or more pages than the size allows.
    #[error("a machine has at least one page, and no more than its size allows")]
    Pages,
    /// The number of cells in a page is not 1 to 512.
    #[error("a page has 1 to 512 cells")]
    Cells,
    /// More cells in all pages than the size allows.
    #[error("a machine has no more cells than its size allows")]
    TooMany,
}

/// The greatest number of cells in a page.
pub const MOST_CELLS: u32 = 512;

impl Geometry {
    /// Returns a machine of 1 to 65,536 pages, each of 1 to 512 cells, and at most 1,048,576 cells in all. If several
    /// limits are missed, the error is the first of them.
    pub fn new(pages: u32, cells: u32) -> Result<Self, GeometryFault>
        ensures { MatchResult result (λ g. (g ≡ record { size = Small; pages = pages; cells = cells }) × IsExtent g) (IsGeometryFault Small pages cells) }
    {
        Geometry::with_size(Size::Small, pages, cells)
    }

    /// Returns a machine of this size, with this many pages of this many cells each. If several limits are missed, the
    /// error is the first of them.
    #[tactic(auto, using(crate::specs::Limits::limits_at_most))]
    pub fn with_size(size: Size, pages: u32, cells: u32) -> Result<Self, GeometryFault>
        ensures { MatchResult result (λ g. (g ≡ record { size = size; pages = pages; cells = cells }) × IsExtent g) (IsGeometryFault size pages cells) }
    {
        let limits = size.limits();
        if pages == 0 || pages > limits.pages {
            return Err(GeometryFault::Pages);
        }
        if cells == 0 || cells > MOST_CELLS {
            return Err(GeometryFault::Cells);
        }
        if u64::from(pages) * u64::from(cells) > u64::from(limits.cells) {
            return Err(GeometryFault::TooMany);
        }
        Ok(Geometry { size, pages, cells })
    }

    /// Returns the size that sets its limits.
    pub fn size(self) -> Size
        ensures { result ≡ self.size }
    {
        self.size
    }

    /// Returns how many pages there are.
    pub fn pages(self) -> u32
        ensures { result ≡ self.pages }
    {
        self.pages
    }

    /// Returns how many cells each page has.
    pub fn cells(self) -> u32
        ensures { result ≡ self.cells }
    {
        self.cells
    }

    /// Returns whether the machine has this page.
    pub fn has_page(self, page: PageNo) -> bool
        ensures { MatchBool result (page < self.pages) (page < self.pages → ⊥) }
    {
        page.number() < self.pages
    }

    /// States that it is within the limits.
    pub fn keeps_limits(self)
        ensures { IsExtent self }
    {}
}
