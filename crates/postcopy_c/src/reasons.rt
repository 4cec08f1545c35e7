//! The numbers for reasons, in their order: those for shape from 1, and those for pages from 11. 0 is no reason.

ghost use Rattle.std.specs.Prelude.{◌≡◌};
ghost use Rattle.postcopy_c.specs.Numbers.{shape_number, page_number};

use audit_model::{PageReason, ShapeReason};

/// The number for the first reason for shape.
const OF_SHAPE: u32 = 1;

/// The number for the first reason for pages.
const OF_PAGES: u32 = 11;

/// Returns the number for a reason for shape.
pub(crate) fn number_of_shape(reason: ShapeReason) -> u32
    ensures { result ≡ shape_number reason }
{
    OF_SHAPE + reason as u32
}

/// Returns the number for a reason for pages.
pub(crate) fn number_of_page(reason: PageReason) -> u32
    ensures { result ≡ page_number reason }
{
    OF_PAGES + reason as u32
}
