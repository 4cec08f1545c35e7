//! The lines that give the size of a machine.

ghost use Rattle.std.specs.Prelude.{◌≡◌, ◌≢◌, ◌≤◌, ◌++◌, ℕ, IfOk, OnErr, IfErr};
ghost use Rattle.std.specs.Fmt.{decimal};
ghost use Rattle.migration_types.specs.Extents.{IsExtent};
ghost use Rattle.migration_types.specs.Limits.{limits};
ghost use Rattle.session_grammar.specs.Grammar.{pages_key, cells_key};

use crate::keys::{CELLS_KEY, PAGES_KEY};
use migration_types::{Geometry, MOST_CELLS, Size};
use text_lines::{FaultKind, Wanted, read_keyed, read_some};

/// Returns the number of pages that a line gives, from 1 to as many as a machine of this size may have.
pub fn read_pages(size: Size, line: &[u8]) -> Result<u32, FaultKind>
    ensures found { IfOk result (λ n. (1 ≤ n) × (n ≤ (limits size).pages) × (line.now ≡ pages_key ++ decimal n)) }
    ensures refused { OnErr result ((n : ℕ) → 1 ≤ n → n ≤ (limits size).pages → line.now ≢ pages_key ++ decimal n) }
{
    read_some(line, PAGES_KEY, size.limits().pages)
}

/// Returns what is allowed at the line with the number of pages.
pub fn wanted_pages(size: Size) -> Wanted {
    Wanted::one("the number of pages", &["pages N"]).within(1, size.limits().pages)
}

/// Returns the number of cells in each page that a line gives, from 1 to 512. All pages together have at most as many
/// cells as a machine of this size may have.
pub fn read_cells(size: Size, line: &[u8], pages: u32) -> Result<u32, FaultKind>
    ensures found { IfOk result (λ n. IsExtent (record { size = size; pages = pages; cells = n }) × (line.now ≡ cells_key ++ decimal n)) }
    ensures refused { OnErr result ((n : ℕ) → IsExtent (record { size = size; pages = pages; cells = n }) → line.now ≢ cells_key ++ decimal n) }
{
    let cells = read_keyed(line, CELLS_KEY, MOST_CELLS)?;
    match Geometry::with_size(size, pages, cells) {
        Ok(_geometry) => Ok(cells),
        Err(_) => Err(FaultKind::Range),
    }
}

/// Returns what is allowed at the line with the number of cells.
pub fn wanted_cells(size: Size) -> Wanted {
    Wanted::one("the number of cells", &["cells N"])
        .within(1, MOST_CELLS)
        .under(few_cells(size))
}

/// Returns the words for the greatest number of cells of a machine.
fn few_cells(size: Size) -> &'static str {
    match size {
        Size::Small => "the cells of all pages are at most 1,048,576",
        Size::Large => "the cells of all pages are at most 16,777,216",
    }
}
