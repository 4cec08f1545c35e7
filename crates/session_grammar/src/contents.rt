//! A page's contents in hexadecimal.

ghost use Rattle.std.specs.Prelude.{◌≡◌, ◌≢◌, ◌*◌, List, ℕ, IfOk, IfErr};
ghost use Rattle.text_lines.specs.Contents.{contents_text};
ghost use Rattle.migration_types.specs.Contents.{IsContent};

use migration_types::Contents;
use std::alloc::Global;
use text_lines::{FaultKind, read_cell};

/// Returns the values of a page's cells that a text spells, cell 0 first. Allocates no memory for a text of the wrong
/// length.
fn read_contents(alloc: Global, text: &[u8], cells: u32) -> Result<Vec<u64>, FaultKind>
    ensures found { IfOk result (λ v. IsContent cells v.items × (text.now ≡ contents_text v.items)) }
    ensures refused { IfErr result (λ kind. kind ≢ FaultKind.Memory → (xs : List ℕ) → IsContent cells xs → text.now ≢ contents_text xs) }
{
    let count = cells as usize;
    if text.len() != 16 * count {
        return Err(FaultKind::Form);
    }
    let Ok(mut items) = Vec::with_capacity(alloc, count) else {
        return Err(FaultKind::Memory);
    };
    let mut rest = text;
    for _ in 0..cells {
        let (word, after) = rest.split_at(16);
        let Some(x) = read_cell(word) else {
            return Err(FaultKind::Form);
        };
        let Ok(()) = items.push(x) else {
            return Err(FaultKind::Memory);
        };
        rest = after;
    }
    Ok(items)
}

/// Returns the values of a page's cells that a text spells, cell 0 first. Allocates no memory for a page of one cell.
pub fn read_page_contents(alloc: Global, text: &[u8], cells: u32) -> Result<Contents, FaultKind>
    ensures found { IfOk result (λ xs. IsContent cells xs × (text.now ≡ contents_text xs)) }
    ensures refused { IfErr result (λ kind. kind ≢ FaultKind.Memory → (xs : List ℕ) → IsContent cells xs → text.now ≢ contents_text xs) }
{
    if cells == 1 {
        let Some(value) = read_cell(text) else {
            return Err(FaultKind::Form);
        };
        return Ok(Contents::one(value));
    }
    let values = read_contents(alloc, text, cells)?;
    Ok(Contents::from_vec(values))
}
