//! The records of the machine's log.

ghost use Rattle.std.specs.Prelude.{◌≡◌, ◌≢◌, ◌≤◌, ◌++◌, ◌∷◌, ℕ, Bool, Option, IfSome, IfNone, IfOk, IfErr};
ghost use Rattle.std.specs.Fmt.{decimal};
ghost use Rattle.migration_types.specs.Limits.{most_cells};
ghost use Rattle.session_grammar.specs.Records.{page_text};
ghost use Rattle.recordings.specs.declared.wide.WideInit.{WideInit as Wide};
ghost use Rattle.recorder_files.specs.Machine.{cells_text, lane_digit, machine_line, outline_text, IsMachineRec, IsOutline, IsToldPage};
ghost use Rattle.recorder_files.specs.declared.machine_lines.MachineRec.{MachineRec as Rec};
ghost use Rattle.recorder_files.specs.declared.machine_lines.Outline.{Outline as Outlined};

use migration_types::MOST_CELLS;
use recordings::{BEYOND, WideInit};
use session_grammar::{PAGES_KEY, read_page_contents};
use std::alloc::Global;
use text_lines::{FaultKind, after_key, is_line, number_then, read_some};

const PAGE_KEY: &[u8] = b"page ";

/// The digits of a cell.
const CELL: usize = 16;

/// What is told of a machine as a whole.
#[derive(Clone, Copy)]
pub struct Outline {
    /// How many pages it has.
    pub pages: u64,
    /// How many cells a page has.
    pub cells: u32,
    /// Whether the recording has a log of the lane. Recorders of before do not tell that.
    pub has_lane: Option<bool>,
}

/// A record of the machine's log.
#[derive(Drop)]
pub enum MachineRec {
    /// What is told of the whole.
    Pages(Outline),
    /// What a page holds at first, which may be zeros.
    Page(WideInit),
}

/// Returns whether there is a log of the lane, if a text is the digit that tells that.
fn read_lane(text: &[u8]) -> Option<bool>
    ensures found { IfSome result (λ has. text.now ≡ lane_digit has) }
    ensures none { IfNone result ((has : Bool) → text.now ≢ lane_digit has) }
{
    if is_line(text, b"1") {
        return Some(true);
    }
    if is_line(text, b"0") {
        return Some(false);
    }
    None
}

/// Returns how many cells a page has, and whether there is a log of the lane, if a text tells these.
fn read_cells(text: &[u8]) -> Option<(u32, Option<bool>)>
    ensures found { IfSome result (λ a. (1 ≤ a.0) × (a.0 ≤ most_cells) × (text.now ≡ cells_text a.0 a.1)) }
    ensures none { IfNone result ((c : ℕ) (lane : Option Bool) → 1 ≤ c → c ≤ most_cells → text.now ≢ cells_text c lane) }
{
    if let Ok(cells) = read_some(text, b"", MOST_CELLS) {
        return Some((cells, None));
    }
    let Some((cells, text)) = number_then(text, u64::from(MOST_CELLS)) else {
        return None;
    };
    if cells == 0 {
        return None;
    }
    match read_lane(text) {
        Some(has_lane) => Some((cells as u32, Some(has_lane))),
        None => None,
    }
}

/// Returns what is told of the whole, if a text tells it.
fn read_outline(text: &[u8]) -> Option<Outline>
    ensures found { IfSome result (λ o. IsOutline o × (text.now ≡ outline_text o)) }
    ensures none { IfNone result ((o : Outlined) → IsOutline o → text.now ≢ outline_text o) }
{
    let Some((pages, rest)) = number_then(text, BEYOND - 1) else {
        return None;
    };
    if pages == 0 {
        return None;
    }
    match read_cells(rest) {
        Some((cells, has_lane)) => Some(Outline {
            pages,
            cells,
            has_lane,
        }),
        None => None,
    }
}

/// Returns the page that a text spells, with its contents: one or more cells.
fn read_page(alloc: Global, text: &[u8]) -> Result<WideInit, FaultKind>
    ensures found { IfOk result (λ p. IsToldPage p × (text.now ≡ page_text p.page p.cells)) }
    ensures refused { IfErr result (λ kind. kind ≢ FaultKind.Memory → (p : Wide) → IsToldPage p → text.now ≢ page_text p.page p.cells) }
{
    let Some((page, text)) = number_then(text, u64::MAX) else {
        return Err(FaultKind::Form);
    };
    let count = text.len() / CELL;
    if count == 0 || count > MOST_CELLS as usize {
        return Err(FaultKind::Form);
    }
    let cells = read_page_contents(alloc, text, count as u32)?;
    Ok(WideInit { page, cells })
}

impl MachineRec {
    /// Returns the record of the machine that a line spells.
    ///
    /// # Errors
    ///
    /// The line spells none, or memory was refused for the contents.
    pub fn read(alloc: Global, line: &[u8]) -> Result<MachineRec, FaultKind>
        ensures found { IfOk result (λ r. IsMachineRec r × (line.now ≡ machine_line r)) }
        ensures refused { IfErr result (λ kind. kind ≢ FaultKind.Memory → (r : Rec) → IsMachineRec r → line.now ≢ machine_line r) }
    {
        if let Some(text) = after_key(line, PAGES_KEY) {
            return match read_outline(text) {
                Some(outline) => Ok(MachineRec::Pages(outline)),
                None => Err(FaultKind::Form),
            };
        }
        let Some(text) = after_key(line, PAGE_KEY) else {
            return Err(FaultKind::Form);
        };
        match read_page(alloc, text) {
            Ok(page) => Ok(MachineRec::Page(page)),
            Err(kind) => Err(kind),
        }
    }
}
