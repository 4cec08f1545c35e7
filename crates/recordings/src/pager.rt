//! Lines of the pager's records.

ghost use Rattle.std.specs.Prelude.{◌≡◌, ◌≢◌, ◌<◌, ◌∷◌, [], ◌++◌, List, ℕ, IfOk, IfErr, IfSome, IfNone, OnOk};
ghost use Rattle.migration_types.specs.Contents.{IsContent};
ghost use Rattle.migration_types.specs.declared.records.PagerRec.{PagerRec};
ghost use Rattle.session_grammar.specs.Records.{placed_text, pager_line};
ghost use Rattle.recordings.specs.Recordings.{IsMachine, IsCount, IsPagerRecOf};
ghost use Rattle.recordings.specs.Wide.{extent_of, pager_of};
ghost use Rattle.session_grammar.specs.inner.Forms.{IsNotice};

use crate::fields::{keyed_whole, lane_number};
use crate::machine::{BEYOND, WideMachine};
use crate::wide::WidePager;
use migration_types::Contents;
use session_grammar::{push_contents, read_page_contents};
use std::alloc::{AllocError, Global};
use text_lines::{
    FaultKind, after_key, end_line, is_line, number_then, push_keyed, push_line, push_then,
};

const GOT_KEY: &[u8] = b"got ";

const PULL_KEY: &[u8] = b"pull ";

const READY: &[u8] = b"ready";

const FAULT_KEY: &[u8] = b"fault ";

const JOIN_KEY: &[u8] = b"join ";

const WANT_KEY: &[u8] = b"want ";

const PLACE_KEY: &[u8] = b"place ";

const ZERO_KEY: &[u8] = b"zero ";

const SKIP_KEY: &[u8] = b"skip ";

const ALL: &[u8] = b"all";

/// Returns the page, the number and the contents that the text spells.
#[inline(always)]
fn placed_whole(
    alloc: Global,
    machine: &WideMachine,
    text: &[u8],
) -> Result<(u64, u64, Contents), FaultKind>
    requires { IsMachine (extent_of machine.now) }
    ensures found { IfOk result (λ a. (a.0 < machine.now.pages) × IsCount a.1 × IsContent machine.now.cells a.2 × (text.now ≡ placed_text a.0 a.1 a.2)) }
    ensures refused { IfErr result (λ kind. kind ≢ FaultKind.Memory → (p n : ℕ) (xs : List ℕ) → p < machine.now.pages → IsCount n → IsContent machine.now.cells xs → text.now ≢ placed_text p n xs) }
{
    let Some((page, rest)) = number_then(text, machine.pages - 1) else {
        return Err(FaultKind::Form);
    };
    let Some((got, rest)) = number_then(rest, BEYOND - 1) else {
        return Err(FaultKind::Form);
    };
    let contents = read_page_contents(alloc, rest, machine.cells)?;
    Ok((page, got, contents))
}

/// Returns the record that a line spells, if it is not a placement.
fn read_notice(machine: &WideMachine, line: &[u8]) -> Option<WidePager>
    requires { IsMachine (extent_of machine.now) }
    ensures found { IfSome result (λ r. IsPagerRecOf machine.now.version (extent_of machine.now) (pager_of r) × (line.now ≡ pager_line (pager_of r))) }
    ensures none { IfNone result ((r : PagerRec) → IsNotice r → IsPagerRecOf machine.now.version (extent_of machine.now) r → line.now ≢ pager_line r) }
{
    if let Some(down) = keyed_whole(line, GOT_KEY, BEYOND) {
        return Some(WidePager::Got { down });
    }
    if let Some(down) = lane_number(machine.version, line, PULL_KEY) {
        return Some(WidePager::Pull { down });
    }
    if let Some(miss) = keyed_whole(line, FAULT_KEY, BEYOND) {
        return Some(WidePager::Fault { miss });
    }
    if let Some(want) = keyed_whole(line, JOIN_KEY, BEYOND) {
        return Some(WidePager::Join { want });
    }
    if let Some(got) = keyed_whole(line, SKIP_KEY, BEYOND) {
        return Some(WidePager::Skip { got });
    }
    if let Some(page) = keyed_whole(line, WANT_KEY, machine.pages) {
        return Some(WidePager::Want { page });
    }
    if let Some(page) = keyed_whole(line, ZERO_KEY, machine.pages) {
        return Some(WidePager::Zero { page });
    }
    if is_line(line, READY) {
        return Some(WidePager::Ready);
    }
    if !is_line(line, ALL) {
        return None;
    }
    Some(WidePager::All)
}

impl WidePager {
    /// Returns the record of the pager that a line spells.
    ///
    /// # Errors
    ///
    /// The line does not spell one, or memory runs out.
    #[inline(always)]
    pub fn read(alloc: Global, machine: &WideMachine, line: &[u8]) -> Result<WidePager, FaultKind>
        requires { IsMachine (extent_of machine.now) }
        ensures found { IfOk result (λ r. IsPagerRecOf machine.now.version (extent_of machine.now) (pager_of r) × (line.now ≡ pager_line (pager_of r))) }
        ensures refused { IfErr result (λ kind. kind ≢ FaultKind.Memory → (r : PagerRec) → IsPagerRecOf machine.now.version (extent_of machine.now) r → line.now ≢ pager_line r) }
    {
        if let Some(text) = after_key(line, PLACE_KEY) {
            let (page, got, contents) = placed_whole(alloc, machine, text)?;
            return Ok(WidePager::Place {
                page,
                got,
                contents,
            });
        }
        match read_notice(machine, line) {
            Some(rec) => Ok(rec),
            None => Err(FaultKind::Form),
        }
    }

    /// Appends its line, with the line feed. Fails only if memory runs out.
    pub fn push(&self, out: &mut Vec<u8>) -> Result<(), AllocError>
        ensures { OnOk result (out.new.items ≡ out.old.items ++ (pager_line (pager_of self.now) ++ 10 ∷ [])) }
    {
        match self {
            WidePager::Got { down } => push_keyed(out, GOT_KEY, *down),
            WidePager::Pull { down } => push_keyed(out, PULL_KEY, *down),
            WidePager::Ready => push_line(out, READY),
            WidePager::Fault { miss } => push_keyed(out, FAULT_KEY, *miss),
            WidePager::Join { want } => push_keyed(out, JOIN_KEY, *want),
            WidePager::Want { page } => push_keyed(out, WANT_KEY, *page),
            WidePager::Place {
                page,
                got,
                contents,
            } => {
                out.extend_from_slice(PLACE_KEY)?;
                push_then(out, *page)?;
                push_then(out, *got)?;
                push_contents(out, contents.as_slice())?;
                end_line(out)
            }
            WidePager::Zero { page } => push_keyed(out, ZERO_KEY, *page),
            WidePager::Skip { got } => push_keyed(out, SKIP_KEY, *got),
            WidePager::All => push_line(out, ALL),
        }
    }
}
