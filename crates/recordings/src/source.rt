//! Lines of the source's records.

ghost use Rattle.std.specs.Prelude.{◌≡◌, ◌≢◌, ◌<◌, ◌∷◌, [], ◌++◌, ◌↔◌, List, ℕ, codes, IfOk, IfErr, IfSome, IfNone, IsTrue, OnOk};
ghost use Rattle.migration_types.specs.Contents.{IsContent};
ghost use Rattle.migration_types.specs.Sessions.{HasBack};
ghost use Rattle.migration_types.specs.declared.records.SourceRec.{SourceRec};
ghost use Rattle.session_grammar.specs.Records.{page_text, source_line};
ghost use Rattle.recordings.specs.Recordings.{IsMachine, IsSourceRecOf};
ghost use Rattle.recordings.specs.Wide.{extent_of, source_of};
ghost use Rattle.session_grammar.specs.inner.Forms.{IsStep};

use crate::fields::keyed_whole;
use crate::machine::{BEYOND, WideMachine};
use crate::wide::WideSource;
use crate::writing::push_page;
use migration_types::{Contents, Size};
use session_grammar::read_page_contents;
use std::alloc::{AllocError, Global};
use text_lines::{FaultKind, after_key, is_line, number_then, push_keyed, push_line};

const HALTED_KEY: &[u8] = b"halted ";

const STATE: &[u8] = b"state";

const SEND_KEY: &[u8] = b"send ";

const AGAIN_KEY: &[u8] = b"again ";

const ASK_KEY: &[u8] = b"ask ";

const DONE: &[u8] = b"done";

const BACK: &[u8] = b"back";

/// Returns the page and the contents that the text spells.
#[inline(always)]
fn sent_whole(
    alloc: Global,
    machine: &WideMachine,
    text: &[u8],
) -> Result<(u64, Contents), FaultKind>
    requires { IsMachine (extent_of machine.now) }
    ensures found { IfOk result (λ a. (a.0 < machine.now.pages) × IsContent machine.now.cells a.1 × (text.now ≡ page_text a.0 a.1)) }
    ensures refused { IfErr result (λ kind. kind ≢ FaultKind.Memory → (p : ℕ) (xs : List ℕ) → p < machine.now.pages → IsContent machine.now.cells xs → text.now ≢ page_text p xs) }
{
    let Some((page, rest)) = number_then(text, machine.pages - 1) else {
        return Err(FaultKind::Form);
    };
    let contents = read_page_contents(alloc, rest, machine.cells)?;
    Ok((page, contents))
}

/// Returns the record that a line spells, if it is not a sending.
fn read_step(machine: &WideMachine, line: &[u8]) -> Option<WideSource>
    ensures found { IfSome result (λ r. IsSourceRecOf (extent_of machine.now) (source_of r) × (line.now ≡ source_line (source_of r))) }
    ensures none { IfNone result ((r : SourceRec) → IsStep r → IsSourceRecOf (extent_of machine.now) r → line.now ≢ source_line r) }
{
    if let Some(up) = keyed_whole(line, ASK_KEY, BEYOND) {
        return Some(WideSource::Ask { up });
    }
    if let Some(sending) = keyed_whole(line, AGAIN_KEY, BEYOND) {
        return Some(WideSource::Again { sending });
    }
    if let Some(halt) = keyed_whole(line, HALTED_KEY, BEYOND) {
        return Some(WideSource::Halted { halt });
    }
    if is_line(line, STATE) {
        return Some(WideSource::State);
    }
    if is_line(line, DONE) {
        return Some(WideSource::Done);
    }
    if !is_back(machine.size, line) {
        return None;
    }
    Some(WideSource::Back)
}

/// Returns whether a line is a `back`, which only the large size has.
fn is_back(size: Size, line: &[u8]) -> bool
    ensures { IsTrue result ↔ (HasBack size × (line.now ≡ codes "back")) }
{
    size == Size::Large && is_line(line, BACK)
}

impl WideSource {
    /// Returns the record of the source that a line spells.
    ///
    /// # Errors
    ///
    /// The line does not spell one, or memory runs out.
    #[inline(always)]
    pub fn read(alloc: Global, machine: &WideMachine, line: &[u8]) -> Result<WideSource, FaultKind>
        requires { IsMachine (extent_of machine.now) }
        ensures found { IfOk result (λ r. IsSourceRecOf (extent_of machine.now) (source_of r) × (line.now ≡ source_line (source_of r))) }
        ensures refused { IfErr result (λ kind. kind ≢ FaultKind.Memory → (r : SourceRec) → IsSourceRecOf (extent_of machine.now) r → line.now ≢ source_line r) }
    {
        if let Some(text) = after_key(line, SEND_KEY) {
            let (page, contents) = sent_whole(alloc, machine, text)?;
            return Ok(WideSource::Send { page, contents });
        }
        match read_step(machine, line) {
            Some(rec) => Ok(rec),
            None => Err(FaultKind::Form),
        }
    }

    /// Appends its line, with the line feed. Fails only if memory runs out.
    pub fn push(&self, out: &mut Vec<u8>) -> Result<(), AllocError>
        ensures { OnOk result (out.new.items ≡ out.old.items ++ (source_line (source_of self.now) ++ 10 ∷ [])) }
    {
        match self {
            WideSource::Halted { halt } => push_keyed(out, HALTED_KEY, *halt),
            WideSource::State => push_line(out, STATE),
            WideSource::Send { page, contents } => push_page(
                out,
                SEND_KEY,
                *page,
                contents.as_slice(),
            ),
            WideSource::Again { sending } => push_keyed(out, AGAIN_KEY, *sending),
            WideSource::Ask { up } => push_keyed(out, ASK_KEY, *up),
            WideSource::Done => push_line(out, DONE),
            WideSource::Back => push_line(out, BACK),
        }
    }
}
