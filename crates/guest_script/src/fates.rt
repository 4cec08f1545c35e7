//! Lines of delivery outcomes.

ghost use Rattle.std.specs.Prelude.{◌≡◌, ◌≢◌, ◌≤◌, ◌<◌, List, ◌++◌, length, map, IfOk, IfErr, MatchOption};
ghost use Rattle.migration_events.specs.declared.events.Fate.{Fate as Met};
ghost use Rattle.guest_script.specs.Scripts.{fate_letter, fates_text};

use crate::MOST_FATES;
use migration_events::Fate;
use migration_types::Seq;
use std::alloc::Global;
use text_lines::{FaultKind, Wanted, after_key, is_line};

/// The word for no delivery outcomes.
const NONE: &[u8] = b"-";

/// Returns the delivery outcome that a letter stands for.
fn fate_of(letter: u8) -> Option<Fate>
    ensures { MatchOption result ((fate : Met) → letter ≢ fate_letter fate) (λ fate. letter ≡ fate_letter fate) }
{
    match letter {
        b'd' => Some(Fate::Deliver),
        b'l' => Some(Fate::Lose),
        b'r' => Some(Fate::Repeat),
        b'b' => Some(Fate::Back),
        _ => None,
    }
}

/// Returns the delivery outcomes that letters stand for.
fn read_letters(alloc: Global, letters: &[u8]) -> Result<Vec<Fate>, FaultKind>
    ensures found { IfOk result (λ fates. letters.now ≡ map fate_letter fates.items) }
    ensures refused { IfErr result (λ kind. kind ≢ FaultKind.Memory → (fates : List Met) → letters.now ≢ map fate_letter fates) }
{
    let mut fates = Vec::new(alloc);
    for letter in letters {
        let Some(fate) = fate_of(*letter) else {
            return Err(FaultKind::Form);
        };
        if fates.push(fate).is_err() {
            return Err(FaultKind::Memory);
        }
    }
    Ok(fates)
}

/// Returns the delivery outcomes after a key that a line spells, at most 4,096. Allocates no memory for a line with
/// more.
pub fn read_fates(alloc: Global, line: &[u8], key: &[u8]) -> Result<Seq<Fate>, FaultKind>
    ensures found { IfOk result (λ fates. (length fates ≤ 4096) × (line.now ≡ key.now ++ fates_text fates)) }
    ensures refused { IfErr result (λ kind. kind ≢ FaultKind.Memory → (fates : List Met) → length fates ≤ 4096 → line.now ≢ key.now ++ fates_text fates) }
{
    let Some(text) = after_key(line, key) else {
        return Err(FaultKind::Form);
    };
    if is_line(text, NONE) {
        return Ok(Seq::from_vec(Vec::new(alloc)));
    }
    if text.is_empty() || text.len() > MOST_FATES as usize {
        return Err(FaultKind::Form);
    }
    let fates = read_letters(alloc, text)?;
    Ok(Seq::from_vec(fates))
}

/// Returns what is allowed at a line of delivery outcomes.
pub fn wanted_fates(what: &'static str, forms: &'static [&'static str]) -> Wanted {
    Wanted::one(what, forms).within(1, MOST_FATES)
}
