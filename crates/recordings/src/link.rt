//! Lines of the link's records.

ghost use Rattle.std.specs.Prelude.{◌≡◌, ◌≢◌, ◌∷◌, [], ◌++◌, IfOk, IfErr, OnOk};
ghost use Rattle.migration_types.specs.declared.records.LinkRec.{LinkRec};
ghost use Rattle.session_grammar.specs.Records.{link_line};
ghost use Rattle.recordings.specs.Recordings.{IsLinkRecOf};
ghost use Rattle.recordings.specs.Wide.{link_of};

use crate::fields::keyed_whole;
use crate::machine::BEYOND;
use crate::wide::WideLink;
use std::alloc::AllocError;
use text_lines::{FaultKind, push_keyed};

/// The beginning of the line of a delivery down.
pub(crate) const DOWN_KEY: &[u8] = b"down ";

const UP_KEY: &[u8] = b"up ";

impl WideLink {
    /// Returns the record of the link that a line spells.
    ///
    /// # Errors
    ///
    /// The line does not spell one.
    #[inline(always)]
    pub fn read(line: &[u8]) -> Result<WideLink, FaultKind>
        ensures found { IfOk result (λ r. IsLinkRecOf (link_of r) × (line.now ≡ link_line (link_of r))) }
        ensures refused { IfErr result (λ kind. kind ≢ FaultKind.Memory → (r : LinkRec) → IsLinkRecOf r → line.now ≢ link_line r) }
        ensures kind { IfErr result (λ kind. kind ≢ FaultKind.Memory) }
    {
        if let Some(sending) = keyed_whole(line, DOWN_KEY, BEYOND) {
            return Ok(WideLink::Down { sending });
        }
        match keyed_whole(line, UP_KEY, BEYOND) {
            Some(asking) => Ok(WideLink::Up { asking }),
            None => Err(FaultKind::Form),
        }
    }

    /// Appends its line, with the line feed. Fails only if memory runs out.
    pub fn push(&self, out: &mut Vec<u8>) -> Result<(), AllocError>
        ensures { OnOk result (out.new.items ≡ out.old.items ++ (link_line (link_of self.now) ++ 10 ∷ [])) }
    {
        match *self {
            WideLink::Down { sending } => push_keyed(out, DOWN_KEY, sending),
            WideLink::Up { asking } => push_keyed(out, UP_KEY, asking),
        }
    }
}
