//! What is missing from a clean session, as numbers and as a line in the caller's room.

ghost use Rattle.std.specs.Prelude.{◌≡◌, ◌≢◌, ◌⊎◌};
ghost use Rattle.audit_model.specs.World.{IsSafe};
ghost use Rattle.judged_texts.specs.Checked.{SpellsOneSession, OfSpelled};
ghost use Rattle.judged_texts.specs.Audited.{IsSafeExactlyIf, IsUnsafe};
ghost use Rattle.postcopy_c.specs.Showings.{IsHeld, IsMissingAnswer, SaysSafe};

use crate::answer::PostcopyAnswer;
use crate::kinds::{CLEAN, FAULTY, INCOMPLETE, NO_MEMORY, SESSION_TEXT};
use crate::showing::{ShownAs, tell_shown};
use completeness::Extent;
use std::alloc::Global;

/// Returns an answer with another kind if something is missing from a clean session.
fn held_to_complete(answer: &PostcopyAnswer) -> PostcopyAnswer
    ensures held { IsHeld answer.now result }
    ensures kinds { (result.kind ≡ answer.now.kind) ⊎ ((answer.now.kind ≡ CLEAN) × (result.kind ≡ INCOMPLETE)) }
{
    if answer.kind == CLEAN && 0 < answer.text_len {
        PostcopyAnswer {
            kind: INCOMPLETE,
            line: answer.line,
            reason: answer.reason,
            text_len: answer.text_len,
        }
    } else {
        *answer
    }
}

/// Says what is missing for this extent from the session that a text spells: as an answer, and as a line in the room.
pub(crate) fn tell_missing(
    alloc: Global,
    session: &[u8],
    extent: Extent,
    room: &mut [u8],
) -> PostcopyAnswer
    ensures told { IsMissingAnswer extent session.now room.old room.new result }
    ensures one_session { result.kind ≢ SESSION_TEXT → result.kind ≢ NO_MEMORY → SpellsOneSession session.now }
    ensures safe { SaysSafe result.kind → OfSpelled session.now IsSafe }
    ensures exactly { result.kind ≢ NO_MEMORY → OfSpelled session.now (IsSafeExactlyIf (SaysSafe result.kind)) }
    ensures faulty { result.kind ≡ FAULTY → OfSpelled session.now IsUnsafe }
{
    let shown = tell_shown(alloc, session, ShownAs::Lack(extent), room);
    held_to_complete(&shown)
}
