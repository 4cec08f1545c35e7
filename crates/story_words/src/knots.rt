//! The sentences about records that wait for one another.

ghost use Rattle.std.specs.Prelude.{◌≡◌, ◌++◌, OnOk};
ghost use Rattle.story_words.specs.Sentences.{knot_told, waits_told};

use crate::Sentence;
use session_story::Knot;
use std::alloc::AllocError;

/// Appends what each of the records waits for.
fn push_waits(out: &mut Vec<Sentence>, knot: &Knot) -> Result<(), AllocError>
    ensures { OnOk result (out.new.items ≡ out.old.items ++ waits_told knot.now 0 knot.now.waits.items) }
{
    for index in 0..knot.waits.len() {
        out.extend_from_slice(&[Sentence::Waits {
            waiting: knot.waits[index],
            next: knot.next(index),
        }])?;
    }
    Ok(())
}

/// Appends that there is no order, and why.
#[tactic(auto, unfolding(crate::specs::Sentences::knot_told))]
pub(crate) fn push_knot(out: &mut Vec<Sentence>, knot: &Knot) -> Result<(), AllocError>
    ensures { OnOk result (out.new.items ≡ out.old.items ++ knot_told knot.now) }
{
    out.extend_from_slice(&[Sentence::NoOrder])?;
    push_waits(out, knot)
}
