//! The sentences about a record that does not have the right shape.

ghost use Rattle.std.specs.Prelude.{◌≡◌, ◌++◌, OnOk};
ghost use Rattle.story_words.specs.Sentences.{both_told, names_of, rule_of, second_of, shape_told};

use crate::Sentence;
use crate::listing::push_if;
use audit_model::ShapeReason;
use migration_types::Session;
use session_story::{Name, ShapeStory, first_access, named_by, resumed_by};
use std::alloc::AllocError;

/// Returns what a record names, if it names one.
fn names_of(session: &Session, name: Name) -> Option<Sentence>
    ensures { result ≡ names_of session.now name }
{
    let named = named_by(session, name)?;
    Some(Sentence::Names { name, named })
}

/// Returns the `send` that comes before another one of the same page.
fn second_of(sent: Option<u32>) -> Option<Sentence>
    ensures { result ≡ second_of sent }
{
    match sent {
        Some(sent) => Some(Sentence::SentBefore(sent)),
        None => None,
    }
}

/// Returns the rule that a record breaks.
fn rule_of(session: &Session, story: &ShapeStory) -> Option<Sentence>
    ensures { result ≡ rule_of session.now story.now story.now.fault.reason }
{
    let fault = &story.fault;
    match fault.reason {
        ShapeReason::Phases => Some(Sentence::OutOfPhase {
            place: fault.place,
            handover: story.handover,
        }),
        ShapeReason::Named => names_of(session, (fault.log, fault.place)),
        ShapeReason::Start => Some(Sentence::Begins((fault.log, fault.place))),
        ShapeReason::SecondSend => second_of(story.sent),
        ShapeReason::Both => None,
    }
}

/// Appends the resume of a guest that the source starts again, and its first access after that.
fn push_both(
    out: &mut Vec<Sentence>,
    session: &Session,
    resume: Option<u32>,
) -> Result<(), AllocError>
    ensures { OnOk result (out.new.items ≡ out.old.items ++ both_told session.now resume) }
{
    let Some(resume) = resume else {
        return Ok(());
    };
    let access = first_access(session, resume);
    out.extend_from_slice(&[Sentence::ResumedToo(resume), Sentence::FirstAccess(access)])
}

/// Appends the record that does not have the right shape, and the rule that it breaks.
#[tactic(auto, unfolding(crate::specs::Sentences::shape_told))]
pub(crate) fn push_shape(
    out: &mut Vec<Sentence>,
    session: &Session,
    story: &ShapeStory,
) -> Result<(), AllocError>
    ensures { OnOk result (out.new.items ≡ out.old.items ++ shape_told session.now story.now) }
{
    out.extend_from_slice(&[Sentence::Misshapen((story.fault.log, story.fault.place))])?;
    push_if(out, rule_of(session, story))?;
    push_both(out, session, resumed_by(story))
}
