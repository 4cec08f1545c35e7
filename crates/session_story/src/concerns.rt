//! The other record in the story of a fault: the one that the fault concerns.

ghost use Rattle.std.specs.Prelude.{◌≡◌, slice_get};
ghost use Rattle.session_story.specs.Concerned.{concerned_in, concerned_of, heeded, is_number, resumed_by, shape_concerned_by};

use crate::concerned::concerned_by;
use crate::explanations::Explanation;
use crate::fault_stories::{FaultStory, ShapeStory};
use crate::topic_stories::TopicStory;
use crate::{Handover, Name, named_by, named_in};
use audit_model::ShapeReason;
use migration_types::{GuestRec, LogName, Session};

/// Returns whether the number is this one.
fn is_number(n: u32, number: Option<u32>) -> bool
    ensures { result ≡ is_number n number }
{
    match number {
        Some(number) => number == n,
        None => false,
    }
}

/// Returns the record of the handover that the guest's record of this number must take into account.
fn heeded(handover: &Handover, n: u32, rec: Option<GuestRec>) -> Option<u32>
    ensures { result ≡ heeded handover.now n rec }
{
    match rec {
        Some(GuestRec::Resume { .. }) if is_number(n, handover.resume) => handover.halt,
        Some(GuestRec::Resume { .. } | GuestRec::Miss { .. } | GuestRec::See { .. }) => {
            handover.resume
        }
        _ => handover.halt,
    }
}

/// Returns the resume of a guest that the source starts again, by its number in the guest's log, or `None` for any
/// other fault of a record's shape.
pub fn resumed_by(story: &ShapeStory) -> Option<u32>
    ensures { result ≡ resumed_by story.now }
{
    match story.fault.reason {
        ShapeReason::Both => story.handover.resume,
        _ => None,
    }
}

/// Returns the other record that a fault of a record's shape concerns.
fn shape_concerned_by(session: &Session, story: &ShapeStory) -> Option<Name>
    ensures { result ≡ shape_concerned_by session.now story.now }
{
    let fault = &story.fault;
    match fault.reason {
        ShapeReason::Phases => {
            let rec = session.guest().get(fault.place as usize).copied();
            named_in(LogName::Guest, heeded(&story.handover, fault.place, rec))
        }
        ShapeReason::Named => named_by(session, (fault.log, fault.place)),
        ShapeReason::Start => None,
        ShapeReason::SecondSend => named_in(LogName::Source, story.sent),
        ShapeReason::Both => named_in(LogName::Guest, resumed_by(story)),
    }
}

/// Returns the record that a fault of a page concerns, if the story has one.
fn concerned_in(fault: &Option<FaultStory>) -> Option<Name>
    ensures { result ≡ concerned_in fault.now }
{
    match fault {
        Some(story) => concerned_by(story),
        None => None,
    }
}

/// Returns the record that the story tells besides the faulty one, because the fault concerns it, by log and number.
/// Returns `None` if there is no fault, or no such record. Allocates no memory.
pub fn concerned_of(session: &Session, told: &TopicStory) -> Option<(LogName, u32)>
    ensures { result ≡ concerned_of session.now told.now }
{
    if let TopicStory::Report(Explanation::Shape { story, .. }) = told {
        return shape_concerned_by(session, story);
    }
    concerned_in(&told.fault())
}
