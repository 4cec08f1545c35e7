//! The sentences of a page's story.

ghost use Rattle.std.specs.Prelude.{◌≡◌, ◌++◌, OnOk};
ghost use Rattle.story_words.specs.Sentences.{again_of, delivery_of, is_by_lane, story_told, use_told, way_told};

use crate::Sentence;
use crate::listing::push_if;
use migration_types::{LogName, PagerRec, Session};
use session_story::{Handover, PageStory};
use std::alloc::AllocError;

/// Returns whether the story tells the lane's delivery of a page: the pager takes this one, or there is no other.
fn is_by_lane(session: &Session, got: Option<u32>, delivered: Option<u32>) -> bool
    ensures { result ≡ is_by_lane session.now got delivered }
{
    match got {
        Some(got) => matches!(
            session.pager().get(got as usize),
            Some(PagerRec::Pull { .. })
        ),
        None => delivered.is_none(),
    }
}

/// Returns the delivery of a page, by the link or by the lane.
fn delivery_of(session: &Session, page: &PageStory) -> Sentence
    ensures { result ≡ delivery_of session.now page.now }
{
    if is_by_lane(session, page.got, page.delivered) {
        Sentence::Delivery {
            log: LogName::Lane,
            place: page.by_lane,
        }
    } else {
        Sentence::Delivery {
            log: LogName::Link,
            place: page.delivered,
        }
    }
}

/// Returns the second placement of a page, if there is one.
fn again_of(page: &PageStory) -> Option<Sentence>
    ensures { result ≡ again_of page.now }
{
    match page.found.again {
        Some(again) => Some(Sentence::SecondPlacement(again)),
        None => None,
    }
}

/// Appends how a page came to the target.
#[tactic(auto, unfolding(crate::specs::Sentences::way_told))]
fn push_way(
    out: &mut Vec<Sentence>,
    session: &Session,
    page: &PageStory,
    halt: Option<u32>,
) -> Result<(), AllocError>
    ensures { OnOk result (out.new.items ≡ out.old.items ++ way_told session.now page.now halt) }
{
    out.extend_from_slice(&[
        Sentence::StoryOf(page.page),
        Sentence::Change {
            halted: halt.is_some(),
            place: page.changed,
        },
        Sentence::Halt(halt),
        Sentence::Sending(page.sent),
        delivery_of(session, page),
        Sentence::Taking(page.got),
        Sentence::Placement(page.found.placement),
    ])
}

/// Appends what became of a page at the target.
#[tactic(auto, unfolding(crate::specs::Sentences::use_told))]
fn push_use(out: &mut Vec<Sentence>, page: &PageStory) -> Result<(), AllocError>
    ensures { OnOk result (out.new.items ≡ out.old.items ++ use_told page.now) }
{
    let found = &page.found;
    out.extend_from_slice(&[
        Sentence::FirstLook(found.look),
        Sentence::FirstUse {
            releases: found.releases,
            place: found.touch,
        },
    ])
}

/// Appends a page's story, in the order in which it should happen.
#[tactic(auto, unfolding(crate::specs::Sentences::story_told))]
pub(crate) fn push_story(
    out: &mut Vec<Sentence>,
    session: &Session,
    page: &PageStory,
    handover: &Handover,
) -> Result<(), AllocError>
    ensures { OnOk result (out.new.items ≡ out.old.items ++ story_told session.now page.now handover.now) }
{
    push_way(out, session, page, handover.halt)?;
    push_if(out, again_of(page))?;
    push_use(out, page)
}
