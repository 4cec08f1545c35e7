//! The sentences about a page's fault.

ghost use Rattle.std.specs.Prelude.{◌≡◌, ◌++◌, OnOk};
ghost use Rattle.story_words.specs.Sentences.{caused_first, caused_told, cause_told, contents_of, contents_told, early_told, fault_told, faulty_told, first_sending, order_of, origin_at, origin_by, origin_of, over_told, place_of, plain_told, shows_of, source_of, unseen_told, wrong_told, wrongly_told};

use crate::Sentence;
use crate::listing::push_if;
use audit_model::{PageReason, delivery};
use migration_types::{LogName, PagerRec, Session, SourceRec};
use session_story::{
    CellValue, Detail, FaultStory, Look, Name, PageCause, came_to, cause_by, is_used_by, value_at,
};
use std::alloc::AllocError;

/// Returns what the contents of a record have in a cell whose value in the page is another at the halt, if the record
/// has contents.
fn contents_of(session: &Session, name: Name, at_halt: CellValue) -> Option<Sentence>
    ensures { result ≡ contents_of session.now name at_halt }
{
    let value = value_at(session, name, at_halt.cell)?;
    Some(Sentence::Contents {
        name,
        value,
        at_halt,
    })
}

/// Returns the first sending of the page that a source's record sends.
fn first_sending(session: &Session, sending: u32) -> u32
    ensures { result ≡ first_sending session.now sending }
{
    match session.source().get(sending as usize) {
        Some(SourceRec::Again { sending }) => *sending,
        _ => sending,
    }
}

/// Returns what the first sending has in a cell, for the page that the pager's record took.
fn origin_at(session: &Session, got: u32, cell: u16, sending: u32) -> Option<Sentence>
    ensures { result ≡ origin_at session.now got cell sending }
{
    let value = value_at(session, (LogName::Source, sending), cell)?;
    Some(Sentence::SentWith {
        got,
        value,
        sending,
    })
}

/// Returns what was sent in a cell of the page that a record of the pager places, if it is a `place`.
fn origin_by(session: &Session, cell: u16, rec: &PagerRec) -> Option<Sentence>
    ensures { result ≡ origin_by session.now cell rec.now }
{
    match rec {
        PagerRec::Place { got, .. } => {
            let sending = delivery(session, *got)?;
            origin_at(session, *got, cell, first_sending(session, sending))
        }
        _ => None,
    }
}

/// Returns what was sent in a cell of the page that a record places, if it is a `place` of the pager.
fn origin_of(session: &Session, name: Name, cell: u16) -> Option<Sentence>
    ensures { result ≡ origin_of session.now name cell }
{
    match name.0 {
        LogName::Pager => origin_by(session, cell, session.pager().get(name.1 as usize)?),
        _ => None,
    }
}

/// Appends what is wrong with the contents of a `send` or a placement.
#[tactic(auto, unfolding(crate::specs::Sentences::contents_told))]
fn push_contents(
    out: &mut Vec<Sentence>,
    session: &Session,
    name: Name,
    at_halt: CellValue,
) -> Result<(), AllocError>
    ensures { OnOk result (out.new.items ≡ out.old.items ++ contents_told session.now name at_halt) }
{
    push_if(out, contents_of(session, name, at_halt))?;
    push_if(out, origin_of(session, name, at_halt.cell))
}

/// Returns the number of a look, if there is one.
fn look_place(look: Option<Look>) -> Option<u32>
    ensures { result ≡ place_of look }
{
    match look {
        Some(look) => Some(look.place),
        None => None,
    }
}

/// Appends what is wrong with an early use of a page, given its first placement, the look before the use that reaches
/// furthest, and the first look that reaches the placement.
#[tactic(auto, unfolding(crate::specs::Sentences::early_told))]
fn push_early(
    out: &mut Vec<Sentence>,
    placement: Option<u32>,
    seen: Option<Look>,
    look: Option<u32>,
) -> Result<(), AllocError>
    ensures { OnOk result (out.new.items ≡ out.old.items ++ early_told placement seen look) }
{
    match placement {
        Some(placement) => out.extend_from_slice(&[
            Sentence::Unreached(placement),
            Sentence::FurthestLook(look_place(seen)),
            Sentence::LateForUse(look),
        ]),
        None => out.extend_from_slice(&[Sentence::NotThere]),
    }
}

/// Appends what is wrong with a placement over the first use of its page, given the look before this use that reaches
/// furthest, and the first look that reaches the placement.
#[tactic(auto, unfolding(crate::specs::Sentences::over_told))]
fn push_over(
    out: &mut Vec<Sentence>,
    place: u32,
    release: Option<u32>,
    seen: Option<Look>,
    look: Option<u32>,
) -> Result<(), AllocError>
    ensures { OnOk result (out.new.items ≡ out.old.items ++ over_told place release seen look) }
{
    match release {
        Some(release) => out.extend_from_slice(&[
            Sentence::ReleasedFirst(release),
            Sentence::MayComeAfter(place),
            Sentence::FurthestLook(look_place(seen)),
            Sentence::LateForRelease(look),
            Sentence::RightOrder,
        ]),
        None => Ok(()),
    }
}

/// Appends what is wrong with an early use, or with a placement over a release.
#[tactic(auto, unfolding(crate::specs::Sentences::unseen_told))]
fn push_unseen(
    out: &mut Vec<Sentence>,
    story: &FaultStory,
    seen: Option<Look>,
) -> Result<(), AllocError>
    ensures { OnOk result (out.new.items ≡ out.old.items ++ unseen_told story.now story.now.fault.log seen) }
{
    let found = &story.page.found;
    match story.fault.log {
        LogName::Pager => push_over(out, story.fault.place, found.touch, seen, found.look),
        _ => push_early(out, found.placement, seen, found.look),
    }
}

/// Appends what is wrong if there is nothing else to say, given the page's last change before the halt and its first
/// placement.
#[tactic(auto, unfolding(crate::specs::Sentences::plain_told))]
fn push_plain(
    out: &mut Vec<Sentence>,
    reason: PageReason,
    changed: Option<u32>,
    placement: Option<u32>,
) -> Result<(), AllocError>
    ensures { OnOk result (out.new.items ≡ out.old.items ++ plain_told reason changed placement) }
{
    match reason {
        PageReason::Given => out.extend_from_slice(&[
            Sentence::ReleasedAtHalt,
            Sentence::ChangedLast(changed),
        ]),
        PageReason::Unfit => out.extend_from_slice(&[
            Sentence::NotReleasedAtHalt,
            Sentence::ChangedLast(changed),
        ]),
        PageReason::Twice => match placement {
            Some(placement) => out.extend_from_slice(&[Sentence::PlacedBefore(placement)]),
            None => Ok(()),
        },
        PageReason::Read
        | PageReason::Early
        | PageReason::Stale
        | PageReason::Altered
        | PageReason::Over => Ok(()),
    }
}

/// Appends what is wrong.
#[tactic(auto, unfolding(crate::specs::Sentences::wrong_told))]
fn push_wrong(
    out: &mut Vec<Sentence>,
    session: &Session,
    story: &FaultStory,
) -> Result<(), AllocError>
    ensures { OnOk result (out.new.items ≡ out.old.items ++ wrong_told session.now story.now story.now.detail) }
{
    match story.detail {
        Detail::Instead(Some(held)) => out.extend_from_slice(&[Sentence::OneMachine(held)]),
        Detail::Other(Some(held)) => {
            push_contents(out, session, (story.fault.log, story.fault.place), held)
        }
        Detail::Seen(seen) => push_unseen(out, story, seen),
        Detail::Instead(None) | Detail::Other(None) | Detail::Plain => push_plain(
            out,
            story.fault.reason,
            story.page.changed,
            story.page.found.placement,
        ),
    }
}

/// Appends which record is faulty, and what is wrong with it.
#[tactic(auto, unfolding(crate::specs::Sentences::faulty_told))]
fn push_faulty(
    out: &mut Vec<Sentence>,
    session: &Session,
    story: &FaultStory,
) -> Result<(), AllocError>
    ensures { OnOk result (out.new.items ≡ out.old.items ++ faulty_told session.now story.now) }
{
    out.extend_from_slice(&[Sentence::Wrong((story.fault.log, story.fault.place))])?;
    push_wrong(out, session, story)
}

/// Returns how a page goes wrong, or that no record explains what it has.
fn cause_told(story: &FaultStory) -> Sentence
    ensures { result ≡ cause_told story.now }
{
    let page = story.page.page;
    let cause = cause_by(story);
    match cause.blamed {
        Some(name) => Sentence::GoesWrong {
            page,
            kind: cause.kind,
            name,
        },
        None => Sentence::Unexplained(page),
    }
}

/// Returns the record at which the cause of a fault shows.
fn shows_of(story: &FaultStory) -> Sentence
    ensures { result ≡ shows_of story.now }
{
    Sentence::Shows((story.fault.log, story.fault.place))
}

/// Returns that a read is at the source, if it is.
fn source_of(story: &FaultStory) -> Option<Sentence>
    ensures { result ≡ source_of story.now }
{
    if is_used_by(story.page.found.touch, story.fault.place) {
        None
    } else {
        Some(Sentence::AtSource)
    }
}

/// Appends what is to be said of the cause of a wrong read.
#[tactic(auto, unfolding(crate::specs::Sentences::wrongly_told))]
fn push_wrongly(
    out: &mut Vec<Sentence>,
    session: &Session,
    story: &FaultStory,
    cause: &PageCause,
) -> Result<(), AllocError>
    ensures { OnOk result (out.new.items ≡ out.old.items ++ wrongly_told session.now story.now cause.now) }
{
    let changed = story.page.changed;
    let found = &story.page.found;
    match *cause {
        PageCause::Sent(wrong) => {
            push_contents(out, session, (LogName::Source, wrong.place), wrong.held)
        }
        PageCause::Placed(wrong) => {
            push_contents(out, session, (LogName::Pager, wrong.place), wrong.held)
        }
        PageCause::Zeroed(_) => push_plain(out, PageReason::Unfit, changed, None),
        PageCause::Again(_) => push_plain(out, PageReason::Twice, None, found.placement),
        PageCause::Over { place, seen } => push_over(out, place, found.touch, seen, found.look),
        PageCause::Early { seen, .. } => push_early(out, found.placement, seen, found.look),
        PageCause::Unplaced => out.extend_from_slice(&[Sentence::CameTo(came_to(&story.page))]),
        PageCause::Lost(lost) => {
            out.extend_from_slice(&[Sentence::Keeps {
                read: story.fault.place,
                since: lost.since,
            }])?;
            push_if(out, source_of(story))
        }
        PageCause::Unrecorded => push_if(out, source_of(story)),
    }
}

/// Appends a page's fault, after this cause, if there is one.
#[tactic(auto, unfolding(crate::specs::Sentences::caused_told))]
fn push_caused(
    out: &mut Vec<Sentence>,
    session: &Session,
    story: &FaultStory,
    cause: &Option<PageCause>,
) -> Result<(), AllocError>
    ensures { OnOk result (out.new.items ≡ out.old.items ++ caused_told session.now story.now cause.now) }
{
    match cause {
        Some(cause) => {
            out.extend_from_slice(&[cause_told(story)])?;
            push_wrongly(out, session, story, cause)?;
            out.extend_from_slice(&[shows_of(story)])?;
            push_wrong(out, session, story)
        }
        None => push_faulty(out, session, story),
    }
}

/// Appends a page's fault, after what went wrong before, if the story has that.
#[tactic(auto, unfolding(crate::specs::Sentences::fault_told))]
pub(crate) fn push_fault(
    out: &mut Vec<Sentence>,
    session: &Session,
    story: &FaultStory,
) -> Result<(), AllocError>
    ensures { OnOk result (out.new.items ≡ out.old.items ++ fault_told session.now story.now) }
{
    push_caused(out, session, story, &story.cause)
}

/// Appends the first sentences about a page's fault: this cause and where it shows, or if there is none, the faulty record
/// and what is wrong with it.
#[tactic(auto, unfolding(crate::specs::Sentences::caused_first))]
pub(crate) fn push_caused_first(
    out: &mut Vec<Sentence>,
    session: &Session,
    story: &FaultStory,
    cause: &Option<PageCause>,
) -> Result<(), AllocError>
    ensures { OnOk result (out.new.items ≡ out.old.items ++ caused_first session.now story.now cause.now) }
{
    match cause {
        Some(_) => out.extend_from_slice(&[cause_told(story), shows_of(story)]),
        None => push_faulty(out, session, story),
    }
}

/// Returns how an order of the records shows a fault.
pub(crate) fn order_of(story: &FaultStory) -> Sentence
    ensures { result ≡ order_of story.now }
{
    if story.in_every_order {
        Sentence::EveryOrder(story.fault.reason)
    } else {
        Sentence::ShownOrder(story.fault.reason)
    }
}
