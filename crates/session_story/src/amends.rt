//! What is wrong in a faulty record and what would be right, which uses of its page the story tells, and whether every
//! order shows the fault.

ghost use Rattle.std.specs.Prelude.{◌≡◌, slice_get};
ghost use Rattle.audit_model.specs.Names.{if_there};
ghost use Rattle.session_story.specs.Amended.{amended_by, amended_for, amended_with, cause_in, held_in, is_always_wrong, is_number, tells_for, tells_in, tells_of, tells_on};
ghost use Rattle.session_story.specs.RecordValues.{cell_in, read_value, value_at};

use crate::concerned::given_in;
use crate::explanations::Explanation;
use crate::fault_stories::{Detail, FaultStory, PageCause};
use crate::topic_stories::{FullPageStory, TopicStory};
use crate::{CellValue, Name};
use migration_types::{GuestRec, LogName, PageNo, Record, Session};

/// A wrong value of a cell, and the right one.
#[derive(Clone, Copy)]
pub struct Amended {
    pub page: PageNo,
    pub cell: u16,
    pub wrong: u64,
    pub right: u64,
}

/// Returns the value of a cell in the contents of a record, if the record exists and has contents.
fn value_in<R: Record>(log: &[R], place: usize, cell: u16) -> Option<u64>
    ensures { result ≡ cell_in (if_there R.contents (slice_get log.now place)) cell }
{
    match log.get(place) {
        Some(rec) => match rec.contents() {
            Some(contents) => contents.get(cell as usize).copied(),
            None => None,
        },
        None => None,
    }
}

/// Returns the value that a read gives.
fn read_value(guest: &[GuestRec], place: usize) -> Option<u64>
    ensures { result ≡ if_there read_value (slice_get guest.now place) }
{
    match guest.get(place) {
        Some(GuestRec::Read { value, .. }) => Some(*value),
        _ => None,
    }
}

/// Returns the value that a record has: for a read, the one that it gives; for a record with contents, that of the
/// cell.
pub fn value_at(session: &Session, name: Name, cell: u16) -> Option<u64>
    ensures { result ≡ value_at session.now name cell }
{
    let place = name.1 as usize;
    match name.0 {
        LogName::Guest => read_value(session.guest(), place),
        LogName::Source => value_in(session.source(), place, cell),
        LogName::Pager => value_in(session.pager(), place, cell),
        LogName::Link | LogName::Lane => None,
    }
}

/// Returns what the story says about a cell, if anything.
fn held_in(detail: &Detail) -> Option<CellValue>
    ensures { result ≡ held_in detail.now }
{
    match detail {
        Detail::Instead(held) | Detail::Other(held) => *held,
        Detail::Seen(_) | Detail::Plain => None,
    }
}

/// Returns the wrong value in a faulty record, and the right one, if its fault is a wrong value.
fn amended_for(session: &Session, fault: &Option<FaultStory>) -> Option<Amended>
    ensures { result ≡ amended_for session.now fault.now }
{
    let Some(story) = fault else {
        return None;
    };
    match held_in(&story.detail) {
        Some(held) => {
            let name = (story.fault.log, story.fault.place);
            amended_with(story.page.page, held, value_at(session, name, held.cell))
        }
        None => None,
    }
}

/// Returns the wrong value in the faulty record of the story, and the right one, or `None` if its fault is not a wrong
/// value. Allocates no memory.
pub fn amended_by(session: &Session, told: &TopicStory) -> Option<Amended>
    ensures { result ≡ amended_by session.now told.now }
{
    amended_for(session, &told.fault())
}

/// Returns a wrong value, if there is one, with what the cell should have.
fn amended_with(page: PageNo, held: CellValue, wrong: Option<u64>) -> Option<Amended>
    ensures { result ≡ amended_with page held wrong }
{
    match wrong {
        Some(wrong) => Some(Amended {
            page,
            cell: held.cell,
            wrong,
            right: held.value,
        }),
        None => None,
    }
}

/// Returns the guest's record that gave a cell the value that a cause is set against, or that a read still gives.
fn cause_in(cause: &Option<PageCause>) -> Option<u32>
    ensures { result ≡ cause_in cause.now }
{
    match cause {
        Some(PageCause::Sent(wrong) | PageCause::Placed(wrong)) => wrong.held.by,
        Some(PageCause::Lost(lost)) => lost.since,
        Some(
            PageCause::Zeroed(_)
            | PageCause::Again(_)
            | PageCause::Over { .. }
            | PageCause::Early { .. }
            | PageCause::Unplaced
            | PageCause::Unrecorded,
        )
        | None => None,
    }
}

/// Returns whether it is this number, if there is one.
pub fn is_number(one: Option<u32>, place: u32) -> bool
    ensures { result ≡ is_number one place }
{
    match one {
        Some(one) => one == place,
        None => false,
    }
}

/// Returns whether the story of a fault tells the guest's record of this number.
fn tells_in(story: &FaultStory, place: u32) -> bool
    ensures { result ≡ tells_in story.now place }
{
    (story.fault.log == LogName::Guest && story.fault.place == place)
        || (is_number(story.page.changed, place)
            || (is_number(story.page.found.touch, place)
                || (is_number(given_in(&story.detail), place)
                    || is_number(cause_in(&story.cause), place))))
}

/// Returns whether the story of a fault, if there is one, tells the guest's record of this number.
fn tells_for(fault: &Option<FaultStory>, place: u32) -> bool
    ensures { result ≡ tells_for fault.now place }
{
    match fault {
        Some(story) => tells_in(story, place),
        None => false,
    }
}

/// Returns whether the story of a page, if there is one, tells the guest's record of this number.
fn tells_on(page: &Option<FullPageStory>, place: u32) -> bool
    ensures { result ≡ tells_on page.now place }
{
    match page {
        Some(told) => {
            is_number(told.story.changed, place) || is_number(told.story.found.touch, place)
        }
        None => false,
    }
}

/// Returns whether the story tells the guest's record of this number: as the page's last change before the halt, its
/// first use at the target, the record that gave a cell its value, or the faulty record itself. Allocates no memory.
pub fn tells_of(told: &TopicStory, place: u32) -> bool
    ensures { result ≡ tells_of told.now place }
{
    tells_for(&told.fault(), place) || tells_on(&told.page(), place)
}

/// Returns whether every order of the records shows the fault of the story. Allocates no memory.
pub fn is_always_wrong(told: &Explanation) -> bool
    ensures { result ≡ is_always_wrong told.now }
{
    match told {
        Explanation::Faulty { story, .. } => story.in_every_order,
        Explanation::Shape { .. } | Explanation::Knot(_) | Explanation::Clean(_) => false,
    }
}
