//! The cause of a fault of a page: what went wrong, with which record, and the record that this is set against.

ghost use Rattle.std.specs.Prelude.{◌≡◌};
ghost use Rattle.session_story.specs.Causes.{against_for, against_of, blamed_of, came_to, cause_by, cause_for, cause_of, kind_for, kind_of, kind_word, own_cause};
ghost use Rattle.session_story.specs.Explained.{is_used_by};

use crate::concerned::{concerned_by, given_in};
use crate::fault_stories::{FaultStory, PageCause};
use crate::topic_stories::TopicStory;
use crate::{Name, PageStory, furthest, named_in};
use audit_model::PageReason;
use migration_types::LogName;

/// What went wrong.
#[derive(Clone, Copy)]
pub enum CauseKind {
    /// The source sends other contents than the page had at the halt.
    StaleSend,
    /// The source sends a page that is released at the halt.
    GivenSend,
    /// The pager places other contents than the page had at the halt.
    Altered,
    /// The pager puts zeros in the place of a page that is not released at the halt.
    Zeroed,
    /// The pager places a page once more.
    PlacedAgain,
    /// The pager places a page that the guest releases as its first use at the target, and may do so after that.
    PlacedOver,
    /// The guest may use a page before it comes.
    Early,
    /// The guest uses a page that never comes.
    NeverPlaced,
    /// A write or a release of the guest is lost.
    LostWrite,
    /// No record explains what the page has.
    Unrecorded,
}

impl CauseKind {
    /// Returns the word of a kind.
    pub fn word(self) -> &'static [u8]
        ensures { result.now ≡ kind_word self }
    {
        match self {
            CauseKind::StaleSend => b"stale-send",
            CauseKind::GivenSend => b"given-send",
            CauseKind::Altered => b"altered",
            CauseKind::Zeroed => b"zeroed",
            CauseKind::PlacedAgain => b"placed-again",
            CauseKind::PlacedOver => b"placed-over",
            CauseKind::Early => b"early",
            CauseKind::NeverPlaced => b"never-placed",
            CauseKind::LostWrite => b"lost-write",
            CauseKind::Unrecorded => b"unrecorded",
        }
    }
}

/// The cause of a fault of a page.
#[derive(Clone, Copy)]
pub struct Cause {
    pub kind: CauseKind,
    /// The record with which the page goes wrong: of a page that never comes, its first use at the target; of what no
    /// record explains, none.
    pub blamed: Option<Name>,
    /// The record that it is set against, if there is one: the change that a page lacks, the release that it is placed
    /// over, the first placement, the last record that has a page which never comes, or the read that a lost write does
    /// not reach.
    pub against: Option<Name>,
}

/// Returns whether the guest has used a page at the target by the time this record of it is done, given its first use
/// there.
pub fn is_used_by(touch: Option<u32>, place: u32) -> bool
    ensures { result ≡ is_used_by touch place }
{
    match touch {
        Some(first) => first <= place,
        None => false,
    }
}

/// Returns the last record that has a page, on its way to the target.
pub fn came_to(page: &PageStory) -> Option<Name>
    ensures { result ≡ came_to page.now }
{
    furthest(page.got, page.delivered, page.by_lane, page.sent)
}

/// Returns what went wrong before a wrong read.
fn kind_of(cause: &PageCause) -> CauseKind
    ensures { result ≡ kind_of cause.now }
{
    match cause {
        PageCause::Sent(_) => CauseKind::StaleSend,
        PageCause::Placed(_) => CauseKind::Altered,
        PageCause::Zeroed(_) => CauseKind::Zeroed,
        PageCause::Again(_) => CauseKind::PlacedAgain,
        PageCause::Over { .. } => CauseKind::PlacedOver,
        PageCause::Early { .. } => CauseKind::Early,
        PageCause::Unplaced => CauseKind::NeverPlaced,
        PageCause::Lost(_) => CauseKind::LostWrite,
        PageCause::Unrecorded => CauseKind::Unrecorded,
    }
}

/// Returns the record with which a page went wrong before a wrong read.
fn blamed_of(page: &PageStory, cause: &PageCause) -> Option<Name>
    ensures { result ≡ blamed_of page.now cause.now }
{
    match cause {
        PageCause::Sent(wrong) => Some((LogName::Source, wrong.place)),
        PageCause::Placed(wrong) => Some((LogName::Pager, wrong.place)),
        PageCause::Zeroed(place) | PageCause::Again(place) | PageCause::Over { place, .. } => {
            Some((LogName::Pager, *place))
        }
        PageCause::Early { place, .. } => Some((LogName::Guest, *place)),
        PageCause::Unplaced => named_in(LogName::Guest, page.found.touch),
        PageCause::Lost(lost) => Some((LogName::Guest, lost.change)),
        PageCause::Unrecorded => None,
    }
}

/// Returns the record that the cause of a wrong read is set against.
fn against_of(story: &FaultStory, cause: &PageCause) -> Option<Name>
    ensures { result ≡ against_of story.now cause.now }
{
    let page = &story.page;
    match cause {
        PageCause::Sent(wrong) | PageCause::Placed(wrong) => {
            named_in(LogName::Guest, wrong.held.by)
        }
        PageCause::Zeroed(_) => named_in(LogName::Guest, page.changed),
        PageCause::Again(_) => named_in(LogName::Guest, given_in(&story.detail)),
        PageCause::Over { .. } => named_in(LogName::Guest, page.found.touch),
        PageCause::Unplaced => came_to(page),
        PageCause::Early { .. } => named_in(LogName::Pager, page.found.placement),
        PageCause::Lost(_) => Some((story.fault.log, story.fault.place)),
        PageCause::Unrecorded => None,
    }
}

/// Returns what went wrong with a record that is not a wrong read, or a wrong read of whose cause the story has nothing.
fn kind_for(reason: PageReason, placement: Option<u32>) -> CauseKind
    ensures { result ≡ kind_for reason placement }
{
    match reason {
        PageReason::Read => CauseKind::Unrecorded,
        PageReason::Early => match placement {
            Some(_) => CauseKind::Early,
            None => CauseKind::NeverPlaced,
        },
        PageReason::Given => CauseKind::GivenSend,
        PageReason::Stale => CauseKind::StaleSend,
        PageReason::Twice => CauseKind::PlacedAgain,
        PageReason::Altered => CauseKind::Altered,
        PageReason::Unfit => CauseKind::Zeroed,
        PageReason::Over => CauseKind::PlacedOver,
    }
}

/// Returns the record that a fault of this kind is set against.
fn against_for(story: &FaultStory, kind: CauseKind) -> Option<Name>
    ensures { result ≡ against_for story.now kind }
{
    match kind {
        CauseKind::NeverPlaced => came_to(&story.page),
        _ => concerned_by(story),
    }
}

/// Returns the cause of a fault that is its own cause.
fn own_cause(story: &FaultStory) -> Cause
    ensures { result ≡ own_cause story.now }
{
    let kind = kind_for(story.fault.reason, story.page.found.placement);
    Cause {
        kind,
        blamed: Some((story.fault.log, story.fault.place)),
        against: against_for(story, kind),
    }
}

/// Returns the cause of a fault: that of a wrong read, or else the faulty record itself.
pub fn cause_by(story: &FaultStory) -> Cause
    ensures { result ≡ cause_by story.now }
{
    match &story.cause {
        Some(cause) => Cause {
            kind: kind_of(cause),
            blamed: blamed_of(&story.page, cause),
            against: against_of(story, cause),
        },
        None => own_cause(story),
    }
}

/// Returns the cause of a fault, if there is one.
fn cause_for(fault: &Option<FaultStory>) -> Option<Cause>
    ensures { result ≡ cause_for fault.now }
{
    match fault {
        Some(story) => Some(cause_by(story)),
        None => None,
    }
}

/// Returns the cause of the fault of a page that the story tells, or `None` if it tells no such fault. Allocates no
/// memory.
pub fn cause_of(told: &TopicStory) -> Option<Cause>
    ensures { result ≡ cause_of told.now }
{
    cause_for(&told.fault())
}
