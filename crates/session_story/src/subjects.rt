//! What a record is about.

ghost use Rattle.std.specs.Prelude.{◌≡◌};
ghost use Rattle.page_facts.specs.PageFaults.{page_at};
ghost use Rattle.session_story.specs.Subjects.{about, page_of};

use crate::names::Name;
use migration_types::{
    GuestRec, LaneRec, LinkRec, LogName, PageNo, Paged, PagerRec, Session, SourceRec,
};

/// What a record is about.
#[derive(Clone, Copy)]
pub(crate) enum About {
    Page(PageNo),
    /// The subject of the record of this log and number.
    Record(LogName, u32),
    Nothing,
}

/// The greatest number of steps from a record to its page: a dropped packet was taken, delivered, sent again and sent.
const MOST_STEPS: u32 = 5;

/// Returns the page of a record, or `None` if it has none. A record of the link or of the lane has the page of what it
/// delivers. Allocates no memory.
pub fn page_at(session: &Session, log: LogName, place: u32) -> Option<PageNo>
    ensures { result ≡ page_at session.now (log, place) }
{
    let place = place as usize;
    match log {
        LogName::Guest => session.guest().get(place)?.page(),
        LogName::Source => session.source().get(place)?.page(),
        LogName::Pager => session.pager().get(place)?.page(),
        _ => None,
    }
}

/// Returns what the record with this name is about.
fn subject(session: &Session, name: Name) -> About
    ensures { result ≡ about session.now name }
{
    let place = name.1 as usize;
    match name.0 {
        LogName::Guest => match session.guest().get(place) {
            Some(
                GuestRec::Read { page, .. }
                | GuestRec::Write { page, .. }
                | GuestRec::Release { page, .. }
                | GuestRec::Miss { page, .. },
            ) => About::Page(*page),
            Some(GuestRec::See { placement }) => About::Record(LogName::Pager, *placement),
            _ => About::Nothing,
        },
        LogName::Source => match session.source().get(place) {
            Some(SourceRec::Send { page, .. }) => About::Page(*page),
            Some(SourceRec::Again { sending }) => About::Record(LogName::Source, *sending),
            Some(SourceRec::Ask { up }) => About::Record(LogName::Link, *up),
            _ => About::Nothing,
        },
        LogName::Link => match session.link().get(place) {
            Some(LinkRec::Down { sending }) => About::Record(LogName::Source, *sending),
            Some(LinkRec::Up { asking }) => About::Record(LogName::Pager, *asking),
            None => About::Nothing,
        },
        LogName::Lane => match session.lane().get(place) {
            Some(LaneRec::Down { sending }) => About::Record(LogName::Source, *sending),
            None => About::Nothing,
        },
        LogName::Pager => match session.pager().get(place) {
            Some(
                PagerRec::Want { page } | PagerRec::Place { page, .. } | PagerRec::Zero { page },
            ) => About::Page(*page),
            Some(PagerRec::Got { down }) => About::Record(LogName::Link, *down),
            Some(PagerRec::Pull { down }) => About::Record(LogName::Lane, *down),
            Some(PagerRec::Fault { miss }) => About::Record(LogName::Guest, *miss),
            Some(PagerRec::Join { want }) => About::Record(LogName::Pager, *want),
            Some(PagerRec::Skip { got }) => About::Record(LogName::Pager, *got),
            _ => About::Nothing,
        },
    }
}

/// Returns the page that a record is about, directly or through the records that it names, or `None` if it is about no
/// page. Allocates no memory.
pub fn page_of(session: &Session, name: (LogName, u32)) -> Option<PageNo>
    ensures { result ≡ page_of session.now name }
{
    let mut at = name;
    let mut steps = MOST_STEPS;
    while steps > 0 {
        match subject(session, at) {
            About::Page(page) => return Some(page),
            About::Record(log, place) => at = (log, place),
            About::Nothing => return None,
        }
        steps -= 1;
    }
    None
}
