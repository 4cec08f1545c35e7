//! The story of a session on a topic: its report, a page, or a line of its text.

ghost use Rattle.std.specs.Prelude.{◌<◌, IfOk, MatchOption};
ghost use Rattle.page_facts.specs.PageFaults.{IsClean};
ghost use Rattle.audit_report.specs.Reports.{IsReport};
ghost use Rattle.session_story.specs.Pages.{IsPageStory};
ghost use Rattle.session_story.specs.Subjects.{page_of};
ghost use Rattle.session_story.specs.Topics.{IsFirstFaultStory, IsPageTold, IsShapeTold, IsTold, IsToldOfItsPage, IsToldOfLine, IsToldOfPage};

use crate::explaining::explain;
use crate::faults::{shape_at, story_of_fault};
use crate::kinds::kinds_of;
use crate::{
    FaultStory, FullPageStory, LineStory, PageStory, ShapeStory, TopicStory, handover_of, page_of,
    record_on, story_of,
};
use audit_report::Report;
use migration_types::{LogName, PageNo, Session, Topic};
use page_facts::fault_of;
use std::alloc::{AllocError, Global};

/// Returns a page's first fault, with its story, or `None` if the page has no fault.
fn first_fault_of(
    alloc: Global,
    session: &Session,
    report: &Report,
    page: &PageStory,
) -> Result<Option<FaultStory>, AllocError>
    requires report { IsReport session.now report.now }
    requires story { IsPageStory session.now page.now.page page.now }
    ensures { IfOk result (λ fault. MatchOption fault (IsClean session.now page.now.page) (IsFirstFaultStory session.now page.now.page)) }
{
    match fault_of(session, &page.found, page.page) {
        Some(fault) => Ok(Some(story_of_fault(alloc, session, report, &fault, page)?)),
        None => Ok(None),
    }
}

/// Returns the story of a page, with its faults.
fn page_told(
    alloc: Global,
    session: &Session,
    report: &Report,
    page: PageNo,
) -> Result<FullPageStory, AllocError>
    requires report { IsReport session.now report.now }
    requires page { page < session.now.geometry.pages }
    ensures { IfOk result (IsPageTold session.now page) }
{
    let story = story_of(alloc, session, page)?;
    let fault = first_fault_of(alloc, session, report, &story)?;
    let kinds = kinds_of(alloc, session, &story)?;
    Ok(FullPageStory {
        story,
        handover: handover_of(session),
        fault,
        kinds,
    })
}

/// Returns the story of the page of this number, or `None` if the machine has no such page. Makes a few passes over
/// each log, and allocates as much memory as judging does, and for one more page. Fails only if memory runs out.
pub(crate) fn told_of_page(
    alloc: Global,
    session: &Session,
    report: &Report,
    number: u32,
) -> Result<Option<FullPageStory>, AllocError>
    requires { IsReport session.now report.now }
    ensures { IfOk result (IsToldOfPage session.now number) }
{
    session.keeps_limits();
    if number >= session.geometry().pages() {
        return Ok(None);
    }
    let told = page_told(alloc, session, report, PageNo::new(number))?;
    Ok(Some(told))
}

/// Returns the story of the page that a record is about, if it is about one.
fn told_of_its_page(
    alloc: Global,
    session: &Session,
    report: &Report,
    log: LogName,
    place: u32,
) -> Result<Option<FullPageStory>, AllocError>
    requires { IsReport session.now report.now }
    ensures { IfOk result (IsToldOfItsPage session.now (page_of session.now (log, place))) }
{
    session.keeps_limits();
    match page_of(session, (log, place)) {
        Some(page) => Ok(Some(page_told(alloc, session, report, page)?)),
        None => Ok(None),
    }
}

/// Returns what is wrong with the shape of the record at this line, if the report names it for that.
fn shape_told(session: &Session, report: &Report, line: u32) -> Option<ShapeStory>
    requires { IsReport session.now report.now }
    ensures { IsShapeTold session.now report.now line result }
{
    match report {
        Report::Shape(fault) => {
            if fault.line == line {
                Some(shape_at(session, fault))
            } else {
                None
            }
        }
        _ => None,
    }
}

/// Returns the record at this line of a session's text, and the story of its page, or `None` if there is no record at
/// the line. Makes as many passes and allocates as much as [`told_of_page`].
pub(crate) fn told_of_line(
    alloc: Global,
    session: &Session,
    report: &Report,
    line: u32,
) -> Result<Option<LineStory>, AllocError>
    requires { IsReport session.now report.now }
    ensures { IfOk result (IsToldOfLine session.now report.now line) }
{
    let Some((log, place)) = record_on(session, line) else {
        return Ok(None);
    };
    let page = told_of_its_page(alloc, session, report, log, place)?;
    Ok(Some(LineStory {
        log,
        place,
        shape: shape_told(session, report, line),
        page,
    }))
}

/// Returns the story of a session on a topic, given the report on it. Makes a few passes over each log, and allocates
/// as much memory as an audit does, and for one more page. Fails only if memory runs out.
pub fn tell(
    alloc: Global,
    session: &Session,
    report: &Report,
    topic: Topic,
) -> Result<TopicStory, AllocError>
    requires { IsReport session.now report.now }
    ensures { IfOk result (IsTold session.now report.now topic) }
{
    match topic {
        Topic::Report => Ok(TopicStory::Report(explain(alloc, session, report)?)),
        Topic::Page(number) => Ok(TopicStory::Page(
            number,
            told_of_page(alloc, session, report, number)?,
        )),
        Topic::Line(line) => Ok(TopicStory::Line(
            line,
            told_of_line(alloc, session, report, line)?,
        )),
    }
}
