//! What a picture is about: a faulty record, the cause, the record that it is set against, and a page.

ghost use Rattle.std.specs.Prelude.{◌≡◌};
ghost use Rattle.order_picture.specs.Marks.{is_page, mark_of};
ghost use Rattle.order_picture.specs.Pictures.{against_for, against_in, fault_for, fault_of, page_for, IsFocus};

use crate::records::is_one;
use audit_report::Report;
use migration_types::{PageNo, Session};
use session_story::{Cause, Name, TopicStory, cause_of, concerned_of, page_of};

/// Why a record stands out.
#[derive(Clone, Copy)]
pub enum Mark {
    /// It is the faulty record that the picture is about.
    Faulty,
    /// It is the faulty record, which is also the cause.
    OwnCause,
    /// It is the record that is the cause.
    Cause,
    /// It is the record that the cause is set against.
    Against,
    /// It is about the page that the picture is about.
    OfPage,
    Plain,
}

/// What a picture is about.
#[derive(Clone, Copy)]
pub struct Focus {
    /// The faulty record: the report's, or that of the first fault of the story's page.
    pub fault: Option<Name>,
    /// The record that is the cause of the fault.
    pub cause: Option<Name>,
    /// The record that the cause is set against, or else the one that the fault concerns.
    pub against: Option<Name>,
    /// The page of the report's faulty record, or the page of the story.
    pub page: Option<PageNo>,
}

/// Returns whether both are the same page.
pub(crate) fn is_page(page: Option<PageNo>, other: Option<PageNo>) -> bool
    ensures { result ≡ is_page page other }
{
    match (page, other) {
        (Some(page), Some(other)) => page.number() == other.number(),
        _ => false,
    }
}

/// Returns the mark of a record.
pub(crate) fn mark_of(session: &Session, focus: &Focus, name: Name) -> Mark
    ensures { result ≡ mark_of session.now focus.now name }
{
    if is_one(focus.fault, name) {
        return if is_one(focus.cause, name) {
            Mark::OwnCause
        } else {
            Mark::Faulty
        };
    }
    if is_one(focus.cause, name) {
        return Mark::Cause;
    }
    if is_one(focus.against, name) {
        return Mark::Against;
    }
    if focus.page.is_some() && is_page(focus.page, page_of(session, name)) {
        return Mark::OfPage;
    }
    Mark::Plain
}

/// Returns the faulty record of a report.
fn fault_of(report: &Report) -> Option<Name>
    ensures { result ≡ fault_of report.now }
{
    match report {
        Report::Shape(fault) => Some((fault.log, fault.place)),
        Report::Faulty { fault, .. } => Some((fault.log, fault.place)),
        Report::Knot { .. } => None,
        Report::Clean(_) => None,
    }
}

/// Returns the faulty record that a picture is about, given the story.
fn fault_for(report: &Report, told: &TopicStory) -> Option<Name>
    ensures { result ≡ fault_for report.now told.now }
{
    match told {
        TopicStory::Report(_) => fault_of(report),
        _ => match told.fault() {
            Some(story) => Some((story.fault.log, story.fault.place)),
            None => None,
        },
    }
}

/// Returns the page that a picture is about, given the story.
fn page_for(session: &Session, report: &Report, told: &TopicStory) -> Option<PageNo>
    ensures { result ≡ page_for session.now report.now told.now }
{
    match told {
        TopicStory::Report(_) => match fault_of(report) {
            Some(name) => page_of(session, name),
            None => None,
        },
        _ => match told.page() {
            Some(told) => Some(told.story.page),
            None => None,
        },
    }
}

/// Returns the record that the cause is set against, if there is one.
fn against_in(cause: &Option<Cause>) -> Option<Name>
    ensures { result ≡ against_in cause.now }
{
    match cause {
        Some(cause) => cause.against,
        None => None,
    }
}

/// Returns the record that the cause of the story's fault is set against, or else the one that the fault concerns.
fn against_for(session: &Session, told: &TopicStory) -> Option<Name>
    ensures { result ≡ against_for session.now told.now }
{
    match against_in(&cause_of(told)) {
        Some(name) => Some(name),
        None => concerned_of(session, told),
    }
}

/// Returns what a picture is about, given the story.
pub(crate) fn focus_of(session: &Session, report: &Report, told: &TopicStory) -> Focus
    ensures { IsFocus session.now report.now told.now result }
{
    Focus {
        fault: fault_for(report, told),
        against: against_for(session, told),
        page: page_for(session, report, told),
        cause: match cause_of(told) {
            Some(cause) => cause.blamed,
            None => None,
        },
    }
}
