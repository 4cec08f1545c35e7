//! The sentences about a report, a page, or the record at a line.

ghost use Rattle.std.specs.Prelude.{◌≡◌, ◌++◌, IfOk, OnOk};
ghost use Rattle.story_words.specs.Sentences.{apart_told, explained_first, explained_told, fault_first, faulty_page_told, first_fault_told, is_shown, its_page_told, line_first, line_topic, more_of, page_first, page_told, page_topic, record_told, shown_of, told_first, told_in_full, verdict_of};

use crate::Sentence;
use crate::counts::push_counts;
use crate::faults::{order_of, push_caused_first, push_fault};
use crate::kinds::push_kinds;
use crate::knots::push_knot;
use crate::listing::push_if;
use crate::pages::push_story;
use crate::shapes::push_shape;
use audit_report::Report;
use migration_types::Session;
use session_story::{
    ApartStory, Explanation, FaultStory, FullPageStory, LineStory, Name, ShapeStory, TopicStory,
};
use std::alloc::{AllocError, Global};

/// Returns how many other pages have a fault, if there are some.
fn more_of(more: usize) -> Option<Sentence>
    ensures { result ≡ more_of more }
{
    if more == 0 {
        None
    } else {
        Some(Sentence::MoreFaulty(more))
    }
}

/// Appends the fault of a page that the report names, with the page's story.
#[tactic(auto, unfolding(crate::specs::Sentences::faulty_page_told))]
fn push_faulty_page(
    out: &mut Vec<Sentence>,
    session: &Session,
    story: &FaultStory,
    more: usize,
) -> Result<(), AllocError>
    ensures { OnOk result (out.new.items ≡ out.old.items ++ faulty_page_told session.now story.now more) }
{
    push_fault(out, session, story)?;
    out.extend_from_slice(&[order_of(story)])?;
    push_story(out, session, &story.page, &story.handover)?;
    push_if(out, more_of(more))
}

/// Appends the faulty pages that misshapen records do not touch, if there are any: the first with its story. No order is
/// told, since a session that does not have the right shape has none.
#[tactic(auto, unfolding(crate::specs::Sentences::apart_told))]
fn push_apart(
    out: &mut Vec<Sentence>,
    session: &Session,
    apart: &Option<ApartStory>,
) -> Result<(), AllocError>
    ensures { OnOk result (out.new.items ≡ out.old.items ++ apart_told session.now apart.now) }
{
    match apart {
        Some(told) => {
            let story = &told.story;
            out.extend_from_slice(&[Sentence::Apart(story.page.page)])?;
            push_fault(out, session, story)?;
            push_story(out, session, &story.page, &story.handover)?;
            push_if(out, more_of(told.more))
        }
        None => Ok(()),
    }
}

/// Appends the story of a report.
#[tactic(auto, unfolding(crate::specs::Sentences::explained_told))]
fn push_explanation(
    out: &mut Vec<Sentence>,
    session: &Session,
    explanation: &Explanation,
) -> Result<(), AllocError>
    ensures { OnOk result (out.new.items ≡ out.old.items ++ explained_told session.now explanation.now) }
{
    match explanation {
        Explanation::Shape { story, apart } => {
            push_shape(out, session, story)?;
            push_apart(out, session, apart)
        }
        Explanation::Knot(knot) => push_knot(out, knot),
        Explanation::Faulty { story, more } => push_faulty_page(out, session, story, *more),
        Explanation::Clean(counts) => push_counts(out, session.version(), counts),
    }
}

/// Returns whether it is known which orders show a fault of a page. The report has an order that shows its own fault.
/// If there are orders at all, each of them shows a fault that every order shows.
fn is_shown(report: &Report, story: &FaultStory) -> bool
    ensures { result ≡ is_shown report.now story.now }
{
    match report {
        Report::Faulty { fault, .. } => {
            story.in_every_order
                || (fault.log == story.fault.log && fault.place == story.fault.place)
        }
        _ => false,
    }
}

/// Returns how an order of the records shows a fault, if that is known.
fn shown_of(report: &Report, story: &FaultStory) -> Option<Sentence>
    ensures { result ≡ shown_of report.now story.now }
{
    if is_shown(report, story) {
        Some(order_of(story))
    } else {
        None
    }
}

/// Appends a page's first fault, if it has one.
#[tactic(auto, unfolding(crate::specs::Sentences::first_fault_told))]
fn push_first_fault(
    out: &mut Vec<Sentence>,
    session: &Session,
    report: &Report,
    fault: &Option<FaultStory>,
) -> Result<(), AllocError>
    ensures { OnOk result (out.new.items ≡ out.old.items ++ first_fault_told session.now report.now fault.now) }
{
    match fault {
        Some(story) => {
            push_fault(out, session, story)?;
            push_if(out, shown_of(report, story))
        }
        None => Ok(()),
    }
}

/// Returns whether a page has a fault.
fn verdict_of(page: &FullPageStory) -> Sentence
    ensures { result ≡ verdict_of page.now }
{
    Sentence::Verdict {
        page: page.story.page,
        is_faulty: page.fault.is_some(),
    }
}

/// Appends the story of a page.
#[tactic(auto, unfolding(crate::specs::Sentences::page_told))]
fn push_page(
    out: &mut Vec<Sentence>,
    session: &Session,
    report: &Report,
    page: &FullPageStory,
) -> Result<(), AllocError>
    ensures { OnOk result (out.new.items ≡ out.old.items ++ page_told session.now report.now page.now) }
{
    out.extend_from_slice(&[verdict_of(page)])?;
    push_first_fault(out, session, report, &page.fault)?;
    push_kinds(out, page.story.page, &page.kinds)?;
    push_story(out, session, &page.story, &page.handover)
}

/// Appends the story of the page of this number, or that there is no such page.
#[tactic(auto, unfolding(crate::specs::Sentences::page_topic))]
fn push_page_topic(
    out: &mut Vec<Sentence>,
    session: &Session,
    report: &Report,
    number: u32,
    told: &Option<FullPageStory>,
) -> Result<(), AllocError>
    ensures { OnOk result (out.new.items ≡ out.old.items ++ page_topic session.now report.now number told.now) }
{
    match told {
        Some(page) => push_page(out, session, report, page),
        None => out.extend_from_slice(&[Sentence::NoPage {
            number,
            pages: session.geometry().pages(),
        }]),
    }
}

/// Appends the record at a line, and what is wrong with its shape, if the story has that.
#[tactic(auto, unfolding(crate::specs::Sentences::record_told))]
fn push_record(
    out: &mut Vec<Sentence>,
    session: &Session,
    name: Name,
    shape: &Option<ShapeStory>,
) -> Result<(), AllocError>
    ensures { OnOk result (out.new.items ≡ out.old.items ++ record_told session.now name shape.now) }
{
    match shape {
        Some(story) => push_shape(out, session, story),
        None => out.extend_from_slice(&[Sentence::Stands(name)]),
    }
}

/// Appends the story of the page that a record is about, if it is about one.
#[tactic(auto, unfolding(crate::specs::Sentences::its_page_told))]
fn push_its_page(
    out: &mut Vec<Sentence>,
    session: &Session,
    report: &Report,
    told: &Option<FullPageStory>,
) -> Result<(), AllocError>
    ensures { OnOk result (out.new.items ≡ out.old.items ++ its_page_told session.now report.now told.now) }
{
    match told {
        Some(page) => push_page(out, session, report, page),
        None => Ok(()),
    }
}

/// Appends the record at the line of this number and the story of its page, or that there is no record.
#[tactic(auto, unfolding(crate::specs::Sentences::line_topic))]
fn push_line_topic(
    out: &mut Vec<Sentence>,
    session: &Session,
    report: &Report,
    number: u32,
    told: &Option<LineStory>,
) -> Result<(), AllocError>
    ensures { OnOk result (out.new.items ≡ out.old.items ++ line_topic session.now report.now number told.now) }
{
    match told {
        Some(line) => {
            push_record(out, session, (line.log, line.place), &line.shape)?;
            push_its_page(out, session, report, &line.page)
        }
        None => out.extend_from_slice(&[Sentence::NoRecord(number)]),
    }
}

/// Appends the story of a session with this report.
#[tactic(auto, unfolding(crate::specs::Sentences::told_in_full))]
fn push_told(
    out: &mut Vec<Sentence>,
    session: &Session,
    report: &Report,
    told: &TopicStory,
) -> Result<(), AllocError>
    ensures { OnOk result (out.new.items ≡ out.old.items ++ told_in_full session.now report.now told.now) }
{
    match told {
        TopicStory::Report(explanation) => push_explanation(out, session, explanation),
        TopicStory::Page(number, page) => push_page_topic(out, session, report, *number, page),
        TopicStory::Line(number, line) => push_line_topic(out, session, report, *number, line),
    }
}

/// Returns the sentences of the story of a session with this report, in order. Fails only if memory runs out.
pub fn told_in_full(
    alloc: Global,
    session: &Session,
    report: &Report,
    told: &TopicStory,
) -> Result<Vec<Sentence>, AllocError>
    ensures { IfOk result (λ sentences. sentences.items ≡ told_in_full session.now report.now told.now) }
{
    let mut out = Vec::new(alloc);
    push_told(&mut out, session, report, told)?;
    Ok(out)
}

/// Appends the first sentences of the story of a report.
#[tactic(auto, unfolding(crate::specs::Sentences::explained_first))]
fn push_explained_first(
    out: &mut Vec<Sentence>,
    session: &Session,
    explanation: &Explanation,
) -> Result<(), AllocError>
    ensures { OnOk result (out.new.items ≡ out.old.items ++ explained_first session.now explanation.now) }
{
    match explanation {
        Explanation::Shape { story, .. } => push_shape(out, session, story),
        Explanation::Knot(_) => out.extend_from_slice(&[Sentence::NoOrder]),
        Explanation::Faulty { story, .. } => push_caused_first(out, session, story, &story.cause),
        Explanation::Clean(_) => out.extend_from_slice(&[Sentence::Clean]),
    }
}

/// Appends the first sentences about a page's first fault, if it has one.
#[tactic(auto, unfolding(crate::specs::Sentences::fault_first))]
fn push_fault_first(
    out: &mut Vec<Sentence>,
    session: &Session,
    fault: &Option<FaultStory>,
) -> Result<(), AllocError>
    ensures { OnOk result (out.new.items ≡ out.old.items ++ fault_first session.now fault.now) }
{
    match fault {
        Some(story) => push_caused_first(out, session, story, &story.cause),
        None => Ok(()),
    }
}

/// Appends the first sentences about the page of this number.
#[tactic(auto, unfolding(crate::specs::Sentences::page_first))]
fn push_page_first(
    out: &mut Vec<Sentence>,
    session: &Session,
    number: u32,
    told: &Option<FullPageStory>,
) -> Result<(), AllocError>
    ensures { OnOk result (out.new.items ≡ out.old.items ++ page_first session.now number told.now) }
{
    match told {
        Some(page) => {
            out.extend_from_slice(&[verdict_of(page)])?;
            push_fault_first(out, session, &page.fault)
        }
        None => out.extend_from_slice(&[Sentence::NoPage {
            number,
            pages: session.geometry().pages(),
        }]),
    }
}

/// Appends the first sentences about the line of this number.
#[tactic(auto, unfolding(crate::specs::Sentences::line_first))]
fn push_line_first(
    out: &mut Vec<Sentence>,
    session: &Session,
    number: u32,
    told: &Option<LineStory>,
) -> Result<(), AllocError>
    ensures { OnOk result (out.new.items ≡ out.old.items ++ line_first session.now number told.now) }
{
    match told {
        Some(line) => push_record(out, session, (line.log, line.place), &line.shape),
        None => out.extend_from_slice(&[Sentence::NoRecord(number)]),
    }
}

/// Appends the first sentences about a session.
#[tactic(auto, unfolding(crate::specs::Sentences::told_first))]
fn push_first(
    out: &mut Vec<Sentence>,
    session: &Session,
    told: &TopicStory,
) -> Result<(), AllocError>
    ensures { OnOk result (out.new.items ≡ out.old.items ++ told_first session.now told.now) }
{
    match told {
        TopicStory::Report(explanation) => push_explained_first(out, session, explanation),
        TopicStory::Page(number, page) => push_page_first(out, session, *number, page),
        TopicStory::Line(number, line) => push_line_first(out, session, *number, line),
    }
}

/// Returns the first sentences of a story: the cause of what is wrong, or that nothing is. Fails only if memory runs out.
pub fn told_first(
    alloc: Global,
    session: &Session,
    told: &TopicStory,
) -> Result<Vec<Sentence>, AllocError>
    ensures { IfOk result (λ sentences. sentences.items ≡ told_first session.now told.now) }
{
    let mut out = Vec::new(alloc);
    push_first(&mut out, session, told)?;
    Ok(out)
}
