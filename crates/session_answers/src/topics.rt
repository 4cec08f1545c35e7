//! The topic of a story: a page or a line, with the first fault of the page that it is about.

ghost use Rattle.std.specs.Prelude.{◌≡◌, ◌++◌, ◌<◌, OnOk};
ghost use Rattle.migration_types.specs.Sessions.{log_length};
ghost use Rattle.session_story.specs.Topics.{fault_in, fault_of_page, page_of_line};
ghost use Rattle.session_answers.specs.TopicsText.{apart_told, fault_begun, fault_of, first_fault, its_page, line_topic, page_topic, topic_of};
ghost use Rattle.session_answers.specs.inner.Faults.{IsFaultThere};

use crate::causes::push_cause;
use crate::fields::{open, push_number_under, push_record_in, push_word_under};
use audit_report::Lines;
use migration_types::{Session, line_of};
use page_facts::PageFault;
use session_story::{FaultStory, FullPageStory, LineStory, TopicStory, cause_by};
use std::alloc::AllocError;

/// Appends the first fault of a page, without its end.
#[tactic(auto, unfolding(crate::specs::TopicsText::fault_begun))]
fn begin_fault<L: Lines>(
    out: &mut Vec<u8>,
    lines: &L,
    session: &Session,
    fault: &PageFault,
) -> Result<(), AllocError>
    requires { fault.now.place < log_length session.now fault.now.log }
    ensures { OnOk result (out.new.items ≡ out.old.items ++ fault_begun (L.tell lines.now) session.now fault.now) }
{
    let line = line_of(session, fault.log, fault.place);
    out.extend_from_slice(b",\"fault\":")?;
    open(out, b"line", lines.line(line))?;
    push_record_in(out, fault.log, fault.place)?;
    push_word_under(out, b"reason", fault.reason.word())
}

/// Appends the first fault of a page.
#[tactic(auto, unfolding(crate::specs::TopicsText::fault_of))]
fn push_fault<L: Lines>(
    out: &mut Vec<u8>,
    lines: &L,
    session: &Session,
    fault: &PageFault,
) -> Result<(), AllocError>
    requires { fault.now.place < log_length session.now fault.now.log }
    ensures { OnOk result (out.new.items ≡ out.old.items ++ fault_of (L.tell lines.now) session.now fault.now) }
{
    begin_fault(out, lines, session, fault)?;
    out.extend_from_slice(b"}")
}

/// Appends the first fault that misshapen records do not touch, if there is one, with its page and its cause.
#[tactic(auto, unfolding(crate::specs::TopicsText::apart_told))]
pub(crate) fn push_apart<L: Lines>(
    out: &mut Vec<u8>,
    lines: &L,
    session: &Session,
    apart: &Option<FaultStory>,
) -> Result<(), AllocError>
    requires { IsFaultThere session.now apart.now }
    ensures { OnOk result (out.new.items ≡ out.old.items ++ apart_told (L.tell lines.now) session.now apart.now) }
{
    match apart {
        Some(story) => {
            begin_fault(out, lines, session, &story.fault)?;
            push_number_under(out, b"page", u64::from(story.page.page.number()))?;
            out.extend_from_slice(b"}")?;
            push_cause(out, lines, session, Some(cause_by(story)))
        }
        None => Ok(()),
    }
}

/// Appends the first fault of a page, if it has one.
#[tactic(auto, unfolding(crate::specs::TopicsText::first_fault))]
fn push_first_fault<L: Lines>(
    out: &mut Vec<u8>,
    lines: &L,
    session: &Session,
    fault: &Option<FaultStory>,
) -> Result<(), AllocError>
    requires { IsFaultThere session.now fault.now }
    ensures { OnOk result (out.new.items ≡ out.old.items ++ first_fault (L.tell lines.now) session.now fault.now) }
{
    match fault {
        Some(story) => push_fault(out, lines, session, &story.fault),
        None => Ok(()),
    }
}

/// Appends the page of this number with its first fault, or how many pages there are.
#[tactic(auto, unfolding(crate::specs::TopicsText::page_topic))]
fn push_page_topic<L: Lines>(
    out: &mut Vec<u8>,
    lines: &L,
    session: &Session,
    number: u32,
    told: &Option<FullPageStory>,
) -> Result<(), AllocError>
    requires { IsFaultThere session.now (fault_of_page told.now) }
    ensures { OnOk result (out.new.items ≡ out.old.items ++ page_topic (L.tell lines.now) session.now number told.now) }
{
    open(out, b"page", u64::from(number))?;
    match told {
        Some(page) => push_first_fault(out, lines, session, &page.fault),
        None => push_number_under(out, b"pages", u64::from(session.geometry().pages())),
    }
}

/// Appends the page that a record is about with its first fault, if it is about one.
#[tactic(auto, unfolding(crate::specs::TopicsText::its_page))]
fn push_its_page<L: Lines>(
    out: &mut Vec<u8>,
    lines: &L,
    session: &Session,
    told: &Option<FullPageStory>,
) -> Result<(), AllocError>
    requires { IsFaultThere session.now (fault_of_page told.now) }
    ensures { OnOk result (out.new.items ≡ out.old.items ++ its_page (L.tell lines.now) session.now told.now) }
{
    match told {
        Some(page) => {
            push_number_under(out, b"page", u64::from(page.story.page.number()))?;
            push_first_fault(out, lines, session, &page.fault)
        }
        None => Ok(()),
    }
}

/// Appends a line, with the record at it, if there is one, and the page that this is about.
#[tactic(auto, unfolding(crate::specs::TopicsText::line_topic))]
fn push_line_topic<L: Lines>(
    out: &mut Vec<u8>,
    lines: &L,
    session: &Session,
    number: u32,
    told: &Option<LineStory>,
) -> Result<(), AllocError>
    requires { IsFaultThere session.now (fault_of_page (page_of_line told.now)) }
    ensures { OnOk result (out.new.items ≡ out.old.items ++ line_topic (L.tell lines.now) session.now number told.now) }
{
    open(out, b"line", lines.line(number))?;
    match told {
        Some(line) => {
            push_record_in(out, line.log, line.place)?;
            push_its_page(out, lines, session, &line.page)
        }
        None => Ok(()),
    }
}

/// Appends the topic of a story, unless it is the report. Fails only if memory runs out.
#[tactic(auto, unfolding(crate::specs::TopicsText::topic_of))]
pub(crate) fn push_topic<L: Lines>(
    out: &mut Vec<u8>,
    lines: &L,
    session: &Session,
    told: &TopicStory,
) -> Result<(), AllocError>
    requires { IsFaultThere session.now (fault_in told.now) }
    ensures { OnOk result (out.new.items ≡ out.old.items ++ topic_of (L.tell lines.now) session.now told.now) }
{
    match told {
        TopicStory::Report(_) => Ok(()),
        TopicStory::Page(number, page) => {
            out.extend_from_slice(b",\"topic\":")?;
            push_page_topic(out, lines, session, *number, page)?;
            out.extend_from_slice(b"}")
        }
        TopicStory::Line(number, line) => {
            out.extend_from_slice(b",\"topic\":")?;
            push_line_topic(out, lines, session, *number, line)?;
            out.extend_from_slice(b"}")
        }
    }
}
