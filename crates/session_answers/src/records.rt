//! The records that the story of a session names, each with its role.

ghost use Rattle.std.specs.Prelude.{◌≡◌, ◌++◌, List, Some, IfOk, OnOk};
ghost use Rattle.std.specs.List.{flat_map};
ghost use Rattle.session_answers.specs.RecordsText.{apart_parts, fault_parts, faulty_part, full_parts, line_parts, page_parts, parts_in, parts_of, records_of, report_parts, role_word, shape_parts, told, told_at, told_record, waiting_parts};

use crate::fields::{push_number_under, push_word_under};
use crate::lists::Item;
use audit_report::Lines;
use migration_types::{LogName, Session};
use session_story::{
    ApartStory, Explanation, FaultStory, FullPageStory, Handover, LineStory, PageStory, ShapeStory,
    TopicStory, Waiting, line_at, resumed_by,
};
use std::alloc::{AllocError, Global};

/// The role of a record in the story of a session.
#[derive(Clone, Copy)]
pub(crate) enum Role {
    /// It has a fault, or does not have the right shape.
    Faulty,
    /// The last change of the page before the halt.
    Changed,
    /// The guest's halt.
    Halt,
    /// The first sending of the page.
    Sent,
    /// The first delivery of what was sent, by the link or by the lane.
    Delivered,
    /// The record by which the pager took what was delivered.
    Taken,
    /// The first placement.
    Placed,
    /// The second placement.
    PlacedAgain,
    /// The first look that reaches a placement.
    Look,
    /// The first use at the target.
    Touch,
    /// The resume of a guest that the source started again.
    Resume,
    /// A record that waits for the next one of a knot.
    Waits,
    /// The record at the line that the story is about.
    Named,
}

impl Role {
    /// Returns the word of a role.
    fn word(self) -> &'static [u8]
        ensures { result.now ≡ role_word self }
    {
        match self {
            Role::Faulty => b"faulty",
            Role::Changed => b"changed",
            Role::Halt => b"halt",
            Role::Sent => b"sent",
            Role::Delivered => b"delivered",
            Role::Taken => b"taken",
            Role::Placed => b"placed",
            Role::PlacedAgain => b"placed-again",
            Role::Look => b"look",
            Role::Touch => b"touch",
            Role::Resume => b"resume",
            Role::Waits => b"waits",
            Role::Named => b"named",
        }
    }
}

/// A record of a session, with its role and its line.
#[derive(Clone, Copy)]
pub(crate) struct ToldRecord {
    pub role: Role,
    pub log: LogName,
    pub place: u32,
    /// The line number that is printed for it.
    pub line: u64,
}

impl Item for ToldRecord {
    ghost written = { told_record };

    #[tactic(auto, unfolding(crate::specs::RecordsText::told_record))]
    fn push(&self, out: &mut Vec<u8>) -> Result<(), AllocError> {
        out.extend_from_slice(b"{\"role\":\"")?;
        out.extend_from_slice(self.role.word())?;
        out.extend_from_slice(b"\"")?;
        push_word_under(out, b"log", self.log.word().as_bytes())?;
        push_number_under(out, b"record", u64::from(self.place))?;
        push_number_under(out, b"line", self.line)?;
        out.extend_from_slice(b"}")
    }
}

/// A record that a story may name: its role, its log, and its number there, if the story has one.
#[derive(Clone, Copy)]
struct Part(Role, LogName, Option<u32>);

/// A story that names records.
trait Parts {
    ghost use Rattle.session_answers.specs.declared.records.Part.{Part};

    /// The records that it names.
    ghost named: { Self → List Part };

    /// Adds them.
    fn push(&self, parts: &mut Vec<Part>) -> Result<(), AllocError>
        ensures { OnOk result (parts.new.items ≡ parts.old.items ++ named self.now) };
}

/// Adds the parts of a story, if there is one.
fn push_in<T: Parts>(parts: &mut Vec<Part>, told: &Option<T>) -> Result<(), AllocError>
    ensures { OnOk result (parts.new.items ≡ parts.old.items ++ parts_in T.named told.now) }
{
    match told {
        Some(story) => story.push(parts),
        None => Ok(()),
    }
}

impl Parts for FaultStory {
    ghost named = { faulty_part };

    fn push(&self, parts: &mut Vec<Part>) -> Result<(), AllocError> {
        let fault = &self.fault;
        parts.extend_from_slice(&[Part(Role::Faulty, fault.log, Some(fault.place))])
    }
}

/// Adds the parts that say how a page came to the target, and what became of it there.
fn push_page(parts: &mut Vec<Part>, page: &PageStory, handover: &Handover) -> Result<(), AllocError>
    ensures { OnOk result (parts.new.items ≡ parts.old.items ++ page_parts page.now handover.now) }
{
    let found = &page.found;
    parts.extend_from_slice(&[
        Part(Role::Changed, LogName::Guest, page.changed),
        Part(Role::Halt, LogName::Guest, handover.halt),
        Part(Role::Sent, LogName::Source, page.sent),
        Part(Role::Delivered, LogName::Link, page.delivered),
        Part(Role::Delivered, LogName::Lane, page.by_lane),
        Part(Role::Taken, LogName::Pager, page.got),
        Part(Role::Placed, LogName::Pager, found.placement),
        Part(Role::PlacedAgain, LogName::Pager, found.again),
        Part(Role::Look, LogName::Guest, found.look),
        Part(Role::Touch, LogName::Guest, found.touch),
    ])
}

impl Parts for ShapeStory {
    ghost named = { shape_parts };

    fn push(&self, parts: &mut Vec<Part>) -> Result<(), AllocError> {
        let fault = &self.fault;
        parts.extend_from_slice(&[
            Part(Role::Faulty, fault.log, Some(fault.place)),
            Part(Role::Sent, LogName::Source, self.sent),
            Part(Role::Resume, LogName::Guest, resumed_by(self)),
        ])
    }
}

impl Parts for FullPageStory {
    ghost named = { full_parts };

    fn push(&self, parts: &mut Vec<Part>) -> Result<(), AllocError> {
        push_in(parts, &self.fault)?;
        push_page(parts, &self.story, &self.handover)
    }
}

impl Parts for LineStory {
    ghost named = { line_parts };

    fn push(&self, parts: &mut Vec<Part>) -> Result<(), AllocError> {
        parts.extend_from_slice(&[Part(Role::Named, self.log, Some(self.place))])?;
        push_in(parts, &self.shape)?;
        push_in(parts, &self.page)
    }
}

/// Adds the parts of a fault and of its page.
fn push_fault(parts: &mut Vec<Part>, story: &FaultStory) -> Result<(), AllocError>
    ensures { OnOk result (parts.new.items ≡ parts.old.items ++ fault_parts story.now) }
{
    story.push(parts)?;
    push_page(parts, &story.page, &story.handover)
}

/// Adds the records that wait for one another.
fn push_waits(parts: &mut Vec<Part>, waits: &[Waiting]) -> Result<(), AllocError>
    ensures { OnOk result (parts.new.items ≡ parts.old.items ++ waiting_parts waits.now) }
{
    for waiting in waits {
        parts.push(Part(Role::Waits, waiting.log, Some(waiting.place)))?;
    }
    Ok(())
}

/// Adds the parts of the first fault that misshapen records do not touch, and of its page, if there is one.
fn push_apart(parts: &mut Vec<Part>, apart: &Option<ApartStory>) -> Result<(), AllocError>
    ensures { OnOk result (parts.new.items ≡ parts.old.items ++ apart_parts apart.now) }
{
    match apart {
        Some(told) => push_fault(parts, &told.story),
        None => Ok(()),
    }
}

/// Adds the parts of the story of the report.
fn push_report(parts: &mut Vec<Part>, explanation: &Explanation) -> Result<(), AllocError>
    ensures { OnOk result (parts.new.items ≡ parts.old.items ++ report_parts explanation.now) }
{
    match explanation {
        Explanation::Shape { story, apart } => {
            story.push(parts)?;
            push_apart(parts, apart)
        }
        Explanation::Knot(knot) => push_waits(parts, &knot.waits),
        Explanation::Faulty { story, .. } => push_fault(parts, story),
        Explanation::Clean(_) => Ok(()),
    }
}

/// Returns the parts of the story on a topic.
fn parts_of(alloc: Global, told: &TopicStory) -> Result<Vec<Part>, AllocError>
    ensures { IfOk result (λ parts. parts.items ≡ parts_of told.now) }
{
    let mut parts = Vec::new(alloc);
    match told {
        TopicStory::Report(explanation) => push_report(&mut parts, explanation)?,
        TopicStory::Page(_, page) => push_in(&mut parts, page)?,
        TopicStory::Line(_, line) => push_in(&mut parts, line)?,
    }
    Ok(parts)
}

/// Adds the record of this number, if the session has it.
fn take_at<L: Lines>(
    records: &mut Vec<ToldRecord>,
    session: &Session,
    lines: &L,
    role: Role,
    log: LogName,
    place: u32,
) -> Result<(), AllocError>
    ensures { OnOk result (records.new.items ≡ records.old.items ++ told_at (L.tell lines.now) session.now role log (Some place)) }
{
    match line_at(session, log, place) {
        Some(line) => records.push(ToldRecord {
            role,
            log,
            place,
            line: lines.line(line),
        })?,
        None => {}
    }
    Ok(())
}

/// Adds the record of a part, if the part has a number and the session that record.
fn take<L: Lines>(
    records: &mut Vec<ToldRecord>,
    session: &Session,
    lines: &L,
    part: Part,
) -> Result<(), AllocError>
    ensures { OnOk result (records.new.items ≡ records.old.items ++ told (L.tell lines.now) session.now part) }
{
    match part.2 {
        Some(place) => take_at(records, session, lines, part.0, part.1, place),
        None => Ok(()),
    }
}

/// Adds the records of these parts.
fn take_all<L: Lines>(
    records: &mut Vec<ToldRecord>,
    session: &Session,
    lines: &L,
    parts: &[Part],
) -> Result<(), AllocError>
    ensures { OnOk result (records.new.items ≡ records.old.items ++ flat_map (told (L.tell lines.now) session.now) parts.now) }
{
    for part in parts {
        take(records, session, lines, *part)?;
    }
    Ok(())
}

/// Returns the records of the story on a topic. Fails only if memory runs out.
pub(crate) fn records_of<L: Lines>(
    alloc: Global,
    session: &Session,
    lines: &L,
    told: &TopicStory,
) -> Result<Vec<ToldRecord>, AllocError>
    ensures { IfOk result (λ records. records.items ≡ records_of (L.tell lines.now) session.now told.now) }
{
    let parts = parts_of(alloc, told)?;
    let mut records = Vec::new(alloc);
    take_all(&mut records, session, lines, &parts)?;
    Ok(records)
}
