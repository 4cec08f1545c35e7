//! Packets and requests that were sent and not delivered.

ghost use Rattle.std.specs.Prelude.{◌≡◌, ◌==◌, ℕ, Option, Some, false, length, replicate, slice_index_or, IfOk};
ghost use Rattle.std.specs.List.{list_any};
ghost use Rattle.audit_model.specs.Shape.{goes_down, lane_sending, passes};
ghost use Rattle.session_story.specs.Counted.{is_delivered_down, is_delivered_up, is_undelivered_packet, is_undelivered_request};
ghost use Rattle.session_story.specs.Scans.{how_many};
ghost use Rattle.session_story.specs.inner.Delivered.{AreMarked, AreMarks, is_unmarked_packet, is_unmarked_request, link_number};

use crate::scans::{RecordQuestion, count_of};
use migration_types::{LaneRec, LinkRec, PagerRec, Session, SourceRec};
use std::alloc::{AllocError, Global};

/// What the records of a log deliver.
trait Deliveries {
    type Record;

    /// The number of the record that a record delivers, if it delivers one.
    ghost delivered: { Self → Self.Record → Option ℕ };

    /// Returns the number of the record that a record delivers, if it delivers one.
    fn delivered(&self, rec: &Self::Record) -> Option<u32>
        ensures { result ≡ delivered self.now rec.now };
}

/// What the link delivers to one side.
#[derive(Clone, Copy)]
enum LinkTo {
    Target,
    Source,
}

/// What the lane delivers to the target's side.
#[derive(Clone, Copy)]
struct LaneDown;

impl Deliveries for LinkTo {
    type Record = LinkRec;

    ghost delivered = { link_number };

    fn delivered(&self, rec: &LinkRec) -> Option<u32> {
        match (self, *rec) {
            (LinkTo::Target, LinkRec::Down { sending }) => Some(sending),
            (LinkTo::Source, LinkRec::Up { asking }) => Some(asking),
            _ => None,
        }
    }
}

impl Deliveries for LaneDown {
    type Record = LaneRec;

    ghost delivered = { λ _ r. Some (lane_sending r) };

    fn delivered(&self, rec: &LaneRec) -> Option<u32> {
        match *rec {
            LaneRec::Down { sending } => Some(sending),
        }
    }
}

/// Returns this many marks, none of them set. Fails only if memory runs out.
fn no_marks(alloc: Global, count: usize) -> Result<Vec<bool>, AllocError>
    ensures { IfOk result (λ v. v.items ≡ replicate count false) }
{
    vec![in alloc; false; count]
}

/// Sets the mark of this number, if there is one.
fn mark(marks: &mut Vec<bool>, number: u32)
    ensures { AreMarked (λ m. number == m) marks.old.items marks.new.items }
{
    let number = number as usize;
    if number < marks.len() {
        marks[number] = true;
    }
}

/// Sets the mark of this number, if there is a number and a mark.
fn mark_named(marks: &mut Vec<bool>, number: Option<u32>)
    ensures { AreMarked (λ m. passes (λ k. k == m) number) marks.old.items marks.new.items }
{
    match number {
        Some(number) => mark(marks, number),
        None => {}
    }
}

/// Sets the mark of each record that a log delivers.
fn mark_delivered<D: Deliveries>(marks: &mut Vec<bool>, deliveries: &D, log: &[D::Record])
    ensures { AreMarked (λ m. list_any (λ r. passes (λ k. k == m) (D.delivered deliveries.now r)) log.now) marks.old.items marks.new.items }
{
    for n in 0..log.len() {
        let number = deliveries.delivered(&log[n]);
        mark_named(marks, number);
    }
}

/// Returns a mark for each record of the source: whether the link or the lane delivers it.
fn delivered_down(alloc: Global, session: &Session) -> Result<Vec<bool>, AllocError>
    ensures { IfOk result (λ marks. AreMarks (is_delivered_down session.now) (length session.now.source) marks.items) }
{
    let mut marks = no_marks(alloc, session.source().len())?;
    mark_delivered(&mut marks, &LaneDown, session.lane());
    mark_delivered(&mut marks, &LinkTo::Target, session.link());
    Ok(marks)
}

/// Returns a mark for each record of the pager: whether the link delivers it.
fn delivered_up(alloc: Global, session: &Session) -> Result<Vec<bool>, AllocError>
    ensures { IfOk result (λ marks. AreMarks (is_delivered_up session.now) (length session.now.pager) marks.items) }
{
    let mut marks = no_marks(alloc, session.pager().len())?;
    mark_delivered(&mut marks, &LinkTo::Source, session.link());
    Ok(marks)
}

/// Whether a record of the source is a packet without a mark.
#[derive(Drop)]
struct UnmarkedPacket {
    marks: Vec<bool>,
}

/// Whether a record of the pager asks for a page, and has no mark.
#[derive(Drop)]
struct UnmarkedRequest {
    marks: Vec<bool>,
}

/// Returns whether the mark of this number is set.
fn is_marked(marks: &[bool], n: usize) -> bool
    ensures { result ≡ slice_index_or marks.now n false }
{
    n < marks.len() && marks[n]
}

/// Returns whether a record of the source is a packet.
fn goes_down(rec: &SourceRec) -> bool
    ensures { result ≡ goes_down rec.now }
{
    matches!(
        rec,
        SourceRec::State | SourceRec::Send { .. } | SourceRec::Again { .. }
    )
}

impl RecordQuestion for UnmarkedPacket {
    type Record = SourceRec;

    ghost holds = { is_unmarked_packet };

    fn holds(&self, _session: &Session, n: usize, rec: &SourceRec) -> bool {
        goes_down(rec) && !is_marked(&self.marks, n)
    }
}

impl RecordQuestion for UnmarkedRequest {
    type Record = PagerRec;

    ghost holds = { is_unmarked_request };

    fn holds(&self, _session: &Session, n: usize, rec: &PagerRec) -> bool {
        matches!(rec, PagerRec::Want { .. }) && !is_marked(&self.marks, n)
    }
}

/// Returns how many packets of the source neither the link nor the lane delivered. Makes one pass over the logs of these
/// three, and allocates memory for a mark for each record of the source. Fails only if memory runs out.
pub(crate) fn count_of_undelivered_packets(
    alloc: Global,
    session: &Session,
) -> Result<u32, AllocError>
    ensures { IfOk result (λ count. count ≡ how_many (is_undelivered_packet session.now) session.now.source (length session.now.source)) }
{
    session.keeps_limits();
    let question = UnmarkedPacket {
        marks: delivered_down(alloc, session)?,
    };
    Ok(count_of(session, &question, session.source()))
}

/// Returns how many requests of the pager for a page the link did not deliver. Makes one pass over the logs of both, and
/// allocates memory for a mark for each record of the pager. Fails only if memory runs out.
pub(crate) fn count_of_undelivered_requests(
    alloc: Global,
    session: &Session,
) -> Result<u32, AllocError>
    ensures { IfOk result (λ count. count ≡ how_many (is_undelivered_request session.now) session.now.pager (length session.now.pager)) }
{
    session.keeps_limits();
    let question = UnmarkedRequest {
        marks: delivered_up(alloc, session)?,
    };
    Ok(count_of(session, &question, session.pager()))
}
