//! The plan of a picture.

ghost use Rattle.std.specs.Prelude.{◌≡◌, ◌≤◌, IfOk, length, map, position};
ghost use Rattle.std.specs.List.{list_any};
ghost use Rattle.migration_types.specs.declared.topic.Topic.{Topic as About};
ghost use Rattle.order_picture.specs.Marks.{is_one, mark_of};
ghost use Rattle.order_picture.specs.Rows.{Covers, HasCertain, is_row_of, row_receipt, sender_of, shows_fault};
ghost use Rattle.order_picture.specs.Pictures.{IsPictureOf};
ghost use Rattle.order_picture.specs.inner.Along.{AreRowsAlong};
ghost use Rattle.session_story.specs.Topics.{IsTold};

use crate::focus::{Focus, Mark, focus_of};
use crate::keeping::{Keeping, kept_in};
use crate::order::{OrderPart, part_along};
use crate::records::{guest_record, is_one};
use crate::rows::{Certain, rows_of};
use audit_report::Report;
use merge_runs::TakenCounts;
use migration_types::{GuestRec, LogName, Run, Session};
use session_story::{Name, TopicStory};
use std::alloc::{AllocError, Global};

/// The greatest number of rows in a picture.
pub const MOST_ROWS: usize = 205;

/// A row of a picture.
#[derive(Clone, Copy)]
pub enum PictureRow {
    /// The record of this log and number.
    Record {
        log: LogName,
        place: u32,
        mark: Mark,
    },
    /// A fold of this many records of each log.
    Fold(TakenCounts),
}

/// The plan of a picture.
#[derive(Drop)]
pub struct Picture {
    /// The rows, from the first record on.
    pub rows: Vec<PictureRow>,
    /// For each row, the row whose record it receives, if there is one.
    pub senders: Vec<Option<usize>>,
    /// How many records of each log the picture has.
    pub taken: TakenCounts,
    /// The place of the first run that cannot be taken, or the number of runs if records are left. `None` if the
    /// picture has all records.
    pub bad: Option<usize>,
    /// The story of the session.
    pub told: TopicStory,
    /// What the picture is about.
    pub focus: Focus,
}

/// Returns whether it is the row of this record.
fn is_row_of(name: Name, row: &PictureRow) -> bool
    ensures { result ≡ is_row_of name row.now }
{
    match row {
        PictureRow::Record { log, place, .. } => is_one(Some(name), (*log, *place)),
        PictureRow::Fold(_) => false,
    }
}

/// Returns the record that the row's record is a receipt for.
pub(crate) fn row_receipt(session: &Session, row: &PictureRow) -> Option<Name>
    ensures { result ≡ row_receipt session.now row.now }
{
    match row {
        PictureRow::Record { log, place, .. } => session.named((*log, *place)),
        PictureRow::Fold(_) => None,
    }
}

/// Returns the place of the row of this record.
fn row_with(rows: &[PictureRow], name: Name) -> Option<usize>
    ensures { result ≡ position (is_row_of name) rows.now }
{
    rows.iter().position(|row| is_row_of(name, row))
}

/// Returns the place of the row whose record the row's record receives.
fn sender_of(session: &Session, rows: &[PictureRow], row: &PictureRow) -> Option<usize>
    ensures { result ≡ sender_of session.now rows.now row.now }
{
    match row_receipt(session, row) {
        Some(name) => row_with(rows, name),
        None => None,
    }
}

/// Returns, for each row, the row whose record it receives, if there is one. Fails only if memory runs out.
fn senders_of(
    alloc: Global,
    session: &Session,
    rows: &[PictureRow],
) -> Result<Vec<Option<usize>>, AllocError>
    ensures { IfOk result (λ senders. senders.items ≡ map (sender_of session.now rows.now) rows.now) }
{
    rows.iter()
        .map(|row| sender_of(session, rows, row))
        .collect(alloc)
}

/// Returns the place of an order around which most is shown: the faulty record, or the end if the order is not
/// complete, or the resume.
fn middle_of(session: &Session, fault: Option<usize>, order: &[Name], is_whole: bool) -> usize {
    if let Some(place) = fault {
        return place;
    }
    if !is_whole {
        return order.len();
    }
    order
        .iter()
        .position(|name| matches!(guest_record(session, *name), Some(GuestRec::Resume { .. })))
        .unwrap_or(0)
}

/// The rows of the records along runs.
#[derive(Drop)]
pub(crate) struct RowsAlong {
    pub rows: Vec<PictureRow>,
    pub senders: Vec<Option<usize>>,
    pub taken: TakenCounts,
    pub bad: Option<usize>,
}

/// Returns the rows of an order along runs, which has all records of the session or not.
fn rows_in(
    alloc: Global,
    session: &Session,
    told: &TopicStory,
    focus: &Focus,
    runs: &[Run],
    order: &[Name],
    is_whole: bool,
) -> Result<Vec<PictureRow>, AllocError>
    ensures covers { IfOk result (λ rows. Covers (mark_of session.now focus.now) rows.items order.now) }
    ensures few { IfOk result (λ rows. length rows.items ≤ 205) }
    ensures shown { IfOk result (λ rows. shows_fault rows.items ≡ list_any (is_one focus.now.fault) order.now) }
    ensures certain { IfOk result (λ rows. HasCertain (position (is_one focus.now.fault) order.now) (position (is_one focus.now.cause) order.now) (position (is_one focus.now.against) order.now) rows.items order.now) }
{
    let certain = Certain::of(focus, order);
    let middle = middle_of(session, certain.fault, order, is_whole);
    let keeping = Keeping {
        session,
        told,
        focus,
        runs,
        certain,
        middle,
    };
    let wanted = kept_in(alloc, &keeping, order)?;
    rows_of(alloc, session, focus, order, &wanted, certain)
}

/// Returns the rows of the records along runs, as far as these can be taken, given the story and what the picture is
/// about.
fn rows_along(
    alloc: Global,
    session: &Session,
    told: &TopicStory,
    focus: &Focus,
    runs: &[Run],
) -> Result<RowsAlong, AllocError>
    ensures { IfOk result (AreRowsAlong session.now focus.now runs.now) }
{
    let OrderPart { names, taken, bad } = part_along(alloc, session, runs)?;
    let rows = rows_in(alloc, session, told, focus, runs, &names, bad.is_none())?;
    let senders = senders_of(alloc, session, &rows)?;
    Ok(RowsAlong {
        rows,
        senders,
        taken,
        bad,
    })
}

/// Returns the picture of a session's records along runs, given the story on a topic. It has all records if the runs
/// spell a merging, and otherwise those that the runs before the first bad one take. Fails only if memory runs out.
pub fn plan_told(
    alloc: Global,
    session: &Session,
    report: &Report,
    told: TopicStory,
    runs: &[Run],
) -> Result<Picture, AllocError>
    ensures { (topic : About) → IsTold session.now report.now topic told → IfOk result (IsPictureOf session.now report.now topic runs.now) }
{
    let focus = focus_of(session, report, &told);
    let along = rows_along(alloc, session, &told, &focus, runs)?;
    Ok(Picture {
        rows: along.rows,
        senders: along.senders,
        taken: along.taken,
        bad: along.bad,
        told,
        focus,
    })
}
