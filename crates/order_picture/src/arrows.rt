//! The arrows of a picture. Between the rows of the order, an arrow goes from each received record to the record that
//! receives it. After the order, arrows go between records that wait for one another.

ghost use Rattle.std.specs.Prelude.{◌≡◌, [], ◌∷◌, ◌++◌, Some, flat_map, length, position, option_copied, slice_get, OnOk};
ghost use Rattle.std.specs.List.{enumerate_from};
ghost use Rattle.order_picture.specs.Marks.{is_one};
ghost use Rattle.order_picture.specs.Arrows.{arrow_to, arrows, is_marked, received_kind, received_shape, seat_behind, tie_kind, tie_to, ties};

use crate::behind::{Tie, tie_of};
use crate::focus::Mark;
use crate::picture::{Picture, PictureRow, row_receipt};
use crate::records::is_one;
use crate::shapes::Shape;
use migration_types::{LogName, Session};
use session_story::Name;
use std::alloc::AllocError;

/// The place of a record's box: its row, and its log's column.
#[derive(Clone, Copy)]
pub struct Seat {
    pub row: usize,
    pub log: LogName,
}

/// What an arrow says about its two records.
#[derive(Clone, Copy)]
pub enum ArrowKind {
    /// The second record receives the first.
    Received,
    /// The second record receives the first, and both are marked.
    OfPage,
    /// The second record waits for the first.
    Tied,
    /// The second record waits for a record that comes after the first in its log.
    TiedBehind,
}

/// Returns whether a row has a marked record.
fn is_marked(row: Option<&PictureRow>) -> bool
    ensures { result ≡ is_marked (option_copied row.entry) }
{
    match row {
        Some(PictureRow::Record { mark, .. }) => !matches!(mark, Mark::Plain),
        _ => false,
    }
}

/// Returns what the arrow from the row at this place to the record of a row says.
fn received_kind(rows: &[PictureRow], row: &PictureRow, from: usize) -> ArrowKind
    ensures { result ≡ received_kind rows.now row.now from }
{
    if is_marked(Some(row)) && is_marked(rows.get(from)) {
        ArrowKind::OfPage
    } else {
        ArrowKind::Received
    }
}

/// Returns the arrow to the record of a row, which receives a record of this log: from that record's row, or from
/// nowhere if it has none.
fn received_shape(picture: &Picture, to: Seat, row: &PictureRow, sender: LogName) -> Shape
    ensures { result ≡ received_shape picture.now to row.now sender }
{
    match picture.senders.get(to.row) {
        Some(Some(from)) => Shape::Arrow {
            from: *from,
            from_log: sender,
            to: to.row,
            to_log: to.log,
            kind: received_kind(&picture.rows, row, *from),
        },
        _ => Shape::Stub {
            row: to.row,
            log: to.log,
            sender,
        },
    }
}

/// Returns the arrow to the record of a row, if it receives one.
fn arrow_to(session: &Session, picture: &Picture, place: usize, row: &PictureRow) -> Option<Shape>
    ensures { result ≡ arrow_to session.now picture.now (place, row.now) }
{
    match (row, row_receipt(session, row)) {
        (PictureRow::Record { log, .. }, Some(sent)) => {
            let to = Seat {
                row: place,
                log: *log,
            };
            Some(received_shape(picture, to, row, sent.0))
        }
        _ => None,
    }
}

/// Appends the arrows between the rows of the order.
pub(crate) fn push_arrows(
    shapes: &mut Vec<Shape>,
    session: &Session,
    picture: &Picture,
) -> Result<(), AllocError>
    ensures { OnOk result (shapes.new.items ≡ shapes.old.items ++ arrows session.now picture.now) }
{
    for (place, row) in picture.rows.iter().enumerate() {
        if let Some(arrow) = arrow_to(session, picture, place, row) {
            shapes.push(arrow)?;
        }
    }
    Ok(())
}

/// Returns what the arrow to a waiting record says: whether it receives the other record itself, or a later one of the
/// same log.
fn tie_kind(tie: Tie) -> ArrowKind
    ensures { result ≡ tie_kind tie }
{
    if tie.waiting.sent_place == tie.next.place {
        ArrowKind::Tied
    } else {
        ArrowKind::TiedBehind
    }
}

/// Returns the place of a record among these.
fn place_of(names: &[Name], name: Name) -> Option<usize>
    ensures { result ≡ position (is_one (Some name)) names.now }
{
    names.iter().position(|other| is_one(Some(name), *other))
}

/// Returns the place of the box of a record after this many rows of the order, if it has one.
fn seat_behind(rows: &[PictureRow], behind: &[Name], name: Name) -> Option<Seat>
    ensures { result ≡ seat_behind (length rows.now) behind.now name }
{
    match place_of(behind, name) {
        Some(place) => Some(Seat {
            row: rows.len() + place,
            log: name.0,
        }),
        None => None,
    }
}

/// Returns the arrow to a record that waits for another, if both are after the order.
fn tie_to(picture: &Picture, behind: &[Name], name: Name) -> Option<Shape>
    ensures { result ≡ tie_to picture.now behind.now name }
{
    let Some(tie) = tie_of(&picture.told, name) else {
        return None;
    };
    let from = seat_behind(&picture.rows, behind, (tie.next.log, tie.next.place));
    let to = seat_behind(&picture.rows, behind, name);
    match (from, to) {
        (Some(from), Some(to)) => Some(Shape::Arrow {
            from: from.row,
            from_log: from.log,
            to: to.row,
            to_log: to.log,
            kind: tie_kind(tie),
        }),
        _ => None,
    }
}

/// Appends the arrows between the records after the order.
pub(crate) fn push_ties(
    shapes: &mut Vec<Shape>,
    picture: &Picture,
    behind: &[Name],
) -> Result<(), AllocError>
    ensures { OnOk result (shapes.new.items ≡ shapes.old.items ++ ties picture.now behind.now) }
{
    for name in behind {
        if let Some(arrow) = tie_to(picture, behind, *name) {
            shapes.push(arrow)?;
        }
    }
    Ok(())
}
