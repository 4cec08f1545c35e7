//! The rows of a picture: the boxes of records, and the folded records.

ghost use Rattle.std.specs.Prelude.{◌≡◌, [], ◌∷◌, ◌++◌, length, map, OnOk};
ghost use Rattle.std.specs.List.{enumerate_from};
ghost use Rattle.order_picture.specs.Boxes.{behind_box, behind_shape, behind_shapes, kind_of, label_in, line_in, row_shape, row_shapes};

use crate::behind::{Obstacle, kind_behind, obstacle_of};
use crate::focus::Mark;
use crate::picture::{Picture, PictureRow};
use crate::shapes::Shape;
use migration_types::{Session, line_of};
use session_story::{Amended, Name};
use std::alloc::AllocError;

/// What the box of a record says about it.
#[derive(Clone, Copy)]
pub enum BoxKind {
    /// It is the faulty record.
    Faulty,
    /// It is the faulty record, which is also the cause.
    OwnCause,
    /// It is the record that is the cause.
    Cause,
    /// It is the record that the cause is set against.
    Against,
    /// It is about the page that the picture is about.
    OfPage,
    /// It is another record of the order.
    Plain,
    /// It waits for another waiting record.
    Tied,
    /// It is the next record of its log, which the order does not take.
    Stuck,
}

/// What the label of a box shows.
#[derive(Clone, Copy)]
pub enum Label {
    /// The record as it is.
    Recorded,
    /// The wrong value of the faulty record, and the right one.
    Amended,
}

/// Returns the line of a record in the session's text, from 1, or 0 if the session has no such record.
fn line_in(session: &Session, name: Name) -> u32
    ensures { result ≡ line_in session.now name }
{
    if (name.1 as usize) < session.len(name.0) {
        line_of(session, name.0, name.1)
    } else {
        0
    }
}

/// Returns what the label of a box shows. That of the faulty record shows its wrong value and the right one, if they
/// are known.
fn label_in(amended: &Option<Amended>, kind: BoxKind) -> Label
    ensures { result ≡ label_in amended.now kind }
{
    match (amended, kind) {
        (Some(_), BoxKind::Faulty | BoxKind::OwnCause) => Label::Amended,
        _ => Label::Recorded,
    }
}

/// Returns what the box of a record of the order with this mark says.
pub(crate) fn kind_of(mark: Mark) -> BoxKind
    ensures { result ≡ kind_of mark }
{
    match mark {
        Mark::Faulty => BoxKind::Faulty,
        Mark::OwnCause => BoxKind::OwnCause,
        Mark::Cause => BoxKind::Cause,
        Mark::Against => BoxKind::Against,
        Mark::OfPage => BoxKind::OfPage,
        Mark::Plain => BoxKind::Plain,
    }
}

/// Returns the shape of a row of the order.
fn row_shape(session: &Session, amended: &Option<Amended>, place: usize, row: &PictureRow) -> Shape
    ensures { result ≡ row_shape session.now amended.now (place, row.now) }
{
    match row {
        PictureRow::Record {
            log,
            place: number,
            mark,
        } => Shape::Record {
            row: place,
            log: *log,
            place: *number,
            kind: kind_of(*mark),
            line: line_in(session, (*log, *number)),
            label: label_in(amended, kind_of(*mark)),
            obstacle: Obstacle::Nothing,
        },
        PictureRow::Fold(counts) => Shape::Fold {
            row: place,
            counts: *counts,
        },
    }
}

/// Appends the rows of the order.
pub(crate) fn push_rows(
    shapes: &mut Vec<Shape>,
    session: &Session,
    amended: &Option<Amended>,
    rows: &[PictureRow],
) -> Result<(), AllocError>
    ensures { OnOk result (shapes.new.items ≡ shapes.old.items ++ row_shapes session.now amended.now rows.now) }
{
    for (place, row) in rows.iter().enumerate() {
        shapes.push(row_shape(session, amended, place, row))?;
    }
    Ok(())
}

/// Returns the box of a record after the order, in this row.
fn behind_box(
    session: &Session,
    amended: &Option<Amended>,
    picture: &Picture,
    row: usize,
    name: Name,
) -> Shape
    ensures { result ≡ behind_box session.now amended.now picture.now row name }
{
    let kind = kind_behind(picture, name);
    Shape::Record {
        row,
        log: name.0,
        place: name.1,
        kind,
        line: line_in(session, name),
        label: label_in(amended, kind),
        obstacle: obstacle_of(session, picture, name),
    }
}

/// Appends the rows of the records after the order.
pub(crate) fn push_behind(
    shapes: &mut Vec<Shape>,
    session: &Session,
    amended: &Option<Amended>,
    picture: &Picture,
    behind: &[Name],
) -> Result<(), AllocError>
    ensures { OnOk result (shapes.new.items ≡ shapes.old.items ++ behind_shapes session.now amended.now picture.now behind.now) }
{
    for (place, name) in behind.iter().enumerate() {
        let row = picture.rows.len() + place;
        shapes.push(behind_box(session, amended, picture, row, *name))?;
    }
    Ok(())
}
