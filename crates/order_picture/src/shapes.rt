//! What a picture shows, as a list of shapes: which record has a box in which row and column, what is folded, which
//! arrows go between rows, and what the heading and the legend say.

ghost use Rattle.std.specs.Prelude.{◌≡◌, ◌++◌, IfOk, OnOk};
ghost use Rattle.order_picture.specs.Shapes.{body_shapes, columns, drawn_shapes, has_column, heading, legend, picture_shapes, with_legend};
ghost use Rattle.order_picture.specs.Behind.{names_behind};

use crate::arrows::{ArrowKind, push_arrows, push_ties};
use crate::behind::{Obstacle, names_behind};
use crate::boxes::{BoxKind, Label, push_behind, push_rows};
use crate::picture::Picture;
use crate::shown::{OrderShown, Shown, order_shown};
use crate::signs::{Sign, signs_in};
use audit_report::Report;
use merge_runs::TakenCounts;
use migration_types::{LogName, Session, logs};
use session_story::{Name, amended_by};
use std::alloc::{AllocError, Global};

/// A shape of a picture. Rows count from 0.
#[derive(Clone, Copy)]
pub enum Shape {
    /// The first line of the heading, which is the report's.
    Title,
    /// The first sentences of the story of the session.
    Summary,
    /// Which order is shown.
    Order(OrderShown),
    /// The size of the machine, and how many records each log has.
    Facts,
    /// The column of a log.
    Column(LogName),
    /// An arrow from the record in one row to the record in another, each with its log.
    Arrow {
        from: usize,
        from_log: LogName,
        to: usize,
        to_log: LogName,
        kind: ArrowKind,
    },
    /// The end of an arrow to the record in a row, from a record of another log that has no row.
    Stub {
        row: usize,
        log: LogName,
        sender: LogName,
    },
    /// The box of a record, by its log and number, in a row of its own and the column of its log.
    Record {
        row: usize,
        log: LogName,
        place: u32,
        kind: BoxKind,
        /// The line of the record in the session's text, or 0 if the session has no such record.
        line: u32,
        label: Label,
        obstacle: Obstacle,
    },
    /// A row with a fold of this many records of each log.
    Fold {
        row: usize,
        counts: TakenCounts,
    },
    /// An entry of the legend.
    Legend(Sign),
}

/// Appends the heading.
fn push_heading(
    shapes: &mut Vec<Shape>,
    report: &Report,
    picture: &Picture,
    shown: Shown,
) -> Result<(), AllocError>
    ensures { OnOk result (shapes.new.items ≡ shapes.old.items ++ heading report.now picture.now shown) }
{
    shapes.push(Shape::Title)?;
    shapes.push(Shape::Summary)?;
    shapes.push(Shape::Order(order_shown(report, picture, shown)))?;
    shapes.push(Shape::Facts)?;
    Ok(())
}

/// Returns whether a log has a column.
fn has_column(session: &Session, log: LogName) -> bool
    ensures { result ≡ has_column session.now log }
{
    match log {
        LogName::Lane => session.len(LogName::Lane) > 0,
        _ => true,
    }
}

/// Appends the columns.
fn push_columns(shapes: &mut Vec<Shape>, session: &Session) -> Result<(), AllocError>
    ensures { OnOk result (shapes.new.items ≡ shapes.old.items ++ columns session.now) }
{
    for log in logs() {
        if has_column(session, log) {
            shapes.push(Shape::Column(log))?;
        }
    }
    Ok(())
}

/// Appends the columns, the arrows between the rows of the order, these rows, the arrows between the rows after the
/// order, and those rows.
fn push_body(
    shapes: &mut Vec<Shape>,
    session: &Session,
    picture: &Picture,
    behind: &[Name],
) -> Result<(), AllocError>
    ensures { OnOk result (shapes.new.items ≡ shapes.old.items ++ body_shapes session.now picture.now behind.now) }
{
    let amended = amended_by(session, &picture.told);
    push_columns(shapes, session)?;
    push_arrows(shapes, session, picture)?;
    push_rows(shapes, session, &amended, &picture.rows)?;
    push_ties(shapes, picture, behind)?;
    push_behind(shapes, session, &amended, picture, behind)
}

/// Appends an entry of the legend for each of these signs.
fn push_entries(shapes: &mut Vec<Shape>, found: &[Sign]) -> Result<(), AllocError>
    ensures { OnOk result (shapes.new.items ≡ shapes.old.items ++ legend found.now) }
{
    for sign in found {
        shapes.push(Shape::Legend(*sign))?;
    }
    Ok(())
}

/// Returns the shapes of a picture without its legend, with these records after the order.
fn drawn_shapes(
    alloc: Global,
    session: &Session,
    report: &Report,
    picture: &Picture,
    shown: Shown,
    behind: &[Name],
) -> Result<Vec<Shape>, AllocError>
    ensures { IfOk result (λ shapes. shapes.items ≡ drawn_shapes session.now report.now picture.now shown behind.now) }
{
    let mut shapes = Vec::new(alloc);
    push_heading(&mut shapes, report, picture, shown)?;
    push_body(&mut shapes, session, picture, behind)?;
    Ok(shapes)
}

/// Appends the legend of these shapes.
fn push_legend(shapes: &mut Vec<Shape>) -> Result<(), AllocError>
    ensures { OnOk result (shapes.new.items ≡ with_legend shapes.old.items) }
{
    let found = signs_in(*shapes.allocator(), shapes)?;
    push_entries(shapes, &found)
}

/// Returns what a picture of this session shows: its heading, a column for each log, the rows of the order with the
/// arrows between them, the rows of the records after it with theirs, and a legend of the signs that occur. Allocates
/// memory for the shapes. Fails only if memory runs out.
pub fn picture_shapes(
    alloc: Global,
    session: &Session,
    report: &Report,
    picture: &Picture,
    shown: Shown,
) -> Result<Vec<Shape>, AllocError>
    ensures { IfOk result (λ shapes. shapes.items ≡ picture_shapes session.now report.now picture.now shown) }
{
    let behind = names_behind(alloc, session, picture)?;
    let mut shapes = drawn_shapes(alloc, session, report, picture, shown, &behind)?;
    push_legend(&mut shapes)?;
    Ok(shapes)
}
