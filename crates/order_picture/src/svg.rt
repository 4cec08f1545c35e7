//! The writer of a picture: its shapes as a text of SVG.

ghost use Rattle.std.specs.Prelude.{◌≡◌, ◌++◌, ℕ, List, IfOk, OnOk};
ghost use Rattle.audit_report.specs.Reports.{IsReport};
ghost use Rattle.order_picture.specs.Svg.{IsPictureText, IsPictureTextAlong, IsSvg};

use crate::arrows::{ArrowKind, Seat};
use crate::drawing::{
    RecordBox, push_arrow, push_column, push_fold, push_margin_name, push_record, push_stub,
};
use crate::elements::{push, push_attribute, push_head, push_length, push_paint};
use crate::heading::{Heading, Subject, heading_of};
use crate::labels::push_label;
use crate::layout::{Columns, top_of};
use crate::legend::{legend_height, push_entry};
use crate::picture::Picture;
use crate::planning::{plan_along, plan_on};
use crate::shapes::{Shape, picture_shapes};
use crate::shown::Shown;
use crate::style::{
    COLUMNS_LEFT, DARK_COLOURS, FIGURE_LETTERS, FONT, FONTS, HEADING_END, LEGEND_GAP, PAPER,
    figures_of, head_of,
};
use audit_report::{Report, push_first_line};
use migration_types::{LOG_COUNT, Run, Session, Topic};
use session_story::TopicStory;
use std::alloc::{AllocError, Global};
use text_lines::push_number;

const OPENING: &[u8] = b"<svg ";

const CLOSING: &[u8] = b"</svg>\n";

/// The size of a picture.
#[derive(Clone, Copy)]
struct PictureSize {
    columns: Columns,
    /// The number of its rows.
    rows: usize,
    /// The number of entries in its legend.
    entries: u64,
}

/// Returns the box of a shape, if it has one.
fn box_of(shape: &Shape) -> Option<RecordBox> {
    match shape {
        Shape::Record {
            row,
            log,
            place,
            kind,
            line,
            label,
            obstacle,
        } => Some(RecordBox {
            row: *row,
            name: (*log, *place),
            kind: *kind,
            line: *line,
            label: *label,
            obstacle: *obstacle,
        }),
        _ => None,
    }
}

/// Returns how many letters the label of a box has, with its number and with those that have room in the place of a
/// second figure, if it has one.
fn letters_of(alloc: Global, subject: Subject<'_>, one: &RecordBox) -> Result<usize, AllocError> {
    let mut label = Vec::new(alloc);
    push_number(&mut label, one.name.1)?;
    push_label(&mut label, subject, one)?;
    let besides = if figures_of(one.kind)[1].is_some() {
        FIGURE_LETTERS
    } else {
        0
    };
    Ok(label.len().saturating_add(besides))
}

/// Returns the size of the picture of these shapes: it has a row for each record and each fold, and columns as wide as
/// the labels need.
fn size_of(
    alloc: Global,
    subject: Subject<'_>,
    shapes: &[Shape],
) -> Result<PictureSize, AllocError> {
    let mut has = [false; LOG_COUNT];
    let mut letters = [0; LOG_COUNT];
    let mut rows: usize = 0;
    let mut entries: u64 = 0;
    for shape in shapes {
        if let Some(one) = box_of(shape) {
            let at = one.name.0.index();
            letters[at] = letters_of(alloc, subject, &one)?.max(letters[at]);
        }
        match shape {
            Shape::Column(log) => has[log.index()] = true,
            Shape::Record { .. } | Shape::Fold { .. } => rows = rows.saturating_add(1),
            Shape::Legend(_) => entries = entries.saturating_add(1),
            _ => {}
        }
    }
    Ok(PictureSize {
        columns: Columns { has, letters },
        rows,
        entries,
    })
}

/// Appends the attributes of the element.
fn push_size(out: &mut Vec<u8>, width: u64, height: u64) -> Result<(), AllocError> {
    push(out, b"xmlns='http://www.w3.org/2000/svg'")?;
    push_length(out, b"width", width)?;
    push_length(out, b"height", height)?;
    push(out, b" viewBox='0 0 ")?;
    push_number(out, width)?;
    push(out, b" ")?;
    push_number(out, height)?;
    push(out, b"'")?;
    push_attribute(out, b"font-family", FONTS)?;
    push_length(out, b"font-size", FONT)?;
    push(out, b">\n")
}

/// Appends what comes before the heading: the title, the colours for a dark page, the heads of the arrows and the
/// paper.
fn push_front(out: &mut Vec<u8>, report: &Report) -> Result<(), AllocError> {
    push(out, b"<title>")?;
    push_first_line(out, report)?;
    push(out, b"</title>\n")?;
    push(out, DARK_COLOURS)?;
    push(out, b"<defs>\n")?;
    for kind in [ArrowKind::Received, ArrowKind::OfPage, ArrowKind::Tied] {
        push_head(out, head_of(kind))?;
    }
    push(out, b"</defs>\n<rect")?;
    push_paint(out, PAPER)?;
    push(out, b" width='100%' height='100%'/>\n")
}

/// Appends a shape, if it comes between the heading and the legend.
fn push_shape(
    out: &mut Vec<u8>,
    alloc: Global,
    subject: Subject<'_>,
    size: PictureSize,
    shape: &Shape,
) -> Result<(), AllocError> {
    let columns = size.columns;
    if let Some(one) = box_of(shape) {
        return push_record(out, alloc, subject, columns, &one);
    }
    match shape {
        Shape::Column(log) => push_column(out, columns, size.rows, *log),
        Shape::Arrow {
            from,
            from_log,
            to,
            to_log,
            kind,
        } => {
            let from = Seat {
                row: *from,
                log: *from_log,
            };
            let to = Seat {
                row: *to,
                log: *to_log,
            };
            push_arrow(out, columns, from, to, *kind)
        }
        Shape::Stub { row, log, sender } => {
            let to = Seat {
                row: *row,
                log: *log,
            };
            push_stub(out, columns, to, *sender)
        }
        Shape::Fold { row, counts } => push_fold(out, alloc, columns, *row, counts),
        _ => Ok(()),
    }
}

/// Appends the legend.
fn push_legend(out: &mut Vec<u8>, rows: usize, shapes: &[Shape]) -> Result<(), AllocError> {
    push(out, b"<g class='legend' transform='translate(")?;
    push_number(out, COLUMNS_LEFT)?;
    push(out, b" ")?;
    push_number(out, top_of(rows).saturating_add(LEGEND_GAP))?;
    push(out, b")'>\n")?;
    let mut place: u64 = 0;
    for shape in shapes {
        if let Shape::Legend(sign) = shape {
            push_entry(out, place, *sign)?;
            place = place.saturating_add(1);
        }
    }
    push(out, b"</g>\n")
}

/// Appends what comes below the heading.
fn push_body(
    out: &mut Vec<u8>,
    alloc: Global,
    subject: Subject<'_>,
    size: PictureSize,
    shapes: &[Shape],
) -> Result<(), AllocError> {
    push_margin_name(out)?;
    for shape in shapes {
        push_shape(out, alloc, subject, size, shape)?;
    }
    push_legend(out, size.rows, shapes)
}

/// Appends what comes between the opening and the closing tag, with this heading.
fn push_inside(
    out: &mut Vec<u8>,
    alloc: Global,
    subject: Subject<'_>,
    size: PictureSize,
    heading: &Heading,
    shapes: &[Shape],
) -> Result<(), AllocError> {
    let more = heading.y.saturating_sub(HEADING_END);
    let height = top_of(size.rows)
        .saturating_add(legend_height(size.entries))
        .saturating_add(more);
    push_size(out, size.columns.width(), height)?;
    push_front(out, subject.report)?;
    push(out, &heading.text)?;
    push(out, b"<g transform='translate(0 ")?;
    push_number(out, more)?;
    push(out, b")'>\n")?;
    push_body(out, alloc, subject, size, shapes)?;
    push(out, b"</g>\n")
}

/// Returns what comes between the opening and the closing tag.
fn inside_of(alloc: Global, subject: Subject<'_>, shapes: &[Shape]) -> Result<Vec<u8>, AllocError> {
    let size = size_of(alloc, subject, shapes)?;
    let heading = heading_of(alloc, subject, shapes, size.columns.width())?;
    let mut out = Vec::new(alloc);
    push_inside(&mut out, alloc, subject, size, &heading, shapes)?;
    Ok(out)
}

/// Appends shapes as SVG without scripts, in light colours and in dark ones, for a session with this report and this
/// story. What was there stays the beginning. Fails only if memory runs out.
pub fn write_shapes(
    out: &mut Vec<u8>,
    session: &Session,
    report: &Report,
    told: &TopicStory,
    shapes: &[Shape],
) -> Result<(), AllocError>
    ensures { OnOk result ((text : List ℕ) × IsSvg text × (out.new.items ≡ out.old.items ++ text)) }
{
    let alloc = *out.allocator();
    let subject = Subject {
        session,
        report,
        told,
    };
    let inside = inside_of(alloc, subject, shapes)?;
    out.extend_from_slice(OPENING)?;
    out.extend_from_slice(&inside)?;
    out.extend_from_slice(CLOSING)
}

/// Returns the text of a picture of this session: the shapes that [`picture_shapes`] returns, as [`write_shapes`]
/// writes them. Fails only if memory runs out.
pub fn picture_text(
    alloc: Global,
    session: &Session,
    report: &Report,
    picture: &Picture,
    shown: Shown,
) -> Result<Vec<u8>, AllocError>
    ensures { IfOk result (λ text. IsSvg text.items) }
{
    let shapes = picture_shapes(alloc, session, report, picture, shown)?;
    let mut text = Vec::new(alloc);
    write_shapes(&mut text, session, report, &picture.told, &shapes)?;
    Ok(text)
}

/// Returns the picture of a session in the order of its report, about the story on a topic. Makes the passes and
/// allocates the memory that [`plan_on`] does, and also allocates memory for the text. Fails only if memory runs out.
pub fn print_picture_on(
    alloc: Global,
    session: &Session,
    report: &Report,
    topic: Topic,
) -> Result<Vec<u8>, AllocError>
    requires { IsReport session.now report.now }
    ensures svg { IfOk result (λ text. IsSvg text.items) }
    ensures text { IfOk result (λ text. IsPictureText session.now report.now topic text.items) }
{
    let picture = plan_on(alloc, session, report, topic)?;
    picture_text(alloc, session, report, &picture, Shown::Reported)
}

/// Returns the picture of a session along runs, with its report above it, about the story on a topic. Makes as many
/// passes and allocates as much memory as [`print_picture_on`]. Fails only if memory runs out.
pub fn print_picture_along(
    alloc: Global,
    session: &Session,
    report: &Report,
    topic: Topic,
    runs: &[Run],
) -> Result<Vec<u8>, AllocError>
    requires { IsReport session.now report.now }
    ensures svg { IfOk result (λ text. IsSvg text.items) }
    ensures text { IfOk result (λ text. IsPictureTextAlong session.now report.now topic runs.now text.items) }
{
    let picture = plan_along(alloc, session, report, topic, runs)?;
    picture_text(alloc, session, report, &picture, Shown::Given)
}
