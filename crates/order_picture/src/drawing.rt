//! The shapes of a picture as text: columns, boxes, folds and arrows, each at its place.

use crate::arrows::{ArrowKind, Seat};
use crate::behind::Obstacle;
use crate::boxes::{BoxKind, Label};
use crate::elements::{
    begin_text, end_arrow, push, push_attribute, push_colours, push_ends, push_figures,
    push_length, push_paint,
};
use crate::heading::Subject;
use crate::labels::push_label;
use crate::layout::{Columns, is_left_of, middle_of, top_of};
use crate::style::{
    APART, BOX, BOX_TOP, COLUMN, COLUMNS_LEFT, COLUMNS_TOP, CORNER, FIGURE, FOLD, FOLD_BESIDE,
    FOLD_CORNER, FOLD_FRAME, FOLD_TOP, INK, LABEL, LETTER, MARGIN, NAMES, NUMBER_GAP, Paint,
    ROW_TEXT, SOFT, STUB, STUB_LINE, arrow_paint, box_paint, head_of,
};
use crate::words::{LINES, push_records, push_title};
use merge_runs::TakenCounts;
use migration_types::LogName;
use session_story::Name;
use std::alloc::{AllocError, Global};
use text_lines::push_number;

/// The box of a record.
#[derive(Clone, Copy)]
pub(crate) struct RecordBox {
    pub row: usize,
    pub name: Name,
    pub kind: BoxKind,
    pub line: u32,
    pub label: Label,
    pub obstacle: Obstacle,
}

/// Begins a text in the margin.
fn begin_margin(out: &mut Vec<u8>, y: u64) -> Result<(), AllocError> {
    begin_text(out, SOFT)?;
    push_attribute(out, b"text-anchor", b"end")?;
    push_length(out, b"x", MARGIN)?;
    push_length(out, b"y", y)?;
    push(out, b">")
}

/// Appends the word above the lines in the margin.
pub(crate) fn push_margin_name(out: &mut Vec<u8>) -> Result<(), AllocError> {
    begin_margin(out, NAMES)?;
    push(out, LINES)?;
    push(out, b"</text>\n")
}

/// Appends a column's name, and the line down it as far as this many rows.
pub(crate) fn push_column(
    out: &mut Vec<u8>,
    columns: Columns,
    rows: usize,
    log: LogName,
) -> Result<(), AllocError> {
    let x = columns.middle(log);
    begin_text(out, INK)?;
    push(out, b" font-weight='bold' text-anchor='middle'")?;
    push_length(out, b"y", NAMES)?;
    push_length(out, b"x", x)?;
    push(out, b">")?;
    push(out, log.word().as_bytes())?;
    push(out, b"</text>\n<line")?;
    push_ends(out, x, COLUMNS_TOP, x, top_of(rows))?;
    push_paint(out, COLUMN)?;
    push(out, b"/>\n")
}

/// Appends a line with this paint and the head of an arrow.
fn push_line(
    out: &mut Vec<u8>,
    from: (u64, u64),
    to: (u64, u64),
    paint: Paint,
    kind: ArrowKind,
) -> Result<(), AllocError> {
    push(out, b"<line")?;
    push_ends(out, from.0, from.1, to.0, to.1)?;
    push_paint(out, paint)?;
    end_arrow(out, head_of(kind))?;
    push(out, b"\n")
}

/// Returns the height at a row of an arrow of this kind, which goes down or up.
fn height_at(row: usize, kind: ArrowKind, is_down: bool) -> u64 {
    match kind {
        ArrowKind::Received | ArrowKind::OfPage => middle_of(row),
        ArrowKind::Tied | ArrowKind::TiedBehind => {
            if is_down {
                middle_of(row).saturating_add(APART)
            } else {
                middle_of(row).saturating_sub(APART)
            }
        }
    }
}

/// Appends an arrow from one record to another.
pub(crate) fn push_arrow(
    out: &mut Vec<u8>,
    columns: Columns,
    from: Seat,
    to: Seat,
    kind: ArrowKind,
) -> Result<(), AllocError> {
    let is_down = from.row < to.row;
    let begin = (
        columns.side(from, to.log),
        height_at(from.row, kind, is_down),
    );
    let end = (columns.side(to, from.log), height_at(to.row, kind, is_down));
    push_line(out, begin, end, arrow_paint(kind), kind)
}

/// Appends the end of an arrow from a record that has no row.
pub(crate) fn push_stub(
    out: &mut Vec<u8>,
    columns: Columns,
    to: Seat,
    sender: LogName,
) -> Result<(), AllocError> {
    let x = columns.side(to, sender);
    let y = middle_of(to.row);
    let from = if is_left_of(sender, to.log) {
        x.saturating_sub(STUB)
    } else {
        x.saturating_add(STUB)
    };
    push_line(out, (from, y), (x, y), STUB_LINE, ArrowKind::Received)
}

/// Returns the class of a record's row.
fn row_class(kind: BoxKind) -> &'static [u8] {
    match kind {
        BoxKind::Faulty | BoxKind::Tied => b"row record faulty",
        BoxKind::OwnCause => b"row record faulty cause",
        BoxKind::Cause => b"row record cause",
        BoxKind::Against => b"row record against",
        BoxKind::OfPage => b"row record of-page",
        BoxKind::Plain => b"row record",
        BoxKind::Stuck => b"row stuck",
    }
}

/// Begins a record's row, with its title.
fn begin_row(
    out: &mut Vec<u8>,
    alloc: Global,
    subject: Subject<'_>,
    one: &RecordBox,
) -> Result<(), AllocError> {
    push(out, b"<g class='")?;
    push(out, row_class(one.kind))?;
    if !matches!(one.obstacle, Obstacle::Nothing) {
        push(out, b" behind")?;
    }
    push(out, b"'><title>")?;
    push_title(out, alloc, subject, one.name, one.obstacle)?;
    push(out, b"</title>")
}

/// Appends a record's line number in the margin, if it has one.
fn push_record_line(out: &mut Vec<u8>, one: &RecordBox) -> Result<(), AllocError> {
    if one.line == 0 {
        return Ok(());
    }
    begin_margin(out, top_of(one.row).saturating_add(ROW_TEXT))?;
    push_number(out, one.line)?;
    push(out, b"</text>")
}

/// Appends a box with its figures: a cross if the record is faulty or waits for another waiting record, a flag if it is
/// the cause, and a diamond if the cause is set against it.
fn push_box(
    out: &mut Vec<u8>,
    columns: Columns,
    seat: Seat,
    kind: BoxKind,
) -> Result<(), AllocError> {
    push(out, b"<rect")?;
    push_length(out, b"x", columns.left(seat.log))?;
    push_length(out, b"y", top_of(seat.row).saturating_add(BOX_TOP))?;
    push_length(out, b"width", columns.half(seat.log).saturating_mul(2))?;
    push_length(out, b"height", BOX)?;
    push_length(out, b"rx", CORNER)?;
    push_paint(out, box_paint(kind))?;
    push(out, b"/>")?;
    let x = columns.right(seat.log).saturating_sub(FIGURE);
    push_figures(out, x, middle_of(seat.row), kind)
}

/// Appends the number and the label in a record's box.
fn push_box_text(
    out: &mut Vec<u8>,
    subject: Subject<'_>,
    columns: Columns,
    one: &RecordBox,
) -> Result<(), AllocError> {
    begin_text(out, INK)?;
    push_length(out, b"x", columns.left(one.name.0).saturating_add(LABEL))?;
    push_length(out, b"y", top_of(one.row).saturating_add(ROW_TEXT))?;
    push(out, b"><tspan")?;
    push_paint(out, SOFT)?;
    push(out, b">")?;
    push_number(out, one.name.1)?;
    push(out, b"</tspan><tspan")?;
    push_length(out, b"dx", NUMBER_GAP)?;
    push(out, b">")?;
    push_label(out, subject, one)?;
    push(out, b"</tspan></text>")
}

/// Appends the row of a record.
pub(crate) fn push_record(
    out: &mut Vec<u8>,
    alloc: Global,
    subject: Subject<'_>,
    columns: Columns,
    one: &RecordBox,
) -> Result<(), AllocError> {
    let seat = Seat {
        row: one.row,
        log: one.name.0,
    };
    begin_row(out, alloc, subject, one)?;
    push_record_line(out, one)?;
    push_box(out, columns, seat, one.kind)?;
    push_box_text(out, subject, columns, one)?;
    push(out, b"</g>\n")
}

/// Appends the frame around folded records, for this many letters.
fn push_frame(out: &mut Vec<u8>, middle: u64, row: usize, letters: u64) -> Result<(), AllocError> {
    let width = letters.saturating_mul(LETTER).saturating_add(FOLD_BESIDE);
    push(out, b"<rect")?;
    push_attribute(out, b"class", FOLD_FRAME.class)?;
    push_length(out, b"height", FOLD)?;
    push_length(out, b"rx", FOLD_CORNER)?;
    push_colours(out, FOLD_FRAME)?;
    push_length(out, b"x", middle.saturating_sub(width / 2))?;
    push_length(out, b"width", width)?;
    push_length(out, b"y", top_of(row).saturating_add(FOLD_TOP))?;
    push(out, b"/>")
}

/// Appends a row of folded records, with these words.
fn push_fold_words(
    out: &mut Vec<u8>,
    columns: Columns,
    row: usize,
    words: &[u8],
) -> Result<(), AllocError> {
    let middle = COLUMNS_LEFT.saturating_add(columns.width()) / 2;
    push(out, b"<g class='row fold-row'>")?;
    push_frame(out, middle, row, words.len() as u64)?;
    begin_text(out, SOFT)?;
    push_attribute(out, b"text-anchor", b"middle")?;
    push_length(out, b"x", middle)?;
    push_length(out, b"y", top_of(row).saturating_add(ROW_TEXT))?;
    push(out, b">")?;
    push(out, words)?;
    push(out, b"</text></g>\n")
}

/// Appends a row of folded records.
pub(crate) fn push_fold(
    out: &mut Vec<u8>,
    alloc: Global,
    columns: Columns,
    row: usize,
    counts: &TakenCounts,
) -> Result<(), AllocError> {
    let mut words = Vec::new(alloc);
    push_records(&mut words, counts)?;
    push_fold_words(out, columns, row, &words)
}
