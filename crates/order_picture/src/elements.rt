//! The elements of SVG that a picture is made of.

use crate::boxes::BoxKind;
use crate::style::{ArrowHead, FIGURE_LETTERS, LETTER, Paint, figures_of};
use std::alloc::AllocError;
use text_lines::push_number;

/// Appends a text.
pub(crate) fn push(out: &mut Vec<u8>, text: &[u8]) -> Result<(), AllocError> {
    out.extend_from_slice(text)
}

/// Appends an attribute, if its value is not empty.
pub(crate) fn push_attribute(
    out: &mut Vec<u8>,
    name: &[u8],
    value: &[u8],
) -> Result<(), AllocError> {
    if value.is_empty() {
        return Ok(());
    }
    push(out, b" ")?;
    push(out, name)?;
    push(out, b"='")?;
    push(out, value)?;
    push(out, b"'")
}

/// Appends an attribute with a number.
pub(crate) fn push_length(out: &mut Vec<u8>, name: &[u8], number: u64) -> Result<(), AllocError> {
    push(out, b" ")?;
    push(out, name)?;
    push(out, b"='")?;
    push_number(out, number)?;
    push(out, b"'")
}

/// Appends the attributes with a painted part's colours.
pub(crate) fn push_colours(out: &mut Vec<u8>, paint: Paint) -> Result<(), AllocError> {
    push_attribute(out, b"fill", paint.fill)?;
    push_attribute(out, b"stroke", paint.stroke)?;
    push_attribute(out, b"stroke-width", paint.width)?;
    push_attribute(out, b"stroke-dasharray", paint.dashes)
}

/// Appends the attributes with a painted part's class and colours.
pub(crate) fn push_paint(out: &mut Vec<u8>, paint: Paint) -> Result<(), AllocError> {
    push_attribute(out, b"class", paint.class)?;
    push_colours(out, paint)
}

/// Begins a text.
pub(crate) fn begin_text(out: &mut Vec<u8>, paint: Paint) -> Result<(), AllocError> {
    push(out, b"<text")?;
    push_paint(out, paint)
}

/// Begins a group that is moved to a point.
pub(crate) fn begin_at(out: &mut Vec<u8>, x: u64, y: u64) -> Result<(), AllocError> {
    push(out, b"<g transform='translate(")?;
    push_number(out, x)?;
    push(out, b" ")?;
    push_number(out, y)?;
    push(out, b")'>")
}

/// Appends the ends of a line.
pub(crate) fn push_ends(
    out: &mut Vec<u8>,
    x1: u64,
    y1: u64,
    x2: u64,
    y2: u64,
) -> Result<(), AllocError> {
    push_length(out, b"x1", x1)?;
    push_length(out, b"y1", y1)?;
    push_length(out, b"x2", x2)?;
    push_length(out, b"y2", y2)
}

/// Appends the head of a line, and ends the line.
pub(crate) fn end_arrow(out: &mut Vec<u8>, head: ArrowHead) -> Result<(), AllocError> {
    push(out, b" marker-end='url(#")?;
    push(out, head.name)?;
    push(out, b")'/>")
}

/// Appends a path with this paint.
pub(crate) fn push_path(out: &mut Vec<u8>, path: &[u8], paint: Paint) -> Result<(), AllocError> {
    push(out, b"<path")?;
    push_attribute(out, b"class", paint.class)?;
    push_attribute(out, b"d", path)?;
    push_colours(out, paint)?;
    push(out, b"/>")
}

/// Appends the figures of a box, from this middle of the first one to the left.
pub(crate) fn push_figures(
    out: &mut Vec<u8>,
    x: u64,
    y: u64,
    kind: BoxKind,
) -> Result<(), AllocError> {
    let mut x = x;
    for figure in figures_of(kind) {
        if let Some(figure) = figure {
            begin_at(out, x, y)?;
            push_path(out, figure.outline, figure.paint)?;
            push(out, b"</g>")?;
            x = x.saturating_sub(LETTER.saturating_mul(FIGURE_LETTERS as u64));
        }
    }
    Ok(())
}

/// Appends the head of an arrow, which lines then refer to.
pub(crate) fn push_head(out: &mut Vec<u8>, head: ArrowHead) -> Result<(), AllocError> {
    push(out, b"<marker")?;
    push_attribute(out, b"id", head.name)?;
    push(out, b" viewBox='0 0 8 8' refX='8' refY='4'")?;
    push_length(out, b"markerWidth", head.size)?;
    push_length(out, b"markerHeight", head.size)?;
    push(out, b" markerUnits='userSpaceOnUse' orient='auto'>")?;
    push_path(out, b"M0 0L8 4L0 8z", head.paint)?;
    push(out, b"</marker>\n")
}
