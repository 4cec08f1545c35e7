//! The legend of a picture as text: each sign with its meaning.

use crate::arrows::ArrowKind;
use crate::boxes::BoxKind;
use crate::elements::{
    begin_at, begin_text, end_arrow, push, push_ends, push_figures, push_length, push_paint,
};
use crate::signs::Sign;
use crate::style::{
    CORNER, ENTRY, FIGURE, INK, LEGEND_BESIDE, LEGEND_IN_LINE, LEGEND_LINE, MEANING_LEFT,
    MEANING_TOP, Paint, SIGN_HEIGHT, SIGN_WIDTH, STUB_LINE, arrow_paint, box_paint, head_of,
};
use crate::words::meaning_of;
use std::alloc::AllocError;

/// Appends a box with its figures.
fn push_box(out: &mut Vec<u8>, kind: BoxKind) -> Result<(), AllocError> {
    push(out, b"<rect")?;
    push_paint(out, box_paint(kind))?;
    push_length(out, b"width", SIGN_WIDTH)?;
    push_length(out, b"height", SIGN_HEIGHT)?;
    push_length(out, b"rx", CORNER)?;
    push(out, b"/>")?;
    push_figures(out, SIGN_WIDTH - FIGURE, SIGN_HEIGHT / 2, kind)
}

/// Appends an arrow.
fn push_arrow(out: &mut Vec<u8>, paint: Paint, kind: ArrowKind) -> Result<(), AllocError> {
    let y = SIGN_HEIGHT / 2;
    push(out, b"<line")?;
    push_paint(out, paint)?;
    push_ends(out, 0, y, SIGN_WIDTH, y)?;
    end_arrow(out, head_of(kind))
}

/// Appends a sign.
fn push_sign(out: &mut Vec<u8>, sign: Sign) -> Result<(), AllocError> {
    match sign {
        Sign::Faulty => push_box(out, BoxKind::Faulty),
        Sign::OwnCause => push_box(out, BoxKind::OwnCause),
        Sign::Cause => push_box(out, BoxKind::Cause),
        Sign::Tied => push_box(out, BoxKind::Tied),
        Sign::Tie => push_arrow(out, arrow_paint(ArrowKind::Tied), ArrowKind::Tied),
        Sign::TieBehind => push_arrow(
            out,
            arrow_paint(ArrowKind::TiedBehind),
            ArrowKind::TiedBehind,
        ),
        Sign::Against => push_box(out, BoxKind::Against),
        Sign::OfPage => push_box(out, BoxKind::OfPage),
        Sign::Plain => push_box(out, BoxKind::Plain),
        Sign::Stuck => push_box(out, BoxKind::Stuck),
        Sign::Arrow => push_arrow(out, arrow_paint(ArrowKind::Received), ArrowKind::Received),
        Sign::Stub => push_arrow(out, STUB_LINE, ArrowKind::Received),
    }
}

/// Appends the entry of a sign, at its place in the legend.
pub(crate) fn push_entry(out: &mut Vec<u8>, place: u64, sign: Sign) -> Result<(), AllocError> {
    begin_at(
        out,
        (place % LEGEND_IN_LINE).saturating_mul(ENTRY),
        (place / LEGEND_IN_LINE).saturating_mul(LEGEND_LINE),
    )?;
    push_sign(out, sign)?;
    begin_text(out, INK)?;
    push_length(out, b"x", MEANING_LEFT)?;
    push_length(out, b"y", MEANING_TOP)?;
    push(out, b">")?;
    push(out, meaning_of(sign))?;
    push(out, b"</text></g>\n")
}

/// Returns how much room a legend with this many entries takes.
pub(crate) fn legend_height(count: u64) -> u64 {
    (count.saturating_add(LEGEND_IN_LINE - 1) / LEGEND_IN_LINE)
        .saturating_mul(LEGEND_LINE)
        .saturating_add(LEGEND_BESIDE)
}
