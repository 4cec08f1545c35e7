//! How a picture looks: each size, in pixels, and each colour. The colours for a dark page are in [`DARK_COLOURS`], by
//! the classes of the others.

use crate::arrows::ArrowKind;
use crate::boxes::BoxKind;

/// The left end of the heading's lines.
pub(crate) const HEADING_LEFT: u64 = 20;

/// The height of the heading's first line.
pub(crate) const TITLE_TOP: u64 = 30;

/// The height of the heading's line below the report's first line.
pub(crate) const HEADING_TOP: u64 = 52;

/// The height of a line of the heading.
pub(crate) const HEADING_LINE: u64 = 18;

/// The height of the line below a heading of four lines. If the heading has more lines, everything below it moves down.
pub(crate) const HEADING_END: u64 = 106;

/// The least width of a letter of the heading.
pub(crate) const HEADING_LETTER: u64 = 6;

/// The height of the columns' names.
pub(crate) const NAMES: u64 = 120;

/// The upper end of the lines down the columns.
pub(crate) const COLUMNS_TOP: u64 = 130;

/// The upper end of the first row.
pub(crate) const ROWS_TOP: u64 = 136;

/// The height of a row.
pub(crate) const ROW: u64 = 26;

/// How far below a row's top its texts are.
pub(crate) const ROW_TEXT: u64 = 17;

/// The right end of the texts in the margin.
pub(crate) const MARGIN: u64 = 62;

/// The left end of the first column.
pub(crate) const COLUMNS_LEFT: u64 = 72;

/// The free space to the right of the last column.
pub(crate) const RIGHT: u64 = 6;

/// The free space between two columns.
pub(crate) const GAP: u64 = 24;

/// Half the least width of a box.
pub(crate) const LEAST_HALF: u64 = 80;

/// Half the least width of a box of the guest.
pub(crate) const LEAST_GUEST_HALF: u64 = 122;

/// The greatest width of a letter in a label.
pub(crate) const LETTER: u64 = 7;

/// The width of a box besides its letters: a margin on each side, the free space between number and label, and one
/// figure.
pub(crate) const BESIDE: u64 = 44;

/// The letters that have room in the place of a second figure.
pub(crate) const FIGURE_LETTERS: usize = 2;

/// How far below a row's top its box begins.
pub(crate) const BOX_TOP: u64 = 3;

/// The height of a record's box.
pub(crate) const BOX: u64 = 20;

/// The radius of a box's corners.
pub(crate) const CORNER: u64 = 4;

/// How far to the right of a box's left edge its label begins.
pub(crate) const LABEL: u64 = 7;

/// The free space between a record's number and its label.
pub(crate) const NUMBER_GAP: u64 = 7;

/// How far to the left of a box's right edge the middle of its figure is.
pub(crate) const FIGURE: u64 = 12;

/// How far below a row's top the frame of a fold begins.
pub(crate) const FOLD_TOP: u64 = 4;

/// The height of the frame of a fold.
pub(crate) const FOLD: u64 = 18;

/// The radius of the corners of that frame.
pub(crate) const FOLD_CORNER: u64 = 9;

/// The width of that frame besides its letters.
pub(crate) const FOLD_BESIDE: u64 = 40;

/// The length of the end of an arrow from a record that has no row.
pub(crate) const STUB: u64 = 22;

/// How far an arrow between records that wait for one another is from the middles of their rows, so that it is apart
/// from an arrow in the other direction.
pub(crate) const APART: u64 = 5;

/// How far below the last row the legend begins.
pub(crate) const LEGEND_GAP: u64 = 24;

/// The height of a line of the legend.
pub(crate) const LEGEND_LINE: u64 = 28;

/// The number of entries in a line of the legend.
pub(crate) const LEGEND_IN_LINE: u64 = 3;

/// The width of an entry of the legend.
pub(crate) const ENTRY: u64 = 270;

/// The free space above and below the legend.
pub(crate) const LEGEND_BESIDE: u64 = 40;

/// The width of a sign in the legend.
pub(crate) const SIGN_WIDTH: u64 = 34;

/// The height of a sign in the legend.
pub(crate) const SIGN_HEIGHT: u64 = 16;

/// How far to the right of a sign its meaning begins.
pub(crate) const MEANING_LEFT: u64 = 44;

/// How far below the sign's top its meaning is.
pub(crate) const MEANING_TOP: u64 = 13;

/// The size of the letters.
pub(crate) const FONT: u64 = 12;

/// The size of the letters in the heading's first line.
pub(crate) const TITLE_FONT: u64 = 18;

/// The paint of a part of a picture: its class, which gives it its colours on a dark page, and the attributes that are
/// not empty.
#[derive(Clone, Copy)]
pub(crate) struct Paint {
    pub class: &'static [u8],
    pub fill: &'static [u8],
    pub stroke: &'static [u8],
    pub width: &'static [u8],
    pub dashes: &'static [u8],
}

const WHITE: &[u8] = b"#ffffff";

const GREY: &[u8] = b"#818b98";

const ARROW_GREY: &[u8] = b"#6e7781";

const RED: &[u8] = b"#c21e1e";

const BROWN: &[u8] = b"#9a6700";

const BLUE: &[u8] = b"#0969da";

const PURPLE: &[u8] = b"#6639ba";

/// The whole picture.
pub(crate) const PAPER: Paint = Paint {
    class: b"paper",
    fill: WHITE,
    stroke: b"",
    width: b"",
    dashes: b"",
};

/// Texts.
pub(crate) const INK: Paint = Paint {
    class: b"ink",
    fill: b"#1f2328",
    stroke: b"",
    width: b"",
    dashes: b"",
};

/// Texts that matter less.
pub(crate) const SOFT: Paint = Paint {
    class: b"soft",
    fill: b"#59636e",
    stroke: b"",
    width: b"",
    dashes: b"",
};

/// The line down a column.
pub(crate) const COLUMN: Paint = Paint {
    class: b"life",
    fill: b"",
    stroke: b"#d1d9e0",
    width: b"",
    dashes: b"",
};

/// The frame of a fold.
pub(crate) const FOLD_FRAME: Paint = Paint {
    class: b"fold",
    fill: WHITE,
    stroke: GREY,
    width: b"",
    dashes: b"1 3",
};

/// A figure in a box: its outline, around its middle, and its paint.
#[derive(Clone, Copy)]
pub(crate) struct Figure {
    pub outline: &'static [u8],
    pub paint: Paint,
}

/// The cross in the faulty record's box.
const CROSS: Figure = Figure {
    outline: b"M-4 -4L4 4M-4 4L4 -4",
    paint: Paint {
        class: b"cross",
        fill: b"none",
        stroke: RED,
        width: b"2.5",
        dashes: b"",
    },
};

/// The flag in the box of the record that is the cause.
const FLAG: Figure = Figure {
    outline: b"M-3 6L-3 -6L5 -3L-3 0",
    paint: Paint {
        class: b"flag",
        fill: PURPLE,
        stroke: PURPLE,
        width: b"1.5",
        dashes: b"",
    },
};

/// The diamond in the box of the record that the cause is set against.
const DIAMOND: Figure = Figure {
    outline: b"M0 -5L5 0L0 5L-5 0z",
    paint: Paint {
        class: b"diamond",
        fill: BROWN,
        stroke: b"",
        width: b"",
        dashes: b"",
    },
};

/// Returns the figures in a record's box, from right to left.
pub(crate) fn figures_of(kind: BoxKind) -> [Option<Figure>; 2] {
    match kind {
        BoxKind::Faulty | BoxKind::Tied => [Some(CROSS), None],
        BoxKind::OwnCause => [Some(CROSS), Some(FLAG)],
        BoxKind::Cause => [Some(FLAG), None],
        BoxKind::Against => [Some(DIAMOND), None],
        BoxKind::OfPage | BoxKind::Plain | BoxKind::Stuck => [None, None],
    }
}

/// The end of an arrow from a record that has no row.
pub(crate) const STUB_LINE: Paint = Paint {
    class: b"arrow",
    fill: b"",
    stroke: ARROW_GREY,
    width: b"1.2",
    dashes: b"3 2",
};

/// Returns the paint of a record's box.
pub(crate) fn box_paint(kind: BoxKind) -> Paint {
    match kind {
        BoxKind::Faulty | BoxKind::OwnCause | BoxKind::Tied => Paint {
            class: b"box-faulty",
            fill: b"#ffe3dc",
            stroke: RED,
            width: b"3.5",
            dashes: b"",
        },
        BoxKind::Cause => Paint {
            class: b"box-cause",
            fill: b"#efe6fd",
            stroke: PURPLE,
            width: b"2.5",
            dashes: b"",
        },
        BoxKind::Against => Paint {
            class: b"box-against",
            fill: b"#fff3d6",
            stroke: BROWN,
            width: b"2.5",
            dashes: b"7 3",
        },
        BoxKind::OfPage => Paint {
            class: b"box-page",
            fill: b"#dbeafe",
            stroke: BLUE,
            width: b"1.5",
            dashes: b"",
        },
        BoxKind::Plain => Paint {
            class: b"box",
            fill: b"#f6f8fa",
            stroke: GREY,
            width: b"",
            dashes: b"",
        },
        BoxKind::Stuck => Paint {
            class: b"box-stuck",
            fill: b"#fbe7f3",
            stroke: b"#a40e6e",
            width: b"2",
            dashes: b"2 3",
        },
    }
}

/// Returns the paint of an arrow.
pub(crate) fn arrow_paint(kind: ArrowKind) -> Paint {
    match kind {
        ArrowKind::Received => Paint {
            class: b"arrow",
            fill: b"",
            stroke: ARROW_GREY,
            width: b"1.2",
            dashes: b"",
        },
        ArrowKind::OfPage => Paint {
            class: b"arrow-page",
            fill: b"",
            stroke: BLUE,
            width: b"2",
            dashes: b"",
        },
        ArrowKind::Tied => Paint {
            class: b"arrow-tied",
            fill: b"",
            stroke: RED,
            width: b"2",
            dashes: b"",
        },
        ArrowKind::TiedBehind => Paint {
            class: b"arrow-tied",
            fill: b"",
            stroke: RED,
            width: b"2",
            dashes: b"5 3",
        },
    }
}

/// The head of an arrow: the name by which lines refer to it, its size, and its paint.
#[derive(Clone, Copy)]
pub(crate) struct ArrowHead {
    pub name: &'static [u8],
    pub size: u64,
    pub paint: Paint,
}

/// Returns the head of an arrow.
pub(crate) fn head_of(kind: ArrowKind) -> ArrowHead {
    match kind {
        ArrowKind::Received => ArrowHead {
            name: b"head",
            size: 9,
            paint: Paint {
                class: b"tip",
                fill: ARROW_GREY,
                stroke: b"",
                width: b"",
                dashes: b"",
            },
        },
        ArrowKind::OfPage => ArrowHead {
            name: b"head-page",
            size: 10,
            paint: Paint {
                class: b"tip-page",
                fill: BLUE,
                stroke: b"",
                width: b"",
                dashes: b"",
            },
        },
        ArrowKind::Tied | ArrowKind::TiedBehind => ArrowHead {
            name: b"head-tied",
            size: 10,
            paint: Paint {
                class: b"tip-tied",
                fill: RED,
                stroke: b"",
                width: b"",
                dashes: b"",
            },
        },
    }
}

/// The colours on a dark page.
pub(crate) const DARK_COLOURS: &[u8] = b"<style>
@media (prefers-color-scheme: dark) {
.paper, .fold { fill: #0d1117 } .fold { stroke: #656c76 }
.ink { fill: #e6edf3 } .soft { fill: #9da7b1 } .life { stroke: #3d444d }
.box { fill: #151b23; stroke: #656c76 } .box-page { fill: #10305c; stroke: #58a6ff }
.box-cause { fill: #2f1d55; stroke: #b392f0 } .flag { fill: #b392f0; stroke: #b392f0 }
.box-against { fill: #3b2a00; stroke: #e3b341 } .diamond { fill: #e3b341 }
.box-faulty { fill: #5a1414; stroke: #ff7b72 } .cross { stroke: #ff7b72 }
.box-stuck { fill: #40122d; stroke: #f778ba }
.arrow { stroke: #9198a1 } .tip { fill: #9198a1 } .arrow-page { stroke: #58a6ff } .tip-page { fill: #58a6ff }
.arrow-tied { stroke: #ff7b72 } .tip-tied { fill: #ff7b72 }
}
</style>
";

/// The fonts of a picture.
pub(crate) const FONTS: &[u8] = b"system-ui, sans-serif";
