//! The layout of a picture, in pixels: the columns, the rows, and the boxes in them.

use crate::arrows::Seat;
use crate::style::{
    BESIDE, COLUMNS_LEFT, GAP, LEAST_GUEST_HALF, LEAST_HALF, LETTER, RIGHT, ROW, ROWS_TOP,
};
use migration_types::{LOG_COUNT, LogName, logs};

/// The columns of a picture.
#[derive(Clone, Copy)]
pub(crate) struct Columns {
    /// Which logs have a column.
    pub has: [bool; LOG_COUNT],
    /// The greatest number of letters in a box of each log.
    pub letters: [usize; LOG_COUNT],
}

impl Columns {
    /// Returns half the width of a box in a log's column.
    pub(crate) fn half(self, log: LogName) -> u64 {
        let least = match log {
            LogName::Guest => LEAST_GUEST_HALF,
            _ => LEAST_HALF,
        };
        let letters = self.letters[log.index()] as u64;
        let wanted = letters.saturating_mul(LETTER).saturating_add(BESIDE) / 2;
        wanted.max(least)
    }

    /// Returns where the columns of these logs end.
    fn end_of(self, before: &[LogName]) -> u64 {
        let mut x = COLUMNS_LEFT;
        for log in before {
            if self.has[log.index()] {
                let width = self.half(*log).saturating_mul(2);
                x = x.saturating_add(width.saturating_add(GAP));
            }
        }
        x
    }

    /// Returns the width of the picture.
    pub(crate) fn width(self) -> u64 {
        self.end_of(&logs()).saturating_add(RIGHT)
    }

    /// Returns the left edge of a box in a log's column.
    pub(crate) fn left(self, log: LogName) -> u64 {
        let all = logs();
        self.end_of(&all[..log.index()])
    }

    /// Returns the middle of a log's column.
    pub(crate) fn middle(self, log: LogName) -> u64 {
        self.left(log).saturating_add(self.half(log))
    }

    /// Returns the right edge of a box in a log's column.
    pub(crate) fn right(self, log: LogName) -> u64 {
        self.middle(log).saturating_add(self.half(log))
    }

    /// Returns where an arrow meets a box on the side of another log.
    pub(crate) fn side(self, seat: Seat, other: LogName) -> u64 {
        if is_left_of(other, seat.log) {
            self.left(seat.log)
        } else {
            self.right(seat.log)
        }
    }
}

/// Returns whether one log's column is left of the other's.
pub(crate) fn is_left_of(one: LogName, other: LogName) -> bool {
    one.index() < other.index()
}

/// Returns the upper edge of a row.
pub(crate) fn top_of(row: usize) -> u64 {
    (row as u64).saturating_mul(ROW).saturating_add(ROWS_TOP)
}

/// Returns the middle of a row.
pub(crate) fn middle_of(row: usize) -> u64 {
    top_of(row).saturating_add(ROW / 2)
}
