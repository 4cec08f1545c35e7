//! The story of a clean session, in words.

use std::alloc::AllocError;

pub(crate) const CLEAN: &str =
    "In every order of the records each read gives what one machine that never moved would give.";

/// Appends how many pages were sent and placed.
pub(crate) fn push_sent(out: &mut String, n: u32) -> Result<(), AllocError> {
    write!(out, "Pages that were sent and placed: {n}")
}

/// Appends how many pages came back as zeros.
pub(crate) fn push_zeroed(out: &mut String, n: u32) -> Result<(), AllocError> {
    write!(out, "Released pages that came back as zeros: {n}")
}

/// Appends how many pages were not placed.
pub(crate) fn push_unplaced(out: &mut String, n: u32) -> Result<(), AllocError> {
    write!(out, "Pages that were not placed: {n}")
}

/// Appends how many pages were released at the target and never placed.
pub(crate) fn push_fresh(out: &mut String, n: u32) -> Result<(), AllocError> {
    write!(
        out,
        "Pages that were released at the target and never placed: {n}"
    )
}

/// Appends how many other pages were not placed.
pub(crate) fn push_other(out: &mut String, n: u32) -> Result<(), AllocError> {
    write!(out, "Other pages that were not placed: {n}")
}

/// Appends how many pages were released at the halt.
pub(crate) fn push_released(out: &mut String, n: u32) -> Result<(), AllocError> {
    write!(
        out,
        "Pages that were released at the halt, and so not sent: {n}"
    )
}

/// Appends how many owed pages never came.
pub(crate) fn push_left(out: &mut String, n: u32) -> Result<(), AllocError> {
    write!(out, "Owed pages that never came: {n}")
}

/// Appends how many pages were used at the target.
pub(crate) fn push_used(out: &mut String, n: u32) -> Result<(), AllocError> {
    write!(
        out,
        "Pages that the guest read, wrote or released at the target: {n}"
    )
}

/// Appends how many reads were recorded at the target.
pub(crate) fn push_reads(out: &mut String, n: u32) -> Result<(), AllocError> {
    write!(out, "Reads that were recorded at the target: {n}")
}

/// Appends how many sendings there are, and how many of them were unasked.
pub(crate) fn push_sendings(out: &mut String, sends: u32, pushes: u32) -> Result<(), AllocError> {
    write!(
        out,
        "Sendings of a page: {sends}, of which unasked: {pushes}"
    )
}

/// Appends how many repeats there are.
pub(crate) fn push_repeats(out: &mut String, n: u32) -> Result<(), AllocError> {
    write!(out, "Repeats of a packet: {n}")
}

/// Appends how many packets were not delivered.
pub(crate) fn push_undelivered(out: &mut String, n: u32) -> Result<(), AllocError> {
    write!(out, "Packets that were sent and not delivered: {n}")
}

/// Appends how many packets the lane delivered.
pub(crate) fn push_by_lane(out: &mut String, n: u32) -> Result<(), AllocError> {
    write!(out, "Packets that the lane delivered: {n}")
}

/// Appends how many packets the pager dropped.
pub(crate) fn push_dropped(out: &mut String, n: u32) -> Result<(), AllocError> {
    write!(out, "Packets that the pager dropped: {n}")
}

/// Appends how many requests for a page there are, and how many of them were not delivered.
pub(crate) fn push_requests(
    out: &mut String,
    requests: u32,
    unheard: u32,
) -> Result<(), AllocError> {
    write!(
        out,
        "Requests for a page: {requests}, of which not delivered: {unheard}"
    )
}

/// Appends how many misses there are, and how many of them waited.
pub(crate) fn push_misses(out: &mut String, misses: u32, waits: u32) -> Result<(), AllocError> {
    write!(
        out,
        "Misses of the guest: {misses}, of which waited for a page that was asked for before: {waits}"
    )
}
