//! The lines of a file that is read in pieces.

ghost use Rattle.std.specs.Prelude.{◌≡◌, Some, ◌≤◌, ◌<◌, ◌^◌, length, slice_range, get_or, List, ℕ, Option, IfOk, IfErr, OnOk, IfSome, MatchOption};
ghost use Rattle.std.specs.Int.{bit_at};
ghost use Rattle.memchr.specs.Find.{IsFirstByte, is_byte2};
ghost use Rattle.recorder_files.specs.Said.{longest_line, IsWritten};
ghost use Rattle.recorder_files.specs.inner.Finding.{AreAll, AreRead, Finds, IsLongAt, IsMoreAt, IsReadFault, SameBytes, Takes};

use crate::buffers::{move_front, read_behind};
use crate::files::FileFault;
use memchr::memchr2;
use std::io::Read;
use std::simd::prelude::*;

/// The most bytes of a line.
const LONGEST_LINE: usize = 8_459;

/// How many bytes are looked at together.
const NEAR: usize = 32;

/// What comes next.
#[derive(Clone, Copy)]
pub(crate) enum NextLine {
    /// A line of this many bytes, followed by a line feed.
    Line(usize),
    /// No line that was written to its end.
    End,
    /// A line that is too long.
    Long,
}

/// Returns a bit for each of the first thirty-two bytes, which is set if the byte is at most a line feed.
#[inline(always)]
fn low_in(bytes: &[u8]) -> u64
    requires { 32 ≤ length bytes.now }
    ensures fits { result < 2 ^ 32 }
    ensures high { (i : ℕ) → i < 32 → bit_at result i ≡ 0 → 11 ≤ get_or bytes.now i 0 }
{
    u8x32::from_slice(bytes)
        .simd_lt(u8x32::splat(b'\n' + 1))
        .to_bitmask()
}

/// Returns this place, if a line feed is there.
#[inline(always)]
fn feed_at(bytes: &[u8], at: usize) -> Option<usize>
    requires within { at < length bytes.now }
    requires high { (i : ℕ) → i < at → 11 ≤ get_or bytes.now i 0 }
    ensures { IfSome result (λ at. IsFirstByte (is_byte2 10 0) bytes.now (Some at)) }
{
    if bytes[at] != b'\n' {
        return None;
    }
    Some(at)
}

/// Returns the place of the first line feed, if it is near and no lower byte comes before it. May return `None` for any
/// bytes.
#[inline(always)]
fn near_feed(bytes: &[u8]) -> Option<usize>
    ensures { IfSome result (λ at. IsFirstByte (is_byte2 10 0) bytes.now (Some at)) }
{
    if bytes.len() < 2 * NEAR {
        return None;
    }
    let low = low_in(bytes);
    if low != 0 {
        return feed_at(bytes, low.trailing_zeros() as usize);
    }
    let (_, later) = bytes.split_at(NEAR);
    let low = low_in(later);
    if low == 0 {
        return None;
    }
    feed_at(bytes, NEAR + low.trailing_zeros() as usize)
}

/// Returns what some bytes begin with, if they are enough to know.
#[inline(always)]
fn look(bytes: &[u8]) -> Option<NextLine>
    ensures { MatchOption result (IsWritten bytes.now) (λ found. (rest : Option (List ℕ)) → Finds rest bytes.now found) }
{
    match near_feed(bytes) {
        Some(at) => Some(found_at(bytes, at)),
        None => look_far(bytes),
    }
}

/// Returns the same as `look`, and searches all bytes.
fn look_far(bytes: &[u8]) -> Option<NextLine>
    ensures { MatchOption result (IsWritten bytes.now) (λ found. (rest : Option (List ℕ)) → Finds rest bytes.now found) }
{
    match memchr2(b'\n', 0, bytes) {
        Some(at) => Some(found_at(bytes, at)),
        None => {
            if bytes.len() > LONGEST_LINE {
                Some(NextLine::Long)
            } else {
                None
            }
        }
    }
}

/// Returns what bytes begin with, given the place of their first line feed or byte 0.
#[inline(always)]
fn found_at(bytes: &[u8], at: usize) -> NextLine
    requires { IsFirstByte (is_byte2 10 0) bytes.now (Some at) }
    ensures { (rest : Option (List ℕ)) → Finds rest bytes.now result }
{
    if at > LONGEST_LINE {
        return NextLine::Long;
    }
    if bytes[at] == 0 {
        return NextLine::End;
    }
    NextLine::Line(at)
}

/// Finds what comes next in a buffer, between two places, and after that in a reader. Reads only as much as it needs.
/// Returns the two places between which the buffer holds what was read, and what that begins with.
#[inline(always)]
pub(crate) fn find<R: Read>(
    reader: &mut R,
    buffer: &mut [u8],
    start: usize,
    end: usize,
) -> Result<(usize, usize, NextLine), FileFault>
    requires order { start ≤ end }
    requires within { end ≤ length buffer.old }
    requires room { longest_line < length buffer.old }
    ensures order { IfOk result (λ a. a.0 ≤ a.1) }
    ensures within { IfOk result (λ a. a.1 ≤ length buffer.new) }
    ensures same { IfOk result (λ a. SameBytes (R.remaining reader.old) (slice_range buffer.old start end) (R.remaining reader.new) (slice_range buffer.new a.0 a.1)) }
    ensures found { IfOk result (λ a. Finds (R.remaining reader.new) (slice_range buffer.new a.0 a.1) a.2) }
    ensures len { length buffer.new ≡ length buffer.old }
    ensures fault { IfErr result IsReadFault }
{
    if let Some(found) = look(&buffer[start..end]) {
        return Ok((start, end, found));
    }
    find_reading(reader, buffer, start, end)
}

/// Finds the same as `find`. Moves what the buffer holds to its front, and reads behind it first.
fn find_reading<R: Read>(
    reader: &mut R,
    buffer: &mut [u8],
    start: usize,
    end: usize,
) -> Result<(usize, usize, NextLine), FileFault>
    requires order { start ≤ end }
    requires within { end ≤ length buffer.old }
    requires room { longest_line < length buffer.old }
    requires written { IsWritten (slice_range buffer.old start end) }
    ensures order { IfOk result (λ a. a.0 ≤ a.1) }
    ensures within { IfOk result (λ a. a.1 ≤ length buffer.new) }
    ensures same { IfOk result (λ a. SameBytes (R.remaining reader.old) (slice_range buffer.old start end) (R.remaining reader.new) (slice_range buffer.new a.0 a.1)) }
    ensures found { IfOk result (λ a. Finds (R.remaining reader.new) (slice_range buffer.new a.0 a.1) a.2) }
    ensures len { length buffer.new ≡ length buffer.old }
    ensures fault { IfErr result IsReadFault }
{
    move_front(buffer, start, end);
    let mut kept = end - start;
    for _ in 0..u64::MAX {
        let filled = read_behind(reader, buffer, kept)?;
        if filled == kept {
            return Ok((0, filled, NextLine::End));
        }
        if let Some(found) = look_far(&buffer[..filled]) {
            return Ok((0, filled, found));
        }
        kept = filled;
    }
    Err(FileFault::File)
}

/// The part of a buffer that holds a line, and the end of what was read after it. A line feed follows the line.
#[derive(Clone, Copy)]
pub(crate) struct Cut {
    pub(crate) start: usize,
    pub(crate) end: usize,
    pub(crate) held: usize,
}

/// Takes the next line of a file, which has this number. Returns `None` if no more lines were written to their ends.
/// Fails if the line is too long, or a read failed.
#[inline(always)]
pub(crate) fn take_line<R: Read>(
    reader: &mut R,
    buffer: &mut [u8],
    start: usize,
    end: usize,
    number: u64,
) -> Result<Option<Cut>, FileFault>
    requires order { start ≤ end }
    requires within { end ≤ length buffer.old }
    requires room { longest_line < length buffer.old }
    ensures order { IfOk result (λ found. IfSome found (λ cut. cut.start ≤ cut.end)) }
    ensures held { IfOk result (λ found. IfSome found (λ cut. cut.end < cut.held)) }
    ensures within { IfOk result (λ found. IfSome found (λ cut. cut.held ≤ length buffer.new)) }
    ensures taken { IfOk result (λ found. (known : Option (List ℕ)) (lines : List (List ℕ)) → AreRead known (R.remaining reader.old) (slice_range buffer.old start end) lines → Takes known (R.remaining reader.new) buffer.new lines found) }
    ensures refused { IfErr result (λ fault. (known : Option (List ℕ)) (lines : List (List ℕ)) → AreRead known (R.remaining reader.old) (slice_range buffer.old start end) lines → IsLongAt known lines number fault) }
    ensures len { length buffer.new ≡ length buffer.old }
{
    let (start, end, found) = find(reader, buffer, start, end)?;
    match found {
        NextLine::Line(len) => Ok(Some(Cut {
            start,
            end: start + len,
            held: end,
        })),
        NextLine::End => Ok(None),
        NextLine::Long => Err(FileFault::Line(number)),
    }
}

/// Checks that the file has no more lines. `number` is that of the next line. Fails if there is one, or if a read
/// failed.
pub(crate) fn take_end<R: Read>(
    reader: &mut R,
    buffer: &mut [u8],
    start: usize,
    end: usize,
    number: u64,
) -> Result<(), FileFault>
    requires order { start ≤ end }
    requires within { end ≤ length buffer.old }
    requires room { longest_line < length buffer.old }
    ensures all { OnOk result ((known : Option (List ℕ)) (lines : List (List ℕ)) → AreRead known (R.remaining reader.old) (slice_range buffer.old start end) lines → AreAll known lines) }
    ensures refused { IfErr result (λ fault. (known : Option (List ℕ)) (lines : List (List ℕ)) → AreRead known (R.remaining reader.old) (slice_range buffer.old start end) lines → IsMoreAt known lines number fault) }
    ensures len { length buffer.new ≡ length buffer.old }
{
    match take_line(reader, buffer, start, end, number) {
        Ok(None) => Ok(()),
        Ok(Some(_)) => Err(FileFault::Line(number)),
        Err(fault) => Err(fault),
    }
}
