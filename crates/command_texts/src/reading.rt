//! Reading texts to their ends, piece by piece.

ghost use Rattle.std.specs.Prelude.{◌≡◌, ℕ, List, [], IfOk, OnOk, MatchOption, vec_len};
ghost use Rattle.command_texts.specs.Reasons.{line_of};
ghost use Rattle.command_texts.specs.Told.{AreRead};
ghost use Rattle.command_texts.specs.inner.Takings.{Fills, Takes, TakesAll};

use crate::ahead::{processors, read_ahead};
use crate::limits::{Left, MOST_READS};
use crate::taking::Taker;
use std::alloc::{AllocError, Global};
use std::io;
use std::io::{ErrorKind, Read};
use std::thread::Threads;
use text_access::{Cause, cause_of};
use text_lines::Refusal;

/// Why a text could not be read to its end.
#[derive(Clone, Copy)]
pub enum ReadFault {
    /// It could not be opened or read, it is too long, or it takes too many reads.
    File(Cause),
    /// Memory ran out.
    Memory,
}

impl From<AllocError> for ReadFault {
    fn from(_error: AllocError) -> Self {
        ReadFault::Memory
    }
}

/// How many bytes one thread takes at a time, at first.
const FIRST_BYTES: usize = 131_072;

/// How many pieces of that size follow the first one, before several threads take larger pieces.
const FIRST_PIECES: u32 = 63;

/// Gives the rest of a reader's text to a taker, piece by piece while it is read. A text has at most 268,435,456 bytes
/// in 1,048,576 reads, or 17,179,869,184 bytes in 67,108,864 reads if its first bytes say that it may be long. A line
/// that has not ended has at most 268,435,456 bytes. Several threads take the pieces of a long text, while the next
/// piece is read.
pub(crate) fn take_text<H: Threads + Sync, R: Read + Send, T: Taker>(
    rt: &H,
    alloc: Global,
    reader: &mut R,
    taker: &mut T,
) -> Result<(), ReadFault>
    ensures { OnOk result ((text : List ℕ) × AreRead (R.remaining reader.old) text × (T.came taker.old [] → T.came taker.new text)) }
{
    let mut buffer = zeroes(alloc, FIRST_BYTES)?;
    let filled = fill(reader, buffer.as_mut_slice(), MOST_READS)?;
    let first = &buffer[..filled.count];
    taker.take(rt, 1, first)?;
    if filled.ended {
        return Ok(());
    }
    let left = Left::behind_first(first, filled.reads);
    read_within(rt, alloc, reader, taker, left, buffer.as_mut_slice())
}

/// Returns what is found in the rest of a reader's text, and why the text is refused, if it is.
pub fn read_text<H: Threads + Sync, R: Read + Send, T: Taker>(
    rt: &H,
    alloc: Global,
    reader: &mut R,
) -> Result<(T::Found, Option<Refusal>), ReadFault>
    ensures { IfOk result (λ read. (text : List ℕ) × AreRead (R.remaining reader.old) text × T.is_found text read.0 × T.is_refused text (line_of read.1)) }
{
    let mut taker = T::new(alloc);
    take_text(rt, alloc, reader, &mut taker)?;
    Ok(taker.end()?)
}

/// What was read to the front of a buffer.
#[derive(Clone, Copy)]
pub(crate) struct Filled {
    /// How many bytes.
    pub(crate) count: usize,
    /// Whether nothing is left.
    pub(crate) ended: bool,
    /// How many more reads may be made.
    pub(crate) reads: u32,
}

/// Reads until the buffer is full or nothing is left, in at most this many reads. An interrupted read counts, and is
/// repeated.
pub(crate) fn fill<R: Read>(
    reader: &mut R,
    buffer: &mut [u8],
    reads: u32,
) -> Result<Filled, ReadFault>
    ensures { IfOk result (λ filled. Fills (R.remaining reader.old) (R.remaining reader.new) buffer.new filled.count filled.ended) }
{
    let mut count = 0;
    for made in 0..reads {
        if count >= buffer.len() {
            return Ok(Filled {
                count,
                ended: false,
                reads: reads - made,
            });
        }
        match reader.read(&mut buffer[count..]) {
            Ok(0) => {
                return Ok(Filled {
                    count,
                    ended: true,
                    reads: reads - made,
                });
            }
            Ok(more) => count += more,
            Err(error) => {
                if error.kind() != ErrorKind::Interrupted {
                    return Err(fault_of(&error));
                }
            }
        }
    }
    Err(ReadFault::File(Cause::TooManyReads))
}

/// Gives the rest of a reader's text to a taker, within these limits. Uses this buffer at first, and on one processor to
/// the end: larger pieces are of use to several threads alone. Fails if the text exceeds a limit.
fn read_within<H: Threads + Sync, R: Read + Send, T: Taker>(
    rt: &H,
    alloc: Global,
    reader: &mut R,
    taker: &mut T,
    most: Left,
    buffer: &mut [u8],
) -> Result<(), ReadFault>
    ensures { OnOk result (TakesAll T.came most.bytes (R.remaining reader.old) taker.old taker.new) }
{
    let pieces = if processors(rt) < 2 {
        u32::MAX
    } else {
        FIRST_PIECES
    };
    match read_first(rt, reader, taker, most, buffer, pieces)? {
        Some(left) => read_ahead(rt, alloc, reader, taker, left),
        None => Ok(()),
    }
}

/// Gives this many of the next pieces of a reader's text to a taker, with one thread and this buffer. Returns what may
/// still be read, or `None` if the text has ended.
fn read_first<H: Threads + Sync, R: Read, T: Taker>(
    rt: &H,
    reader: &mut R,
    taker: &mut T,
    most: Left,
    buffer: &mut [u8],
    pieces: u32,
) -> Result<Option<Left>, ReadFault>
    ensures { IfOk result (λ found. MatchOption found (TakesAll T.came most.bytes (R.remaining reader.old) taker.old taker.new) (λ left. Takes T.came most.bytes left.bytes (R.remaining reader.old) (R.remaining reader.new) taker.old taker.new)) }
{
    let mut left = most;
    for _ in 0..pieces {
        let filled = fill(reader, buffer, left.reads)?;
        let piece = &buffer[..filled.count];
        let Some(behind) = left.behind(piece, filled.reads) else {
            return Err(ReadFault::File(Cause::TooLong));
        };
        taker.take(rt, 1, piece)?;
        if filled.ended {
            return Ok(None);
        }
        left = behind;
    }
    Ok(Some(left))
}

pub(crate) fn zeroes(alloc: Global, count: usize) -> Result<Vec<u8>, AllocError>
    ensures { IfOk result (λ v. vec_len v ≡ count) }
{
    vec![in alloc; 0u8; count]
}

/// Returns the fault for an error in opening or reading.
pub fn fault_of(error: &io::Error) -> ReadFault {
    if error.kind() == ErrorKind::OutOfMemory {
        ReadFault::Memory
    } else {
        ReadFault::File(cause_of(error))
    }
}
