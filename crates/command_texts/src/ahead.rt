//! Reading ahead: a thread reads the next piece of a long text while other threads take the parts of this one.

ghost use Rattle.std.specs.Prelude.{ℕ, List, ◌++◌, IfOk, OnOk};
ghost use Rattle.std.specs.Thread.{IsSync};
ghost use Rattle.command_texts.specs.inner.Takings.{Fills, TakesAll};

use crate::limits::Left;
use crate::reading::{Filled, ReadFault, fill, zeroes};
use crate::taking::Taker;
use std::alloc::{AllocError, Global};
use std::io::Read;
use std::mem;
use std::thread::{Threads, available_parallelism, join_mut};
use text_access::Cause;

/// How many bytes are read and taken at a time.
const PIECE_BYTES: usize = 2_097_152;

/// More pieces than an input can have, because all but the last are full.
const MOST_PIECES: u32 = 16_384;

/// The most threads that take the parts of a piece.
const MOST_PARTS: usize = 8;

/// Gives the rest of a reader's text to a taker, within these limits. The next piece is read while this one is taken.
///
/// # Errors
///
/// Fails if the text exceeds a limit.
pub(crate) fn read_ahead<H: Threads + Sync, R: Read + Send, T: Taker>(
    rt: &H,
    alloc: Global,
    reader: &mut R,
    taker: &mut T,
    most: Left,
) -> Result<(), ReadFault>
    ensures { OnOk result (TakesAll T.came most.bytes (R.remaining reader.old) taker.old taker.new) }
{
    let parts = processors(rt);
    let mut piece = zeroes(alloc, PIECE_BYTES)?;
    let mut next = zeroes(alloc, PIECE_BYTES)?;
    take_pieces(rt, parts, reader, taker, most, &mut piece, &mut next)
}

/// Gives the rest of a reader's text to a taker, within these limits. Each of the two buffers gets every other piece.
fn take_pieces<H: Threads + Sync, R: Read + Send, T: Taker>(
    rt: &H,
    parts: usize,
    reader: &mut R,
    taker: &mut T,
    most: Left,
    piece: &mut Vec<u8>,
    next: &mut Vec<u8>,
) -> Result<(), ReadFault>
    ensures { OnOk result (TakesAll T.came most.bytes (R.remaining reader.old) taker.old taker.new) }
{
    let mut left = most;
    let mut filled = fill(reader, piece.as_mut_slice(), most.reads)?;
    for _ in 0..MOST_PIECES {
        let came = &piece[..filled.count];
        let Some(behind) = left.behind(came, filled.reads) else {
            return Err(ReadFault::File(Cause::TooLong));
        };
        left = behind;
        if filled.ended {
            taker.take(rt, parts, came)?;
            return Ok(());
        }
        filled = take_and_fill(
            rt,
            taker,
            parts,
            came,
            reader,
            filled.reads,
            next.as_mut_slice(),
        )?;
        mem::swap(piece, next);
    }
    Err(ReadFault::File(Cause::TooLong))
}

/// Gives a piece to a taker and fills the buffer for the next one. Does both at once if more than one thread is asked
/// for.
fn take_and_fill<H: Threads + Sync, R: Read + Send, T: Taker>(
    rt: &H,
    taker: &mut T,
    parts: usize,
    piece: &[u8],
    reader: &mut R,
    reads: u32,
    next: &mut [u8],
) -> Result<Filled, ReadFault>
    ensures filled { IfOk result (λ filled. Fills (R.remaining reader.old) (R.remaining reader.new) next.new filled.count filled.ended) }
    ensures taken { OnOk result ((text : List ℕ) → T.came taker.old text → T.came taker.new (text ++ piece.now)) }
{
    if parts < 2 {
        taker.take(rt, parts, piece)?;
        return fill(reader, next, reads);
    }
    let mut fill_next = || -> Result<Filled, ReadFault>
        ensures { IfOk result (λ filled. Fills (R.remaining reader.entry.now) (R.remaining reader.exit.now) next.exit.now filled.count filled.ended) }
    { fill(reader, next, reads) };
    let mut take_piece = || -> Result<(), AllocError>
        requires { IsSync H.row }
        ensures { OnOk result ((text : List ℕ) → T.came taker.entry.now text → T.came taker.exit.now (text ++ piece.entry.now)) }
    { taker.take(rt, parts, piece) };
    let (filled, taken) = join_mut(rt, &mut fill_next, &mut take_piece);
    taken?;
    filled
}

/// Returns how many threads take the parts of a piece: as many as there are processors, if that number is known.
pub(crate) fn processors<H: Threads>(rt: &H) -> usize {
    match available_parallelism(rt) {
        Ok(count) => count.get().min(MOST_PARTS),
        Err(_) => 1,
    }
}
