//! Why a text is refused, with the line, for people.

ghost use Rattle.std.specs.Prelude.{◌≡◌, [], MatchResult};
ghost use Rattle.text_lines.specs.Text.{IsSpelling};
ghost use Rattle.text_lines.specs.Answer.{Refused};

use crate::{Alone, FaultKind, LineReader, Refusal, TextFault, finish_text, next_line, take_lines};
use std::alloc::{AllocError, Global};

/// At most this many first bytes of a refused line are kept. No line of a valid text is longer.
const MOST_KEPT: usize = 8_448;

/// Returns the line after the first `lines` lines, without its LF. It is empty if there are not that many.
fn line_behind(bytes: &[u8], lines: u32) -> &[u8] {
    let mut rest = bytes;
    for _ in 0..lines {
        match next_line(rest) {
            Some((_, after)) => rest = after,
            None => return &[],
        }
    }
    match next_line(rest) {
        Some((line, _)) => line,
        None => rest,
    }
}

/// Replaces what was kept with the first bytes of this line. Keeps nothing if memory runs out.
fn keep_line(kept: &mut Vec<u8>, line: &[u8]) -> Result<(), AllocError> {
    kept.truncate(0);
    let (first, _) = line.split_at(line.len().min(MOST_KEPT));
    kept.extend_from_slice(first)
}

/// Keeps the first bytes of the line after the first `lines` lines. What is kept already is the first of these lines,
/// and the bytes are what follows its LF.
pub(crate) fn keep_behind(kept: &mut Vec<u8>, lines: u32, after: &[u8]) {
    if lines == 0 {
        kept.truncate(MOST_KEPT);
    } else {
        let _ = keep_line(kept, line_behind(after, lines - 1));
    }
}

/// Returns the first bytes of the line of a fault. There are none if memory ran out.
fn kept_line(alloc: Global, bytes: &[u8], fault: TextFault) -> Result<Vec<u8>, AllocError> {
    let mut kept = Vec::new(alloc);
    if fault.kind != FaultKind::Memory {
        keep_line(&mut kept, line_behind(bytes, fault.line.saturating_sub(1)))?;
    }
    Ok(kept)
}

/// Returns the first bytes of what was kept.
pub(crate) fn first_kept(kept: Vec<u8>) -> Vec<u8> {
    let mut first = kept;
    first.truncate(MOST_KEPT);
    first
}

/// Returns the value that the bytes spell, or why they are refused. Allocates memory only for the refused line. If there is
/// none for it, that is the fault: without its line, a fault would be that of an empty one.
pub fn read_or_why<R: LineReader>(
    reader: R,
    alloc: Global,
    bytes: &[u8],
) -> Result<R::Text, Refusal>
    requires { R.held reader ≡ [] }
    ensures { MatchResult result (λ v. IsSpelling R.spells v bytes.now) (λ why. Refused R.spells bytes.now why.fault.line why.fault.kind) }
{
    let mut reader = reader;
    let (fault, is_last, wanted) = match take_lines(&Alone, &mut reader, 1, bytes) {
        Ok((unended, number)) => {
            let wanted = reader.wanted();
            match finish_text(reader, number, unended) {
                Ok(value) => return Ok(value),
                Err(fault) => (fault, true, wanted),
            }
        }
        Err(fault) => (fault, false, reader.wanted()),
    };
    match kept_line(alloc, bytes, fault) {
        Ok(line) => Err(Refusal {
            fault,
            line,
            is_last,
            wanted,
        }),
        Err(_) => Err(Refusal {
            fault: TextFault {
                line: 0,
                kind: FaultKind::Memory,
            },
            line: Vec::new(alloc),
            is_last,
            wanted,
        }),
    }
}
