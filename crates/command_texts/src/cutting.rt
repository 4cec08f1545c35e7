//! Cutting an input into two texts while it is read.

ghost use Rattle.std.specs.Prelude.{◌≡◌, ◌≤◌, ◌↔◌, ℕ, List, ◌++◌, None, take, length, codes, IsTrue, IfSome, IfNone};
ghost use Rattle.command_texts.specs.Cutting.{IsCutAtEnd};
ghost use Rattle.command_texts.specs.Reasons.{line_of};
ghost use Rattle.command_texts.specs.inner.Ends.{CameAs, EndsThere, IsLacking, NoEndYet};

use crate::taking::Taker;
use std::alloc::{AllocError, Global};
use std::thread::Threads;
use text_lines::{Refusal, after_key, is_line, next_line};

/// The line that ends the first text.
const END: &[u8] = b"end";

/// Returns whether a line with this rest is the line `end`. `lacking` is what the line lacked of it, or `None` if it
/// could no longer become that line.
fn completes(lacking: Option<&[u8]>, rest: &[u8]) -> bool
    ensures { (start : List ℕ) → IsLacking start lacking.entry → IsTrue result ↔ start ++ rest.now ≡ codes "end" }
{
    match lacking {
        Some(lacking) => is_line(rest, lacking),
        None => false,
    }
}

/// Returns what a line that goes on with this rest lacks of the line `end`, or `None` if it can no longer become that
/// line.
fn lacking_after(lacking: Option<&'static [u8]>, rest: &[u8]) -> Option<&'static [u8]>
    ensures { (start : List ℕ) → IsLacking start lacking.entry → IsLacking (start ++ rest.now) result }
{
    match lacking {
        Some(lacking) => after_key(lacking, rest),
        None => None,
    }
}

/// Returns the offset in a piece just after the first line `end`, if the piece completes one. `lacking` is what the
/// line before the piece lacked of `end`, or `None` if it could no longer become it. It is updated for the last line.
fn find_end(lacking: &mut Option<&'static [u8]>, piece: &[u8]) -> Option<usize>
    ensures found { IfSome result (λ at. (at ≤ length piece.now) × ((input : List ℕ) → NoEndYet input lacking.old → EndsThere (input ++ take at piece.now))) }
    ensures none { IfNone result ((input : List ℕ) → NoEndYet input lacking.old → NoEndYet (input ++ piece.now) lacking.new) }
{
    let mut rest = piece;
    while let Some((line, after)) = next_line(rest) {
        if completes(*lacking, line) {
            return Some(piece.len() - after.len());
        }
        *lacking = Some(END);
        rest = after;
    }
    *lacking = lacking_after(*lacking, rest);
    None
}

/// Takes an input that holds two texts. The first ends with the first line `end`, and the second is what follows.
/// Without such a line, the first text is the whole input, and the second is empty.
#[derive(Drop)]
pub struct Both<A: Taker, B: Taker> {
    first: A,
    second: B,
    /// Whether the first text has ended.
    ended: bool,
    /// What the last line of the first text lacks of the line `end`, or `None` if it can no longer become that line.
    lacking: Option<&'static [u8]>,
}

impl<A: Taker, B: Taker> Taker for Both<A, B> {
    /// What is found in the two texts, and why each is refused, if it is.
    type Found = ((A::Found, B::Found), (Option<Refusal>, Option<Refusal>));

    ghost is_found = { λ input found. (texts : List ℕ × List ℕ) × IsCutAtEnd input texts.0 texts.1 × A.is_found texts.0 found.0.0 × B.is_found texts.1 found.0.1 × A.is_refused texts.0 (line_of found.1.0) × B.is_refused texts.1 (line_of found.1.1) };

    // Any input is two texts. Each of them may be refused, and the input is not.
    ghost is_refused = { λ _ line. line ≡ None };

    ghost came = { λ both input. CameAs (A.came both.first) (B.came both.second) both.ended both.lacking input };

    fn new(alloc: Global) -> Self {
        Both {
            first: A::new(alloc),
            second: B::new(alloc),
            ended: false,
            lacking: Some(END),
        }
    }

    fn take<H: Threads + Sync>(
        &mut self,
        rt: &H,
        parts: usize,
        piece: &[u8],
    ) -> Result<(), AllocError> {
        if self.ended {
            return self.second.take(rt, parts, piece);
        }
        match find_end(&mut self.lacking, piece) {
            Some(place) => {
                let (first, second) = piece.split_at(place);
                self.ended = true;
                self.first.take(rt, parts, first)?;
                self.second.take(rt, parts, second)
            }
            None => self.first.take(rt, parts, piece),
        }
    }

    fn end(self) -> Result<(Self::Found, Option<Refusal>), AllocError> {
        let (first, why) = self.first.end()?;
        let (second, later) = self.second.end()?;
        Ok((((first, second), (why, later)), None))
    }
}
