//! Texts that are taken piece by piece while they are read.

ghost use Rattle.std.specs.Prelude.{◌≡◌, ◌≢◌, ℕ, List, [], ◌++◌, Option, Some, None, Ok, Err, IfOk, IfSome, OnOk, MatchResult};
ghost use Rattle.std.specs.Thread.{IsSync};
ghost use Rattle.text_lines.specs.Answer.{IsRead};
ghost use Rattle.text_lines.specs.Progress.{CameSoFar};
ghost use Rattle.command_texts.specs.Reasons.{IsRefusedAt, line_of};
ghost use Rattle.command_texts.specs.Told.{IsOpened};
ghost use Rattle.text_access.specs.Names.{files_of};

use std::alloc::{AllocError, Global};
use std::io;
use std::marker::Model;
use std::thread::Threads;
use text_access::TextSource;
use text_lines::{FaultKind, LinesApart, Refusal, Staged, Stages, TextReader, read_or_why};

/// Takes a text piece by piece, and returns at the end what it found.
pub trait Taker: Drop {
    /// What is found in a text.
    type Found: Drop;

    /// This was found in a text.
    ghost is_found: { List ℕ → Self.Found → Type 0 };

    /// A text is refused at this line, or not at all.
    ghost is_refused: { List ℕ → Option ℕ → Type 0 };

    /// These bytes have been taken so far.
    ghost came: { Self → List ℕ → Type 0 };

    /// The texts of sessions that are taken under names, without being read, out of those that are there. Only a taker of
    /// sessions takes any.
    ghost taken_in: { (List ℕ → List ℕ → Type 0) → List ℕ → List ℕ → Type 0 } = { λ _ _ _. ⊥ };

    /// Returns what is found in the text of the session under a name, if there is one that is taken, and need not be read.
    /// Fails if what is under the name makes no session, or if memory runs out.
    fn find_session<S: TextSource>(
        alloc: Global,
        texts: &S,
        name: &str,
    ) -> io::Result<Option<Self::Found>>
        ensures { IfOk result (λ session. IfSome session (λ found. (text : List ℕ) × taken_in (S.text_in texts.now) name.now text × is_found text found × is_refused text None)) }
    {
        let _ = alloc;
        let _ = texts;
        let _ = name;
        Ok(None)
    }

    /// Opens the text under a name. A taker of sessions also opens that of the session under a name that has no text of its
    /// own.
    fn open<S: TextSource>(texts: &S, name: &str) -> io::Result<S::Text>
        ensures { IfOk result (λ t. IsOpened name.now (files_of (S.bytes_of texts.now) (S.names_in texts.now)) (taken_in (S.text_in texts.now)) (S.Text.remaining t)) }
    {
        texts.text(name)
    }

    /// Returns a taker that has taken nothing. Allocates no memory.
    fn new(alloc: Global) -> Self
        ensures { came result [] };

    /// Takes the next piece. Up to this many threads take parts of it. Errors in the text are reported at its end.
    fn take<H: Threads + Sync>(
        &mut self,
        rt: &H,
        parts: usize,
        piece: &[u8],
    ) -> Result<(), AllocError>
        requires { IsSync H.row }
        ensures { OnOk result ((text : List ℕ) → came self.old text → came self.new (text ++ piece.now)) };

    /// Returns what was found in the whole text, and why the text is refused, if it is. Fails only if memory runs out.
    fn end(self) -> Result<(Self::Found, Option<Refusal>), AllocError>
        ensures { (text : List ℕ) → came self text → IfOk result (λ read. is_found text read.0 × is_refused text (line_of read.1)) };
}

impl<R: LinesApart> Taker for TextReader<R> {
    type Found = Result<R::Text, u32>;

    ghost is_found = { λ text found. IsRead R.spells text found };

    ghost is_refused = { λ text line. IsRefusedAt R.spells text line };

    ghost came = { λ reader text. CameSoFar R.spells text reader };

    fn new(alloc: Global) -> Self {
        TextReader::new(alloc)
    }

    fn take<H: Threads + Sync>(
        &mut self,
        rt: &H,
        parts: usize,
        piece: &[u8],
    ) -> Result<(), AllocError> {
        match self.feed_apart(rt, parts, piece) {
            Ok(()) => Ok(()),
            Err(fault) => {
                let _line = fault.refused_line()?;
                Ok(())
            }
        }
    }

    fn end(self) -> Result<(Result<R::Text, u32>, Option<Refusal>), AllocError> {
        told(self.finish_or_why())
    }
}

/// A text that is gathered first and read at its end. Contracts see the bytes so far.
#[derive(Drop)]
pub struct Gathered<P: Stages> {
    alloc: Global,
    bytes: Vec<u8>,
    reader: Staged<P>,
}

impl<P: Stages> Model for Gathered<P> {
    ghost use Rattle.std.specs.Prelude.{◌≡◌, ℕ, List, []};

    ghost Value = { List ℕ };

    ghost view = { λ a. a.bytes.items };

    ghost invariant = { λ a. a.reader ≡ [] };
}

impl<P: Stages> Taker for Gathered<P> {
    type Found = Result<P::Text, u32>;

    ghost is_found = { λ text found. IsRead P.spells text found };

    ghost is_refused = { λ text line. IsRefusedAt P.spells text line };

    ghost came = { λ gathered text. gathered ≡ text };

    fn new(alloc: Global) -> Self {
        Gathered {
            alloc,
            bytes: Vec::new(alloc),
            reader: Staged::new(alloc),
        }
    }

    fn take<H: Threads + Sync>(
        &mut self,
        rt: &H,
        parts: usize,
        piece: &[u8],
    ) -> Result<(), AllocError> {
        let _ = rt;
        let _ = parts;
        self.bytes.extend_from_slice(piece)
    }

    fn end(self) -> Result<(Result<P::Text, u32>, Option<Refusal>), AllocError> {
        told(read_or_why(self.reader, self.alloc, &self.bytes))
    }
}

/// Returns what was read from a text: its value, or the line at which it is refused, with the reason. Fails only if
/// memory ran out during reading.
fn told<V: Drop>(read: Result<V, Refusal>) -> Result<(Result<V, u32>, Option<Refusal>), AllocError>
    ensures { MatchResult read (λ value. result ≡ Ok (Ok value, None)) (λ refusal. MatchResult result (λ told. (told ≡ (Err refusal.fault.line, Some refusal)) × (refusal.fault.kind ≢ FaultKind.Memory)) (λ _. refusal.fault.kind ≡ FaultKind.Memory)) }
{
    match read {
        Ok(value) => Ok((Ok(value), None)),
        Err(refusal) => {
            let line = refusal.fault.refused_line()?;
            Ok((Err(line), Some(refusal)))
        }
    }
}
