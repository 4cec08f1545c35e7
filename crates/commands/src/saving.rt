//! An answer while it is written, which may get the name of a file.

ghost use Rattle.std.specs.Prelude.{◌≡◌, [], None, IfSome};
ghost use Rattle.std.proofs.Props.{props};
ghost use Rattle.commands.specs.Saving.{IsSaved, name_of};

use crate::pieces::Pieces;
use crate::sinks::{Account, TextSink};
use std::alloc::Global;
use std::io;
use std::io::Write;

/// An answer while it is written. A short one is held. The pieces of a longer one go to a draft, if there is one for its
/// name. It takes all bytes: what keeps some from being kept is told at the end.
#[derive(Drop)]
pub(crate) struct Saved<'s, 'a, S: TextSink, A: Account> {
    sink: &'s S,
    // What was written. Only proofs use it.
    account: A,
    pieces: Pieces<'a, S>,
    ghost named: { IfSome (A.written account) (λ text. name_of pieces.name ≡ A.name) } by { Prim.hlevel props },
    ghost whole: { S.is_known → IfSome (A.written account) (λ text. pieces.fault ≡ None → IsSaved S.draft_of (name_of pieces.name) pieces.draft pieces.held.items text) } by { Prim.hlevel props },
}

impl<'s, 'a, S: TextSink, A: Account> Saved<'s, 'a, S, A> {
    /// Returns an empty answer, which is to get this name, if there is one.
    pub(crate) fn new(sink: &'s S, alloc: Global, name: Option<&'a str>, account: A) -> Self
        requires { IfSome (A.written account) (λ text. (text ≡ []) × (name_of name ≡ A.name)) }
        ensures { result.account ≡ account }
    {
        Saved {
            sink,
            account,
            pieces: Pieces::new(alloc, name),
        }
    }

    /// Returns what was written.
    pub(crate) fn into_pieces(self) -> Pieces<'a, S>
        ensures named { IfSome (A.written self.entry.account) (λ text. name_of result.name ≡ A.name) }
        ensures whole { S.is_known → IfSome (A.written self.entry.account) (λ text. result.fault ≡ None → IsSaved S.draft_of (name_of result.name) result.draft result.held.items text) }
    {
        drop(self.account);
        self.pieces
    }
}

impl<S: TextSink, A: Account> Write for Saved<'_, '_, S, A> {
    ghost contents = { λ s. A.written s.account };

    fn write(&mut self, buf: &[u8]) -> io::Result<usize> {
        self.pieces.add(self.sink, buf);
        self.account.add(buf);
        Ok(buf.len())
    }

    fn flush(&mut self) -> io::Result<()> {
        Ok(())
    }
}
