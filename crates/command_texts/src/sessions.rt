//! Sessions, taken from their texts piece by piece, or as they are.

ghost use Rattle.std.specs.Prelude.{ℕ, List, Option};
ghost use Rattle.text_lines.specs.Answer.{IsRead};
ghost use Rattle.text_lines.specs.Progress.{CameSoFar};
ghost use Rattle.session_grammar.specs.Grammar.{SpellsSession};
ghost use Rattle.command_texts.specs.Reasons.{IsRefusedAt};

use crate::taking::Taker;
use migration_types::Session;
use session_log::SessionReader;
use std::alloc::{AllocError, Global};
use std::io;
use std::thread::Threads;
use text_access::TextSource;
use text_lines::Refusal;

/// Takes a session: its text piece by piece, or the session under a name that has no text of its own.
#[derive(Drop)]
pub struct SessionTaker {
    reader: SessionReader,
}

impl Taker for SessionTaker {
    type Found = Result<Session, u32>;

    ghost is_found = { λ text found. IsRead SpellsSession text found };

    ghost is_refused = { λ text line. IsRefusedAt SpellsSession text line };

    ghost came = { λ taker text. CameSoFar SpellsSession text taker.reader };

    ghost taken_in = { λ HasSession. HasSession };

    fn find_session<S: TextSource>(
        alloc: Global,
        texts: &S,
        name: &str,
    ) -> io::Result<Option<Result<Session, u32>>> {
        match texts.session(alloc, name)? {
            Some(session) => Ok(Some(Ok(session))),
            None => Ok(None),
        }
    }

    fn open<S: TextSource>(texts: &S, name: &str) -> io::Result<S::Text> {
        texts.session_text(name)
    }

    fn new(alloc: Global) -> Self {
        SessionTaker {
            reader: SessionReader::new(alloc),
        }
    }

    fn take<H: Threads + Sync>(
        &mut self,
        rt: &H,
        parts: usize,
        piece: &[u8],
    ) -> Result<(), AllocError> {
        self.reader.take(rt, parts, piece)
    }

    fn end(self) -> Result<(Result<Session, u32>, Option<Refusal>), AllocError> {
        self.reader.end()
    }
}
