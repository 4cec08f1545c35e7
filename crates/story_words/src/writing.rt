//! Writers, which put sentences into words.

ghost use Rattle.std.specs.Prelude.{◌≡◌, ℕ, List, OnOk, string_bytes};
ghost use Rattle.migration_types.specs.Sessions.{Recorded};
ghost use Rattle.story_words.specs.Writing.{Adds, AreWritten};

use crate::sentences::Sentence;
use migration_types::Session;
use std::alloc::AllocError;

/// A writer, which puts sentences into words.
pub trait Writer {
    ghost use Rattle.story_words.specs.declared.sentences.Sentence.{Sentence};

    /// Whether these are the words of a sentence about a session.
    ghost is_written: { Self → Recorded → Sentence → List ℕ → Type 0 };

    /// Appends the words of a sentence about a session. Fails only if memory runs out.
    fn push_sentence(
        &self,
        out: &mut String,
        session: &Session,
        sentence: &Sentence,
    ) -> Result<(), AllocError>
        ensures { OnOk result (Adds (is_written self.now session.now sentence.now) (string_bytes out.old) (string_bytes out.new)) };
}

/// Appends the words of exactly these sentences, in order. Fails only if memory runs out.
pub fn push_sentences<W: Writer>(
    writer: &W,
    out: &mut String,
    session: &Session,
    sentences: &[Sentence],
) -> Result<(), AllocError>
    ensures { OnOk result (Adds (AreWritten (W.is_written writer.now session.now) sentences.now) (string_bytes out.old) (string_bytes out.new)) }
{
    for sentence in sentences {
        writer.push_sentence(out, session, sentence)?;
    }
    Ok(())
}
