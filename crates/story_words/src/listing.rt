//! Lists of sentences.

ghost use Rattle.std.specs.Prelude.{◌≡◌, ◌++◌, OnOk};
ghost use Rattle.story_words.specs.Sentences.{listed};

use crate::Sentence;
use std::alloc::AllocError;

/// Appends a sentence, if there is one.
pub(crate) fn push_if(out: &mut Vec<Sentence>, sentence: Option<Sentence>) -> Result<(), AllocError>
    ensures { OnOk result (out.new.items ≡ out.old.items ++ listed sentence) }
{
    match sentence {
        Some(sentence) => out.extend_from_slice(&[sentence]),
        None => Ok(()),
    }
}
