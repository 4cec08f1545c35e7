//! Sentences in English.
//!
//! The words are constants of the code, and no clause says which they are. A clause says which sentences the story has,
//! and that it fails only if memory runs out.

ghost use Rattle.std.specs.Prelude.{◌≡◌, OnOk, string_bytes};
ghost use Rattle.migration_types.specs.Receipts.{log_word};
ghost use Rattle.story_words.specs.Writing.{Adds, IsBehind};

pub(crate) mod clean;
mod contents;
pub(crate) mod faults;
pub(crate) mod knots;
pub(crate) mod lacks;
pub(crate) mod pages;
mod records;
mod shapes;

use crate::sentences::Sentence;
use crate::writing::Writer;
use audit_report::{Lines, OwnLines};
use migration_types::{LogName, Session};
use session_story::{Name, Waiting};
use std::alloc::AllocError;

/// A writer that puts sentences into English.
#[derive(Clone, Copy)]
pub struct English<'a, L> {
    /// The line numbers that are printed.
    pub lines: &'a L,
}

/// The words for a session's records, with the line numbers that are printed.
#[derive(Clone, Copy)]
pub(crate) struct Teller<'a, L> {
    session: &'a Session,
    lines: &'a L,
}

/// A part of a sentence.
enum Phrase<'a> {
    /// The place of a record, as in "line 13 (guest 6)", or only its log and its number if it does not exist.
    Place(Name),
    /// The place of a record and what it says, without contents, as in "line 8 (guest 1): the guest is halted at the
    /// source".
    Record(Name),
    /// The record that a waiting one must come after. If that is not the next waiting record, but comes after it, also
    /// the next.
    Wait(&'a Waiting, &'a Waiting),
}

impl<L: Lines> English<'_, L> {
    /// Returns the words for a session's records.
    fn teller<'a>(&'a self, session: &'a Session) -> Teller<'a, L> {
        Teller {
            session,
            lines: self.lines,
        }
    }

    /// Appends the words of a part of a sentence. Fails only if memory runs out.
    fn push_phrase(
        &self,
        out: &mut String,
        session: &Session,
        phrase: Phrase<'_>,
    ) -> Result<(), AllocError>
        ensures { OnOk result (IsBehind (string_bytes out.old) (string_bytes out.new)) }
    {
        let mut words = String::new(*out.allocator());
        self.teller(session).push_phrase(&mut words, phrase)?;
        out.push_str(&words)
    }
}

impl<L: Lines> Writer for English<'_, L> {
    ghost use Rattle.story_words.specs.Writing.{IsLine};

    ghost is_written = { λ _ _ _. IsLine };

    fn push_sentence(
        &self,
        out: &mut String,
        session: &Session,
        sentence: &Sentence,
    ) -> Result<(), AllocError> {
        let mut words = String::new(*out.allocator());
        self.teller(session).push_words(&mut words, sentence)?;
        words.push_str("\n")?;
        out.push_str(&words)
    }
}

impl<L: Lines> Teller<'_, L> {
    /// Appends the words of a part of a sentence.
    fn push_phrase(&self, out: &mut String, phrase: Phrase<'_>) -> Result<(), AllocError> {
        match phrase {
            Phrase::Place(name) => self.push_place(out, name),
            Phrase::Record(name) => self.push_record(out, name),
            Phrase::Wait(waiting, next) => self.push_wait(out, waiting, next),
        }
    }

    /// Appends words and a record, as a sentence.
    pub(crate) fn push_with_record(
        &self,
        out: &mut String,
        words: &str,
        name: Name,
    ) -> Result<(), AllocError> {
        out.push_str(words)?;
        self.push_record(out, name)?;
        out.push_str(".")
    }

    /// Appends words and the record of this number in a log, as a sentence, or if there is none, the sentence that says
    /// so.
    pub(crate) fn push_with_record_or(
        &self,
        out: &mut String,
        words: &str,
        none: &str,
        log: LogName,
        place: Option<u32>,
    ) -> Result<(), AllocError> {
        match place {
            Some(place) => self.push_with_record(out, words, (log, place)),
            None => out.push_str(none),
        }
    }

    /// Appends words and the place of a record, as a sentence.
    pub(crate) fn push_with_place(
        &self,
        out: &mut String,
        words: &str,
        name: Name,
    ) -> Result<(), AllocError> {
        out.push_str(words)?;
        self.push_place(out, name)?;
        out.push_str(".")
    }
}

/// Returns the word of a log, as its section of a session's text has it.
pub fn log_word(log: LogName) -> &'static str
    ensures { result.now ≡ log_word log }
{
    log.word()
}

/// The writer with the line numbers of a session's own text.
const BY_OWN_LINES: English<'static, OwnLines> = English { lines: &OwnLines };

/// Appends the place of a record, as in "line 13 (guest 6)", with the line numbers of the session's own text, or only
/// its log and its number if it does not exist. Fails only if memory runs out.
pub fn push_place(
    out: &mut String,
    session: &Session,
    log: LogName,
    place: u32,
) -> Result<(), AllocError>
    ensures { OnOk result (IsBehind (string_bytes out.old) (string_bytes out.new)) }
{
    BY_OWN_LINES.push_phrase(out, session, Phrase::Place((log, place)))
}

/// Appends the place of a record and what it says, without contents, as in "line 8 (guest 1): the guest is halted at
/// the source", with the line numbers of the session's own text. The words have no letter that XML escapes. Fails only
/// if memory runs out.
pub fn push_record(
    out: &mut String,
    session: &Session,
    log: LogName,
    place: u32,
) -> Result<(), AllocError>
    ensures { OnOk result (IsBehind (string_bytes out.old) (string_bytes out.new)) }
{
    BY_OWN_LINES.push_phrase(out, session, Phrase::Record((log, place)))
}

/// Appends the record that a waiting one must come after, with the line numbers of the session's own text. If that is
/// not the next waiting record, but comes after it, also appends the next. Fails only if memory runs out.
pub fn push_wait(
    out: &mut String,
    session: &Session,
    waiting: &Waiting,
    next: &Waiting,
) -> Result<(), AllocError>
    ensures { OnOk result (IsBehind (string_bytes out.old) (string_bytes out.new)) }
{
    BY_OWN_LINES.push_phrase(out, session, Phrase::Wait(waiting, next))
}
