//! A text while it is written.

ghost use Rattle.std.specs.Prelude.{◌≡◌, ℕ, List, [], ◌++◌, None, IfSome, IsOk, OnOk, OnErr};
ghost use Rattle.std.specs.Io.KnownBytes.{Appends};
ghost use Rattle.commands.specs.Saving.{IsSaved, at_end, at_keep, name_of, under};

use crate::sinks::TextSink;
use std::alloc::Global;
use std::io;
use std::io::Write;
use text_access::{Cause, cause_of, write_or_why};

/// The most bytes that are held of a text which is to get a name.
const MOST_HELD: usize = 1_048_576;

/// A text while it is written. A short one is held. The pieces of a longer one go to a draft, if there is one for its name.
#[derive(Drop)]
pub(crate) struct Pieces<'a, S: TextSink> {
    pub(crate) alloc: Global,
    // The name that it is to get, if it is to get one.
    pub(crate) name: Option<&'a str>,
    // What is not in a draft.
    pub(crate) held: Vec<u8>,
    pub(crate) draft: Option<S::Draft>,
    // Whether all of it is held.
    is_held: bool,
    // What kept some of it from being kept.
    pub(crate) fault: Option<io::Error>,
}

impl<'a, S: TextSink> Pieces<'a, S> {
    /// Returns an empty text that is to get this name, if there is one.
    pub(crate) fn new(alloc: Global, name: Option<&'a str>) -> Self
        ensures name { result.name ≡ name.entry }
        ensures saved { S.is_known → IsSaved S.draft_of (name_of result.name) result.draft result.held.items [] }
    {
        Pieces {
            alloc,
            name,
            held: Vec::new(alloc),
            draft: None,
            is_held: name.is_none(),
            fault: None,
        }
    }

    // Begins the draft, if there is one for the name. Otherwise the text is held.
    fn begin(&mut self, sink: &S) -> io::Result<()>
        ensures name { self.new.name ≡ self.old.name }
        ensures fault { self.new.fault ≡ self.old.fault }
        ensures saved { S.is_known → (text : List ℕ) → IsSaved S.draft_of (name_of self.old.name) self.old.draft self.old.held.items text → OnOk result (IsSaved S.draft_of (name_of self.new.name) self.new.draft self.new.held.items text) }
    {
        if let (None, Some(name)) = (&self.draft, self.name) {
            self.draft = sink.begin(self.alloc, name)?;
            self.is_held = self.draft.is_none();
        }
        Ok(())
    }

    // Writes what is held, and then this, to the draft, if there is one for the name.
    fn write_out(&mut self, sink: &S, bytes: &[u8]) -> io::Result<()>
        ensures name { self.new.name ≡ self.old.name }
        ensures fault { self.new.fault ≡ self.old.fault }
        ensures saved { S.is_known → (text : List ℕ) → IsSaved S.draft_of (name_of self.old.name) self.old.draft self.old.held.items text → OnOk result (IsSaved S.draft_of (name_of self.new.name) self.new.draft self.new.held.items (text ++ bytes.now)) }
        ensures out { OnOk result (IfSome self.new.draft (λ draft. self.new.held.items ≡ [])) }
    {
        self.begin(sink)?;
        match &mut self.draft {
            Some(draft) => {
                sink.add(draft, self.held.as_slice())?;
                self.held.clear();
                sink.add(draft, bytes)
            }
            None => {
                self.held.extend_from_slice(bytes)?;
                Ok(())
            }
        }
    }

    // Adds to the text.
    fn push(&mut self, sink: &S, bytes: &[u8]) -> io::Result<()>
        ensures name { self.new.name ≡ self.old.name }
        ensures fault { self.new.fault ≡ self.old.fault }
        ensures saved { S.is_known → (text : List ℕ) → IsSaved S.draft_of (name_of self.old.name) self.old.draft self.old.held.items text → OnOk result (IsSaved S.draft_of (name_of self.new.name) self.new.draft self.new.held.items (text ++ bytes.now)) }
    {
        if self.is_held || self.held.len().saturating_add(bytes.len()) <= MOST_HELD {
            self.held.extend_from_slice(bytes)?;
            return Ok(());
        }
        self.write_out(sink, bytes)
    }

    /// Adds to the text. What keeps the bytes from being kept is a fault, and nothing is added from then on.
    pub(crate) fn add(&mut self, sink: &S, bytes: &[u8])
        ensures name { self.new.name ≡ self.old.name }
        ensures saved { S.is_known → (text : List ℕ) → (self.old.fault ≡ None → IsSaved S.draft_of (name_of self.old.name) self.old.draft self.old.held.items text) → self.new.fault ≡ None → IsSaved S.draft_of (name_of self.new.name) self.new.draft self.new.held.items (text ++ bytes.now) }
    {
        if self.fault.is_some() {
            return;
        }
        if let Err(error) = self.push(sink, bytes) {
            self.fault = Some(error);
        }
    }

    // Writes out what is held, and stores the draft, or writes the text in place.
    fn store(&mut self, sink: &mut S) -> io::Result<()>
        ensures name { self.new.name ≡ self.old.name }
        ensures fault { self.new.fault ≡ self.old.fault }
        ensures saved { S.is_known → (text : List ℕ) → IsSaved S.draft_of (name_of self.old.name) self.old.draft self.old.held.items text → OnOk result (IsSaved S.draft_of (name_of self.new.name) self.new.draft self.new.held.items text) }
        ensures out { OnOk result (IfSome self.new.draft (λ draft. self.new.held.items ≡ [])) }
        ensures named { S.is_known → (text : List ℕ) → IsSaved S.draft_of (name_of self.old.name) self.old.draft self.old.held.items text → OnOk result (S.named sink.new ≡ S.named sink.old ++ at_end self.new.draft (under (name_of self.new.name) text)) }
        ensures drafted { S.is_known → IfSome self.new.draft (λ draft. S.named sink.new ≡ S.named sink.old) }
        ensures err { S.is_known → OnErr result (S.named sink.new ≡ S.named sink.old) }
    {
        self.write_out(sink, b"")?;
        match (&self.draft, self.name) {
            (Some(draft), _) => sink.store(draft),
            (None, Some(name)) => sink.write_in_place(name, self.held.as_slice()),
            (None, None) => Ok(()),
        }
    }

    /// Ends the text, which is to get a name. Its draft is stored then, or it is written in place.
    pub(crate) fn end(&mut self, sink: &mut S)
        ensures name { self.new.name ≡ self.old.name }
        ensures saved { S.is_known → (text : List ℕ) → (self.old.fault ≡ None → IsSaved S.draft_of (name_of self.old.name) self.old.draft self.old.held.items text) → self.new.fault ≡ None → IsSaved S.draft_of (name_of self.new.name) self.new.draft self.new.held.items text }
        ensures out { self.new.fault ≡ None → IfSome self.new.draft (λ draft. self.new.held.items ≡ []) }
        ensures named { S.is_known → (text : List ℕ) → (self.old.fault ≡ None → IsSaved S.draft_of (name_of self.old.name) self.old.draft self.old.held.items text) → self.new.fault ≡ None → S.named sink.new ≡ S.named sink.old ++ at_end self.new.draft (under (name_of self.new.name) text) }
        ensures drafted { S.is_known → IfSome self.new.draft (λ draft. S.named sink.new ≡ S.named sink.old) }
        ensures err { S.is_known → IfSome self.new.fault (λ error. S.named sink.new ≡ S.named sink.old) }
    {
        if self.fault.is_some() {
            return;
        }
        if let Err(error) = self.store(sink) {
            self.fault = Some(error);
        }
    }

    /// Gives the text its name, if it was not written in place.
    pub(crate) fn keep(&self, sink: &mut S) -> io::Result<()>
        ensures ok { S.is_known → (text : List ℕ) → IsSaved S.draft_of (name_of self.now.name) self.now.draft self.now.held.items text → IfSome self.now.draft (λ draft. self.now.held.items ≡ []) → OnOk result (S.named sink.new ≡ S.named sink.old ++ at_keep self.now.draft (under (name_of self.now.name) text)) }
        ensures in_place { self.now.draft ≡ None → IsOk result }
        ensures err { S.is_known → OnErr result (S.named sink.new ≡ S.named sink.old) }
    {
        match &self.draft {
            Some(draft) => sink.keep(draft),
            None => Ok(()),
        }
    }

    /// Removes the draft, if there is one.
    pub(crate) fn discard(&self, sink: &S) {
        if let Some(draft) = &self.draft {
            sink.remove(draft);
        }
    }

    /// Writes the text to an output.
    pub(crate) fn write_to<O: Write>(&mut self, sink: &S, output: &mut O) -> Result<(), Cause>
        ensures name { self.new.name ≡ self.old.name }
        ensures fault { self.new.fault ≡ self.old.fault }
        ensures saved { S.is_known → (text : List ℕ) → IsSaved S.draft_of (name_of self.old.name) self.old.draft self.old.held.items text → IsSaved S.draft_of (name_of self.new.name) self.new.draft self.new.held.items text }
        ensures written { S.is_known → (text : List ℕ) → IsSaved S.draft_of (name_of self.old.name) self.old.draft self.old.held.items text → OnOk result (Appends (O.contents output.old) (O.contents output.new) text) }
    {
        if let Some(draft) = &mut self.draft {
            if let Err(error) = sink.copy(draft, output) {
                return Err(cause_of(&error));
            }
        }
        write_or_why(output, self.held.as_slice())
    }
}
