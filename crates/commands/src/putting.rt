//! Where an answer goes when it is whole, and the table that goes beside it.

ghost use Rattle.std.specs.Prelude.{◌≡◌, ◌≢◌, ◌<◌, ◌⊎◌, ℕ, List, [], ◌++◌, Some, None, IfErr, IfSome, IsErr, IsOk, MatchResult, OnOk, OnErr, option_map, not, nat_lt, ◌&&◌};
ghost use Rattle.std.specs.Io.KnownBytes.{Appends};
ghost use Rattle.command_texts.specs.Answers.{IsListStop, IsOutputFault, fault_line, fault_status};
ghost use Rattle.command_words.specs.Words.{is_report};
ghost use Rattle.commands.specs.Puts.{AreBothNamed, IsOneNamed, IsPut, beside, name_at, under_if};
ghost use Rattle.commands.specs.Saving.{IsSaved, Named, at_end, name_of, under};
ghost use Rattle.text_access.specs.Written.{AppendsFront};

use crate::pieces::Pieces;
use crate::sinks::TextSink;
use command_texts::{Fault, MEMORY, STANDARD_OUTPUT, tell};
use command_words::{AnswerKind, Targets};
use std::io;
use std::io::Write;
use text_access::{Cause, cause_of};

// Returns the fault of an output that could not be written: that memory ran out, if this is the cause.
fn output_fault(name: &str, cause: Cause) -> Fault<'_>
    ensures memory { cause ≡ Cause.NoMemory → result ≡ Fault.Memory }
    ensures output { cause ≢ Cause.NoMemory → IsOutputFault result }
    ensures stop { IsListStop result }
{
    match cause {
        Cause::NoMemory => Fault::Memory,
        _ => Fault::Output(name, cause.words()),
    }
}

// Returns the fault of an output under this name, if it failed.
fn or_fault(done: io::Result<()>, name: &str) -> Result<(), Fault<'_>>
    ensures done { MatchResult result (λ _. IsOk done) (λ _. IsErr done) }
    ensures fault { IfErr result IsListStop }
{
    match done {
        Ok(()) => Ok(()),
        Err(error) => Err(output_fault(name, cause_of(&error))),
    }
}

// Returns whether what a command has made with this status is a part of a text, of which nothing is put.
fn is_part(kind: AnswerKind, status: u8) -> bool
    ensures { result ≡ (not (is_report kind) && nat_lt 1 status) }
{
    match kind {
        AnswerKind::Artifact => status > 1,
        AnswerKind::Report => false,
    }
}

impl<'a, S: TextSink> Pieces<'a, S> {
    // Returns the name that the answer was to get, or that of the output.
    fn target(&self) -> &'a str {
        self.name.unwrap_or(STANDARD_OUTPUT)
    }

    // Gives the answer its name.
    fn put_named(&mut self, sink: &mut S) -> Result<(), Fault<'a>>
        ensures name { self.new.name ≡ self.old.name }
        ensures ok { S.is_known → (text : List ℕ) → (self.old.fault ≡ None → IsSaved S.draft_of (name_of self.old.name) self.old.draft self.old.held.items text) → OnOk result (S.named sink.new ≡ S.named sink.old ++ under (name_of self.old.name) text) }
        ensures err { S.is_known → OnErr result (S.named sink.new ≡ S.named sink.old) }
        ensures fault { IfErr result IsListStop }
    {
        let target = self.target();
        self.end(sink);
        if let Some(error) = &self.fault {
            return Err(output_fault(target, cause_of(error)));
        }
        or_fault(self.keep(sink), target)
    }

    // Writes the answer, which gets no name, to the output.
    fn put_out<O: Write>(&mut self, sink: &S, output: &mut O) -> Result<(), Fault<'a>>
        ensures name { self.new.name ≡ self.old.name }
        ensures ok { S.is_known → (text : List ℕ) → (self.old.fault ≡ None → IsSaved S.draft_of (name_of self.old.name) self.old.draft self.old.held.items text) → OnOk result (Appends (O.contents output.old) (O.contents output.new) text) }
        ensures fault { IfErr result IsListStop }
    {
        let target = self.target();
        if let Some(error) = &self.fault {
            return Err(output_fault(target, cause_of(error)));
        }
        match self.write_to(sink, output) {
            Ok(()) => Ok(()),
            Err(cause) => Err(output_fault(STANDARD_OUTPUT, cause)),
        }
    }

    // Gives the answer this name, which it is to get, if it gets one. Otherwise writes it to the output.
    fn put_answer<O: Write>(
        &mut self,
        name: Option<&'a str>,
        sink: &mut S,
        output: &mut O,
    ) -> Result<(), Fault<'a>>
        requires named { (name_of name ≡ None) ⊎ (name_of name ≡ name_of self.old.name) }
        ensures named { S.is_known → (text : List ℕ) → (self.old.fault ≡ None → IsSaved S.draft_of (name_of self.old.name) self.old.draft self.old.held.items text) → OnOk result (S.named sink.new ≡ S.named sink.old ++ under (name_of name.entry) text) }
        ensures written { S.is_known → (text : List ℕ) → (self.old.fault ≡ None → IsSaved S.draft_of (name_of self.old.name) self.old.draft self.old.held.items text) → OnOk result (Appends (O.contents output.old) (O.contents output.new) (beside (name_of name.entry) text)) }
        ensures err { S.is_known → OnErr result (S.named sink.new ≡ S.named sink.old) }
        ensures fault { IfErr result IsListStop }
    {
        let put = if name.is_some() {
            self.put_named(sink)
        } else {
            self.put_out(sink, output)
        };
        if put.is_err() || name.is_none() {
            self.discard(sink);
        }
        put
    }

    // Puts the answer where it goes, and then gives a table its name, which has ended. If the table could not be kept,
    // nothing is put.
    fn put_before<O: Write>(
        &mut self,
        table: &Pieces<'a, S>,
        lines: &'a str,
        name: Option<&'a str>,
        sink: &mut S,
        output: &mut O,
    ) -> Result<(), Fault<'a>>
        requires named { (name_of name ≡ None) ⊎ (name_of name ≡ name_of self.old.name) }
        requires out { table.now.fault ≡ None → IfSome table.now.draft (λ draft. table.now.held.items ≡ []) }
        ensures named { S.is_known → (text : List ℕ) → (self.old.fault ≡ None → IsSaved S.draft_of (name_of self.old.name) self.old.draft self.old.held.items text) → (start : Named) (bytes : List ℕ) → (table.now.fault ≡ None → IsSaved S.draft_of (name_of table.now.name) table.now.draft table.now.held.items bytes) → (table.now.fault ≡ None → S.named sink.old ≡ start ++ at_end table.now.draft (under (name_of table.now.name) bytes)) → OnOk result (AreBothNamed (under (name_of name.entry) text) (under (name_of table.now.name) bytes) start (S.named sink.new)) }
        ensures written { S.is_known → (text : List ℕ) → (self.old.fault ≡ None → IsSaved S.draft_of (name_of self.old.name) self.old.draft self.old.held.items text) → OnOk result (Appends (O.contents output.old) (O.contents output.new) (beside (name_of name.entry) text)) }
        ensures err { S.is_known → (text : List ℕ) → (self.old.fault ≡ None → IsSaved S.draft_of (name_of self.old.name) self.old.draft self.old.held.items text) → (start : Named) (bytes : List ℕ) → (table.now.fault ≡ None → S.named sink.old ≡ start ++ at_end table.now.draft (under (name_of table.now.name) bytes)) → IfSome table.now.fault (λ _. S.named sink.old ≡ start) → OnErr result (IsOneNamed (under (name_of name.entry) text) (under (name_of table.now.name) bytes) start (S.named sink.new)) }
        ensures fault { IfErr result IsListStop }
    {
        if let Some(error) = &table.fault {
            let fault = output_fault(lines, cause_of(error));
            self.discard(sink);
            return Err(fault);
        }
        match self.put_answer(name, sink, output) {
            Ok(()) => or_fault(table.keep(sink), lines),
            Err(fault) => Err(fault),
        }
    }

    // Puts the answer where it goes, and gives this table its name. The table is whole before the answer is put.
    fn put_both<O: Write>(
        &mut self,
        lines: &'a str,
        table: &[u8],
        name: Option<&'a str>,
        sink: &mut S,
        output: &mut O,
    ) -> Result<(), Fault<'a>>
        requires named { (name_of name ≡ None) ⊎ (name_of name ≡ name_of self.old.name) }
        ensures named { S.is_known → (text : List ℕ) → (self.old.fault ≡ None → IsSaved S.draft_of (name_of self.old.name) self.old.draft self.old.held.items text) → OnOk result (AreBothNamed (under (name_of name.entry) text) (under (Some lines.now) table.now) (S.named sink.old) (S.named sink.new)) }
        ensures written { S.is_known → (text : List ℕ) → (self.old.fault ≡ None → IsSaved S.draft_of (name_of self.old.name) self.old.draft self.old.held.items text) → OnOk result (Appends (O.contents output.old) (O.contents output.new) (beside (name_of name.entry) text)) }
        ensures err { S.is_known → (text : List ℕ) → (self.old.fault ≡ None → IsSaved S.draft_of (name_of self.old.name) self.old.draft self.old.held.items text) → OnErr result (IsOneNamed (under (name_of name.entry) text) (under (Some lines.now) table.now) (S.named sink.old) (S.named sink.new)) }
        ensures fault { IfErr result IsListStop }
    {
        let mut saved = Pieces::new(self.alloc, Some(lines));
        saved.add(sink, table);
        saved.end(sink);
        let put = self.put_before(&saved, lines, name, sink, output);
        if put.is_err() {
            saved.discard(sink);
        }
        put
    }

    // Puts the answer of this kind and with this status where it goes, and the table of a window's lines, if there is one.
    fn put_at<O: Write>(
        &mut self,
        kind: AnswerKind,
        status: u8,
        lines: Option<&'a str>,
        table: &Option<Vec<u8>>,
        sink: &mut S,
        output: &mut O,
    ) -> Result<(), Fault<'a>>
        ensures ok { S.is_known → (text : List ℕ) → (self.old.fault ≡ None → IsSaved S.draft_of (name_of self.old.name) self.old.draft self.old.held.items text) → OnOk result (IsPut kind status (name_of lines.entry, name_of self.old.name) text (option_map (λ table. table.items) table.now) (S.named sink.old, O.contents output.old) (S.named sink.new, O.contents output.new)) }
        ensures err { S.is_known → (text : List ℕ) → (self.old.fault ≡ None → IsSaved S.draft_of (name_of self.old.name) self.old.draft self.old.held.items text) → OnErr result (IsOneNamed (under (name_at kind status (name_of self.old.name)) text) (under_if (name_at kind status (name_of lines.entry)) (option_map (λ table. table.items) table.now)) (S.named sink.old) (S.named sink.new)) }
        ensures fault { IfErr result IsListStop }
    {
        let targets = Targets {
            lines,
            output: self.name,
            answer: kind,
        };
        if is_part(kind, status) {
            self.discard(sink);
            return Ok(());
        }
        let due = targets.at(status);
        match (due.lines, table) {
            (Some(lines), Some(table)) => {
                self.put_both(lines, table.as_slice(), due.output, sink, output)
            }
            _ => self.put_answer(due.output, sink, output),
        }
    }

    /// Puts the answer of this kind and with this status where it goes, and the table of a window's lines, if there is
    /// one. An answer gets the name of its file, if the words give one and it gets it at this status. Otherwise it is
    /// written to the output. Above 1 nothing is put of a certificate, a session or a picture. The table gets the name of
    /// its file, `lines`, if the answer gets its own.
    ///
    /// Returns the status of the program. It is this status if all was put. Otherwise it is 3 or 4, the errors say why, and
    /// one of the two texts got its name at most.
    pub(crate) fn put<O: Write, E: Write>(
        &mut self,
        kind: AnswerKind,
        status: u8,
        lines: Option<&'a str>,
        table: &Option<Vec<u8>>,
        sink: &mut S,
        output: &mut O,
        errors: &mut E,
    ) -> u8
        ensures status { ((result ≡ status) × (E.contents errors.new ≡ E.contents errors.old)) ⊎ ((fault : Fault) × IsListStop fault × (result ≡ fault_status fault) × AppendsFront (E.contents errors.old) (E.contents errors.new) (fault_line fault)) }
        ensures put { S.is_known → (text : List ℕ) → (self.old.fault ≡ None → IsSaved S.draft_of (name_of self.old.name) self.old.draft self.old.held.items text) → result < 3 → IsPut kind status (name_of lines.entry, name_of self.old.name) text (option_map (λ table. table.items) table.now) (S.named sink.old, O.contents output.old) (S.named sink.new, O.contents output.new) }
        ensures left { S.is_known → (text : List ℕ) → (self.old.fault ≡ None → IsSaved S.draft_of (name_of self.old.name) self.old.draft self.old.held.items text) → 2 < result → IsOneNamed (under (name_at kind status (name_of self.old.name)) text) (under_if (name_at kind status (name_of lines.entry)) (option_map (λ table. table.items) table.now)) (S.named sink.old) (S.named sink.new) }
    {
        match self.put_at(kind, status, lines, table, sink, output) {
            Ok(()) => status,
            // (that memory ran out is told once)
            Err(Fault::Memory) if status == MEMORY => status,
            Err(fault) => tell(fault, errors),
        }
    }
}
