//! A command on several texts, in order: an answer for each, and how many say that all is well.

ghost use Rattle.std.specs.Prelude.{◌≡◌, ◌<◌, ◌≤◌, ◌++◌, ◌==◌, ℕ, List, Option, None, IfOk, IfErr, MatchResult, OnOk, option_map, if◌then◌else◌};
ghost use Rattle.std.specs.Io.KnownBytes.{Appends};
ghost use Rattle.command_texts.specs.Answers.{IsListStop, IsReadFault};
ghost use Rattle.command_texts.specs.Fields.{IsAnswerTold};
ghost use Rattle.command_texts.specs.Reasons.{place_of, told_place};
ghost use Rattle.command_texts.specs.Several.{AreListed, IsListStatus, IsListed, StopsSeveral, TellsOneUnread, TellsSeveral, TellsUnread, greater, in_object, list_end, listed_as, style_of};
ghost use Rattle.text_access.specs.Names.{files_of, names_of};
ghost use Rattle.command_texts.specs.Told.{IsNamed};
ghost use Rattle.text_access.specs.Written.{BothGain, Gains};

use crate::answer::{ACCEPTED, Answer, Fault, given, tell, written};
use crate::console::Console;
use crate::naming::read_named;
use crate::noting::tell_note;
use crate::performing::{OnOne, noted_answer};
use crate::shown::{push_quoted, push_shown};
use crate::taking::Taker;
use crate::why::{Telling, Why, tell_why};
use std::alloc::{AllocError, Global};
use std::io::{Read, Write};
use std::thread::Threads;
use text_access::TextSource;
use text_lines::push_number;

/// How answers are listed.
#[derive(Clone, Copy)]
pub enum Listing<'a> {
    /// Each after the name of its text, as in `a: clean`. The last line says how many of how many are well, followed by
    /// these words, as in ` sessions are clean`.
    Named(&'a [u8]),
    /// Each as an object that has the name of its text in its first field, as in `{"file":"a","verdict":"clean"}`.
    Objects,
}

// Appends an object, with the name of its text before its other fields.
fn push_object(out: &mut Vec<u8>, name: &str, object: &[u8]) -> Result<(), AllocError>
    ensures { OnOk result (out.new.items ≡ out.old.items ++ in_object name.now object.now) }
{
    let [brace, fields @ ..] = object else {
        return Ok(());
    };
    out.push(*brace)?;
    out.extend_from_slice(b"\"file\":")?;
    push_quoted(out, name)?;
    out.push(b',')?;
    out.extend_from_slice(fields)
}

impl Listing<'_> {
    // Appends an answer.
    fn push_answer(self, out: &mut Vec<u8>, name: &str, answer: &Answer) -> Result<(), AllocError>
        ensures { OnOk result (out.new.items ≡ out.old.items ++ listed_as (style_of self.entry) name.now answer.now.text.items) }
    {
        match self {
            Listing::Named(_) => {
                push_shown(out, name)?;
                out.extend_from_slice(b": ")?;
                out.extend_from_slice(answer.text.as_slice())
            }
            Listing::Objects => push_object(out, name, answer.text.as_slice()),
        }
    }

    // Appends the end of the list, given how many of how many answers say that all is well.
    fn push_end(self, out: &mut Vec<u8>, well: usize, all: usize) -> Result<(), AllocError>
        ensures { OnOk result (out.new.items ≡ out.old.items ++ list_end (style_of self.entry) well all) }
    {
        let Listing::Named(sum) = self else {
            return Ok(());
        };
        push_number(out, well)?;
        out.extend_from_slice(b" of ")?;
        push_number(out, all)?;
        out.extend_from_slice(sum)
    }
}

// Writes an answer in the form that it has in a list, and returns its status.
fn write_listed<O: Write>(
    alloc: Global,
    listing: Listing<'_>,
    name: &str,
    answer: &Answer,
    output: &mut O,
) -> Result<u8, Fault<'static>>
    ensures status { IfOk result (λ s. s ≡ answer.now.status) }
    ensures text { IfOk result (λ _. Appends (O.contents output.old) (O.contents output.new) (listed_as (style_of listing.entry) name.now answer.now.text.items)) }
    ensures stop { IfErr result IsListStop }
    ensures gains { Gains (O.contents output.old) (O.contents output.new) }
{
    let mut text = Vec::new(alloc);
    given(listing.push_answer(&mut text, name, answer))?;
    let status = answer.status;
    written(&Answer { text, status }, output)
}

// Writes the answer to what was found in the text under a name, and why the text is refused, or its note. Returns the
// status.
fn list_found<'a, C: OnOne, R: Threads + Sync, S: TextSource, I: Read + Send, O: Write, E: Write>(
    console: &mut Console<'_, R, S, I, O, E>,
    command: &C,
    listing: Listing<'_>,
    name: &'a str,
    found: &<C::Text as Taker>::Found,
    why: &Option<Why<'a>>,
) -> Result<u8, Fault<'a>>
    requires ready { C.ready }
    ensures listed { (text : List ℕ) (line : Option ℕ) → IsNamed name.entry.now (files_of (S.bytes_of console.old.texts.now) (S.names_in console.old.texts.now)) (C.Text.taken_in (S.text_in console.old.texts.now)) None text → C.Text.is_found text found.now → C.Text.is_refused text line → option_map told_place why.now ≡ place_of name.entry.now line → IfOk result (IsListed (files_of (S.bytes_of console.old.texts.now) (S.names_in console.old.texts.now)) (C.Text.taken_in (S.text_in console.old.texts.now)) (IsAnswerTold (C.how_much command.now) C.Text.is_refused (C.is_answer command.now)) C.Text.is_refused (C.has_note command.now) (style_of listing.entry) name.entry.now (O.contents console.old.output, E.contents console.old.errors) (O.contents console.new.output, E.contents console.new.errors)) }
    ensures few { (text : List ℕ) → C.Text.is_found text found.now → IfOk result (λ status. status < 2) }
    ensures stop { IfErr result IsListStop }
    ensures stays { console.new.texts ≡ console.old.texts }
    ensures gains { BothGain (O.contents console.old.output, E.contents console.old.errors) (O.contents console.new.output, E.contents console.new.errors) }
{
    let (answer, noted) = noted_answer(console.alloc, command, found, why)?;
    let status = write_listed(console.alloc, listing, name, &answer, &mut console.output)?;
    tell_why(console.alloc, why, Telling::Short, &mut console.errors);
    tell_note(name, &noted, &mut console.errors);
    Ok(status)
}

// Reports that the text under a name could not be read, and returns the status for that. Fails if memory ran out, which
// ends the list.
fn list_unread<'a, E: Write>(
    name: &'a str,
    fault: Fault<'a>,
    errors: &mut E,
) -> Result<u8, Fault<'a>>
    requires { IsReadFault (λ n. n ≡ name.now) fault }
    ensures told { IfOk result (λ status. (status ≡ 3) × TellsUnread name.entry.now (E.contents errors.old) (E.contents errors.new)) }
    ensures stop { IfErr result IsListStop }
    ensures gains { Gains (E.contents errors.old) (E.contents errors.new) }
{
    match fault {
        Fault::File(_, why) => Ok(tell(Fault::File(name, why), errors)),
        Fault::Link | Fault::Threads | Fault::Output(_, _) | Fault::Memory => Err(fault),
    }
}

// Handles the text under a name as one of a list, and returns its status.
fn list_one<'a, C: OnOne, R: Threads + Sync, S: TextSource, I: Read + Send, O: Write, E: Write>(
    console: &mut Console<'_, R, S, I, O, E>,
    command: &C,
    listing: Listing<'_>,
    name: &'a str,
) -> Result<u8, Fault<'a>>
where
    S::Text: Send,
    requires ready { C.ready }
    ensures listed { IfOk result (IsListed (files_of (S.bytes_of console.old.texts.now) (S.names_in console.old.texts.now)) (C.Text.taken_in (S.text_in console.old.texts.now)) (IsAnswerTold (C.how_much command.now) C.Text.is_refused (C.is_answer command.now)) C.Text.is_refused (C.has_note command.now) (style_of listing.entry) name.entry.now (O.contents console.old.output, E.contents console.old.errors) (O.contents console.new.output, E.contents console.new.errors)) }
    ensures known { IfOk result IsListStatus }
    ensures unread { IfOk result (λ status. status ≡ 3 → TellsUnread name.entry.now (E.contents console.old.errors) (E.contents console.new.errors)) }
    ensures stop { IfErr result IsListStop }
    ensures stays { console.new.texts ≡ console.old.texts }
    ensures gains { BothGain (O.contents console.old.output, E.contents console.old.errors) (O.contents console.new.output, E.contents console.new.errors) }
{
    match read_named::<C::Text, R, S, I>(
        console.rt,
        console.alloc,
        name,
        console.texts,
        &mut console.input,
    ) {
        Ok((found, why)) => list_found(console, command, listing, name, &found, &why),
        Err(fault) => list_unread(name, fault, &mut console.errors),
    }
}

// Returns how many of one answer with this status say that all is well: 0 or 1.
fn count_of(status: u8) -> usize
    ensures count { result ≡ (if status == 0 then 1 else 0) }
    ensures few { result ≤ 1 }
{
    if status == ACCEPTED { 1 } else { 0 }
}

// Returns the greater of two statuses.
fn greater(one: u8, other: u8) -> u8
    ensures { result ≡ greater one other }
{
    if one < other { other } else { one }
}

// Handles the texts under these names. Returns how many answers say that all is well, and the greatest status.
fn list_each<'a, C: OnOne, R: Threads + Sync, S: TextSource, I: Read + Send, O: Write, E: Write>(
    console: &mut Console<'_, R, S, I, O, E>,
    command: &C,
    listing: Listing<'_>,
    names: &[&'a str],
) -> Result<(usize, u8), Fault<'a>>
where
    S::Text: Send,
    requires ready { C.ready }
    ensures listed { IfOk result (λ tally. AreListed (files_of (S.bytes_of console.old.texts.now) (S.names_in console.old.texts.now)) (C.Text.taken_in (S.text_in console.old.texts.now)) (IsAnswerTold (C.how_much command.now) C.Text.is_refused (C.is_answer command.now)) C.Text.is_refused (C.has_note command.now) (style_of listing.entry) (names_of names.now) (O.contents console.old.output, E.contents console.old.errors) (O.contents console.new.output, E.contents console.new.errors) tally.0 tally.1) }
    ensures known { IfOk result (λ tally. IsListStatus tally.1) }
    ensures unread { IfOk result (λ tally. tally.1 ≡ 3 → TellsOneUnread (E.contents console.old.errors) (E.contents console.new.errors)) }
    ensures stops { IfErr result (StopsSeveral (files_of (S.bytes_of console.old.texts.now) (S.names_in console.old.texts.now)) (C.Text.taken_in (S.text_in console.old.texts.now)) (IsAnswerTold (C.how_much command.now) C.Text.is_refused (C.is_answer command.now)) C.Text.is_refused (C.has_note command.now) (style_of listing.entry) (names_of names.now) (O.contents console.old.output, E.contents console.old.errors) (O.contents console.new.output, E.contents console.new.errors)) }
    ensures gains { BothGain (O.contents console.old.output, E.contents console.old.errors) (O.contents console.new.output, E.contents console.new.errors) }
{
    let mut well = 0;
    let mut worst = ACCEPTED;
    for name in names {
        let status = list_one(console, command, listing, name)?;
        well += count_of(status);
        worst = greater(worst, status);
    }
    Ok((well, worst))
}

// Writes the end of a list, given how many of how many answers say that all is well, and returns this status.
fn write_end<O: Write>(
    alloc: Global,
    listing: Listing<'_>,
    well: usize,
    all: usize,
    status: u8,
    output: &mut O,
) -> Result<u8, Fault<'static>>
    ensures status { IfOk result (λ s. s ≡ status) }
    ensures text { IfOk result (λ _. Appends (O.contents output.old) (O.contents output.new) (list_end (style_of listing.entry) well all)) }
    ensures stop { IfErr result IsListStop }
    ensures gains { Gains (O.contents output.old) (O.contents output.new) }
{
    let mut text = Vec::new(alloc);
    given(listing.push_end(&mut text, well, all))?;
    written(&Answer { text, status }, output)
}

/// Runs a command on each of the texts under these names, in order. Writes each answer before it reads the next text.
/// If a text is refused, the errors say why. If all is well, they have the note on it. If a text could not be read,
/// they say so, and why, and the next text is read.
///
/// The status is the greatest of all: 0 if each answer says that all is well, 1 for any other answer, and 3 if a text
/// could not be read. Memory is taken for one text at a time.
///
/// # Errors
///
/// An answer could not be written, or memory ran out. The list ends there.
pub fn perform_several<
    'a,
    C: OnOne,
    R: Threads + Sync,
    S: TextSource,
    I: Read + Send,
    O: Write,
    E: Write,
>(
    console: &mut Console<'_, R, S, I, O, E>,
    command: &C,
    listing: Listing<'_>,
    names: &[&'a str],
) -> Result<u8, Fault<'a>>
where
    S::Text: Send,
    requires ready { C.ready }
    ensures known { IfOk result IsListStatus }
    ensures unread { IfOk result (λ status. status ≡ 3 → TellsOneUnread (E.contents console.old.errors) (E.contents console.new.errors)) }
    ensures told { MatchResult result (TellsSeveral (files_of (S.bytes_of console.old.texts.now) (S.names_in console.old.texts.now)) (C.Text.taken_in (S.text_in console.old.texts.now)) (IsAnswerTold (C.how_much command.now) C.Text.is_refused (C.is_answer command.now)) C.Text.is_refused (C.has_note command.now) (style_of listing.entry) (names_of names.now) (O.contents console.old.output, E.contents console.old.errors) (O.contents console.new.output, E.contents console.new.errors)) (StopsSeveral (files_of (S.bytes_of console.old.texts.now) (S.names_in console.old.texts.now)) (C.Text.taken_in (S.text_in console.old.texts.now)) (IsAnswerTold (C.how_much command.now) C.Text.is_refused (C.is_answer command.now)) C.Text.is_refused (C.has_note command.now) (style_of listing.entry) (names_of names.now) (O.contents console.old.output, E.contents console.old.errors) (O.contents console.new.output, E.contents console.new.errors)) }
    ensures gains { BothGain (O.contents console.old.output, E.contents console.old.errors) (O.contents console.new.output, E.contents console.new.errors) }
{
    let (well, status) = list_each(console, command, listing, names)?;
    write_end(
        console.alloc,
        listing,
        well,
        names.len(),
        status,
        &mut console.output,
    )
}
