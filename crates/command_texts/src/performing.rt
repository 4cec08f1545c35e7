//! Commands of any kind: the texts under their names are read, and the answer is written. The program ends after a
//! command, and the system takes back all its memory at once. So what was found in the texts is forgotten, and not
//! freed piece by piece.

ghost use Rattle.std.specs.Prelude.{◌≡◌, ⊤, ◌<◌, ◌⊎◌, ℕ, Bool, false, List, [], Option, None, IfOk, IfErr, IfSome, OnOk, is_some};
ghost use Rattle.command_texts.specs.Answers.{IsListStop, IsTextFault};
ghost use Rattle.command_texts.specs.Fields.{IsAnswerTold};
ghost use Rattle.command_texts.specs.Reasons.{IsFirstRefused, IsWhy, TellsBeside, TellsWhyOf};
ghost use Rattle.command_texts.specs.Shown.{shown};
ghost use Rattle.command_texts.specs.declared.why.Telling.{Telling as HowMuch};
ghost use Rattle.command_texts.specs.Told.{AreNamed, Ends, IsNamed};
ghost use Rattle.text_access.specs.Names.{files_of};
ghost use Rattle.text_access.specs.Written.{BothGain, MayTell};

use crate::answer::{Answer, Fault, Given, given, written};
use crate::console::Console;
use crate::fields::as_told;
use crate::naming::{read_named, read_pair};
use crate::noting::tell_note;
use crate::shown::{is_plain, push_quoted};
use crate::taking::Taker;
use crate::why::{Refusals, Telling, Why, tell_why};
use std::alloc::{AllocError, Global};
use std::io::{Read, Write};
use std::mem;
use std::thread::Threads;
use text_access::{TextSource, write_whole};

/// A command on one text.
pub trait OnOne {
    /// Takes the text.
    type Text: Taker;

    // What the command needs to be able to answer.
    ghost ready: { Type 0 } = { ⊤ };

    /// This is the command's answer to a text, with its status.
    ghost is_answer: { Self → List ℕ → List ℕ → ℕ → Type 0 };

    /// How much the command says about a text that is refused: many say one line.
    ghost how_much: { Self → HowMuch } = { λ _. HowMuch.Short };

    /// These are the words of a note on this text, for an answer with this status. Many commands have no note.
    ghost has_note: { Self → List ℕ → ℕ → List ℕ → Type 0 } = { λ _ _ _ _. ⊥ };

    /// Returns how much the command says about a text that is refused.
    fn telling(&self) -> Telling
        ensures { result ≡ how_much self.now };

    /// Returns the answer to what was found in a text. Its status is 0 or 1. Fails only if memory runs out.
    fn answer(&self, alloc: Global, found: &<Self::Text as Taker>::Found) -> Given
        requires ready { ready }
        ensures few { (text : List ℕ) → Self.Text.is_found text found.now → IfOk result (λ answer. answer.status < 2) }
        ensures told { (text : List ℕ) → Self.Text.is_found text found.now → IfOk result (λ answer. is_answer self.now text answer.text.items answer.status) }
        ensures fault { IfErr result (λ fault. fault ≡ Fault.Memory) };

    /// Returns the note on what was found in a text, beside this answer to it, if there is one: a line of words for
    /// people. Fails only if memory runs out.
    fn note(
        &self,
        alloc: Global,
        found: &<Self::Text as Taker>::Found,
        answer: &Answer,
    ) -> Result<Option<Vec<u8>>, AllocError>
        ensures told { (text : List ℕ) → Self.Text.is_found text found.now → IfOk result (λ note. IfSome note (λ words. has_note self.now text answer.now.status words.items)) }
        ensures well { (text : List ℕ) → Self.Text.is_found text found.now → answer.now.status ≡ 0 → IfOk result (λ note. note ≡ None → (words : List ℕ) → has_note self.now text 0 words → ⊥) };
}

/// A command on two texts.
pub trait OnTwo {
    /// Takes the first text.
    type First: Taker;

    /// Takes the second text.
    type Second: Taker;

    /// What the answer says, from which more words can be made.
    type Said: Copy;

    // What the command needs to be able to answer.
    ghost ready: { Type 0 } = { ⊤ };

    /// This is the command's answer to two texts, with its status.
    ghost is_answer: { Self → List ℕ × List ℕ → List ℕ → ℕ → Type 0 };

    /// This is what the command's answer to two texts says, as far as more words need it.
    ghost is_said: { Self → List ℕ × List ℕ → Self.Said → Type 0 } = { λ _ _ _. ⊤ };

    /// These words were added about two texts: given the name of the second, what was there before, and what is there
    /// now. Many commands add nothing.
    ghost adds_more: { Self → List ℕ × List ℕ → List ℕ → List ℕ → List ℕ → Type 0 } = { λ _ _ _ before after. after ≡ before };

    /// How much the command says about a text that is refused: many say one line.
    ghost how_much: { Self → HowMuch } = { λ _. HowMuch.Short };

    /// The answer is about the second text if both are refused. Many answers are about the first.
    ghost about_second: { Self → Bool } = { λ _. false };

    /// These are the words of a note on these texts, for an answer with this status. Many commands have no note.
    ghost has_note: { Self → List ℕ × List ℕ → ℕ → List ℕ → Type 0 } = { λ _ _ _ _. ⊥ };

    /// Returns how much the answer says about a text that is refused, besides one line.
    fn telling(&self) -> Telling
        ensures { result ≡ HowMuch.Fields → how_much self.now ≡ HowMuch.Fields }
    {
        Telling::Short
    }

    /// Returns whether the answer is about the second text if both are refused.
    fn is_about_second(&self) -> bool
        ensures { result ≡ about_second self.now };

    /// Returns the answer to what was found in two texts, with what it says. Its status is 0 or 1. Fails only if memory
    /// runs out.
    fn answer(
        &self,
        alloc: Global,
        first: &<Self::First as Taker>::Found,
        second: &<Self::Second as Taker>::Found,
    ) -> Result<(Answer, Self::Said), Fault<'static>>
        requires ready { ready }
        ensures few { (texts : List ℕ × List ℕ) → Self.First.is_found texts.0 first.now → Self.Second.is_found texts.1 second.now → IfOk result (λ given. given.0.status < 2) }
        ensures told { (texts : List ℕ × List ℕ) → Self.First.is_found texts.0 first.now → Self.Second.is_found texts.1 second.now → IfOk result (λ given. is_answer self.now texts given.0.text.items given.0.status) }
        ensures said { (texts : List ℕ × List ℕ) → Self.First.is_found texts.0 first.now → Self.Second.is_found texts.1 second.now → IfOk result (λ given. is_said self.now texts given.1) }
        ensures fault { IfErr result (λ fault. fault ≡ Fault.Memory) };

    /// Appends more words for people about what the answer says. `name` is the name of the second text, as shown. Fails
    /// only if memory runs out.
    fn push_more(
        &self,
        out: &mut Vec<u8>,
        name: &[u8],
        first: &<Self::First as Taker>::Found,
        second: &<Self::Second as Taker>::Found,
        said: Self::Said,
    ) -> Result<(), AllocError>
        ensures { (texts : List ℕ × List ℕ) → Self.First.is_found texts.0 first.now → Self.Second.is_found texts.1 second.now → is_said self.now texts said → OnOk result (adds_more self.now texts name.now out.old.items out.new.items) };

    /// Returns the note on what was found in two texts, beside this answer to them, if there is one: a line of words
    /// for people. Fails only if memory runs out.
    fn note(
        &self,
        alloc: Global,
        first: &<Self::First as Taker>::Found,
        second: &<Self::Second as Taker>::Found,
        answer: &Answer,
    ) -> Result<Option<Vec<u8>>, AllocError>
        ensures told { (texts : List ℕ × List ℕ) → Self.First.is_found texts.0 first.now → Self.Second.is_found texts.1 second.now → IfOk result (λ note. IfSome note (λ words. has_note self.now texts answer.now.status words.items)) }
        ensures well { (texts : List ℕ × List ℕ) → Self.First.is_found texts.0 first.now → Self.Second.is_found texts.1 second.now → answer.now.status ≡ 0 → IfOk result (λ note. note ≡ None → (words : List ℕ) → has_note self.now texts 0 words → ⊥) };
}

// Returns a command's answer to what was found in a text, as it is written, and the note on the text.
pub(crate) fn noted_answer<C: OnOne>(
    alloc: Global,
    command: &C,
    found: &<C::Text as Taker>::Found,
    why: &Option<Why<'_>>,
) -> Result<(Answer, Option<Vec<u8>>), Fault<'static>>
    requires ready { C.ready }
    ensures few { (text : List ℕ) → C.Text.is_found text found.now → IfOk result (λ made. made.0.status < 2) }
    ensures told { (text : List ℕ) (line : Option ℕ) → C.Text.is_found text found.now → C.Text.is_refused text line → is_some why.now ≡ is_some line → IfOk result (λ made. IsAnswerTold (C.how_much command.now) C.Text.is_refused (C.is_answer command.now) text made.0.text.items made.0.status) }
    ensures noted { (text : List ℕ) → C.Text.is_found text found.now → IfOk result (λ made. IfSome made.1 (λ words. C.has_note command.now text made.0.status words.items)) }
    ensures fault { IfErr result (λ fault. fault ≡ Fault.Memory) }
{
    let found_answer = command.answer(alloc, found)?;
    let answer = as_told(alloc, found_answer, command.telling(), why)?;
    let noted = given(command.note(alloc, found, &answer))?;
    Ok((answer, noted))
}

// Answers what was read under a name, with words beside the answer.
fn answer_one<C: OnOne, O: Write, E: Write>(
    alloc: Global,
    command: &C,
    name: &str,
    read: &(<C::Text as Taker>::Found, Option<Why<'_>>),
    output: &mut O,
    errors: &mut E,
) -> Result<u8, Fault<'static>>
    requires ready { C.ready }
    ensures few { (text : List ℕ) → C.Text.is_found text read.now.0 → IfOk result (λ status. status < 2) }
    ensures told { (text : List ℕ) → C.Text.is_found text read.now.0 → IsWhy C.Text.is_refused name.now text read.now.1 → Ends IsListStop (λ t. t ≡ text) (IsAnswerTold (C.how_much command.now) C.Text.is_refused (C.is_answer command.now)) (TellsWhyOf C.Text.is_refused (C.has_note command.now) (C.how_much command.now) name.now) (O.contents output.old, E.contents errors.old) (O.contents output.new, E.contents errors.new) result }
    ensures gains { BothGain (O.contents output.old, E.contents errors.old) (O.contents output.new, E.contents errors.new) }
{
    let (answer, noted) = noted_answer(alloc, command, &read.0, &read.1)?;
    let status = written(&answer, output)?;
    tell_why(alloc, &read.1, command.telling(), errors);
    tell_note(name, &noted, errors);
    mem::forget(answer);
    Ok(status)
}

/// Runs a command on the text under a name. If the text is refused, the errors say why. Then they have the note on it.
pub fn perform_one<
    'a,
    C: OnOne,
    R: Threads + Sync,
    S: TextSource,
    I: Read + Send,
    O: Write,
    E: Write,
>(console: &mut Console<'_, R, S, I, O, E>, command: &C, name: &'a str) -> Result<u8, Fault<'a>>
where
    S::Text: Send,
    requires ready { C.ready }
    ensures few { IfOk result (λ status. status < 2) }
    ensures told { Ends (IsTextFault (λ n. n ≡ name.entry.now)) (IsNamed name.entry.now (files_of (S.bytes_of console.old.texts.now) (S.names_in console.old.texts.now)) (C.Text.taken_in (S.text_in console.old.texts.now)) (I.remaining console.old.input)) (IsAnswerTold (C.how_much command.now) C.Text.is_refused (C.is_answer command.now)) (TellsWhyOf C.Text.is_refused (C.has_note command.now) (C.how_much command.now) name.entry.now) (O.contents console.old.output, E.contents console.old.errors) (O.contents console.new.output, E.contents console.new.errors) result }
    ensures gains { BothGain (O.contents console.old.output, E.contents console.old.errors) (O.contents console.new.output, E.contents console.new.errors) }
{
    let read = read_named::<C::Text, R, S, I>(
        console.rt,
        console.alloc,
        name,
        console.texts,
        &mut console.input,
    )?;
    let done = answer_one(
        console.alloc,
        command,
        name,
        &read,
        &mut console.output,
        &mut console.errors,
    );
    mem::forget(read);
    done
}

// Returns more words about an answer.
fn more_words<C: OnTwo>(
    alloc: Global,
    command: &C,
    name: &str,
    first: &<C::First as Taker>::Found,
    second: &<C::Second as Taker>::Found,
    said: C::Said,
) -> Result<Vec<u8>, AllocError>
    ensures { (texts : List ℕ × List ℕ) → C.First.is_found texts.0 first.now → C.Second.is_found texts.1 second.now → C.is_said command.now texts said → IfOk result (λ words. C.adds_more command.now texts (shown name.now) [] words.items) }
{
    let mut words = Vec::new(alloc);
    if is_plain(name) {
        command.push_more(&mut words, name.as_bytes(), first, second, said)?;
    } else {
        let mut quoted = Vec::new(alloc);
        push_quoted(&mut quoted, name)?;
        command.push_more(&mut words, quoted.as_slice(), first, second, said)?;
    }
    Ok(words)
}

// Writes more words about an answer. They are left out if they cannot be written or memory runs out, because the answer
// has the short form.
fn tell_more<C: OnTwo, E: Write>(
    alloc: Global,
    command: &C,
    name: &str,
    first: &<C::First as Taker>::Found,
    second: &<C::Second as Taker>::Found,
    said: C::Said,
    errors: &mut E,
)
    ensures { (texts : List ℕ × List ℕ) → C.First.is_found texts.0 first.now → C.Second.is_found texts.1 second.now → C.is_said command.now texts said → MayTell (C.adds_more command.now texts (shown name.now) []) (E.contents errors.old) (E.contents errors.new) }
{
    if let Ok(words) = more_words(alloc, command, name, first, second, said) {
        write_whole(errors, words.as_slice());
    }
}

// Returns a command's answer to what was found in two texts, as it is written, with what it says, and the note on them.
fn noted_pair<C: OnTwo>(
    alloc: Global,
    command: &C,
    first: &<C::First as Taker>::Found,
    second: &<C::Second as Taker>::Found,
    why: &Option<Why<'_>>,
) -> Result<(Answer, C::Said, Option<Vec<u8>>), Fault<'static>>
    requires ready { C.ready }
    ensures few { (texts : List ℕ × List ℕ) → C.First.is_found texts.0 first.now → C.Second.is_found texts.1 second.now → IfOk result (λ made. made.0.status < 2) }
    ensures told { (texts : List ℕ × List ℕ) (line : Option ℕ) → C.First.is_found texts.0 first.now → C.Second.is_found texts.1 second.now → IsFirstRefused C.First.is_refused C.Second.is_refused texts line → is_some why.now ≡ is_some line → IfOk result (λ made. IsAnswerTold (C.how_much command.now) (IsFirstRefused C.First.is_refused C.Second.is_refused) (C.is_answer command.now) texts made.0.text.items made.0.status) }
    ensures said { (texts : List ℕ × List ℕ) → C.First.is_found texts.0 first.now → C.Second.is_found texts.1 second.now → IfOk result (λ made. C.is_said command.now texts made.1) }
    ensures noted { (texts : List ℕ × List ℕ) → C.First.is_found texts.0 first.now → C.Second.is_found texts.1 second.now → IfOk result (λ made. IfSome made.2 (λ words. C.has_note command.now texts made.0.status words.items)) }
    ensures fault { IfErr result (λ fault. fault ≡ Fault.Memory) }
{
    let (found_answer, said) = command.answer(alloc, first, second)?;
    let answer = as_told(alloc, found_answer, command.telling(), why)?;
    let noted = given(command.note(alloc, first, second, &answer))?;
    Ok((answer, said, noted))
}

// Answers what was read under two names, with words beside the answer.
fn answer_two<C: OnTwo, O: Write, E: Write>(
    alloc: Global,
    command: &C,
    first: &str,
    second: &str,
    read: &(
        (<C::First as Taker>::Found, <C::Second as Taker>::Found),
        Refusals<'_>,
    ),
    output: &mut O,
    errors: &mut E,
) -> Result<u8, Fault<'static>>
    requires ready { C.ready }
    ensures few { (texts : List ℕ × List ℕ) → C.First.is_found texts.0 read.now.0.0 → C.Second.is_found texts.1 read.now.0.1 → IfOk result (λ status. status < 2) }
    ensures told { (texts : List ℕ × List ℕ) → C.First.is_found texts.0 read.now.0.0 → C.Second.is_found texts.1 read.now.0.1 → IsWhy C.First.is_refused first.now texts.0 read.now.1.first → IsWhy C.Second.is_refused second.now texts.1 read.now.1.second → Ends IsListStop (λ t. t ≡ texts) (IsAnswerTold (C.how_much command.now) (IsFirstRefused C.First.is_refused C.Second.is_refused) (C.is_answer command.now)) (TellsBeside C.First.is_refused C.Second.is_refused (C.adds_more command.now) (C.has_note command.now) first.now second.now) (O.contents output.old, E.contents errors.old) (O.contents output.new, E.contents errors.new) result }
    ensures gains { (texts : List ℕ × List ℕ) → C.First.is_found texts.0 read.now.0.0 → C.Second.is_found texts.1 read.now.0.1 → BothGain (O.contents output.old, E.contents errors.old) (O.contents output.new, E.contents errors.new) }
{
    let about = read.1.told(command.is_about_second());
    let (answer, said, noted) = noted_pair(alloc, command, &read.0.0, &read.0.1, about)?;
    let status = written(&answer, output)?;
    tell_why(alloc, read.1.earliest(), Telling::Short, errors);
    tell_more(alloc, command, second, &read.0.0, &read.0.1, said, errors);
    tell_note(first, &noted, errors);
    mem::forget(answer);
    Ok(status)
}

/// Runs a command on the texts under two names, which are read in this order. If a text is refused, the errors say why.
/// If both are refused, they say it of the first. Then they have more words about the answer, and the note on the
/// first text.
pub fn perform_two<
    'a,
    C: OnTwo,
    R: Threads + Sync,
    S: TextSource,
    I: Read + Send,
    O: Write,
    E: Write,
>(
    console: &mut Console<'_, R, S, I, O, E>,
    command: &C,
    first: &'a str,
    second: &'a str,
) -> Result<u8, Fault<'a>>
where
    S::Text: Send,
    requires ready { C.ready }
    ensures few { IfOk result (λ status. status < 2) }
    ensures told { Ends (IsTextFault (λ n. (n ≡ first.entry.now) ⊎ (n ≡ second.entry.now))) (AreNamed first.entry.now second.entry.now (files_of (S.bytes_of console.old.texts.now) (S.names_in console.old.texts.now)) (C.First.taken_in (S.text_in console.old.texts.now)) (C.Second.taken_in (S.text_in console.old.texts.now)) (I.remaining console.old.input)) (IsAnswerTold (C.how_much command.now) (IsFirstRefused C.First.is_refused C.Second.is_refused) (C.is_answer command.now)) (TellsBeside C.First.is_refused C.Second.is_refused (C.adds_more command.now) (C.has_note command.now) first.entry.now second.entry.now) (O.contents console.old.output, E.contents console.old.errors) (O.contents console.new.output, E.contents console.new.errors) result }
    ensures gains { BothGain (O.contents console.old.output, E.contents console.old.errors) (O.contents console.new.output, E.contents console.new.errors) }
{
    let read = read_pair::<C::First, C::Second, R, S, I>(
        console.rt,
        console.alloc,
        first,
        second,
        console.texts,
        &mut console.input,
    )?;
    let done = answer_two(
        console.alloc,
        command,
        first,
        second,
        &read,
        &mut console.output,
        &mut console.errors,
    );
    mem::forget(read);
    done
}
