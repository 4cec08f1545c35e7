//! The texts under names.

ghost use Rattle.std.specs.Prelude.{◌≡◌, ◌⊎◌, ◌&&◌, ℕ, List, Option, false, IfOk, IfErr};
ghost use Rattle.command_texts.specs.Answers.{IsReadFault};
ghost use Rattle.command_texts.specs.Reasons.{IsWhy, line_of};
ghost use Rattle.command_texts.specs.Told.{AreNamed, AreOfInput, AreRead, IsNamed, is_dash};
ghost use Rattle.text_access.specs.Names.{files_of};

use crate::answer::Fault;
use crate::cutting::Both;
use crate::reading::{ReadFault, fault_of, read_text, take_text};
use crate::taking::Taker;
use crate::why::{Refusals, Why, both_under, under};
use std::alloc::Global;
use std::io;
use std::io::Read;
use std::thread::Threads;
use text_access::TextSource;
use text_lines::Refusal;

// Returns the fault for the text under a name.
fn fault_at(name: &str, fault: ReadFault) -> Fault<'_>
    ensures { IsReadFault (λ n. n ≡ name.entry.now) result }
{
    match fault {
        ReadFault::File(cause) => Fault::File(name, cause.words()),
        ReadFault::Memory => Fault::Memory,
    }
}

// Returns what is found in a reader's text, which a name stands for, and why the text is refused, if it is.
fn read_from<'a, T: Taker, R: Threads + Sync, I: Read + Send>(
    rt: &R,
    alloc: Global,
    name: &'a str,
    reader: &mut I,
) -> Result<(T::Found, Option<Refusal>), Fault<'a>>
    ensures read { IfOk result (λ read. (text : List ℕ) × AreRead (I.remaining reader.old) text × T.is_found text read.0 × T.is_refused text (line_of read.1)) }
    ensures fault { IfErr result (IsReadFault (λ n. n ≡ name.entry.now)) }
{
    match read_text::<R, I, T>(rt, alloc, reader) {
        Ok(read) => Ok(read),
        Err(fault) => Err(fault_at(name, fault)),
    }
}

// Returns the fault for an error in opening the text under a name.
fn unopened<'a>(name: &'a str, error: &io::Error) -> Fault<'a>
    ensures { IsReadFault (λ n. n ≡ name.entry.now) result }
{
    fault_at(name, fault_of(error))
}

// Reads the text under a name, which must not be that of the input. Returns what is found in it, and why it is refused,
// if it is.
fn read_opened<'a, T: Taker, R: Threads + Sync, S: TextSource>(
    rt: &R,
    alloc: Global,
    name: &'a str,
    texts: &S,
) -> Result<(T::Found, Option<Refusal>), Fault<'a>>
where
    S::Text: Send,
    ensures named { (input : Option (List ℕ)) → is_dash name.entry.now ≡ false → IfOk result (λ read. (text : List ℕ) × IsNamed name.entry.now (files_of (S.bytes_of texts.now) (S.names_in texts.now)) (T.taken_in (S.text_in texts.now)) input text × T.is_found text read.0 × T.is_refused text (line_of read.1)) }
    ensures fault { IfErr result (IsReadFault (λ n. n ≡ name.entry.now)) }
{
    match T::open(texts, name) {
        Ok(mut text) => read_from::<T, R, S::Text>(rt, alloc, name, &mut text),
        Err(error) => Err(unopened(name, &error)),
    }
}

// Returns what is found in the text that a name stands for, and why the text is refused, if it is. A session under the
// name stands for its text, if the taker takes it.
fn read_under<'a, T: Taker, R: Threads + Sync, S: TextSource, I: Read + Send>(
    rt: &R,
    alloc: Global,
    name: &'a str,
    texts: &S,
    input: &mut I,
) -> Result<(T::Found, Option<Refusal>), Fault<'a>>
where
    S::Text: Send,
    ensures named { IfOk result (λ read. (text : List ℕ) × IsNamed name.entry.now (files_of (S.bytes_of texts.now) (S.names_in texts.now)) (T.taken_in (S.text_in texts.now)) (I.remaining input.old) text × T.is_found text read.0 × T.is_refused text (line_of read.1)) }
    ensures apart { is_dash name.entry.now ≡ false → input.new ≡ input.old }
    ensures fault { IfErr result (IsReadFault (λ n. n ≡ name.entry.now)) }
{
    if name == "-" {
        return read_from::<T, R, I>(rt, alloc, name, input);
    }
    match T::find_session(alloc, texts, name) {
        Ok(Some(found)) => Ok((found, None)),
        Ok(None) => read_opened::<T, R, S>(rt, alloc, name, texts),
        Err(error) => Err(unopened(name, &error)),
    }
}

/// Returns what is found in the text that a name stands for, and why the text is refused, if it is. The name `-` is that
/// of the input. A taker of sessions takes the session under a name, and nothing is read.
pub fn read_named<'a, T: Taker, R: Threads + Sync, S: TextSource, I: Read + Send>(
    rt: &R,
    alloc: Global,
    name: &'a str,
    texts: &S,
    input: &mut I,
) -> Result<(T::Found, Option<Why<'a>>), Fault<'a>>
where
    S::Text: Send,
    ensures named { IfOk result (λ read. (text : List ℕ) × IsNamed name.entry.now (files_of (S.bytes_of texts.now) (S.names_in texts.now)) (T.taken_in (S.text_in texts.now)) (I.remaining input.old) text × T.is_found text read.0 × IsWhy T.is_refused name.entry.now text read.1) }
    ensures apart { is_dash name.entry.now ≡ false → input.new ≡ input.old }
    ensures fault { IfErr result (IsReadFault (λ n. n ≡ name.entry.now)) }
{
    let (found, refusal) = read_under::<T, R, S, I>(rt, alloc, name, texts, input)?;
    Ok((found, under(name, refusal)))
}

// Returns what is found in the two texts of the input, and why each is refused, if it is. The first text ends with the
// input's first line `end`.
fn read_both<A: Taker, B: Taker, R: Threads + Sync, I: Read + Send>(
    rt: &R,
    alloc: Global,
    input: &mut I,
) -> Result<<Both<A, B> as Taker>::Found, ReadFault>
    ensures { IfOk result (λ read. (texts : List ℕ × List ℕ) × AreOfInput (I.remaining input.old) texts × A.is_found texts.0 read.0.0 × B.is_found texts.1 read.0.1 × A.is_refused texts.0 (line_of read.1.0) × B.is_refused texts.1 (line_of read.1.1)) }
{
    let mut both = Both::<A, B>::new(alloc);
    take_text(rt, alloc, input, &mut both)?;
    let (found, _) = both.end()?;
    Ok(found)
}

/// Returns what is found in the two texts of the input, and why each is refused, if it is. Faults have this name for the
/// input.
fn read_input<'a, A: Taker, B: Taker, R: Threads + Sync, I: Read + Send>(
    rt: &R,
    alloc: Global,
    name: &'a str,
    input: &mut I,
) -> Result<((A::Found, B::Found), Refusals<'a>), Fault<'a>>
    ensures named { IfOk result (λ read. (texts : List ℕ × List ℕ) × AreOfInput (I.remaining input.old) texts × A.is_found texts.0 read.0.0 × B.is_found texts.1 read.0.1 × IsWhy A.is_refused name.entry.now texts.0 read.1.first × IsWhy B.is_refused name.entry.now texts.1 read.1.second) }
    ensures fault { IfErr result (IsReadFault (λ n. n ≡ name.entry.now)) }
{
    match read_both::<A, B, R, I>(rt, alloc, input) {
        Ok((found, refusals)) => Ok((found, both_under(name, refusals))),
        Err(fault) => Err(fault_at(name, fault)),
    }
}

// Returns whether both names are that of the input.
fn are_input(first: &str, second: &str) -> bool
    ensures { result ≡ (is_dash first.entry.now && is_dash second.entry.now) }
{
    first == "-" && second == "-"
}

/// Returns what is found in the texts under two names, and why each is refused, if it is. The texts are read in this
/// order. If both names are `-`, the input holds both texts, and the first ends with the first line `end`.
pub fn read_pair<'a, A: Taker, B: Taker, R: Threads + Sync, S: TextSource, I: Read + Send>(
    rt: &R,
    alloc: Global,
    first: &'a str,
    second: &'a str,
    texts: &S,
    input: &mut I,
) -> Result<((A::Found, B::Found), Refusals<'a>), Fault<'a>>
where
    S::Text: Send,
    ensures named { IfOk result (λ read. (pair : List ℕ × List ℕ) × AreNamed first.entry.now second.entry.now (files_of (S.bytes_of texts.now) (S.names_in texts.now)) (A.taken_in (S.text_in texts.now)) (B.taken_in (S.text_in texts.now)) (I.remaining input.old) pair × A.is_found pair.0 read.0.0 × B.is_found pair.1 read.0.1 × IsWhy A.is_refused first.entry.now pair.0 read.1.first × IsWhy B.is_refused second.entry.now pair.1 read.1.second) }
    ensures fault { IfErr result (IsReadFault (λ n. (n ≡ first.entry.now) ⊎ (n ≡ second.entry.now))) }
{
    if are_input(first, second) {
        return read_input::<A, B, R, I>(rt, alloc, first, input);
    }
    let (found, why) = read_named::<A, R, S, I>(rt, alloc, first, texts, input)?;
    let (other, later) = read_named::<B, R, S, I>(rt, alloc, second, texts, input)?;
    Ok(((found, other), Refusals::new(why, later)))
}
