//! The lines of the pages' entries, read and written.

ghost use Rattle.std.specs.Prelude.{◌≡◌, ◌≢◌, ◌≤◌, ◌<◌, ℕ, List, [], ◌∷◌, ◌++◌, Option, length, MatchOption, IfSome, IsSomeAnd, IfErr, OnOk, OnErr};
ghost use Rattle.std.specs.Fmt.{decimal};
ghost use Rattle.migration_types.specs.declared.cert.Entry.{Entry as Said};
ghost use Rattle.migration_types.specs.declared.cert.First.{First as Used};
ghost use Rattle.text_lines.specs.Text.{ended};
ghost use Rattle.migration_types.specs.Limits.{most_pages};
ghost use Rattle.migration_types.specs.Sessions.{IsNumber};
ghost use Rattle.migration_types.specs.Certs.{FirstFits, EntryFits};
ghost use Rattle.cert_text.specs.Grammar.{first_text, placed_text, entry_text, entry_line, entry_lines};
ghost use Rattle.cert_text.specs.inner.Taken.{LosesLast, TakesEntries, TakesEntry};

use migration_types::{Entry, First, Size, Version};
use std::alloc::AllocError;
use text_lines::{
    FaultKind, Wanted, after_end, after_key, end_line, front_number, number_then, push_number,
    push_then,
};

/// Returns the number at the front, at most `limit`, and what follows the space after it.
#[inline(always)]
fn limited_then(text: &[u8], limit: u32) -> Option<(u32, &[u8])>
    ensures found { IfSome result (λ found. (found.0 ≤ limit) × (text.now ≡ decimal found.0 ++ 32 ∷ found.1.now)) }
    ensures whole { (n : ℕ) (rest : List ℕ) → n ≤ limit → text.now ≡ decimal n ++ 32 ∷ rest → IsSomeAnd result (λ found. (found.0 ≡ n) × (found.1.now ≡ rest)) }
{
    let (number, rest) = number_then(text, u64::from(limit))?;
    Some((number as u32, rest))
}

/// Returns a record's number at the front, and what follows the space after it.
#[inline(always)]
fn numbered_then(text: &[u8], size: Size) -> Option<(u32, &[u8])>
    ensures found { IfSome result (λ found. IsNumber size found.0 × (text.now ≡ decimal found.0 ++ 32 ∷ found.1.now)) }
    ensures whole { (n : ℕ) (rest : List ℕ) → IsNumber size n → text.now ≡ decimal n ++ 32 ∷ rest → IsSomeAnd result (λ found. (found.0 ≡ n) × (found.1.now ≡ rest)) }
{
    let (number, rest) = limited_then(text, u32::MAX)?;
    if number >= size.limits().records {
        return None;
    }
    Some((number, rest))
}

/// Returns a record's number at the front, and what follows. Nothing follows if the text is the number alone.
#[inline(always)]
fn record_then(text: &[u8], size: Size) -> Option<(u32, &[u8])>
    ensures found { IfSome result (λ found. IsNumber size found.0 × (text.now ≡ decimal found.0 ++ found.1.now)) }
    ensures whole { (n : ℕ) → IsNumber size n → text.now ≡ decimal n → IsSomeAnd result (λ found. found.1.now ≡ []) }
{
    let (number, rest) = front_number(text)?;
    if number >= u64::from(size.limits().records) {
        return None;
    }
    Some((number as u32, rest))
}

/// The text for a page that was not read, written or released at the target.
const NO_FIRST: &[u8] = b"- -";

/// Returns a page's first use and the look before it at the front, and what follows. Nothing follows if the text is
/// that alone.
#[inline(always)]
fn first_then(text: &[u8], size: Size) -> Option<(Option<First>, &[u8])>
    ensures found { IfSome result (λ found. FirstFits size found.0 × (text.now ≡ first_text found.0 ++ found.1.now)) }
    ensures whole { (first : Option Used) → FirstFits size first → text.now ≡ first_text first → IsSomeAnd result (λ found. found.1.now ≡ []) }
{
    if let Some(rest) = after_key(text, NO_FIRST) {
        return Some((None, rest));
    }
    let (access, rest) = numbered_then(text, size)?;
    let (see, rest) = record_then(rest, size)?;
    Some((Some(First { access, see }), rest))
}

/// Returns a page's placement, its first use and the look before it at the front, and what follows. Nothing follows if
/// the text is that alone.
#[inline(always)]
fn placed_then(text: &[u8], size: Size) -> Option<(u32, Option<First>, &[u8])>
    ensures found { IfSome result (λ found. IsNumber size found.0 × FirstFits size found.1 × (text.now ≡ placed_text found.0 found.1 ++ found.2.now)) }
    ensures whole { (place : ℕ) (first : Option Used) → IsNumber size place → FirstFits size first → text.now ≡ placed_text place first → IsSomeAnd result (λ found. found.2.now ≡ []) }
{
    let (place, rest) = numbered_then(text, size)?;
    let (first, rest) = first_then(rest, size)?;
    Some((place, first, rest))
}

/// The entry of a page that was not placed, and not used at the target.
const NONE: &[u8] = b"none";

/// The beginning of the entry of a page that was not placed, and whose first use at the target released it.
const FRESH_KEY: &[u8] = b"fresh ";

/// The beginning of the entry of a page that was sent.
const SOURCE_KEY: &[u8] = b"source ";

/// The beginning of the entry of a page that was released at the halt.
const BALLOON_KEY: &[u8] = b"balloon ";

/// Returns what the entry at the front says, and what follows. Nothing follows if the text is that entry alone.
#[inline(always)]
fn said_then(text: &[u8], version: Version, size: Size) -> Option<(Entry, &[u8])>
    ensures found { IfSome result (λ found. EntryFits version size found.0 × (text.now ≡ entry_text found.0 ++ found.1.now)) }
    ensures whole { (entry : Said) → EntryFits version size entry → text.now ≡ entry_text entry → IsSomeAnd result (λ found. found.1.now ≡ []) }
{
    if let Some(rest) = after_key(text, NONE) {
        return Some((Entry::Nothing, rest));
    }
    if let Some(rest) = after_key(text, BALLOON_KEY) {
        let (place, first, rest) = placed_then(rest, size)?;
        return Some((Entry::Balloon { place, first }, rest));
    }
    if let Some(rest) = after_key(text, SOURCE_KEY) {
        let (send, rest) = numbered_then(rest, size)?;
        let (place, first, rest) = placed_then(rest, size)?;
        return Some((Entry::Source { send, place, first }, rest));
    }
    if version == Version::One {
        return None;
    }
    let (first, rest) = record_then(after_key(text, FRESH_KEY)?, size)?;
    Some((Entry::Fresh { first }, rest))
}

/// The beginning of the line of a page's entry.
const PAGE_KEY: &[u8] = b"page ";

/// Returns the entry of this page at the front, and what follows. Nothing follows if the text is that line alone.
#[inline(always)]
fn entry_then(text: &[u8], version: Version, size: Size, page: u32) -> Option<(Entry, &[u8])>
    ensures found { IfSome result (λ found. EntryFits version size found.0 × (text.now ≡ entry_line page found.0 ++ found.1.now)) }
    ensures whole { (entry : Said) → EntryFits version size entry → text.now ≡ entry_line page entry → IsSomeAnd result (λ found. found.1.now ≡ []) }
{
    let (number, rest) = limited_then(after_key(text, PAGE_KEY)?, page)?;
    if number != page {
        return None;
    }
    said_then(rest, version, size)
}

/// Returns the entry that the line spells, if it is the line of this page.
fn read_entry(line: &[u8], version: Version, size: Size, page: u32) -> Option<Entry>
    ensures { MatchOption result
        ((entry : Said) → EntryFits version size entry → line.now ≢ entry_line page entry)
        (λ entry. EntryFits version size entry × (line.now ≡ entry_line page entry)) }
{
    let (entry, rest) = entry_then(line, version, size, page)?;
    if !rest.is_empty() {
        return None;
    }
    Some(entry)
}

/// Returns the forms of the entries of a version.
fn entry_forms(version: Version) -> &'static [&'static str] {
    match version {
        Version::One => &[
            "page Q none",
            "page Q source I I I I",
            "page Q source I I - -",
            "page Q balloon I I I",
            "page Q balloon I - -",
        ],
        Version::Two => &[
            "page Q none",
            "page Q source I I I I",
            "page Q source I I - -",
            "page Q balloon I I I",
            "page Q balloon I - -",
            "page Q fresh I",
        ],
    }
}

/// Returns what is allowed at the entry of this page.
pub fn wanted_entry(version: Version, page: u32) -> Wanted {
    Wanted::one("the entry of a page", entry_forms(version)).within(page, page)
}

/// Takes the line of the next page's entry. If it is not one, returns why and leaves the entries as they were.
pub fn take_entry(
    entries: &mut Vec<Entry>,
    version: Version,
    size: Size,
    line: &[u8],
) -> Result<(), FaultKind>
    requires { length entries.old.items < most_pages }
    ensures ok { OnOk result (TakesEntry version size entries.old.items entries.new.items line.now) }
    ensures refused { IfErr result (λ kind. kind ≢ FaultKind.Memory → (entry : Said) → EntryFits version size entry → line.now ≢ entry_line (length entries.old.items) entry) }
    ensures err { OnErr result (entries.new.items ≡ entries.old.items) }
{
    let Some(entry) = read_entry(line, version, size, entries.len() as u32) else {
        return Err(FaultKind::Form);
    };
    match entries.push(entry) {
        Ok(()) => Ok(()),
        Err(_) => Err(FaultKind::Memory),
    }
}

/// Drops the last entry, and returns whether there was one.
pub fn drop_entry(entries: &mut Vec<Entry>) -> bool
    ensures { LosesLast entries.old.items entries.new.items result }
{
    entries.pop().is_some()
}

/// Returns the entry of this page at the front of a text of whole lines, and what follows its line. May return `None`
/// for any text.
#[inline(always)]
fn front_entry(text: &[u8], version: Version, size: Size, page: u32) -> Option<(Entry, &[u8])>
    ensures { IfSome result (λ found. EntryFits version size found.0 × (text.now ≡ entry_line page found.0 ++ 10 ∷ found.1.now)) }
{
    let (entry, rest) = entry_then(text, version, size, page)?;
    Some((entry, after_end(rest)?))
}

/// Takes entries at the front of the bytes, those of the next pages, until there are at most this many in all; it may
/// stop after any entry. Returns what follows, and how many they were.
pub fn take_entries<'a>(
    entries: &mut Vec<Entry>,
    version: Version,
    size: Size,
    pages: u32,
    bytes: &'a [u8],
) -> (&'a [u8], u32)
    requires { length entries.old.items ≤ pages }
    ensures taken { TakesEntries version size entries.old.items entries.new.items bytes.now result.0.now result.1 }
    ensures most { length entries.new.items ≤ pages }
{
    let left = pages - entries.len() as u32;
    let mut rest = bytes;
    for at in 0..left {
        let page = entries.len() as u32;
        let Some((entry, after)) = front_entry(rest, version, size, page) else {
            return (rest, at);
        };
        if entries.push(entry).is_err() {
            return (rest, at);
        }
        rest = after;
    }
    (rest, left)
}

/// Appends a page's first use, and the look before it.
fn push_first(out: &mut Vec<u8>, first: Option<First>) -> Result<(), AllocError>
    ensures { OnOk result (out.new.items ≡ out.old.items ++ first_text first) }
{
    match first {
        None => out.extend_from_slice(NO_FIRST),
        Some(first) => {
            push_then(out, first.access)?;
            push_number(out, first.see)
        }
    }
}

/// Appends a page's placement, its first use, and the look before it.
fn push_placed(out: &mut Vec<u8>, place: u32, first: Option<First>) -> Result<(), AllocError>
    ensures { OnOk result (out.new.items ≡ out.old.items ++ placed_text place first) }
{
    push_then(out, place)?;
    push_first(out, first)
}

/// Appends what an entry says.
fn push_said(out: &mut Vec<u8>, entry: Entry) -> Result<(), AllocError>
    ensures { OnOk result (out.new.items ≡ out.old.items ++ entry_text entry) }
{
    match entry {
        Entry::Nothing => out.extend_from_slice(NONE),
        Entry::Fresh { first } => {
            out.extend_from_slice(FRESH_KEY)?;
            push_number(out, first)
        }
        Entry::Source { send, place, first } => {
            out.extend_from_slice(SOURCE_KEY)?;
            push_then(out, send)?;
            push_placed(out, place, first)
        }
        Entry::Balloon { place, first } => {
            out.extend_from_slice(BALLOON_KEY)?;
            push_placed(out, place, first)
        }
    }
}

/// Appends the line of a page's entry, without its line feed. Fails only if memory runs out.
pub fn push_entry_line(out: &mut Vec<u8>, page: u32, entry: Entry) -> Result<(), AllocError>
    ensures { OnOk result (out.new.items ≡ out.old.items ++ entry_line page entry) }
{
    out.extend_from_slice(PAGE_KEY)?;
    push_then(out, page)?;
    push_said(out, entry)
}

/// Appends the line of a page's entry.
fn push_entry(out: &mut Vec<u8>, page: u32, entry: Entry) -> Result<(), AllocError>
    ensures { OnOk result (out.new.items ≡ out.old.items ++ (entry_line page entry ++ 10 ∷ [])) }
{
    push_entry_line(out, page, entry)?;
    end_line(out)
}

/// Appends the lines of the pages' entries, page 0 first. Fails only if memory runs out.
pub fn push_entries(out: &mut Vec<u8>, entries: &[Entry]) -> Result<(), AllocError>
    requires { length entries.now ≤ most_pages }
    ensures { OnOk result (out.new.items ≡ out.old.items ++ ended (entry_lines 0 entries.now)) }
{
    for page in 0..entries.len() {
        push_entry(out, page as u32, entries[page])?;
    }
    Ok(())
}
