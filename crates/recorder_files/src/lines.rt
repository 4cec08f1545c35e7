//! The lines of a recorder's file.

ghost use Rattle.std.specs.Prelude.{◌≡◌, ◌≢◌, ◌≤◌, ℕ, List, ◌∷◌, ◌++◌, IfSome, IfNone, IsTrue, ◌↔◌};
ghost use Rattle.std.specs.Fmt.{decimal};
ghost use Rattle.recorder_files.specs.Files.{last_number, opening_line, record_line, last_line, IsLast};
ghost use Rattle.recorder_files.specs.Said.{IsBehind};
ghost use Rattle.recorder_files.specs.declared.lines.Last.{Last as Left};

use migration_types::LogName;
use text_lines::{after_key, front_number, number_then, read_keyed};

/// The first line of each file.
pub(crate) const HEADER: &[u8] = b"postcopy-records 1";

/// The greatest number of a record. A recorder returns the number after it if a record was not written.
const LAST_NUMBER: u32 = 4_294_967_294;

/// Who writes a log: the party of one of a session's logs, or the one that describes the machine.
#[derive(Clone, Copy)]
pub enum Party {
    Machine,
    Of(LogName),
}

/// The party whose log a process writes, the number of the process's first record, and the number of the file in which
/// it began.
#[derive(Clone, Copy)]
pub struct Opening {
    pub party: Party,
    pub first: u32,
    pub file: u32,
}

/// How a process left a log.
#[derive(Clone, Copy)]
pub enum Last {
    /// It closed the log after this many records.
    End(u32),
    /// Another process goes on after this many records.
    Next(u32),
    /// A record was not written, because of this system error.
    Lost(u32),
}

/// Returns the two numbers after a key, if a space separates them.
fn two_behind(line: &[u8], key: &[u8]) -> Option<(u32, u32)>
    ensures found { IfSome result (λ two. (two.0 ≤ last_number) × (two.1 ≤ last_number) × (line.now ≡ key.now ++ (decimal two.0 ++ 32 ∷ decimal two.1))) }
    ensures none { IfNone result ((m n : ℕ) → m ≤ last_number → n ≤ last_number → line.now ≢ key.now ++ (decimal m ++ 32 ∷ decimal n)) }
{
    let Some(text) = after_key(line, key) else {
        return None;
    };
    match number_then(text, u64::from(LAST_NUMBER)) {
        Some(found) => match read_keyed(found.1, b"", LAST_NUMBER) {
            Ok(file) => Some((found.0 as u32, file)),
            Err(_) => None,
        },
        None => None,
    }
}

impl Party {
    /// Returns the beginning of the third line of its files.
    fn key(self) -> &'static [u8]
        ensures { (first file : ℕ) → opening_line self first file ≡ result.now ++ (decimal first ++ 32 ∷ decimal file) }
    {
        match self {
            Party::Machine => b"log machine ",
            Party::Of(LogName::Guest) => b"log guest ",
            Party::Of(LogName::Source) => b"log source ",
            Party::Of(LogName::Link) => b"log link ",
            Party::Of(LogName::Lane) => b"log lane ",
            Party::Of(LogName::Pager) => b"log pager ",
        }
    }
}

impl Opening {
    /// Returns the opening that a file's third line spells, for the party in the file's name.
    pub fn read(party: Party, line: &[u8]) -> Option<Opening>
        ensures found { IfSome result (λ o. (o.party ≡ party) × (o.first ≤ last_number) × (o.file ≤ last_number) × (line.now ≡ opening_line party o.first o.file)) }
        ensures none { IfNone result ((first file : ℕ) → first ≤ last_number → file ≤ last_number → line.now ≢ opening_line party first file) }
    {
        match two_behind(line, party.key()) {
            Some((first, file)) => Some(Opening { party, first, file }),
            None => None,
        }
    }
}

/// Returns the number and the text of a record, if a line after a file's head spells one. They are what `number_then` finds.
/// But these numbers are long, so their digits are read eight at once.
#[inline(always)]
pub fn read_numbered(line: &[u8]) -> Option<(u64, &[u8])>
    ensures found { IfSome result (λ found. (found.0 ≤ last_number) × (line.now ≡ record_line found.0 found.1.now)) }
    ensures none { IfNone result ((n : ℕ) (text : List ℕ) → n ≤ last_number → line.now ≢ record_line n text) }
{
    let Some((number, after)) = front_number(line) else {
        return None;
    };
    if number > u64::from(LAST_NUMBER) {
        return None;
    }
    let Some((space, text)) = after.split_first() else {
        return None;
    };
    if *space != b' ' {
        return None;
    }
    Some((number, text))
}

impl Last {
    ghost use Rattle.recorder_files.specs.declared.lines.Last.{Last};

    /// Returns how a log was left, if that is the last line of a file.
    pub fn read(line: &[u8]) -> Option<Last>
        ensures found { IfSome result (λ last. IsLast last × (line.now ≡ last_line last)) }
        ensures none { IfNone result ((last : Last) → IsLast last → line.now ≢ last_line last) }
    {
        if let Ok(count) = read_keyed(line, b"end ", LAST_NUMBER) {
            return Some(Last::End(count));
        }
        if let Ok(count) = read_keyed(line, b"next ", LAST_NUMBER) {
            return Some(Last::Next(count));
        }
        match read_keyed(line, b"lost ", LAST_NUMBER) {
            Ok(errno) => Some(Last::Lost(errno)),
            Err(_) => None,
        }
    }
}

/// Returns how a log was left, if that is the last line of a file whose records have numbers below this one.
pub(crate) fn last_behind(line: &[u8], next: u64) -> Option<Last>
    ensures found { IfSome result (λ last. IsLast last × IsBehind next last × (line.now ≡ last_line last)) }
    ensures none { IfNone result ((last : Left) → IsLast last → IsBehind next last → line.now ≢ last_line last) }
{
    match Last::read(line) {
        Some(last) => {
            if is_behind(last, next) {
                Some(last)
            } else {
                None
            }
        }
        None => None,
    }
}

/// Returns whether a count is above the numbers of all records in a file, which are below this one.
fn is_behind(last: Last, next: u64) -> bool
    ensures { IsTrue result ↔ IsBehind next last }
{
    match last {
        Last::End(count) => next <= u64::from(count),
        Last::Next(count) => next <= u64::from(count),
        Last::Lost(_) => true,
    }
}
