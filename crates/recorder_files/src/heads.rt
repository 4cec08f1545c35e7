//! The first lines of a file.

ghost use Rattle.std.specs.Prelude.{◌≡◌, ◌≢◌, ◌≤◌, ◌<◌, ◌++◌, ◌∷◌, [], ℕ, ◌+◌, List, Option, None, length, slice_range, IfSome, IfNone, IfOk, IfErr, OnOk, MatchOption};
ghost use Rattle.std.specs.List.{list_all};
ghost use Rattle.recorder_files.specs.Files.{header, is_of_name, is_name, recording_line, IsName};
ghost use Rattle.recorder_files.specs.Said.{longest_line, head_onto, IsFault, IsHead, Says};
ghost use Rattle.recorder_files.specs.declared.lines.Party.{Party as Writer};
ghost use Rattle.recorder_files.specs.inner.Finding.{AreRead};

use crate::files::FileFault;
use crate::lines::{HEADER, Opening, Party};
use crate::pieces::{Cut, take_line};
use std::alloc::{AllocError, Global};
use std::io::Read;
use text_lines::{after_key, is_line};

/// The most bytes of a recording's name.
const LONGEST_NAME: usize = 64;

/// Returns whether the name of a recording may contain this byte.
fn is_of_name(byte: u8) -> bool
    ensures { result ≡ is_of_name byte }
{
    byte.is_ascii_lowercase()
        || byte.is_ascii_uppercase()
        || byte.is_ascii_digit()
        || byte == b'.'
        || byte == b'-'
        || byte == b'_'
}

/// Returns whether the name of a recording may contain all these bytes.
fn are_of_name(bytes: &[u8]) -> bool
    ensures { result ≡ list_all is_of_name bytes.now }
{
    bytes.iter().all(|&byte| is_of_name(byte))
}

/// Returns whether a recording may have this name.
fn is_name(name: &[u8]) -> bool
    ensures { result ≡ is_name name.now }
{
    if name.is_empty() {
        return false;
    }
    if name.len() > LONGEST_NAME {
        return false;
    }
    are_of_name(name)
}

/// Returns the name of the recording in a file's second line.
pub(crate) fn read_name(line: &[u8]) -> Option<&[u8]>
    ensures found { IfSome result (λ name. IsName name.now × (line.now ≡ recording_line name.now)) }
    ensures none { IfNone result ((name : List ℕ) → IsName name → line.now ≢ recording_line name) }
{
    let name = after_key(line, b"recording ")?;
    if is_name(name) { Some(name) } else { None }
}

/// What the head of a file says, and which part of a buffer has the bytes that were read after it.
#[derive(Drop)]
pub(crate) struct FileHead {
    pub(crate) name: Vec<u8>,
    pub(crate) opening: Opening,
    pub(crate) start: usize,
    pub(crate) end: usize,
}

/// Takes the first line of a file, which must be the header.
fn take_header<R: Read>(reader: &mut R, buffer: &mut [u8]) -> Result<Option<Cut>, FileFault>
    requires room { longest_line < length buffer.old }
    ensures order { IfOk result (λ found. IfSome found (λ cut. cut.end < cut.held)) }
    ensures within { IfOk result (λ found. IfSome found (λ cut. cut.held ≤ length buffer.new)) }
    ensures taken { IfOk result (λ found. (party : Writer) → MatchOption found (Says party (R.remaining reader.old) None) (λ cut. AreRead (R.remaining reader.old) (R.remaining reader.new) (slice_range buffer.new (cut.end + 1) cut.held) (header ∷ []))) }
    ensures refused { IfErr result (λ fault. (party : Writer) → IsFault party (R.remaining reader.old) fault) }
    ensures len { length buffer.new ≡ length buffer.old }
{
    let Some(cut) = take_line(reader, buffer, 0, 0, 1)? else {
        return Ok(None);
    };
    if !is_line(&buffer[cut.start..cut.end], HEADER) {
        return Err(FileFault::Line(1));
    }
    Ok(Some(cut))
}

/// Takes the second line of a file, which must have the recording's name.
fn take_name<R: Read>(
    alloc: Global,
    reader: &mut R,
    buffer: &mut [u8],
    before: Cut,
) -> Result<Option<(Vec<u8>, Cut)>, FileFault>
    requires order { before.end < before.held }
    requires within { before.held ≤ length buffer.old }
    requires room { longest_line < length buffer.old }
    ensures order { IfOk result (λ found. IfSome found (λ a. a.1.end < a.1.held)) }
    ensures within { IfOk result (λ found. IfSome found (λ a. a.1.held ≤ length buffer.new)) }
    ensures taken { IfOk result (λ found. (party : Writer) (known : Option (List ℕ)) → AreRead known (R.remaining reader.old) (slice_range buffer.old (before.end + 1) before.held) (header ∷ []) → MatchOption found (Says party known None) (λ a. IsName a.0.items × AreRead known (R.remaining reader.new) (slice_range buffer.new (a.1.end + 1) a.1.held) (header ∷ recording_line a.0.items ∷ []))) }
    ensures refused { IfErr result (λ fault. (party : Writer) (known : Option (List ℕ)) → AreRead known (R.remaining reader.old) (slice_range buffer.old (before.end + 1) before.held) (header ∷ []) → IsFault party known fault) }
    ensures len { length buffer.new ≡ length buffer.old }
{
    let Some(cut) = take_line(reader, buffer, before.end + 1, before.held, 2)? else {
        return Ok(None);
    };
    match read_name(&buffer[cut.start..cut.end]) {
        Some(name) => match copied(alloc, name) {
            Ok(name) => Ok(Some((name, cut))),
            Err(_) => Err(FileFault::Memory),
        },
        None => Err(FileFault::Line(2)),
    }
}

/// Returns a copy of the bytes.
fn copied(alloc: Global, bytes: &[u8]) -> Result<Vec<u8>, AllocError>
    ensures { IfOk result (λ copy. copy.items ≡ bytes.now) }
{
    let mut copy = Vec::new(alloc);
    copy.extend_from_slice(bytes)?;
    Ok(copy)
}

/// Takes the third line of a file, which must have the party's log and its first record.
fn take_opening<R: Read>(
    party: Party,
    reader: &mut R,
    buffer: &mut [u8],
    before: Cut,
) -> Result<Option<(Opening, Cut)>, FileFault>
    requires order { before.end < before.held }
    requires within { before.held ≤ length buffer.old }
    requires room { longest_line < length buffer.old }
    ensures order { IfOk result (λ found. IfSome found (λ a. a.1.end < a.1.held)) }
    ensures within { IfOk result (λ found. IfSome found (λ a. a.1.held ≤ length buffer.new)) }
    ensures taken { IfOk result (λ found. (known : Option (List ℕ)) (name : List ℕ) → IsName name → AreRead known (R.remaining reader.old) (slice_range buffer.old (before.end + 1) before.held) (header ∷ recording_line name ∷ []) → MatchOption found (Says party known None) (λ a. IsHead party name a.0 × AreRead known (R.remaining reader.new) (slice_range buffer.new (a.1.end + 1) a.1.held) (head_onto name a.0 []))) }
    ensures refused { IfErr result (λ fault. (known : Option (List ℕ)) (name : List ℕ) → IsName name → AreRead known (R.remaining reader.old) (slice_range buffer.old (before.end + 1) before.held) (header ∷ recording_line name ∷ []) → IsFault party known fault) }
    ensures len { length buffer.new ≡ length buffer.old }
{
    let Some(cut) = take_line(reader, buffer, before.end + 1, before.held, 3)? else {
        return Ok(None);
    };
    match Opening::read(party, &buffer[cut.start..cut.end]) {
        Some(opening) => Ok(Some((opening, cut))),
        None => Err(FileFault::Line(3)),
    }
}

/// Takes the head of a party's file. Returns `None` if the file ends within it.
pub(crate) fn take_head<R: Read>(
    alloc: Global,
    party: Party,
    reader: &mut R,
    buffer: &mut [u8],
) -> Result<Option<FileHead>, FileFault>
    requires room { longest_line < length buffer.old }
    ensures order { IfOk result (λ found. IfSome found (λ head. head.start ≤ head.end)) }
    ensures within { IfOk result (λ found. IfSome found (λ head. head.end ≤ length buffer.new)) }
    ensures taken { IfOk result (λ found. MatchOption found (Says party (R.remaining reader.old) None) (λ head. IsHead party head.name.items head.opening × AreRead (R.remaining reader.old) (R.remaining reader.new) (slice_range buffer.new head.start head.end) (head_onto head.name.items head.opening []))) }
    ensures refused { IfErr result (λ fault. IsFault party (R.remaining reader.old) fault) }
    ensures len { length buffer.new ≡ length buffer.old }
{
    let Some(first) = take_header(reader, buffer)? else {
        return Ok(None);
    };
    let Some((name, second)) = take_name(alloc, reader, buffer, first)? else {
        return Ok(None);
    };
    match take_opening(party, reader, buffer, second)? {
        Some((opening, third)) => Ok(Some(FileHead {
            name,
            opening,
            start: third.end + 1,
            end: third.held,
        })),
        None => Ok(None),
    }
}
