//! The name of a file, as its recorder wrote it and as somebody has compressed it.

ghost use Rattle.std.specs.Prelude.{◌≡◌, ◌≢◌, ◌==◌, ◌++◌, ◌∷◌, [], ℕ, List, IfSome, IfNone, position};
ghost use Rattle.std.specs.List.{list_all};
ghost use Rattle.recorder_files.specs.Files.{party_word};
ghost use Rattle.recorder_files.specs.declared.lines.Party.{Party as Writer};
ghost use Rattle.recorder_files.specs.Names.{are_digits, file_name, is_digit, AreDigits, IsCompressedName, IsEnding, IsNameOf};

use crate::lines::Party;
use migration_types::LogName;
use text_lines::after_key;

/// The name of the file in a recorder's folder that names its recording.
pub const NAME_FILE: &str = "recording-name";

/// Returns whether a byte is a digit.
fn is_digit(byte: u8) -> bool
    ensures { result ≡ is_digit byte }
{
    byte.is_ascii_digit()
}

/// Returns whether all bytes are digits.
fn all_digits(bytes: &[u8]) -> bool
    ensures { result ≡ list_all is_digit bytes.now }
{
    bytes.iter().all(|&byte| is_digit(byte))
}

/// Returns whether the bytes are one or more digits.
fn are_digits(bytes: &[u8]) -> bool
    ensures { result ≡ are_digits bytes.now }
{
    if bytes.is_empty() {
        return false;
    }
    all_digits(bytes)
}

/// Returns how many bytes are in front of the first dot.
fn first_dot(text: &[u8]) -> Option<usize>
    ensures { result ≡ position (λ b. b == 46) text.now }
{
    text.iter().position(|&byte| byte == b'.')
}

/// Returns the digits in front of a dot that only digits follow.
fn read_numbers(text: &[u8]) -> Option<&[u8]>
    ensures found { IfSome result (λ process. AreDigits process.now × ((number : List ℕ) × AreDigits number × (text.now ≡ process.now ++ 46 ∷ number))) }
    ensures none { IfNone result ((process number : List ℕ) → AreDigits process → AreDigits number → text.now ≢ process ++ 46 ∷ number) }
{
    let Some(at) = first_dot(text) else {
        return None;
    };
    let process = &text[..at];
    if !are_digits(process) {
        return None;
    }
    if !are_digits(&text[at + 1..]) {
        return None;
    }
    Some(process)
}

/// Returns the beginning of the names of a party's files.
fn key_of(party: Party) -> &'static [u8]
    ensures { result.now ≡ party_word party ++ 46 ∷ [] }
{
    match party {
        Party::Machine => b"machine.",
        Party::Of(LogName::Guest) => b"guest.",
        Party::Of(LogName::Source) => b"source.",
        Party::Of(LogName::Link) => b"link.",
        Party::Of(LogName::Lane) => b"lane.",
        Party::Of(LogName::Pager) => b"pager.",
    }
}

/// Returns the digits of the process in the name of a party's file.
fn read_name_of(party: Party, name: &[u8]) -> Option<&[u8]>
    ensures found { IfSome result (λ process. AreDigits process.now × ((number : List ℕ) × AreDigits number × (name.now ≡ file_name party process.now number))) }
    ensures none { IfNone result ((process number : List ℕ) → AreDigits process → AreDigits number → name.now ≢ file_name party process number) }
{
    let Some(text) = after_key(name, key_of(party)) else {
        return None;
    };
    read_numbers(text)
}

/// Returns the party and the digits of the process in the name of a recorder's file, which is `PARTY.PROCESS.NUMBER`.
pub fn read_file_name(name: &[u8]) -> Option<(Party, &[u8])>
    ensures found { IfSome result (λ found. AreDigits found.1.now × ((number : List ℕ) × AreDigits number × (name.now ≡ file_name found.0 found.1.now number))) }
    ensures none { IfNone result ((party : Writer) (process number : List ℕ) → AreDigits process → AreDigits number → name.now ≢ file_name party process number) }
{
    if let Some(process) = read_name_of(Party::Machine, name) {
        return Some((Party::Machine, process));
    }
    if let Some(process) = read_name_of(Party::Of(LogName::Guest), name) {
        return Some((Party::Of(LogName::Guest), process));
    }
    if let Some(process) = read_name_of(Party::Of(LogName::Source), name) {
        return Some((Party::Of(LogName::Source), process));
    }
    if let Some(process) = read_name_of(Party::Of(LogName::Link), name) {
        return Some((Party::Of(LogName::Link), process));
    }
    if let Some(process) = read_name_of(Party::Of(LogName::Lane), name) {
        return Some((Party::Of(LogName::Lane), process));
    }
    match read_name_of(Party::Of(LogName::Pager), name) {
        Some(process) => Some((Party::Of(LogName::Pager), process)),
        None => None,
    }
}

/// Returns what is in front of an ending of compressed files, if it is the name of a recorder's file.
fn name_before<'a>(name: &'a [u8], ending: &[u8]) -> Option<&'a [u8]>
    requires { IsEnding ending.now }
    ensures found { IfSome result (λ whole. ((party : Writer) × IsNameOf party whole.now) × IsCompressedName whole.now name.now) }
    ensures none { IfNone result ((party : Writer) (whole : List ℕ) → IsNameOf party whole → name.now ≢ whole ++ ending.now) }
{
    let Some(whole) = name.strip_suffix(ending) else {
        return None;
    };
    match read_file_name(whole) {
        Some(_) => Some(whole),
        None => None,
    }
}

/// Returns the name that a recorder's file had before somebody compressed it, which is `PARTY.PROCESS.NUMBER` in
/// `PARTY.PROCESS.NUMBER.ENDING`. The endings are `bz2`, `gz`, `lz4`, `lzma`, `xz` and `zst`.
pub fn read_compressed_name(name: &[u8]) -> Option<&[u8]>
    ensures found { IfSome result (λ whole. ((party : Writer) × IsNameOf party whole.now) × IsCompressedName whole.now name.now) }
    ensures none { IfNone result ((party : Writer) (whole : List ℕ) → IsNameOf party whole → IsCompressedName whole name.now → ⊥) }
{
    if let Some(whole) = name_before(name, b".bz2") {
        return Some(whole);
    }
    if let Some(whole) = name_before(name, b".gz") {
        return Some(whole);
    }
    if let Some(whole) = name_before(name, b".lz4") {
        return Some(whole);
    }
    if let Some(whole) = name_before(name, b".lzma") {
        return Some(whole);
    }
    if let Some(whole) = name_before(name, b".xz") {
        return Some(whole);
    }
    name_before(name, b".zst")
}
