//! The files of recorders in folders.

ghost use Rattle.std.specs.Prelude.{◌≡◌, ◌≤◌, ◌↔◌, ◌^◌, ℕ, [], List, Option, IfOk, IsTrue, OnErr, OnOk, map, string_bytes};
ghost use Rattle.std.specs.List.{Contains};
ghost use Rattle.text_access.specs.Names.{names_of};
ghost use Rattle.session_commands.specs.Logs.{log_of, records_in};
ghost use Rattle.session_commands.specs.Found.{path_in, slash_behind, AreCompressed, AreFound};
ghost use Rattle.session_commands.specs.inner.Compressing.{AddsCompressedOf};
ghost use Rattle.session_commands.specs.inner.Finding.{AddsFolder, AddsNames, AreLogsOf, IsNothing};

use crate::compressed::push_compressed;
use crate::places::copied;
use crate::stops::{Stop, add, unread};
use crate::words::{Piece, push, sentence};
use migration_types::LogName;
use recorder_files::{Party, Surveyed, read_file_name};
use std::alloc::{AllocError, Global};
use std::io;
use std::io::ErrorKind;
use text_access::TextSource;

/// The cause if a name is not that of a folder.
const NO_FOLDER: &str = "it is not a directory";

/// A file of a recorder, by its name.
#[derive(Drop)]
pub(crate) struct FoundFile {
    pub(crate) path: String,
    pub(crate) party: Party,
    /// Its folder, counted from 0.
    folder: usize,
    /// The digits of its process.
    digits: Vec<u8>,
    /// Its process: the first file of this process, counted from 0.
    pub(crate) process: usize,
}

/// The files of recorders in folders, by their names. None of them was read yet.
#[derive(Drop)]
pub(crate) struct FoundFiles {
    /// The files, folder by folder.
    pub(crate) files: Vec<FoundFile>,
    /// The paths of those that are only there as somebody has compressed them, folder by folder. They are not read.
    pub compressed: Vec<String>,
}

/// The files of a log.
#[derive(Drop)]
pub(crate) struct FoundLog {
    /// The names of the files that have a head.
    pub paths: Vec<String>,
    /// What each of these says, but for its records.
    pub surveyed: Vec<Surveyed>,
    /// The names of the files that end within their head.
    pub headless: Vec<String>,
    /// The names of all files, in their order.
    pub names: Vec<String>,
}

/// The files of all logs.
#[derive(Drop)]
pub(crate) struct FoundLogs {
    pub machine: FoundLog,
    pub guest: FoundLog,
    pub source: FoundLog,
    pub link: FoundLog,
    pub lane: FoundLog,
    pub pager: FoundLog,
}

impl FoundLog {
    /// Returns a log of no files.
    fn new(alloc: Global) -> Self
        ensures { IsNothing result }
    {
        FoundLog {
            paths: Vec::new(alloc),
            surveyed: Vec::new(alloc),
            headless: Vec::new(alloc),
            names: Vec::new(alloc),
        }
    }

    /// Returns whether it has no file.
    pub fn is_empty(&self) -> bool
        ensures { IsTrue result ↔ (self.now.names.items ≡ []) }
    {
        self.names.is_empty()
    }

    /// Returns how many records its files have.
    ///
    /// # Errors
    ///
    /// There are 2^64 or more: more than any memory can count.
    pub fn records(&self) -> Result<u64, AllocError>
        ensures counted { IfOk result (λ count. count ≡ records_in self.now) }
        ensures many { OnErr result (2 ^ 64 ≤ records_in self.now) }
    {
        let mut records: u64 = 0;
        for file in &self.surveyed {
            let Some(sum) = records.checked_add(file.records) else {
                return Err(AllocError);
            };
            records = sum;
        }
        Ok(records)
    }
}

impl FoundLogs {
    /// Returns logs of no files.
    pub(crate) fn new(alloc: Global) -> Self
        ensures { (bytes_of : List ℕ → Option (List ℕ)) (recording : List ℕ) → AreLogsOf bytes_of recording [] result }
    {
        FoundLogs {
            machine: FoundLog::new(alloc),
            guest: FoundLog::new(alloc),
            source: FoundLog::new(alloc),
            link: FoundLog::new(alloc),
            lane: FoundLog::new(alloc),
            pager: FoundLog::new(alloc),
        }
    }

    /// Returns the log of a party.
    pub fn log(&self, party: Party) -> &FoundLog
        ensures { result.now ≡ log_of self.now party }
    {
        match party {
            Party::Machine => &self.machine,
            Party::Of(LogName::Guest) => &self.guest,
            Party::Of(LogName::Source) => &self.source,
            Party::Of(LogName::Link) => &self.link,
            Party::Of(LogName::Lane) => &self.lane,
            Party::Of(LogName::Pager) => &self.pager,
        }
    }
}

/// Returns what stands between the name of a folder and that of what is in it.
fn slash_behind(folder: &str) -> &'static str
    ensures { result.now ≡ slash_behind folder.now }
{
    match folder.as_bytes().last() {
        Some(byte) => { if *byte == b'/' { "" } else { "/" } }
        None => "",
    }
}

/// Returns the path of what has this name in a folder.
pub(crate) fn joined(alloc: Global, folder: &str, name: &str) -> Result<String, AllocError>
    ensures { IfOk result (λ path. string_bytes path ≡ path_in folder.now name.now) }
{
    let mut path = String::from_str(alloc, folder)?;
    path.push_str(slash_behind(folder))?;
    path.push_str(name)?;
    Ok(path)
}

/// Returns the process of a file: the first file of this process among those before it, or the file itself.
fn process_of(files: &[FoundFile], folder: usize, digits: &[u8]) -> usize {
    for i in 0..files.len() {
        if files[i].folder == folder && files[i].digits.as_slice() == digits {
            return i;
        }
    }
    files.len()
}

/// Returns the file of a party that has this name in a folder, whose place among the folders this is.
fn found_file(
    alloc: Global,
    folder: &str,
    place: usize,
    name: &str,
    party: Party,
    digits: &[u8],
    process: usize,
) -> Result<FoundFile, AllocError>
    ensures { IfOk result (λ file. (file.party ≡ party) × (string_bytes file.path ≡ path_in folder.now name.now)) }
{
    Ok(FoundFile {
        path: joined(alloc, folder, name)?,
        party,
        folder: place,
        digits: copied(alloc, digits)?,
        process,
    })
}

/// Adds what has this name in a folder, if it is a recorder's file.
fn push_file(
    alloc: Global,
    files: &mut Vec<FoundFile>,
    folder: &str,
    place: usize,
    name: &str,
) -> Result<(), AllocError>
    ensures { OnOk result (AddsNames (λ n. n ≡ name.now) folder.now files.old.items files.new.items) }
{
    match read_file_name(name.as_bytes()) {
        Some((party, digits)) => {
            let process = process_of(files.as_slice(), place, digits);
            let file = found_file(alloc, folder, place, name, party, digits, process)?;
            add(files, file)
        }
        None => Ok(()),
    }
}

/// Adds what has these names in a folder, if it is a recorder's file.
fn push_named(
    alloc: Global,
    files: &mut Vec<FoundFile>,
    folder: &str,
    place: usize,
    names: &[String],
) -> Result<(), AllocError>
    ensures { OnOk result (AddsNames (Contains (map string_bytes names.now)) folder.now files.old.items files.new.items) }
{
    for name in names {
        push_file(alloc, files, folder, place, name.as_str())?;
    }
    Ok(())
}

/// Returns why a folder was not listed.
fn unlisted(alloc: Global, folder: &str, error: &io::Error) -> Stop {
    let Ok(name) = String::from_str(alloc, folder) else {
        return Stop::Memory;
    };
    if error.kind() == ErrorKind::NotADirectory {
        return Stop::File(name, NO_FOLDER);
    }
    unread(name, error)
}

/// Adds the recorders' files in a folder, by their names, and the paths of those that are only there compressed.
fn push_files<S: TextSource>(
    alloc: Global,
    texts: &S,
    files: &mut Vec<FoundFile>,
    compressed: &mut Vec<String>,
    folder: &str,
    place: usize,
) -> Result<(), Stop>
    ensures files { OnOk result (AddsFolder (S.names_in texts.now folder.now) folder.now files.old.items files.new.items) }
    ensures compressed { OnOk result (AddsCompressedOf (S.names_in texts.now folder.now) folder.now (map string_bytes compressed.old.items) (map string_bytes compressed.new.items)) }
{
    let mut names = match texts.names(alloc, folder) {
        Ok(names) => names,
        Err(error) => return Err(unlisted(alloc, folder, &error)),
    };
    names.sort()?;
    push_named(alloc, files, folder, place, names.as_slice())?;
    push_compressed(alloc, compressed, folder, names.as_slice())?;
    Ok(())
}

/// Checks that a folder is none of those before it.
fn check_once<S: TextSource>(
    alloc: Global,
    texts: &S,
    folders: &[&str],
    place: usize,
) -> Result<(), Stop> {
    for before in 0..folders.len() {
        if before < place
            && place < folders.len()
            && texts.is_one(folders[place], folders[before])
        {
            let folder = Piece::Text(folders[place]);
            return Err(Stop::Unfit(sentence(alloc, "{} is named twice", &[folder])?));
        }
    }
    Ok(())
}

/// Appends a name of a list, with a comma in front of it unless it is the first.
pub(crate) fn push_listed(out: &mut Vec<u8>, place: usize, name: &str) -> Result<(), AllocError> {
    if place > 0 {
        push(out, ", ")?;
    }
    push(out, name)
}

/// Returns why folders that have no file of a recorder make no session.
pub(crate) fn none(alloc: Global, folders: &[&str]) -> Result<Stop, AllocError> {
    let mut words = Vec::new(alloc);
    for i in 0..folders.len() {
        push_listed(&mut words, i, folders[i])?;
    }
    push(
        &mut words,
        ": there is no file of a recorder, PARTY.PROCESS.N",
    )?;
    Ok(Stop::Unfit(words))
}

/// Returns the recorders' files in folders, folder by folder, by their names.
///
/// # Errors
///
/// A folder cannot be listed, or is named twice, or memory runs out.
pub(crate) fn find_files<S: TextSource>(
    alloc: Global,
    texts: &S,
    folders: &[&str],
) -> Result<FoundFiles, Stop>
    ensures files { IfOk result (λ found. AreFound (S.names_in texts.now) (names_of folders.now) found.files.items) }
    ensures compressed { IfOk result (λ found. AreCompressed (S.names_in texts.now) (names_of folders.now) (map string_bytes found.compressed.items)) }
{
    let mut files = Vec::new(alloc);
    let mut compressed = Vec::new(alloc);
    for place in 0..folders.len() {
        check_once(alloc, texts, folders, place)?;
        let folder = folders[place];
        push_files(alloc, texts, &mut files, &mut compressed, folder, place)?;
    }
    Ok(FoundFiles { files, compressed })
}
