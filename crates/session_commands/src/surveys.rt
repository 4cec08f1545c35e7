//! The first pass: each file is read to its end by itself.

ghost use Rattle.std.specs.Prelude.{◌≡◌, ◌∷◌, ◌++◌, ℕ, [], List, Option, IfOk, OnOk, string_bytes};
ghost use Rattle.recorder_files.specs.declared.lines.Party.{Party as Writer};
ghost use Rattle.recorder_files.specs.Said.{CameTo};
ghost use Rattle.recorder_files.specs.Surveys.{IsSurveyOf};
ghost use Rattle.text_access.specs.Names.{names_of};
ghost use Rattle.session_commands.specs.Found.{AreFound, IsFoundIn};
ghost use Rattle.session_commands.specs.inner.Finding.{AreLogsOf, GetsFile, IsReadAs, TakesFile, Under};

use crate::faults::{Surveying, file_stop};
use crate::found::{FoundFile, FoundFiles, FoundLog, FoundLogs, joined, none};
use crate::places::{copied, line_of, open_text};
use crate::stops::{Stop, add};
use crate::words::{Piece, sentence};
use migration_types::LogName;
use recorder_files::{FileReader, NAME_FILE, Onlooker, Party, Surveyed, survey};
use std::alloc::{AllocError, Global};
use std::io::ErrorKind;
use text_access::TextSource;

/// The name of the recording, and the last file that had it.
#[derive(Drop)]
struct Recording {
    name: Vec<u8>,
    path: String,
}

/// What is said behind two files of two recordings.
const TWO_RECORDINGS: &str =
    ": these are two recordings, each of which has its own session (a folder at a second machine is given the \
                              name: postcopy_recording_join, or join)";

/// Returns the words on a file that has the name of another recording, or names one.
fn other_words<'a>(
    alloc: Global,
    recording: &'a Recording,
    name: Option<&'a [u8]>,
    path: &'a str,
) -> Result<Vec<u8>, AllocError> {
    match name {
        Some(name) => sentence(
            alloc,
            "{} is of the recording {}, and {} of the recording {}{}",
            &[
                Piece::Text(path),
                Piece::Bytes(name),
                Piece::Text(recording.path.as_str()),
                Piece::Bytes(recording.name.as_slice()),
                Piece::Text(TWO_RECORDINGS),
            ],
        ),
        None => sentence(
            alloc,
            "{} names another recording, and {} is of the recording {}{}",
            &[
                Piece::Text(path),
                Piece::Text(recording.path.as_str()),
                Piece::Bytes(recording.name.as_slice()),
                Piece::Text(TWO_RECORDINGS),
            ],
        ),
    }
}

/// Takes the name of the recording that a file has. It is the same in all files.
fn take_name(
    alloc: Global,
    recording: &mut Option<Recording>,
    name: &[u8],
    path: &str,
) -> Result<(), Stop>
    ensures { OnOk result (Under recording.old recording.new (λ held. name.now ≡ held)) }
{
    if let Some(recording) = recording {
        if recording.name.as_slice() != name {
            return Err(Stop::Unfit(other_words(alloc, recording, Some(name), path)?));
        }
        recording.path = String::from_str(alloc, path)?;
        return Ok(());
    }
    *recording = Some(Recording {
        name: copied(alloc, name)?,
        path: String::from_str(alloc, path)?,
    });
    Ok(())
}

/// Returns whether there is no file under a name.
fn is_gone<S: TextSource>(texts: &S, path: &str) -> bool {
    if !texts.stays(path) {
        return false;
    }
    match texts.text(path) {
        Ok(_) => false,
        Err(error) => error.kind() == ErrorKind::NotFound,
    }
}

/// Checks that the file in which a folder names its recording does not name another one. It may be gone.
fn check_name<S: TextSource>(
    alloc: Global,
    texts: &S,
    path: &str,
    recording: &Recording,
) -> Result<(), Stop> {
    if is_gone(texts, path) {
        return Ok(());
    }
    let name = line_of(alloc, texts, path, 1)?;
    if name.as_slice() == recording.name.as_slice() {
        return Ok(());
    }
    Err(Stop::Unfit(other_words(alloc, recording, None, path)?))
}

/// Checks that no folder names another recording than the files do, if a file has a name.
fn check_names<S: TextSource>(
    alloc: Global,
    texts: &S,
    folders: &[&str],
    recording: &Option<Recording>,
) -> Result<(), Stop> {
    let Some(recording) = recording else {
        return Ok(());
    };
    for place in 0..folders.len() {
        let path = joined(alloc, folders[place], NAME_FILE)?;
        check_name(alloc, texts, path.as_str(), recording)?;
    }
    Ok(())
}

/// Reads a file that has a head to its end.
fn survey_records<S: TextSource, O: Onlooker>(
    alloc: Global,
    texts: &S,
    party: Party,
    path: &str,
    surveying: Surveying<'_>,
    reader: &mut FileReader<S::Text>,
    onlooker: &mut O,
) -> Result<Surveyed, Stop>
    ensures { IfOk result (λ found. (known : Option (List ℕ)) → CameTo party known reader.old [] → IsSurveyOf party known reader.old.name found) }
{
    match survey(surveying.process, reader, onlooker) {
        Ok(surveyed) => Ok(surveyed),
        Err(fault) => Err(file_stop(alloc, texts, party, path, surveying, fault)),
    }
}

/// Reads a party's file to its end. Returns `None` if it ends within its head.
fn survey_text<S: TextSource, O: Onlooker>(
    alloc: Global,
    texts: &S,
    party: Party,
    path: &str,
    surveying: Surveying<'_>,
    recording: &mut Option<Recording>,
    onlooker: &mut O,
) -> Result<Option<Surveyed>, Stop>
    ensures { IfOk result (λ found. Under recording.old recording.new (λ name. IsReadAs party (S.bytes_of texts.now path.now) name found)) }
{
    let text = open_text(alloc, texts, path)?;
    match FileReader::open(alloc, party, text) {
        Ok(Some(reader)) => {
            let mut reader = reader;
            take_name(alloc, recording, reader.name(), path)?;
            let found = survey_records(alloc, texts, party, path, surveying, &mut reader, onlooker);
            drop(reader);
            let found = found?;
            Ok(Some(found))
        }
        Ok(None) => Ok(None),
        Err(fault) => Err(file_stop(alloc, texts, party, path, surveying, fault)),
    }
}

/// Adds a file that has a head, with what was surveyed of it.
fn push_read(log: &mut FoundLog, path: String, surveyed: Surveyed) -> Result<(), AllocError>
    ensures { OnOk result ((log.new.paths.items ≡ log.old.paths.items ++ path ∷ []) × (log.new.surveyed.items ≡ log.old.surveyed.items ++ surveyed ∷ []) × (log.new.headless.items ≡ log.old.headless.items) × (log.new.names.items ≡ log.old.names.items)) }
{
    add(&mut log.surveyed, surveyed)?;
    add(&mut log.paths, path)?;
    Ok(())
}

/// Adds a file to a log, with what was surveyed of it, if it has a head.
fn push_surveyed(
    alloc: Global,
    log: &mut FoundLog,
    path: &str,
    found: Option<Surveyed>,
) -> Result<(), AllocError>
    ensures { OnOk result ((bytes_of : List ℕ → Option (List ℕ)) (name : List ℕ) (party : Writer) → IsReadAs party (bytes_of path.now) name found → GetsFile bytes_of name party path.now log.old log.new) }
{
    let name = String::from_str(alloc, path)?;
    add(&mut log.names, name)?;
    let again = String::from_str(alloc, path)?;
    match found {
        Some(surveyed) => push_read(log, again, surveyed),
        None => add(&mut log.headless, again),
    }
}

/// Adds a file to one of the five logs, with what was surveyed of it, if it has a head.
fn push_log(
    alloc: Global,
    logs: &mut FoundLogs,
    file: &FoundFile,
    log: LogName,
    found: Option<Surveyed>,
) -> Result<(), AllocError>
    requires { file.now.party ≡ Writer.Of log }
    ensures { OnOk result ((bytes_of : List ℕ → Option (List ℕ)) (name : List ℕ) → IsReadAs file.now.party (bytes_of (string_bytes file.now.path)) name found → TakesFile bytes_of name file.now logs.old logs.new) }
{
    let path = file.path.as_str();
    match log {
        LogName::Guest => push_surveyed(alloc, &mut logs.guest, path, found),
        LogName::Source => push_surveyed(alloc, &mut logs.source, path, found),
        LogName::Link => push_surveyed(alloc, &mut logs.link, path, found),
        LogName::Lane => push_surveyed(alloc, &mut logs.lane, path, found),
        LogName::Pager => push_surveyed(alloc, &mut logs.pager, path, found),
    }
}

/// Adds a file to the log of its party, with what was surveyed of it, if it has a head.
fn push_of(
    alloc: Global,
    logs: &mut FoundLogs,
    file: &FoundFile,
    found: Option<Surveyed>,
) -> Result<(), AllocError>
    ensures { OnOk result ((bytes_of : List ℕ → Option (List ℕ)) (name : List ℕ) → IsReadAs file.now.party (bytes_of (string_bytes file.now.path)) name found → TakesFile bytes_of name file.now logs.old logs.new) }
{
    let path = file.path.as_str();
    match file.party {
        Party::Machine => push_surveyed(alloc, &mut logs.machine, path, found),
        Party::Of(log) => push_log(alloc, logs, file, log, found),
    }
}

/// Reads a file to its end, and adds it to the log of its party.
fn survey_file<S: TextSource, O: Onlooker>(
    alloc: Global,
    texts: &S,
    file: &FoundFile,
    logs: &mut FoundLogs,
    recording: &mut Option<Recording>,
    onlooker: &mut O,
) -> Result<(), Stop>
    ensures { OnOk result (Under recording.old recording.new (λ name. TakesFile (S.bytes_of texts.now) name file.now logs.old logs.new)) }
{
    let surveying = Surveying {
        before: logs.log(file.party).surveyed.as_slice(),
        process: file.process,
    };
    let path = file.path.as_str();
    let found = survey_text(
        alloc, texts, file.party, path, surveying, recording, onlooker,
    )?;
    push_of(alloc, logs, file, found)?;
    Ok(())
}

/// Reads each file of the folders that were named to its end. Adds it to its log, with what it says but for its records.
fn survey_files<S: TextSource, O: Onlooker>(
    alloc: Global,
    texts: &S,
    named: &[&str],
    files: &[FoundFile],
    logs: &mut FoundLogs,
    onlooker: &mut O,
) -> Result<(), Stop>
    ensures { OnOk result ((folders : List (List ℕ)) → ((name : List ℕ) → AreLogsOf (S.bytes_of texts.now) name [] logs.old) → AreFound (S.names_in texts.now) folders files.now → IsFoundIn (S.names_in texts.now) (S.bytes_of texts.now) folders logs.new) }
{
    let mut recording = None;
    for file in files {
        survey_file(alloc, texts, file, logs, &mut recording, onlooker)?;
    }
    check_names(alloc, texts, named, &recording)
}

/// Returns the logs of the recorders' files that were found in folders, each of which is read to its end. The onlooker sees each record
/// of each file, one file after the other.
///
/// # Errors
///
/// There is no file, a file was not read or is none of a recorder's, the files are of two recordings, a folder has the name of another
/// one, or memory runs out.
pub(crate) fn find_logs<S: TextSource, O: Onlooker>(
    alloc: Global,
    texts: &S,
    folders: &[&str],
    found: &FoundFiles,
    onlooker: &mut O,
) -> Result<FoundLogs, Stop>
    ensures { IfOk result (λ logs. AreFound (S.names_in texts.now) (names_of folders.now) found.now.files.items → IsFoundIn (S.names_in texts.now) (S.bytes_of texts.now) (names_of folders.now) logs) }
{
    if found.files.is_empty() {
        return Err(none(alloc, folders)?);
    }
    let files = found.files.as_slice();
    let mut logs = FoundLogs::new(alloc);
    match survey_files(alloc, texts, folders, files, &mut logs, onlooker) {
        Ok(()) => Ok(logs),
        Err(stop) => {
            drop(logs);
            Err(stop)
        }
    }
}
