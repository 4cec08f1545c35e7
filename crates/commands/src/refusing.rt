//! The files that no answer is written over: what the command reads, and texts that tell of a migration.

use crate::drafts::{Destination, destination_of, is_one_file, is_one_name};
use command_texts::{Fault, USAGE, tell};
use command_words::{Intent, Job, Reading, Request, Targets};
use recorder_files::{NAME_FILE, read_file_name};
use refusal_words::{RECORDERS_FILE, text_begun};
use std::alloc::Global;
use std::fs;
use std::io::{self, ErrorKind, Read, Write};
use std::os::unix::fs::MetadataExt;
use std::path::PathBuf;
use std::rt::Files;

/// The name of standard input in words.
const DASH: &str = "-";

/// The file that standard input is.
const STANDARD_INPUT: &str = "/dev/stdin";

/// How many bytes of a file are looked at: more than the beginning of any text takes.
const FRONT: u64 = 32;

/// Why a file is refused that an option names for what is written.
#[derive(Clone, Copy)]
enum Refusal {
    /// The two options name one file.
    OneFile,
    /// The command reads what this option names.
    Input(&'static str),
    /// What this option names is there, and is this.
    There(&'static str, &'static str),
}

// Returns whether a name among the inputs leads to the file that is to be written, as far as it can be known.
fn leads_there<R: Files>(
    rt: &R,
    alloc: Global,
    name: &str,
    place: &Destination,
) -> io::Result<bool> {
    match place {
        Destination::Named(_, Some(file)) => {
            let found = fs::metadata(rt, if name == DASH { STANDARD_INPUT } else { name })?;
            Ok(found.dev() == file.dev() && found.ino() == file.ino())
        }
        Destination::Named(path, None) => match destination_of(rt, alloc, name)? {
            Destination::Named(input, None) => is_one_name(rt, &input, path),
            _ => Ok(false),
        },
        Destination::Fixed => Ok(false),
    }
}

// Returns what was found, or this where nothing can be found. Fails only if memory ran out.
fn if_known<V: Copy>(found: io::Result<V>, otherwise: V) -> io::Result<V> {
    match found {
        Err(error) if error.kind() != ErrorKind::OutOfMemory => Ok(otherwise),
        found => found,
    }
}

// Returns whether one of the inputs is the file that is to be written.
fn is_among<R: Files>(
    rt: &R,
    alloc: Global,
    names: &[&str],
    place: &Destination,
) -> io::Result<bool> {
    for name in names {
        if if_known(leads_there(rt, alloc, name, place), false)? {
            return Ok(true);
        }
    }
    Ok(false)
}

// Returns whether a command reads the file that is to be written.
fn is_input_of<R: Files>(
    rt: &R,
    alloc: Global,
    job: &Job<'_>,
    place: &Destination,
) -> io::Result<bool> {
    match job {
        Request::One(_, name)
        | Request::Migrate(_, name)
        | Request::Draw(_, name, None)
        | Request::Window(_, name, _) => is_among(rt, alloc, &[*name], place),
        Request::Two(_, first, second) | Request::Draw(_, first, Some(second)) => {
            is_among(rt, alloc, &[*first, *second], place)
        }
    }
}

// Returns whether what the words ask for reads the file that is to be written.
fn is_input<R: Files>(
    rt: &R,
    alloc: Global,
    intent: Option<&Intent<'_>>,
    place: &Destination,
) -> io::Result<bool> {
    match intent {
        Some(Intent::Job(job)) => is_input_of(rt, alloc, job, place),
        Some(Intent::Several(several)) => is_among(rt, alloc, several.names.as_slice(), place),
        Some(Intent::Folders(folders)) => is_among(rt, alloc, folders.names.as_slice(), place),
        None => Ok(false),
    }
}

// Returns the first bytes of a file.
fn front_of<R: Files>(rt: &R, alloc: Global, path: &PathBuf) -> io::Result<Vec<u8>> {
    let mut front = Vec::new(alloc);
    fs::open(rt, path.as_str())?
        .take(FRONT)
        .read_to_end(&mut front)?;
    Ok(front)
}

// Returns whether a file with this front is a recorder's by its name: it has no line yet.
fn is_begun(name: &str, front: &[u8]) -> bool {
    match front.first() {
        None | Some(0) => read_file_name(name.as_bytes()).is_some(),
        Some(_) => false,
    }
}

// Returns what a regular file is, if it is a text that tells of a migration, or a recorder's.
fn text_at<R: Files>(rt: &R, alloc: Global, path: &PathBuf) -> io::Result<Option<&'static str>> {
    let Some(name) = path.file_name() else {
        return Ok(None);
    };
    if name == NAME_FILE {
        return Ok(Some(RECORDERS_FILE));
    }
    let front = front_of(rt, alloc, path)?;
    if is_begun(name, front.as_slice()) {
        return Ok(Some(RECORDERS_FILE));
    }
    Ok(text_begun(front.as_slice()))
}

// Returns why the file is refused that this option names, if it is. An input is told as that alone.
fn refusal_at<R: Files>(
    rt: &R,
    alloc: Global,
    intent: Option<&Intent<'_>>,
    option: &'static str,
    name: &str,
) -> io::Result<Option<Refusal>> {
    let place = destination_of(rt, alloc, name)?;
    if is_input(rt, alloc, intent, &place)? {
        return Ok(Some(Refusal::Input(option)));
    }
    let Destination::Named(path, Some(_)) = &place else {
        return Ok(None);
    };
    match text_at(rt, alloc, path)? {
        Some(what) => Ok(Some(Refusal::There(option, what))),
        None => Ok(None),
    }
}

// Returns why the file is refused that this option names, if it names one that is.
fn refusal_of<R: Files>(
    rt: &R,
    alloc: Global,
    intent: Option<&Intent<'_>>,
    option: &'static str,
    name: Option<&str>,
) -> io::Result<Option<Refusal>> {
    match name {
        Some(name) => if_known(refusal_at(rt, alloc, intent, option, name), None),
        None => Ok(None),
    }
}

// Returns whether the two files that the words name are the same file, as far as it can be known.
fn are_one<R: Files>(rt: &R, alloc: Global, targets: Targets<'_>) -> io::Result<bool> {
    match (targets.lines, targets.output) {
        (Some(lines), Some(output)) => if_known(is_one_file(rt, alloc, lines, output), false),
        _ => Ok(false),
    }
}

// Returns why a file is refused that the words name for what is written, if one is.
fn refusal_for<R: Files>(
    rt: &R,
    alloc: Global,
    reading: &Reading<'_>,
) -> io::Result<Option<Refusal>> {
    let targets = reading.targets();
    if are_one(rt, alloc, targets)? {
        return Ok(Some(Refusal::OneFile));
    }
    let intent = reading.asks();
    match refusal_of(rt, alloc, intent, "--output", targets.output)? {
        Some(refusal) => Ok(Some(refusal)),
        None => refusal_of(rt, alloc, intent, "--lines", targets.lines),
    }
}

// Reports why a file is refused.
fn tell_refusal<E: Write>(refusal: Refusal, errors: &mut E) -> u8 {
    let _ = match refusal {
        Refusal::OneFile => errors.write_all(b"error: --lines and --output name one file\n"),
        Refusal::Input(option) => writeln!(
            errors,
            "error: {option} names a file that the command reads: name another"
        ),
        Refusal::There(option, what) => writeln!(
            errors,
            "error: {option} names {what}: remove it first, or name another"
        ),
    };
    USAGE
}

/// Returns the status for files that the words name for what is written, if they are refused, and says why. Refused is a
/// file that both options name or that the command reads, by whatever name; and one that is there and is a text that tells
/// of a migration, or a recorder's. Nothing is read of the inputs. Memory may run out, too.
pub fn refuse_targets<R: Files, E: Write>(
    rt: &R,
    alloc: Global,
    reading: &Reading<'_>,
    errors: &mut E,
) -> Option<u8> {
    match refusal_for(rt, alloc, reading) {
        Ok(Some(refusal)) => Some(tell_refusal(refusal, errors)),
        Err(error) if error.kind() == ErrorKind::OutOfMemory => Some(tell(Fault::Memory, errors)),
        // If it cannot be known, the writing fails and says so.
        Ok(None) | Err(_) => None,
    }
}
