//! The lines of files, found again where words need them.

ghost use Rattle.std.specs.Prelude.{◌≡◌, Some, IfOk, IfSome, []};
ghost use Rattle.recorder_files.specs.Said.{CameTo};

use crate::lines::FIRST_RECORD;
use crate::stops::{NOT_READ, NOT_THE_SAME, Stop, add, unread};
use crate::words::{Piece, push_sentence};
use recorder_files::{FileFault, FileReader, Party};
use std::alloc::{AllocError, Global};
use std::io::{ErrorKind, Read};
use text_access::TextSource;
use text_lines::next_line;

/// How many bytes are read at a time.
const PIECE: usize = 65_536;

/// The most bytes of a line that are kept.
const MOST_KEPT: usize = 16_384;

/// A record, where it stands.
#[derive(Drop)]
pub(crate) struct FoundRecord {
    /// Its file among those of its log, counted from 0.
    pub file: usize,
    /// Its line, counted from 1.
    pub line: u64,
    /// Its text.
    pub text: Vec<u8>,
}

/// Returns the fault of a file that was not read to its end, or has changed.
pub(crate) fn changed_file(alloc: Global, name: &str) -> Stop {
    match String::from_str(alloc, name) {
        Ok(name) => Stop::File(name, NOT_READ),
        Err(_) => Stop::Memory,
    }
}

/// Opens the file under a name.
pub(crate) fn open_text<S: TextSource>(
    alloc: Global,
    texts: &S,
    path: &str,
) -> Result<S::Text, Stop>
    ensures { IfOk result (λ text. IfSome (S.bytes_of texts.now path.now) (λ bytes. S.Text.remaining text ≡ Some bytes)) }
{
    let Ok(name) = String::from_str(alloc, path) else {
        return Err(Stop::Memory);
    };
    if !texts.stays(path) {
        return Err(Stop::File(name, NOT_THE_SAME));
    }
    match texts.text(path) {
        Ok(text) => Ok(text),
        Err(error) => Err(unread(name, &error)),
    }
}

/// Opens a file of a log that has a head.
#[tactic(auto, using(crate::proofs::OpenedFile::came_known))]
pub(crate) fn open_file<S: TextSource>(
    alloc: Global,
    texts: &S,
    party: Party,
    path: &str,
) -> Result<FileReader<S::Text>, Stop>
    ensures { IfOk result (λ file. CameTo party (S.bytes_of texts.now path.now) file []) }
{
    let text = open_text(alloc, texts, path)?;
    match FileReader::open(alloc, party, text) {
        Ok(Some(file)) => Ok(file),
        Err(FileFault::Memory) => Err(Stop::Memory),
        Ok(None) | Err(_) => Err(changed_file(alloc, path)),
    }
}

/// Returns a copy of bytes.
pub(crate) fn copied(alloc: Global, bytes: &[u8]) -> Result<Vec<u8>, AllocError>
    ensures { IfOk result (λ copy. copy.items ≡ bytes.now) }
{
    let mut copy = Vec::new(alloc);
    copy.extend_from_slice(bytes)?;
    Ok(copy)
}

/// Returns the record of this number in a file, with its line. It is `None` if the file has none, or is not read.
pub(crate) fn find_in<R: Read + Drop>(
    alloc: Global,
    file: &mut FileReader<R>,
    number: u64,
) -> Result<Option<(u64, Vec<u8>)>, AllocError> {
    for line in FIRST_RECORD..u64::MAX {
        match file.next() {
            Ok(Some(found)) => {
                if found == number {
                    return Ok(Some((line, copied(alloc, file.text())?)));
                }
            }
            Ok(None) | Err(_) => return Ok(None),
        }
    }
    Ok(None)
}

/// Returns the record of this number in the file of a log under a name, with its line.
fn find_under<S: TextSource>(
    alloc: Global,
    texts: &S,
    party: Party,
    path: &str,
    number: u64,
) -> Result<Option<(u64, Vec<u8>)>, Stop> {
    let mut file = open_file(alloc, texts, party, path)?;
    Ok(find_in(alloc, &mut file, number)?)
}

/// Returns the record of this number in the files of a log, from one of them on, counted from 0.
pub(crate) fn find_record<S: TextSource>(
    alloc: Global,
    texts: &S,
    party: Party,
    paths: &[String],
    number: u64,
    first: usize,
) -> Result<Option<FoundRecord>, Stop> {
    for file in first..paths.len() {
        let path = paths[file].as_str();
        if let Some((line, text)) = find_under(alloc, texts, party, path, number)? {
            return Ok(Some(FoundRecord { file, line, text }));
        }
    }
    Ok(None)
}

/// Returns the place of a record, in front of its name, if it stands in a file of a log.
pub(crate) fn place_of<'a>(paths: &'a [String], placed: &Option<FoundRecord>) -> Piece<'a> {
    match placed {
        Some(placed) if placed.file < paths.len() => {
            Piece::In(paths[placed.file].as_str(), placed.line)
        }
        _ => Piece::Text(""),
    }
}

/// Appends the name of a record, with its place, which is searched for. Returns the record.
pub(crate) fn push_place<S: TextSource>(
    out: &mut Vec<u8>,
    alloc: Global,
    texts: &S,
    party: Party,
    paths: &[String],
    number: u64,
) -> Result<Option<FoundRecord>, Stop> {
    let placed = find_record(alloc, texts, party, paths, number, 0)?;
    let record = Piece::Record(party, number);
    push_sentence(out, alloc, "{}{}", &[place_of(paths, &placed), record])?;
    Ok(placed)
}

/// Returns why a file of a log was not read.
pub(crate) fn unread_file(alloc: Global, paths: &[String], file: usize) -> Stop {
    if file < paths.len() {
        changed_file(alloc, paths[file].as_str())
    } else {
        changed_file(alloc, "")
    }
}

/// Opens the first files of a log, up to this one, and keeps them open. Returns why one was not opened.
fn open_up_to<S: TextSource>(
    alloc: Global,
    texts: &S,
    paths: &[String],
    file: usize,
) -> Result<(), Stop> {
    let mut opened = Vec::new(alloc);
    for place in 0..paths.len() {
        if place <= file {
            add(&mut opened, open_text(alloc, texts, paths[place].as_str())?)?;
        }
    }
    Ok(())
}

/// Returns why a file of a log was not read beside those in front of it: it is not opened, or else it has changed.
pub(crate) fn unopened_file<S: TextSource>(
    alloc: Global,
    texts: &S,
    paths: &[String],
    file: usize,
) -> Stop {
    match open_up_to(alloc, texts, paths, file) {
        Ok(()) => unread_file(alloc, paths, file),
        Err(stop) => stop,
    }
}

/// Appends the bytes of a line, as far as they are kept.
fn keep(kept: &mut Vec<u8>, bytes: &[u8]) -> Result<(), AllocError> {
    if kept.len() >= MOST_KEPT {
        return Ok(());
    }
    kept.extend_from_slice(bytes)
}

/// The lines of a text, up to one that is wanted.
#[derive(Drop)]
struct LineSearch {
    /// How many line feeds come before it.
    left: u64,
    /// The bytes of the line, as far as they came.
    kept: Vec<u8>,
    is_found: bool,
}

impl LineSearch {
    /// Takes the next bytes of the text.
    fn take(&mut self, bytes: &[u8]) -> Result<(), AllocError> {
        let mut rest = bytes;
        for _ in 0..=bytes.len() {
            if self.is_found {
                return Ok(());
            }
            let Some((line, behind)) = next_line(rest) else {
                if self.left == 0 {
                    keep(&mut self.kept, rest)?;
                }
                return Ok(());
            };
            if self.left == 0 {
                keep(&mut self.kept, line)?;
                self.is_found = true;
            } else {
                self.left -= 1;
            }
            rest = behind;
        }
        Ok(())
    }
}

/// Reads a text up to the line that is wanted.
fn read_wanted<R: Read>(
    alloc: Global,
    reader: &mut R,
    wanted: &mut LineSearch,
) -> Result<bool, AllocError> {
    let mut piece = vec![in alloc; 0u8; PIECE]?;
    let mut is_read = true;
    for _ in 0..u64::MAX {
        match reader.read(piece.as_mut_slice()) {
            Ok(0) => break,
            Ok(count) => wanted.take(&piece[..count])?,
            Err(error) if error.kind() == ErrorKind::Interrupted => {}
            Err(_) => {
                is_read = false;
                break;
            }
        }
        if wanted.is_found {
            break;
        }
    }
    Ok(is_read)
}

/// Returns the line of this number in the file under a name, counted from 1.
pub(crate) fn line_of<S: TextSource>(
    alloc: Global,
    texts: &S,
    path: &str,
    number: u64,
) -> Result<Vec<u8>, Stop> {
    let mut text = open_text(alloc, texts, path)?;
    let mut wanted = LineSearch {
        left: number.saturating_sub(1),
        kept: Vec::new(alloc),
        is_found: false,
    };
    if read_wanted(alloc, &mut text, &mut wanted)? {
        Ok(wanted.kept)
    } else {
        Err(changed_file(alloc, path))
    }
}
