//! Drafts of files, and where their names lead.

use crate::files::Disk;
use crate::sinks::TextSink;
use std::alloc::{AllocError, Global};
use std::fs::{self, Metadata, OpenFile, OpenOptions, Permissions};
use std::io::{self, ErrorKind, Seek, SeekFrom, Write};
use std::os::fd::AsFd;
use std::os::unix::fs::{MetadataExt, OpenOptionsExt, PermissionsExt, fchown};
use std::path::PathBuf;
use std::random::RandomSource;
use std::rt::Files;

/// The most links that lead to a file. The system follows no more.
const MOST_LINKS: u32 = 40;

/// The most names to try for a draft.
const MOST_NAMES: u32 = 64;

/// The mode of a new file, before the process's mask.
const NEW_MODE: u32 = 0o666;

/// The permission bits of a mode.
const MODE_BITS: u32 = 0o777;

/// The bits of a folder that all may write to, and where each removes their own files alone, such as `/tmp`.
const SHARED_BITS: u32 = 0o1002;

/// Where a name leads.
#[derive(Drop)]
pub(crate) enum Destination {
    /// To a regular file, or to none yet. The name is no link.
    Named(PathBuf, Option<Metadata>),
    /// To something that is written in place: a device, a pipe, a folder, or an open file of a process.
    Fixed,
}

// Returns whether a link is one of those from a process to its open files. `/dev/stdout` leads to one of those.
fn is_of_process<F: Files>(files: &F, link: &Metadata) -> bool {
    match fs::metadata(files, "/proc") {
        Ok(found) => found.dev() == link.dev(),
        Err(_) => false,
    }
}

// Returns the system's data on a folder. The name of the current folder is empty.
fn folder_data<F: Files>(files: &F, folder: &str) -> io::Result<Metadata> {
    fs::metadata(files, if folder == "" { "." } else { folder })
}

// Returns whether the process's user owns a file, as far as it can be known.
fn is_own<F: Files>(files: &F, file: &Metadata) -> bool {
    match fs::metadata(files, "/proc/self") {
        Ok(found) => found.uid() == file.uid(),
        Err(_) => false,
    }
}

// Returns whether a link is followed, by the rule that the system has where `fs.protected_symlinks` is set: in a folder that
// all may write to, such as `/tmp`, only if it belongs to the process's user or to the folder's owner. Nobody else can put
// another link in the place of such a one.
fn may_follow<F: Files>(files: &F, at: &PathBuf, link: &Metadata) -> io::Result<bool> {
    let Some(folder) = at.parent() else {
        return Ok(true);
    };
    let folder = folder_data(files, folder.as_str())?;
    let is_shared = folder.mode() & SHARED_BITS == SHARED_BITS;
    Ok(!is_shared || link.uid() == folder.uid() || is_own(files, link))
}

/// Returns where a name leads, after all links are followed.
pub(crate) fn destination_of<F: Files>(
    files: &F,
    alloc: Global,
    name: &str,
) -> io::Result<Destination> {
    let mut at = PathBuf::from_str(alloc, name)?;
    for _ in 0..MOST_LINKS {
        let found = match fs::symlink_metadata(files, at.as_str()) {
            Ok(found) => found,
            Err(error) if error.kind() == ErrorKind::NotFound => {
                return Ok(Destination::Named(at, None));
            }
            Err(error) => return Err(error),
        };
        if found.is_file() {
            return Ok(Destination::Named(at, Some(found)));
        }
        if !found.is_symlink() || is_of_process(files, &found) {
            return Ok(Destination::Fixed);
        }
        if !may_follow(files, &at, &found)? {
            return Err(io::Error::from(ErrorKind::PermissionDenied));
        }
        let leads_to = files.read_link(alloc, at.as_str())?;
        at = at.with_file_name(alloc, leads_to.as_str())?;
    }
    Err(io::Error::from(ErrorKind::FilesystemLoop))
}

// Returns whether two names are those of the same folder.
fn is_one_folder<F: Files>(files: &F, one: &str, other: &str) -> io::Result<bool> {
    let one = folder_data(files, one)?;
    let other = folder_data(files, other)?;
    Ok(one.dev() == other.dev() && one.ino() == other.ino())
}

/// Returns whether two names, which are no links, are the same name in the same folder.
pub(crate) fn is_one_name<F: Files>(files: &F, one: &PathBuf, other: &PathBuf) -> io::Result<bool> {
    if one.file_name() != other.file_name() {
        return Ok(false);
    }
    match (one.parent(), other.parent()) {
        (Some(one), Some(other)) => is_one_folder(files, one.as_str(), other.as_str()),
        _ => Ok(false),
    }
}

/// Returns whether two names lead to the same file, as far as it can be known: they are equal, or, after all links are
/// followed, they are the same name in the same folder.
pub(crate) fn is_one_file<F: Files>(
    files: &F,
    alloc: Global,
    one: &str,
    other: &str,
) -> io::Result<bool> {
    if one == other {
        return Ok(true);
    }
    match (
        destination_of(files, alloc, one)?,
        destination_of(files, alloc, other)?,
    ) {
        (Destination::Named(one, _), Destination::Named(other, _)) => is_one_name(
            files, &one, &other,
        ),
        _ => Ok(false),
    }
}

// Returns a number that nobody can guess.
fn random_number<R: RandomSource>(random: &R) -> io::Result<u64> {
    let mut bytes = [0; 8];
    random.fill_bytes(&mut bytes)?;
    Ok(u64::from_le_bytes(bytes))
}

// Returns the name of a draft in the folder of a file.
fn draft_name(alloc: Global, name: &PathBuf, number: u64) -> Result<PathBuf, AllocError> {
    let draft = format!(in alloc; ".postcopy-{number:016x}.part")?;
    name.with_file_name(alloc, draft.as_str())
}

// Creates a file in the folder of another, under a name that did not exist.
fn created<F: Files + RandomSource>(
    files: &F,
    alloc: Global,
    name: &PathBuf,
    mode: u32,
) -> io::Result<(PathBuf, F::File)> {
    for _ in 0..MOST_NAMES {
        let draft = draft_name(alloc, name, random_number(files)?)?;
        let opened = OpenOptions::new()
            .read(true)
            .write(true)
            .create_new(true)
            .mode(mode)
            .open(files, draft.as_str());
        match opened {
            Ok(file) => return Ok((draft, file)),
            Err(error) if error.kind() == ErrorKind::AlreadyExists => {}
            Err(error) => return Err(error),
        }
    }
    Err(io::Error::from(ErrorKind::AlreadyExists))
}

// Gives an open file the owner and the group of the file that it replaces. If the process may not, it tries the group
// alone. (By its name it could be another file by then: who owns the folder can put a link there.)
fn keep_owner<W: OpenFile + AsFd>(file: &W, old: &Metadata, new: &Metadata) {
    if old.uid() == new.uid() && old.gid() == new.gid() {
        return;
    }
    let group = Some(old.gid());
    if fchown(file, Some(old.uid()), group).is_err() {
        let _ = fchown(file, None, group);
    }
}

// Gives an open file the mode of the file that it replaces, and its owner, as far as possible.
fn keep_access<W: OpenFile + AsFd>(file: &W, old: &Metadata) -> io::Result<()> {
    keep_owner(file, old, &file.metadata()?);
    let mode = old.mode() & MODE_BITS;
    if file.metadata()?.mode() & MODE_BITS == mode {
        return Ok(());
    }
    file.set_permissions(Permissions::from_mode(mode))
}

/// A file that is being written. It has a name of its own, and gets the one that leads to another file, or to none yet.
#[derive(Drop)]
pub struct DraftFile<W> {
    draft: PathBuf,
    name: PathBuf,
    file: W,
}

// Begins a file that is to get this name. It has the mode and the owner of the file that it replaces.
fn begin_draft_file<F: Files + RandomSource>(
    files: &F,
    alloc: Global,
    name: PathBuf,
    old: &Option<Metadata>,
) -> io::Result<DraftFile<F::File>>
where
    F::File: AsFd,
{
    let mode = match old {
        Some(old) => old.mode() & MODE_BITS,
        None => NEW_MODE,
    };
    let (draft, file) = created(files, alloc, &name, mode)?;
    if let Some(old) = old {
        if let Err(error) = keep_access(&file, old) {
            let _ = fs::remove_file(files, draft.as_str());
            return Err(error);
        }
    }
    Ok(DraftFile { draft, name, file })
}

impl<R: Files + RandomSource> TextSink for Disk<'_, R>
where
    R::File: AsFd,
{
    type Draft = DraftFile<R::File>;

    fn begin(&self, alloc: Global, name: &str) -> io::Result<Option<DraftFile<R::File>>> {
        match destination_of(self.rt, alloc, name)? {
            Destination::Named(name, old) => {
                Ok(Some(begin_draft_file(self.rt, alloc, name, &old)?))
            }
            Destination::Fixed => Ok(None),
        }
    }

    fn add(&self, draft: &mut DraftFile<R::File>, bytes: &[u8]) -> io::Result<()> {
        draft.file.write_all(bytes)
    }

    fn store(&self, draft: &DraftFile<R::File>) -> io::Result<()> {
        draft.file.sync_all()
    }

    fn keep(&mut self, draft: &DraftFile<R::File>) -> io::Result<()> {
        fs::rename(self.rt, draft.draft.as_str(), draft.name.as_str())
    }

    fn remove(&self, draft: &DraftFile<R::File>) {
        let _ = fs::remove_file(self.rt, draft.draft.as_str());
    }

    // Appends to an open file of a process.
    fn write_in_place(&mut self, name: &str, text: &[u8]) -> io::Result<()> {
        let goes_on = fs::metadata(self.rt, name)?.is_file();
        OpenOptions::new()
            .write(true)
            .append(goes_on)
            .open(self.rt, name)?
            .write_all(text)
    }

    fn copy<O: Write>(&self, draft: &mut DraftFile<R::File>, output: &mut O) -> io::Result<()> {
        draft.file.seek(SeekFrom::Start(0))?;
        io::copy(&mut draft.file, output)?;
        Ok(())
    }
}
