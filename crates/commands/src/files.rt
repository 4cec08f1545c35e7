//! The texts of files.

use std::alloc::{AllocError, Global};
use std::fs::OpenFile;
use std::io::{ErrorKind, Read};
use std::os::unix::fs::{FileTypeExt, MetadataExt};
use std::rt::Files;
use std::{fs, io, str};
use text_access::TextSource;

/// The files of the system.
#[derive(Drop)]
pub struct Disk<'a, R> {
    pub rt: &'a R,
}

// How many bytes of names are read at a time. A read takes whole names alone, so it needs room for the longest.
const NAMES_BYTES: usize = 65_536;

// Returns the names in a folder, each ended by a byte 0.
fn listed<R: Files>(rt: &R, alloc: Global, folder: &str) -> io::Result<Vec<u8>> {
    if folder.is_empty() {
        return Err(io::Error::from(ErrorKind::NotFound));
    }
    let path = format!(in alloc; "{folder}/")?;
    let mut opened = rt.open_dir(path.as_str())?;
    let mut piece = vec![in alloc; 0u8; NAMES_BYTES]?;
    let mut names = Vec::new(alloc);
    for _ in 0..u64::MAX {
        let count = opened.read(piece.as_mut_slice())?;
        if count == 0 {
            break;
        }
        names.extend_from_slice(&piece[..count])?;
    }
    Ok(names)
}

// Adds a name to a list, if it is UTF-8 and that of something in a folder.
fn push_name(alloc: Global, names: &mut Vec<String>, name: &[u8]) -> Result<(), AllocError> {
    match str::from_utf8(name) {
        Ok("" | "." | "..") | Err(_) => {}
        Ok(name) => names.push(String::from_str(alloc, name)?)?,
    }
    Ok(())
}

impl<R: Files> TextSource for Disk<'_, R>
where
    R::File: Send,
{
    type Text = R::File;

    fn text(&self, name: &str) -> io::Result<R::File> {
        let file = fs::open(self.rt, name)?;
        match file.metadata() {
            Ok(found) if found.is_dir() => Err(io::Error::from(ErrorKind::IsADirectory)),
            _ => Ok(file),
        }
    }

    fn stays(&self, name: &str) -> bool {
        match fs::metadata(self.rt, name) {
            Ok(found) => !found.file_type().is_fifo(),
            Err(_) => true,
        }
    }

    fn names(&self, alloc: Global, folder: &str) -> io::Result<Vec<String>> {
        let listed = listed(self.rt, alloc, folder)?;
        let mut names = Vec::new(alloc);
        for name in listed.as_slice().split(|byte| *byte == 0) {
            push_name(alloc, &mut names, name)?;
        }
        Ok(names)
    }

    fn is_one(&self, folder: &str, other: &str) -> bool {
        match (fs::metadata(self.rt, folder), fs::metadata(self.rt, other)) {
            (Ok(folder), Ok(other)) => folder.dev() == other.dev() && folder.ino() == other.ino(),
            _ => folder == other,
        }
    }
}
