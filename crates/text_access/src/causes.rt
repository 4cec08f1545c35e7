//! Why a text could not be read, or an output could not be written. The words are for people: they may change, and no
//! program should parse them.

use std::io;
use std::io::ErrorKind;

/// Why a text could not be read, or an output could not be written.
#[derive(Clone, Copy)]
pub enum Cause {
    NoFile,
    Denied,
    Folder,
    NoSession,
    NoFolder,
    Links,
    LongName,
    WrongName,
    FullDevice,
    Quota,
    LargeFile,
    ReadOnly,
    InUse,
    BrokenPipe,
    Closed,
    NotReady,
    NotTaken,
    NoMemory,
    NotOpen,
    Device,
    ManyFiles,
    Other,
    TooLong,
    TooManyReads,
}

impl Cause {
    /// Returns the cause in words.
    pub fn words(self) -> &'static str {
        match self {
            Cause::NoFile => "no such file or directory",
            Cause::Denied => "permission denied",
            Cause::Folder => "it is a directory",
            Cause::NoSession => "its files make no session",
            Cause::NoFolder => "a part of its path is not a directory",
            Cause::Links => "its path has too many symbolic links",
            Cause::LongName => "its name is too long",
            Cause::WrongName => "the system does not take this name",
            Cause::FullDevice => "no space left on the device",
            Cause::Quota => "the disk quota is exceeded",
            Cause::LargeFile => "the file would be too large",
            Cause::ReadOnly => "the file system is read-only",
            Cause::InUse => "the file is in use",
            Cause::BrokenPipe => "nobody reads the pipe any more",
            Cause::Closed => "the connection was closed",
            Cause::NotReady => "it has no bytes ready",
            Cause::NotTaken => "no more bytes are taken",
            Cause::NoMemory => "out of memory",
            Cause::NotOpen => "it is closed, or not open for this",
            Cause::Device => "input/output error",
            Cause::ManyFiles => "too many open files",
            Cause::Other => "the system reports an error of another kind",
            Cause::TooLong =>
                "longer than the limit for such a text; \"postcopy window\" takes a recording of any size",
            Cause::TooManyReads => "the text comes in too many pieces",
        }
    }
}

/// The system's error number for a file that is not open.
const NOT_OPEN: i32 = 9;

/// The error number for a device error.
const INPUT_OUTPUT: i32 = 5;

/// The error numbers for too many open files: in the system, and in the process.
const FULL_SYSTEM: i32 = 23;

const FULL_PROCESS: i32 = 24;

/// Returns why the system failed to read or write.
pub fn cause_of(error: &io::Error) -> Cause {
    match error.kind() {
        ErrorKind::NotFound => Cause::NoFile,
        ErrorKind::PermissionDenied => Cause::Denied,
        ErrorKind::IsADirectory => Cause::Folder,
        ErrorKind::InvalidData => Cause::NoSession,
        ErrorKind::NotADirectory => Cause::NoFolder,
        ErrorKind::FilesystemLoop => Cause::Links,
        ErrorKind::InvalidFilename => Cause::LongName,
        ErrorKind::InvalidInput => Cause::WrongName,
        ErrorKind::StorageFull => Cause::FullDevice,
        ErrorKind::QuotaExceeded => Cause::Quota,
        ErrorKind::FileTooLarge => Cause::LargeFile,
        ErrorKind::ReadOnlyFilesystem => Cause::ReadOnly,
        ErrorKind::ResourceBusy | ErrorKind::ExecutableFileBusy => Cause::InUse,
        ErrorKind::BrokenPipe => Cause::BrokenPipe,
        ErrorKind::ConnectionReset | ErrorKind::ConnectionAborted => Cause::Closed,
        ErrorKind::WouldBlock => Cause::NotReady,
        ErrorKind::WriteZero => Cause::NotTaken,
        ErrorKind::OutOfMemory => Cause::NoMemory,
        _ => cause_by_number(error),
    }
}

/// Returns why the system failed to read or write, given the number of an error that has no kind of its own.
fn cause_by_number(error: &io::Error) -> Cause {
    let number = error.raw_os_error().unwrap_or(0);
    if number == NOT_OPEN {
        return Cause::NotOpen;
    }
    if number == INPUT_OUTPUT {
        return Cause::Device;
    }
    if number == FULL_SYSTEM || number == FULL_PROCESS {
        return Cause::ManyFiles;
    }
    Cause::Other
}
