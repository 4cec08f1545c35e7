//! Why no session is made.

ghost use Rattle.std.specs.Prelude.{◌≡◌, ◌∷◌, ◌++◌, [], OnOk};

use std::alloc::AllocError;
use std::io;
use std::io::ErrorKind;
use text_access::cause_of;

/// Why no session is made.
#[derive(Drop)]
pub(crate) enum Stop {
    /// The files make no session. The words say why.
    Unfit(Vec<u8>),
    /// The file or the folder under this name was not read. The words give the cause.
    File(String, &'static str),
    /// The output was not written. The words give the cause.
    Output(&'static str),
    /// Memory ran out.
    Memory,
}

impl From<AllocError> for Stop {
    fn from(_error: AllocError) -> Self {
        Stop::Memory
    }
}

/// The cause if a file was not read to its end, or files have changed since they were surveyed.
pub(crate) const NOT_READ: &str = "the file was not read to its end, or has changed since";

/// The cause if a file is a pipe.
pub(crate) const NOT_THE_SAME: &str =
    "it is read several times and has to be the same each time, as a pipe is not";

/// Adds an item to a list.
pub(crate) fn add<T: Drop>(items: &mut Vec<T>, item: T) -> Result<(), AllocError>
    ensures { OnOk result (items.new.items ≡ items.old.items ++ item ∷ []) }
{
    items.push(item)?;
    Ok(())
}

/// Returns why a file was not read.
pub(crate) fn unread(path: String, error: &io::Error) -> Stop {
    match error.kind() {
        ErrorKind::OutOfMemory => Stop::Memory,
        _ => Stop::File(path, cause_of(error).words()),
    }
}
