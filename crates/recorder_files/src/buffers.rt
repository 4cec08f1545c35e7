//! Reading into a buffer.

ghost use Rattle.std.specs.Prelude.{◌≡◌, ◌-◌, ◌<◌, ◌≤◌, drop, length, take, IfErr, IfOk};
ghost use Rattle.recorder_files.specs.inner.Finding.{IsReadFault, ReadsBehind};

use crate::files::FileFault;
use std::io;
use std::io::{ErrorKind, Read};

/// How often an interrupted read is retried, at most.
const MOST_RETRIES: u32 = 1_048_576;

/// Reads into a buffer after this many bytes at its front, and returns how many bytes are there now. Retries an
/// interrupted read. Fails if a read failed, or memory ran out for it.
pub(crate) fn read_behind<R: Read>(
    reader: &mut R,
    buffer: &mut [u8],
    kept: usize,
) -> Result<usize, FileFault>
    requires { kept < length buffer.old }
    ensures found { IfOk result (λ filled. ReadsBehind (R.remaining reader.old) (R.remaining reader.new) buffer.old buffer.new kept filled) }
    ensures len { length buffer.new ≡ length buffer.old }
    ensures fault { IfErr result IsReadFault }
{
    for _ in 0..MOST_RETRIES {
        match reader.read(&mut buffer[kept..]) {
            Ok(count) => return Ok(kept + count),
            Err(error) => {
                if error.kind() != ErrorKind::Interrupted {
                    return Err(fault_of(&error));
                }
            }
        }
    }
    Err(FileFault::File)
}

/// Returns the fault for an error of a read.
fn fault_of(error: &io::Error) -> FileFault
    ensures { IsReadFault result }
{
    if error.kind() == ErrorKind::OutOfMemory {
        FileFault::Memory
    } else {
        FileFault::File
    }
}

/// Moves the bytes between two places to the front.
pub(crate) fn move_front(buffer: &mut [u8], start: usize, end: usize)
    requires order { start ≤ end }
    requires within { end ≤ length buffer.old }
    ensures moved { take (end - start) buffer.new ≡ take (end - start) (drop start buffer.old) }
    ensures len { length buffer.new ≡ length buffer.old }
{
    buffer.copy_within(start..end, 0);
}
