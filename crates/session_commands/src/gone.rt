//! Recorders' folders from which the file with the recording's name is gone.

ghost use Rattle.text_access.specs.Written.{Gains};

use crate::compressed::is_among;
use command_texts::write_line_on;
use recorder_files::NAME_FILE;
use std::alloc::{AllocError, Global};
use std::io::{ErrorKind, Write};
use text_access::TextSource;

/// What is told of such a folder.
const GONE: &str =
    "note: the file recording-name is gone, which each recorder writes; that the files are of one recording is \
    known by their second lines";

/// Reports that the file with the recording's name is gone from a recorder's folder, if it is, as far as that can be known.
/// Fails only if memory runs out.
#[tactic(auto, using(crate::proofs::Gained::same, crate::proofs::Gained::front))]
pub(crate) fn tell_name_gone<D: TextSource, E: Write>(
    disk: &D,
    alloc: Global,
    folder: &str,
    errors: &mut E,
) -> Result<(), AllocError>
    ensures { Gains (E.contents errors.old) (E.contents errors.new) }
{
    match disk.names(alloc, folder) {
        Ok(names) => {
            if !is_among(names.as_slice(), NAME_FILE.as_bytes()) {
                write_line_on(errors, folder, GONE);
            }
            Ok(())
        }
        Err(error) if error.kind() == ErrorKind::OutOfMemory => Err(AllocError),
        Err(_) => Ok(()),
    }
}
