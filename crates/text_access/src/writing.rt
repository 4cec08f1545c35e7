//! Writing bytes to an output. A failure leaves a front of them.

ghost use Rattle.std.specs.Prelude.{◌≡◌, true, OnErr, OnOk};
ghost use Rattle.std.specs.Io.KnownBytes.{Appends};
ghost use Rattle.text_access.specs.Written.{AppendsFront, AppendsPart};

use crate::causes::{Cause, cause_of};
use std::io::{ErrorKind, Write};

/// The most writes for a list of bytes.
const MOST_WRITES: u64 = u64::MAX;

/// Writes bytes. An error says why not all of them were written. An interrupted write is repeated.
pub fn write_or_why<W: Write>(output: &mut W, bytes: &[u8]) -> Result<(), Cause>
    ensures front { AppendsFront (W.contents output.old) (W.contents output.new) bytes.now }
    ensures whole { OnOk result (Appends (W.contents output.old) (W.contents output.new) bytes.now) }
    ensures part { OnErr result (AppendsPart (W.contents output.old) (W.contents output.new) bytes.now) }
{
    if bytes.is_empty() {
        return Ok(());
    }
    let mut count = 0;
    for _ in 0..MOST_WRITES {
        match output.write(&bytes[count..]) {
            Ok(0) => return Err(Cause::NotTaken),
            Ok(more) => {
                count += more;
                if count >= bytes.len() {
                    return Ok(());
                }
            }
            Err(error) => {
                if error.kind() != ErrorKind::Interrupted {
                    return Err(cause_of(&error));
                }
            }
        }
    }
    Err(Cause::NotTaken)
}

/// Writes bytes, and returns whether all of them were written. An interrupted write is repeated.
pub fn write_whole<W: Write>(output: &mut W, bytes: &[u8]) -> bool
    ensures front { AppendsFront (W.contents output.old) (W.contents output.new) bytes.now }
    ensures whole { result ≡ true → Appends (W.contents output.old) (W.contents output.new) bytes.now }
{
    match write_or_why(output, bytes) {
        Ok(()) => true,
        Err(_) => false,
    }
}
