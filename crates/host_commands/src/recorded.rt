//! Writing what a command that records a session answers.

ghost use Rattle.std.specs.Prelude.{◌++◌, IsOkAnd, OnOk};
ghost use Rattle.std.specs.Io.KnownBytes.{Appends};
ghost use Rattle.text_lines.specs.Text.{ended};
ghost use Rattle.text_access.specs.Written.{AppendsFront};
ghost use Rattle.session_log.specs.Grammar.{session_lines};
ghost use Rattle.command_texts.specs.Answers.{IsListStop, Says};
ghost use Rattle.host_commands.specs.Written.{Has, IsWritten};

use command_texts::{ACCEPTED, Answer, Fault, STANDARD_OUTPUT, written};
use migration_types::Session;
use session_log::{Room, write_in_pieces};
use std::alloc::{AllocError, Global};
use std::io::Write;
use text_access::{Cause, write_or_why};

/// Writes the text of a session, and then these bytes.
fn write_both<O: Write>(
    room: &mut Room,
    session: &Session,
    behind: &[u8],
    output: &mut O,
) -> Result<(), Cause>
    ensures front { AppendsFront (O.contents output.old) (O.contents output.new) (ended (session_lines session.now) ++ behind.now) }
    ensures whole { OnOk result (Appends (O.contents output.old) (O.contents output.new) (ended (session_lines session.now) ++ behind.now)) }
{
    write_in_pieces(room, session, output)?;
    write_or_why(output, behind)
}

/// Writes the text of a session in pieces, and then these bytes. If memory runs out, nothing is written.
pub(crate) fn write_recorded<O: Write>(
    alloc: Global,
    session: &Session,
    behind: &[u8],
    output: &mut O,
) -> Result<u8, Fault<'static>>
    ensures { IsWritten IsListStop (Has (ended (session_lines session.now) ++ behind.now) 0) (O.contents output.old) (O.contents output.new) result }
{
    let Ok(mut room) = Room::new(alloc) else {
        return Err(Fault::Memory);
    };
    match write_both(&mut room, session, behind, output) {
        Ok(()) => Ok(ACCEPTED),
        Err(cause) => Err(Fault::Output(STANDARD_OUTPUT, cause.words())),
    }
}

/// Writes an answer that is held whole.
pub(crate) fn write_held<O: Write>(
    answer: Result<Answer, AllocError>,
    output: &mut O,
) -> Result<u8, Fault<'static>>
    ensures { IsWritten IsListStop (λ text status. IsOkAnd answer (λ a. Says a text status)) (O.contents output.old) (O.contents output.new) result }
{
    match answer {
        Ok(answer) => written(&answer, output),
        Err(_) => Err(Fault::Memory),
    }
}
