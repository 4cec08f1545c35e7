//! The command `session`.

ghost use Rattle.std.specs.Prelude.{◌≡◌, ◌<◌, ◌⊎◌, [], Ok, IfErr, IfOk, IsTrue, map, string_bytes};
ghost use Rattle.std.specs.Io.KnownBytes.{Keeps};
ghost use Rattle.command_words.specs.declared.requests.Lacking.TheVariants.{Refused};
ghost use Rattle.command_texts.specs.Several.{IsListStatus, TellsOneUnread};
ghost use Rattle.session_commands.specs.Found.{AreCompressed, AreFound};
ghost use Rattle.text_access.specs.Names.{names_of};
ghost use Rattle.text_access.specs.Written.{BothGain, Gains};
ghost use Rattle.session_commands.specs.Texts.{WritesSession};
ghost use Rattle.session_commands.specs.inner.Seen.{IsUnfit};

use crate::found::{FoundFiles, find_files};
use crate::making::{say_lacking, settle};
use crate::stops::Stop;
use crate::surveys::find_logs;
use crate::words::{Piece, push_message, tell_each};
use command_texts::{Console, Fault, REFUSED, STANDARD_OUTPUT, given, tell};
use command_words::Lacking;
use recorder_files::NoOnlooker;
use std::alloc::{AllocError, Global};
use std::io::Write;
use text_access::{TextSource, write_whole};

/// What is said of a file that is only there compressed, with nothing in front of its name.
const COMPRESSED: &str = "{}{} is compressed, and is not read: unpack it first";

/// Says which recorders' files are only there compressed. They are left out, if that is asked for. Returns whether the others are to be
/// read.
#[tactic(auto, using(crate::proofs::Gained::same, crate::proofs::Gained::front, crate::proofs::Gained::both))]
pub(crate) fn leave_out<E: Write>(
    alloc: Global,
    lacking: Lacking,
    compressed: &[String],
    errors: &mut E,
) -> Result<bool, AllocError>
    ensures asked { IfOk result (λ goes_on. IsTrue goes_on → lacking ≡ Refused → compressed.now ≡ []) }
    ensures gains { Gains (E.contents errors.old) (E.contents errors.new) }
{
    let mut said = Vec::new(alloc);
    tell_each(&mut said, alloc, COMPRESSED, Piece::Text(""), compressed)?;
    Ok(say_lacking(said.as_slice(), lacking, errors))
}

/// Makes the session of the files that were found in folders, and says what else is lacking.
#[tactic(auto, using(crate::proofs::Gained::same, crate::proofs::Gained::front, crate::proofs::Gained::both))]
fn make_of<S: TextSource, O: Write, E: Write>(
    alloc: Global,
    texts: &S,
    lacking: Lacking,
    folders: &[&str],
    found: &FoundFiles,
    output: &mut O,
    errors: &mut E,
) -> Result<u8, Stop>
    requires found { AreFound (S.names_in texts.now) (names_of folders.now) found.now.files.items }
    requires asked { lacking ≡ Refused → AreCompressed (S.names_in texts.now) (names_of folders.now) [] }
    ensures few { IfOk result (λ status. status < 2) }
    ensures written { IfOk result (λ status. status ≡ 0 → WritesSession (S.names_in texts.now) (S.bytes_of texts.now) (names_of folders.now) lacking (O.contents output.old) (O.contents output.new)) }
    ensures refused { IfOk result (λ status. status ≡ 1 → Keeps (O.contents output.old) (O.contents output.new)) }
    ensures unfit { IfErr result (λ stop. IsUnfit stop → Keeps (O.contents output.old) (O.contents output.new)) }
    ensures gains { BothGain (O.contents output.old, E.contents errors.old) (O.contents output.new, E.contents errors.new) }
{
    let logs = find_logs(alloc, texts, folders, found, &mut NoOnlooker)?;
    let status = settle(alloc, texts, lacking, &logs, output, errors);
    drop(logs);
    status
}

/// Makes the session of the files in folders, and says what is lacking.
#[tactic(auto, using(crate::proofs::Gained::same, crate::proofs::Gained::front, crate::proofs::Gained::both))]
fn make<S: TextSource, O: Write, E: Write>(
    alloc: Global,
    texts: &S,
    lacking: Lacking,
    folders: &[&str],
    output: &mut O,
    errors: &mut E,
) -> Result<u8, Stop>
    ensures few { IfOk result (λ status. status < 2) }
    ensures written { IfOk result (λ status. status ≡ 0 → WritesSession (S.names_in texts.now) (S.bytes_of texts.now) (names_of folders.now) lacking (O.contents output.old) (O.contents output.new)) }
    ensures refused { IfOk result (λ status. status ≡ 1 → Keeps (O.contents output.old) (O.contents output.new)) }
    ensures unfit { IfErr result (λ stop. IsUnfit stop → Keeps (O.contents output.old) (O.contents output.new)) }
    ensures gains { BothGain (O.contents output.old, E.contents errors.old) (O.contents output.new, E.contents errors.new) }
{
    let found = find_files(alloc, texts, folders)?;
    let goes_on = leave_out(alloc, lacking, found.compressed.as_slice(), errors)?;
    if !goes_on {
        drop(found);
        return Ok(REFUSED);
    }
    let status = make_of(alloc, texts, lacking, folders, &found, output, errors);
    drop(found);
    status
}

/// Reports why the files make no session.
#[tactic(auto, using(crate::proofs::Gained::same, crate::proofs::Gained::front, crate::proofs::Gained::both))]
fn tell_unfit<E: Write>(alloc: Global, words: &[u8], errors: &mut E) -> Result<u8, AllocError>
    ensures refused { IfOk result (λ status. status ≡ 1) }
    ensures gains { Gains (E.contents errors.old) (E.contents errors.new) }
{
    let mut line = Vec::new(alloc);
    push_message(&mut line, words)?;
    write_whole(errors, line.as_slice());
    Ok(REFUSED)
}

/// Reports why no session was made, and returns the status of that.
#[tactic(auto, using(crate::proofs::Gained::same, crate::proofs::Gained::front, crate::proofs::Gained::both))]
pub(crate) fn tell_stop<'a, E: Write>(
    alloc: Global,
    stop: Stop,
    errors: &mut E,
) -> Result<u8, Fault<'a>>
    ensures known { IfOk result (λ status. (status ≡ 1) ⊎ (status ≡ 3)) }
    ensures unfit { IfOk result (λ status. status ≡ 1 → IsUnfit stop) }
    ensures unread { IfOk result (λ status. status ≡ 3 → TellsOneUnread (E.contents errors.old) (E.contents errors.new)) }
    ensures gains { Gains (E.contents errors.old) (E.contents errors.new) }
{
    match stop {
        Stop::Unfit(words) => given(tell_unfit(alloc, words.as_slice(), errors)),
        Stop::File(name, why) => Ok(tell(Fault::File(name.as_str(), why), errors)),
        Stop::Output(why) => Err(Fault::Output(STANDARD_OUTPUT, why)),
        Stop::Memory => Err(Fault::Memory),
    }
}

/// `session`: makes the session of the files that recorders left in folders, and writes its text as the files are read.
///
/// The status is 0 if the text was written, and 1 if something is missing and what is left is not asked for, or if the
/// files make no session. It is 3 if a file was not read. The errors say why.
#[tactic(auto, using(crate::proofs::Gained::same, crate::proofs::Gained::front, crate::proofs::Gained::both))]
pub fn perform_session<'a, R, S: TextSource, I, O: Write, E: Write>(
    console: &mut Console<'_, R, S, I, O, E>,
    lacking: Lacking,
    folders: &[&'a str],
) -> Result<u8, Fault<'a>>
    ensures known { IfOk result IsListStatus }
    ensures unread { IfOk result (λ status. status ≡ 3 → TellsOneUnread (E.contents console.old.errors) (E.contents console.new.errors)) }
    ensures written { result ≡ Ok 0 → WritesSession (S.names_in console.old.texts.now) (S.bytes_of console.old.texts.now) (names_of folders.now) lacking (O.contents console.old.output) (O.contents console.new.output) }
    ensures refused { result ≡ Ok 1 → Keeps (O.contents console.old.output) (O.contents console.new.output) }
    ensures gains { BothGain (O.contents console.old.output, E.contents console.old.errors) (O.contents console.new.output, E.contents console.new.errors) }
{
    let alloc = console.alloc;
    match make(
        alloc,
        console.texts,
        lacking,
        folders,
        &mut console.output,
        &mut console.errors,
    ) {
        Ok(status) => Ok(status),
        Err(stop) => tell_stop(alloc, stop, &mut console.errors),
    }
}
