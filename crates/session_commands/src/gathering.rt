//! The session of the files that recorders left in folders, without a text.

ghost use Rattle.std.specs.Prelude.{◌≡◌, ℕ, List, [], ◌∷◌, Option, IfOk, IfSome, map, string_bytes};
ghost use Rattle.command_words.specs.declared.requests.Lacking.TheVariants.{Refused};
ghost use Rattle.text_access.specs.Names.{names_of};
ghost use Rattle.text_access.specs.Written.{Gains};
ghost use Rattle.session_commands.specs.Found.{AreCompressed, AreFound};
ghost use Rattle.session_commands.specs.declared.found.FoundLogs.{FoundLogs as Found};
ghost use Rattle.walked_sessions.specs.Held.{HasMet, IsHeld};
ghost use Rattle.session_commands.specs.Files.{IsTextOf};
ghost use Rattle.session_commands.specs.Texts.{HasText, IsSessionText};
ghost use Rattle.session_commands.specs.inner.Seen.{IsKnownAndMet};

use crate::finder::FactFinder;
use crate::found::{FoundFiles, FoundLogs, find_files};
use crate::making::{Known, counts_of, know, say_lacking};
use crate::performing::{leave_out, tell_stop};
use crate::stops::Stop;
use crate::surveys::find_logs;
use command_words::Lacking;
use migration_types::Session;
use recorder_files::Front;
use std::alloc::{AllocError, Global};
use std::io;
use std::io::{ErrorKind, Write};
use text_access::TextSource;
use walked_sessions::{HeldRecording, Room, Senders};

/// Why files give no session.
#[derive(Drop)]
pub(crate) enum Unmade {
    /// It was said.
    Said,
    /// It is not yet said.
    Stopped(Stop),
}

impl From<Stop> for Unmade {
    fn from(stop: Stop) -> Self {
        Unmade::Stopped(stop)
    }
}

impl From<AllocError> for Unmade {
    fn from(_error: AllocError) -> Self {
        Unmade::Stopped(Stop::Memory)
    }
}

/// Returns the session of a recording that is known and was met, and lacks nothing, if it is within the limits of a session.
fn session_of(finder: FactFinder<HeldRecording>, known: Known) -> Result<Option<Session>, Unmade>
    requires met { HasMet finder.other }
    requires whole { known.said.items ≡ [] }
    ensures { (files : List ℕ → Option (List ℕ)) (logs : Found) → IsKnownAndMet (IsHeld finder.other) files logs known → IfOk result (λ found. IfSome found (HasText (IsTextOf files logs Refused))) }
{
    let FactFinder { facts, other } = finder;
    drop(facts);
    let Known {
        machine,
        init,
        messages,
        ..
    } = known;
    drop(messages);
    match other.into_session(machine.version, machine.size, init)? {
        Some(session) => {
            session.keeps_limits();
            Ok(Some(session))
        }
        None => Ok(None),
    }
}

/// Returns the session of a recording that is known and was met, if it is within the limits of a session. Says what is lacking.
fn whole_session<E: Write>(
    finder: FactFinder<HeldRecording>,
    known: Known,
    errors: &mut E,
) -> Result<Option<Session>, Unmade>
    requires { HasMet finder.other }
    ensures { (files : List ℕ → Option (List ℕ)) (logs : Found) → IsKnownAndMet (IsHeld finder.other) files logs known → IfOk result (λ found. IfSome found (HasText (IsTextOf files logs Refused))) }
{
    if !say_lacking(known.said.as_slice(), Lacking::Refused, errors) {
        drop(known);
        drop(finder);
        return Err(Unmade::Said);
    }
    session_of(finder, known)
}

/// Returns the session of the files of logs, given the senders that their records name. Says what is lacking.
fn gather_files<S: TextSource, E: Write>(
    alloc: Global,
    texts: &S,
    logs: &FoundLogs,
    senders: Senders,
    errors: &mut E,
) -> Result<Option<Session>, Unmade>
    ensures { IfOk result (λ found. IfSome found (HasText (IsTextOf (S.bytes_of texts.now) logs.now Refused))) }
{
    let expected = expected_of(logs, &senders)?;
    // The pages come last, and take memory that is free then.
    let room = Room {
        guest: expected.guest,
        source: expected.source,
        link: expected.link,
        lane: expected.lane,
        pager: expected.pager,
    };
    let held = HeldRecording::new(alloc, room);
    let mut finder = FactFinder::new(alloc, held, expected);
    match know(&mut finder, alloc, texts, logs, Some(senders)) {
        Ok(known) => whole_session(finder, known, errors),
        Err(stop) => {
            drop(finder);
            Err(Unmade::Stopped(stop))
        }
    }
}

/// Returns how many records of each log there are, as the files of logs were surveyed.
fn expected_of(logs: &FoundLogs, senders: &Senders) -> Result<Front, AllocError> {
    let counts = counts_of(logs)?;
    Ok(Front {
        link: counts.link.max(senders.link() as u64),
        lane: counts.lane.max(senders.lane() as u64),
        ..counts
    })
}

/// The largest block that the C library lets decide which blocks it keeps when they are given back: those that are no larger than
/// the largest that was given back so far. Memory of larger ones goes to the system, which clears each page anew.
const LARGEST_KEPT: usize = 33_488_896;

/// Returns the session of the files that were found in folders. Says what is lacking.
fn gather<S: TextSource, E: Write>(
    alloc: Global,
    texts: &S,
    folders: &[&str],
    found: &FoundFiles,
    errors: &mut E,
) -> Result<Option<Session>, Unmade>
    requires found { AreFound (S.names_in texts.now) (names_of folders.now) found.now.files.items }
    requires compressed { AreCompressed (S.names_in texts.now) (names_of folders.now) (map string_bytes found.now.compressed.items) }
    ensures { IfOk result (λ found. IfSome found (HasText (IsSessionText (S.names_in texts.now) (S.bytes_of texts.now) (names_of folders.now) Refused))) }
{
    let goes_on = leave_out(alloc, Lacking::Refused, found.compressed.as_slice(), errors)?;
    if !goes_on {
        return Err(Unmade::Said);
    }
    let mut senders = Senders::new(alloc);
    let logs = find_logs(alloc, texts, folders, found, &mut senders)?;
    let session = gather_files(alloc, texts, &logs, senders, errors);
    drop(logs);
    session
}

/// Says why there is no session, unless it was said, and returns the error of that.
#[tactic(auto, using(crate::proofs::Gained::same))]
pub(crate) fn say<E: Write>(alloc: Global, why: Unmade, errors: &mut E) -> io::Error
    ensures { Gains (E.contents errors.old) (E.contents errors.new) }
{
    let Unmade::Stopped(stop) = why else {
        return io::Error::from(ErrorKind::InvalidData);
    };
    match tell_stop(alloc, stop, errors) {
        Ok(_) => io::Error::from(ErrorKind::InvalidData),
        // The session is held, so there is no output that fails.
        Err(_) => io::Error::from(ErrorKind::OutOfMemory),
    }
}

/// Returns the session of the files that recorders left in a folder, without a text in between. Answers `None` if the folder cannot be
/// listed, and if its files make a recording that is beyond the limits of a session: its text tells where. The files are read once.
///
/// # Errors
///
/// If `session` would not end with status 0, the errors say why, as `session` does, and the error is that of data that is not valid. Or
/// memory runs out.
pub fn gather_session<S: TextSource, E: Write>(
    alloc: Global,
    texts: &S,
    folder: &str,
    errors: &mut E,
) -> io::Result<Option<Session>>
    ensures { IfOk result (λ found. IfSome found (HasText (IsSessionText (S.names_in texts.now) (S.bytes_of texts.now) (folder.now ∷ []) Refused))) }
{
    // From here on the C library keeps the memory of large blocks, so that later ones take it.
    let block: Result<Vec<u8>, AllocError> = Vec::with_capacity(alloc, LARGEST_KEPT);
    drop(block);
    let folders = [folder];
    let found = match find_files(alloc, texts, &folders) {
        Ok(found) => found,
        Err(Stop::Memory) => return Err(io::Error::from(ErrorKind::OutOfMemory)),
        Err(_) => return Ok(None),
    };
    let gathered = gather(alloc, texts, &folders, &found, errors);
    drop(found);
    match gathered {
        Ok(session) => Ok(session),
        Err(why) => Err(say(alloc, why, errors)),
    }
}
