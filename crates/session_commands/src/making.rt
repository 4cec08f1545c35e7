//! The session of recorders' files, pass by pass.

ghost use Rattle.std.specs.Prelude.{◌≡◌, ◌↔◌, ◌<◌, [], IfErr, IfOk, IsTrue, OnOk};
ghost use Rattle.command_words.specs.declared.requests.Lacking.TheVariants.{Refused};
ghost use Rattle.migration_types.specs.Sessions.{Recorded, log_length};
ghost use Rattle.recordings.specs.Recordings.{IsMachine};
ghost use Rattle.recordings.specs.Wide.{extent_of};
ghost use Rattle.recorder_files.specs.Named.{IsNaming};
ghost use Rattle.walked_sessions.specs.Walks.{HasNoHole, WalksFiles};
ghost use Rattle.text_access.specs.Written.{BothGain, Gains};
ghost use Rattle.session_commands.specs.Files.{bytes_in, WritesText};
ghost use Rattle.std.specs.Io.KnownBytes.{Keeps};
ghost use Rattle.session_commands.specs.inner.Seen.{HasSeen, IsKnown, IsKnownAndMet, IsUnfit};
ghost use Rattle.session_commands.specs.Facts.{HasNone, IsFacts, ReachIn, SomeIn};
ghost use Rattle.session_commands.specs.Written.{IsWrittenFront};
ghost use Rattle.session_commands.specs.Telling.{SaysUnless};

use crate::ends::{Ends, tell_cut};
use crate::facts::Facts;
use crate::files::OpenedLogs;
use crate::finder::{FactFinder, Nobody};
use crate::forms::form_of;
use crate::found::FoundLogs;
use crate::machines::describe;
use crate::recording::FileRecording;
use crate::stops::Stop;
use crate::telling::{check_logs, tell_empty, tell_files, tell_unresumed};
use crate::walk_stops::{check_facts, walk_stop, write_stop};
use command_texts::{ACCEPTED, REFUSED};
use command_words::Lacking;
use migration_types::{LogName, Size, Version};
use recorder_files::Front;
use recordings::{Visitor, WideInit, WideMachine};
use std::alloc::{AllocError, Global};
use std::io::Write;
use text_access::{TextSource, write_whole};
use walked_sessions::{Messages, Senders, note_messages, walk_logs, write_recording};

/// What is said last where something is lacking, and is not to be left out.
const NOTHING_WRITTEN: &[u8] =
    b"session: nothing was written: repair this, or use session --cut to write what is left\n";

/// Goes through the logs with a visitor. Returns whether no log has a hole.
fn walk<S: TextSource, V: Visitor>(
    alloc: Global,
    machine: &WideMachine,
    files: &OpenedLogs<'_, S>,
    messages: &Messages,
    visitor: &mut V,
) -> Result<bool, Stop>
    requires new { V.IsNew visitor.old }
    requires machine { IsMachine (extent_of machine.now) }
    ensures { IfOk result (λ is_whole. (w : WalksFiles V.Met machine.now [] (bytes_in (S.bytes_of files.now.texts.now) files.now.logs.now) visitor.new) × (IsTrue is_whole ↔ HasNoHole w.made)) }
{
    match walk_logs(alloc, machine, &[], files, messages, visitor) {
        Ok(is_whole) => Ok(is_whole),
        Err(fault) => Err(walk_stop(alloc, files.texts, machine, files.logs, fault)),
    }
}

/// Returns the messages in the logs, given how many records the pager's has: those of the senders that were seen, or else each record
/// of the pager and of the source is read for them. Logs are not gone through with other messages than theirs.
fn messages_of<S: TextSource>(
    alloc: Global,
    machine: &WideMachine,
    files: &OpenedLogs<'_, S>,
    seen: Option<Senders>,
    pager: u64,
) -> Result<Messages, Stop>
    requires { IsMachine (extent_of machine.now) }
{
    match seen {
        Some(senders) => Ok(Messages::of(alloc, senders, pager)?),
        None => match note_messages(alloc, machine, files) {
            Ok(messages) => Ok(messages),
            Err(fault) => Err(walk_stop(alloc, files.texts, machine, files.logs, fault)),
        },
    }
}

/// Adds what is said of the logs that are cut to a front.
fn tell_cuts<S: TextSource>(
    said: &mut Vec<u8>,
    alloc: Global,
    files: &OpenedLogs<'_, S>,
    facts: &Facts,
    front: Front,
    ends: &Ends,
) -> Result<(), Stop>
    ensures { OnOk result ((s : Recorded) → IsNaming facts.now.naming s → SaysUnless said.old.items said.new.items (ReachIn s front)) }
{
    tell_cut(said, alloc, files, facts, front, ends, LogName::Guest)?;
    tell_cut(said, alloc, files, facts, front, ends, LogName::Source)?;
    tell_cut(said, alloc, files, facts, front, ends, LogName::Link)?;
    tell_cut(said, alloc, files, facts, front, ends, LogName::Lane)?;
    tell_cut(said, alloc, files, facts, front, ends, LogName::Pager)?;
    Ok(())
}

/// Adds which records a front leaves out, and why. The logs are gone through once more for that.
fn tell_left_out<S: TextSource>(
    said: &mut Vec<u8>,
    alloc: Global,
    machine: &WideMachine,
    files: &OpenedLogs<'_, S>,
    messages: &Messages,
    facts: &Facts,
    front: Front,
) -> Result<(), Stop>
    requires { IsMachine (extent_of machine.now) }
    ensures { OnOk result ((s : Recorded) → IsNaming facts.now.naming s → SaysUnless said.old.items said.new.items (ReachIn s front)) }
{
    if facts.naming.counts() == front {
        return Ok(());
    }
    let mut ends = Ends::new(alloc, front);
    let _ = walk(alloc, machine, files, messages, &mut ends)?;
    tell_cuts(said, alloc, files, facts, front, &ends)
}

/// A recording that was gone through, and is not yet written or held.
#[derive(Drop)]
pub(crate) struct Known {
    pub(crate) machine: WideMachine,
    pub(crate) init: Vec<WideInit>,
    pub(crate) messages: Messages,
    /// How many records of each log are written.
    front: Front,
    /// What is lacking, in lines.
    pub(crate) said: Vec<u8>,
}

/// How many records of each log are written, and the form of their text.
#[derive(Drop)]
pub(crate) struct Form {
    front: Front,
    version: Version,
    size: Size,
}

/// What the records of the logs tell before they are written.
#[derive(Drop)]
struct Seen {
    messages: Messages,
    form: Form,
}

/// Checks what is known of the records, and adds what is said of them. Returns how many of each log are written.
fn judge_facts<S: TextSource>(
    said: &mut Vec<u8>,
    alloc: Global,
    machine: &WideMachine,
    files: &OpenedLogs<'_, S>,
    messages: &Messages,
    facts: &Facts,
    has_all: bool,
    expected: Front,
) -> Result<Front, Stop>
    requires { IsMachine (extent_of machine.now) }
    ensures { IfOk result (λ front. (s : Recorded) → IsFacts facts.now s → IsWrittenFront s front × SaysUnless said.old.items said.new.items (IsTrue has_all × ReachIn s front × SomeIn (log_length s))) }
{
    check_facts(
        alloc,
        machine,
        files,
        facts,
        expected,
        said.as_slice(),
        has_all,
    )?;
    let front = facts.written_front();
    tell_unresumed(said, alloc, files, facts)?;
    tell_left_out(said, alloc, machine, files, messages, facts, front)?;
    tell_empty(said, alloc, facts.naming.counts())?;
    Ok(front)
}

/// Goes through the records of the logs, whose messages were noted, and adds what is said of them.
fn see_records<S: TextSource, V: Visitor>(
    finder: &mut FactFinder<V>,
    said: &mut Vec<u8>,
    alloc: Global,
    machine: &WideMachine,
    files: &OpenedLogs<'_, S>,
    messages: &Messages,
    expected: Front,
) -> Result<Form, Stop>
    requires new { HasNone finder.old.facts × V.IsNew finder.old.other }
    requires machine { IsMachine (extent_of machine.now) }
    ensures { IfOk result (HasSeen (V.Met finder.new.other) machine.now (bytes_in (S.bytes_of files.now.texts.now) files.now.logs.now) files.now.logs.now.lane said.old.items said.new.items) }
{
    let has_all = walk(alloc, machine, files, messages, finder)?;
    let facts = &finder.facts;
    let front = judge_facts(
        said, alloc, machine, files, messages, facts, has_all, expected,
    )?;
    let form = form_of(facts, front, machine, &files.logs.lane);
    Ok(Form {
        front,
        version: form.0,
        size: form.1,
    })
}

/// Goes through the records of the logs, and adds what is said of them.
fn see<S: TextSource, V: Visitor>(
    finder: &mut FactFinder<V>,
    said: &mut Vec<u8>,
    alloc: Global,
    machine: &WideMachine,
    files: &OpenedLogs<'_, S>,
    senders: Option<Senders>,
    expected: Front,
) -> Result<Seen, Stop>
    requires new { HasNone finder.old.facts × V.IsNew finder.old.other }
    requires machine { IsMachine (extent_of machine.now) }
    ensures { IfOk result (λ seen. HasSeen (V.Met finder.new.other) machine.now (bytes_in (S.bytes_of files.now.texts.now) files.now.logs.now) files.now.logs.now.lane said.old.items said.new.items seen.form) }
{
    let messages = messages_of(alloc, machine, files, senders, expected.pager)?;
    let form = see_records(finder, said, alloc, machine, files, &messages, expected)?;
    Ok(Seen { messages, form })
}

/// Goes through the files, up to what is to be known before the text is written or the session is there. A finder of facts, which is
/// new, and its other visitor meet the recording that they make with the widest machine, and with no initial pages.
pub(crate) fn know<S: TextSource, V: Visitor>(
    finder: &mut FactFinder<V>,
    alloc: Global,
    texts: &S,
    logs: &FoundLogs,
    senders: Option<Senders>,
) -> Result<Known, Stop>
    requires { HasNone finder.old.facts × V.IsNew finder.old.other }
    ensures { IfOk result (IsKnownAndMet (V.Met finder.new.other) (S.bytes_of texts.now) logs.now) }
{
    check_logs(alloc, texts, logs)?;
    let description = describe(alloc, texts, &logs.machine)?;
    let files = OpenedLogs { texts, logs };
    let mut said = Vec::new(alloc);
    let expected = tell_files(&mut said, alloc, &files, &description)?;
    let machine = WideMachine {
        version: Version::Two,
        size: Size::Large,
        pages: description.pages,
        cells: description.cells,
    };
    let seen = see(
        finder, &mut said, alloc, &machine, &files, senders, expected,
    )?;
    Ok(Known {
        machine: WideMachine {
            version: seen.form.version,
            size: seen.form.size,
            ..machine
        },
        init: description.init,
        messages: seen.messages,
        front: seen.form.front,
        said,
    })
}

/// Returns how many records the files of each log have.
pub(crate) fn counts_of(logs: &FoundLogs) -> Result<Front, AllocError> {
    Ok(Front {
        guest: logs.guest.records()?,
        source: logs.source.records()?,
        link: logs.link.records()?,
        lane: logs.lane.records()?,
        pager: logs.pager.records()?,
    })
}

/// Goes through the files, up to what is to be known before the text is written.
pub(crate) fn know_facts<S: TextSource>(
    alloc: Global,
    texts: &S,
    logs: &FoundLogs,
) -> Result<Known, Stop>
    ensures { IfOk result (λ known. IsKnown (S.bytes_of texts.now) logs.now known) }
{
    let mut finder = FactFinder::new(alloc, Nobody, counts_of(logs)?);
    let known = know(&mut finder, alloc, texts, logs, None);
    drop(finder);
    known
}

/// Writes the text of a recording as its files are read.
fn write<S: TextSource, O: Write>(
    alloc: Global,
    texts: &S,
    lacking: Lacking,
    logs: &FoundLogs,
    known: Known,
    output: &mut O,
) -> Result<u8, Stop>
    requires known { IsKnown (S.bytes_of texts.now) logs.now known }
    requires asked { lacking ≡ Refused → known.said.items ≡ [] }
    ensures status { IfOk result (λ status. status ≡ 0) }
    ensures written { OnOk result (WritesText (S.bytes_of texts.now) logs.now lacking (O.contents output.old) (O.contents output.new)) }
    ensures fit { IfErr result (λ stop. IsUnfit stop → ⊥) }
    ensures gains { Gains (O.contents output.old) (O.contents output.new) }
{
    let Known {
        machine,
        init,
        messages,
        front,
        ..
    } = known;
    let count = init.len() as u64;
    let recording = FileRecording {
        machine,
        init,
        files: OpenedLogs { texts, logs },
        messages: &messages,
    };
    match write_recording(alloc, recording, output, front, count) {
        Ok(()) => Ok(ACCEPTED),
        Err(fault) => Err(write_stop(alloc, texts, &machine, logs, fault)),
    }
}

/// Says what is lacking, if anything is, and that nothing was written, unless what is left is asked for. Returns whether the rest is
/// to be made.
#[tactic(auto, using(crate::proofs::Gained::same, crate::proofs::Gained::front, crate::proofs::Gained::both))]
pub(crate) fn say_lacking<E: Write>(said: &[u8], lacking: Lacking, errors: &mut E) -> bool
    ensures asked { IsTrue result → lacking ≡ Refused → said.now ≡ [] }
    ensures gains { Gains (E.contents errors.old) (E.contents errors.new) }
{
    if said.is_empty() {
        return true;
    }
    let is_told = write_whole(errors, said);
    match lacking {
        Lacking::Cut => true,
        Lacking::Refused => {
            if is_told {
                write_whole(errors, NOTHING_WRITTEN);
            }
            false
        }
    }
}

/// Writes the text of the recording that the files of logs make, if nothing is lacking or it is to be cut. Says what is lacking.
#[tactic(auto, using(crate::proofs::Gained::same, crate::proofs::Gained::front, crate::proofs::Gained::both))]
pub(crate) fn settle<S: TextSource, O: Write, E: Write>(
    alloc: Global,
    texts: &S,
    lacking: Lacking,
    logs: &FoundLogs,
    output: &mut O,
    errors: &mut E,
) -> Result<u8, Stop>
    ensures few { IfOk result (λ status. status < 2) }
    ensures written { IfOk result (λ status. status ≡ 0 → WritesText (S.bytes_of texts.now) logs.now lacking (O.contents output.old) (O.contents output.new)) }
    ensures refused { IfOk result (λ status. status ≡ 1 → Keeps (O.contents output.old) (O.contents output.new)) }
    ensures unfit { IfErr result (λ stop. IsUnfit stop → Keeps (O.contents output.old) (O.contents output.new)) }
    ensures gains { BothGain (O.contents output.old, E.contents errors.old) (O.contents output.new, E.contents errors.new) }
{
    let known = know_facts(alloc, texts, logs)?;
    if !say_lacking(known.said.as_slice(), lacking, errors) {
        drop(known);
        return Ok(REFUSED);
    }
    write(alloc, texts, lacking, logs, known, output)
}
