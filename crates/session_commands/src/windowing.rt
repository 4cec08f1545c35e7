//! The command `window`.

ghost use Rattle.std.specs.Prelude.{◌≡◌, ◌≢◌, ◌<◌, [], ◌∷◌, ℕ, List, Ok, Some, true, false, IfOk, IfErr, IfSome, MatchOption, map, string_bytes};
ghost use Rattle.text_lines.specs.Answer.{IsRead};
ghost use Rattle.session_grammar.specs.Grammar.{SpellsSession};
ghost use Rattle.command_texts.specs.Answers.{IsReadFault};
ghost use Rattle.command_texts.specs.Reasons.{IsNote};
ghost use Rattle.session_commands.specs.Files.{IsOfFiles};
ghost use Rattle.session_commands.specs.Found.{AreCompressed, AreFound};
ghost use Rattle.session_commands.specs.Windows.{EndsWindow, HasWindowLines, IsMadeIn, IsMadeOf, outside_words};
ghost use Rattle.session_commands.specs.declared.windowing.Windowed.TheVariants.{NoSuchPages};
ghost use Rattle.session_commands.specs.inner.Seen.{IsKnown};
ghost use Rattle.session_commands.specs.inner.Answered.{HasTable, IsCutFrom, IsCutFromText, IsCutUnder, IsTold};
ghost use Rattle.text_access.specs.Names.{files_of, names_of};
ghost use Rattle.text_access.specs.Written.{BothGain, Gains, MayTell};

use crate::files::OpenedLogs;
use crate::folders::tell_session_in;
use crate::found::{FoundFiles, FoundLogs, find_files};
use crate::gathering::{Unmade, say};
use crate::gone::tell_name_gone;
use crate::making::{Known, know_facts, say_lacking};
use crate::performing::leave_out;
use crate::recording::FileRecording;
use crate::stops::Stop;
use crate::surveys::find_logs;
use crate::walk_stops::walk_stop;
use command_texts::{
    ACCEPTED, Answer, Console, Fault, SessionTaker, Telling, Why, given, read_named, refused,
    remark, tell_why, write_line_on, written,
};
use command_words::Lacking;
use migration_types::Session;
use recorder_files::NoOnlooker;
use std::alloc::{AllocError, Global};
use std::io::{ErrorKind, Read, Write};
use std::mem;
use std::thread::Threads;
use text_access::{TextSource, cause_of};
use walked_sessions::WalkFault;
use windows::{CutFault, Window, WindowText, cut, push_table};

/// The window of a recording, or why there is none.
#[derive(Drop)]
pub(crate) enum Windowed {
    /// The text is refused at this line.
    SessionText(u32),
    /// The machine does not have these pages.
    NoSuchPages,
    /// The session of these pages.
    Seen(WindowText),
}

/// Returns the window of a session, unless its machine does not have these pages.
#[tactic(auto, using(crate::proofs::Answered::seen_from, crate::proofs::Answered::outside_from, crate::proofs::Answered::never_changed))]
fn cut_session(alloc: Global, window: Window, session: &Session) -> Result<Windowed, Fault<'static>>
    ensures cut { IfOk result (IsCutFrom (λ s. s ≡ session.now) window) }
    ensures fault { IfErr result (λ fault. fault ≡ Fault.Memory) }
{
    match cut(alloc, window, session) {
        Ok(out) => Ok(Windowed::Seen(out)),
        Err(CutFault::Outside) => Ok(Windowed::NoSuchPages),
        Err(CutFault::Changed) => unreachable!(),
        Err(CutFault::Recording(_) | CutFault::Memory) => Err(Fault::Memory),
    }
}

/// Returns the window of the recording that files make, unless its machine does not have these pages.
#[tactic(auto, using(crate::proofs::Answered::seen_from, crate::proofs::Answered::outside_from))]
fn cut_recording<S: TextSource>(
    alloc: Global,
    window: Window,
    recording: &FileRecording<'_, S>,
) -> Result<Windowed, WalkFault>
    ensures { IfOk result (IsCutFrom (IsOfFiles S.bytes_of recording.now) window) }
{
    match cut(alloc, window, recording) {
        Ok(out) => Ok(Windowed::Seen(out)),
        Err(CutFault::Outside) => Ok(Windowed::NoSuchPages),
        Err(CutFault::Recording(fault)) => Err(fault),
        Err(CutFault::Changed) => Err(WalkFault::Changed),
        Err(CutFault::Memory) => Err(WalkFault::Memory),
    }
}

/// Returns the window of a recording that is known, and of which nothing is lacking, unless its machine does not have these
/// pages.
fn cut_files<S: TextSource>(
    alloc: Global,
    window: Window,
    texts: &S,
    logs: &FoundLogs,
    known: Known,
) -> Result<Windowed, Stop>
    requires known { IsKnown (S.bytes_of texts.now) logs.now known }
    requires whole { known.said.items ≡ [] }
    ensures { IfOk result (IsCutFrom (IsMadeOf (S.bytes_of texts.now) logs.now) window) }
{
    let Known {
        machine,
        init,
        messages,
        ..
    } = known;
    let recording = FileRecording {
        machine,
        init,
        files: OpenedLogs { texts, logs },
        messages: &messages,
    };
    match cut_recording(alloc, window, &recording) {
        Ok(found) => Ok(found),
        Err(fault) => Err(walk_stop(alloc, texts, &machine, logs, fault)),
    }
}

/// Returns the window of the recording that the files of logs make, unless its machine does not have these pages. Says what is
/// lacking.
#[tactic(auto, using(crate::proofs::Gained::same, crate::proofs::Gained::both))]
fn cut_logs<S: TextSource, E: Write>(
    alloc: Global,
    window: Window,
    texts: &S,
    logs: &FoundLogs,
    errors: &mut E,
) -> Result<Windowed, Unmade>
    ensures cut { IfOk result (IsCutFrom (IsMadeOf (S.bytes_of texts.now) logs.now) window) }
    ensures gains { Gains (E.contents errors.old) (E.contents errors.new) }
{
    let known = know_facts(alloc, texts, logs)?;
    if !say_lacking(known.said.as_slice(), Lacking::Refused, errors) {
        drop(known);
        return Err(Unmade::Said);
    }
    Ok(cut_files(alloc, window, texts, logs, known)?)
}

/// Returns the window of the recording that the files found in folders make, unless its machine does not have these pages.
/// Says what is lacking.
#[tactic(auto, using(crate::proofs::Gained::same, crate::proofs::Gained::both))]
fn cut_found<S: TextSource, E: Write>(
    alloc: Global,
    window: Window,
    texts: &S,
    folders: &[&str],
    found: &FoundFiles,
    errors: &mut E,
) -> Result<Windowed, Unmade>
    requires found { AreFound (S.names_in texts.now) (names_of folders.now) found.now.files.items }
    requires compressed { AreCompressed (S.names_in texts.now) (names_of folders.now) (map string_bytes found.now.compressed.items) }
    ensures cut { IfOk result (IsCutFrom (IsMadeIn (S.names_in texts.now) (S.bytes_of texts.now) (names_of folders.now)) window) }
    ensures gains { Gains (E.contents errors.old) (E.contents errors.new) }
{
    let goes_on = leave_out(alloc, Lacking::Refused, found.compressed.as_slice(), errors)?;
    if !goes_on {
        return Err(Unmade::Said);
    }
    let logs = find_logs(alloc, texts, folders, found, &mut NoOnlooker)?;
    let cut = cut_logs(alloc, window, texts, &logs, errors);
    drop(logs);
    cut
}

/// Returns the window of the recording that the files in a folder make, unless its machine does not have these pages.
/// Answers `None` if the folder cannot be listed. Says what is lacking.
#[tactic(auto, using(crate::proofs::Gained::same, crate::proofs::Gained::both))]
fn cut_folder<S: TextSource, E: Write>(
    alloc: Global,
    window: Window,
    texts: &S,
    folder: &str,
    errors: &mut E,
) -> Result<Option<Windowed>, Unmade>
    ensures cut { IfOk result (λ found. IfSome found (IsCutFrom (IsMadeIn (S.names_in texts.now) (S.bytes_of texts.now) (folder.now ∷ [])) window)) }
    ensures gains { Gains (E.contents errors.old) (E.contents errors.new) }
{
    let folders = [folder];
    let found = match find_files(alloc, texts, &folders) {
        Ok(found) => found,
        Err(Stop::Memory) => return Err(Unmade::Stopped(Stop::Memory)),
        Err(_) => return Ok(None),
    };
    let seen = cut_found(alloc, window, texts, &folders, &found, errors);
    drop(found);
    let seen = seen?;
    tell_name_gone(texts, alloc, folder, errors)?;
    Ok(Some(seen))
}

/// Says why the files in a folder make no recording, unless it was said, and returns the fault of that.
#[tactic(auto, using(crate::proofs::Gained::same, crate::proofs::Gained::both))]
fn unmade<'a, S: TextSource, E: Write>(
    alloc: Global,
    texts: &S,
    folder: &'a str,
    why: Unmade,
    errors: &mut E,
) -> Fault<'a>
    ensures fault { IsReadFault (λ n. n ≡ folder.entry.now) result }
    ensures gains { Gains (E.contents errors.old) (E.contents errors.new) }
{
    let error = say(alloc, why, errors);
    if error.kind() == ErrorKind::OutOfMemory {
        return Fault::Memory;
    }
    tell_session_in(texts, alloc, folder, errors);
    Fault::File(folder, cause_of(&error).words())
}

/// Returns the text of the table of these lines, if it is asked for.
fn table_of(alloc: Global, lined: bool, lines: &[u64]) -> Result<Option<Vec<u8>>, AllocError>
    ensures { IfOk result (λ table. HasTable lined lines.now table) }
{
    if !lined {
        return Ok(None);
    }
    let mut text = Vec::new(alloc);
    push_table(&mut text, lines)?;
    Ok(Some(text))
}

/// The answer that says that the machine does not have the pages of the window.
const NO_SUCH_PAGES: &[u8] = b"no-such-pages";

/// Returns the answer that says what was found, and the table of the window's lines, if there is a window and it is asked
/// for.
fn answer_for(
    alloc: Global,
    lined: bool,
    found: Windowed,
) -> Result<(Answer, Option<Vec<u8>>), AllocError>
    ensures { IfOk result (λ told. IsTold lined found told.0 told.1) }
{
    match found {
        Windowed::SessionText(line) => Ok((refused(alloc, b"session-text line ", line)?, None)),
        Windowed::NoSuchPages => Ok((remark(alloc, NO_SUCH_PAGES)?, None)),
        Windowed::Seen(WindowText { text, lines }) => {
            let table = table_of(alloc, lined, lines.as_slice())?;
            let answer = Answer {
                text,
                status: ACCEPTED,
            };
            Ok((answer, table))
        }
    }
}

/// Returns the window of the session whose text was read, or why there is none.
fn cut_read(
    alloc: Global,
    window: Window,
    found: &Result<Session, u32>,
) -> Result<Windowed, Fault<'static>>
    ensures cut { (text : List ℕ) → IsRead SpellsSession text found.now → IfOk result (IsCutFromText text window) }
    ensures fault { IfErr result (λ fault. fault ≡ Fault.Memory) }
{
    match found {
        Ok(session) => cut_session(alloc, window, session),
        Err(line) => Ok(Windowed::SessionText(*line)),
    }
}

/// Returns the window of the session whose text is under a name, or why there is none, and why the text is refused, if it is.
fn cut_text<'a, R: Threads + Sync, S: TextSource, I: Read + Send>(
    rt: &R,
    alloc: Global,
    window: Window,
    name: &'a str,
    texts: &S,
    input: &mut I,
) -> Result<(Windowed, Option<Why<'a>>), Fault<'a>>
where
    S::Text: Send,
    ensures cut { IfOk result (λ cut. IsCutUnder window name.entry.now (files_of (S.bytes_of texts.now) (S.names_in texts.now)) (S.text_in texts.now) (I.remaining input.old) cut.0 cut.1) }
    ensures fault { IfErr result (IsReadFault (λ n. n ≡ name.entry.now)) }
{
    let (found, why) = read_named::<SessionTaker, R, S, I>(rt, alloc, name, texts, input)?;
    let out = cut_read(alloc, window, &found);
    mem::forget(found);
    match out {
        Ok(out) => Ok((out, why)),
        Err(fault) => Err(fault),
    }
}

/// Returns the window of what is under a name, a folder of recorders' files or a session's text, or why there is none, and
/// why the text is refused, if it is. Says what a folder lacks.
#[tactic(auto, using(crate::proofs::Gained::same, crate::proofs::Answered::folder_cut))]
fn cut_under<'a, R: Threads + Sync, S: TextSource, I: Read + Send, E: Write>(
    rt: &R,
    alloc: Global,
    window: Window,
    name: &'a str,
    texts: &S,
    input: &mut I,
    errors: &mut E,
) -> Result<(Windowed, Option<Why<'a>>), Fault<'a>>
where
    S::Text: Send,
    ensures cut { IfOk result (λ cut. IsCutUnder window name.entry.now (files_of (S.bytes_of texts.now) (S.names_in texts.now)) (S.text_in texts.now) (I.remaining input.old) cut.0 cut.1) }
    ensures fault { IfErr result (IsReadFault (λ n. n ≡ name.entry.now)) }
    ensures gains { Gains (E.contents errors.old) (E.contents errors.new) }
{
    if name == "-" {
        return cut_text(rt, alloc, window, name, texts, input);
    }
    match cut_folder(alloc, window, texts, name, errors) {
        Ok(Some(found)) => Ok((found, None)),
        Ok(None) => cut_text(rt, alloc, window, name, texts, input),
        Err(why) => Err(unmade(alloc, texts, name, why, errors)),
    }
}

/// Why nothing is cut out, if the machine does not have the pages of the window.
const OUTSIDE: &str =
    "the window has no page, or one that the machine of this recording does not have";

/// Returns whether there is no window since the machine does not have its pages.
fn is_outside(found: &Windowed) -> bool
    ensures { result ≡ true → found.now ≡ NoSuchPages }
{
    matches!(found, Windowed::NoSuchPages)
}

/// Writes why nothing was cut out, if the machine does not have the pages of the window.
fn tell_outside<E: Write>(name: &str, outside: bool, errors: &mut E)
    ensures { MayTell (IsNote (λ words. (outside ≡ true) × (words ≡ outside_words)) name.now) (E.contents errors.old) (E.contents errors.new) }
{
    if outside {
        write_line_on(errors, name, OUTSIDE);
    }
}

// Puts a table into its place, if there is one.
fn put(lines: &mut Option<Vec<u8>>, table: Option<Vec<u8>>)
    ensures { MatchOption table (lines.new ≡ lines.old) (λ text. lines.new ≡ Some text) }
{
    if let Some(text) = table {
        *lines = Some(text);
    }
}

/// `window`: writes the session of these pages of the recording that the recorders' files in a folder make, or of the
/// session whose text is under the name. Puts the table of its lines into `lines` if it is asked for and the session was
/// written. Otherwise `lines` stays as it was. A recording may be beyond the limits of a session. The errors say what a
/// folder lacks.
pub fn perform_window<'a, R: Threads + Sync, S: TextSource, I: Read + Send, O: Write, E: Write>(
    console: &mut Console<'_, R, S, I, O, E>,
    window: Window,
    lined: bool,
    name: &'a str,
    lines: &mut Option<Vec<u8>>,
) -> Result<u8, Fault<'a>>
where
    S::Text: Send,
    ensures few { IfOk result (λ status. status < 2) }
    ensures told { EndsWindow window name.entry.now (files_of (S.bytes_of console.old.texts.now) (S.names_in console.old.texts.now)) (S.text_in console.old.texts.now) (I.remaining console.old.input) (O.contents console.old.output, E.contents console.old.errors) (O.contents console.new.output, E.contents console.new.errors) result }
    ensures lines { lined ≡ true → result ≡ Ok 0 → MatchOption lines.new ⊥ (λ table. HasWindowLines window name.entry.now (files_of (S.bytes_of console.old.texts.now) (S.names_in console.old.texts.now)) (S.text_in console.old.texts.now) (I.remaining console.old.input) (O.contents console.old.output) (O.contents console.new.output) table.items) }
    ensures unlined { lined ≡ false → lines.new ≡ lines.old }
    ensures kept { result ≢ Ok 0 → lines.new ≡ lines.old }
    ensures gains { BothGain (O.contents console.old.output, E.contents console.old.errors) (O.contents console.new.output, E.contents console.new.errors) }
{
    let (found, why) = cut_under(
        console.rt,
        console.alloc,
        window,
        name,
        console.texts,
        &mut console.input,
        &mut console.errors,
    )?;
    let outside = is_outside(&found);
    let (answer, table) = given(answer_for(console.alloc, lined, found))?;
    let status = written(&answer, &mut console.output);
    drop(answer);
    let status = status?;
    tell_why(console.alloc, &why, Telling::Short, &mut console.errors);
    tell_outside(name, outside, &mut console.errors);
    put(lines, table);
    Ok(status)
}
