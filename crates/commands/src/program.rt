//! The program, from its words to its status.

ghost use Rattle.std.specs.Prelude.{◌≡◌, ◌<◌, IfOk, MatchResult, length, option_and_then, string_len};
ghost use Rattle.clap.specs.Words.{kind_of};
ghost use Rattle.command_words.specs.Table.{asked_names, folders_of, job_of, several_of};
ghost use Rattle.command_words.specs.Words.{AreRefused};
ghost use Rattle.command_texts.specs.Answers.{fault_line, fault_status};
ghost use Rattle.text_access.specs.Names.{files_of};
ghost use Rattle.text_access.specs.Written.{AppendsFront, Gains};
ghost use Rattle.commands.specs.Refused.{IsRefusalOf};
ghost use Rattle.commands.specs.Runs.{IsRun};
ghost use Rattle.commands.specs.Shown.{CarriesHeadlines};
ghost use Rattle.commands.specs.Told.{bare_job};
ghost use Rattle.commands.specs.inner.Done.{IsDone};

use crate::answering::perform;
use crate::laws::clean_sessions_are_migrated;
use crate::several::asked_several;
use command_texts::{ACCEPTED, Console, Fault, STANDARD_OUTPUT, USAGE, tell};
use command_words::{Checks, Demand, Intent, Job, Reading, Request, TwoTexts, VerdictForm};
use judged_texts::headline_holds_at_yes;
use session_commands::perform_session;
use std::alloc::{AllocError, Global};
use std::io::{Read, Write};
use std::net::{Net, TcpListener, TcpStream};
use std::sync::Wait;
use std::thread::Threads;
use text_access::{TextSource, write_or_why, write_whole};

// Returns what is asked for if there are no words: `check - -`.
fn bare_job() -> Job<'static>
    ensures { asked_names result ≡ bare_job }
{
    let plain = Checks {
        form: VerdictForm::Line,
        demand: Demand::Safety,
    };
    Request::Two(TwoTexts::Check(plain), "-", "-")
}

// Returns the status of what was done, and reports its fault, if it has one.
fn settle<E: Write>(done: Result<u8, Fault<'_>>, errors: &mut E) -> u8
    ensures settled { MatchResult done.entry (λ status. (result ≡ status) × (E.contents errors.new ≡ E.contents errors.old)) (λ fault. (result ≡ fault_status fault) × AppendsFront (E.contents errors.old) (E.contents errors.new) (fault_line fault)) }
    ensures gains { Gains (E.contents errors.old) (E.contents errors.new) }
{
    match done {
        Ok(status) => status,
        Err(fault) => tell(fault, errors),
    }
}

// Returns the text that clap has for an error in the words, or an empty line if it has none.
fn told_text(alloc: Global, error: &clap::Error) -> Result<String, AllocError>
    ensures { IfOk result (λ text. 0 < string_len text) }
{
    let mut text = String::new(alloc);
    write!(text, "{error}")?;
    if text.is_empty() {
        text.push('\n')?;
    }
    Ok(text)
}

// Reports an error in the words, or shows the help or the version, with this text.
fn tell_words<O: Write, E: Write>(
    error: &clap::Error,
    text: &[u8],
    output: &mut O,
    errors: &mut E,
) -> u8
    requires { 0 < length text.now }
    ensures { IsRefusalOf (kind_of error.now) (O.contents output.old, E.contents errors.old) (O.contents output.new, E.contents errors.new) result }
{
    if error.use_stderr() {
        write_whole(errors, text);
        return USAGE;
    }
    match write_or_why(output, text) {
        Ok(()) => ACCEPTED,
        Err(cause) => tell(Fault::Output(STANDARD_OUTPUT, cause.words()), errors),
    }
}

// Reports an error in the words, or shows the help or the version.
fn refuse<O: Write, E: Write>(
    alloc: Global,
    error: &clap::Error,
    output: &mut O,
    errors: &mut E,
) -> u8
    ensures { IsRefusalOf (kind_of error.now) (O.contents output.old, E.contents errors.old) (O.contents output.new, E.contents errors.new) result }
{
    match told_text(alloc, error) {
        Ok(text) => tell_words(error, text.as_bytes(), output, errors),
        Err(_) => tell(Fault::Memory, errors),
    }
}

// Does what the words ask for, and reports a fault of it. If they ask for nothing, checks the two texts of the input.
fn grant<
    R: Threads + Wait + Sync + Net<Listener = TcpListener, Stream = TcpStream>,
    S: TextSource,
    I: Read + Send,
    O: Write,
    E: Write,
>(
    console: &mut Console<'_, R, S, I, O, E>,
    intent: Option<Intent<'_>>,
    lines: &mut Option<Vec<u8>>,
) -> u8
where
    S::Text: Send,
    ensures { IsDone (option_and_then job_of intent.entry) (option_and_then several_of intent.entry) (option_and_then folders_of intent.entry) (files_of (S.bytes_of console.old.texts.now) (S.names_in console.old.texts.now)) (S.text_in console.old.texts.now) (I.remaining console.old.input) lines.old (O.contents console.old.output, E.contents console.old.errors) (O.contents console.new.output, E.contents console.new.errors) lines.new result }
{
    match intent {
        None => {
            let done = perform(console, bare_job(), lines);
            settle(done, &mut console.errors)
        }
        Some(Intent::Job(job)) => {
            let done = perform(console, job, lines);
            settle(done, &mut console.errors)
        }
        Some(Intent::Several(several)) => {
            let done = asked_several(console, &several);
            settle(done, &mut console.errors)
        }
        Some(Intent::Folders(folders)) => {
            let done = perform_session(console, folders.lacking, folders.names.as_slice());
            settle(done, &mut console.errors)
        }
    }
}

/// Runs the program: reads the texts that the words name, writes the command's answer to them, and returns the exit
/// status.
///
/// `reading` is a reading of the words. The first word is the program's own name. If there is no other, the program
/// checks the two texts of the input.
///
/// The status is:
/// - 0 if all is well, or help was asked for
/// - 1 for any other answer
/// - 2 if the words are no command, or have options that do not go together
/// - 3 if a text could not be read to its end, has too many bytes or takes too many reads (`FORMATS` says how many), if
///   the link or a thread of a migration failed, or if the output could not be written
/// - 4 if memory ran out
///
/// At 2 to 4 the errors say why. At 1 they say why a text is refused, or which part of a certificate does not fit its
/// session.
///
/// The texts are read in the order of the words, and none if the words are refused. If there are two, both are read
/// before the answer is made. Several sessions are audited one by one: the answer to one is written before the next is
/// read. If one cannot be read, the errors say so, and the next one is audited. If the input is one of them, nothing is
/// promised about the bytes that it held.
///
/// If a session is made of the files in folders, it is written as they are read. The errors say what is missing. If the
/// status is 0, the output gained the text of a recording that files make, perhaps cut.
///
/// The answer is written to the output, even if the words name a file for it, which `reading` says. If the words name a
/// file for the lines of a window, and the status is 0, their table is put into `lines`. Otherwise `lines` stays as it
/// was.
///
/// If a `check` ends with status 0, with any options, the bytes that were read as its first text spell one session, and
/// the headline holds for it. It has a merging. In every merging, each read or write after handover finds its page
/// resident, and each read gives what one machine that never moved gives. Each page is placed at most once, and not
/// over a later read, write or release. A page that is released at the halt is never sent, and whatever is placed for
/// it is zeros.
///
/// If an `audit`, a `certify` or an `explain` ends with status 0, with any options, the bytes that were read as its
/// session spell one session, and these claims hold for it. If several are audited, they hold for each.
///
/// The handle starts and joins threads, and opens the connection of a migration over TCP. Nothing is promised about
/// when a migration ends.
pub fn run<
    R: Threads + Wait + Sync + Net<Listener = TcpListener, Stream = TcpStream>,
    S: TextSource,
    I: Read + Send,
    O: Write,
    E: Write,
>(console: &mut Console<'_, R, S, I, O, E>, reading: Reading<'_>, lines: &mut Option<Vec<u8>>) -> u8
where
    S::Text: Send,
    ensures done { IsRun reading.entry (files_of (S.bytes_of console.old.texts.now) (S.names_in console.old.texts.now)) (S.text_in console.old.texts.now) (I.remaining console.old.input) lines.old (O.contents console.old.output, E.contents console.old.errors) (O.contents console.new.output, E.contents console.new.errors) lines.new result }
    ensures untouched { AreRefused reading.entry → (lines.new ≡ lines.old) × (I.remaining console.new.input ≡ I.remaining console.old.input) }
    ensures headlines { result ≡ 0 → CarriesHeadlines reading.entry (files_of (S.bytes_of console.old.texts.now) (S.names_in console.old.texts.now)) (S.text_in console.old.texts.now) (I.remaining console.old.input) }
{
    headline_holds_at_yes();
    clean_sessions_are_migrated();
    match reading.intent() {
        Ok(intent) => grant(console, intent, lines),
        Err(error) => refuse(
            console.alloc,
            &error,
            &mut console.output,
            &mut console.errors,
        ),
    }
}
