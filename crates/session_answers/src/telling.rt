//! Writing the story of a session.

ghost use Rattle.std.specs.Prelude.{IfOk, string_bytes};
ghost use Rattle.audit_report.specs.Reports.{IsReport};
ghost use Rattle.completeness.specs.Complete.{IsFirstMissing};
ghost use Rattle.session_answers.specs.Told.{AreWordsOn, IsLackingText, IsRefusedText, IsToldText};

use audit_report::{Lines, Report, push_first_line_by, push_missing, push_refused_session_by};
use completeness::Lack;
use migration_types::{Session, Topic};
use session_story::tell;
use std::alloc::{AllocError, Global};
use story_words::{English, Writer, missing_told, push_sentences, told_in_full};

/// What it means that a text is refused.
const NO_TEXT: &str =
    "This is no text of a session: no such text begins as this one does up to that line, or this one ends there too early.";

/// Returns the story of a session on a topic, in a writer's words. Makes a few passes over each log, and allocates as
/// much memory as an audit does, and for one more page. Fails only if memory runs out.
pub fn words_on<W: Writer>(
    alloc: Global,
    writer: &W,
    session: &Session,
    report: &Report,
    topic: Topic,
) -> Result<String, AllocError>
    requires { IsReport session.now report.now }
    ensures { IfOk result (λ words. AreWordsOn (W.is_written writer.now session.now) session.now report.now topic (string_bytes words)) }
{
    let told = tell(alloc, session, report, topic)?;
    let sentences = told_in_full(alloc, session, report, &told)?;
    let mut words = String::new(alloc);
    push_sentences(writer, &mut words, session, &sentences)?;
    Ok(words)
}

/// Returns the story of a session on a topic, in words, after the first line of the report on it, with its line numbers
/// from `lines`. Each line ends with LF. Makes a few passes over each log, and allocates as much memory as an audit
/// does, and for one more page. Fails only if memory runs out.
pub fn print_topic<L: Lines>(
    alloc: Global,
    lines: &L,
    session: &Session,
    report: &Report,
    topic: Topic,
) -> Result<Vec<u8>, AllocError>
    requires { IsReport session.now report.now }
    ensures { IfOk result (λ text. IsToldText (L.tell lines.now) session.now report.now topic text.items) }
{
    let words = words_on(alloc, &English { lines }, session, report, topic)?;
    let mut text = Vec::new(alloc);
    push_first_line_by(&mut text, lines, report)?;
    text.extend_from_slice(words.as_bytes())?;
    Ok(text)
}

/// Returns what a clean session lacks, in words, after the line that says it, with its line numbers from `lines`. Each
/// line ends with LF. Makes a few passes over each log, and allocates as much memory as an audit does. Fails only if
/// memory runs out.
pub fn print_missing<L: Lines>(
    alloc: Global,
    lines: &L,
    session: &Session,
    missing: Lack,
) -> Result<Vec<u8>, AllocError>
    requires { IsFirstMissing session.now missing }
    ensures { IfOk result (λ text. IsLackingText (L.tell lines.now) session.now missing text.items) }
{
    let sentences = missing_told(alloc, session, &missing)?;
    let mut words = String::new(alloc);
    push_sentences(&English { lines }, &mut words, session, &sentences)?;
    let mut text = Vec::new(alloc);
    push_missing(&mut text, lines, session, missing)?;
    text.extend_from_slice(words.as_bytes())?;
    Ok(text)
}

/// Returns the line that says that a text is refused at this line, as an audit writes it, with its line number from
/// `lines`, and what that means. Fails only if memory runs out.
pub fn print_refused<L: Lines>(alloc: Global, lines: &L, line: u32) -> Result<Vec<u8>, AllocError>
    ensures { IfOk result (λ text. IsRefusedText (L.tell lines.now line) text.items) }
{
    let mut text = Vec::new(alloc);
    push_refused_session_by(&mut text, lines, line)?;
    text.extend_from_slice(NO_TEXT.as_bytes())?;
    text.extend_from_slice(b"\n")?;
    Ok(text)
}
