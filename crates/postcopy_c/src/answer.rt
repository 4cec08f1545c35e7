//! Answers as numbers.

ghost use Rattle.std.specs.Prelude.{◌≡◌};
ghost use Rattle.postcopy_c.specs.Numbers.{audited_numbers, no_memory, numbers, replay_numbers, shape_number, verdict_numbers};
ghost use Rattle.postcopy_c.specs.Questions.{no_question};

use crate::kinds::{
    BROKEN, CERT_TEXT, CLEAN, FAULTY, KNOT, NO_MEMORY, NO_MERGING, NO_QUESTION, PAGE, PAGES, RUNS,
    RUNS_TEXT, SAFE, SESSION_TEXT, SHAPE, YES,
};
use crate::reasons::{number_of_page, number_of_shape};
use audit_report::Report;
use cert_check::{ShapeFault, Verdict};
use judged_texts::{Outcome, TextAudit};
use std::alloc::AllocError;

/// An answer, as C has it.
#[repr(C)]
#[derive(Clone, Copy)]
pub struct PostcopyAnswer {
    /// Which answer it is: a number of `kinds`.
    pub kind: u32,
    /// The line of a text that the answer names, counted from 1, or 0.
    pub line: u32,
    /// The reason: a number of `reasons`, or 0.
    pub reason: u32,
    /// The length of the answer's text in bytes, whether or not it fits into the room.
    pub text_len: usize,
}

/// Returns an answer of this kind, with a line or 0.
fn at_line(kind: u32, line: u32, text_len: usize) -> PostcopyAnswer
    ensures { result ≡ numbers kind line 0 text_len }
{
    PostcopyAnswer {
        kind,
        line,
        reason: 0,
        text_len,
    }
}

/// Returns the answer for a session that does not have the right shape.
fn misshapen(fault: &ShapeFault, text_len: usize) -> PostcopyAnswer
    ensures { result ≡ numbers SHAPE fault.now.line (shape_number fault.now.reason) text_len }
{
    PostcopyAnswer {
        kind: SHAPE,
        line: fault.line,
        reason: number_of_shape(fault.reason),
        text_len,
    }
}

/// Returns the answer if memory ran out.
pub(crate) fn out_of_memory() -> PostcopyAnswer
    ensures { result ≡ no_memory }
{
    at_line(NO_MEMORY, 0, 0)
}

/// Returns the answer to a question with an unknown number.
pub(crate) fn unknown_question() -> PostcopyAnswer
    ensures { result ≡ no_question }
{
    at_line(NO_QUESTION, 0, 0)
}

/// Returns the numbers of a verdict. No other verdict has those of `Yes`.
pub(crate) fn verdict_answer(verdict: Result<Verdict, AllocError>) -> PostcopyAnswer
    ensures numbers { result ≡ verdict_numbers verdict }
    ensures only_yes { result.kind ≡ YES → verdict ≡ Ok Verdict.Yes }
{
    match verdict {
        Ok(Verdict::Yes) => at_line(YES, 0, 0),
        Ok(Verdict::SessionText(line)) => at_line(SESSION_TEXT, line, 0),
        Ok(Verdict::CertText(line)) => at_line(CERT_TEXT, line, 0),
        Ok(Verdict::Shape(fault)) => misshapen(&fault, 0),
        Ok(Verdict::Pages) => at_line(PAGES, 0, 0),
        Ok(Verdict::Runs(line)) => at_line(RUNS, line, 0),
        Ok(Verdict::Page(line)) => at_line(PAGE, line, 0),
        Err(_) => out_of_memory(),
    }
}

/// Returns the numbers of the outcome of a replay.
pub(crate) fn replay_answer(outcome: Result<Outcome, AllocError>) -> PostcopyAnswer
    ensures { result ≡ replay_numbers outcome }
{
    match outcome {
        Ok(Outcome::SessionText(line)) => at_line(SESSION_TEXT, line, 0),
        Ok(Outcome::RunsText(line)) => at_line(RUNS_TEXT, line, 0),
        Ok(Outcome::Shape(fault)) => misshapen(&fault, 0),
        Ok(Outcome::NoMerging) => at_line(NO_MERGING, 0, 0),
        Ok(Outcome::Broken(line)) => at_line(BROKEN, line, 0),
        Ok(Outcome::Safe) => at_line(SAFE, 0, 0),
        Err(_) => out_of_memory(),
    }
}

/// Returns the numbers of an audit whose text has this length.
pub(crate) fn audited_answer(audited: &TextAudit, text_len: usize) -> PostcopyAnswer
    ensures { result ≡ audited_numbers audited.now text_len }
{
    match audited {
        TextAudit::Refused(line) => at_line(SESSION_TEXT, *line, text_len),
        TextAudit::Reported(Report::Clean(_)) => at_line(CLEAN, 0, text_len),
        TextAudit::Reported(Report::Shape(fault)) => misshapen(fault, text_len),
        TextAudit::Reported(Report::Knot { left, .. }) => at_line(KNOT, left.line, text_len),
        TextAudit::Reported(Report::Faulty { line, fault, .. }) => PostcopyAnswer {
            kind: FAULTY,
            line: *line,
            reason: number_of_page(fault.reason),
            text_len,
        },
    }
}
