//! Answers and faults, with their statuses.

ghost use Rattle.std.specs.Prelude.{◌≡◌, [], ◌∷◌, Ok, IfOk, IfErr, if◌then◌else◌, true};
ghost use Rattle.std.specs.Io.KnownBytes.{Appends};
ghost use Rattle.text_lines.specs.Text.{ended};
ghost use Rattle.command_texts.specs.Answers.{IsOutputFault, Says, fault_line, fault_status, file_line, file_lines, numbered, output_lines};
ghost use Rattle.text_access.specs.Written.{AppendsFront};

use crate::shown::{write_line_on, write_shown};
use std::alloc::{AllocError, Global};
use std::io::Write;
use text_access::{write_or_why, write_whole};
use text_lines::{push_keyed, push_line};

/// The exit status if all is well.
pub const ACCEPTED: u8 = 0;

/// The exit status of any other answer.
pub const REFUSED: u8 = 1;

/// The exit status for words that are no command.
pub const USAGE: u8 = 2;

/// The exit status if a text could not be read, a link failed, a thread could not be started, or an output could not be
/// written.
pub const FAILED: u8 = 3;

/// The exit status if memory ran out.
pub const MEMORY: u8 = 4;

/// What a command writes, and its exit status.
#[derive(Drop)]
pub struct Answer {
    pub text: Vec<u8>,
    pub status: u8,
}

/// The name of the output in messages.
pub const STANDARD_OUTPUT: &str = "standard output";

/// Why there is no answer.
#[derive(Clone, Copy)]
pub enum Fault<'a> {
    /// The text under this name could not be read to its end. The words give the cause.
    File(&'a str, &'static str),
    /// The link of a migration failed.
    Link,
    /// A thread of a migration could not be started.
    Threads,
    /// The output under this name could not be written. The words give the cause.
    Output(&'a str, &'static str),
    /// Memory ran out.
    Memory,
}

/// An answer, or why there is none.
pub type Given = Result<Answer, Fault<'static>>;

// Writes the line about a text that failed. Returns whether the whole line was written.
fn write_file_line<E: Write>(name: &str, errors: &mut E) -> bool
    ensures front { AppendsFront (E.contents errors.old) (E.contents errors.new) (file_line name.now) }
    ensures whole { result ≡ true → Appends (E.contents errors.old) (E.contents errors.new) (file_line name.now) }
{
    if !write_whole(errors, b"file ") {
        return false;
    }
    if !write_shown(errors, name) {
        return false;
    }
    write_whole(errors, b"\n")
}

// Reports that the text under this name failed, and why.
fn tell_file<E: Write>(name: &str, why: &str, errors: &mut E)
    ensures { AppendsFront (E.contents errors.old) (E.contents errors.new) (file_lines name.now why.now) }
{
    if write_file_line(name, errors) {
        write_line_on(errors, name, why);
    }
}

// Reports that the output under this name failed, and why.
fn tell_output<E: Write>(name: &str, why: &str, errors: &mut E)
    ensures { AppendsFront (E.contents errors.old) (E.contents errors.new) (output_lines name.now why.now) }
{
    if write_whole(errors, b"output\n") {
        write_line_on(errors, name, why);
    }
}

/// Reports a fault on a line, and returns its status. If a text or an output failed, a second line gives the cause. The
/// status is the same if these lines cannot be written. Allocates no memory.
pub fn tell<E: Write>(fault: Fault<'_>, errors: &mut E) -> u8
    ensures status { result ≡ fault_status fault.entry }
    ensures told { AppendsFront (E.contents errors.old) (E.contents errors.new) (fault_line fault.entry) }
{
    match fault {
        Fault::File(name, why) => {
            tell_file(name, why, errors);
            FAILED
        }
        Fault::Link => {
            write_whole(errors, b"link\n");
            FAILED
        }
        Fault::Threads => {
            write_whole(errors, b"threads\n");
            FAILED
        }
        Fault::Output(name, why) => {
            tell_output(name, why, errors);
            FAILED
        }
        Fault::Memory => {
            write_whole(errors, b"out of memory\n");
            MEMORY
        }
    }
}

/// Returns an answer, or the fault that memory ran out.
pub fn given<V>(answer: Result<V, AllocError>) -> Result<V, Fault<'static>>
    ensures given { IfOk result (λ given. answer ≡ Ok given) }
    ensures fault { IfErr result (λ fault. fault ≡ Fault.Memory) }
{
    match answer {
        Ok(answer) => Ok(answer),
        Err(_) => Err(Fault::Memory),
    }
}

/// Returns an answer with nothing more to say, or the fault that memory ran out.
pub fn given_alone(answer: Result<Answer, AllocError>) -> Result<(Answer, ()), Fault<'static>>
    ensures given { IfOk result (λ given. answer ≡ Ok given.0) }
    ensures fault { IfErr result (λ fault. fault ≡ Fault.Memory) }
{
    match answer {
        Ok(answer) => Ok((answer, ())),
        Err(_) => Err(Fault::Memory),
    }
}

/// Returns the answer that is this line alone, with the status that not all is well.
pub fn remark(alloc: Global, line: &[u8]) -> Result<Answer, AllocError>
    ensures { IfOk result (λ answer. Says answer (ended (line.now ∷ [])) 1) }
{
    let mut text = Vec::new(alloc);
    push_line(&mut text, line)?;
    Ok(Answer {
        text,
        status: REFUSED,
    })
}

/// Returns the answer for a text that is refused at this line. The key says which text.
pub fn refused(alloc: Global, key: &[u8], line: u32) -> Result<Answer, AllocError>
    ensures { IfOk result (λ answer. Says answer (numbered key.now line) 1) }
{
    let mut text = Vec::new(alloc);
    push_keyed(&mut text, key, line)?;
    Ok(Answer {
        text,
        status: REFUSED,
    })
}

/// Returns the status of an answer, given whether all is well.
pub fn status_where(well: bool) -> u8
    ensures { result ≡ (if well then 0 else 1) }
{
    if well { ACCEPTED } else { REFUSED }
}

/// Writes an answer's text, and returns its status.
pub fn written<O: Write>(answer: &Answer, output: &mut O) -> Result<u8, Fault<'static>>
    ensures status { IfOk result (λ status. status ≡ answer.now.status) }
    ensures text { IfOk result (λ status. Appends (O.contents output.old) (O.contents output.new) answer.now.text.items) }
    ensures fault { IfErr result IsOutputFault }
    ensures front { AppendsFront (O.contents output.old) (O.contents output.new) answer.now.text.items }
{
    match write_or_why(output, answer.text.as_slice()) {
        Ok(()) => Ok(answer.status),
        Err(cause) => Err(Fault::Output(STANDARD_OUTPUT, cause.words())),
    }
}
