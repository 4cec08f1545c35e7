//! Records migrations, and audits recorded sessions.
//!
//! `postcopy check SESSION CERT` reads the two texts and writes one line, the verdict. `certify SESSION` writes the
//! certificate of a session, `audit SESSION` the report on it, and `explain SESSION` the story that the report's first
//! line sums up, in words. `replay SESSION RUNS` writes the outcome of a merging. `draw SESSION` draws a session's
//! records. `steps SCRIPT EVENTS` writes the session that events record from a script. `migrate SCRIPT` migrates the
//! script's guest in threads, and writes the session that was recorded, followed by its certificate. `window RECORDING
//! FIRST COUNT` writes the session of some pages of a recording of any size. `session FOLDER ..` makes the session of the
//! files that recorders left in folders. With `-o FILE` the answer goes to a file.
//!
//! A file named `-` is standard input. If two files are, the first text ends with the first line `end`. Without words,
//! the program does `check - -`.
//!
//! The status is 0 if all is well, 1 for any other answer, 2 for words that are no command, 3 for a file, a link, a
//! thread or an output that failed, and 4 if memory ran out. Standard error says what failed, why a text is refused,
//! and which part of a certificate does not fit. It is no failure of the output if its reader closes it, as `head`
//! does: the rest is dropped.
#![tactic(auto)]

ghost use Rattle.std.specs.Prelude.{◌≡◌};

use command_texts::{Closable, Console, Fault, USAGE, tell};
use commands::{
    Disk, Reading, has_wrong_word, read_words, refuse_targets, run_into, run_over_folders, slices,
    tell_wrong_word, words,
};
use session_commands::{ErrorSink, WithFolders};
use std::alloc::Global;
use std::io::{Input, Write};
use std::net::{Net, TcpListener, TcpStream};
use std::os::fd::AsFd;
use std::process::ExitCode;
use std::random::RandomSource;
use std::rt::{Env, Files, Stderr};
use std::sync::Wait;
use std::thread::Threads;
use text_access::TextSource;

// The standard error of the process.
#[derive(Drop)]
struct StandardError<'a> {
    rt: &'a HostRuntime,
}

impl ErrorSink for StandardError<'_> {
    type Errors = Stderr;

    fn errors(&self) -> Stderr {
        self.rt.stderr()
    }
}

// Reports which word is not UTF-8.
fn refuse_words<R: Env, E: Write>(rt: &R, alloc: Global, errors: &mut E) -> u8
    ensures { result ≡ 2 }
{
    tell_wrong_word(rt, alloc, errors);
    USAGE
}

// Does what a reading of the words asks for, and writes the answer where they say.
fn answer<R, D: TextSource, W: ErrorSink, O: Write + Drop, E: Write + Drop>(
    mut console: Console<'_, R, WithFolders<D, W>, R::Reader, O, E>,
    reading: Reading<'_>,
) -> u8
where
    R: Threads + Wait + Sync + Net<Listener = TcpListener, Stream = TcpStream> + Files + Input,
    R: RandomSource,
    R::File: AsFd,
    R::Reader: Send,
    D::Text: Send,
{
    let targets = reading.targets();
    if targets.lines.is_none() && targets.output.is_none() {
        return run_over_folders(&mut console, reading, &mut None);
    }
    let mut disk = Disk { rt: console.rt };
    match refuse_targets(console.rt, console.alloc, &reading, &mut console.errors) {
        Some(status) => status,
        None => run_into(console, reading, &mut disk, ()).0,
    }
}

fn main(rt: HostRuntime) -> ExitCode {
    let alloc = rt.alloc();
    let mut errors = rt.stderr();
    let Ok(words) = words(&rt, alloc) else {
        return ExitCode::from(tell(Fault::Memory, &mut errors));
    };
    let Ok(words) = slices(alloc, words.as_slice()) else {
        return ExitCode::from(tell(Fault::Memory, &mut errors));
    };
    let words = words.as_slice();
    let texts = WithFolders {
        alloc,
        disk: Disk { rt: &rt },
        errors: StandardError { rt: &rt },
    };
    let mut output = Closable::new(rt.stdout());
    ExitCode::from(match read_words(alloc, words) {
        Ok(reading) if has_wrong_word(words, &reading) => refuse_words(&rt, alloc, &mut errors),
        Ok(reading) => {
            let console = Console {
                rt: &rt,
                alloc,
                texts: &texts,
                input: rt.reader(),
                output: &mut output,
                errors: &mut errors,
            };
            answer(console, reading)
        }
        Err(_) => tell(Fault::Memory, &mut errors),
    })
}
