//! The program with an answer that goes to a file.

ghost use Rattle.std.specs.Prelude.{◌≡◌, ◌<◌, [], Some, None, IfSome};
ghost use Rattle.command_words.specs.declared.requests.Targets.{Targets};
ghost use Rattle.command_words.specs.Words.{target_names};
ghost use Rattle.text_access.specs.Names.{files_of};
ghost use Rattle.commands.specs.Folders.{ShowsFolders};
ghost use Rattle.commands.specs.Runs.{AreFiles, IsMadeAndPut, IsRunOver};
ghost use Rattle.commands.specs.Told.{IsFaultTold};

use crate::program::run;
use crate::saving::Saved;
use crate::sinks::{Account, TextSink};
use command_texts::Console;
use command_words::Reading;
use session_commands::{ErrorSink, WithFolders};
use std::io::{Read, Write};
use std::net::{Net, TcpListener, TcpStream};
use std::sync::Wait;
use std::thread::Threads;
use text_access::TextSource;

/// Runs the program over a disk, as `run_over_folders` does, and puts its answer where it goes: `sink` gives the
/// names of the files that the words name. Returns the status, and the console as it is then.
///
/// An answer gets the name of its file, if the words give one and it gets it at this status. Otherwise it is written to
/// the output. Above 1 nothing is put of a certificate, a session or a picture. The table of a window's lines gets the
/// name of its file if the answer gets its own.
///
/// The status is that of [`run`] if all was put. Otherwise it is 3 or 4, the errors say why, and one of the two texts got
/// its name at most. Only proofs use `account`, which is to have nothing yet.
pub fn run_into<
    'c,
    R: Threads + Wait + Sync + Net<Listener = TcpListener, Stream = TcpStream>,
    D: TextSource,
    W: ErrorSink,
    I: Read + Send,
    O: Write,
    E: Write,
    S: TextSink,
    A: Account,
>(
    console: Console<'c, R, WithFolders<D, W>, I, O, E>,
    reading: Reading<'_>,
    sink: &mut S,
    account: A,
) -> (u8, Console<'c, R, WithFolders<D, W>, I, O, E>)
where
    D::Text: Send,
    requires { IfSome (A.written account) (λ text. (text ≡ []) × ((targets : Targets) → AreFiles reading targets → (target_names targets).1 ≡ A.name)) }
    ensures fault { 2 < result.0 → IsFaultTold (E.contents console.entry.errors) (E.contents result.1.errors) result.0 }
    ensures put { S.is_known → IfSome (A.written account) (λ _. IsMadeAndPut (IsRunOver reading.entry (files_of (D.bytes_of console.entry.texts.now.disk) (D.names_in console.entry.texts.now.disk)) (I.remaining console.entry.input) None (Some [], E.contents console.entry.errors)) (AreFiles reading.entry) (S.named sink.old, O.contents console.entry.output) (S.named sink.new, O.contents result.1.output) (E.contents result.1.errors) result.0) }
    ensures folders { result.0 ≡ 0 → ShowsFolders reading.entry (files_of (D.bytes_of console.entry.texts.now.disk) (D.names_in console.entry.texts.now.disk)) (I.remaining console.entry.input) }
{
    let Console {
        rt,
        alloc,
        texts,
        input,
        mut output,
        errors,
    } = console;
    let targets = reading.targets();
    let mut table = None;
    let mut held = Console {
        rt,
        alloc,
        texts,
        input,
        output: Saved::new(sink, alloc, targets.output, account),
        errors,
    };
    let made = run(&mut held, reading, &mut table);
    let Console {
        input,
        output: saved,
        mut errors,
        ..
    } = held;
    let status = saved.into_pieces().put(
        targets.answer,
        made,
        targets.lines,
        &table,
        sink,
        &mut output,
        &mut errors,
    );
    let console = Console {
        rt,
        alloc,
        texts,
        input,
        output,
        errors,
    };
    (status, console)
}
