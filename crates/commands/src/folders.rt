//! The program over a disk, whose folders stand in the place of sessions.

ghost use Rattle.std.specs.Prelude.{◌≡◌};
ghost use Rattle.command_words.specs.Words.{AreRefused};
ghost use Rattle.text_access.specs.Names.{files_of};
ghost use Rattle.commands.specs.Folders.{ShowsFolders};
ghost use Rattle.commands.specs.Runs.{IsRunOver};

use crate::program::run;
use command_texts::Console;
use command_words::Reading;
use session_commands::{ErrorSink, WithFolders};
use std::io::{Read, Write};
use std::net::{Net, TcpListener, TcpStream};
use std::sync::Wait;
use std::thread::Threads;
use text_access::TextSource;

/// Runs the program over a disk: it is [`run`], and all that `run` promises holds.
///
/// If a `check`, an `audit`, a `certify` or an `explain` of a folder ends with status 0, the files that recorders left
/// there make a recording of which nothing is lost, its text spells one session, and the claims of the headline hold for
/// it. This is about the files that the disk is known to have.
pub fn run_over_folders<
    R: Threads + Wait + Sync + Net<Listener = TcpListener, Stream = TcpStream>,
    D: TextSource,
    W: ErrorSink,
    I: Read + Send,
    O: Write,
    E: Write,
>(
    console: &mut Console<'_, R, WithFolders<D, W>, I, O, E>,
    reading: Reading<'_>,
    lines: &mut Option<Vec<u8>>,
) -> u8
where
    D::Text: Send,
    ensures done { IsRunOver reading.entry (files_of (D.bytes_of console.old.texts.now.disk) (D.names_in console.old.texts.now.disk)) (I.remaining console.old.input) lines.old (O.contents console.old.output, E.contents console.old.errors) (O.contents console.new.output, E.contents console.new.errors) lines.new result }
    ensures untouched { AreRefused reading.entry → (lines.new ≡ lines.old) × (I.remaining console.new.input ≡ I.remaining console.old.input) }
    ensures folders { result ≡ 0 → ShowsFolders reading.entry (files_of (D.bytes_of console.old.texts.now.disk) (D.names_in console.old.texts.now.disk)) (I.remaining console.old.input) }
{
    run(console, reading, lines)
}
