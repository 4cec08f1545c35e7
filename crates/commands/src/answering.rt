//! Running what is asked for: an arm for each command.

ghost use Rattle.std.specs.Prelude.{◌≡◌, ◌≢◌, ◌<◌, Ok, true, false, IfOk, MatchOption};
ghost use Rattle.command_words.specs.Table.{asked_names};
ghost use Rattle.text_access.specs.Names.{files_of};
ghost use Rattle.text_access.specs.Written.{BothGain};
ghost use Rattle.session_commands.specs.Windows.{EndsWindow, HasWindowLines};
ghost use Rattle.commands.specs.Told.{EndsAsked, HasLines, window_of};

use crate::drawing::{DrawAlongCommand, DrawCommand};
use crate::judging::{ask_of, extent_of, story_form};
use command_texts::{Console, Fault, perform_one, perform_two};
use command_words::{Job, Pages, Request, TwoTexts};
use host_commands::{perform_migrate, perform_steps};
use judge_commands::{AuditCommand, CheckCommand, ExplainByTable, ReplayCommand};
use migration_types::Topic;
use session_commands::perform_window;
use std::io::{Read, Write};
use std::net::{Net, TcpListener, TcpStream};
use std::sync::Wait;
use std::thread::Threads;
use text_access::TextSource;
use windows::Window;

// Runs a command on the texts under two names, which are read in this order.
fn asked_two<'a, R: Threads + Sync, S: TextSource, I: Read + Send, O: Write, E: Write>(
    console: &mut Console<'_, R, S, I, O, E>,
    task: TwoTexts,
    first: &'a str,
    second: &'a str,
) -> Result<u8, Fault<'a>>
where
    S::Text: Send,
    ensures few { IfOk result (λ status. status < 2) }
    ensures told { EndsAsked (asked_names (Request.Two task first.entry second.entry)) (files_of (S.bytes_of console.old.texts.now) (S.names_in console.old.texts.now)) (S.text_in console.old.texts.now) (I.remaining console.old.input) (O.contents console.old.output, E.contents console.old.errors) (O.contents console.new.output, E.contents console.new.errors) result }
    ensures gains { BothGain (O.contents console.old.output, E.contents console.old.errors) (O.contents console.new.output, E.contents console.new.errors) }
{
    let rt = console.rt;
    match task {
        TwoTexts::Check(checks) => {
            let command = CheckCommand {
                rt,
                form: checks.form,
                complete: extent_of(checks.demand),
            };
            perform_two(console, &command, first, second)
        }
        TwoTexts::Replay => perform_two(console, &ReplayCommand { rt }, first, second),
        TwoTexts::Steps => perform_steps(console, first, second),
        TwoTexts::Explain(explains) => {
            let command = ExplainByTable {
                rt,
                story: story_form(explains.form),
                complete: extent_of(explains.demand),
            };
            perform_two(console, &command, first, second)
        }
    }
}

// Draws the session under a name, along the runs under a second name if there is one.
fn asked_draw<'a, R: Threads + Sync, S: TextSource, I: Read + Send, O: Write, E: Write>(
    console: &mut Console<'_, R, S, I, O, E>,
    topic: Topic,
    name: &'a str,
    further: Option<&'a str>,
) -> Result<u8, Fault<'a>>
where
    S::Text: Send,
    ensures few { IfOk result (λ status. status < 2) }
    ensures told { EndsAsked (asked_names (Request.Draw topic name.entry further.entry)) (files_of (S.bytes_of console.old.texts.now) (S.names_in console.old.texts.now)) (S.text_in console.old.texts.now) (I.remaining console.old.input) (O.contents console.old.output, E.contents console.old.errors) (O.contents console.new.output, E.contents console.new.errors) result }
    ensures gains { BothGain (O.contents console.old.output, E.contents console.old.errors) (O.contents console.new.output, E.contents console.new.errors) }
{
    let rt = console.rt;
    match further {
        None => perform_one(console, &DrawCommand { rt, topic }, name),
        Some(second) => perform_two(console, &DrawAlongCommand { rt, topic }, name, second),
    }
}

// Cuts the window of these pages out of the recording that a folder makes, or of the session under a name. Also makes the
// table of its lines if a file is named for it.
fn asked_window<'a, R: Threads + Sync, S: TextSource, I: Read + Send, O: Write, E: Write>(
    console: &mut Console<'_, R, S, I, O, E>,
    pages: Pages,
    name: &'a str,
    lined: bool,
    lines: &mut Option<Vec<u8>>,
) -> Result<u8, Fault<'a>>
where
    S::Text: Send,
    ensures few { IfOk result (λ status. status < 2) }
    ensures told { EndsWindow (window_of pages) name.entry.now (files_of (S.bytes_of console.old.texts.now) (S.names_in console.old.texts.now)) (S.text_in console.old.texts.now) (I.remaining console.old.input) (O.contents console.old.output, E.contents console.old.errors) (O.contents console.new.output, E.contents console.new.errors) result }
    ensures lines { lined ≡ true → result ≡ Ok 0 → MatchOption lines.new ⊥ (λ table. HasWindowLines (window_of pages) name.entry.now (files_of (S.bytes_of console.old.texts.now) (S.names_in console.old.texts.now)) (S.text_in console.old.texts.now) (I.remaining console.old.input) (O.contents console.old.output) (O.contents console.new.output) table.items) }
    ensures unlined { lined ≡ false → lines.new ≡ lines.old }
    ensures kept { result ≢ Ok 0 → lines.new ≡ lines.old }
    ensures gains { BothGain (O.contents console.old.output, E.contents console.old.errors) (O.contents console.new.output, E.contents console.new.errors) }
{
    let window = Window {
        first: pages.first,
        count: pages.count,
    };
    perform_window(console, window, lined, name, lines)
}

/// Does what the words ask for. If a window is written and its lines are asked for, puts their table into `lines`.
pub fn perform<
    'a,
    R: Threads + Wait + Sync + Net<Listener = TcpListener, Stream = TcpStream>,
    S: TextSource,
    I: Read + Send,
    O: Write,
    E: Write,
>(
    console: &mut Console<'_, R, S, I, O, E>,
    job: Job<'a>,
    lines: &mut Option<Vec<u8>>,
) -> Result<u8, Fault<'a>>
where
    S::Text: Send,
    ensures few { IfOk result (λ status. status < 2) }
    ensures told { EndsAsked (asked_names job.entry) (files_of (S.bytes_of console.old.texts.now) (S.names_in console.old.texts.now)) (S.text_in console.old.texts.now) (I.remaining console.old.input) (O.contents console.old.output, E.contents console.old.errors) (O.contents console.new.output, E.contents console.new.errors) result }
    ensures lines { result ≡ Ok 0 → HasLines (asked_names job.entry) (files_of (S.bytes_of console.old.texts.now) (S.names_in console.old.texts.now)) (S.text_in console.old.texts.now) (I.remaining console.old.input) (O.contents console.old.output) (O.contents console.new.output) lines.old lines.new }
    ensures kept { result ≢ Ok 0 → lines.new ≡ lines.old }
    ensures gains { BothGain (O.contents console.old.output, E.contents console.old.errors) (O.contents console.new.output, E.contents console.new.errors) }
{
    match job {
        Request::One(task, name) => {
            let command = AuditCommand {
                rt: console.rt,
                ask: ask_of(task),
            };
            perform_one(console, &command, name)
        }
        Request::Two(task, first, second) => asked_two(console, task, first, second),
        Request::Migrate(carrier, name) => perform_migrate(console, carrier, name),
        Request::Draw(topic, name, further) => asked_draw(console, topic, name, further),
        Request::Window(pages, name, file) => {
            asked_window(console, pages, name, file.is_some(), lines)
        }
    }
}
