//! The migration of a script, as a text and a status.

ghost use Rattle.std.specs.Prelude.{◌≡◌, ◌<◌, ℕ, List, IfOk, IfErr};
ghost use Rattle.text_lines.specs.Answer.{IsRead};
ghost use Rattle.text_lines.specs.Text.{IsSpelling};
ghost use Rattle.audit_report.specs.Reports.{ReportFits};
ghost use Rattle.audit_report.specs.ReportText.{report_text};
ghost use Rattle.guest_script.specs.declared.script.Scenario.{Scenario};
ghost use Rattle.guest_script.specs.Scripts.{SpellsScript};
ghost use Rattle.host_checks.specs.Outcomes.{IsRunFault};
ghost use Rattle.text_access.specs.Names.{files_of};
ghost use Rattle.text_access.specs.Written.{BothGain};
ghost use Rattle.command_texts.specs.declared.why.Telling.TheVariants.{Short};
ghost use Rattle.command_texts.specs.Answers.{IsHostFault, IsListStop, Says};
ghost use Rattle.command_texts.specs.Reasons.{IsRefusedAt, TellsWhyOf};
ghost use Rattle.command_texts.specs.Told.{Ends, IsNamed, NoSession};
ghost use Rattle.host_commands.specs.Migrations.{IsMigrateAnswer, IsMigrationOf, certified_text};
ghost use Rattle.host_commands.specs.Written.{Has, IsWritten};

use crate::recorded::{write_held, write_recorded};
use audit_report::{Report, print_report};
use cert_text::write_cert;
use command_texts::{
    Answer, Console, Fault, Gathered, REFUSED, Telling, read_named, refused, remark, tell_why,
};
use command_words::Carrier;
use guest_script::{Script, ScriptParts};
use host_threads::{Migrated, Open, RunFault, migrate, migrate_tcp};
use std::alloc::{AllocError, Global};
use std::io::{Read, Write};
use std::net::{Net, TcpListener, TcpStream};
use std::sync::Wait;
use std::thread::Threads;
use text_access::TextSource;

/// Runs the migration of a script with a carrier.
fn carried<R: Threads + Wait + Sync + Net<Listener = TcpListener, Stream = TcpStream>>(
    rt: &R,
    alloc: Global,
    carrier: Carrier,
    script: &Script,
) -> Result<Migrated, RunFault>
    ensures migrated { IfOk result (λ m. IsMigrationOf script.now m.session m.cert) }
    ensures refused { IfErr result (IsRunFault script.now) }
{
    match carrier {
        Carrier::Memory => migrate(rt, alloc, script, &Open),
        Carrier::Tcp => migrate_tcp(rt, alloc, script, &Open),
    }
}

/// Writes the answer for a migration: the text of its session, followed by that of its certificate.
fn write_certified<O: Write>(
    alloc: Global,
    migrated: &Migrated,
    output: &mut O,
) -> Result<u8, Fault<'static>>
    ensures { IsWritten IsListStop (Has (certified_text migrated.now.session migrated.now.cert) 0) (O.contents output.old) (O.contents output.new) result }
{
    match write_cert(alloc, &migrated.cert) {
        Ok(cert) => write_recorded(alloc, &migrated.session, cert.as_slice(), output),
        Err(_) => Err(Fault::Memory),
    }
}

/// Returns the answer for a report.
fn reported(alloc: Global, report: &Report) -> Result<Answer, AllocError>
    requires { ReportFits report.now }
    ensures { IfOk result (λ answer. Says answer (report_text report.now) 1) }
{
    let text = print_report(alloc, report)?;
    Ok(Answer {
        text,
        status: REFUSED,
    })
}

/// Writes the answer for a run that was refused.
fn write_stopped<O: Write>(
    alloc: Global,
    fault: &RunFault,
    output: &mut O,
) -> Result<u8, Fault<'static>>
    requires { (s : Scenario) × IsRunFault s fault.now }
    ensures { (s : Scenario) (text name : List ℕ) → IsRunFault s fault.now → IsSpelling SpellsScript s text → IsWritten (IsHostFault (λ n. n ≡ name)) (IsMigrateAnswer text) (O.contents output.old) (O.contents output.new) result }
{
    match fault {
        RunFault::LogFull => write_held(remark(alloc, b"log-full"), output),
        RunFault::Memory => Err(Fault::Memory),
        RunFault::Threads => Err(Fault::Threads),
        RunFault::AuditRefused(report) => write_held(reported(alloc, report), output),
        RunFault::TranscriptDiffers => write_held(remark(alloc, b"transcript-differs"), output),
        RunFault::Link => Err(Fault::Link),
    }
}

/// Writes the answer for a script, for any text that spells it.
fn write_run<R: Threads + Wait + Sync + Net<Listener = TcpListener, Stream = TcpStream>, O: Write>(
    rt: &R,
    alloc: Global,
    carrier: Carrier,
    script: &Script,
    output: &mut O,
) -> Result<u8, Fault<'static>>
    ensures { (text name : List ℕ) → IsSpelling SpellsScript script.now text → IsWritten (IsHostFault (λ n. n ≡ name)) (IsMigrateAnswer text) (O.contents output.old) (O.contents output.new) result }
{
    match carried(rt, alloc, carrier, script) {
        Ok(migrated) => {
            migrated.session.keeps_limits();
            migrated.cert.keeps_limits();
            write_certified(alloc, &migrated, output)
        }
        Err(fault) => write_stopped(alloc, &fault, output),
    }
}

/// Writes the answer, given what was read from the script's text.
fn write_migration<
    R: Threads + Wait + Sync + Net<Listener = TcpListener, Stream = TcpStream>,
    O: Write,
>(
    rt: &R,
    alloc: Global,
    carrier: Carrier,
    script: &Result<Script, u32>,
    output: &mut O,
) -> Result<u8, Fault<'static>>
    ensures { (text name : List ℕ) → IsRead SpellsScript text script.now → IsWritten (IsHostFault (λ n. n ≡ name)) (IsMigrateAnswer text) (O.contents output.old) (O.contents output.new) result }
{
    match script {
        Ok(script) => write_run(rt, alloc, carrier, script, output),
        Err(line) => write_held(refused(alloc, b"script-text line ", *line), output),
    }
}

/// `migrate`: runs the migration of a script in threads, with this carrier and a gate that never waits, and writes what
/// becomes of it. If the script's text is refused, the errors say why. Fails if memory runs out, a thread could not be
/// started, or the link or the output failed.
pub fn perform_migrate<
    'a,
    R: Threads + Wait + Sync + Net<Listener = TcpListener, Stream = TcpStream>,
    S: TextSource,
    I: Read + Send,
    O: Write,
    E: Write,
>(
    console: &mut Console<'_, R, S, I, O, E>,
    carrier: Carrier,
    name: &'a str,
) -> Result<u8, Fault<'a>>
where
    S::Text: Send,
    ensures few { IfOk result (λ status. status < 2) }
    ensures told { Ends (IsHostFault (λ n. n ≡ name.entry.now)) (IsNamed name.entry.now (files_of (S.bytes_of console.old.texts.now) (S.names_in console.old.texts.now)) NoSession (I.remaining console.old.input)) IsMigrateAnswer (TellsWhyOf (IsRefusedAt SpellsScript) (λ _ _ _. ⊥) Short name.entry.now) (O.contents console.old.output, E.contents console.old.errors) (O.contents console.new.output, E.contents console.new.errors) result }
    ensures gains { BothGain (O.contents console.old.output, E.contents console.old.errors) (O.contents console.new.output, E.contents console.new.errors) }
{
    let (script, why) = read_named::<Gathered<ScriptParts>, R, S, I>(
        console.rt,
        console.alloc,
        name,
        console.texts,
        &mut console.input,
    )?;
    let status = write_migration(
        console.rt,
        console.alloc,
        carrier,
        &script,
        &mut console.output,
    )?;
    tell_why(console.alloc, &why, Telling::Short, &mut console.errors);
    Ok(status)
}
