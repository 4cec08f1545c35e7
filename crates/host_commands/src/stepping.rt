//! The session that events record from a script.

ghost use Rattle.std.specs.Prelude.{◌≡◌, ◌<◌, ◌⊎◌, ℕ, List, IfOk};
ghost use Rattle.text_lines.specs.Answer.{IsRead};
ghost use Rattle.text_lines.specs.Text.{IsSpelling};
ghost use Rattle.text_access.specs.Names.{files_of};
ghost use Rattle.text_access.specs.Written.{BothGain};
ghost use Rattle.guest_script.specs.Events.{SpellsEvents};
ghost use Rattle.guest_script.specs.Scripts.{SpellsScript};
ghost use Rattle.command_texts.specs.Answers.{IsListStop, IsTextFault};
ghost use Rattle.command_texts.specs.Reasons.{IsRefusedAt, TellsBeside};
ghost use Rattle.command_texts.specs.Told.{AreNamed, Ends, NoSession};
ghost use Rattle.host_commands.specs.Steps.{IsStepsAnswer};
ghost use Rattle.host_commands.specs.Written.{IsWritten};

use crate::recorded::{write_held, write_recorded};
use command_texts::{Console, Fault, Gathered, Telling, read_pair, refused, remark, tell_why};
use guest_script::{EventParts, Script, ScriptParts};
use migration_events::Event;
use migration_types::Seq;
use session_core::{CoreFault, run};
use std::alloc::Global;
use std::io::{Read, Write};
use std::mem;
use std::thread::Threads;
use text_access::TextSource;

/// Writes the answer for a script with events, for any texts that spell them.
fn write_run<O: Write>(
    alloc: Global,
    script: &Script,
    events: &[Event],
    output: &mut O,
) -> Result<u8, Fault<'static>>
    ensures { (first second : List ℕ) → IsSpelling SpellsScript script.now first → IsSpelling SpellsEvents events.now second → IsWritten IsListStop (IsStepsAnswer first second) (O.contents output.old) (O.contents output.new) result }
{
    match run(alloc, script, events) {
        Ok(session) => {
            let done = write_recorded(alloc, &session, b"", output);
            mem::forget(session);
            done
        }
        Err(CoreFault::LogFull) => write_held(remark(alloc, b"log-full"), output),
        Err(CoreFault::Memory) => Err(Fault::Memory),
    }
}

/// Writes the answer for a script with events, given what was read from their texts.
fn write_steps<O: Write>(
    alloc: Global,
    script: &Result<Script, u32>,
    events: &Result<Seq<Event>, u32>,
    output: &mut O,
) -> Result<u8, Fault<'static>>
    ensures { (first second : List ℕ) → IsRead SpellsScript first script.now → IsRead SpellsEvents second events.now → IsWritten IsListStop (IsStepsAnswer first second) (O.contents output.old) (O.contents output.new) result }
{
    match (script, events) {
        (Err(line), _) => write_held(refused(alloc, b"script-text line ", *line), output),
        (Ok(_), Err(line)) => write_held(refused(alloc, b"events-text line ", *line), output),
        (Ok(script), Ok(events)) => write_run(alloc, script, events.as_slice(), output),
    }
}

/// `steps`: writes the session that events record from a script. The two texts are read in this order. If one is refused,
/// the errors say why. What was read is forgotten, since the program ends then.
pub fn perform_steps<'a, R: Threads + Sync, S: TextSource, I: Read + Send, O: Write, E: Write>(
    console: &mut Console<'_, R, S, I, O, E>,
    first: &'a str,
    second: &'a str,
) -> Result<u8, Fault<'a>>
where
    S::Text: Send,
    ensures few { IfOk result (λ status. status < 2) }
    ensures told { Ends (IsTextFault (λ n. (n ≡ first.entry.now) ⊎ (n ≡ second.entry.now))) (AreNamed first.entry.now second.entry.now (files_of (S.bytes_of console.old.texts.now) (S.names_in console.old.texts.now)) NoSession NoSession (I.remaining console.old.input)) (λ texts. IsStepsAnswer texts.0 texts.1) (TellsBeside (IsRefusedAt SpellsScript) (IsRefusedAt SpellsEvents) (λ _ _ before after. after ≡ before) (λ _ _ _. ⊥) first.entry.now second.entry.now) (O.contents console.old.output, E.contents console.old.errors) (O.contents console.new.output, E.contents console.new.errors) result }
    ensures gains { BothGain (O.contents console.old.output, E.contents console.old.errors) (O.contents console.new.output, E.contents console.new.errors) }
{
    let (found, refusals) = read_pair::<Gathered<ScriptParts>, Gathered<EventParts>, R, S, I>(
        console.rt,
        console.alloc,
        first,
        second,
        console.texts,
        &mut console.input,
    )?;
    let status = write_steps(console.alloc, &found.0, &found.1, &mut console.output)?;
    tell_why(
        console.alloc,
        refusals.earliest(),
        Telling::Short,
        &mut console.errors,
    );
    mem::forget(found);
    Ok(status)
}
