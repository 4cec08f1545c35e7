//! The script of a guest as a value, within all limits: what its virtual processors do, and the delivery outcomes of
//! packets; and what the virtual processors were answered. Also the texts of scripts and of lists of events: reading one, or finding
//! its refusal line.
#![tactic(auto)]

ghost use Rattle.text_lines.specs.Answer.{Reads};
ghost use Rattle.text_lines.specs.Text.{IsUnambiguous};
ghost use Rattle.guest_script.specs.Events.{SpellsEvents};
ghost use Rattle.guest_script.specs.Scripts.{SpellsScript};

use migration_events::Event;
use migration_types::Seq;
use std::alloc::Global;
use text_lines::{Staged, TextFault, read};

mod event_form;
mod event_reader;
mod event_steps;
mod fates;
mod keys;
mod op_form;
mod script;
mod script_fault;
mod script_reader;
mod script_steps;
mod stages;
mod transcript;
mod vcpus;
mod versions;
mod wanting;

pub use event_reader::EventParts;
pub use script::{Scenario, Script};
pub use script_fault::{ScriptFault, VcpuFault};
pub use script_steps::ScriptParts;
pub use transcript::{Answered, Transcript};
pub use vcpus::{
    MOST_FATES, MOST_OPS, MOST_PIVOTS, MOST_VCPUS, MOST_WINDOW, Vcpu, When, may_release,
};

/// Returns the events whose text the bytes are, at most 1,048,576.
///
/// # Errors
///
/// If the bytes are no such text, the fault has the number of the refusal line, counted from 1: no text of events
/// begins with the lines up to that one. If the bytes end too early, it is the line after their last line feed. If
/// memory runs out, the fault has the kind `Memory` and line 0.
pub fn read_events(alloc: Global, bytes: &[u8]) -> Result<Seq<Event>, TextFault>
    ensures { Reads SpellsEvents bytes.now result }
{
    read(Staged::<EventParts>::new(alloc), bytes)
}

/// Returns the script whose text the bytes are.
///
/// # Errors
///
/// As for `read_events`: the line at which the bytes stop being a script's text, or memory ran out.
pub fn read_script(alloc: Global, bytes: &[u8]) -> Result<Script, TextFault>
    ensures { Reads SpellsScript bytes.now result }
{
    read(Staged::<ScriptParts>::new(alloc), bytes)
}

/// A law: no script's text begins another, a text is that of one script, and a script has one text. Runs nothing.
pub fn script_texts_are_unambiguous()
    ensures { IsUnambiguous SpellsScript }
{}

/// A law: no text of events begins another, a text is that of one list of events, and a list of events has one text.
/// Runs nothing.
pub fn event_texts_are_unambiguous()
    ensures { IsUnambiguous SpellsEvents }
{}
