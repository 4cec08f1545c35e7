//! Running a script with a list of events.

ghost use Rattle.std.specs.Prelude.{◌≡◌, [], None, IfOk, OnOk, IsErrOf};
ghost use Rattle.session_core.specs.States.{scripted_of};
ghost use Rattle.migration_model.specs.Events.{run as outcome, start};
ghost use Rattle.migration_model.specs.Promise.{IsReached};
ghost use Rattle.session_core.specs.Cores.{books_of, machine, RunsTo, IsHeld};
ghost use Rattle.session_core.specs.Promised.{IsRecordedBy};

use crate::CoreFault;
use crate::before::BeforeHalt;
use crate::phase::Phase;
use guest_script::Script;
use migration_events::Event;
use migration_types::Session;
use std::alloc::Global;
use std::mem::drop;

/// Returns what a script and a list of events record, from the script's start.
///
/// # Errors
///
/// `CoreFault::LogFull` if an event needs more records than a log has room for, and `CoreFault::Memory` if memory runs
/// out.
pub fn run(alloc: Global, script: &Script, events: &[Event]) -> Result<Session, CoreFault>
    ensures recorded { IfOk result (IsRecordedBy (scripted_of script.now) events.now) }
    ensures full { IsErrOf result CoreFault.LogFull → outcome events.now (start (scripted_of script.now)) ≡ None }
{
    let before = BeforeHalt::start(alloc, script)?;
    let mut phase = Phase::Before(before);
    match step_all(&mut phase, events) {
        Ok(()) => Ok(phase.into_session()?),
        Err(fault) => {
            drop(phase);
            Err(fault)
        }
    }
}

/// Carries out events on the books, one after another, until one is refused. Keeps no recorded order.
fn step_all(phase: &mut Phase<'_>, events: &[Event]) -> Result<(), CoreFault>
    requires held { IsHeld phase.old }
    requires reached { IsReached (machine phase.old []) }
    ensures held { IsHeld phase.new }
    ensures ok { OnOk result (RunsTo events.now (machine phase.old []) (books_of phase.new)) }
    ensures full { IsErrOf result CoreFault.LogFull → outcome events.now (machine phase.old []) ≡ None }
{
    for event in events {
        phase.event(*event)?;
        phase.keeps_limits();
    }
    Ok(())
}
