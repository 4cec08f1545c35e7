//! Events on the books and on the recorded order.

ghost use Rattle.std.specs.Prelude.{◌≡◌, Some, None, true, is_some, OnOk, OnErr, IsErrOf};
ghost use Rattle.migration_model.specs.Events.{step};
ghost use Rattle.migration_model.specs.Promise.{IsReached};
ghost use Rattle.session_core.specs.Cores.{machine, IsHeld};

use crate::CoreFault;
use crate::names::{MOST_NAMES, push_names};
use crate::phase::Phase;
use migration_events::Event;
use migration_types::LogName;

/// Carries out an event on the books, and appends the names of its records to the order. Whether the logs have room is
/// checked before memory is allocated. On an error, nothing changes.
pub fn step_books(
    phase: &mut Phase<'_>,
    order: &mut Vec<(LogName, u32)>,
    event: Event,
) -> Result<(), CoreFault>
    requires held { IsHeld phase.old }
    requires reached { IsReached (machine phase.old order.old.items) }
    ensures held { IsHeld phase.new }
    ensures ok { OnOk result (step event (machine phase.old order.old.items) ≡ Some (machine phase.new order.new.items)) }
    ensures full { IsErrOf result CoreFault.LogFull → step event (machine phase.old order.old.items) ≡ None }
    ensures memory { IsErrOf result CoreFault.Memory → is_some (step event (machine phase.old order.old.items)) ≡ true }
    ensures err { OnErr result (machine phase.new order.new.items ≡ machine phase.old order.old.items) }
{
    phase.look(event)?;
    order.reserve(MOST_NAMES)?;
    let old = phase.lengths();
    phase.event(event)?;
    phase.keeps_limits();
    push_names(order, old, phase.lengths());
    Ok(())
}
