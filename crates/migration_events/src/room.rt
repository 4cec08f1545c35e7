//! Room for records in a log.

ghost use Rattle.std.specs.Prelude.{◌+◌, ◌≡◌, ◌<◌, ◌≤◌, length, vec_len, vec_capacity, OnOk, IsErrOf};
ghost use Rattle.migration_types.specs.Limits.{most_records};

use crate::faults::EventFault;
use migration_types::MOST_RECORDS;

/// Returns whether the log has room for this many more records. This is checked before memory is allocated.
pub fn look_for_room<R>(log: &Vec<R>, more: usize) -> Result<(), EventFault>
    requires { more ≤ 2 }
    ensures room { OnOk result (length log.now.items + more ≤ most_records) }
    ensures full { IsErrOf result EventFault.LogFull → most_records < length log.now.items + more }
    ensures memory { IsErrOf result EventFault.Memory → ⊥ }
{
    if log.len() > MOST_RECORDS as usize - more {
        return Err(EventFault::LogFull);
    }
    Ok(())
}

/// Makes room for this many more records. The log keeps its records, on success and on an error.
pub fn make_room<R>(log: &mut Vec<R>, more: usize) -> Result<(), EventFault>
    requires { more ≤ 2 }
    ensures items { log.new.items ≡ log.old.items }
    ensures len { vec_len log.new ≡ vec_len log.old }
    ensures room { OnOk result (vec_len log.new + more ≤ vec_capacity log.new) }
    ensures fits { OnOk result (length log.old.items + more ≤ most_records) }
    ensures full { IsErrOf result EventFault.LogFull → most_records < length log.old.items + more }
    ensures memory { IsErrOf result EventFault.Memory → length log.old.items + more ≤ most_records }
{
    look_for_room(log, more)?;
    log.reserve(more).map_err(|_| EventFault::Memory)
}
