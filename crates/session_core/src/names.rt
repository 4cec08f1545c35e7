//! The names of the records that an event appends.

ghost use Rattle.std.specs.Prelude.{◌≡◌, ◌+◌, ◌-◌, ◌*◌, ◌≤◌, ◌++◌, length, vec_len, vec_capacity};
ghost use Rattle.migration_types.specs.Limits.{most_records};
ghost use Rattle.migration_types.specs.Receipts.{logs};
ghost use Rattle.migration_types.specs.declared.records.LogName.{LogName as Log};
ghost use Rattle.audit_model.specs.Mergings.{run_names};
ghost use Rattle.session_core.specs.Names.{length_in, names_between};

use migration_types::{LOG_COUNT, LogName, logs};

/// The greatest number of records that an event appends to all logs together; at most two go to one log.
pub const MOST_NAMES: usize = 2 * LOG_COUNT;

/// Appends the names of the new records of the logs, at most two for each log, for which there must be room. The
/// lengths are in the order of the logs.
pub fn push_names(order: &mut Vec<(LogName, u32)>, old: [usize; LOG_COUNT], new: [usize; LOG_COUNT])
    requires room { vec_len order.old + 2 * length logs ≤ vec_capacity order.old }
    requires grows { (log : Log) → length_in new log ≤ length_in old log + 2 }
    requires few { (log : Log) → length_in new log ≤ most_records }
    ensures { order.new.items ≡ order.old.items ++ names_between (length_in old) (length_in new) logs }
{
    for log in logs() {
        push_run(order, log, old[log.index()], new[log.index()]);
    }
}

/// Appends the names of the records of a log between two places, for which there must be room.
fn push_run(order: &mut Vec<(LogName, u32)>, log: LogName, from: usize, to: usize)
    requires room { vec_len order.old + (to - from) ≤ vec_capacity order.old }
    requires few { to ≤ most_records }
    ensures items { order.new.items ≡ order.old.items ++ run_names log from (to - from) }
    ensures len { vec_len order.new ≡ vec_len order.old + (to - from) }
    ensures capacity { vec_capacity order.new ≡ vec_capacity order.old }
{
    for place in from..to {
        order.push_reserved((log, place as u32));
    }
}
