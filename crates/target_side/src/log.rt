//! Appending records to the log.

ghost use Rattle.std.specs.Prelude.{◌≡◌, ◌+◌, ◌<◌, [], ◌∷◌, ◌++◌, length, vec_len, vec_capacity};
ghost use Rattle.migration_types.specs.Limits.{most_records};

use migration_types::PagerRec;

/// Appends a record, for which there must be room, and returns its number.
pub(crate) fn append(log: &mut Vec<PagerRec>, rec: PagerRec) -> u32
    requires room { vec_len log.old < vec_capacity log.old }
    requires few { length log.old.items < most_records }
    ensures number { result ≡ length log.old.items }
    ensures items { log.new.items ≡ log.old.items ++ rec ∷ [] }
    ensures len { vec_len log.new ≡ vec_len log.old + 1 }
    ensures capacity { vec_capacity log.new ≡ vec_capacity log.old }
{
    let number = log.len() as u32;
    log.push_reserved(rec);
    number
}
