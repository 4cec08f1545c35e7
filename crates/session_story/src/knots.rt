//! Records that wait for one another, as a value.

ghost use Rattle.std.specs.Prelude.{◌≡◌};
ghost use Rattle.session_story.specs.Waits.{next_in};

use migration_types::LogName;

/// A record that waits for a record of another log, because it is a receipt for it.
#[derive(Clone, Copy)]
pub struct Waiting {
    pub log: LogName,
    /// The number of the record that waits.
    pub place: u32,
    /// The log of the record that it waits for.
    pub sent_log: LogName,
    /// The number of that record.
    pub sent_place: u32,
}

/// Records that wait for one another.
#[derive(Drop)]
pub struct Knot {
    /// Each record is a receipt for the next, or for a record that comes after the next in its log.
    pub waits: Vec<Waiting>,
    /// The index of the record that the last one waits for. From it on, the records form a circle.
    pub back: usize,
}

impl Knot {
    /// Returns the record that the record of this index waits for: the next, or for the last, the one at which the
    /// circle begins. Returns `None` if there is no such index. Allocates no memory.
    pub fn next(&self, index: usize) -> Option<Waiting>
        ensures { result ≡ next_in self.now index }
    {
        let waits = self.waits.as_slice();
        if index >= waits.len() {
            return None;
        }
        match waits.get(index + 1) {
            Some(next) => Some(*next),
            None => waits.get(self.back).copied(),
        }
    }
}
