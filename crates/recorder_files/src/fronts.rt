//! Fronts of logs.

ghost use Rattle.std.specs.Prelude.{◌≡◌, ℕ, IsTrue, ◌↔◌};
ghost use Rattle.recorder_files.specs.Fronts.{cursors_of};

use migration_types::LogName;

/// How many records of each log are in a front.
#[derive(Clone, Copy, Debug, PartialEq, Eq)]
pub struct Front {
    pub guest: u64,
    pub source: u64,
    pub link: u64,
    pub lane: u64,
    pub pager: u64,
}

impl Front {
    /// Returns how many records of a log are in it.
    #[inline(always)]
    pub fn of(self, log: LogName) -> u64
        ensures { result ≡ cursors_of self log }
    {
        match log {
            LogName::Guest => self.guest,
            LogName::Source => self.source,
            LogName::Link => self.link,
            LogName::Lane => self.lane,
            LogName::Pager => self.pager,
        }
    }
}
