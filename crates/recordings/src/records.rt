//! Records of any log.

ghost use Rattle.std.specs.Prelude.{◌≡◌, ◌∷◌, [], ◌++◌, OnOk};
ghost use Rattle.recordings.specs.Wide.{log_of, wide_line};

use crate::wide::Wide;
use migration_types::LogName;
use std::alloc::AllocError;

impl Wide {
    /// Returns its log.
    #[inline(always)]
    pub fn log(&self) -> LogName
        ensures { result ≡ log_of self.now }
    {
        match self {
            Wide::Guest(_) => LogName::Guest,
            Wide::Source(_) => LogName::Source,
            Wide::Link(_) => LogName::Link,
            Wide::Lane(_) => LogName::Lane,
            Wide::Pager(_) => LogName::Pager,
        }
    }

    /// Appends its line, with the line feed. Fails only if memory runs out.
    pub fn push(&self, out: &mut Vec<u8>) -> Result<(), AllocError>
        ensures { OnOk result (out.new.items ≡ out.old.items ++ (wide_line self.now ++ 10 ∷ [])) }
    {
        match self {
            Wide::Guest(rec) => rec.push(out),
            Wide::Source(rec) => rec.push(out),
            Wide::Link(rec) => rec.push(out),
            Wide::Lane(rec) => rec.push(out),
            Wide::Pager(rec) => rec.push(out),
        }
    }
}
