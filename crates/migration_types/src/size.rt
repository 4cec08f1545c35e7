//! The sizes of recordings, and their limits.

ghost use Rattle.std.specs.Prelude.{◌≡◌, ◌↔◌, IsTrue};
ghost use Rattle.migration_types.specs.Limits.{limits, HasSize};

use crate::version::Version;

/// A size, which sets the limits of a machine and of its logs.
#[derive(Clone, Copy, Debug, PartialEq, Eq)]
pub enum Size {
    Small,
    Large,
}

/// The limits of a size. Each is the greatest number that is allowed.
#[derive(Clone, Copy, Debug, PartialEq, Eq)]
pub struct Limits {
    /// Pages of a machine.
    pub pages: u32,
    /// Cells of a machine, in all its pages together.
    pub cells: u32,
    /// Records of a log.
    pub records: u32,
}

impl Size {
    /// Returns whether what is recorded in a version may be of this size.
    pub fn is_in(self, version: Version) -> bool
        ensures { IsTrue result ↔ HasSize version self }
    {
        match (version, self) {
            (Version::One, Size::Large) => false,
            (Version::One, Size::Small) | (Version::Two, _) => true,
        }
    }

    /// Returns its limits.
    #[inline(always)]
    pub fn limits(self) -> Limits
        ensures { result ≡ limits self }
    {
        match self {
            Size::Small => Limits {
                pages: 65_536,
                cells: 1_048_576,
                records: 1_048_576,
            },
            Size::Large => Limits {
                pages: 16_777_216,
                cells: 16_777_216,
                records: 134_217_728,
            },
        }
    }
}
