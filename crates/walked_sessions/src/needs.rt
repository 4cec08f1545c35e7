//! What records need of the version and of the size of their session.

ghost use Rattle.std.specs.Prelude.{◌<◌, ◌↔◌, IsTrue};
ghost use Rattle.migration_types.specs.Limits.{limits, longest_log};
ghost use Rattle.migration_types.specs.Sessions.{HasBack, HasLane};
ghost use Rattle.walked_sessions.specs.Needs.{Allows, AreNeeds};
ghost use Rattle.walked_sessions.specs.inner.Needs.{AreBoth};

use migration_types::{LogName, Size, Version};

/// What some records need of the version and of the size of their session.
#[derive(Clone, Copy)]
pub(crate) struct Needs {
    /// The least number past all that they name, 0 if they name none.
    past: u32,
    /// Whether only a version that has a lane has them.
    lane: bool,
    /// Whether only a size whose sessions have records `back` of the source has them.
    back: bool,
}

impl Needs {
    /// Returns what is needed by records that may be in any session of their machine.
    #[inline(always)]
    pub(crate) fn nothing() -> Self
        ensures { AreNeeds (λ version size. Unit {0}) result }
    {
        Needs {
            past: 0,
            lane: false,
            back: false,
        }
    }

    /// Returns what a record needs that names the record of this number.
    #[inline(always)]
    pub(crate) fn number(number: u32) -> Self
        requires { number < longest_log }
        ensures { AreNeeds (λ version size. number < (limits size).records) result }
    {
        Needs {
            past: number + 1,
            lane: false,
            back: false,
        }
    }

    /// Returns what a record needs that has a lane's packet and names the record of this number.
    #[inline(always)]
    pub(crate) fn lane_number(number: u32) -> Self
        requires { number < longest_log }
        ensures { AreNeeds (λ version size. HasLane version × (number < (limits size).records)) result }
    {
        Needs {
            past: number + 1,
            lane: true,
            back: false,
        }
    }

    /// Returns what the record needs by which the source started its guest again.
    #[inline(always)]
    pub(crate) fn back() -> Self
        ensures { AreNeeds (λ version size. HasBack size) result }
    {
        Needs {
            past: 0,
            lane: false,
            back: true,
        }
    }

    /// Returns what both need.
    #[inline(always)]
    pub(crate) fn and(self, other: Self) -> Self
        ensures { AreBoth self other result }
    {
        Needs {
            past: self.past.max(other.past),
            lane: self.lane || other.lane,
            back: self.back || other.back,
        }
    }

    /// Returns whether a version and a size have what is needed.
    pub(crate) fn are_met(self, version: Version, size: Size) -> bool
        ensures { IsTrue result ↔ Allows version size self }
    {
        self.past <= size.limits().records
            && (!self.lane || LogName::Lane.is_in(version))
            && (!self.back || has_back(size))
    }
}

/// Returns whether sessions of a size may have records `back` of the source.
fn has_back(size: Size) -> bool
    ensures { IsTrue result ↔ HasBack size }
{
    size == Size::Large
}
