//! Recordings that a visitor can go through.

ghost use Rattle.std.specs.Prelude.{OnOk};

use crate::visiting::Visitor;
use std::alloc::Global;

/// A recording that a visitor can go through.
pub trait Visited: Drop {
    ghost use Rattle.migration_types.specs.Sessions.{Recorded};

    /// Why the recording is not gone through.
    type Fault: Drop;

    /// It is this recording.
    ghost is_recording: { Self → Recorded → Type 0 };

    /// Goes through the recording with a visitor, which has met nothing.
    fn visit<V: Visitor>(&self, alloc: Global, visitor: &mut V) -> Result<(), Self::Fault>
        requires { V.IsNew visitor.old }
        ensures { OnOk result ((s : Recorded) × is_recording self.now s × V.Met visitor.new s) };
}
