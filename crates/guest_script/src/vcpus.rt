//! What the virtual processors of a guest do.

ghost use Rattle.std.specs.Prelude.{MatchBool};
ghost use Rattle.guest_script.specs.Moments.{MayRelease};

use migration_events::Op;
use migration_types::{Seq, Version};

/// What a virtual processor does before its move, while the guest runs at the source, and after it, at the target.
#[derive(Drop)]
pub struct Vcpu {
    pub before_move: Seq<Op>,
    pub after_move: Seq<Op>,
}

/// When a virtual processor does an operation.
#[derive(Clone, Copy, Debug, PartialEq, Eq)]
pub enum When {
    BeforeMove,
    /// After the move, in a script of this version.
    AfterMove(Version),
}

/// Returns whether a virtual processor may release pages, before its move or after it.
pub fn may_release(when: When) -> bool
    ensures { MatchBool result (MayRelease when) (MayRelease when → ⊥) }
{
    match when {
        When::BeforeMove => true,
        When::AfterMove(version) => match version {
            Version::One => false,
            Version::Two => true,
        },
    }
}

/// The greatest number of pivots; the least is 1.
pub const MOST_PIVOTS: u32 = 16;

/// The greatest number of packets in a window; the least is 1.
pub const MOST_WINDOW: u32 = 65_536;

/// The greatest number of delivery outcomes in a direction.
pub const MOST_FATES: u32 = 4_096;

/// The greatest number of virtual processors; the least is 1.
pub const MOST_VCPUS: u32 = 64;

/// The greatest number of operations of a virtual processor before its move, and also after it.
pub const MOST_OPS: u32 = 65_536;
