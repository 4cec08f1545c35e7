//! Transcripts.

use migration_events::Op;
use migration_types::Seq;

/// An operation of a virtual processor, and its answer: the value read, the value written, or 0 for a release.
#[derive(Clone, Copy, Debug)]
pub struct Answered {
    pub op: Op,
    pub answer: u64,
}

/// What a virtual processor did, in order, with the answers.
pub type Transcript = Seq<Answered>;
