//! What a run of a migration leaves, and the checks that it must pass. They look only at its logs, its frames and its
//! transcripts, so nothing is assumed about how the run was made.
#![tactic(auto)]

mod limits;
mod machine;
mod outcome;
mod settling;
mod told;
mod transcript;

pub use guest_script::{Answered, Transcript};
pub use limits::session_of;
pub use outcome::{Migrated, RunFault};
pub use settling::settle;
