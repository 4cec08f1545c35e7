//! Texts under names, outputs that may fail before the end, and why the system does not read or write.
#![tactic(auto)]

mod causes;
mod sources;
mod writing;

pub use causes::{Cause, cause_of};
pub use sources::TextSource;
pub use writing::{write_or_why, write_whole};
