//! The program as a library: one of the commands does what the words ask for, over the files of the system or over any
//! others.
#![tactic(auto)]

mod answering;
mod arguments;
mod drafts;
mod drawing;
mod files;
mod folders;
mod judging;
mod laws;
mod outputs;
mod pieces;
mod program;
mod putting;
mod refusing;
mod saving;
mod several;
mod sinks;

pub use arguments::{has_wrong_word, slices, tell_wrong_word, words};
pub use command_words::{Lacking, Reading, Targets, read_words};
pub use files::Disk;
pub use folders::run_over_folders;
pub use laws::{
    clean_sessions_are_migrated, migrations_are_judged_yes, recorded_sessions_are_clean,
};
pub use outputs::run_into;
pub use program::run;
pub use refusing::refuse_targets;
pub use sinks::{Account, TextSink};
