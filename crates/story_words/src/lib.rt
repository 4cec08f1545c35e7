//! The story of a session, and what the session lacks, as a list of sentences; and their words in English.
#![tactic(auto)]

mod counts;
mod english;
mod faults;
mod kinds;
mod knots;
mod lacks;
mod listing;
mod pages;
mod questions;
mod sentences;
mod shapes;
mod topics;
mod writing;

pub use english::{English, log_word, push_place, push_record, push_wait};
pub use lacks::missing_told;
pub use sentences::Sentence;
pub use topics::{told_first, told_in_full};
pub use writing::{Writer, push_sentences};
