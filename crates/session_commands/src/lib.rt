//! The recorders' files in folders: they are found, and what they lack is told in words. The command `session` writes the text of their
//! session as they are read; without a text the session is held. With that, a folder stands in the place of a session. The command `window` writes the session of some pages.
#![tactic(auto)]

mod compressed;
mod ends;
mod facts;
mod faults;
mod files;
mod finder;
mod folders;
mod forms;
mod found;
mod gathering;
mod gone;
mod lacks;
mod lines;
mod machine_words;
mod machines;
mod making;
mod performing;
mod places;
mod recording;
mod stops;
mod surveys;
mod system_errors;
mod telling;
mod walk_stops;
mod windowing;
mod words;
mod wrong_records;

pub use folders::{ErrorSink, WithFolders};
pub use gathering::gather_session;
pub use performing::perform_session;
pub use windowing::perform_window;
