//! The commands that make a session from a script: with a list of events, or with a migration in threads.
#![tactic(auto)]

mod migrating;
mod recorded;
mod stepping;

pub use migrating::perform_migrate;
pub use stepping::perform_steps;
