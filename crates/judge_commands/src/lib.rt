//! The commands that judge a session by its text, alone or with a certificate or runs.
#![tactic(auto)]

mod auditing;
mod checking;
mod completing;
mod explaining;
mod forms;
mod misfit_entries;
mod misfit_runs;
mod misfit_words;
mod noting;
mod replaying;

pub use auditing::{AuditCommand, report_status};
pub use checking::{CheckCommand, push_verdict, verdict_status};
pub use explaining::ExplainByTable;
pub use replaying::ReplayCommand;
