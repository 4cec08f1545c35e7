//! Judging texts: the verdict on the texts of a session and its certificate, the audit of a session's text, and the
//! replay of a session along runs. Only here are there line numbers; in the crates below, a record is known by its log
//! and its place.
#![tactic(auto)]

mod audit_part;
mod auditing;
mod checking;
mod orders;
mod replaying;

pub use audit_part::{AuditPart, print_audited, print_wanted};
pub use auditing::{TextAudit, audit_text};
pub use checking::{check_read, check_texts, check_texts_alone, headline_holds_at_yes};
pub use orders::reports_tell_orders;
pub use replaying::{Outcome, find_outcome, replay_texts};
