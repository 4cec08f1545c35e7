//! The checker: the shape of a session, and the verdict on a session and its certificate, as values.
#![tactic(auto)]

mod entry_judges;
mod judge;
mod log_passes;
mod passes;
mod places;
mod shape_fault;
mod verdict;

pub use entry_judges::EntryJudges;
pub use judge::{check, check_by, check_par};
pub use places::{page_at, run_at};
pub use shape_fault::{shape, shape_faults};
pub use verdict::{ShapeFault, Verdict};
