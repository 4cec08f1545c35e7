//! The story of a recorded session: a fault with the records that led to it, a circle of records that wait for one
//! another, or how a clean session went; and the story of a page or of a record that the caller names.
//!
//! It is made of facts (how a page came to the target, the value of a cell on one machine that never moved, the guest's
//! looks, counts, and which page, which line and which other record a record has), and is a value from which more
//! follows: the cause of a fault, which record a fault concerns, what would be right instead of a wrong value, and which
//! uses of a page the story tells.
#![tactic(auto)]

mod amends;
mod apart;
mod apart_laws;
mod asking;
mod cause_laws;
mod causes;
mod concerned;
mod concerns;
mod contents;
mod counting;
mod delivering;
mod explaining;
mod explanations;
mod fault_stories;
mod faults;
mod giving;
mod kinds;
mod knots;
mod lines;
mod looks;
mod losing;
mod names;
mod orders;
mod pages;
mod questions;
mod reasons;
mod scans;
mod subjects;
mod topic_stories;
mod topics;
mod values;
mod waits;

pub use amends::{Amended, amended_by, is_always_wrong, is_number, tells_of, value_at};
pub use apart::faulty_apart;
pub use apart_laws::apart_pages_stand;
pub use cause_laws::{given_is_explained, lost_is_unexplained};
pub use causes::{Cause, CauseKind, came_to, cause_by, cause_of, is_used_by};
pub use concerns::{concerned_of, resumed_by};
pub use counting::{Counts, counts_of};
pub use explaining::explain;
pub use explanations::Explanation;
pub use fault_stories::{ApartStory, Detail, FaultStory, PageCause, ShapeStory, Wrong};
pub use giving::giver_of;
pub use kinds::{Kinds, Tally, log_of};
pub use knots::{Knot, Waiting};
pub use lines::{line_at, record_on};
pub use looks::{Look, greatest_look, is_unseen};
pub use losing::{Lost, lost_by, other_at_halt};
pub use names::{Name, furthest, named_by, named_in};
pub use pages::{Handover, PageStory, first_access, handover_of, sent_before, story_of};
pub use scans::{RecordQuestion, first_of, last_of};
pub use subjects::{page_at, page_of};
pub use topic_stories::{FullPageStory, LineStory, TopicStory};
pub use topics::tell;
pub use values::{CellValue, instead_of, other_of};
