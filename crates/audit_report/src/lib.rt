//! The audit of a recorded session. Either it is clean, with a right certificate; or it has a fault, with an order of
//! its records in which the demand at the faulty line fails. Also what is written about a judgement: the text of a
//! report, with the pages that have a fault if these are wanted, the line at which a text is refused, and the line that
//! says what a session lacks.
#![tactic(auto)]

mod auditing;
mod cuts;
mod dependence;
mod faulty;
mod lacking;
mod lines;
mod orders;
mod parts;
mod placements;
mod printing;
mod question_pair;
mod report;

pub use auditing::{AuditFacts, FaultAndEntries, audit, audit_by, audit_in_full};
pub use dependence::depends_on;
pub use faulty::{print_all_faults, push_faulty_pages};
pub use lacking::{line_of_taken, push_missing};
pub use lines::{Lines, OwnLines};
pub use placements::first_placement;
pub use printing::{
    print_first_line, print_refused_session, print_report, push_first_line, push_first_line_by,
    push_refused_certificate, push_refused_session, push_refused_session_by, push_shape,
};
pub use question_pair::QuestionPair;
pub use report::{FullAudit, Report};
