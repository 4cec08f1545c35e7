//! What the logs of a session say about each page, found from the records of that page.
//!
//! A checker, a maker of certificates and an audit all judge a page by the same few facts: whether a read of it gave
//! another value than one machine would, what was sent of it, where it was placed, and when it was first used after
//! handover. [`Judges`] find these facts for all pages, in one pass over each log with the cells of the pages, alone or
//! by ranges of pages side by side. The findings about a page are not kept. A [`Question`] takes what it wants from
//! them: [`FirstFault`] takes the first fault of all pages, and [`JudgesEntries`] the first entry of a certificate that
//! is not right. [`findings_for`] returns the findings about one page, [`fault_of`] the first fault of a page, and
//! [`faulty_pages`] each page that has a fault, with its first.
#![tactic(auto)]

mod entries;
mod facts;
mod faulty;
mod findings;
mod judges;
mod looks;
mod machine;
mod moved;
mod page_fault;
mod question;
mod range;
mod range_judge;
mod range_moved;
mod range_start;
mod right_entry;

pub use facts::{PageFacts, facts_of};
pub use faulty::{
    Faults, FaultyPage, HowMany, clean_sessions_have_no_faulty_page, faulty_pages,
    many_of_pages_are_many,
};
pub use findings::Findings;
pub use judges::{InThreads, Judges, JudgesEntries, OneThread, is_judged_alone};
pub use machine::halt_place;
pub use page_fault::{FirstFault, PageFault, fault_of, first_of_pages_is_first, first_page_fault};
pub use question::{Question, answer_apart};
pub use range_judge::findings_for;
pub use right_entry::is_right_entry;
