//! Whether the session of a migration is complete, and what is missing from one that is not.
//!
//! Empty logs are faultless, and so are those of a recorder that left records out. A complete session tells of a whole
//! migration: the guest was halted and resumed, every owed page was placed or released at the target, then the pager
//! said so and the source learned of it, and everything that the pager took was placed or dropped. If a session must be
//! complete only as to its pages ([`Extent`]), what the pager said and the source learned does not matter.
//! [`first_missing`] returns the first of these that is missing, [`count_left_pages`] how many owed pages never came, and
//! [`count_released_pages`] how many pages were not owed.
#![tactic(auto)]

mod counting;
mod ending;
mod lack;
mod pages;
mod searching;
mod taken;
mod uses;

pub use counting::{count_left_pages, count_released_pages};
pub use lack::{Extent, Lack};
pub use searching::first_missing;
pub use uses::tells_use;
