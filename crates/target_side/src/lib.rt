//! The target's side of a migration: the guest's book until the halt, which makes the source's and the target's books
//! from it; the target's book, which has from the halt on the guest's log, the frames, and the history of what was done
//! to them; and the pager's book, some of whose calls take the target's book as well.
#![tactic(auto)]

mod access;
mod guest;
mod incoming;
mod log;
mod marks;
mod pager;
mod state;
mod target;

pub use access::{Access, UntakenMiss};
pub use guest::GuestBook;
pub use incoming::Incoming;
pub use migration_events::EventFault as TargetFault;
pub use pager::PagerBook;
pub use target::TargetBook;
