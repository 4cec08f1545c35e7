//! The core of a host: all books of a migration, and the recorded order. Events advance it, one after another. What a
//! core has recorded is faultless, for every script and all events.
#![tactic(auto)]

mod after;
mod before;
mod cores;
mod names;
mod phase;
mod remaining;
mod running;
mod stepping;

pub use book_events::EventFault as CoreFault;
pub use cores::Core;
pub use running::run;
