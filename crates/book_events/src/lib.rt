//! The events of a migration that concern two or three books, each on the books that it names and on no other. The core
//! carries them out one after another, and threads do so under the books' locks. Also what the books have recorded.
#![tactic(auto)]

mod effect;
pub mod halting;
pub mod logs;
pub mod paging;
pub mod sending;

pub use effect::Effect;
pub use migration_events::EventFault;
