//! The events of a migration: the operations of a guest's virtual processors, and the events that change the parties'
//! books.
#![tactic(auto)]

mod events;
mod faults;
mod ops;
mod room;

pub use events::{Direction, Event, Fate};
pub use faults::EventFault;
pub use ops::Op;
pub use room::{look_for_room, make_room};
