//! The meaning of a session's records, computed plainly and slowly: whether a record has the right shape, whether it is
//! a fault of its page, whether an order is a merging, what the world holds after the first records of an order, and
//! where the order breaks. Each program follows the definitions alone, and looks at all earlier records again for each
//! record.
//!
//! The commands use none of this. Their programs are compared with it.
#![tactic(auto)]

mod faults;
mod flat;
mod merging;
mod shape;
mod world;

pub use faults::is_page_fault;
pub use flat::{flat_value, halt_place, home_before, is_freed, is_released, is_touched};
pub use merging::is_merging;
pub use shape::is_right;
pub use world::{Spot, demand_holds, first_broken, spot_after};
