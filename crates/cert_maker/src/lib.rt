//! The maker of certificates, which finds an order of a session's records, and makes a certificate over an order.
#![tactic(auto)]

mod made_entries;
mod maker;
mod order;
mod ready;

pub use made_entries::{MadeEntries, made_entry};
pub use maker::{MakeFault, make, make_over};
pub use order::{FirstLeft, FoundRuns, Order, find_order, found_runs};
