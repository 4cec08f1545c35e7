//! The laws of less than the whole: which faults stay if logs end early and are cut to a front, or if accesses of the guest that tell
//! nothing new are left out; and which orders stay if nobody writes the logs of the link and of the lane. The definitions are in
//! `specs/`. Each function carries a law as its contract.
#![tactic(auto)]

mod front_laws;
mod thin_laws;
mod told_laws;

pub use front_laws::{
    cut_and_faulty_was_faulty, fronts_keep_faults, fronts_keep_mergings, fronts_keep_shapes,
};
pub use thin_laws::{
    repeats_may_go, thinned_again_is_alike, thinned_logs_keep_faults, thinned_logs_keep_verdicts,
};
pub use told_laws::deliveries_keep_orders;
