//! The flat machine: one machine that never moved, as the guest's log changes it. It has frames, and the set of pages
//! that its guest has released.
//!
//! A checker reads from it what each page is at the halt, and a replay what each read must give. The source's machine
//! is one as long as the guest is there.
#![tactic(auto)]

mod machine;

pub use machine::Machine;
