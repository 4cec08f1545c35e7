//! Windows of recordings: the session of some of its pages, cut out of a recording in four passes over it; and tables of
//! lines, which say for each line of a text which line of another text it was.
#![tactic(auto)]

mod anew;
mod cutting;
mod faults;
mod keeping;
mod laws;
mod marking;
mod origins;
mod pages;
mod places;
mod sections;
mod session;
mod settling;
mod tables;
mod visiting;
mod writing;

pub use cutting::cut;
pub use faults::CutFault;
pub use laws::origins_are_told;
pub use pages::Window;
pub use session::WindowText;
pub use tables::{TableParts, push_table};
