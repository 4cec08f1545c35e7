//! Recordings: sessions of machines of any size, with numbers of 64 bits; the lines of their pages and records; and
//! visitors, which go through them.
#![tactic(auto)]

mod fields;
mod guest;
mod init;
mod lane;
mod laws;
mod link;
mod machine;
mod pager;
mod records;
mod sessions;
mod source;
mod visited;
mod visiting;
mod wide;
mod widened;
mod writing;

pub use laws::{recordings_fit, sessions_are_recordings};
pub use machine::{BEYOND, WideMachine};
pub use visited::Visited;
pub use visiting::Visitor;
pub use wide::{Wide, WideGuest, WideInit, WideLane, WideLink, WidePager, WideSource};
