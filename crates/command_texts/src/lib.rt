//! What the program's commands share: the texts under names are read, the command answers with a text and a status, and
//! the answer is written.
#![tactic(auto)]

mod ahead;
mod answer;
mod closing;
mod console;
mod cutting;
mod fields;
mod limits;
mod naming;
mod noting;
mod performing;
mod reading;
mod sessions;
mod several;
mod shown;
mod taking;
mod why;

pub use answer::{
    ACCEPTED, Answer, Fault, Given, MEMORY, REFUSED, STANDARD_OUTPUT, USAGE, given, given_alone,
    refused, remark, status_where, tell, written,
};
pub use closing::Closable;
pub use console::Console;
pub use naming::{read_named, read_pair};
pub use noting::tell_note;
pub use performing::{OnOne, OnTwo, perform_one, perform_two};
pub use sessions::SessionTaker;
pub use several::{Listing, perform_several};
pub use shown::{push_shown, write_line_on, write_shown};
pub use taking::{Gathered, Taker};
pub use why::{Refusals, Telling, Why, tell_why};
