//! The grammar of a session's text, for all that read or write such lines: what stands on each line, the words that lines
//! begin with, and pages with their contents.
#![tactic(auto)]

mod contents;
mod crew;
mod keys;
mod machine;
mod pages;
mod sizes;
mod stage;
mod versions;
mod wanting;
mod writing;

pub use contents::read_page_contents;
pub use keys::{
    CELLS_KEY, GUEST_KEY, INIT_KEY, LANE_KEY, LINK_KEY, PAGER_KEY, PAGES_KEY, SOURCE_KEY,
};
pub use machine::{read_cells, read_pages, wanted_cells, wanted_pages};
pub use pages::{InitLines, next_page, wanted_init_count, wanted_init_page};
pub use sizes::Sizes;
pub use stage::Stage;
pub use versions::{read_header, session_header};
pub use wanting::{wanted_behind, wanted_item};
pub use writing::{cell_digits, push_contents, push_page};
