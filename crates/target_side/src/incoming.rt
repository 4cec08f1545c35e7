//! A page on its way into its frame.

use migration_types::{Contents, PageNo};

/// A page that has come and is not placed yet, with the number of the record that took it.
#[derive(Drop)]
pub struct Incoming {
    pub got: u32,
    pub page: PageNo,
    pub contents: Contents,
}
