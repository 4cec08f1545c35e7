//! Workers that take many initial pages at once.

use crate::pages::InitLines;
use migration_types::InitPage;
use std::thread::Threads;
use text_lines::{ItemCrew, Team, take_parts};

impl<'a, H: Threads + Sync> ItemCrew<InitLines> for Team<'a, H> {
    fn take<'b>(
        &self,
        form: &InitLines,
        items: &mut Vec<InitPage>,
        most: u32,
        bytes: &'b [u8],
    ) -> (&'b [u8], u32) {
        take_parts(self.rt, form, self.parts, items, most, bytes)
    }
}
