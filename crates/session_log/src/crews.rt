//! Pools of workers that take many pages and records of a session at once.

use crate::guest::GuestLines;
use crate::lane::LaneLines;
use crate::link::LinkLines;
use crate::pager::PagerLines;
use crate::records::Records;
use crate::source::SourceLines;
use migration_types::{GuestRec, LaneRec, LinkRec, PagerRec, SourceRec};
use session_grammar::InitLines;
use std::thread::Threads;
use text_lines::{Alone, ItemCrew, Team, take_parts};

/// A pool of workers that takes the initial pages and the records of each log.
pub(crate) trait SessionCrew: ItemCrew<InitLines>
    + ItemCrew<Records<GuestLines>>
    + ItemCrew<Records<SourceLines>>
    + ItemCrew<Records<LinkLines>>
    + ItemCrew<Records<LaneLines>>
    + ItemCrew<Records<PagerLines>> {}

impl SessionCrew for Alone {}

impl<'a, H: Threads + Sync> SessionCrew for Team<'a, H> {}

impl<'a, H: Threads + Sync> ItemCrew<Records<GuestLines>> for Team<'a, H> {
    fn take<'b>(
        &self,
        form: &Records<GuestLines>,
        items: &mut Vec<GuestRec>,
        most: u32,
        bytes: &'b [u8],
    ) -> (&'b [u8], u32) {
        take_parts(self.rt, form, self.parts, items, most, bytes)
    }
}

impl<'a, H: Threads + Sync> ItemCrew<Records<SourceLines>> for Team<'a, H> {
    fn take<'b>(
        &self,
        form: &Records<SourceLines>,
        items: &mut Vec<SourceRec>,
        most: u32,
        bytes: &'b [u8],
    ) -> (&'b [u8], u32) {
        take_parts(self.rt, form, self.parts, items, most, bytes)
    }
}

impl<'a, H: Threads + Sync> ItemCrew<Records<LinkLines>> for Team<'a, H> {
    fn take<'b>(
        &self,
        form: &Records<LinkLines>,
        items: &mut Vec<LinkRec>,
        most: u32,
        bytes: &'b [u8],
    ) -> (&'b [u8], u32) {
        take_parts(self.rt, form, self.parts, items, most, bytes)
    }
}

impl<'a, H: Threads + Sync> ItemCrew<Records<LaneLines>> for Team<'a, H> {
    fn take<'b>(
        &self,
        form: &Records<LaneLines>,
        items: &mut Vec<LaneRec>,
        most: u32,
        bytes: &'b [u8],
    ) -> (&'b [u8], u32) {
        take_parts(self.rt, form, self.parts, items, most, bytes)
    }
}

impl<'a, H: Threads + Sync> ItemCrew<Records<PagerLines>> for Team<'a, H> {
    fn take<'b>(
        &self,
        form: &Records<PagerLines>,
        items: &mut Vec<PagerRec>,
        most: u32,
        bytes: &'b [u8],
    ) -> (&'b [u8], u32) {
        take_parts(self.rt, form, self.parts, items, most, bytes)
    }
}
