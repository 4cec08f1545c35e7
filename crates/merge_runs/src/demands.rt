//! What each record demands of the machines before it.

ghost use Rattle.std.specs.Prelude.{◌≡◌, ◌<◌, not};
ghost use Rattle.migration_types.specs.Sessions.{GuestRecFits};
ghost use Rattle.audit_model.specs.World.{memory_at};
ghost use Rattle.page_store.specs.Frames.{memory_of};
ghost use Rattle.page_store.specs.Tables.{values};
ghost use Rattle.merge_runs.specs.inner.Moving.{world_of, HasPage, HasCell, GuestHas, SourceHas, PagerHas};
ghost use Rattle.merge_runs.specs.inner.Unmoved.{frames_of};
ghost use Rattle.merge_runs.specs.inner.Demands.{finds, has_left, is_open, guest_met, source_met, pager_met};

use crate::moving::Moving;
use crate::unmoved::frames_of;
use audit_model::Home;
use migration_types::{GuestRec, PageNo, PagerRec, SourceRec};
use page_store::Store;

/// Returns whether a read or a write finds its page.
fn finds(moving: &Moving, page: PageNo) -> bool
    requires { HasPage moving.now page }
    ensures { result ≡ finds moving.now.home (values moving.now.target.resident page) }
{
    match moving.home {
        Home::AtSource => true,
        Home::Nowhere => false,
        Home::AtTarget => moving.target.resident.at(page),
    }
}

/// Returns the value of a cell where the guest is, or at the target while it is nowhere.
fn value_here(moving: &Moving, page: PageNo, cell: u16) -> u64
    requires page { HasPage moving.now page }
    requires cell { HasCell moving.now cell }
    ensures { result ≡ memory_at moving.now.home (world_of moving.now) page cell }
{
    match moving.home {
        Home::AtSource => moving.source.frames.read(page, cell),
        Home::Nowhere => moving.target.frames.read(page, cell),
        Home::AtTarget => moving.target.frames.read(page, cell),
    }
}

/// Returns whether the guest has left the source.
fn has_left(home: Home) -> bool
    ensures { result ≡ has_left home }
{
    match home {
        Home::AtSource => false,
        Home::Nowhere => true,
        Home::AtTarget => true,
    }
}

/// Returns whether a page was neither placed at the target nor used there.
fn is_open(moving: &Moving, page: PageNo) -> bool
    requires { HasPage moving.now page }
    ensures { result ≡ is_open (world_of moving.now) page }
{
    !moving.target.placed.at(page) && !moving.target.touched.at(page)
}

/// Returns the value of a cell on the machine that never moved.
fn value_unmoved(moving: &Moving, unmoved: &Option<Store>, page: PageNo, cell: u16) -> u64
    requires page { page < (frames_of unmoved.now moving.now.source.frames).geometry.pages }
    requires cell { cell < (frames_of unmoved.now moving.now.source.frames).geometry.cells }
    ensures { result ≡ memory_of (frames_of unmoved.now moving.now.source.frames) page cell }
{
    frames_of(unmoved, &moving.source.frames).read(page, cell)
}

/// Returns whether the demand of a record of the guest is met: a read finds its page, and its value is that of the
/// memory where the guest is and that of the machine that never moved; a write finds its page.
pub(crate) fn guest_met(moving: &Moving, unmoved: &Option<Store>, rec: &GuestRec) -> bool
    requires moving { GuestHas moving.now rec.now }
    requires unmoved { GuestRecFits (frames_of unmoved.now moving.now.source.frames).geometry rec.now }
    ensures { result ≡ guest_met (memory_of (frames_of unmoved.now moving.now.source.frames)) rec.now (world_of moving.now) }
{
    match *rec {
        GuestRec::Read {
            page,
            cell,
            value,
            ..
        } => {
            finds(moving, page)
                && value_here(moving, page, cell) == value
                && value_unmoved(moving, unmoved, page, cell) == value
        }
        GuestRec::Write { page, .. } => finds(moving, page),
        _ => true,
    }
}

/// Returns whether the demand of a record of the source is met: it sends a page that the source owes, with the contents
/// there, after the guest has left.
pub(crate) fn source_met(moving: &Moving, rec: &SourceRec) -> bool
    requires { SourceHas moving.now rec.now }
    ensures { result ≡ source_met moving.now.source.frames.geometry.cells rec.now (world_of moving.now) }
{
    match rec {
        SourceRec::Send { page, contents } => {
            has_left(moving.home)
                && !moving.source.ledger.holds(*page)
                && contents.as_slice() == moving.source.frames.page(*page)
        }
        _ => true,
    }
}

/// Returns whether the demand of a record of the pager is met: it places a page once, before the guest uses it, with
/// the source's contents, or as zeros if the page is released there.
pub(crate) fn pager_met(moving: &Moving, rec: &PagerRec) -> bool
    requires { PagerHas moving.now rec.now }
    ensures { result ≡ pager_met moving.now.source.frames.geometry.cells rec.now (world_of moving.now) }
{
    match rec {
        PagerRec::Place { page, contents, .. } => {
            is_open(moving, *page) && contents.as_slice() == moving.source.frames.page(*page)
        }
        PagerRec::Zero { page } => is_open(moving, *page) && moving.source.ledger.holds(*page),
        _ => true,
    }
}
