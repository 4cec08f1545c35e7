//! The machine that never moved, beside the one that moves. It shares the source's frames as long as the guest is
//! there, and then has a copy of them.

ghost use Rattle.std.specs.Prelude.{◌≡◌, ◌||◌, IfOk, OnOk};
ghost use Rattle.migration_types.specs.Sessions.{GuestRecFits};
ghost use Rattle.audit_model.specs.Shape.{is_halt, is_resume};
ghost use Rattle.flat_machine.specs.Machines.{memory_after};
ghost use Rattle.page_store.specs.Frames.{memory_of, IsWith};
ghost use Rattle.merge_runs.specs.inner.Unmoved.{frames_of, IsSameMachine, IsUnmovedAfter};

use audit_model::{is_halt, is_resume};
use migration_types::{GuestRec, PageNo};
use page_store::Store;
use std::alloc::{AllocError, Global};

/// Returns its frames, which are the source's if it has none of its own.
pub(crate) fn frames_of<'a>(own: &'a Option<Store>, source: &'a Store) -> &'a Store
    ensures { result.now ≡ frames_of own.now source.now }
{
    match own {
        Some(frames) => frames,
        None => source,
    }
}

/// Returns a copy of these frames. Fails only if memory runs out.
fn copy_of(alloc: Global, frames: &Store) -> Result<Store, AllocError>
    ensures { IfOk result (IsSameMachine frames.now) }
{
    let geometry = frames.geometry();
    geometry.keeps_limits();
    let mut copy = Store::zeroed(alloc, geometry)?;
    for index in 0..geometry.pages() {
        let page = PageNo::new(index);
        copy.install(page, frames.page(page));
    }
    Ok(copy)
}

/// Carries out a record of the guest on frames that never move.
fn step_frames(frames: &mut Store, rec: &GuestRec)
    requires { GuestRecFits frames.old.geometry rec.now }
    ensures { IsWith frames.old frames.new (memory_after rec.now (memory_of frames.old)) }
{
    match *rec {
        GuestRec::Write {
            page,
            cell,
            value,
            ..
        } => frames.write(page, cell, value),
        GuestRec::Release { page, .. } => frames.release(page),
        _ => {}
    }
}

/// Returns whether the guest leaves the source by this record, if it was there.
fn leaves(rec: &GuestRec) -> bool
    ensures { result ≡ (is_halt rec.now || is_resume rec.now) }
{
    is_halt(rec) || is_resume(rec)
}

/// Carries out a record of the guest on the machine that never moved. While this has no frames of its own, the source
/// carries out the record, or the guest leaves the source by it. Fails only if memory runs out.
pub(crate) fn step_unmoved(
    alloc: Global,
    own: &mut Option<Store>,
    source: &Store,
    rec: &GuestRec,
) -> Result<(), AllocError>
    requires { GuestRecFits (frames_of own.old source.now).geometry rec.now }
    ensures { OnOk result (IsUnmovedAfter rec.now source.now own.old own.new) }
{
    match own {
        Some(frames) => step_frames(frames, rec),
        None => {
            if leaves(rec) {
                *own = Some(copy_of(alloc, source)?);
            }
        }
    }
    Ok(())
}
