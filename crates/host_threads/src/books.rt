//! The books before the first event, and what they leave.

ghost use Rattle.std.specs.Prelude.{◌≡◌, IfOk};
ghost use Rattle.target_side.specs.Guests.{part_of as guest_part};
ghost use Rattle.target_side.specs.GuestPart.{new_guest};
ghost use Rattle.host_threads.specs.Left.{IsLeft};

use crate::bell::Bell;
use crate::shared::SharedBooks;
use crate::side::TargetSide;
use crate::stop_reason::StopReason;
use active_push::SourceBook;
use book_events::logs::logs_of;
use guest_script::Script;
use link_book::LinkBook;
use migration_types::Logs;
use page_store::Store;
use std::alloc::{AllocError, Global};
use std::mem::drop;
use std::sync::Mutex;
use target_side::{GuestBook, PagerBook};

/// Returns the guest's book before the first event. Fails only if memory runs out.
fn guest_of(alloc: Global, script: &Script) -> Result<GuestBook, AllocError>
    ensures { IfOk result (λ b. guest_part b ≡ new_guest script.now.geometry script.now.init) }
{
    script.keeps_limits();
    GuestBook::new(alloc, script.geometry(), script.init())
}

/// Returns the books before the first event. Fails only if memory runs out.
pub fn books_of(alloc: Global, script: &Script) -> Result<SharedBooks, AllocError> {
    let bell = Bell::new(alloc, script.vcpus().len())?;
    let guest = guest_of(alloc, script)?;
    let pager = PagerBook::new(alloc, script.geometry())?;
    Ok(SharedBooks {
        source: Mutex::new(None),
        link: Mutex::new(LinkBook::new(alloc)),
        pager: Mutex::new(pager),
        target: Mutex::new(TargetSide::Guest(guest)),
        bell,
    })
}

/// Returns the logs of the books, and the frames at the target, or `None` if the guest has not halted.
fn left_of(
    source: Option<SourceBook>,
    link: LinkBook,
    pager: PagerBook,
    target: TargetSide,
) -> Option<(Logs, Store)>
    ensures { IsLeft source link.part pager.log target result }
{
    match (source, target) {
        (Some(source), TargetSide::Target(target)) => {
            let (guest, store) = target.into_parts();
            Some((logs_of(guest, source, link, pager), store))
        }
        (source, target) => {
            drop((source, link, pager, target));
            None
        }
    }
}

/// Returns why the run stopped, if it did, and what the threads left, as `left_of` does.
pub fn left_by(shared: SharedBooks) -> (Option<StopReason>, Option<(Logs, Store)>) {
    let SharedBooks {
        source,
        link,
        pager,
        target,
        bell,
    } = shared;
    let left = left_of(
        source.into_inner(),
        link.into_inner(),
        pager.into_inner(),
        target.into_inner(),
    );
    (bell.into_reason(), left)
}
