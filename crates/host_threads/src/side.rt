//! What the target's lock protects.

ghost use Rattle.std.specs.Prelude.{◌≡◌, ◌≤◌, IfOk, OnErr};
ghost use Rattle.host_threads.specs.Sides.{Halts};

use active_push::SourceBook;
use book_events::EventFault;
use book_events::halting::halt;
use link_book::LinkBook;
use std::mem::{self, drop};
use target_side::{GuestBook, TargetBook};

/// The guest's book until the halt, and the target's from then on.
#[derive(Drop)]
pub(crate) enum TargetSide {
    Guest(GuestBook),
    /// Neither, while the guest is halted. No thread sees this.
    Moving,
    Target(TargetBook),
}

impl TargetSide {
    /// Carries out the guest's halt: the target's book takes the place of the guest's, the packet of the state is
    /// offered, and the source's book is returned. Returns `None` if the guest's book is not there, and then nothing
    /// changes. If the halt is refused, the guest's book is there as before, and nothing is offered.
    pub(crate) fn halt(
        &mut self,
        link: &mut LinkBook,
        pivots: u32,
    ) -> Result<Option<SourceBook>, EventFault>
        requires some { 1 ≤ pivots }
        requires few { pivots ≤ 16 }
        ensures ok { IfOk result (λ made. Halts pivots self.old link.old.part made self.new link.new.part) }
        ensures err { OnErr result ((self.new ≡ self.old) × (link.new.part ≡ link.old.part)) }
    {
        let (side, made) = halted(mem::replace(self, TargetSide::Moving), link, pivots);
        drop(mem::replace(self, side));
        made
    }
}

/// Returns what is there after the halt, and what it made.
fn halted(
    side: TargetSide,
    link: &mut LinkBook,
    pivots: u32,
) -> (TargetSide, Result<Option<SourceBook>, EventFault>)
    requires some { 1 ≤ pivots }
    requires few { pivots ≤ 16 }
    ensures ok { IfOk result.1 (λ made. Halts pivots side link.old.part made result.0 link.new.part) }
    ensures err { OnErr result.1 ((result.0 ≡ side) × (link.new.part ≡ link.old.part)) }
{
    match side {
        TargetSide::Guest(guest) => match halt(guest, link, pivots) {
            Ok((source, target)) => (TargetSide::Target(target), Ok(Some(source))),
            Err((guest, fault)) => (TargetSide::Guest(guest), Err(fault)),
        },
        other => (other, Ok(None)),
    }
}
