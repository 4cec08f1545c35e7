//! The halt, which makes the source's and the target's books from the guest's.

ghost use Rattle.std.specs.Prelude.{◌≡◌, ◌<◌, ◌≤◌, length, IfOk, IfErr};
ghost use Rattle.migration_types.specs.Limits.{most_records};
ghost use Rattle.bubbling.specs.Bubbling.{most_pivots};
ghost use Rattle.active_push.specs.Books.{part_of as source_of};
ghost use Rattle.target_side.specs.Guests.{part_of as guest_of};
ghost use Rattle.target_side.specs.TargetPart.{halted_target};
ghost use Rattle.target_side.specs.Kept.{geometry_of, part_of as target_of};
ghost use Rattle.book_events.specs.Parts.{IsHalt};

use active_push::SourceBook;
use link_book::LinkBook;
use migration_events::EventFault;
use target_side::{GuestBook, TargetBook};

/// Carries out Halt, for which each virtual processor must be at its move. The guest's book splits into the source's,
/// which keeps at most this many pivots, 1 to 16, and the target's, and the packet of the state is offered. The error
/// is `EventFault::LogFull` exactly when the guest's log has no room for the record, which is checked before memory is
/// allocated. On an error, the guest's book comes back as it was, and nothing is offered.
pub fn halt(
    guest: GuestBook,
    link: &mut LinkBook,
    pivots: u32,
) -> Result<(SourceBook, TargetBook), (GuestBook, EventFault)>
    requires some { 1 ≤ pivots }
    requires few { pivots ≤ most_pivots }
    ensures ok { IfOk result (λ books. IsHalt pivots (guest_of guest) link.old.part link.new.part (source_of books.0) (target_of books.1)) }
    ensures geometry { IfOk result (λ books. geometry_of books.1 ≡ guest.frames.geometry) }
    ensures full { IfErr result (λ e. e.1 ≡ EventFault.LogFull → most_records < length (halted_target guest.log).log) }
    ensures memory { IfErr result (λ e. e.1 ≡ EventFault.Memory → length (halted_target guest.log).log ≤ most_records) }
    ensures err { IfErr result (λ e. (e.0 ≡ guest) × (link.new.part ≡ link.old.part)) }
{
    if let Err(fault) = guest.look_to_halt() {
        return Err((guest, fault));
    }
    if link.room().is_err() {
        return Err((guest, EventFault::Memory));
    }
    match guest.halt(pivots) {
        Ok((source, target, packet)) => {
            link.offer_down(packet, false);
            Ok((source, target))
        }
        Err((guest, fault)) => Err((guest, EventFault::from(fault))),
    }
}
