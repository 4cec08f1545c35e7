//! The pager's events, on the link's and the pager's books, or on the pager's and the target's.

ghost use Rattle.std.specs.Prelude.{◌≡◌, ◌⊎◌, ◌<◌, true, false, [], length, Some, is_some, slice_get};
ghost use Rattle.link_book.specs.declared.Arrival.{Arrival};
ghost use Rattle.target_side.specs.Kept.{geometry_of, part_of as target_of};
ghost use Rattle.target_side.specs.PagerPart.{faults_by, next_fault, delivers_by, deliver};
ghost use Rattle.target_side.specs.PagerLists.{part_of, IsPacketOf};
ghost use Rattle.migration_events.specs.declared.events.Event.{Event};
ghost use Rattle.book_events.specs.Parts.{receiving, placing, ComesTo, LooksFor};
ghost use Rattle.book_events.specs.inner.Work.{HasFault, HasDelivery};

use crate::effect::Effect;
use link_book::LinkBook;
use migration_events::EventFault;
use target_side::{PagerBook, TargetBook};

/// Carries out PagerPop: the pager takes the oldest packet that has arrived, if there is one; it must be one that the
/// source of such a machine sends. The error is `EventFault::LogFull` exactly when the pager's log has no room for the
/// records. On an error, nothing changes.
#[tactic(auto, using(crate::proofs::Rooms::pop_fits))]
pub fn pager_pop(link: &mut LinkBook, pager: &mut PagerBook) -> Result<Effect, EventFault>
    requires { (x : Arrival) → slice_get link.old.part.down_arrivals 0 ≡ Some x → IsPacketOf pager.old.geometry x.packet }
    ensures comes { ComesTo Event.PagerPop result receiving link.old.part link.new.part (part_of pager.old) (part_of pager.new) }
    ensures machine { pager.new.geometry ≡ pager.old.geometry }
{
    let Some((number, packet)) = link.peek_down() else {
        return Ok(Effect::Nothing);
    };
    pager.pop(number, packet)?;
    link.pop_down();
    Ok(Effect::Made)
}

/// Returns whether each log has room for what taking the oldest packet from the link appends. Allocates no memory.
#[tactic(auto, using(crate::proofs::Rooms::pop_fits))]
pub fn look_to_pop(link: &LinkBook, pager: &PagerBook) -> Result<(), EventFault>
    ensures { LooksFor Event.PagerPop result receiving link.now.part (part_of pager.now) }
{
    match link.peek_down() {
        Some((number, packet)) => pager.look_to_pop(number, packet),
        None => Ok(()),
    }
}

/// Carries out PagerPull: the pager takes the oldest packet that has arrived over the lane, if there is one; it must be
/// one that the source of such a machine sends. The error is `EventFault::LogFull` exactly when the pager's log has no
/// room for the records. On an error, nothing changes.
#[tactic(auto, using(crate::proofs::Rooms::pull_fits))]
pub fn pager_pull(link: &mut LinkBook, pager: &mut PagerBook) -> Result<Effect, EventFault>
    requires { (x : Arrival) → slice_get link.old.part.lane_arrivals 0 ≡ Some x → IsPacketOf pager.old.geometry x.packet }
    ensures comes { ComesTo Event.PagerPull result receiving link.old.part link.new.part (part_of pager.old) (part_of pager.new) }
    ensures machine { pager.new.geometry ≡ pager.old.geometry }
{
    let Some((number, packet)) = link.peek_lane() else {
        return Ok(Effect::Nothing);
    };
    pager.pull(number, packet)?;
    link.pop_lane();
    Ok(Effect::Made)
}

/// Returns whether each log has room for what taking the oldest packet from the lane appends. Allocates no memory.
#[tactic(auto, using(crate::proofs::Rooms::pull_fits))]
pub fn look_to_pull(link: &LinkBook, pager: &PagerBook) -> Result<(), EventFault>
    ensures { LooksFor Event.PagerPull result receiving link.now.part (part_of pager.now) }
{
    match link.peek_lane() {
        Some((number, packet)) => pager.look_to_pull(number, packet),
        None => Ok(()),
    }
}

/// Carries out PagerFlush: the pager offers its oldest packet that is not offered yet, if there is one. Fails only if
/// memory runs out, and then nothing changes.
#[tactic(auto, using(crate::proofs::Rooms::flush_fits, crate::proofs::Done::up_done))]
pub fn pager_flush(link: &mut LinkBook, pager: &mut PagerBook) -> Result<Effect, EventFault>
    ensures comes { ComesTo Event.PagerFlush result receiving link.old.part link.new.part (part_of pager.old) (part_of pager.new) }
    ensures machine { pager.new.geometry ≡ pager.old.geometry }
{
    link.room()?;
    let Some(packet) = pager.flush() else {
        return Ok(Effect::Nothing);
    };
    link.offer_up(packet);
    Ok(Effect::Made)
}

/// Carries out PagerTick: once the state has come, the pager asks again for a page that is neither placed nor
/// cancelled, or says that there is none. The error is `EventFault::LogFull` exactly when the pager's log has no room
/// for the record, which is checked before memory is allocated. On an error, nothing changes.
#[tactic(auto, using(crate::proofs::Done::up_done))]
pub fn pager_tick(link: &mut LinkBook, pager: &mut PagerBook) -> Result<Effect, EventFault>
    ensures comes { ComesTo Event.PagerTick result receiving link.old.part link.new.part (part_of pager.old) (part_of pager.new) }
    ensures machine { pager.new.geometry ≡ pager.old.geometry }
{
    look_to_pager_tick(link, pager)?;
    link.room()?;
    let Some(packet) = pager.tick()? else {
        return Ok(Effect::Nothing);
    };
    link.offer_up(packet);
    Ok(Effect::Made)
}

/// Returns whether each log has room for what the pager's tick appends. Allocates no memory.
#[tactic(auto, using(crate::proofs::Rooms::pager_tick_fits))]
pub fn look_to_pager_tick(link: &LinkBook, pager: &PagerBook) -> Result<(), EventFault>
    ensures { LooksFor Event.PagerTick result receiving link.now.part (part_of pager.now) }
{
    let _link = link;
    pager.look_to_tick()
}

/// Carries out PagerFault: the pager cancels the pages that the guest released at the target before they came, and
/// learns of the oldest miss that it has not taken, if there is one and the state has come. If there is neither, there
/// is nothing to do. The books must be of one machine. The error is `EventFault::LogFull` exactly when the pager's log
/// has no room for the records. On an error, nothing changes.
#[tactic(auto, using(crate::proofs::Rooms::fault_fits, crate::proofs::Rooms::fault_full, crate::proofs::Rooms::fault_nothing))]
pub fn pager_fault(pager: &mut PagerBook, target: &mut TargetBook) -> Result<Effect, EventFault>
    requires machine { geometry_of target.old ≡ pager.old.geometry }
    ensures comes { ComesTo Event.PagerFault result placing (part_of pager.old) (part_of pager.new) (target_of target.old) (target_of target.new) }
    ensures machine { (pager.new.geometry ≡ pager.old.geometry) × (geometry_of target.new ≡ geometry_of target.old) }
{
    if !has_fault(pager, target) {
        return Ok(Effect::Nothing);
    }
    pager.next_fault(target)?;
    Ok(Effect::Made)
}

/// Returns whether each log has room for what cancelling pages and learning of a miss append. The books must be of one
/// machine. Allocates no memory.
#[tactic(auto, using(crate::proofs::Rooms::fault_fits, crate::proofs::Rooms::fault_full))]
pub fn look_to_fault(pager: &PagerBook, target: &TargetBook) -> Result<(), EventFault>
    requires { geometry_of target.now ≡ pager.now.geometry }
    ensures { LooksFor Event.PagerFault result placing (part_of pager.now) (target_of target.now) }
{
    pager.look_to_fault(target)
}

/// Carries out PagerDeliver: the pager cancels the pages that the guest released at the target before they came. Once
/// the state has come, it lets the guest resume. After that, it takes the oldest page that has come, if there is one,
/// and places it, or drops it if it is resident already. If none of this applies, there is nothing to do. The books
/// must be of one machine. The error is `EventFault::LogFull` exactly when a log has no room for the record. On an
/// error, nothing changes.
#[tactic(auto, using(crate::proofs::Rooms::deliver_fits, crate::proofs::Rooms::deliver_nothing))]
pub fn pager_deliver(pager: &mut PagerBook, target: &mut TargetBook) -> Result<Effect, EventFault>
    requires machine { geometry_of target.old ≡ pager.old.geometry }
    ensures comes { ComesTo Event.PagerDeliver result placing (part_of pager.old) (part_of pager.new) (target_of target.old) (target_of target.new) }
    ensures machine { (pager.new.geometry ≡ pager.old.geometry) × (geometry_of target.new ≡ geometry_of target.old) }
{
    if !has_delivery(pager, target) {
        return Ok(Effect::Nothing);
    }
    pager.deliver(target)?;
    Ok(Effect::Made)
}

/// Returns whether each log has room for what a delivery appends. Allocates no memory.
#[tactic(auto, using(crate::proofs::Rooms::deliver_fits))]
pub fn look_to_deliver(pager: &PagerBook, target: &TargetBook) -> Result<(), EventFault>
    ensures { LooksFor Event.PagerDeliver result placing (part_of pager.now) (target_of target.now) }
{
    pager.look_to_deliver(target)
}

/// Returns whether there is a page to cancel, or a miss that the pager may take.
#[tactic(auto, using(crate::proofs::Branches::fault_none))]
fn has_fault(pager: &PagerBook, target: &TargetBook) -> bool
    ensures some { result ≡ true → HasFault (part_of pager.now) (target_of target.now) }
    ensures none { result ≡ false → next_fault (part_of pager.now) (target_of target.now) ≡ record { pager = part_of pager.now; target = target_of target.now; woken = [] } }
{
    !target.unsettled().is_empty() || learns(pager, target)
}

/// Returns whether there is a miss that the pager may take.
fn learns(pager: &PagerBook, target: &TargetBook) -> bool
    ensures some { result ≡ true → (is_some pager.now.released ≡ true) × (0 < length (target_of target.now).misses) }
    ensures none { result ≡ false → faults_by pager.now.released (target_of target.now).misses (part_of pager.now) (target_of target.now) ≡ record { pager = part_of pager.now; target = target_of target.now; woken = [] } }
{
    pager.is_ready() && target.next_miss().is_some()
}

/// Returns whether there is a page to cancel, or the pager has the state or a page to bring to the target.
#[tactic(auto, using(crate::proofs::Branches::delivery_none))]
fn has_delivery(pager: &PagerBook, target: &TargetBook) -> bool
    ensures some { result ≡ true → HasDelivery (part_of pager.now) (target_of target.now) }
    ensures none { result ≡ false → deliver (part_of pager.now) (target_of target.now) ≡ record { pager = part_of pager.now; target = target_of target.now; woken = [] } }
{
    !target.unsettled().is_empty() || brings(pager, target)
}

/// Returns whether the pager has the state or a page to bring to the target.
fn brings(pager: &PagerBook, target: &TargetBook) -> bool
    ensures some { result ≡ true → (is_some pager.now.released ≡ true) × (((target_of target.now).is_resumed ≡ false) ⊎ (0 < length pager.now.inbox)) }
    ensures none { result ≡ false → delivers_by pager.now.released (part_of pager.now) (target_of target.now) ≡ record { pager = part_of pager.now; target = target_of target.now; woken = [] } }
{
    pager.is_ready() && (!target.is_resumed() || pager.next_page().is_some())
}
