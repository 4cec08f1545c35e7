//! The events on the source's and the link's books.

ghost use Rattle.std.specs.Prelude.{◌≡◌, length, IsTrue, if◌then◌else◌};
ghost use Rattle.active_push.specs.Books.{part_of};
ghost use Rattle.link_book.specs.LinkPart.{with_back, with_front, with_pushed, pushed_line};
ghost use Rattle.migration_events.specs.declared.events.Event.{Event};
ghost use Rattle.book_events.specs.Parts.{pushing, sending, ComesTo, LooksFor};
ghost use Rattle.book_events.specs.inner.Offers.{Carries, IsOffer};

use crate::effect::Effect;
use active_push::SourceBook;
use link_book::LinkBook;
use migration_events::EventFault;
use page_stream::Packet;

/// Carries out Push: the source sends the page that bubbling chooses, over the lane, if there is one, or otherwise down
/// the link, if fewer packets than the window are under way there. The error is `EventFault::LogFull` exactly when the
/// source's log has no room for the record, which is checked before memory is allocated. On an error, nothing changes.
#[tactic(auto, using(crate::proofs::Rooms::push_fits))]
pub fn push(
    source: &mut SourceBook,
    link: &mut LinkBook,
    window: u32,
    has_lane: bool,
) -> Result<Effect, EventFault>
    ensures comes { ComesTo Event.Push result (pushing window has_lane) (part_of source.old) (part_of source.new) link.old.part link.new.part }
    ensures machine { source.new.frames.geometry ≡ source.old.frames.geometry }
{
    if under_way(link, has_lane) >= window as usize {
        return Ok(Effect::Nothing);
    }
    source.look_to_push()?;
    link.room()?;
    let Some(packet) = source.push()? else {
        return Ok(Effect::Nothing);
    };
    Ok(offer_pushed(link, packet, has_lane))
}

/// Returns whether each log has room for what a push appends. Allocates no memory.
#[tactic(auto, using(crate::proofs::Rooms::push_fits, crate::proofs::Rooms::no_push_fits))]
pub fn look_to_push(
    source: &SourceBook,
    link: &LinkBook,
    window: u32,
    has_lane: bool,
) -> Result<(), EventFault>
    ensures { LooksFor Event.Push result (pushing window has_lane) (part_of source.now) link.now.part }
{
    if under_way(link, has_lane) >= window as usize {
        return Ok(());
    }
    source.look_to_push()
}

/// Returns how many packets are under way on the channel of pushed pages: the lane, if there is one, or otherwise the
/// link down.
fn under_way(link: &LinkBook, has_lane: bool) -> usize
    ensures { result ≡ length (pushed_line has_lane link.now.part) }
{
    if has_lane {
        link.lane_len()
    } else {
        link.down_len()
    }
}

/// Offers a packet after the others of the lane, or after those that are under way down.
#[tactic(auto, using(crate::proofs::Offers::pushed_is_offer))]
fn offer_pushed(link: &mut LinkBook, packet: Packet, over_lane: bool) -> Effect
    requires { IsTrue link.old.has_room }
    ensures link { link.new.part ≡ with_pushed over_lane packet link.old.part }
    ensures told { IsOffer result link.old.part link.new.part }
{
    let effect = carried(&packet);
    if over_lane {
        link.offer_lane(packet);
    } else {
        link.offer_down(packet, false);
    }
    effect
}

/// Carries out Serve: the source takes the oldest packet that has arrived, if there is one, and sends the page that it
/// wants ahead of the others. The error is `EventFault::LogFull` exactly when the source's log has no room for the
/// records, which is checked before memory is allocated. On an error, nothing changes.
pub fn serve(source: &mut SourceBook, link: &mut LinkBook) -> Result<Effect, EventFault>
    ensures comes { ComesTo Event.Serve result sending (part_of source.old) (part_of source.new) link.old.part link.new.part }
    ensures machine { source.new.frames.geometry ≡ source.old.frames.geometry }
{
    look_to_serve(source, link)?;
    link.room()?;
    let Some((number, packet)) = link.peek_up() else {
        return Ok(Effect::Nothing);
    };
    let offered = source.serve(number, packet)?;
    link.pop_up();
    match offered {
        Some(packet) => Ok(offer(link, packet, true)),
        None => Ok(Effect::Made),
    }
}

/// Returns whether each log has room for what serving the oldest packet that has arrived appends. Allocates no memory.
#[tactic(auto, using(crate::proofs::Rooms::serve_fits))]
pub fn look_to_serve(source: &SourceBook, link: &LinkBook) -> Result<(), EventFault>
    ensures { LooksFor Event.Serve result sending (part_of source.now) link.now.part }
{
    match link.peek_up() {
        Some((number, packet)) => source.look_to_serve(number, packet),
        None => Ok(()),
    }
}

/// Carries out SourceTick: the source sends the state again, as long as nobody has asked it for anything. The error is
/// `EventFault::LogFull` exactly when the source's log has no room for the record, which is checked before memory is
/// allocated. On an error, nothing changes.
pub fn source_tick(source: &mut SourceBook, link: &mut LinkBook) -> Result<Effect, EventFault>
    ensures comes { ComesTo Event.SourceTick result sending (part_of source.old) (part_of source.new) link.old.part link.new.part }
    ensures machine { source.new.frames.geometry ≡ source.old.frames.geometry }
{
    look_to_source_tick(source, link)?;
    link.room()?;
    let Some(packet) = source.tick()? else {
        return Ok(Effect::Nothing);
    };
    Ok(offer(link, packet, false))
}

/// Returns whether each log has room for what the source's tick appends. Allocates no memory.
#[tactic(auto, using(crate::proofs::Rooms::source_tick_fits))]
pub fn look_to_source_tick(source: &SourceBook, link: &LinkBook) -> Result<(), EventFault>
    ensures { LooksFor Event.SourceTick result sending (part_of source.now) link.now.part }
{
    let _link = link;
    source.look_to_tick()
}

/// Offers a packet before the others that are under way down, or after them.
#[tactic(auto, using(crate::proofs::Offers::down_is_offer))]
fn offer(link: &mut LinkBook, packet: Packet, front: bool) -> Effect
    requires { IsTrue link.old.has_room }
    ensures link { link.new.part ≡ if front then with_front packet link.old.part else with_back packet link.old.part }
    ensures told { IsOffer result link.old.part link.new.part }
{
    let effect = carried(&packet);
    link.offer_down(packet, front);
    effect
}

/// Returns the result of an event that offers a packet.
fn carried(packet: &Packet) -> Effect
    ensures { Carries result packet.now }
{
    match packet {
        Packet::Page { page, .. } => Effect::Offered(*page),
        Packet::State { .. } | Packet::Want { .. } | Packet::All { .. } => Effect::Made,
    }
}
