//! The pager's thread.

ghost use Rattle.std.specs.Prelude.{◌≡◌, true, false, Some, is_some};
ghost use Rattle.std.specs.Option.{option_map};
ghost use Rattle.link_book.specs.Links.{arrival, is_quiet};
ghost use Rattle.link_book.specs.declared.Arrival.{Arrival as Arrived};
ghost use Rattle.target_side.specs.Kept.{part_of as target_of};
ghost use Rattle.target_side.specs.PagerLists.{part_of, IsPacketOf};
ghost use Rattle.book_events.specs.Parts.{receiving, placing};
ghost use Rattle.host_threads.specs.Tries.{exchange_tries, attend_tries, exchange_makes, attend_makes};
ghost use Rattle.host_threads.specs.Rounds.{MakesAll};
ghost use Rattle.host_threads.specs.Acts.{Attends, Exchanges};
ghost use Rattle.host_threads.specs.Turns.{IsTurn, IsUntried};

use crate::bell::{Bell, ThreadRole};
use crate::gate::{Gate, most_at_once};
use crate::shared::{SharedBooks, told, told_to_all};
use crate::side::TargetSide;
use crate::stop_reason::StopReason;
use crate::turns::{Makes, TurnReport, make_often};
use book_events::paging::{
    pager_deliver, pager_fault, pager_flush, pager_pop, pager_pull, pager_tick,
};
use link_book::LinkBook;
use migration_events::Event;
use migration_types::{Geometry, PageNo, PagerRec};
use page_stream::{Packet, fits};
use std::sync::Wait;
use target_side::{PagerBook, TargetBook};

/// Returns whether the packet is of the machine.
fn is_packet_of(geometry: Geometry, packet: &Packet) -> bool
    ensures { result ≡ true → IsPacketOf geometry packet.now }
{
    fits(geometry, packet)
}

/// Returns whether the oldest packet, if there is one, is of the machine.
fn is_first_of(geometry: Geometry, oldest: Option<(u32, &Packet)>) -> bool
    ensures { result ≡ true → (x : Arrived) → option_map (λ a. arrival a.0 a.1.now) oldest.entry ≡ Some x → IsPacketOf geometry x.packet }
{
    match oldest {
        Some((_, packet)) => is_packet_of(geometry, packet),
        None => true,
    }
}

/// Returns whether the pager carries out this event on the link's book and its own: it takes packets and offers them,
/// and ticks if nothing is under way.
#[tactic(auto, using(crate::proofs::Tried::exchange_no_other))]
fn exchanges(link: &LinkBook, event: Event) -> bool
    ensures { result ≡ exchange_makes event (is_quiet link.now.part) }
{
    match event {
        Event::PagerPop | Event::PagerPull | Event::PagerFlush => true,
        Event::PagerTick => link.quiet(),
        _ => false,
    }
}

/// Carries out an event on the link's and the pager's books, if it is one that the pager carries out: PagerPop,
/// PagerPull, PagerFlush or PagerTick. Does not take a packet of another machine.
#[tactic(auto, using(crate::proofs::Tried::exchange_no_other))]
fn exchange(link: &mut LinkBook, pager: &mut PagerBook, event: Event) -> TurnReport
    ensures turn { exchange_makes event (is_quiet link.old.part) ≡ true → IsTurn result event (receiving link.old.part (part_of pager.old)) (receiving link.new.part (part_of pager.new)) }
    ensures untried { exchange_makes event (is_quiet link.old.part) ≡ false → IsUntried result (receiving link.old.part (part_of pager.old)) (receiving link.new.part (part_of pager.new)) }
{
    if !exchanges(link, event) {
        return TurnReport::Idle;
    }
    match event {
        Event::PagerPop => pop_next(link, pager),
        Event::PagerPull => pull_next(link, pager),
        Event::PagerFlush => told(pager_flush(link, pager)),
        Event::PagerTick => told(pager_tick(link, pager)),
        _ => TurnReport::Idle,
    }
}

/// Takes the oldest packet that has come down, if there is one.
fn pop_next(link: &mut LinkBook, pager: &mut PagerBook) -> TurnReport
    ensures { IsTurn result Event.PagerPop (receiving link.old.part (part_of pager.old)) (receiving link.new.part (part_of pager.new)) }
{
    if !is_first_of(pager.geometry(), link.peek_down()) {
        return TurnReport::Stops(StopReason::Astray);
    }
    told(pager_pop(link, pager))
}

/// Takes the oldest packet that has come over the lane, if there is one.
fn pull_next(link: &mut LinkBook, pager: &mut PagerBook) -> TurnReport
    ensures { IsTurn result Event.PagerPull (receiving link.old.part (part_of pager.old)) (receiving link.new.part (part_of pager.new)) }
{
    if !is_first_of(pager.geometry(), link.peek_lane()) {
        return TurnReport::Stops(StopReason::Astray);
    }
    told(pager_pull(link, pager))
}

/// Returns whether the pager carries out this event on its book and the target's: it delivers, and learns of misses if
/// the state has come.
#[tactic(auto, using(crate::proofs::Tried::attend_no_other))]
fn attends(pager: &PagerBook, event: Event) -> bool
    ensures { result ≡ attend_makes event (is_some pager.now.released) }
{
    match event {
        Event::PagerDeliver => true,
        Event::PagerFault => pager.is_ready(),
        _ => false,
    }
}

/// Carries out an event on the pager's and the target's books, if it is one that the pager carries out: PagerFault or
/// PagerDeliver. Both first cancel the pages that the guest released at the target before they came.
#[tactic(auto, using(crate::proofs::Tried::attend_no_other))]
fn attend(pager: &mut PagerBook, target: &mut TargetBook, event: Event) -> TurnReport
    ensures turn { attend_makes event (is_some pager.old.released) ≡ true → IsTurn result event (placing (part_of pager.old) (target_of target.old)) (placing (part_of pager.new) (target_of target.new)) }
    ensures untried { attend_makes event (is_some pager.old.released) ≡ false → IsUntried result (placing (part_of pager.old) (target_of target.old)) (placing (part_of pager.new) (target_of target.new)) }
{
    if !attends(pager, event) {
        return TurnReport::Idle;
    }
    if target.geometry() != pager.geometry() {
        return TurnReport::Stops(StopReason::Astray);
    }
    match event {
        Event::PagerFault => told_to_all(pager_fault(pager, target)),
        Event::PagerDeliver => told_to_all(pager_deliver(pager, target)),
        _ => TurnReport::Idle,
    }
}

/// Returns the page that the last record made resident.
fn placed_last(pager: &PagerBook) -> Option<PageNo> {
    match pager.pager_log().last() {
        Some(PagerRec::Place { page, .. }) => Some(*page),
        Some(PagerRec::Zero { page }) => Some(*page),
        _ => None,
    }
}

/// Carries out an event as `attend` does, and tells the bell which virtual processors it lets go on. The caller rings
/// them.
fn attend_told(
    bell: &Bell,
    pager: &mut PagerBook,
    target: &mut TargetBook,
    event: Event,
) -> TurnReport
    ensures { Attends event result (pager.old, target.old) (pager.new, target.new) }
{
    let was_resumed = target.is_resumed();
    let turn = attend(pager, target, event);
    if let TurnReport::Served = turn {
        if !was_resumed && target.is_resumed() {
            bell.resume();
        }
        if let Some(page) = placed_last(pager) {
            bell.came(page);
        }
    }
    turn
}

/// The bell, which is told which virtual processors go on.
#[derive(Drop)]
struct Attending<'a> {
    bell: &'a Bell,
}

impl<'a> Makes<PagerBook, TargetBook> for Attending<'a> {
    ghost makes = { λ self event turn old new. Attends event turn old new };

    fn make(&self, pager: &mut PagerBook, target: &mut TargetBook, event: Event) -> TurnReport {
        attend_told(self.bell, pager, target, event)
    }
}

/// Carries out the first of these events that finds something to do, at most this many times.
fn attend_all(
    bell: &Bell,
    pager: &mut PagerBook,
    target: &mut TargetBook,
    events: &[Event],
    most: usize,
) -> TurnReport
    ensures { MakesAll Attends events.now most result (pager.old, target.old) (pager.new, target.new) }
{
    make_often(&Attending { bell }, pager, target, events, most)
}

/// Carries out events as `attend_all` does, on the locked books, if there is a target's book.
fn attend_often<R: Wait>(
    rt: &R,
    shared: &SharedBooks,
    events: &[Event],
    most: usize,
) -> TurnReport {
    let mut pager = shared.pager.lock(rt);
    let mut side = shared.target.lock(rt);
    match &mut *side {
        TargetSide::Guest(_) => TurnReport::Idle,
        TargetSide::Moving => TurnReport::Stops(StopReason::Astray),
        TargetSide::Target(target) => attend_all(&shared.bell, &mut pager, target, events, most),
    }
}

/// Returns whether there is no source's book yet, or the source is done.
fn asks_nothing<R: Wait>(rt: &R, shared: &SharedBooks) -> bool {
    match &*shared.source.lock(rt) {
        Some(book) => book.is_done(),
        None => true,
    }
}

/// Carries out PagerTick, unless the source is done.
fn tick<R: Wait>(rt: &R, shared: &SharedBooks) -> TurnReport {
    if asks_nothing(rt, shared) {
        return TurnReport::Idle;
    }
    exchange_often(rt, shared, &[Event::PagerTick], 1)
}

/// Returns the oldest page that has come, if there is one.
fn next_page<R: Wait>(rt: &R, shared: &SharedBooks) -> Option<PageNo> {
    shared.pager.lock(rt).next_page()
}

/// Carries out PagerDeliver. The first time, the guest resumes. After that, the gate is told the page first.
fn place<R: Wait, G: Gate>(
    rt: &R,
    shared: &SharedBooks,
    gate: &G,
    is_resumed: &mut bool,
) -> TurnReport {
    if !*is_resumed {
        let turn = attend_often(rt, shared, &[Event::PagerDeliver], 1);
        *is_resumed = matches!(turn, TurnReport::Served);
        return turn;
    }
    let Some(page) = next_page(rt, shared) else {
        return TurnReport::Idle;
    };
    gate.placing(page);
    attend_often(rt, shared, &[Event::PagerDeliver], 1)
}

/// Returns the events that the pager tries on its book and the target's: cancelling released pages and learning of a
/// miss, or else placing a page.
fn attend_tries() -> [Event; 2]
    ensures { result ≡ attend_tries }
{
    [Event::PagerFault, Event::PagerDeliver]
}

/// Carries out what there is to do on the pager's and the target's books.
fn serve<R: Wait, G: Gate>(
    rt: &R,
    shared: &SharedBooks,
    gate: &G,
    is_resumed: &mut bool,
) -> TurnReport {
    if gate.is_open() {
        return attend_often(rt, shared, &attend_tries(), most_at_once(gate));
    }
    match attend_often(rt, shared, &[Event::PagerFault], 1) {
        TurnReport::Idle => place(rt, shared, gate, is_resumed),
        other => other,
    }
}

/// The events of the pager on the link's book and its own.
#[derive(Clone, Copy, Drop)]
struct Exchanging;

impl Makes<LinkBook, PagerBook> for Exchanging {
    ghost makes = { λ self event turn old new. Exchanges event turn old new };

    fn make(&self, link: &mut LinkBook, pager: &mut PagerBook, event: Event) -> TurnReport {
        exchange(link, pager, event)
    }
}

/// Carries out the first of these events that finds something to do, at most this many times.
fn exchange_all(
    link: &mut LinkBook,
    pager: &mut PagerBook,
    events: &[Event],
    most: usize,
) -> TurnReport
    ensures { MakesAll Exchanges events.now most result (link.old, pager.old) (link.new, pager.new) }
{
    make_often(&Exchanging, link, pager, events, most)
}

/// Carries out events as `exchange_all` does, on the locked books.
fn exchange_often<R: Wait>(
    rt: &R,
    shared: &SharedBooks,
    events: &[Event],
    most: usize,
) -> TurnReport {
    let mut link = shared.link.lock(rt);
    let mut pager = shared.pager.lock(rt);
    let turn = exchange_all(&mut link, &mut pager, events, most);
    shared.ring_over(&turn, &link);
    turn
}

/// Returns the events that the pager tries on the link's book and its own: taking a packet from the link, or else
/// offering one, or else taking a packet from the lane, whose pages nobody asked for.
fn exchange_tries() -> [Event; 3]
    ensures { result ≡ exchange_tries }
{
    [Event::PagerPop, Event::PagerFlush, Event::PagerPull]
}

/// Carries out what there is to do on the link's and the pager's books, at most this many times.
fn take_or_offer<R: Wait>(rt: &R, shared: &SharedBooks, most: usize) -> TurnReport {
    exchange_often(rt, shared, &exchange_tries(), most)
}

/// Runs the pager, with what comes from the link and the lane and what the guest misses or releases, until the run is
/// over.
pub fn run_pager<R: Wait, G: Gate>(rt: &R, shared: &SharedBooks, gate: &G) {
    let most = most_at_once(gate);
    let mut is_resumed = false;
    for _ in rt.forever() {
        if shared.bell.is_over() {
            break;
        }
        let exchanged = take_or_offer(rt, shared, most);
        let Some(has_exchanged) = shared.tell(rt, exchanged) else {
            break;
        };
        let served = serve(rt, shared, gate, &mut is_resumed);
        let Some(has_served) = shared.tell(rt, served) else {
            break;
        };
        if has_exchanged || has_served {
            continue;
        }
        let ticked = tick(rt, shared);
        let Some(has_ticked) = shared.tell(rt, ticked) else {
            break;
        };
        if !has_ticked {
            shared.bell.wait(rt, ThreadRole::Pager);
        }
    }
}
