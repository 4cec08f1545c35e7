//! The source's thread.

ghost use Rattle.std.specs.Prelude.{◌≡◌, ◌≢◌, true, false, is_some};
ghost use Rattle.active_push.specs.Books.{part_of};
ghost use Rattle.link_book.specs.Links.{is_quiet};
ghost use Rattle.book_events.specs.Parts.{pushing, sending};
ghost use Rattle.host_threads.specs.Tries.{source_tries, source_makes};
ghost use Rattle.host_threads.specs.Rounds.{MakesAll};
ghost use Rattle.host_threads.specs.Acts.{Acts};
ghost use Rattle.host_threads.specs.Turns.{IsTurn, IsUntried};
ghost use Rattle.host_threads.specs.Sides.{Halts};

use crate::bell::ThreadRole;
use crate::gate::{Gate, most_at_once};
use crate::shared::{SharedBooks, told};
use crate::side::TargetSide;
use crate::stop_reason::{StopReason, reason_of};
use crate::turns::{Makes, TurnReport, make_often};
use active_push::SourceBook;
use book_events::sending::{push, serve, source_tick};
use guest_script::Script;
use link_book::LinkBook;
use migration_events::Event;
use migration_types::PageNo;
use std::mem::{self, drop};
use std::sync::Wait;

/// Returns whether a script has a lane.
fn has_lane(script: &Script) -> bool
    ensures { result ≡ is_some script.now.lane }
{
    script.lane().is_some()
}

/// Returns whether the source carries out this event: it pushes and serves, and ticks if nothing is under way and it is
/// not done.
#[tactic(auto, using(crate::proofs::Tried::source_no_other))]
fn makes(book: &SourceBook, link: &LinkBook, event: Event) -> bool
    ensures { result ≡ source_makes event book.now.is_done (is_quiet link.now.part) }
{
    match event {
        Event::Push | Event::Serve => true,
        Event::SourceTick => !book.is_done() && link.quiet(),
        _ => false,
    }
}

/// Carries out an event on the source's and the link's books, if it is one that the source carries out: Push, Serve or
/// SourceTick. Pages are pushed within the script's window, and over its lane, if it has one.
#[tactic(auto, using(crate::proofs::Tried::source_no_other))]
fn act(book: &mut SourceBook, link: &mut LinkBook, event: Event, script: &Script) -> TurnReport
    ensures turn { source_makes event book.old.is_done (is_quiet link.old.part) ≡ true → IsTurn result event (pushing script.now.window (is_some script.now.lane) (part_of book.old) link.old.part) (pushing script.now.window (is_some script.now.lane) (part_of book.new) link.new.part) }
    ensures untried { source_makes event book.old.is_done (is_quiet link.old.part) ≡ false → IsUntried result (sending (part_of book.old) link.old.part) (sending (part_of book.new) link.new.part) }
{
    if !makes(book, link, event) {
        return TurnReport::Idle;
    }
    match event {
        Event::Push => told(push(book, link, script.window(), has_lane(script))),
        Event::Serve => told(serve(book, link)),
        Event::SourceTick => told(source_tick(book, link)),
        _ => TurnReport::Idle,
    }
}

/// Carries out the guest's halt: its book splits into the source's and the target's, and the state is offered. On an
/// error, the guest's book stays.
fn halt_guest(
    source: &mut Option<SourceBook>,
    link: &mut LinkBook,
    side: &mut TargetSide,
    script: &Script,
) -> TurnReport
    ensures did { result ≡ TurnReport.Did → Halts script.now.pivots side.old link.old.part source.new side.new link.new.part }
    ensures stays { result ≢ TurnReport.Did → (source.new ≡ source.old) × (side.new ≡ side.old) × (link.new.part ≡ link.old.part) }
{
    script.keeps_limits();
    match side.halt(link, script.pivots()) {
        Ok(Some(book)) => {
            drop(mem::replace(source, Some(book)));
            TurnReport::Did
        }
        Ok(None) => TurnReport::Stops(StopReason::Astray),
        Err(fault) => TurnReport::Stops(reason_of(fault)),
    }
}

/// Carries out Halt.
fn halt<R: Wait>(rt: &R, shared: &SharedBooks, script: &Script) -> TurnReport {
    let mut source = shared.source.lock(rt);
    let mut link = shared.link.lock(rt);
    let mut side = shared.target.lock(rt);
    let turn = halt_guest(&mut source, &mut link, &mut side, script);
    shared.ring_over(&turn, &link);
    turn
}

/// The script, which says how pages are pushed.
#[derive(Drop)]
struct Acting<'a> {
    script: &'a Script,
}

impl<'a> Makes<SourceBook, LinkBook> for Acting<'a> {
    ghost makes = { λ self event turn old new. Acts self.script.now event turn old new };

    fn make(&self, book: &mut SourceBook, link: &mut LinkBook, event: Event) -> TurnReport {
        act(book, link, event, self.script)
    }
}

/// Returns the events that the source tries after the halt: Serve, or else Push, or else SourceTick.
fn source_tries() -> [Event; 3]
    ensures { result ≡ source_tries }
{
    [Event::Serve, Event::Push, Event::SourceTick]
}

/// Carries out the first of these events that finds something to do, at most this many times.
fn act_all(
    book: &mut SourceBook,
    link: &mut LinkBook,
    script: &Script,
    events: &[Event],
    most: usize,
) -> TurnReport
    ensures { MakesAll (Acts script.now) events.now most result (book.old, link.old) (book.new, link.new) }
{
    make_often(&Acting { script }, book, link, events, most)
}

/// Carries out what there is to do after the halt, at most this many times.
fn turn<R: Wait>(rt: &R, shared: &SharedBooks, script: &Script, most: usize) -> TurnReport {
    let mut source = shared.source.lock(rt);
    let mut link = shared.link.lock(rt);
    let Some(book) = &mut *source else {
        return TurnReport::Idle;
    };
    let turn = act_all(book, &mut link, script, &source_tries(), most);
    if book.is_done() {
        shared.bell.finish();
    }
    shared.ring_over(&turn, &link);
    turn
}

/// Returns the page that was offered, if one was.
fn page_of(turn: &TurnReport) -> Option<PageNo> {
    match turn {
        TurnReport::Offered(page) => Some(*page),
        _ => None,
    }
}

/// Runs the source: the halt, once each virtual processor is at its move, and then what there is to serve and to push,
/// until the run is over.
pub fn run_source<R: Wait, G: Gate>(rt: &R, shared: &SharedBooks, gate: &G, script: &Script) {
    let most = most_at_once(gate);
    let mut is_halted = false;
    for _ in rt.forever() {
        if shared.bell.is_over() {
            break;
        }
        let turn = if !shared.bell.has_each_arrived() {
            TurnReport::Idle
        } else if is_halted {
            turn(rt, shared, script, most)
        } else {
            is_halted = true;
            halt(rt, shared, script)
        };
        let offered = page_of(&turn);
        let Some(has_turned) = shared.tell(rt, turn) else {
            break;
        };
        if let Some(page) = offered {
            gate.offered(page);
        }
        if !has_turned {
            shared.bell.wait(rt, ThreadRole::Source);
        }
    }
}
