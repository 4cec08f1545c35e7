//! The books, each under its lock, and the reports on events.

ghost use Rattle.std.specs.Prelude.{◌≡◌, IfOk, OnOk, OnErr};
ghost use Rattle.migration_events.specs.declared.events.Event.{Event};
ghost use Rattle.migration_model.specs.Books.{BooksAfter};
ghost use Rattle.book_events.specs.Parts.{IsMade, IsSame, Tells};
ghost use Rattle.host_threads.specs.Turns.{IsTurn, turn_by, turn_of, to_all};

use crate::bell::{Bell, ThreadRole};
use crate::side::TargetSide;
use crate::stop_reason::reason_of;
use crate::turns::TurnReport;
use active_push::SourceBook;
use book_events::{Effect, EventFault};
use link_book::LinkBook;
use migration_events::Direction;
use std::sync::{Mutex, Wait};
use target_side::PagerBook;

/// The books, in the order in which their locks are taken, and the bell that wakes the threads.
#[derive(Drop)]
pub struct SharedBooks {
    /// `None` until the halt.
    pub(crate) source: Mutex<Option<SourceBook>>,
    pub(crate) link: Mutex<LinkBook>,
    pub(crate) pager: Mutex<PagerBook>,
    pub(crate) target: Mutex<TargetSide>,
    /// Wakes the threads, and keeps why the run stops.
    pub bell: Bell,
}

impl SharedBooks {
    /// Rings the threads that may have something to do after a turn of the source or the pager on the link's book: the
    /// link if a packet is under way, and both ends, which may tick then, if nothing is under way and no arrival waits.
    /// A turn that found nothing to do rings nobody, so that no end wakes itself again and again.
    pub(crate) fn ring_over(&self, turn: &TurnReport, link: &LinkBook) {
        if let TurnReport::Idle = turn {
            return;
        }
        if is_under_way(link) {
            self.bell.ring(ThreadRole::Link);
        }
        if link.quiet() {
            self.bell.ring_ends();
        }
    }

    /// Tells the virtual processors of a turn, or all threads that the run stops. Returns whether there was an event,
    /// or `None` if the run stops.
    pub(crate) fn tell<R: Wait>(&self, rt: &R, turn: TurnReport) -> Option<bool> {
        match turn {
            TurnReport::Did | TurnReport::Offered(_) => Some(true),
            TurnReport::Served => {
                self.bell.ring_vcpus();
                Some(true)
            }
            TurnReport::Idle => Some(false),
            TurnReport::Stops(fault) => {
                self.bell.stop(rt, fault);
                None
            }
        }
    }
}

/// Returns whether the link has a packet to turn.
fn is_under_way(link: &LinkBook) -> bool {
    [Direction::Down, Direction::Up, Direction::Lane]
        .iter()
        .any(|direction| link.head(*direction).is_some())
}

/// Returns the report on an event.
pub(crate) fn told(effect: Result<Effect, EventFault>) -> TurnReport
    ensures turn { (e : Event) (old new : BooksAfter → BooksAfter) → OnOk effect (IsMade e old new) → IfOk effect (λ c. Tells c old new) → OnErr effect (IsSame old new) → IsTurn result e old new }
    ensures exact { result ≡ turn_of effect }
{
    match effect {
        Ok(effect) => turn_by(effect),
        Err(fault) => TurnReport::Stops(reason_of(fault)),
    }
}

/// Returns the report on an event that was not refused.
fn turn_by(effect: Effect) -> TurnReport
    ensures exact { result ≡ turn_by effect }
    ensures turn { (e : Event) (old new : BooksAfter → BooksAfter) → IsMade e old new → Tells effect old new → IsTurn result e old new }
{
    match effect {
        Effect::Nothing => TurnReport::Idle,
        Effect::Made => TurnReport::Did,
        Effect::Offered(page) => TurnReport::Offered(page),
    }
}

/// Returns the report on an event on the pager's and the target's books.
pub(crate) fn told_to_all(effect: Result<Effect, EventFault>) -> TurnReport
    ensures turn { (e : Event) (old new : BooksAfter → BooksAfter) → OnOk effect (IsMade e old new) → IfOk effect (λ c. Tells c old new) → OnErr effect (IsSame old new) → IsTurn result e old new }
    ensures exact { result ≡ to_all (turn_of effect) }
{
    match told(effect) {
        TurnReport::Did => TurnReport::Served,
        other => other,
    }
}
