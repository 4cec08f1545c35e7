//! Events that a thread carries out one after another, under one hold of its locks, and what it reports on its turn.

ghost use Rattle.migration_events.specs.declared.events.Event.{Event as Tried};
ghost use Rattle.host_threads.specs.declared.turns.TurnReport.{TurnReport as Told};
ghost use Rattle.host_threads.specs.Rounds.{MakesAll, MakesFirst};

use crate::stop_reason::StopReason;
use migration_events::Event;
use migration_types::PageNo;

/// The report on a turn of a thread.
#[derive(Clone, Copy)]
pub enum TurnReport {
    /// It carried out an event.
    Did,
    /// It carried out an event that offered a page.
    Offered(PageNo),
    /// It carried out an event on the pager's and the target's books.
    Served,
    /// It found nothing to do.
    Idle,
    /// The run must stop.
    Stops(StopReason),
}

/// What carries out events on two books.
pub trait Makes<A, B> {
    /// The report on an event, and how it changes the books.
    ghost makes: { Self → Tried → Told → A × B → A × B → Type 0 };

    /// Carries out an event on these books, if there is something to do.
    fn make(&self, one: &mut A, other: &mut B, event: Event) -> TurnReport
        ensures { makes self.now event result (one.old, other.old) (one.new, other.new) };
}

/// Carries out the first of these events that finds something to do.
fn make_first<A, B, M: Makes<A, B>>(
    maker: &M,
    one: &mut A,
    other: &mut B,
    events: &[Event],
) -> TurnReport
    ensures { MakesFirst (M.makes maker.now) events.now result (one.old, other.old) (one.new, other.new) }
{
    for event in events {
        match maker.make(one, other, *event) {
            TurnReport::Idle => {}
            turn => return turn,
        }
    }
    TurnReport::Idle
}

/// Carries out events as `make_first` does, as long as there is something to do, at most this many times. Returns the
/// report on the last one that was not idle.
pub fn make_often<A, B, M: Makes<A, B>>(
    maker: &M,
    one: &mut A,
    other: &mut B,
    events: &[Event],
    most: usize,
) -> TurnReport
    ensures { MakesAll (M.makes maker.now) events.now most result (one.old, other.old) (one.new, other.new) }
{
    let mut last = TurnReport::Idle;
    for _ in 0..most {
        match make_first(maker, one, other, events) {
            TurnReport::Idle => break,
            TurnReport::Stops(fault) => return TurnReport::Stops(fault),
            turn => last = turn,
        }
    }
    last
}
