//! The thread of the link and the lane.

ghost use Rattle.std.specs.Prelude.{◌≡◌, ◌↔◌, true, false, Ok, IfErr};
ghost use Rattle.host_threads.specs.Fates.{fates_over};

use crate::bell::ThreadRole;
use crate::lines::{Fates, LineFates, turn_at};
use crate::passage::Passage;
use crate::relay::Relay;
use crate::shared::SharedBooks;
use crate::stop_reason::StopReason;
use crate::turns::TurnReport;
use guest_script::Script;
use migration_events::Direction;
use std::sync::Wait;

/// Returns the delivery outcomes of a script, none of them used up. If there is no lane, nothing is ever under way
/// there.
fn lines_of(script: &Script) -> LineFates<'_>
    ensures down { result.down.left.now ≡ script.now.down }
    ensures up { result.up.left.now ≡ script.now.up }
    ensures lane { result.lane.left.now ≡ fates_over script.now.lane }
{
    LineFates {
        down: Fates::new(script.down()),
        up: Fates::new(script.up()),
        lane: Fates::new(script.lane().unwrap_or(&[])),
    }
}

/// Returns the report on turns of a line.
fn told_turns(turned: Result<bool, StopReason>) -> TurnReport
    ensures did { result ≡ TurnReport.Did ↔ turned ≡ Ok true }
    ensures idle { result ≡ TurnReport.Idle ↔ turned ≡ Ok false }
    ensures stops { IfErr turned (λ fault. result ≡ TurnReport.Stops fault) }
{
    match turned {
        Ok(true) => TurnReport::Did,
        Ok(false) => TurnReport::Idle,
        Err(fault) => TurnReport::Stops(fault),
    }
}

/// Carries out turns as `turn_at` does, under one lock.
fn turn_under_lock<R: Wait, L: Relay>(
    rt: &R,
    shared: &SharedBooks,
    passage: &mut Passage<L>,
    direction: Direction,
    lines: &mut LineFates<'_>,
    most: usize,
) -> TurnReport {
    let mut link = shared.link.lock(rt);
    told_turns(turn_at(&mut link, passage, direction, lines, most))
}

/// Carries out turns of each line, one line after another, each under the lock anew. Returns the report on the last
/// turn that was not idle.
fn turn_each<R: Wait, L: Relay>(
    rt: &R,
    shared: &SharedBooks,
    passage: &mut Passage<L>,
    lines: &mut LineFates<'_>,
    most: usize,
) -> TurnReport {
    let mut last = TurnReport::Idle;
    for direction in [Direction::Down, Direction::Up, Direction::Lane] {
        match turn_under_lock(rt, shared, passage, direction, lines, most) {
            TurnReport::Idle => {}
            TurnReport::Stops(fault) => return TurnReport::Stops(fault),
            turn => last = turn,
        }
    }
    last
}

/// Runs the link and the lane: the turns of the lines down, up and over the lane, one after another, until the run is
/// over. A packet goes through the passage before it is delivered.
pub fn run_link<R: Wait, L: Relay + Drop>(
    rt: &R,
    shared: &SharedBooks,
    script: &Script,
    mut passage: Passage<L>,
    most: usize,
) {
    let mut lines = lines_of(script);
    for _ in rt.forever() {
        if shared.bell.is_over() {
            break;
        }
        let turn = turn_each(rt, shared, &mut passage, &mut lines, most);
        let Some(has_turned) = shared.tell(rt, turn) else {
            break;
        };
        if has_turned {
            shared.bell.ring_ends();
        } else {
            shared.bell.wait(rt, ThreadRole::Link);
        }
    }
}
