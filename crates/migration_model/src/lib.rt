//! The events of a migration on all books, and the law about what they record.
#![tactic(auto)]

ghost use Rattle.std.specs.Prelude.{◌≡◌, ℕ, ◌<◌, true, List, [], ◌∷◌, Some, take};
ghost use Rattle.std.specs.List.{AllByRecursion};
ghost use Rattle.migration_model.specs.Books.{Recording, Scripted, IsScript};
ghost use Rattle.migration_model.specs.Events.{start, step, run};
ghost use Rattle.migration_model.specs.Worked.{ComesOut, worked_runs, run_of_two, woken_next, offers, source_calls, small_source, source_offers, source_records, IsRefusedWhenFull};
ghost use Rattle.migration_model.specs.Orderly.{AreOrderly};
ghost use Rattle.migration_model.specs.Promise.{IsFaultlessRecording, IsReached, SomeRunIsDone};

use migration_events::Event;

/// A law, for every script and all events: if each event had room in the logs, what was recorded is a session within
/// its limits, of the right shape and with no fault of a page, and its recorded order is a merging, so the session is
/// safe. If the source was told that all pages are placed, each owed page is resident at the end of the order. Runs
/// nothing.
pub fn recordings_are_faultless()
    ensures faultless { (script : Scripted) (events : List Event) (core : Recording) → IsScript script → run events (start script) ≡ Some core → IsFaultlessRecording core }
{}

/// A law: a core is reached at a script's start, and after each event that is not refused; and what a reached core has
/// recorded is faultless. So a type whose invariant is that its value is reached has the invariant that its recording
/// is faultless. A reached core also meets what the calls on the books require. Runs nothing.
pub fn reached_cores_are_faultless()
    ensures start { (script : Scripted) → IsScript script → IsReached (start script) }
    ensures step { (e : Event) (core next : Recording) → IsReached core → step e core ≡ Some next → IsReached next }
    ensures faultless { (core : Recording) → IsReached core → IsFaultlessRecording core }
    ensures orderly { (core : Recording) → IsReached core → AreOrderly core.books }
{}

/// A law: there is a script with events that the law speaks about, and whose run comes to its end. Runs nothing.
pub fn premises_can_be_met()
    ensures { SomeRunIsDone }
{}

/// A law about worked runs: what some scripts with their events record, in which order, and whom the last delivery of
/// the first wakes; what a source offers and records; and that an event is refused exactly when there is no room for
/// its record. Runs nothing.
pub fn worked_runs_come_out_so()
    ensures runs { AllByRecursion ComesOut worked_runs }
    ensures woken { woken_next (run (take 17 run_of_two.events) (start run_of_two.script)) ≡ 0 ∷ 1 ∷ [] }
    ensures source { offers source_calls small_source ≡ (source_offers, source_records) }
    ensures full { IsRefusedWhenFull }
{}
