//! The version and the size of a session's text.

ghost use Rattle.std.specs.Prelude.{◌↔◌, IsTrue};
ghost use Rattle.migration_types.specs.Sessions.{Recorded};
ghost use Rattle.session_commands.specs.Facts.{IsFacts};
ghost use Rattle.session_commands.specs.Files.{HasLane, IsFormOf, NeedsTwo};

use crate::facts::Facts;
use crate::found::FoundLog;
use migration_types::{Size, Version};
use recorder_files::Front;
use recordings::WideMachine;

/// Returns whether there is something of the lane: a file, a record, or a packet that the pager took of it.
fn has_lane(facts: &Facts, front: Front, lane: &FoundLog) -> bool
    ensures { (s : Recorded) → IsFacts facts.now s → IsTrue result ↔ HasLane lane.now s front }
{
    if !lane.is_empty() {
        return true;
    }
    facts.takes_lane(front)
}

/// Returns whether only a text of the second version has these first records.
fn needs_two(facts: &Facts, front: Front, lane: &FoundLog) -> bool
    ensures { (s : Recorded) → IsFacts facts.now s → IsTrue result ↔ NeedsTwo lane.now s front }
{
    if has_lane(facts, front, lane) {
        return true;
    }
    facts.has_late(front)
}

/// Returns the version and the size of the text that has these first records of the logs, given the machine and the files of the
/// lane.
pub(crate) fn form_of(
    facts: &Facts,
    front: Front,
    machine: &WideMachine,
    lane: &FoundLog,
) -> (Version, Size)
    ensures { (s : Recorded) → IsFacts facts.now s → IsFormOf lane.now s front (record (machine.now) { version = result.0; size = result.1 }) }
{
    if facts.needs_large(front, machine.pages, machine.cells) {
        return (Version::Two, Size::Large);
    }
    if needs_two(facts, front, lane) {
        return (Version::Two, Size::Small);
    }
    (Version::One, Size::Small)
}
