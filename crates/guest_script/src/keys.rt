//! The words and whole lines of the texts, for their readers and their writers.

ghost use Rattle.std.specs.Prelude.{◌≡◌};
ghost use Rattle.guest_script.specs.Events.{link_key, fate_word};

use migration_events::{Direction, Fate};

/// The first line of a text of events.
pub const EVENTS_HEADER: &[u8] = b"postcopy-events 1";

/// The beginning of the line with the number of events.
pub const EVENTS_KEY: &[u8] = b"events ";

/// The beginning of the line of a virtual processor's step.
pub const GUEST_KEY: &[u8] = b"guest ";

/// Returns the beginning of the line of a turn of the link.
pub fn link_key_of(direction: Direction) -> &'static [u8]
    ensures { result.now ≡ link_key direction }
{
    match direction {
        Direction::Down => b"link down ",
        Direction::Up => b"link up ",
        Direction::Lane => b"link lane ",
    }
}

/// Returns the word of a delivery outcome.
pub fn fate_word_of(fate: Fate) -> &'static [u8]
    ensures { result.now ≡ fate_word fate }
{
    match fate {
        Fate::Deliver => b"deliver",
        Fate::Lose => b"lose",
        Fate::Repeat => b"repeat",
        Fate::Back => b"back",
    }
}

/// The first line of a script's text, in the first version.
pub const FIRST_SCRIPT: &[u8] = b"postcopy-script 1";

/// The first line of a script's text, in the second version.
pub const SECOND_SCRIPT: &[u8] = b"postcopy-script 2";

/// The beginning of the line with the number of pivots.
pub const PIVOTS_KEY: &[u8] = b"pivots ";

/// The beginning of the line with the window.
pub const WINDOW_KEY: &[u8] = b"window ";

/// The beginning of the line with the delivery outcomes on the way down.
pub const DOWN_KEY: &[u8] = b"down ";

/// The beginning of the line with the delivery outcomes on the way up.
pub const UP_KEY: &[u8] = b"up ";

/// The line for one link that carries packets down.
pub const ONE_LANE: &[u8] = b"lanes 1";

/// The line for a lane beside the link.
pub const TWO_LANES: &[u8] = b"lanes 2";

/// The beginning of the line with the delivery outcomes on the way over the lane.
pub const LANE_KEY: &[u8] = b"lane ";

/// The beginning of the line with the number of virtual processors.
pub const VCPUS_KEY: &[u8] = b"vcpus ";

/// The beginning of the line of a virtual processor.
pub const VCPU_KEY: &[u8] = b"vcpu ";

/// The beginning of the line of a read.
pub const READ_KEY: &[u8] = b"r ";

/// The beginning of the line of a write.
pub const WRITE_KEY: &[u8] = b"w ";

/// The beginning of the line of a release.
pub const RELEASE_KEY: &[u8] = b"z ";
