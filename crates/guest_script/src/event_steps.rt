//! How a reader of events takes each line.

ghost use Rattle.guest_script.specs.inner.EventHeld.{EventsLive, EventsStep};

use crate::event_form::{EVENT_FORMS, EventForm};
use crate::keys::{EVENTS_HEADER, EVENTS_KEY};
use migration_events::Event;
use migration_types::MOST_RECORDS;
use text_lines::{CLOSING, Counted, FaultKind, Wanted, is_line};

/// The kind of line that comes next.
#[derive(Clone, Copy)]
pub enum EventStage {
    /// The header.
    Header,
    /// The number of events.
    Count,
    /// An event, or after the last the closing line.
    Events,
    /// No line.
    Done,
}

/// Takes the next line, and returns the stage after it.
pub fn take_event_line(
    events: &mut Counted<Event>,
    stage: EventStage,
    line: &[u8],
) -> Result<EventStage, FaultKind>
    requires { EventsLive stage events.old }
    ensures { EventsStep stage events.old line.now events.new result }
{
    match stage {
        EventStage::Header => {
            if !is_line(line, EVENTS_HEADER) {
                return Err(FaultKind::Form);
            }
            Ok(EventStage::Count)
        }
        EventStage::Count => {
            events.announce(line, EVENTS_KEY, MOST_RECORDS)?;
            Ok(EventStage::Events)
        }
        EventStage::Events => take_event(events, line),
        EventStage::Done => Err(FaultKind::Ended),
    }
}

/// Takes the line of an event, or the closing line.
fn take_event(events: &mut Counted<Event>, line: &[u8]) -> Result<EventStage, FaultKind>
    requires { EventsLive EventStage.Events events.old }
    ensures { EventsStep EventStage.Events events.old line.now events.new result }
{
    if events.is_whole() {
        if !is_line(line, CLOSING) {
            return Err(FaultKind::Form);
        }
        return Ok(EventStage::Done);
    }
    events.line(&EventForm, line)?;
    Ok(EventStage::Events)
}

/// Returns what is allowed at the next line.
pub fn wanted_event_line(events: &Counted<Event>, stage: EventStage) -> Wanted {
    match stage {
        EventStage::Header => Wanted::one("the header of events", &["postcopy-events 1"]),
        EventStage::Count => {
            Wanted::one("the number of events", &["events N"]).within(0, MOST_RECORDS)
        }
        EventStage::Events => wanted_event(events).of_list(events, 2),
        EventStage::Done => Wanted::nothing_more(),
    }
}

/// Expects an event, or after the last the closing line.
fn wanted_event(events: &Counted<Event>) -> Wanted {
    if events.is_whole() {
        Wanted::closing_line()
    } else {
        Wanted::one("an event", EVENT_FORMS)
    }
}
