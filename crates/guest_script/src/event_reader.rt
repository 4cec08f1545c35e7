//! Reading a text of events, line by line.

ghost use Rattle.guest_script.specs.Events.{SpellsEvents};

use crate::event_steps::{EventStage, take_event_line, wanted_event_line};
use migration_events::Event;
use migration_types::Seq;
use std::alloc::Global;
use text_lines::{Counted, FaultKind, Stages, Wanted};

/// The events that were read.
#[derive(Drop)]
pub struct EventParts {
    events: Counted<Event>,
}

impl Stages for EventParts {
    type Stage = EventStage;

    type Text = Seq<Event>;

    ghost use Rattle.guest_script.specs.inner.EventHeld.{events_held, EventsLive};

    ghost held = { λ stage a. events_held stage a.events };

    ghost Live = { λ stage a. EventsLive stage a.events };

    ghost use Rattle.guest_script.specs.inner.Plain.{plain_events};

    ghost plain = { plain_events };

    ghost spells = { SpellsEvents };

    fn begin(alloc: Global) -> (EventStage, Self) {
        let events = Counted::nothing(alloc);
        (EventStage::Header, EventParts { events })
    }

    fn take(&mut self, stage: EventStage, line: &[u8]) -> Result<EventStage, FaultKind> {
        take_event_line(&mut self.events, stage, line)
    }

    fn goes_on(&self, _stage: EventStage) {}

    fn wanted(&self, stage: EventStage) -> Wanted {
        wanted_event_line(&self.events, stage)
    }

    fn text(self, stage: EventStage) -> Option<Seq<Event>> {
        match stage {
            EventStage::Done => Some(Seq::from_vec(self.events.into_vec())),
            _ => None,
        }
    }
}
