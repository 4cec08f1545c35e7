//! Why an event is refused.

ghost use Rattle.std.specs.Prelude.{◌≡◌};

use std::alloc::AllocError;
use thiserror::Error;

/// Why an event, or a book's part of it, was refused. Everything is then as it was.
#[derive(Clone, Copy, Debug, PartialEq, Eq, Error)]
pub enum EventFault {
    /// A log has no room for the event's records.
    #[error("a log is full")]
    LogFull,
    /// Memory ran out.
    #[error("out of memory")]
    Memory,
}

impl From<AllocError> for EventFault {
    ghost use Rattle.migration_events.specs.declared.faults.EventFault.{EventFault};

    ghost from_gives = { λ _ fault. fault ≡ EventFault.Memory };

    fn from(_error: AllocError) -> EventFault {
        EventFault::Memory
    }
}
