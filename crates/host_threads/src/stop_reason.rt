//! Why a run stops.

ghost use Rattle.std.specs.Prelude.{◌≡◌};
ghost use Rattle.host_threads.specs.Reasons.{fault_by};

use migration_events::EventFault;

/// Why a run stops. If there are several reasons, the least is kept.
#[derive(Clone, Copy, PartialEq, Eq, PartialOrd, Ord)]
pub enum StopReason {
    /// A log has no room for a record.
    LogFull,
    /// Memory ran out.
    Memory,
    /// A thread could not be started.
    Threads,
    /// The link failed.
    Link,
    /// A book, a packet or an operation is not of the script's machine, or a book is not where it should be.
    Astray,
}

/// Returns why a run stops in which an event was refused.
pub fn reason_of(fault: EventFault) -> StopReason
    ensures { result ≡ fault_by fault }
{
    match fault {
        EventFault::LogFull => StopReason::LogFull,
        EventFault::Memory => StopReason::Memory,
    }
}
