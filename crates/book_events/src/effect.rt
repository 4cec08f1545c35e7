//! The effects of events.

use migration_types::PageNo;

/// The effect of an event.
#[derive(Clone, Copy, Debug, PartialEq, Eq)]
pub enum Effect {
    /// There was nothing to do, and nothing has changed.
    Nothing,
    /// The event was carried out.
    Made,
    /// The event was carried out, and offered a packet of this page.
    Offered(PageNo),
}
