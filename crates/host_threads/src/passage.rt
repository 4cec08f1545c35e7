//! The passage of a packet before it is delivered.

ghost use Rattle.std.specs.Prelude.{OnOk};
ghost use Rattle.host_threads.specs.Passages.{HasPassed, IsCarried};

use crate::carry::Echo;
use crate::relay::{Relay, RelayFault};
use crate::stop_reason::StopReason;
use page_stream::{Packet, fits};

/// The passage of the packets of the link and of the lane.
#[derive(Drop)]
pub enum Passage<L> {
    /// No passage: both are in memory.
    InMemory,
    /// A relay, from which the packets come back.
    Over(L, Echo),
}

impl<L: Relay> Passage<L> {
    /// Sends a packet through the passage. The error is `Astray` only if the packet is not of the relay's machine,
    /// which is checked first, and `Link` if the relay fails, or anything but the packet comes back.
    pub fn pass(&mut self, packet: &Packet) -> Result<(), StopReason>
        ensures ok { OnOk result (HasPassed self.new packet.now) }
        ensures came { OnOk result (IsCarried L.held self.old self.new packet.now) }
    {
        match self {
            Passage::InMemory => Ok(()),
            Passage::Over(relay, echo) => {
                if !fits(echo.geometry(), packet) {
                    return Err(StopReason::Astray);
                }
                Ok(echo.pass(relay, packet)?)
            }
        }
    }
}

/// The relay of a link in memory, through which no packet goes.
#[derive(Drop)]
pub struct NoRelay;

impl Relay for NoRelay {
    fn write(&mut self, _bytes: &[u8]) -> Result<usize, RelayFault> {
        Err(RelayFault)
    }

    fn read(&mut self, _into: &mut [u8]) -> Result<usize, RelayFault> {
        Err(RelayFault)
    }
}
