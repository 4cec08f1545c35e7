//! Relays.

ghost use Rattle.std.specs.Prelude.{ℕ, List, Option, None, take, IfOk};
ghost use Rattle.std.specs.Io.KnownBytes.{Appends, Consumes};

use thiserror::Error;

/// The failure of a relay, with no details.
#[derive(Clone, Copy, Debug, PartialEq, Eq, Error)]
#[error("the relay failed")]
pub struct RelayFault;

/// A relay, through which the packets of the link and of the lane go. It takes in bytes at one end and gives them back
/// at the other, in order.
///
/// Its results are not trusted: its counts are checked, and what came back is compared with what was sent. Each call
/// may wait, and the link waits with it.
pub trait Relay: Send {
    /// The bytes that were taken and are not back, if they are known. If they are not known, nothing is required of the
    /// relay.
    ghost held: { Self → Option (List ℕ) } = { λ _. None };

    /// Takes some of these bytes, the first ones, and returns how many. There is at least one byte.
    fn write(&mut self, bytes: &[u8]) -> Result<usize, RelayFault>
        ensures { IfOk result (λ n. Appends (held self.old) (held self.new) (take n bytes.now)) };

    /// Puts the next bytes that came back at the front of the buffer, and returns how many. The buffer has room for at
    /// least one byte, and for no more than were taken and are not back.
    fn read(&mut self, into: &mut [u8]) -> Result<usize, RelayFault>
        ensures { IfOk result (λ n. Consumes (held self.old) (held self.new) (take n into.new)) };
}
