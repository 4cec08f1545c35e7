//! Packets that go out through a relay and come back.

ghost use Rattle.std.specs.Prelude.{◌≡◌, ◌≢◌, ◌+◌, ◌≤◌, [], ◌∷◌, true, false, length, vec_len, OnOk, IsErrOf, MatchBool};
ghost use Rattle.migration_types.specs.Extents.{IsExtent};
ghost use Rattle.page_stream.specs.Bytes.{packet_bytes, Fits, IsShort};
ghost use Rattle.page_stream.specs.Streams.{Takes};
ghost use Rattle.host_threads.specs.Echoes.{Carries, HasCarried};

use crate::relay::Relay;
use crate::stop_reason::StopReason;
use migration_types::{Geometry, PageNo};
use page_stream::{Packet, Stream, StreamFaultKind, encode, one_reading};
use std::alloc::Global;
use std::marker::Model;

/// Why a packet did not come through a relay.
#[derive(Clone, Copy)]
pub enum CarryFault {
    /// Memory ran out.
    Memory,
    /// The relay failed, or something other than the packet came back.
    Link,
}

impl From<CarryFault> for StopReason {
    fn from(fault: CarryFault) -> StopReason {
        match fault {
            CarryFault::Memory => StopReason::Memory,
            CarryFault::Link => StopReason::Link,
        }
    }
}

/// The greatest number of bytes on their way through a relay.
const PIECE_BYTES: usize = 4096;

/// Reads this many bytes from a relay, and appends them to what came.
#[tactic(auto, using(crate::proofs::Carrying::carried_none))]
fn read_back<L: Relay>(relay: &mut L, count: usize, came: &mut Vec<u8>) -> Result<(), CarryFault>
    requires { count ≤ 4096 }
    ensures count { OnOk result (vec_len came.new ≡ vec_len came.old + count) }
    ensures came { OnOk result (HasCarried (L.held relay.old) (L.held relay.new) [] came.old.items came.new.items) }
{
    let mut buffer = [0u8; PIECE_BYTES];
    let mut left = count;
    while left > 0 {
        let Ok(got) = relay.read(&mut buffer[..left]) else {
            return Err(CarryFault::Link);
        };
        if got == 0 || got > left {
            return Err(CarryFault::Link);
        }
        if came.extend_from_slice(&buffer[..got]).is_err() {
            return Err(CarryFault::Memory);
        }
        left -= got;
    }
    Ok(())
}

/// Sends bytes through a relay in pieces, each of which is back before the next goes out, and appends what comes back
/// to what came. As many bytes come as were sent: those that the relay gave. It does not look at what they are.
///
/// The error is `Link` if a call of the relay fails, or returns 0 or more than it was asked for.
#[tactic(auto, using(crate::proofs::Carrying::through_none, crate::proofs::Carrying::through_all))]
fn carry<L: Relay>(relay: &mut L, bytes: &[u8], came: &mut Vec<u8>) -> Result<(), CarryFault>
    ensures count { OnOk result (vec_len came.new ≡ vec_len came.old + length bytes.now) }
    ensures came { OnOk result (HasCarried (L.held relay.old) (L.held relay.new) bytes.now came.old.items came.new.items) }
{
    let mut rest = bytes;
    while !rest.is_empty() {
        let asked = rest.len().min(PIECE_BYTES);
        let Ok(sent) = relay.write(&rest[..asked]) else {
            return Err(CarryFault::Link);
        };
        if sent == 0 || sent > asked {
            return Err(CarryFault::Link);
        }
        read_back(relay, sent, came)?;
        rest = &rest[sent..];
    }
    Ok(())
}

/// Returns whether two packets are equal.
fn is_same(one: &Packet, other: &Packet) -> bool
    ensures { MatchBool result (one.now ≡ other.now) (one.now ≢ other.now) }
{
    match (one, other) {
        (
            Packet::State { number, released },
            Packet::State {
                number: n,
                released: r,
            },
        ) => number == n && released.as_slice() == r.as_slice(),
        (
            Packet::Page {
                number,
                page,
                cells,
            },
            Packet::Page {
                number: n,
                page: p,
                cells: c,
            },
        ) => number == n && page.number() == p.number() && cells.as_slice() == c.as_slice(),
        (Packet::Want { number, page }, Packet::Want { number: n, page: p }) => {
            number == n && page.number() == p.number()
        }
        (Packet::All { number }, Packet::All { number: n }) => number == n,
        _ => false,
    }
}

/// Feeds what came to a stream that holds nothing. It must be the packet that was sent, and no more.
///
/// The error is `Link` only if what came is not the packet's bytes.
fn receive(stream: &mut Stream, came: &[u8], sent: &Packet) -> Result<(), CarryFault>
    requires rest { stream.old.rest ≡ [] }
    requires going { stream.old.is_broken ≡ false }
    requires extent { IsExtent stream.old.geometry }
    requires fits { Fits stream.old.geometry sent.now }
    requires length { length came.now ≡ length (packet_bytes sent.now) }
    ensures ok { OnOk result (Takes stream.old stream.new came.now (sent.now ∷ [])) }
    ensures stays { OnOk result (stream.new ≡ stream.old) }
    ensures link { IsErrOf result CarryFault.Link → came.now ≢ packet_bytes sent.now }
{
    one_reading();
    match stream.feed(came) {
        Ok(packets) => match packets.as_slice() {
            [packet] if is_same(packet, sent) => Ok(()),
            _ => Err(CarryFault::Link),
        },
        Err(fault) => Err(match fault.kind {
            StreamFaultKind::Memory => CarryFault::Memory,
            _ => CarryFault::Link,
        }),
    }
}

/// What comes back from a relay, and the stream that reads it. Contracts see the machine whose packets these are, and
/// the bytes that came last. Between two packets, the stream holds nothing.
#[derive(Drop)]
pub struct Echo {
    alloc: Global,
    geometry: Geometry,
    stream: Stream,
    came: Vec<u8>,
}

impl Model for Echo {
    ghost use Rattle.std.specs.Prelude.{◌≡◌, [], false};
    ghost use Rattle.host_threads.specs.Echoes.{Echoed};

    ghost Value = { Echoed };

    ghost view = { λ e. record { geometry = e.geometry; came = e.came.items } };

    ghost invariant = { λ e. e.stream ≡ record { geometry = e.geometry; rest = []; is_broken = false } };
}

impl Echo {
    /// Returns an echo to which nothing came yet. Allocates no memory.
    pub fn new(alloc: Global, geometry: Geometry) -> Echo
        ensures { result ≡ record { geometry = geometry; came = [] } }
    {
        Echo {
            alloc,
            geometry,
            stream: Stream::new(alloc, geometry),
            came: Vec::new(alloc),
        }
    }

    /// Returns the machine whose packets these are.
    pub fn geometry(&self) -> Geometry
        ensures { result ≡ self.now.geometry }
    {
        self.geometry
    }

    /// Sends a packet of the machine through a relay: its bytes go out, and what comes back, read as a stream, must be
    /// that packet and no more.
    ///
    /// The error is `Link` if the relay fails or something else comes back.
    #[tactic(auto, using(crate::proofs::Carrying::carried_all))]
    pub fn pass<L: Relay>(&mut self, relay: &mut L, packet: &Packet) -> Result<(), CarryFault>
        requires fits { Fits self.old.geometry packet.now }
        requires short { IsShort packet.now }
        ensures ok { OnOk result (self.new ≡ record self.old { came = packet_bytes packet.now }) }
        ensures came { OnOk result (Carries (L.held relay.old) (L.held relay.new) (packet_bytes packet.now) self.new.came) }
    {
        let Ok(bytes) = encode(self.alloc, packet) else {
            return Err(CarryFault::Memory);
        };
        self.came.clear();
        carry(relay, &bytes, &mut self.came)?;
        self.receive(packet)
    }

    /// Feeds what came to the stream. After a fault, the stream is a new one.
    fn receive(&mut self, sent: &Packet) -> Result<(), CarryFault>
        requires fits { Fits self.old.geometry sent.now }
        requires length { length self.old.came ≡ length (packet_bytes sent.now) }
        ensures ok { OnOk result ((self.new ≡ self.old) × (self.old.came ≡ packet_bytes sent.now)) }
    {
        self.geometry.keeps_limits();
        let received = receive(&mut self.stream, &self.came, sent);
        if received.is_err() {
            self.stream = Stream::new(self.alloc, self.geometry);
        }
        received
    }
}
