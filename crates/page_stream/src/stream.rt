//! A stream of packets that comes in pieces.

ghost use Rattle.std.specs.Prelude.{◌≡◌, ◌≤◌, ℕ, List, [], ◌++◌, drop, length, false, IfOk, IfErr, MatchBool};
ghost use Rattle.std.specs.List.{concat};
ghost use Rattle.migration_types.specs.Extents.{Extent, IsExtent};
ghost use Rattle.page_stream.specs.Streams.{most_length, StandsFor, IsReading, IsPartial, Flow, Takes, TakesAll, Refuses};
ghost use Rattle.page_stream.specs.inner.Fronts.{IsFront, IsEnd};

use crate::Packet;
use crate::decoding::{decode, number_at};
use bytes::BytesMut;
use migration_types::{Geometry, Seq};
use std::alloc::{AllocError, Global};
use std::fmt::{self, Debug, Formatter};
use std::marker::Model;
use thiserror::Error;

/// What is wrong with a stream.
#[derive(Clone, Copy, Debug, PartialEq, Eq, Error)]
pub enum StreamFaultKind {
    /// The length of a packet is not 1 to 262,153, or to the greatest length for a machine of another size. This is
    /// found as soon as 4 bytes of a packet are there.
    #[error("a packet of a length that none has")]
    Length,
    /// The kind byte of a packet is not 1 to 4. This is found as soon as that byte is there.
    #[error("a packet of a kind that none has")]
    Kind,
    /// The bytes are not exactly the fields of their kind, within the geometry. This is found as soon as the packet is
    /// whole.
    #[error("a packet whose fields are none of its kind's")]
    Fields,
    /// Memory ran out. The stream is as it was.
    #[error("out of memory")]
    Memory,
    /// A fault of the first three kinds came before.
    #[error("a stream that had a fault")]
    Broken,
}

/// Why a stream stops, and the whole packets of the piece ahead of the fault. There are none if memory ran out or an
/// earlier call found the fault.
#[derive(Drop, Error)]
#[error("{kind}")]
pub struct StreamFault {
    pub kind: StreamFaultKind,
    pub before: Seq<Packet>,
}

/// Shows only the kind, because packets hold pages.
impl Debug for StreamFault {
    fn fmt<W: fmt::Write>(&self, f: &mut Formatter<W>) -> fmt::Result {
        f.debug_struct("StreamFault")
            .field("kind", &self.kind)
            .finish_non_exhaustive()
    }
}

/// What some bytes begin with.
#[derive(Drop)]
enum StreamHead<'a> {
    Packet(Packet, &'a [u8]),
    Partial,
    Fault(StreamFaultKind),
}

/// The whole packets at the front of some bytes, how many bytes these are, and the fault that follows them.
#[derive(Drop)]
struct Taken {
    packets: Vec<Packet>,
    used: usize,
    fault: Option<StreamFaultKind>,
}

/// Returns the greatest length of a packet of this machine.
#[tactic(auto, using(migration_types::specs::Limits::limits_at_most))]
fn most_length(geometry: Geometry) -> u32
    ensures { result ≡ most_length geometry.size }
{
    9 + 4 * geometry.size().limits().pages
}

/// Returns the packet at the front of some bytes, and what follows it, or why there is none.
fn front_of(alloc: Global, geometry: Geometry, bytes: &[u8]) -> Result<StreamHead<'_>, AllocError>
    ensures { IfOk result (IsFront geometry bytes.now) }
{
    match number_at(bytes) {
        None => Ok(StreamHead::Partial),
        Some((length, rest)) => {
            if length == 0 || length > most_length(geometry) {
                return Ok(StreamHead::Fault(StreamFaultKind::Length));
            }
            let length = length as usize;
            if rest.is_empty() {
                return Ok(StreamHead::Partial);
            }
            if rest[0] == 0 || rest[0] > 4 {
                return Ok(StreamHead::Fault(StreamFaultKind::Kind));
            }
            if rest.len() < length {
                return Ok(StreamHead::Partial);
            }
            let (body, after) = rest.split_at(length);
            match decode(alloc, geometry, body)? {
                None => Ok(StreamHead::Fault(StreamFaultKind::Fields)),
                Some(packet) => Ok(StreamHead::Packet(packet, after)),
            }
        }
    }
}

/// Reads the packets at the front of some bytes, up to one that is not whole or has a fault.
fn take_packets(alloc: Global, geometry: Geometry, bytes: &[u8]) -> Result<Taken, AllocError>
    ensures used { IfOk result (λ t. t.used ≤ length bytes.now) }
    ensures stands { IfOk result (λ t. StandsFor geometry bytes.now t.packets.items (drop t.used bytes.now)) }
    ensures end { IfOk result (λ t. IsEnd geometry (drop t.used bytes.now) t.fault) }
{
    let mut packets = Vec::new(alloc);
    let mut rest = bytes;
    loop {
        match front_of(alloc, geometry, rest)? {
            StreamHead::Packet(packet, after) => {
                packets.push(packet)?;
                rest = after;
            }
            StreamHead::Partial => {
                return Ok(Taken {
                    packets,
                    used: bytes.len() - rest.len(),
                    fault: None,
                });
            }
            StreamHead::Fault(kind) => {
                return Ok(Taken {
                    packets,
                    used: bytes.len() - rest.len(),
                    fault: Some(kind),
                });
            }
        }
    }
}

/// A reader of packets from a stream that comes in pieces. It holds the bytes of a packet that is not whole yet, and
/// after a fault the bytes from the fault on.
#[derive(Drop)]
pub struct Stream {
    alloc: Global,
    geometry: Geometry,
    held: BytesMut,
    is_broken: bool,
}

impl Model for Stream {
    ghost use Rattle.page_stream.specs.Streams.{Flow};

    ghost Value = { Flow };

    ghost view = { λ a. record { geometry = a.geometry; rest = a.held.items; is_broken = a.is_broken } };
}

impl Stream {
    /// Returns a stream of a machine's packets, with nothing fed yet. Allocates no memory.
    pub fn new(alloc: Global, geometry: Geometry) -> Self
        ensures { result ≡ record { geometry = geometry; rest = []; is_broken = false } }
    {
        Stream {
            alloc,
            geometry,
            held: BytesMut::new(alloc),
            is_broken: false,
        }
    }

    /// Returns whether everything that was fed is whole packets.
    pub(crate) fn is_between_packets(&self) -> bool
        ensures { MatchBool result (self.now.rest ≡ []) (self.now.rest ≡ [] → ⊥) }
    {
        self.held.is_empty()
    }

    /// Takes the next piece, of any length, and returns the packets that are whole now. The bytes kept before, followed
    /// by the piece, are these packets followed by the bytes kept now. The piece is copied once, and a packet's fields
    /// are read once the packet is whole. After a fault of the first three kinds, every later call returns `Broken`. If
    /// memory runs out, the stream is as it was.
    pub fn feed(&mut self, piece: &[u8]) -> Result<Seq<Packet>, StreamFault>
        ensures taken { IfOk result (λ packets. Takes self.old self.new piece.now packets) }
        ensures going { IfOk result (λ packets. self.new.is_broken ≡ false) }
        ensures partial { IfOk result (λ packets. IsPartial self.old.geometry self.new.rest) }
        ensures refused { IfErr result (λ f. Refuses self.old self.new piece.now f.before f.kind) }
    {
        if self.is_broken {
            return Err(self.refusal(StreamFaultKind::Broken));
        }
        let before = self.held.len();
        if self.held.extend_from_slice(piece).is_err() {
            return Err(self.refusal(StreamFaultKind::Memory));
        }
        let Ok(taken) = take_packets(self.alloc, self.geometry, self.held.as_slice()) else {
            self.held.truncate(before);
            return Err(self.refusal(StreamFaultKind::Memory));
        };
        let fault = taken.fault;
        let packets = Seq::from_vec(taken.packets);
        self.held.advance(taken.used);
        match fault {
            None => Ok(packets),
            Some(kind) => {
                self.is_broken = true;
                Err(StreamFault {
                    kind,
                    before: packets,
                })
            }
        }
    }

    /// Returns a fault with no packet ahead of it.
    fn refusal(&self, kind: StreamFaultKind) -> StreamFault
        ensures kind { result.kind ≡ kind }
        ensures before { result.before ≡ [] }
    {
        StreamFault {
            kind,
            before: Seq::from_vec(Vec::new(self.alloc)),
        }
    }
}

/// A law: bytes are read in one way only, however they are cut into pieces. Two readings of the same bytes have the
/// same packets and the same rest. The packets that calls of `feed` return in turn, followed by what is kept at last,
/// are a reading of all their pieces together. Runs nothing.
pub fn one_reading()
    ensures same { (e : Extent) (bytes : List ℕ) (packets others : List Packet) (rest other : List ℕ) → IsExtent e → IsReading e bytes packets rest → IsReading e bytes others other → (packets ≡ others) × (rest ≡ other) }
    ensures together { (start end : Flow) (pieces : List (List ℕ)) (packets : List Packet) → TakesAll start pieces packets end → StandsFor start.geometry (start.rest ++ concat pieces) packets end.rest }
{}
