//! Pumping packets from a reader to a writer.

ghost use Rattle.std.specs.Prelude.{◌≡◌, ◌≢◌, ◌+◌, ◌≤◌, ◌++◌, true, false, length, vec_len, OnOk, IfOk, IfErr};
ghost use Rattle.std.specs.List.{flat_map, AllByRecursion};
ghost use Rattle.std.specs.Io.KnownBytes.{Appends};
ghost use Rattle.std.specs.IoError.{error_kind};
ghost use Rattle.migration_types.specs.Extents.{IsExtent};
ghost use Rattle.page_stream.specs.Bytes.{packet_bytes, IsShort};
ghost use Rattle.page_stream.specs.Pumps.{PumpsAll, PumpsUntil};
ghost use Rattle.page_stream.specs.inner.Passing.{PutsFront, IsOfReading, IsOfWriting, PassesOn, StopsAt};

use crate::encoding::put_packet;
use crate::{Packet, Stream, StreamFaultKind};
use migration_types::Geometry;
use std::alloc::{AllocError, Global};
use std::io;
use std::io::{ErrorKind, Read, Write};
use thiserror::Error;

/// Why not all packets were copied.
#[derive(Clone, Copy, Debug, PartialEq, Eq, Error)]
pub enum PumpFault {
    /// A read failed.
    #[error("a read failed")]
    Read,
    /// A write failed, or wrote nothing.
    #[error("a write failed")]
    Write,
    /// The input has a fault: a length, a kind or fields that no packet has.
    #[error("a fault in the packets")]
    Stream,
    /// As many reads were made as allowed, and the input has not ended.
    #[error("too many reads")]
    Turns,
    /// Memory ran out.
    #[error("out of memory")]
    Memory,
    /// The input ended inside a packet.
    #[error("the input ends inside a packet")]
    Cut,
}

// The number of bytes that are asked for at a time.
const BUFFER_BYTES: usize = 65_536;

fn is_of_memory(error: &io::Error) -> bool
    ensures told { result ≡ true → error_kind error.now ≡ ErrorKind.OutOfMemory }
    ensures other { result ≡ false → error_kind error.now ≢ ErrorKind.OutOfMemory }
{
    error.kind() == ErrorKind::OutOfMemory
}

/// Returns the fault for an error: this one, or that memory ran out.
fn fault_of(error: &io::Error, fault: PumpFault) -> PumpFault
    ensures reading { IsOfReading fault → IsOfReading result }
    ensures writing { IsOfWriting fault → IsOfWriting result }
    ensures memory { error_kind error.now ≡ ErrorKind.OutOfMemory → result ≡ PumpFault.Memory }
    ensures other { error_kind error.now ≢ ErrorKind.OutOfMemory → result ≡ fault }
{
    if is_of_memory(error) {
        PumpFault::Memory
    } else {
        fault
    }
}

fn zeroes(alloc: Global, count: usize) -> Result<Vec<u8>, AllocError>
    ensures { IfOk result (λ v. vec_len v ≡ count) }
{
    vec![in alloc; 0u8; count]
}

/// Writes these bytes, in as many writes as it takes. On a fault, the first of them were written.
fn write_bytes<W: Write>(writer: &mut W, bytes: &[u8]) -> Result<(), PumpFault>
    ensures ok { OnOk result (Appends (W.contents writer.old) (W.contents writer.new) bytes.now) }
    ensures kind { IfErr result IsOfWriting }
    ensures err { IfErr result (λ f. PutsFront (record { before = W.contents writer.old; after = W.contents writer.new }) bytes.now) }
{
    let mut rest = bytes;
    while !rest.is_empty() {
        match writer.write(rest) {
            Ok(0) => return Err(PumpFault::Write),
            Ok(count) => rest = &rest[count..],
            Err(error) => return Err(fault_of(&error, PumpFault::Write)),
        }
    }
    Ok(())
}

fn bytes_of(alloc: Global, packets: &[Packet]) -> Result<Vec<u8>, AllocError>
    requires { AllByRecursion IsShort packets.now }
    ensures { IfOk result (λ v. v.items ≡ flat_map packet_bytes packets.now) }
{
    let mut bytes = Vec::new(alloc);
    for packet in packets {
        put_packet(&mut bytes, packet)?;
    }
    Ok(bytes)
}

/// Writes these packets. On a fault, the first of their bytes were written.
fn write_packets<W: Write>(
    alloc: Global,
    writer: &mut W,
    packets: &[Packet],
) -> Result<(), PumpFault>
    requires { AllByRecursion IsShort packets.now }
    ensures ok { OnOk result (Appends (W.contents writer.old) (W.contents writer.new) (flat_map packet_bytes packets.now)) }
    ensures kind { IfErr result IsOfWriting }
    ensures err { IfErr result (λ f. PutsFront (record { before = W.contents writer.old; after = W.contents writer.new }) (flat_map packet_bytes packets.now)) }
{
    match bytes_of(alloc, packets) {
        Ok(bytes) => write_bytes(writer, &bytes),
        Err(_) => Err(PumpFault::Memory),
    }
}

/// Feeds a piece to a stream, and writes the packets that are whole then, including those ahead of a fault.
fn pass_on<W: Write>(
    alloc: Global,
    stream: &mut Stream,
    writer: &mut W,
    piece: &[u8],
) -> Result<u64, PumpFault>
    requires going { stream.old.is_broken ≡ false }
    requires extent { IsExtent stream.old.geometry }
    ensures ok { IfOk result (λ n. PassesOn (record { before = W.contents writer.old; after = W.contents writer.new }) stream.old stream.new piece.now n) }
    ensures few { IfOk result (λ n. n + length stream.new.rest ≤ length stream.old.rest + length piece.now) }
    ensures err { IfErr result (λ f. StopsAt stream.old.geometry (record { before = W.contents writer.old; after = W.contents writer.new }) (stream.old.rest ++ piece.now) f) }
{
    match stream.feed(piece) {
        Ok(packets) => {
            let packets = packets.as_slice();
            write_packets(alloc, writer, packets)?;
            Ok(packets.len() as u64)
        }
        Err(fault) => {
            write_packets(alloc, writer, fault.before.as_slice())?;
            Err(match fault.kind {
                StreamFaultKind::Memory => PumpFault::Memory,
                _ => PumpFault::Stream,
            })
        }
    }
}

/// Copies whole packets from a reader to a writer until the input ends, and returns how many they are. It makes at most
/// this many reads, including the one that finds the end. It retries none: an interrupted read or write counts as
/// failed. After a fault, the packets' bytes were written up to some place. If a read failed, the packets have a fault,
/// the reads were too few, or the input is cut, the bytes of all whole packets that were read were written. It does not
/// flush the writer.
pub fn pump<R: Read, W: Write>(
    alloc: Global,
    reader: &mut R,
    writer: &mut W,
    geometry: Geometry,
    turns: u32,
) -> Result<u64, PumpFault>
    ensures all { IfOk result (λ n. PumpsAll geometry (record { before = R.remaining reader.old; after = R.remaining reader.new }) (record { before = W.contents writer.old; after = W.contents writer.new }) n) }
    ensures until { IfErr result (λ f. PumpsUntil geometry (record { before = R.remaining reader.old; after = R.remaining reader.new }) (record { before = W.contents writer.old; after = W.contents writer.new }) turns f) }
{
    geometry.keeps_limits();
    let Ok(mut buffer) = zeroes(alloc, BUFFER_BYTES) else {
        return Err(PumpFault::Memory);
    };
    let mut stream = Stream::new(alloc, geometry);
    let mut count = 0;
    let mut turn = 0;
    while turn < turns {
        let length = match reader.read(buffer.as_mut_slice()) {
            Ok(length) => length,
            Err(error) => return Err(fault_of(&error, PumpFault::Read)),
        };
        if length == 0 {
            if stream.is_between_packets() {
                return Ok(count);
            }
            return Err(PumpFault::Cut);
        }
        turn += 1;
        count += pass_on(alloc, &mut stream, writer, &buffer[..length])?;
    }
    Err(PumpFault::Turns)
}
