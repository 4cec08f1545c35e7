//! One turn of a line.

ghost use Rattle.std.specs.Prelude.{◌≡◌, ◌<◌, ◌≤◌, ℕ, [], ◌∷◌, ◌++◌, true, length, is_some, IfOk, OnOk, OnErr, IsErrOf, vec_len, vec_capacity};
ghost use Rattle.std.specs.VecDeque.{deque_len, deque_capacity};
ghost use Rattle.migration_events.specs.declared.events.Direction.{Direction as Way};
ghost use Rattle.migration_types.specs.Limits.{most_records};
ghost use Rattle.page_stream.specs.Packets.{number_of};
ghost use Rattle.link_book.specs.LinkPart.{goes, channel_turned, turn_records};
ghost use Rattle.link_book.specs.Links.{arrival, channel, HasTurned};

use crate::{Arrival, Channel, LinkFault};
use migration_events::{Direction, Fate, make_room};
use migration_types::{LaneRec, LinkRec};
use page_stream::Packet;
use std::alloc::Global;
use std::collections::VecDeque;

/// A record of the arrival of a packet.
pub trait Receipt {
    /// The record of the arrival of a packet in this direction, by the packet's number.
    ghost says: { Way → ℕ → Self };

    /// Returns the record of the arrival of a packet in this direction, by the packet's number.
    fn of(direction: Direction, number: u32) -> Self
        ensures { result ≡ says direction number };
}

impl Receipt for LinkRec {
    ghost use Rattle.link_book.specs.LinkPart.{link_says};

    ghost says = { link_says };

    fn of(direction: Direction, number: u32) -> LinkRec {
        match direction {
            Direction::Down | Direction::Lane => LinkRec::Down { sending: number },
            Direction::Up => LinkRec::Up { asking: number },
        }
    }
}

impl Receipt for LaneRec {
    ghost use Rattle.link_book.specs.LinkPart.{lane_says};

    ghost says = { lane_says };

    fn of(_direction: Direction, number: u32) -> LaneRec {
        LaneRec::Down { sending: number }
    }
}

/// Gives the head of a channel's line its delivery outcome. If the packet is delivered, the log records it. On an
/// error, nothing changes. A spare place in the line stays.
pub fn turn_line<R: Receipt>(
    alloc: Global,
    log: &mut Vec<R>,
    channel: &mut Channel,
    direction: Direction,
    fate: Fate,
) -> Result<(), LinkFault>
    requires { length log.old.items ≤ most_records }
    ensures ok { OnOk result (HasTurned (R.says direction) (channel_turned (goes direction) fate (length log.old.items) channel.old.line.items channel.old.arrivals.items) log.old.items log.new.items channel.new.line.items channel.new.arrivals.items) }
    ensures few { OnOk result (length log.new.items ≤ most_records) }
    ensures full { IsErrOf result LinkFault.LogFull → (most_records ≤ length log.old.items)
        × (is_some (channel_turned (goes direction) fate (length log.old.items) channel.old.line.items channel.old.arrivals.items).came ≡ true) }
    ensures memory { IsErrOf result LinkFault.Memory → length log.old.items < most_records }
    ensures err { OnErr result ((log.new.items ≡ log.old.items) × (channel.new.line.items ≡ channel.old.line.items) × (channel.new.arrivals.items ≡ channel.old.arrivals.items)) }
    ensures room { deque_len channel.old.line < deque_capacity channel.old.line → deque_len channel.new.line < deque_capacity channel.new.line }
{
    let line = &mut channel.line;
    if let Some(number) = meet_fate(alloc, log, line, &mut channel.arrivals, direction, fate)? {
        log.push_reserved(R::of(direction, number));
    }
    Ok(())
}

/// Gives the head of a line its delivery outcome. If the packet is delivered, returns its number; the log, which does
/// not change, has a place for its record. On an error, nothing changes. A spare place in the line stays.
fn meet_fate<R>(
    alloc: Global,
    log: &mut Vec<R>,
    line: &mut VecDeque<Packet>,
    arrivals: &mut VecDeque<Arrival>,
    direction: Direction,
    fate: Fate,
) -> Result<Option<u32>, LinkFault>
    requires { length log.old.items ≤ most_records }
    ensures ok { IfOk result (λ came. record { channel = channel line.new.items arrivals.new.items; came = came }
        ≡ channel_turned (goes direction) fate (length log.old.items) line.old.items arrivals.old.items) }
    ensures place { IfOk result (λ came. is_some came ≡ true → (length log.old.items < most_records) × (vec_len log.new < vec_capacity log.new)) }
    ensures full { IsErrOf result LinkFault.LogFull → (most_records ≤ length log.old.items)
        × (is_some (channel_turned (goes direction) fate (length log.old.items) line.old.items arrivals.old.items).came ≡ true) }
    ensures memory { IsErrOf result LinkFault.Memory → length log.old.items < most_records }
    ensures log { log.new.items ≡ log.old.items }
    ensures err { OnErr result ((line.new.items ≡ line.old.items) × (arrivals.new.items ≡ arrivals.old.items)) }
    ensures room { deque_len line.old < deque_capacity line.old → deque_len line.new < deque_capacity line.new }
{
    let Some(head) = line.front() else {
        return Ok(None);
    };
    if !belongs(direction, head) {
        line.pop_front();
        return Ok(None);
    }
    match fate {
        Fate::Lose => {
            line.pop_front();
            Ok(None)
        }
        Fate::Back => {
            if let Some(packet) = line.pop_front() {
                line.push_back_reserved(packet);
            }
            Ok(None)
        }
        Fate::Deliver => {
            make_places(log, arrivals)?;
            let Some(packet) = line.pop_front() else {
                return Ok(None);
            };
            Ok(Some(arrive(log.len(), arrivals, packet)))
        }
        Fate::Repeat => {
            make_places(log, arrivals)?;
            let Ok(copy) = head.copied(alloc) else {
                return Err(LinkFault::Memory);
            };
            let Some(packet) = line.pop_front() else {
                return Ok(None);
            };
            line.push_back_reserved(copy);
            Ok(Some(arrive(log.len(), arrivals, packet)))
        }
    }
}

/// Returns how many records a turn of a line appends.
pub fn records_of_turn(line: &VecDeque<Packet>, direction: Direction, fate: Fate) -> usize
    ensures few { result ≤ 1 }
    ensures count { result ≡ turn_records direction fate line.now.items }
{
    let Some(head) = line.front() else {
        return 0;
    };
    if !belongs(direction, head) {
        return 0;
    }
    match fate {
        Fate::Deliver | Fate::Repeat => 1,
        Fate::Lose | Fate::Back => 0,
    }
}

/// Makes a place for one record and one arrival.
fn make_places<R>(log: &mut Vec<R>, arrivals: &mut VecDeque<Arrival>) -> Result<(), LinkFault>
    ensures same { (log.new.items ≡ log.old.items) × (arrivals.new.items ≡ arrivals.old.items) }
    ensures ok { OnOk result ((length log.old.items < most_records) × (vec_len log.new < vec_capacity log.new) × (deque_len arrivals.new < deque_capacity arrivals.new)) }
    ensures full { IsErrOf result LinkFault.LogFull → most_records ≤ length log.old.items }
    ensures memory { IsErrOf result LinkFault.Memory → length log.old.items < most_records }
{
    make_room(log, 1)?;
    arrivals.reserve(1).map_err(|_| LinkFault::Memory)
}

/// Delivers a packet, which the record with this number will record. Returns the packet's own number.
fn arrive(place: usize, arrivals: &mut VecDeque<Arrival>, packet: Packet) -> u32
    requires arrivals { deque_len arrivals.old < deque_capacity arrivals.old }
    requires short { place < most_records }
    ensures number { result ≡ number_of packet }
    ensures arrivals { arrivals.new.items ≡ arrivals.old.items ++ arrival place packet ∷ [] }
{
    let came = packet.number();
    arrivals.push_back_reserved(Arrival {
        number: place as u32,
        packet,
    });
    came
}

/// Returns whether a packet goes this way.
fn belongs(direction: Direction, packet: &Packet) -> bool
    ensures { result ≡ goes direction packet.now }
{
    match direction {
        Direction::Down | Direction::Lane => {
            matches!(packet, Packet::State { .. } | Packet::Page { .. })
        }
        Direction::Up => matches!(packet, Packet::Want { .. } | Packet::All { .. }),
    }
}
