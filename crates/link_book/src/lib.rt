//! The book of the link and of the lane: the packets under way, those that have arrived, and the two logs.
#![tactic(auto)]

ghost use Rattle.std.specs.Prelude.{◌≡◌, ◌==◌, ◌&&◌, ◌<◌, ◌≤◌, [], true, false, None, length, slice_get, drop, if◌then◌else◌, IfSome, IsTrue, OnOk, OnErr, IsErrOf};
ghost use Rattle.std.specs.Option.{option_map};
ghost use Rattle.migration_types.specs.Limits.{most_records};

mod arrivals;
mod turns;

pub use migration_events::EventFault as LinkFault;
use migration_events::{Direction, Fate, look_for_room};
use migration_types::{LaneRec, LinkRec};
use page_stream::Packet;
use std::alloc::{AllocError, Global};
use std::collections::VecDeque;
use std::marker::Model;
use turns::{records_of_turn, turn_line};

/// A packet that has arrived, with the number of the record that says so. The record is in the lane's log if the packet
/// came over the lane, and otherwise in the link's.
#[derive(Drop)]
pub struct Arrival {
    pub number: u32,
    pub packet: Packet,
}

/// A channel: the packets under way, oldest first, and those that have arrived, oldest first.
#[derive(Drop)]
struct Channel {
    line: VecDeque<Packet>,
    arrivals: VecDeque<Arrival>,
}

impl Channel {
    /// Returns a channel with nothing sent.
    fn new(alloc: Global) -> Channel
        ensures line { result.line.items ≡ [] }
        ensures arrivals { result.arrivals.items ≡ [] }
    {
        Channel {
            line: VecDeque::new(alloc),
            arrivals: VecDeque::new(alloc),
        }
    }

    /// Returns whether nothing is under way, and no arrival waits.
    fn is_quiet(&self) -> bool
        ensures { result ≡ (length self.now.line.items == 0) && (length self.now.arrivals.items == 0) }
    {
        self.line.is_empty() && self.arrivals.is_empty()
    }
}

/// The book of the link, which carries packets down and up, and of the lane, a second link down. For each channel, it
/// has a line of packets under way, oldest first, and a queue of those that have arrived, oldest first. The link and
/// the lane each have a log of arrivals, of at most 1,048,576 records. An arrival has the number of its record in the
/// log. An offer needs room that was made for it before, and uses it up. Contracts see the lists, and whether there is
/// such room.
#[derive(Drop)]
pub struct LinkBook {
    alloc: Global,
    log: Vec<LinkRec>,
    lane_log: Vec<LaneRec>,
    down: Channel,
    up: Channel,
    lane: Channel,
    /// Whether each line has a spare place, which no offer has used.
    has_room: bool,
}

impl Model for LinkBook {
    ghost use Rattle.std.specs.Prelude.{◌<◌, IsTrue};
    ghost use Rattle.std.specs.VecDeque.{deque_len, deque_capacity};
    ghost use Rattle.link_book.specs.Links.{Linked, IsLink};

    ghost Value = { Linked };

    ghost view = { λ b. record { part = record { log = b.log.items; lane_log = b.lane_log.items; down = b.down.line.items; up = b.up.line.items; lane = b.lane.line.items; down_arrivals = b.down.arrivals.items; up_arrivals = b.up.arrivals.items; lane_arrivals = b.lane.arrivals.items }; has_room = b.has_room } };

    ghost invariant = { λ b. IsLink (record { log = b.log.items; lane_log = b.lane_log.items; down = b.down.line.items; up = b.up.line.items; lane = b.lane.line.items; down_arrivals = b.down.arrivals.items; up_arrivals = b.up.arrivals.items; lane_arrivals = b.lane.arrivals.items })
        × (IsTrue b.has_room → (deque_len b.down.line < deque_capacity b.down.line) × (deque_len b.up.line < deque_capacity b.up.line) × (deque_len b.lane.line < deque_capacity b.lane.line)) };
}

impl LinkBook {
    ghost use Rattle.link_book.specs.LinkPart.{new_link, with_back, with_front, with_up, with_lane, line_of, log_length, turned};
    ghost use Rattle.link_book.specs.Links.{IsLink, arrival, is_quiet};

    /// Returns a book with nothing sent, and no room made. Allocates no memory.
    pub fn new(alloc: Global) -> LinkBook
        ensures { result ≡ record { part = new_link; has_room = false } }
    {
        LinkBook {
            alloc,
            log: Vec::new(alloc),
            lane_log: Vec::new(alloc),
            down: Channel::new(alloc),
            up: Channel::new(alloc),
            lane: Channel::new(alloc),
            has_room: false,
        }
    }

    /// Makes room for one offer. Fails only if memory runs out, and then nothing changes.
    pub fn room(&mut self) -> Result<(), AllocError>
        ensures ok { OnOk result (self.new ≡ record self.old { has_room = true }) }
        ensures err { OnErr result (self.new ≡ self.old) }
    {
        self.down.line.reserve(1)?;
        self.up.line.reserve(1)?;
        self.lane.line.reserve(1)?;
        self.has_room = true;
        Ok(())
    }

    /// Puts a packet before or after the others that are under way down. This uses up the room; all else stays.
    /// Allocates no memory.
    pub fn offer_down(&mut self, packet: Packet, front: bool)
        requires { IsTrue self.old.has_room }
        ensures { self.new ≡ record { part = if front then with_front packet self.old.part else with_back packet self.old.part; has_room = false } }
    {
        if front {
            self.down.line.push_front_reserved(packet);
        } else {
            self.down.line.push_back_reserved(packet);
        }
        self.has_room = false;
    }

    /// Puts a packet after the others that are under way up. This uses up the room; all else stays. Allocates no
    /// memory.
    pub fn offer_up(&mut self, packet: Packet)
        requires { IsTrue self.old.has_room }
        ensures { self.new ≡ record { part = with_up packet self.old.part; has_room = false } }
    {
        self.up.line.push_back_reserved(packet);
        self.has_room = false;
    }

    /// Puts a packet after the others that are under way over the lane. This uses up the room; all else stays.
    /// Allocates no memory.
    pub fn offer_lane(&mut self, packet: Packet)
        requires { IsTrue self.old.has_room }
        ensures { self.new ≡ record { part = with_lane packet self.old.part; has_room = false } }
    {
        self.lane.line.push_back_reserved(packet);
        self.has_room = false;
    }

    /// Gives the packet at the head of a line its delivery outcome. A packet that does not go this way is dropped, and
    /// if the line is empty, nothing changes. Room that was made stays. Returns `LogFull` if the packet is delivered
    /// and the log of its link has 1,048,576 records. This is checked before memory is allocated, so `Memory` comes
    /// only if the log has room. On an error, nothing changes.
    pub fn turn(&mut self, direction: Direction, fate: Fate) -> Result<(), LinkFault>
        ensures ok { OnOk result (self.new ≡ record self.old { part = turned direction fate self.old.part }) }
        ensures full { IsErrOf result LinkFault.LogFull → most_records < log_length direction (turned direction fate self.old.part) }
        ensures memory { IsErrOf result LinkFault.Memory → log_length direction (turned direction fate self.old.part) ≤ most_records }
        ensures err { OnErr result (self.new ≡ self.old) }
    {
        let alloc = self.alloc;
        match direction {
            Direction::Down => turn_line(alloc, &mut self.log, &mut self.down, direction, fate),
            Direction::Up => turn_line(alloc, &mut self.log, &mut self.up, direction, fate),
            Direction::Lane => {
                turn_line(alloc, &mut self.lane_log, &mut self.lane, direction, fate)
            }
        }
    }

    /// Returns whether the log of the link has room for what the turn appends. Allocates no memory.
    pub fn look_to_turn(&self, direction: Direction, fate: Fate) -> Result<(), LinkFault>
        ensures room { OnOk result (log_length direction (turned direction fate self.now.part) ≤ most_records) }
        ensures full { OnErr result (most_records < log_length direction (turned direction fate self.now.part)) }
        ensures memory { IsErrOf result LinkFault.Memory → ⊥ }
    {
        match direction {
            Direction::Down => {
                let more = records_of_turn(&self.down.line, direction, fate);
                look_for_room(&self.log, more)
            }
            Direction::Up => {
                let more = records_of_turn(&self.up.line, direction, fate);
                look_for_room(&self.log, more)
            }
            Direction::Lane => {
                let more = records_of_turn(&self.lane.line, direction, fate);
                look_for_room(&self.lane_log, more)
            }
        }
    }

    /// Returns the packet at the head of a line, whose turn is next, or `None` if none is under way there.
    pub fn head(&self, direction: Direction) -> Option<&Packet>
        ensures { option_map (λ p. p.now) result ≡ slice_get (line_of direction self.now.part) 0 }
    {
        match direction {
            Direction::Down => self.down.line.front(),
            Direction::Up => self.up.line.front(),
            Direction::Lane => self.lane.line.front(),
        }
    }

    /// Returns the oldest arrival at the target, with the number of the link's record, or `None` if there is none.
    #[tactic(auto, using(crate::proofs::Links::oldest_within))]
    pub fn peek_down(&self) -> Option<(u32, &Packet)>
        ensures oldest { option_map (λ a. arrival a.0 a.1.now) result ≡ slice_get self.now.part.down_arrivals 0 }
        ensures within { IfSome result (λ a. a.0 < length self.now.part.log) }
    {
        arrivals::oldest(&self.down.arrivals)
    }

    /// Returns the oldest arrival at the source, with the number of the link's record, or `None` if there is none.
    #[tactic(auto, using(crate::proofs::Links::oldest_within))]
    pub fn peek_up(&self) -> Option<(u32, &Packet)>
        ensures oldest { option_map (λ a. arrival a.0 a.1.now) result ≡ slice_get self.now.part.up_arrivals 0 }
        ensures within { IfSome result (λ a. a.0 < length self.now.part.log) }
    {
        arrivals::oldest(&self.up.arrivals)
    }

    /// Returns the oldest arrival over the lane, with the number of the lane's record, or `None` if there is none.
    #[tactic(auto, using(crate::proofs::Links::oldest_within))]
    pub fn peek_lane(&self) -> Option<(u32, &Packet)>
        ensures oldest { option_map (λ a. arrival a.0 a.1.now) result ≡ slice_get self.now.part.lane_arrivals 0 }
        ensures within { IfSome result (λ a. a.0 < length self.now.part.lane_log) }
    {
        arrivals::oldest(&self.lane.arrivals)
    }

    /// Removes and returns the oldest arrival at the target. Returns `None` if there is none, and then nothing changes.
    /// Allocates no memory.
    pub fn pop_down(&mut self) -> Option<(u32, Packet)>
        ensures oldest { option_map (λ a. arrival a.0 a.1) result ≡ slice_get self.old.part.down_arrivals 0 }
        ensures rest { self.new ≡ record self.old { part = record self.old.part { down_arrivals = drop 1 self.old.part.down_arrivals } } }
    {
        arrivals::take(&mut self.down.arrivals)
    }

    /// Removes and returns the oldest arrival at the source. Returns `None` if there is none, and then nothing changes.
    /// Allocates no memory.
    pub fn pop_up(&mut self) -> Option<(u32, Packet)>
        ensures oldest { option_map (λ a. arrival a.0 a.1) result ≡ slice_get self.old.part.up_arrivals 0 }
        ensures rest { self.new ≡ record self.old { part = record self.old.part { up_arrivals = drop 1 self.old.part.up_arrivals } } }
    {
        arrivals::take(&mut self.up.arrivals)
    }

    /// Removes and returns the oldest arrival over the lane. Returns `None` if there is none, and then nothing changes.
    /// Allocates no memory.
    pub fn pop_lane(&mut self) -> Option<(u32, Packet)>
        ensures oldest { option_map (λ a. arrival a.0 a.1) result ≡ slice_get self.old.part.lane_arrivals 0 }
        ensures rest { self.new ≡ record self.old { part = record self.old.part { lane_arrivals = drop 1 self.old.part.lane_arrivals } } }
    {
        arrivals::take(&mut self.lane.arrivals)
    }

    /// Returns how many packets are under way down.
    pub fn down_len(&self) -> usize
        ensures { result ≡ length self.now.part.down }
    {
        self.down.line.len()
    }

    /// Returns how many packets are under way over the lane. Allocates no memory.
    pub fn lane_len(&self) -> usize
        ensures { result ≡ length self.now.part.lane }
    {
        self.lane.line.len()
    }

    /// Returns whether nothing is under way and no arrival waits, on the link and on the lane.
    pub fn quiet(&self) -> bool
        ensures { result ≡ is_quiet self.now.part }
    {
        self.down.is_quiet() && self.up.is_quiet() && self.lane.is_quiet()
    }

    /// Returns the link's log.
    pub fn link_log(&self) -> &[LinkRec]
        ensures { result.now ≡ self.now.part.log }
    {
        self.log.as_slice()
    }

    /// Returns the lane's log.
    pub fn lane_log(&self) -> &[LaneRec]
        ensures { result.now ≡ self.now.part.lane_log }
    {
        self.lane_log.as_slice()
    }

    /// Returns the link's log and the lane's, and consumes the book.
    pub fn into_logs(self) -> (Vec<LinkRec>, Vec<LaneRec>)
        ensures link { result.0.items ≡ self.part.log }
        ensures lane { result.1.items ≡ self.part.lane_log }
    {
        (self.log, self.lane_log)
    }

    /// States that each log has at most 1,048,576 records, and that each arrival has the number of its record. Runs
    /// nothing.
    pub fn keeps_limits(&self)
        ensures { IsLink self.now.part }
    {
        let _log = &self.log;
    }
}
