//! The turns of the lines of the link and of the lane.

ghost use Rattle.std.specs.Prelude.{◌≡◌, ℕ, ◌<◌, ◌≤◌, true, false, Some, None, drop, slice_get, IfOk, OnErr, MatchBool};
ghost use Rattle.link_book.specs.LinkPart.{line_of, turned};
ghost use Rattle.page_stream.specs.declared.Packet.{Packet as Sent};
ghost use Rattle.host_threads.specs.Fates.{next_fate, line, Meets, HaveMet, HaveTurned};
ghost use Rattle.host_threads.specs.Passages.{HasPassed, IsCarried, arrives};

use crate::passage::Passage;
use crate::relay::Relay;
use crate::stop_reason::{StopReason, reason_of};
use link_book::LinkBook;
use migration_events::{Direction, Fate};

/// The delivery outcomes that are left for the packets of a line, one for each of the next packets. After the last one,
/// each packet is delivered.
#[derive(Clone, Copy)]
pub struct Fates<'a> {
    pub left: &'a [Fate],
}

impl<'a> Fates<'a> {
    /// Returns delivery outcomes of which none is used up.
    pub fn new(left: &'a [Fate]) -> Self
        ensures { result.left.now ≡ left.now }
    {
        Fates { left }
    }

    /// Returns the delivery outcome of the next packet.
    fn next(&self) -> Fate
        ensures { result ≡ next_fate self.now.left.now }
    {
        match self.left.first() {
            Some(fate) => *fate,
            None => Fate::Deliver,
        }
    }

    /// Uses up the delivery outcome of the next packet.
    fn pass(&mut self)
        ensures { self.new.left.now ≡ drop 1 self.old.left.now }
    {
        if !self.left.is_empty() {
            self.left = &self.left[1..];
        }
    }
}

/// The delivery outcomes that are left for each line.
#[derive(Clone, Copy)]
pub struct LineFates<'a> {
    pub down: Fates<'a>,
    pub up: Fates<'a>,
    pub lane: Fates<'a>,
}

/// Returns whether a packet with this delivery outcome arrives at this turn.
fn arrives(fate: Fate) -> bool
    ensures { result ≡ arrives fate }
{
    match fate {
        Fate::Deliver | Fate::Repeat => true,
        Fate::Lose | Fate::Back => false,
    }
}

/// Gives the packet at the head of a line its delivery outcome, after it has come through the passage if it is to
/// arrive. Returns `false` if there is no packet.
fn turn_head<L: Relay>(
    link: &mut LinkBook,
    passage: &mut Passage<L>,
    direction: Direction,
    fate: Fate,
) -> Result<bool, StopReason>
    ensures head { IfOk result (λ met. MatchBool met ((packet : Sent) × (slice_get (line_of direction link.old.part) 0 ≡ Some packet)) (slice_get (line_of direction link.old.part) 0 ≡ None)) }
    ensures turned { IfOk result (λ met. MatchBool met (link.new ≡ record link.old { part = turned direction fate link.old.part }) (link.new ≡ link.old)) }
    ensures passed { IfOk result (λ met. met ≡ true → arrives fate ≡ true → (packet : Sent) → slice_get (line_of direction link.old.part) 0 ≡ Some packet → HasPassed passage.new packet × IsCarried L.held passage.old passage.new packet) }
    ensures err { OnErr result (link.new ≡ link.old) }
{
    let Some(packet) = link.head(direction) else {
        return Ok(false);
    };
    if arrives(fate) {
        passage.pass(packet)?;
    }
    match link.turn(direction, fate) {
        Ok(()) => Ok(true),
        Err(fault) => Err(reason_of(fault)),
    }
}

/// Gives the packet at the head of a line the next of these delivery outcomes, which is used up. Returns `false` if
/// there is no packet, and then no delivery outcome is used up.
fn meet_next<L: Relay>(
    link: &mut LinkBook,
    passage: &mut Passage<L>,
    direction: Direction,
    fates: &mut Fates<'_>,
) -> Result<bool, StopReason>
    ensures met { IfOk result (λ met. MatchBool met (Meets direction (line link.old.part fates.old.left.now) (line link.new.part fates.new.left.now)) ((line link.new.part fates.new.left.now ≡ line link.old.part fates.old.left.now) × (slice_get (line_of direction link.new.part) 0 ≡ None))) }
    ensures err { OnErr result (line link.new.part fates.new.left.now ≡ line link.old.part fates.old.left.now) }
{
    let met = turn_head(link, passage, direction, fates.next())?;
    if met {
        fates.pass();
    }
    Ok(met)
}

/// Carries out LinkTurn for one line, at most this many times. Returns how many packets got their delivery outcomes.
/// These are fewer only if no packet is left.
fn turn_line<L: Relay>(
    link: &mut LinkBook,
    passage: &mut Passage<L>,
    direction: Direction,
    fates: &mut Fates<'_>,
    most: usize,
) -> Result<usize, StopReason>
    ensures met { IfOk result (λ count. HaveMet direction count (line link.old.part fates.old.left.now) (line link.new.part fates.new.left.now)) }
    ensures few { IfOk result (λ count. count ≤ most) }
    ensures fewer { IfOk result (λ count. count < most → slice_get (line_of direction link.new.part) 0 ≡ None) }
    ensures err { OnErr result ((count : ℕ) × HaveMet direction count (line link.old.part fates.old.left.now) (line link.new.part fates.new.left.now)) }
{
    for count in 0..most {
        if !meet_next(link, passage, direction, fates)? {
            return Ok(count);
        }
    }
    Ok(most)
}

/// Carries out turns of one line, at most this many. Returns whether a packet got its delivery outcome: none does only if
/// there is none on the line, or no turn is asked for. The other lines and their delivery outcomes stay. The error says
/// why the run must stop. Packets that got their delivery outcomes before it keep them.
pub fn turn_at<L: Relay>(
    link: &mut LinkBook,
    passage: &mut Passage<L>,
    direction: Direction,
    lines: &mut LineFates<'_>,
    most: usize,
) -> Result<bool, StopReason>
    ensures turned { IfOk result (λ any. (count : ℕ)
        × (count ≤ most)
        × HaveTurned direction count (record { link = link.old.part; down = lines.old.down.left.now; up = lines.old.up.left.now; lane = lines.old.lane.left.now }) (record { link = link.new.part; down = lines.new.down.left.now; up = lines.new.up.left.now; lane = lines.new.lane.left.now })
        × MatchBool any (0 < count) (count ≡ 0)) }
    ensures idle { IfOk result (λ any. any ≡ false → 0 < most → slice_get (line_of direction link.new.part) 0 ≡ None) }
    ensures err { OnErr result ((count : ℕ) × HaveTurned direction count (record { link = link.old.part; down = lines.old.down.left.now; up = lines.old.up.left.now; lane = lines.old.lane.left.now }) (record { link = link.new.part; down = lines.new.down.left.now; up = lines.new.up.left.now; lane = lines.new.lane.left.now })) }
{
    let count = match direction {
        Direction::Down => turn_line(link, passage, direction, &mut lines.down, most)?,
        Direction::Up => turn_line(link, passage, direction, &mut lines.up, most)?,
        Direction::Lane => turn_line(link, passage, direction, &mut lines.lane, most)?,
    };
    Ok(count > 0)
}
