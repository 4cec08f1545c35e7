//! The events of a migration.

/// A channel, by its link and direction.
#[derive(Clone, Copy, Debug, PartialEq, Eq)]
pub enum Direction {
    /// From the source to the target.
    Down,
    /// From the target to the source.
    Up,
    /// From the source to the target over the lane, a second link, which carries only pushed pages.
    Lane,
}

/// The delivery outcome of the packet at the head of a line.
#[derive(Clone, Copy, Debug, PartialEq, Eq)]
pub enum Fate {
    /// It is delivered.
    Deliver,
    /// It is lost.
    Lose,
    /// It is delivered, and a copy of it goes to the end of its line.
    Repeat,
    /// It goes to the end of its line.
    Back,
}

/// An event: a critical section on the books that it names. If it finds nothing to do, it changes nothing.
#[derive(Clone, Copy, Debug, PartialEq, Eq)]
pub enum Event {
    /// A virtual processor's next operation, on the guest's or the target's book.
    GuestStep { vcpu: u8 },
    /// The guest halts at the source, once each virtual processor has come to its move.
    Halt,
    /// The source pushes a page.
    Push,
    /// The source takes what has arrived, and serves it.
    Serve,
    /// The source sends the state again, as long as nobody has asked it for anything.
    SourceTick,
    /// The packet at the head of a line gets its delivery outcome.
    LinkTurn { direction: Direction, fate: Fate },
    /// The pager takes a packet that has arrived.
    PagerPop,
    /// The pager takes a packet that has arrived over the lane.
    PagerPull,
    /// The pager cancels the pages that the guest released at the target before they came, and learns of a miss.
    PagerFault,
    /// The pager offers what it wants to the link.
    PagerFlush,
    /// The pager cancels such pages too, and lets the guest resume, or places a page.
    PagerDeliver,
    /// The pager asks for a page that is neither placed nor cancelled, or says that there is none.
    PagerTick,
}
