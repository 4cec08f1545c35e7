//! A place among the messages that were noted.

ghost use Rattle.std.specs.Prelude.{◌≡◌, ◌↔◌, IfErr, IfOk, IsTrue, length, slice_get};
ghost use Rattle.walked_sessions.specs.inner.Passing.{IsNotNext, IsOver, Passes, number_or_lost};

use recorder_files::{Delivered, LOST, Message, TakeRefusal};

/// Returns whether two messages are the same.
fn is_same(one: Message, other: Message) -> bool
    ensures { IsTrue result ↔ (one ≡ other) }
{
    match one {
        Message::Down { sent, taken } => match other {
            Message::Down {
                sent: other_sent,
                taken: other_taken,
            } => sent == other_sent && taken == other_taken,
            Message::Up { .. } => false,
        },
        Message::Up { sent, taken } => match other {
            Message::Up {
                sent: other_sent,
                taken: other_taken,
            } => sent == other_sent && taken == other_taken,
            Message::Down { .. } => false,
        },
    }
}

/// The messages of the link or of the lane in the order of the records that take them, the number of each among the deliveries, and
/// the place of the next message.
#[derive(Clone, Copy)]
pub(crate) struct Cursor<'a> {
    pub(crate) messages: &'a [Message],
    pub(crate) numbers: &'a [Option<u64>],
    pub(crate) place: usize,
}

impl<'a> Cursor<'a> {
    /// Returns a cursor at a place among the messages of the link.
    pub(crate) fn of_link(messages: &'a Delivered, place: usize) -> Cursor<'a>
        ensures { IsOver result messages.now.link_messages.items messages.now.link.numbers.items place }
    {
        Cursor {
            messages: messages.link_messages.as_slice(),
            numbers: messages.link.numbers.as_slice(),
            place,
        }
    }

    /// Returns a cursor at the first message of the lane.
    pub(crate) fn of_lane(messages: &'a Delivered) -> Cursor<'a>
        ensures { IsOver result messages.now.lane_messages.items messages.now.lane.numbers.items 0 }
    {
        Cursor {
            messages: messages.lane_messages.as_slice(),
            numbers: messages.lane.numbers.as_slice(),
            place: 0,
        }
    }

    /// Returns the number at the place, or `LOST` if it has none.
    fn number(&self) -> u64
        ensures { result ≡ number_or_lost (slice_get self.now.numbers.now self.now.place) }
    {
        match self.numbers.get(self.place) {
            Some(Some(number)) => *number,
            _ => LOST,
        }
    }

    /// Returns the message at the place, if there is one.
    fn next(&self) -> Option<Message>
        ensures { result ≡ slice_get self.now.messages.now self.now.place }
    {
        match self.messages.get(self.place) {
            Some(message) => Some(*message),
            None => None,
        }
    }

    /// Passes the message that a record takes, if it takes one, and returns the message's number. The message must be the next one.
    pub(crate) fn pass(&mut self, message: Option<Message>) -> Result<u64, TakeRefusal>
        ensures passed { IfOk result (Passes self.old self.new message) }
        ensures unfit { IfErr result (λ refusal. IsNotNext self.old message) }
    {
        match message {
            Some(message) => {
                let Some(next) = self.next() else {
                    return Err(TakeRefusal::Unfit);
                };
                if !is_same(next, message) {
                    return Err(TakeRefusal::Unfit);
                }
                let number = self.number();
                self.place += 1;
                Ok(number)
            }
            None => Ok(LOST),
        }
    }

    /// Returns whether all messages were passed.
    pub(crate) fn is_at_end(&self) -> bool
        ensures { IsTrue result ↔ (self.now.place ≡ length self.now.messages.now) }
    {
        self.place == self.messages.len()
    }
}
