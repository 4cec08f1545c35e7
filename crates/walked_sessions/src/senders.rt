//! The records of the pager and of the source that name the senders of the messages that they take.

use migration_types::LogName;
use recorder_files::{Message, Onlooker, Party};
use std::alloc::{AllocError, Global};
use text_lines::read_keyed;

/// The messages that records of the pager and of the source take by naming their senders, as they were seen. Other records are
/// not read: whether they are records is found when the logs are walked, and so is whether these are all messages.
#[derive(Drop)]
pub struct Senders {
    pub(crate) packets: Vec<Message>,
    pub(crate) pulls: Vec<Message>,
    pub(crate) requests: Vec<Message>,
}

impl Senders {
    /// Returns the senders of which none was seen.
    pub fn new(alloc: Global) -> Self {
        Senders {
            packets: Vec::new(alloc),
            pulls: Vec::new(alloc),
            requests: Vec::new(alloc),
        }
    }

    /// Returns how many messages of the link were seen.
    pub fn link(&self) -> usize {
        self.packets.len().saturating_add(self.requests.len())
    }

    /// Returns how many messages of the lane were seen.
    pub fn lane(&self) -> usize {
        self.pulls.len()
    }
}

/// Returns the number of the record that a text names as a sender, behind this key. Most other texts differ from the key in its
/// last byte but one, which is compared first.
#[inline(always)]
fn sender(text: &[u8], key: &[u8]) -> Option<u64> {
    let near = key.len().checked_sub(2)?;
    if text.get(near) != key.get(near) {
        return None;
    }
    match read_keyed(text, key, u32::MAX) {
        Ok(number) => Some(u64::from(number)),
        Err(_) => None,
    }
}

impl Onlooker for Senders {
    #[inline(always)]
    fn see(&mut self, party: Party, number: u64, text: &[u8]) -> Result<(), AllocError> {
        let taken = number;
        match party {
            Party::Of(LogName::Pager) => {
                if let Some(sent) = sender(text, b"got-sent ") {
                    self.packets.push(Message::Down { sent, taken })?;
                } else if let Some(sent) = sender(text, b"pull-sent ") {
                    self.pulls.push(Message::Down { sent, taken })?;
                }
            }
            Party::Of(LogName::Source) => {
                if let Some(sent) = sender(text, b"ask-sent ") {
                    self.requests.push(Message::Up { sent, taken })?;
                }
            }
            _ => {}
        }
        Ok(())
    }
}

/// Returns the number of the record that takes a message.
fn taken(message: &Message) -> u64 {
    match message {
        Message::Down { taken, .. } | Message::Up { taken, .. } => *taken,
    }
}

/// Returns messages in the order of the records that take them.
pub(crate) fn in_order(messages: Vec<Message>) -> Result<Vec<Message>, AllocError> {
    let mut messages = messages;
    messages.sort_by_key(taken)?;
    Ok(messages)
}
