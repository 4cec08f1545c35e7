//! Texts, one after another in the caller's room.

ghost use Rattle.std.specs.Prelude.{◌≡◌, ◌+◌, ◌≤◌, [], ◌∷◌, ◌++◌, drop, length, take, OnOk};
ghost use Rattle.std.specs.List.{concat};
ghost use Rattle.postcopy_c.specs.Answers.{IsPut};
ghost use Rattle.postcopy_c.specs.Texts.{AreMeasured, texts_of};

use std::alloc::{AllocError, Global};

/// Texts, and their lengths.
#[derive(Drop)]
pub struct Texts {
    /// Each of them.
    pub each: Vec<Vec<u8>>,
    /// Where each ends, in bytes from the beginning of the first.
    pub ends: Vec<usize>,
    /// How many bytes they have together.
    pub whole: usize,
}

/// Writes a text to a room, from an offset on.
fn put_at(text: &[u8], room: &mut [u8], from: usize)
    requires { from + length text.now ≤ length room.old }
    ensures { room.new ≡ take from room.old ++ (text.now ++ drop (from + length text.now) room.old) }
{
    room[from..from + text.len()].copy_from_slice(text);
}

impl Texts {
    /// Returns no texts.
    pub(crate) fn new(alloc: Global) -> Self
        ensures none { texts_of result ≡ [] }
        ensures measured { AreMeasured result }
    {
        Texts {
            each: Vec::new(alloc),
            ends: Vec::new(alloc),
            whole: 0,
        }
    }

    /// Appends a text. After an error nothing is promised about the texts.
    pub(crate) fn push(&mut self, text: Vec<u8>) -> Result<(), AllocError>
        requires { AreMeasured self.old }
        ensures added { OnOk result (texts_of self.new ≡ texts_of self.old ++ text.items ∷ []) }
        ensures measured { OnOk result (AreMeasured self.new) }
    {
        let end = self.whole.checked_add(text.len()).ok_or(AllocError)?;
        self.each.push(text)?;
        self.ends.push(end)?;
        self.whole = end;
        Ok(())
    }

    /// Writes the texts to the front of a room that is long enough for them.
    fn put_all(&self, room: &mut [u8])
        requires { length (concat (texts_of self.now)) ≤ length room.old }
        ensures { room.new ≡ concat (texts_of self.now) ++ drop (length (concat (texts_of self.now))) room.old }
    {
        let mut end = 0;
        for text in &self.each {
            put_at(text, room, end);
            end += text.len();
        }
    }

    /// Writes the texts to the front of the room if they fit. Otherwise the room stays as it was.
    pub(crate) fn put(&self, room: &mut [u8])
        requires { AreMeasured self.now }
        ensures { IsPut (concat (texts_of self.now)) room.old room.new }
    {
        if self.whole <= room.len() {
            self.put_all(room);
        }
    }
}
