//! Readers that can take lines back.

ghost use Rattle.std.specs.Prelude.{◌≡◌, ◌<◌, ◌≤◌, List, [], ◌∷◌, ◌++◌, ℕ, length, take};

use crate::LineReader;
use std::alloc::Global;

/// A reader that starts with no line, and can take lines back.
pub trait Rewind: LineReader {
    /// Returns a reader that has read no line. Allocates no memory.
    fn empty(alloc: Global) -> Self
        ensures { Self.held result ≡ [] };

    /// Returns how many lines were read.
    fn count(&self) -> u32
        ensures { result ≡ length (Self.held self.now) };

    /// Takes the last line back.
    fn undo(&mut self)
        requires { 0 < length (Self.held self.old) }
        ensures { (line : List ℕ) × (Self.held self.old ≡ Self.held self.new ++ line ∷ []) };
}

/// Takes back all lines after the first `lines`.
pub(crate) fn back_to<R: Rewind>(reader: &mut R, lines: u32)
    requires { lines ≤ length (R.held reader.old) }
    ensures { R.held reader.new ≡ take lines (R.held reader.old) }
{
    let count = reader.count();
    for _ in lines..count {
        reader.undo();
    }
}
