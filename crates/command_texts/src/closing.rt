//! An output whose reader may close it.

ghost use Rattle.std.specs.Prelude.{◌≡◌, true, false, IfOk, length};
ghost use Rattle.std.specs.Io.KnownBytes.{Keeps, WriteAppends};
ghost use Rattle.std.specs.Io.{WritesAtMost};

use std::io;
use std::io::{ErrorKind, Write};

/// An output whose reader may close it, as the reader of a pipe does when it has read enough. From then on, what is
/// written is dropped, and that is no fault. Any other failure of the output is one.
#[derive(Drop)]
pub struct Closable<O> {
    output: O,
    is_closed: bool,
}

// Returns whether an error says that nobody reads the output any more.
fn is_gone(error: &io::Error) -> bool {
    error.kind() == ErrorKind::BrokenPipe
}

impl<O: Write> Closable<O> {
    /// Returns the output, as long as it has a reader.
    pub fn new(output: O) -> Self
        ensures output { result.output ≡ output }
        ensures open { result.is_closed ≡ false }
    {
        Closable {
            output,
            is_closed: false,
        }
    }
}

impl<O: Write> Write for Closable<O> {
    fn write(&mut self, buf: &[u8]) -> io::Result<usize>
        ensures bound { WritesAtMost result buf.now }
        ensures passed { self.new.is_closed ≡ false → WriteAppends (O.contents self.old.output) (O.contents self.new.output) result buf.now }
        ensures dropped { self.old.is_closed ≡ true → IfOk result (λ count. (count ≡ length buf.now) × (self.new ≡ self.old)) }
    {
        if self.is_closed {
            return Ok(buf.len());
        }
        match self.output.write(buf) {
            Err(error) if is_gone(&error) => {
                self.is_closed = true;
                Ok(buf.len())
            }
            written => written,
        }
    }

    fn flush(&mut self) -> io::Result<()>
        ensures passed { self.new.is_closed ≡ false → Keeps (O.contents self.old.output) (O.contents self.new.output) }
    {
        if self.is_closed {
            return Ok(());
        }
        match self.output.flush() {
            Err(error) if is_gone(&error) => {
                self.is_closed = true;
                Ok(())
            }
            flushed => flushed,
        }
    }
}
