//! Why the text of a recording is not written.

use text_access::Cause;

/// Why the text of a recording is not written. `F` is why a recording is not gone through.
#[derive(Drop)]
pub enum WriteFault<F> {
    /// The recording was not gone through.
    Recording(F),
    /// Not all bytes were written.
    Output(Cause),
    /// The recording has fewer records in a log than the front has, or another number of initial pages than was said.
    Changed,
    /// Memory ran out.
    Memory,
}

/// Why a text does not go on.
#[derive(Clone, Copy)]
pub(crate) enum PushFault {
    /// Not all bytes were written.
    Output(Cause),
    /// A line is too many, or a line is missing.
    Changed,
    /// Memory ran out.
    Memory,
}
