//! Why a window could not be cut.

/// Why a window could not be cut. `F` is why a recording is not gone through.
#[derive(Drop)]
pub enum CutFault<F> {
    /// The recording was not gone through.
    Recording(F),
    /// The window has no page, or one that the machine does not have.
    Outside,
    /// The recording changed between two passes over it.
    Changed,
    /// Memory ran out.
    Memory,
}
