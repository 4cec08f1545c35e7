//! What the commands work with.

use std::alloc::Global;

/// What the commands work with: threads, memory, texts under names, the input, and two outputs. The input and the
/// outputs are values here. A caller can pass a `&mut`.
#[derive(Drop)]
pub struct Console<'a, R, S, I, O, E> {
    /// Starts and joins threads.
    pub rt: &'a R,
    pub alloc: Global,
    /// The texts under their names.
    pub texts: &'a S,
    /// The text under the name `-`.
    pub input: I,
    /// Receives the answers.
    pub output: O,
    /// Receives the faults, and why texts are refused.
    pub errors: E,
}
