//! Where the guest is, according to its log.

/// Where the guest is.
#[derive(Clone, Copy, Debug, PartialEq, Eq)]
pub enum Home {
    /// At the source, before it is halted.
    AtSource,
    /// Between its halt and its resume.
    Nowhere,
    /// At the target, once it is resumed.
    AtTarget,
}
