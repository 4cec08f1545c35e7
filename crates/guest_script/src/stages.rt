//! The stages of a reader of scripts.

/// The kind of line that comes next.
#[derive(Clone, Copy, Debug, PartialEq, Eq)]
pub enum ScriptStage {
    /// The header.
    Header,
    /// The number of pages.
    Pages,
    /// The number of cells.
    Cells,
    /// The number of pages that do not begin as zeros.
    InitCount,
    /// One of these pages, or after the last the number of pivots.
    Init,
    /// The window.
    Window,
    /// The delivery outcomes on the way down.
    Down,
    /// The delivery outcomes on the way up.
    Up,
    /// The number of links that carry packets down, in the second version.
    Lanes,
    /// The delivery outcomes on the way over the lane, if there is one.
    Lane,
    /// The number of virtual processors.
    Count,
    /// The first virtual processor.
    First,
    /// An operation; after the last one of a virtual processor, the next virtual processor or the closing line.
    Ops,
    /// No line.
    Done,
}
