//! The lines of a session's text, by kind.

/// The kind of line that comes next.
#[derive(Clone, Copy, PartialEq, Eq)]
pub enum Stage {
    /// The header.
    Header,
    /// The number of pages.
    Pages,
    /// The number of cells.
    Cells,
    /// The number of pages that do not begin as zeros.
    InitCount,
    /// One of these pages, or after the last the number of the guest's records.
    Init,
    /// A record of the guest, or after the last the number of the source's records.
    Guest,
    /// A record of the source, or after the last the number of the link's records.
    Source,
    /// A record of the link, or after the last the number of the pager's records; in the second version, that of the
    /// lane's records.
    Link,
    /// A record of the lane, or after the last the number of the pager's records.
    Lane,
    /// A record of the pager, or after the last the closing line.
    Pager,
    /// No line.
    Done,
}
