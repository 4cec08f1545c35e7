//! The headers of a session's text, and the words that lines with numbers and those of initial pages begin with.

pub(crate) const FIRST_HEADER: &[u8] = b"postcopy-session 1";

pub(crate) const SECOND_HEADER: &[u8] = b"postcopy-session 2";

pub(crate) const THIRD_HEADER: &[u8] = b"postcopy-session 3";

/// The beginning of the line with the number of pages.
pub const PAGES_KEY: &[u8] = b"pages ";

/// The beginning of the line with the number of cells.
pub const CELLS_KEY: &[u8] = b"cells ";

/// The beginning of the line with the number of initial pages.
pub const INIT_KEY: &[u8] = b"init ";

/// The beginning of the line of an initial page.
pub(crate) const PAGE_KEY: &[u8] = b"page ";

/// The beginning of the line with the number of the guest's records.
pub const GUEST_KEY: &[u8] = b"guest ";

/// The beginning of the line with the number of the source's records.
pub const SOURCE_KEY: &[u8] = b"source ";

/// The beginning of the line with the number of the link's records.
pub const LINK_KEY: &[u8] = b"link ";

/// The beginning of the line with the number of the lane's records.
pub const LANE_KEY: &[u8] = b"lane ";

/// The beginning of the line with the number of the pager's records.
pub const PAGER_KEY: &[u8] = b"pager ";
