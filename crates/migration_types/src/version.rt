//! The versions of sessions, certificates and scripts.

ghost use Rattle.std.specs.Prelude.{◌≡◌, ◌<◌, ◌^◌};
ghost use Rattle.migration_types.specs.Sessions.{lane_lines};

/// A version, given by the first line of a text, which sets the kinds of records and entries that the text may have. In
/// the second version, a guest may release pages at the target, a lane may carry packets beside the link, and a
/// certificate may say that such a release of a page came before the page did. Texts of the third version have these
/// too, and differ in their [`Size`](crate::Size).
#[derive(Clone, Copy, Debug, PartialEq, Eq)]
pub enum Version {
    One,
    Two,
}

/// Returns how many lines the text of a session of a version has for a lane of `count` records.
pub fn lane_lines(version: Version, count: u32) -> u32
    requires { count < 2 ^ 31 }
    ensures { result ≡ lane_lines version count }
{
    match version {
        Version::One => 0,
        Version::Two => 1 + count,
    }
}
