//! The first line of a session's text, which tells its version and its size.

ghost use Rattle.std.specs.Prelude.{◌≡◌, ◌≢◌, IfSome, IfNone};
ghost use Rattle.migration_types.specs.declared.version.Version.{Version as Of};
ghost use Rattle.migration_types.specs.declared.size.Size.{Size as Limited};
ghost use Rattle.migration_types.specs.Limits.{HasSize};
ghost use Rattle.session_grammar.specs.Grammar.{header};

use crate::keys::{FIRST_HEADER, SECOND_HEADER, THIRD_HEADER};
use migration_types::{Size, Version};
use text_lines::is_line;

/// Returns the first line of the text of a session of this version and size. It is empty for the first version with the
/// large size, which no session has.
pub fn session_header(version: Version, size: Size) -> &'static [u8]
    ensures { result.now ≡ header version size }
{
    match (version, size) {
        (Version::One, Size::Small) => FIRST_HEADER,
        (Version::One, Size::Large) => b"",
        (Version::Two, Size::Small) => SECOND_HEADER,
        (Version::Two, Size::Large) => THIRD_HEADER,
    }
}

/// Returns the version and the size whose sessions have this first line.
#[tactic(auto, using(crate::proofs::ByVersion::no_header))]
pub fn read_header(line: &[u8]) -> Option<(Version, Size)>
    ensures found { IfSome result (λ told. HasSize told.0 told.1 × (line.now ≡ header told.0 told.1)) }
    ensures none { IfNone result ((version : Of) (size : Limited) → HasSize version size → line.now ≢ header version size) }
{
    if is_line(line, FIRST_HEADER) {
        return Some((Version::One, Size::Small));
    }
    if is_line(line, SECOND_HEADER) {
        return Some((Version::Two, Size::Small));
    }
    if is_line(line, THIRD_HEADER) {
        return Some((Version::Two, Size::Large));
    }
    None
}
