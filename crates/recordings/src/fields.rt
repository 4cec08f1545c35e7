//! Fields that end a line.

ghost use Rattle.std.specs.Prelude.{◌≡◌, ◌≢◌, ◌<◌, ◌++◌, ℕ, IfSome, IfNone};
ghost use Rattle.std.specs.Fmt.{decimal};
ghost use Rattle.migration_types.specs.Sessions.{HasLane};
ghost use Rattle.recordings.specs.Recordings.{IsCount};

use crate::machine::BEYOND;
use migration_types::Version;
use text_lines::{after_key, number_last};

/// Returns the number below a bound that the text spells.
#[inline(always)]
pub(crate) fn number_whole(text: &[u8], bound: u64) -> Option<u64>
    requires { 0 < bound }
    ensures found { IfSome result (λ n. (n < bound) × (text.now ≡ decimal n)) }
    ensures none { IfNone result ((n : ℕ) → n < bound → text.now ≢ decimal n) }
{
    let Some((number, rest)) = number_last(text, bound - 1) else {
        return None;
    };
    if !rest.is_empty() {
        return None;
    }
    Some(number)
}

/// Returns the number below a bound that follows a key, if the text is these two.
#[inline(always)]
pub(crate) fn keyed_whole(text: &[u8], key: &[u8], bound: u64) -> Option<u64>
    requires { 0 < bound }
    ensures found { IfSome result (λ n. (n < bound) × (text.now ≡ key.now ++ decimal n)) }
    ensures none { IfNone result ((n : ℕ) → n < bound → text.now ≢ key.now ++ decimal n) }
{
    let Some(rest) = after_key(text, key) else {
        return None;
    };
    number_whole(rest, bound)
}

/// Returns the number of the lane's record that follows a key, if the text is these two. Only the second version has
/// it.
pub(crate) fn lane_number(version: Version, text: &[u8], key: &[u8]) -> Option<u64>
    ensures found { IfSome result (λ n. HasLane version × IsCount n × (text.now ≡ key.now ++ decimal n)) }
    ensures none { IfNone result ((n : ℕ) → HasLane version → IsCount n → text.now ≢ key.now ++ decimal n) }
{
    match version {
        Version::One => None,
        Version::Two => keyed_whole(text, key, BEYOND),
    }
}
