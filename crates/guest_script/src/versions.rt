//! What the version decides in a script.

ghost use Rattle.std.specs.Prelude.{◌≡◌};
ghost use Rattle.guest_script.specs.Scripts.{script_header};

use crate::keys::{FIRST_SCRIPT, SECOND_SCRIPT};
use migration_types::Version;

/// Returns the first line.
pub fn script_header(version: Version) -> &'static [u8]
    ensures { result.now ≡ script_header version }
{
    match version {
        Version::One => FIRST_SCRIPT,
        Version::Two => SECOND_SCRIPT,
    }
}
