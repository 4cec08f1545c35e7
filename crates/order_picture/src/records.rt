//! Records by their names.

ghost use Rattle.std.specs.Prelude.{◌≡◌};
ghost use Rattle.order_picture.specs.Marks.{is_one};

use migration_types::{GuestRec, LogName, Session};
use session_story::Name;

/// Returns whether the name is this one, if there is one.
pub(crate) fn is_one(one: Option<Name>, name: Name) -> bool
    ensures { result ≡ is_one one name }
{
    match one {
        Some((log, place)) => log == name.0 && place == name.1,
        None => false,
    }
}

/// Returns the guest's record of this name, if it is one.
pub(crate) fn guest_record(session: &Session, name: Name) -> Option<GuestRec> {
    match name.0 {
        LogName::Guest => session.guest().get(name.1 as usize).copied(),
        _ => None,
    }
}
