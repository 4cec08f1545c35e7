//! Where the guest is along its log.

ghost use Rattle.std.specs.Prelude.{◌≡◌, ◌≤◌, length};
ghost use Rattle.audit_model.specs.Flat.{halt_place};

use audit_model::is_halt;
use migration_types::GuestRec;

/// Returns the place of the first `halt`, or the log's length if there is none.
pub fn halt_place(guest: &[GuestRec]) -> usize
    ensures place { result ≡ halt_place guest.now }
    ensures within { result ≤ length guest.now }
{
    for n in 0..guest.len() {
        if is_halt(&guest[n]) {
            return n;
        }
    }
    guest.len()
}
