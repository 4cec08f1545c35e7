//! Whether a page was used at the target.

ghost use Rattle.std.specs.Prelude.{◌≡◌};
ghost use Rattle.std.specs.List.{list_any, position};
ghost use Rattle.audit_model.specs.Shape.{is_resume};
ghost use Rattle.completeness.specs.Uses.{is_use, tells_use};

use audit_model::is_resume;
use migration_types::{GuestRec, Session};

/// Returns whether it reads or writes a page.
fn is_use(rec: &GuestRec) -> bool
    ensures { result ≡ is_use rec.now }
{
    matches!(rec, GuestRec::Read { .. } | GuestRec::Write { .. })
}

/// Returns the number of the first resume.
fn first_resume(guest: &[GuestRec]) -> Option<usize>
    ensures { result ≡ position is_resume guest.now }
{
    guest.iter().position(is_resume)
}

/// Returns whether there is a use.
fn has_use(guest: &[GuestRec]) -> bool
    ensures { result ≡ list_any is_use guest.now }
{
    guest.iter().any(is_use)
}

/// Returns whether a session tells that the guest read or wrote a page after its resume. If not, its logs say little:
/// no order of them can fail by a use that came too early. Makes a pass over the guest's log up to that use.
pub fn tells_use(session: &Session) -> bool
    ensures { result ≡ tells_use session.now }
{
    let guest = session.guest();
    match first_resume(guest) {
        Some(resume) => has_use(&guest[resume..]),
        None => false,
    }
}
