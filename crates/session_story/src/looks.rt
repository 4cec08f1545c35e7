//! The look of the guest that reaches furthest.

ghost use Rattle.std.specs.Prelude.{◌≡◌, ◌≤◌, MatchOption, length};
ghost use Rattle.migration_types.specs.Sessions.{IsSession};
ghost use Rattle.session_story.specs.Giving.{is_unseen};
ghost use Rattle.session_story.specs.Looks.{HasNoLook, IsGreatestLook};
ghost use Rattle.session_story.specs.inner.Questions.{looked};

use migration_types::{GuestRec, Session};

/// A look of the guest at a placement.
#[derive(Clone, Copy)]
pub struct Look {
    /// The number of the guest's record that is the look.
    pub place: u32,
    /// The number of the pager's record that it looks at.
    pub placement: u32,
}

/// Returns the look that reaches furthest, after this record of the guest.
fn looked(rec: &GuestRec, n: u32, best: Option<Look>) -> Option<Look>
    ensures { result ≡ looked n rec.now best }
{
    let GuestRec::See { placement } = *rec else {
        return best;
    };
    let new = Look {
        place: n,
        placement,
    };
    match best {
        None => Some(new),
        Some(old) => {
            if old.placement < placement {
                Some(new)
            } else {
                Some(old)
            }
        }
    }
}

/// Returns the look before this record of the guest that reaches furthest, the first if there are several, or `None` if
/// there is no look. Allocates no memory.
pub fn greatest_look(session: &Session, to: usize) -> Option<Look>
    requires { to ≤ length session.now.guest }
    ensures { MatchOption result (HasNoLook session.now to) (IsGreatestLook session.now to) }
{
    session.keeps_limits();
    let guest = session.guest();
    let mut best = None;
    for n in 0..to {
        best = looked(&guest[n], n as u32, best);
    }
    best
}

/// Returns whether this record of the pager is behind all that a look reaches, if there is one.
pub fn is_unseen(look: Option<Look>, place: u32) -> bool
    ensures { result ≡ is_unseen look place }
{
    match look {
        Some(look) => look.placement < place,
        None => true,
    }
}
