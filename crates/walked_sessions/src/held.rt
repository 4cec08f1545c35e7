//! A visitor that holds the recording that it meets.

ghost use Rattle.std.specs.Prelude.{◌≡◌, IfOk, MatchOption, OnOk, map};
ghost use Rattle.migration_types.specs.Sessions.{IsSession, Recorded};
ghost use Rattle.recordings.specs.Seen.{nothing_of, with_init};
ghost use Rattle.recordings.specs.Wide.{extent_of, init_of};
ghost use Rattle.walked_sessions.specs.Held.{HasMet, IsEmpty, IsHeld, IsKeptIn};
ghost use Rattle.walked_sessions.specs.Made.{session_of};
ghost use Rattle.walked_sessions.specs.inner.Fitting.{in_form, with_pages};
ghost use Rattle.walked_sessions.specs.inner.Kept.{IsLargest};

use crate::kept::Kept;
use crate::room::Room;
use migration_types::{Geometry, Session, Size, Version};
use recordings::{Visitor, Wide, WideInit, WideMachine};
use std::alloc::{AllocError, Global};

/// A visitor that holds the recording that it meets, as long as a session has room for it: one of some version and size,
/// of a machine of as many pages and cells. Once there is no such session, it lets go of what it held, and holds nothing
/// from then on.
#[derive(Drop)]
pub struct HeldRecording {
    alloc: Global,
    room: Room,
    kept: Option<Kept>,
}

/// Returns the machine as one of the large size, if there is one of any size.
fn large(machine: &WideMachine) -> Option<Geometry>
    ensures { IsLargest (extent_of machine.now) result }
{
    if machine.pages > u64::from(Size::Large.limits().pages) {
        return None;
    }
    match Geometry::with_size(Size::Large, machine.pages as u32, machine.cells) {
        Ok(geometry) => Some(geometry),
        Err(_) => None,
    }
}

/// Returns the machine, with no pages and no records, if a session has such a machine.
fn begun(alloc: Global, machine: &WideMachine, room: Room) -> Result<Option<Kept>, AllocError>
    ensures { IfOk result (λ kept. IsKeptIn kept (nothing_of machine.now.version (extent_of machine.now))) }
{
    let Some(geometry) = large(machine) else {
        return Ok(None);
    };
    Ok(Some(Kept::new(alloc, geometry, room)?))
}

/// Returns what is kept as a session of a version and a size, if it is within their limits. Allocates no memory.
fn session_in(kept: Option<Kept>, version: Version, size: Size) -> Option<Session>
    requires { (d : Recorded) × IsKeptIn kept d }
    ensures { (d : Recorded) → IsKeptIn kept d → MatchOption result (IsSession (in_form version size d) → ⊥) (λ session. session ≡ in_form version size d) }
{
    match kept {
        Some(kept) => kept.into_session(version, size),
        None => None,
    }
}

impl HeldRecording {
    /// Returns a visitor that has met nothing. Allocates no memory. Once it meets the machine, it takes memory for as many records as
    /// `room` says, and more where there are more.
    pub fn new(alloc: Global, room: Room) -> Self
        ensures { IsEmpty result }
    {
        HeldRecording {
            alloc,
            room,
            kept: None,
        }
    }

    /// Holds one more initial page, after those so far.
    fn hold_init(&mut self, page: WideInit) -> Result<(), AllocError>
        ensures { (d : Recorded) → IsHeld self.old d → OnOk result (IsHeld self.new (with_init d (init_of page))) }
    {
        let Some(kept) = &mut self.kept else {
            return Ok(());
        };
        if !kept.init.take(kept.machine, page)? {
            self.kept = None;
        }
        Ok(())
    }

    /// Takes memory for so many initial pages more, where it holds something.
    fn make_room(&mut self, pages: usize) -> Result<(), AllocError>
        ensures { (d : Recorded) → IsHeld self.old d → OnOk result (IsHeld self.new d) }
    {
        let Some(kept) = &mut self.kept else {
            return Ok(());
        };
        kept.make_room(pages)?;
        Ok(())
    }

    /// Holds more initial pages, after those so far.
    fn hold_pages(&mut self, init: Vec<WideInit>) -> Result<(), AllocError>
        ensures { (d : Recorded) → IsHeld self.old d → OnOk result (IsHeld self.new (with_pages (map init_of init.items) d)) }
    {
        for page in init {
            self.hold_init(page)?;
        }
        Ok(())
    }

    /// Returns the session, of this version and size, that the recording which it has met is with these initial pages
    /// after its own. None if that is no session. Allocates memory for the pages alone, and fails only if that runs out.
    pub fn into_session(
        self,
        version: Version,
        size: Size,
        init: Vec<WideInit>,
    ) -> Result<Option<Session>, AllocError>
        requires { HasMet self }
        ensures { IfOk result (λ made. (d : Recorded) → IsHeld self d → MatchOption made (IsSession (session_of version size (map init_of init.items) d) → ⊥) (λ session. session ≡ session_of version size (map init_of init.items) d)) }
    {
        let mut held = self;
        held.make_room(init.len())?;
        held.hold_pages(init)?;
        Ok(session_in(held.kept, version, size))
    }
}

impl Visitor for HeldRecording {
    ghost use Rattle.walked_sessions.specs.Held.{IsEmpty, IsHeld};

    ghost IsNew = { IsEmpty };

    ghost Met = { IsHeld };

    fn machine(&mut self, machine: &WideMachine) -> Result<(), AllocError> {
        self.kept = begun(self.alloc, machine, self.room)?;
        Ok(())
    }

    fn init(&mut self, page: WideInit) -> Result<(), AllocError> {
        self.hold_init(page)
    }

    #[inline(always)]
    fn record(&mut self, _number: u64, rec: Wide) -> Result<(), AllocError> {
        let Some(kept) = &mut self.kept else {
            return Ok(());
        };
        if !kept.take(rec)? {
            self.kept = None;
        }
        Ok(())
    }
}
