//! What is kept of a recording.

ghost use Rattle.std.specs.Prelude.{◌≡◌, ◌↔◌, IfOk, IsTrue, MatchBool, MatchOption, OnOk};
ghost use Rattle.migration_types.specs.Extents.{Extent};
ghost use Rattle.migration_types.specs.Sessions.{IsSession, Recorded};
ghost use Rattle.migration_types.specs.declared.size.Size.TheVariants.{Large};
ghost use Rattle.migration_types.specs.declared.version.Version.{Version as Of};
ghost use Rattle.recordings.specs.Seen.{nothing_of, with_record};
ghost use Rattle.walked_sessions.specs.Made.{sized};
ghost use Rattle.walked_sessions.specs.Fitting.{Fits};
ghost use Rattle.walked_sessions.specs.inner.Fitting.{in_form};
ghost use Rattle.walked_sessions.specs.Kept.{IsKept};
ghost use Rattle.walked_sessions.specs.inner.Kept.{IsWithin};
ghost use Rattle.walked_sessions.specs.Needs.{IsNever};

use crate::init::HeldInit;
use crate::logs::HeldLog;
use crate::room::Room;
use migration_types::{
    Geometry, GuestRec, LaneRec, LinkRec, Logs, PagerRec, Session, Size, SourceRec, Version,
};
use recordings::Wide;
use std::alloc::{AllocError, Global};

/// A recording that a session has room for: its machine, as one of the large size, its initial pages and its logs.
#[derive(Drop)]
pub(crate) struct Kept {
    pub(crate) machine: Geometry,
    pub(crate) init: HeldInit,
    pub(crate) guest: HeldLog<GuestRec>,
    pub(crate) source: HeldLog<SourceRec>,
    pub(crate) link: HeldLog<LinkRec>,
    pub(crate) lane: HeldLog<LaneRec>,
    pub(crate) pager: HeldLog<PagerRec>,
}

impl Kept {
    /// Returns a machine, with no pages and no records, and with room for so many records.
    pub(crate) fn new(alloc: Global, machine: Geometry, room: Room) -> Result<Self, AllocError>
        ensures { IfOk result (λ kept. (version : Of) (e : Extent) → machine ≡ sized Large e → IsKept kept (nothing_of version e)) }
    {
        Ok(Kept {
            machine,
            init: HeldInit::new(alloc),
            guest: HeldLog::new(alloc, room.guest)?,
            source: HeldLog::new(alloc, room.source)?,
            link: HeldLog::new(alloc, room.link)?,
            lane: HeldLog::new(alloc, room.lane)?,
            pager: HeldLog::new(alloc, room.pager)?,
        })
    }

    /// Takes memory for so many initial pages more.
    pub(crate) fn make_room(&mut self, pages: usize) -> Result<(), AllocError>
        ensures { (d : Recorded) → IsKept self.old d → OnOk result (IsKept self.new d) }
    {
        self.init.make_room(pages)?;
        Ok(())
    }

    /// Takes the next record, and returns whether a session may have it behind those before.
    #[inline(always)]
    pub(crate) fn take(&mut self, rec: Wide) -> Result<bool, AllocError>
        ensures { IfOk result (λ taken. (d : Recorded) → IsKept self.old d → MatchBool taken (IsKept self.new (with_record d rec)) (IsNever (Fits (with_record d rec)))) }
    {
        let machine = self.machine;
        match rec {
            Wide::Guest(rec) => self.guest.take(machine, rec),
            Wide::Source(rec) => self.source.take(machine, rec),
            Wide::Link(rec) => self.link.take(machine, rec),
            Wide::Lane(rec) => self.lane.take(machine, rec),
            Wide::Pager(rec) => self.pager.take(machine, rec),
        }
    }

    /// Returns whether each log is within the limits of a version and a size.
    fn fits(&self, version: Version, size: Size) -> bool
        ensures { IsTrue result ↔ (IsWithin self.now.guest version size × IsWithin self.now.source version size × IsWithin self.now.link version size × IsWithin self.now.lane version size × IsWithin self.now.pager version size) }
    {
        self.guest.fits(version, size)
            && self.source.fits(version, size)
            && self.link.fits(version, size)
            && self.lane.fits(version, size)
            && self.pager.fits(version, size)
    }

    /// Returns the machine, with this size, if the recording is within the limits of a version and the size.
    fn machine_in(&self, version: Version, size: Size) -> Option<Geometry>
        ensures { (d : Recorded) → IsKept self.now d → MatchOption result (Fits d version size → ⊥) (λ machine. (machine ≡ sized size d.geometry) × Fits d version size) }
    {
        if !size.is_in(version) {
            return None;
        }
        let Ok(machine) = Geometry::with_size(size, self.machine.pages(), self.machine.cells())
        else {
            return None;
        };
        if self.fits(version, size) {
            Some(machine)
        } else {
            None
        }
    }

    /// Returns the recording as a session of a version and a size, if it is within their limits. Allocates no memory.
    pub(crate) fn into_session(self, version: Version, size: Size) -> Option<Session>
        requires { (d : Recorded) × IsKept self d }
        ensures { (d : Recorded) → IsKept self d → MatchOption result (IsSession (in_form version size d) → ⊥) (λ session. session ≡ in_form version size d) }
    {
        let Some(machine) = self.machine_in(version, size) else {
            drop(self);
            return None;
        };
        let logs = Logs {
            guest: self.guest.into_records(),
            source: self.source.into_records(),
            link: self.link.into_records(),
            lane: self.lane.into_records(),
            pager: self.pager.into_records(),
        };
        Some(Session::new(version, machine, self.init.into_pages(), logs))
    }
}
