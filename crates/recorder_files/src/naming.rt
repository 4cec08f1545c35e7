//! What the records of all logs name, and how far the logs reach because of it.

ghost use Rattle.std.specs.Prelude.{◌≡◌, ◌≤◌, List, [], ◌∷◌, ◌++◌, Option, IsTrue, ◌↔◌, min, OnOk};
ghost use Rattle.migration_types.specs.declared.records.LogName.{LogName as Log};
ghost use Rattle.migration_types.specs.Receipts.{Name};
ghost use Rattle.migration_types.specs.Sessions.{Recorded, log_length};
ghost use Rattle.recordings.specs.Seen.{with_record};
ghost use Rattle.recorder_files.specs.Fronts.{cursors_of, IsGreatestFront, IsGreatestFrontWithin};
ghost use Rattle.recorder_files.specs.Named.{IsBlank, IsNaming};
ghost use Rattle.recorder_files.specs.Reaches.{names_in};
ghost use Rattle.recorder_files.specs.inner.Reaches.{reach};

use crate::fronts::Front;
use crate::names::named_by;
use crate::reach::Reach;
use migration_types::LogName;
use recordings::Wide;
use std::alloc::{AllocError, Global};

/// A visitor that collects what the records of each log name. Takes memory only for records that name a later record of
/// a log than all before them.
#[derive(Drop)]
pub struct Naming {
    pub(crate) guest: Reach,
    pub(crate) source: Reach,
    pub(crate) link: Reach,
    pub(crate) lane: Reach,
    pub(crate) pager: Reach,
}

impl Naming {
    /// Returns a visitor that has met nothing. Allocates no memory.
    pub fn new(alloc: Global) -> Self
        ensures { IsBlank result }
    {
        let nothing = Front {
            guest: 0,
            source: 0,
            link: 0,
            lane: 0,
            pager: 0,
        };
        Naming::expecting(alloc, nothing)
    }

    /// Returns a visitor that has met nothing, and is expected to meet this many records of each log. It can meet more or
    /// fewer; where it meets about as many, it is faster. Allocates no memory.
    pub fn expecting(alloc: Global, counts: Front) -> Self
        ensures { IsBlank result }
    {
        Naming {
            guest: Reach::new(alloc, counts.guest),
            source: Reach::new(alloc, counts.source),
            link: Reach::new(alloc, counts.link),
            lane: Reach::new(alloc, counts.lane),
            pager: Reach::new(alloc, counts.pager),
        }
    }

    /// Takes the next record of a log.
    #[inline(always)]
    pub fn note(&mut self, rec: &Wide) -> Result<(), AllocError>
        ensures { (d : Recorded) → IsNaming self.old d → OnOk result (IsNaming self.new (with_record d rec.now)) }
    {
        let named = named_by(rec);
        match rec.log() {
            LogName::Guest => self.guest.note(named)?,
            LogName::Source => self.source.note(named)?,
            LogName::Link => self.link.note(named)?,
            LogName::Lane => self.lane.note(named)?,
            LogName::Pager => self.pager.note(named)?,
        }
        Ok(())
    }

    /// Returns how many records of each log it has met.
    pub fn counts(&self) -> Front
        ensures { (s : Recorded) → IsNaming self.now s → (log : Log) → cursors_of result log ≡ log_length s log }
    {
        Front {
            guest: self.guest.count,
            source: self.source.count,
            link: self.link.count,
            lane: self.lane.count,
            pager: self.pager.count,
        }
    }

    /// Cuts each log before its first record that names a record outside the front.
    fn narrow(&self, there: Front) -> Front
        ensures within { (log : Log) → cursors_of result log ≤ cursors_of there log }
        ensures reach { (s : Recorded) → IsNaming self.now s → (log : Log) → cursors_of result log ≡ min (cursors_of there log) (reach (cursors_of there) (names_in s log)) }
    {
        let guest = self.guest.end(there);
        let source = self.source.end(there);
        let link = self.link.end(there);
        let lane = self.lane.end(there);
        let pager = self.pager.end(there);
        Front {
            guest: guest.min(there.guest),
            source: source.min(there.source),
            link: link.min(there.link),
            lane: lane.min(there.lane),
            pager: pager.min(there.pager),
        }
    }

    /// Returns the greatest front of at most this many records of each log: the first records of each, none of which names
    /// a record outside them. Allocates no memory.
    pub fn front_within(&self, most: Front) -> Front
        ensures { (s : Recorded) → IsNaming self.now s → ((log : Log) → cursors_of most log ≤ log_length s log) → IsGreatestFrontWithin s (cursors_of most) (cursors_of result) }
    {
        let mut front = most;
        let mut next = self.narrow(front);
        while next != front {
            front = next;
            next = self.narrow(front);
        }
        front
    }

    /// Returns the greatest front of the logs that it has met: the first records of each log, none of which names a
    /// record outside them. Allocates no memory.
    pub fn greatest_front(&self) -> Front
        ensures { (s : Recorded) → IsNaming self.now s → IsGreatestFront s (cursors_of result) }
    {
        self.front_within(self.counts())
    }
}
