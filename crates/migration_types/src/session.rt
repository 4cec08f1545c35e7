//! Recorded sessions.

ghost use Rattle.std.specs.Prelude.{◌≡◌, ◌≤◌, slice_get};
ghost use Rattle.std.specs.Option.{option_map};
ghost use Rattle.migration_types.specs.Limits.{longest_log};
ghost use Rattle.migration_types.specs.Names.{receipt};
ghost use Rattle.migration_types.specs.Rows.{row_of};
ghost use Rattle.migration_types.specs.Sessions.{recorded, log_length, IsSession};

use crate::geometry::Geometry;
use crate::laws::receipts_follow;
use crate::pages::InitPage;
use crate::records::{GuestRec, LaneRec, LinkRec, LogName, PagerRec, Record, SourceRec};
use crate::rows::Row;
use crate::seq::Seq;
use crate::version::Version;
use std::marker::Model;

/// The logs of the parties. In the first version, the lane's log is empty.
#[derive(Drop)]
pub struct Logs {
    pub guest: Seq<GuestRec>,
    pub source: Seq<SourceRec>,
    pub link: Seq<LinkRec>,
    pub lane: Seq<LaneRec>,
    pub pager: Seq<PagerRec>,
}

/// A recorded session of one of the versions, within all limits: a machine, the pages that do not begin as zeros, and
/// the logs of the guest, the source, the link, the lane and the pager.
#[derive(Drop)]
pub struct Session {
    version: Version,
    geometry: Geometry,
    init: Seq<InitPage>,
    logs: Logs,
}

impl Model for Session {
    ghost use Rattle.migration_types.specs.Sessions.{Recorded, recorded, IsSession};

    ghost Value = { Recorded };

    ghost view = { λ a. recorded a.version a.geometry a.init a.logs };

    ghost invariant = { λ a. IsSession (recorded a.version a.geometry a.init a.logs) };
}

/// Returns the row of the record at a place.
fn row_in<R: Record>(records: &[R], place: u32) -> Option<Row>
    ensures { result ≡ option_map R.consists (slice_get records.now place) }
{
    match records.get(place as usize) {
        Some(rec) => Some(rec.row()),
        None => None,
    }
}

impl Session {
    /// Returns the session with these parts. Allocates no memory.
    pub fn new(version: Version, geometry: Geometry, init: Seq<InitPage>, logs: Logs) -> Self
        requires { IsSession (recorded version geometry init logs) }
        ensures { result ≡ recorded version geometry init logs }
    {
        Session {
            version,
            geometry,
            init,
            logs,
        }
    }

    /// Returns the version of its text.
    pub fn version(&self) -> Version
        ensures { result ≡ self.now.version }
    {
        self.version
    }

    /// Returns the machine's geometry.
    pub fn geometry(&self) -> Geometry
        ensures { result ≡ self.now.geometry }
    {
        self.geometry
    }

    /// Returns the pages that do not begin as zeros, in rising order.
    pub fn init(&self) -> &[InitPage]
        ensures { result.now ≡ self.now.init }
    {
        self.init.as_slice()
    }

    /// Returns the guest's log.
    pub fn guest(&self) -> &[GuestRec]
        ensures { result.now ≡ self.now.guest }
    {
        self.logs.guest.as_slice()
    }

    /// Returns the source's log.
    pub fn source(&self) -> &[SourceRec]
        ensures { result.now ≡ self.now.source }
    {
        self.logs.source.as_slice()
    }

    /// Returns the link's log.
    pub fn link(&self) -> &[LinkRec]
        ensures { result.now ≡ self.now.link }
    {
        self.logs.link.as_slice()
    }

    /// Returns the lane's log.
    pub fn lane(&self) -> &[LaneRec]
        ensures { result.now ≡ self.now.lane }
    {
        self.logs.lane.as_slice()
    }

    /// Returns the pager's log.
    pub fn pager(&self) -> &[PagerRec]
        ensures { result.now ≡ self.now.pager }
    {
        self.logs.pager.as_slice()
    }

    /// Returns how many records a log has.
    pub fn len(&self, log: LogName) -> usize
        ensures value { result ≡ log_length self.now log }
        ensures few { result ≤ longest_log }
    {
        self.keeps_limits();
        match log {
            LogName::Guest => self.guest().len(),
            LogName::Source => self.source().len(),
            LogName::Link => self.link().len(),
            LogName::Lane => self.lane().len(),
            LogName::Pager => self.pager().len(),
        }
    }

    /// Returns what the record with this name consists of, except its contents, if there is such a record. Allocates no
    /// memory.
    pub fn row(&self, name: (LogName, u32)) -> Option<Row>
        ensures { result ≡ row_of self.now name }
    {
        let (log, place) = name;
        match log {
            LogName::Guest => row_in(self.guest(), place),
            LogName::Source => row_in(self.source(), place),
            LogName::Link => row_in(self.link(), place),
            LogName::Lane => row_in(self.lane(), place),
            LogName::Pager => row_in(self.pager(), place),
        }
    }

    /// Returns the record of another log that the record with this name is a receipt for. Allocates no memory.
    pub fn named(&self, name: (LogName, u32)) -> Option<(LogName, u32)>
        ensures { result ≡ receipt self.now name }
    {
        receipts_follow();
        match self.row(name) {
            Some(row) => row.receipt(name.0),
            None => None,
        }
    }

    /// States that it is within all limits.
    pub fn keeps_limits(&self)
        ensures { IsSession self.now }
    {
        let _init = &self.init;
    }
}
