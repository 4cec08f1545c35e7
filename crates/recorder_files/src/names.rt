//! The record that a record names: one of its fields has the number of a record of some log. No record names two.

ghost use Rattle.std.specs.Prelude.{◌≡◌};
ghost use Rattle.recordings.specs.Wide.{wide_row};
ghost use Rattle.recorder_files.specs.Reaches.{named_first};

use migration_types::LogName;
use recordings::{Wide, WideGuest, WideLane, WideLink, WidePager, WideSource};

/// The number that a recorder returns if a record was not written.
pub const LOST: u64 = 4_294_967_295;

/// Returns what a record names.
#[inline(always)]
pub fn named_by(rec: &Wide) -> Option<(LogName, u64)>
    ensures { result ≡ named_first (wide_row rec.now).fields }
{
    match rec {
        Wide::Guest(WideGuest::Resume { ready }) => Some((LogName::Pager, *ready)),
        Wide::Guest(WideGuest::See { placement }) => Some((LogName::Pager, *placement)),
        Wide::Source(WideSource::Halted { halt }) => Some((LogName::Guest, *halt)),
        Wide::Source(WideSource::Again { sending }) => Some((LogName::Source, *sending)),
        Wide::Source(WideSource::Ask { up }) => Some((LogName::Link, *up)),
        Wide::Link(WideLink::Down { sending }) => Some((LogName::Source, *sending)),
        Wide::Link(WideLink::Up { asking }) => Some((LogName::Pager, *asking)),
        Wide::Lane(WideLane::Down { sending }) => Some((LogName::Source, *sending)),
        Wide::Pager(WidePager::Got { down }) => Some((LogName::Link, *down)),
        Wide::Pager(WidePager::Pull { down }) => Some((LogName::Lane, *down)),
        Wide::Pager(WidePager::Fault { miss }) => Some((LogName::Guest, *miss)),
        Wide::Pager(WidePager::Join { want }) => Some((LogName::Pager, *want)),
        Wide::Pager(WidePager::Place { got, .. }) => Some((LogName::Pager, *got)),
        Wide::Pager(WidePager::Skip { got }) => Some((LogName::Pager, *got)),
        _ => None,
    }
}
