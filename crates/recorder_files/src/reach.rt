//! How far a log reaches, given what its records name.

ghost use Rattle.std.specs.Prelude.{◌≡◌, ℕ, ◌<◌, ◌^◌, [], ◌∷◌, ◌++◌, List, length, Option, OnOk, IfOk};
ghost use Rattle.migration_types.specs.Receipts.{Name};
ghost use Rattle.recorder_files.specs.Fronts.{cursors_of};
ghost use Rattle.recorder_files.specs.Reaches.{need, IsReach};
ghost use Rattle.recorder_files.specs.inner.Reaches.{reach};

use crate::fronts::Front;
use crate::steps::Steps;
use migration_types::LogName;
use std::alloc::{AllocError, Global};

/// What the records of a log need of each log.
#[derive(Drop)]
pub(crate) struct Reach {
    pub(crate) count: u64,
    pub(crate) guest: Steps,
    pub(crate) source: Steps,
    pub(crate) link: Steps,
    pub(crate) lane: Steps,
    pub(crate) pager: Steps,
}

/// Returns how many records of a log a record needs, given what it names.
#[inline(always)]
fn need(log: LogName, named: Option<(LogName, u64)>) -> Result<u64, AllocError>
    ensures { IfOk result (λ count. count ≡ need log named) }
{
    match named {
        Some((other, number)) if other == log => number.checked_add(1).ok_or(AllocError),
        _ => Ok(0),
    }
}

impl Reach {
    /// Returns the reach of no records, where this many are expected. Allocates no memory.
    pub(crate) fn new(alloc: Global, expected: u64) -> Self
        ensures { IsReach result [] }
    {
        let expected = usize::try_from(expected).unwrap_or(0);
        Reach {
            count: 0,
            guest: Steps::new(alloc, expected),
            source: Steps::new(alloc, expected),
            link: Steps::new(alloc, expected),
            lane: Steps::new(alloc, expected),
            pager: Steps::new(alloc, expected),
        }
    }

    /// Takes the next record, given what it names.
    #[inline(always)]
    pub(crate) fn note(&mut self, named: Option<(LogName, u64)>) -> Result<(), AllocError>
        ensures { (names : List (Option Name)) → IsReach self.old names → OnOk result (IsReach self.new (names ++ named ∷ [])) }
    {
        let place = self.count;
        let next = place.checked_add(1).ok_or(AllocError)?;
        self.guest.note(place, need(LogName::Guest, named)?)?;
        self.source.note(place, need(LogName::Source, named)?)?;
        self.link.note(place, need(LogName::Link, named)?)?;
        self.lane.note(place, need(LogName::Lane, named)?)?;
        self.pager.note(place, need(LogName::Pager, named)?)?;
        self.count = next;
        Ok(())
    }

    /// Returns how many records come before the first one that names a record outside the front.
    pub(crate) fn end(&self, there: Front) -> u64
        ensures { (names : List (Option Name)) → IsReach self.now names → result ≡ reach (cursors_of there) names }
    {
        let guest = self.guest.end(there.guest, self.count);
        let source = self.source.end(there.source, self.count);
        let link = self.link.end(there.link, self.count);
        let lane = self.lane.end(there.lane, self.count);
        let pager = self.pager.end(there.pager, self.count);
        guest.min(source).min(link).min(lane).min(pager)
    }
}
