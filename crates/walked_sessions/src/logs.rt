//! A log that is held, record by record.

ghost use Rattle.std.specs.Prelude.{◌≡◌, ◌++◌, ◌∷◌, [], ◌↔◌, IsTrue, IfOk, List, MatchBool};
ghost use Rattle.walked_sessions.specs.Kept.{IsLog};
ghost use Rattle.walked_sessions.specs.inner.Kept.{IsNoLog, IsNoneYet, IsWithin};

use crate::needs::Needs;
use crate::records::WideRecord;
use crate::room::room_within;
use migration_types::{Geometry, Seq, Size, Version};
use std::alloc::{AllocError, Global};

/// The records of a log, and what they need.
#[derive(Drop)]
pub(crate) struct HeldLog<R> {
    items: Vec<R>,
    needs: Needs,
}

impl<R: Drop> HeldLog<R> {
    /// Returns a log of no records, with room for so many, as far as a session may have them.
    pub(crate) fn new(alloc: Global, room: u64) -> Result<Self, AllocError>
        ensures { IfOk result IsNoneYet }
    {
        let most = Size::Large.limits().records;
        Ok(HeldLog {
            items: Vec::with_capacity(alloc, room_within(room, most))?,
            needs: Needs::nothing(),
        })
    }

    /// Takes the next record, and returns whether a session may have it behind those before.
    #[inline(always)]
    pub(crate) fn take<W: WideRecord<Record = R> + Drop>(
        &mut self,
        machine: Geometry,
        rec: W,
    ) -> Result<bool, AllocError>
        ensures { IfOk result (λ taken. (records : List R) → IsLog W.Fits machine self.old records → MatchBool taken (IsLog W.Fits machine self.new (records ++ W.record_of rec ∷ [])) (IsNoLog W.Fits machine (records ++ W.record_of rec ∷ []))) }
    {
        if self.items.len() >= Size::Large.limits().records as usize {
            return Ok(false);
        }
        let Some((rec, needs)) = rec.into_record(machine) else {
            return Ok(false);
        };
        self.needs = self.needs.and(needs);
        self.items.push(rec)?;
        Ok(true)
    }

    /// Returns whether the log is within the limits of a version and a size.
    pub(crate) fn fits(&self, version: Version, size: Size) -> bool
        ensures { IsTrue result ↔ IsWithin self.now version size }
    {
        self.items.len() <= size.limits().records as usize && self.needs.are_met(version, size)
    }

    /// Returns its records. Allocates no memory.
    pub(crate) fn into_records(self) -> Seq<R>
        ensures { result ≡ self.items.items }
    {
        Seq::from_vec(self.items)
    }
}
