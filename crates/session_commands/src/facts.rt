//! What is to be known of a recording before its text is written.

ghost use Rattle.std.specs.Prelude.{◌≡◌, ◌<◌, ◌≤◌, ◌⊎◌, ◌↔◌, ◌==◌, ◌&&◌, ◌||◌, ◌++◌, ℕ, [], ◌∷◌, List, IsTrue, None, OnOk, Some, length};
ghost use Rattle.std.specs.List.{list_any};
ghost use Rattle.migration_types.specs.declared.records.GuestRec.{GuestRec};
ghost use Rattle.migration_types.specs.declared.records.PagerRec.{PagerRec};
ghost use Rattle.migration_types.specs.declared.records.SourceRec.{SourceRec};
ghost use Rattle.migration_types.specs.declared.records.LogName.{LogName as Log};
ghost use Rattle.recorder_files.specs.Fronts.{cursors_of};
ghost use Rattle.migration_types.specs.Sessions.{Recorded};
ghost use Rattle.recordings.specs.Recordings.{IsMachine};
ghost use Rattle.recordings.specs.Seen.{nothing_of, with_record, IsNext};
ghost use Rattle.recordings.specs.Wide.{extent_of, guest_of, pager_of, source_of};
ghost use Rattle.session_commands.specs.Written.{begins_halted, has_lone_halted, is_back, is_halted, is_pull, IsLateRelease, IsSmall, IsWrittenFront, NeedsLarge};
ghost use Rattle.audit_model.specs.Shape.{is_release, is_resume};
ghost use Rattle.session_commands.specs.Unresumed.{ends_halted, GoesUnresumed, IsHaltOf};
ghost use Rattle.session_commands.specs.Facts.{HasNone, IsBefore, IsFacts, IsFirstLate};

use migration_types::{LogName, Size};
use recorder_files::{Front, LOST, Naming, named_by};
use recordings::{Visitor, Wide, WideGuest, WideMachine, WidePager, WideSource};
use std::alloc::{AllocError, Global};

/// What is to be known of a recording before it is written or held.
#[derive(Drop)]
pub(crate) struct Facts {
    pub naming: Naming,
    /// Whether the source tells that it started the guest again.
    has_back: bool,
    /// Whether the pager took a packet of the lane.
    has_pull: bool,
    /// The guest's first halt.
    halt: Option<u64>,
    /// Whether the guest has a resume.
    has_resume: bool,
    /// The guest's first release behind its resume.
    late: Option<u64>,
    /// Whether the guest's last record is a halt.
    halts_at_last: bool,
    /// Whether the source's first record tells that the guest was halted.
    begins_halted: bool,
    /// The first record that names a number that no recorder answers.
    pub beyond: Option<(LogName, u64)>,
}

/// Returns whether a record of the guest is a halt.
#[tactic(auto, using(crate::proofs::Seen::ends_last))]
fn is_halt(rec: &WideGuest) -> bool
    ensures last { (guest : List GuestRec) → result ≡ ends_halted (guest ++ guest_of rec.now ∷ []) }
    ensures halt { IsTrue result ↔ (guest_of rec.now ≡ GuestRec.Halt) }
{
    matches!(rec, WideGuest::Halt)
}

/// Returns the guest's first halt, with one more record, whose number this is.
fn with_halt(halt: Option<u64>, number: u64, rec: &WideGuest) -> Option<u64>
    ensures { (guest : List GuestRec) → length guest ≡ number → IsHaltOf halt guest → IsHaltOf result (guest ++ guest_of rec.now ∷ []) }
{
    match halt {
        Some(first) => Some(first),
        None => { if is_halt(rec) { Some(number) } else { None } }
    }
}

/// Keeps the record of this number, if it is the first that names a number which no recorder answers.
fn keep_beyond(
    beyond: &mut Option<(LogName, u64)>,
    log: LogName,
    number: u64,
    named: Option<(LogName, u64)>,
) {
    if let Some((_, named)) = named {
        if named > LOST && beyond.is_none() {
            *beyond = Some((log, number));
        }
    }
}

/// Returns whether a record is there, and in the first so many.
fn is_before(place: Option<u64>, count: u64) -> bool
    ensures { IsTrue result ↔ IsBefore place count }
{
    match place {
        Some(number) => number < count,
        None => false,
    }
}

/// Returns whether a record of the source tells that the guest was halted.
fn is_halted(rec: &WideSource) -> bool
    ensures { result ≡ is_halted (source_of rec.now) }
{
    matches!(rec, WideSource::Halted { .. })
}

/// Returns whether a record of the source tells that it started the guest again.
fn is_back(rec: &WideSource) -> bool
    ensures { result ≡ is_back (source_of rec.now) }
{
    matches!(rec, WideSource::Back)
}

/// Returns whether a record of the pager takes a packet of the lane.
fn is_pull(rec: &WidePager) -> bool
    ensures { result ≡ is_pull (pager_of rec.now) }
{
    matches!(rec, WidePager::Pull { .. })
}

/// Returns whether a record of the guest is a resume.
fn is_resume(rec: &WideGuest) -> bool
    ensures { result ≡ is_resume (guest_of rec.now) }
{
    matches!(rec, WideGuest::Resume { .. })
}

/// Returns whether a record of the guest is a release.
fn is_release(rec: &WideGuest) -> bool
    ensures { result ≡ is_release (guest_of rec.now) }
{
    matches!(rec, WideGuest::Release { .. })
}

/// Returns whether the source's first record tells that the guest was halted, with one more record, whose number this is.
fn with_halted(begins: bool, number: u64, rec: &WideSource) -> bool
    ensures { (source : List SourceRec) → length source ≡ number → begins ≡ begins_halted source → result ≡ begins_halted (source ++ source_of rec.now ∷ []) }
{
    if number == 0 { is_halted(rec) } else { begins }
}

/// Returns whether the source tells that it started the guest again, with one more record.
#[tactic(auto, using(crate::proofs::Pushed::any_push))]
fn with_back(has_back: bool, rec: &WideSource) -> bool
    ensures { (source : List SourceRec) → has_back ≡ list_any is_back source → result ≡ list_any is_back (source ++ source_of rec.now ∷ []) }
{
    has_back || is_back(rec)
}

/// Returns whether the pager took a packet of the lane, with one more record.
#[tactic(auto, using(crate::proofs::Pushed::any_push))]
fn with_pull(has_pull: bool, rec: &WidePager) -> bool
    ensures { (pager : List PagerRec) → has_pull ≡ list_any is_pull pager → result ≡ list_any is_pull (pager ++ pager_of rec.now ∷ []) }
{
    has_pull || is_pull(rec)
}

/// Returns whether the guest has a resume, with one more record.
#[tactic(auto, using(crate::proofs::Pushed::any_push))]
fn with_resume(has_resume: bool, rec: &WideGuest) -> bool
    ensures { (guest : List GuestRec) → has_resume ≡ list_any is_resume guest → result ≡ list_any is_resume (guest ++ guest_of rec.now ∷ []) }
{
    has_resume || is_resume(rec)
}

/// Returns the number of a record of the guest, if it is a release behind a resume. No record in front of it is one.
fn first_late(has_resume: bool, number: u64, rec: &WideGuest) -> Option<u64>
    ensures { (guest : List GuestRec) → length guest ≡ number → has_resume ≡ list_any is_resume guest → IsFirstLate None guest → IsFirstLate result (guest ++ guest_of rec.now ∷ []) }
{
    if !has_resume {
        return None;
    }
    if is_release(rec) {
        return Some(number);
    }
    None
}

/// Returns the first release behind the resume, with one more record of the guest, whose number this is.
fn with_late(late: Option<u64>, has_resume: bool, number: u64, rec: &WideGuest) -> Option<u64>
    ensures { (guest : List GuestRec) → length guest ≡ number → has_resume ≡ list_any is_resume guest → IsFirstLate late guest → IsFirstLate result (guest ++ guest_of rec.now ∷ []) }
{
    match late {
        Some(first) => Some(first),
        None => first_late(has_resume, number, rec),
    }
}

/// Returns whether no log has more records in a front than this.
fn are_few(front: Front, most: u64) -> bool
    ensures { IsTrue result ↔ ((log : Log) → cursors_of front log ≤ most) }
{
    let greatest = front
        .guest
        .max(front.source)
        .max(front.link)
        .max(front.lane)
        .max(front.pager);
    greatest <= most
}

/// Returns whether a machine and the first records of its logs are within the limits of the small size.
fn is_small(front: Front, pages: u64, cells: u32) -> bool
    ensures { IsTrue result ↔ IsSmall pages cells front }
{
    let limits = Size::Small.limits();
    pages <= u64::from(limits.pages)
        && pages.saturating_mul(u64::from(cells)) <= u64::from(limits.cells)
        && are_few(front, u64::from(limits.records))
}

impl Facts {
    /// Returns the facts of which nothing was seen, where about this many records of each log are expected.
    pub fn new(alloc: Global, expected: Front) -> Self
        ensures { HasNone result }
    {
        Facts {
            naming: Naming::expecting(alloc, expected),
            has_back: false,
            has_pull: false,
            halt: None,
            has_resume: false,
            late: None,
            halts_at_last: false,
            begins_halted: false,
            beyond: None,
        }
    }

    /// Returns how many records of each log are written: those of the greatest front. If a `halted` of the source is
    /// alone in that, it is left out, with what names it.
    pub fn written_front(&self) -> Front
        ensures { (s : Recorded) → IsFacts self.now s → IsWrittenFront s result }
    {
        let front = self.naming.greatest_front();
        if self.is_lone(front) {
            self.naming.front_within(Front { source: 0, ..front })
        } else {
            front
        }
    }

    /// Returns whether the source has one record in a front, and that tells that the guest was halted.
    pub(crate) fn is_lone(&self, front: Front) -> bool
        ensures { (s : Recorded) → IsFacts self.now s → result ≡ has_lone_halted s front }
    {
        front.source == 1 && self.begins_halted
    }

    /// Returns the guest's first halt, if it runs after that and there is no resume.
    pub fn unresumed(&self) -> Option<u64>
        ensures { (s : Recorded) → IsFacts self.now s → (halt : ℕ) → (result ≡ Some halt) ↔ GoesUnresumed s.guest halt }
    {
        if self.has_resume || self.halts_at_last {
            return None;
        }
        self.halt
    }

    /// Returns whether only a text of the large size has a machine of these pages and cells and these first records.
    pub fn needs_large(&self, front: Front, pages: u64, cells: u32) -> bool
        ensures { (s : Recorded) → IsFacts self.now s → IsTrue result ↔ NeedsLarge pages cells s front }
    {
        self.has_back || !is_small(front, pages, cells)
    }

    /// Returns whether there is a record of the lane, or the pager took a packet of it.
    pub fn takes_lane(&self, front: Front) -> bool
        ensures { (s : Recorded) → IsFacts self.now s → IsTrue result ↔ ((0 < front.lane) ⊎ IsTrue (list_any is_pull s.pager)) }
    {
        if front.lane > 0 {
            return true;
        }
        self.has_pull
    }

    /// Returns whether a release behind the resume is among these first records.
    pub fn has_late(&self, front: Front) -> bool
        ensures { (s : Recorded) → IsFacts self.now s → IsTrue result ↔ ((n : ℕ) × (n < front.guest) × IsLateRelease s.guest n) }
    {
        is_before(self.late, front.guest)
    }
}

impl Facts {
    /// Sees the machine.
    pub(crate) fn see_machine(&mut self, machine: &WideMachine) -> Result<(), AllocError>
        requires new { HasNone self.old }
        requires machine { IsMachine (extent_of machine.now) }
        ensures { OnOk result (IsFacts self.new (nothing_of machine.now.version (extent_of machine.now))) }
    {
        self.naming.machine(machine)?;
        Ok(())
    }

    /// Sees the next record.
    #[inline(always)]
    pub(crate) fn see(&mut self, number: u64, rec: &Wide) -> Result<(), AllocError>
        ensures { (s : Recorded) → IsNext s number rec.now → IsFacts self.old s → OnOk result (IsFacts self.new (with_record s rec.now)) }
    {
        keep_beyond(&mut self.beyond, rec.log(), number, named_by(rec));
        self.naming.note(rec)?;
        match rec {
            Wide::Guest(rec) => {
                self.halts_at_last = is_halt(rec);
                self.halt = with_halt(self.halt, number, rec);
                self.late = with_late(self.late, self.has_resume, number, rec);
                self.has_resume = with_resume(self.has_resume, rec);
            }
            Wide::Source(rec) => {
                self.begins_halted = with_halted(self.begins_halted, number, rec);
                self.has_back = with_back(self.has_back, rec);
            }
            Wide::Pager(rec) => self.has_pull = with_pull(self.has_pull, rec),
            Wide::Link(_) | Wide::Lane(_) => {}
        }
        Ok(())
    }
}
