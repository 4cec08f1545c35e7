//! The target's book, with its history.

ghost use Rattle.std.specs.Prelude.{◌≡◌, ℕ, ◌<◌, ◌≤◌, [], ◌∷◌, ◌++◌, length, map, drop, slice_get, None, false, IfSome, IfOk, IfErr, OnOk, OnErr, IsErrOf};
ghost use Rattle.std.specs.List.{AllByRecursion};
ghost use Rattle.migration_types.specs.Limits.{most_records};
ghost use Rattle.target_side.specs.TargetPart.{halted_target, target_access, resumes, with_placed, with_zeroed, with_misses, settled};
ghost use Rattle.target_side.specs.History.{Did, Placed, IsHistoryOf, IsBeforeHalt};
ghost use Rattle.target_side.specs.Told.{IsEarlier, IsOfHistory, IsPlacedOnce, AreSeen, AreOfPlacements};
ghost use Rattle.migration_types.specs.declared.records.GuestRec.TheVariants.{Resume};
ghost use Rattle.residency.specs.Placements.{is_resident};
ghost use Rattle.migration_events.specs.Ops.{OpFits};
ghost use Rattle.target_side.specs.Kept.{part_of, geometry_of, HaveGrown};

use crate::state::TargetState;
use crate::{Access, TargetFault, UntakenMiss};
use migration_events::{Op, look_for_room};
use migration_types::{Contents, Geometry, GuestRec, PageNo};
use page_store::Store;
use std::alloc::{AllocError, Global};
use std::marker::Model;

/// A placement by the pager.
#[derive(Drop)]
struct Placement {
    /// How many records the guest's log had then.
    after: u32,
    page: PageNo,
    /// The number of the pager's record.
    number: u32,
    /// The values of its cells, and zeros beyond them.
    contents: Contents,
}

/// The target's book, from the halt on: its state and its history. Contracts see both. The history is not stored a
/// second time: it is the guest's log with the placements between its records.
#[derive(Drop)]
pub struct TargetBook {
    state: TargetState,
    placements: Vec<Placement>,
    alloc: Global,
}

impl Model for TargetBook {
    ghost use Rattle.target_side.specs.Kept.{Kept};

    ghost Value = { Kept };

    ghost use Rattle.target_side.specs.inner.States.{held};
    ghost use Rattle.target_side.specs.inner.Woven.{woven, IsBook};

    ghost view = { λ b. record { held = held b.state; history = woven 0 b.state.log.items b.placements.items } };

    ghost invariant = { λ b. IsBook (held b.state) b.placements.items };
}

impl TargetBook {
    /// Returns the book at the halt, whose record the guest's log gains. No page was placed, and the guest does not run
    /// yet. The log must hold what the guest did at the source, only reads, writes and releases. The error is
    /// `TargetFault::LogFull` exactly when the log has no room for the record, and otherwise `TargetFault::Memory`, if
    /// memory runs out for the record, the frames and the tables. On an error, the log comes back as it was.
    pub fn halted(
        alloc: Global,
        geometry: Geometry,
        log: Vec<GuestRec>,
    ) -> Result<TargetBook, (Vec<GuestRec>, TargetFault)>
        requires own { AllByRecursion (IsBeforeHalt geometry) log.items }
        requires few { length log.items ≤ most_records }
        ensures part { IfOk result (λ b. part_of b ≡ halted_target log.items) }
        ensures geometry { IfOk result (λ b. geometry_of b ≡ geometry) }
        ensures history { IfOk result (λ b. b.history ≡ map Did (halted_target log.items).log) }
        ensures full { IfErr result (λ e. e.1 ≡ TargetFault.LogFull → most_records < length (halted_target log.items).log) }
        ensures memory { IfErr result (λ e. e.1 ≡ TargetFault.Memory → length (halted_target log.items).log ≤ most_records) }
        ensures err { IfErr result (λ e. e.0.items ≡ log.items) }
    {
        let state = TargetState::halted(alloc, geometry, log)?;
        Ok(TargetBook {
            state,
            placements: Vec::new(alloc),
            alloc,
        })
    }

    /// Carries out an operation of a virtual processor. Before the guest resumes, the operation waits. On an absent
    /// page, a read or a write misses the page, once, and then waits until the page is resident. A release makes an
    /// absent page resident as zeros, and the pager must cancel it. On a placed page, the operation is carried out and
    /// recorded, after a look at the placement if the guest has looked at none so late. On a page that was absent when
    /// it was released, it is carried out and recorded at once. The error is `TargetFault::LogFull` exactly when the
    /// log has no room for the records, and otherwise `TargetFault::Memory`. On an error, nothing changes.
    pub fn access(&mut self, vcpu: u8, op: Op) -> Result<Access, TargetFault>
        requires { OpFits (geometry_of self.old) op }
        ensures part { IfOk result (λ a. record { book = part_of self.new; access = a } ≡ target_access vcpu op (part_of self.old)) }
        ensures history { OnOk result (HaveGrown self.old self.new) }
        ensures geometry { geometry_of self.new ≡ geometry_of self.old }
        ensures full { IsErrOf result TargetFault.LogFull → most_records < length (target_access vcpu op (part_of self.old)).book.log }
        ensures memory { IsErrOf result TargetFault.Memory → length (target_access vcpu op (part_of self.old)).book.log ≤ most_records }
        ensures err { OnErr result (self.new ≡ self.old) }
    {
        self.state.access(vcpu, &op)
    }

    /// Returns whether the log has room for what an operation of a virtual processor appends. Allocates no memory.
    pub fn look_to_access(&self, vcpu: u8, op: &Op) -> Result<(), TargetFault>
        requires { OpFits (geometry_of self.now) op.now }
        ensures room { OnOk result (length (target_access vcpu op.now (part_of self.now)).book.log ≤ most_records) }
        ensures full { OnErr result (most_records < length (target_access vcpu op.now (part_of self.now)).book.log) }
        ensures memory { IsErrOf result TargetFault.Memory → ⊥ }
    {
        let more = self.state.records_of_access(vcpu, op);
        look_for_room(&self.state.log, more)
    }

    /// Lets the guest resume at the target, and records this. The error is `TargetFault::LogFull` exactly when the log
    /// has no room for the record, and otherwise `TargetFault::Memory`. On an error, nothing changes.
    pub fn resume(&mut self) -> Result<(), TargetFault>
        requires { (part_of self.old).is_resumed ≡ false }
        ensures part { OnOk result (part_of self.new ≡ resumes (part_of self.old)) }
        ensures history { OnOk result (HaveGrown self.old self.new) }
        ensures geometry { geometry_of self.new ≡ geometry_of self.old }
        ensures full { IsErrOf result TargetFault.LogFull → most_records < length (resumes (part_of self.old)).log }
        ensures memory { IsErrOf result TargetFault.Memory → length (resumes (part_of self.old)).log ≤ most_records }
        ensures err { OnErr result (self.new ≡ self.old) }
    {
        self.state.resume()
    }

    /// Returns whether the log has room for the record of the resume. Allocates no memory.
    pub fn look_to_resume(&self) -> Result<(), TargetFault>
        ensures room { OnOk result (length (resumes (part_of self.now)).log ≤ most_records) }
        ensures full { OnErr result (most_records < length (resumes (part_of self.now)).log) }
        ensures memory { IsErrOf result TargetFault.Memory → ⊥ }
    {
        look_for_room(&self.state.log, 1)
    }

    /// Places an absent page with these values in its cells, by the pager's record of this number. The history gains
    /// the placement. Fails only if memory runs out, and then nothing changes.
    pub fn place(&mut self, page: PageNo, number: u32, contents: &[u64]) -> Result<(), AllocError>
        requires page { page < (geometry_of self.old).pages }
        requires contents { length contents.now ≡ (geometry_of self.old).cells }
        requires absent { is_resident ((part_of self.old).placed page) ((part_of self.old).freed page) ≡ false }
        ensures part { OnOk result (part_of self.new ≡ with_placed page number contents.now (part_of self.old)) }
        ensures history { OnOk result (self.new.history ≡ self.old.history ++ Placed page number contents.now ∷ []) }
        ensures geometry { geometry_of self.new ≡ geometry_of self.old }
        ensures err { OnErr result (self.new ≡ self.old) }
    {
        self.placements.reserve(1)?;
        let after = self.state.log.len() as u32;
        let stored = Contents::copied(self.alloc, contents)?;
        self.state.place(page, number, contents);
        self.placements.push_reserved(Placement {
            after,
            page,
            number,
            contents: stored,
        });
        Ok(())
    }

    /// Places an absent page as zeros, by the pager's record of this number. The history gains the placement. Fails
    /// only if memory runs out, and then nothing changes.
    pub fn zero(&mut self, page: PageNo, number: u32) -> Result<(), AllocError>
        requires page { page < (geometry_of self.old).pages }
        requires absent { is_resident ((part_of self.old).placed page) ((part_of self.old).freed page) ≡ false }
        ensures part { OnOk result (part_of self.new ≡ with_zeroed page number (part_of self.old)) }
        ensures history { OnOk result (self.new.history ≡ self.old.history ++ Placed page number [] ∷ []) }
        ensures geometry { geometry_of self.new ≡ geometry_of self.old }
        ensures err { OnErr result (self.new ≡ self.old) }
    {
        self.placements.reserve(1)?;
        let after = self.state.log.len() as u32;
        self.state.zero(page, number);
        self.placements.push_reserved(Placement {
            after,
            page,
            number,
            contents: Contents::from_vec(Vec::new(self.alloc)),
        });
        Ok(())
    }

    /// Returns the oldest miss that was not taken, of a page of the machine, or `None` if all were taken.
    pub fn next_miss(&self) -> Option<UntakenMiss>
        ensures oldest { result ≡ slice_get (part_of self.now).misses 0 }
        ensures page { IfSome result (λ m. m.page < (geometry_of self.now).pages) }
    {
        self.state.misses.front().copied()
    }

    /// Takes the oldest miss that was not taken, if there is one. Nothing else changes.
    pub fn take_miss(&mut self)
        ensures part { part_of self.new ≡ with_misses (drop 1 (part_of self.old).misses) (part_of self.old) }
        ensures history { self.new.history ≡ self.old.history }
        ensures geometry { geometry_of self.new ≡ geometry_of self.old }
    {
        self.state.misses.pop_front();
    }

    /// Returns the pages that were absent when the guest released them and that the pager has not cancelled, the oldest
    /// first. All are pages of the machine.
    pub fn unsettled(&self) -> &[PageNo]
        ensures pages { result.now ≡ (part_of self.now).unsettled }
        ensures machine { AllByRecursion (λ p. p < (geometry_of self.now).pages) result.now }
    {
        &self.state.unsettled
    }

    /// Takes note that the pager has cancelled all of these pages. Nothing else changes. Frees no memory.
    pub fn settle(&mut self)
        ensures part { part_of self.new ≡ settled (part_of self.old) }
        ensures history { self.new.history ≡ self.old.history }
        ensures geometry { geometry_of self.new ≡ geometry_of self.old }
    {
        self.state.settle();
    }

    /// Returns whether a page is resident: it was placed, or it was absent when the guest released it.
    pub fn resident(&self, page: PageNo) -> bool
        requires { page < (geometry_of self.now).pages }
        ensures { result ≡ is_resident ((part_of self.now).placed page) ((part_of self.now).freed page) }
    {
        self.state.places.resident(page)
    }

    /// Returns whether the guest has resumed at the target.
    pub fn is_resumed(&self) -> bool
        ensures { result ≡ (part_of self.now).is_resumed }
    {
        self.state.is_resumed
    }

    /// Returns the number of the pager's record that placed a page, or `None` if the page was not placed.
    pub fn placed_at(&self, page: PageNo) -> Option<u32>
        requires { page < (geometry_of self.now).pages }
        ensures { result ≡ (part_of self.now).placed page }
    {
        self.state.places.placed_at(page)
    }

    /// Returns the guest's log.
    pub fn guest_log(&self) -> &[GuestRec]
        ensures { result.now ≡ (part_of self.now).log }
    {
        &self.state.log
    }

    /// Returns the machine's geometry.
    pub fn geometry(&self) -> Geometry
        ensures { result ≡ geometry_of self.now }
    {
        self.state.frames.geometry()
    }

    /// States the invariant of the book: its state follows from its history, and its log is within its limit. In the
    /// history, each page is placed at most once, and not after its release at the target. Once the guest has resumed,
    /// each read and write is of a page that was released there, or that was placed before, where the guest has looked
    /// at that placement or a later one. Each read gives what was last written since the page was last placed or
    /// released there, or else what was placed, or zero. Each look is at an earlier placement. Runs nothing.
    pub fn keeps_history(&self)
        ensures history { IsHistoryOf (part_of self.now) self.now.history }
        ensures book { IsOfHistory (part_of self.now) self.now.history }
        ensures once { IsPlacedOnce self.now.history }
        ensures seen { (n ready : ℕ) (resumed : IsEarlier self.now.history n (Did (Resume ready))) → AreSeen self.now.history n ready resumed }
        ensures looks { AreOfPlacements self.now.history }
        ensures few { length (part_of self.now).log ≤ most_records }
    {
        let _ = &self.state;
    }

    /// Returns the guest's log and the frames.
    pub fn into_parts(self) -> (Vec<GuestRec>, Store)
        ensures log { result.0.items ≡ self.held.log }
        ensures frames { result.1 ≡ self.held.frames }
    {
        let TargetBook { state, .. } = self;
        let TargetState { log, frames, .. } = state;
        (log, frames)
    }
}
