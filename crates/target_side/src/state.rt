//! The state of the target, and its part of each event.

ghost use Rattle.std.specs.Prelude.{◌≡◌, ℕ, [], ◌∷◌, ◌++◌, ◌<◌, ◌≤◌, ◌+◌, Some, None, false, replicate, vec_len, vec_capacity, length, IfOk, IfErr, OnOk, OnErr, IsErrOf};
ghost use Rattle.migration_types.specs.Limits.{most_records};
ghost use Rattle.migration_types.specs.Extents.{Extent};
ghost use Rattle.migration_events.specs.Ops.{page_in, answer_of, OpFits};
ghost use Rattle.page_store.specs.Frames.{memory_of};
ghost use Rattle.residency.specs.Placements.{placements, freed, no_placement, is_resident, is_covered};
ghost use Rattle.migration_types.specs.Memory.{zeros};
ghost use Rattle.migration_types.specs.PageSets.{no_page, without_page};
ghost use Rattle.target_side.specs.TargetPart.{halted_target, target_access, accesses, misses_page, looks, frees, done_over, does, resumes, with_placed, with_zeroed, settled};
ghost use Rattle.target_side.specs.Kept.{IsSized, part_held, marked};
ghost use Rattle.target_side.specs.inner.States.{held};

use crate::{Access, TargetFault, UntakenMiss};
use migration_events::{Op, make_room};
use migration_types::{Geometry, GuestRec, PageNo};
use page_store::Store;
use residency::Residency;
use std::alloc::{AllocError, Global};
use std::collections::VecDeque;

/// A bound on the number of a virtual processor, as an index.
const MARKS: usize = 256;

/// The state of the target.
#[derive(Drop)]
pub(crate) struct TargetState {
    /// The guest's log.
    pub(crate) log: Vec<GuestRec>,
    /// Whether the guest runs at the target.
    pub(crate) is_resumed: bool,
    pub(crate) frames: Store,
    pub(crate) places: Residency,
    /// The misses that the pager has not taken, the oldest first.
    pub(crate) misses: VecDeque<UntakenMiss>,
    /// A mark for each virtual processor that has a pending miss.
    pub(crate) standing: Vec<bool>,
    /// The pages that were absent when the guest released them and that the pager has not cancelled, the oldest first.
    pub(crate) unsettled: Vec<PageNo>,
}

impl TargetState {
    /// Returns the state at the halt, whose record the guest's log gains. It has no page. On an error, the log comes
    /// back as it was: it has no room for the record, or memory runs out.
    pub(crate) fn halted(
        alloc: Global,
        geometry: Geometry,
        log: Vec<GuestRec>,
    ) -> Result<TargetState, (Vec<GuestRec>, TargetFault)>
        requires { length log.items ≤ most_records }
        ensures part { IfOk result (λ s. part_held (held s) ≡ halted_target log.items) }
        ensures sized { IfOk result (λ s. IsSized geometry (held s)) }
        ensures full { IfErr result (λ e. e.1 ≡ TargetFault.LogFull → most_records < length (halted_target log.items).log) }
        ensures memory { IfErr result (λ e. e.1 ≡ TargetFault.Memory → length (halted_target log.items).log ≤ most_records) }
        ensures err { IfErr result (λ e. e.0.items ≡ log.items) }
    {
        let mut log = log;
        if let Err(fault) = make_room(&mut log, 1) {
            return Err((log, fault));
        }
        let Ok((frames, places, standing)) = nothing_placed(alloc, geometry) else {
            return Err((log, TargetFault::Memory));
        };
        let Ok(unsettled) = Vec::with_capacity(alloc, geometry.pages() as usize) else {
            return Err((log, TargetFault::Memory));
        };
        log.push_reserved(GuestRec::Halt);
        Ok(TargetState {
            log,
            is_resumed: false,
            frames,
            places,
            misses: VecDeque::new(alloc),
            standing,
            unsettled,
        })
    }

    /// Carries out an operation of a virtual processor.
    pub(crate) fn access(&mut self, vcpu: u8, op: &Op) -> Result<Access, TargetFault>
        requires sized { IsSized (held self.old).frames.geometry (held self.old) }
        requires fits { OpFits (held self.old).frames.geometry op.now }
        ensures ok { IfOk result (λ a. record { book = part_held (held self.new); access = a } ≡ target_access vcpu op.now (part_held (held self.old))) }
        ensures full { IsErrOf result TargetFault.LogFull → most_records < length (target_access vcpu op.now (part_held (held self.old))).book.log }
        ensures memory { IsErrOf result TargetFault.Memory → length (target_access vcpu op.now (part_held (held self.old))).book.log ≤ most_records }
        ensures sized { (e : Extent) → IsSized e (held self.old) → IsSized e (held self.new) }
        ensures err { OnErr result (held self.new ≡ held self.old) }
    {
        if !self.is_resumed {
            return Ok(Access::Waiting);
        }
        let page = op.page();
        if let Some(number) = self.places.placed_at(page) {
            return self.perform(vcpu, op, number);
        }
        if self.places.resident(page) {
            return self.again(vcpu, op);
        }
        match op {
            Op::Release { .. } => self.free(vcpu, op),
            _ => self.miss(vcpu, page),
        }
    }

    /// Returns how many records an operation of a virtual processor appends.
    pub(crate) fn records_of_access(&self, vcpu: u8, op: &Op) -> usize
        requires sized { IsSized (held self.now).frames.geometry (held self.now) }
        requires fits { OpFits (held self.now).frames.geometry op.now }
        ensures few { result ≤ 2 }
        ensures count { length (target_access vcpu op.now (part_held (held self.now))).book.log ≡ length self.now.log.items + result }
    {
        if !self.is_resumed {
            return 0;
        }
        let page = op.page();
        if self.places.placed_at(page).is_some() {
            return if self.places.covers(page) { 1 } else { 2 };
        }
        if self.places.resident(page) {
            return 1;
        }
        match op {
            Op::Release { .. } => 1,
            _ => self.records_of_miss(vcpu),
        }
    }

    /// Returns how many records a miss of a page appends: none if the virtual processor has a pending miss.
    fn records_of_miss(&self, vcpu: u8) -> usize
        requires { IsSized (held self.now).frames.geometry (held self.now) }
        ensures few { result ≤ 1 }
        ensures count { (page : ℕ) → length (misses_page vcpu page (part_held (held self.now))).book.log ≡ length self.now.log.items + result }
    {
        if self.standing[usize::from(vcpu)] {
            0
        } else {
            1
        }
    }

    /// Carries out an operation on a page that was absent when the guest released it.
    fn again(&mut self, vcpu: u8, op: &Op) -> Result<Access, TargetFault>
        requires sized { IsSized (held self.old).frames.geometry (held self.old) }
        requires fits { OpFits (held self.old).frames.geometry op.now }
        ensures ok { IfOk result (λ a. record { book = part_held (held self.new); access = a } ≡ done_over (λ c. c) vcpu op.now (part_held (held self.old))) }
        ensures full { IsErrOf result TargetFault.LogFull → most_records < length (done_over (λ c. c) vcpu op.now (part_held (held self.old))).book.log }
        ensures memory { IsErrOf result TargetFault.Memory → length (done_over (λ c. c) vcpu op.now (part_held (held self.old))).book.log ≤ most_records }
        ensures sized { (e : Extent) → IsSized e (held self.old) → IsSized e (held self.new) }
        ensures err { OnErr result (held self.new ≡ held self.old) }
    {
        make_room(&mut self.log, 1)?;
        Ok(Access::Done(self.act(vcpu, op)))
    }

    /// Releases an absent page, which the pager must then cancel.
    fn free(&mut self, vcpu: u8, op: &Op) -> Result<Access, TargetFault>
        requires sized { IsSized (held self.old).frames.geometry (held self.old) }
        requires fits { OpFits (held self.old).frames.geometry op.now }
        requires absent { is_resident (placements self.old.places (page_in op.now)) (freed self.old.places (page_in op.now)) ≡ false }
        ensures ok { IfOk result (λ a. record { book = part_held (held self.new); access = a } ≡ done_over (frees (page_in op.now)) vcpu op.now (part_held (held self.old))) }
        ensures full { IsErrOf result TargetFault.LogFull → most_records < length (done_over (frees (page_in op.now)) vcpu op.now (part_held (held self.old))).book.log }
        ensures memory { IsErrOf result TargetFault.Memory → length (done_over (frees (page_in op.now)) vcpu op.now (part_held (held self.old))).book.log ≤ most_records }
        ensures sized { (e : Extent) → IsSized e (held self.old) → IsSized e (held self.new) }
        ensures err { OnErr result (held self.new ≡ held self.old) }
    {
        make_room(&mut self.log, 1)?;
        if self.unsettled.reserve(1).is_err() {
            return Err(TargetFault::Memory);
        }
        let page = op.page();
        self.unsettled.push_reserved(page);
        self.places.release(page);
        Ok(Access::Done(self.act(vcpu, op)))
    }

    /// Records that a virtual processor misses a page, unless it has a pending miss.
    fn miss(&mut self, vcpu: u8, page: PageNo) -> Result<Access, TargetFault>
        requires sized { IsSized (held self.old).frames.geometry (held self.old) }
        requires page { page < (held self.old).frames.geometry.pages }
        ensures ok { IfOk result (λ a. record { book = part_held (held self.new); access = a } ≡ misses_page vcpu page (part_held (held self.old))) }
        ensures full { IsErrOf result TargetFault.LogFull → most_records < length (misses_page vcpu page (part_held (held self.old))).book.log }
        ensures memory { IsErrOf result TargetFault.Memory → length (misses_page vcpu page (part_held (held self.old))).book.log ≤ most_records }
        ensures sized { (e : Extent) → IsSized e (held self.old) → IsSized e (held self.new) }
        ensures err { OnErr result (held self.new ≡ held self.old) }
    {
        if self.standing[usize::from(vcpu)] {
            return Ok(Access::Waiting);
        }
        make_room(&mut self.log, 1)?;
        if self.misses.reserve(1).is_err() {
            return Err(TargetFault::Memory);
        }
        let number = self.log.len() as u32;
        self.log.push_reserved(GuestRec::Miss { vcpu, page });
        self.misses
            .push_back_reserved(UntakenMiss { number, vcpu, page });
        self.standing[usize::from(vcpu)] = true;
        Ok(Access::Missed)
    }

    /// Carries out an operation on a page that the pager's record of this number placed.
    fn perform(&mut self, vcpu: u8, op: &Op, number: u32) -> Result<Access, TargetFault>
        requires sized { IsSized (held self.old).frames.geometry (held self.old) }
        requires fits { OpFits (held self.old).frames.geometry op.now }
        requires placed { placements self.old.places (page_in op.now) ≡ Some number }
        ensures ok { IfOk result (λ a. record { book = part_held (held self.new); access = a } ≡ done_over (looks number) vcpu op.now (part_held (held self.old))) }
        ensures full { IsErrOf result TargetFault.LogFull → most_records < length (done_over (looks number) vcpu op.now (part_held (held self.old))).book.log }
        ensures memory { IsErrOf result TargetFault.Memory → length (done_over (looks number) vcpu op.now (part_held (held self.old))).book.log ≤ most_records }
        ensures sized { (e : Extent) → IsSized e (held self.old) → IsSized e (held self.new) }
        ensures err { OnErr result (held self.new ≡ held self.old) }
    {
        if self.places.covers(op.page()) {
            make_room(&mut self.log, 1)?;
        } else {
            make_room(&mut self.log, 2)?;
            self.look(number);
        }
        Ok(Access::Done(self.act(vcpu, op)))
    }

    /// Records a look at a placement above the frontier.
    fn look(&mut self, number: u32)
        requires room { vec_len self.old.log < vec_capacity self.old.log }
        requires unseen { is_covered (Some number) self.old.places.frontier ≡ false }
        ensures part { part_held (held self.new) ≡ record (part_held (held self.old)) { log = self.old.log.items ++ GuestRec.See number ∷ []; frontier = Some number } }
        ensures room { vec_capacity self.new.log ≡ vec_capacity self.old.log }
        ensures sized { (e : Extent) → length self.old.log.items < most_records → IsSized e (held self.old) → IsSized e (held self.new) }
    {
        self.log.push_reserved(GuestRec::See { placement: number });
        self.places.saw(number);
    }

    /// Carries out the operation itself, on a resident page. The virtual processor then has no pending miss.
    fn act(&mut self, vcpu: u8, op: &Op) -> u64
        requires sized { IsSized (held self.old).frames.geometry (held self.old) }
        requires fits { OpFits (held self.old).frames.geometry op.now }
        requires few { length self.old.log.items < most_records }
        requires room { vec_len self.old.log < vec_capacity self.old.log }
        ensures part { part_held (held self.new) ≡ does vcpu op.now (record (part_held (held self.old)) { standing = without_page vcpu (marked self.old.standing.items) }) }
        ensures answer { result ≡ answer_of op.now (memory_of self.old.frames) }
        ensures sized { (e : Extent) → IsSized e (held self.old) → IsSized e (held self.new) }
    {
        self.standing[usize::from(vcpu)] = false;
        match *op {
            Op::Read { page, cell } => {
                let value = self.frames.read(page, cell);
                self.log.push_reserved(GuestRec::Read {
                    vcpu,
                    page,
                    cell,
                    value,
                });
                value
            }
            Op::Write { page, cell, value } => {
                self.log.push_reserved(GuestRec::Write {
                    vcpu,
                    page,
                    cell,
                    value,
                });
                self.frames.write(page, cell, value);
                value
            }
            Op::Release { page } => {
                self.log.push_reserved(GuestRec::Release { vcpu, page });
                self.frames.release(page);
                0
            }
        }
    }

    /// Lets the guest run at the target from now on.
    pub(crate) fn resume(&mut self) -> Result<(), TargetFault>
        requires { length self.old.log.items ≤ most_records }
        ensures part { OnOk result (part_held (held self.new) ≡ resumes (part_held (held self.old))) }
        ensures full { IsErrOf result TargetFault.LogFull → most_records < length (resumes (part_held (held self.old))).log }
        ensures memory { IsErrOf result TargetFault.Memory → length (resumes (part_held (held self.old))).log ≤ most_records }
        ensures sized { (e : Extent) → IsSized e (held self.old) → IsSized e (held self.new) }
        ensures err { OnErr result (held self.new ≡ held self.old) }
    {
        make_room(&mut self.log, 1)?;
        self.log.push_reserved(GuestRec::Resume { ready: 1 });
        self.is_resumed = true;
        Ok(())
    }

    /// Places a page with these cells.
    pub(crate) fn place(&mut self, page: PageNo, number: u32, cells: &[u64])
        requires frames { page < (held self.old).frames.geometry.pages }
        requires places { page < (held self.old).places.geometry.pages }
        requires cells { length cells.now ≡ (held self.old).frames.geometry.cells }
        requires absent { is_resident (placements self.old.places page) (freed self.old.places page) ≡ false }
        ensures part { part_held (held self.new) ≡ with_placed page number cells.now (part_held (held self.old)) }
        ensures log { self.new.log ≡ self.old.log }
        ensures sized { (e : Extent) → IsSized e (held self.old) → IsSized e (held self.new) }
    {
        self.frames.install(page, cells);
        self.places.mark(page, number);
    }

    /// Takes note that the pager has cancelled all pages that were absent when they were released.
    pub(crate) fn settle(&mut self)
        ensures part { part_held (held self.new) ≡ settled (part_held (held self.old)) }
        ensures log { self.new.log ≡ self.old.log }
        ensures sized { (e : Extent) → IsSized e (held self.old) → IsSized e (held self.new) }
    {
        self.unsettled.clear();
    }

    /// Places a page as zeros.
    pub(crate) fn zero(&mut self, page: PageNo, number: u32)
        requires frames { page < (held self.old).frames.geometry.pages }
        requires places { page < (held self.old).places.geometry.pages }
        requires absent { is_resident (placements self.old.places page) (freed self.old.places page) ≡ false }
        ensures part { part_held (held self.new) ≡ with_zeroed page number (part_held (held self.old)) }
        ensures log { self.new.log ≡ self.old.log }
        ensures sized { (e : Extent) → IsSized e (held self.old) → IsSized e (held self.new) }
    {
        self.frames.release(page);
        self.places.mark(page, number);
    }
}

/// Returns the frames, the residency and the marks of a target with no page. Fails only if memory runs out.
fn nothing_placed(
    alloc: Global,
    geometry: Geometry,
) -> Result<(Store, Residency, Vec<bool>), AllocError>
    ensures frames { IfOk result (λ t. t.0.geometry ≡ geometry) }
    ensures memory { IfOk result (λ t. memory_of t.0 ≡ zeros) }
    ensures places { IfOk result (λ t. t.1.geometry ≡ geometry) }
    ensures placed { IfOk result (λ t. placements t.1 ≡ no_placement) }
    ensures freed { IfOk result (λ t. freed t.1 ≡ no_page) }
    ensures frontier { IfOk result (λ t. t.1.frontier ≡ None) }
    ensures marks { IfOk result (λ t. t.2.items ≡ replicate 256 false) }
{
    let frames = Store::zeroed(alloc, geometry)?;
    let places = Residency::new(alloc, geometry)?;
    let standing = no_marks(alloc)?;
    Ok((frames, places, standing))
}

/// Returns marks, none of them set. Fails only if memory runs out.
fn no_marks(alloc: Global) -> Result<Vec<bool>, AllocError>
    ensures { IfOk result (λ v. v.items ≡ replicate 256 false) }
{
    vec![in alloc; false; MARKS]
}
