//! Why a scenario is no script.

ghost use Rattle.std.specs.Prelude.{◌≤◌, ◌<◌, MatchBool, MatchOption};
ghost use Rattle.std.specs.List.{AllByRecursion};
ghost use Rattle.migration_types.specs.Pages.{AreInitPages, AreZeros, InitPageFits};
ghost use Rattle.guest_script.specs.Moments.{OpFitsAt};
ghost use Rattle.guest_script.specs.Scenarios.{VcpuFits};
ghost use Rattle.guest_script.specs.ScriptFaults.{AreAsMany, IsFirstVcpuFault, IsFirstWrong, IsVcpuFault};

use crate::vcpus::{MOST_OPS, Vcpu, When, may_release};
use migration_events::Op;
use migration_types::{Geometry, InitPage, Version};
use thiserror::Error;

/// Why the operations of a virtual processor are not allowed. If there are several faults, the first in this list
/// counts.
#[derive(Clone, Copy, Debug, PartialEq, Eq, Error)]
pub enum VcpuFault {
    /// More than 65,536 operations before the move.
    #[error("more than 65,536 operations before the move")]
    ManyBefore,
    /// More than 65,536 operations after the move.
    #[error("more than 65,536 operations after the move")]
    ManyAfter,
    /// The operation of this number before the move, counted from 0, is on a page or a cell that the machine does not
    /// have.
    #[error("operation {0} before the move is on no page or cell of the machine")]
    Before(usize),
    /// The operation of this number after the move, counted from 0, is on a page or a cell that the machine does not
    /// have, or is a release in a script of the first version.
    #[error("operation {0} after the move is on no page or cell of the machine, or a release in the first version")]
    After(usize),
}

/// Why a scenario is no script. If there are several faults, the first in this list counts, and among virtual
/// processors that of the first.
#[derive(Clone, Copy, Debug, PartialEq, Eq, Error)]
pub enum ScriptFault {
    /// The initial page at this place, counted from 0, is not one of the machine's, does not come after the one before
    /// it, has another number of cells, or is zeros.
    #[error("initial page {0} is none of the machine's, out of order, of another size, or zeros")]
    Init(usize),
    /// The number of pivots is not 1 to 16.
    #[error("there are 1 to 16 pivots")]
    Pivots,
    /// The window is not 1 to 65,536 packets.
    #[error("a window has 1 to 65,536 packets")]
    Window,
    /// More than 4,096 delivery outcomes on the way down.
    #[error("there are at most 4,096 fates on the way down")]
    Down,
    /// More than 4,096 delivery outcomes on the way up.
    #[error("there are at most 4,096 fates on the way up")]
    Up,
    /// A lane in a script of the first version, or more than 4,096 delivery outcomes on the way over it.
    #[error("a script of the second version alone has a lane, with at most 4,096 fates")]
    Lane,
    /// The number of virtual processors is not 1 to 64.
    #[error("there are 1 to 64 virtual processors")]
    Vcpus,
    /// The virtual processor of this number has a fault.
    #[error("virtual processor {vcpu}: {fault}")]
    Vcpu { vcpu: u8, fault: VcpuFault },
}

/// Returns whether an operation is allowed before a move, or after it.
fn op_fits_at(geometry: Geometry, op: Op, when: When) -> bool
    ensures { MatchBool result (OpFitsAt when geometry op) (OpFitsAt when geometry op → ⊥) }
{
    if matches!(op, Op::Release { .. }) && !may_release(when) {
        return false;
    }
    op.fits(geometry)
}

/// Returns the place of the first operation that is not allowed.
fn first_wrong_op(geometry: Geometry, ops: &[Op], when: When) -> Option<usize>
    ensures { MatchOption result (AllByRecursion (OpFitsAt when geometry) ops.now) (IsFirstWrong (AllByRecursion (OpFitsAt when geometry)) ops.now) }
{
    for (place, op) in ops.iter().enumerate() {
        if !op_fits_at(geometry, *op, when) {
            return Some(place);
        }
    }
    None
}

/// Returns the first fault of a virtual processor.
fn vcpu_fault(version: Version, geometry: Geometry, vcpu: &Vcpu) -> Option<VcpuFault>
    ensures { MatchOption result (VcpuFits version geometry vcpu.now) (IsVcpuFault version geometry vcpu.now) }
{
    let before = vcpu.before_move.as_slice();
    let after = vcpu.after_move.as_slice();
    if before.len() > MOST_OPS as usize {
        return Some(VcpuFault::ManyBefore);
    }
    if after.len() > MOST_OPS as usize {
        return Some(VcpuFault::ManyAfter);
    }
    if let Some(place) = first_wrong_op(geometry, before, When::BeforeMove) {
        return Some(VcpuFault::Before(place));
    }
    if let Some(place) = first_wrong_op(geometry, after, When::AfterMove(version)) {
        return Some(VcpuFault::After(place));
    }
    None
}

/// Returns the first virtual processor that has a fault, with its fault.
pub fn first_vcpu_fault(
    version: Version,
    geometry: Geometry,
    vcpus: &[Vcpu],
) -> Option<(u8, VcpuFault)>
    requires { AreAsMany vcpus.now }
    ensures { MatchOption result (AllByRecursion (VcpuFits version geometry) vcpus.now) (λ f. IsFirstVcpuFault version geometry vcpus.now f.0 f.1) }
{
    for (number, vcpu) in vcpus.iter().enumerate() {
        if let Some(fault) = vcpu_fault(version, geometry, vcpu) {
            return Some((number as u8, fault));
        }
    }
    None
}

/// Returns whether all cells are zero.
fn are_zeros(cells: &[u64]) -> bool
    ensures { MatchBool result (AreZeros cells.now) (AreZeros cells.now → ⊥) }
{
    cells.iter().all(|&value| value == 0)
}

/// Returns whether a page of the machine has one value for each cell, not all of them zero.
fn content_fits(geometry: Geometry, page: &InitPage) -> bool
    requires { page.now.page < geometry.pages }
    ensures { MatchBool result (InitPageFits geometry page.now) (InitPageFits geometry page.now → ⊥) }
{
    let values = page.cells.as_slice();
    values.len() == geometry.cells() as usize && !are_zeros(values)
}

/// Returns whether a page is allowed among the initial pages after those below `least`: it must be one of the
/// machine's, with one value for each cell, not all of them zero.
fn page_fits(geometry: Geometry, least: u32, page: &InitPage) -> bool
    ensures { MatchBool result ((least ≤ page.now.page) × InitPageFits geometry page.now) ((least ≤ page.now.page) × InitPageFits geometry page.now → ⊥) }
{
    least <= page.page.number() && geometry.has_page(page.page) && content_fits(geometry, page)
}

/// Returns the place of the first initial page that is not allowed there.
pub fn first_wrong_page(geometry: Geometry, init: &[InitPage]) -> Option<usize>
    ensures { MatchOption result (AreInitPages geometry init.now) (IsFirstWrong (AreInitPages geometry) init.now) }
{
    let mut least = 0;
    for (place, page) in init.iter().enumerate() {
        if !page_fits(geometry, least, page) {
            return Some(place);
        }
        least = page.page.number() + 1;
    }
    None
}
