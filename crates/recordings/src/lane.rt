//! Lines of the lane's records.

ghost use Rattle.std.specs.Prelude.{◌≡◌, ◌≢◌, ◌∷◌, [], ◌++◌, IfOk, IfErr, OnOk};
ghost use Rattle.migration_types.specs.declared.records.LaneRec.{LaneRec};
ghost use Rattle.session_grammar.specs.Records.{lane_line};
ghost use Rattle.recordings.specs.Recordings.{IsLaneRecOf};
ghost use Rattle.recordings.specs.Wide.{lane_of};

use crate::fields::lane_number;
use crate::link::DOWN_KEY;
use crate::machine::WideMachine;
use crate::wide::WideLane;
use std::alloc::AllocError;
use text_lines::{FaultKind, push_keyed};

impl WideLane {
    /// Returns the record of the lane that a line spells. Only the second version has one.
    ///
    /// # Errors
    ///
    /// The line does not spell one.
    #[inline(always)]
    pub fn read(machine: &WideMachine, line: &[u8]) -> Result<WideLane, FaultKind>
        ensures found { IfOk result (λ r. IsLaneRecOf machine.now.version (lane_of r) × (line.now ≡ lane_line (lane_of r))) }
        ensures refused { IfErr result (λ kind. kind ≢ FaultKind.Memory → (r : LaneRec) → IsLaneRecOf machine.now.version r → line.now ≢ lane_line r) }
        ensures kind { IfErr result (λ kind. kind ≢ FaultKind.Memory) }
    {
        match lane_number(machine.version, line, DOWN_KEY) {
            Some(sending) => Ok(WideLane::Down { sending }),
            None => Err(FaultKind::Form),
        }
    }

    /// Appends its line, with the line feed. Fails only if memory runs out.
    pub fn push(&self, out: &mut Vec<u8>) -> Result<(), AllocError>
        ensures { OnOk result (out.new.items ≡ out.old.items ++ (lane_line (lane_of self.now) ++ 10 ∷ [])) }
    {
        let WideLane::Down { sending } = *self;
        push_keyed(out, DOWN_KEY, sending)
    }
}
