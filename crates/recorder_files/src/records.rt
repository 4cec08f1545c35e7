//! The records of the parties' logs.

ghost use Rattle.std.specs.Prelude.{◌≡◌, ◌≢◌, ℕ, List, IfOk, IfErr};
ghost use Rattle.recordings.specs.Recordings.{IsMachine, IsGuestRecOf, IsLaneRecOf, IsLinkRecOf};
ghost use Rattle.recordings.specs.Wide.{extent_of, guest_of, lane_of, link_of};
ghost use Rattle.recordings.specs.declared.machine.WideMachine.{WideMachine as Described};
ghost use Rattle.session_grammar.specs.Records.{guest_line, lane_line, link_line};

use recordings::{WideGuest, WideLane, WideLink, WideMachine};
use std::alloc::Global;
use text_lines::FaultKind;

/// A record of a party's log.
pub trait LogRecord: Drop {
    /// Its line.
    ghost line: { Self → List ℕ };

    /// Its numbers are within the machine.
    ghost IsOf: { Described → Self → Type 0 };

    /// Returns the record that a line spells.
    ///
    /// # Errors
    ///
    /// The line spells none, or memory was refused for its contents.
    fn read_line(alloc: Global, machine: &WideMachine, text: &[u8]) -> Result<Self, FaultKind>
        requires { IsMachine (extent_of machine.now) }
        ensures found { IfOk result (λ r. IsOf machine.now r × (text.now ≡ line r)) }
        ensures refused { IfErr result (λ kind. kind ≢ FaultKind.Memory → (r : Self) → IsOf machine.now r → text.now ≢ line r) };
}

impl LogRecord for WideGuest {
    ghost line = { λ r. guest_line (guest_of r) };

    ghost IsOf = { λ machine r. IsGuestRecOf (extent_of machine) (guest_of r) };

    #[inline(always)]
    fn read_line(
        alloc: Global,
        machine: &WideMachine,
        text: &[u8],
    ) -> Result<WideGuest, FaultKind> {
        let _ = alloc;
        WideGuest::read(machine, text)
    }
}

impl LogRecord for WideLink {
    ghost line = { λ r. link_line (link_of r) };

    ghost IsOf = { λ machine r. IsLinkRecOf (link_of r) };

    #[inline(always)]
    fn read_line(alloc: Global, machine: &WideMachine, text: &[u8]) -> Result<WideLink, FaultKind> {
        let _ = alloc;
        let _ = machine;
        WideLink::read(text)
    }
}

impl LogRecord for WideLane {
    ghost line = { λ r. lane_line (lane_of r) };

    ghost IsOf = { λ machine r. IsLaneRecOf machine.version (lane_of r) };

    #[inline(always)]
    fn read_line(alloc: Global, machine: &WideMachine, text: &[u8]) -> Result<WideLane, FaultKind> {
        let _ = alloc;
        WideLane::read(machine, text)
    }
}
