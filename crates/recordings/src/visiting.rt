//! Visitors, which go through a recording.

ghost use Rattle.std.specs.Prelude.{OnOk};
ghost use Rattle.migration_types.specs.Sessions.{Recorded as Rec};
ghost use Rattle.recordings.specs.Recordings.{IsMachine};
ghost use Rattle.recordings.specs.Seen.{nothing_of, with_init, with_record, BeforeGuest, IsNext};
ghost use Rattle.recordings.specs.Wide.{extent_of, init_of};

use crate::machine::WideMachine;
use crate::wide::{Wide, WideInit};
use std::alloc::AllocError;

/// A visitor of a recording. It meets what the recording consists of, in the order of the text: the machine, the pages
/// that do not begin as zeros, and each log's records with their numbers. Each call fails only if memory runs out for
/// what the visitor keeps.
pub trait Visitor {
    ghost use Rattle.migration_types.specs.Sessions.{Recorded};

    /// The visitor has met nothing.
    ghost IsNew: { Self → Type 0 };

    /// The visitor has met this much of a recording.
    ghost Met: { Self → Recorded → Type 0 };

    /// Meets the machine.
    fn machine(&mut self, machine: &WideMachine) -> Result<(), AllocError>
        requires new { IsNew self.old }
        requires machine { IsMachine (extent_of machine.now) }
        ensures { OnOk result (Met self.new (nothing_of machine.now.version (extent_of machine.now))) };

    /// Meets a page that does not begin as zeros.
    fn init(&mut self, page: WideInit) -> Result<(), AllocError>
        ensures { (d : Rec) → BeforeGuest d → Met self.old d → OnOk result (Met self.new (with_init d (init_of page))) };

    /// Meets the next record, whose number in its log is given.
    fn record(&mut self, number: u64, rec: Wide) -> Result<(), AllocError>
        ensures { (d : Rec) → IsNext d number rec → Met self.old d → OnOk result (Met self.new (with_record d rec)) };
}
