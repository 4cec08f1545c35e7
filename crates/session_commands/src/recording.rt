//! The recording that files make.

ghost use Rattle.std.specs.Prelude.{◌↔◌, IsTrue};
ghost use Rattle.recordings.specs.Recordings.{IsMachine};
ghost use Rattle.recordings.specs.Wide.{extent_of};

use crate::files::OpenedLogs;
use migration_types::MOST_CELLS;
use recordings::{BEYOND, Visited, Visitor, WideInit, WideMachine};
use std::alloc::Global;
use text_access::TextSource;
use walked_sessions::{Messages, WalkFault, walk_logs};

/// The recording that files make: the machine, its initial pages, the files, and the messages in them.
#[derive(Drop)]
pub(crate) struct FileRecording<'a, S> {
    pub(crate) machine: WideMachine,
    pub(crate) init: Vec<WideInit>,
    pub(crate) files: OpenedLogs<'a, S>,
    pub(crate) messages: &'a Messages,
}

/// Returns whether a recording may have this machine.
pub(crate) fn is_machine(machine: &WideMachine) -> bool
    ensures { IsTrue result ↔ IsMachine (extent_of machine.now) }
{
    machine.pages >= 1
        && machine.pages < BEYOND
        && machine.cells >= 1
        && machine.cells <= MOST_CELLS
}

impl<S: TextSource> Visited for FileRecording<'_, S> {
    type Fault = WalkFault;

    ghost use Rattle.session_commands.specs.Files.{IsOfFiles};

    ghost is_recording = { λ self s. IsOfFiles S.bytes_of self s };

    fn visit<V: Visitor>(&self, alloc: Global, visitor: &mut V) -> Result<(), WalkFault> {
        if !is_machine(&self.machine) {
            return Err(WalkFault::Changed);
        }
        match walk_logs(
            alloc,
            &self.machine,
            self.init.as_slice(),
            &self.files,
            self.messages,
            visitor,
        ) {
            Ok(_) => Ok(()),
            Err(fault) => Err(fault),
        }
    }
}
