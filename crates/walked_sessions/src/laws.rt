//! A law of the recording that files make.

ghost use Rattle.std.specs.Prelude.{◌≡◌, List};
ghost use Rattle.migration_types.specs.declared.records.LogName.{LogName};
ghost use Rattle.migration_types.specs.Sessions.{Recorded};
ghost use Rattle.recordings.specs.Recordings.{IsMachine};
ghost use Rattle.recordings.specs.Wide.{extent_of};
ghost use Rattle.recordings.specs.declared.machine.WideMachine.{WideMachine};
ghost use Rattle.recordings.specs.declared.wide.WideInit.{WideInit};
ghost use Rattle.walked_sessions.specs.Walks.{AreKnown, Bytes, IsRecordingOf};

/// A law: where the bytes of the files of all logs are known, they make no two recordings. So two passes over files that stay the
/// same meet one recording. Runs nothing.
pub fn files_make_one_recording()
    ensures { (machine : WideMachine) (init : List WideInit) (bytes : Bytes) (s t : Recorded) → IsMachine (extent_of machine) → ((log : LogName) → AreKnown bytes log) → IsRecordingOf machine init bytes s → IsRecordingOf machine init bytes t → s ≡ t }
{}
