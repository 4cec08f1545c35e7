//! The laws about recordings.

ghost use Rattle.migration_types.specs.Sessions.{Recorded, IsSession};
ghost use Rattle.audit_model.specs.Fitting.{Fits};
ghost use Rattle.recordings.specs.Recordings.{IsRecording};

/// A law: a session within its limits is a recording. Runs nothing.
pub fn sessions_are_recordings()
    ensures { (s : Recorded) → IsSession s → IsRecording s }
{}

/// A law: a recording fits its machine. Runs nothing.
pub fn recordings_fit()
    ensures { (s : Recorded) → IsRecording s → Fits s }
{}
