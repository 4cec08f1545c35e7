//! The laws about the definitions.

ghost use Rattle.std.specs.Prelude.{ℕ};
ghost use Rattle.migration_types.specs.Sessions.{Recorded};
ghost use Rattle.audit_model.specs.Windows.{Numbers};
ghost use Rattle.windows.specs.Origins.{TellsOrigins};

/// A law: each line of a window's text has a line of the recording's text that it comes from, and that line is the one
/// that the window keeps. Runs nothing.
pub fn origins_are_told()
    ensures { (number : Numbers) (count : ℕ) (s : Recorded) → TellsOrigins number count s }
{}
