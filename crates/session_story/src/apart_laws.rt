//! The laws about the pages that misshapen records do not touch.

ghost use Rattle.std.specs.Prelude.{ℕ};
ghost use Rattle.migration_types.specs.Sessions.{Recorded};
ghost use Rattle.audit_model.specs.Shape.{IsRightShape};
ghost use Rattle.audit_model.specs.Windows.{numbers_from, window};
ghost use Rattle.session_story.specs.Apart.{IsApart};

/// A law: the window of a page that misshapen records do not touch has the right shape. Runs nothing.
pub fn apart_pages_stand()
    ensures { (s : Recorded) (page : ℕ) → IsApart s page → IsRightShape (window (numbers_from page 1) 1 s) }
{}
