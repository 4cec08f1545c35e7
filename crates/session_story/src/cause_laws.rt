//! The laws about the causes of wrong reads.

ghost use Rattle.std.specs.Prelude.{◌≡◌, ℕ, List};
ghost use Rattle.migration_types.specs.Receipts.{Name};
ghost use Rattle.migration_types.specs.Sessions.{Recorded};
ghost use Rattle.audit_model.specs.declared.home.Home.TheVariants.{AtTarget};
ghost use Rattle.audit_model.specs.Fitting.{Fits};
ghost use Rattle.audit_model.specs.Flat.{home};
ghost use Rattle.audit_model.specs.Mergings.{HasMerging};
ghost use Rattle.audit_model.specs.Shape.{IsRightShape};
ghost use Rattle.session_story.specs.CauseLaws.{Explains, GivesIn, IsWrongRead, Shows};
ghost use Rattle.session_story.specs.Explained.{IsExplained, IsUnexplained};
ghost use Rattle.session_story.specs.Giving.{IsGiver};
ghost use Rattle.session_story.specs.declared.fault_stories.PageCause.{PageCause};

/// A law: where a placement may have given a read at the target its value, a merging shows it. So does one show each
/// cause of a read: a placement gives the read its value, or the page's first use at the target finds the page not
/// there. The session has the right shape and a merging. Runs nothing.
pub fn given_is_explained()
    ensures given { (s : Recorded) (n q : ℕ) → IsRightShape s → HasMerging s → home s n ≡ AtTarget → IsGiver s n q → (order : List Name) × GivesIn s n q order }
    ensures explained { (s : Recorded) (n page : ℕ) (c : PageCause) → IsRightShape s → HasMerging s → IsExplained s n page c → (order : List Name) × Shows s n page c order }
{}

/// A law: no merging explains a wrong read at the target that has no such cause, but shows a change that is lost or
/// lacks a record. The session has the right shape, and its records fit its machine. Runs nothing.
pub fn lost_is_unexplained()
    ensures { (s : Recorded) (n page : ℕ) (order : List Name) → Fits s → IsRightShape s → IsWrongRead s n page → IsUnexplained s n page → Explains s n order → ⊥ }
{}
