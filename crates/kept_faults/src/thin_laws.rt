//! The laws of thinned logs.

ghost use Rattle.std.specs.Prelude.{◌≡◌, List, Bool, false, ℕ, ◌↔◌};
ghost use Rattle.migration_types.specs.Sessions.{Recorded, IsSession};
ghost use Rattle.audit_model.specs.Fitting.{Fits};
ghost use Rattle.audit_model.specs.World.{IsSafe};
ghost use Rattle.audit_model.specs.Mergings.{HasMerging};
ghost use Rattle.audit_model.specs.Shape.{IsRightShape};
ghost use Rattle.audit_model.specs.Faults.{HasNoPageFault};
ghost use Rattle.page_facts.specs.PageFaults.{IsClean};
ghost use Rattle.migration_types.specs.declared.records.GuestRec.TheVariants.{Read, Write};
ghost use Rattle.audit_model.specs.Flat.{in_ledger, home};
ghost use Rattle.audit_model.specs.Worlds.{touched};
ghost use Rattle.kept_faults.specs.Thinned.{thinned, HasUsed, MayGo, IsThinning, IsThinned};
ghost use Rattle.kept_faults.specs.Repeats.{IsTold, without_repeats};
ghost use Rattle.kept_faults.specs.ThinLaws.{KeepsFaults, FaultsAreLater, KeepsFirstFaults, FirstFaultsWere, HasSameVerdict};

/// A record that thinned logs keep, and whose page was not misread before it, has the same faults of its page as in the
/// session, whatever the shape. Where one that they leave out has a fault, an earlier record of its page that they keep
/// has one too. So each page's first fault stays its first, at the same record, which has another number, and no other
/// fault becomes a first one. A page is clean exactly where it was, and no record has a fault of its page exactly where
/// none had.
pub fn thinned_logs_keep_faults()
    ensures kept { (s : Recorded) (marks : List Bool) → IsThinning marks s → KeepsFaults marks s }
    ensures later { (s : Recorded) (marks : List Bool) → IsThinning marks s → FaultsAreLater marks s }
    ensures first { (s : Recorded) (marks : List Bool) → IsThinning marks s → KeepsFirstFaults marks s }
    ensures was_first { (s : Recorded) (marks : List Bool) → IsThinning marks s → FirstFaultsWere marks s }
    ensures clean_page { (s : Recorded) (marks : List Bool) (page : ℕ) → IsThinning marks s → IsClean s page ↔ IsClean (thinned marks s) page }
    ensures clean { (s : Recorded) (marks : List Bool) → IsThinning marks s → HasNoPageFault s ↔ HasNoPageFault (thinned marks s) }
{}

/// Thinned logs have the right shape exactly where the session has it, and a merging exactly where it has one. They fit
/// its machine if it does, and are a session if it is one. So if a session of any size fits its machine, has the right
/// shape and has a merging, it is safe exactly if thinned logs of it are.
pub fn thinned_logs_keep_verdicts()
    ensures right { (s : Recorded) (marks : List Bool) → IsThinning marks s → IsRightShape s ↔ IsRightShape (thinned marks s) }
    ensures merges { (s : Recorded) (marks : List Bool) → IsThinning marks s → HasMerging s ↔ HasMerging (thinned marks s) }
    ensures fits { (s : Recorded) (marks : List Bool) → IsThinning marks s → Fits s → Fits (thinned marks s) }
    ensures session { (s : Recorded) (marks : List Bool) → IsThinning marks s → IsSession s → IsSession (thinned marks s) }
    ensures safe { (s : Recorded) (marks : List Bool) → IsThinning marks s → Fits s → IsRightShape s → HasMerging s → IsSafe s ↔ IsSafe (thinned marks s) }
{}

/// Logs may be thinned again and again. The session then has the right shape and a merging exactly if the whole has them,
/// the same pages have a fault, and each page's first fault is the same but for its record's number.
pub fn thinned_again_is_alike()
    ensures { (whole thin : Recorded) → IsThinned whole thin → HasSameVerdict whole thin }
{}

/// A read or write that gives what an earlier record of its cell gave may be left out, if no record between decides the
/// cell's value, it is not its page's first use at the target, and it does not write to a released page. In a session of
/// the right shape, all accesses that repeat what their cells have can be left out at once.
pub fn repeats_may_go()
    ensures reads { (marks : List Bool) (s : Recorded) (n vcpu page cell value : ℕ) → HasUsed (home s n) (touched s n page) → IsTold s n page cell value → MayGo marks s n (Read vcpu page cell value) }
    ensures writes { (marks : List Bool) (s : Recorded) (n vcpu page cell value : ℕ) → HasUsed (home s n) (touched s n page) → IsTold s n page cell value → in_ledger s n page ≡ false → MayGo marks s n (Write vcpu page cell value) }
    ensures all { (s : Recorded) → IsRightShape s → IsThinning (without_repeats s) s }
{}
