//! The laws of cut logs.

ghost use Rattle.std.specs.Prelude.{◌≡◌, ◌↔◌, ℕ, List};
ghost use Rattle.migration_types.specs.Receipts.{Name};
ghost use Rattle.migration_types.specs.Sessions.{Recorded, IsSession};
ghost use Rattle.audit_model.specs.Mergings.{IsMerging, HasMerging, Cursors};
ghost use Rattle.audit_model.specs.Fitting.{Fits};
ghost use Rattle.audit_model.specs.World.{IsSafe};
ghost use Rattle.audit_model.specs.Shape.{IsRightShape};
ghost use Rattle.audit_model.specs.Faults.{HasNoPageFault};
ghost use Rattle.page_facts.specs.PageFaults.{IsClean};
ghost use Rattle.kept_faults.specs.Left.{HasNoFault, without_lone, left_of, HasSafeFront};
ghost use Rattle.recorder_files.specs.Fronts.{IsFront, cut_to};
ghost use Rattle.kept_faults.specs.FrontLaws.{HasHalt, KeepsFaults, LacksFault, FaultsWere, KeepsFirstFaults, FirstFaultsWere, FirstFaultsAreLater, HasState, KeepsShape, KeepsShapeFaults, KeepsMergings, MergingsGoOn, IsPart};

/// A front has the first records of each log, with their numbers, and all that these name. In logs that are cut to a
/// front with the halt, a record of the front has the faults of its page that it has in the session, and no others. Each
/// front of a session of the right shape has the halt, if it has records of the source or of the pager. That a placement
/// comes over a release may not show where the front lacks that release. A page's first fault is its first in the cut
/// session, if it still shows there. A page's first fault in the cut session was its first, if the front has all records
/// of the logs above. In any front, a page with a first fault in the cut session has one in the session: the same, or one
/// that stands before it and no longer shows. A page is clean in the cut session if it is clean in the session, and no
/// record has a fault of its page if none has one in the session.
pub fn fronts_keep_faults()
    ensures kept { (s : Recorded) (c : Cursors) → IsFront s c → HasHalt s c → KeepsFaults s c }
    ensures were { (s : Recorded) (c : Cursors) → IsFront s c → HasHalt s c → FaultsWere s c }
    ensures lacking { LacksFault }
    ensures halt { (s : Recorded) (c : Cursors) → IsFront s c → IsRightShape s → HasHalt s c }
    ensures first { (s : Recorded) (c : Cursors) → IsFront s c → HasHalt s c → KeepsFirstFaults s c }
    ensures was_first { (s : Recorded) (c : Cursors) → IsFront s c → HasHalt s c → FirstFaultsWere s c }
    ensures later { (s : Recorded) (c : Cursors) → IsFront s c → HasHalt s c → FirstFaultsAreLater s c }
    ensures clean_page { (s : Recorded) (c : Cursors) (page : ℕ) → IsFront s c → HasHalt s c → IsClean s page → IsClean (cut_to c s) page }
    ensures clean { (s : Recorded) (c : Cursors) → IsFront s c → HasHalt s c → HasNoPageFault s → HasNoPageFault (cut_to c s) }
{}

/// A record with the right shape keeps it in logs that are cut to a front. Only `halted` needs the state beside it, which
/// a front may lack. A record with a fault of its shape keeps the fault, but for `back`: how the logs end decides it. So
/// logs that are cut to a front have the right shape if the session has it, unless `halted` is alone in the source's log.
/// Logs that are cut anywhere fit the machine if the session does, and are a session if it is one.
pub fn fronts_keep_shapes()
    ensures records { (s : Recorded) (c : Cursors) → IsFront s c → KeepsShape s c }
    ensures faults { (s : Recorded) (c : Cursors) → IsFront s c → KeepsShapeFaults s c }
    ensures fits { (s : Recorded) (c : Cursors) → Fits s → Fits (cut_to c s) }
    ensures session { (s : Recorded) (c : Cursors) → IsSession s → IsSession (cut_to c s) }
    ensures right { (s : Recorded) (c : Cursors) → IsFront s c → HasState c → IsRightShape s → IsRightShape (cut_to c s) }
{}

/// A merging of a session is a merging of its logs that are cut to a front, once the names of the other records are left
/// out. A merging of the cut session goes on to one of the session, with the other records in the order of any merging of
/// the session. So if the session has a merging, the cut session has exactly the mergings that are parts of those.
pub fn fronts_keep_mergings()
    ensures kept { (s : Recorded) (c : Cursors) → IsFront s c → KeepsMergings s c }
    ensures merges { (s : Recorded) (c : Cursors) → IsFront s c → HasMerging s → HasMerging (cut_to c s) }
    ensures exactly { (s : Recorded) (c : Cursors) (order : List Name) → IsFront s c → HasMerging s → IsMerging (cut_to c s) order ↔ IsPart s c order }
    ensures go_on { (s : Recorded) (c : Cursors) → IsFront s c → MergingsGoOn s c }
{}

/// A front of a safe session that has a merging is safe. A front of a session without a fault has none, unless `halted` is
/// alone in the source's log. In the right shape, a front without that record is still a front. A front of the first
/// records of a session's logs is a front of the session. So where logs end early, anywhere, what is left of them once
/// they are cut to a front has no fault if the session has none: a cut session that is faulty was faulty. It is safe if
/// the session is safe, has the right shape and has a merging. The other way round, nothing is said of what is left out:
/// an unsafe session can have a safe front.
pub fn cut_and_faulty_was_faulty()
    ensures safe { (s : Recorded) (c : Cursors) → IsFront s c → HasMerging s → IsSafe s → IsSafe (cut_to c s) }
    ensures no_fault { (s : Recorded) (c : Cursors) → IsFront s c → HasState c → HasNoFault s → HasNoFault (cut_to c s) }
    ensures lone { (s : Recorded) (c : Cursors) → IsFront s c → IsRightShape s → IsFront s (without_lone s c) × HasState (without_lone s c) }
    ensures recorded { (s : Recorded) (d c : Cursors) → IsFront (cut_to d s) c → IsFront s c × (cut_to c (cut_to d s) ≡ cut_to c s) }
    ensures left { (s : Recorded) (d c : Cursors) → IsFront (cut_to d s) c → HasNoFault s → HasNoFault (left_of c (cut_to d s)) }
    ensures left_safe { (s : Recorded) (d c : Cursors) → IsFront (cut_to d s) c → IsRightShape s → HasMerging s → IsSafe s → IsSafe (left_of c (cut_to d s)) }
    ensures unsaid { HasSafeFront }
{}
