//! The laws about the definitions.

ghost use Rattle.std.specs.Prelude.{ℕ, List, [], ◌∷◌, ◌++◌, ◌<◌, ◌↔◌};
ghost use Rattle.migration_types.specs.Certs.{Certified};
ghost use Rattle.migration_types.specs.Receipts.{Name};
ghost use Rattle.migration_types.specs.Sessions.{Recorded, IsSession};
ghost use Rattle.migration_types.specs.declared.records.LogName.{LogName};
ghost use Rattle.audit_model.specs.Names.{log_length};
ghost use Rattle.audit_model.specs.Mergings.{IsMerging, HasMerging, Cursors};
ghost use Rattle.audit_model.specs.Walks.{IsWholeWalk, IsStuck, IsGrown};
ghost use Rattle.audit_model.specs.FoundOrder.{IsKnot};
ghost use Rattle.audit_model.specs.World.{IsSafe};
ghost use Rattle.audit_model.specs.Worlds.{FollowsCursors, TargetIsFlat};
ghost use Rattle.audit_model.specs.Shape.{IsRightShape};
ghost use Rattle.audit_model.specs.Fitting.{Fits, FitsSize, IsWithinLimits};
ghost use Rattle.audit_model.specs.Faults.{HasNoPageFault};
ghost use Rattle.audit_model.specs.Windows.{Numbers, numbers_from, IsNumbering, IsWindow, window};
ghost use Rattle.audit_model.specs.WindowLaws.{KeepsPageFaults, KeepsBoth, StartsRight, IsRightWithin, MergesThrough, IsCleanThroughWindows};
ghost use Rattle.audit_model.specs.Laws.{IsCertified, FindsResident, ReadsFlat, PlacedOnce, PlacedUntouched, ReleasedAsZeros, IsMigrated, IsFaultless, FaultsBreak, DelayedBreaks, DelayedUnplaced, HasDelayedOrders, UnplacedBreaks, DelayedOver, SafeExactlyIfClean, HasCertificate, FirstVersionIsPlain, CertifiedFromSource, CertifiedOverLane, CertifiedBalloon, CertifiedFresh};

/// A list of names is a merging exactly when it is a walk of one cursor for each log, to the end of each log. If
/// records are left and none of the next ones may follow, there is no merging. There is none either if the found order
/// ends in a knot. A session that grows by a record whose receipt names one of its records keeps its mergings.
pub fn mergings_are_walks()
    ensures walks { (s : Recorded) (order : List Name) → IsMerging s order ↔ IsWholeWalk s order }
    ensures stuck { (s : Recorded) (c : Cursors) (log : LogName) → IsStuck s c → c log < log_length s log → HasMerging s → ⊥ }
    ensures knotted { (s : Recorded) (line : ℕ) → IsKnot s line → HasMerging s → ⊥ }
    ensures grown { (s t : Recorded) (name : Name) (order : List Name) → IsGrown s t name → IsMerging s order → IsMerging t (order ++ name ∷ []) }
{}

/// In a session of the right shape, how many records of each log were taken decides the world at each point of each
/// merging: where the guest is, the source's memory and ledger, and which pages are touched, placed and resident. If
/// the session also has a right certificate, it decides the target's memory on the resident pages too: that is the flat
/// machine's.
pub fn worlds_follow_cursors()
    ensures worlds { (s : Recorded) → IsRightShape s → FollowsCursors s }
    ensures target { (s : Recorded) (c : Certified) → IsCertified s c → TargetIsFlat s }
{}

/// A session of the right shape with a right certificate has a merging and is safe: in each of its mergings, the demand
/// of each record holds. So each read or write at the target finds its page, each read gives what one machine that
/// never moved gives, each page is placed at most once and before any use of it, and a released page comes back as
/// zeros.
pub fn certified_is_safe()
    ensures safe { (s : Recorded) (c : Certified) → IsCertified s c → IsSafe s }
    ensures has_merging { (s : Recorded) (c : Certified) → IsCertified s c → HasMerging s }
    ensures finds_resident { (s : Recorded) (c : Certified) → IsCertified s c → FindsResident s }
    ensures reads_flat { (s : Recorded) (c : Certified) → IsCertified s c → ReadsFlat s }
    ensures placed_once { (s : Recorded) (c : Certified) → IsCertified s c → PlacedOnce s }
    ensures placed_untouched { (s : Recorded) (c : Certified) → IsCertified s c → PlacedUntouched s }
    ensures released_as_zeros { (s : Recorded) (c : Certified) → IsCertified s c → ReleasedAsZeros s }
    ensures migrated { (s : Recorded) (c : Certified) → IsCertified s c → IsMigrated s }
{}

/// A session of the right shape in which no page has a fault is safe. A fault of a page breaks the demand at its
/// record. An early access breaks it if its page's placement is delayed, so that no placement of the page comes before
/// it, or in each merging if the page has no placement. A placement over a release breaks it if the placement is
/// delayed. Any other fault breaks it in each merging. So if there is a merging, a session of any size that fits its
/// machine is safe exactly when no page has a fault.
pub fn faults_are_unsafe()
    ensures clean { (s : Recorded) → IsFaultless s → IsSafe s }
    ensures faults { (s : Recorded) → IsRightShape s → FaultsBreak s }
    ensures delayed { (s : Recorded) → IsRightShape s → DelayedBreaks s }
    ensures delayed_unplaced { (s : Recorded) → IsRightShape s → DelayedUnplaced s }
    ensures has_delayed { (s : Recorded) → HasDelayedOrders s }
    ensures delayed_over { (s : Recorded) → IsRightShape s → DelayedOver s }
    ensures unplaced { (s : Recorded) → IsRightShape s → UnplacedBreaks s }
    ensures exactly { (s : Recorded) → SafeExactlyIfClean s }
{}

/// A session of the right shape in which no page has a fault has a right certificate, over any runs that spell a
/// merging.
pub fn clean_is_certified()
    ensures { (s : Recorded) → IsFaultless s → HasCertificate s }
{}

/// A session of the first version and of the right shape has nothing that is new in the second.
pub fn first_version_is_plain()
    ensures { (s : Recorded) → FirstVersionIsPlain s }
{}

/// There are sessions of the right shape with right certificates: one in which a page comes from the source over the
/// link, one in which it comes over the lane, one in which a released page comes back as zeros, all used at the target,
/// and one in which the guest releases a page at the target before it comes, and it never comes.
pub fn premises_can_be_met()
    ensures from_source { CertifiedFromSource }
    ensures over_lane { CertifiedOverLane }
    ensures balloon { CertifiedBalloon }
    ensures fresh { CertifiedFresh }
{}

/// A session is a recording whose records fit its machine, within the limits of its size. These limits are not what
/// makes it safe: a session of any size that fits and has the right shape is safe if no page has a fault.
pub fn any_size_is_judged_alike()
    ensures session { (s : Recorded) → IsSession s ↔ (Fits s × IsWithinLimits s) }
    ensures clean { (s : Recorded) → Fits s → IsRightShape s → HasNoPageFault s → IsSafe s }
{}

/// A window has only the records of some pages. A record that a window keeps has the same faults of its page in the
/// window as in the session, whatever the shape. A guest that ran on both sides did so in the window too. A session of
/// the right shape keeps its shape and its mergings. So a session of any size that fits its machine is clean if each of
/// its pages is in a clean window. If it also has the right shape, it is then safe, and, if it has a merging, only
/// then. No window shows that the session has the right shape or a merging.
pub fn windows_keep_faults()
    ensures kept { (s : Recorded) (number : Numbers) (count : ℕ) → IsNumbering number → KeepsPageFaults s number count }
    ensures both { (s : Recorded) (number : Numbers) (count : ℕ) → KeepsBoth s number count }
    ensures clean { (s : Recorded) (number : Numbers) (count : ℕ) → IsNumbering number → HasNoPageFault s → HasNoPageFault (window number count s) }
    ensures right { (s : Recorded) (number : Numbers) (count : ℕ) → IsNumbering number → IsRightShape s → IsRightShape (window number count s) }
    ensures merges { (s : Recorded) (number : Numbers) (count : ℕ) → IsRightShape s → MergesThrough s number count }
    ensures cover { (s : Recorded) → Fits s → IsCleanThroughWindows s → HasNoPageFault s }
    ensures safe { (s : Recorded) → Fits s → IsRightShape s → IsCleanThroughWindows s → IsSafe s }
    ensures exactly { (s : Recorded) → Fits s → IsRightShape s → HasMerging s → IsSafe s ↔ IsCleanThroughWindows s }
{}

/// A window has the right shape if the session starts as it must and each record in the window has the right shape,
/// whatever the shape of the records outside it.
pub fn windows_leave_misshapen_records_out()
    ensures { (s : Recorded) (number : Numbers) (count : ℕ) → IsNumbering number → StartsRight s → IsRightWithin s number → IsRightShape (window number count s) }
{}

/// A window of this many pages in their order, such as consecutive pages, gives no two pages the same number. Through a
/// window, a session of any size that fits its machine fits the window's machine. If it has the right shape, and the
/// window's pages and the kept records of each log are within the limits, it is a session within all limits.
pub fn windows_are_sessions()
    ensures contiguous { (first count : ℕ) → IsWindow (numbers_from first count) count }
    ensures numbering { (number : Numbers) (count : ℕ) → IsWindow number count → IsNumbering number }
    ensures fits { (s : Recorded) (number : Numbers) (count : ℕ) → IsWindow number count → Fits s → Fits (window number count s) }
    ensures session { (s : Recorded) (number : Numbers) (count : ℕ) → IsWindow number count → Fits s → IsRightShape s → FitsSize (window number count s) → IsSession (window number count s) }
{}
