//! What the CHECKPOINTs that a replica keeps say.

ghost use Rattle.std.specs.Prelude.{◌≡◌, ℕ, ◌<◌, ◌≤◌, ◌↔◌, Bool, true, false, nat_eq, if◌then◌else◌, None, Some, List};
ghost use Rattle.ab_hist.specs.declared.request.Request.{Request};
ghost use Rattle.ab_ckpt.specs.Marks.{Mark, AreByReplica, mark_by, keep_mark, later_of, due_of, is_stable, stable_of, AreStable};

/// One that comes leaves at most one of each replica. It changes nothing of other replicas', and of its own replica the one of the more
/// entries is kept, the earlier of two that are of as many.
pub fn kept_marks_are_the_latest()
    ensures order { (v : Mark) (marks : List Mark) → AreByReplica 0 marks → AreByReplica 0 (keep_mark v marks) }
    ensures each { (v : Mark) (r : ℕ) (marks : List Mark) → AreByReplica 0 marks → mark_by r (keep_mark v marks) ≡ (if nat_eq v.by r then later_of v (mark_by r marks) else mark_by r marks) }
{}

/// If at most one CHECKPOINT of each replica is kept, it is found exactly how many first entries are stable.
pub fn stable_entries_are_found()
    ensures { (replicas trimmed n : ℕ) (log : List Request) (marks : List Mark) → AreByReplica 0 marks → 1 ≤ replicas
        → (stable_of replicas trimmed log marks ≡ Some n ↔ ((d : List ℕ) × (is_stable replicas trimmed log n d marks ≡ true))) }
{}

/// What is stable begins the log, isn't all trimmed, and each replica's CHECKPOINT of it is kept.
pub fn stable_entries_are_marked()
    ensures { (replicas trimmed n : ℕ) (log : List Request) (marks : List Mark) → stable_of replicas trimmed log marks ≡ Some n → AreStable replicas trimmed log marks n }
{}

/// A CHECKPOINT is due of a replica that isn't stopped, of more entries than are trimmed and than the last one, and the log has them.
/// None is due in a cluster that makes none.
pub fn due_entries_are_of_the_log()
    ensures log { (every sent trimmed len n : ℕ) (stopped : Bool) → due_of every stopped sent trimmed len ≡ Some n → (stopped ≡ false) × (trimmed < n) × (sent < n) × (n ≤ len) }
    ensures never { (sent trimmed len : ℕ) (stopped : Bool) → due_of 0 stopped sent trimmed len ≡ None }
{}
