//! What the acts of correct replicas promise.

ghost use Rattle.std.specs.Prelude.{◌≡◌, ℕ, suc, ◌*◌, Bool, None, List, ◌++◌};
ghost use Rattle.ab_num.specs.declared.party.Party.{Party};
ghost use Rattle.ab_lock.specs.Steps.{Step, state_of, Follows};
ghost use Rattle.ab_lock.specs.Acts.{LockAct};
ghost use Rattle.ab_lock.specs.Promises.{LockPremises, ViewsLock, ExecutedAgree, ExecutedMayStand};
ghost use Rattle.ab_lock.specs.Votes.{SlotVote, next, settled};
ghost use Rattle.ab_lock.specs.Events.{state_by, votes_by, commits_by};

/// Where f + 1 correct replicas prepared a value in a slot, each certificate of that view or a later
/// one for the slot has it.
pub fn views_lock<V, X>()
    ensures { (digest : V → X) (may_stand : ℕ → V → Bool) (goes : List V → V → Bool) (k f : ℕ) (faulty : List Party) (acts : List (LockAct V X)) → LockPremises digest may_stand goes k f faulty acts → ViewsLock f faulty acts digest }
{}

/// Of what two correct replicas executed one begins the other.
pub fn executed_lists_agree<V, X>()
    ensures { (digest : V → X) (may_stand : ℕ → V → Bool) (goes : List V → V → Bool) (k f : ℕ) (faulty : List Party) (acts : List (LockAct V X)) → LockPremises digest may_stand goes k f faulty acts → ExecutedAgree f faulty acts }
{}

/// Each value that a correct replica executed in a slot is one that may stand there.
pub fn executed_values_may_stand<V, X>()
    ensures { (digest : V → X) (may_stand : ℕ → V → Bool) (goes : List V → V → Bool) (k f : ℕ) (faulty : List Party) (acts : List (LockAct V X)) → LockPremises digest may_stand goes k f faulty acts → ExecutedMayStand f faulty acts may_stand }
{}

/// A replica that goes on by itself keeps to the rules, whatever votes it has; and after 3 (k + 1) + 1
/// steps at most it has done all that it can.
pub fn replicas_settle<V, X>()
    ensures follows { (digest : V → X) (same : X → X → Bool) (goes : List V → V → Bool) (k f me n : ℕ) (trace : List (Step V X)) (votes commits : List (SlotVote X)) → Follows digest goes k trace
        → Follows digest goes k (settled digest same goes f me n (state_of trace) votes commits ++ trace) }
    ensures ends { (digest : V → X) (same : X → X → Bool) (goes : List V → V → Bool) (k f me : ℕ) (trace : List (Step V X)) (votes commits : List (SlotVote X)) → Follows digest goes k trace
        → let steps = settled digest same goes f me (suc (3 * suc k)) (state_of trace) votes commits in
        next digest same goes f (state_by steps (state_of trace)) (votes_by me steps votes) (commits_by digest me steps commits) ≡ None }
{}
