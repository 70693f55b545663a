//! What PBFT locks over its views, of lists of acts.

ghost use Rattle.std.specs.Prelude.{◌≡◌, ℕ, ◌≤◌, Bool, false, Some, List, slice_get};
ghost use Rattle.ab_num.specs.declared.cluster.Cluster.{Cluster};
ghost use Rattle.ab_num.specs.declared.party.Party.{Party};
ghost use Rattle.ab_num.specs.declared.plan.Kind.{Kind};
ghost use Rattle.ab_num.specs.declared.plan.Kind.TheVariants as kind;
ghost use Rattle.ab_num.specs.Places.{kind_of};
ghost use Rattle.ab_abs.specs.Acts.{setting};
ghost use Rattle.ab_abs.specs.Deeds.{acts_in};
ghost use Rattle.ab_abs.specs.Ensembles.{Proto, Ensemble, Reached};
ghost use Rattle.ab_abs.specs.Promises.{MeetsPremises};
ghost use Rattle.ab_lock.specs.Acts.{LockAct, WasMade, Prepare, steps_of};
ghost use Rattle.ab_lock.specs.Promises.{LockPremises};
ghost use Rattle.ab_lock.specs.Quorums.{IsCorrect, IsCommitted, HasPrepared};
ghost use Rattle.ab_lock.specs.Steps.{Step, signs, Follows};
ghost use Rattle.ab_order.specs.Backups.{Backing};
ghost use Rattle.ab_order.specs.Protos.{OrderProto, Obeys, backup};
ghost use Rattle.ab_pbft_rules.specs.Rules.{Pbft, pbft};
ghost use Rattle.ab_plans.specs.declared.choice.Choice.{Choice};
ghost use Rattle.ab_plans.specs.Runs.{with_backup};
ghost use Rattle.ab_promises.specs.OwnCalls.{OwnCallsKeep};
ghost use Rattle.ab_promises.specs.Certified.{SignOnce, LockViews};

use ab_svc::Service;

/// A correct replica signs at most one PREPARE for each view and slot: no two of its steps do, and so
/// all PREPAREs that it made for one have one digest.
pub fn replicas_sign_once<V, X>()
    ensures steps { (digest : V → X) (goes : List V → V → Bool) (k : ℕ) (steps : List (Step V X)) (v n a b : ℕ) (x y : X) → Follows digest goes k steps
        → slice_get steps a ≡ Some (signs v n x) → slice_get steps b ≡ Some (signs v n y) → a ≡ b }
    ensures made { (digest : V → X) (may_stand : ℕ → V → Bool) (goes : List V → V → Bool) (k f : ℕ) (faulty : List Party) (acts : List (LockAct V X)) → LockPremises digest may_stand goes k f faulty acts
        → (r v n : ℕ) (x y : X) → WasMade digest acts (Prepare r v n x) → WasMade digest acts (Prepare r v n y) → x ≡ y }
{}

/// What f + 1 correct replicas prepared in a slot, each correct replica prepares that prepares the slot
/// in that view or a later one.
pub fn prepared_values_lock<V, X>()
    ensures { (digest : V → X) (may_stand : ℕ → V → Bool) (goes : List V → V → Bool) (k f : ℕ) (faulty : List Party) (acts : List (LockAct V X)) → LockPremises digest may_stand goes k f faulty acts
        → (v w n q : ℕ) (x y : X) → IsCommitted digest f faulty (steps_of acts) v n x → v ≤ w → IsCorrect f faulty q → HasPrepared digest (steps_of acts) q w n y → y ≡ x }
{}

/// In a Backup over PBFT in which each call is its own the PREPAREs that a correct replica signs for one
/// view and slot have one digest.
pub fn pbft_signs_once<S: Service, Q>()
    ensures { (orders : OrderProto Q Pbft) → Obeys orders pbft → OwnCallsKeep (backup orders pbft S.machine) kind.Backup SignOnce }
{}

/// There, what f + 1 correct replicas prepared in a slot of a view the slot holds from then on: whatever
/// a correct replica prepares in it has that digest, and so has each valid certificate of it.
pub fn pbft_locks_views<S: Service, Q>()
    ensures { (orders : OrderProto Q Pbft) → Obeys orders pbft → OwnCallsKeep (backup orders pbft S.machine) kind.Backup LockViews }
{}

/// So in each Backup of a run that meets the premises, whatever protocol runs the instances of other kinds.
pub fn runs_lock_views<S: Service, P, Q>()
    ensures signs { (proto : Proto P) (serves : Kind → Bool) (orders : OrderProto Q Pbft) (c : Cluster) (faulty : List Party) (w : Ensemble (Choice P (Backing Q))) → Obeys orders pbft → serves kind.Backup ≡ false
        → Reached (with_backup S.machine proto serves orders) c faulty w → MeetsPremises c faulty w.run → (i : ℕ) → 1 ≤ i → kind_of c.plan i ≡ kind.Backup → SignOnce (setting c faulty i) (acts_in i w.run) }
    ensures locks { (proto : Proto P) (serves : Kind → Bool) (orders : OrderProto Q Pbft) (c : Cluster) (faulty : List Party) (w : Ensemble (Choice P (Backing Q))) → Obeys orders pbft → serves kind.Backup ≡ false
        → Reached (with_backup S.machine proto serves orders) c faulty w → MeetsPremises c faulty w.run → (i : ℕ) → 1 ≤ i → kind_of c.plan i ≡ kind.Backup → LockViews (setting c faulty i) (acts_in i w.run) }
{}
