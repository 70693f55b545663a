//! Whom an audit doesn't accuse.

ghost use Rattle.std.specs.Prelude.{◌≡◌, ℕ, ◌<◌, false, List};
ghost use Rattle.ab_num.specs.declared.party.Party.TheVariants.{Replica};
ghost use Rattle.ab_abs.specs.Faults.{is_faulty};
ghost use Rattle.ab_order.specs.Protos.{OrderProto, Obeys};
ghost use Rattle.ab_pbft_rules.specs.Rules.{Pbft, pbft};
ghost use Rattle.ab_sign.specs.declared.key.SignKey.{SignKey};
ghost use Rattle.ab_audit.specs.declared.accusation.Accusation.{Accusation};
ghost use Rattle.ab_audit.specs.Accusations.{IsAccused};
ghost use Rattle.ab_audit.specs.Correct.{FindsItsOwn, StatesOnce, accused_replica};
ghost use Rattle.ab_run.specs.Setups.{RunSetup, replicas};
ghost use Rattle.ab_run.specs.Runs.{Event, run};
ghost use Rattle.ab_run.specs.Premises.{AreFormed};
ghost use Rattle.ab_promises.specs.AllKinds.{any_kind};

use crate::once::correct_replicas_state_once;
use ab_audit::correct_replicas_are_not_accused;
use ab_svc::Service;

/// If each statement that an audit finds in the name of a correct replica was made by it in one run, the audit doesn't
/// accuse it: whatever else came to the run and to the audit, and whatever was forged.
pub fn runs_accuse_no_correct_replica<S: Service, Q>()
    ensures once { (orders : OrderProto Q Pbft) (k : RunSetup) (events : List Event) (r : ℕ) → Obeys orders pbft → AreFormed k events → r < replicas k → is_faulty k.faulty (Replica r) ≡ false
        → StatesOnce (run k (any_kind S.machine orders) events).made r }
    ensures accused { (orders : OrderProto Q Pbft) (k : RunSetup) (events : List Event) (r : ℕ) (keys : List SignKey) (inputs : List (List ℕ)) (a : Accusation)
        → Obeys orders pbft → AreFormed k events → r < replicas k → is_faulty k.faulty (Replica r) ≡ false
        → FindsItsOwn keys inputs (run k (any_kind S.machine orders) events).made r → accused_replica a ≡ r → IsAccused keys inputs a → ⊥ }
{
    correct_replicas_state_once::<S, Q>();
    correct_replicas_are_not_accused();
}
