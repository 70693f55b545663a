//! What a correct replica states once, of the acts of one replica and of runs: its ABORT of an instance, and its PREPARE of
//! a view and a slot.

ghost use Rattle.std.specs.Prelude.{◌≡◌, ℕ, ◌<◌, Bool, false, List};
ghost use Rattle.ab_num.specs.declared.party.Party.TheVariants.{Replica};
ghost use Rattle.ab_num.specs.declared.plan.Kind.{Kind};
ghost use Rattle.ab_abs.specs.Ensembles.{Proto};
ghost use Rattle.ab_abs.specs.Faults.{is_faulty};
ghost use Rattle.ab_abs.specs.FormLaws.{KeepsPlace};
ghost use Rattle.ab_abs.specs.Promises.{ServesAll};
ghost use Rattle.ab_abs.specs.Kinds.{is_backup, is_zcert};
ghost use Rattle.ab_order.specs.Protos.{OrderProto, Obeys, backup};
ghost use Rattle.ab_pbft_rules.specs.Rules.{Pbft, pbft};
ghost use Rattle.ab_quorum.specs.Rules.{quorum, is_quorum};
ghost use Rattle.ab_zlight.specs.Rules.{zlight, is_zlight};
ghost use Rattle.ab_zcert.specs.Rules.{zcert_proto};
ghost use Rattle.ab_chain.specs.Rules.{chain, is_chain};
ghost use Rattle.ab_run.specs.Setups.{RunSetup, replicas};
ghost use Rattle.ab_run.specs.Runs.{Event, run};
ghost use Rattle.ab_run.specs.Premises.{AreFormed};
ghost use Rattle.ab_promises.specs.AllKinds.{any_kind};
ghost use Rattle.ab_promises.specs.ReplicaActs.{ActsByItself, ActsKeep, StatesNone, AbortsOnce, PreparesOnce, AbortsOnceIn, PreparesOnceIn, is_abort, is_prepare};

use ab_abs::Protocol;
use ab_svc::Service;

/// In any run, whatever comes and whatever is forged: what a correct replica makes in an instance is what its own acts there
/// make, of which each goes on from those before.
pub fn correct_replicas_act_by_themselves<P>()
    ensures { (k : RunSetup) (proto : Proto P) (serves : Kind → Bool) (events : List Event) (r : ℕ) → KeepsPlace proto serves → ServesAll serves k.cluster → AreFormed k events
        → r < replicas k → is_faulty k.faulty (Replica r) ≡ false → (i : ℕ) → ActsByItself proto k.cluster i r (run k proto events).made }
{}

/// Any lawful protocol whose calls state no ABORT: a replica is stopped as it makes its ABORT, which holds its log, as far as it isn't
/// trimmed, and the certificate of answers that it keeps, and after a stop all of it stays. So a correct replica makes one ABORT an
/// instance, whatever comes and whatever is forged.
pub fn lawful_replicas_abort_once<S: Service, P: Protocol<S>>()
    ensures acts { StatesNone P.proto P.serves is_abort → ActsKeep P.proto P.serves AbortsOnce }
    ensures runs { (k : RunSetup) (events : List Event) (r : ℕ) → StatesNone P.proto P.serves is_abort → ServesAll P.serves k.cluster → AreFormed k events
        → r < replicas k → is_faulty k.faulty (Replica r) ≡ false → AbortsOnceIn (run k P.proto events).made r }
{}

/// No call of a protocol states an ABORT, and only those of Backup state PREPAREs.
pub fn calls_state_no_aborts<S: Service, Q>()
    ensures quorum { StatesNone (quorum S.machine) is_quorum is_abort }
    ensures quorum_prepares { StatesNone (quorum S.machine) is_quorum is_prepare }
    ensures zlight { StatesNone (zlight S.machine) is_zlight is_abort }
    ensures zlight_prepares { StatesNone (zlight S.machine) is_zlight is_prepare }
    ensures chain { StatesNone (chain S.machine) is_chain is_abort }
    ensures chain_prepares { StatesNone (chain S.machine) is_chain is_prepare }
    ensures zcert { StatesNone (zcert_proto S.machine) is_zcert is_abort }
    ensures zcert_prepares { StatesNone (zcert_proto S.machine) is_zcert is_prepare }
    ensures backup { (orders : OrderProto Q Pbft) → Obeys orders pbft → StatesNone (backup orders pbft S.machine) is_backup is_abort }
{}

/// A replica of a Backup over PBFT signs one PREPARE of a view and a slot, whatever the others do: no premise is wanted.
pub fn pbft_replicas_prepare_once<S: Service, Q>()
    ensures { (orders : OrderProto Q Pbft) → Obeys orders pbft → ActsKeep (backup orders pbft S.machine) is_backup PreparesOnce }
{}

/// So in any run with a protocol for each kind a correct replica makes one ABORT of an instance, and one PREPARE of an
/// instance, a view and a slot, whatever comes and whatever is forged.
pub fn correct_replicas_state_once<S: Service, Q>()
    ensures aborts { (orders : OrderProto Q Pbft) (k : RunSetup) (events : List Event) (r : ℕ) → Obeys orders pbft → AreFormed k events
        → r < replicas k → is_faulty k.faulty (Replica r) ≡ false → AbortsOnceIn (run k (any_kind S.machine orders) events).made r }
    ensures prepares { (orders : OrderProto Q Pbft) (k : RunSetup) (events : List Event) (r : ℕ) → Obeys orders pbft → AreFormed k events
        → r < replicas k → is_faulty k.faulty (Replica r) ≡ false → PreparesOnceIn (run k (any_kind S.machine orders) events).made r }
{}
