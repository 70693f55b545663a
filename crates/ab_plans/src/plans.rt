//! Runs of AZyzzyva, of Aliph, and of ZCert beside Backup.

ghost use Rattle.std.specs.Prelude.{◌≡◌, List};
ghost use Rattle.ab_num.specs.declared.plan.Plan.TheVariants as plan;
ghost use Rattle.ab_abs.specs.Instances.{EachIsAbstract};
ghost use Rattle.ab_abs.specs.Order.{Ordered};
ghost use Rattle.ab_abs.specs.Promises.{ServesAll};
ghost use Rattle.ab_order.specs.Protos.{OrderProto, Obeys};
ghost use Rattle.ab_pbft_rules.specs.Rules.{Pbft, pbft};
ghost use Rattle.ab_run.specs.Setups.{RunSetup};
ghost use Rattle.ab_run.specs.Runs.{Event, run, named_by};
ghost use Rattle.ab_run.specs.Premises.{RunPremises, AreFormed};
ghost use Rattle.ab_plans.specs.Runs.{with_backup, served, azyzzyva, aliph, zcerts};

use crate::choice::Choice;
use ab_abs::Protocol;
use ab_chain::Chain;
use ab_quorum::Quorum;
use ab_svc::Service;
use ab_zcert::ZCert;
use ab_zlight::ZLight;

/// Whatever the events: a run over a protocol that is chosen by kind between any lawful one and a
/// Backup over PBFT, and that serves each kind of the plan, is ordered where it meets the premises,
/// and each instance keeps its own promises.
pub fn runs_with_backups_are_ordered<S: Service, P: Protocol<S>, Q>()
    ensures ordered { (orders : OrderProto Q Pbft) (k : RunSetup) (events : List Event) → Obeys orders pbft
        → let proto = with_backup S.machine P.proto P.serves orders in
        let w = run k proto events in
        ServesAll (served P.serves) k.cluster → AreFormed k events → RunPremises k proto events → Ordered S.machine w.seen (named_by k w) k.faulty }
    ensures instances { (orders : OrderProto Q Pbft) (k : RunSetup) (events : List Event) → Obeys orders pbft
        → let proto = with_backup S.machine P.proto P.serves orders in
        let w = run k proto events in
        ServesAll (served P.serves) k.cluster → AreFormed k events → RunPremises k proto events → EachIsAbstract S.machine w.seen (named_by k w) k.faulty }
{}

/// Whatever the events: a run of AZyzzyva, that is of ZLight and of Backup over PBFT in turn, is
/// ordered where it meets the premises, and each instance keeps its own promises.
pub fn azyzzyva_is_ordered<S: Service, Q>()
    ensures ordered { (orders : OrderProto Q Pbft) (k : RunSetup) (events : List Event) → Obeys orders pbft → k.cluster.plan ≡ plan.AZyzzyva
        → let w = run k (azyzzyva S.machine orders) events in
        AreFormed k events → RunPremises k (azyzzyva S.machine orders) events → Ordered S.machine w.seen (named_by k w) k.faulty }
    ensures instances { (orders : OrderProto Q Pbft) (k : RunSetup) (events : List Event) → Obeys orders pbft → k.cluster.plan ≡ plan.AZyzzyva
        → let w = run k (azyzzyva S.machine orders) events in
        AreFormed k events → RunPremises k (azyzzyva S.machine orders) events → EachIsAbstract S.machine w.seen (named_by k w) k.faulty }
{
    runs_with_backups_are_ordered::<S, ZLight<S>, Q>()
}

/// Whatever the events: a run of Aliph, that is of Quorum, Chain and Backup over PBFT in turn, is
/// ordered where it meets the premises, and each instance keeps its own promises.
pub fn aliph_is_ordered<S: Service, Q>()
    ensures ordered { (orders : OrderProto Q Pbft) (k : RunSetup) (events : List Event) → Obeys orders pbft → k.cluster.plan ≡ plan.Aliph
        → let w = run k (aliph S.machine orders) events in
        AreFormed k events → RunPremises k (aliph S.machine orders) events → Ordered S.machine w.seen (named_by k w) k.faulty }
    ensures instances { (orders : OrderProto Q Pbft) (k : RunSetup) (events : List Event) → Obeys orders pbft → k.cluster.plan ≡ plan.Aliph
        → let w = run k (aliph S.machine orders) events in
        AreFormed k events → RunPremises k (aliph S.machine orders) events → EachIsAbstract S.machine w.seen (named_by k w) k.faulty }
{
    runs_with_backups_are_ordered::<S, Choice<Quorum<S>, Chain<S>>, Q>()
}

/// Whatever the events: a run of the plan of ZCert and Backup over PBFT in turn is ordered where it
/// meets the premises, and each instance keeps its own promises.
pub fn zcert_runs_are_ordered<S: Service, Q>()
    ensures ordered { (orders : OrderProto Q Pbft) (k : RunSetup) (events : List Event) → Obeys orders pbft → k.cluster.plan ≡ plan.ZCert
        → let w = run k (zcerts S.machine orders) events in
        AreFormed k events → RunPremises k (zcerts S.machine orders) events → Ordered S.machine w.seen (named_by k w) k.faulty }
    ensures instances { (orders : OrderProto Q Pbft) (k : RunSetup) (events : List Event) → Obeys orders pbft → k.cluster.plan ≡ plan.ZCert
        → let w = run k (zcerts S.machine orders) events in
        AreFormed k events → RunPremises k (zcerts S.machine orders) events → EachIsAbstract S.machine w.seen (named_by k w) k.faulty }
{
    runs_with_backups_are_ordered::<S, ZCert<S>, Q>()
}
