//! What the acts of an instance promise in which each call of a protocol is its own.

ghost use Rattle.std.specs.Prelude.{ℕ, ◌≤◌, IsTrue, Option, List};
ghost use Rattle.ab_num.specs.declared.cluster.Cluster.{Cluster};
ghost use Rattle.ab_num.specs.declared.party.Party.{Party};
ghost use Rattle.ab_num.specs.declared.plan.Kind.{Kind as KindOf};
ghost use Rattle.ab_num.specs.declared.plan.Kind.TheVariants as kind;
ghost use Rattle.ab_abs.specs.Acts.{setting};
ghost use Rattle.ab_abs.specs.Deeds.{acts_in};
ghost use Rattle.ab_abs.specs.Ensembles.{Proto, Ensemble, Reached};
ghost use Rattle.ab_order.specs.Protos.{OrderProto, Obeys, backup};
ghost use Rattle.ab_pbft_rules.specs.Rules.{Pbft, pbft};
ghost use Rattle.ab_quorum.specs.Rules.{quorum};
ghost use Rattle.ab_zlight.specs.Rules.{zlight};
ghost use Rattle.ab_zcert.specs.Rules.{zcert_proto};
ghost use Rattle.ab_chain.specs.Rules.{chain};
ghost use Rattle.ab_promises.specs.OwnCalls.{AreOwnCalls, OwnCallsKeep, AreAbstract};

use ab_abs::Protocol;
use ab_backup::{Backup, Orderer};
use ab_chain::Chain;
use ab_quorum::Quorum;
use ab_svc::Service;
use ab_zcert::ZCert;
use ab_zlight::ZLight;

/// Any lawful protocol: the acts of an instance whose kind it serves keep what Abstract promises, if
/// they meet the premises and each call of the protocol among them is its own. With which bases the
/// replicas begin is left open.
pub fn own_calls_are_abstract<S: Service, P: Protocol<S>>()
    ensures { (k : KindOf) → IsTrue (P.serves k) → OwnCallsKeep P.proto k (AreAbstract S.machine) }
{}

/// So does Quorum.
pub fn quorum_calls_are_abstract<S: Service>()
    ensures { OwnCallsKeep (quorum S.machine) kind.Quorum (AreAbstract S.machine) }
{
    own_calls_are_abstract::<S, Quorum<S>>()
}

/// So does ZLight.
pub fn zlight_calls_are_abstract<S: Service>()
    ensures { OwnCallsKeep (zlight S.machine) kind.ZLight (AreAbstract S.machine) }
{
    own_calls_are_abstract::<S, ZLight<S>>()
}

/// So does Chain.
pub fn chain_calls_are_abstract<S: Service>()
    ensures { OwnCallsKeep (chain S.machine) kind.Chain (AreAbstract S.machine) }
{
    own_calls_are_abstract::<S, Chain<S>>()
}

/// So does ZCert.
pub fn zcert_calls_are_abstract<S: Service>()
    ensures { OwnCallsKeep (zcert_proto S.machine) kind.ZCert (AreAbstract S.machine) }
{
    own_calls_are_abstract::<S, ZCert<S>>()
}

/// So does Backup over any lawful orderer.
pub fn backup_calls_are_abstract<S: Service, O: Orderer>()
    ensures { OwnCallsKeep (backup O.orders O.rules S.machine) kind.Backup (AreAbstract S.machine) }
{
    own_calls_are_abstract::<S, Backup<S, O>>()
}

/// So does Backup over PBFT, however it puts what PBFT says into messages.
pub fn pbft_calls_are_abstract<S: Service, Q>()
    ensures { (orders : OrderProto Q Pbft) → Obeys orders pbft → OwnCallsKeep (backup orders pbft S.machine) kind.Backup (AreAbstract S.machine) }
{}

/// Whatever events come to replicas that go from instance to instance: in each instance each call of the
/// protocol is its own.
pub fn runs_call_their_own<P>()
    ensures { (proto : Proto P) (c : Cluster) (faulty : List Party) (w : Ensemble P) → Reached proto c faulty w
        → (i : ℕ) → 1 ≤ i → (left : ℕ → Option P) × AreOwnCalls proto (setting c faulty i) (acts_in i w.run) left }
{}
