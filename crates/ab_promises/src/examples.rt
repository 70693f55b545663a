//! Acts that meet the laws of this crate, in which something is committed, and something is locked.

ghost use Rattle.std.specs.Prelude.{ℕ, Option, [], ◌∷◌, List, Contains};
ghost use Rattle.ab_num.specs.declared.plan.Plan.{Plan};
ghost use Rattle.ab_num.specs.declared.plan.Plan.TheVariants as plan;
ghost use Rattle.ab_hist.specs.declared.request.Request.{Request};
ghost use Rattle.ab_hist.specs.Digests.{NoCollision, digest_of};
ghost use Rattle.ab_msg.specs.Fields.{IsRequest, IsSig};
ghost use Rattle.ab_abs.specs.Acts.{Premises, SlotsApart, histories, bases, requests, observations};
ghost use Rattle.ab_abs.specs.Members.{Member};
ghost use Rattle.ab_abs.specs.SmallActs.{small, small_acts, reply_to};
ghost use Rattle.ab_abs.specs.declared.seen.Seen.TheVariants.{Committed};
ghost use Rattle.ab_lock.specs.Acts.{steps_of};
ghost use Rattle.ab_lock.specs.Promises.{LockPremises};
ghost use Rattle.ab_lock.specs.Quorums.{IsCommitted};
ghost use Rattle.ab_lock.specs.SmallActs.{digest, goes, may_stand};
ghost use Rattle.ab_order.specs.Backups.{Backing};
ghost use Rattle.ab_order.specs.Protos.{OrderProto, Obeys, backup};
ghost use Rattle.ab_pbft_rules.specs.Locks.{ArePrepared};
ghost use Rattle.ab_pbft_rules.specs.Rules.{Pbft, pbft};
ghost use Rattle.ab_quorum.specs.Rules.{quorum};
ghost use Rattle.ab_zlight.specs.Rules.{Light, zlight};
ghost use Rattle.ab_chain.specs.Rules.{ChainState, chain};
ghost use Rattle.ab_promises.specs.OwnCalls.{AreOwnCalls};
ghost use Rattle.ab_promises.specs.SmallCommits.{last_faulty, zlight_acts, chain_acts};
ghost use Rattle.ab_promises.specs.SmallLocks.{third_faulty, two_prepare};
ghost use Rattle.ab_promises.specs.SmallStarts.{all_correct, starts};
ghost use Rattle.ab_promises.specs.SmallBackups.{backup_of_four, backup_acts, empty_base};

use ab_abs::Protocol;
use ab_svc::Service;

/// Four replicas that begin in instance 1, whatever the plan and the lawful protocol, meet the
/// premises.
pub fn four_replicas_begin<S: Service, P: Protocol<S>>()
    ensures own { (p : Plan) → (left : ℕ → Option P) × AreOwnCalls P.proto (all_correct p) (starts P.proto p) left }
    ensures premises { (p : Plan) → Premises (all_correct p) (starts P.proto p) }
{}

/// Four replicas of Quorum, whose calls are their own, answer a request, and its client commits; three
/// stop and abort, and the client takes their certificate. These acts meet the premises, if the
/// digests of their histories differ.
pub fn four_replicas_answer<S: Service>()
    ensures own { (m : Request) → IsRequest 0 15 m → (left : ℕ → Option Member) × AreOwnCalls (quorum S.machine) small (small_acts S.machine m) left }
    ensures premises { (m : Request) → NoCollision (histories (small_acts S.machine m)) → SlotsApart (bases (small_acts S.machine m)) (requests (small_acts S.machine m)) → Premises small (small_acts S.machine m) }
    ensures commits { (m : Request) → Contains (observations (small_acts S.machine m)) (Committed 1 m.client m 1 (digest_of (m ∷ [])) (reply_to S.machine m)) }
{}

/// Three replicas of ZLight, and three of Chain, whose calls are their own, answer a request, and its
/// client commits on their votes and that of a fourth, which is faulty. These acts meet the premises,
/// if the digests of their histories differ.
pub fn three_replicas_commit<S: Service>()
    ensures zlight { (left : ℕ → Option Light) × AreOwnCalls (zlight S.machine) (last_faulty plan.ZLight) (zlight_acts S.machine) left }
    ensures zlight_premises { NoCollision (histories (zlight_acts S.machine)) → SlotsApart (bases (zlight_acts S.machine)) (requests (zlight_acts S.machine)) → Premises (last_faulty plan.ZLight) (zlight_acts S.machine) }
    ensures chain { (left : ℕ → Option ChainState) × AreOwnCalls (chain S.machine) (last_faulty plan.Chain) (chain_acts S.machine) left }
    ensures chain_premises { NoCollision (histories (chain_acts S.machine)) → SlotsApart (bases (chain_acts S.machine)) (requests (chain_acts S.machine)) → Premises (last_faulty plan.Chain) (chain_acts S.machine) }
{}

/// Two of four replicas prepare a value in slot 0, with the PREPARE of a third, which is faulty. These
/// acts meet the premises.
pub fn two_replicas_lock()
    ensures premises { LockPremises digest may_stand goes 1 1 third_faulty two_prepare }
    ensures committed { IsCommitted digest 1 third_faulty (steps_of two_prepare) 0 0 7 }
{}

/// Two of four replicas of a Backup over PBFT, whose calls are their own, prepare the empty base in
/// slot 0 of view 0, though its primary is faulty. These acts meet the premises.
pub fn two_replicas_prepare<S: Service, Q>()
    ensures own { (orders : OrderProto Q Pbft) (sig : List ℕ) → Obeys orders pbft → IsSig sig → (left : ℕ → Option (Backing Q)) × AreOwnCalls (backup orders pbft S.machine) backup_of_four (backup_acts S.machine orders sig) left }
    ensures premises { (orders : OrderProto Q Pbft) (sig : List ℕ) → Obeys orders pbft → Premises backup_of_four (backup_acts S.machine orders sig) }
    ensures prepared { (orders : OrderProto Q Pbft) (sig : List ℕ) → Obeys orders pbft → ArePrepared backup_of_four (backup_acts S.machine orders sig) 0 0 empty_base }
{}
