//! A Backup over PBFT as a protocol.

ghost use Rattle.std.specs.Prelude.{◌≡◌, ℕ, ◌+◌, true, false, Some, [], ◌∷◌, Contains, slice_get};
ghost use mathlib.Core.List.{IsPrefix};
ghost use Rattle.ab_num.specs.declared.cluster.Cluster.{Cluster};
ghost use Rattle.ab_num.specs.declared.party.Party.TheVariants.{Replica};
ghost use Rattle.ab_msg.specs.declared.content.Content.{Content};
ghost use Rattle.ab_msg.specs.declared.message.Out.{Out};
ghost use Rattle.ab_msg.specs.declared.signed.Signed.{Signed};
ghost use Rattle.ab_msg.specs.Claims.{fresh, signed_in};
ghost use Rattle.ab_msg.specs.Pens.{Pen};
ghost use Rattle.ab_abs.specs.Messages.{Call};
ghost use Rattle.ab_abs.specs.FormLaws.{Belongs, is_answer};
ghost use Rattle.ab_order.specs.Backups.{Backing};
ghost use Rattle.ab_abs.specs.Kinds.{is_backup};
ghost use Rattle.ab_order.specs.Protos.{OrderProto, Obeys, backup, backup_sound, backup_stands};
ghost use Rattle.ab_pbft_rules.specs.Traces.{IsPbftSound};
ghost use Rattle.ab_pbft_rules.specs.Rules.{Pbft, pbft};
ghost use Rattle.ab_pbft_rules.specs.Standing.{PbftStands};
ghost use Rattle.ab_run.specs.Examples.{one};
ghost use Rattle.ab_plans.specs.Lawful.{IsLawfulProto};
ghost use Rattle.ab_plans.specs.Examples.{after_all, primary, messages};

use ab_svc::Service;

/// A Backup over PBFT keeps the laws of a protocol, however it puts what PBFT says into messages. Its
/// log only grows, and stays once it is stopped; from then on it states no answer; and its signatures
/// are its pen's, in their order.
pub fn backup_over_pbft_is_lawful<S: Service, P>()
    ensures laws { (orders : OrderProto P Pbft) → Obeys orders pbft
        → IsLawfulProto S.machine (backup orders pbft S.machine) is_backup (backup_sound S.machine IsPbftSound) (backup_stands orders pbft PbftStands) }
    ensures grows { (orders : OrderProto P Pbft) (pen : Pen) (v : Backing P) (call : Call) → Obeys orders pbft
        → let p = backup orders pbft S.machine in IsPrefix (p.state v).log (p.state (p.after pen v call)).log }
    ensures frozen { (orders : OrderProto P Pbft) (c : Cluster) (i r : ℕ) (pen : Pen) (v : Backing P) (call : Call) → Obeys orders pbft
        → let p = backup orders pbft S.machine in
        Belongs p is_backup c i r v → (p.state v).stopped ≡ true → ((p.state (p.after pen v call)).log ≡ (p.state v).log) × ((p.state (p.after pen v call)).stopped ≡ true) }
    ensures silent { (orders : OrderProto P Pbft) (f r : ℕ) (pen : Pen) (v : Backing P) (call : Call) (o : Out) (s : Content) → Obeys orders pbft
        → let p = backup orders pbft S.machine in
        (p.state v).stopped ≡ true → Contains (p.sends pen v call) o → Contains (fresh f (Replica r) o.msg) s → is_answer s ≡ false }
    ensures signed { (orders : OrderProto P Pbft) (pen : Pen) (v : Backing P) (call : Call) (o : Out) (w : Signed) → Obeys orders pbft
        → let p = backup orders pbft S.machine in
        Contains (p.sends pen v call) o → Contains (signed_in o.msg) w → (n : ℕ) × (slice_get (p.signs v call) n ≡ Some w.content) × (w.sig ≡ pen.sig w.content (pen.used + n)) }
    ensures sent { (orders : OrderProto P Pbft) (pen : Pen) (v : Backing P) (call : Call) (s : Content) → Obeys orders pbft
        → let p = backup orders pbft S.machine in
        Contains (p.signs v call) s → (o : Out) × (w : Signed) × Contains (p.sends pen v call) o × Contains (signed_in o.msg) w × (w.content ≡ s) }
{}

/// The primary of the first Backup of four replicas takes a request, and on two slots the PREPAREs
/// and COMMITs of two others: then the request is its log, and it is stopped.
pub fn a_backup_commits<S: Service, P>()
    ensures log { (orders : OrderProto P Pbft) → Obeys orders pbft → ((backup orders pbft S.machine).state (after_all S.machine orders (primary S.machine orders) messages)).log ≡ one ∷ [] }
    ensures stopped { (orders : OrderProto P Pbft) → Obeys orders pbft → ((backup orders pbft S.machine).state (after_all S.machine orders (primary S.machine orders) messages)).stopped ≡ true }
{}
