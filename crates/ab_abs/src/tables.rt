//! What each lawful protocol keeps to, and rule tables that are refused.

ghost use Rattle.std.specs.Prelude.{◌≡◌, ℕ, ◌||◌, not};
ghost use Rattle.ab_num.specs.declared.cluster.Cluster.{Cluster};
ghost use Rattle.ab_num.specs.Places.{kind_of};
ghost use Rattle.ab_abs.specs.Kinds.{is_backup};
ghost use Rattle.ab_abs.specs.FormLaws.{Belongs};
ghost use Rattle.ab_abs.specs.RuleLaws.{KeepsRules};
ghost use Rattle.ab_abs.specs.WrongTables.{is_by_itself, answering, forgetful, obedient, baseless, unstoppable};

use crate::protocol::Protocol;
use ab_svc::Service;

/// Whether a stop leaves a replica stopped (`may_panic`) goes by its kind: it does in each kind but
/// Backup. In a Backup a stop changes nothing, so it leaves stopped what was stopped before.
pub fn stops_go_by_kind<S: Service, P: Protocol<S>>()
    ensures { (c : Cluster) (i r : ℕ) (p : P) → Belongs P.proto P.serves c i r p
        → (P.proto.state (P.proto.halt p)).stopped ≡ (not (is_backup (kind_of c.plan i)) || (P.proto.state p).stopped) }
{}

/// A replica that logs and answers each request by itself keeps to the rules of each kind but Backup.
pub fn answering_keeps_to_rules<S: Service>()
    ensures { KeepsRules S.machine (answering S.machine) is_by_itself }
{}

/// None does that by the same table where it answers what it doesn't log, is stopped by a message
/// of which no rule of its kind speaks, begins without its base, or isn't stopped by a stop.
pub fn wrong_tables_are_refused<S: Service>()
    ensures unlogged { ¬ KeepsRules S.machine (forgetful S.machine) is_by_itself }
    ensures unbidden { ¬ KeepsRules S.machine (obedient S.machine) is_by_itself }
    ensures unbased { ¬ KeepsRules S.machine (baseless S.machine) is_by_itself }
    ensures unstopped { ¬ KeepsRules S.machine (unstoppable S.machine) is_by_itself }
{}
