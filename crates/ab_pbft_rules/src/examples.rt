//! Replicas that execute a request.

ghost use Rattle.std.specs.Prelude.{◌≡◌, [], ◌∷◌};
ghost use Rattle.ab_hist.specs.declared.request.Request.{Request};
ghost use Rattle.ab_order.specs.Inputs.{timeout};
ghost use Rattle.ab_pbft_rules.specs.Rules.{pbft};
ghost use Rattle.ab_pbft_rules.specs.Examples.{after_all, begun_with, voted, late};

/// The primary of four replicas takes a request, and on two slots the PREPAREs and COMMITs of two
/// others: then it has executed the request.
pub fn a_primary_executes()
    ensures { (m : Request) → pbft.ordered (after_all (begun_with 1 0) (voted m)) ≡ m ∷ [] }
{}

/// A cluster of one replica moves to view 1 as its timer runs out, by its own VIEW-CHANGE, and executes
/// there what it is asked for.
pub fn a_replica_alone_changes_views()
    ensures view { (after_all (begun_with 0 0) (timeout ∷ [])).memory.peer.core.view ≡ 1 }
    ensures executed { (m : Request) → pbft.ordered (after_all (begun_with 0 0) (late m)) ≡ m ∷ [] }
{}
