//! What PBFT keeps.

ghost use Rattle.std.specs.Prelude.{◌≡◌, ℕ, None, List};
ghost use Rattle.std.specs.Str.{bytes_eq};
ghost use Rattle.ab_abs.specs.Acts.{Setting, Act};
ghost use Rattle.ab_abs.specs.Values.{goes};
ghost use Rattle.ab_msg.specs.Slots.{slot_digest};
ghost use Rattle.ab_lock.specs.Votes.{next};
ghost use Rattle.ab_order.specs.Orders.{IsOneOrder};
ghost use Rattle.ab_order.specs.Orderers.{IsReached, IsOrderly, IsLawfulOrderer};
ghost use Rattle.ab_order.specs.Inputs.{handed, Given};
ghost use Rattle.ab_pbft_rules.specs.Traces.{IsPbftSound};
ghost use Rattle.ab_pbft_rules.specs.Locks.{AreLocked};
ghost use Rattle.ab_pbft_rules.specs.Rules.{Pbft, pbft};
ghost use Rattle.ab_pbft_rules.specs.Standing.{PbftStands};

/// PBFT's functions are a lawful orderer: whatever a replica is handed, over all views.
pub fn pbft_is_lawful()
    ensures orderly { IsOrderly handed pbft }
    ensures lawful { IsLawfulOrderer handed pbft Given IsPbftSound PbftStands }
{}

/// What correct replicas execute by PBFT's rules, over all views, is one order.
pub fn pbft_is_one_order()
    ensures { (x : Setting) (k : ℕ) (acts : List Act) → IsPbftSound x k acts → IsOneOrder x k acts }
{}

/// Where f + 1 correct replicas prepared a value in a slot, no correct one prepares another there, in that view or a
/// later one.
pub fn pbft_locks()
    ensures { (x : Setting) (k : ℕ) (acts : List Act) → IsPbftSound x k acts → AreLocked x acts }
{}

/// Whatever a replica was handed, no PREPARE, no COMMIT and no execution that its votes allow is left
/// undone.
pub fn pbft_settles()
    ensures { (k : ℕ) (p : Pbft) → IsReached pbft k p → next slot_digest bytes_eq goes p.seat.f p.memory.peer.core p.memory.peer.votes p.memory.peer.commits ≡ None }
{}
