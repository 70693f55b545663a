//! What is checked are the claims of a message.

ghost use Rattle.std.specs.Prelude.{◌≡◌, ℕ, map};
ghost use Rattle.ab_num.specs.declared.party.Party.{Party};
ghost use Rattle.ab_msg.specs.declared.message.Msg.{Msg as Message};
ghost use Rattle.ab_msg.specs.Claims.{claims};
ghost use Rattle.ab_check.specs.Checks.{checks_of};

/// The contents that a party checks in a message are its claims, in their order.
pub fn claims_are_checked()
    ensures { (f : ℕ) (me : Party) (m : Message) → map (λ k. k.content) (checks_of f me m) ≡ claims f me m }
{}
