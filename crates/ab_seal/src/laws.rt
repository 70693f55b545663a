//! What holds of what is stated.

ghost use Rattle.std.specs.Prelude.{◌≤◌, ℕ, All};
ghost use Rattle.ab_num.specs.declared.party.Party.TheVariants.{Replica};
ghost use Rattle.ab_msg.specs.declared.message.Msg.{Msg as Message};
ghost use Rattle.ab_msg.specs.Claims.{fresh};
ghost use Rattle.ab_msg.specs.Contents.{IsContent};
ghost use Rattle.ab_msg.specs.Messages.{IsDraft};

/// What a replica states in a message of the grammar is of the grammar.
pub fn stated_contents_have_bytes()
    ensures { (f r : ℕ) (m : Message) → r ≤ 6 → IsDraft m → All IsContent (fresh f (Replica r) m) }
{}
