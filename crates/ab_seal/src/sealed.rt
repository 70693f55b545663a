//! What holds of sealed messages.

ghost use Rattle.std.specs.Prelude.{◌≡◌, ◌≤◌, ℕ, List, length, All, IsTrue, Option};
ghost use Rattle.ab_num.specs.declared.party.Party.{Party};
ghost use Rattle.ab_num.specs.declared.plan.Plan.{Plan};
ghost use Rattle.ab_num.specs.Bounds.{IsInBounds};
ghost use Rattle.ab_num.specs.Limits.{longest_message};
ghost use Rattle.ab_keys.specs.Keys.{exchanges, is_party};
ghost use Rattle.ab_keys.specs.Rings.{Ring, ring_of};
ghost use Rattle.ab_keys.specs.Tags.{is_tag_from};
ghost use Rattle.ab_msg.specs.declared.message.Msg.{Msg as Message};
ghost use Rattle.ab_msg.specs.declared.message.Out.{Out as Sent};
ghost use Rattle.ab_msg.specs.Carried.{goes_to};
ghost use Rattle.ab_msg.specs.Claims.{fresh};
ghost use Rattle.ab_msg.specs.Contents.{IsContent};
ghost use Rattle.ab_msg.specs.Messages.{IsDraft, IsMessage};
ghost use Rattle.ab_check.specs.Checks.{Judge, by_tag, checks_of, is_right};
ghost use Rattle.ab_seal.specs.Carried.{IsFor, carried_checks};
ghost use Rattle.ab_seal.specs.Sealing.{IsOwn, sealed, tagged};

/// With its tags a draft is a message of the grammar, of at most 4,194,304 bytes, and what its sender
/// states anew is of the grammar.
pub fn drafts_are_sealed_as_messages()
    ensures grammar { (ring : Ring) (to : Party) (m : Message) → IsInBounds ring.f ring.clients → IsTrue (is_party ring.f ring.clients ring.me) → IsDraft m → IsMessage (tagged ring to m) }
    ensures size { (ring : Ring) (o : Sent) → IsInBounds ring.f ring.clients → IsTrue (is_party ring.f ring.clients ring.me) → IsDraft o.msg → length (sealed ring o) ≤ longest_message }
    ensures contents { (f clients : ℕ) (p : Party) (m : Message) → IsInBounds f clients → IsTrue (is_party f clients p) → IsDraft m → All IsContent (fresh f p m) }
{}

/// What `a` seals for `b` passes each check of `b`, if what it carries of others and its signatures do:
/// each tag that `b` wants of `a` is there and is right. Both have the rings of one seed in one
/// cluster, and exchange tags.
pub fn sealed_messages_are_right()
    ensures { (f clients : ℕ) (plan : Plan) (seed : List ℕ) (a b : Party) (judge : Judge) (m : Message)
        → IsInBounds f clients → IsTrue (is_party f clients a) → IsTrue (is_party f clients b) → IsTrue (exchanges a b)
        → IsDraft m → IsOwn f a m → IsTrue (goes_to m b) → IsFor plan f a b m
        → ((maker : Party) (text : List ℕ) (tag : Option (List ℕ)) → judge maker text (by_tag tag) ≡ is_tag_from (ring_of f clients plan seed b) maker text tag)
        → All (λ k. IsTrue (is_right judge k)) (carried_checks f a b m)
        → All (λ k. IsTrue (is_right judge k)) (checks_of f b (tagged (ring_of f clients plan seed a) b m)) }
{}
