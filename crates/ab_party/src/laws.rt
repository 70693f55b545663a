//! What holds of sealed messages where they arrive.

ghost use Rattle.std.specs.Prelude.{◌≡◌, ◌==◌, ◌&&◌, ℕ, false, List, Ok, All, IsTrue, Option};
ghost use Rattle.ab_num.specs.declared.party.Party.{Party};
ghost use Rattle.ab_num.specs.declared.plan.Plan.{Plan};
ghost use Rattle.ab_num.specs.Bounds.{IsInBounds};
ghost use Rattle.ab_keys.specs.Keys.{exchanges, is_party};
ghost use Rattle.ab_keys.specs.Rings.{ring_of};
ghost use Rattle.ab_keys.specs.Tags.{is_tag_from};
ghost use Rattle.ab_msg.specs.declared.message.Msg.{Msg};
ghost use Rattle.ab_msg.specs.Messages.{IsDraft};
ghost use Rattle.ab_check.specs.Checks.{Judge, by_tag, is_refused, is_right};
ghost use Rattle.ab_open.specs.Opening.{opening, takes};
ghost use Rattle.ab_open.specs.Trimmed.{holds_trimmed};
ghost use Rattle.ab_seal.specs.Carried.{IsFor, carried_checks};
ghost use Rattle.ab_seal.specs.Sealing.{IsOwn, sealed, tagged};

/// What `a` seals for `b` opens at `b` as the message with its tags, where `b` takes such a message,
/// something can stand for its first claim, and each tag of others and each signature that it carries
/// is right. If no checkpoint is ever due, the message has to hold no trimmed list. Both have the rings of one seed in one cluster, and exchange tags.
pub fn sealed_messages_open()
    ensures { (f clients every : ℕ) (plan : Plan) (seed : List ℕ) (a b : Party) (judge : Judge) (m : Msg)
        → IsInBounds f clients → IsTrue (is_party f clients a) → IsTrue (is_party f clients b) → IsTrue (exchanges a b)
        → IsDraft m → IsOwn f a m → IsFor plan f a b m
        → IsTrue (takes f clients b (tagged (ring_of f clients plan seed a) b m))
        → is_refused b (tagged (ring_of f clients plan seed a) b m) ≡ false
        → (every == 0 && holds_trimmed (tagged (ring_of f clients plan seed a) b m)) ≡ false
        → ((maker : Party) (text : List ℕ) (tag : Option (List ℕ)) → judge maker text (by_tag tag) ≡ is_tag_from (ring_of f clients plan seed b) maker text tag)
        → All (λ k. IsTrue (is_right judge k)) (carried_checks f a b m)
        → opening judge f clients every b (sealed (ring_of f clients plan seed a) (record { to = b; msg = m })) ≡ Ok (tagged (ring_of f clients plan seed a) b m) }
{}
