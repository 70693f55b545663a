//! What holds of the rings that a seed gives.

ghost use Rattle.std.specs.Prelude.{◌≡◌, ℕ, List, Some, None, IsTrue, if◌then◌else◌};
ghost use Rattle.ab_num.specs.declared.party.Party.{Party};
ghost use Rattle.ab_num.specs.declared.plan.Plan.{Plan};
ghost use Rattle.ab_num.specs.Bounds.{IsInBounds};
ghost use Rattle.ab_mac.specs.Tags.{hmac};
ghost use Rattle.ab_keys.specs.Keys.{exchanges, is_party, key_of, key_text};
ghost use Rattle.ab_keys.specs.Rings.{exchanges_in, key_from, key_to, ring_of, tag_from, tag_to};

/// The ring of a seed has keys for exactly the parties of the cluster that its party exchanges tags
/// with, and they are those of the seed.
pub fn derived_keys()
    ensures to { (f clients : ℕ) (plan : Plan) (seed : List ℕ) (me p : Party)
        → key_to (ring_of f clients plan seed me) p
        ≡ (if exchanges_in f clients me p then Some (key_of seed me p) else None) }
    ensures from { (f clients : ℕ) (plan : Plan) (seed : List ℕ) (me p : Party)
        → key_from (ring_of f clients plan seed me) p
        ≡ (if exchanges_in f clients me p then Some (key_of seed p me) else None) }
{}

/// The same, of tags.
pub fn derived_tags()
    ensures to { (f clients : ℕ) (plan : Plan) (seed text : List ℕ) (me p : Party)
        → tag_to (ring_of f clients plan seed me) p text
        ≡ (if exchanges_in f clients me p then Some (hmac (key_of seed me p) text) else None) }
    ensures from { (f clients : ℕ) (plan : Plan) (seed text : List ℕ) (me p : Party)
        → tag_from (ring_of f clients plan seed me) p text
        ≡ (if exchanges_in f clients me p then Some (hmac (key_of seed p me) text) else None) }
{}

/// Rings of one seed in one cluster agree: what that of `a` makes for `b`, that of `b` takes as from
/// `a`, and nothing else. It is there where the two exchange tags.
pub fn rings_agree()
    ensures agree { (f clients : ℕ) (plan : Plan) (seed text : List ℕ) (a b : Party)
        → IsTrue (is_party f clients a) → IsTrue (is_party f clients b)
        → tag_to (ring_of f clients plan seed a) b text
        ≡ tag_from (ring_of f clients plan seed b) a text }
    ensures there { (f clients : ℕ) (plan : Plan) (seed text : List ℕ) (a b : Party)
        → IsTrue (is_party f clients b) → IsTrue (exchanges a b)
        → tag_to (ring_of f clients plan seed a) b text ≡ Some (hmac (key_of seed a b) text) }
{}

/// Two keys of a seed are digests of different texts, unless both go from the same party to the same
/// one. So the keys of the two directions have different texts too.
pub fn keys_have_their_own_texts()
    ensures { (f clients : ℕ) → IsInBounds f clients → (seed : List ℕ) (a b c d : Party)
        → IsTrue (is_party f clients a) → IsTrue (is_party f clients b)
        → IsTrue (is_party f clients c) → IsTrue (is_party f clients d)
        → key_text seed a b ≡ key_text seed c d → (a ≡ c) × (b ≡ d) }
{}
