//! What the places of cores mean.

ghost use Rattle.std.specs.Prelude.{◌≡◌, ◌↔◌, ◌≤◌, ℕ, All, Contains, IsSome, IsTrue, Option, None, Some};
ghost use Rattle.ab_num.specs.declared.party.Party.{Party as TheParty};
ghost use Rattle.ab_keys.specs.Keys.{is_party};
ghost use Rattle.ab_cast.specs.declared.place.Place.{Place as ThePlace};
ghost use Rattle.ab_cast.specs.Setups.{Setup as TheSetup, core_number, party_at, place_of};

/// A party of the cluster that is declared faulty with n cores has those numbered 1 to n and no
/// others, and no other party has a numbered core. Each party has its own. A place is that of one
/// core alone: the one without a number and the first are the same.
pub fn faulty_parties_have_their_cores()
    ensures own { (x : TheSetup) (p : TheParty) → (IsSome (place_of x p None) ↔ IsTrue (is_party x.cluster.f x.cluster.clients p)) }
    ensures numbered { (x : TheSetup) (p : TheParty) (t : ℕ) → All (λ e. 1 ≤ e.1) x.faulty
        → (IsSome (place_of x p (Some t)) ↔ (IsTrue (is_party x.cluster.f x.cluster.clients p) × ((n : ℕ) × Contains x.faulty (p, n) × (1 ≤ t) × (t ≤ n)))) }
    ensures owner { (x : TheSetup) (p : TheParty) (t : Option ℕ) (at : ThePlace) → place_of x p t ≡ Some at → party_at at ≡ p }
    ensures apart { (x : TheSetup) (p q : TheParty) (t u : Option ℕ) (at : ThePlace) → place_of x p t ≡ Some at → place_of x q u ≡ Some at
        → (p ≡ q) × (core_number t ≡ core_number u) }
{}
