//! What holds of the keys that a seed gives.

ghost use Rattle.std.specs.Prelude.{◌≡◌, ◌+◌, ◌*◌, ◌<◌, ℕ, List, IsTrue};
ghost use Rattle.ab_num.specs.declared.party.Party.TheVariants.{Replica};
ghost use Rattle.ab_num.specs.declared.plan.Scheme.{Scheme};
ghost use Rattle.ab_keys.specs.Rings.{Ring};
ghost use Rattle.ab_msg.specs.declared.content.Content.{Content};
ghost use Rattle.ab_msg.specs.Contents.{spell_content};
ghost use Rattle.ab_check.specs.Checks.{by_sig};
ghost use Rattle.ab_scheme.specs.Schemes.{signatures_in};
ghost use Rattle.ab_sign.specs.Judges.{judge_of};
ghost use Rattle.ab_sign.specs.Signers.{derived_keys, leaves_of, pen_of};

/// Each replica of a cluster has as many signatures as its scheme gives, and whoever has the keys of
/// the same seed finds each of them right.
pub fn signatures_are_right()
    ensures many { (f : ℕ) (scheme : Scheme) (seed : List ℕ) (r : ℕ) → r < 3 * f + 1 → leaves_of (derived_keys f scheme seed) r ≡ signatures_in scheme }
    ensures right { (f : ℕ) (scheme : Scheme) (seed : List ℕ) (ring : Ring) (r used n : ℕ) (content : Content)
        → r < 3 * f + 1 → n < signatures_in scheme
        → IsTrue (judge_of ring (derived_keys f scheme seed) (Replica r) (spell_content content) (by_sig ((pen_of (derived_keys f scheme seed) r used).sig content n))) }
{}
