//! What holds of keys and signatures by whatever scheme.

ghost use Rattle.std.specs.Prelude.{◌≡◌, ◌<◌, ◌↔◌, IsTrue, ℕ, List, length};
ghost use Rattle.ab_num.specs.declared.plan.Scheme.{Scheme};
ghost use Rattle.ab_scheme.specs.Schemes.{VerifiesBy, public_by, public_length, signature_by, signature_length, signatures_in, verified_by};

/// The test says what the relation says.
pub fn scheme_verification_is_a_test()
    ensures { (public text sig : List ℕ) → IsTrue (verified_by public text sig) ↔ VerifiesBy public text sig }
{}

/// What is signed by a scheme verifies under its key, whatever the text.
pub fn signatures_by_a_scheme_verify()
    ensures { (scheme : Scheme) (id seed text : List ℕ) (q : ℕ) → length id ≡ 16 → q < signatures_in scheme
        → VerifiesBy (public_by scheme id seed) text (signature_by scheme id seed q text) }
{}

/// Signatures of a scheme have the length of this scheme.
pub fn signatures_have_their_length()
    ensures { (scheme : Scheme) (id seed text : List ℕ) (q : ℕ) → length (signature_by scheme id seed q text) ≡ signature_length scheme }
{}

/// Public keys of a scheme have the length of this scheme.
pub fn keys_have_their_length()
    ensures { (scheme : Scheme) (id seed : List ℕ) → length id ≡ 16 → length (public_by scheme id seed) ≡ public_length scheme }
{}
