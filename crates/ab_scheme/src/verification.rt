//! Verification.

ghost use Rattle.std.specs.Prelude.{◌≡◌, ◌↔◌, IsTrue};
ghost use Rattle.ab_scheme.specs.Schemes.{VerifiesBy, verified_by};

use ab_hss::hss_verify;
use ab_lms::verify;

/// Whether `sig` is a signature of `text` under the public key, by the scheme that the key's length
/// tells: one of 56 bytes is of one level, and one of 60 of two. It takes no memory.
pub fn verify_by(public: &[u8], text: &[u8], sig: &[u8]) -> bool
    ensures verifies { IsTrue result ↔ VerifiesBy public.now text.now sig.now }
    ensures test { result ≡ verified_by public.now text.now sig.now }
{
    verify(public, text, sig) || hss_verify(public, text, sig)
}
