//! Tags by HMAC (RFC 2104) over SHA-256.

ghost use Rattle.std.specs.Prelude.{◌≡◌, map, bit_xor};
ghost use Rattle.sha2.specs.Hashers.{Holds256};
ghost use Rattle.ab_mac.specs.Tags.{hmac, inner_block, outer_block, padded_key};

use sha2::{Digest, Sha256};

/// What each byte of a block is xored with before the text.
const INNER_PAD: u8 = 0x36;

/// What each byte of a block is xored with before the inner digest.
const OUTER_PAD: u8 = 0x5c;

/// Each byte of the key, xor `pad`.
fn keyed(key: &[u8; 32], pad: u8) -> [u8; 32]
    ensures { result ≡ map (λ b. bit_xor b pad) key.now }
{
    let mut out = [0; 32];
    'bytes: for i in 0..32 {
        out[i] = key[i] ^ pad;
    }
    out
}

/// A hasher that has taken the block of a key under `pad`.
#[tactic(auto, using(crate::proofs::Pads::pads))]
fn started(key: &[u8; 32], pad: u8) -> Sha256
    ensures { Holds256 result (map (λ b. bit_xor b pad) (padded_key key.now)) }
{
    let mut hasher = Sha256::new();
    hasher.update(&keyed(key, pad));
    hasher.update(&[pad; 32]);
    hasher
}

/// A hasher that has taken what comes before a text.
pub(crate) fn inner_started(key: &[u8; 32]) -> Sha256
    ensures { Holds256 result (inner_block key.now) }
{
    started(key, INNER_PAD)
}

/// A hasher that has taken what comes before the inner digest.
pub(crate) fn outer_started(key: &[u8; 32]) -> Sha256
    ensures { Holds256 result (outer_block key.now) }
{
    started(key, OUTER_PAD)
}

/// The tag of a text under a key.
#[tactic(auto, unfolding(crate::specs::Tags::hmac))]
pub fn hmac(key: &[u8; 32], text: &[u8]) -> [u8; 32]
    ensures { result ≡ hmac key.now text.now }
{
    let mut inner = inner_started(key);
    inner.update(text);
    let mut outer = outer_started(key);
    outer.update(&inner.finalize());
    outer.finalize()
}
