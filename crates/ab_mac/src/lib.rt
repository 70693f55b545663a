//! SHA-256 (FIPS 180-4), digests under a mark, and tags by HMAC (RFC 2104).
#![tactic(auto)]

ghost use Rattle.std.specs.Prelude.{◌≡◌, ◌↔◌, IsTrue};
ghost use Rattle.sha2.specs.Sha256.{sha256};
ghost use Rattle.ab_mac.specs.Digests.{linked, marked};

mod key;
mod tag;

pub use key::Key;
use sha2::{Digest, Sha256};
pub use tag::hmac;

/// The SHA-256 digest of a text.
pub fn hash(m: &[u8]) -> [u8; 32]
    ensures { result ≡ sha256 m.now }
{
    Sha256::digest(m)
}

/// The digest of a text behind one byte, which marks what the text is.
pub fn mark(b: u8, m: &[u8]) -> [u8; 32]
    ensures { result ≡ marked b m.now }
{
    let mut hasher = Sha256::new();
    hasher.update(&[b]);
    hasher.update(m);
    hasher.finalize()
}

/// The digest of a list that goes on by `m`, where `d` is the digest of what stands before it.
pub fn link(d: &[u8; 32], m: &[u8]) -> [u8; 32]
    ensures { result ≡ linked d.now m.now }
{
    let mut hasher = Sha256::new();
    hasher.update(&[1u8]);
    hasher.update(d);
    hasher.update(m);
    hasher.finalize()
}

/// Whether two digests are equal. It looks at all 32 bytes whatever they are.
pub fn same(a: &[u8; 32], b: &[u8; 32]) -> bool
    ensures { IsTrue result ↔ (a.now ≡ b.now) }
{
    let mut equal = true;
    'bytes: for i in 0..32 {
        equal &= a[i] == b[i];
    }
    equal
}
