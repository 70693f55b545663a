//! Keys for tags.

ghost use Rattle.std.specs.Prelude.{◌≡◌, ◌↔◌, IsTrue};
ghost use Rattle.ab_mac.specs.Tags.{hmac};

use crate::same;
use crate::tag::{inner_started, outer_started};
use sha2::{Digest, Sha256};
use std::marker::Model;

/// A key for tags. It keeps a hasher that has taken the inner block and one that has taken the outer
/// one, so these are hashed once a key and not once a tag. It has no text form.
#[derive(Drop)]
pub struct Key {
    bytes: [u8; 32],
    inner: Sha256,
    outer: Sha256,
}

/// It is seen as the bytes of the key.
impl Model for Key {
    ghost use Rattle.std.specs.Prelude.{List, ℕ};
    ghost use Rattle.sha2.specs.Hashers.{Holds256};
    ghost use Rattle.ab_mac.specs.Tags.{inner_block, outer_block};

    ghost Value = { List ℕ };

    ghost view = { λ k. k.bytes };

    ghost invariant = { λ k. Holds256 k.inner (inner_block k.bytes)
        × Holds256 k.outer (outer_block k.bytes) };
}

/// An equal hasher.
fn copy(hasher: &Sha256) -> Sha256
    ensures { result ≡ hasher.now }
{
    match hasher.clone() {
        Ok(copied) => copied,
        Err(_) => unreachable!(),
    }
}

impl Key {
    /// The key of these bytes.
    pub fn new(key: &[u8; 32]) -> Key
        ensures { result ≡ key.now }
    {
        Key {
            bytes: *key,
            inner: inner_started(key),
            outer: outer_started(key),
        }
    }

    /// The tag of a text under this key.
    #[tactic(auto, unfolding(crate::specs::Tags::hmac))]
    pub fn tag(&self, text: &[u8]) -> [u8; 32]
        ensures { result ≡ hmac self.now text.now }
    {
        let mut inner = copy(&self.inner);
        inner.update(text);
        let mut outer = copy(&self.outer);
        outer.update(&inner.finalize());
        outer.finalize()
    }

    /// Whether `tag` is the tag of the text under this key. It looks at all 32 bytes whatever they are.
    pub fn checks(&self, text: &[u8], tag: &[u8; 32]) -> bool
        ensures { IsTrue result ↔ (tag.now ≡ hmac self.now text.now) }
    {
        same(tag, &self.tag(text))
    }
}
