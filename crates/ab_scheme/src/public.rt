//! Public keys.

ghost use Rattle.std.specs.Prelude.{◌≡◌, ◌≤◌, ◌++◌, ◌⊎◌, ◌↔◌, IsTrue, IsSome, IfSome, length};
ghost use Rattle.ab_lms.specs.Signatures.{u32_bytes};
ghost use Rattle.ab_scheme.specs.Schemes.{public_by, public_length};

use ab_hss::two_level_key;
use ab_lms::public_key;
use ab_num::{Height, Scheme};
use std::marker::Model;

/// The bytes of a public key.
#[derive(Clone, Copy)]
pub(crate) enum Bytes {
    One([u8; 56]),
    Two([u8; 60]),
}

/// The public key of a replica: 56 bytes where it signs by one tree, and 60 where it signs by trees in
/// two levels. It is seen as the list of its bytes.
#[derive(Clone, Copy)]
pub struct PublicKey {
    bytes: Bytes,
}

impl Model for PublicKey {
    ghost use Rattle.std.specs.Prelude.{◌≡◌, List, ℕ, length};
    ghost use Rattle.std.proofs.Common.{ap};
    ghost use Rattle.ab_scheme.specs.Publics.{bytes_as, bytes_in, long_in, same};

    ghost Value = { List ℕ };

    ghost view = { λ k. bytes_in k.bytes };

    ghost invariant = { λ k. length (bytes_in k.bytes) ≡ long_in k.bytes };

    ghost inverse = { λ l. record { bytes = bytes_as l } };

    ghost inverse_ok = { λ k long. ap (λ b. record { bytes = b }) (same k.bytes long) };
}

impl PublicKey {
    /// A public key of one level.
    pub fn one_level(bytes: [u8; 56]) -> PublicKey
        ensures { result ≡ bytes }
    {
        PublicKey {
            bytes: Bytes::One(bytes),
        }
    }

    /// The public key of two levels, of which this is the top's.
    pub fn two_levels(top: &[u8; 56]) -> PublicKey
        ensures { result ≡ u32_bytes 2 ++ top.now }
    {
        PublicKey {
            bytes: Bytes::Two(two_level_key(top)),
        }
    }

    /// The public key of a name and a seed. No tree is kept, so it takes no memory.
    pub fn of(scheme: Scheme, id: &[u8; 16], seed: &[u8; 32]) -> PublicKey
        ensures { result ≡ public_by scheme id.now seed.now }
    {
        match scheme {
            Scheme::Lms(height) => PublicKey::one_level(public_key(height, id, seed)),
            Scheme::Hss => PublicKey::two_levels(&public_key(Height::Ten, id, seed)),
        }
    }

    /// The public key that these bytes are, if they are as many as those of this scheme.
    pub fn read(scheme: Scheme, bytes: &[u8]) -> Option<PublicKey>
        ensures bytes { IfSome result (λ k. k ≡ bytes.now) }
        ensures exact { IsSome result ↔ (length bytes.now ≡ public_length scheme) }
    {
        match scheme {
            Scheme::Lms(_) => one_level_of(bytes),
            Scheme::Hss => two_levels_of(bytes),
        }
    }

    /// Its bytes: 56 or 60.
    pub fn as_slice(&self) -> &[u8]
        ensures bytes { result.now ≡ self.now }
        ensures long { (length result.now ≡ 56) ⊎ (length result.now ≡ 60) }
    {
        match &self.bytes {
            Bytes::One(bytes) => bytes,
            Bytes::Two(bytes) => bytes,
        }
    }

    /// Whether the two have the same bytes.
    pub fn is_equal(&self, other: &PublicKey) -> bool
        ensures { IsTrue result ↔ (self.now ≡ other.now) }
    {
        self.as_slice() == other.as_slice()
    }
}

/// The public key of one level that these bytes are.
fn one_level_of(bytes: &[u8]) -> Option<PublicKey>
    ensures bytes { IfSome result (λ k. k ≡ bytes.now) }
    ensures exact { IsSome result ↔ (length bytes.now ≡ 56) }
{
    if bytes.len() != 56 {
        return None;
    }
    let mut own = [0; 56];
    own.copy_from_slice(bytes);
    Some(PublicKey::one_level(own))
}

/// The public key of two levels that these bytes are.
fn two_levels_of(bytes: &[u8]) -> Option<PublicKey>
    ensures bytes { IfSome result (λ k. k ≡ bytes.now) }
    ensures exact { IsSome result ↔ (length bytes.now ≡ 60) }
{
    if bytes.len() != 60 {
        return None;
    }
    let mut own = [0; 60];
    own.copy_from_slice(bytes);
    Some(PublicKey {
        bytes: Bytes::Two(own),
    })
}
