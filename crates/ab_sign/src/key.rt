//! The signature key of one replica.

ghost use Rattle.std.specs.Prelude.{◌≡◌, ◌<◌, IfOk};
ghost use Rattle.ab_scheme.specs.Schemes.{VerifiesBy};
ghost use Rattle.ab_sign.specs.Signers.{leaves_in, public_in, signature_in};

use ab_num::OutOfMemory;
use ab_scheme::{PublicKey, SecretKey, signatures};
use std::alloc::Global;

/// What is kept of a replica's key: the secret, or the public key alone.
pub enum SignKey {
    Secret(SecretKey),
    Public(PublicKey),
}

// Written out, so that no crate above makes and proves it anew.
impl Drop for SignKey {
    fn drop(self) {
        match self {
            SignKey::Secret(_) => {}
            SignKey::Public(_) => {}
        }
    }
}

impl SignKey {
    /// The public key.
    pub fn public(&self) -> PublicKey
        ensures { result ≡ public_in self.now }
    {
        match self {
            SignKey::Secret(key) => key.public(),
            SignKey::Public(key) => *key,
        }
    }

    /// How many signatures it can make.
    pub fn leaves(&self) -> u64
        ensures { result ≡ leaves_in self.now }
    {
        match self {
            SignKey::Secret(key) => signatures(key.scheme()),
            SignKey::Public(_) => 0,
        }
    }

    /// Its signature number `q`, which is of `msg`.
    pub fn sign_at(&self, alloc: Global, q: u64, msg: &[u8]) -> Result<Vec<u8>, OutOfMemory>
        requires { q < leaves_in self.now }
        ensures signature { IfOk result (λ v. v.items ≡ signature_in self.now q msg.now) }
        ensures verifies { IfOk result (λ v. VerifiesBy (public_in self.now) msg.now v.items) }
    {
        match self {
            SignKey::Secret(key) => key.sign_at(alloc, q, msg),
            SignKey::Public(_) => unreachable!(),
        }
    }
}
