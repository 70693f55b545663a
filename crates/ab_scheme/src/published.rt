//! A public key that was computed.

ghost use Rattle.std.specs.Prelude.{◌≡◌, IfSome};
ghost use Rattle.ab_scheme.specs.Schemes.{public_by};

use crate::public::PublicKey;
use ab_num::Scheme;
use std::marker::Model;

/// The public key of a scheme, a name and a seed.
#[derive(Drop)]
pub(crate) struct Published {
    scheme: Scheme,
    id: [u8; 16],
    seed: [u8; 32],
    key: PublicKey,
}

impl Model for Published {
    ghost use Rattle.std.specs.Prelude.{◌≡◌};
    ghost use Rattle.ab_scheme.specs.Schemes.{SchemeKey, public_by};

    ghost Value = { SchemeKey };

    ghost view = { λ p. record { scheme = p.scheme; id = p.id; seed = p.seed } };

    ghost invariant = { λ p. p.key ≡ public_by p.scheme p.id p.seed };
}

impl Published {
    /// This key as the public key of a scheme, a name and a seed.
    pub(crate) fn of(scheme: Scheme, id: [u8; 16], seed: [u8; 32], key: PublicKey) -> Published
        requires { key ≡ public_by scheme id seed }
    {
        Published {
            scheme,
            id,
            seed,
            key,
        }
    }

    /// The key, if it is the public key of this scheme, name and seed.
    pub(crate) fn key_of(&self, scheme: Scheme, id: &[u8; 16], seed: &[u8; 32]) -> Option<PublicKey>
        ensures { IfSome result (λ key. key ≡ public_by scheme id.now seed.now) }
    {
        if self.scheme == scheme && self.id == *id && self.seed == *seed {
            Some(self.key)
        } else {
            None
        }
    }
}
