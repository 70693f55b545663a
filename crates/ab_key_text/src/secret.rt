//! What a replica signs with.

ghost use Rattle.std.specs.Prelude.{◌≡◌};

use std::marker::Model;

/// The name of a signer's tree, and the seed of its private values.
#[derive(Drop)]
pub struct Secret {
    id: [u8; 16],
    seed: [u8; 32],
}

impl Model for Secret {
    ghost use Rattle.ab_key_text.specs.Keys.{Secret as SecretValue};

    ghost Value = { SecretValue };

    ghost view = { λ s. record { id = s.id; seed = s.seed } };
}

impl Secret {
    /// The secret of these parts.
    pub(crate) fn new(id: [u8; 16], seed: [u8; 32]) -> Secret
        ensures { result ≡ record { id = id; seed = seed } }
    {
        Secret { id, seed }
    }

    /// The name of the tree.
    pub fn id(&self) -> [u8; 16]
        ensures { result ≡ self.now.id }
    {
        self.id
    }

    /// The seed of the private values.
    pub fn seed(&self) -> [u8; 32]
        ensures { result ≡ self.now.seed }
    {
        self.seed
    }
}
