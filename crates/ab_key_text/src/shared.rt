//! The two keys that a party shares with another.

ghost use Rattle.std.specs.Prelude.{◌≡◌};

use ab_num::Party;
use std::marker::Model;

/// Another party, the key to it and the key from it.
#[derive(Drop)]
pub(crate) struct Shared {
    party: Party,
    to: [u8; 32],
    from: [u8; 32],
}

impl Model for Shared {
    ghost use Rattle.ab_keys.specs.Rings.{Peer as ThePeer};

    ghost Value = { ThePeer };

    ghost view = { λ p. record { party = p.party; to = p.to; from = p.from } };
}

impl Shared {
    /// What is shared with a party.
    pub(crate) fn new(party: Party, to: [u8; 32], from: [u8; 32]) -> Shared
        ensures { result ≡ record { party = party; to = to; from = from } }
    {
        Shared { party, to, from }
    }

    /// The other party.
    pub(crate) fn party(&self) -> Party
        ensures { result ≡ self.now.party }
    {
        self.party
    }

    /// The key to it.
    pub(crate) fn to(&self) -> &[u8; 32]
        ensures { result.now ≡ self.now.to }
    {
        &self.to
    }

    /// The key from it.
    pub(crate) fn from(&self) -> &[u8; 32]
        ensures { result.now ≡ self.now.from }
    {
        &self.from
    }
}
