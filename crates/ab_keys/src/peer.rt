//! What one party keeps for another.

ghost use Rattle.std.specs.Prelude.{◌≡◌, ◌↔◌, IsTrue};
ghost use Rattle.ab_mac.specs.Tags.{hmac};
ghost use Rattle.ab_num.specs.Parties.{party_eq};
ghost use Rattle.ab_keys.specs.Rings.{peer_of};

use crate::keys::key_of;
use ab_mac::Key;
use ab_num::Party;
use std::marker::Model;

/// Another party, the key to it and the key from it.
#[derive(Drop)]
pub(crate) struct Peer {
    party: Party,
    to: Key,
    from: Key,
}

impl Model for Peer {
    ghost use Rattle.ab_keys.specs.Rings.{Peer as ThePeer};

    ghost Value = { ThePeer };

    ghost view = { λ p. record { party = p.party; to = p.to; from = p.from } };
}

impl Peer {
    /// A party with the key to it and the key from it.
    pub(crate) fn new(party: Party, to: &[u8; 32], from: &[u8; 32]) -> Peer
        ensures { result ≡ record { party = party; to = to.now; from = from.now } }
    {
        Peer {
            party,
            to: Key::new(to),
            from: Key::new(from),
        }
    }

    /// What `me` keeps for another, by a seed.
    pub(crate) fn derive(seed: &[u8; 32], me: Party, other: Party) -> Peer
        ensures { result ≡ peer_of seed.now me other }
    {
        Peer {
            party: other,
            to: Key::new(&key_of(seed, me, other)),
            from: Key::new(&key_of(seed, other, me)),
        }
    }

    /// Whether the other party is `p`.
    pub(crate) fn is_for(&self, p: Party) -> bool
        ensures { result ≡ party_eq self.now.party p }
    {
        self.party.is_same(p)
    }

    /// The tag of a text for the other party.
    pub(crate) fn tag(&self, text: &[u8]) -> [u8; 32]
        ensures { result ≡ hmac self.now.to text.now }
    {
        self.to.tag(text)
    }

    /// Whether `tag` is the tag of a text from the other party.
    pub(crate) fn checks(&self, text: &[u8], tag: &[u8; 32]) -> bool
        ensures { IsTrue result ↔ (tag.now ≡ hmac self.now.from text.now) }
    {
        self.from.checks(text, tag)
    }
}
