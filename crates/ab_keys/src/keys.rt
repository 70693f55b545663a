//! Which parties exchange tags, and the keys that a seed gives.

ghost use Rattle.std.specs.Prelude.{◌≡◌};
ghost use Rattle.ab_keys.specs.Keys.{exchanges, is_party, key_of, key_text, party_bytes};

use ab_num::{Cluster, Party};
use sha2::{Digest, Sha256};

/// The mark of a key's text.
const KEY: u8 = 2;

/// Whether a cluster has the party.
pub fn is_party(c: &Cluster, p: Party) -> bool
    ensures { result ≡ is_party c.now.f c.now.clients p }
{
    match p {
        Party::Replica(r) => r < c.replicas(),
        Party::Client(n) => n < c.clients,
    }
}

/// Whether two parties exchange tags: none with itself, and no client with a client.
pub fn exchanges(a: Party, b: Party) -> bool
    ensures { result ≡ exchanges a b }
{
    match (a, b) {
        (Party::Replica(r), Party::Replica(s)) => r != s,
        (Party::Replica(_), Party::Client(_)) => true,
        (Party::Client(_), Party::Replica(_)) => true,
        (Party::Client(_), Party::Client(_)) => false,
    }
}

/// A party in three bytes: its kind and its number.
pub fn party_bytes(p: Party) -> [u8; 3]
    ensures { result ≡ party_bytes p }
{
    let (kind, number) = match p {
        Party::Replica(r) => (0, u16::from(r)),
        Party::Client(c) => (1, c),
    };
    let [high, low] = number.to_be_bytes();
    [kind, high, low]
}

/// The key that a seed gives from `a` to `b`.
#[tactic(auto, unfolding(crate::specs::Keys::key_of, crate::specs::Keys::key_text))]
pub fn key_of(seed: &[u8; 32], a: Party, b: Party) -> [u8; 32]
    ensures { result ≡ key_of seed.now a b }
{
    let mut hasher = Sha256::new();
    hasher.update(&[KEY]);
    hasher.update(seed);
    hasher.update(&party_bytes(a));
    hasher.update(&party_bytes(b));
    hasher.finalize()
}
