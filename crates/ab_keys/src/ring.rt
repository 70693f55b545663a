//! The key ring of a party.

ghost use Rattle.std.specs.Prelude.{◌≡◌, ◌↔◌, ◌∷◌, [], ◌++◌, IsTrue, IfOk, OnOk, OnErr, Some};
ghost use Rattle.std.specs.Option.{option_copied};
ghost use Rattle.ab_keys.specs.Keys.{is_party};
ghost use Rattle.ab_keys.specs.Rings.{peer_in, peers_of, ring_of, tag_from, tag_to};

use crate::keys::exchanges;
use crate::peer::Peer;
use ab_num::{Cluster, OutOfMemory, Party};
use std::alloc::{AllocError, Global};
use std::marker::Model;

/// The keys of one party of a cluster: for each party that it exchanges tags with, the key to it and
/// the key from it. It makes and checks tags, and gives out no key. It has no text form.
pub struct KeyRing {
    cluster: Cluster,
    me: Party,
    peers: Vec<Peer>,
}

// Written out, so that no crate above makes and proves it anew.
impl Drop for KeyRing {
    fn drop(self) {
        let KeyRing {
            cluster: _,
            me: _,
            peers: _,
        } = self;
    }
}

impl Model for KeyRing {
    ghost use Rattle.std.specs.Prelude.{IsTrue};
    ghost use Rattle.ab_keys.specs.Keys.{is_party};
    ghost use Rattle.ab_keys.specs.Rings.{Ring};

    ghost Value = { Ring };

    ghost view = { λ r. record {
      f = r.cluster.f;
      clients = r.cluster.clients;
      plan = r.cluster.plan;
      me = r.me;
      peers = r.peers.items;
    } };

    ghost invariant = { λ r. IsTrue (is_party r.cluster.f r.cluster.clients r.me) };
}

/// Adds what `me` keeps for another, if the two exchange tags.
#[tactic(auto, unfolding(crate::specs::Rings::peers_of))]
fn add(peers: &mut Vec<Peer>, seed: &[u8; 32], me: Party, other: Party) -> Result<(), AllocError>
    ensures { OnOk result (peers.new.items ≡ peers.old.items ++ peers_of seed.now me (other ∷ [])) }
{
    if exchanges(me, other) {
        peers.push(Peer::derive(seed, me, other))?;
    }
    Ok(())
}

impl KeyRing {
    /// The ring of the party `me` that a seed gives.
    #[tactic(auto, unfolding(crate::specs::Rings::parties, crate::specs::Rings::peers_of))]
    pub fn derive(
        alloc: Global,
        c: &Cluster,
        seed: &[u8; 32],
        me: Party,
    ) -> Result<KeyRing, OutOfMemory>
        requires { IsTrue (is_party c.now.f c.now.clients me) }
        ensures { IfOk result (λ ring. ring ≡ ring_of c.now.f c.now.clients c.now.plan seed.now me) }
    {
        let most = usize::from(c.replicas()) + usize::from(c.clients);
        let mut peers = Vec::with_capacity(alloc, most)?;
        'replicas: for r in 0..c.replicas() {
            add(&mut peers, seed, me, Party::Replica(r))?;
        }
        'clients: for n in 0..c.clients {
            add(&mut peers, seed, me, Party::Client(n))?;
        }
        Ok(KeyRing {
            cluster: *c,
            me,
            peers,
        })
    }

    /// A ring without keys.
    pub fn new(alloc: Global, c: &Cluster, me: Party) -> KeyRing
        requires { IsTrue (is_party c.now.f c.now.clients me) }
        ensures { result ≡ record { f = c.now.f; clients = c.now.clients; plan = c.now.plan; me = me; peers = [] } }
    {
        KeyRing {
            cluster: *c,
            me,
            peers: Vec::new(alloc),
        }
    }

    /// Adds the key to a party and the key from it. Those that were added first count.
    pub fn add(&mut self, p: Party, to: &[u8; 32], from: &[u8; 32]) -> Result<(), OutOfMemory>
        ensures ok { OnOk result (self.new ≡ record self.old { peers = self.old.peers ++ record { party = p; to = to.now; from = from.now } ∷ [] }) }
        ensures err { OnErr result (self.new ≡ self.old) }
    {
        self.peers.push(Peer::new(p, to, from))?;
        Ok(())
    }

    /// The cluster.
    pub fn cluster(&self) -> &Cluster
        ensures f { result.now.f ≡ self.now.f }
        ensures clients { result.now.clients ≡ self.now.clients }
        ensures plan { result.now.plan ≡ self.now.plan }
    {
        &self.cluster
    }

    /// Whose keys these are.
    pub fn me(&self) -> Party
        ensures me { result ≡ self.now.me }
        ensures party { IsTrue (is_party self.now.f self.now.clients result) }
    {
        self.me
    }

    /// What is kept for a party.
    fn peer(&self, p: Party) -> Option<&Peer>
        ensures { option_copied result ≡ peer_in self.now.peers p }
    {
        self.peers.iter().find(|peer| peer.is_for(p))
    }

    /// The tag of a text for a party. None where there is no key to it.
    #[tactic(auto, unfolding(crate::specs::Rings::tag_to, crate::specs::Rings::key_to))]
    pub fn tag_for(&self, to: Party, text: &[u8]) -> Option<[u8; 32]>
        ensures { result ≡ tag_to self.now to text.now }
    {
        Some(self.peer(to)?.tag(text))
    }

    /// Whether `tag` is the tag of a text from a party. False where there is no key from it.
    #[tactic(auto, unfolding(crate::specs::Rings::tag_from, crate::specs::Rings::key_from))]
    pub fn checks(&self, from: Party, text: &[u8], tag: &[u8; 32]) -> bool
        ensures { IsTrue result ↔ (tag_from self.now from text.now ≡ Some tag.now) }
    {
        match self.peer(from) {
            Some(peer) => peer.checks(text, tag),
            None => false,
        }
    }
}
