//! What one party of a cluster keeps.

ghost use Rattle.std.specs.Prelude.{◌≡◌, IfOk, IsTrue};
ghost use Rattle.std.specs.Option.{option_copied};
ghost use Rattle.ab_keys.specs.Keys.{is_party};
ghost use Rattle.ab_key_text.specs.Keys.{ring_in};

use crate::secret::Secret;
use crate::shared::Shared;
use ab_keys::KeyRing;
use ab_num::{Cluster, OutOfMemory, Party, Scheme, ServiceName};
use ab_scheme::PublicKey;
use std::alloc::Global;
use std::marker::Model;

/// The keys of one party of a cluster: what it shares with each of its peers, the public keys of the
/// replicas, and a replica's secret.
#[derive(Drop)]
pub struct PartyKeys {
    pub(crate) cluster: Cluster,
    pub(crate) service: ServiceName,
    pub(crate) lms: Scheme,
    pub(crate) me: Party,
    pub(crate) secret: Option<Secret>,
    pub(crate) peers: Vec<Shared>,
    pub(crate) publics: Vec<PublicKey>,
}

impl Model for PartyKeys {
    ghost use Rattle.std.specs.Prelude.{IsTrue};
    ghost use Rattle.ab_keys.specs.Keys.{is_party as is_member};
    ghost use Rattle.ab_key_text.specs.Keys.{PartyKeys as KeysValue};

    ghost Value = { KeysValue };

    ghost view = { λ k. record {
      f = k.cluster.f;
      clients = k.cluster.clients;
      plan = k.cluster.plan;
      every = k.cluster.every;
      service = k.service;
      lms = k.lms;
      me = k.me;
      secret = k.secret;
      peers = k.peers.items;
      publics = k.publics.items;
    } };

    ghost invariant = { λ k. IsTrue (is_member k.cluster.f k.cluster.clients k.me) };
}

impl PartyKeys {
    /// The cluster.
    pub fn cluster(&self) -> &Cluster
        ensures f { result.now.f ≡ self.now.f }
        ensures clients { result.now.clients ≡ self.now.clients }
        ensures plan { result.now.plan ≡ self.now.plan }
        ensures every { result.now.every ≡ self.now.every }
    {
        &self.cluster
    }

    /// The service.
    pub fn service(&self) -> ServiceName
        ensures { result ≡ self.now.service }
    {
        self.service
    }

    /// How the replicas sign.
    pub fn scheme(&self) -> Scheme
        ensures { result ≡ self.now.lms }
    {
        self.lms
    }

    /// Whose keys these are.
    pub fn me(&self) -> Party
        ensures me { result ≡ self.now.me }
        ensures party { IsTrue (is_party self.now.f self.now.clients result) }
    {
        self.me
    }

    /// A replica's own secret.
    pub fn secret(&self) -> Option<&Secret>
        ensures { option_copied result ≡ self.now.secret }
    {
        self.secret.as_ref()
    }

    /// The public keys of the replicas, from replica 0 on.
    pub fn publics(&self) -> &[PublicKey]
        ensures { result.now ≡ self.now.publics }
    {
        self.publics.as_slice()
    }

    /// The key ring.
    pub fn ring(&self, alloc: Global) -> Result<KeyRing, OutOfMemory>
        ensures { IfOk result (λ ring. ring ≡ ring_in self.now) }
    {
        let mut ring = KeyRing::new(alloc, &self.cluster, self.me);
        for peer in &self.peers {
            ring.add(peer.party(), peer.to(), peer.from())?;
        }
        Ok(ring)
    }
}
