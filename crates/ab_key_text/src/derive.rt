//! The keys that a seed gives to a party.

ghost use Rattle.std.specs.Prelude.{◌≡◌, ◌+◌, ◌*◌, IfOk, IsTrue, map};
ghost use Rattle.std.specs.List.{range_with_len};
ghost use Rattle.ab_keys.specs.Keys.{is_party};
ghost use Rattle.ab_keys.specs.Rings.{parties, peers_of};
ghost use Rattle.ab_key_text.specs.Derived.{keys_for, keys_of, own_secret, public_of, secret_of};

use crate::keys::PartyKeys;
use crate::peers::peers_in;
use crate::secret::Secret;
use crate::shared::Shared;
use ab_keys::{key_of, tree_name, tree_seed};
use ab_num::{Cluster, OutOfMemory, Party, Scheme, ServiceName};
use ab_scheme::PublicKey;
use std::alloc::Global;

/// The secret that a seed gives to replica `r`.
fn secret_of(seed: &[u8; 32], r: u8) -> Secret
    ensures { result ≡ secret_of seed.now r }
{
    Secret::new(tree_name(seed, r), tree_seed(seed, r))
}

/// The secret of a party.
fn own_secret(seed: &[u8; 32], me: Party) -> Option<Secret>
    ensures { result ≡ own_secret seed.now me }
{
    match me {
        Party::Replica(r) => Some(secret_of(seed, r)),
        Party::Client(_) => None,
    }
}

/// The public key of replica `r`.
#[tactic(auto, unfolding(crate::specs::Derived::public_of))]
fn public_of(lms: Scheme, seed: &[u8; 32], r: u8) -> PublicKey
    ensures { result ≡ public_of lms seed.now r }
{
    PublicKey::of(lms, &tree_name(seed, r), &tree_seed(seed, r))
}

/// The public keys of the replicas.
fn publics_of(
    alloc: Global,
    c: &Cluster,
    lms: Scheme,
    seed: &[u8; 32],
) -> Result<Vec<PublicKey>, OutOfMemory>
    ensures { IfOk result (λ v. v.items ≡ map (public_of lms seed.now) (range_with_len 0 (3 * c.now.f + 1))) }
{
    let mut publics = Vec::new(alloc);
    for r in 0..c.replicas() {
        publics.push(public_of(lms, seed, r))?;
    }
    Ok(publics)
}

/// What a party shares with each of its peers.
#[tactic(auto, unfolding(ab_keys::specs::Rings::peers_of))]
fn peers_of(
    alloc: Global,
    c: &Cluster,
    seed: &[u8; 32],
    me: Party,
) -> Result<Vec<Shared>, OutOfMemory>
    ensures { IfOk result (λ v. v.items ≡ peers_of seed.now me (parties c.now.f c.now.clients)) }
{
    let mut shared = Vec::new(alloc);
    for p in &peers_in(alloc, c, me)? {
        shared.push(Shared::new(*p, key_of(seed, me, *p), key_of(seed, *p, me)))?;
    }
    Ok(shared)
}

impl PartyKeys {
    /// The keys that a seed gives to the party `me`. It computes the tree of each replica. If `c.every` is above
    /// `ab_text::most_built` of the plan, the text of these keys isn't read.
    pub fn derive(
        alloc: Global,
        c: &Cluster,
        service: ServiceName,
        lms: Scheme,
        seed: &[u8; 32],
        me: Party,
    ) -> Result<PartyKeys, OutOfMemory>
        requires { IsTrue (is_party c.now.f c.now.clients me) }
        ensures { IfOk result (λ k. k ≡ keys_of c.now.f c.now.clients c.now.plan c.now.every service lms seed.now me) }
    {
        let peers = peers_of(alloc, c, seed, me)?;
        let publics = publics_of(alloc, c, lms, seed)?;
        Ok(PartyKeys {
            cluster: *c,
            service,
            lms,
            me,
            secret: own_secret(seed, me),
            peers,
            publics,
        })
    }

    /// The keys that the seed of these keys gives to another party of the cluster. The public keys are the same, and no tree
    /// is computed.
    pub fn for_party(
        &self,
        alloc: Global,
        seed: &[u8; 32],
        me: Party,
    ) -> Result<PartyKeys, OutOfMemory>
        requires { IsTrue (is_party self.now.f self.now.clients me) }
        ensures { IfOk result (λ k. k ≡ keys_for self.now seed.now me) }
    {
        let peers = peers_of(alloc, &self.cluster, seed, me)?;
        let publics = Vec::from_slice(alloc, self.publics.as_slice())?;
        Ok(PartyKeys {
            cluster: self.cluster,
            service: self.service,
            lms: self.lms,
            me,
            secret: own_secret(seed, me),
            peers,
            publics,
        })
    }
}
