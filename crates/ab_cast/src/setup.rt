//! What a cluster is set up with.

ghost use Rattle.std.specs.Prelude.{◌≡◌, ◌+◌, ◌-◌, ◌*◌, ◌==◌, ◌&&◌, ◌++◌, All, IsTrue, IfOk, OnOk, map, position};
ghost use Rattle.std.specs.List.{list_any, range_with_len};
ghost use Rattle.std.specs.Option.{option_map};
ghost use Rattle.ab_num.specs.declared.party.Party.TheVariants.{Replica, Client};
ghost use Rattle.ab_num.specs.Parties.{party_eq};
ghost use Rattle.ab_keys.specs.Keys.{is_party};
ghost use Rattle.ab_keys.specs.Rings.{ring_of};
ghost use Rattle.ab_cast.specs.declared.place.Place.TheVariants as place;
ghost use Rattle.ab_cast.specs.Setups.{credentials_at, is_bad, signatures_of, place_of, twin_place, ring_at, replica_twins, client_twins};

use crate::place::Place;
use ab_keys::{KeyRing, is_party};
use ab_num::{Cluster, OutOfMemory, Party, Scheme};
use ab_party::Credentials;
use ab_scheme::signatures;
use ab_sign::Signers;
use std::alloc::Global;
use std::marker::Model;

/// A cluster with its faulty parties, the seed of its keys, the key ring of each party, the signature keys of the
/// replicas, and the places of their cores.
#[derive(Drop)]
pub struct Setup {
    cluster: Cluster,
    faulty: Vec<(Party, u8)>,
    lms: Scheme,
    seed: [u8; 32],
    signers: Signers,
    replica_rings: Vec<KeyRing>,
    client_rings: Vec<KeyRing>,
    replica_twins: Vec<(u8, u8)>,
    client_twins: Vec<(u16, u8)>,
}

impl Model for Setup {
    ghost use Rattle.ab_cast.specs.Setups.{Setup as TheSetup, IsSetup};

    ghost Value = { TheSetup };

    ghost view = { λ x. record { cluster = x.cluster; faulty = x.faulty.items; lms = x.lms; seed = x.seed } };

    ghost invariant = { λ x. IsSetup
        (record { cluster = x.cluster; faulty = x.faulty.items; lms = x.lms; seed = x.seed })
        x.signers x.replica_rings.items x.client_rings.items x.replica_twins.items x.client_twins.items };
}

/// The rings that a seed gives to the replicas, by their numbers.
fn replica_rings(alloc: Global, c: &Cluster, seed: &[u8; 32]) -> Result<Vec<KeyRing>, OutOfMemory>
    ensures { IfOk result (λ rings. rings.items ≡ map (λ r. ring_of c.now.f c.now.clients c.now.plan seed.now (Replica r)) (range_with_len 0 (3 * c.now.f + 1))) }
{
    let mut rings = Vec::new(alloc);
    for r in 0..c.replicas() {
        rings.push(KeyRing::derive(alloc, c, seed, Party::Replica(r))?)?;
    }
    Ok(rings)
}

/// The rings that a seed gives to the clients, by their numbers.
fn client_rings(alloc: Global, c: &Cluster, seed: &[u8; 32]) -> Result<Vec<KeyRing>, OutOfMemory>
    ensures { IfOk result (λ rings. rings.items ≡ map (λ n. ring_of c.now.f c.now.clients c.now.plan seed.now (Client n)) (range_with_len 0 c.now.clients)) }
{
    let mut rings = Vec::new(alloc);
    for n in 0..c.clients {
        rings.push(KeyRing::derive(alloc, c, seed, Party::Client(n))?)?;
    }
    Ok(rings)
}

/// Adds the cores of a faulty party from its second on.
fn add_twins<N: Copy>(twins: &mut Vec<(N, u8)>, number: N, cores: u8) -> Result<(), OutOfMemory>
    ensures { OnOk result (twins.new.items ≡ twins.old.items ++ map (λ twin. (number, twin)) (range_with_len 2 (cores - 1))) }
{
    for earlier in 1..cores {
        twins.push((number, earlier + 1))?;
    }
    Ok(())
}

/// The further cores of faulty replicas, in the order of the list.
fn replica_twins(alloc: Global, faulty: &[(Party, u8)]) -> Result<Vec<(u8, u8)>, OutOfMemory>
    ensures { IfOk result (λ twins. twins.items ≡ replica_twins faulty.now) }
{
    let mut twins = Vec::new(alloc);
    for &(party, cores) in faulty {
        if let Party::Replica(r) = party {
            add_twins(&mut twins, r, cores)?;
        }
    }
    Ok(twins)
}

/// The further cores of faulty clients, in the order of the list.
fn client_twins(alloc: Global, faulty: &[(Party, u8)]) -> Result<Vec<(u16, u8)>, OutOfMemory>
    ensures { IfOk result (λ twins. twins.items ≡ client_twins faulty.now) }
{
    let mut twins = Vec::new(alloc);
    for &(party, cores) in faulty {
        if let Party::Client(c) = party {
            add_twins(&mut twins, c, cores)?;
        }
    }
    Ok(twins)
}

/// Where a replica's core of this number stands among the further ones.
fn replica_twin(twins: &[(u8, u8)], r: u8, number: u8) -> Option<usize>
    ensures { result ≡ position (λ k. (k.0 == r) && (k.1 == number)) twins.now }
{
    twins.iter().position(|k| k.0 == r && k.1 == number)
}

/// The place of a replica's core of this number among the further ones.
fn replica_twin_place(twins: &[(u8, u8)], r: u8, number: u8) -> Option<Place>
    ensures { result ≡ option_map (place.ReplicaTwin r) (position (λ k. (k.0 == r) && (k.1 == number)) twins.now) }
{
    let at = replica_twin(twins, r, number)?;
    Some(Place::ReplicaTwin(r, at))
}

/// Where a client's core of this number stands among the further ones.
fn client_twin(twins: &[(u16, u8)], c: u16, number: u8) -> Option<usize>
    ensures { result ≡ position (λ k. (k.0 == c) && (k.1 == number)) twins.now }
{
    twins.iter().position(|k| k.0 == c && k.1 == number)
}

/// The place of a client's core of this number among the further ones.
fn client_twin_place(twins: &[(u16, u8)], c: u16, number: u8) -> Option<Place>
    ensures { result ≡ option_map (place.ClientTwin c) (position (λ k. (k.0 == c) && (k.1 == number)) twins.now) }
{
    let at = client_twin(twins, c, number)?;
    Some(Place::ClientTwin(c, at))
}

/// Whether the list has the party.
fn has(faulty: &[(Party, u8)], party: Party) -> bool
    ensures { result ≡ list_any (λ e. party_eq party e.0) faulty.now }
{
    faulty.iter().any(|e| party.is_same(e.0))
}

impl Setup {
    /// The setup of a cluster in which these parties are faulty, each with the number of its cores.
    /// Replicas sign by this scheme, and the keys are those that the seed gives.
    pub fn new(
        alloc: Global,
        cluster: &Cluster,
        faulty: &[(Party, u8)],
        lms: Scheme,
        seed: &[u8; 32],
    ) -> Result<Setup, OutOfMemory>
        requires { All (λ e. IsTrue (is_party cluster.now.f cluster.now.clients e.0)) faulty.now }
        ensures { IfOk result (λ x. x ≡ record { cluster = cluster.now; faulty = faulty.now; lms = lms; seed = seed.now }) }
    {
        Ok(Setup {
            cluster: *cluster,
            faulty: Vec::from_slice(alloc, faulty)?,
            lms,
            seed: *seed,
            signers: Signers::derive(alloc, cluster, lms, seed)?,
            replica_rings: replica_rings(alloc, cluster, seed)?,
            client_rings: client_rings(alloc, cluster, seed)?,
            replica_twins: replica_twins(alloc, faulty)?,
            client_twins: client_twins(alloc, faulty)?,
        })
    }

    /// The cluster.
    pub fn cluster(&self) -> &Cluster
        ensures { result.now ≡ self.now.cluster }
    {
        &self.cluster
    }

    /// The faulty parties, each with the number of its cores.
    pub fn faulty(&self) -> &[(Party, u8)]
        ensures list { result.now ≡ self.now.faulty }
        ensures parties { All (λ e. IsTrue (is_party self.now.cluster.f self.now.cluster.clients e.0)) result.now }
    {
        self.faulty.as_slice()
    }

    /// Whether a party is declared faulty.
    pub fn is_faulty(&self, party: Party) -> bool
        ensures { result ≡ is_bad self.now party }
    {
        has(self.faulty.as_slice(), party)
    }

    /// How many signatures each replica can make.
    pub(crate) fn signatures(&self) -> u64
        ensures { result ≡ signatures_of self.now }
    {
        signatures(self.lms)
    }

    /// What a party of the cluster opens, signs and seals by.
    pub fn credentials(&self, party: Party) -> Credentials<'_>
        requires { IsTrue (is_party self.now.cluster.f self.now.cluster.clients party) }
        ensures { result ≡ credentials_at self.now party }
    {
        Credentials::new(self.ring(party), &self.signers, self.cluster.every)
    }

    /// The ring of a party of the cluster.
    pub fn ring(&self, party: Party) -> &KeyRing
        requires { IsTrue (is_party self.now.cluster.f self.now.cluster.clients party) }
        ensures { result.now ≡ ring_at self.now party }
    {
        match party {
            Party::Replica(r) => &self.replica_rings[usize::from(r)],
            Party::Client(c) => &self.client_rings[usize::from(c)],
        }
    }

    /// Where a party's own core stands, or its twin of this number, counted from 1. None exactly
    /// where the cluster has no such core: the party is outside it, a twin is named of a correct
    /// party, or its number is above the party's number of cores.
    pub fn place(&self, party: Party, twin: Option<u8>) -> Option<Place>
        ensures { result ≡ place_of self.now party twin }
    {
        if !is_party(&self.cluster, party) {
            return None;
        }
        let Some(number) = twin else {
            return Some(Place::own(party));
        };
        if !self.is_faulty(party) {
            return None;
        }
        if number == 1 {
            return Some(Place::own(party));
        }
        self.twin_place(party, number)
    }

    /// Where a party's further core of this number stands.
    fn twin_place(&self, party: Party, number: u8) -> Option<Place>
        ensures { result ≡ twin_place self.now.faulty party number }
    {
        match party {
            Party::Replica(r) => replica_twin_place(self.replica_twins.as_slice(), r, number),
            Party::Client(c) => client_twin_place(self.client_twins.as_slice(), c, number),
        }
    }
}
