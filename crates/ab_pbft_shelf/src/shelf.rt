//! What a replica keeps signed.

ghost use Rattle.std.specs.Prelude.{◌≡◌, ◌≢◌, ◌<◌, ◌≤◌, ℕ, [], None, Some, IfOk, OnOk, length, set, slice_index_or, unwrap_or, replicate};
ghost use Rattle.ab_pbft_shelf.specs.declared.kept.Tagged.{Tagged as ClientTags};
ghost use Rattle.ab_pbft_shelf.specs.Shelves.{empty_shelf, with_ballot, with_ballot_of, with_tags, with_proof, with_certified, left_for, entered, put_tags};

use crate::ballots::{certified_by, has_ballot, put_ballot};
use crate::changes::{drop_maker, put_proof};
use crate::kept::{Certified, SignedVote, Tagged, copy_slots};
use ab_form::Part;
use ab_msg::{AbortCert, Proof, Tags, Value, copy_each};
use ab_num::{Cluster, OutOfMemory};
use ab_wire::SignerRef;
use std::alloc::Global;
use std::marker::Model;

/// What a replica of PBFT keeps in one instance beside what its rules speak of: the certificate by which it
/// entered, the signed PREPAREs of its present view, each slot's last certificate, the VIEW-CHANGEs of the replicas,
/// and the tags of each client's last request.
pub struct Shelf {
    pub(crate) entry: AbortCert,
    pub(crate) view: u32,
    pub(crate) ballots: Vec<SignedVote>,
    pub(crate) certified: Vec<Option<Certified>>,
    pub(crate) proofs: Vec<Proof>,
    pub(crate) tagged: Vec<Tagged>,
}

impl Drop for Shelf {
    fn drop(self) {
        let Shelf {
            entry: _,
            view: _,
            ballots: _,
            certified: _,
            proofs: _,
            tagged: _,
        } = self;
    }
}

impl Model for Shelf {
    ghost use Rattle.ab_pbft_shelf.specs.Shelves.{Shelf as Held};

    ghost Value = { Held };

    ghost view = { λ s. record { entry = s.entry; view = s.view; ballots = s.ballots.items; certified = s.certified.items; proofs = s.proofs.items; tagged = s.tagged.items } };
}

/// The certificate, or an empty one where there is none.
fn entry_cert(alloc: Global, entry: &Option<AbortCert>) -> Result<AbortCert, OutOfMemory>
    ensures { IfOk result (λ c. c ≡ unwrap_or entry.now []) }
{
    match entry {
        Some(cert) => cert.copy(alloc),
        None => Ok(AbortCert::of(Vec::new(alloc))),
    }
}

/// So many slots without certificates.
fn empty_slots(alloc: Global, n: usize) -> Result<Vec<Option<Certified>>, OutOfMemory>
    ensures { IfOk result (λ v. v.items ≡ replicate n None) }
{
    let mut slots = Vec::with_capacity(alloc, n)?;
    for _slot in 0..n {
        slots.push(None)?;
    }
    Ok(slots)
}

/// Keeps it as the certificate of a slot, if that is there.
fn put_certified(slots: &mut Vec<Option<Certified>>, slot: u8, certified: Certified)
    ensures { slots.new.items ≡ set slots.old.items slot (Some certified) }
{
    let place = usize::from(slot);
    if place < slots.len() {
        slots[place] = Some(certified);
    }
}

/// The place of the first of a client.
fn place_for(tagged: &[Tagged], client: u16) -> usize
    ensures within { result ≤ length tagged.now }
    ensures below { (k : ℕ) (t : ClientTags) → k < result → (slice_index_or tagged.now k t).client ≢ client }
    ensures here { (t : ClientTags) → result < length tagged.now → (slice_index_or tagged.now result t).client ≡ client }
{
    match tagged.iter().position(|t| t.client == client) {
        Some(place) => place,
        None => tagged.len(),
    }
}

/// Keeps the tags as those of their client's last request.
fn put_tags(tagged: &mut Vec<Tagged>, t: Tagged) -> Result<(), OutOfMemory>
    ensures { OnOk result (tagged.new.items ≡ put_tags t tagged.old.items) }
{
    let place = place_for(tagged.as_slice(), t.client);
    if place < tagged.len() {
        tagged[place] = t;
        return Ok(());
    }
    tagged.push(t)?;
    Ok(())
}

impl Shelf {
    /// Nothing kept, in an instance that orders `limit` requests and was entered with this certificate.
    pub fn new(alloc: Global, limit: u8, entry: &Option<AbortCert>) -> Result<Shelf, OutOfMemory>
        ensures { IfOk result (λ s. s ≡ empty_shelf limit (unwrap_or entry.now [])) }
    {
        let entry = entry_cert(alloc, entry)?;
        let certified = empty_slots(alloc, usize::from(limit) + 1)?;
        Ok(Shelf {
            entry,
            view: 0,
            ballots: Vec::new(alloc),
            certified,
            proofs: Vec::new(alloc),
            tagged: Vec::new(alloc),
        })
    }

    /// Keeps the tags of a client's request. After an `Err` the value may be anything, here and in each method
    /// that changes it.
    pub fn keep_tags(&mut self, client: u16, tags: Tags) -> Result<(), OutOfMemory>
        ensures { OnOk result (self.new ≡ with_tags (record { client = client; tags = tags }) self.old) }
    {
        put_tags(&mut self.tagged, Tagged { client, tags })
    }

    /// Keeps a PREPARE of a view, if that is the present one and the PREPARE the first of its replica for its slot. Else its
    /// signature isn't copied.
    pub fn keep_ballot(
        &mut self,
        alloc: Global,
        view: u32,
        slot: u8,
        x: &[u8; 32],
        signer: SignerRef<'_>,
    ) -> Result<(), OutOfMemory>
        ensures { OnOk result (self.new ≡ with_ballot_of view (record { by = signer.entry.replica; slot = slot; x = x.now; sig = signer.entry.sig.now }) self.old) }
    {
        if view != self.view || has_ballot(self.ballots.as_slice(), signer.replica, slot) {
            return Ok(());
        }
        let (by, sig) = signer.owned(alloc)?;
        let ballot = SignedVote {
            by,
            slot,
            x: *x,
            sig,
        };
        put_ballot(&mut self.ballots, ballot)
    }

    /// Keeps a VIEW-CHANGE, if no later one of its replica is there.
    pub fn keep_proof(&mut self, proof: Proof) -> Result<(), OutOfMemory>
        ensures { OnOk result (self.new ≡ with_proof proof self.old) }
    {
        put_proof(&mut self.proofs, proof)
    }

    /// Keeps its own PREPARE of the present view.
    pub(crate) fn keep_own_ballot(&mut self, ballot: SignedVote) -> Result<(), OutOfMemory>
        ensures { OnOk result (self.new ≡ with_ballot ballot self.old) }
    {
        put_ballot(&mut self.ballots, ballot)
    }

    /// Makes the certificate of a slot whose value is prepared in a view.
    pub(crate) fn certify(
        &mut self,
        alloc: Global,
        c: &Cluster,
        view: u32,
        slot: u8,
        value: &Value,
    ) -> Result<(), OutOfMemory>
        ensures { OnOk result (self.new ≡ with_certified c.now.f view slot value.now self.old) }
    {
        let certified = certified_by(alloc, c, view, slot, value, self.ballots.as_slice())?;
        put_certified(&mut self.certified, slot, certified);
        Ok(())
    }

    /// Leaves for a view, with its VIEW-CHANGE.
    pub(crate) fn leave(&mut self, me: u8, view: u32, proof: Proof) -> Result<(), OutOfMemory>
        ensures { OnOk result (self.new ≡ left_for me view proof self.old) }
    {
        drop_maker(&mut self.proofs, me);
        put_proof(&mut self.proofs, proof)?;
        self.ballots.clear();
        self.view = view;
        Ok(())
    }

    /// Enters a view.
    pub(crate) fn enter(&mut self, view: u32)
        ensures { self.new ≡ entered view self.old }
    {
        if self.view < view {
            self.ballots.clear();
        }
        self.view = view;
    }

    /// An equal value.
    pub fn copy(&self, alloc: Global) -> Result<Shelf, OutOfMemory>
        ensures { IfOk result (λ s. s ≡ self.now) }
    {
        let entry = self.entry.copy(alloc)?;
        let ballots = copy_each(alloc, self.ballots.as_slice())?;
        let certified = copy_slots(alloc, self.certified.as_slice())?;
        let proofs = copy_each(alloc, self.proofs.as_slice())?;
        let tagged = copy_each(alloc, self.tagged.as_slice())?;
        Ok(Shelf {
            entry,
            view: self.view,
            ballots,
            certified,
            proofs,
            tagged,
        })
    }
}
