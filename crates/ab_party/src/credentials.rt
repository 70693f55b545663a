//! What a party of a cluster opens, signs and seals by.

ghost use Rattle.std.specs.Prelude.{◌≡◌, ◌++◌, ◌∷◌, [], ℕ, All, IfOk, IfSome, OnOk, IsTrue, MatchResult, Ok, Err};
ghost use Rattle.ab_num.specs.declared.party.Party.TheVariants.{Replica};
ghost use Rattle.ab_keys.specs.Keys.{is_party};
ghost use Rattle.ab_run.specs.Forms.{IsDraftOf};
ghost use Rattle.ab_msg.specs.Packets.{IsSendable};
ghost use Rattle.ab_party.specs.Credentials.{IsLast, IsPartyRing, opening_by, sealed_all, sealed_by};

use ab_keys::{KeyRing, is_party};
use ab_msg::{Out, Packet};
use ab_num::{OutOfMemory, Party};
use ab_open::{Checked, OpenFault, open};
use ab_seal::{drafts_are_sealed_as_messages, is_sealed_alike, seal};
use ab_sign::{Pen, Signers, Verifier};
use std::alloc::Global;
use std::marker::Model;

/// A party's key ring, and the signature keys of the replicas, lent by who has them: in one program
/// all parties may share the signature keys. And after how many requests a checkpoint is due (0: never).
#[derive(Drop)]
pub struct Credentials<'k> {
    ring: &'k KeyRing,
    signers: &'k Signers,
    every: u16,
}

impl<'k> Model for Credentials<'k> {
    ghost use Rattle.ab_party.specs.Credentials.{Credentials as TheCredentials};

    ghost Value = { TheCredentials };

    ghost view = { λ c. record { ring = c.ring.now; keys = c.signers.now; every = c.every } };
}

/// These bytes to this party. If the packet before it has the same bytes, both share them.
fn packet_after(
    alloc: Global,
    before: Option<&Packet>,
    to: Party,
    bytes: &[u8],
) -> Result<Packet, OutOfMemory>
    ensures { IfOk result (λ packet. packet ≡ record { to = to; bytes = bytes.now }) }
{
    if let Some(before) = before {
        if before.bytes() == bytes {
            return before.forward(to);
        }
    }
    Packet::new(alloc, to, bytes)
}

impl<'k> Credentials<'k> {
    /// This ring and these keys, in a cluster in which a checkpoint is due after each `every` requests.
    pub fn new(ring: &'k KeyRing, signers: &'k Signers, every: u16) -> Credentials<'k>
        ensures { result ≡ record { ring = ring.now; keys = signers.now; every = every } }
    {
        Credentials {
            ring,
            signers,
            every,
        }
    }

    /// Opens bytes that came to the party.
    pub fn open<'a>(&self, alloc: Global, bytes: &'a [u8]) -> Result<Checked<'a>, OpenFault>
        ensures opening { MatchResult result (λ m. opening_by self.now bytes.now ≡ Ok m.msg) (λ e. opening_by self.now bytes.now ≡ Err e) }
        ensures me { IfOk result (λ m. m.me ≡ self.now.ring.me) }
    {
        let ring = self.ring;
        let mut verifier = Verifier::new(ring, self.signers);
        open(
            alloc,
            ring.cluster(),
            self.every,
            ring.me(),
            &mut verifier,
            bytes,
        )
    }

    /// The replica whose they are, as one who has signed so often.
    pub(crate) fn pen(&self, used: u64) -> Pen<'_>
        requires { (r : ℕ) × (self.now.ring.me ≡ Replica r) }
        ensures { (r : ℕ) → self.now.ring.me ≡ Replica r → result ≡ record { keys = self.now.keys; replica = r; used = used } }
    {
        match self.ring.me() {
            Party::Replica(r) => Pen::new(self.signers, r, used),
            Party::Client(_) => unreachable!(),
        }
    }

    /// A message with the tags of its maker, where the message before it is the last of these, if
    /// there is one. A request that goes to several replicas is sealed once.
    fn packet_of(
        &self,
        alloc: Global,
        packets: &[Packet],
        before: Option<&Out>,
        out: &Out,
    ) -> Result<Packet, OutOfMemory>
        requires draft { IsDraftOf self.now.ring.f self.now.ring.me out.now }
        requires before { IfSome before (λ o. IsLast (sealed_by self.now.ring o.now) packets.now) }
        ensures { IfOk result (λ packet. packet ≡ sealed_by self.now.ring out.now) }
    {
        if let Some(before) = before {
            if is_sealed_alike(&before.msg, &out.msg) {
                if let Some(last) = packets.last() {
                    return last.forward(out.to);
                }
            }
        }
        let bytes = seal(alloc, self.ring, out)?;
        packet_after(alloc, packets.last(), out.to, &bytes)
    }

    /// Adds a message to a party of the cluster, with the tags of its maker.
    fn add(
        &self,
        alloc: Global,
        packets: &mut Vec<Packet>,
        before: Option<&Out>,
        out: &Out,
    ) -> Result<(), OutOfMemory>
        requires ring { IsPartyRing self.now.ring }
        requires draft { IsDraftOf self.now.ring.f self.now.ring.me out.now }
        requires to { IsTrue (is_party self.now.ring.f self.now.ring.clients out.now.to) }
        requires before { IfSome before (λ o. IsLast (sealed_by self.now.ring o.now) packets.old.items) }
        requires sendable { All IsSendable packets.old.items }
        ensures sealed { OnOk result (packets.new.items ≡ packets.old.items ++ sealed_by self.now.ring out.now ∷ []) }
        ensures sendable { OnOk result (All IsSendable packets.new.items) }
    {
        drafts_are_sealed_as_messages();
        let packet = self.packet_of(alloc, packets.as_slice(), before, out)?;
        packets.push(packet)?;
        Ok(())
    }

    /// These messages to parties of the cluster, each with the tags of its maker. To no other is
    /// anything sent.
    pub fn seal_all(&self, alloc: Global, outs: &[Out]) -> Result<Vec<Packet>, OutOfMemory>
        requires ring { IsPartyRing self.now.ring }
        requires drafts { All (IsDraftOf self.now.ring.f self.now.ring.me) outs.now }
        ensures sealed { IfOk result (λ v. v.items ≡ sealed_all self.now.ring outs.now) }
        ensures sendable { IfOk result (λ v. All IsSendable v.items) }
    {
        let ring = self.ring;
        let mut packets = Vec::with_capacity(alloc, outs.len())?;
        let mut before = None;
        for out in outs {
            if is_party(ring.cluster(), out.to) {
                self.add(alloc, &mut packets, before, out)?;
                before = Some(out);
            }
        }
        Ok(packets)
    }
}
