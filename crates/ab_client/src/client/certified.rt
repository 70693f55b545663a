//! What a client commits by where replicas sign their answers.

ghost use Rattle.std.specs.Prelude.{◌≡◌, ◌==◌, ◌+◌, ◌*◌, ◌∷◌, [], List, ℕ, if◌then◌else◌, None, Some, IfOk, OnErr};
ghost use Rattle.std.specs.List.{list_any};
ghost use Rattle.ab_abs.specs.Kinds.{is_zcert};
ghost use Rattle.ab_hist.specs.declared.request.Request.{Request as TheRequest};
ghost use Rattle.ab_msg.specs.declared.zcert.Zcert.{Zcert as TheZcert};
ghost use Rattle.ab_num.specs.declared.party.Party.TheVariants.{Replica};
ghost use Rattle.ab_num.specs.Places.{kind_of};
ghost use Rattle.ab_msg.specs.declared.content.Content.TheVariants.{Spec};
ghost use Rattle.ab_msg.specs.declared.message.Msg.TheVariants as msg;
ghost use Rattle.ab_msg.specs.Certs.{IsSigned};
ghost use Rattle.ab_msg.specs.Contents.{IsSpec};
ghost use Rattle.ab_msg.specs.Fields.{IsSig};
ghost use Rattle.ab_content.specs.Views.{content as shown};
ghost use Rattle.ab_wire.specs.Views.{signed};
ghost use Rattle.ab_run.specs.Clients.{after_move, cert_due, certifying, counting_spec, move_cert, move_panic, telling_by};
ghost use Rattle.ab_run.specs.Local.{cue_message};
ghost use Rattle.ab_client.specs.Clients.{alone, is_waiting, moves_on, told_by};
ghost use Rattle.ab_client.specs.Moved.{IsBallot, IsMoved};

use super::Client;
use crate::sending::certifying;
use crate::zcerts::{teller, zcert_among};
use ab_abs::{Ballot, Marks, Seen};
use ab_content::ContentRef;
use ab_hist::{Request, array_of};
use ab_msg::{Outs, Sig, Zcert};
use ab_num::{Kind, OutOfMemory, Party};
use ab_run::Phase;
use ab_wire::SignedRef;
use std::alloc::Global;

impl Client {
    /// Whether replicas sign their answers in the present instance.
    fn counts_signed(&self) -> bool
        ensures { result ≡ is_zcert (kind_of self.now.cluster.plan self.now.cli.at) }
    {
        match self.cluster.kind(self.instance) {
            Kind::Quorum | Kind::ZLight | Kind::Chain | Kind::Backup => false,
            Kind::ZCert => true,
        }
    }

    /// Counts the signed vote of a replica for the open request, and commits where the votes of all are then equal.
    fn count_signed(
        &mut self,
        alloc: Global,
        ballot: Ballot,
        sig: &[u8],
    ) -> Result<Marks, OutOfMemory>
        requires open { self.old.cli.phase ≡ Phase.Waiting }
        requires formed { IsBallot ballot × IsSig sig.now }
        ensures counted { (m : TheRequest) → self.old.cli.last ≡ Some m
            → IfOk result (λ marks. IsMoved self.old (counting_spec (alone self.old.cluster) self.old.me self.old.cli m ballot sig.now) self.new [] marks.items) }
        ensures none { self.old.cli.last ≡ None → IfOk result (λ marks. (self.new ≡ self.old) × (marks.items ≡ [])) }
        ensures err { OnErr result (self.new ≡ self.old) }
    {
        if self.last.is_none() || ballot.by >= self.cluster.replicas() {
            return Ok(Marks::new_in(alloc));
        }
        if self.votes.has_voted(ballot.by) {
            return Ok(Marks::new_in(alloc));
        }
        let sig = Vec::from_slice(alloc, sig)?;
        let sig = Sig::of(alloc, sig)?;
        self.signed.push((ballot.by, sig))?;
        if !self.votes.add(ballot) {
            return Ok(Marks::new_in(alloc));
        }
        let marks = self.elected(alloc);
        self.phase = Phase::Idle;
        Ok(marks)
    }

    /// Takes the signed answer of a replica to a client's request in an instance.
    fn on_signed(
        &mut self,
        alloc: Global,
        instance: u32,
        client: u16,
        stamp: u64,
        ballot: Ballot,
        sig: &[u8],
    ) -> Result<Marks, OutOfMemory>
        requires formed { IsBallot ballot × IsSig sig.now }
        ensures ok { (r : ℕ) → IfOk result (λ marks. IsMoved self.old (moves_on self.old (cue_message (msg.Spec (record { maker = r; content = Spec (Replica ballot.by) instance client stamp ballot.n ballot.d ballot.reply; sig = sig.now })))) self.new [] marks.items) }
        ensures err { OnErr result (self.new ≡ self.old) }
    {
        let counts = self.counts_signed();
        if !self.awaits(counts, instance, client, stamp) {
            return Ok(Marks::new_in(alloc));
        }
        self.count_signed(alloc, ballot, sig)
    }

    /// Takes a signed response.
    pub(super) fn on_spec(
        &mut self,
        alloc: Global,
        spec: SignedRef<'_>,
    ) -> Result<Marks, OutOfMemory>
        requires received { IsSigned IsSpec (signed spec) }
        ensures ok { IfOk result (λ marks. IsMoved self.old (moves_on self.old (cue_message (msg.Spec (signed spec.entry)))) self.new [] marks.items) }
        ensures err { OnErr result (self.new ≡ self.old) }
    {
        match spec.content {
            ContentRef::Spec {
                maker: Party::Replica(by),
                instance,
                client,
                stamp,
                n,
                d,
                reply,
            } => {
                let reply = array_of(reply);
                let d = *d;
                let ballot = Ballot { by, n, d, reply };
                self.on_signed(alloc, instance, client, stamp, ballot, spec.sig)
            }
            _ => Ok(Marks::new_in(alloc)),
        }
    }

    /// What is observed where the certificate that it sent commits the open request.
    fn certified(&self, alloc: Global) -> Marks
        ensures { (m : TheRequest) (z : TheZcert) → self.now.cli.last ≡ Some m → self.now.cli.sent ≡ Some z
            → result.items ≡ Seen.Committed self.now.cli.at self.now.me m z.n z.d z.reply ∷ [] }
    {
        match &self.sent {
            Some(zcert) => self.committed(alloc, zcert.n, &zcert.d, &zcert.reply),
            None => Marks::new_in(alloc),
        }
    }

    /// Whether replica `r` has told that it keeps the certificate which was sent.
    fn has_told(&self, r: u8) -> bool
        ensures { result ≡ list_any (λ q. q == r) self.now.cli.told }
    {
        self.told.iter().any(|q| *q == r)
    }

    /// Counts a replica that keeps the certificate which was sent, and commits by it with the last of 2f + 1.
    fn tell(&mut self, alloc: Global, r: u8) -> Result<Marks, OutOfMemory>
        ensures ok { (m : TheRequest) (z : TheZcert) → self.old.cli.last ≡ Some m → self.old.cli.sent ≡ Some z
            → IfOk result (λ marks. IsMoved self.old (telling_by (alone self.old.cluster) self.old.me self.old.cli m z (Some r)) self.new [] marks.items) }
        ensures err { OnErr result (self.new ≡ self.old) }
    {
        if self.has_told(r) {
            return Ok(Marks::new_in(alloc));
        }
        self.told.insert(0, r)?;
        if self.told.len() != usize::from(2 * self.cluster.f + 1) {
            return Ok(Marks::new_in(alloc));
        }
        let marks = self.certified(alloc);
        self.phase = Phase::Idle;
        Ok(marks)
    }

    /// The replica that tells by this content that it keeps the certificate which was sent.
    fn told_by(&self, content: &ContentRef<'_>) -> Option<u8>
        ensures { result ≡ told_by self.now.cluster.f self.now.cli.at self.now.me self.now.cli.sent (shown content.now) }
    {
        match &self.sent {
            Some(zcert) => teller(self.cluster.f, self.instance, self.me, zcert, content),
            None => None,
        }
    }

    /// Takes what a replica says of the certificate that it keeps.
    pub(super) fn on_local_commit(
        &mut self,
        alloc: Global,
        content: ContentRef<'_>,
    ) -> Result<Marks, OutOfMemory>
        ensures ok { (tag : List ℕ) → IfOk result (λ marks. IsMoved self.old (moves_on self.old (cue_message (msg.LocalCommit (shown content.entry) tag))) self.new [] marks.items) }
        ensures err { OnErr result (self.new ≡ self.old) }
    {
        if !self.is_waiting() || self.last.is_none() {
            return Ok(Marks::new_in(alloc));
        }
        match self.told_by(&content) {
            Some(r) => self.tell(alloc, r),
            None => Ok(Marks::new_in(alloc)),
        }
    }

    /// The certificate of answers that it can make, where it has sent none for the open request.
    fn cert_due(&self, alloc: Global, request: &Request) -> Result<Option<Zcert>, OutOfMemory>
        ensures { IfOk result (λ o. o ≡ cert_due (alone self.now.cluster) self.now.cli request.now) }
    {
        match &self.sent {
            Some(_) => Ok(None),
            None => zcert_among(alloc, self.cluster.f, request, &self.votes, &self.signed),
        }
    }

    /// It has sent this certificate.
    fn note_sent(&mut self, zcert: Zcert)
        ensures { self.new ≡ record self.old { cli = after_move self.old.cli (move_cert zcert) } }
    {
        self.sent = Some(zcert);
        self.told.clear();
    }

    /// Sends the certificate of answers that it can make to all replicas, or asks them to stop where it can make none or doesn't wait.
    pub(super) fn certify(
        &mut self,
        alloc: Global,
        request: &Request,
    ) -> Result<(Outs, Marks), OutOfMemory>
        requires request { self.old.cli.last ≡ Some request.now }
        ensures ok { IfOk result (λ r. IsMoved self.old (if is_waiting self.old.cli.phase then certifying (cert_due (alone self.old.cluster) self.old.cli request.now) else move_panic ∷ []) self.new r.0 r.1.items) }
        ensures err { OnErr result (self.new ≡ self.old) }
    {
        if !self.is_waiting() {
            return self.panic(alloc);
        }
        match self.cert_due(alloc, request)? {
            Some(zcert) => {
                let outs = certifying(alloc, &self.cluster, self.instance, &zcert)?;
                self.note_sent(zcert);
                Ok((outs, Marks::new_in(alloc)))
            }
            None => self.panic(alloc),
        }
    }
}
