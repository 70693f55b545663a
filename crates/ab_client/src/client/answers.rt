//! What a client commits by.

ghost use Rattle.std.specs.Prelude.{◌≡◌, ◌<◌, ◌∷◌, ◌&&◌, ◌==◌, [], List, ℕ, None, Some};
ghost use Rattle.std.specs.Option.{option_map};
ghost use Rattle.ab_form.specs.Lists.{FitsInside};
ghost use Rattle.ab_hist.specs.declared.request.Request.{Request as TheRequest};
ghost use Rattle.ab_msg.specs.declared.chain_tags.TagBetween.{TagBetween};
ghost use Rattle.ab_num.specs.declared.party.Party.TheVariants.{Replica};
ghost use Rattle.ab_msg.specs.declared.content.Content.TheVariants.{Resp};
ghost use Rattle.ab_msg.specs.declared.message.Msg.TheVariants as msg;
ghost use Rattle.ab_msg.specs.Contents.{IsResp};
ghost use Rattle.ab_msg.specs.Fields.{IsReply};
ghost use Rattle.ab_content.specs.Views.{content as shown, request as shown_request};
ghost use Rattle.ab_wire.specs.Views.{reply_of};
ghost use Rattle.ab_num.specs.Places.{kind_of};
ghost use Rattle.ab_run.specs.Clients.{counting, counts_chains};
ghost use Rattle.ab_run.specs.Local.{cue_message};
ghost use Rattle.ab_client.specs.Clients.{is_waiting, alone, moves_on};
ghost use Rattle.ab_client.specs.Moved.{IsBallot, IsMoved};

use super::Client;
use ab_abs::{Ballot, Marks, Seen, counts_responses};
use ab_content::{ContentRef, RequestRef};
use ab_hist::{Reply, array_of, copy_reply};
use ab_num::{Kind, Party};
use ab_run::Phase;
use std::alloc::Global;

impl Client {
    /// Whether an answer in this instance to this client and stamp is one to the open request, where
    /// `counts` says whether the kind of the present instance has such answers.
    pub(super) fn awaits(&self, counts: bool, instance: u32, client: u16, stamp: u64) -> bool
        ensures { result ≡ ((is_waiting self.now.cli.phase && counts)
            && ((instance == self.now.cli.at) && ((client == self.now.me) && (stamp == self.now.cli.stamp)))) }
    {
        self.is_waiting()
            && counts
            && instance == self.instance
            && client == self.me
            && stamp == self.stamp
    }

    /// What is observed where the open request commits with this number, digest and reply.
    pub(super) fn committed(&self, alloc: Global, n: u16, d: &[u8; 32], reply: &Reply) -> Marks
        ensures { (m : TheRequest) → self.now.cli.last ≡ Some m
            → result.items ≡ Seen.Committed self.now.cli.at self.now.me m n d.now reply.now ∷ [] }
    {
        let mut marks = Marks::new_in(alloc);
        if let Some(m) = &self.last {
            marks.push(Seen::Committed {
                i: self.instance,
                c: self.me,
                m: m.copy(),
                n,
                d: *d,
                reply: copy_reply(reply),
            });
        }
        marks
    }

    /// What is observed where the newest vote for the open request commits it.
    pub(super) fn elected(&self, alloc: Global) -> Marks
        ensures { (m : TheRequest) (b : Ballot) (bs : List Ballot) → self.now.cli.last ≡ Some m → self.now.cli.votes ≡ b ∷ bs
            → result.items ≡ Seen.Committed self.now.cli.at self.now.me m b.n b.d b.reply ∷ [] }
    {
        match self.votes.newest() {
            Some(vote) => self.committed(alloc, vote.n, &vote.d, &vote.reply),
            None => Marks::new_in(alloc),
        }
    }

    /// Counts the vote of a replica for the open request, and commits where the votes are then enough
    /// for what it says.
    fn count(&mut self, alloc: Global, ballot: Ballot) -> Marks
        requires open { self.old.cli.phase ≡ Phase.Waiting }
        requires formed { IsBallot ballot }
        ensures counted { (m : TheRequest) → self.old.cli.last ≡ Some m
            → IsMoved self.old (counting (alone self.old.cluster) self.old.me self.old.cli m ballot) self.new [] result.items }
        ensures none { self.old.cli.last ≡ None → (self.new ≡ self.old) × (result.items ≡ []) }
    {
        if self.last.is_none() || ballot.by >= self.cluster.replicas() {
            return Marks::new_in(alloc);
        }
        if !self.votes.add(ballot) {
            return Marks::new_in(alloc);
        }
        let marks = self.elected(alloc);
        self.phase = Phase::Idle;
        marks
    }

    /// Takes the answer of a replica to a client's request in an instance.
    fn on_vote(
        &mut self,
        alloc: Global,
        instance: u32,
        client: u16,
        stamp: u64,
        ballot: Ballot,
    ) -> Marks
        requires formed { IsBallot ballot }
        ensures { (tag : List ℕ) →
            IsMoved self.old (moves_on self.old (cue_message (msg.Resp (Resp (Replica ballot.by) instance client stamp ballot.n ballot.d ballot.reply) tag))) self.new [] result.items }
    {
        let counts = counts_responses(self.cluster.kind(self.instance));
        if !self.awaits(counts, instance, client, stamp) {
            return Marks::new_in(alloc);
        }
        self.count(alloc, ballot)
    }

    /// Takes a response.
    pub(super) fn on_response(&mut self, alloc: Global, content: ContentRef<'_>) -> Marks
        requires received { IsResp (shown content) }
        ensures { (tag : List ℕ) → IsMoved self.old (moves_on self.old (cue_message (msg.Resp (shown content.entry) tag))) self.new [] result.items }
    {
        match content {
            ContentRef::Resp {
                maker: Party::Replica(by),
                instance,
                client,
                stamp,
                n,
                d,
                reply,
            } => {
                let reply = array_of(reply);
                let d = *d;
                self.on_vote(alloc, instance, client, stamp, Ballot { by, n, d, reply })
            }
            _ => Marks::new_in(alloc),
        }
    }

    /// Whether clients commit by a CHAIN in the present instance.
    fn counts_chains(&self) -> bool
        ensures { result ≡ counts_chains (kind_of self.now.cluster.plan self.now.cli.at) }
    {
        match self.cluster.kind(self.instance) {
            Kind::Quorum | Kind::ZLight | Kind::Backup | Kind::ZCert => false,
            Kind::Chain => true,
        }
    }

    /// Takes a request that comes along a chain with this number, digest and reply.
    pub(super) fn on_chain(
        &mut self,
        alloc: Global,
        instance: u32,
        request: RequestRef<'_>,
        n: u16,
        d: &[u8; 32],
        reply: Option<&[u8]>,
    ) -> Marks
        requires received { FitsInside IsReply (option_map reply_of reply) }
        ensures { (tags : List TagBetween) →
            IsMoved self.old (moves_on self.old (cue_message (msg.Chain instance (shown_request request.entry) n d.now (option_map reply_of reply.entry) tags))) self.new [] result.items }
    {
        let counts = self.counts_chains();
        if !self.awaits(counts, instance, request.client, request.stamp) {
            return Marks::new_in(alloc);
        }
        let Some(reply) = reply else {
            return Marks::new_in(alloc);
        };
        if self.last.is_none() {
            return Marks::new_in(alloc);
        }
        let marks = self.committed(alloc, n, d, &array_of(reply));
        self.phase = Phase::Idle;
        marks
    }
}
