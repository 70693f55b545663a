//! A replica of Chain in one instance.

ghost use Rattle.std.specs.Prelude.{◌≡◌, ◌+◌, ◌*◌, ◌<◌, ◌≤◌, ◌==◌, ◌&&◌, true, [], ◌∷◌, ◌++◌, Some, None, IfOk, OnErr, if◌then◌else◌, length, take, map, option_map, vec_len};
ghost use Rattle.std.specs.Vec.{vec_capacity};
ghost use Rattle.std.specs.Str.{bytes_eq};
ghost use Rattle.ab_hist.specs.Known.{known_place, can_push_after};
ghost use Rattle.ab_hist.specs.Digests.{digest_of};
ghost use Rattle.ab_form.specs.Lists.{FitsInside};
ghost use Rattle.ab_msg.specs.Fields.{IsReply};
ghost use Rattle.ab_wire.specs.Views.{chain_tags, reply_of, tags as tags_of};
ghost use Rattle.ab_abs.specs.Answers.{answer_from, logged_from};
ghost use Rattle.ab_chain.specs.Tags.{by_client};
ghost use Rattle.ab_chain.specs.Rules.{position_at, answer_of, agreed, goes, idle, is_answered, kept_of, logging, next_of, passing, replied_so, reply_from as passed_reply, same_reply as test_reply, sent_by};

use crate::route::Route;
use ab_abs::{Book, Entry, Protocol, StepFault, Vote};
use ab_content::ContentRef;
use ab_form::ListRef;
use ab_hist::{History, Request, array_of, copy_reply};
use ab_msg::{ChainTags, Msg, Notary, Out, Outs, Reply, Zcert};
use ab_num::{Cluster, Kind, OutOfMemory, Party};
use ab_svc::Service;
use ab_trial::{Trial, digest_with};
use ab_wire::{BetweenRef, MsgRef, TagRef};
use std::alloc::Global;
use std::marker::Model;

/// The first position logs, executes and answers each request, and passes it on with the number and
/// the digest of its log. Each later position logs a request only where it comes to the same number
/// and digest, and those above 2f + 1 to the same reply. The last one passes it to the client, who
/// commits with the tags of the last f + 1 positions (TOCS 2015, Chain). A stopped replica takes no
/// request.
pub struct Chain<S: Service> {
    cluster: Cluster,
    instance: u32,
    me: u8,
    base: usize,
    book: Book<S>,
    trimmed: usize,
    trial: Trial<S>,
    stopped: bool,
}

// Written out, so that no crate above makes and proves it anew.
impl<S: Service> Drop for Chain<S> {
    fn drop(self) {
        let Chain {
            cluster: _,
            instance: _,
            me: _,
            base: _,
            book: _,
            trimmed: _,
            trial: _,
            stopped: _,
        } = self;
    }
}

impl<S: Service> Model for Chain<S> {
    ghost use Rattle.std.specs.Prelude.{◌+◌, ◌*◌, ◌<◌, ◌≤◌, length, take};
    ghost use Rattle.ab_chain.specs.Rules.{ChainState};
    ghost use Rattle.ab_trial.specs.Trials.{HasServed};

    ghost Value = { ChainState };

    ghost view = { λ q. record { f = q.cluster.f; at = record { instance = q.instance; me = q.me; base = take q.base q.book; trimmed = q.trimmed; log = q.book; stopped = q.stopped } } };

    ghost invariant = { λ q. (q.base ≤ length q.book) × (q.trimmed ≤ length q.book) × (1 ≤ q.instance) × (q.me < 3 * q.cluster.f + 1) × HasServed S.machine q.book q.trial.served q.trial.state };
}

/// Whether the log's first `k` entries have the number `n` and the digest `d`.
fn has_digest(log: &History, k: usize, n: u16, d: &[u8; 32]) -> bool
    requires { k ≤ length log.now }
    ensures { result ≡ (k == n) && bytes_eq (digest_of (take k log.now)) d.now }
{
    k == usize::from(n) && log.digest_at(k) == *d
}

/// Whether a log with one more request has the number `n` and the digest `d`.
fn has_next(log: &History, m: &Request, n: u16, d: &[u8; 32]) -> bool
    ensures { result ≡ (length log.now + 1 == n) && bytes_eq (digest_of (log.now ++ m.now ∷ [])) d.now }
{
    log.len() + 1 == usize::from(n) && digest_with(log, m) == *d
}

/// Whether a reply came, and is this one.
fn is_reply(came: &Option<Reply>, own: &Reply) -> bool
    ensures { result ≡ test_reply came.now own.now }
{
    match came {
        Some(reply) => reply.as_slice() == own.as_slice(),
        None => false,
    }
}

/// A reply that came, with bytes of its own.
fn own_reply(came: Option<&[u8]>) -> Option<Reply>
    requires { FitsInside IsReply (option_map reply_of came) }
    ensures { result ≡ option_map reply_of came.entry }
{
    match came {
        Some(reply) => Some(array_of(reply)),
        None => None,
    }
}

impl<S: Service> Chain<S> {
    fn position(&self) -> u8
        ensures counted { result ≡ position_at self.now }
        ensures within { (1 ≤ result) × (result ≤ 3 * self.now.f + 1) }
    {
        self.cluster.position_of(self.instance, self.me)
    }

    /// Whether the answer to a request has the number `n` and the digest `d`.
    fn is_answer(&self, m: &Request, n: u16, d: &[u8; 32]) -> bool
        ensures { result ≡ is_answered n d.now (answer_from S.machine self.now.at.trimmed (length self.now.at.base) self.now.at.log m.now) }
    {
        let log = self.book.log();
        match log.known_place(self.trimmed, m) {
            Some(x) => has_digest(log, x.max(self.base.max(self.trimmed)), n, d),
            None => log.can_push_after(self.trimmed, m) && has_next(log, m, n, d),
        }
    }

    /// Logs and answers a request by the answer rule.
    fn answer(&mut self, alloc: Global, m: &Request) -> Result<Option<Vote>, OutOfMemory>
        ensures ok { IfOk result (λ vote. (vote ≡ answer_from S.machine self.old.at.trimmed (length self.old.at.base) self.old.at.log m.now) × (self.new ≡ logging self.old m.now vote)) }
        ensures err { OnErr result (self.new ≡ self.old) }
    {
        self.book.answer(alloc, self.trimmed, self.base, m)
    }

    /// The answer to a request that isn't logged for it, if it has this reply.
    fn repeat(
        &mut self,
        alloc: Global,
        m: &Request,
        came: &Option<Reply>,
    ) -> Result<Option<Vote>, OutOfMemory>
        requires { logged_from self.old.at.trimmed self.old.at.log m.now ≡ self.old.at.log }
        ensures ok { IfOk result (λ vote. vote ≡ replied_so came.now (answer_from S.machine self.old.at.trimmed (length self.old.at.base) self.old.at.log m.now)) }
        ensures same { self.new ≡ self.old }
    {
        match self.answer(alloc, m)? {
            Some(vote) => {
                if is_reply(came, &vote.reply) {
                    Ok(Some(vote))
                } else {
                    Ok(None)
                }
            }
            None => Ok(None),
        }
    }

    /// Logs and answers a request that may come next, if its reply is this one. The trial shows the
    /// reply before the request is logged, since the service can't go back.
    fn extend(
        &mut self,
        alloc: Global,
        m: &Request,
        came: &Option<Reply>,
    ) -> Result<Option<Vote>, OutOfMemory>
        requires { (known_place self.old.at.trimmed self.old.at.log m.now ≡ None) × (can_push_after self.old.at.trimmed self.old.at.log m.now ≡ true) }
        ensures ok { IfOk result (λ vote. (vote ≡ replied_so came.now (answer_from S.machine self.old.at.trimmed (length self.old.at.base) self.old.at.log m.now)) × (self.new ≡ logging self.old m.now vote)) }
        ensures err { OnErr result (self.new ≡ self.old) }
    {
        let fresh = Trial::new(alloc)?;
        let reply = self.trial.reply_to(alloc, self.book.log(), m)?;
        if !is_reply(came, &reply) {
            self.trial = fresh;
            return Ok(None);
        }
        let vote = self.book.answer(alloc, self.trimmed, self.base, m);
        if vote.is_err() {
            self.trial = fresh;
        }
        vote
    }

    /// Logs and answers a request, if the answer has this reply.
    fn answer_so(
        &mut self,
        alloc: Global,
        m: &Request,
        came: &Option<Reply>,
    ) -> Result<Option<Vote>, OutOfMemory>
        ensures ok { IfOk result (λ vote. (vote ≡ replied_so came.now (answer_from S.machine self.old.at.trimmed (length self.old.at.base) self.old.at.log m.now)) × (self.new ≡ logging self.old m.now vote)) }
        ensures err { OnErr result (self.new ≡ self.old) }
    {
        let log = self.book.log();
        if log.known_place(self.trimmed, m).is_none() && log.can_push_after(self.trimmed, m) {
            self.extend(alloc, m, came)
        } else {
            self.repeat(alloc, m, came)
        }
    }

    /// The same, where the answer has this number and digest, and above 2f + 1 this reply.
    fn answer_as(
        &mut self,
        alloc: Global,
        m: &Request,
        n: u16,
        d: &[u8; 32],
        came: &Option<Reply>,
    ) -> Result<Option<Vote>, OutOfMemory>
        ensures ok { IfOk result (λ vote. (vote ≡ agreed self.old.f (position_at self.old) n d.now came.now (answer_from S.machine self.old.at.trimmed (length self.old.at.base) self.old.at.log m.now)) × (self.new ≡ logging self.old m.now vote)) }
        ensures err { OnErr result (self.new ≡ self.old) }
    {
        if !self.is_answer(m, n, d) {
            return Ok(None);
        }
        if self.position() <= 2 * self.cluster.f + 1 {
            self.answer(alloc, m)
        } else {
            self.answer_so(alloc, m, came)
        }
    }

    /// Which reply is passed on.
    fn reply_from(&self, came: Option<Reply>, own: &Reply) -> Option<Reply>
        ensures { result ≡ passed_reply self.now.f (position_at self.now) came own.now }
    {
        if self.position() <= 2 * self.cluster.f {
            came
        } else {
            Some(copy_reply(own))
        }
    }

    /// To whom a request of a client is passed on.
    fn next(&self, client: u16) -> Party
        ensures { result ≡ next_of self.now.f self.now.at.instance (position_at self.now) client }
    {
        let p = self.position();
        if p == self.cluster.replicas() {
            Party::Client(client)
        } else {
            Party::Replica(self.cluster.at_position(self.instance, p + 1))
        }
    }

    /// Passes a request on, where it has an answer.
    fn pass(
        &self,
        mut outs: Vec<Out>,
        m: &Request,
        came: Option<Reply>,
        tags: ChainTags,
        vote: Option<Vote>,
    ) -> Outs
        requires empty { outs.items ≡ [] }
        requires room { vec_len outs < vec_capacity outs }
        ensures { result ≡ sent_by self.now (passing self.now.f (position_at self.now) m.now came tags vote) }
    {
        let Some(vote) = vote else {
            return Outs::of(outs);
        };
        let reply = self.reply_from(came, &vote.reply);
        let msg = Msg::Chain {
            instance: self.instance,
            request: m.copy(),
            n: vote.n,
            d: vote.d,
            reply,
            tags,
        };
        let to = self.next(m.client);
        match outs.push(Out { to, msg }) {
            Ok(()) => Outs::of(outs),
            Err(_) => unreachable!(),
        }
    }

    fn route(&self, client: u16) -> Route
        ensures size { result.cluster.f ≡ self.now.f }
        ensures place { (result.instance ≡ self.now.at.instance) × (result.position ≡ position_at self.now) }
        ensures client { result.client ≡ client }
    {
        Route {
            cluster: self.cluster,
            instance: self.instance,
            client,
            position: self.position(),
        }
    }

    /// Takes a request from its client.
    fn take_request<'a>(
        &mut self,
        alloc: Global,
        m: &Request,
        tags: ListRef<'a, TagRef<'a>>,
    ) -> Result<Outs, OutOfMemory>
        ensures ok { IfOk result (λ outs. let t = if position_at self.old == 1 then passing self.old.f (position_at self.old) m.now None (kept_of self.old m.now (map (by_client m.now.client) (tags_of tags.entry))) (answer_of S.machine self.old.at m.now) else idle in
            (self.new ≡ goes self.old t) × (outs ≡ sent_by self.old t)) }
        ensures err { OnErr result (self.new ≡ self.old) }
    {
        if self.stopped || self.position() != 1 {
            return Ok(Outs::new(alloc));
        }
        let kept = self.route(m.client).of_client(alloc, tags)?;
        let outs = Vec::with_capacity(alloc, 1)?;
        let vote = self.answer(alloc, m)?;
        Ok(self.pass(outs, m, None, kept, vote))
    }

    /// Takes a request from the position before.
    fn take_link<'a>(
        &mut self,
        alloc: Global,
        m: &Request,
        n: u16,
        d: &[u8; 32],
        came: Option<Reply>,
        tags: ListRef<'a, BetweenRef<'a>>,
    ) -> Result<Outs, OutOfMemory>
        ensures ok { IfOk result (λ outs. let t = if position_at self.old == 1 then idle else passing self.old.f (position_at self.old) m.now came (kept_of self.old m.now (chain_tags tags.entry)) (agreed self.old.f (position_at self.old) n d.now came (answer_of S.machine self.old.at m.now)) in
            (self.new ≡ goes self.old t) × (outs ≡ sent_by self.old t)) }
        ensures err { OnErr result (self.new ≡ self.old) }
    {
        if self.stopped || self.position() == 1 {
            return Ok(Outs::new(alloc));
        }
        let kept = self.route(m.client).passed_on(alloc, tags)?;
        let outs = Vec::with_capacity(alloc, 1)?;
        let vote = self.answer_as(alloc, m, n, d, &came)?;
        Ok(self.pass(outs, m, came, kept, vote))
    }
}

impl<S: Service> Protocol<S> for Chain<S> {
    ghost use Rattle.ab_abs.specs.Acts.{state_of};
    ghost use Rattle.ab_abs.specs.Members.{IsAt};
    ghost use Rattle.ab_abs.specs.TailRules.{IsTailSound};
    ghost use Rattle.ab_chain.specs.Rules.{is_chain, chain};

    ghost proto = { chain S.machine };

    ghost sound = { IsTailSound S.machine };

    ghost stands = { λ x q me acts. IsAt x q.at me (state_of acts me) × (q.f ≡ x.cluster.f) };

    ghost serves = { is_chain };

    ghost counted = { λ q. None };

    fn runs(kind: Kind) -> bool {
        match kind {
            Kind::Chain => true,
            Kind::Quorum | Kind::ZLight | Kind::Backup | Kind::ZCert => false,
        }
    }

    fn start(alloc: Global, c: &Cluster, i: u32, me: u8, e: &Entry) -> Result<Self, OutOfMemory> {
        let book = Book::new(alloc, &e.base)?;
        let trial = Trial::new(alloc)?;
        Ok(Chain {
            cluster: *c,
            instance: i,
            me,
            base: e.base.len(),
            book,
            trimmed: e.trimmed,
            trial,
            stopped: false,
        })
    }

    fn on<N: Notary>(
        &mut self,
        alloc: Global,
        m: MsgRef<'_>,
        _n: &mut N,
    ) -> Result<Outs, StepFault> {
        match m {
            MsgRef::Req {
                content: ContentRef::Req { request, .. },
                tags,
                ..
            } => Ok(self.take_request(alloc, &request.own(), tags)?),
            MsgRef::Chain {
                request,
                n,
                d,
                reply,
                tags,
                ..
            } => Ok(self.take_link(alloc, &request.own(), n, d, own_reply(reply), tags)?),
            _ => Ok(Outs::new(alloc)),
        }
    }

    fn timeout<N: Notary>(&mut self, alloc: Global, _n: &mut N) -> Result<Outs, StepFault> {
        Ok(Outs::new(alloc))
    }

    fn stop(&mut self) {
        self.stopped = true;
    }

    fn trim(&mut self, n: usize) {
        self.trimmed = n;
    }

    fn trimmed(&self) -> usize {
        self.trimmed
    }

    fn may_panic(&self) -> bool {
        true
    }

    fn copy(&self, alloc: Global) -> Result<Self, OutOfMemory> {
        let book = self.book.copy(alloc)?;
        let trial = Trial::new(alloc)?;
        Ok(Chain {
            cluster: self.cluster,
            instance: self.instance,
            me: self.me,
            base: self.base,
            book,
            trimmed: self.trimmed,
            trial,
            stopped: self.stopped,
        })
    }

    fn log(&self) -> &History {
        self.book.log()
    }

    fn stopped(&self) -> bool {
        self.stopped
    }

    fn first(&self) -> Option<&History> {
        None
    }

    fn zcert(&self) -> Option<&Zcert> {
        None
    }

    fn timer(&self) -> Option<u64> {
        None
    }

    ghost use Rattle.ab_abs.specs.Lawful.{BeginsThere};
    ghost use Rattle.ab_abs.specs.TailRules.{TailCalls};
    ghost use Rattle.ab_abs.specs.declared.rule.ReplyRule.TheVariants.{Tail as ByTail};
    ghost use Rattle.ab_abs.proofs.Following.{IsLater, named_here};
    ghost use Rattle.ab_abs.proofs.Tails.{tail_keeping};
    ghost use Rattle.ab_abs.proofs.TailCommits.{tail_promises};
    ghost use Rattle.ab_abs.proofs.TailSteps.{tail_nil};
    ghost use Rattle.ab_abs.proofs.Steps.{stays_at};
    ghost use Rattle.ab_chain.specs.Laws.{form_law, start_law, on_law, stop_law, trim_law, others_law};
    ghost use Rattle.ab_chain.specs.RuleLaws.{rule_law};

    ghost stands_stays = { λ x acts a me q still was. (stays_at x acts a me q.at still was.0, was.1) };

    ghost stands_trimmed = { λ x acts me n q low high. trim_law S.machine x acts me n q high };

    ghost formed = { form_law S.machine S.short };

    ghost ruled = { rule_law S.machine };

    ghost sound_nil = { λ x served. tail_nil S.machine x };

    ghost lawful_start = { λ x acts me e served low may was. let law = start_law S.machine x acts me e low may in ((law.0, λ i. x.cluster.f), law.1 was) };

    ghost lawful_on = { λ x acts me pen p m seen served may was. let law = on_law S.machine x acts me pen p m seen may was in ((law.0, was.1), law.1) };

    ghost lawful_stop = { λ x acts me p served was. let law = stop_law S.machine x acts me p was in ((law.0, was.1), law.1) };

    ghost lawful_others = { others_law S.machine };

    ghost sound_abstract = { λ x acts served. tail_promises S.machine x acts };

    ghost sound_names = { λ x acts served sound a is s has. named_here ByTail x BeginsThere (TailCalls S.machine x) IsLater (tail_keeping S.machine x) acts sound.lawful a is s has };
}
