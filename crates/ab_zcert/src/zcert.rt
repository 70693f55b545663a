//! A replica of ZCert in one instance.

ghost use Rattle.std.specs.Prelude.{◌≡◌, ◌+◌, ◌*◌, ◌<◌, ◌≤◌, not, ◌&&◌, true, false, if◌then◌else◌, [], ◌∷◌, ◌++◌, Some, None, IfOk, OnErr, IsErrOf, length};
ghost use Rattle.std.specs.Vec.{vec_capacity};
ghost use Rattle.ab_num.specs.declared.party.Party.TheVariants.{Replica, Client};
ghost use Rattle.ab_num.specs.Parties.{party_eq};
ghost use Rattle.ab_hist.specs.Known.{known_place, can_push_after};
ghost use Rattle.ab_wire.specs.Views.{tags as tags_of};
ghost use Rattle.ab_abs.specs.Signers.{SignsNothing};
ghost use Rattle.ab_zlight.specs.Rules.{answer_of, primary_at, is_primary, follows, idle, ordered, asked, orders_at};
ghost use Rattle.ab_zcert.specs.Rules.{HasSigned, serves, keeps, after_job, higher, local_commit as commit_for, sends_for, signed_specs, signs_for, specs_for, takes_zcert};

use crate::keeping::{has_asked, has_front, is_quorum};
use crate::signing::{room_for, sign_and_log, signed_answer, with_answer};
use ab_abs::{Entry, Protocol, StepFault};
use ab_content::ContentRef;
use ab_form::ListRef;
use ab_hist::{History, Request};
use ab_msg::{Content, Msg, NO_TAG, Notary, Out, Outs, Signed, Zcert, copy_zcert};
use ab_num::{Cluster, Kind, OutOfMemory, Party};
use ab_svc::Service;
use ab_trial::Trial;
use ab_wire::{MsgRef, TagRef};
use ab_zlight::ZLight;
use std::alloc::Global;
use std::marker::Model;

/// A replica of ZLight that signs each answer. A client commits on equal answers of all replicas, or
/// it sends a certificate of 2f + 1 equal ones, and commits as 2f + 1 replicas tell that they keep it
/// or one of a higher number. A stopped replica takes no request and no certificate.
pub struct ZCert<S: Service> {
    light: ZLight<S>,
    trial: Trial<S>,
    zcert: Option<Zcert>,
}

// Written out, so that no crate above makes and proves it anew.
impl<S: Service> Drop for ZCert<S> {
    fn drop(self) {
        let ZCert {
            light: _,
            trial: _,
            zcert: _,
        } = self;
    }
}

impl<S: Service> Model for ZCert<S> {
    ghost use Rattle.ab_trial.specs.Trials.{HasServed};
    ghost use Rattle.ab_zcert.specs.Rules.{Keeper};

    ghost Value = { Keeper };

    ghost view = { λ q. record { light = q.light; zcert = q.zcert } };

    ghost invariant = { λ q. HasServed S.machine q.light.at.log q.trial.served q.trial.state };
}

impl<S: Service> ZCert<S> {
    /// Logs a request that may come next, and signs the answer to it. The trial shows the reply before
    /// the request is logged, since the service can't go back.
    #[tactic(auto, using(crate::proofs::RoomLemmas::has_room))]
    fn extend<N: Notary>(
        &mut self,
        alloc: Global,
        m: &Request,
        n: &mut N,
    ) -> Result<Signed, StepFault>
        requires goes_on { self.old.light.at.stopped ≡ false }
        requires next { (known_place self.old.light.at.trimmed self.old.light.at.log m.now ≡ None) × (can_push_after self.old.light.at.trimmed self.old.light.at.log m.now ≡ true) }
        ensures ok { IfOk result (λ s. (self.new ≡ after_job self.old (serves (ordered m.now))) × (Some s ≡ signed_specs (N.pen n.old) self.old.light.at m.now (answer_of S.machine self.old.light.at m.now))) }
        ensures pen { IfOk result (λ _. HasSigned 1 (N.pen n.old) (N.remains n.old) (N.pen n.new) (N.remains n.new)) }
        ensures err { OnErr result (self.new ≡ self.old) }
        ensures spent { IsErrOf result StepFault.Spent → N.remains n.old < 1 }
        ensures unused { IsErrOf result StepFault.Spent → SignsNothing (N.pen n.old) (N.remains n.old) (N.pen n.new) (N.remains n.new) }
    {
        let fresh = Trial::new(alloc)?;
        let vote = self.trial.next_vote(alloc, self.light.log(), m)?;
        let signed = sign_and_log(alloc, &mut self.light, m, vote, n);
        if signed.is_err() {
            self.trial = fresh;
        }
        signed
    }

    /// Signs the answer to a request for which nothing is logged, if it has one.
    fn repeat<N: Notary>(
        &mut self,
        alloc: Global,
        m: &Request,
        n: &mut N,
    ) -> Result<Option<Signed>, StepFault>
        requires { after_job self.old (serves (ordered m.now)) ≡ self.old }
        ensures ok { IfOk result (λ s. s ≡ signed_specs (N.pen n.old) self.old.light.at m.now (answer_of S.machine self.old.light.at m.now)) }
        ensures pen { IfOk result (λ _. HasSigned (length (specs_for self.old.light.at m.now (answer_of S.machine self.old.light.at m.now))) (N.pen n.old) (N.remains n.old) (N.pen n.new) (N.remains n.new)) }
        ensures same { self.new ≡ self.old }
        ensures spent { IsErrOf result StepFault.Spent → N.remains n.old < length (specs_for self.old.light.at m.now (answer_of S.machine self.old.light.at m.now)) }
        ensures unused { IsErrOf result StepFault.Spent → SignsNothing (N.pen n.old) (N.remains n.old) (N.pen n.new) (N.remains n.new) }
    {
        match self.light.answer(alloc, m)? {
            Some(vote) => Ok(Some(signed_answer(alloc, &self.light, m, vote, n)?)),
            None => Ok(None),
        }
    }

    /// Whether a request is logged as it comes.
    fn is_next(&self, m: &Request) -> bool
        ensures next { result ≡ true → (self.now.light.at.stopped ≡ false) × (known_place self.now.light.at.trimmed self.now.light.at.log m.now ≡ None) × (can_push_after self.now.light.at.trimmed self.now.light.at.log m.now ≡ true) }
        ensures other { result ≡ false → after_job self.now (serves (ordered m.now)) ≡ self.now }
    {
        let log = self.light.log();
        let trimmed = self.light.trimmed();
        !self.light.stopped()
            && log.known_place(trimmed, m).is_none()
            && log.can_push_after(trimmed, m)
    }

    /// Logs a request by the answer rule, and signs the answer, if it has one.
    fn answer<N: Notary>(
        &mut self,
        alloc: Global,
        m: &Request,
        n: &mut N,
    ) -> Result<Option<Signed>, StepFault>
        ensures ok { IfOk result (λ s. (self.new ≡ after_job self.old (serves (ordered m.now))) × (s ≡ signed_specs (N.pen n.old) self.old.light.at m.now (answer_of S.machine self.old.light.at m.now))) }
        ensures pen { IfOk result (λ _. HasSigned (length (specs_for self.old.light.at m.now (answer_of S.machine self.old.light.at m.now))) (N.pen n.old) (N.remains n.old) (N.pen n.new) (N.remains n.new)) }
        ensures err { OnErr result (self.new ≡ self.old) }
        ensures spent { IsErrOf result StepFault.Spent → N.remains n.old < length (specs_for self.old.light.at m.now (answer_of S.machine self.old.light.at m.now)) }
        ensures unused { IsErrOf result StepFault.Spent → SignsNothing (N.pen n.old) (N.remains n.old) (N.pen n.new) (N.remains n.new) }
    {
        if self.is_next(m) {
            Ok(Some(self.extend(alloc, m, n)?))
        } else {
            self.repeat(alloc, m, n)
        }
    }

    /// The place of a request for each other replica, and the signed answer to it.
    fn sends<'a>(
        &self,
        mut outs: Vec<Out>,
        m: &Request,
        signed: Signed,
        came: &ListRef<'a, TagRef<'a>>,
    ) -> Outs
        requires empty { outs.items ≡ [] }
        requires room { 3 * self.now.light.f + 1 < vec_capacity outs }
        ensures { result ≡ orders_at self.now.light.f self.now.light.at m.now (tags_of came.now) (known_place self.now.light.at.trimmed self.now.light.at.log m.now) ++ record { to = Client m.now.client; msg = Msg.Spec signed } ∷ [] }
    {
        self.light.tell_others(&mut outs, m, came);
        with_answer(outs, m.client, signed)
    }

    /// Answers a request, and gives it its place.
    #[tactic(auto, using(crate::proofs::SendingLemmas::sends_some, crate::proofs::SendingLemmas::sends_none))]
    fn order<'a, N: Notary>(
        &mut self,
        alloc: Global,
        m: &Request,
        came: &ListRef<'a, TagRef<'a>>,
        n: &mut N,
    ) -> Result<Outs, StepFault>
        ensures ok { IfOk result (λ outs. (self.new ≡ after_job self.old (serves (asked m.now (tags_of came.now)))) × (outs ≡ sends_for S.machine (N.pen n.old) self.old.light.f self.old.light.at (serves (asked m.now (tags_of came.now))))) }
        ensures pen { IfOk result (λ _. HasSigned (length (signs_for S.machine self.old.light.at (serves (asked m.now (tags_of came.now))))) (N.pen n.old) (N.remains n.old) (N.pen n.new) (N.remains n.new)) }
        ensures err { OnErr result (self.new ≡ self.old) }
        ensures spent { IsErrOf result StepFault.Spent → N.remains n.old < length (signs_for S.machine self.old.light.at (serves (asked m.now (tags_of came.now)))) }
        ensures unused { IsErrOf result StepFault.Spent → SignsNothing (N.pen n.old) (N.remains n.old) (N.pen n.new) (N.remains n.new) }
    {
        let outs = room_for(alloc, 3 * usize::from(self.light.f()) + 2)?;
        match self.answer(alloc, m, n)? {
            Some(signed) => Ok(self.sends(outs, m, signed, came)),
            None => Ok(Outs::new(alloc)),
        }
    }

    /// Takes a request of a client: the primary answers it, and gives it its place.
    fn take_request<'a, N: Notary>(
        &mut self,
        alloc: Global,
        m: &Request,
        came: &ListRef<'a, TagRef<'a>>,
        n: &mut N,
    ) -> Result<Outs, StepFault>
        ensures ok { IfOk result (λ outs. let t = if is_primary self.old.light then asked m.now (tags_of came.now) else idle in
            (self.new ≡ after_job self.old (serves t)) × (outs ≡ sends_for S.machine (N.pen n.old) self.old.light.f self.old.light.at (serves t))) }
        ensures pen { IfOk result (λ _. let t = if is_primary self.old.light then asked m.now (tags_of came.now) else idle in
            HasSigned (length (signs_for S.machine self.old.light.at (serves t))) (N.pen n.old) (N.remains n.old) (N.pen n.new) (N.remains n.new)) }
        ensures err { OnErr result (self.new ≡ self.old) }
        ensures spent { IsErrOf result StepFault.Spent → (let t = if is_primary self.old.light then asked m.now (tags_of came.now) else idle in
            N.remains n.old < length (signs_for S.machine self.old.light.at (serves t))) }
        ensures unused { IsErrOf result StepFault.Spent → SignsNothing (N.pen n.old) (N.remains n.old) (N.pen n.new) (N.remains n.new) }
    {
        if self.light.is_primary() {
            self.order(alloc, m, came, n)
        } else {
            Ok(Outs::new(alloc))
        }
    }

    /// Takes a request that has a place.
    fn take_order<N: Notary>(
        &mut self,
        alloc: Global,
        maker: Party,
        place: u16,
        m: &Request,
        n: &mut N,
    ) -> Result<Outs, StepFault>
        ensures ok { IfOk result (λ outs. let t = if (not (is_primary self.old.light) && party_eq maker (Replica (primary_at self.old.light))) && follows self.old.light.at m.now place then ordered m.now else idle in
            (self.new ≡ after_job self.old (serves t)) × (outs ≡ sends_for S.machine (N.pen n.old) self.old.light.f self.old.light.at (serves t))) }
        ensures pen { IfOk result (λ _. let t = if (not (is_primary self.old.light) && party_eq maker (Replica (primary_at self.old.light))) && follows self.old.light.at m.now place then ordered m.now else idle in
            HasSigned (length (signs_for S.machine self.old.light.at (serves t))) (N.pen n.old) (N.remains n.old) (N.pen n.new) (N.remains n.new)) }
        ensures err { OnErr result (self.new ≡ self.old) }
        ensures spent { IsErrOf result StepFault.Spent → (let t = if (not (is_primary self.old.light) && party_eq maker (Replica (primary_at self.old.light))) && follows self.old.light.at m.now place then ordered m.now else idle in
            N.remains n.old < length (signs_for S.machine self.old.light.at (serves t))) }
        ensures unused { IsErrOf result StepFault.Spent → SignsNothing (N.pen n.old) (N.remains n.old) (N.pen n.new) (N.remains n.new) }
    {
        if !self.light.may_follow(maker) || !self.light.follows(m, place) {
            return Ok(Outs::new(alloc));
        }
        let outs = room_for(alloc, 1)?;
        match self.answer(alloc, m, n)? {
            Some(signed) => Ok(with_answer(outs, m.client, signed)),
            None => Ok(Outs::new(alloc)),
        }
    }

    /// Whether it takes a certificate.
    fn takes(&self, z: &Zcert) -> bool
        ensures { result ≡ takes_zcert self.now.light.f self.now.light.at z.now }
    {
        let log = self.light.log();
        !self.light.stopped()
            && is_quorum(self.light.f(), z)
            && has_front(log, z.n, &z.d)
            && has_asked(log, z.n, z.client, z.stamp)
    }

    /// That it keeps a certificate of this number or a higher one.
    fn local_commit(&self, z: &Zcert) -> Out
        ensures { result ≡ commit_for self.now.light.at z.now }
    {
        let d = z.d;
        let content = Content::LocalCommit {
            maker: Party::Replica(self.light.me()),
            instance: self.light.instance(),
            client: z.client,
            stamp: z.stamp,
            n: z.n,
            d,
        };
        let tag = NO_TAG;
        let msg = Msg::LocalCommit { content, tag };
        let to = Party::Client(z.client);
        Out { to, msg }
    }

    /// Keeps a certificate if it keeps none, or one of a lower number.
    fn keep(&mut self, z: Zcert)
        ensures { self.new ≡ record { light = self.old.light; zcert = higher z self.old.zcert } }
    {
        let is_higher = match &self.zcert {
            Some(kept) => kept.n < z.n,
            None => true,
        };
        if is_higher {
            self.zcert = Some(z);
        }
    }

    /// Takes a certificate, and tells its client.
    fn take_cert(&mut self, alloc: Global, z: Zcert) -> Result<Outs, OutOfMemory>
        ensures ok { IfOk result (λ outs. (self.new ≡ after_job self.old (keeps z)) × (outs ≡ (if takes_zcert self.old.light.f self.old.light.at z then commit_for self.old.light.at z ∷ [] else []))) }
        ensures err { OnErr result (self.new ≡ self.old) }
    {
        if !self.takes(&z) {
            return Ok(Outs::new(alloc));
        }
        let outs = Outs::one(alloc, self.local_commit(&z))?;
        self.keep(z);
        Ok(outs)
    }
}

impl<S: Service> Protocol<S> for ZCert<S> {
    ghost use Rattle.ab_abs.specs.Acts.{state_of};
    ghost use Rattle.ab_abs.specs.Kinds.{is_zcert};
    ghost use Rattle.ab_abs.specs.ZcertRules.{IsZcertSound};
    ghost use Rattle.ab_zcert.specs.Rules.{zcert_proto};
    ghost use Rattle.ab_zcert.specs.Laws.{StandsAs};

    ghost proto = { zcert_proto S.machine };

    ghost sound = { IsZcertSound S.machine };

    ghost stands = { λ x q me acts. StandsAs x q me (state_of acts me) };

    ghost serves = { is_zcert };

    ghost counted = { λ q. None };

    fn runs(kind: Kind) -> bool {
        match kind {
            Kind::ZCert => true,
            Kind::Quorum | Kind::ZLight | Kind::Chain | Kind::Backup => false,
        }
    }

    fn start(alloc: Global, c: &Cluster, i: u32, me: u8, e: &Entry) -> Result<Self, OutOfMemory> {
        let light = ZLight::begin(alloc, c, i, me, e)?;
        let trial = Trial::new(alloc)?;
        Ok(ZCert {
            light,
            trial,
            zcert: None,
        })
    }

    fn on<N: Notary>(
        &mut self,
        alloc: Global,
        m: MsgRef<'_>,
        n: &mut N,
    ) -> Result<Outs, StepFault> {
        match m {
            MsgRef::Req {
                content: ContentRef::Req { request, .. },
                tags,
                ..
            } => self.take_request(alloc, &request.own(), &tags, n),
            MsgRef::Order {
                content: ContentRef::Order {
                    maker,
                    n: place,
                    request,
                    ..
                },
                ..
            } => self.take_order(alloc, maker, place, &request.own(), n),
            MsgRef::Cert { zcert, .. } => {
                let zcert = zcert.own(alloc)?;
                Ok(self.take_cert(alloc, zcert)?)
            }
            _ => Ok(Outs::new(alloc)),
        }
    }

    fn timeout<N: Notary>(&mut self, alloc: Global, _n: &mut N) -> Result<Outs, StepFault> {
        Ok(Outs::new(alloc))
    }

    fn stop(&mut self) {
        self.light.stop();
    }

    fn trim(&mut self, n: usize) {
        self.light.trim(n);
    }

    fn trimmed(&self) -> usize {
        self.light.trimmed()
    }

    fn may_panic(&self) -> bool {
        true
    }

    fn copy(&self, alloc: Global) -> Result<Self, OutOfMemory> {
        let light = self.light.copy(alloc)?;
        let trial = Trial::new(alloc)?;
        let zcert = copy_zcert(&self.zcert, alloc)?;
        Ok(ZCert {
            light,
            trial,
            zcert,
        })
    }

    fn log(&self) -> &History {
        self.light.log()
    }

    fn stopped(&self) -> bool {
        self.light.stopped()
    }

    fn first(&self) -> Option<&History> {
        None
    }

    fn zcert(&self) -> Option<&Zcert> {
        self.zcert.as_ref()
    }

    fn timer(&self) -> Option<u64> {
        None
    }

    ghost use Rattle.ab_abs.proofs.ZcertCommits.{zcert_promises};
    ghost use Rattle.ab_zcert.specs.Laws.{nil_law, stays_law, start_law, on_law, stop_law, trim_law, others_law, names_law};
    ghost use Rattle.ab_zcert.specs.Drafts.{form_law};
    ghost use Rattle.ab_zcert.specs.RuleLaws.{rule_law};

    ghost stands_stays = { stays_law };

    ghost stands_trimmed = { λ x acts me n q low high. trim_law S.machine x acts me n q high };

    ghost formed = { form_law S.machine S.short };

    ghost ruled = { rule_law S.machine };

    ghost sound_nil = { λ x served. nil_law S.machine x };

    ghost lawful_start = { λ x acts me e served low may was. let law = start_law S.machine x acts me e low may in (law.0, law.1 was) };

    ghost lawful_on = { λ x acts me pen p m seen served. on_law S.machine x acts me pen p m seen };

    ghost lawful_stop = { λ x acts me p served. stop_law S.machine x acts me p };

    ghost lawful_others = { others_law S.machine };

    ghost sound_abstract = { λ x acts served. zcert_promises S.machine x acts };

    ghost sound_names = { λ x acts served sound a is s has. names_law S.machine x acts sound a is s has };
}
