//! A replica over all instances.

ghost use Rattle.std.specs.Prelude.{◌≡◌, ℕ, ◌+◌, ◌*◌, ◌<◌, ◌≤◌, List, [], ◌∷◌, ◌++◌, false, true, if◌then◌else◌, length, IfOk, IfSome, OnErr, IsErrOf, take, drop};
ghost use Rattle.std.specs.Option.{option_map};
ghost use Rattle.std.specs.Vec.{vec_capacity};
ghost use Rattle.ab_num.specs.declared.party.Party.TheVariants.{Replica as Member};
ghost use Rattle.ab_num.specs.Places.{kind_of};
ghost use Rattle.ab_hist.specs.Digests.{digest_of};
ghost use Rattle.ab_ckpt.specs.Marks.{no_marks};
ghost use Rattle.ab_hist.specs.declared.request.Request.{Request};
ghost use Rattle.ab_msg.specs.declared.content.Content.TheVariants.{TrimmedAbort};
ghost use Rattle.ab_msg.specs.declared.signed.Signed.{Signed as SignedContent};
ghost use Rattle.ab_msg.specs.Pens.{Pen, moved};
ghost use Rattle.ab_wire.specs.Views.{IsReceived, message};
ghost use Rattle.ab_abs.specs.Promises.{ServesAll};
ghost use Rattle.ab_abs.specs.Acts.{abort_content};
ghost use Rattle.ab_abs.specs.Kinds.{rule_of};
ghost use Rattle.ab_abs.specs.Ensembles.{trimmed_entry};
ghost use Rattle.ab_abs.specs.Messages.{took, timed, offered};
ghost use Rattle.ab_abs.specs.Signers.{SignsNothing};
ghost use Rattle.ab_stable.specs.Offers.{offered_start};
ghost use Rattle.ab_run.specs.Setups.{RunSetup};
ghost use Rattle.ab_run.specs.Runs.{first_rep};
ghost use Rattle.ab_run.specs.Replicas.{aborting, due, halting, here, keeping_with, late, logged_or, taken, turn_call};
ghost use Rattle.ab_replica.specs.Sites.{IsPenAfter, IsPenOf, IsSetupOf, Site, first_site, setup_of, stated_by, timer_number};
ghost use Rattle.ab_replica.specs.Crossings.{may_begin};
ghost use Rattle.ab_replica.specs.Doings.{Arrives, Does, Hears, entering};
ghost use Rattle.ab_replica.specs.Endings.{due_at, ended, ended_with, every_at, stable_at, told, told_with, trimmed_by, with_mark, with_own_mark};

use crate::accepted::marks_between;
use crate::answers::{abort_to, cert_to};
use crate::checkpoint::{room_for, tell_others};
use crate::crossing::{Crossing, crossing_in};
use crate::done::Done;
use crate::effects::Effects;
use crate::purpose::{Purpose, purpose_of};
use crate::rest::rest_of;
use ab_abs::{Entry, Protocol, StepFault};
use ab_ckpt::Marks;
use ab_hist::History;
use ab_msg::{Content, Notary, Out, SignFault, Signed, Zcert};
use ab_num::{Cluster, Kind, OutOfMemory, Party};
use ab_stable::makes_checkpoints;
use ab_svc::Service;
use ab_wire::MsgRef;
use std::alloc::Global;
use std::marker::{Model, PhantomData};
use std::mem::{drop, replace};

/// A replica in its present instance, with the certificate by which it entered, its ABORT there once
/// it is signed, and the CHECKPOINTs of the instance that it keeps.
pub struct Replica<S: Service, P: Protocol<S>> {
    cluster: Cluster,
    me: u8,
    signatures: u64,
    instance: u32,
    value: P,
    entry: Entry,
    abort: Option<Signed>,
    used: u64,
    kept: Marks,
    entries: u32,
    of: PhantomData<S>,
}

// Written out, so that no crate above makes and proves it anew.
impl<S: Service, P: Protocol<S>> Drop for Replica<S, P> {
    fn drop(self) {
        let Replica {
            cluster: _,
            me: _,
            signatures: _,
            instance: _,
            value: _,
            entry: _,
            abort: _,
            used: _,
            kept: _,
            entries: _,
            of: _,
        } = self;
    }
}

impl<S: Service, P: Protocol<S>> Model for Replica<S, P> {
    ghost use Rattle.std.specs.Prelude.{◌+◌, ◌*◌, ◌<◌, ◌≤◌};
    ghost use Rattle.ab_abs.specs.Promises.{ServesAll};
    ghost use Rattle.ab_replica.specs.Sites.{IsWithin, Site};

    ghost Value = { Site P };

    ghost view = { λ q. record {
      cluster = q.cluster;
      me = q.me;
      signatures = q.signatures;
      rep = record { at = q.instance; value = q.value; entry = q.entry; abort = q.abort; used = q.used; kept = q.kept };
      entries = q.entries;
    } };

    ghost invariant = { λ q. (q.entries < q.instance) × (q.me < 3 * q.cluster.f + 1) × ServesAll P.serves q.cluster × IsWithin P.proto q.value };
}

impl<S: Service, P: Protocol<S>> Replica<S, P> {
    /// Replica `me` before the first event. P serves each kind of the plan.
    pub fn new(
        alloc: Global,
        cluster: &Cluster,
        me: u8,
        signatures: u64,
    ) -> Result<Self, OutOfMemory>
        requires served { ServesAll P.serves cluster.now }
        requires replica { me < 3 * cluster.now.f + 1 }
        ensures site { IfOk result (λ q. q ≡ first_site P.proto cluster.now me signatures) }
        ensures first { (k : RunSetup) → k.cluster ≡ cluster.now → IfOk result (λ q. q.rep ≡ first_rep k P.proto me) }
    {
        let entry = Entry {
            base: History::new(alloc),
            trimmed: 0,
            cert: None,
        };
        let value = P::start(alloc, cluster, 1, me, &entry)?;
        Ok(Replica {
            cluster: *cluster,
            me,
            signatures,
            instance: 1,
            value,
            entry,
            abort: None,
            used: 0,
            kept: Marks::new(),
            entries: 0,
            of: PhantomData,
        })
    }

    /// The present instance.
    pub fn instance(&self) -> u32
        ensures { result ≡ self.now.rep.at }
    {
        self.instance
    }

    /// The present log.
    pub fn log(&self) -> &History
        ensures { result.now ≡ (P.proto.state self.now.rep.value).log }
    {
        self.value.log()
    }

    /// How many of the first entries of the present log are trimmed.
    pub fn trimmed(&self) -> u16
        ensures trimmed { result ≡ P.proto.trimmed self.now.rep.value }
        ensures within { result ≤ length (P.proto.state self.now.rep.value).log }
    {
        let trimmed = self.value.trimmed();
        let within = trimmed <= self.value.log().len();
        prove!(within);
        trimmed as u16
    }

    /// Whether the present instance has stopped here.
    pub fn stopped(&self) -> bool
        ensures { result ≡ (P.proto.state self.now.rep.value).stopped }
    {
        self.value.stopped()
    }

    /// The history that it accepted in slot 0 in its present view, where its kind has slots.
    pub fn first(&self) -> Option<&History>
        ensures { option_map (λ h. h.now) result ≡ (P.proto.state self.now.rep.value).first }
    {
        self.value.first()
    }

    /// How the present instance was entered.
    pub fn entry(&self) -> &Entry
        ensures { result.now ≡ self.now.rep.entry }
    {
        &self.entry
    }

    /// How many signatures it has made.
    pub fn used(&self) -> u64
        ensures { result ≡ self.now.rep.used }
    {
        self.used
    }

    /// None where no timer runs; else it runs anew whenever the number changes. It is that of the
    /// protocol and the number of entries, added as 64 bits are.
    pub fn timer(&self) -> Option<u64>
        ensures { result ≡ option_map (timer_number self.now.entries) (P.counted self.now.rep.value) }
    {
        match self.value.timer() {
            Some(n) => Some(n.wrapping_add(u64::from(self.entries))),
            None => None,
        }
    }

    /// Takes a message that was read from bytes. After an `Err` it is as before; `n` may then have made
    /// signatures that nobody has seen. A spent event leaves `n` as it was.
    pub fn on<'a, N: Notary>(
        &mut self,
        alloc: Global,
        m: MsgRef<'a>,
        n: &mut N,
    ) -> Result<Effects, OutOfMemory>
        requires received { IsReceived m }
        requires pen { IsPenOf (N.pen n.old) (N.remains n.old) self.old }
        ensures hears { (k : RunSetup) → IsSetupOf k self.old (N.pen n.old) → IfOk result (λ e. Hears P.proto k self.old (took (message m.entry)) self.new e.outs e.marks.items e.spent) }
        ensures pen { IfOk result (λ e. e.spent ≡ false → IsPenAfter (N.pen n.old) (N.pen n.new) (N.remains n.new) self.new) }
        ensures unused { IfOk result (λ e. e.spent ≡ true → SignsNothing (N.pen n.old) (N.remains n.old) (N.pen n.new) (N.remains n.new)) }
        ensures err { OnErr result (self.new ≡ self.old) }
    {
        let room = room_for(alloc, &self.cluster)?;
        let done = self.hear(alloc, m, n)?;
        Ok(self.end(done, room))
    }

    /// Its timer has run out. As `on` with that call.
    pub fn timeout<N: Notary>(&mut self, alloc: Global, n: &mut N) -> Result<Effects, OutOfMemory>
        requires { IsPenOf (N.pen n.old) (N.remains n.old) self.old }
        ensures hears { (k : RunSetup) → IsSetupOf k self.old (N.pen n.old) → IfOk result (λ e. Hears P.proto k self.old timed self.new e.outs e.marks.items e.spent) }
        ensures pen { IfOk result (λ e. e.spent ≡ false → IsPenAfter (N.pen n.old) (N.pen n.new) (N.remains n.new) self.new) }
        ensures unused { IfOk result (λ e. e.spent ≡ true → SignsNothing (N.pen n.old) (N.remains n.old) (N.pen n.new) (N.remains n.new)) }
        ensures err { OnErr result (self.new ≡ self.old) }
    {
        let room = room_for(alloc, &self.cluster)?;
        let done = self.time(alloc, n)?;
        Ok(self.end(done, room))
    }

    /// What it knows of histories by itself: its log, or as long as that is empty the history with which it entered.
    fn own_list(&self) -> &History
        ensures list { result.now ≡ logged_or (P.proto.state self.now.rep.value).log self.now.rep.entry.base }
        ensures trimmed { P.proto.trimmed self.now.rep.value ≤ length result.now }
    {
        let log = self.log();
        if log.len() == 0 {
            &self.entry.base
        } else {
            log
        }
    }

    /// Does what a message asks for, but for what ends each event.
    fn hear<'a, N: Notary>(
        &mut self,
        alloc: Global,
        m: MsgRef<'a>,
        n: &mut N,
    ) -> Result<Done, OutOfMemory>
        requires received { IsReceived m }
        requires pen { IsPenOf (N.pen n.old) (N.remains n.old) self.old }
        ensures does { IfOk result (λ e. Does P.proto (N.pen n.old) self.old (due (setup_of self.old (N.pen n.old)) P.proto self.old.me self.old.rep (took (message m.entry))) self.new e.outs e.marks.items e.spent) }
        ensures pen { IfOk result (λ e. e.spent ≡ false → IsPenAfter (N.pen n.old) (N.pen n.new) (N.remains n.new) self.new) }
        ensures unused { IfOk result (λ e. e.spent ≡ true → SignsNothing (N.pen n.old) (N.remains n.old) (N.pen n.new) (N.remains n.new)) }
        ensures err { OnErr result (self.new ≡ self.old) }
    {
        let trimmed = self.value.trimmed();
        let next = crossing_in(
            alloc,
            &self.cluster,
            self.instance,
            &m,
            self.own_list(),
            trimmed,
        )?;
        match next {
            Some(next) => self.enter(alloc, next, m, n),
            None => self.take(alloc, m, n),
        }
    }

    /// The same of its timer.
    fn time<N: Notary>(&mut self, alloc: Global, n: &mut N) -> Result<Done, OutOfMemory>
        requires { IsPenOf (N.pen n.old) (N.remains n.old) self.old }
        ensures does { IfOk result (λ e. Does P.proto (N.pen n.old) self.old (turn_call timed ∷ []) self.new e.outs e.marks.items e.spent) }
        ensures pen { IfOk result (λ e. e.spent ≡ false → IsPenAfter (N.pen n.old) (N.pen n.new) (N.remains n.new) self.new) }
        ensures unused { IfOk result (λ e. e.spent ≡ true → SignsNothing (N.pen n.old) (N.remains n.old) (N.pen n.new) (N.remains n.new)) }
        ensures err { OnErr result (self.new ≡ self.old) }
    {
        let left = n.left();
        match self.value.timeout(alloc, n) {
            Ok(outs) => {
                self.used += left - n.left();
                Ok(Done::sent(alloc, outs))
            }
            Err(StepFault::Spent) => Ok(Done::none(alloc, true)),
            Err(StepFault::OutOfMemory) => Err(OutOfMemory),
        }
    }

    /// Ends an event. What is sent last has its room.
    fn end(&mut self, done: Done, mut room: Vec<Out>) -> Effects
        requires empty { room.items ≡ [] }
        requires room { 0 < self.old.cluster.every → 3 * self.old.cluster.f + 1 ≤ vec_capacity room }
        ensures after { self.new ≡ ended P.proto self.old done.spent }
        ensures sends { result.outs ≡ done.outs ++ told P.proto self.old done.spent }
        ensures marks { result.marks.items ≡ done.marks.items }
        ensures spent { result.spent ≡ done.spent }
    {
        if !done.spent {
            self.close(&mut room);
        }
        done.with_last(room)
    }

    /// Makes the CHECKPOINT that is due, and trims what is then stable.
    fn close(&mut self, last: &mut Vec<Out>)
        requires empty { last.old.items ≡ [] }
        requires room { 0 < self.old.cluster.every → 3 * self.old.cluster.f + 1 ≤ vec_capacity last.old }
        ensures after { self.new ≡ ended_with P.proto self.old (due_at P.proto self.old) }
        ensures sends { last.new.items ≡ told_with P.proto self.old (due_at P.proto self.old) }
    {
        if let Some(n) = self.due() {
            self.mark(n, last);
            self.trim_stable();
        }
    }

    /// After how many requests a CHECKPOINT is due in the present instance, 0 if none ever is.
    fn every_in(&self) -> u16
        ensures every { result ≡ every_at self.now.cluster self.now.rep.at }
        ensures some { 0 < result → 0 < self.now.cluster.every }
    {
        if makes_checkpoints(self.cluster.kind(self.instance)) {
            self.cluster.every
        } else {
            0
        }
    }

    /// Of how many entries a CHECKPOINT is due.
    fn due(&self) -> Option<u16>
        ensures due { result ≡ due_at P.proto self.now }
        ensures there { IfSome result (λ n. n ≤ length (P.proto.state self.now.rep.value).log) }
        ensures some { IfSome result (λ n. 0 < self.now.cluster.every) }
    {
        let every = self.every_in();
        if every == 0 {
            return None;
        }
        let value = &self.value;
        self.kept
            .due(every, value.stopped(), value.trimmed(), value.log())
    }

    /// Makes its CHECKPOINT of the first `n` entries of its log: it keeps it, and sends it to each other replica.
    fn mark(&mut self, n: u16, last: &mut Vec<Out>)
        requires there { n ≤ length (P.proto.state self.old.rep.value).log }
        requires empty { last.old.items ≡ [] }
        requires room { 3 * self.old.cluster.f + 1 ≤ vec_capacity last.old }
        ensures after { self.new ≡ with_own_mark P.proto self.old n }
        ensures sends { last.new.items ≡ told_with P.proto self.old (Some n) }
    {
        let digest = self.value.log().digest_at(usize::from(n));
        let replicas = self.cluster.replicas();
        tell_others(last, replicas, self.instance, self.me, n, &digest);
        self.kept.keep(self.me, n, digest);
        self.kept.sent(n);
    }

    /// Trims what is stable.
    fn trim_stable(&mut self)
        ensures { self.new ≡ trimmed_by P.proto self.old (stable_at P.proto self.old) }
    {
        let value = &self.value;
        let replicas = self.cluster.replicas();
        if let Some(n) = self.kept.stable(replicas, value.trimmed(), value.log()) {
            self.value.trim(usize::from(n));
        }
    }

    /// Keeps another replica's CHECKPOINT of its first `n` entries until it is stopped, and trims what is then stable.
    fn keep(&mut self, alloc: Global, by: u8, n: u16, digest: [u8; 32]) -> Done
        requires { by < 7 }
        ensures does { (pen : Pen) → self.old.rep.used ≤ self.old.signatures
            → Does P.proto pen self.old (if (P.proto.state self.old.rep.value).stopped then [] else keeping_with (setup_of self.old pen) P.proto self.old.me self.old.rep (Some (record { by = by; n = n; d = digest }))) self.new result.outs result.marks.items result.spent }
        ensures few { length result.marks.items ≤ 2 }
        ensures spent { result.spent ≡ false }
        ensures used { (self.new.rep.used ≡ self.old.rep.used) × (self.new.signatures ≡ self.old.signatures) }
    {
        if !self.value.stopped() {
            self.note(by, n, digest);
            self.trim_stable();
        }
        Done::none(alloc, false)
    }

    /// Keeps another replica's CHECKPOINT.
    fn note(&mut self, by: u8, n: u16, digest: [u8; 32])
        requires { by < 7 }
        ensures { self.new ≡ with_mark P.proto self.old (record { by = by; n = n; d = digest }) }
    {
        self.kept.keep(by, n, digest);
    }

    /// The replica as it enters another instance.
    fn entered(&self, alloc: Global, next: Crossing) -> Result<Self, OutOfMemory>
        requires higher { self.now.rep.at < next.instance }
        requires within { next.entry.trimmed ≤ length next.entry.base }
        requires begins { may_begin self.now.cluster next.instance next.entry.trimmed ≡ true }
        ensures { IfOk result (λ q. q ≡ record self.now { rep = record { at = next.instance; value = P.proto.begin self.now.cluster next.instance self.now.me next.entry; entry = next.entry; abort = None; used = self.now.rep.used; kept = no_marks }; entries = self.now.entries + 1 }) }
    {
        let value = P::start(alloc, &self.cluster, next.instance, self.me, &next.entry)?;
        Ok(Replica {
            cluster: self.cluster,
            me: self.me,
            signatures: self.signatures,
            instance: next.instance,
            value,
            entry: next.entry,
            abort: None,
            used: self.used,
            kept: Marks::new(),
            entries: self.entries + 1,
            of: PhantomData,
        })
    }

    /// Enters another instance and takes the message there. Where that is spent, it hasn't entered.
    fn enter<'a, N: Notary>(
        &mut self,
        alloc: Global,
        next: Crossing,
        m: MsgRef<'a>,
        n: &mut N,
    ) -> Result<Done, OutOfMemory>
        requires higher { self.old.rep.at < next.instance }
        requires within { next.entry.trimmed ≤ length next.entry.base }
        requires begins { may_begin self.old.cluster next.instance next.entry.trimmed ≡ true }
        requires shown { next.start ≤ length next.entry.base }
        requires received { IsReceived m }
        requires pen { IsPenOf (N.pen n.old) (N.remains n.old) self.old }
        ensures does { (j : ℕ) (cert : List SignedContent) (trimmed : ℕ) (h : List Request) → next ≡ record { instance = j + 1; entry = trimmed_entry h trimmed cert; start = offered_start self.old.cluster j cert } → IfOk result (λ e. Does P.proto (N.pen n.old) self.old (entering (setup_of self.old (N.pen n.old)) P.proto self.old.me self.old.rep (message m.entry) j cert trimmed h) self.new e.outs e.marks.items e.spent) }
        ensures pen { IfOk result (λ e. e.spent ≡ false → IsPenAfter (N.pen n.old) (N.pen n.new) (N.remains n.new) self.new) }
        ensures unused { IfOk result (λ e. e.spent ≡ true → SignsNothing (N.pen n.old) (N.remains n.old) (N.pen n.new) (N.remains n.new)) }
        ensures err { OnErr result (self.new ≡ self.old) }
    {
        let start = next.start;
        let mut there = self.entered(alloc, next)?;
        // Where it isn't kept a call lets it go: in place each form of what it holds would be taken apart.
        match there.arrive(alloc, start, m, n) {
            Ok(effects) => {
                if effects.spent {
                    drop(there);
                    return Ok(effects);
                }
                self.settle(there);
                Ok(effects)
            }
            Err(refused) => {
                drop(there);
                Err(refused)
            }
        }
    }

    /// Takes the first message of the instance that it has just entered by a list that has forgotten its first `start` entries, and
    /// shows its entry too.
    fn arrive<'a, N: Notary>(
        &mut self,
        alloc: Global,
        start: usize,
        m: MsgRef<'a>,
        n: &mut N,
    ) -> Result<Done, OutOfMemory>
        requires shown { start ≤ length self.old.rep.entry.base }
        requires received { IsReceived m }
        requires pen { IsPenOf (N.pen n.old) (N.remains n.old) self.old }
        ensures does { IfOk result (λ e. Arrives P.proto (N.pen n.old) self.old start (taken (setup_of self.old (N.pen n.old)) P.proto self.old.me self.old.rep (message m.entry)) self.new e.outs e.marks.items e.spent) }
        ensures pen { IfOk result (λ e. e.spent ≡ false → IsPenAfter (N.pen n.old) (N.pen n.new) (N.remains n.new) self.new) }
        ensures unused { IfOk result (λ e. e.spent ≡ true → SignsNothing (N.pen n.old) (N.remains n.old) (N.pen n.new) (N.remains n.new)) }
    {
        let (instance, me) = (self.instance, self.me);
        let base = self.entry.base.copy(alloc)?;
        let effects = self.take(alloc, m, n)?;
        effects.with_entry(alloc, instance, me, start, base)
    }

    /// It is the other one from now on.
    fn settle(&mut self, other: Self)
        ensures { self.new ≡ other }
    {
        // A plain `*self = other` would take the old one apart in place.
        drop(replace(self, other));
    }

    /// Takes a message in the present instance.
    fn take<'a, N: Notary>(
        &mut self,
        alloc: Global,
        m: MsgRef<'a>,
        n: &mut N,
    ) -> Result<Done, OutOfMemory>
        requires received { IsReceived m }
        requires pen { IsPenOf (N.pen n.old) (N.remains n.old) self.old }
        ensures does { IfOk result (λ e. Does P.proto (N.pen n.old) self.old (taken (setup_of self.old (N.pen n.old)) P.proto self.old.me self.old.rep (message m.entry)) self.new e.outs e.marks.items e.spent) }
        ensures few { IfOk result (λ e. length e.marks.items ≤ 2) }
        ensures pen { IfOk result (λ e. e.spent ≡ false → IsPenAfter (N.pen n.old) (N.pen n.new) (N.remains n.new) self.new) }
        ensures unused { IfOk result (λ e. e.spent ≡ true → SignsNothing (N.pen n.old) (N.remains n.old) (N.pen n.new) (N.remains n.new)) }
        ensures err { OnErr result (self.new ≡ self.old) }
    {
        match m.instance() {
            Some(i) if i == self.instance => self.here(alloc, m, n),
            Some(i) if i < self.instance => self.late(alloc, &m),
            _ => Ok(Done::none(alloc, false)),
        }
    }

    /// Answers a client that is in an earlier instance with the certificate by which it entered.
    fn late(&self, alloc: Global, m: &MsgRef<'_>) -> Result<Done, OutOfMemory>
        ensures does { (pen : Pen) → self.now.rep.used ≤ self.now.signatures → IfOk result (λ e. Does P.proto pen self.now (late (message m.now)) self.now e.outs e.marks.items e.spent) }
        ensures few { IfOk result (λ e. length e.marks.items ≤ 2) }
    {
        match purpose_of(m) {
            Purpose::Request(client) | Purpose::Panic(client) => {
                let outs = cert_to(alloc, client, self.entry.cert.as_ref())?;
                Ok(Done::sent(alloc, outs))
            }
            Purpose::Base | Purpose::Checkpoint { .. } | Purpose::Nothing | Purpose::Other => Ok(
                Done::none(alloc, false),
            ),
        }
    }

    /// Takes a message of the present instance.
    fn here<'a, N: Notary>(
        &mut self,
        alloc: Global,
        m: MsgRef<'a>,
        n: &mut N,
    ) -> Result<Done, OutOfMemory>
        requires received { IsReceived m }
        requires pen { IsPenOf (N.pen n.old) (N.remains n.old) self.old }
        ensures does { IfOk result (λ e. Does P.proto (N.pen n.old) self.old (here (setup_of self.old (N.pen n.old)) P.proto self.old.me self.old.rep (message m.entry)) self.new e.outs e.marks.items e.spent) }
        ensures few { IfOk result (λ e. length e.marks.items ≤ 2) }
        ensures pen { IfOk result (λ e. e.spent ≡ false → IsPenAfter (N.pen n.old) (N.pen n.new) (N.remains n.new) self.new) }
        ensures unused { IfOk result (λ e. e.spent ≡ true → SignsNothing (N.pen n.old) (N.remains n.old) (N.pen n.new) (N.remains n.new)) }
        ensures err { OnErr result (self.new ≡ self.old) }
    {
        match purpose_of(&m) {
            Purpose::Request(client) => self.request(alloc, client, m, n),
            Purpose::Panic(client) => self.halting(alloc, client, n),
            Purpose::Base => self.offered(alloc, m, n),
            Purpose::Checkpoint { by, n: count, d } => Ok(self.keep(alloc, by, count, d)),
            Purpose::Nothing => Ok(Done::none(alloc, false)),
            Purpose::Other => self.call(alloc, m, n),
        }
    }

    /// Takes a client's request of the present instance.
    fn request<'a, N: Notary>(
        &mut self,
        alloc: Global,
        client: u16,
        m: MsgRef<'a>,
        n: &mut N,
    ) -> Result<Done, OutOfMemory>
        requires received { IsReceived m }
        requires request { offered (took (message m)) ≡ None }
        requires pen { IsPenOf (N.pen n.old) (N.remains n.old) self.old }
        ensures does { IfOk result (λ e. Does P.proto (N.pen n.old) self.old (if (P.proto.state self.old.rep.value).stopped then aborting (setup_of self.old (N.pen n.old)) P.proto client self.old.rep else turn_call (took (message m.entry)) ∷ []) self.new e.outs e.marks.items e.spent) }
        ensures few { IfOk result (λ e. length e.marks.items ≤ 2) }
        ensures pen { IfOk result (λ e. e.spent ≡ false → IsPenAfter (N.pen n.old) (N.pen n.new) (N.remains n.new) self.new) }
        ensures unused { IfOk result (λ e. e.spent ≡ true → SignsNothing (N.pen n.old) (N.remains n.old) (N.pen n.new) (N.remains n.new)) }
        ensures err { OnErr result (self.new ≡ self.old) }
    {
        if self.value.stopped() {
            self.aborting(alloc, client, n)
        } else {
            self.call(alloc, m, n)
        }
    }

    /// Stops where it was not stopped, and then sends its ABORT where it is. The log that a stop
    /// leaves is the present one, so the ABORT is signed before: a spent event changes nothing.
    fn halting<N: Notary>(
        &mut self,
        alloc: Global,
        client: u16,
        n: &mut N,
    ) -> Result<Done, OutOfMemory>
        requires { IsPenOf (N.pen n.old) (N.remains n.old) self.old }
        ensures does { IfOk result (λ e. Does P.proto (N.pen n.old) self.old (halting (setup_of self.old (N.pen n.old)) P.proto client self.old.rep) self.new e.outs e.marks.items e.spent) }
        ensures few { IfOk result (λ e. length e.marks.items ≤ 2) }
        ensures pen { IfOk result (λ e. e.spent ≡ false → IsPenAfter (N.pen n.old) (N.pen n.new) (N.remains n.new) self.new) }
        ensures unused { IfOk result (λ e. e.spent ≡ true → SignsNothing (N.pen n.old) (N.remains n.old) (N.pen n.new) (N.remains n.new)) }
        ensures err { OnErr result (self.new ≡ self.old) }
    {
        if self.value.stopped() {
            return self.aborting(alloc, client, n);
        }
        if !self.value.may_panic() {
            self.value.stop();
            return Ok(Done::none(alloc, false));
        }
        let effects = self.aborting(alloc, client, n)?;
        if !effects.spent {
            self.value.stop();
        }
        Ok(effects)
    }

    /// Its protocol takes a message that offers no base.
    fn call<'a, N: Notary>(
        &mut self,
        alloc: Global,
        m: MsgRef<'a>,
        n: &mut N,
    ) -> Result<Done, OutOfMemory>
        requires received { IsReceived m }
        requires other { offered (took (message m)) ≡ None }
        requires pen { IsPenOf (N.pen n.old) (N.remains n.old) self.old }
        ensures does { IfOk result (λ e. Does P.proto (N.pen n.old) self.old (turn_call (took (message m.entry)) ∷ []) self.new e.outs e.marks.items e.spent) }
        ensures few { IfOk result (λ e. length e.marks.items ≤ 2) }
        ensures pen { IfOk result (λ e. e.spent ≡ false → IsPenAfter (N.pen n.old) (N.pen n.new) (N.remains n.new) self.new) }
        ensures unused { IfOk result (λ e. e.spent ≡ true → SignsNothing (N.pen n.old) (N.remains n.old) (N.pen n.new) (N.remains n.new)) }
        ensures err { OnErr result (self.new ≡ self.old) }
    {
        let left = n.left();
        match self.value.on(alloc, m, n) {
            Ok(outs) => {
                self.used += left - n.left();
                Ok(Done::sent(alloc, outs))
            }
            Err(StepFault::Spent) => Ok(Done::none(alloc, true)),
            Err(StepFault::OutOfMemory) => Err(OutOfMemory),
        }
    }

    /// Its protocol takes a message that offers a base. A copy takes it first, so that what was
    /// accepted before can be told from what is accepted then, and a refused allocation leaves all as
    /// it was.
    fn offered<'a, N: Notary>(
        &mut self,
        alloc: Global,
        m: MsgRef<'a>,
        n: &mut N,
    ) -> Result<Done, OutOfMemory>
        requires received { IsReceived m }
        requires offer { (cert : List SignedContent) × (offered (took (message m)) ≡ Some cert) }
        requires pen { IsPenOf (N.pen n.old) (N.remains n.old) self.old }
        ensures does { IfOk result (λ e. Does P.proto (N.pen n.old) self.old (turn_call (took (message m.entry)) ∷ []) self.new e.outs e.marks.items e.spent) }
        ensures few { IfOk result (λ e. length e.marks.items ≤ 2) }
        ensures pen { IfOk result (λ e. e.spent ≡ false → IsPenAfter (N.pen n.old) (N.pen n.new) (N.remains n.new) self.new) }
        ensures unused { IfOk result (λ e. e.spent ≡ true → SignsNothing (N.pen n.old) (N.remains n.old) (N.pen n.new) (N.remains n.new)) }
        ensures err { OnErr result (self.new ≡ self.old) }
    {
        let left = n.left();
        let mut value = self.value.copy(alloc)?;
        match value.on(alloc, m, n) {
            Ok(outs) => {
                let base = &self.entry.base;
                let marks = marks_between::<S, P>(
                    alloc,
                    self.instance,
                    self.me,
                    &self.value,
                    &value,
                    base,
                )?;
                self.value = value;
                self.used += left - n.left();
                Ok(Done {
                    outs,
                    marks,
                    spent: false,
                })
            }
            Err(StepFault::Spent) => Ok(Done::none(alloc, true)),
            Err(StepFault::OutOfMemory) => Err(OutOfMemory),
        }
    }

    /// A copy of the certificate of answers that its protocol keeps.
    fn kept_zcert(&self, alloc: Global) -> Result<Option<Zcert>, OutOfMemory>
        ensures { IfOk result (λ z. z ≡ (P.proto.state self.now.rep.value).zcert) }
    {
        match self.value.zcert() {
            Some(zcert) => {
                let zcert = zcert.copy(alloc)?;
                Ok(Some(zcert))
            }
            None => Ok(None),
        }
    }

    /// What it states as it aborts: its log, or what is behind the entries that are trimmed.
    fn abort_content(&self, alloc: Global) -> Result<Content, OutOfMemory>
        ensures { IfOk result (λ s. s ≡ stated_by P.proto self.now self.now.rep.value) }
    {
        let trimmed = self.value.trimmed();
        if trimmed == 0 {
            self.whole_abort(alloc)
        } else {
            self.trimmed_abort(alloc, trimmed)
        }
    }

    /// The same with its whole log, by the kind of its instance: in a ZCert with the certificate of answers that it keeps.
    fn whole_abort(&self, alloc: Global) -> Result<Content, OutOfMemory>
        ensures { IfOk result (λ s. s ≡ abort_content (rule_of (kind_of self.now.cluster.plan self.now.rep.at) self.now.cluster.f) self.now.rep.at self.now.me (P.proto.state self.now.rep.value)) }
    {
        let maker = Party::Replica(self.me);
        let instance = self.instance;
        let history = self.value.log().copy(alloc)?;
        match self.cluster.kind(self.instance) {
            Kind::Quorum | Kind::ZLight | Kind::Chain | Kind::Backup => Ok(Content::Abort {
                maker,
                instance,
                history,
            }),
            Kind::ZCert => {
                let zcert = self.kept_zcert(alloc)?;
                Ok(Content::AbortZ {
                    maker,
                    instance,
                    history,
                    zcert,
                })
            }
        }
    }

    /// The same with the digest of the first `n` entries of its log, and those behind them.
    fn trimmed_abort(&self, alloc: Global, n: usize) -> Result<Content, OutOfMemory>
        requires { n ≤ length (P.proto.state self.now.rep.value).log }
        ensures { IfOk result (λ s. s ≡ TrimmedAbort (Member self.now.me) self.now.rep.at n (digest_of (take n (P.proto.state self.now.rep.value).log)) (drop n (P.proto.state self.now.rep.value).log)) }
    {
        let log = self.value.log();
        let within = n <= log.len();
        prove!(within);
        let digest = log.digest_at(n);
        let rest = rest_of(alloc, log, n)?;
        Ok(Content::TrimmedAbort {
            maker: Party::Replica(self.me),
            instance: self.instance,
            start: n as u16,
            digest,
            rest,
        })
    }

    /// Its ABORT in the present instance, signed with the next number.
    fn signed_abort<N: Notary>(&self, alloc: Global, n: &mut N) -> Result<Signed, SignFault>
        ensures ok { IfOk result (λ s. (s ≡ record { maker = self.now.me; content = stated_by P.proto self.now self.now.rep.value; sig = (N.pen n.old).sig (stated_by P.proto self.now self.now.rep.value) (N.pen n.old).used }) × (N.pen n.new ≡ moved (N.pen n.old) 1) × (N.remains n.new + 1 ≡ N.remains n.old)) }
        ensures spent { IsErrOf result SignFault.Spent → N.remains n.old ≡ 0 }
        ensures unused { IsErrOf result SignFault.Spent → SignsNothing (N.pen n.old) (N.remains n.old) (N.pen n.new) (N.remains n.new) }
    {
        let content = self.abort_content(alloc)?;
        let sig = n.sign(alloc, &content)?;
        Ok(Signed {
            maker: self.me,
            content,
            sig,
        })
    }

    /// Sends a client the ABORT, which is signed the first time.
    fn aborting<N: Notary>(
        &mut self,
        alloc: Global,
        client: u16,
        n: &mut N,
    ) -> Result<Done, OutOfMemory>
        requires { IsPenOf (N.pen n.old) (N.remains n.old) self.old }
        ensures does { IfOk result (λ e. Does P.proto (N.pen n.old) self.old (aborting (setup_of self.old (N.pen n.old)) P.proto client self.old.rep) self.new e.outs e.marks.items e.spent) }
        ensures few { IfOk result (λ e. length e.marks.items ≤ 2) }
        ensures pen { IfOk result (λ e. e.spent ≡ false → IsPenAfter (N.pen n.old) (N.pen n.new) (N.remains n.new) self.new) }
        ensures unused { IfOk result (λ e. e.spent ≡ true → SignsNothing (N.pen n.old) (N.remains n.old) (N.pen n.new) (N.remains n.new)) }
        ensures err { OnErr result (self.new ≡ self.old) }
    {
        match &self.abort {
            Some(abort) => {
                let outs = abort_to(alloc, client, abort)?;
                Ok(Done::sent(alloc, outs))
            }
            None => match self.signed_abort(alloc, n) {
                Ok(abort) => {
                    let outs = abort_to(alloc, client, &abort)?;
                    self.abort = Some(abort);
                    self.used += 1;
                    Ok(Done::sent(alloc, outs))
                }
                Err(SignFault::Spent) => Ok(Done::none(alloc, true)),
                Err(SignFault::OutOfMemory) => Err(OutOfMemory),
            },
        }
    }
}
