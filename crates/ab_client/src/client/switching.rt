//! How a client stops its instance, and how it enters another.

ghost use Rattle.std.specs.Prelude.{◌≡◌, ◌+◌, ◌<◌, ◌≤◌, ◌∷◌, [], if◌then◌else◌, None, Some, IfOk, IfSome, IsNone, IsSome, OnOk, OnErr, ◌⊎◌};
ghost use Rattle.ab_hist.specs.declared.request.Request.{Request as TheRequest};
ghost use Rattle.ab_hist.specs.Trimmed.{Trimmed as TrimmedList};
ghost use Rattle.ab_msg.specs.declared.message.Msg.TheVariants as sent;
ghost use Rattle.ab_msg.specs.Contents.{IsStopContent};
ghost use Rattle.ab_msg.specs.Certs.{AreAborts, IsSigned};
ghost use Rattle.ab_abs.specs.Observations.{cert_seen};
ghost use Rattle.ab_stable.specs.Offers.{list_in};
ghost use Rattle.ab_wire.specs.Views.{aborts, signed};
ghost use Rattle.ab_run.specs.Clients.{after_move, move_again, move_keep, move_panic, move_take, own_cert, taking};
ghost use Rattle.ab_run.specs.Local.{cue_message, cue_time};
ghost use Rattle.ab_client.specs.Clients.{alone, is_waiting, moves_on};
ghost use Rattle.ab_client.specs.Moved.{IsMoved};

use super::{Client, nothing};
use crate::certs::{is_fit, is_kept, keep, known_log, timely};
use crate::choices::own_cert;
use crate::lists::{CertList, take_list};
use crate::sending::{asking_again, entering, panicking};
use ab_abs::{Marks, Seen, Votes, reply_rule};
use ab_extract::own_abort;
use ab_form::ListRef;
use ab_hist::Request;
use ab_msg::{AbortCert, Outs, Signed};
use ab_num::{Kind, OutOfMemory, Party};
use ab_run::Phase;
use ab_wire::SignedRef;
use std::alloc::Global;

impl Client {
    /// Goes to the instance after `j`, which a certificate of `j` opens.
    fn go_behind(&mut self, j: u32, cert: AbortCert)
        requires last { j < 4294967295 }
        requires cert { AreAborts 1 7 cert }
        ensures { (t : TrimmedList) (m : TheRequest) → self.new ≡ record self.old { cli = after_move self.old.cli (move_take j cert t m) } }
    {
        self.instance = j + 1;
        self.cert = Some(cert);
        self.phase = Phase::Waiting;
        self.votes = Votes::new(
            reply_rule(self.cluster.kind(self.instance), self.cluster.f),
            self.cluster.replicas(),
        );
        self.signed.clear();
        self.sent = None;
        self.told.clear();
        self.kept.clear();
    }

    /// Enters the instance after `j` by a certificate of `j`, with its request open.
    fn enter(
        &mut self,
        alloc: Global,
        j: u32,
        cert: AbortCert,
        list: CertList,
        request: &Request,
    ) -> Result<(Outs, Marks), OutOfMemory>
        requires last { j < 4294967295 }
        requires cert { AreAborts 1 7 cert }
        requires request { self.old.cli.last ≡ Some request.now }
        ensures ok { IfOk result (λ r. IsMoved self.old (move_take j cert list request.now ∷ []) self.new r.0 r.1.items) }
        ensures err { OnErr result (self.new ≡ self.old) }
    {
        let outs = entering(alloc, &self.cluster, j + 1, &cert, request)?;
        let marks = entry_marks(alloc, j, self.me, list, request);
        self.go_behind(j, cert);
        Ok((outs, marks))
    }

    /// The certificate that the kept ABORTs make with `v`, and the list that it brings. None exactly if they
    /// make none, or if there is no further instance.
    fn complete(
        &self,
        alloc: Global,
        v: &Signed,
    ) -> Result<Option<(AbortCert, CertList)>, OutOfMemory>
        requires { IsSigned IsStopContent v.now }
        ensures cert { IfOk result (λ o. IfSome o (λ x. (x.0 ≡ own_cert self.now.cluster self.now.cli.at v.now self.now.cli.kept) × AreAborts 1 7 x.0)) }
        ensures list { IfOk result (λ o. IfSome o (λ x. list_in self.now.cluster self.now.cli.at (own_cert self.now.cluster self.now.cli.at v.now self.now.cli.kept) ≡ Some x.1)) }
        ensures below { IfOk result (λ o. IsSome o → self.now.cli.at < 4294967295) }
        ensures none { IfOk result (λ o. IsNone o → (list_in self.now.cluster self.now.cli.at (own_cert self.now.cluster self.now.cli.at v.now self.now.cli.kept) ≡ None) ⊎ (4294967295 ≤ self.now.cli.at)) }
    {
        if self.instance == u32::MAX {
            return Ok(None);
        }
        own_cert(alloc, &self.cluster, self.instance, v, &self.kept)
    }

    /// Keeps the ABORT of another replica.
    fn keep(&mut self, v: Signed) -> Result<(), OutOfMemory>
        requires { IsSigned IsStopContent v }
        ensures ok { OnOk result (self.new ≡ record self.old { cli = after_move self.old.cli (move_keep v) }) }
        ensures err { OnErr result (self.new ≡ self.old) }
    {
        keep(&mut self.kept, v)?;
        Ok(())
    }

    /// Takes an ABORT of the present instance that is the first of its replica there.
    fn take_abort(
        &mut self,
        alloc: Global,
        v: Signed,
        request: &Request,
    ) -> Result<(Outs, Marks), OutOfMemory>
        requires abort { IsSigned IsStopContent v }
        requires request { self.old.cli.last ≡ Some request.now }
        ensures ok { IfOk result (λ r. IsMoved self.old (move_keep v ∷ taking (alone self.old.cluster) self.old.cli request.now self.old.cli.at (own_cert self.old.cluster self.old.cli.at v self.old.cli.kept)) self.new r.0 r.1.items) }
        ensures err { OnErr result (self.new ≡ self.old) }
    {
        match self.complete(alloc, &v)? {
            Some((cert, list)) => self.enter(alloc, self.instance, cert, list, request),
            None => {
                self.keep(v)?;
                Ok(nothing(alloc))
            }
        }
    }

    /// Takes an ABORT. One that no certificate of the present instance may hold is not kept.
    pub(super) fn on_abort(
        &mut self,
        alloc: Global,
        abort: SignedRef<'_>,
    ) -> Result<(Outs, Marks), OutOfMemory>
        requires received { IsSigned IsStopContent (signed abort) }
        ensures ok { IfOk result (λ r. IsMoved self.old (moves_on self.old (cue_message (sent.Abort (signed abort.entry)))) self.new r.0 r.1.items) }
        ensures err { OnErr result (self.new ≡ self.old) }
    {
        let Some(request) = self.request() else {
            return Ok(nothing(alloc));
        };
        if abort.content.instance() != self.instance {
            return Ok(nothing(alloc));
        }
        if is_kept(&self.kept, abort.maker) {
            return Ok(nothing(alloc));
        }
        if !is_fit(
            &abort.content,
            self.cluster.kind(self.instance),
            self.cluster.f,
        ) {
            return Ok(nothing(alloc));
        }
        let known = known_log(&self.kept, self.cert.as_ref());
        let v = own_abort(alloc, abort, known)?;
        self.take_abort(alloc, v, &request)
    }

    /// Takes a certificate of instance `j`, which is the present or a later one. One that isn't valid is not copied.
    fn take_cert<'a>(
        &mut self,
        alloc: Global,
        j: u32,
        cert: &ListRef<'a, SignedRef<'a>>,
        request: &Request,
    ) -> Result<(Outs, Marks), OutOfMemory>
        requires late { (self.old.cli.at ≤ j) × (j < 4294967295) }
        requires cert { AreAborts 1 7 (aborts cert.now) }
        requires request { self.old.cli.last ≡ Some request.now }
        ensures ok { IfOk result (λ r. IsMoved self.old (taking (alone self.old.cluster) self.old.cli request.now j (aborts cert.now)) self.new r.0 r.1.items) }
        ensures err { OnErr result (self.new ≡ self.old) }
    {
        let known = known_log(&self.kept, self.cert.as_ref());
        match take_list(alloc, &self.cluster, j, cert, known)? {
            Some((list, own)) => self.enter(alloc, j, own, list, request),
            None => Ok(nothing(alloc)),
        }
    }

    /// Takes a certificate. One of an earlier instance is not looked at.
    pub(super) fn on_init<'a>(
        &mut self,
        alloc: Global,
        cert: ListRef<'a, SignedRef<'a>>,
    ) -> Result<(Outs, Marks), OutOfMemory>
        requires received { AreAborts 1 7 (aborts cert) }
        ensures ok { IfOk result (λ r. IsMoved self.old (moves_on self.old (cue_message (sent.Init (aborts cert.entry)))) self.new r.0 r.1.items) }
        ensures err { OnErr result (self.new ≡ self.old) }
    {
        let Some(request) = self.request() else {
            return Ok(nothing(alloc));
        };
        match timely(self.instance, &cert) {
            Some(j) => self.take_cert(alloc, j, &cert, &request),
            None => Ok(nothing(alloc)),
        }
    }

    /// Its timer runs out.
    pub(super) fn on_time(&mut self, alloc: Global) -> Result<(Outs, Marks), OutOfMemory>
        ensures ok { IfOk result (λ r. IsMoved self.old (moves_on self.old cue_time) self.new r.0 r.1.items) }
        ensures err { OnErr result (self.new ≡ self.old) }
    {
        let Some(request) = self.request() else {
            return Ok(nothing(alloc));
        };
        match self.cluster.kind(self.instance) {
            Kind::Quorum => self.panic(alloc),
            Kind::ZLight => self.panic(alloc),
            Kind::Chain => self.panic(alloc),
            Kind::Backup => self.ask_again(alloc, &request),
            Kind::ZCert => self.certify(alloc, &request),
        }
    }

    /// Waits no longer for replies.
    fn give_up(&mut self)
        ensures { self.new ≡ record self.old { cli = after_move self.old.cli move_panic } }
    {
        self.phase = Phase::Panicking;
    }

    /// Asks the replicas to stop.
    pub(super) fn panic(&mut self, alloc: Global) -> Result<(Outs, Marks), OutOfMemory>
        ensures ok { IfOk result (λ r. IsMoved self.old (move_panic ∷ []) self.new r.0 r.1.items) }
        ensures err { OnErr result (self.new ≡ self.old) }
    {
        let outs = panicking(alloc, &self.cluster, self.instance, self.me, &self.cert)?;
        self.give_up();
        Ok((outs, Marks::new_in(alloc)))
    }

    /// Asks for its request once more, if it waits.
    fn ask_again(&mut self, alloc: Global, request: &Request) -> Result<(Outs, Marks), OutOfMemory>
        requires request { self.old.cli.last ≡ Some request.now }
        ensures ok { IfOk result (λ r. IsMoved self.old (if is_waiting self.old.cli.phase then move_again request.now ∷ [] else []) self.new r.0 r.1.items) }
        ensures err { OnErr result (self.new ≡ self.old) }
    {
        if !self.is_waiting() {
            return Ok(nothing(alloc));
        }
        let outs = asking_again(alloc, &self.cluster, self.instance, &self.cert, request)?;
        Ok((outs, Marks::new_in(alloc)))
    }
}

/// What is observed where client `me` enters the instance after `j` by a certificate of `j` that brings
/// this list, with its request open.
fn entry_marks(alloc: Global, j: u32, me: u16, list: CertList, request: &Request) -> Marks
    requires { j < 4294967295 }
    ensures { result.items ≡ cert_seen j (Party.Client me) list ∷ Seen.Invoked (j + 1) me request.now ∷ [] }
{
    let mut marks = Marks::new_in(alloc);
    marks.push(list.seen(j, Party::Client(me)));
    marks.push(Seen::Invoked {
        i: j + 1,
        c: me,
        m: request.copy(),
    });
    marks
}
