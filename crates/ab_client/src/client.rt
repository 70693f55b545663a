//! One client.

ghost use Rattle.std.specs.Prelude.{◌≡◌, ◌≢◌, ◌+◌, ◌^◌, ◌<◌, ◌≤◌, ◌∷◌, [], All, length, IsTrue, IsOk, IsOkAnd, IfOk, IfErr, OnOk, OnErr, IsNone, IfSome, Some, None, ◌↔◌, ◌⊎◌};
ghost use Rattle.ab_num.specs.declared.party.Party.TheVariants.{Client as ClientParty};
ghost use Rattle.ab_hist.specs.declared.request.Request.{Request as TheRequest};
ghost use Rattle.ab_wire.specs.Views.{IsReceived, message};
ghost use Rattle.ab_abs.specs.declared.ballot.Ballot.{Ballot as TheBallot};
ghost use Rattle.ab_run.specs.Runs.{first_cli};
ghost use Rattle.ab_run.specs.Local.{cue_message, cue_time};
ghost use Rattle.ab_client.specs.Clients.{told, after, is_waiting, sends, marks, moves_on, InvokeCause};
ghost use Rattle.ab_run.specs.Forms.{IsDraftOf};
ghost use Rattle.ab_client.specs.Moved.{IsLastVote, IsMoved, is_answer, open_request};

mod answers;
mod certified;
mod switching;

use crate::sending::requests;
use ab_abs::{Marks, Seen, Votes, reply_rule};
use ab_hist::Request;
use ab_msg::{AbortCert, Outs, Sig, Signed, Zcert};
use ab_num::{Cluster, OutOfMemory};
use ab_run::Phase;
use ab_wire::MsgRef;
use arrayvec::ArrayVec;
use std::alloc::Global;
use std::marker::Model;
use thiserror::Error;

/// Why a client took no command.
#[derive(Clone, Copy, Debug, PartialEq, Eq, Error)]
pub enum InvokeFault {
    /// A request is open.
    #[error("a request is open")]
    Busy,
    /// The command has over 128 bytes.
    #[error("the command has over 128 bytes")]
    TooLong,
    /// The command has no bytes.
    #[error("the command has no bytes")]
    Empty,
    #[error("out of memory")]
    OutOfMemory,
}

impl From<OutOfMemory> for InvokeFault {
    ghost use Rattle.std.specs.Prelude.{◌≡◌};
    ghost use Rattle.ab_client.specs.declared.client.InvokeFault.TheVariants.{OutOfMemory as NoMemory};

    ghost from_gives = { λ _ e. e ≡ NoMemory };

    fn from(_refused: OutOfMemory) -> InvokeFault {
        InvokeFault::OutOfMemory
    }
}

/// A client in its present instance: the certificate by which it entered, its last request with the votes for it, and the ABORTs
/// of the instance by ascending replica. Where replicas sign their votes, also the signatures, the certificate of answers that it
/// sent, and the replicas that told that they keep it.
pub struct Client {
    cluster: Cluster,
    me: u16,
    instance: u32,
    cert: Option<AbortCert>,
    phase: Phase,
    stamp: u64,
    last: Option<Request>,
    votes: Votes,
    signed: Vec<(u8, Sig)>,
    sent: Option<Zcert>,
    told: Vec<u8>,
    kept: Vec<Signed>,
}

// Written out, so that no crate above makes and proves it anew.
impl Drop for Client {
    fn drop(self) {
        let Client {
            cluster: _,
            me: _,
            instance: _,
            cert: _,
            phase: _,
            stamp: _,
            last: _,
            votes: _,
            signed: _,
            sent: _,
            told: _,
            kept: _,
        } = self;
    }
}

impl Model for Client {
    ghost use Rattle.std.specs.Prelude.{◌≡◌, ◌+◌, ◌*◌};
    ghost use Rattle.ab_num.specs.Places.{kind_of};
    ghost use Rattle.ab_abs.specs.Kinds.{rule_of};
    ghost use Rattle.ab_client.specs.Clients.{Seat};
    ghost use Rattle.ab_client.specs.Moved.{IsPlaced};

    ghost Value = { Seat };

    ghost view = { λ c. record {
      me = c.me;
      cluster = c.cluster;
      cli = record { at = c.instance; cert = c.cert; phase = c.phase; stamp = c.stamp; last = c.last; votes = c.votes.ballots; signed = c.signed.items; sent = c.sent; told = c.told.items; kept = c.kept.items };
    } };

    ghost invariant = { λ c.
        IsPlaced c.me (record { at = c.instance; cert = c.cert; phase = c.phase; stamp = c.stamp; last = c.last; votes = c.votes.ballots; signed = c.signed.items; sent = c.sent; told = c.told.items; kept = c.kept.items })
        × (c.votes.rule ≡ rule_of (kind_of c.cluster.plan c.instance) c.cluster.f) × (c.votes.replicas ≡ 3 * c.cluster.f + 1) };
}

/// A command of 1 to 128 bytes.
fn command_of(command: &[u8]) -> Result<ArrayVec<u8, 128>, InvokeFault>
    ensures ok { IfOk result (λ c. (c.items ≡ command.now) × (1 ≤ length command.now) × (length command.now ≤ 128)) }
    ensures cause { IfErr result (λ e. ((e ≡ InvokeFault.TooLong) × (128 < length command.now)) ⊎ ((e ≡ InvokeFault.Empty) × (length command.now ≡ 0))) }
{
    if command.is_empty() {
        return Err(InvokeFault::Empty);
    }
    let mut bytes = ArrayVec::new();
    match bytes.try_extend_from_slice(command) {
        Ok(()) => Ok(bytes),
        Err(_) => Err(InvokeFault::TooLong),
    }
}

impl Client {
    /// Client `me` before its first request, in instance 1.
    pub fn new(alloc: Global, cluster: &Cluster, me: u16) -> Client
        ensures { result ≡ record { me = me; cluster = cluster.now; cli = first_cli } }
    {
        Client {
            cluster: *cluster,
            me,
            instance: 1,
            cert: None,
            phase: Phase::Idle,
            stamp: 0,
            last: None,
            votes: Votes::new(reply_rule(cluster.kind(1), cluster.f), cluster.replicas()),
            signed: Vec::new(alloc),
            sent: None,
            told: Vec::new(alloc),
            kept: Vec::new(alloc),
        }
    }

    /// The present instance.
    pub fn instance(&self) -> u32
        ensures { result ≡ self.now.cli.at }
    {
        self.instance
    }

    /// The last stamp, 0 before the first.
    pub fn stamp(&self) -> u64
        ensures { result ≡ self.now.cli.stamp }
    {
        self.stamp
    }

    /// Whether a request is open.
    pub fn open(&self) -> bool
        ensures { IsTrue result ↔ (self.now.cli.phase ≢ Phase.Idle) }
    {
        self.phase != Phase::Idle
    }

    /// Sends a request with this command and the next stamp to the replicas that take it in the
    /// present instance.
    pub fn invoke(&mut self, alloc: Global, command: &[u8]) -> Result<(Outs, Marks), InvokeFault>
        requires { self.old.cli.stamp < 2 ^ 63 }
        ensures client { OnOk result (self.new ≡ after self.old (told command.now)) }
        ensures outs { IfOk result (λ r. r.0 ≡ sends self.old (told command.now)) }
        ensures marks { IfOk result (λ r. r.1.items ≡ marks self.old (told command.now)) }
        ensures drafts { self.old.me ≤ 15 → IfOk result (λ r. All (IsDraftOf self.old.cluster.f (ClientParty self.old.me)) r.0) }
        ensures stamp { OnOk result (self.new.cli.stamp ≡ self.old.cli.stamp + 1) }
        ensures idle { OnOk result (self.old.cli.phase ≡ Phase.Idle) }
        ensures cause { IfErr result (λ e. InvokeCause e self.old.cli.phase (length command.now)) }
        ensures err { OnErr result (self.new ≡ self.old) }
    {
        if self.phase != Phase::Idle {
            return Err(InvokeFault::Busy);
        }
        let request = Request {
            client: self.me,
            stamp: self.stamp + 1,
            command: command_of(command)?,
        };
        let outs = requests(alloc, &self.cluster, self.instance, &request)?;
        let mut marks = Marks::new_in(alloc);
        marks.push(Seen::Invoked {
            i: self.instance,
            c: self.me,
            m: request.copy(),
        });
        self.phase = Phase::Waiting;
        self.stamp += 1;
        self.last = Some(request);
        self.forget_votes();
        Ok((outs, marks))
    }

    /// Drops the votes, and what was made of them.
    fn forget_votes(&mut self)
        ensures { self.new ≡ record self.old { cli = record self.old.cli { votes = []; signed = []; sent = None; told = [] } } }
    {
        self.votes.clear();
        self.signed.clear();
        self.sent = None;
        self.told.clear();
    }

    /// A number that rises with each invocation and each entry (`timers_count`), the last stamp and the
    /// instance added. None exactly where no request is open.
    pub fn timer(&self) -> Option<u64>
        ensures idle { IsNone result ↔ (self.now.cli.phase ≡ Phase.Idle) }
        ensures number { IfSome result (λ n. n ≡ self.now.cli.stamp + self.now.cli.at) }
    {
        if self.phase == Phase::Idle {
            return None;
        }
        Some(self.stamp + u64::from(self.instance))
    }

    /// Whether it waits for replies.
    fn is_waiting(&self) -> bool
        ensures { result ≡ is_waiting self.now.cli.phase }
    {
        match self.phase {
            Phase::Waiting => true,
            Phase::Idle | Phase::Panicking => false,
        }
    }

    /// The open request.
    fn request(&self) -> Option<Request>
        ensures { result ≡ open_request self.now.cli.phase self.now.cli.last }
    {
        match self.phase {
            Phase::Idle => None,
            Phase::Waiting | Phase::Panicking => match &self.last {
                Some(m) => Some(m.copy()),
                None => None,
            },
        }
    }

    /// Takes a message. A response, signed or not, or a CHAIN that makes the votes for the open request enough commits at once, and so
    /// does the last of 2f + 1 replicas that keep the certificate which it sent. An ABORT of the present instance is kept, and a
    /// certificate of this or of a later instance brings the client to the one behind it. Nothing else changes the client.
    pub fn on(&mut self, alloc: Global, msg: MsgRef<'_>) -> Result<(Outs, Marks), OutOfMemory>
        requires received { IsReceived msg }
        ensures client { OnOk result (self.new ≡ after self.old (cue_message (message msg.entry))) }
        ensures outs { IfOk result (λ r. r.0 ≡ sends self.old (cue_message (message msg.entry))) }
        ensures marks { IfOk result (λ r. r.1.items ≡ marks self.old (cue_message (message msg.entry))) }
        ensures drafts { self.old.me ≤ 15 → IfOk result (λ r. All (IsDraftOf self.old.cluster.f (ClientParty self.old.me)) r.0) }
        ensures stamp { OnOk result (self.new.cli.stamp ≡ self.old.cli.stamp) }

        // An answer takes no memory. The last of equal answers of all replicas commits in Quorum and ZLight.
        ensures answered { IsTrue (is_answer (message msg.entry)) → IsOk result }
        ensures at_once { (m : TheRequest) (b : TheBallot) → IsLastVote self.old (message msg.entry) m b
            → IsOkAnd result (λ r. r.1.items ≡ Seen.Committed self.old.cli.at self.old.me m b.n b.d b.reply ∷ []) }
        ensures err { OnErr result (self.new ≡ self.old) }
    {
        self.hear(alloc, msg)
    }

    /// Its timer runs out. With a request open in a Backup it asks once more. In a ZCert it sends the certificate of 2f + 1 equal
    /// signed votes, where it has so many and has sent none. Otherwise it asks the replicas to stop.
    pub fn timeout(&mut self, alloc: Global) -> Result<(Outs, Marks), OutOfMemory>
        ensures client { OnOk result (self.new ≡ after self.old cue_time) }
        ensures outs { IfOk result (λ r. r.0 ≡ sends self.old cue_time) }
        ensures marks { IfOk result (λ r. r.1.items ≡ marks self.old cue_time) }
        ensures drafts { self.old.me ≤ 15 → IfOk result (λ r. All (IsDraftOf self.old.cluster.f (ClientParty self.old.me)) r.0) }
        ensures stamp { OnOk result (self.new.cli.stamp ≡ self.old.cli.stamp) }
        ensures err { OnErr result (self.new ≡ self.old) }
    {
        self.on_time(alloc)
    }

    /// Takes a message.
    fn hear(&mut self, alloc: Global, msg: MsgRef<'_>) -> Result<(Outs, Marks), OutOfMemory>
        requires received { IsReceived msg }
        ensures ok { IfOk result (λ r. IsMoved self.old (moves_on self.old (cue_message (message msg.entry))) self.new r.0 r.1.items) }
        ensures answered { IsTrue (is_answer (message msg.entry)) → IsOk result }
        ensures err { OnErr result (self.new ≡ self.old) }
    {
        match msg {
            MsgRef::Resp { content, .. } => {
                let marks = self.on_response(alloc, content);
                Ok((Outs::new(alloc), marks))
            }
            MsgRef::Chain {
                instance,
                request,
                n,
                d,
                reply,
                ..
            } => {
                let marks = self.on_chain(alloc, instance, request, n, d, reply);
                Ok((Outs::new(alloc), marks))
            }
            MsgRef::Spec { spec } => {
                let marks = self.on_spec(alloc, spec)?;
                Ok((Outs::new(alloc), marks))
            }
            MsgRef::LocalCommit { content, .. } => {
                let marks = self.on_local_commit(alloc, content)?;
                Ok((Outs::new(alloc), marks))
            }
            MsgRef::Abort { abort } => self.on_abort(alloc, abort),
            MsgRef::Init { cert } => self.on_init(alloc, cert),
            _ => Ok(nothing(alloc)),
        }
    }
}

/// Nothing to send, and nothing to see.
fn nothing(alloc: Global) -> (Outs, Marks)
    ensures outs { result.0 ≡ [] }
    ensures marks { result.1.items ≡ [] }
{
    (Outs::new(alloc), Marks::new_in(alloc))
}
