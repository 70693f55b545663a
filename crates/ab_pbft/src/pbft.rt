//! A replica of PBFT.

ghost use Rattle.std.specs.Prelude.{◌≡◌, ◌+◌, ◌<◌, ◌≤◌, [], IfOk, IsErrOf};
ghost use Rattle.ab_msg.specs.Pens.{moved};
ghost use Rattle.ab_abs.specs.Signers.{SignsNothing};
ghost use Rattle.ab_pbft_rules.specs.Rules.{done_by};
ghost use Rattle.ab_slots.specs.Inputs.{input_of};
ghost use Rattle.ab_pbft_work.specs.Turns.{memory_of, Shows};
ghost use Rattle.ab_pbft_shelf.specs.Posts.{posts_all, signings};
ghost use Rattle.ab_pbft_shelf.specs.Signing.{author_of, is_leaving, leavings};
ghost use Rattle.ab_pbft.specs.Events.{next_of, post_of, signs_of};

use crate::putting::shelve;
use ab_abs::{Entry, StepFault};
use ab_backup::Orderer;
use ab_hist::History;
use ab_msg::{Notary, Outs};
use ab_num::{Cluster, OutOfMemory};
use ab_pbft_shelf::{Author, Shelf};
use ab_pbft_work::{Memory, Placement, Progress, read};
use ab_slots::{Notice, Reading};
use ab_wire::MsgRef;
use std::alloc::Global;
use std::marker::Model;

/// Replicas agree on the order of requests by views, each with a primary that offers values for slots; 2f + 1 PREPAREs
/// of a view prepare a value, and 2f + 1 COMMITs execute it. Replicas that wait too long change to the next view, which
/// begins with what 2f + 1 of them had prepared (Castro and Liskov, OSDI 1999). How often this replica left a view is
/// counted in `left`.
pub struct Pbft {
    cluster: Cluster,
    seat: Placement,
    memory: Memory,
    shelf: Shelf,
    left: u32,
}

// Written out, so that no crate above makes and proves it anew.
impl Drop for Pbft {
    fn drop(self) {
        let Pbft {
            cluster: _,
            seat: _,
            memory: _,
            shelf: _,
            left: _,
        } = self;
    }
}

impl Model for Pbft {
    ghost use Rattle.std.specs.Prelude.{◌≤◌};
    ghost use Rattle.ab_pbft_work.specs.Turns.{memory_of, seat_of};
    ghost use Rattle.ab_pbft_shelf.specs.Signing.{Signing};

    ghost Value = { Signing };

    ghost view = { λ q. record { cluster = q.cluster; order = record { seat = seat_of q.seat; memory = memory_of q.memory }; shelf = q.shelf; left = q.left } };

    ghost invariant = { λ q. q.left ≤ (memory_of q.memory).peer.core.view };
}

/// Whether it leaves a view.
fn is_leaving(deed: &Notice) -> bool
    ensures { result ≡ is_leaving deed.now }
{
    match deed {
        Notice::Changes { .. } => true,
        _ => false,
    }
}

/// How many of these leave a view.
fn leavings(deeds: &[Notice]) -> usize
    ensures { result ≡ leavings deeds.now }
{
    deeds.iter().filter(|d| is_leaving(d)).count()
}

impl Pbft {
    /// Who signs.
    fn author(&self) -> Author
        ensures { result ≡ author_of self.now }
    {
        Author {
            cluster: self.cluster,
            instance: self.seat.instance,
            me: self.seat.me,
        }
    }

    /// How often it left a view, once it did this.
    fn left_after(&self, turn: &Progress) -> u32
        requires { self.now.order.memory.peer.core.view + leavings turn.now.deeds.items ≤ (memory_of turn.now.memory).peer.core.view }
        ensures count { result ≡ self.now.left + leavings turn.now.deeds.items }
        ensures within { result ≤ (memory_of turn.now.memory).peer.core.view }
    {
        let left = self.left;
        let more = leavings(&turn.deeds);
        let within = more <= turn.memory.view() as usize;
        prove!(within);
        left + more as u32
    }

    /// A copy of its memory, once it does what the rules say as something comes, with what others hear of.
    fn turned(&self, alloc: Global, input: Reading) -> Result<Progress, OutOfMemory>
        ensures { IfOk result (λ turn. Shows turn (done_by self.now.order (input_of input))) }
    {
        let memory = self.memory.copy(alloc)?;
        let mut turn = Progress::new(alloc, memory);
        turn.work(alloc, &self.seat, input)?;
        Ok(turn)
    }

    /// Posts what others hear of from this shelf.
    fn post<N: Notary>(
        &self,
        alloc: Global,
        mut shelf: Shelf,
        deeds: &[Notice],
        n: &mut N,
    ) -> Result<(Shelf, Outs), StepFault>
        ensures ok { IfOk result (λ made. posts_all (author_of self.now) deeds.now (record { pen = N.pen n.old; shelf = shelf; sent = [] }) ≡ record { pen = N.pen n.new; shelf = made.0; sent = made.1 }) }
        ensures left { IfOk result (λ _. N.remains n.new + signings (author_of self.now) deeds.now ≡ N.remains n.old) }
        ensures spent { IsErrOf result StepFault.Spent → N.remains n.old < signings (author_of self.now) deeds.now }
        ensures unused { IsErrOf result StepFault.Spent → SignsNothing (N.pen n.old) (N.remains n.old) (N.pen n.new) (N.remains n.new) }
    {
        let mut outs = Vec::new(alloc);
        shelf.post_all(alloc, &self.author(), deeds, n, &mut outs)?;
        Ok((shelf, Outs::of(outs)))
    }

    /// Does what the rules say as something comes that is on this shelf, and posts what others hear of.
    fn work<N: Notary>(
        &self,
        alloc: Global,
        shelf: Shelf,
        input: Reading,
        n: &mut N,
    ) -> Result<(Pbft, Outs), StepFault>
        ensures next { IfOk result (λ made. made.0 ≡ next_of (N.pen n.old) self.now shelf (input_of input)) }
        ensures sends { IfOk result (λ made. made.1 ≡ (post_of (N.pen n.old) self.now shelf (input_of input)).sent) }
        ensures pen { IfOk result (λ _. (N.pen n.new ≡ moved (N.pen n.old) (signs_of self.now (input_of input))) × (N.remains n.new + signs_of self.now (input_of input) ≡ N.remains n.old)) }
        ensures spent { IsErrOf result StepFault.Spent → N.remains n.old < signs_of self.now (input_of input) }
        ensures unused { IsErrOf result StepFault.Spent → SignsNothing (N.pen n.old) (N.remains n.old) (N.pen n.new) (N.remains n.new) }
    {
        let turn = self.turned(alloc, input)?;
        let left = self.left_after(&turn);
        let seat = self.seat.copy(alloc)?;
        let (shelf, outs) = self.post(alloc, shelf, &turn.deeds, n)?;
        let next = Pbft {
            cluster: self.cluster,
            seat,
            memory: turn.memory,
            shelf,
            left,
        };
        Ok((next, outs))
    }
}

impl Orderer for Pbft {
    ghost use Rattle.ab_pbft_rules.specs.Rules.{Pbft as Rules, pbft};
    ghost use Rattle.ab_pbft_rules.specs.Traces.{IsPbftSound};
    ghost use Rattle.ab_pbft_rules.specs.Standing.{PbftStands};
    ghost use Rattle.ab_pbft_shelf.specs.Signing.{signing};
    ghost use Rattle.ab_pbft.specs.Events.{turns_of};

    ghost View = { Rules };

    ghost orders = { signing };

    ghost rules = { pbft };

    ghost sound = { IsPbftSound };

    ghost stands = { PbftStands };

    ghost counted = { turns_of };

    fn start(alloc: Global, c: &Cluster, i: u32, me: u8, e: &Entry) -> Result<Self, OutOfMemory> {
        let k = c.limit(i);
        let base = e.base.copy(alloc)?;
        let shelf = Shelf::new(alloc, k, &e.cert)?;
        let seat = Placement {
            k,
            f: c.f,
            instance: i,
            me,
            base,
        };
        Ok(Pbft {
            cluster: *c,
            seat,
            memory: Memory::new(alloc),
            shelf,
            left: 0,
        })
    }

    fn on<N: Notary>(
        &self,
        alloc: Global,
        m: MsgRef<'_>,
        n: &mut N,
    ) -> Result<(Self, Outs), StepFault> {
        let shelf = self.shelf.copy(alloc)?;
        let input = read(alloc, &self.cluster, self.seat.instance, &m)?;
        let held = shelve(alloc, self.seat.f, shelf, &m, &input)?;
        self.work(alloc, held, input, n)
    }

    fn timeout<N: Notary>(&self, alloc: Global, n: &mut N) -> Result<(Self, Outs), StepFault> {
        let shelf = self.shelf.copy(alloc)?;
        self.work(alloc, shelf, Reading::Timeout, n)
    }

    fn copy(&self, alloc: Global) -> Result<Self, OutOfMemory> {
        let seat = self.seat.copy(alloc)?;
        let memory = self.memory.copy(alloc)?;
        let shelf = self.shelf.copy(alloc)?;
        Ok(Pbft {
            cluster: self.cluster,
            seat,
            memory,
            shelf,
            left: self.left,
        })
    }

    fn base(&self) -> Option<&History> {
        self.memory.executed().base()
    }

    fn first(&self) -> Option<&History> {
        self.memory.accepted().base()
    }

    fn ordered(&self) -> &History {
        self.memory.executed().list()
    }

    fn turns(&self) -> Option<u64> {
        if !self.memory.waits() {
            return None;
        }
        let executed = self.memory.executed().len() as u64;
        Some(executed + u64::from(self.left))
    }

    ghost use Rattle.ab_pbft_rules.proofs.LawfulOrderer.{pbft_lawful};
    ghost use Rattle.ab_pbft_rules.proofs.OrderlyOrderer.{pbft_orderly};
    ghost use Rattle.ab_pbft_shelf.proofs.Obeying.{signing_obeys};
    ghost use Rattle.ab_pbft_shelf.proofs.Owning.{signing_owns};
    ghost use Rattle.ab_pbft_drafts.proofs.KeptBytes.{signing_keeps_bytes};

    ghost obeys = { signing_obeys };

    ghost orderly = { pbft_orderly };

    ghost owned = { signing_owns };

    ghost lawful = { pbft_lawful };

    ghost bytes = { signing_keeps_bytes };
}
