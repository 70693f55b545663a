//! What a replica of PBFT does as something comes.

ghost use Rattle.std.specs.Prelude.{◌≡◌, ℕ, List, [], ◌∷◌, ◌++◌, ◌<◌, ◌==◌, ◌&&◌, true, false, IsTrue, Some, None, IfOk, OnOk, length, slice_get, suc, take, nat_le};
ghost use Rattle.std.specs.Str.{bytes_eq};
ghost use Rattle.ab_msg.specs.declared.value.Value.{Value as SlotValue};
ghost use Rattle.ab_msg.specs.declared.value.Value.TheVariants as value;
ghost use Rattle.ab_msg.specs.Slots.{slot_digest as digest_of_slot};
ghost use Rattle.ab_abs.specs.Values.{goes};
ghost use Rattle.ab_lock.specs.Steps.{State, Change as ChangeOf, signs, prepares, executes, cert_at};
ghost use Rattle.ab_lock.specs.ViewChanges.{certs_from};
ghost use Rattle.ab_lock.specs.Choosing.{chosen_of};
ghost use Rattle.ab_pbft_rules.specs.Rules as rules;
ghost use Rattle.ab_pbft_rules.specs.Rules.{Work, idle, take_value, does as says, keep_request as keeps_request, keep_change as keeps_change};
ghost use Rattle.ab_slots.specs.declared.notice.Notice.TheVariants.{Offers};
ghost use Rattle.ab_slots.specs.Inputs.{input_of};
ghost use Rattle.ab_pbft_work.specs.Turns.{seat_of, memory_of, Shows, Does, Went, Offered, takes, next_in, next_on, enters_from, leaves, offers_all, can_leave, can_offer_base, votes_for, commits_for};

use crate::memory::Memory;
use crate::placement::Placement;
use ab_hist::{History, Request};
use ab_msg::{Copied, Value};
use ab_num::OutOfMemory;
use ab_slots::certs::{entries_of, front, set_cert};
use ab_slots::kept::{Kept, count_later, count_of, least_later, lowest, put, remove};
use ab_slots::slot_vote::{SlotVote, keep};
use ab_slots::waiting::{first_fit, keep as keep_last};
use ab_slots::{
    Cert, Change, ChangeReading, Notice, Reading, Slots, chosen, into_changes, may_enter,
    slot_digest,
};
use std::alloc::Global;

/// An event so far: where it leaves a replica's memory, and what the replica did. After an `Err` the memory may be
/// anything.
#[derive(Drop)]
pub struct Progress {
    pub memory: Memory,
    pub deeds: Vec<Notice>,
}

impl Progress {
    /// Before an event.
    pub fn new(alloc: Global, memory: Memory) -> Progress
        ensures { Shows result (idle (memory_of memory)) }
    {
        Progress {
            memory,
            deeds: Vec::new(alloc),
        }
    }

    /// Signs the PREPARE of the lowest slot that isn't signed, which has the digest `x`.
    fn sign(&mut self, me: u8, x: [u8; 32]) -> Result<(), OutOfMemory>
        requires { self.old.memory.signed < 256 }
        ensures { OnOk result (Does self.old self.new (takes me (signs self.old.memory.view self.old.memory.signed x))) }
    {
        let slot = self.memory.signed as u8;
        let view = self.memory.view;
        let vote = SlotVote::new(me, slot, x);
        keep(&mut self.memory.votes, vote)?;
        self.memory.signed += 1;
        self.deeds.push(Notice::Signs { view, slot, x })?;
        Ok(())
    }

    /// Takes the lowest slot that isn't prepared for prepared.
    fn prepare(&mut self, alloc: Global, me: u8) -> Result<(), OutOfMemory>
        requires { self.old.memory.prepared < length self.old.memory.accepted }
        ensures { OnOk result (Does self.old self.new (takes me (prepares self.old.memory.view (take (suc self.old.memory.prepared) self.old.memory.accepted)))) }
    {
        let n = self.memory.prepared;
        let view = self.memory.view;
        let value = self.memory.accepted.at(n);
        let x = slot_digest(value);
        let slot = n as u8;
        let told = value.copy(alloc)?;
        self.deeds.push(Notice::Prepares {
            view,
            slot,
            value: told,
        })?;
        let backed = value.copy(alloc)?;
        let cert = Cert::new(view, backed);
        let vote = SlotVote::new(me, slot, x);
        set_cert(&mut self.memory.certs, n, cert)?;
        keep(&mut self.memory.commits, vote)?;
        self.memory.prepared += 1;
        Ok(())
    }

    /// Executes the slot after the executed ones, whose value may follow them.
    fn execute(&mut self, alloc: Global) -> Result<(), OutOfMemory>
        requires within { length self.old.memory.executed < length self.old.memory.accepted }
        requires next { (v : SlotValue) → slice_get self.old.memory.accepted (length self.old.memory.executed) ≡ Some v → goes self.old.memory.executed v ≡ true }
        ensures { OnOk result ((v : SlotValue) (me : ℕ) → slice_get self.old.memory.accepted (length self.old.memory.executed) ≡ Some v → Does self.old self.new (takes me (executes self.old.memory.view (length self.old.memory.executed) v))) }
    {
        let n = self.memory.executed.len();
        let next = self.memory.accepted.at(n);
        let value = next.copy(alloc)?;
        self.memory.executed.push(alloc, value)?;
        Ok(())
    }

    /// Prepares or executes a slot, whichever it can first, and tells whether there was one.
    fn step_on(&mut self, alloc: Global, seat: &Placement) -> Result<bool, OutOfMemory>
        ensures { IfOk result (λ went. (w : Work) → Shows self.old w → Went (seat_of seat.now) went self.new w (next_on (seat_of seat.now) w)) }
    {
        if self.memory.may_prepare(seat.f) {
            self.prepare(alloc, seat.me)?;
            return Ok(true);
        }
        if self.memory.may_execute(seat.f) {
            self.execute(alloc)?;
            return Ok(true);
        }
        Ok(false)
    }

    /// Takes the first of the three steps that it can, and tells whether there was one.
    fn step(&mut self, alloc: Global, seat: &Placement) -> Result<bool, OutOfMemory>
        ensures { IfOk result (λ went. (w : Work) → Shows self.old w → Went (seat_of seat.now) went self.new w (next_in (seat_of seat.now) w)) }
    {
        match self.memory.unsigned() {
            Some(x) => {
                self.sign(seat.me, x)?;
                Ok(true)
            }
            None => {
                let went = self.step_on(alloc, seat)?;
                Ok(went)
            }
        }
    }

    /// Goes on by itself as far as it can. There are at most three steps for each slot.
    fn settle(&mut self, alloc: Global, seat: &Placement) -> Result<(), OutOfMemory>
        ensures { OnOk result (Does self.old self.new (rules.settle (seat_of seat.now))) }
    {
        'steps: for _n in 0..3 * (u16::from(seat.k) + 1) + 1 {
            if !self.step(alloc, seat)? {
                return Ok(());
            }
        }
        Ok(())
    }

    /// Accepts a value in the next slot.
    fn accept(&mut self, alloc: Global, value: Value) -> Result<(), OutOfMemory>
        requires next { goes self.old.memory.accepted value ≡ true }
        requires room { length self.old.memory.accepted < 256 }
        ensures { OnOk result (Does self.old self.new (take_value value)) }
    {
        self.memory.accepted.push(alloc, value)?;
        Ok(())
    }

    /// Tells the others that it offers a value in the next slot.
    fn tell_offer(&mut self, alloc: Global, value: &Value) -> Result<(), OutOfMemory>
        requires { length self.old.memory.accepted < 256 }
        ensures same { OnOk result (self.new.memory ≡ self.old.memory) }
        ensures told { OnOk result (self.new.deeds.items ≡ self.old.deeds.items ++ Offers self.old.memory.view (length self.old.memory.accepted) value.now ∷ []) }
    {
        let told = value.copy(alloc)?;
        self.deeds.push(Notice::Offers {
            view: self.memory.view,
            slot: self.memory.accepted.len() as u8,
            value: told,
        })?;
        Ok(())
    }

    /// Accepts a value in the next slot, and offers it to the others.
    fn offer(&mut self, alloc: Global, value: Value) -> Result<(), OutOfMemory>
        requires next { goes self.old.memory.accepted value ≡ true }
        requires room { length self.old.memory.accepted < 256 }
        ensures { OnOk result ((seat : rules.Placement) → Does self.old self.new (rules.offer seat value)) }
    {
        self.tell_offer(alloc, &value)?;
        self.accept(alloc, value)?;
        Ok(())
    }

    /// Whether a request waits and nothing is accepted, and a VIEW-CHANGE can hold its own base.
    fn may_offer_base(&self, seat: &Placement) -> bool
        ensures { result ≡ can_offer_base (seat_of seat.now) (memory_of self.now.memory) }
    {
        self.memory.accepted.is_empty() && !self.memory.requests.is_empty() && seat.can_show_base()
    }

    /// Offers its own base in slot 0, if it may.
    fn offer_base(&mut self, alloc: Global, seat: &Placement) -> Result<(), OutOfMemory>
        ensures { OnOk result (Does self.old self.new (rules.offer_base (seat_of seat.now))) }
    {
        if !self.may_offer_base(seat) {
            return Ok(());
        }
        let base = seat.base.copy(alloc)?;
        self.offer(alloc, Value::Base(base))?;
        Ok(())
    }

    /// Offers the request of the lowest client that may follow, if there is room for one, and tells whether there was one.
    fn offer_next(&mut self, alloc: Global, seat: &Placement) -> Result<bool, OutOfMemory>
        ensures { IfOk result (λ went. (w : Work) → Shows self.old w → Offered (seat_of seat.now) went self.new w) }
    {
        if self.memory.accepted.len() > usize::from(seat.k) {
            return Ok(false);
        }
        match first_fit(&self.memory.requests, &self.memory.accepted) {
            Some(m) => {
                self.offer(alloc, Value::Request(m))?;
                Ok(true)
            }
            None => Ok(false),
        }
    }

    /// Offers one request after the other, up to slot k.
    fn offer_requests(&mut self, alloc: Global, seat: &Placement) -> Result<(), OutOfMemory>
        ensures { OnOk result (Does self.old self.new (rules.offer_requests (seat_of seat.now) (suc seat.now.k))) }
    {
        'slots: for _n in 0..u16::from(seat.k) + 1 {
            if !self.offer_next(alloc, seat)? {
                return Ok(());
            }
        }
        Ok(())
    }

    /// Whether it may offer values: it is the primary, in its view, and something is left to order.
    fn may_propose(&self, seat: &Placement) -> bool
        ensures { result ≡ rules.may_propose (seat_of seat.now) (idle (memory_of self.now.memory)) }
    {
        seat.is_primary(seat.me, self.memory.view)
            && !self.memory.changing
            && !self.memory.is_done(seat.k)
    }

    /// Offers what it can as the primary of the view.
    fn offer_all(&mut self, alloc: Global, seat: &Placement) -> Result<(), OutOfMemory>
        ensures { OnOk result (Does self.old self.new (offers_all (seat_of seat.now))) }
    {
        if !self.may_propose(seat) {
            return Ok(());
        }
        self.offer_base(alloc, seat)?;
        self.offer_requests(alloc, seat)?;
        Ok(())
    }

    /// Offers what it can as the primary of the view, and goes on.
    fn propose(&mut self, alloc: Global, seat: &Placement) -> Result<(), OutOfMemory>
        ensures { OnOk result (Does self.old self.new (rules.propose (seat_of seat.now))) }
    {
        self.offer_all(alloc, seat)?;
        self.settle(alloc, seat)?;
        Ok(())
    }

    /// Enters a view with these values for its slots, and drops the votes of a lower view.
    fn enter(&mut self, alloc: Global, view: u32, accepted: Slots) -> Result<(), OutOfMemory>
        ensures { OnOk result ((seat : rules.Placement) (vcs : List (ChangeOf SlotValue)) → accepted ≡ chosen_of goes seat.k vcs → Does self.old self.new (enters_from seat view vcs)) }
    {
        self.memory.drop_votes_below(alloc, view);
        self.memory.view = view;
        self.memory.changing = false;
        self.memory.accepted = accepted;
        self.memory.signed = 0;
        self.memory.prepared = 0;
        self.deeds.push(Notice::Enters { view })?;
        Ok(())
    }

    /// Enters a view from these VIEW-CHANGEs.
    fn enter_view(
        &mut self,
        alloc: Global,
        seat: &Placement,
        view: u32,
        changes: &[Change],
    ) -> Result<(), OutOfMemory>
        ensures { OnOk result (Does self.old self.new (rules.enter_view (seat_of seat.now) view changes.now)) }
    {
        let accepted = chosen(alloc, seat.k, changes)?;
        self.enter(alloc, view, accepted)?;
        self.propose(alloc, seat)?;
        Ok(())
    }

    /// Whether it is the primary of a view that it is changing to, with enough VIEW-CHANGEs for it.
    fn may_lead(&self, seat: &Placement) -> bool
        ensures { result ≡ rules.may_lead (seat_of seat.now) (idle (memory_of self.now.memory)) }
    {
        seat.is_primary(seat.me, self.memory.view)
            && self.memory.changing
            && seat.quorum() <= count_of(&self.memory.changes, self.memory.view)
    }

    /// Tells that it leads a view.
    fn tell_lead(&mut self, view: u32) -> Result<(), OutOfMemory>
        ensures { OnOk result (Does self.old self.new (says (rules.leads view))) }
    {
        self.deeds.push(Notice::Leads { view })?;
        Ok(())
    }

    /// Leads the view that it is changing to, if it may.
    fn lead(&mut self, alloc: Global, seat: &Placement) -> Result<(), OutOfMemory>
        ensures { OnOk result (Does self.old self.new (rules.lead (seat_of seat.now))) }
    {
        if !self.may_lead(seat) {
            return Ok(());
        }
        let view = self.memory.view;
        let changes = lowest(alloc, seat.f, &self.memory.changes, view)?;
        self.tell_lead(view)?;
        self.enter_view(alloc, seat, view, &changes)?;
        Ok(())
    }

    /// Leaves for a view with these certificates, and drops its votes.
    fn leave(&mut self, alloc: Global, view: u32, certs: &[Cert]) -> Result<(), OutOfMemory>
        ensures { OnOk result ((seat : rules.Placement) → certs.now ≡ certs_from (cert_at self.old.memory.certs.items) (suc seat.k) 0 → Does self.old self.new (leaves seat view)) }
    {
        let entries = entries_of(alloc, certs)?;
        self.memory.view = view;
        self.memory.changing = true;
        self.memory.accepted = Slots::new(alloc);
        self.memory.signed = 0;
        self.memory.prepared = 0;
        self.memory.votes = Vec::new(alloc);
        self.memory.commits = Vec::new(alloc);
        self.deeds.push(Notice::Changes { view, entries })?;
        Ok(())
    }

    /// Keeps its own VIEW-CHANGE in place of the one before.
    fn keep_own(&mut self, me: u8, view: u32, certs: Vec<Cert>) -> Result<(), OutOfMemory>
        ensures { OnOk result ((seat : rules.Placement) (s : State SlotValue) → seat.me ≡ me → certs.items ≡ certs_from (cert_at s.certs) (suc seat.k) 0 → Does self.old self.new (rules.keep_own seat view s)) }
    {
        remove(&mut self.memory.changes, me);
        let change = Change::new(me, certs);
        let own = Kept::new(view, change);
        put(&mut self.memory.changes, own)?;
        Ok(())
    }

    /// Leaves for a view, and keeps its own VIEW-CHANGE.
    fn leave_to(&mut self, alloc: Global, seat: &Placement, view: u32) -> Result<(), OutOfMemory>
        ensures { OnOk result (Does self.old self.new (rules.leave_to (seat_of seat.now) view)) }
    {
        let certs = front(alloc, &self.memory.certs, usize::from(seat.k) + 1)?;
        self.leave(alloc, view, &certs)?;
        self.keep_own(seat.me, view, certs)?;
        Ok(())
    }

    /// Follows f + 1 others that left for later views, to the first of these.
    fn follow(&mut self, alloc: Global, seat: &Placement) -> Result<(), OutOfMemory>
        ensures { OnOk result (Does self.old self.new (rules.follow (seat_of seat.now))) }
    {
        let view = self.memory.view;
        if count_later(&self.memory.changes, view) <= usize::from(seat.f) {
            return Ok(());
        }
        match least_later(&self.memory.changes, view) {
            Some(later) => {
                self.leave_to(alloc, seat, later)?;
                Ok(())
            }
            None => Ok(()),
        }
    }

    /// Whether it takes a PRE-PREPARE of a replica in a view: it is the primary's of the present view, and something is
    /// left to order.
    fn may_take(&self, seat: &Placement, by: u8, view: u32) -> bool
        ensures { result ≡ rules.may_take (seat_of seat.now) (idle (memory_of self.now.memory)) by view }
    {
        seat.is_primary(by, view)
            && view == self.memory.view
            && !self.memory.changing
            && !self.memory.is_done(seat.k)
    }

    /// Whether it takes a base for slot 0.
    fn may_take_base(
        &self,
        seat: &Placement,
        by: u8,
        view: u32,
        x: &[u8; 32],
        value: &Value,
    ) -> bool
        ensures { result ≡ rules.may_take (seat_of seat.now) (idle (memory_of self.now.memory)) by view && (rules.is_empty self.now.memory.accepted && bytes_eq x.now (digest_of_slot value.now)) }
    {
        self.may_take(seat, by, view) && self.memory.accepted.is_empty() && *x == slot_digest(value)
    }

    /// Whether it takes a request for a slot.
    fn may_take_request(
        &self,
        seat: &Placement,
        by: u8,
        view: u32,
        slot: u8,
        x: &[u8; 32],
        value: &Value,
    ) -> bool
        ensures { result ≡ rules.may_take (seat_of seat.now) (idle (memory_of self.now.memory)) by view && ((slot == length self.now.memory.accepted) && (nat_le slot seat.now.k && (bytes_eq x.now (digest_of_slot value.now) && goes self.now.memory.accepted value.now))) }
    {
        self.may_take(seat, by, view)
            && usize::from(slot) == self.memory.accepted.len()
            && slot <= seat.k
            && *x == slot_digest(value)
            && self.memory.accepted.can_push(value)
    }

    /// Keeps the request of a client.
    fn keep_request(&mut self, m: Request) -> Result<(), OutOfMemory>
        ensures { OnOk result (Does self.old self.new (keeps_request m)) }
    {
        keep_last(&mut self.memory.requests, m)?;
        Ok(())
    }

    /// Takes the request of a client.
    fn take_request(
        &mut self,
        alloc: Global,
        seat: &Placement,
        m: Request,
    ) -> Result<(), OutOfMemory>
        ensures { OnOk result (Does self.old self.new (rules.work (seat_of seat.now) (input_of (Reading.Request m)))) }
    {
        self.keep_request(m)?;
        self.propose(alloc, seat)?;
        Ok(())
    }

    /// Takes a base that a primary offers.
    fn take_base(
        &mut self,
        alloc: Global,
        seat: &Placement,
        by: u8,
        view: u32,
        x: [u8; 32],
        base: History,
    ) -> Result<(), OutOfMemory>
        ensures { OnOk result (Does self.old self.new (rules.work (seat_of seat.now) (input_of (Reading.PrePrepareBase by view x base)))) }
    {
        let value = Value::Base(base);
        if !self.may_take_base(seat, by, view, &x, &value) {
            return Ok(());
        }
        self.accept(alloc, value)?;
        self.settle(alloc, seat)?;
        Ok(())
    }

    /// Takes a request that a primary offers for a slot.
    fn take_offer(
        &mut self,
        alloc: Global,
        seat: &Placement,
        by: u8,
        view: u32,
        slot: u8,
        x: [u8; 32],
        m: Request,
    ) -> Result<(), OutOfMemory>
        ensures { OnOk result (Does self.old self.new (rules.work (seat_of seat.now) (input_of (Reading.PrePrepare by view slot x m)))) }
    {
        let value = Value::Request(m);
        if !self.may_take_request(seat, by, view, slot, &x, &value) {
            return Ok(());
        }
        self.accept(alloc, value)?;
        self.settle(alloc, seat)?;
        Ok(())
    }

    /// Keeps a PREPARE.
    fn keep_vote(&mut self, vote: SlotVote) -> Result<(), OutOfMemory>
        ensures { OnOk result (Does self.old self.new (votes_for vote)) }
    {
        keep(&mut self.memory.votes, vote)?;
        Ok(())
    }

    /// Keeps a COMMIT.
    fn keep_commit(&mut self, vote: SlotVote) -> Result<(), OutOfMemory>
        ensures { OnOk result (Does self.old self.new (commits_for vote)) }
    {
        keep(&mut self.memory.commits, vote)?;
        Ok(())
    }

    /// Takes a PREPARE.
    fn take_prepare(
        &mut self,
        alloc: Global,
        seat: &Placement,
        by: u8,
        view: u32,
        slot: u8,
        x: [u8; 32],
    ) -> Result<(), OutOfMemory>
        ensures { OnOk result (Does self.old self.new (rules.work (seat_of seat.now) (input_of (Reading.Prepare by view slot x)))) }
    {
        if view != self.memory.view {
            return Ok(());
        }
        self.keep_vote(SlotVote::new(by, slot, x))?;
        self.settle(alloc, seat)?;
        Ok(())
    }

    /// Takes a COMMIT.
    fn take_commit(
        &mut self,
        alloc: Global,
        seat: &Placement,
        by: u8,
        view: u32,
        slot: u8,
        x: [u8; 32],
    ) -> Result<(), OutOfMemory>
        ensures { OnOk result (Does self.old self.new (rules.work (seat_of seat.now) (input_of (Reading.Commit by view slot x)))) }
    {
        if view != self.memory.view {
            return Ok(());
        }
        self.keep_commit(SlotVote::new(by, slot, x))?;
        self.settle(alloc, seat)?;
        Ok(())
    }

    /// Keeps the VIEW-CHANGE of a replica.
    fn keep_change(&mut self, alloc: Global, change: ChangeReading) -> Result<(), OutOfMemory>
        ensures { OnOk result (Does self.old self.new (keeps_change change)) }
    {
        let view = change.view();
        let change = change.into_change(alloc)?;
        let kept = Kept::new(view, change);
        put(&mut self.memory.changes, kept)?;
        Ok(())
    }

    /// Takes the VIEW-CHANGE of a replica.
    fn take_change(
        &mut self,
        alloc: Global,
        seat: &Placement,
        change: ChangeReading,
    ) -> Result<(), OutOfMemory>
        ensures { OnOk result (Does self.old self.new (rules.work (seat_of seat.now) (input_of (Reading.ViewChange change)))) }
    {
        if !change.fits(seat.f) {
            return Ok(());
        }
        self.keep_change(alloc, change)?;
        self.follow(alloc, seat)?;
        self.lead(alloc, seat)?;
        Ok(())
    }

    /// Whether it takes a NEW-VIEW: it is the primary's, of a later view or of the one that it is changing to.
    fn may_follow(&self, seat: &Placement, by: u8, view: u32, changes: &[ChangeReading]) -> bool
        ensures { result ≡ rules.may_follow (seat_of seat.now) (idle (memory_of self.now.memory)) by view changes.now }
    {
        seat.is_primary(by, view)
            && (self.memory.view < view || (self.memory.view == view && self.memory.changing))
            && may_enter(seat.f, view, changes)
    }

    /// Takes a NEW-VIEW.
    fn take_new_view(
        &mut self,
        alloc: Global,
        seat: &Placement,
        by: u8,
        view: u32,
        changes: Vec<ChangeReading>,
    ) -> Result<(), OutOfMemory>
        ensures { OnOk result (Does self.old self.new (rules.work (seat_of seat.now) (input_of (Reading.NewView by view changes)))) }
    {
        if !self.may_follow(seat, by, view, &changes) {
            return Ok(());
        }
        let changes = into_changes(alloc, changes)?;
        self.enter_view(alloc, seat, view, &changes)?;
        Ok(())
    }

    /// Whether something is left to order and there is a next view.
    fn may_leave(&self, seat: &Placement) -> bool
        ensures says { result ≡ can_leave (seat_of seat.now) (memory_of self.now.memory) }
        ensures later { IsTrue result → self.now.memory.view < 4294967295 }
    {
        !self.memory.is_done(seat.k) && self.memory.view < u32::MAX
    }

    /// Leaves for the next view, if something is left to order and there is one.
    fn time_out(&mut self, alloc: Global, seat: &Placement) -> Result<(), OutOfMemory>
        ensures { OnOk result (Does self.old self.new (rules.work (seat_of seat.now) (input_of Reading.Timeout))) }
    {
        if !self.may_leave(seat) {
            return Ok(());
        }
        self.leave_to(alloc, seat, self.memory.view + 1)?;
        self.lead(alloc, seat)?;
        Ok(())
    }

    /// Does what the rules say as something comes.
    pub fn work(
        &mut self,
        alloc: Global,
        seat: &Placement,
        input: Reading,
    ) -> Result<(), OutOfMemory>
        ensures { OnOk result (Does self.old self.new (rules.work (seat_of seat.now) (input_of input))) }
    {
        match input {
            Reading::Request(m) => self.take_request(alloc, seat, m),
            Reading::PrePrepareBase { by, view, x, base } => {
                self.take_base(alloc, seat, by, view, x, base)
            }
            Reading::PrePrepare {
                by,
                view,
                slot,
                x,
                request,
            } => self.take_offer(alloc, seat, by, view, slot, x, request),
            Reading::Prepare { by, view, slot, x } => {
                self.take_prepare(alloc, seat, by, view, slot, x)
            }
            Reading::Commit { by, view, slot, x } => self.take_commit(
                alloc, seat, by, view, slot, x,
            ),
            Reading::ViewChange(change) => self.take_change(alloc, seat, change),
            Reading::NewView { by, view, changes } => {
                self.take_new_view(alloc, seat, by, view, changes)
            }
            Reading::Timeout => self.time_out(alloc, seat),
            Reading::Other => Ok(()),
        }
    }
}
