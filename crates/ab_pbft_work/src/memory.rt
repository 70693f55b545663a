//! What a replica of PBFT remembers.

ghost use Rattle.std.specs.Prelude.{◌≡◌, ◌<◌, [], Some, None, true, IsTrue, IfOk, IfSome, length, slice_get, suc, take, nat_le, if◌then◌else◌};
ghost use Rattle.std.specs.Option.{option_map};
ghost use Rattle.std.specs.Str.{bytes_eq};
ghost use Rattle.ab_msg.specs.declared.value.Value.{Value as SlotValue};
ghost use Rattle.ab_msg.specs.Slots.{slot_digest as digest_of_slot};
ghost use Rattle.ab_abs.specs.Values.{goes};
ghost use Rattle.ab_lock.specs.Steps.{begun, signs, prepares, executes};
ghost use Rattle.ab_lock.specs.Votes.{next_sign, next_prepare, next_execute};
ghost use Rattle.ab_pbft_work.specs.Turns.{memory_of, without_votes_below};
ghost use Rattle.ab_slots.specs.Waits.{waits};

use ab_hist::{Request, copy_requests};
use ab_msg::copy_each;
use ab_num::OutOfMemory;
use ab_slots::certs::copy_certs;
use ab_slots::kept::Kept;
use ab_slots::slot_vote::{SlotVote, is_enough};
use ab_slots::waiting::lacks_some;
use ab_slots::{Cert, Slots, slot_digest};
use std::alloc::Global;

/// Its view, the values that it accepted there, how many slots of these are signed and prepared, each slot's certificate
/// of the highest view, the executed values, the votes of the view, the last VIEW-CHANGE of each replica, and the last
/// request of each client.
pub struct Memory {
    pub(crate) view: u32,
    pub(crate) changing: bool,
    pub(crate) accepted: Slots,
    pub(crate) signed: usize,
    pub(crate) prepared: usize,
    pub(crate) certs: Vec<Option<Cert>>,
    pub(crate) executed: Slots,
    pub(crate) votes: Vec<SlotVote>,
    pub(crate) commits: Vec<SlotVote>,
    pub(crate) changes: Vec<Kept>,
    pub(crate) requests: Vec<Request>,
}

// Written out, so that no crate above makes and proves it anew.
impl Drop for Memory {
    fn drop(self) {
        let Memory {
            view: _,
            changing: _,
            accepted: _,
            signed: _,
            prepared: _,
            certs: _,
            executed: _,
            votes: _,
            commits: _,
            changes: _,
            requests: _,
        } = self;
    }
}

impl Memory {
    /// Before anything came.
    pub fn new(alloc: Global) -> Memory
        ensures { memory_of result ≡ record { peer = record { core = begun; votes = []; commits = [] }; changes = []; requests = [] } }
    {
        Memory {
            view: 0,
            changing: false,
            accepted: Slots::new(alloc),
            signed: 0,
            prepared: 0,
            certs: Vec::new(alloc),
            executed: Slots::new(alloc),
            votes: Vec::new(alloc),
            commits: Vec::new(alloc),
            changes: Vec::new(alloc),
            requests: Vec::new(alloc),
        }
    }

    /// The present view.
    pub fn view(&self) -> u32
        ensures { result ≡ (memory_of self.now).peer.core.view }
    {
        self.view
    }

    /// The values that are accepted in the present view.
    pub fn accepted(&self) -> &Slots
        ensures { result.now ≡ (memory_of self.now).peer.core.accepted }
    {
        &self.accepted
    }

    /// The values that are executed.
    pub fn executed(&self) -> &Slots
        ensures { result.now ≡ (memory_of self.now).peer.core.executed }
    {
        &self.executed
    }

    /// Whether slots 0 to `k` are executed.
    pub fn is_done(&self, k: u8) -> bool
        ensures { result ≡ nat_le (suc k) (length (memory_of self.now).peer.core.executed) }
    {
        usize::from(k) < self.executed.len()
    }

    /// Whether a slot is accepted and not executed, or a kept request is missing from the executed list.
    pub fn waits(&self) -> bool
        ensures { result ≡ waits (memory_of self.now) }
    {
        self.executed.len() < self.accepted.len()
            || lacks_some(self.executed.list(), &self.requests)
    }

    /// The digest of the lowest slot that is accepted and not signed, where all lower ones are prepared.
    pub(crate) fn unsigned(&self) -> Option<[u8; 32]>
        ensures next { next_sign digest_of_slot (memory_of self.now).peer.core ≡ option_map (λ x. signs self.now.view self.now.signed x) result }
        ensures within { IfSome result (λ _. self.now.signed < 256) }
    {
        if self.signed != self.prepared {
            return None;
        }
        match self.accepted.get(self.signed) {
            Some(value) => Some(slot_digest(value)),
            None => None,
        }
    }

    /// Whether the signed slot that isn't prepared has enough PREPAREs.
    pub(crate) fn may_prepare(&self, f: u8) -> bool
        ensures within { IsTrue result → self.now.prepared < length self.now.accepted }
        ensures next { next_prepare digest_of_slot bytes_eq f (memory_of self.now).peer.core self.now.votes.items ≡ (if result then Some (prepares self.now.view (take (suc self.now.prepared) self.now.accepted)) else None) }
    {
        if self.prepared >= self.signed {
            return false;
        }
        match self.accepted.get(self.prepared) {
            Some(value) => {
                let x = slot_digest(value);
                is_enough(f, &self.votes, self.prepared as u8, &x)
            }
            None => false,
        }
    }

    /// Whether the slot after the executed ones is prepared, has enough COMMITs, and a value that may follow.
    pub(crate) fn may_execute(&self, f: u8) -> bool
        ensures within { IsTrue result → length self.now.executed < length self.now.accepted }
        ensures fits { IsTrue result → (v : SlotValue) → slice_get self.now.accepted (length self.now.executed) ≡ Some v → goes self.now.executed v ≡ true }
        ensures next { next_execute digest_of_slot bytes_eq goes f (memory_of self.now).peer.core self.now.commits.items ≡ (if result then option_map (λ value. executes self.now.view (length self.now.executed) value) (slice_get self.now.accepted (length self.now.executed)) else None) }
    {
        let n = self.executed.len();
        if n >= self.prepared {
            return false;
        }
        match self.accepted.get(n) {
            Some(value) => {
                let x = slot_digest(value);
                is_enough(f, &self.commits, n as u8, &x) && self.executed.can_push(value)
            }
            None => false,
        }
    }

    /// Drops the votes of a view below this one.
    pub(crate) fn drop_votes_below(&mut self, alloc: Global, view: u32)
        ensures { memory_of self.new ≡ without_votes_below view (memory_of self.old) }
    {
        if self.view < view {
            self.votes = Vec::new(alloc);
            self.commits = Vec::new(alloc);
        }
    }

    /// The same memory.
    pub fn copy(&self, alloc: Global) -> Result<Memory, OutOfMemory>
        ensures { IfOk result (λ m. memory_of m ≡ memory_of self.now) }
    {
        let votes = Vec::from_slice(alloc, &self.votes)?;
        let commits = Vec::from_slice(alloc, &self.commits)?;
        let requests = copy_requests(alloc, &self.requests)?;
        let certs = copy_certs(alloc, &self.certs)?;
        let changes = copy_each(alloc, &self.changes)?;
        let executed = self.executed.copy(alloc)?;
        let accepted = self.accepted.copy(alloc)?;
        Ok(Memory {
            view: self.view,
            changing: self.changing,
            accepted,
            signed: self.signed,
            prepared: self.prepared,
            certs,
            executed,
            votes,
            commits,
            changes,
            requests,
        })
    }
}
