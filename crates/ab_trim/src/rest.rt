//! The entries of a list behind those that are forgotten.

ghost use Rattle.std.specs.Prelude.{◌≡◌, ◌-◌, ◌<◌, ◌≤◌, ◌↔◌, [], ◌∷◌, ◌++◌, length, take, slice_get, IsTrue, Some, OnOk, OnErr, IfOk, IfSome, IfNone, Contains};
ghost use Rattle.ab_hist.specs.Histories.{IsHistory, IsNext, place_in};
ghost use Rattle.ab_hist.specs.Chunks.{begun, grown, front, digest_from};
ghost use Rattle.ab_trim.specs.Chained.{behind};

use crate::chain::Chain;
use crate::head::Head;
use ab_hist::{History, PushFault, Request};
use ab_num::OutOfMemory;
use std::alloc::{AllocError, Global};
use std::marker::Model;

/// At most 1,024 requests in which the stamps of each client rise, and the digest of what stands before them. Of the chunk
/// in which the last forgotten one stands, what isn't forgotten is the head. New entries come into chunks of their own, so
/// that nothing depends on those that are forgotten.
pub(crate) struct Rest {
    head: Head,
    chain: Chain,
}

impl Drop for Rest {
    fn drop(self) {
        let Rest { head: _, chain: _ } = self;
    }
}

impl Model for Rest {
    ghost use Rattle.std.specs.Prelude.{◌++◌};
    ghost use Rattle.ab_hist.specs.Chunks.{Chunk};
    ghost use Rattle.ab_trim.specs.Chained.{AreJoined};

    ghost Value = { Chunk };

    ghost view = { λ r. record { start = r.head.start; requests = r.head.requests ++ r.chain.requests } };

    ghost invariant = { λ r. AreJoined r.head r.chain };
}

/// Adds an entry that may come next, and for which there is room.
fn add(alloc: Global, h: &mut History, m: Request) -> Result<(), OutOfMemory>
    requires room { length h.old < 65535 }
    requires next { IsNext h.old m }
    ensures { OnOk result (h.new ≡ h.old ++ m ∷ []) }
{
    match h.push(alloc, m) {
        Ok(()) => Ok(()),
        Err(PushFault::OutOfMemory) => Err(OutOfMemory),
        Err(_) => unreachable!(),
    }
}

/// Whether two requests are equal.
fn are_same(a: &Request, b: &Request) -> bool
    ensures { IsTrue result ↔ (a.now ≡ b.now) }
{
    a == b
}

impl Rest {
    /// No entries yet after those with the digest `start`.
    pub(crate) fn new(alloc: Global, start: [u8; 32]) -> Rest
        ensures { result ≡ begun start }
    {
        Rest {
            head: Head::new(start),
            chain: Chain::new(alloc, start),
        }
    }

    pub(crate) fn len(&self) -> usize
        ensures len { result ≡ length self.now.requests }
        ensures few { result ≤ 1024 }
        ensures history { IsHistory self.now.requests }
    {
        self.head.len() + self.chain.len()
    }

    /// The entry at place `n`.
    pub(crate) fn at(&self, n: usize) -> &Request
        requires { (1 ≤ n) × (n ≤ length self.now.requests) }
        ensures { slice_get self.now.requests (n - 1) ≡ Some result.now }
    {
        let first = self.head.len();
        if n <= first {
            self.head.at(n)
        } else {
            self.chain.at(n - first)
        }
    }

    /// The digest of the entries before these and of the first `n` of these.
    pub(crate) fn digest_at(&self, n: usize) -> [u8; 32]
        requires { n ≤ length self.now.requests }
        ensures { result ≡ digest_from self.now.start (take n self.now.requests) }
    {
        let first = self.head.len();
        if n <= first {
            self.head.digest_at(n)
        } else {
            self.chain.digest_at(n - first)
        }
    }

    /// These entries as a history.
    pub(crate) fn history(&self, alloc: Global) -> Result<History, OutOfMemory>
        ensures { IfOk result (λ h. h ≡ self.now.requests) }
    {
        let mut h = History::new(alloc);
        'entries: for n in 0..self.len() {
            add(alloc, &mut h, self.at(n + 1).copy())?;
        }
        Ok(h)
    }

    /// Whether the stamp of `m` is above those of its client.
    pub(crate) fn is_later(&self, m: &Request) -> bool
        ensures { IsTrue result ↔ IsNext self.now.requests m.now }
    {
        self.chain.is_later(m) && self.head.is_later(m)
    }

    /// The place whose entry equals `m`.
    pub(crate) fn place_of(&self, m: &Request) -> Option<usize>
        ensures place { result ≡ place_in self.now.requests m.now }
        ensures few { IfSome result (λ n. n ≤ 1024) }
    {
        if let Some(place) = self.chain.place_of(m) {
            return Some(self.head.len() + place);
        }
        self.head.place_of(m)
    }

    /// Whether `r` begins with these entries.
    pub(crate) fn is_front_of(&self, r: &Rest) -> bool
        ensures { IsTrue result ↔ (take (length self.now.requests) r.now.requests ≡ self.now.requests) }
    {
        if r.len() < self.len() {
            return false;
        }
        'entries: for k in 0..self.len() {
            if !are_same(self.at(k + 1), r.at(k + 1)) {
                return false;
            }
        }
        true
    }

    /// Adds an entry that may come next.
    pub(crate) fn push(&mut self, alloc: Global, m: Request) -> Result<(), AllocError>
        requires { (length self.old.requests < 1024) × IsNext self.old.requests m }
        ensures ok { OnOk result (self.new ≡ grown self.old m) }
        ensures err { OnErr result (self.new ≡ self.old) }
    {
        self.chain.push(alloc, m)
    }

    /// Keeps the first `n` entries.
    pub(crate) fn cut(&mut self, n: usize)
        requires { n ≤ length self.old.requests }
        ensures { self.new ≡ front n self.old }
    {
        let first = self.head.len();
        if n < first {
            let end = self.head.digest_at(n);
            self.head.cut(n);
            self.chain.restart(end);
        } else {
            self.chain.cut(n - first);
        }
    }

    /// Forgets the first `n` entries.
    pub(crate) fn forget(&mut self, n: usize)
        requires { n ≤ length self.old.requests }
        ensures { self.new ≡ behind n self.old }
    {
        let first = self.head.len();
        if n < first {
            self.head.forget(n);
        } else {
            self.head = self.chain.take_front(n - first);
        }
    }

    /// Equal entries.
    pub(crate) fn copy(&self, alloc: Global) -> Result<Rest, OutOfMemory>
        ensures { IfOk result (λ r. r ≡ self.now) }
    {
        let head = self.head.copy()?;
        let chain = self.chain.copy(alloc)?;
        Ok(Rest { head, chain })
    }
}
