//! The entries of a chunk of a history.

ghost use Rattle.std.specs.Prelude.{◌≡◌, ◌-◌, ◌<◌, ◌≤◌, ◌↔◌, [], ◌∷◌, ◌++◌, length, take, slice_get, map, IsTrue, Some, OnOk, OnErr, IfOk, IfSome, IfNone, Contains, vec_len};
ghost use Rattle.std.specs.Vec.{vec_capacity};
ghost use Rattle.std.specs.List.{list_all};
ghost use Rattle.ab_hist.specs.Requests.{key_of};
ghost use Rattle.ab_hist.specs.Known.{is_no_later};
ghost use Rattle.ab_hist.specs.Histories.{IsHistory, IsNext, Knows};
ghost use Rattle.ab_hist.specs.Chunks.{begun, grown, front, digest_from};

use crate::digest::link;
use crate::index::Index;
use crate::request::{Request, copy_requests};
use std::alloc::{AllocError, Global};
use std::marker::Model;

/// At most 64 requests, in which the stamps of each client rise, and the digest of the entries before them. A digest is kept
/// for each place, and an index of the entries, so that no call but `copy` and `cut` walks the list.
pub(crate) struct Entries {
    start: [u8; 32],
    requests: Vec<Request>,
    digests: Vec<[u8; 32]>,
    index: Index,
}

// Written out, so that no crate above makes and proves it anew.
impl Drop for Entries {
    fn drop(self) {
        let Entries {
            start: _,
            requests: _,
            digests: _,
            index: _,
        } = self;
    }
}

impl Model for Entries {
    ghost use Rattle.ab_hist.specs.Chunks.{Chunk};
    ghost use Rattle.ab_hist.specs.Kept.{IsKept};

    ghost Value = { Chunk };

    ghost view = { λ h. record { start = h.start; requests = h.requests.items } };

    ghost invariant = { λ h. IsKept h.start h.requests.items h.digests.items h.index };
}

/// Adds an entry where there is room for it.
fn add(requests: &mut Vec<Request>, digests: &mut Vec<[u8; 32]>, m: Request, digest: [u8; 32])
    requires room { (vec_len requests.old < vec_capacity requests.old)
        × (vec_len digests.old < vec_capacity digests.old) }
    ensures requests { requests.new.items ≡ requests.old.items ++ m ∷ [] }
    ensures digests { digests.new.items ≡ digests.old.items ++ digest ∷ [] }
{
    match digests.push(digest) {
        Ok(()) => {}
        Err(_) => unreachable!(),
    }
    match requests.push(m) {
        Ok(()) => {}
        Err(_) => unreachable!(),
    }
}

/// The index of a history.
fn index_of(alloc: Global, requests: &[Request]) -> Result<Index, AllocError>
    requires { IsHistory requests.now }
    ensures { IfOk result (λ index. index ≡ map key_of requests.now) }
{
    let mut index = Index::new(alloc);
    for m in requests {
        index.push(m)?;
    }
    Ok(index)
}

impl Entries {
    /// No entries yet after those with the digest `start`.
    pub(crate) fn new(alloc: Global, start: [u8; 32]) -> Entries
        ensures { result ≡ begun start }
    {
        Entries {
            start,
            requests: Vec::new(alloc),
            digests: Vec::new(alloc),
            index: Index::new(alloc),
        }
    }

    pub(crate) fn len(&self) -> usize
        ensures len { result ≡ length self.now.requests }
    {
        self.requests.len()
    }

    /// The entries, in their order.
    pub(crate) fn requests(&self) -> &[Request]
        ensures { result.now ≡ self.now.requests }
    {
        self.requests.as_slice()
    }

    /// The digest of the entries before these and of the first `n` of these.
    pub(crate) fn digest_at(&self, n: usize) -> [u8; 32]
        requires { n ≤ length self.now.requests }
        ensures { result ≡ digest_from self.now.start (take n self.now.requests) }
    {
        if n == 0 {
            self.start
        } else {
            self.digests[n - 1]
        }
    }

    /// Whether the stamp of `m` is above the latest one of its client, if there is one.
    pub(crate) fn is_later(&self, m: &Request) -> Option<bool>
        ensures some { IfSome result (λ later. Knows self.now.requests m.now.client × (IsTrue later ↔ IsNext self.now.requests m.now)) }
        ensures none { IfNone result (¬ Knows self.now.requests m.now.client) }
    {
        let stamp = self.index.latest(m.client)?;
        Some(stamp < m.stamp)
    }

    /// Whether no entry is of m's client and later than `m`.
    pub(crate) fn is_latest(&self, m: &Request) -> bool
        ensures { result ≡ list_all (is_no_later m.now) self.now.requests }
    {
        match self.index.latest(m.client) {
            Some(stamp) => stamp <= m.stamp,
            None => true,
        }
    }

    /// The place whose entry equals `m`.
    pub(crate) fn place_of(&self, m: &Request) -> Option<usize>
        ensures found { IfSome result (λ n. (1 ≤ n) × (slice_get self.now.requests (n - 1) ≡ Some m.now)) }
        ensures none { IfNone result (¬ Contains self.now.requests m.now) }
    {
        let place = self.index.index_of(m)?;
        if self.requests[place] == *m {
            Some(place + 1)
        } else {
            None
        }
    }

    /// Adds an entry that may come next.
    pub(crate) fn push(&mut self, m: Request) -> Result<(), AllocError>
        requires { (length self.old.requests < 64) × IsNext self.old.requests m }
        ensures ok { OnOk result (self.new ≡ grown self.old m) }
        ensures err { OnErr result (self.new ≡ self.old) }
    {
        let digest = link(&self.digest_at(self.len()), &m);
        self.requests.reserve(1)?;
        self.digests.reserve(1)?;
        self.index.push(&m)?;
        add(&mut self.requests, &mut self.digests, m, digest);
        Ok(())
    }

    /// Equal entries.
    pub(crate) fn copy(&self, alloc: Global) -> Result<Entries, AllocError>
        ensures { IfOk result (λ h. h ≡ self.now) }
    {
        let requests = copy_requests(alloc, &self.requests)?;
        let digests = Vec::from_slice(alloc, &self.digests)?;
        let index = index_of(alloc, &self.requests)?;
        Ok(Entries {
            start: self.start,
            requests,
            digests,
            index,
        })
    }

    /// Keeps the first `n` entries.
    pub(crate) fn cut(&mut self, n: usize)
        requires { n ≤ length self.old.requests }
        ensures { self.new ≡ front n self.old }
    {
        self.requests.truncate(n);
        self.digests.truncate(n);
        self.index.cut(n);
    }
}
