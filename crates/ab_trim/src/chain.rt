//! Chunks of entries, behind others of which the digest is known.

ghost use Rattle.std.specs.Prelude.{◌≡◌, ℕ, ◌*◌, List, ◌-◌, ◌<◌, ◌≤◌, ◌↔◌, [], ◌∷◌, ◌++◌, length, take, drop, slice_get, IsTrue, IsFalse, Some, OnOk, OnErr, IfOk, IfSome, IfNone, Contains};
ghost use Rattle.ab_hist.specs.Histories.{IsNext};
ghost use Rattle.ab_hist.specs.Chunks.{Chunk, begun, grown, front, entries_of, digest_from};
ghost use Rattle.ab_trim.specs.Chained.{AreFilled, StartFrom};

use crate::head::Head;
use ab_hist::{Part, Request};
use ab_num::OutOfMemory;
use std::alloc::{AllocError, Global};
use std::marker::Model;

/// How many requests a chunk holds.
const CHUNK: usize = 64;

/// At most 1,024 requests in which the stamps of each client rise, in chunks of 64, and the digest of what stands before
/// them. Copies share the chunks.
pub(crate) struct Chain {
    start: [u8; 32],
    parts: Vec<Part>,
    len: usize,
}

impl Drop for Chain {
    fn drop(self) {
        let Chain {
            start: _,
            parts: _,
            len: _,
        } = self;
    }
}

impl Model for Chain {
    ghost use Rattle.ab_hist.specs.Chunks.{Chunk, entries_of};
    ghost use Rattle.ab_trim.specs.Chained.{IsChain};

    ghost Value = { Chunk };

    ghost view = { λ c. record { start = c.start; requests = entries_of c.parts.items } };

    ghost invariant = { λ c. IsChain c.start c.parts.items c.len };
}

/// Adds an entry to the last chunk, which has room for it.
fn grow_last(alloc: Global, parts: &mut Vec<Part>, m: Request) -> Result<(), AllocError>
    requires some { 0 < length parts.old.items }
    requires next { (c : Chunk) → slice_get parts.old.items (length parts.old.items - 1) ≡ Some c → (length c.requests < 64) × IsNext c.requests m }
    ensures ok { OnOk result ((c : Chunk) → slice_get parts.old.items (length parts.old.items - 1) ≡ Some c → parts.new.items ≡ take (length parts.old.items - 1) parts.old.items ++ grown c m ∷ []) }
    ensures err { OnErr result (parts.new.items ≡ parts.old.items) }
{
    let last = parts.len() - 1;
    parts[last].push(alloc, m)
}

/// Begins a chunk with an entry.
fn begin_chunk(
    alloc: Global,
    parts: &mut Vec<Part>,
    digest: [u8; 32],
    m: Request,
) -> Result<(), AllocError>
    ensures ok { OnOk result (parts.new.items ≡ parts.old.items ++ grown (begun digest) m ∷ []) }
    ensures err { OnErr result (parts.new.items ≡ parts.old.items) }
{
    parts.reserve(1)?;
    let part = Part::begin(alloc, digest, m)?;
    match parts.push(part) {
        Ok(()) => {}
        Err(_) => unreachable!(),
    }
    Ok(())
}

/// Whether no chunk has room for another entry.
fn are_full(parts: &Vec<Part>) -> bool
    ensures full { IsTrue result → (c : Chunk) → slice_get parts.now.items (length parts.now.items - 1) ≡ Some c → 64 ≤ length c.requests }
    ensures room { IsFalse result → (0 < length parts.now.items) × ((c : Chunk) → slice_get parts.now.items (length parts.now.items - 1) ≡ Some c → length c.requests < 64) }
{
    let count = parts.len();
    count == 0 || parts[count - 1].len() >= CHUNK
}

/// Adds an entry after those with the digest `digest`.
fn add(alloc: Global, parts: &mut Vec<Part>, digest: [u8; 32], m: Request) -> Result<(), AllocError>
    requires filled { AreFilled parts.old.items }
    requires next { IsNext (entries_of parts.old.items) m }
    ensures filled { OnOk result (AreFilled parts.new.items) }
    ensures starts { OnOk result ((d : List ℕ) → StartFrom d parts.old.items → digest ≡ digest_from d (entries_of parts.old.items) → StartFrom d parts.new.items) }
    ensures ok { OnOk result (entries_of parts.new.items ≡ entries_of parts.old.items ++ m ∷ []) }
    ensures err { OnErr result (parts.new.items ≡ parts.old.items) }
{
    if are_full(parts) {
        begin_chunk(alloc, parts, digest, m)
    } else {
        grow_last(alloc, parts, m)
    }
}

/// Keeps the first `n` entries.
fn keep(parts: &mut Vec<Part>, n: usize)
    requires filled { AreFilled parts.old.items }
    requires within { n ≤ length (entries_of parts.old.items) }
    ensures filled { AreFilled parts.new.items }
    ensures starts { (d : List ℕ) → StartFrom d parts.old.items → StartFrom d parts.new.items }
    ensures front { entries_of parts.new.items ≡ take n (entries_of parts.old.items) }
{
    let whole = n / CHUNK;
    let rest = n % CHUNK;
    if whole < parts.len() {
        if rest == 0 {
            parts.truncate(whole);
        } else {
            parts[whole].cut(rest);
            parts.truncate(whole + 1);
        }
    }
}

/// Lets the first `count` chunks go.
fn drop_front(parts: &mut Vec<Part>, count: usize)
    requires { count ≤ length parts.old.items }
    ensures { parts.new.items ≡ drop count parts.old.items }
{
    let kept = parts.len() - count;
    parts.rotate_left(count);
    parts.truncate(kept);
}

impl Chain {
    /// No entries yet after those with the digest `start`.
    pub(crate) fn new(alloc: Global, start: [u8; 32]) -> Chain
        ensures { result ≡ begun start }
    {
        Chain {
            start,
            parts: Vec::new(alloc),
            len: 0,
        }
    }

    pub(crate) fn len(&self) -> usize
        ensures len { result ≡ length self.now.requests }
        ensures few { result ≤ 1024 }
    {
        self.len
    }

    /// The entry at place `n`.
    pub(crate) fn at(&self, n: usize) -> &Request
        requires { (1 ≤ n) × (n ≤ length self.now.requests) }
        ensures { slice_get self.now.requests (n - 1) ≡ Some result.now }
    {
        let part = &self.parts[(n - 1) / CHUNK];
        &part.requests()[(n - 1) % CHUNK]
    }

    /// The digest of the entries before these and of the first `n` of these.
    pub(crate) fn digest_at(&self, n: usize) -> [u8; 32]
        requires { n ≤ length self.now.requests }
        ensures { result ≡ digest_from self.now.start (take n self.now.requests) }
    {
        if n == 0 {
            return self.start;
        }
        let part = &self.parts[(n - 1) / CHUNK];
        part.digest_at((n - 1) % CHUNK + 1)
    }

    /// Whether the stamp of `m` is above the latest one of its client.
    pub(crate) fn is_later(&self, m: &Request) -> bool
        ensures { IsTrue result ↔ IsNext self.now.requests m.now }
    {
        'chunks: for n in (0..self.parts.len()).rev() {
            if let Some(later) = self.parts[n].is_later(m) {
                return later;
            }
        }
        true
    }

    /// The place whose entry equals `m`.
    pub(crate) fn place_of(&self, m: &Request) -> Option<usize>
        ensures found { IfSome result (λ n. (1 ≤ n) × (slice_get self.now.requests (n - 1) ≡ Some m.now)) }
        ensures none { IfNone result (¬ Contains self.now.requests m.now) }
    {
        'chunks: for n in (0..self.parts.len()).rev() {
            let part = &self.parts[n];
            if let Some(place) = part.place_of(m) {
                return Some(n * CHUNK + place);
            }
        }
        None
    }

    /// Adds an entry that may come next.
    pub(crate) fn push(&mut self, alloc: Global, m: Request) -> Result<(), AllocError>
        requires { (length self.old.requests < 1024) × IsNext self.old.requests m }
        ensures ok { OnOk result (self.new ≡ grown self.old m) }
        ensures err { OnErr result (self.new ≡ self.old) }
    {
        let digest = self.digest_at(self.len);
        add(alloc, &mut self.parts, digest, m)?;
        self.len += 1;
        Ok(())
    }

    /// Keeps the first `n` entries.
    pub(crate) fn cut(&mut self, n: usize)
        requires { n ≤ length self.old.requests }
        ensures { self.new ≡ front n self.old }
    {
        keep(&mut self.parts, n);
        self.len = n;
    }

    /// Lets all entries go, and goes on after those with the digest `start`.
    pub(crate) fn restart(&mut self, start: [u8; 32])
        ensures { self.new ≡ begun start }
    {
        self.start = start;
        self.parts.clear();
        self.len = 0;
    }

    /// Forgets the first `n` entries, and takes off what else stands in the chunk of the last of them.
    pub(crate) fn take_front(&mut self, n: usize) -> Head
        requires { n ≤ length self.old.requests }
        ensures start { result.start ≡ digest_from self.old.start (take n self.old.requests) }
        ensures requests { result.requests ++ self.new.requests ≡ drop n self.old.requests }
        ensures joined { self.new.start ≡ digest_from result.start result.requests }
    {
        let digest = self.digest_at(n);
        let whole = n / CHUNK;
        let rest = n % CHUNK;
        drop_front(&mut self.parts, whole);
        if rest == 0 {
            self.start = digest;
            self.len -= n;
            return Head::new(digest);
        }
        let part = self.parts.remove(0);
        self.start = part.digest_at(part.len());
        self.len -= whole * CHUNK + part.len();
        Head::of(digest, part, rest)
    }

    /// Equal entries.
    pub(crate) fn copy(&self, alloc: Global) -> Result<Chain, OutOfMemory>
        ensures { IfOk result (λ c. c ≡ self.now) }
    {
        let mut parts = Vec::with_capacity(alloc, self.parts.len())?;
        for part in &self.parts {
            parts.push(part.copy()?)?;
        }
        Ok(Chain {
            start: self.start,
            parts,
            len: self.len,
        })
    }
}
