//! Histories.

ghost use Rattle.std.specs.Prelude.{◌≡◌, ◌+◌, ◌-◌, ◌<◌, ◌≤◌, ◌↔◌, [], ◌∷◌, ◌++◌, length, take, slice_get, IsTrue, IsFalse, Some, OnOk, OnErr, IsErrOf, IfOk, IfSome, IfNone, Contains};
ghost use mathlib.Core.List.{IsPrefix};
ghost use Rattle.ab_hist.specs.Digests.{digest_of};
ghost use Rattle.ab_hist.specs.Histories.{IsHistory, IsNext, CanAdd, CanPush, place_in, can_push as test_push};
ghost use Rattle.ab_hist.specs.Known.{is_latest as test_latest, known_place as place_known, can_push_after as test_push_after};
ghost use Rattle.ab_hist.specs.Chunks.{Chunk, IsChained, begun, grown, entries_of};

use crate::part::Part;
use crate::request::Request;
use ab_num::OutOfMemory;
use std::alloc::{AllocError, Global};
use std::marker::Model;
use thiserror::Error;

/// How many requests a history may hold.
const CAPACITY: usize = 65535;

/// How many of them may stand behind those that are forgotten.
const ROOM: usize = 1024;

/// How many of them a chunk holds.
const CHUNK: usize = 64;

/// Why a request was not added.
#[derive(Clone, Copy, Debug, PartialEq, Eq, Error)]
pub enum PushFault {
    #[error("the history is full")]
    Full,
    #[error("the request's stamp isn't above its client's last")]
    Repeat,
    #[error("out of memory")]
    OutOfMemory,
}

/// A list of requests in which the stamps of each client rise, in chunks of 64. Copies share the chunks; a `push` on a copy
/// copies the last one. No call walks the entries but `is_prefix_of` and `is_equal`, chunk by chunk.
pub struct History {
    parts: Vec<Part>,
    len: usize,
}

impl Drop for History {
    fn drop(self) {
        let History { parts: _, len: _ } = self;
    }
}

impl Model for History {
    ghost use Rattle.std.specs.Prelude.{List};
    ghost use Rattle.ab_hist.specs.declared.request.Request.{Request as Entry};
    ghost use Rattle.ab_hist.specs.Chunks.{entries_of, IsChunked};

    ghost Value = { List Entry };

    ghost view = { λ h. entries_of h.parts.items };

    ghost invariant = { λ h. IsChunked h.parts.items h.len };
}

impl From<AllocError> for PushFault {
    ghost use Rattle.std.specs.Prelude.{◌≡◌};
    ghost use Rattle.ab_hist.specs.declared.history.PushFault.TheVariants.{OutOfMemory as NoMemory};

    ghost from_gives = { λ _ e. e ≡ NoMemory };

    fn from(_refused: AllocError) -> PushFault {
        PushFault::OutOfMemory
    }
}

/// Adds an entry to the last chunk, which has room for it.
fn grow_last(alloc: Global, parts: &mut Vec<Part>, m: Request) -> Result<(), AllocError>
    requires some { 0 < length parts.old.items }
    requires next { (c : Chunk) → slice_get parts.old.items (length parts.old.items - 1) ≡ Some c → (length c.requests < 64) × IsNext c.requests m }
    ensures ok { OnOk result ((c : Chunk) → slice_get parts.old.items (length parts.old.items - 1) ≡ Some c → parts.new.items ≡ take (length parts.old.items - 1) parts.old.items ++ grown c m ∷ []) }
    ensures err { OnErr result (parts.new.items ≡ parts.old.items) }
{
    let last = parts.len() - 1;
    parts[last].push(alloc, m)
}

/// Begins a chunk with an entry.
fn begin_chunk(
    alloc: Global,
    parts: &mut Vec<Part>,
    digest: [u8; 32],
    m: Request,
) -> Result<(), AllocError>
    ensures ok { OnOk result (parts.new.items ≡ parts.old.items ++ grown (begun digest) m ∷ []) }
    ensures err { OnErr result (parts.new.items ≡ parts.old.items) }
{
    parts.reserve(1)?;
    let part = Part::begin(alloc, digest, m)?;
    match parts.push(part) {
        Ok(()) => {}
        Err(_) => unreachable!(),
    }
    Ok(())
}

/// Whether no chunk has room for another entry.
fn are_full(parts: &Vec<Part>) -> bool
    ensures full { IsTrue result → (c : Chunk) → slice_get parts.now.items (length parts.now.items - 1) ≡ Some c → 64 ≤ length c.requests }
    ensures room { IsFalse result → (0 < length parts.now.items) × ((c : Chunk) → slice_get parts.now.items (length parts.now.items - 1) ≡ Some c → length c.requests < 64) }
{
    let count = parts.len();
    count == 0 || parts[count - 1].len() >= CHUNK
}

/// Adds an entry after those with the digest `digest`.
fn add(alloc: Global, parts: &mut Vec<Part>, digest: [u8; 32], m: Request) -> Result<(), AllocError>
    requires chained { IsChained parts.old.items }
    requires digest { digest ≡ digest_of (entries_of parts.old.items) }
    requires next { IsNext (entries_of parts.old.items) m }
    ensures chained { OnOk result (IsChained parts.new.items) }
    ensures ok { OnOk result (entries_of parts.new.items ≡ entries_of parts.old.items ++ m ∷ []) }
    ensures err { OnErr result (parts.new.items ≡ parts.old.items) }
{
    if are_full(parts) {
        begin_chunk(alloc, parts, digest, m)
    } else {
        grow_last(alloc, parts, m)
    }
}

/// Keeps the first `n` entries.
fn keep(parts: &mut Vec<Part>, n: usize)
    requires chained { IsChained parts.old.items }
    requires within { n ≤ length (entries_of parts.old.items) }
    ensures chained { IsChained parts.new.items }
    ensures front { entries_of parts.new.items ≡ take n (entries_of parts.old.items) }
{
    let whole = n / CHUNK;
    let rest = n % CHUNK;
    if whole < parts.len() {
        if rest == 0 {
            parts.truncate(whole);
        } else {
            parts[whole].cut(rest);
            parts.truncate(whole + 1);
        }
    }
}

impl History {
    /// A history without entries.
    pub fn new(alloc: Global) -> History
        ensures { result ≡ [] }
    {
        History {
            parts: Vec::new(alloc),
            len: 0,
        }
    }

    pub fn len(&self) -> usize
        ensures len { result ≡ length self.now }
        ensures few { result ≤ 65535 }
        ensures history { IsHistory self.now }
    {
        self.len
    }

    /// The entry at place `n`.
    pub fn at(&self, n: usize) -> &Request
        requires { (1 ≤ n) × (n ≤ length self.now) }
        ensures { slice_get self.now (n - 1) ≡ Some result.now }
    {
        let part = &self.parts[(n - 1) / CHUNK];
        &part.requests()[(n - 1) % CHUNK]
    }

    /// The digest of the first `n` entries.
    #[tactic(auto, unfolding(crate::specs::Digests::digest_of))]
    pub fn digest_at(&self, n: usize) -> [u8; 32]
        requires { n ≤ length self.now }
        ensures { result ≡ digest_of (take n self.now) }
    {
        if n == 0 {
            return [0; 32];
        }
        let part = &self.parts[(n - 1) / CHUNK];
        part.digest_at((n - 1) % CHUNK + 1)
    }

    /// Whether `m` may come next.
    pub fn can_push(&self, m: &Request) -> bool
        ensures says { IsTrue result ↔ CanPush self.now m.now }
        ensures test { result ≡ test_push self.now m.now }
    {
        self.may_push(m)
    }

    fn may_push(&self, m: &Request) -> bool
        ensures { IsTrue result ↔ CanPush self.now m.now }
    {
        self.len < ROOM && self.is_later(m)
    }

    /// Whether `m` may come next, and has room behind the first `n` entries, which are forgotten.
    pub fn can_push_after(&self, n: usize, m: &Request) -> bool
        ensures says { IsTrue result → CanAdd self.now m.now }
        ensures test { result ≡ test_push_after n self.now m.now }
    {
        self.may_push_after(n, m)
    }

    fn may_push_after(&self, n: usize, m: &Request) -> bool
        ensures { IsTrue result ↔ ((length self.now < n + 1024) × CanAdd self.now m.now) }
    {
        self.has_room(n) && self.is_later(m)
    }

    /// Whether there is room for one more entry, if the first `n` are forgotten.
    fn has_room(&self, n: usize) -> bool
        ensures { IsTrue result ↔ ((length self.now < n + 1024) × (length self.now < 65535)) }
    {
        self.len < CAPACITY && (self.len < ROOM || self.len - ROOM < n)
    }

    /// Whether the stamp of `m` is above the latest one of its client.
    fn is_later(&self, m: &Request) -> bool
        ensures { IsTrue result ↔ IsNext self.now m.now }
    {
        'chunks: for n in (0..self.parts.len()).rev() {
            if let Some(later) = self.parts[n].is_later(m) {
                return later;
            }
        }
        true
    }

    /// The place whose entry equals `m`.
    pub fn place_of(&self, m: &Request) -> Option<usize>
        ensures place { result ≡ place_in self.now m.now }
        ensures found { IfSome result (λ n. (1 ≤ n) × (slice_get self.now (n - 1) ≡ Some m.now)) }
        ensures none { IfNone result (¬ Contains self.now m.now) }
    {
        // One of the last chunks knows a client that goes on, so its new requests are not looked for in all the others.
        if self.is_later(m) {
            return None;
        }
        'chunks: for n in (0..self.parts.len()).rev() {
            let part = &self.parts[n];
            if let Some(place) = part.place_of(m) {
                return Some(n * CHUNK + place);
            }
        }
        None
    }

    /// The place of `m` if it is known: it stands behind the first `n` entries, which are forgotten, or
    /// is the last of its client among them.
    pub fn known_place(&self, n: usize, m: &Request) -> Option<usize>
        ensures place { result ≡ place_known n self.now m.now }
        ensures found { IfSome result (λ x. (1 ≤ x) × (slice_get self.now (x - 1) ≡ Some m.now)) }
    {
        let place = self.place_of(m)?;
        if self.is_latest(n, place, m) {
            Some(place)
        } else {
            None
        }
    }

    /// Whether none of the first `n` entries is of m's client and later than `m`, which stands at a place.
    fn is_latest(&self, n: usize, place: usize, m: &Request) -> bool
        requires { (1 ≤ place) × (slice_get self.now (place - 1) ≡ Some m.now) }
        ensures { result ≡ test_latest n self.now m.now }
    {
        let end = n.min(self.len);
        if end < place {
            return true;
        }
        let whole = end / CHUNK;
        'chunks: for k in (place - 1) / CHUNK..whole {
            if !self.parts[k].is_latest(CHUNK, m) {
                return false;
            }
        }
        whole == self.parts.len() || self.parts[whole].is_latest(end % CHUNK, m)
    }

    /// Whether `h` begins with these entries.
    pub fn is_prefix_of(&self, h: &History) -> bool
        ensures front { IsTrue result ↔ (take (length self.now) h.now ≡ self.now) }
        ensures prefix { IsTrue result ↔ IsPrefix self.now h.now }
    {
        if h.len < self.len {
            return false;
        }
        'chunks: for n in 0..(self.len + CHUNK - 1) / CHUNK {
            if !self.parts[n].is_front_of(&h.parts[n]) {
                return false;
            }
        }
        true
    }

    /// Whether the two have the same entries.
    pub fn is_equal(&self, h: &History) -> bool
        ensures { IsTrue result ↔ (self.now ≡ h.now) }
    {
        self.len == h.len && self.is_prefix_of(h)
    }

    /// Adds an entry.
    pub fn push(&mut self, alloc: Global, m: Request) -> Result<(), PushFault>
        ensures ok { OnOk result (CanAdd self.old m × (self.new ≡ self.old ++ m ∷ [])) }
        ensures full { IsErrOf result PushFault.Full ↔ (65535 ≤ length self.old) }
        ensures repeat { IsErrOf result PushFault.Repeat ↔ ((length self.old < 65535) × (IsNext self.old m → ⊥)) }
        ensures err { OnErr result (self.new ≡ self.old) }
    {
        if self.len >= CAPACITY {
            return Err(PushFault::Full);
        }
        if !self.is_later(&m) {
            return Err(PushFault::Repeat);
        }
        let digest = self.digest_at(self.len);
        add(alloc, &mut self.parts, digest, m)?;
        self.len += 1;
        Ok(())
    }

    /// An equal history.
    pub fn copy(&self, alloc: Global) -> Result<History, OutOfMemory>
        ensures { IfOk result (λ h. h ≡ self.now) }
    {
        let mut parts = Vec::with_capacity(alloc, self.parts.len())?;
        for part in &self.parts {
            parts.push(part.copy()?)?;
        }
        Ok(History {
            parts,
            len: self.len,
        })
    }

    /// Keeps the first `n` entries.
    pub fn cut(&mut self, n: usize)
        requires { n ≤ length self.old }
        ensures { self.new ≡ take n self.old }
    {
        keep(&mut self.parts, n);
        self.len = n;
    }
}
