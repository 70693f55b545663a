//! What is left of a chunk whose first entries are forgotten.

ghost use Rattle.std.specs.Prelude.{◌≡◌, ◌-◌, ◌<◌, ◌≤◌, ◌↔◌, [], length, take, drop, slice_get, IsTrue, Some, IfOk, IfSome, IfNone, Contains};
ghost use Rattle.ab_hist.specs.Histories.{IsHistory, IsNext};
ghost use Rattle.ab_hist.specs.Chunks.{begun, front, digest_from};
ghost use Rattle.ab_trim.specs.Chained.{IsHidden, behind};

use ab_hist::{Part, Request};
use ab_num::OutOfMemory;
use std::marker::Model;

/// A chunk without its first entries, and the digest of what stands before the others. There may be none.
pub(crate) struct Head {
    digest: [u8; 32],
    part: Option<Part>,
    hidden: usize,
}

impl Drop for Head {
    fn drop(self) {
        let Head {
            digest: _,
            part: _,
            hidden: _,
        } = self;
    }
}

impl Model for Head {
    ghost use Rattle.ab_hist.specs.Chunks.{Chunk};
    ghost use Rattle.ab_trim.specs.Chained.{IsHead, shown};

    ghost Value = { Chunk };

    ghost view = { λ h. record { start = h.digest; requests = shown h.part h.hidden } };

    ghost invariant = { λ h. IsHead h.digest h.part h.hidden };
}

/// Whether `m` may follow an entry.
fn may_follow(m: &Request, e: &Request) -> bool
    ensures { result ≡ Rattle.ab_hist.specs.Histories.may_follow m.now e.now }
{
    e.client != m.client || e.stamp < m.stamp
}

/// Whether `m` may follow all of the entries.
fn follows_all(requests: &[Request], m: &Request) -> bool
    ensures { IsTrue result ↔ IsNext requests.now m.now }
{
    requests.iter().all(|e| may_follow(m, e))
}

/// Whether `m` may follow all entries behind the first `n` of a chunk. They are walked only if it may not follow all of the chunk.
fn follows(part: &Part, n: usize, m: &Request) -> bool
    requires { n ≤ length part.now.requests }
    ensures { IsTrue result ↔ IsNext (drop n part.now.requests) m.now }
{
    match part.is_later(m) {
        Some(false) => follows_all(&part.requests()[n..], m),
        _ => true,
    }
}

/// The place whose entry equals `m`, behind the first `n` of a chunk.
fn place_behind(part: &Part, n: usize, m: &Request) -> Option<usize>
    requires { IsHistory part.now.requests }
    ensures found { IfSome result (λ k. (1 ≤ k) × (slice_get (drop n part.now.requests) (k - 1) ≡ Some m.now)) }
    ensures none { IfNone result (¬ Contains (drop n part.now.requests) m.now) }
{
    let place = part.place_of(m)?;
    if place > n { Some(place - n) } else { None }
}

impl Head {
    /// No entries, after those with the digest `digest`.
    pub(crate) fn new(digest: [u8; 32]) -> Head
        ensures { result ≡ begun digest }
    {
        Head {
            digest,
            part: None,
            hidden: 0,
        }
    }

    /// A chunk without its first `hidden` entries.
    pub(crate) fn of(digest: [u8; 32], part: Part, hidden: usize) -> Head
        requires { IsHidden digest part hidden }
        ensures { result ≡ behind hidden part }
    {
        Head {
            digest,
            part: Some(part),
            hidden,
        }
    }

    pub(crate) fn len(&self) -> usize
        ensures len { result ≡ length self.now.requests }
        ensures few { result ≤ 64 }
    {
        match &self.part {
            Some(part) => part.len() - self.hidden,
            None => 0,
        }
    }

    /// The entry at place `n`.
    pub(crate) fn at(&self, n: usize) -> &Request
        requires { (1 ≤ n) × (n ≤ length self.now.requests) }
        ensures { slice_get self.now.requests (n - 1) ≡ Some result.now }
    {
        match &self.part {
            Some(part) => &part.requests()[self.hidden + (n - 1)],
            None => unreachable!(),
        }
    }

    /// The digest of the entries before these and of the first `n` of these.
    pub(crate) fn digest_at(&self, n: usize) -> [u8; 32]
        requires { n ≤ length self.now.requests }
        ensures { result ≡ digest_from self.now.start (take n self.now.requests) }
    {
        match &self.part {
            Some(part) => part.digest_at(self.hidden + n),
            None => self.digest,
        }
    }

    /// Whether the stamp of `m` is above those of its client.
    pub(crate) fn is_later(&self, m: &Request) -> bool
        ensures { IsTrue result ↔ IsNext self.now.requests m.now }
    {
        match &self.part {
            Some(part) => follows(part, self.hidden, m),
            None => true,
        }
    }

    /// The place whose entry equals `m`.
    pub(crate) fn place_of(&self, m: &Request) -> Option<usize>
        ensures found { IfSome result (λ n. (1 ≤ n) × (slice_get self.now.requests (n - 1) ≡ Some m.now)) }
        ensures none { IfNone result (¬ Contains self.now.requests m.now) }
    {
        match &self.part {
            Some(part) => place_behind(part, self.hidden, m),
            None => None,
        }
    }

    /// Keeps the first `n` entries.
    pub(crate) fn cut(&mut self, n: usize)
        requires { n ≤ length self.old.requests }
        ensures { self.new ≡ front n self.old }
    {
        if let Some(part) = &mut self.part {
            part.cut(self.hidden + n);
        }
    }

    /// Forgets the first `n` entries.
    pub(crate) fn forget(&mut self, n: usize)
        requires { n ≤ length self.old.requests }
        ensures { self.new ≡ behind n self.old }
    {
        self.digest = self.digest_at(n);
        self.hidden += n;
    }

    /// Equal entries.
    pub(crate) fn copy(&self) -> Result<Head, OutOfMemory>
        ensures { IfOk result (λ h. h ≡ self.now) }
    {
        let part = match &self.part {
            Some(part) => Some(part.copy()?),
            None => None,
        };
        Ok(Head {
            digest: self.digest,
            part,
            hidden: self.hidden,
        })
    }
}
