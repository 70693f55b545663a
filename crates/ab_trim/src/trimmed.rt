//! Lists that have forgotten their first entries.

ghost use Rattle.std.specs.Prelude.{◌≡◌, ◌-◌, ◌<◌, ◌≤◌, ◌↔◌, true, false, replicate, slice_get, IsTrue, Some, IsErrOf, OnOk, OnErr, IfOk};
ghost use Rattle.ab_hist.specs.Trimmed.{end_of, forget, cut, digest_at as digest_of_front, holds as test_point};
ghost use Rattle.ab_trim.specs.Known.{place_by, can_push_by, forget_log};
ghost use Rattle.ab_trim.specs.Logs.{IsFull, follows_by, log_of, begun_log, push_log, cut_log, trim_log, lasts_to, grounded_log, no_lasts as without};

use crate::lasts::{all_lasts, copy_lasts, follows_last, no_lasts, note_all, place_of_last};
use crate::rest::Rest;
use ab_hist::{History, PushFault, Request};
use ab_num::OutOfMemory;
use std::alloc::Global;
use std::marker::Model;

/// How many requests there may be behind those that are forgotten.
const CAPACITY: usize = 1024;

/// How many there may be with those that are forgotten.
const MOST: usize = 65_535;

/// A list of requests in which the stamps of each client rise. Of the first ones only their digest is kept, and the last
/// request of each client among them, with its place. Copies share the others, in chunks of 64. Clients are numbered below 16.
/// No call walks the list but `is_prefix_of`, `is_equal`, and `forget` those that it forgets.
pub struct Trimmed {
    start: usize,
    rest: Rest,
    lasts: Vec<Option<(usize, Request)>>,
}

impl Drop for Trimmed {
    fn drop(self) {
        let Trimmed {
            start: _,
            rest: _,
            lasts: _,
        } = self;
    }
}

impl Model for Trimmed {
    ghost use Rattle.ab_trim.specs.Logs.{TrimmedLog, IsTrimmed, padded};

    ghost Value = { TrimmedLog };

    ghost view = { λ t. record { list = record { start = t.start; digest = t.rest.start; rest = t.rest.requests }; lasts = padded t.lasts.items } };

    ghost invariant = { λ t. IsTrimmed t.start t.rest t.lasts.items };
}

impl Trimmed {
    /// A list that has forgotten nothing and has no entries.
    pub fn new(alloc: Global) -> Trimmed
        ensures { result ≡ begun_log 0 (replicate 32 0) }
    {
        Trimmed::begin(alloc, 0, [0; 32])
    }

    /// A list that has forgotten `start` entries with that digest, and knows none of them. It has no others.
    pub fn begin(alloc: Global, start: usize, digest: [u8; 32]) -> Trimmed
        requires { start ≤ 65535 }
        ensures { result ≡ begun_log start digest }
    {
        Trimmed {
            start,
            rest: Rest::new(alloc, digest),
            lasts: Vec::new(alloc),
        }
    }

    /// How many entries are forgotten.
    pub fn start(&self) -> usize
        ensures start { result ≡ self.now.list.start }
        ensures few { result ≤ 65535 }
    {
        self.start
    }

    /// The digest of those that are forgotten.
    pub fn digest(&self) -> [u8; 32]
        ensures { result ≡ self.now.list.digest }
    {
        self.rest.digest_at(0)
    }

    /// How many entries there are, with those that are forgotten.
    pub fn len(&self) -> usize
        ensures len { result ≡ end_of self.now.list }
        ensures few { result ≤ 65535 }
    {
        self.start + self.rest.len()
    }

    /// The entry at place `n`.
    pub fn at(&self, n: usize) -> &Request
        requires { (self.now.list.start < n) × (n ≤ end_of self.now.list) }
        ensures { slice_get self.now.list.rest (n - self.now.list.start - 1) ≡ Some result.now }
    {
        self.rest.at(n - self.start)
    }

    /// The digest of the first `n` entries.
    pub fn digest_at(&self, n: usize) -> [u8; 32]
        requires { (self.now.list.start ≤ n) × (n ≤ end_of self.now.list) }
        ensures { result ≡ digest_of_front self.now.list n }
    {
        self.rest.digest_at(n - self.start)
    }

    /// The entries that are not forgotten, as a history.
    pub fn rest(&self, alloc: Global) -> Result<History, OutOfMemory>
        ensures { IfOk result (λ h. h ≡ self.now.list.rest) }
    {
        self.rest.history(alloc)
    }

    /// Whether the list shows that its first `n` entries have that digest.
    pub fn holds(&self, n: usize, digest: &[u8; 32]) -> bool
        ensures { result ≡ test_point n digest.now self.now.list }
    {
        self.start <= n && n <= self.len() && self.digest_at(n) == *digest
    }

    /// The place whose entry equals `m`, behind the forgotten entries or as the last of its client among them.
    pub fn place_of(&self, m: &Request) -> Option<usize>
        ensures { result ≡ place_by (log_of self.now) m.now }
    {
        match self.rest.place_of(m) {
            Some(place) => Some(self.start + place),
            None => place_of_last(&self.lasts, m),
        }
    }

    /// Whether `m` may come next.
    pub fn can_push(&self, m: &Request) -> bool
        ensures { result ≡ can_push_by (log_of self.now) m.now }
    {
        !self.is_full() && self.follows(m)
    }

    /// Whether no request can be added.
    fn is_full(&self) -> bool
        ensures { IsTrue result ↔ IsFull self.now.list }
    {
        let count = self.rest.len();
        count >= CAPACITY || self.start + count >= MOST
    }

    /// Whether the stamp of `m` is above those of its client.
    fn follows(&self, m: &Request) -> bool
        ensures { result ≡ follows_by self.now m.now }
    {
        self.rest.is_later(m) && follows_last(&self.lasts, m)
    }

    /// Adds an entry.
    pub fn push(&mut self, alloc: Global, m: Request) -> Result<(), PushFault>
        requires { m.client < 16 }
        ensures ok { OnOk result ((can_push_by (log_of self.old) m ≡ true) × (self.new ≡ push_log self.old m)) }
        ensures full { IsErrOf result PushFault.Full ↔ IsFull self.old.list }
        ensures repeat { IsErrOf result PushFault.Repeat ↔ ((IsFull self.old.list → ⊥) × (follows_by self.old m ≡ false)) }
        ensures err { OnErr result (self.new ≡ self.old) }
    {
        if self.is_full() {
            return Err(PushFault::Full);
        }
        if !self.follows(&m) {
            return Err(PushFault::Repeat);
        }
        if self.lasts.len() > 0 {
            self.rest.push(alloc, m)?;
        } else {
            let lasts = no_lasts(alloc)?;
            self.rest.push(alloc, m)?;
            self.lasts = lasts;
        }
        Ok(())
    }

    /// Keeps the first `n` entries.
    pub fn cut(&mut self, n: usize)
        requires { (self.old.list.start ≤ n) × (n ≤ end_of self.old.list) }
        ensures { self.new ≡ cut_log n self.old }
    {
        self.rest.cut(n - self.start);
    }

    /// Forgets the first `n` entries, but for the last request of each client and its place.
    pub fn forget(&mut self, n: usize)
        requires { (self.old.list.start ≤ n) × (n ≤ end_of self.old.list) }
        ensures value { self.new ≡ trim_log n self.old }
        ensures log { log_of self.new ≡ forget_log n (log_of self.old) }
    {
        let count = n - self.start;
        note_all(&mut self.lasts, &self.rest, self.start, count);
        self.rest.forget(count);
        self.start = n;
    }

    /// An equal list.
    pub fn copy(&self, alloc: Global) -> Result<Trimmed, OutOfMemory>
        ensures { IfOk result (λ t. t ≡ self.now) }
    {
        let rest = self.rest.copy(alloc)?;
        let lasts = copy_lasts(alloc, &self.lasts)?;
        Ok(Trimmed {
            start: self.start,
            rest,
            lasts,
        })
    }

    /// The first `n` entries, without the last requests.
    pub(crate) fn front(&self, alloc: Global, n: usize) -> Result<Trimmed, OutOfMemory>
        requires { (self.now.list.start ≤ n) × (n ≤ end_of self.now.list) }
        ensures { IfOk result (λ t. t ≡ record { list = cut n self.now.list; lasts = without }) }
    {
        let mut rest = self.rest.copy(alloc)?;
        rest.cut(n - self.start);
        let lasts = no_lasts(alloc)?;
        Ok(Trimmed {
            start: self.start,
            rest,
            lasts,
        })
    }

    /// Whether `list` has forgotten the same entries, and goes on as this one as far as it goes.
    pub fn is_prefix_of(&self, list: &Trimmed) -> bool
        ensures { IsTrue result ↔ (cut (end_of self.now.list) list.now.list ≡ self.now.list) }
    {
        self.start == list.start
            && self.digest() == list.digest()
            && self.rest.is_front_of(&list.rest)
    }

    /// Whether the two have forgotten the same entries, and have the same others.
    pub fn is_equal(&self, list: &Trimmed) -> bool
        ensures { IsTrue result ↔ (self.now.list ≡ list.now.list) }
    {
        self.len() == list.len() && self.is_prefix_of(list)
    }

    /// The offered list, which shows where this one begins or whose beginning this one shows, by this one: it forgets as much as
    /// each of the two, and has the last requests of this one. None if neither list shows where the other begins.
    pub fn grounded(&self, alloc: Global, offered: &Trimmed) -> Result<Option<Trimmed>, OutOfMemory>
        ensures { IfOk result (λ b. b ≡ grounded_log self.now offered.now.list) }
    {
        if self.holds(offered.start, &offered.digest()) {
            let known = self.with_lasts(alloc, offered, offered.start)?;
            return Ok(Some(known));
        }
        if offered.start < self.start && offered.holds(self.start, &self.digest()) {
            let known = self.with_lasts(alloc, offered, self.start)?;
            return Ok(Some(known));
        }
        Ok(None)
    }

    /// A list without its first `n` entries, with the last requests of this one as far as there.
    fn with_lasts(&self, alloc: Global, list: &Trimmed, n: usize) -> Result<Trimmed, OutOfMemory>
        requires own { (self.now.list.start ≤ n) × (n ≤ end_of self.now.list) }
        requires other { (list.now.list.start ≤ n) × (n ≤ end_of list.now.list) }
        ensures { IfOk result (λ k. k ≡ record { list = forget n list.now.list; lasts = lasts_to n self.now }) }
    {
        let mut lasts = all_lasts(alloc, &self.lasts)?;
        note_all(&mut lasts, &self.rest, self.start, n - self.start);
        let mut rest = list.rest.copy(alloc)?;
        rest.forget(n - list.start);
        Ok(Trimmed {
            start: n,
            rest,
            lasts,
        })
    }
}
