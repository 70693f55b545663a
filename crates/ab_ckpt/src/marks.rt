//! The CHECKPOINTs that a replica keeps.

ghost use Rattle.std.specs.Prelude.{◌≡◌, ℕ, ◌<◌, ◌≤◌, ◌↔◌, true, Some, List, length};
ghost use Rattle.ab_ckpt.specs.Marks.{due_of, has_mark, all_have as all_have_mark, is_stable as are_stable, is_front as begins_with, no_marks, keep_mark, stable_of, is_more, is_point};

use ab_hist::History;
use std::marker::Model;

/// The CHECKPOINTs of one instance that are kept, of each replica the one of the most entries, and for how many entries the own last one was
/// sent.
#[derive(Drop)]
pub struct Marks {
    kept: [Option<(u16, [u8; 32])>; 7],
    sent: u16,
}

impl Model for Marks {
    ghost use Rattle.std.specs.Prelude.{◌≡◌, length};
    ghost use Rattle.ab_ckpt.specs.Marks.{KeptMarks, marks_from};

    ghost Value = { KeptMarks };

    ghost view = { λ m. record { marks = marks_from 0 m.kept; sent = m.sent } };

    ghost invariant = { λ m. length m.kept ≡ 7 };
}

/// Whether a CHECKPOINT of `n` entries is of more than the one that is kept.
fn is_later(kept: &Option<(u16, [u8; 32])>, n: u16) -> bool
    ensures { result ≡ is_more n kept.now }
{
    match kept {
        Some(p) => p.0 < n,
        None => true,
    }
}

/// Whether the CHECKPOINT that is kept is of these entries.
fn is_of(kept: &Option<(u16, [u8; 32])>, n: u16, digest: &[u8; 32]) -> bool
    ensures { result ≡ is_point n digest.now kept.now }
{
    match kept {
        Some(p) => p.0 == n && p.1 == *digest,
        None => false,
    }
}

/// Whether the log begins with `n` entries of this digest.
fn is_front(log: &History, n: u16, digest: &[u8; 32]) -> bool
    ensures { result ≡ begins_with log.now n digest.now }
{
    let n = usize::from(n);
    n <= log.len() && log.digest_at(n) == *digest
}

impl Marks {
    /// No CHECKPOINTs: an instance begins.
    pub fn new() -> Marks
        ensures { result ≡ no_marks }
    {
        let kept = [None; 7];
        Marks { kept, sent: 0 }
    }

    /// A CHECKPOINT of replica `by` comes, of the first `n` entries, which have that digest. It takes the place of that replica's if
    /// it is of more entries.
    pub fn keep(&mut self, by: u8, n: u16, digest: [u8; 32])
        requires { by < 7 }
        ensures { self.new ≡ record self.old { marks = keep_mark (record { by = by; n = n; d = digest }) self.old.marks } }
    {
        let place = usize::from(by);
        if is_later(&self.kept[place], n) {
            self.kept[place] = Some((n, digest));
        }
    }

    /// The own CHECKPOINT of `n` entries was sent.
    pub fn sent(&mut self, n: u16)
        ensures { self.new ≡ record self.old { sent = n } }
    {
        self.sent = n;
    }

    /// Of how many entries of the log a CHECKPOINT is due, if each `every` entries are to have one, and so many are trimmed.
    pub fn due(&self, every: u16, stopped: bool, trimmed: usize, log: &History) -> Option<u16>
        ensures { result ≡ due_of every stopped self.now.sent trimmed (length log.now) }
    {
        if every == 0 || stopped {
            return None;
        }
        let every = usize::from(every);
        let n = every * (log.len() / every);
        if n <= trimmed || n <= usize::from(self.sent) {
            None
        } else {
            Some(n as u16)
        }
    }

    /// How many first entries of the log are stable, if these are more than are trimmed.
    pub fn stable(&self, replicas: u8, trimmed: usize, log: &History) -> Option<u16>
        requires { (1 ≤ replicas) × (replicas ≤ 7) }
        ensures value { result ≡ stable_of replicas trimmed log.now self.now.marks }
        ensures exact { (n : ℕ) → (result ≡ Some n ↔ ((d : List ℕ) × (are_stable replicas trimmed log.now n d self.now.marks ≡ true))) }
    {
        match &self.kept[0] {
            Some(p) if self.is_stable(replicas, trimmed, log, p.0, &p.1) => Some(p.0),
            _ => None,
        }
    }

    /// Equal marks.
    pub fn copy(&self) -> Marks
        ensures { result ≡ self.now }
    {
        let kept = self.kept;
        Marks {
            kept,
            sent: self.sent,
        }
    }

    /// Whether these first entries of the log are stable.
    fn is_stable(
        &self,
        replicas: u8,
        trimmed: usize,
        log: &History,
        n: u16,
        digest: &[u8; 32],
    ) -> bool
        requires { replicas ≤ 7 }
        ensures { result ≡ are_stable replicas trimmed log.now n digest.now self.now.marks }
    {
        trimmed < usize::from(n) && is_front(log, n, digest) && self.all_have(replicas, n, digest)
    }

    /// Whether the CHECKPOINT that is kept of each of the first `replicas` replicas is of these entries.
    fn all_have(&self, replicas: u8, n: u16, digest: &[u8; 32]) -> bool
        requires { replicas ≤ 7 }
        ensures { result ≡ all_have_mark n digest.now replicas self.now.marks }
    {
        'replicas: for r in 0..replicas {
            if !self.has(r, n, digest) {
                return false;
            }
        }
        true
    }

    /// Whether the CHECKPOINT that is kept of replica `r` is of these entries.
    fn has(&self, r: u8, n: u16, digest: &[u8; 32]) -> bool
        requires { r < 7 }
        ensures { result ≡ has_mark n digest.now r self.now.marks }
    {
        is_of(&self.kept[usize::from(r)], n, digest)
    }
}
