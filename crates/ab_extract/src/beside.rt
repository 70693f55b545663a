//! Which ABORTs the instances of a kind have: where replicas keep certificates of answers, those with one that fits their log, or with none.

ghost use Rattle.std.specs.Prelude.{◌≡◌, ◌==◌, ◌≤◌, ◌<◌, not, nat_lt, map, length, IfSome, IsNone};
ghost use Rattle.std.specs.List.{list_all};
ghost use Rattle.ab_abs.specs.Certificates.{are_apart, is_beside, is_quorum};
ghost use Rattle.ab_abs.specs.Kinds.{is_zcert};
ghost use Rattle.ab_abs.specs.Observations.{has_front};
ghost use Rattle.ab_extract.specs.Certs.{are_quorum, first_bad, is_fit};

use ab_hist::History;
use ab_msg::{Content, Sig, Signed, Zcert};
use ab_num::Kind;
use arrayvec::ArrayVec;

/// How many signers are looked at. No certificate of answers needs more.
pub(crate) const MOST: usize = 7;

/// Whether replicas keep certificates of answers in instances of this kind.
pub(crate) fn keeps_answers(kind: Kind) -> bool
    ensures { result ≡ is_zcert kind }
{
    match kind {
        Kind::Quorum | Kind::ZLight | Kind::Chain | Kind::Backup => false,
        Kind::ZCert => true,
    }
}

/// Whether `r` is none of these.
fn is_apart_from(by: &[u8], r: u8) -> bool
    ensures { result ≡ list_all (λ s. not (r == s)) by.now }
{
    by.iter().all(|s| r != *s)
}

/// Whether none of these is there twice.
fn are_apart(by: &[u8]) -> bool
    ensures { result ≡ are_apart by.now }
{
    for k in 0..by.len() {
        if !is_apart_from(&by[k + 1..], by[k]) {
            return false;
        }
    }
    true
}

/// Whether each of these is one of so many replicas.
fn are_members(by: &[u8], replicas: u8) -> bool
    ensures { result ≡ list_all (λ r. nat_lt r replicas) by.now }
{
    by.iter().all(|r| *r < replicas)
}

/// Whether these are 2f + 1 different replicas of the cluster.
pub(crate) fn are_quorum(by: &[u8], f: u8) -> bool
    requires { f ≤ 2 }
    ensures { result ≡ are_quorum f by.now }
{
    by.len() == usize::from(2 * f + 1) && are_apart(by) && are_members(by, 3 * f + 1)
}

/// Who signed. None if they are over seven.
fn signers_of(sigs: &[(u8, Sig)]) -> Option<ArrayVec<u8, 7>>
    ensures some { IfSome result (λ by. by.items ≡ map (λ s. s.0) sigs.now) }
    ensures none { IsNone result → 7 < length sigs.now }
{
    let mut by = ArrayVec::new();
    for sig in sigs {
        if by.len() == MOST {
            return None;
        }
        by.push(sig.0);
    }
    Some(by)
}

/// Whether the answers in it are those of 2f + 1 different replicas.
fn is_quorum(zcert: &Zcert, f: u8) -> bool
    requires { f ≤ 2 }
    ensures { result ≡ is_quorum f zcert.now }
{
    match signers_of(zcert.sigs.as_slice()) {
        Some(by) => are_quorum(by.as_slice(), f),
        None => false,
    }
}

/// Whether the log has so many entries, and those this digest.
fn has_front(log: &History, n: u16, d: &[u8; 32]) -> bool
    ensures { result ≡ has_front log.now n d.now }
{
    let n = usize::from(n);
    n <= log.len() && log.digest_at(n) == *d
}

/// Whether it may be held beside this log.
fn is_beside(log: &History, zcert: &Option<Zcert>, f: u8) -> bool
    requires { f ≤ 2 }
    ensures { result ≡ is_beside f log.now zcert.now }
{
    match zcert {
        Some(zcert) => has_front(log, zcert.n, &zcert.d) && is_quorum(zcert, f),
        None => true,
    }
}

/// Whether instances of the kind have such ABORTs.
fn is_fit(content: &Content, kind: Kind, f: u8) -> bool
    requires { f ≤ 2 }
    ensures { result ≡ is_fit (is_zcert kind) f content.now }
{
    let keeps = keeps_answers(kind);
    match content {
        Content::Abort { .. } => !keeps,
        Content::AbortZ { history, zcert, .. } => keeps && is_beside(history, zcert, f),
        _ => false,
    }
}

/// The first signer whose ABORT isn't as instances of the kind have it.
pub(crate) fn bad(aborts: &[Signed], kind: Kind, f: u8) -> Option<u8>
    requires { f ≤ 2 }
    ensures { result ≡ first_bad kind f aborts.now }
{
    for abort in aborts {
        if !is_fit(&abort.content, kind, f) {
            return Some(abort.maker);
        }
    }
    None
}
