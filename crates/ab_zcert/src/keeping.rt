//! Which certificates of answers a replica takes.

ghost use Rattle.std.specs.Prelude.{◌≡◌, ◌≤◌, ◌+◌, ◌*◌, ◌==◌, ◌&&◌, length, map, not, nat_lt, take};
ghost use Rattle.std.specs.List.{list_all};
ghost use Rattle.ab_abs.specs.Observations.{has_front as test_front};
ghost use Rattle.ab_abs.specs.Certificates.{are_apart as test_apart, is_quorum as test_quorum};
ghost use Rattle.ab_zcert.specs.Rules.{has_asked as test_asked};

use ab_hist::History;
use ab_msg::{Sig, Zcert};

/// Whether a replica has none of the signatures.
fn has_none(r: u8, sigs: &[(u8, Sig)]) -> bool
    ensures { result ≡ list_all (λ s. not (r == s.0)) sigs.now }
{
    sigs.iter().all(|s| r != s.0)
}

/// Whether the signatures are of distinct replicas.
fn are_apart(sigs: &[(u8, Sig)]) -> bool
    ensures { result ≡ test_apart (map (λ s. s.0) sigs.now) }
{
    'sigs: for i in 0..sigs.len() {
        let (_, rest) = sigs.split_at(i + 1);
        if !has_none(sigs[i].0, rest) {
            return false;
        }
    }
    true
}

/// Whether the signatures are of replicas of the cluster.
fn are_within(f: u8, sigs: &[(u8, Sig)]) -> bool
    requires { f ≤ 2 }
    ensures { result ≡ list_all (λ s. nat_lt s.0 (3 * f + 1)) sigs.now }
{
    let replicas = 3 * f + 1;
    sigs.iter().all(|s| s.0 < replicas)
}

/// Whether it is one of 2f + 1 distinct replicas.
pub(crate) fn is_quorum(f: u8, z: &Zcert) -> bool
    requires { f ≤ 2 }
    ensures { result ≡ test_quorum f z.now }
{
    let sigs = z.sigs.as_slice();
    sigs.len() == 2 * usize::from(f) + 1 && are_apart(sigs) && are_within(f, sigs)
}

/// Whether a log has this number and digest.
pub(crate) fn has_front(log: &History, n: u16, d: &[u8; 32]) -> bool
    ensures { result ≡ test_front log.now n d.now }
{
    let n = usize::from(n);
    n <= log.len() && log.digest_at(n) == *d
}

/// Whether a request of a client with this stamp stands in the first `n` entries of a log.
pub(crate) fn has_asked(log: &History, n: u16, client: u16, stamp: u64) -> bool
    requires { n ≤ length log.now }
    ensures { result ≡ test_asked (take n log.now) client stamp }
{
    'entries: for before in 0..usize::from(n) {
        let m = log.at(before + 1);
        if m.client == client && m.stamp == stamp {
            return true;
        }
    }
    false
}
