//! What a certificate in received bytes agrees on if its lists may have forgotten their first entries, and what it brings to a
//! replica whose own log is trimmed.

ghost use Rattle.std.specs.Prelude.{◌≡◌, ◌+◌, ◌*◌, ◌-◌, ◌<◌, ◌≤◌, ◌==◌, ◌&&◌, not, true, false, Some, [], ◌∷◌, ◌++◌, All, length, map, take, drop, IfOk, IfSome, IsNone};
ghost use Rattle.std.specs.List.{list_all};
ghost use Rattle.std.specs.Option.{option_map};
ghost use Rattle.ab_hist.specs.Digests.{digest_of};
ghost use Rattle.ab_hist.specs.Histories.{IsHistory, may_follow};
ghost use Rattle.ab_hist.specs.Trimmed.{end_of, forget, grounded, holds, trim, untrimmed};
ghost use Rattle.ab_msg.specs.declared.content.Content.TheVariants.{TrimmedAbort};
ghost use Rattle.ab_msg.specs.Certs.{IsSigned};
ghost use Rattle.ab_msg.specs.Contents.{IsStopContent};
ghost use Rattle.ab_msg.specs.Fields.{IsSpellable};
ghost use Rattle.ab_content.specs.Views.{content as shown, history, trimmed};
ghost use Rattle.ab_wire.specs.Views.{aborts};
ghost use Rattle.ab_trim.specs.Points.{lists_in};
ghost use Rattle.ab_abs.specs.Certificates.{are_apart};
ghost use Rattle.ab_abs.specs.Observations.{has_front};
ghost use Rattle.ab_stable.specs.AgreedLists.{agreed_list as agreed_by};
ghost use Rattle.ab_stable.specs.Certs.{lists_of};
ghost use Rattle.ab_stable.specs.Offers.{all_stated, are_whole, based_on_list, is_trimmed, list_of, list_stated, makes_checkpoints};
ghost use Rattle.ab_stable.specs.Reading.{are_valid, extended, seen};

use ab_content::TrimmedRef;
use ab_form::{ListRef, Part};
use ab_hist::{History, PushFault, Request};
use ab_num::{Cluster, Kind, OutOfMemory, Party};
use ab_trim::{Trimmed, agreed_list, own_trimmed};
use ab_wire::{ContentRef, SignedRef};
use arrayvec::ArrayVec;
use std::alloc::Global;

/// How many ABORTs are looked at. No certificate that agrees on a list has more.
pub(crate) const MOST: usize = 5;

/// The list that a replica states as it aborts.
#[derive(Clone, Copy, Debug)]
struct StatedRef<'a> {
    by: u8,
    list: TrimmedRef<'a>,
}

/// Whether replicas make CHECKPOINTs, and trim their logs, in instances of this kind.
pub fn makes_checkpoints(kind: Kind) -> bool
    ensures { result ≡ makes_checkpoints kind }
{
    match kind {
        Kind::Quorum | Kind::ZLight | Kind::Chain => true,
        Kind::Backup | Kind::ZCert => false,
    }
}

/// The list once more. It is gone over from its front again.
fn again<'a, P: Part<'a>>(list: &ListRef<'a, P>) -> ListRef<'a, P>
    ensures count { result.count ≡ list.now.count }
    ensures bytes { result.bytes ≡ list.now.bytes }
{
    *list
}

/// Whether it states a trimmed log.
pub fn is_trimmed(content: &ContentRef<'_>) -> bool
    ensures { result ≡ is_trimmed (shown content.now) }
{
    match content {
        ContentRef::TrimmedAbort { .. } => true,
        _ => false,
    }
}

/// Whether each ABORT states a whole log.
pub fn are_whole<'a>(cert: &ListRef<'a, SignedRef<'a>>) -> bool
    ensures { result ≡ are_whole (aborts cert.now) }
{
    'aborts: for abort in again(cert) {
        if is_trimmed(&abort.content) {
            return false;
        }
    }
    true
}

/// A list of instance `i`, if that is `j` and its maker is a replica of the cluster.
fn stated_by<'a>(
    c: &Cluster,
    j: u32,
    maker: Party,
    i: u32,
    list: TrimmedRef<'a>,
) -> Option<StatedRef<'a>>
    ensures { option_map seen result ≡ list_stated c.now j (TrimmedAbort maker i list.entry.start list.entry.digest (history list.entry.rest)) }
{
    match maker {
        Party::Replica(by) if i == j && by < c.replicas() => Some(StatedRef { by, list }),
        _ => None,
    }
}

/// The list that an ABORT of instance `j` states.
fn stated_in<'a>(c: &Cluster, j: u32, content: &ContentRef<'a>) -> Option<StatedRef<'a>>
    requires { IsStopContent (shown content.now) }
    ensures seen { option_map seen result ≡ list_stated c.now j (shown content.now) }
    ensures fits { IfSome result (λ v. IsSpellable (trimmed v.list)) }
{
    match content {
        ContentRef::Abort {
            maker,
            instance,
            history,
        } => {
            let list = TrimmedRef {
                start: 0,
                digest: [0; 32],
                rest: *history,
            };
            stated_by(c, j, *maker, *instance, list)
        }
        ContentRef::TrimmedAbort {
            maker,
            instance,
            start,
            digest,
            rest,
        } => {
            let list = TrimmedRef {
                start: *start,
                digest: *digest,
                rest: *rest,
            };
            stated_by(c, j, *maker, *instance, list)
        }
        _ => None,
    }
}

/// Who states lists. None if some ABORT is no such ABORT, or if they are over five.
fn voters<'a>(c: &Cluster, j: u32, cert: &ListRef<'a, SignedRef<'a>>) -> Option<ArrayVec<u8, 5>>
    ensures some { IfSome result (λ by. option_map (map (λ v. v.by)) (all_stated c.now j (aborts cert.now)) ≡ Some by.items) }
    ensures none { IsNone result → are_valid c.now.f (all_stated c.now j (aborts cert.now)) ≡ false }
{
    let mut by = ArrayVec::new();
    'aborts: for abort in again(cert) {
        let Some(stated) = stated_in(c, j, &abort.content) else {
            return None;
        };
        if by.len() == MOST {
            return None;
        }
        by.push(stated.by);
    }
    Some(by)
}

/// Whether `r` is none of these.
fn is_apart_from(by: &[u8], r: u8) -> bool
    ensures { result ≡ list_all (λ s. not (r == s)) by.now }
{
    by.iter().all(|s| r != *s)
}

/// Whether none of these is there twice.
fn are_apart(by: &[u8]) -> bool
    ensures { result ≡ are_apart by.now }
{
    for k in 0..by.len() {
        if !is_apart_from(&by[k + 1..], by[k]) {
            return false;
        }
    }
    true
}

/// Whether these are 2f + 1 different replicas.
pub(crate) fn are_enough(f: u8, by: &[u8]) -> bool
    requires { f ≤ 2 }
    ensures { result ≡ ((length by.now == (2 * f + 1)) && are_apart by.now) }
{
    by.len() == usize::from(2 * f + 1) && are_apart(by)
}

/// Whether these are the lists of 2f + 1 different replicas. Nothing is allocated.
fn are_valid<'a>(c: &Cluster, j: u32, cert: &ListRef<'a, SignedRef<'a>>) -> bool
    ensures { result ≡ are_valid c.now.f (all_stated c.now j (aborts cert.now)) }
{
    match voters(c, j, cert) {
        Some(by) => are_enough(c.f, by.as_slice()),
        None => false,
    }
}

/// The lists, with entries of their own. None if some ABORT states none.
fn lists_in<'a>(
    alloc: Global,
    c: &Cluster,
    j: u32,
    cert: &ListRef<'a, SignedRef<'a>>,
) -> Result<Option<Vec<Trimmed>>, OutOfMemory>
    ensures { IfOk result (λ o. option_map (λ v. lists_in v.items) o ≡ option_map lists_of (all_stated c.now j (aborts cert.now))) }
{
    let mut lists = Vec::new(alloc);
    'aborts: for abort in again(cert) {
        let Some(stated) = stated_in(c, j, &abort.content) else {
            return Ok(None);
        };
        let list = own_trimmed(alloc, &stated.list)?;
        lists.push(list)?;
    }
    Ok(Some(lists))
}

/// The list on which `q` of these agree, which is over half of them.
pub(crate) fn agreed_in(
    alloc: Global,
    lists: &[Trimmed],
    q: usize,
) -> Result<Option<Trimmed>, OutOfMemory>
    requires some { 1 ≤ q }
    requires half { length lists.now < q + q }
    ensures { IfOk result (λ o. option_map (λ t. t.list) o ≡ agreed_by q (lists_in lists.now)) }
{
    agreed_list(alloc, lists, q)
}

/// The list on which a certificate of instance `j` agrees. None if it isn't valid; then nothing is copied. None too if no point
/// has f + 1 holders.
pub fn list_of<'a>(
    alloc: Global,
    c: &Cluster,
    j: u32,
    cert: &ListRef<'a, SignedRef<'a>>,
) -> Result<Option<Trimmed>, OutOfMemory>
    requires instance { 1 ≤ j }
    requires formed { All (IsSigned IsStopContent) (aborts cert.now) }
    ensures { IfOk result (λ o. option_map (λ t. t.list) o ≡ list_of c.now j (aborts cert.now)) }
{
    if !makes_checkpoints(c.kind(j)) || !are_valid(c, j, cert) {
        return Ok(None);
    }
    match lists_in(alloc, c, j, cert)? {
        Some(lists) => agreed_in(alloc, lists.as_slice(), usize::from(c.f) + 1),
        None => Ok(None),
    }
}

/// Whether the log has `n` entries or more, the first `n` of which have that digest.
fn has_front(log: &History, n: usize, digest: &[u8; 32]) -> bool
    ensures { result ≡ has_front log.now n digest.now }
{
    n <= log.len() && log.digest_at(n) == *digest
}

/// Whether the own log, of which the first `k` entries are trimmed, shows that its first `n` entries have that digest.
fn has_point(own: &History, k: usize, n: usize, digest: &[u8; 32]) -> bool
    requires { k ≤ length own.now }
    ensures { result ≡ holds n digest.now (trim k own.now) }
{
    k <= n && has_front(own, n, digest)
}

/// Where the own log, of which the first `k` entries are trimmed, and the list meet: what the list has behind this place goes on from
/// the log's entries up to there. None if neither shows where the other begins.
fn place_by(own: &History, k: usize, t: &Trimmed) -> Option<usize>
    requires { k ≤ length own.now }
    ensures within { IfSome result (λ n. (t.now.list.start ≤ n) × (n ≤ end_of t.now.list) × (n ≤ length own.now)) }
    ensures known { grounded (trim k own.now) t.now.list ≡ option_map (λ n. forget n t.now.list) result }
{
    let n = t.start();
    if has_point(own, k, n, &t.digest()) {
        return Some(n);
    }
    if n < k && t.holds(k, &own.digest_at(k)) {
        return Some(k);
    }
    None
}

/// Adds an entry, if its stamp rises there.
fn add(alloc: Global, base: &mut History, m: &Request) -> Result<bool, OutOfMemory>
    requires { length base.old < 65535 }
    ensures test { IfOk result (λ rises. rises ≡ list_all (may_follow m.now) base.old) }
    ensures added { IfOk result (λ rises. rises ≡ true → base.new ≡ base.old ++ m.now ∷ []) }
{
    match base.push(alloc, m.copy()) {
        Ok(()) => Ok(true),
        Err(PushFault::Repeat) => Ok(false),
        Err(PushFault::OutOfMemory) => Err(OutOfMemory),
        Err(PushFault::Full) => unreachable!(),
    }
}

/// The first `n` entries of the own log, with what the list has behind place `n`. None if a stamp doesn't rise there.
fn extended(
    alloc: Global,
    own: &History,
    n: usize,
    t: &Trimmed,
) -> Result<Option<History>, OutOfMemory>
    requires own { n ≤ length own.now }
    requires list { (t.now.list.start ≤ n) × (n ≤ end_of t.now.list) }
    ensures value { IfOk result (λ o. o ≡ extended (take n own.now) (drop (n - t.now.list.start) t.now.list.rest)) }
    ensures front { IfOk result (λ o. IsHistory (take n own.now)) }
{
    let mut base = own.copy(alloc)?;
    base.cut(n);
    // Read for what its contract says: in a history the stamps rise.
    let _few = base.len();
    'entries: for place in n..t.len() {
        if !add(alloc, &mut base, t.at(place + 1))? {
            return Ok(None);
        }
    }
    Ok(Some(base))
}

/// What a list brings to a replica with this log, of which the first `k` entries are trimmed: the history with which the replica enters
/// the next instance, and how many of its first entries are trimmed there. None if neither shows where the other begins, or if
/// a stamp doesn't rise.
pub fn based_on(
    alloc: Global,
    own: &History,
    k: usize,
    t: &Trimmed,
) -> Result<Option<(History, usize)>, OutOfMemory>
    requires { k ≤ length own.now }
    ensures { IfOk result (λ o. option_map (λ b. record { base = b.0; trimmed = b.1 }) o ≡ based_on_list k own.now (Some t.now.list)) }
{
    let Some(n) = place_by(own, k, t) else {
        return Ok(None);
    };
    match extended(alloc, own, n, t)? {
        Some(base) => Ok(Some((base, n))),
        None => Ok(None),
    }
}

/// Whether a whole history begins with what is trimmed: the first `k` entries of the own log.
pub fn shows(own: &History, k: usize, h: &History) -> bool
    requires { k ≤ length own.now }
    ensures { result ≡ holds k (digest_of (take k own.now)) (untrimmed h.now) }
{
    has_front(h, k, &own.digest_at(k))
}
