//! What is seen of a replica that enters with a history, or accepts one.

ghost use Rattle.std.specs.Prelude.{◌≡◌, ◌-◌, ◌≤◌, ◌∷◌, IfOk, drop, length, reverse, take};
ghost use Rattle.std.specs.Option.{option_map};
ghost use Rattle.ab_num.specs.declared.party.Party.TheVariants.{Replica};
ghost use Rattle.ab_hist.specs.Digests.{digest_of};
ghost use Rattle.ab_hist.specs.Trimmed.{trim};
ghost use Rattle.ab_abs.specs.declared.seen.Seen.TheVariants.{Init, Cert, TrimmedInit, TrimmedCert};
ghost use Rattle.ab_abs.specs.Observations.{cert_seen, init_seen};
ghost use Rattle.ab_run.specs.Replicas.{accepted_marks, new_first, same_first};

use crate::rest::rest_of;
use ab_abs::{Marks, Protocol, Seen};
use ab_extract::is_same;
use ab_hist::History;
use ab_num::{OutOfMemory, Party};
use ab_svc::Service;
use std::alloc::Global;

/// Whether the old one is there and equal.
fn is_old(old: Option<&History>, h: &History) -> bool
    ensures { result ≡ same_first (option_map (λ g. g.now) old.entry) h.now }
{
    match old {
        Some(g) => is_same(g, h),
        None => false,
    }
}

/// The history that is newly accepted in slot 0, if it isn't the base.
fn newly<'a>(old: Option<&History>, new: Option<&'a History>, base: &History) -> Option<&'a History>
    ensures { option_map (λ h. h.now) result ≡ new_first (option_map (λ g. g.now) old.entry) (option_map (λ h. h.now) new.entry) base.now }
{
    let h = new?;
    if is_old(old, h) || is_same(h, base) {
        None
    } else {
        Some(h)
    }
}

/// This is seen before the rest.
fn put_first(taken: Seen, begun: Seen, more: Marks) -> Marks
    requires few { length more.items ≤ 2 }
    ensures { result.items ≡ taken ∷ begun ∷ more.items }
{
    let mut marks = more;
    marks.insert(0, begun);
    marks.insert(0, taken);
    marks
}

/// Replica `me` took the history `h` of a certificate of the instance before `i`, and begins `i`
/// with it. More is seen after that.
fn whole_marks(alloc: Global, i: u32, me: u8, h: History, more: Marks) -> Result<Marks, OutOfMemory>
    requires instance { 1 ≤ i }
    requires few { length more.items ≤ 2 }
    ensures { IfOk result (λ marks. marks.items ≡ Cert (i - 1) (Replica me) h ∷ Init i me h ∷ more.items) }
{
    let cert = Seen::Cert {
        i: i - 1,
        p: Party::Replica(me),
        h: h.copy(alloc)?,
    };
    Ok(put_first(cert, Seen::Init { i, r: me, h }, more))
}

/// The same of an offered list that has forgotten its first `start` entries.
fn trimmed_marks(
    alloc: Global,
    i: u32,
    me: u8,
    start: usize,
    h: &History,
    more: Marks,
) -> Result<Marks, OutOfMemory>
    requires instance { 1 ≤ i }
    requires within { start ≤ length h.now }
    requires few { length more.items ≤ 2 }
    ensures { IfOk result (λ marks. marks.items ≡ TrimmedCert (i - 1) (Replica me) start (digest_of (take start h.now)) (drop start h.now) ∷ TrimmedInit i me start (digest_of (take start h.now)) (drop start h.now) ∷ more.items) }
{
    let within = start <= h.len();
    prove!(within);
    let digest = h.digest_at(start);
    let rest = rest_of(alloc, h, start)?;
    let cert = Seen::TrimmedCert {
        i: i - 1,
        p: Party::Replica(me),
        start: start as u16,
        digest,
        rest: rest.copy(alloc)?,
    };
    let init = Seen::TrimmedInit {
        i,
        r: me,
        start: start as u16,
        digest,
        rest,
    };
    Ok(put_first(cert, init, more))
}

/// Replica `me` took a list of a certificate of the instance before `i`, and begins `i` with the history `h` for which it stands; the
/// list has forgotten its first `start` entries. More is seen after that.
pub(crate) fn init_marks(
    alloc: Global,
    i: u32,
    me: u8,
    start: usize,
    h: History,
    more: Marks,
) -> Result<Marks, OutOfMemory>
    requires instance { 1 ≤ i }
    requires within { start ≤ length h }
    requires few { length more.items ≤ 2 }
    ensures { IfOk result (λ marks. marks.items ≡ cert_seen (i - 1) (Replica me) (trim start h) ∷ init_seen i me (trim start h) ∷ more.items) }
{
    if start == 0 {
        whole_marks(alloc, i, me, h, more)
    } else {
        trimmed_marks(alloc, i, me, start, &h, more)
    }
}

/// What is seen of replica `me` that newly accepts this history in slot 0 of instance `i`.
fn accepted_marks(alloc: Global, i: u32, me: u8, h: Option<&History>) -> Result<Marks, OutOfMemory>
    requires { 1 ≤ i }
    ensures marks { IfOk result (λ marks. marks.items ≡ reverse (accepted_marks i me (option_map (λ h. h.now) h.entry))) }
    ensures few { IfOk result (λ marks. length marks.items ≤ 2) }
{
    match h {
        Some(h) => {
            let h = h.copy(alloc)?;
            whole_marks(alloc, i, me, h, Marks::new_in(alloc))
        }
        None => Ok(Marks::new_in(alloc)),
    }
}

/// What is seen of replica `me` in instance `i`, which it entered with this base, as its value goes
/// from `old` to `new`.
pub(crate) fn marks_between<S: Service, P: Protocol<S>>(
    alloc: Global,
    i: u32,
    me: u8,
    old: &P,
    new: &P,
    base: &History,
) -> Result<Marks, OutOfMemory>
    requires { 1 ≤ i }
    ensures marks { IfOk result (λ marks. marks.items ≡ reverse (accepted_marks i me (new_first (P.proto.state old.now).first (P.proto.state new.now).first base.now))) }
    ensures few { IfOk result (λ marks. length marks.items ≤ 2) }
{
    let first = newly(old.first(), new.first(), base);
    accepted_marks(alloc, i, me, first)
}
