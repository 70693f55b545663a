//! The history of a certificate that stands in received bytes.

ghost use Rattle.std.specs.Prelude.{◌≡◌, ◌+◌, ◌*◌, ◌<◌, ◌≤◌, ◌↔◌, ℕ, All, length, map, nat_lt, None, Some, IsSome, IsOk, IfOk, IfErr, IfSome, OnErr, IsErrOf};
ghost use Rattle.std.specs.List.{list_all};
ghost use Rattle.std.specs.Option.{option_map};
ghost use Rattle.ab_num.specs.Places.{kind_of};
ghost use Rattle.ab_msg.specs.Certs.{IsSigned};
ghost use Rattle.ab_msg.specs.Contents.{IsContent, IsStopContent};
ghost use Rattle.ab_content.specs.Views.{content as shown};
ghost use Rattle.ab_wire.specs.Views.{aborts, signed};
ghost use Rattle.ab_abs.specs.Certificates.{history_of};
ghost use Rattle.ab_extract.specs.Causes.{CauseOf, one_log};
ghost use Rattle.ab_extract.specs.Certs.{AreAborts, AreHeld, IsApart, IsFitting, IsFull, IsSound, agreed_history, first_bad, first_foreign, first_repeat};
ghost use Rattle.ab_extract.specs.Heads.{head_of};

use crate::cert::CertFault;
use crate::fitting::bad_view;
use crate::heads::{Head, again, foreign, heads_of, leading, repeated};
use crate::logs::{one_log, tree_of};
use ab_abs::{need, needs_equal};
use ab_form::ListRef;
use ab_hist::History;
use ab_msg::{AbortCert, Sig, Signed};
use ab_num::{Cluster, OutOfMemory};
use ab_wire::SignedRef;
use arrayvec::ArrayVec;
use std::alloc::Global;

/// The heads of as many ABORTs as a certificate of instance `i` needs, all of `i`, by different replicas, and as its kind has them.
fn fitting_heads<'a>(
    c: &Cluster,
    i: u32,
    cert: &ListRef<'a, SignedRef<'a>>,
) -> Result<ArrayVec<Head, 7>, CertFault>
    requires { 1 ≤ i }
    ensures ok { IfOk result (λ heads. IsFitting c.now i (aborts cert.now)) }
    ensures heads { IfOk result (λ heads. heads.items ≡ map head_of (aborts cert.now)) }
    ensures fault { IfErr result (λ e. CauseOf c.now i (aborts cert.now) e) }
{
    let kind = c.kind(i);
    let needed = usize::from(need(kind, c.f));
    let Some(heads) = heads_of(cert) else {
        return Err(CertFault::Count);
    };
    if heads.len() != needed {
        return Err(CertFault::Count);
    }
    if let Some(r) = repeated(heads.as_slice()) {
        return Err(CertFault::SameSigner(r));
    }
    if let Some(j) = foreign(heads.as_slice(), i) {
        return Err(CertFault::WrongInstance(j));
    }
    if let Some(r) = bad_view(cert, kind, c.f) {
        return Err(CertFault::BadCert(r));
    }
    Ok(heads)
}

/// The history of ABORTs that have to state one log. What it has in common with `like` it shares with it.
fn equal_history<'a>(
    alloc: Global,
    cert: &ListRef<'a, SignedRef<'a>>,
    like: Option<&History>,
) -> Result<Option<History>, OutOfMemory>
    ensures ok { IfOk result (λ o. o ≡ one_log (aborts cert.now)) }
    ensures err { OnErr result (IsSome (one_log (aborts cert.now))) }
{
    match one_log(cert) {
        Some(log) => {
            let h = log.own_like(alloc, like)?;
            Ok(Some(h))
        }
        None => Ok(None),
    }
}

/// The history on which `q` of the logs that ABORTs state agree: where certificates of answers are held, from the front on that the
/// leading one has. What the first log has in common with `like` it shares with it.
fn agreed<'a>(
    alloc: Global,
    cert: &ListRef<'a, SignedRef<'a>>,
    heads: &[Head],
    q: usize,
    like: Option<&History>,
) -> Result<History, OutOfMemory>
    requires heads { heads.now ≡ map head_of (aborts cert.now) }
    requires few { length (aborts cert.now) ≤ 7 }
    requires half { length (aborts cert.now) < q + q }
    requires enough { (1 ≤ q) × (q ≤ length (aborts cert.now)) }
    requires held { AreHeld (aborts cert.now) }
    ensures { IfOk result (λ h. h ≡ agreed_history q (aborts cert.now)) }
{
    let tree = tree_of(alloc, cert, like)?;
    match leading(heads) {
        Some(lead) => tree.extension(alloc, q, lead.at, usize::from(lead.n)),
        None => tree.deepest(alloc, q),
    }
}

/// The history of a certificate of instance `i`.
fn history_in<'a>(
    alloc: Global,
    c: &Cluster,
    i: u32,
    cert: &ListRef<'a, SignedRef<'a>>,
    like: Option<&History>,
) -> Result<History, CertFault>
    requires instance { 1 ≤ i }
    requires aborts { AreAborts (3 * c.now.f + 1) (aborts cert.now) }
    ensures ok { IfOk result (λ h. history_of c.now i (aborts cert.now) ≡ Some h) }
    ensures fault { IfErr result (λ e. CauseOf c.now i (aborts cert.now) e) }
{
    let heads = match fitting_heads(c, i, cert) {
        Ok(heads) => heads,
        Err(fault) => return Err(fault),
    };
    if !needs_equal(c.kind(i)) {
        let h = agreed(alloc, cert, heads.as_slice(), usize::from(c.f) + 1, like)?;
        return Ok(h);
    }
    match equal_history(alloc, cert, like)? {
        Some(h) => Ok(h),
        None => Err(CertFault::Unequal),
    }
}

/// The history of a certificate of instance `i`, which is looked at where it stands. Memory is taken only for one that has a
/// history, and then for its histories one after the other.
pub fn check_view<'a>(
    alloc: Global,
    c: &Cluster,
    i: u32,
    cert: &ListRef<'a, SignedRef<'a>>,
) -> Result<History, CertFault>
    requires instance { 1 ≤ i }
    requires aborts { AreAborts (3 * c.now.f + 1) (aborts cert.now) }
    ensures ok { IfOk result (λ h. history_of c.now i (aborts cert.now) ≡ Some h) }
    ensures count { IsErrOf result CertFault.Count ↔ (IsFull c.now i (aborts cert.now) → ⊥) }
    ensures signer { (r : ℕ) → IsErrOf result (CertFault.SameSigner r) ↔ (IsFull c.now i (aborts cert.now) × (first_repeat (aborts cert.now) ≡ Some r)) }
    ensures foreign { (j : ℕ) → IsErrOf result (CertFault.WrongInstance j) ↔ (IsApart c.now i (aborts cert.now) × (first_foreign i (aborts cert.now) ≡ Some j)) }
    ensures bad { (r : ℕ) → IsErrOf result (CertFault.BadCert r) ↔ (IsSound c.now i (aborts cert.now) × (first_bad (kind_of c.now.plan i) c.now.f (aborts cert.now) ≡ Some r)) }
    ensures unequal { IsErrOf result CertFault.Unequal ↔ (IsFitting c.now i (aborts cert.now) × (history_of c.now i (aborts cert.now) ≡ None)) }
    ensures memory { IsErrOf result CertFault.OutOfMemory → IsSome (history_of c.now i (aborts cert.now)) }
{
    history_in(alloc, c, i, cert, None)
}

/// Whether each is signed by one of so many replicas.
fn are_members<'a>(cert: &ListRef<'a, SignedRef<'a>>, replicas: u8) -> bool
    ensures { result ≡ list_all (λ s. nat_lt s.maker replicas) (aborts cert.now) }
{
    'aborts: for abort in again(cert) {
        if abort.maker >= replicas {
            return false;
        }
    }
    true
}

/// An ABORT with parts of its own. Its log shares with `like` what both begin with.
pub fn own_abort(
    alloc: Global,
    abort: SignedRef<'_>,
    like: Option<&History>,
) -> Result<Signed, OutOfMemory>
    requires { IsContent (shown abort.content) }
    ensures { IfOk result (λ s. s ≡ signed abort.entry) }
{
    let content = abort.content.own_like(alloc, like)?;
    let sig = Vec::from_slice(alloc, abort.sig)?;
    let sig = Sig::of(alloc, sig)?;
    Ok(Signed {
        maker: abort.maker,
        content,
        sig,
    })
}

/// A certificate with parts of its own, valid or not. Its logs share with `like` what they begin with.
#[tactic(auto, using(ab_wire::proofs::KindLemmas::abort_content))]
pub fn own_cert<'a>(
    alloc: Global,
    cert: &ListRef<'a, SignedRef<'a>>,
    like: &History,
) -> Result<AbortCert, OutOfMemory>
    ensures { IfOk result (λ own. own ≡ aborts cert.now) }
{
    let mut all = Vec::new(alloc);
    'aborts: for abort in again(cert) {
        let own = own_abort(alloc, abort, Some(like))?;
        all.push(own)?;
    }
    Ok(AbortCert::of(all))
}

/// The history of a certificate of instance `i`. None exactly if it is not valid; then nothing was copied. What its first log has
/// in common with `like` is not hashed again.
pub fn history_view<'a>(
    alloc: Global,
    c: &Cluster,
    i: u32,
    cert: &ListRef<'a, SignedRef<'a>>,
    like: Option<&History>,
) -> Result<Option<History>, OutOfMemory>
    requires instance { 1 ≤ i }
    requires formed { All (IsSigned IsStopContent) (aborts cert.now) }
    ensures { IfOk result (λ o. o ≡ history_of c.now i (aborts cert.now)) }
{
    if !are_members(cert, c.replicas()) {
        return Ok(None);
    }
    match history_in(alloc, c, i, cert, like) {
        Ok(h) => Ok(Some(h)),
        Err(fault) => match fault {
            CertFault::OutOfMemory => Err(OutOfMemory),
            _ => Ok(None),
        },
    }
}

/// The history of a certificate of instance `i`, and a copy of the certificate. None exactly if it is not valid; then nothing was
/// copied. What its first log has in common with `like` is not hashed again.
pub fn take_view<'a>(
    alloc: Global,
    c: &Cluster,
    i: u32,
    cert: &ListRef<'a, SignedRef<'a>>,
    like: Option<&History>,
) -> Result<Option<(History, AbortCert)>, OutOfMemory>
    requires instance { 1 ≤ i }
    requires formed { All (IsSigned IsStopContent) (aborts cert.now) }
    ensures history { IfOk result (λ o. option_map (λ x. x.0) o ≡ history_of c.now i (aborts cert.now)) }
    ensures cert { IfOk result (λ o. IfSome o (λ x. x.1 ≡ aborts cert.now)) }
{
    match history_view(alloc, c, i, cert, like)? {
        Some(h) => {
            let own = own_cert(alloc, cert, &h)?;
            Ok(Some((h, own)))
        }
        None => Ok(None),
    }
}
