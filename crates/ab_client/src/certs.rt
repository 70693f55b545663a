//! Certificates, as a client keeps and finds them.

ghost use Rattle.std.specs.Prelude.{◌≡◌, ◌<◌, ◌≤◌, All, length, nat_lt, ◌==◌, ◌↔◌, ◌⊎◌, IsTrue, IsNone, IfSome, IfOk, OnOk, OnErr, slice_get};
ghost use Rattle.std.specs.List.{insert, list_all, list_any};
ghost use Rattle.std.specs.Option.{option_map};
ghost use Rattle.ab_form.specs.Readers.{listed};
ghost use Rattle.ab_msg.specs.declared.signed.Signed.{Signed as SignedContent};
ghost use Rattle.ab_msg.specs.Contents.{IsStopContent};
ghost use Rattle.ab_msg.specs.Certs.{IsSigned};
ghost use Rattle.ab_abs.specs.Certificates.{history_of};
ghost use Rattle.ab_content.specs.Views.{content as shown};
ghost use Rattle.ab_wire.specs.Views.{aborts};
ghost use Rattle.ab_run.specs.Replicas.{cert_instance};
ghost use Rattle.ab_run.specs.Clients.{keep};
ghost use Rattle.ab_client.specs.Choices.{is_fit_of};

use ab_extract::{CertFault, certificates_with_histories_are_sound, check, is_fit_view};
use ab_form::{ListRef, Part};
use ab_hist::History;
use ab_msg::{AbortCert, Content, Signed};
use ab_num::{Cluster, Kind, OutOfMemory};
use ab_stable::{is_trimmed, makes_checkpoints};
use ab_wire::{ContentRef, SignedRef};
use std::alloc::Global;

/// The first part of a list.
fn first_of<'a, P: Part<'a>>(list: &ListRef<'a, P>) -> Option<P>
    ensures { option_map P.seen result ≡ slice_get (listed P.reader list.now.count list.now.bytes.now) 0 }
{
    let mut front = *list;
    front.next()
}

/// The instance that the first ABORT of a certificate names, 0 where there is none.
fn cert_instance<'a>(cert: &ListRef<'a, SignedRef<'a>>) -> u32
    ensures { result ≡ cert_instance (aborts cert.now) }
{
    match first_of(cert) {
        Some(abort) => abort.content.instance(),
        None => 0,
    }
}

/// The instance of a certificate. None exactly where it is one before `at` or the last one.
pub(crate) fn timely<'a>(at: u32, cert: &ListRef<'a, SignedRef<'a>>) -> Option<u32>
    requires { 1 ≤ at }
    ensures some { IfSome result (λ j. (j ≡ cert_instance (aborts cert.now)) × (at ≤ j) × (j < 4294967295)) }
    ensures none { IsNone result → (cert_instance (aborts cert.now) < at) ⊎ (4294967295 ≤ cert_instance (aborts cert.now)) }
{
    let j = cert_instance(cert);
    if j < at || j == u32::MAX {
        return None;
    }
    Some(j)
}

/// Whether instances of the kind have such ABORTs. Nothing is allocated.
pub(crate) fn is_fit(content: &ContentRef<'_>, kind: Kind, f: u8) -> bool
    requires { f ≤ 2 }
    ensures { result ≡ is_fit_of kind f (shown content.now) }
{
    is_fit_view(content, kind, f) || (makes_checkpoints(kind) && is_trimmed(content))
}

/// The log that the last of these ABORTs states; of a trimmed one what is not trimmed.
fn last_log(aborts: &[Signed]) -> Option<&History> {
    match &aborts.last()?.content {
        Content::Abort { history, .. } => Some(history),
        Content::AbortZ { history, .. } => Some(history),
        Content::TrimmedAbort { rest, .. } => Some(rest),
        _ => None,
    }
}

/// A log that is known: that of the last ABORT which is kept, or else of the certificate.
pub(crate) fn known_log<'a>(
    kept: &'a [Signed],
    cert: Option<&'a AbortCert>,
) -> Option<&'a History> {
    match last_log(kept) {
        Some(log) => Some(log),
        None => last_log(cert?.as_slice()),
    }
}

/// Whether one of these is of replica `maker`.
pub(crate) fn is_kept(kept: &[Signed], maker: u8) -> bool
    ensures { result ≡ list_any (λ w. w.maker == maker) kept.now }
{
    kept.iter().any(|w| w.maker == maker)
}

/// Whether all are of the first replicas.
fn are_within(aborts: &[Signed], replicas: u8) -> bool
    ensures { result ≡ list_all (λ s. nat_lt s.maker replicas) aborts.now }
{
    aborts.iter().all(|s| s.maker < replicas)
}

/// Whether a certificate was not checked because an allocation failed.
fn is_memory(fault: CertFault) -> bool
    ensures { IsTrue result ↔ (fault ≡ CertFault.OutOfMemory) }
{
    match fault {
        CertFault::OutOfMemory => true,
        CertFault::Count => false,
        CertFault::SameSigner(_) => false,
        CertFault::WrongInstance(_) => false,
        CertFault::BadCert(_) => false,
        CertFault::Unequal => false,
    }
}

/// The history of a certificate of instance `i`. None exactly where it is not valid.
pub(crate) fn history_of(
    alloc: Global,
    cluster: &Cluster,
    i: u32,
    cert: &AbortCert,
) -> Result<Option<History>, OutOfMemory>
    requires instance { 1 ≤ i }
    requires aborts { All (IsSigned IsStopContent) cert.now }
    ensures { IfOk result (λ h. h ≡ history_of cluster.now i cert.now) }
{
    if !are_within(cert.as_slice(), cluster.replicas()) {
        return Ok(None);
    }
    certificates_with_histories_are_sound();
    match check(alloc, cluster, i, cert) {
        Ok(h) => Ok(Some(h)),
        Err(fault) => {
            if is_memory(fault) {
                Err(OutOfMemory)
            } else {
                Ok(None)
            }
        }
    }
}

/// The place of the ABORT of replica `maker` among the kept ones.
pub(crate) fn place_for(kept: &[Signed], maker: u8) -> usize
    ensures within { result ≤ length kept.now }
    ensures place { (v : SignedContent) → v.maker ≡ maker → keep v kept.now ≡ insert kept.now result v }
{
    for (i, w) in kept.iter().enumerate() {
        if maker <= w.maker {
            return i;
        }
    }
    kept.len()
}

/// Keeps an ABORT among those of other replicas.
pub(crate) fn keep(kept: &mut Vec<Signed>, v: Signed) -> Result<(), OutOfMemory>
    ensures ok { OnOk result (kept.new.items ≡ keep v kept.old.items) }
    ensures err { OnErr result (kept.new.items ≡ kept.old.items) }
{
    let place = place_for(kept, v.maker);
    kept.insert(place, v)?;
    Ok(())
}
