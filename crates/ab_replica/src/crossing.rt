//! How a certificate leads a replica to another instance.

ghost use Rattle.std.specs.Prelude.{◌≡◌, ◌+◌, ◌<◌, ◌≤◌, Some, All, IfOk, IfSome, length, slice_get};
ghost use Rattle.std.specs.Option.{option_map};
ghost use Rattle.ab_form.specs.Readers.{listed};
ghost use Rattle.ab_msg.specs.Certs.{IsSigned};
ghost use Rattle.ab_msg.specs.Contents.{IsStopContent};
ghost use Rattle.ab_wire.specs.Views.{IsReceived, aborts, message};
ghost use Rattle.ab_abs.specs.Certificates.{history_of};
ghost use Rattle.ab_stable.specs.Offers.{based_on_list, based_on_whole, offered_by, offered_start};
ghost use Rattle.ab_run.specs.Replicas.{brought, cert_instance};
ghost use Rattle.ab_replica.specs.Crossings.{crossing_by, crossing_in, led_by, may_begin};

use ab_abs::Entry;
use ab_extract::{history_view, own_cert};
use ab_form::{ListRef, Part};
use ab_hist::History;
use ab_num::{Cluster, OutOfMemory};
use ab_stable::{are_whole, based_on, list_of, makes_checkpoints, shows};
use ab_trim::Trimmed;
use ab_wire::{MsgRef, OfferRef, SignedRef};
use std::alloc::Global;

/// The instance that a replica enters, and with what; how many first entries of its base the offered list has forgotten.
#[derive(Drop)]
pub(crate) struct Crossing {
    pub instance: u32,
    pub entry: Entry,
    pub start: usize,
}

/// What a certificate brings to a replica: a base, how many of its first entries are trimmed, and how many the offered list has
/// forgotten.
#[derive(Drop)]
struct Offer {
    base: History,
    trimmed: usize,
    start: usize,
}

/// The first part of a list.
fn first_of<'a, P: Part<'a>>(list: &ListRef<'a, P>) -> Option<P>
    ensures { option_map P.seen result ≡ slice_get (listed P.reader list.now.count list.now.bytes.now) 0 }
{
    let mut front = *list;
    front.next()
}

/// The instance that the first ABORT of a certificate names, 0 where there is none.
fn cert_instance<'a>(cert: &ListRef<'a, SignedRef<'a>>) -> u32
    ensures { result ≡ cert_instance (aborts cert.now) }
{
    match first_of(cert) {
        Some(abort) => abort.content.instance(),
        None => 0,
    }
}

/// Whether a history of which the first `n` entries are trimmed may begin instance `i`.
fn may_begin(c: &Cluster, i: u32, n: usize) -> bool
    requires { 1 ≤ i }
    ensures { result ≡ may_begin c.now i n }
{
    n == 0 || makes_checkpoints(c.kind(i))
}

/// What a certificate of instance `j` that has whole logs alone brings to a replica with this log, of which the first `k` entries
/// are trimmed. What its first log has in common with the own one is not hashed again.
fn whole_offer<'a>(
    alloc: Global,
    c: &Cluster,
    j: u32,
    cert: &ListRef<'a, SignedRef<'a>>,
    own: &History,
    k: usize,
) -> Result<Option<Offer>, OutOfMemory>
    requires instance { 1 ≤ j }
    requires formed { All (IsSigned IsStopContent) (aborts cert.now) }
    requires trimmed { k ≤ length own.now }
    ensures base { IfOk result (λ o. option_map (λ b. record { base = b.base; trimmed = b.trimmed }) o ≡ based_on_whole k own.now (history_of c.now j (aborts cert.now))) }
    ensures start { IfOk result (λ o. IfSome o (λ b. b.start ≡ 0)) }
{
    let Some(base) = history_view(alloc, c, j, cert, Some(own))? else {
        return Ok(None);
    };
    if !shows(own, k, &base) {
        return Ok(None);
    }
    Ok(Some(Offer {
        base,
        trimmed: k,
        start: 0,
    }))
}

/// What a list brings to such a replica.
fn list_offer(
    alloc: Global,
    own: &History,
    k: usize,
    list: &Trimmed,
) -> Result<Option<Offer>, OutOfMemory>
    requires { k ≤ length own.now }
    ensures base { IfOk result (λ o. option_map (λ b. record { base = b.base; trimmed = b.trimmed }) o ≡ based_on_list k own.now (Some list.now.list)) }
    ensures start { IfOk result (λ o. IfSome o (λ b. b.start ≡ list.now.list.start)) }
{
    match based_on(alloc, own, k, list)? {
        Some((base, trimmed)) => Ok(Some(Offer {
            base,
            trimmed,
            start: list.start(),
        })),
        None => Ok(None),
    }
}

/// What any certificate of instance `j` brings to such a replica.
fn offered_by<'a>(
    alloc: Global,
    c: &Cluster,
    j: u32,
    cert: &ListRef<'a, SignedRef<'a>>,
    own: &History,
    k: usize,
) -> Result<Option<Offer>, OutOfMemory>
    requires instance { 1 ≤ j }
    requires formed { All (IsSigned IsStopContent) (aborts cert.now) }
    requires trimmed { k ≤ length own.now }
    ensures base { IfOk result (λ o. option_map (λ b. record { base = b.base; trimmed = b.trimmed }) o ≡ offered_by c.now k own.now j (aborts cert.now)) }
    ensures start { IfOk result (λ o. IfSome o (λ b. b.start ≡ offered_start c.now j (aborts cert.now))) }
{
    if are_whole(cert) {
        return whole_offer(alloc, c, j, cert, own, k);
    }
    match list_of(alloc, c, j, cert)? {
        Some(list) => list_offer(alloc, own, k, &list),
        None => Ok(None),
    }
}

/// Where a certificate of instance `j` leads a replica with this log. One that leads nowhere is not copied.
fn led_by<'a>(
    alloc: Global,
    c: &Cluster,
    j: u32,
    cert: &ListRef<'a, SignedRef<'a>>,
    own: &History,
    k: usize,
) -> Result<Option<Crossing>, OutOfMemory>
    requires instance { (1 ≤ j) × (j < 4294967295) }
    requires formed { All (IsSigned IsStopContent) (aborts cert.now) }
    requires trimmed { k ≤ length own.now }
    ensures { IfOk result (λ o. o ≡ led_by c.now j (aborts cert.now) (offered_by c.now k own.now j (aborts cert.now))) }
{
    // No less is trimmed of what it brings.
    if !may_begin(c, j + 1, k) {
        return Ok(None);
    }
    let Some(offer) = offered_by(alloc, c, j, cert, own, k)? else {
        return Ok(None);
    };
    let Offer {
        base,
        trimmed,
        start,
    } = offer;
    if !may_begin(c, j + 1, trimmed) {
        return Ok(None);
    }
    let aborts = own_cert(alloc, cert, &base)?;
    Ok(Some(Crossing {
        instance: j + 1,
        entry: Entry {
            base,
            trimmed,
            cert: Some(aborts),
        },
        start,
    }))
}

/// Where a certificate leads a replica that is in instance `at`, and has this log. One of an earlier instance leads nowhere, and
/// costs nothing.
fn crossing_by<'a>(
    alloc: Global,
    c: &Cluster,
    at: u32,
    cert: &ListRef<'a, SignedRef<'a>>,
    own: &History,
    k: usize,
) -> Result<Option<Crossing>, OutOfMemory>
    requires instance { 1 ≤ at }
    requires formed { All (IsSigned IsStopContent) (aborts cert.now) }
    requires trimmed { k ≤ length own.now }
    ensures { IfOk result (λ o. o ≡ crossing_by c.now at k own.now (aborts cert.now)) }
{
    let j = cert_instance(cert);
    if j < at || j == u32::MAX {
        return Ok(None);
    }
    led_by(alloc, c, j, cert, own, k)
}

/// Where the certificate that a message brings leads a replica that is in instance `at`, and has this log, of which the first `k`
/// entries are trimmed.
pub(crate) fn crossing_in(
    alloc: Global,
    c: &Cluster,
    at: u32,
    m: &MsgRef<'_>,
    own: &History,
    k: usize,
) -> Result<Option<Crossing>, OutOfMemory>
    requires instance { 1 ≤ at }
    requires received { IsReceived m.now }
    requires trimmed { k ≤ length own.now }
    ensures { IfOk result (λ o. o ≡ crossing_in c.now at k own.now (brought (message m.now))) }
{
    match m {
        MsgRef::Init { cert } => crossing_by(alloc, c, at, cert, own, k),
        MsgRef::PrePrepare {
            offer: OfferRef::Base(cert),
            ..
        } => crossing_by(alloc, c, at, cert, own, k),
        _ => Ok(None),
    }
}
