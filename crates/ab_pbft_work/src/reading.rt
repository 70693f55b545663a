//! What a message tells a replica of PBFT.

ghost use Rattle.std.specs.Prelude.{◌≡◌, ℕ, All, IfOk};
ghost use Rattle.ab_msg.specs.declared.message.Offer.TheVariants as offers;
ghost use Rattle.ab_msg.specs.Certs.{IsProof, IsSigned};
ghost use Rattle.ab_msg.specs.Contents.{IsStopContent, IsReq};
ghost use Rattle.ab_msg.specs.Messages.{IsOffer};
ghost use Rattle.ab_content.specs.Views.{content as shown};
ghost use Rattle.ab_wire.specs.Views.{IsReceived, aborts, message, offered, proof as shown_proof, proofs as shown_proofs};
ghost use Rattle.ab_order.specs.Readings.{change_of, read_base, read_change, read_commit, read_message, read_new_view, read_offer, read_pre_prepare, read_prepare, read_request};
ghost use Rattle.ab_slots.specs.Inputs.{input_of};

use crate::certificate::base_offered;
use crate::change::{change_of, changes_of, is_ours};
use ab_check::copy_of;
use ab_form::ListRef;
use ab_num::{Cluster, OutOfMemory, Party};
use ab_slots::Reading;
use ab_wire::{ContentRef, MsgRef, OfferRef, ProofRef, SignedRef};
use std::alloc::Global;

/// The request that a client asks for in instance `i`.
fn read_request(i: u32, content: &ContentRef<'_>) -> Reading
    requires { IsReq (shown content.now) }
    ensures { input_of result ≡ read_request i (shown content.now) }
{
    match content {
        ContentRef::Req {
            maker: Party::Client(client),
            instance,
            request,
        } => {
            if *instance == i && *client == request.client {
                Reading::Request(request.own())
            } else {
                Reading::Other
            }
        }
        _ => Reading::Other,
    }
}

/// Where a primary offers something: in a slot of a view, under a digest.
#[derive(Clone, Copy)]
struct SlotPlace {
    by: u8,
    view: u32,
    slot: u8,
    x: [u8; 32],
}

/// The base that a primary offers.
fn read_base<'a>(
    alloc: Global,
    c: &Cluster,
    i: u32,
    place: SlotPlace,
    cert: &ListRef<'a, SignedRef<'a>>,
) -> Result<Reading, OutOfMemory>
    requires { All (IsSigned IsStopContent) (aborts cert.now) }
    ensures { IfOk result (λ e. input_of e ≡ read_offer c.now i place.by place.view place.slot place.x (offers.Base (aborts cert.now))) }
{
    let SlotPlace { by, view, slot, x } = place;
    if slot != 0 {
        return Ok(Reading::Other);
    }
    match base_offered(alloc, c, i, cert)? {
        Some(base) => Ok(Reading::PrePrepareBase { by, view, x, base }),
        None => Ok(Reading::Other),
    }
}

/// What a primary offers.
fn read_offer(
    alloc: Global,
    c: &Cluster,
    i: u32,
    place: SlotPlace,
    offer: &OfferRef<'_>,
) -> Result<Reading, OutOfMemory>
    requires { (slot : ℕ) × IsOffer slot (offered offer.now) }
    ensures { IfOk result (λ e. input_of e ≡ read_offer c.now i place.by place.view place.slot place.x (offered offer.now)) }
{
    let SlotPlace { by, view, slot, x } = place;
    match offer {
        OfferRef::Base(cert) => read_base(alloc, c, i, place, cert),
        OfferRef::Request { request, .. } => {
            if slot == 0 {
                return Ok(Reading::Other);
            }
            Ok(Reading::PrePrepare {
                by,
                view,
                slot,
                x,
                request: request.own(),
            })
        }
    }
}

/// What a PRE-PREPARE tells.
fn read_pre_prepare(
    alloc: Global,
    c: &Cluster,
    i: u32,
    content: &ContentRef<'_>,
    offer: &OfferRef<'_>,
) -> Result<Reading, OutOfMemory>
    requires { (slot : ℕ) × IsOffer slot (offered offer.now) }
    ensures { IfOk result (λ e. input_of e ≡ read_pre_prepare c.now i (shown content.now) (offered offer.now)) }
{
    match content {
        ContentRef::PrePrepare {
            maker: Party::Replica(by),
            instance,
            view,
            slot,
            x,
        } => {
            if !is_ours(c, i, *instance, *by) {
                return Ok(Reading::Other);
            }
            let place = SlotPlace {
                by: *by,
                view: *view,
                slot: *slot,
                x: **x,
            };
            read_offer(alloc, c, i, place, offer)
        }
        _ => Ok(Reading::Other),
    }
}

/// What a PREPARE tells.
fn read_prepare(c: &Cluster, i: u32, content: &ContentRef<'_>) -> Reading
    ensures { input_of result ≡ read_prepare c.now.f i (shown content.now) }
{
    match content {
        ContentRef::Prepare {
            maker: Party::Replica(by),
            instance,
            view,
            slot,
            x,
        } => {
            if is_ours(c, i, *instance, *by) {
                Reading::Prepare {
                    by: *by,
                    view: *view,
                    slot: *slot,
                    x: **x,
                }
            } else {
                Reading::Other
            }
        }
        _ => Reading::Other,
    }
}

/// What a COMMIT tells.
fn read_commit(c: &Cluster, i: u32, content: &ContentRef<'_>) -> Reading
    ensures { input_of result ≡ read_commit c.now.f i (shown content.now) }
{
    match content {
        ContentRef::Commit {
            maker: Party::Replica(by),
            instance,
            view,
            slot,
            x,
        } => {
            if is_ours(c, i, *instance, *by) {
                Reading::Commit {
                    by: *by,
                    view: *view,
                    slot: *slot,
                    x: **x,
                }
            } else {
                Reading::Other
            }
        }
        _ => Reading::Other,
    }
}

/// What a VIEW-CHANGE tells.
fn read_change<'a>(
    alloc: Global,
    c: &Cluster,
    i: u32,
    proof: &ProofRef<'a>,
) -> Result<Reading, OutOfMemory>
    requires { IsProof (shown_proof proof.now) }
    ensures { IfOk result (λ e. input_of e ≡ read_change (change_of c.now.f i (shown_proof proof.now))) }
{
    match change_of(alloc, c, i, proof)? {
        Some(change) => Ok(Reading::ViewChange(change)),
        None => Ok(Reading::Other),
    }
}

/// What a NEW-VIEW tells.
fn read_new_view<'a>(
    alloc: Global,
    c: &Cluster,
    i: u32,
    content: &ContentRef<'a>,
    proofs: ListRef<'a, ProofRef<'a>>,
) -> Result<Reading, OutOfMemory>
    ensures { IfOk result (λ e. input_of e ≡ read_new_view c.now.f i (shown content.now) (shown_proofs proofs.entry)) }
{
    match content {
        ContentRef::NewView {
            maker: Party::Replica(by),
            instance,
            view,
        } => {
            if !is_ours(c, i, *instance, *by) {
                return Ok(Reading::Other);
            }
            match changes_of(alloc, c, i, proofs)? {
                Some(changes) => Ok(Reading::NewView {
                    by: *by,
                    view: *view,
                    changes,
                }),
                None => Ok(Reading::Other),
            }
        }
        _ => Ok(Reading::Other),
    }
}

/// What a received message tells a replica of the cluster in instance `i`: what is not of that instance, or names a replica
/// outside the cluster, tells nothing. The message is looked at where it stands, and only what it tells is copied.
pub fn read<'a>(alloc: Global, c: &Cluster, i: u32, m: &MsgRef<'a>) -> Result<Reading, OutOfMemory>
    requires { IsReceived m.now }
    ensures { IfOk result (λ e. input_of e ≡ read_message c.now i (message m.now)) }
{
    match m {
        MsgRef::Req { content, .. } => Ok(read_request(i, content)),
        MsgRef::PrePrepare { content, offer, .. } => read_pre_prepare(alloc, c, i, content, offer),
        MsgRef::Prepare { prepare } => Ok(read_prepare(c, i, &prepare.content)),
        MsgRef::Commit { content, .. } => Ok(read_commit(c, i, content)),
        MsgRef::ViewChange { change } => read_change(alloc, c, i, change),
        MsgRef::NewView {
            content,
            changes,
            ..
        } => read_new_view(alloc, c, i, content, copy_of(changes)),
        _ => Ok(Reading::Other),
    }
}
