//! Whether a cluster has the parties that the parts of a message name.

ghost use Rattle.std.specs.Prelude.{◌≡◌, ◌&&◌, flat_map};
ghost use Rattle.std.specs.List.{list_all};
ghost use Rattle.ab_num.specs.declared.party.Party.TheVariants.{Client as ClientParty};
ghost use Rattle.ab_form.specs.Readers.{listed};
ghost use Rattle.ab_keys.specs.Keys.{is_party};
ghost use Rattle.ab_msg.specs.Carried.{parties_of_content};
ghost use Rattle.ab_content.specs.Parts.{any_request_at, signer_at};
ghost use Rattle.ab_content.specs.Views.{content as shown, history, zcert as shown_zcert};
ghost use Rattle.ab_wire.specs.Changes.{prepares_at, proof_at};
ghost use Rattle.ab_wire.specs.Views.{aborts as shown_aborts, offered, proof, values as shown_values};
ghost use Rattle.ab_open.specs.Named.{abort_names, aborts_name, answers_name, change_names, clients_of, kept_names, offer_names, signers_of, values_name};

use ab_check::copy_of;
use ab_content::{ContentRef, HistoryRef, RequestRef, SignerRef, ZcertRef};
use ab_form::ListRef;
use ab_keys::is_party;
use ab_num::{Cluster, Party};
use ab_wire::{OfferRef, PreparesRef, ProofRef, SignedRef, ValuesRef};

pub(crate) fn has_client(k: &Cluster, client: u16) -> bool
    ensures { result ≡ is_party k.now.f k.now.clients (ClientParty client) }
{
    is_party(k, Party::Client(client))
}

fn has_clients<'a>(k: &Cluster, requests: ListRef<'a, RequestRef<'a>>) -> bool
    ensures { result ≡ list_all (is_party k.now.f k.now.clients) (clients_of (listed any_request_at requests.entry.count requests.entry.bytes.now)) }
{
    'requests: for m in requests {
        if !has_client(k, m.client) {
            return false;
        }
    }
    true
}

fn has_history(k: &Cluster, h: &HistoryRef<'_>) -> bool
    ensures { result ≡ list_all (is_party k.now.f k.now.clients) (clients_of (history h.now)) }
{
    has_clients(k, h.entries())
}

/// The parties of a content.
pub(crate) fn has_parties(k: &Cluster, content: &ContentRef<'_>) -> bool
    ensures { result ≡ list_all (is_party k.now.f k.now.clients) (parties_of_content (shown content.now)) }
{
    match content {
        ContentRef::Req { maker, request, .. } => {
            is_party(k, *maker) && has_client(k, request.client)
        }
        ContentRef::Order { maker, request, .. } => {
            is_party(k, *maker) && has_client(k, request.client)
        }
        ContentRef::Resp { maker, client, .. } => is_party(k, *maker) && has_client(k, *client),
        ContentRef::Abort { maker, history, .. } => {
            is_party(k, *maker) && has_history(k, history)
        }
        ContentRef::Panic { maker, .. } => is_party(k, *maker),
        ContentRef::PrePrepare { maker, .. } => is_party(k, *maker),
        ContentRef::Prepare { maker, .. } => is_party(k, *maker),
        ContentRef::Commit { maker, .. } => is_party(k, *maker),
        ContentRef::ViewChange { maker, .. } => is_party(k, *maker),
        ContentRef::NewView { maker, .. } => is_party(k, *maker),
        ContentRef::Checkpoint { maker, .. } => is_party(k, *maker),
        ContentRef::Spec { maker, client, .. } => is_party(k, *maker) && has_client(k, *client),
        ContentRef::LocalCommit { maker, client, .. } => {
            is_party(k, *maker) && has_client(k, *client)
        }
        ContentRef::AbortZ { maker, history, .. } => {
            is_party(k, *maker) && has_history(k, history)
        }
        ContentRef::TrimmedAbort { maker, rest, .. } => {
            is_party(k, *maker) && has_history(k, rest)
        }
    }
}

/// The makers of equal answers to a client, and the client.
fn has_answers<'a>(k: &Cluster, client: u16, by: ListRef<'a, SignerRef<'a>>) -> bool
    ensures { result ≡ list_all (is_party k.now.f k.now.clients) (answers_name client (listed signer_at by.entry.count by.entry.bytes.now)) }
{
    let is_known = has_client(k, client);
    'by: for s in by {
        if !(is_party(k, Party::Replica(s.replica)) && is_known) {
            return false;
        }
    }
    true
}

/// The parties of a certificate of answers.
pub(crate) fn has_zcert<'a>(k: &Cluster, z: &ZcertRef<'a>) -> bool
    ensures { result ≡ list_all (is_party k.now.f k.now.clients) (answers_name (shown_zcert z.now).client (shown_zcert z.now).sigs) }
{
    has_answers(k, z.client, copy_of(&z.sigs))
}

/// The parties of the answers that a content keeps.
fn has_kept(k: &Cluster, content: &ContentRef<'_>) -> bool
    ensures { result ≡ list_all (is_party k.now.f k.now.clients) (kept_names (shown content.now)) }
{
    match content {
        ContentRef::AbortZ { zcert: Some(z), .. } => has_zcert(k, z),
        _ => true,
    }
}

/// The parties of what a replica states as it stops.
pub(crate) fn has_abort(k: &Cluster, content: &ContentRef<'_>) -> bool
    ensures { result ≡ list_all (is_party k.now.f k.now.clients) (abort_names (shown content.now)) }
{
    has_parties(k, content) && has_kept(k, content)
}

pub(crate) fn has_aborts<'a>(k: &Cluster, aborts: ListRef<'a, SignedRef<'a>>) -> bool
    ensures { result ≡ list_all (is_party k.now.f k.now.clients) (aborts_name (shown_aborts aborts.entry)) }
{
    'aborts: for abort in aborts {
        if !has_abort(k, &abort.content) {
            return false;
        }
    }
    true
}

pub(crate) fn has_offer<'a>(k: &Cluster, offer: &OfferRef<'a>) -> bool
    ensures { result ≡ list_all (is_party k.now.f k.now.clients) (offer_names (offered offer.now)) }
{
    match offer {
        OfferRef::Base(aborts) => has_aborts(k, copy_of(aborts)),
        OfferRef::Request { request, .. } => has_client(k, request.client),
    }
}

fn has_signers<'a>(k: &Cluster, by: ListRef<'a, SignerRef<'a>>) -> bool
    ensures { result ≡ list_all (is_party k.now.f k.now.clients) (signers_of (listed signer_at by.entry.count by.entry.bytes.now)) }
{
    'by: for s in by {
        if !is_party(k, Party::Replica(s.replica)) {
            return false;
        }
    }
    true
}

fn has_prepares<'a>(k: &Cluster, prepares: ListRef<'a, PreparesRef<'a>>) -> bool
    ensures { result ≡ list_all (is_party k.now.f k.now.clients) (flat_map signers_of (listed prepares_at prepares.entry.count prepares.entry.bytes.now)) }
{
    'prepares: for slot in prepares {
        if !has_signers(k, slot.by) {
            return false;
        }
    }
    true
}

/// The values of slots: the requests, and the base.
fn has_slots<'a>(k: &Cluster, base: &HistoryRef<'_>, requests: &ListRef<'a, RequestRef<'a>>) -> bool
    ensures { result ≡ (list_all (is_party k.now.f k.now.clients) (clients_of (listed any_request_at requests.now.count requests.now.bytes.now)) && list_all (is_party k.now.f k.now.clients) (clients_of (history base.now))) }
{
    has_clients(k, copy_of(requests)) && has_history(k, base)
}

fn has_values<'a>(k: &Cluster, values: &ValuesRef<'a>) -> bool
    ensures { result ≡ list_all (is_party k.now.f k.now.clients) (values_name (shown_values values.now)) }
{
    match values {
        ValuesRef::Nothing => true,
        ValuesRef::Slots { base, requests } => has_slots(k, &base.rest, requests),
    }
}

pub(crate) fn has_change<'a>(k: &Cluster, v: &ProofRef<'a>) -> bool
    ensures { result ≡ list_all (is_party k.now.f k.now.clients) (change_names (proof v.now)) }
{
    has_parties(k, &v.change.content)
        && has_prepares(k, copy_of(&v.prepares))
        && has_values(k, &v.values)
}

pub(crate) fn has_changes<'a>(k: &Cluster, changes: ListRef<'a, ProofRef<'a>>) -> bool
    ensures { result ≡ list_all (is_party k.now.f k.now.clients) (flat_map change_names (listed proof_at changes.entry.count changes.entry.bytes.now)) }
{
    'changes: for v in changes {
        if !has_change(k, &v) {
            return false;
        }
    }
    true
}
