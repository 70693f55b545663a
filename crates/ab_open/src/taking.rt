//! Which messages a party takes.

ghost use Rattle.std.specs.Prelude.{◌≡◌, ◌&&◌, flat_map};
ghost use Rattle.std.specs.List.{list_all};
ghost use Rattle.ab_keys.specs.Keys.{is_party};
ghost use Rattle.ab_msg.specs.Carried.{goes_along, goes_to, goes_to_client, is_any_client, is_replica, parties_of, parties_of_content};
ghost use Rattle.ab_content.specs.Views.{content as shown, request};
ghost use Rattle.ab_wire.specs.Views.{IsReceived, aborts, message, offered, proofs};
ghost use Rattle.ab_open.specs.Named.{aborts_name, change_names, offer_names};
ghost use Rattle.ab_open.specs.Opening.{takes};

use crate::naming::{
    has_abort, has_aborts, has_change, has_changes, has_client, has_offer, has_parties, has_zcert,
};
use ab_check::copy_of;
use ab_content::{ContentRef, RequestRef};
use ab_form::ListRef;
use ab_num::{Cluster, Party};
use ab_wire::{MsgRef, OfferRef, ProofRef, SignedRef};

/// Whether a content is an answer to this party.
fn is_answer_to(me: Party, given: &ContentRef<'_>) -> bool
    ensures { result ≡ goes_to_client (shown given.now) me }
{
    match (me, given) {
        (Party::Client(c), ContentRef::Resp { client, .. }) => *client == c,
        (Party::Client(c), ContentRef::Spec { client, .. }) => *client == c,
        (Party::Client(c), ContentRef::LocalCommit { client, .. }) => *client == c,
        _ => false,
    }
}

fn is_replica(me: Party) -> bool
    ensures { result ≡ is_replica me }
{
    match me {
        Party::Replica(_) => true,
        Party::Client(_) => false,
    }
}

fn is_client(me: Party) -> bool
    ensures { result ≡ is_any_client me }
{
    match me {
        Party::Replica(_) => false,
        Party::Client(_) => true,
    }
}

/// Whether a CHAIN of this request goes to a party: along the replicas, and then to its client.
fn goes_along(me: Party, m: &RequestRef<'_>) -> bool
    ensures { result ≡ goes_along (request m.now) me }
{
    match me {
        Party::Replica(_) => true,
        Party::Client(c) => m.client == c,
    }
}

/// Whether a message goes to a party.
fn goes_to(me: Party, m: &MsgRef<'_>) -> bool
    ensures { result ≡ goes_to (message m.now) me }
{
    match m {
        MsgRef::Resp { content, .. } => is_answer_to(me, content),
        MsgRef::Chain { request, .. } => goes_along(me, request),
        MsgRef::Abort { .. } => is_client(me),
        MsgRef::Init { .. } => true,
        MsgRef::Req { .. } => is_replica(me),
        MsgRef::Order { .. } => is_replica(me),
        MsgRef::Panic { .. } => is_replica(me),
        MsgRef::PrePrepare { .. } => is_replica(me),
        MsgRef::Prepare { .. } => is_replica(me),
        MsgRef::Commit { .. } => is_replica(me),
        MsgRef::ViewChange { .. } => is_replica(me),
        MsgRef::NewView { .. } => is_replica(me),
        MsgRef::Checkpoint { .. } => is_replica(me),
        MsgRef::LocalCommit { content, .. } => is_answer_to(me, content),
        MsgRef::Spec { spec } => is_answer_to(me, &spec.content),
        MsgRef::Cert { .. } => is_replica(me),
    }
}

/// The parties of a PRE-PREPARE and of what it offers.
fn has_value<'a>(k: &Cluster, content: &ContentRef<'_>, offer: &OfferRef<'a>) -> bool
    ensures { result ≡ (list_all (is_party k.now.f k.now.clients) (parties_of_content (shown content.now)) && list_all (is_party k.now.f k.now.clients) (offer_names (offered offer.now))) }
{
    has_parties(k, content) && has_offer(k, offer)
}

/// The parties of a certificate.
fn has_cert<'a>(k: &Cluster, cert: &ListRef<'a, SignedRef<'a>>) -> bool
    ensures { result ≡ list_all (is_party k.now.f k.now.clients) (aborts_name (aborts cert.now)) }
{
    has_aborts(k, copy_of(cert))
}

/// The parties of a NEW-VIEW and of its view changes.
fn has_new_view<'a>(
    k: &Cluster,
    content: &ContentRef<'_>,
    changes: &ListRef<'a, ProofRef<'a>>,
) -> bool
    ensures { result ≡ (list_all (is_party k.now.f k.now.clients) (parties_of_content (shown content.now)) && list_all (is_party k.now.f k.now.clients) (flat_map change_names (proofs changes.now))) }
{
    has_parties(k, content) && has_changes(k, copy_of(changes))
}

/// Whether a cluster has all whom a message names.
fn has_named<'a>(k: &Cluster, me: Party, m: &MsgRef<'a>) -> bool
    requires { IsReceived m.now }
    ensures { result ≡ list_all (is_party k.now.f k.now.clients) (parties_of k.now.f me (message m.now)) }
{
    match m {
        MsgRef::Req { content, .. } => has_parties(k, content),
        MsgRef::Order { content, .. } => has_parties(k, content),
        MsgRef::Resp { content, .. } => has_parties(k, content),
        MsgRef::Chain { request, .. } => has_client(k, request.client),
        MsgRef::Panic { content, .. } => has_parties(k, content),
        MsgRef::Abort { abort } => has_abort(k, &abort.content),
        MsgRef::Init { cert } => has_cert(k, cert),
        MsgRef::PrePrepare { content, offer, .. } => has_value(k, content, offer),
        MsgRef::Prepare { prepare } => has_parties(k, &prepare.content),
        MsgRef::Commit { content, .. } => has_parties(k, content),
        MsgRef::ViewChange { change } => has_change(k, change),
        MsgRef::NewView {
            content,
            changes,
            ..
        } => has_new_view(k, content, changes),
        MsgRef::Checkpoint { content, .. } => has_parties(k, content),
        MsgRef::LocalCommit { content, .. } => has_parties(k, content),
        MsgRef::Spec { spec } => has_parties(k, &spec.content),
        MsgRef::Cert { zcert, .. } => has_zcert(k, zcert),
    }
}

/// Whether a party of a cluster takes a message.
pub(crate) fn takes(k: &Cluster, me: Party, m: &MsgRef<'_>) -> bool
    requires { IsReceived m.now }
    ensures { result ≡ takes k.now.f k.now.clients me (message m.now) }
{
    goes_to(me, m) && has_named(k, me, m)
}
