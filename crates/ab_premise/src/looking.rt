//! What is looked at for collisions of digests.

ghost use Rattle.std.specs.Prelude.{◌≡◌, ◌∷◌, [], IfOk, OnOk, map, flat_map};
ghost use Rattle.std.specs.Option.{option_map};
ghost use Rattle.ab_form.specs.Readers.{listed};
ghost use Rattle.ab_links.specs.Digested.{any_found, history as history_item, keep_items, list as list_item, request as request_item};
ghost use Rattle.ab_msg.specs.Carried.{values_in};
ghost use Rattle.ab_msg.specs.Certs.{AreSlotValues};
ghost use Rattle.ab_msg.specs.Contents.{IsContent};
ghost use Rattle.ab_msg.specs.Fields.{IsSpellable, IsWritten};
ghost use Rattle.ab_content.specs.Parts.{any_request_at};
ghost use Rattle.ab_content.specs.Views.{content as shown, history as entries, trimmed};
ghost use Rattle.ab_wire.specs.Views.{IsReceived, front, message, proofs, values};
ghost use Rattle.ab_check.specs.Listing.{IsClaim, claimed};
ghost use Rattle.ab_premise.specs.Collisions.{content_items, first_items, value_items};

use ab_check::{Checks, ClaimRef, copy_of};
use ab_content::{ContentRef, HistoryRef, RequestRef, TrimmedRef};
use ab_form::ListRef;
use ab_hist::History;
use ab_links::Digests;
use ab_num::OutOfMemory;
use ab_trim::own_trimmed;
use ab_wire::{MsgRef, ProofRef, ValuesRef};
use std::alloc::Global;

/// Looks at a history from its first entry on, and keeps it as the last one. What it has in common with the
/// last one it shares with it, so that only the rest is hashed.
fn look_at_received(
    alloc: Global,
    digests: &mut Digests,
    last: &mut Option<History>,
    history: &HistoryRef<'_>,
) -> Result<bool, OutOfMemory>
    requires { IsWritten (entries history.now) }
    ensures found { IfOk result (λ found. found ≡ any_found digests.old (history_item (entries history.now) 0 ∷ [])) }
    ensures ok { OnOk result (digests.new ≡ keep_items digests.old (history_item (entries history.now) 0 ∷ [])) }
{
    let own = history.own_like(alloc, last.as_ref())?;
    let found = digests.add_history(alloc, &own, 0)?;
    *last = Some(own);
    Ok(found)
}

/// Looks along a list that may have forgotten its first entries.
fn look_at_list(
    alloc: Global,
    digests: &mut Digests,
    list: &TrimmedRef<'_>,
) -> Result<bool, OutOfMemory>
    requires { IsSpellable (trimmed list.now) }
    ensures found { IfOk result (λ found. found ≡ any_found digests.old (list_item (trimmed list.now) ∷ [])) }
    ensures ok { OnOk result (digests.new ≡ keep_items digests.old (list_item (trimmed list.now) ∷ [])) }
{
    let own = own_trimmed(alloc, list)?;
    digests.add_list(&own)
}

/// Looks at the history, the list or the request that a content states.
fn look_at_content(
    alloc: Global,
    digests: &mut Digests,
    last: &mut Option<History>,
    content: &ContentRef<'_>,
) -> Result<bool, OutOfMemory>
    requires { IsContent (shown content.now) }
    ensures found { IfOk result (λ found. found ≡ any_found digests.old (content_items (shown content.now))) }
    ensures ok { OnOk result (digests.new ≡ keep_items digests.old (content_items (shown content.now))) }
{
    match content {
        ContentRef::Abort { history, .. } => look_at_received(alloc, digests, last, history),
        ContentRef::AbortZ { history, .. } => look_at_received(alloc, digests, last, history),
        ContentRef::TrimmedAbort {
            start,
            digest,
            rest,
            ..
        } => {
            let list = TrimmedRef {
                start: *start,
                digest: *digest,
                rest: *rest,
            };
            look_at_list(alloc, digests, &list)
        }
        ContentRef::Req { request, .. } => digests.add_request(&request.own()),
        ContentRef::Order { request, .. } => digests.add_request(&request.own()),
        _ => Ok(false),
    }
}

/// Looks at the history, the list or the request that a claim states.
#[tactic(auto, using(crate::proofs::LookLemmas::said_items))]
fn look_at_claim(
    alloc: Global,
    digests: &mut Digests,
    last: &mut Option<History>,
    claim: &ClaimRef<'_>,
) -> Result<bool, OutOfMemory>
    requires { IsClaim claim.now }
    ensures found { IfOk result (λ found. found ≡ any_found digests.old (content_items (claimed claim.now))) }
    ensures ok { OnOk result (digests.new ≡ keep_items digests.old (content_items (claimed claim.now))) }
{
    match claim {
        ClaimRef::Received { content, .. } => look_at_content(alloc, digests, last, content),
        ClaimRef::Asked { request, .. } => digests.add_request(&request.own()),
        ClaimRef::Said { .. } => Ok(false),
        ClaimRef::Answered { .. } => Ok(false),
        ClaimRef::Prepared { .. } => Ok(false),
    }
}

/// Looks at the histories, lists and requests that are checked.
#[tactic(auto, using(crate::proofs::LookLemmas::keeps_step, crate::proofs::LookLemmas::finds_step))]
pub(crate) fn look_at_claims(
    alloc: Global,
    digests: &mut Digests,
    last: &mut Option<History>,
    checks: Checks<'_>,
) -> Result<bool, OutOfMemory>
    ensures found { IfOk result (λ found. found ≡ any_found digests.old (flat_map (λ c. content_items c.content) checks.entry)) }
    ensures ok { OnOk result (digests.new ≡ keep_items digests.old (flat_map (λ c. content_items c.content) checks.entry)) }
{
    let mut found = false;
    'checks: for check in checks {
        found |= look_at_claim(alloc, digests, last, &check.claim)?;
    }
    Ok(found)
}

/// Looks at requests.
fn look_at_requests<'a>(
    digests: &mut Digests,
    requests: ListRef<'a, RequestRef<'a>>,
) -> Result<bool, OutOfMemory>
    ensures found { IfOk result (λ found. found ≡ any_found digests.old (map request_item (listed any_request_at requests.entry.count requests.entry.bytes.now))) }
    ensures ok { OnOk result (digests.new ≡ keep_items digests.old (map request_item (listed any_request_at requests.entry.count requests.entry.bytes.now))) }
{
    let mut found = false;
    'requests: for request in requests {
        found |= digests.add_request(&request.own())?;
    }
    Ok(found)
}

/// Looks at the values of a view change.
fn look_at_values(
    alloc: Global,
    digests: &mut Digests,
    last: &mut Option<History>,
    given: &ValuesRef<'_>,
) -> Result<bool, OutOfMemory>
    requires { AreSlotValues (front given.now).0 (front given.now).1 (values given.now) }
    ensures found { IfOk result (λ found. found ≡ any_found digests.old (flat_map value_items (values given.now))) }
    ensures ok { OnOk result (digests.new ≡ keep_items digests.old (flat_map value_items (values given.now))) }
{
    match given {
        ValuesRef::Nothing => Ok(false),
        ValuesRef::Slots { base, requests } => {
            let of_base = look_at_received(alloc, digests, last, &base.rest)?;
            let of_requests = look_at_requests(digests, copy_of(requests))?;
            Ok(of_base || of_requests)
        }
    }
}

/// Looks at the values of view changes.
#[tactic(auto, using(crate::proofs::LookLemmas::keeps_step, crate::proofs::LookLemmas::finds_step))]
fn look_at_changes<'a>(
    alloc: Global,
    digests: &mut Digests,
    last: &mut Option<History>,
    changes: ListRef<'a, ProofRef<'a>>,
) -> Result<bool, OutOfMemory>
    ensures found { IfOk result (λ found. found ≡ any_found digests.old (flat_map (flat_map value_items) (map (λ v. v.values) (proofs changes.entry)))) }
    ensures ok { OnOk result (digests.new ≡ keep_items digests.old (flat_map (flat_map value_items) (map (λ v. v.values) (proofs changes.entry)))) }
{
    let mut found = false;
    'changes: for change in changes {
        found |= look_at_values(alloc, digests, last, &change.values)?;
    }
    Ok(found)
}

/// Looks at the values of the view changes in a message.
pub(crate) fn look_at_message(
    alloc: Global,
    digests: &mut Digests,
    last: &mut Option<History>,
    m: &MsgRef<'_>,
) -> Result<bool, OutOfMemory>
    requires { IsReceived m.now }
    ensures found { IfOk result (λ found. found ≡ any_found digests.old (flat_map (flat_map value_items) (values_in (message m.now)))) }
    ensures ok { OnOk result (digests.new ≡ keep_items digests.old (flat_map (flat_map value_items) (values_in (message m.now)))) }
{
    match m {
        MsgRef::ViewChange { change } => look_at_values(alloc, digests, last, &change.values),
        MsgRef::NewView { changes, .. } => look_at_changes(alloc, digests, last, copy_of(changes)),
        _ => Ok(false),
    }
}

/// Looks at a history from its first entry on, if there is one.
pub(crate) fn look_at_one(
    alloc: Global,
    digests: &mut Digests,
    history: Option<&History>,
) -> Result<bool, OutOfMemory>
    ensures found { IfOk result (λ found. found ≡ any_found digests.old (first_items (option_map (λ h. h.now) history.entry))) }
    ensures ok { OnOk result (digests.new ≡ keep_items digests.old (first_items (option_map (λ h. h.now) history.entry))) }
{
    match history {
        Some(history) => digests.add_history(alloc, history, 0),
        None => Ok(false),
    }
}
