//! What a party checks of a message.

ghost use Rattle.std.specs.Prelude.{◌≡◌, ◌≤◌, ◌<◌, ◌+◌, ◌*◌, ◌++◌, ◌∷◌, [], length, map, IfSome, Some};
ghost use Rattle.std.specs.Option.{option_map};
ghost use Rattle.ab_num.specs.Places.{position_in};
ghost use Rattle.ab_num.specs.declared.party.Party.TheVariants.{Replica};
ghost use Rattle.ab_msg.specs.declared.message.Msg.TheVariants as msg;
ghost use Rattle.ab_msg.specs.Claims.{chain_claims, claims_at, instance_of, ordered, tail_claims};
ghost use Rattle.ab_msg.specs.Certs.{IsProof};
ghost use Rattle.ab_msg.specs.Contents.{IsContent, IsOrder, IsPrePrepare, IsStopContent};
ghost use Rattle.ab_msg.specs.Messages.{IsMessage, IsOffer, slot_in};
ghost use Rattle.ab_content.specs.Views.{content as shown, request};
ghost use Rattle.ab_check.specs.Checks.{abort_checks, all_checks, checks_of, offer_checks, proof_checks, tag_of, tagged};
ghost use Rattle.ab_check.specs.Chains.{IsPlaced, asked_at, passed_to};
ghost use Rattle.ab_wire.specs.Views.{IsReceived, Spells, chain_tags, message, offered, proof, proofs, reply_of, signed as shown_signed, tags as shown_tags};
ghost use Rattle.ab_check.specs.Listing.{AreAnswers, IsClaim, aborts_left, checked, one_left};

use crate::aborts::{AbortsRef, aborts_of, answers_of, behind, none_aborted};
use crate::chain::PassingRef;
use crate::check_ref::{CheckRef, TokenRef};
use crate::checks::Checks;
use crate::claim_ref::ClaimRef;
use crate::copied::{copy_of, none};
use crate::passed::{none_passed, passed_before, tag_between};
use crate::prepared::{none_prepared, prepared_of};
use ab_content::{ContentRef, RequestRef};
use ab_form::ListRef;
use ab_msg::Tag;
use ab_num::{Cluster, Party};
use ab_wire::{BetweenRef, MsgRef, OfferRef, ProofRef, SignedRef, TagRef, tag_among};

/// One check.
fn one<'a>(k: &Cluster, check: CheckRef<'a>) -> Checks<'a>
    requires { IsClaim check.claim }
    ensures { result ≡ checked check.entry ∷ [] }
{
    Checks::of(
        Some(check),
        None,
        none_passed(k),
        none_aborted(),
        none_prepared(),
        none(),
    )
}

/// A content that came by itself, and its tag.
fn tagged<'a>(content: ContentRef<'a>, bytes: &'a [u8], tag: Option<&'a Tag>) -> CheckRef<'a>
    ensures { result ≡ record { claim = ClaimRef.Received content.entry bytes.entry; token = TokenRef.Tag tag.entry } }
{
    CheckRef {
        claim: ClaimRef::Received { content, bytes },
        token: TokenRef::Tag(tag),
    }
}

/// A client's request, and its tag.
fn asked<'a>(instance: u32, request: RequestRef<'a>, tag: Option<&'a Tag>) -> CheckRef<'a>
    ensures { result ≡ record { claim = ClaimRef.Asked instance request.entry; token = TokenRef.Tag tag.entry } }
{
    CheckRef {
        claim: ClaimRef::Asked { instance, request },
        token: TokenRef::Tag(tag),
    }
}

/// A signed content, and its signature.
fn signed<'a>(s: SignedRef<'a>) -> CheckRef<'a>
    ensures { result ≡ record { claim = ClaimRef.Received s.entry.content s.entry.bytes; token = TokenRef.Sig s.entry.sig } }
{
    CheckRef {
        claim: ClaimRef::Received {
            content: s.content,
            bytes: s.bytes,
        },
        token: TokenRef::Sig(s.sig),
    }
}

/// The tag for a party among tags for replicas.
fn tag_of<'a>(me: Party, tags: ListRef<'a, TagRef<'a>>) -> Option<&'a Tag>
    ensures { option_map (λ tag. tag.now) result ≡ tag_of me (shown_tags tags.entry) }
{
    match me {
        Party::Replica(r) => tag_among(tags, r),
        Party::Client(_) => None,
    }
}

/// The check of a client's request at position `p` of a chain. Only the first f + 1 positions have a tag of the
/// client, so behind them there is none.
fn front<'a>(
    k: &Cluster,
    me: Party,
    instance: u32,
    m: RequestRef<'a>,
    p: u8,
    tags: ListRef<'a, BetweenRef<'a>>,
) -> Option<CheckRef<'a>>
    requires { length m.command.now ≤ 128 }
    ensures claim { IfSome result (λ c. IsClaim c.claim) }
    ensures asked { one_left result ≡ map (passed_to me (chain_tags tags.entry)) (asked_at k.now.f instance (request m.entry) p) }
{
    if p <= k.f + 1 {
        let tag = tag_between(tags, Party::Client(m.client), me);
        Some(asked(instance, m, tag))
    } else {
        None
    }
}

/// A CHAIN at replica `r`.
fn chain_at_replica<'a>(
    k: &Cluster,
    r: u8,
    instance: u32,
    m: RequestRef<'a>,
    n: u16,
    d: &'a [u8; 32],
    tags: ListRef<'a, BetweenRef<'a>>,
) -> Checks<'a>
    requires instance { 1 ≤ instance }
    requires replica { r < 3 * k.now.f + 1 }
    requires short { length m.command.now ≤ 128 }
    ensures { result ≡ map (passed_to (Replica r) (chain_tags tags.entry)) (claims_at k.now.f instance (request m.entry) n d.now (position_in k.now.f instance r)) }
{
    let me = Party::Replica(r);
    let p = k.position_of(instance, r);
    let link = PassingRef {
        instance,
        client: m.client,
        stamp: m.stamp,
        n,
        d,
        reply: None,
    };
    let first = front(k, me, instance, m, p, copy_of(&tags));
    Checks::of(
        first,
        None,
        passed_before(k, link, p, me, tags),
        none_aborted(),
        none_prepared(),
        none(),
    )
}

/// A CHAIN at its client. Without a reply there is nothing to check.
fn chain_at_client<'a>(
    k: &Cluster,
    me: Party,
    instance: u32,
    m: RequestRef<'a>,
    n: u16,
    d: &'a [u8; 32],
    reply: Option<&'a [u8]>,
    tags: ListRef<'a, BetweenRef<'a>>,
) -> Checks<'a>
    requires instance { 1 ≤ instance }
    requires short { IfSome reply (λ reply. length reply.now ≤ 72) }
    ensures { result ≡ map (passed_to me (chain_tags tags.entry)) (tail_claims k.now.f instance (request m.entry) n d.now (option_map reply_of reply.entry)) }
{
    match reply {
        None => Checks::of(
            None,
            None,
            none_passed(k),
            none_aborted(),
            none_prepared(),
            none(),
        ),
        Some(reply) => {
            let link = PassingRef {
                instance,
                client: m.client,
                stamp: m.stamp,
                n,
                d,
                reply: Some(reply),
            };
            Checks::of(
                None,
                None,
                passed_before(k, link, 3 * k.f + 2, me, tags),
                none_aborted(),
                none_prepared(),
                none(),
            )
        }
    }
}

/// A CHAIN.
fn chain<'a>(
    k: &Cluster,
    me: Party,
    instance: u32,
    m: RequestRef<'a>,
    n: u16,
    d: &'a [u8; 32],
    reply: Option<&'a [u8]>,
    tags: ListRef<'a, BetweenRef<'a>>,
) -> Checks<'a>
    requires lawful { IsMessage (msg.Chain instance (request m) n d.now (option_map reply_of reply) (chain_tags tags)) }
    requires party { IsPlaced k.now.f me }
    ensures { result ≡ map (passed_to me (chain_tags tags.entry)) (chain_claims k.now.f me instance (request m.entry) n d.now (option_map reply_of reply.entry)) }
{
    match me {
        Party::Replica(r) => chain_at_replica(k, r, instance, m, n, d, tags),
        Party::Client(_) => chain_at_client(k, me, instance, m, n, d, reply, tags),
    }
}

/// What an ORDER's client asks.
fn ordered<'a>(content: &ContentRef<'a>, tag: &'a Tag) -> Option<CheckRef<'a>>
    requires { IsOrder (shown content.now) }
    ensures claim { IfSome result (λ c. IsClaim c.claim) }
    ensures ordered { one_left result ≡ map (λ c. tagged c (Some tag.now)) (ordered (shown content.now)) }
{
    match content {
        ContentRef::Order {
            instance,
            request,
            ..
        } => Some(asked(*instance, *request, Some(tag))),
        _ => None,
    }
}

/// An ORDER.
#[tactic(auto, using(ab_wire::proofs::KindLemmas::order_content))]
fn order<'a>(
    k: &Cluster,
    content: ContentRef<'a>,
    bytes: &'a [u8],
    client_tag: &'a Tag,
    tag: &'a Tag,
) -> Checks<'a>
    requires lawful { IsOrder (shown content) }
    requires stated { Spells bytes.now content }
    ensures { result ≡ map (λ c. tagged c (Some client_tag.now)) (ordered (shown content.entry)) ++ tagged (shown content.entry) (Some tag.now) ∷ [] }
{
    let first = ordered(&content, client_tag);
    let second = Some(tagged(content, bytes, Some(tag)));
    Checks::of(
        first,
        second,
        none_passed(k),
        none_aborted(),
        none_prepared(),
        none(),
    )
}

/// A check, if there is one, and ABORTs or answers behind it.
fn with_aborts<'a>(k: &Cluster, first: Option<CheckRef<'a>>, aborts: AbortsRef<'a>) -> Checks<'a>
    requires first { IfSome first (λ c. IsClaim c.claim) }
    requires aborts { AreAnswers aborts.answers }
    ensures { result ≡ one_left first.entry ++ aborts_left aborts.entry }
{
    Checks::of(first, None, none_passed(k), aborts, none_prepared(), none())
}

/// An ABORT, and the answers that it holds.
#[tactic(auto, using(ab_wire::proofs::KindLemmas::abort_content))]
fn abort<'a>(k: &Cluster, s: SignedRef<'a>) -> Checks<'a>
    requires lawful { IsStopContent (shown s.content) }
    requires stated { Spells s.bytes.now s.content }
    ensures { result ≡ abort_checks (shown_signed s.entry) }
{
    let behind = behind(&s.content);
    with_aborts(k, Some(signed(s)), behind)
}

/// A PRE-PREPARE.
#[tactic(auto, using(ab_wire::proofs::KindLemmas::pre_prepare_content))]
fn pre_prepare<'a>(
    k: &Cluster,
    content: ContentRef<'a>,
    bytes: &'a [u8],
    tag: &'a Tag,
    offer: OfferRef<'a>,
) -> Checks<'a>
    requires content { IsPrePrepare (shown content) }
    requires lawful { IsOffer (slot_in (shown content)) (offered offer) }
    requires stated { Spells bytes.now content }
    ensures { result ≡ tagged (shown content.entry) (Some tag.now) ∷ offer_checks (instance_of (shown content.entry)) (offered offer.entry) }
{
    let instance = content.instance();
    let first = Some(tagged(content, bytes, Some(tag)));
    match offer {
        OfferRef::Base(aborts) => with_aborts(k, first, aborts_of(aborts)),
        OfferRef::Request { request, tag } => {
            let second = Some(asked(instance, request, Some(tag)));
            Checks::of(
                first,
                second,
                none_passed(k),
                none_aborted(),
                none_prepared(),
                none(),
            )
        }
    }
}

/// A view change that came by itself.
#[tactic(auto, using(ab_wire::proofs::KindLemmas::change_content))]
fn view_change<'a>(k: &Cluster, v: ProofRef<'a>) -> Checks<'a>
    requires lawful { IsProof (proof v) }
    requires stated { Spells v.change.bytes.now v.change.content }
    ensures { result ≡ proof_checks (proof v.entry) }
{
    let prepares = v.prepares;
    let prepared = prepared_of(&v.change.content, prepares);
    Checks::of(
        Some(signed(v.change)),
        None,
        none_passed(k),
        none_aborted(),
        prepared,
        none(),
    )
}

/// A NEW-VIEW.
fn new_view<'a>(
    k: &Cluster,
    content: ContentRef<'a>,
    bytes: &'a [u8],
    tag: &'a Tag,
    changes: ListRef<'a, ProofRef<'a>>,
) -> Checks<'a>
    requires content { IsContent (shown content) }
    requires stated { Spells bytes.now content }
    ensures { result ≡ tagged (shown content.entry) (Some tag.now) ∷ all_checks (proofs changes.entry) }
{
    Checks::of(
        Some(tagged(content, bytes, Some(tag))),
        None,
        none_passed(k),
        none_aborted(),
        none_prepared(),
        changes,
    )
}

/// All that party `me` checks of a message, in the order in which a fault is told: what is stated, and the tag or signature
/// that stands for it. The list reads the message's bytes as it goes on, so it takes no memory.
#[tactic(auto, using(ab_wire::proofs::KindLemmas::req_content, ab_wire::proofs::KindLemmas::resp_content, ab_wire::proofs::KindLemmas::panic_content, ab_wire::proofs::KindLemmas::abort_content, ab_wire::proofs::KindLemmas::prepare_content, ab_wire::proofs::KindLemmas::commit_content, ab_wire::proofs::KindLemmas::new_view_content, ab_wire::proofs::KindLemmas::checkpoint_content, ab_wire::proofs::KindLemmas::local_commit_content, ab_wire::proofs::KindLemmas::spec_content))]
pub fn checks_in<'a>(k: &Cluster, me: Party, m: MsgRef<'a>) -> Checks<'a>
    requires received { IsReceived m }
    requires party { IsPlaced k.now.f me }
    ensures { result ≡ checks_of k.now.f me (message m.entry) }
{
    match m {
        MsgRef::Req {
            content,
            bytes,
            tags,
        } => one(k, tagged(content, bytes, tag_of(me, tags))),
        MsgRef::Order {
            content,
            bytes,
            client_tag,
            tag,
        } => order(k, content, bytes, client_tag, tag),
        MsgRef::Resp {
            content,
            bytes,
            tag,
        } => one(k, tagged(content, bytes, Some(tag))),
        MsgRef::Chain {
            instance,
            request,
            n,
            d,
            reply,
            tags,
        } => chain(k, me, instance, request, n, d, reply, tags),
        MsgRef::Panic {
            content,
            bytes,
            tag,
        } => one(k, tagged(content, bytes, Some(tag))),
        MsgRef::Abort { abort: s } => abort(k, s),
        MsgRef::Init { cert } => with_aborts(k, None, aborts_of(cert)),
        MsgRef::PrePrepare {
            content,
            bytes,
            tag,
            offer,
        } => pre_prepare(k, content, bytes, tag, offer),
        MsgRef::Prepare { prepare } => one(k, signed(prepare)),
        MsgRef::Commit {
            content,
            bytes,
            tag,
        } => one(k, tagged(content, bytes, Some(tag))),
        MsgRef::ViewChange { change } => view_change(k, change),
        MsgRef::NewView {
            content,
            bytes,
            tag,
            changes,
        } => new_view(k, content, bytes, tag, changes),
        MsgRef::Checkpoint {
            content,
            bytes,
            tag,
        } => one(k, tagged(content, bytes, Some(tag))),
        MsgRef::LocalCommit {
            content,
            bytes,
            tag,
        } => one(k, tagged(content, bytes, Some(tag))),
        MsgRef::Spec { spec } => one(k, signed(spec)),
        MsgRef::Cert { instance, zcert } => { with_aborts(k, None, answers_of(instance, zcert)) }
    }
}
