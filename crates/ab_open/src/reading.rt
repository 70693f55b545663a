//! A message from its bytes.

ghost use Rattle.std.specs.Prelude.{◌≡◌, Option, IfOk, IsOkAnd, option_map};
ghost use Rattle.ab_form.specs.Readers.{Gives};
ghost use Rattle.ab_form.specs.Lists.{optional_at};
ghost use Rattle.ab_msg.specs.declared.message.Msg.{Msg as Message};
ghost use Rattle.ab_wire.specs.Signed.{aborts_at, signed_abort_at};
ghost use Rattle.ab_msg.specs.Messages.{IsMessage, slot_in, spell_message};
ghost use Rattle.ab_open.specs.Messages.{abort_message_at, body_at, cert_message_at, chain_message_at, change_message_at, checkpoint_message_at, commit_message_at, init_message_at, local_commit_message_at, message_of, new_view_message_at, offer_at, order_message_at, panic_message_at, pre_prepare_message_at, prepare_message_at, reply_at, req_message_at, resp_message_at, spec_message_at};
ghost use Rattle.ab_wire.specs.Views.{IsKept, IsReceived, aborts, message, offered, reply_of};
ghost use Rattle.ab_content.specs.Views.{content as shown};

use ab_content::{
    checkpoint_at, commit_at, instance_at, local_commit_at, new_view_at, order_at, panic_at,
    pre_prepare_at, req_at, resp_at, zcert_at,
};
use ab_form::{Bad, ListRef, Part, array_at, list_at, ranged_u8, ranged_u16, text_u8, u8_at};
use ab_wire::{
    BetweenRef, ContentRef, MsgRef, OfferRef, ProofRef, RequestRef, SignedRef, signed_abort_at,
    signed_prepare_at, signed_spec_at, spelled, tags_at,
};

#[tactic(auto, unfolding(crate::specs::Messages::req_message_at))]
fn req_message_at(bytes: &[u8]) -> Result<(MsgRef<'_>, &[u8]), Bad>
    ensures exact { Gives (λ x. (message x.0, x.1.now)) result (req_message_at bytes.now) }
    ensures kept { IfOk result (λ x. IsKept x.0) }
{
    let (content, rest) = req_at(bytes)?;
    let stated = spelled(bytes, &content, rest);
    let (tags, rest) = tags_at(rest)?;
    Ok((
        MsgRef::Req {
            content,
            bytes: stated,
            tags,
        },
        rest,
    ))
}

#[tactic(auto, unfolding(crate::specs::Messages::order_message_at))]
fn order_message_at(bytes: &[u8]) -> Result<(MsgRef<'_>, &[u8]), Bad>
    ensures exact { Gives (λ x. (message x.0, x.1.now)) result (order_message_at bytes.now) }
    ensures kept { IfOk result (λ x. IsKept x.0) }
{
    let (content, rest) = order_at(bytes)?;
    let stated = spelled(bytes, &content, rest);
    let (client_tag, rest) = array_at(rest)?;
    let (tag, rest) = array_at(rest)?;
    Ok((
        MsgRef::Order {
            content,
            bytes: stated,
            client_tag,
            tag,
        },
        rest,
    ))
}

#[tactic(auto, unfolding(crate::specs::Messages::resp_message_at))]
fn resp_message_at(bytes: &[u8]) -> Result<(MsgRef<'_>, &[u8]), Bad>
    ensures exact { Gives (λ x. (message x.0, x.1.now)) result (resp_message_at bytes.now) }
    ensures kept { IfOk result (λ x. IsKept x.0) }
{
    let (content, rest) = resp_at(bytes)?;
    let stated = spelled(bytes, &content, rest);
    let (tag, rest) = array_at(rest)?;
    Ok((
        MsgRef::Resp {
            content,
            bytes: stated,
            tag,
        },
        rest,
    ))
}

#[tactic(auto, unfolding(crate::specs::Messages::panic_message_at))]
fn panic_message_at(bytes: &[u8]) -> Result<(MsgRef<'_>, &[u8]), Bad>
    ensures exact { Gives (λ x. (message x.0, x.1.now)) result (panic_message_at bytes.now) }
    ensures kept { IfOk result (λ x. IsKept x.0) }
{
    let (content, rest) = panic_at(bytes)?;
    let stated = spelled(bytes, &content, rest);
    let (tag, rest) = array_at(rest)?;
    Ok((
        MsgRef::Panic {
            content,
            bytes: stated,
            tag,
        },
        rest,
    ))
}

#[tactic(auto, unfolding(crate::specs::Messages::commit_message_at))]
fn commit_message_at(bytes: &[u8]) -> Result<(MsgRef<'_>, &[u8]), Bad>
    ensures exact { Gives (λ x. (message x.0, x.1.now)) result (commit_message_at bytes.now) }
    ensures kept { IfOk result (λ x. IsKept x.0) }
{
    let (content, rest) = commit_at(bytes)?;
    let stated = spelled(bytes, &content, rest);
    let (tag, rest) = array_at(rest)?;
    Ok((
        MsgRef::Commit {
            content,
            bytes: stated,
            tag,
        },
        rest,
    ))
}

/// A reply, if there is one.
#[tactic(auto, unfolding(crate::specs::Messages::reply_at))]
fn optional_reply_at(bytes: &[u8]) -> Result<(Option<&[u8]>, &[u8]), Bad>
    ensures { Gives (λ x. (option_map reply_of x.0, x.1.now)) result (optional_at reply_at bytes.now) }
{
    let (flag, rest) = ranged_u8(0, 1, Bad::BadField, bytes)?;
    if flag == 0 {
        return Ok((None, rest));
    }
    let (reply, rest) = text_u8(0, 72, rest)?;
    Ok((Some(reply), rest))
}

#[tactic(auto, unfolding(crate::specs::Messages::chain_message_at))]
fn chain_message_at(bytes: &[u8]) -> Result<(MsgRef<'_>, &[u8]), Bad>
    ensures exact { Gives (λ x. (message x.0, x.1.now)) result (chain_message_at bytes.now) }
    ensures kept { IfOk result (λ x. IsKept x.0) }
{
    let (instance, rest) = instance_at(bytes)?;
    let (request, rest) = RequestRef::read_part(rest)?;
    let (n, rest) = ranged_u16(1, 65535, Bad::BadField, rest)?;
    let (d, rest) = array_at(rest)?;
    let (reply, rest) = optional_reply_at(rest)?;
    let (count, rest) = ranged_u8(0, 64, Bad::BadLength, rest)?;
    let (tags, rest) = list_at::<BetweenRef<'_>>(u16::from(count), rest)?;
    Ok((
        MsgRef::Chain {
            instance,
            request,
            n,
            d,
            reply,
            tags,
        },
        rest,
    ))
}

#[tactic(auto, unfolding(crate::specs::Messages::abort_message_at))]
fn abort_message_at(bytes: &[u8]) -> Result<(MsgRef<'_>, &[u8]), Bad>
    ensures exact { Gives (λ x. (message x.0, x.1.now)) result (abort_message_at bytes.now) }
    ensures kept { IfOk result (λ x. IsKept x.0) }
{
    let (abort, rest) = signed_abort_at(bytes)?;
    Ok((MsgRef::Abort { abort }, rest))
}

#[tactic(auto, unfolding(crate::specs::Messages::prepare_message_at))]
fn prepare_message_at(bytes: &[u8]) -> Result<(MsgRef<'_>, &[u8]), Bad>
    ensures exact { Gives (λ x. (message x.0, x.1.now)) result (prepare_message_at bytes.now) }
    ensures kept { IfOk result (λ x. IsKept x.0) }
{
    let (prepare, rest) = signed_prepare_at(bytes)?;
    Ok((MsgRef::Prepare { prepare }, rest))
}

/// From `low` to `high` signed ABORTs behind their count.
#[tactic(auto, unfolding(ab_wire::specs::Signed::aborts_at))]
fn aborts_at(low: u8, high: u8, bytes: &[u8]) -> Result<(ListRef<'_, SignedRef<'_>>, &[u8]), Bad>
    ensures { Gives (λ x. (aborts x.0, x.1.now)) result (aborts_at low high bytes.now) }
{
    let (count, rest) = ranged_u8(low, high, Bad::BadLength, bytes)?;
    list_at::<SignedRef<'_>>(u16::from(count), rest)
}

#[tactic(auto, unfolding(crate::specs::Messages::init_message_at))]
fn init_message_at(bytes: &[u8]) -> Result<(MsgRef<'_>, &[u8]), Bad>
    ensures exact { Gives (λ x. (message x.0, x.1.now)) result (init_message_at bytes.now) }
    ensures kept { IfOk result (λ x. IsKept x.0) }
{
    let (cert, rest) = aborts_at(1, 7, bytes)?;
    Ok((MsgRef::Init { cert }, rest))
}

/// What is offered for a slot.
#[tactic(auto, unfolding(crate::specs::Messages::offer_at))]
fn offer_at(slot: u8, bytes: &[u8]) -> Result<(OfferRef<'_>, &[u8]), Bad>
    ensures { Gives (λ x. (offered x.0, x.1.now)) result (offer_at slot bytes.now) }
{
    if slot == 0 {
        let (aborts, rest) = aborts_at(0, 7, bytes)?;
        Ok((OfferRef::Base(aborts), rest))
    } else {
        let (request, rest) = RequestRef::read_part(bytes)?;
        let (tag, rest) = array_at(rest)?;
        Ok((OfferRef::Request { request, tag }, rest))
    }
}

/// The slot of a PRE-PREPARE.
fn slot_in(content: &ContentRef<'_>) -> u8
    ensures { result ≡ slot_in (shown content.now) }
{
    match content {
        ContentRef::PrePrepare { slot, .. } => *slot,
        _ => 0,
    }
}

#[tactic(auto, unfolding(crate::specs::Messages::pre_prepare_message_at))]
fn pre_prepare_message_at(bytes: &[u8]) -> Result<(MsgRef<'_>, &[u8]), Bad>
    ensures exact { Gives (λ x. (message x.0, x.1.now)) result (pre_prepare_message_at bytes.now) }
    ensures kept { IfOk result (λ x. IsKept x.0) }
{
    let (content, rest) = pre_prepare_at(bytes)?;
    let slot = slot_in(&content);
    let stated = spelled(bytes, &content, rest);
    let (tag, rest) = array_at(rest)?;
    let (offer, rest) = offer_at(slot, rest)?;
    Ok((
        MsgRef::PrePrepare {
            content,
            bytes: stated,
            tag,
            offer,
        },
        rest,
    ))
}

#[tactic(auto, unfolding(crate::specs::Messages::change_message_at))]
fn change_message_at(bytes: &[u8]) -> Result<(MsgRef<'_>, &[u8]), Bad>
    ensures exact { Gives (λ x. (message x.0, x.1.now)) result (change_message_at bytes.now) }
    ensures kept { IfOk result (λ x. IsKept x.0) }
{
    let (change, rest) = ProofRef::read_part(bytes)?;
    Ok((MsgRef::ViewChange { change }, rest))
}

#[tactic(auto, unfolding(crate::specs::Messages::new_view_message_at))]
fn new_view_message_at(bytes: &[u8]) -> Result<(MsgRef<'_>, &[u8]), Bad>
    ensures exact { Gives (λ x. (message x.0, x.1.now)) result (new_view_message_at bytes.now) }
    ensures kept { IfOk result (λ x. IsKept x.0) }
{
    let (content, rest) = new_view_at(bytes)?;
    let stated = spelled(bytes, &content, rest);
    let (tag, rest) = array_at(rest)?;
    let (count, rest) = ranged_u8(1, 7, Bad::BadLength, rest)?;
    let (changes, rest) = list_at::<ProofRef<'_>>(u16::from(count), rest)?;
    Ok((
        MsgRef::NewView {
            content,
            bytes: stated,
            tag,
            changes,
        },
        rest,
    ))
}

#[tactic(auto, unfolding(crate::specs::Messages::checkpoint_message_at))]
fn checkpoint_message_at(bytes: &[u8]) -> Result<(MsgRef<'_>, &[u8]), Bad>
    ensures exact { Gives (λ x. (message x.0, x.1.now)) result (checkpoint_message_at bytes.now) }
    ensures kept { IfOk result (λ x. IsKept x.0) }
{
    let (content, rest) = checkpoint_at(bytes)?;
    let stated = spelled(bytes, &content, rest);
    let (tag, rest) = array_at(rest)?;
    Ok((
        MsgRef::Checkpoint {
            content,
            bytes: stated,
            tag,
        },
        rest,
    ))
}

#[tactic(auto, unfolding(crate::specs::Messages::local_commit_message_at))]
fn local_commit_message_at(bytes: &[u8]) -> Result<(MsgRef<'_>, &[u8]), Bad>
    ensures exact { Gives (λ x. (message x.0, x.1.now)) result (local_commit_message_at bytes.now) }
    ensures kept { IfOk result (λ x. IsKept x.0) }
{
    let (content, rest) = local_commit_at(bytes)?;
    let stated = spelled(bytes, &content, rest);
    let (tag, rest) = array_at(rest)?;
    Ok((
        MsgRef::LocalCommit {
            content,
            bytes: stated,
            tag,
        },
        rest,
    ))
}

#[tactic(auto, unfolding(crate::specs::Messages::spec_message_at))]
fn spec_message_at(bytes: &[u8]) -> Result<(MsgRef<'_>, &[u8]), Bad>
    ensures exact { Gives (λ x. (message x.0, x.1.now)) result (spec_message_at bytes.now) }
    ensures kept { IfOk result (λ x. IsKept x.0) }
{
    let (spec, rest) = signed_spec_at(bytes)?;
    Ok((MsgRef::Spec { spec }, rest))
}

#[tactic(auto, unfolding(crate::specs::Messages::cert_message_at))]
fn cert_message_at(bytes: &[u8]) -> Result<(MsgRef<'_>, &[u8]), Bad>
    ensures exact { Gives (λ x. (message x.0, x.1.now)) result (cert_message_at bytes.now) }
    ensures kept { IfOk result (λ x. IsKept x.0) }
{
    let (instance, rest) = instance_at(bytes)?;
    let (_, rest) = ranged_u8(1, 1, Bad::BadField, rest)?;
    let (zcert, rest) = zcert_at(rest)?;
    Ok((MsgRef::Cert { instance, zcert }, rest))
}

fn body_at(code: u8, bytes: &[u8]) -> Result<(MsgRef<'_>, &[u8]), Bad>
    ensures exact { Gives (λ x. (message x.0, x.1.now)) result (body_at code bytes.now) }
    ensures kept { IfOk result (λ x. IsKept x.0) }
{
    match code {
        1 => req_message_at(bytes),
        2 => order_message_at(bytes),
        3 => resp_message_at(bytes),
        4 => chain_message_at(bytes),
        5 => panic_message_at(bytes),
        6 => abort_message_at(bytes),
        7 => init_message_at(bytes),
        8 => pre_prepare_message_at(bytes),
        9 => prepare_message_at(bytes),
        10 => commit_message_at(bytes),
        11 => change_message_at(bytes),
        12 => new_view_message_at(bytes),
        13 => checkpoint_message_at(bytes),
        14 => local_commit_message_at(bytes),
        15 => spec_message_at(bytes),
        16 => cert_message_at(bytes),
        _ => Err(Bad::BadCode),
    }
}

/// The message that all of the bytes spell.
#[tactic(auto, unfolding(crate::specs::Messages::message_of, crate::specs::Messages::message_at))]
fn message_of(bytes: &[u8]) -> Result<MsgRef<'_>, Bad>
    ensures exact { Gives message result (message_of bytes.now) }
    ensures kept { IfOk result IsKept }
{
    let (code, rest) = u8_at(bytes)?;
    let (message, rest) = body_at(code, rest)?;
    if rest.is_empty() {
        Ok(message)
    } else {
        Err(Bad::Trailing)
    }
}

/// The message that all of the bytes spell, or their first defect. It takes no memory, and what it
/// gives borrows each of its parts.
pub fn read(bytes: &[u8]) -> Result<MsgRef<'_>, Bad>
    ensures exact { Gives message result (message_of bytes.now) }
    ensures spelled { IfOk result (λ m. bytes.now ≡ spell_message (message m)) }
    ensures all { (m : Message) → IsMessage m → bytes.now ≡ spell_message m → IsOkAnd result (λ x. message x ≡ m) }
    ensures received { IfOk result IsReceived }
{
    message_of(bytes)
}
