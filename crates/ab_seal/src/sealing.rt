//! Sealing messages.

ghost use Rattle.std.specs.Prelude.{◌≡◌, ◌+◌, ◌≤◌, ◌++◌, length, IfOk};
ghost use Rattle.ab_form.specs.Formats.{u8_bytes};
ghost use Rattle.ab_form.specs.Lists.{u8_list};
ghost use Rattle.ab_msg.specs.declared.message.Msg.TheVariants as msg;
ghost use Rattle.ab_msg.specs.Claims.{instance_of};
ghost use Rattle.ab_msg.specs.Contents.{IsReq, spell_content};
ghost use Rattle.ab_msg.specs.Fields.{spell_tags};
ghost use Rattle.ab_msg.specs.Messages.{IsDraft, spell_message, spell_offer};
ghost use Rattle.ab_msg.specs.Certs.{spell_proof};
ghost use Rattle.ab_seal.specs.Sealing.{IsOwn, content_tag, own_tags as tags_of_party, sealed, tags_made as made_tags};

use crate::chain::{Passing, own_tags};
use crate::tags::{tag_made, tags_made};
use ab_form::{put_bytes, put_u8};
use ab_keys::KeyRing;
use ab_msg::{ChainTags, Content, Msg, Offer, Out, Proofs, Tag};
use ab_num::{OutOfMemory, Party};
use ab_write::{put_changes, put_content, put_each, put_link, put_offer, put_tags, write};
use std::alloc::Global;

/// The bytes of a content.
fn spelled(alloc: Global, content: &Content) -> Result<Vec<u8>, OutOfMemory>
    ensures { IfOk result (λ v. v.items ≡ spell_content content.now) }
{
    let mut text = Vec::with_capacity(alloc, 160)?;
    put_content(alloc, &mut text, content)?;
    Ok(text)
}

/// The code of a message and the bytes of its content, with room for more.
fn begun(alloc: Global, code: u8, text: &[u8], room: usize) -> Result<Vec<u8>, OutOfMemory>
    requires { room ≤ 1000 }
    ensures { IfOk result (λ v. v.items ≡ u8_bytes code ++ text.now) }
{
    let most = text.len().saturating_add(room);
    let mut out = Vec::with_capacity(alloc, most.saturating_add(1))?;
    put_u8(alloc, &mut out, code)?;
    put_bytes(alloc, &mut out, text)?;
    Ok(out)
}

/// A content with its maker's tag for a party.
fn seal_tagged(
    alloc: Global,
    k: &KeyRing,
    to: Party,
    code: u8,
    content: &Content,
) -> Result<Vec<u8>, OutOfMemory>
    ensures { IfOk result (λ v. v.items ≡ u8_bytes code ++ (spell_content content.now ++ content_tag k.now to content.now)) }
{
    let text = spelled(alloc, content)?;
    let mut out = begun(alloc, code, &text, 32)?;
    put_bytes(alloc, &mut out, &tag_made(k, to, &text))?;
    Ok(out)
}

/// A request with tags for its receivers.
fn seal_request(alloc: Global, k: &KeyRing, content: &Content) -> Result<Vec<u8>, OutOfMemory>
    requires { IsReq content.now }
    ensures { IfOk result (λ v. v.items ≡ u8_bytes 1 ++ (spell_content content.now ++ spell_tags (made_tags k.now (instance_of content.now) (spell_content content.now)))) }
{
    let text = spelled(alloc, content)?;
    let room = 1 + 33 * usize::from(k.cluster().replicas());
    let mut out = begun(alloc, 1, &text, room)?;
    put_tags(alloc, &mut out, &tags_made(k, content.instance(), &text))?;
    Ok(out)
}

/// A place for a request, with the client's tag.
fn seal_order(
    alloc: Global,
    k: &KeyRing,
    to: Party,
    content: &Content,
    client_tag: &Tag,
) -> Result<Vec<u8>, OutOfMemory>
    ensures { IfOk result (λ v. v.items ≡ u8_bytes 2 ++ (spell_content content.now ++ (client_tag.now ++ content_tag k.now to content.now))) }
{
    let text = spelled(alloc, content)?;
    let mut out = begun(alloc, 2, &text, 64)?;
    put_bytes(alloc, &mut out, client_tag)?;
    put_bytes(alloc, &mut out, &tag_made(k, to, &text))?;
    Ok(out)
}

/// A value for a slot.
fn seal_pre_prepare(
    alloc: Global,
    k: &KeyRing,
    to: Party,
    content: &Content,
    offer: &Offer,
) -> Result<Vec<u8>, OutOfMemory>
    ensures { IfOk result (λ v. v.items ≡ u8_bytes 8 ++ ((spell_content content.now ++ content_tag k.now to content.now) ++ spell_offer offer.now)) }
{
    let text = spelled(alloc, content)?;
    let mut out = begun(alloc, 8, &text, 204)?;
    put_bytes(alloc, &mut out, &tag_made(k, to, &text))?;
    put_offer(alloc, &mut out, offer)?;
    Ok(out)
}

/// A view that begins.
fn seal_new_view(
    alloc: Global,
    k: &KeyRing,
    to: Party,
    content: &Content,
    changes: &Proofs,
) -> Result<Vec<u8>, OutOfMemory>
    ensures { IfOk result (λ v. v.items ≡ u8_bytes 12 ++ (spell_content content.now ++ (content_tag k.now to content.now ++ u8_list spell_proof changes.now))) }
{
    let text = spelled(alloc, content)?;
    let mut out = begun(alloc, 12, &text, 32)?;
    put_bytes(alloc, &mut out, &tag_made(k, to, &text))?;
    put_changes(alloc, &mut out, changes)?;
    Ok(out)
}

/// A request on its way along a chain, with the tags that came and those of the ring's party.
fn seal_chain(
    alloc: Global,
    k: &KeyRing,
    l: &Passing<'_>,
    tags: &ChainTags,
) -> Result<Vec<u8>, OutOfMemory>
    requires instance { 1 ≤ l.now.instance }
    requires few { length tags.now ≤ 61 }
    ensures { IfOk result (λ v. v.items ≡ spell_message (msg.Chain l.now.instance l.now.request.now l.now.n l.now.d.now l.now.reply.now (tags.now ++ tags_of_party k.now k.now.me l.now.instance l.now.request.now l.now.n l.now.d.now l.now.reply.now))) }
{
    let own = own_tags(alloc, k, l)?;
    let came = tags.as_slice();
    let count = (came.len() + own.len()) as u8;
    let mut out = Vec::with_capacity(alloc, 256 + 38 * usize::from(count))?;
    put_u8(alloc, &mut out, 4)?;
    put_link(alloc, &mut out, l.instance, l.request, l.n, l.d, l.reply)?;
    put_u8(alloc, &mut out, count)?;
    put_each(alloc, &mut out, came)?;
    put_each(alloc, &mut out, own.as_slice())?;
    Ok(out)
}

/// The bytes of a message with the tags of its maker, whose ring this is.
pub fn seal(alloc: Global, k: &KeyRing, o: &Out) -> Result<Vec<u8>, OutOfMemory>
    requires draft { IsDraft o.now.msg }
    requires maker { IsOwn k.now.f k.now.me o.now.msg }
    ensures { IfOk result (λ v. v.items ≡ sealed k.now o.now) }
{
    match &o.msg {
        Msg::Req { content, .. } => seal_request(alloc, k, content),
        Msg::Order {
            content,
            client_tag,
            ..
        } => seal_order(alloc, k, o.to, content, client_tag),
        Msg::Resp { content, .. } => seal_tagged(alloc, k, o.to, 3, content),
        Msg::Chain {
            instance,
            request,
            n,
            d,
            reply,
            tags,
        } => {
            let link = Passing {
                instance: *instance,
                request,
                n: *n,
                d,
                reply,
            };
            seal_chain(alloc, k, &link, tags)
        }
        Msg::Panic { content, .. } => seal_tagged(alloc, k, o.to, 5, content),
        Msg::PrePrepare { content, offer, .. } => seal_pre_prepare(alloc, k, o.to, content, offer),
        Msg::Commit { content, .. } => seal_tagged(alloc, k, o.to, 10, content),
        Msg::NewView {
            content,
            changes,
            ..
        } => seal_new_view(alloc, k, o.to, content, changes),
        Msg::Checkpoint { content, .. } => seal_tagged(alloc, k, o.to, 13, content),
        Msg::LocalCommit { content, .. } => seal_tagged(alloc, k, o.to, 14, content),
        Msg::Abort { .. } => write(alloc, &o.msg),
        Msg::Init { .. } => write(alloc, &o.msg),
        Msg::Prepare { .. } => write(alloc, &o.msg),
        Msg::ViewChange { .. } => write(alloc, &o.msg),
        Msg::Spec { .. } => write(alloc, &o.msg),
        Msg::Cert { .. } => write(alloc, &o.msg),
    }
}
