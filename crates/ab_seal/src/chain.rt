//! Tags along a chain.

ghost use Rattle.std.specs.Prelude.{◌≡◌, ◌+◌, ◌-◌, ◌*◌, ◌<◌, ◌≤◌, ◌++◌, min, length, IfOk, OnOk};
ghost use Rattle.ab_num.specs.declared.party.Party.TheVariants.{Replica};
ghost use Rattle.ab_seal.specs.Sealing.{answer_tags, forward_tags, own_tags, tag_for, tags_at};

use crate::tags::tag_made;
use ab_hist::{Reply, Request, copy_reply};
use ab_keys::KeyRing;
use ab_msg::{Content, TagBetween};
use ab_num::{OutOfMemory, Party};
use ab_write::content_bytes;
use std::alloc::Global;

/// A request on its way along a chain, without the tags.
#[derive(Clone, Copy)]
pub(crate) struct Passing<'a> {
    pub(crate) instance: u32,
    pub(crate) request: &'a Request,
    pub(crate) n: u16,
    pub(crate) d: &'a [u8; 32],
    pub(crate) reply: &'a Option<Reply>,
}

/// The tag of the ring's party for another.
fn tag_for(k: &KeyRing, text: &[u8], to: Party) -> TagBetween
    ensures { result ≡ tag_for k.now text.now to }
{
    TagBetween {
        by: k.me(),
        to,
        tag: tag_made(k, to, text),
    }
}

/// The tags of position `p` for those behind it.
fn forward_tags(
    alloc: Global,
    k: &KeyRing,
    instance: u32,
    text: &[u8],
    p: u8,
) -> Result<Vec<TagBetween>, OutOfMemory>
    requires instance { 1 ≤ instance }
    requires position { p ≤ 3 * k.now.f + 1 }
    ensures { IfOk result (λ v. v.items ≡ forward_tags k.now instance text.now p) }
{
    let c = k.cluster();
    let reach = (c.f + 1).min(c.replicas() - p);
    let mut tags = Vec::with_capacity(alloc, 3)?;
    'positions: for i in 0..reach {
        let r = c.at_position(instance, p + 1 + i);
        tags.push(tag_for(k, text, Party::Replica(r)))?;
    }
    Ok(tags)
}

/// Adds the tag for the client, where position `p` of replica `r` has one.
fn add_answer(
    alloc: Global,
    k: &KeyRing,
    l: &Passing<'_>,
    r: u8,
    p: u8,
    tags: &mut Vec<TagBetween>,
) -> Result<(), OutOfMemory>
    ensures { OnOk result (tags.new.items ≡ tags.old.items ++ answer_tags k.now l.now.instance l.now.request.now l.now.n l.now.d.now l.now.reply.now r p) }
{
    let Some(reply) = l.reply else {
        return Ok(());
    };
    if p <= 2 * k.cluster().f {
        return Ok(());
    }
    let answer = Content::Resp {
        maker: Party::Replica(r),
        instance: l.instance,
        client: l.request.client,
        stamp: l.request.stamp,
        n: l.n,
        d: *l.d,
        reply: copy_reply(reply),
    };
    let text = content_bytes(alloc, &answer)?;
    tags.push(tag_for(k, &text, Party::Client(l.request.client)))?;
    Ok(())
}

/// The tags of replica `r` as position `p`.
fn tags_at(
    alloc: Global,
    k: &KeyRing,
    l: &Passing<'_>,
    r: u8,
    p: u8,
) -> Result<Vec<TagBetween>, OutOfMemory>
    requires instance { 1 ≤ l.now.instance }
    requires position { p ≤ 3 * k.now.f + 1 }
    ensures { IfOk result (λ v. v.items ≡ tags_at k.now l.now.instance l.now.request.now l.now.n l.now.d.now l.now.reply.now r p) }
{
    let passed = Content::ChainTag {
        maker: Party::Replica(r),
        instance: l.instance,
        client: l.request.client,
        stamp: l.request.stamp,
        n: l.n,
        d: *l.d,
    };
    let text = content_bytes(alloc, &passed)?;
    let mut tags = forward_tags(alloc, k, l.instance, &text, p)?;
    add_answer(alloc, k, l, r, p, &mut tags)?;
    Ok(tags)
}

/// The tags of the ring's party.
pub(crate) fn own_tags(
    alloc: Global,
    k: &KeyRing,
    l: &Passing<'_>,
) -> Result<Vec<TagBetween>, OutOfMemory>
    requires { 1 ≤ l.now.instance }
    ensures tags { IfOk result (λ v. v.items ≡ own_tags k.now k.now.me l.now.instance l.now.request.now l.now.n l.now.d.now l.now.reply.now) }
    ensures few { IfOk result (λ v. length v.items ≤ 3) }
{
    let c = k.cluster();
    match k.me() {
        Party::Replica(r) => {
            let p = c.position_of(l.instance, r);
            let tags = tags_at(alloc, k, l, r, p)?;
            Ok(tags)
        }
        Party::Client(_) => Ok(Vec::new(alloc)),
    }
}
