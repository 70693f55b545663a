//! One message to each other replica.

ghost use Rattle.std.specs.Prelude.{◌≡◌, ◌+◌, ◌*◌, ◌++◌, ◌==◌, IfOk, OnOk, unwrap_or};
ghost use Rattle.std.specs.List.{find};
ghost use Rattle.std.specs.Option.{option_map};
ghost use Rattle.ab_wire.specs.Inside.{tag_in};
ghost use Rattle.ab_msg.specs.Slots.{slot_digest};
ghost use Rattle.ab_pbft_shelf.specs.Posts.{to_others, no_tag, tag_for, offer_to, offer_message};

use crate::author::Author;
use crate::kept::Tagged;
use crate::shelf::Shelf;
use ab_msg::{Content, Msg, NO_TAG, Offer, Out, Tag, Value};
use ab_num::{OutOfMemory, Party};
use ab_slots::slot_digest;
use std::alloc::Global;
use std::mem::drop;

/// Adds the same message to each other replica.
fn tell(alloc: Global, by: &Author, msg: &Msg, outs: &mut Vec<Out>) -> Result<(), OutOfMemory>
    ensures { OnOk result (outs.new.items ≡ outs.old.items ++ to_others (3 * by.now.cluster.f + 1) by.now.me (λ r. msg.now)) }
{
    for r in 0..by.cluster.replicas() {
        if r != by.me {
            let msg = msg.copy(alloc)?;
            outs.push(Out {
                to: Party::Replica(r),
                msg,
            })?;
        }
    }
    Ok(())
}

/// The same of a message of its own.
pub(crate) fn tell_all(
    alloc: Global,
    by: &Author,
    msg: Msg,
    outs: &mut Vec<Out>,
) -> Result<(), OutOfMemory>
    ensures { OnOk result (outs.new.items ≡ outs.old.items ++ to_others (3 * by.now.cluster.f + 1) by.now.me (λ r. msg)) }
{
    let told = tell(alloc, by, &msg, outs);
    // A call lets it go: in place each of its forms would be taken apart.
    drop(msg);
    told
}

/// The first tag for a replica.
fn tag_in(tags: &[(u8, Tag)], r: u8) -> Option<&(u8, Tag)>
    ensures { option_map (λ t. t.now) result ≡ find (λ t. t.0 == r) tags.now }
{
    tags.iter().find(|t| t.0 == r)
}

/// The tags of a client's last request.
fn tagged_for(tagged: &[Tagged], client: u16) -> Option<&Tagged>
    ensures { option_map (λ t. t.now) result ≡ find (λ t. t.client == client) tagged.now }
{
    tagged.iter().find(|t| t.client == client)
}

/// The tag for a replica among these, zeros where there is none.
fn tag_among(tags: &[(u8, Tag)], r: u8) -> Tag
    ensures { result ≡ unwrap_or (tag_in r tags.now) no_tag }
{
    match tag_in(tags, r) {
        Some(t) => t.1,
        None => NO_TAG,
    }
}

/// The tag of a client's last request for a replica, zeros where there is none.
fn tag_for(tagged: &[Tagged], client: u16, r: u8) -> Tag
    ensures { result ≡ tag_for client tagged.now r }
{
    match tagged_for(tagged, client) {
        Some(t) => tag_among(t.tags.as_slice(), r),
        None => NO_TAG,
    }
}

/// What a PRE-PREPARE of a value offers to a replica.
fn offer_to(alloc: Global, shelf: &Shelf, value: &Value, r: u8) -> Result<Offer, OutOfMemory>
    ensures { IfOk result (λ o. o ≡ offer_to shelf.now value.now r) }
{
    match value {
        Value::Base(_) => {
            let entry = shelf.entry.copy(alloc)?;
            Ok(Offer::Base(entry))
        }
        Value::Request(m) => Ok(Offer::Request {
            request: m.copy(),
            tag: tag_for(shelf.tagged.as_slice(), m.client, r),
        }),
    }
}

/// The PRE-PREPARE of a value with the digest `x` to a replica.
fn offer_message(
    alloc: Global,
    by: &Author,
    shelf: &Shelf,
    view: u32,
    slot: u8,
    value: &Value,
    x: &[u8; 32],
    r: u8,
) -> Result<Msg, OutOfMemory>
    requires { x.now ≡ slot_digest value.now }
    ensures { IfOk result (λ m. m ≡ offer_message by.now shelf.now view slot value.now r) }
{
    let offer = offer_to(alloc, shelf, value, r)?;
    let content = Content::PrePrepare {
        maker: Party::Replica(by.me),
        instance: by.instance,
        view,
        slot,
        x: *x,
    };
    Ok(Msg::PrePrepare {
        content,
        tag: NO_TAG,
        offer,
    })
}

/// Adds the PRE-PREPARE of a value for a slot of a view to each other replica.
pub(crate) fn tell_offer(
    alloc: Global,
    by: &Author,
    shelf: &Shelf,
    view: u32,
    slot: u8,
    value: &Value,
    outs: &mut Vec<Out>,
) -> Result<(), OutOfMemory>
    ensures { OnOk result (outs.new.items ≡ outs.old.items ++ to_others (3 * by.now.cluster.f + 1) by.now.me (offer_message by.now shelf.now view slot value.now)) }
{
    let x = slot_digest(value);
    for r in 0..by.cluster.replicas() {
        if r != by.me {
            let msg = offer_message(alloc, by, shelf, view, slot, value, &x, r)?;
            outs.push(Out {
                to: Party::Replica(r),
                msg,
            })?;
        }
    }
    Ok(())
}
