//! One claim of a message, without memory.

ghost use Rattle.std.specs.Prelude.{◌≡◌, ◌≤◌, length, IfOk, IfSome};
ghost use Rattle.ab_msg.specs.Claims.{maker_of, spec_of};
ghost use Rattle.ab_msg.specs.Contents.{spell_content};
ghost use Rattle.ab_content.specs.Views.{zcert};
ghost use Rattle.ab_check.specs.Chains.{said};
ghost use Rattle.ab_check.specs.Listing.{IsClaim, bytes_of, claimed};

use crate::chain::{PassingRef, said_text, spec_text};
use crate::stated_bytes::StatedBytes;
use crate::text::{prepare_text, request_text};
use ab_content::{ContentRef, RequestRef, ZcertRef};
use ab_hist::{History, array_of};
use ab_msg::Content;
use ab_num::{OutOfMemory, Party};
use std::alloc::Global;

/// A content that was checked: one that stands in the message with its bytes, or one that the message
/// only leads to.
#[derive(Clone, Copy, Debug)]
pub enum ClaimRef<'a> {
    Received {
        content: ContentRef<'a>,
        bytes: &'a [u8],
    },
    /// What a client asks.
    Asked {
        instance: u32,
        request: RequestRef<'a>,
    },
    /// What replica `r` states of a request in a chain.
    Said {
        link: PassingRef<'a>,
        r: u8,
    },
    /// The answer of a replica that a certificate has.
    Answered {
        instance: u32,
        zcert: ZcertRef<'a>,
        replica: u8,
    },
    /// What a replica states of a slot that a view change names.
    Prepared {
        replica: u8,
        instance: u32,
        view: u32,
        slot: u8,
        x: &'a [u8; 32],
    },
}

/// What replica `r` states of a request in a chain, as a content of its own.
fn own_said(link: &PassingRef<'_>, r: u8) -> Content
    requires { IfSome link.now.reply (λ reply. length reply.now ≤ 72) }
    ensures { result ≡ said link.now r }
{
    let d = *link.d;
    match link.reply {
        Some(reply) => Content::Resp {
            maker: Party::Replica(r),
            instance: link.instance,
            client: link.client,
            stamp: link.stamp,
            n: link.n,
            d,
            reply: array_of(reply),
        },
        None => Content::ChainTag {
            maker: Party::Replica(r),
            instance: link.instance,
            client: link.client,
            stamp: link.stamp,
            n: link.n,
            d,
        },
    }
}

/// The answer of a replica that a certificate has, as a content of its own.
fn own_answer(instance: u32, z: &ZcertRef<'_>, replica: u8) -> Content
    requires { length z.now.reply.now ≤ 72 }
    ensures { result ≡ spec_of instance (zcert z.now) replica }
{
    let d = *z.d;
    Content::Spec {
        maker: Party::Replica(replica),
        instance,
        client: z.client,
        stamp: z.stamp,
        n: z.n,
        d,
        reply: array_of(z.reply),
    }
}

impl<'a> ClaimRef<'a> {
    /// Who states it.
    #[tactic(auto, using(crate::proofs::ListLemmas::said_maker))]
    pub fn maker(&self) -> Party
        ensures { result ≡ maker_of (claimed self.now) }
    {
        match self {
            ClaimRef::Received { content, .. } => content.maker(),
            ClaimRef::Asked { request, .. } => Party::Client(request.client),
            ClaimRef::Said { r, .. } => Party::Replica(*r),
            ClaimRef::Answered { replica, .. } => Party::Replica(*replica),
            ClaimRef::Prepared { replica, .. } => Party::Replica(*replica),
        }
    }

    /// The bytes that its maker tags or signs.
    pub fn text(&self) -> StatedBytes<'a>
        requires { IsClaim self.now }
        ensures { bytes_of result ≡ spell_content (claimed self.now) }
    {
        match self {
            ClaimRef::Received { bytes, .. } => StatedBytes::Received(bytes),
            ClaimRef::Asked { instance, request } => {
                StatedBytes::Made(request_text(*instance, request))
            }
            ClaimRef::Said { link, r } => StatedBytes::Made(said_text(link, *r)),
            ClaimRef::Answered {
                instance,
                zcert,
                replica,
            } => StatedBytes::Made(spec_text(*instance, zcert, *replica)),
            ClaimRef::Prepared {
                replica,
                instance,
                view,
                slot,
                x,
            } => StatedBytes::Made(prepare_text(*replica, *instance, *view, *slot, x)),
        }
    }

    /// The same content, with parts of its own, of which a history shares what it has in common with that one.
    pub fn own_like(self, alloc: Global, like: Option<&History>) -> Result<Content, OutOfMemory>
        requires { IsClaim self }
        ensures { IfOk result (λ c. c ≡ claimed self.entry) }
    {
        match self {
            ClaimRef::Received { content, .. } => content.own_like(alloc, like),
            ClaimRef::Asked { instance, request } => Ok(Content::Req {
                maker: Party::Client(request.client),
                instance,
                request: request.own(),
            }),
            ClaimRef::Said { link, r } => Ok(own_said(&link, r)),
            ClaimRef::Answered {
                instance,
                zcert,
                replica,
            } => Ok(own_answer(instance, &zcert, replica)),
            ClaimRef::Prepared {
                replica,
                instance,
                view,
                slot,
                x,
            } => Ok(Content::Prepare {
                maker: Party::Replica(replica),
                instance,
                view,
                slot,
                x: *x,
            }),
        }
    }
}
