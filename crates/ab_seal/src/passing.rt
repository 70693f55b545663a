//! What a position of a chain states as it passes a request on.

ghost use Rattle.std.specs.Prelude.{◌≡◌, ◌≤◌, ◌+◌, ◌*◌, map, IfOk, IsTrue};
ghost use Rattle.ab_num.specs.declared.party.Party.TheVariants.{Replica};
ghost use Rattle.ab_keys.specs.Keys.{is_party};
ghost use Rattle.ab_msg.specs.declared.content.Content.TheVariants.{ChainTag, Resp};
ghost use Rattle.ab_msg.specs.Claims.{passed, passed_at};
ghost use Rattle.ab_msg.specs.Contents.{spell_content};

use crate::texts::Texts;
use ab_hist::{Reply, Request, copy_reply};
use ab_msg::Content;
use ab_num::{Cluster, OutOfMemory, Party};
use std::alloc::Global;

/// A request on its way along a chain, with its place in the history, the digest there and the reply.
#[derive(Clone, Copy)]
pub(crate) struct Passing<'a> {
    pub(crate) instance: u32,
    pub(crate) request: &'a Request,
    pub(crate) n: u16,
    pub(crate) d: &'a [u8; 32],
    pub(crate) reply: &'a Option<Reply>,
}

impl<'a> Passing<'a> {
    /// What replica `r` states for positions behind it.
    fn tag_of(&self, r: u8) -> Content
        ensures { result ≡ ChainTag (Replica r) self.now.instance self.now.request.now.client self.now.request.now.stamp self.now.n self.now.d.now }
    {
        Content::ChainTag {
            maker: Party::Replica(r),
            instance: self.instance,
            client: self.request.client,
            stamp: self.request.stamp,
            n: self.n,
            d: *self.d,
        }
    }

    /// What replica `r` answers to the client.
    fn answer_of(&self, r: u8, reply: &Reply) -> Content
        ensures { result ≡ Resp (Replica r) self.now.instance self.now.request.now.client self.now.request.now.stamp self.now.n self.now.d.now reply.now }
    {
        Content::Resp {
            maker: Party::Replica(r),
            instance: self.instance,
            client: self.request.client,
            stamp: self.request.stamp,
            n: self.n,
            d: *self.d,
            reply: copy_reply(reply),
        }
    }

    /// What replica `r` at position `p` states, where `f` may be faulty.
    fn passed_at(&self, alloc: Global, f: u8, r: u8, p: u8) -> Result<Texts, OutOfMemory>
        requires { f ≤ 2 }
        ensures { IfOk result (λ t. t ≡ map spell_content (passed_at f self.now.instance self.now.request.now self.now.n self.now.d.now self.now.reply.now r p)) }
    {
        match self.reply {
            None => Texts::one(alloc, &self.tag_of(r)),
            Some(reply) => {
                if p <= 2 * f {
                    Texts::one(alloc, &self.tag_of(r))
                } else if p < 3 * f + 1 {
                    Texts::two(alloc, &self.tag_of(r), &self.answer_of(r, reply))
                } else {
                    Texts::one(alloc, &self.answer_of(r, reply))
                }
            }
        }
    }

    /// What a party states as it passes the request on. A client passes none on.
    pub(crate) fn passed(&self, alloc: Global, k: &Cluster, p: Party) -> Result<Texts, OutOfMemory>
        requires instance { 1 ≤ self.now.instance }
        requires party { IsTrue (is_party k.now.f k.now.clients p) }
        ensures { IfOk result (λ t. t ≡ map spell_content (passed k.now.f p self.now.instance self.now.request.now self.now.n self.now.d.now self.now.reply.now)) }
    {
        match p {
            Party::Client(_) => Ok(Texts::none(alloc)),
            Party::Replica(r) => {
                let position = k.position_of(self.instance, r);
                self.passed_at(alloc, k.f, r, position)
            }
        }
    }
}
