//! What a party states in a message that it sends.

ghost use Rattle.std.specs.Prelude.{◌≡◌, map, IfOk, IsTrue};
ghost use Rattle.ab_keys.specs.Keys.{is_party};
ghost use Rattle.ab_msg.specs.Claims.{fresh};
ghost use Rattle.ab_msg.specs.Contents.{spell_content};
ghost use Rattle.ab_msg.specs.Messages.{IsDraft};

use crate::passing::Passing;
use crate::texts::Texts;
use ab_msg::Msg;
use ab_num::{Cluster, OutOfMemory, Party};
use std::alloc::Global;

/// The bytes of each content that party `p` states in a message that it sends. A certificate, and the
/// view changes behind a NEW-VIEW, were stated before.
pub fn stated(alloc: Global, k: &Cluster, p: Party, m: &Msg) -> Result<Texts, OutOfMemory>
    requires draft { IsDraft m.now }
    requires party { IsTrue (is_party k.now.f k.now.clients p) }
    ensures { IfOk result (λ x. x ≡ map spell_content (fresh k.now.f p m.now)) }
{
    match m {
        Msg::Req { content, .. } => Texts::one(alloc, content),
        Msg::Order { content, .. } => Texts::one(alloc, content),
        Msg::Resp { content, .. } => Texts::one(alloc, content),
        Msg::Chain {
            instance,
            request,
            n,
            d,
            reply,
            ..
        } => {
            let link = Passing {
                instance: *instance,
                request,
                n: *n,
                d,
                reply,
            };
            link.passed(alloc, k, p)
        }
        Msg::Panic { content, .. } => Texts::one(alloc, content),
        Msg::Abort { abort } => Texts::one(alloc, &abort.content),
        Msg::Init { .. } => Ok(Texts::none(alloc)),
        Msg::PrePrepare { content, .. } => Texts::one(alloc, content),
        Msg::Prepare { prepare } => Texts::one(alloc, &prepare.content),
        Msg::Commit { content, .. } => Texts::one(alloc, content),
        Msg::ViewChange { change } => Texts::one(alloc, &change.change.content),
        Msg::NewView { content, .. } => Texts::one(alloc, content),
        Msg::Checkpoint { content, .. } => Texts::one(alloc, content),
        Msg::LocalCommit { content, .. } => Texts::one(alloc, content),
        Msg::Spec { spec } => Texts::one(alloc, &spec.content),
        Msg::Cert { .. } => Ok(Texts::none(alloc)),
    }
}
