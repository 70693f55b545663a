//! What correct parties state in what they send.

ghost use Rattle.std.specs.Prelude.{◌≡◌, All, IsTrue, OnOk, map, flat_map};
ghost use Rattle.std.specs.List.{fold};
ghost use Rattle.ab_keys.specs.Keys.{is_party};
ghost use Rattle.ab_msg.specs.Claims.{fresh, stated};
ghost use Rattle.ab_msg.specs.Contents.{spell_content};
ghost use Rattle.ab_msg.specs.Messages.{IsDraft};
ghost use Rattle.ab_run.specs.Forms.{IsDraftOf};
ghost use Rattle.ab_run.specs.Stages.{keep};

use crate::statements::Statements;
use ab_msg::{Msg, Out};
use ab_num::{Cluster, OutOfMemory, Party};
use ab_seal::stated;
use std::alloc::Global;

/// Keeps what a party states in a message.
fn state_message(
    alloc: Global,
    k: &Cluster,
    party: Party,
    made: &mut Statements,
    m: &Msg,
) -> Result<(), OutOfMemory>
    requires party { IsTrue (is_party k.now.f k.now.clients party) }
    requires draft { IsDraft m.now }
    ensures { OnOk result (made.new ≡ fold keep made.old (map spell_content (fresh k.now.f party m.now))) }
{
    let texts = stated(alloc, k, party, m)?;
    'texts: for text in texts.into_vec() {
        made.add(alloc, text)?;
    }
    Ok(())
}

/// Keeps what a party of the cluster states in what it sends.
pub(crate) fn state(
    alloc: Global,
    k: &Cluster,
    party: Party,
    made: &mut Statements,
    outs: &[Out],
) -> Result<(), OutOfMemory>
    requires party { IsTrue (is_party k.now.f k.now.clients party) }
    requires drafts { All (IsDraftOf k.now.f party) outs.now }
    ensures { OnOk result (made.new ≡ fold keep made.old (map spell_content (flat_map (λ o. stated k.now.f party o.msg) outs.now))) }
{
    for out in outs {
        state_message(alloc, k, party, made, &out.msg)?;
    }
    Ok(())
}
