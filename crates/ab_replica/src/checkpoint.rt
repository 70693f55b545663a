//! The CHECKPOINT that a replica sends.

ghost use Rattle.std.specs.Prelude.{◌≡◌, ◌+◌, ◌*◌, ◌<◌, ◌≤◌, [], IfOk, replicate};
ghost use Rattle.std.specs.Vec.{vec_capacity};
ghost use Rattle.ab_num.specs.declared.party.Party.TheVariants.{Replica};
ghost use Rattle.ab_msg.specs.declared.content.Content.TheVariants.{Checkpoint};
ghost use Rattle.ab_msg.specs.declared.message.Msg.TheVariants.{Checkpoint as Told};
ghost use Rattle.ab_run.specs.Checkpoints.{to_others};

use ab_msg::{Content, Msg, NO_TAG, Out};
use ab_num::{Cluster, OutOfMemory, Party};
use std::alloc::Global;

/// Room for a CHECKPOINT to each other replica, if any is ever due in the cluster.
pub(crate) fn room_for(alloc: Global, c: &Cluster) -> Result<Vec<Out>, OutOfMemory>
    ensures empty { IfOk result (λ room. room.items ≡ []) }
    ensures enough { IfOk result (λ room. 0 < c.now.every → 3 * c.now.f + 1 ≤ vec_capacity room) }
{
    if c.every == 0 {
        return Ok(Vec::new(alloc));
    }
    let room = Vec::with_capacity(alloc, usize::from(c.replicas()))?;
    Ok(room)
}

/// The CHECKPOINT of replica `me` in instance `i` of its first `n` entries, which have that digest, to replica `to`.
fn checkpoint_to(to: u8, i: u32, me: u8, n: u16, digest: &[u8; 32]) -> Out
    ensures { result ≡ record { to = Replica to; msg = Told (Checkpoint (Replica me) i n digest.now) (replicate 32 0) } }
{
    let content = Content::Checkpoint {
        maker: Party::Replica(me),
        instance: i,
        n,
        d: *digest,
    };
    Out {
        to: Party::Replica(to),
        msg: Msg::Checkpoint {
            content,
            tag: NO_TAG,
        },
    }
}

/// Adds it for each other replica.
pub(crate) fn tell_others(
    last: &mut Vec<Out>,
    replicas: u8,
    i: u32,
    me: u8,
    n: u16,
    digest: &[u8; 32],
)
    requires empty { last.old.items ≡ [] }
    requires room { replicas ≤ vec_capacity last.old }
    ensures { last.new.items ≡ to_others replicas me (Told (Checkpoint (Replica me) i n digest.now) (replicate 32 0)) }
{
    for r in 0..replicas {
        if r != me {
            match last.push(checkpoint_to(r, i, me, n, digest)) {
                Ok(()) => {}
                Err(_) => unreachable!(),
            }
        }
    }
}
