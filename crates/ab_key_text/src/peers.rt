//! The parties that have lines of their own.

ghost use Rattle.std.specs.Prelude.{◌≡◌, ◌≤◌, IfOk, length};
ghost use Rattle.ab_keys.specs.Rings.{parties};
ghost use Rattle.ab_key_text.specs.Keys.{peers_in, replicas};

use ab_keys::exchanges;
use ab_num::{Cluster, OutOfMemory, Party};
use std::alloc::Global;

/// The replicas, ascending.
pub fn replicas(alloc: Global, c: &Cluster) -> Result<Vec<Party>, OutOfMemory>
    ensures replicas { IfOk result (λ v. v.items ≡ replicas c.now.f) }
    ensures few { IfOk result (λ v. length v.items ≤ 7) }
{
    Ok((0..c.replicas()).map(Party::Replica).collect(alloc)?)
}

/// The parties that `me` exchanges tags with: replicas ascending, then clients ascending.
#[tactic(auto, unfolding(ab_keys::specs::Rings::parties))]
pub(crate) fn peers_in(alloc: Global, c: &Cluster, me: Party) -> Result<Vec<Party>, OutOfMemory>
    ensures peers { IfOk result (λ v. v.items ≡ peers_in c.now.f c.now.clients me) }
    ensures few { IfOk result (λ v. length v.items ≤ 23) }
{
    let replicas = (0..c.replicas()).map(Party::Replica);
    let clients = (0..c.clients).map(Party::Client);
    Ok(
        replicas
            .chain(clients)
            .filter(|p| exchanges(me, *p))
            .collect(alloc)?,
    )
}
