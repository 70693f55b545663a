//! Events are kept.

ghost use Rattle.std.specs.Prelude.{◌≤◌, OnOk, length, [], ◌∷◌};
ghost use Rattle.ab_loop.specs.Cores.{event_of};
ghost use Rattle.ab_loop.specs.Edges.{LeavesFront, Retains, keep_state};
ghost use Rattle.ab_loop.specs.Nodes.{kept_of};
ghost use Rattle.ab_loop.specs.Past.{body_of as the_body};

use crate::fault::ServeFault;
use crate::party_core::NodeEventRef;
use crate::past::body_of;
use ab_disk::{Disk, KeepFault, Keeper};
use ab_num::OutOfMemory;
use std::alloc::Global;

/// Keeps a body.
fn keep_body<D: Disk, J: Keeper<D>>(
    alloc: Global,
    body: &[u8],
    keeper: &mut J,
    disk: &mut D,
) -> Result<(), ServeFault>
    requires body { length body.now ≤ 4194305 }
    requires ready { J.ready keeper.old disk.old }
    ensures ready { OnOk result (J.ready keeper.new disk.new) }
    ensures retains { Retains (keep_state D.model J.kept keeper.old disk.old) (keep_state D.model J.kept keeper.new disk.new) (body.now ∷ []) result }
    ensures any_moment { LeavesFront D.model J.list_of (J.kept keeper.old disk.old) disk.old disk.new (body.now ∷ []) }
{
    match keeper.keep(alloc, disk, body) {
        Ok(()) => Ok(()),
        Err(KeepFault::Failed) => Err(ServeFault::KeepFailed),
        Err(KeepFault::OutOfMemory) => Err(ServeFault::OutOfMemory),
    }
}

/// Keeps an event, but for a message that didn't open.
pub(crate) fn keep<D: Disk, J: Keeper<D>>(
    alloc: Global,
    opened: bool,
    input: &NodeEventRef<'_>,
    keeper: &mut J,
    disk: &mut D,
) -> Result<(), ServeFault>
    requires short { length (the_body (event_of input.now)) ≤ 4194305 }
    requires ready { J.ready keeper.old disk.old }
    ensures ready { OnOk result (J.ready keeper.new disk.new) }
    ensures retains { Retains (keep_state D.model J.kept keeper.old disk.old) (keep_state D.model J.kept keeper.new disk.new) (kept_of opened (event_of input.now)) result }
    ensures any_moment { LeavesFront D.model J.list_of (J.kept keeper.old disk.old) disk.old disk.new (kept_of opened (event_of input.now)) }
{
    if !opened {
        return Ok(());
    }
    match body_of(alloc, input) {
        Ok(body) => keep_body(alloc, body.as_slice(), keeper, disk),
        Err(OutOfMemory) => Err(ServeFault::OutOfMemory),
    }
}
