//! Schedules are run.

ghost use Rattle.std.specs.Prelude.{◌≡◌, ◌<◌, ◌^◌, [], ◌∷◌, ◌++◌, All, IfErr, IfOk, IsTrue, None, Ok, OnOk, length};
ghost use Rattle.ab_text.specs.Schedules.{script_of};
ghost use Rattle.ab_abs.specs.Promises.{ServesAll};
ghost use Rattle.ab_keys.specs.Keys.{is_party};
ghost use Rattle.ab_world.specs.Runs.{outcome};
ghost use Rattle.ab_replay.specs.Replays.{counts_in, counts_of, run_in, EventsCause};

use crate::fault::{ReplayFault, fault_of_step};
use ab_abs::Protocol;
use ab_cast::Setup;
use ab_num::OutOfMemory;
use ab_svc::Service;
use ab_text::{Event, Head};
use ab_world::World;
use std::alloc::Global;
use std::mem::drop;

/// A world at the end of its events, and how many packets there were after each of them.
#[derive(Drop)]
pub struct Played<S: Service, P: Protocol<S>> {
    pub world: World<S, P>,
    pub counts: Vec<u64>,
}

/// Keeps a count behind others.
fn keep(counts: &mut Vec<u64>, count: u64) -> Result<(), OutOfMemory>
    ensures { OnOk result (counts.new.items ≡ counts.old.items ++ count ∷ []) }
{
    counts.push(count)?;
    Ok(())
}

/// Steps through the events, the first of which stands in the line after this one, and gives how many packets
/// there were after each of them.
fn step_through<S: Service, P: Protocol<S>>(
    alloc: Global,
    world: &mut World<S, P>,
    events: &[Event],
    line: u32,
) -> Result<Vec<u64>, ReplayFault>
    requires few { length events.now < 100001 }
    requires begins { (world.old.cast.events ≡ 0) × (world.old.ended ≡ None) }
    requires short { line < 2 ^ 31 }
    ensures ok { OnOk result (outcome P.proto 1 world.old events.now ≡ Ok world.new) }
    ensures counts { IfOk result (λ v. v.items ≡ counts_of P.proto world.old events.now) }
    ensures cause { IfErr result (λ e. EventsCause e line (outcome P.proto 1 world.old events.now)) }
{
    let mut counts = Vec::new(alloc);
    for (i, e) in events.iter().enumerate() {
        match world.step(alloc, e) {
            Ok(()) => {}
            Err(fault) => return Err(fault_of_step(line + 1 + i as u32, fault)),
        }
        keep(&mut counts, world.packets())?;
    }
    Ok(counts)
}

/// Runs the events, the first of which stands in the line after this one, in the cluster that a head sets up. The
/// service is S, and replicas go by P.
pub fn play<S: Service, P: Protocol<S>>(
    alloc: Global,
    head: &Head,
    events: &[Event],
    line: u32,
) -> Result<Played<S, P>, ReplayFault>
    requires served { ServesAll P.serves head.now.cluster }
    requires parties { All (λ e. IsTrue (is_party head.now.cluster.f head.now.cluster.clients e.0)) head.now.faulty }
    requires few { length events.now < 100001 }
    requires short { line < 2 ^ 31 }
    ensures ok { IfOk result (λ p. run_in P.proto head.now.cluster (script_of head.now events.now) ≡ Ok p.world) }
    ensures counts { IfOk result (λ p. p.counts.items ≡ counts_in P.proto head.now.cluster (script_of head.now events.now)) }
    ensures cause { IfErr result (λ e. EventsCause e line (run_in P.proto head.now.cluster (script_of head.now events.now))) }
{
    let setup = Setup::new(
        alloc,
        &head.cluster,
        head.faulty.as_slice(),
        head.lms,
        &head.seed,
    )?;
    let mut world = World::<S, P>::new(alloc, setup)?;
    match step_through(alloc, &mut world, events, line) {
        Ok(counts) => Ok(Played { world, counts }),
        Err(fault) => {
            // By a call: in place the parts of each core would be taken apart.
            drop(world);
            Err(fault)
        }
    }
}
