//! Logs of instances that replicas left, in a run of four replicas of Quorum.

ghost use Rattle.std.specs.Prelude.{◌≡◌};
ghost use Rattle.ab_num.specs.declared.plan.Plan.TheVariants.{Quorum as QuorumPlan};
ghost use Rattle.ab_abs.specs.Promises.{ServesAll};

use ab_abs::Protocol;
use ab_cast::Setup;
use ab_keys::is_party;
use ab_num::{Cluster, Height, Party, Plan, Scheme};
use ab_quorum::Quorum;
use ab_svc::{Echo, Service};
use ab_text::{Core, Event};
use ab_world::World;
use arrayvec::ArrayVec;
use std::alloc::Global;

/// Client 0's only core.
const CLIENT: Core = Core {
    party: Party::Client(0),
    twin: None,
};

/// The packets that are delivered once the client has waited for too long: PANICs to replicas 0 to 2, their
/// ABORTs, and the certificate to replica 0, which enters instance 2 by it.
const PACKETS: [u64; 7] = [6, 7, 8, 10, 11, 12, 13];

/// Whether the packet is delivered.
fn delivers<S: Service, P: Protocol<S>>(
    alloc: Global,
    world: &mut World<S, P>,
    packet: u64,
) -> bool {
    let event = Event::Deliver { packet, core: None };
    world.step(alloc, &event).is_ok()
}

/// Whether replica 0 alone takes a request in instance 1, and then enters instance 2.
fn switches<S: Service, P: Protocol<S>>(alloc: Global, world: &mut World<S, P>) -> bool {
    let mut command = ArrayVec::new();
    command.push(b'a');
    let core = CLIENT;
    let asked = world.step(alloc, &Event::Invoke { core, command }).is_ok();
    let taken = delivers(alloc, world, 1);
    let waited = world.step(alloc, &Event::Timeout { core }).is_ok();
    let mut happened = asked && taken && waited;
    for packet in PACKETS {
        happened &= delivers(alloc, world, packet);
    }
    happened && world.instance_of(0) == Some(2)
}

/// How many requests there are in the log that replica `r` had or has in instance `i`.
fn logged<S: Service, P: Protocol<S>>(world: &World<S, P>, i: u32, r: u8) -> Option<usize> {
    let log = world.log_of(i, r)?;
    Some(log.len())
}

/// Whether the logs of replicas 0, which left instance 1 with one request, 1, which is still in it, and 3, which
/// is faulty, are told.
fn tells<S: Service, P: Protocol<S>>(world: &World<S, P>) -> bool {
    let left = logged(world, 1, 0) == Some(1);
    let present = logged(world, 2, 0) == Some(0) && logged(world, 1, 1) == Some(0);
    let never = logged(world, 3, 0) == None && logged(world, 2, 1) == None;
    left && present && never && logged(world, 1, 3) == None
}

/// Whether a cluster with this setup switches and tells its logs.
fn switches_and_tells<S: Service, P: Protocol<S>>(alloc: Global, setup: Setup) -> bool
    requires { ServesAll P.serves setup.cluster }
{
    let Ok(mut world) = World::<S, P>::new(alloc, setup) else {
        return false;
    };
    let done = switches(alloc, &mut world) && tells(&world);
    drop(world);
    done
}

/// Whether a cluster of Quorum does, whose replica 3 is faulty.
fn cluster_tells(alloc: Global, cluster: &Cluster) -> bool
    requires { cluster.now.plan ≡ QuorumPlan }
{
    let faulty = Party::Replica(3);
    if !is_party(cluster, faulty) {
        return false;
    }
    match Setup::new(
        alloc,
        cluster,
        &[(faulty, 1)],
        Scheme::Lms(Height::Five),
        &[0; 32],
    ) {
        Ok(setup) => switches_and_tells::<Echo, Quorum<Echo>>(alloc, setup),
        Err(_) => false,
    }
}

#[test]
fn logs_of_instances_that_were_left(rt: HostRuntime) {
    let alloc = rt.alloc();
    let done = match Cluster::new(1, 1, Plan::Quorum, 0) {
        Some(cluster) => cluster_tells(alloc, &cluster),
        None => false,
    };
    assert!(rt; done);
}
