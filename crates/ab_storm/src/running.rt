//! A storm is run: its events are drawn, each where the world stands after those before it, and kept.

ghost use Rattle.std.specs.Prelude.{◌≡◌, ◌<◌, ◌≤◌, ◌++◌, ◌∷◌, ◌*◌, ◌+◌, [], ℕ, All, IsTrue, IsSome, IfOk, IfErr, OnOk, Ok, Some, length};
ghost use Rattle.ab_num.specs.Places.{kind_of};
ghost use Rattle.ab_num.specs.Limits.{most_events};
ghost use Rattle.ab_text.specs.EventLines.{IsEvent};
ghost use Rattle.ab_world.specs.Runs.{outcome};
ghost use Rattle.ab_world.specs.Steps.{stepped};
ghost use Rattle.ab_world.specs.Worlds.{World as TheWorld};
ghost use Rattle.ab_party.specs.Clusters.{IsSized};
ghost use Rattle.ab_storm.specs.Standing.{Goes};
ghost use Rattle.ab_storm.specs.Runs.{idle_of, drawn_at, drawn_events, end_of, storm_setup, StepCause, EndCause, StormCause};
ghost use Rattle.ab_storm.specs.Drawn.{Draws};

use crate::generator::Storm;
use ab_abs::Protocol;
use ab_cast::Setup;
use ab_num::{Height, OutOfMemory, Scheme};
use ab_svc::Service;
use ab_text::{Event, Items};
use ab_words::StormCommand;
use ab_world::{World, WorldFault};
use std::alloc::Global;
use std::mem::drop;
use thiserror::Error;

/// Why a storm doesn't run to its end, or has no summary.
#[derive(Clone, Copy, Debug, PartialEq, Eq, Error)]
pub enum StormFault {
    /// The bytes of its packets would pass what a world keeps.
    #[error("the packets would pass their limit")]
    TooManyPackets,
    #[error("out of memory")]
    OutOfMemory,
}

impl From<OutOfMemory> for StormFault {
    ghost use Rattle.std.specs.Prelude.{◌≡◌};
    ghost use Rattle.ab_storm.specs.declared.running.StormFault.TheVariants.{OutOfMemory as NoMemory};

    ghost from_gives = { λ _ e. e ≡ NoMemory };

    fn from(_refused: OutOfMemory) -> StormFault {
        StormFault::OutOfMemory
    }
}

/// What a storm leads to: the events that it drew, and the world after them.
#[derive(Drop)]
pub struct Stormed<S: Service, P: Protocol<S>> {
    pub events: Items<Event>,
    pub world: World<S, P>,
}

/// For each number whether it is that of a client who has no request open.
pub fn idle_clients<S: Service, P: Protocol<S>>(world: &World<S, P>) -> [bool; 16]
    ensures { result ≡ idle_of world.now }
{
    world.idle()
}

/// What ends a storm where an event that it drew was not taken.
pub fn ended_by(fault: WorldFault) -> StormFault
    requires { IsSome (end_of fault) }
    ensures { Some result ≡ end_of fault }
{
    match fault {
        WorldFault::PacketLimit => StormFault::TooManyPackets,
        WorldFault::OutOfMemory => StormFault::OutOfMemory,
        WorldFault::EventLimit | WorldFault::BadCommand => unreachable!(),
        WorldFault::NoPacket | WorldFault::BadParty | WorldFault::Busy => unreachable!(),
    }
}

/// Keeps an event behind others.
fn keep(kept: &mut Items<Event>, event: Event) -> Result<(), StormFault>
    ensures ok { OnOk result (kept.new ≡ kept.old ++ event ∷ []) }
    ensures err { IfErr result (λ e. e ≡ StormFault.OutOfMemory) }
{
    match kept.push(event) {
        Ok(()) => Ok(()),
        Err(_) => Err(StormFault::OutOfMemory),
    }
}

/// One event more, drawn where the world stands, and kept behind those before it.
fn step<S: Service, P: Protocol<S>>(
    alloc: Global,
    storm: &mut Storm,
    world: &mut World<S, P>,
    kept: &mut Items<Event>,
) -> Result<(), StormFault>
    requires goes { Goes storm.old world.old }
    requires few { world.old.cast.events < most_events }
    ensures ok { OnOk result (stepped P.proto world.old (drawn_at storm.old world.old).0 ≡ Ok world.new) }
    ensures kept { OnOk result (kept.new ≡ kept.old ++ (drawn_at storm.old world.old).0 ∷ []) }
    ensures line { IsEvent (drawn_at storm.old world.old).0 }
    ensures next { storm.new ≡ (drawn_at storm.old world.old).1 }
    ensures cause { IfErr result (λ e. StepCause e (stepped P.proto world.old (drawn_at storm.old world.old).0)) }
{
    let event = storm.next(world.packets(), &idle_clients(world));
    match world.step(alloc, &event) {
        Ok(()) => keep(kept, event),
        Err(fault) => Err(ended_by(fault)),
    }
}

/// So many events, one after another.
fn draw_events<S: Service, P: Protocol<S>>(
    alloc: Global,
    storm: &mut Storm,
    world: &mut World<S, P>,
    events: u32,
) -> Result<Items<Event>, StormFault>
    requires few { events ≤ most_events }
    requires goes { Goes storm.old world.old }
    requires begins { world.old.cast.events ≡ 0 }
    ensures ok { OnOk result (outcome P.proto 1 world.old (drawn_events P.proto events storm.old world.old) ≡ Ok world.new) }
    ensures goes { OnOk result (Goes storm.new world.new) }
    ensures kept { IfOk result (λ kept. kept ≡ drawn_events P.proto events storm.old world.old) }
    ensures lines { IfOk result (λ kept. All IsEvent kept) }
    ensures cause { IfErr result (λ e. EndCause e (outcome P.proto 1 world.old (drawn_events P.proto events storm.old world.old))) }
{
    let mut kept = Items::new(alloc);
    for _done in 0..events {
        step(alloc, storm, world, &mut kept)?;
    }
    Ok(kept)
}

/// The storm that is asked for, in a cluster with this setup.
fn storm_over<S: Service, P: Protocol<S>>(
    alloc: Global,
    asked: &StormCommand,
    setup: Setup,
) -> Result<Stormed<S, P>, StormFault>
    requires served { (i : ℕ) → 1 ≤ i → IsTrue (P.serves (kind_of asked.now.plan i)) }
    requires few { asked.now.events ≤ most_events }
    requires setup { setup ≡ storm_setup setup.cluster }
    requires sized { IsSized setup.cluster asked.now.f asked.now.clients asked.now.plan 0 }
    ensures ok { IfOk result (λ s. Draws P.proto asked.now s.events s.world) }
    ensures replicas { IfOk result (λ s. length s.world.cast.replicas ≡ 3 * s.world.cast.setup.cluster.f + 1) }
    ensures cause { IfErr result (λ e. StormCause P.proto e asked.now) }
{
    let mut storm = Storm::new(asked.seed(), setup.cluster());
    let mut world = World::<S, P>::new(alloc, setup)?;
    match draw_events(alloc, &mut storm, &mut world, asked.events()) {
        Ok(events) => Ok(Stormed { events, world }),
        Err(fault) => {
            // By a call: in place the parts of each core would be taken apart.
            drop(world);
            Err(fault)
        }
    }
}

/// Runs the storm that is asked for: in a cluster with the service S, trees of height 10 and no faulty party, whose replicas
/// go by P, which serves each kind of the plan. The world has each replica of the cluster.
pub fn storm<S: Service, P: Protocol<S>>(
    alloc: Global,
    asked: &StormCommand,
) -> Result<Stormed<S, P>, StormFault>
    requires served { (i : ℕ) → 1 ≤ i → IsTrue (P.serves (kind_of asked.now.plan i)) }
    requires few { asked.now.events ≤ most_events }
    ensures ok { IfOk result (λ s. Draws P.proto asked.now s.events s.world) }
    ensures replicas { IfOk result (λ s. length s.world.cast.replicas ≡ 3 * s.world.cast.setup.cluster.f + 1) }
    ensures cause { IfErr result (λ e. StormCause P.proto e asked.now) }
{
    let setup = Setup::new(
        alloc,
        asked.cluster(),
        &[],
        Scheme::Lms(Height::Ten),
        &[0; 32],
    )?;
    storm_over(alloc, asked, setup)
}

/// The events of the storm that is asked for, as `storm` draws them.
pub fn storm_events<S: Service, P: Protocol<S>>(
    alloc: Global,
    asked: &StormCommand,
) -> Result<Items<Event>, StormFault>
    requires served { (i : ℕ) → 1 ≤ i → IsTrue (P.serves (kind_of asked.now.plan i)) }
    requires few { asked.now.events ≤ most_events }
    ensures ok { IfOk result (λ events. (end : TheWorld P) × Draws P.proto asked.now events end) }
    ensures cause { IfErr result (λ e. StormCause P.proto e asked.now) }
{
    match storm::<S, P>(alloc, asked) {
        Ok(Stormed { events, world }) => {
            drop(world);
            Ok(events)
        }
        Err(fault) => Err(fault),
    }
}
