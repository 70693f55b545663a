//! A storm over the store of keys and values, as a schedule.

ghost use Rattle.std.specs.Prelude.{◌≡◌, ◌≤◌, IfErr, IfOk};
ghost use Rattle.ab_num.specs.Limits.{most_events};
ghost use Rattle.ab_text.specs.Schedules.{script_of};
ghost use Rattle.ab_command.specs.Statuses.{kv};
ghost use Rattle.ab_storm.specs.Runs.{StormCause};
ghost use Rattle.ab_command.specs.Written.{script_in, IsOfStorm, WritesStorm};

use ab_kv::Kv;
use ab_num::{Cluster, Height, Scheme, ServiceName};
use ab_replay::AnyProtocol;
use ab_storm::{StormFault, storm_events};
use ab_text::{Event, Head, Items, Schedule, write_schedule, written_is_spelled};
use ab_words::StormCommand;
use std::alloc::Global;

/// The schedule of these events in a storm's cluster.
fn schedule_in(alloc: Global, cluster: &Cluster, events: Items<Event>) -> Schedule
    ensures { script_of result.head result.events ≡ script_in cluster.now events }
{
    let head = Head {
        cluster: *cluster,
        service: ServiceName::Kv,
        lms: Scheme::Lms(Height::Ten),
        seed: [0; 32],
        faulty: Items::new(alloc),
    };
    Schedule { head, events }
}

/// The schedule of the storm that is asked for.
fn storm_schedule(alloc: Global, asked: &StormCommand) -> Result<Schedule, StormFault>
    requires few { asked.now.events ≤ most_events }
    ensures ok { IfOk result (λ s. IsOfStorm asked.now (script_of s.head s.events)) }
    ensures cause { IfErr result (λ e. StormCause kv e asked.now) }
{
    let events = storm_events::<Kv, AnyProtocol<Kv>>(alloc, asked)?;
    Ok(schedule_in(alloc, asked.cluster(), events))
}

/// The text of the schedule of the storm that is asked for.
pub(crate) fn storm_text(alloc: Global, asked: &StormCommand) -> Result<Vec<u8>, StormFault>
    requires few { asked.now.events ≤ most_events }
    ensures ok { IfOk result (λ v. WritesStorm asked.now v.items) }
    ensures cause { IfErr result (λ e. StormCause kv e asked.now) }
{
    let schedule = storm_schedule(alloc, asked)?;
    written_is_spelled();
    Ok(write_schedule(alloc, &schedule)?)
}
