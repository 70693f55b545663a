//! The picture of the run that a schedule spells.

ghost use Rattle.std.specs.Prelude.{◌≡◌, ◌⊎◌, ℕ, List, ◌<◌, ◌≤◌, ◌^◌, All, IfErr, IfOk, IsTrue, OnOk, length, take};
ghost use Rattle.ab_text.specs.Schedules.{script_of};
ghost use Rattle.ab_abs.specs.Promises.{ServesAll};
ghost use Rattle.ab_keys.specs.Keys.{is_party};
ghost use Rattle.ab_replay.specs.Replays.{run_in, EventsCause, TextCause, ReplayCause};
ghost use Rattle.ab_replay.specs.Streams.{IsInput};
ghost use Rattle.ab_picture.specs.Composed.{IsPicture};
ghost use Rattle.ab_draw.specs.Draws.{most_drawn, told_at, AllRun, IsFrontOf, DrawsRun, Draws};

use crate::parcels::parcels_of;
use ab_abs::Protocol;
use ab_io::Source;
use ab_kv::Kv;
use ab_num::{MOST_EVENTS, OutOfMemory, ServiceName};
use ab_picture::{Picture, Tale, compose, svg};
use ab_replay::{AnyProtocol, Played, ReadFault, ReplayFault, fault_of_text, play, read_all};
use ab_svc::{Echo, Service};
use ab_text::{Event, Head, Schedule, lines_of_head, read_is_in_form, read_schedule};
use std::alloc::Global;
use std::mem::drop;

/// How many events are drawn.
const MOST_DRAWN: usize = 2_000;

/// The events that are drawn.
fn front(events: &[Event]) -> &[Event]
    ensures { result.now ≡ take most_drawn events.now }
{
    if events.len() <= MOST_DRAWN {
        events
    } else {
        &events[..MOST_DRAWN]
    }
}

/// The picture of these events of a run, which led to its end.
fn picture_of<S: Service, P: Protocol<S>>(
    alloc: Global,
    head: &Head,
    events: &[Event],
    played: &Played<S, P>,
) -> Result<Picture, OutOfMemory>
    requires events { length events.now ≤ most_drawn }
    requires counts { length played.now.counts.items ≤ most_drawn }
    ensures picture { IfOk result (λ p. IsPicture head.now.cluster head.now.faulty (told_at played.now.world events.now played.now.counts.items) p) }
    ensures count { IfOk result (λ p. length p.moments.items ≡ length events.now) }
{
    let world = &played.world;
    let parcels = parcels_of(alloc, world.sent())?;
    let told = Tale {
        events,
        counts: played.counts.as_slice(),
        parcels: parcels.as_slice(),
        lines: world.seen(),
        premise: world.premise(),
    };
    compose(alloc, &head.cluster, head.faulty.as_slice(), &told)
}

/// The picture of the first events of a schedule. The first event stands in the line after this one.
fn front_picture<S: Service, P: Protocol<S>>(
    alloc: Global,
    schedule: &Schedule,
    line: u32,
) -> Result<Picture, ReplayFault>
    requires served { ServesAll P.serves schedule.now.head.cluster }
    requires parties { All (λ e. IsTrue (is_party schedule.now.head.cluster.f schedule.now.head.cluster.clients e.0)) schedule.now.head.faulty }
    requires few { length schedule.now.events < 100001 }
    requires short { line < 2 ^ 31 }
    ensures ok { IfOk result (λ p. IsFrontOf P.proto schedule.now.head.cluster (script_of schedule.now.head schedule.now.events) p) }
    ensures few { IfOk result (λ p. length p.moments.items ≤ most_drawn) }
    ensures cause { IfErr result (λ e. EventsCause e line (run_in P.proto schedule.now.head.cluster (script_of schedule.now.head schedule.now.events))) }
{
    let head = &schedule.head;
    let events = front(schedule.events.as_slice());
    let played = match play::<S, P>(alloc, head, events, line) {
        Ok(played) => played,
        Err(fault) => return Err(fault),
    };
    let picture = picture_of(alloc, head, events, &played);
    // By a call: in place the parts of each core would be taken apart.
    drop(played);
    match picture {
        Ok(picture) => Ok(picture),
        Err(_) => Err(ReplayFault::OutOfMemory),
    }
}

/// Runs all events of a schedule of more than are drawn.
fn run_all<S: Service, P: Protocol<S>>(
    alloc: Global,
    schedule: &Schedule,
    line: u32,
) -> Result<(), ReplayFault>
    requires served { ServesAll P.serves schedule.now.head.cluster }
    requires parties { All (λ e. IsTrue (is_party schedule.now.head.cluster.f schedule.now.head.cluster.clients e.0)) schedule.now.head.faulty }
    requires few { length schedule.now.events < 100001 }
    requires short { line < 2 ^ 31 }
    ensures ok { OnOk result ((length schedule.now.events ≤ most_drawn) ⊎ AllRun P.proto schedule.now.head.cluster (script_of schedule.now.head schedule.now.events)) }
    ensures cause { IfErr result (λ e. EventsCause e line (run_in P.proto schedule.now.head.cluster (script_of schedule.now.head schedule.now.events))) }
{
    let events = schedule.events.as_slice();
    if events.len() <= MOST_DRAWN {
        return Ok(());
    }
    match play::<S, P>(alloc, &schedule.head, events, line) {
        Ok(played) => {
            drop(played);
            Ok(())
        }
        Err(fault) => Err(fault),
    }
}

/// The text of the picture of a schedule's run, with a service: of its first events, where all events run.
fn perform<S: Service, P: Protocol<S>>(
    alloc: Global,
    schedule: &Schedule,
    line: u32,
) -> Result<Vec<u8>, ReplayFault>
    requires served { ServesAll P.serves schedule.now.head.cluster }
    requires parties { All (λ e. IsTrue (is_party schedule.now.head.cluster.f schedule.now.head.cluster.clients e.0)) schedule.now.head.faulty }
    requires few { length schedule.now.events < 100001 }
    requires short { line < 2 ^ 31 }
    ensures ok { IfOk result (λ v. DrawsRun P.proto (script_of schedule.now.head schedule.now.events) v.items) }
    ensures cause { IfErr result (λ e. EventsCause e line (run_in P.proto schedule.now.head.cluster (script_of schedule.now.head schedule.now.events))) }
{
    let picture = front_picture::<S, P>(alloc, schedule, line)?;
    run_all::<S, P>(alloc, schedule, line)?;
    Ok(svg(alloc, &picture, schedule.events.as_slice().len() as u32)?)
}

/// The text of the picture of the run that a text spells.
fn draw_text(alloc: Global, text: &[u8]) -> Result<Vec<u8>, ReplayFault>
    requires { length text.now < 2 ^ 31 }
    ensures ok { IfOk result (λ v. Draws text.now v.items) }
    ensures cause { IfErr result (λ e. TextCause e text.now) }
{
    let schedule = match read_schedule(alloc, text) {
        Ok(schedule) => schedule,
        Err(fault) => return Err(fault_of_text(fault)),
    };
    if schedule.events.as_slice().len() > MOST_EVENTS {
        return Err(ReplayFault::TooManyEvents);
    }
    // What was read is in form: faulty parties are of the cluster.
    read_is_in_form();
    let line = lines_of_head(text) + 1 + schedule.head.faulty.as_slice().len() as u32;
    match schedule.head.service {
        ServiceName::Echo => perform::<Echo, AnyProtocol<Echo>>(alloc, &schedule, line),
        ServiceName::Kv => perform::<Kv, AnyProtocol<Kv>>(alloc, &schedule, line),
    }
}

/// The text of the picture of the run that an input spells.
pub fn draw<I: Source>(alloc: Global, input: &mut I) -> Result<Vec<u8>, ReplayFault>
    ensures ok { IfOk result (λ v. (text : List ℕ) × IsInput (I.state input.old).left text × Draws text v.items) }
    ensures later { (I.state input.old).faults ≤ (I.state input.new).faults }
    ensures cause { IfErr result (λ e. ReplayCause e (I.state input.old).left (I.state input.old).faults (I.state input.new).faults) }
{
    match read_all(alloc, input) {
        Err(ReadFault::Failed) => Err(ReplayFault::Read),
        Err(ReadFault::TooLong) => Err(ReplayFault::TooLong),
        Err(ReadFault::OutOfMemory) => Err(ReplayFault::OutOfMemory),
        Ok(text) => draw_text(alloc, text.as_slice()),
    }
}
