//! Replays of schedules.

ghost use Rattle.std.specs.Prelude.{◌≡◌, ℕ, List, ◌<◌, ◌≤◌, ◌^◌, All, length, IsTrue, IfOk, IfErr, Ok};
ghost use Rattle.ab_text.specs.Schedules.{script_of};
ghost use Rattle.ab_abs.specs.Promises.{ServesAll};
ghost use Rattle.ab_keys.specs.Keys.{is_party};
ghost use Rattle.ab_replay.specs.Replays.{run_in, Performs, Replays, EventsCause, TextCause, ReplayCause};
ghost use Rattle.ab_replay.specs.Streams.{IsInput};

use crate::fault::{ReplayFault, fault_of_text};
use crate::playing::play;
use crate::report::report;
use crate::stream::{ReadFault, read_all};
use ab_abs::Protocol;
use ab_backup::Backup;
use ab_chain::Chain;
use ab_io::Source;
use ab_kv::Kv;
use ab_num::{MOST_EVENTS, OutOfMemory, ServiceName};
use ab_pbft::Pbft;
use ab_plans::Choice;
use ab_quorum::Quorum;
use ab_svc::{Echo, Service};
use ab_text::{Schedule, lines_of_head, read_is_in_form, read_schedule};
use ab_world::{World, runs_are_told};
use ab_zcert::ZCert;
use ab_zlight::ZLight;
use std::alloc::Global;
use std::mem::drop;

/// The protocol of each kind of instance.
pub type AnyProtocol<S> = Choice<
    Quorum<S>,
    Choice<ZLight<S>, Choice<Chain<S>, Choice<ZCert<S>, Backup<S, Pbft>>>>,
>;

/// What a replay gives: the report, and whether its premise line says `held`.
#[derive(Drop)]
pub struct Replayed {
    pub report: Vec<u8>,
    pub held: bool,
}

/// What is told of a run of few events that leads to the world.
fn tell<S: Service, P: Protocol<S>>(
    alloc: Global,
    schedule: &Schedule,
    world: &World<S, P>,
) -> Result<Replayed, OutOfMemory>
    requires served { ServesAll P.serves schedule.now.head.cluster }
    requires runs { run_in P.proto schedule.now.head.cluster (script_of schedule.now.head schedule.now.events) ≡ Ok world.now }
    ensures { IfOk result (λ v. Performs S.machine P.proto (script_of schedule.now.head schedule.now.events) v.report.items v.held) }
{
    runs_are_told::<S, P>();
    let report = report(alloc, world)?;
    let held = world.premise().is_held();
    Ok(Replayed { report, held })
}

/// The report of a schedule of few events, with a service. The first event stands in the line after this one.
fn perform<S: Service, P: Protocol<S>>(
    alloc: Global,
    schedule: &Schedule,
    line: u32,
) -> Result<Replayed, ReplayFault>
    requires served { ServesAll P.serves schedule.now.head.cluster }
    requires parties { All (λ e. IsTrue (is_party schedule.now.head.cluster.f schedule.now.head.cluster.clients e.0)) schedule.now.head.faulty }
    requires few { length schedule.now.events < 100001 }
    requires short { line < 2 ^ 31 }
    ensures ok { IfOk result (λ v. Performs S.machine P.proto (script_of schedule.now.head schedule.now.events) v.report.items v.held) }
    ensures cause { IfErr result (λ e. EventsCause e line (run_in P.proto schedule.now.head.cluster (script_of schedule.now.head schedule.now.events))) }
{
    let played = match play::<S, P>(alloc, &schedule.head, schedule.events.as_slice(), line) {
        Ok(played) => played,
        Err(fault) => return Err(fault),
    };
    let told = tell(alloc, schedule, &played.world);
    // By a call: in place the parts of each core would be taken apart.
    drop(played);
    match told {
        Ok(told) => Ok(told),
        Err(_) => Err(ReplayFault::OutOfMemory),
    }
}

/// The report of the schedule that a text spells.
fn simulate(alloc: Global, text: &[u8]) -> Result<Replayed, ReplayFault>
    requires { length text.now < 2 ^ 31 }
    ensures ok { IfOk result (λ v. Replays text.now v.report.items v.held) }
    ensures cause { IfErr result (λ e. TextCause e text.now) }
{
    let schedule = match read_schedule(alloc, text) {
        Ok(schedule) => schedule,
        Err(fault) => return Err(fault_of_text(fault)),
    };
    if schedule.events.as_slice().len() > MOST_EVENTS {
        return Err(ReplayFault::TooManyEvents);
    }
    // What was read is in form: faulty parties are of the cluster.
    read_is_in_form();
    let line = lines_of_head(text) + 1 + schedule.head.faulty.as_slice().len() as u32;
    match schedule.head.service {
        ServiceName::Echo => perform::<Echo, AnyProtocol<Echo>>(alloc, &schedule, line),
        ServiceName::Kv => perform::<Kv, AnyProtocol<Kv>>(alloc, &schedule, line),
    }
}

/// The report of the schedule that an input spells.
pub fn replay<I: Source>(alloc: Global, input: &mut I) -> Result<Replayed, ReplayFault>
    ensures ok { IfOk result (λ v. (text : List ℕ) × IsInput (I.state input.old).left text × Replays text v.report.items v.held) }
    ensures later { (I.state input.old).faults ≤ (I.state input.new).faults }
    ensures cause { IfErr result (λ e. ReplayCause e (I.state input.old).left (I.state input.old).faults (I.state input.new).faults) }
{
    match read_all(alloc, input) {
        Err(ReadFault::Failed) => Err(ReplayFault::Read),
        Err(ReadFault::TooLong) => Err(ReplayFault::TooLong),
        Err(ReadFault::OutOfMemory) => Err(ReplayFault::OutOfMemory),
        Ok(text) => simulate(alloc, text.as_slice()),
    }
}
