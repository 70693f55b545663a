//! The command `cluster`.

ghost use Rattle.std.specs.Prelude.{◌≡◌, ◌<◌, ◌≤◌, ◌^◌, IfErr, IfOk, Ok, length, map};
ghost use Rattle.ab_io.specs.States.{change};
ghost use Rattle.ab_text.specs.Lines.{lines_of};
ghost use Rattle.ab_key_text.specs.Nodes.{commands_in};
ghost use Rattle.ab_cluster.specs.Gathering.{outcome_of};
ghost use Rattle.ab_cluster.specs.Reports.{conclusion_of, report_text};
ghost use Rattle.ab_command.specs.Clusters.{ClusterCause, CommandsCause, CommandsTextCause, ConcludesOn, HasCommands, WritesConclusion, cluster_call};

use crate::audit::fault_of_audit;
use crate::saying::{say, say_no_memory, say_replay_fault};
use crate::status::Status;
use ab_cluster::{
    Conclusion, Gathered, Spawner, cluster_jobs, cluster_report, conclusion_of, gather,
};
use ab_io::{Sink, Source};
use ab_key_text::{Commands, read_commands};
use ab_num::Cluster;
use ab_replay::{ReadFault, ReplayFault, WriteFault, read_all, write_all};
use ab_words::ClusterCommand;
use std::alloc::Global;

/// The commands that a text spells.
fn commands_of(alloc: Global, text: &[u8]) -> Result<Commands, ReplayFault>
    requires { length text.now < 2 ^ 31 }
    ensures ok { IfOk result (λ cs. commands_in (lines_of text.now) ≡ Ok (map (λ c. c.items) cs)) }
    ensures cause { IfErr result (λ e. CommandsTextCause e text.now) }
{
    match read_commands(alloc, text) {
        Ok(commands) => Ok(commands),
        Err(fault) => Err(fault_of_audit(fault)),
    }
}

/// The commands that an input spells.
fn commands_from<I: Source>(alloc: Global, input: &mut I) -> Result<Commands, ReplayFault>
    ensures ok { IfOk result (λ cs. HasCommands (map (λ c. c.items) cs) (I.state input.old).left) }
    ensures cause { IfErr result (λ e. CommandsCause e (change (I.state input.old) (I.state input.new))) }
{
    match read_all(alloc, input) {
        Err(ReadFault::Failed) => Err(ReplayFault::Read),
        Err(ReadFault::TooLong) => Err(ReplayFault::TooLong),
        Err(ReadFault::OutOfMemory) => Err(ReplayFault::OutOfMemory),
        Ok(text) => commands_of(alloc, text.as_slice()),
    }
}

/// The status of children whose report was written. It says so if it isn't known how each of them ended.
fn conclude<E: Sink>(err: &mut E, conclusion: Conclusion) -> Status
    ensures { ConcludesOn result conclusion (change (E.state err.old) (E.state err.new)) }
{
    match conclusion {
        Conclusion::Well => Status::Done,
        Conclusion::Ill => Status::Broken,
        Conclusion::Unknown => say(err, "child fault\n", Status::ChildFault),
    }
}

/// Writes the report of children that were gathered.
fn tell<O: Sink, E: Sink>(
    alloc: Global,
    cluster: &Cluster,
    all: &[Gathered],
    out: &mut O,
    err: &mut E,
) -> Status
    ensures { WritesConclusion result (report_text cluster.now.f (map outcome_of all.now)) (conclusion_of (map outcome_of all.now))
        (change (O.state out.old) (O.state out.new)) (change (E.state err.old) (E.state err.new)) }
{
    let Ok(report) = cluster_report(alloc, cluster, all) else {
        return say_no_memory(err);
    };
    match write_all(out, report.as_slice()) {
        Ok(()) => conclude(err, conclusion_of(all)),
        Err(WriteFault::Failed) => say(err, "write fault\n", Status::WriteFault),
        Err(WriteFault::OutOfMemory) => say_no_memory(err),
    }
}

/// Starts the nodes of the cluster that is asked for, gathers them, and writes the report.
pub(crate) fn serve_cluster<I: Source, O: Sink, E: Sink, W: Spawner>(
    alloc: Global,
    asked: &ClusterCommand,
    input: &mut I,
    out: &mut O,
    err: &mut E,
    spawner: &mut W,
) -> Status
    ensures { ClusterCause result asked.now (cluster_call (change (I.state input.old) (I.state input.new))
        (change (O.state out.old) (O.state out.new)) (change (E.state err.old) (E.state err.new)) (change (W.state spawner.old) (W.state spawner.new))) }
{
    let commands = match commands_from(alloc, input) {
        Ok(commands) => commands,
        Err(fault) => return say_replay_fault(alloc, err, fault),
    };
    let Ok(jobs) = cluster_jobs(alloc, asked, &commands) else {
        return say_no_memory(err);
    };
    let Ok(all) = gather(alloc, jobs.as_slice(), spawner) else {
        return say_no_memory(err);
    };
    tell(alloc, asked.cluster(), all.as_slice(), out, err)
}
