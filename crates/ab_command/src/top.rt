//! The top call.

ghost use Rattle.std.specs.Prelude.{◌≡◌, ◌≤◌, ◌⊎◌, ℕ, List, Option, if◌then◌else◌, map};
ghost use Rattle.ab_num.specs.Limits.{most_events};
ghost use Rattle.ab_io.specs.Causes.{Rose};
ghost use Rattle.ab_io.specs.States.{Change, ClockState, LinkState, SourceState, change, outside};
ghost use Rattle.ab_command.specs.Texts.{status_of, stop_status};
ghost use Rattle.ab_command.specs.Calls.{call};
ghost use Rattle.ab_words.specs.Commands.{ClusterCommand as TheCluster};
ghost use Rattle.ab_words.specs.Commands.{NodeCommand as TheNode};
ghost use Rattle.ab_node.specs.Journals.{crash_between, disk_state};
ghost use Rattle.ab_command.specs.Clusters.{ClusterCause, HasClusterCauseOf, cluster_call};
ghost use Rattle.ab_command.specs.Commands.{AsksAudit, AsksCluster, AsksJournal, AsksKeys, AsksNode, AsksStorm, IsApart, IsCluster, IsNode, IsReplay, KeepsJournal, TakesInput};
ghost use Rattle.ab_command.specs.Endings.{SaysNoMemory, Settles};
ghost use Rattle.ab_command.specs.Journals.{HasJournalCauseOf, JournalStatusCause, disk_call};
ghost use Rattle.ab_command.specs.Statuses.{StatusCause, HasCauseOf};

use crate::audit::audit_input;
use crate::cluster::serve_cluster;
use crate::keys::key_text;
use crate::saying::{say, say_no_memory, say_refusal, say_replay_fault, write_or_say};
use crate::status::{Bound, Status, journal_line, turns_line};
use ab_cluster::{Spawner, conclusions_are_counted};
use ab_disk::Disk;
use ab_io::{Clock, Link, Sink, Source};
use ab_kv::Kv;
use ab_loop::ServeFault;
use ab_node::{Stop, serve_journaled, serve_text};
use ab_replay::{AnyProtocol, replay};
use ab_storm::{StormFault, sum_up};
use ab_text::one_reading;
use ab_words::{Command, KeysCommand, NodeCommand, StormCommand, command_in};
use std::alloc::Global;

const USAGE: &str = "usage: abstract_bft <keys|node|replay|storm> [options]\n";

/// The status of a run that was told.
fn done(held: bool) -> Status
    ensures { result ≡ (if held then Status.Done else Status.Broken) }
{
    if held { Status::Done } else { Status::Broken }
}

/// Replays the schedule that the input spells.
fn serve_replay<I: Source, O: Sink, E: Sink>(
    alloc: Global,
    input: &mut I,
    out: &mut O,
    err: &mut E,
) -> Status
    ensures cause { (words : List (List ℕ)) (link : Change LinkState) (clock : Change ClockState) → IsReplay words
        → StatusCause result (call words (outside (change (I.state input.old) (I.state input.new))
        (change (O.state out.old) (O.state out.new)) (change (E.state err.old) (E.state err.new)) link clock)) }
{
    let replayed = match replay(alloc, input) {
        Ok(replayed) => replayed,
        Err(fault) => return say_replay_fault(alloc, err, fault),
    };
    let status = done(replayed.held);
    write_or_say(out, err, replayed.report.as_slice(), status)
}

/// Writes the keys that are asked for.
fn serve_keys<O: Sink, E: Sink>(
    alloc: Global,
    asked: &KeysCommand,
    out: &mut O,
    err: &mut E,
) -> Status
    ensures cause { (words : List (List ℕ)) (input : Change SourceState) (link : Change LinkState) (clock : Change ClockState) → AsksKeys words asked.now
        → StatusCause result (call words (outside input
        (change (O.state out.old) (O.state out.new)) (change (E.state err.old) (E.state err.new)) link clock)) }
{
    let Ok(text) = key_text(alloc, asked) else {
        return say_no_memory(err);
    };
    write_or_say(out, err, text.as_slice(), Status::Done)
}

/// Runs the storm that is asked for and writes its summary.
fn serve_storm<O: Sink, E: Sink>(
    alloc: Global,
    asked: &StormCommand,
    out: &mut O,
    err: &mut E,
) -> Status
    requires few { asked.now.events ≤ most_events }
    ensures cause { (words : List (List ℕ)) (input : Change SourceState) (link : Change LinkState) (clock : Change ClockState) → AsksStorm words asked.now
        → StatusCause result (call words (outside input
        (change (O.state out.old) (O.state out.new)) (change (E.state err.old) (E.state err.new)) link clock)) }
{
    let summed = match sum_up::<Kv, AnyProtocol<Kv>>(alloc, asked) {
        Ok(summed) => summed,
        Err(StormFault::TooManyPackets) => {
            return say(err, "limit packets\n", Status::Limit(Bound::Packets));
        }
        Err(StormFault::OutOfMemory) => return say_no_memory(err),
    };
    let status = done(summed.held);
    write_or_say(out, err, summed.summary.as_slice(), status)
}

/// Says why a node stopped that was served.
fn say_fault<E: Sink>(alloc: Global, err: &mut E, fault: ServeFault) -> Status
    ensures status { Settles result (status_of fault) (change (E.state err.old) (E.state err.new)) }
    ensures later { (E.state err.old).faults ≤ (E.state err.new).faults }
{
    match fault {
        ServeFault::LinkFailed => say(err, "link fault\n", Status::LinkFault),
        ServeFault::WriteFailed => say(err, "write fault\n", Status::WriteFault),
        ServeFault::KeepFailed => say(err, "disk fault\n", Status::DiskFault),
        ServeFault::OutOfMemory => say_no_memory(err),
        ServeFault::TurnsSpent(unanswered) => match turns_line(alloc, unanswered) {
            Ok(line) => say(err, line.as_str(), Status::TurnsSpent(unanswered)),
            Err(_) => say_no_memory(err),
        },
    }
}

/// Says which entry of a journal is refused.
fn say_journal<E: Sink>(alloc: Global, err: &mut E, entry: u64) -> Status
    ensures status { Settles result (Status.JournalRefused entry) (change (E.state err.old) (E.state err.new)) }
    ensures later { (E.state err.old).faults ≤ (E.state err.new).faults }
{
    match journal_line(alloc, entry) {
        Ok(line) => say(err, line.as_str(), Status::JournalRefused(entry)),
        Err(_) => say_no_memory(err),
    }
}

/// Says why a node stopped.
fn say_stop<E: Sink>(alloc: Global, err: &mut E, stop: Stop) -> Status
    ensures status { Settles result (stop_status stop) (change (E.state err.old) (E.state err.new)) }
    ensures later { (E.state err.old).faults ≤ (E.state err.new).faults }
{
    match stop {
        Stop::Read => say(err, "read fault\n", Status::ReadFault),
        Stop::TooLong => say(err, "limit bytes\n", Status::Limit(Bound::Bytes)),
        Stop::Refused(refusal) => say_refusal(alloc, err, refusal),
        Stop::Serving(fault) => say_fault(alloc, err, fault),
        Stop::Disk => say(err, "disk fault\n", Status::DiskFault),
        Stop::Journal(entry) => say_journal(alloc, err, entry),
        Stop::OutOfMemory => say_no_memory(err),
    }
}

/// Serves the party that the input sets up.
fn serve_node<I: Source, O: Sink, E: Sink, L: Link, C: Clock>(
    alloc: Global,
    asked: &NodeCommand,
    input: &mut I,
    out: &mut O,
    err: &mut E,
    link: &mut L,
    clock: &mut C,
) -> Status
    ensures cause { (words : List (List ℕ)) → AsksNode words asked.now
        → StatusCause result (call words (outside (change (I.state input.old) (I.state input.new))
        (change (O.state out.old) (O.state out.new)) (change (E.state err.old) (E.state err.new))
        (change (L.state link.old) (L.state link.new)) (change (C.state clock.old) (C.state clock.new)))) }
{
    match serve_text(alloc, asked, input, link, clock, out) {
        Ok(_) => Status::Done,
        Err(stop) => say_stop(alloc, err, stop),
    }
}

/// Serves the party that the input sets up, with the journal of this name.
fn serve_on_disk<I: Source, O: Sink, E: Sink, L: Link, C: Clock, D: Disk>(
    alloc: Global,
    asked: &NodeCommand,
    name: &str,
    input: &mut I,
    out: &mut O,
    err: &mut E,
    link: &mut L,
    clock: &mut C,
    disk: &mut D,
) -> Status
    ensures cause { (words : List (List ℕ)) → JournalStatusCause result asked.now (disk_call (call words (outside (change (I.state input.old) (I.state input.new))
        (change (O.state out.old) (O.state out.new)) (change (E.state err.old) (E.state err.new))
        (change (L.state link.old) (L.state link.new)) (change (C.state clock.old) (C.state clock.new))))
        (change (disk_state D.model disk.old) (disk_state D.model disk.new))) (crash_between D.model disk.old disk.new) }
{
    match serve_journaled(alloc, asked, name, input, link, clock, out, disk) {
        Ok(_) => Status::Done,
        Err(stop) => say_stop(alloc, err, stop),
    }
}

/// Audits the messages of the input.
fn serve_audit<I: Source, O: Sink, E: Sink>(
    alloc: Global,
    why: bool,
    input: &mut I,
    out: &mut O,
    err: &mut E,
) -> Status
    ensures cause { (words : List (List ℕ)) (link : Change LinkState) (clock : Change ClockState) → AsksAudit words why
        → StatusCause result (call words (outside (change (I.state input.old) (I.state input.new))
        (change (O.state out.old) (O.state out.new)) (change (E.state err.old) (E.state err.new)) link clock)) }
{
    let audited = match audit_input(alloc, input, why) {
        Ok(audited) => audited,
        Err(fault) => return say_replay_fault(alloc, err, fault),
    };
    let status = done(!audited.accuses);
    write_or_say(out, err, audited.report.as_slice(), status)
}

/// What the program does.
fn serve<I: Source, O: Sink, E: Sink, L: Link, C: Clock, D: Disk, W: Spawner>(
    alloc: Global,
    words: &[&str],
    input: &mut I,
    out: &mut O,
    err: &mut E,
    link: &mut L,
    clock: &mut C,
    disk: &mut D,
    spawner: &mut W,
) -> Status
    ensures cause { (IsApart (map (λ w. w.now) words.now) → ⊥) → StatusCause result (call (map (λ w. w.now) words.now) (outside (change (I.state input.old) (I.state input.new))
        (change (O.state out.old) (O.state out.new)) (change (E.state err.old) (E.state err.new))
        (change (L.state link.old) (L.state link.new)) (change (C.state clock.old) (C.state clock.new)))) }
    ensures untouched { (TakesInput (map (λ w. w.now) words.now) → ⊥) → input.new ≡ input.old }
    ensures link { (IsNode (map (λ w. w.now) words.now) → ⊥) → link.new ≡ link.old }
    ensures clock { (IsNode (map (λ w. w.now) words.now) → ⊥) → clock.new ≡ clock.old }
    ensures cluster { (k : TheCluster) → AsksCluster (map (λ w. w.now) words.now) k → ClusterCause result k (cluster_call (change (I.state input.old) (I.state input.new))
        (change (O.state out.old) (O.state out.new)) (change (E.state err.old) (E.state err.new)) (change (W.state spawner.old) (W.state spawner.new))) }
    ensures spawner { (IsCluster (map (λ w. w.now) words.now) → ⊥) → spawner.new ≡ spawner.old }
    ensures journal { (k : TheNode) → AsksJournal (map (λ w. w.now) words.now) k → JournalStatusCause result k (disk_call (call (map (λ w. w.now) words.now) (outside (change (I.state input.old) (I.state input.new))
        (change (O.state out.old) (O.state out.new)) (change (E.state err.old) (E.state err.new))
        (change (L.state link.old) (L.state link.new)) (change (C.state clock.old) (C.state clock.new))))
        (change (disk_state D.model disk.old) (disk_state D.model disk.new))) (crash_between D.model disk.old disk.new) }
    ensures disk { (KeepsJournal (map (λ w. w.now) words.now) → ⊥) → disk.new ≡ disk.old }
{
    match command_in(alloc, words) {
        Ok(Some(Command::Replay)) => serve_replay(alloc, input, out, err),
        Ok(Some(Command::Keys(asked))) => serve_keys(alloc, &asked, out, err),
        Ok(Some(Command::Storm(asked))) => serve_storm(alloc, &asked, out, err),
        Ok(Some(Command::Node(asked))) => match asked.journal() {
            None => serve_node(alloc, &asked, input, out, err, link, clock),
            Some(name) => { serve_on_disk(alloc, &asked, name, input, out, err, link, clock, disk) }
        },
        Ok(Some(Command::Audit { why })) => serve_audit(alloc, why, input, out, err),
        Ok(Some(Command::Cluster(asked))) => {
            serve_cluster(alloc, &asked, input, out, err, spawner)
        }
        Ok(None) => say(err, USAGE, Status::Usage),
        Err(_) => say_no_memory(err),
    }
}

/// Does the command that the words are, and returns the number of its status.
///
/// `replay` reads a schedule from `input` to its end, runs it, and writes the report of the run to
/// `out`. `storm` runs random events that a seed gives, and writes the summary of the run to `out`.
/// `keys` writes the key text of a party to `out`. `node` reads the keys of a party and its commands from
/// `input` to its end, and serves that party over `link` and `clock`: what it commits is written to `out`. With `--journal` it keeps
/// each event on `disk` before anything of it leaves, and goes on after the events that it finds there.
/// `audit` reads public keys and messages from `input` to its end, and writes to `out` which replicas contradict
/// themselves in them, and if asked why, by which messages.
/// `cluster` reads the commands of a client from `input` to its end, starts a node for each replica and for that client by `spawner`,
/// waits for all of them, and writes to `out` how each ended and what the client wrote.
/// The statuses are:
///
/// - 0: the report or the summary was written, and its premise line says `held`; or the key text was
///   written; or the node was served until its client's commands were answered, or its replica's turns used; or the
///   report of an audit was written, and nobody is accused; or each child of a cluster ended with 0.
/// - 1: the report or the summary was written, and its premise line says `broken`; or the report of an audit was
///   written, and someone is accused; or a child of a cluster ended with another status than 0.
/// - 2: the words are no command.
/// - 3: a line is out of form or missing, or its event is refused.
/// - 4: `input` failed.
/// - 5: `out` or `err` failed.
/// - 6: `link` failed.
/// - 7: the input has more bytes or more events than are taken, or the packets of the run have more
///   bytes.
/// - 8: a client's turns were used, and commands are unanswered.
/// - 9: an allocation failed.
/// - 10: `disk` failed.
/// - 11: an entry of the journal is of no stated form, or names another party's text.
/// - 12: a start or a wait of `spawner` failed.
///
/// Each but 0 and 1 is said on `err`, unless `err` fails. Only `node` calls `link` and `clock`, only
/// `node --journal` calls `disk`, and only `cluster` calls `spawner`.
pub fn run<I: Source, O: Sink, E: Sink, L: Link, C: Clock, D: Disk, W: Spawner>(
    alloc: Global,
    words: &[&str],
    input: &mut I,
    out: &mut O,
    err: &mut E,
    link: &mut L,
    clock: &mut C,
    disk: &mut D,
    spawner: &mut W,
) -> u8
    ensures cause { (IsApart (map (λ w. w.now) words.now) → ⊥) → HasCauseOf result (call (map (λ w. w.now) words.now) (outside (change (I.state input.old) (I.state input.new))
        (change (O.state out.old) (O.state out.new)) (change (E.state err.old) (E.state err.new))
        (change (L.state link.old) (L.state link.new)) (change (C.state clock.old) (C.state clock.new)))) }
    ensures untouched { (TakesInput (map (λ w. w.now) words.now) → ⊥) → input.new ≡ input.old }
    ensures link { (IsNode (map (λ w. w.now) words.now) → ⊥) → link.new ≡ link.old }
    ensures clock { (IsNode (map (λ w. w.now) words.now) → ⊥) → clock.new ≡ clock.old }
    ensures cluster { (k : TheCluster) → AsksCluster (map (λ w. w.now) words.now) k → HasClusterCauseOf result k (cluster_call (change (I.state input.old) (I.state input.new))
        (change (O.state out.old) (O.state out.new)) (change (E.state err.old) (E.state err.new)) (change (W.state spawner.old) (W.state spawner.new))) }
    ensures spawner { (IsCluster (map (λ w. w.now) words.now) → ⊥) → spawner.new ≡ spawner.old }
    ensures journal { (k : TheNode) → AsksJournal (map (λ w. w.now) words.now) k → HasJournalCauseOf result k (disk_call (call (map (λ w. w.now) words.now) (outside (change (I.state input.old) (I.state input.new))
        (change (O.state out.old) (O.state out.new)) (change (E.state err.old) (E.state err.new))
        (change (L.state link.old) (L.state link.new)) (change (C.state clock.old) (C.state clock.new))))
        (change (disk_state D.model disk.old) (disk_state D.model disk.new))) (crash_between D.model disk.old disk.new) }
    ensures disk { (KeepsJournal (map (λ w. w.now) words.now) → ⊥) → disk.new ≡ disk.old }
{
    let status = serve(alloc, words, input, out, err, link, clock, disk, spawner);
    one_reading();
    conclusions_are_counted();
    status.code()
}

/// Says that an allocation failed before the command began, and returns the number of the status.
pub fn refuse_memory<E: Sink>(err: &mut E) -> u8
    ensures { ((result ≡ 9) × SaysNoMemory (change (E.state err.old) (E.state err.new)))
        ⊎ ((result ≡ 5) × Rose (E.state err.old).faults (E.state err.new).faults) }
{
    say_no_memory(err).code()
}
