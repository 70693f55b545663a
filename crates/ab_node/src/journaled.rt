//! Nodes that keep their events in a journal.

ghost use Rattle.std.specs.Prelude.{◌≡◌, ◌<◌, ◌≤◌, ◌^◌, ℕ, List, IfOk, IfErr, IfSome, OnOk, is_some, length};
ghost use Rattle.ab_io.specs.States.{change};
ghost use Rattle.ab_journal.specs.Entries.{bodies_of};
ghost use Rattle.ab_journal.specs.Keepers.{IsReadyWith, listed};
ghost use Rattle.ab_restart.specs.Pasts.{HasResumed, IsPast, first_body};
ghost use Rattle.ab_replay.specs.Streams.{IsInput};
ghost use Rattle.ab_node.specs.Journals.{IsServedOn, JournalCause, PartyJournalCause, RestoreCause, crash_between, disk_state, journal_call, journal_of};

use crate::node::{read_party, serve_party};
use crate::stop::Stop;
use ab_disk::Disk;
use ab_io::{Clock, Failed, Link, Sink, Source};
use ab_journal::JournalKeeper;
use ab_loop::{Past, Served};
use ab_replay::{ReadFault, read_all};
use ab_restart::{ResumeFault, resume};
use ab_words::NodeCommand;
use std::alloc::Global;

/// What the journal of this name keeps of the party that a text sets up, and the keeper of it.
fn restore<D: Disk>(
    alloc: Global,
    name: &str,
    text: &[u8],
    disk: &mut D,
) -> Result<(Past, JournalKeeper), Stop>
    ensures past { IfOk result (λ r. IfSome (listed (D.model.seen disk.old)) (λ bodies. IsPast (first_body text.now) bodies r.0)) }
    ensures ready { IfOk result (λ r. IsReadyWith D.model r.1 disk.new) }
    ensures told { is_some (D.model.seen disk.new) ≡ is_some (D.model.seen disk.old) }
    ensures kept { IfOk result (λ r. IfSome (listed (D.model.seen disk.new)) (λ bodies. bodies ≡ journal_of text.now r.0)) }
    ensures any_moment { IfSome (D.model.seen disk.old) (λ bytes. OnOk result (HasResumed D.model disk.old disk.new (first_body text.now) (bodies_of bytes))) }
    ensures later { D.model.faults disk.old ≤ D.model.faults disk.new }
    ensures cause { IfErr result (λ stop. RestoreCause stop text.now (change (disk_state D.model disk.old) (disk_state D.model disk.new))) }
{
    if let Err(Failed) = disk.open(name) {
        return Err(Stop::Disk);
    }
    match resume(alloc, text, disk) {
        Ok(found) => Ok(found),
        Err(ResumeFault::DiskFailed) => Err(Stop::Disk),
        Err(ResumeFault::Foreign(entry)) => Err(Stop::Journal(entry)),
        Err(ResumeFault::OutOfMemory) => Err(Stop::OutOfMemory),
    }
}

/// Serves the party that a text sets up, after the events of its journal.
fn serve_on<L: Link, C: Clock, O: Sink, D: Disk>(
    alloc: Global,
    asked: &NodeCommand,
    name: &str,
    text: &[u8],
    link: &mut L,
    clock: &mut C,
    out: &mut O,
    disk: &mut D,
) -> Result<Served, Stop>
    requires { length text.now < 2 ^ 31 }
    ensures ok { IfOk result (IsServedOn text.now
        (journal_call asked.now (change (C.state clock.old) (C.state clock.new)) (change (O.state out.old) (O.state out.new)) (change (L.state link.old) (L.state link.new))
        (change (disk_state D.model disk.old) (disk_state D.model disk.new))) (crash_between D.model disk.old disk.new)) }
    ensures cause { IfErr result (λ stop. PartyJournalCause stop text.now
        (journal_call asked.now (change (C.state clock.old) (C.state clock.new)) (change (O.state out.old) (O.state out.new)) (change (L.state link.old) (L.state link.new))
        (change (disk_state D.model disk.old) (disk_state D.model disk.new))) (crash_between D.model disk.old disk.new)) }
{
    let (keys, commands) = match read_party(alloc, text) {
        Ok(party) => party,
        Err(stop) => return Err(stop),
    };
    let (past, mut keeper) = match restore(alloc, name, text, disk) {
        Ok(found) => found,
        Err(stop) => return Err(stop),
    };
    serve_party(
        alloc,
        asked,
        &keys,
        commands,
        past,
        link,
        clock,
        out,
        &mut keeper,
        disk,
    )
}

/// Serves the party that an input sets up, with the journal of this name. It goes on after the events that the journal has, and
/// keeps each new event there before anything of it is sent or printed.
pub fn serve_journaled<I: Source, L: Link, C: Clock, O: Sink, D: Disk>(
    alloc: Global,
    asked: &NodeCommand,
    name: &str,
    input: &mut I,
    link: &mut L,
    clock: &mut C,
    out: &mut O,
    disk: &mut D,
) -> Result<Served, Stop>
    ensures ok { IfOk result (λ served. (text : List ℕ) × IsInput (I.state input.old).left text × IsServedOn text
        (journal_call asked.now (change (C.state clock.old) (C.state clock.new)) (change (O.state out.old) (O.state out.new)) (change (L.state link.old) (L.state link.new))
        (change (disk_state D.model disk.old) (disk_state D.model disk.new))) (crash_between D.model disk.old disk.new) served) }
    ensures cause { IfErr result (λ stop. JournalCause stop (change (I.state input.old) (I.state input.new))
        (journal_call asked.now (change (C.state clock.old) (C.state clock.new)) (change (O.state out.old) (O.state out.new)) (change (L.state link.old) (L.state link.new))
        (change (disk_state D.model disk.old) (disk_state D.model disk.new))) (crash_between D.model disk.old disk.new)) }
    ensures later { (I.state input.old).faults ≤ (I.state input.new).faults }
{
    match read_all(alloc, input) {
        Err(ReadFault::Failed) => Err(Stop::Read),
        Err(ReadFault::TooLong) => Err(Stop::TooLong),
        Err(ReadFault::OutOfMemory) => Err(Stop::OutOfMemory),
        Ok(text) => serve_on(alloc, asked, name, text.as_slice(), link, clock, out, disk),
    }
}
