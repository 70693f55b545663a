//! Nodes.

ghost use Rattle.std.specs.Prelude.{◌≡◌, ◌<◌, ◌≤◌, ◌^◌, ℕ, List, IfOk, IfErr, IsTrue, map, length};
ghost use Rattle.ab_num.specs.declared.party.Party.TheVariants.{Replica as ReplicaParty, Client as ClientParty};
ghost use Rattle.ab_keys.specs.Keys.{is_party};
ghost use Rattle.ab_key_text.specs.Keys.{IsWhole};
ghost use Rattle.ab_io.specs.States.{change};
ghost use Rattle.ab_text.specs.Lines.{lines_of};
ghost use Rattle.ab_key_text.specs.Nodes.{node_in, node_of};
ghost use Rattle.ab_loop.specs.Edges.{LeavesFront, edge, keep_state};
ghost use Rattle.ab_msg.specs.Fields.{IsParty};
ghost use Rattle.ab_replay.specs.Protocols.{any};
ghost use Rattle.ab_replay.specs.Streams.{IsInput};
ghost use Rattle.ab_node.specs.Nodes.{ClientCause, ClientServed, CoreServed, CoreStopped, IsServed, PartyEnds, PartyServed, ReplicaCause, ReplicaServed, StopCause, TextCause, TextStopped, no_crash, node_call, plain_call, setting_of, stop_from, text_refusal};

use crate::client_member::ClientMember;
use crate::replica_member::ReplicaMember;
use crate::stop::Stop;
use ab_disk::{Disk, Keeper, NoDisk, NoKeeper};
use ab_io::{Clock, Link, Sink, Source};
use ab_key_text::{Commands, NodeFault, PartyKeys, keys_are_whole, read_node};
use ab_kv::Kv;
use ab_loop::{Job, NodeSetting, PartyCore, Past, ServeFault, Served, serve};
use ab_num::{Party, ServiceName};
use ab_replay::{AnyProtocol, ReadFault, Refusal, RefusalCause, read_all};
use ab_svc::{Echo, Service};
use ab_words::NodeCommand;
use std::alloc::Global;

/// What the node is told once.
fn setting_of(asked: &NodeCommand, me: Party) -> NodeSetting
    requires { IsParty me }
    ensures { result ≡ setting_of asked.now me }
{
    match NodeSetting::new(me, asked.base(), u32::from(asked.wait()), asked.trace()) {
        Some(setting) => setting,
        None => unreachable!(),
    }
}

/// The refusal of a text that sets up no node. None where an allocation failed.
fn refusal_of(fault: NodeFault) -> Option<Refusal>
    ensures { result ≡ text_refusal fault }
{
    match fault {
        NodeFault::BadLine(line) => Some(Refusal {
            line,
            cause: RefusalCause::BadLine,
        }),
        NodeFault::NoEnd(line) => Some(Refusal {
            line,
            cause: RefusalCause::NoEnd,
        }),
        NodeFault::OutOfMemory => None,
    }
}

/// A refusal as a stop. Where nothing was refused, memory was.
fn stop_of(refusal: Option<Refusal>) -> Stop
    ensures { result ≡ stop_from refusal }
{
    match refusal {
        Some(refusal) => Stop::Refused(refusal),
        None => Stop::OutOfMemory,
    }
}

/// Serves a core.
fn serve_core<K: PartyCore, L: Link, C: Clock, O: Sink, D: Disk, R: Keeper<D>>(
    alloc: Global,
    asked: &NodeCommand,
    me: Party,
    core: K,
    commands: Commands,
    past: Past,
    link: &mut L,
    clock: &mut C,
    out: &mut O,
    keeper: &mut R,
    disk: &mut D,
) -> Result<Served, ServeFault>
    requires party { IsParty me }
    requires ready { R.ready keeper.old disk.old }
    ensures ok { IfOk result (CoreServed K.rules me core (map (λ c. c.items) commands)
        (node_call asked.now past (change (C.state clock.old) (C.state clock.new))
        (edge (O.state out.old) (L.state link.old) (keep_state D.model R.kept keeper.old disk.old)) (edge (O.state out.new) (L.state link.new) (keep_state D.model R.kept keeper.new disk.new)))
        (LeavesFront D.model R.list_of (R.kept keeper.old disk.old) disk.old disk.new)) }
    ensures cause { IfErr result (CoreStopped K.rules me core (map (λ c. c.items) commands)
        (node_call asked.now past (change (C.state clock.old) (C.state clock.new))
        (edge (O.state out.old) (L.state link.old) (keep_state D.model R.kept keeper.old disk.old)) (edge (O.state out.new) (L.state link.new) (keep_state D.model R.kept keeper.new disk.new)))
        (LeavesFront D.model R.list_of (R.kept keeper.old disk.old) disk.old disk.new)) }
{
    let job = Job {
        core,
        setting: setting_of(asked, me),
        commands,
        turns: u64::from(asked.turns()),
        past,
    };
    serve(alloc, job, link, clock, out, keeper, disk)
}

/// Serves replica `me` of these keys.
fn serve_replica<S: Service, L: Link, C: Clock, O: Sink, D: Disk, R: Keeper<D>>(
    alloc: Global,
    asked: &NodeCommand,
    keys: &PartyKeys,
    me: u8,
    commands: Commands,
    past: Past,
    link: &mut L,
    clock: &mut C,
    out: &mut O,
    keeper: &mut R,
    disk: &mut D,
) -> Result<Served, Stop>
    requires whole { IsWhole keys.now }
    requires own { keys.now.me ≡ ReplicaParty me }
    requires party { IsTrue (is_party keys.now.f keys.now.clients keys.now.me) }
    requires ready { R.ready keeper.old disk.old }
    ensures ok { IfOk result (ReplicaServed (any S.machine) keys.now me (map (λ c. c.items) commands)
        (node_call asked.now past (change (C.state clock.old) (C.state clock.new))
        (edge (O.state out.old) (L.state link.old) (keep_state D.model R.kept keeper.old disk.old)) (edge (O.state out.new) (L.state link.new) (keep_state D.model R.kept keeper.new disk.new)))
        (LeavesFront D.model R.list_of (R.kept keeper.old disk.old) disk.old disk.new)) }
    ensures cause { IfErr result (ReplicaCause (any S.machine) keys.now me (map (λ c. c.items) commands)
        (node_call asked.now past (change (C.state clock.old) (C.state clock.new))
        (edge (O.state out.old) (L.state link.old) (keep_state D.model R.kept keeper.old disk.old)) (edge (O.state out.new) (L.state link.new) (keep_state D.model R.kept keeper.new disk.new)))
        (LeavesFront D.model R.list_of (R.kept keeper.old disk.old) disk.old disk.new)) }
{
    let Ok(core) = ReplicaMember::<S, AnyProtocol<S>>::new(alloc, keys, me) else {
        return Err(Stop::OutOfMemory);
    };
    let party = Party::Replica(me);
    match serve_core(
        alloc, asked, party, core, commands, past, link, clock, out, keeper, disk,
    ) {
        Ok(served) => Ok(served),
        Err(fault) => Err(Stop::Serving(fault)),
    }
}

/// Serves client `me` of these keys.
fn serve_client<L: Link, C: Clock, O: Sink, D: Disk, R: Keeper<D>>(
    alloc: Global,
    asked: &NodeCommand,
    keys: &PartyKeys,
    me: u16,
    commands: Commands,
    past: Past,
    link: &mut L,
    clock: &mut C,
    out: &mut O,
    keeper: &mut R,
    disk: &mut D,
) -> Result<Served, Stop>
    requires whole { IsWhole keys.now }
    requires own { keys.now.me ≡ ClientParty me }
    requires party { IsTrue (is_party keys.now.f keys.now.clients keys.now.me) }
    requires ready { R.ready keeper.old disk.old }
    ensures ok { IfOk result (ClientServed keys.now me (map (λ c. c.items) commands)
        (node_call asked.now past (change (C.state clock.old) (C.state clock.new))
        (edge (O.state out.old) (L.state link.old) (keep_state D.model R.kept keeper.old disk.old)) (edge (O.state out.new) (L.state link.new) (keep_state D.model R.kept keeper.new disk.new)))
        (LeavesFront D.model R.list_of (R.kept keeper.old disk.old) disk.old disk.new)) }
    ensures cause { IfErr result (ClientCause keys.now me (map (λ c. c.items) commands)
        (node_call asked.now past (change (C.state clock.old) (C.state clock.new))
        (edge (O.state out.old) (L.state link.old) (keep_state D.model R.kept keeper.old disk.old)) (edge (O.state out.new) (L.state link.new) (keep_state D.model R.kept keeper.new disk.new)))
        (LeavesFront D.model R.list_of (R.kept keeper.old disk.old) disk.old disk.new)) }
{
    let Ok(core) = ClientMember::new(alloc, keys, me) else {
        return Err(Stop::OutOfMemory);
    };
    let party = Party::Client(me);
    match serve_core(
        alloc, asked, party, core, commands, past, link, clock, out, keeper, disk,
    ) {
        Ok(served) => Ok(served),
        Err(fault) => Err(Stop::Serving(fault)),
    }
}

/// Serves the party of these keys, which goes on after the events of `past`.
pub(crate) fn serve_party<L: Link, C: Clock, O: Sink, D: Disk, R: Keeper<D>>(
    alloc: Global,
    asked: &NodeCommand,
    keys: &PartyKeys,
    commands: Commands,
    past: Past,
    link: &mut L,
    clock: &mut C,
    out: &mut O,
    keeper: &mut R,
    disk: &mut D,
) -> Result<Served, Stop>
    requires whole { IsWhole keys.now }
    requires party { IsTrue (is_party keys.now.f keys.now.clients keys.now.me) }
    requires ready { R.ready keeper.old disk.old }
    ensures ok { IfOk result (PartyServed keys.now.me keys.now (map (λ c. c.items) commands)
        (node_call asked.now past (change (C.state clock.old) (C.state clock.new))
        (edge (O.state out.old) (L.state link.old) (keep_state D.model R.kept keeper.old disk.old)) (edge (O.state out.new) (L.state link.new) (keep_state D.model R.kept keeper.new disk.new)))
        (LeavesFront D.model R.list_of (R.kept keeper.old disk.old) disk.old disk.new)) }
    ensures cause { IfErr result (PartyEnds keys.now.me keys.now (map (λ c. c.items) commands)
        (node_call asked.now past (change (C.state clock.old) (C.state clock.new))
        (edge (O.state out.old) (L.state link.old) (keep_state D.model R.kept keeper.old disk.old)) (edge (O.state out.new) (L.state link.new) (keep_state D.model R.kept keeper.new disk.new)))
        (LeavesFront D.model R.list_of (R.kept keeper.old disk.old) disk.old disk.new)) }
{
    match keys.me() {
        Party::Client(me) => serve_client(
            alloc, asked, keys, me, commands, past, link, clock, out, keeper, disk,
        ),
        Party::Replica(me) => match keys.service() {
            ServiceName::Echo => serve_replica::<Echo, L, C, O, D, R>(
                alloc, asked, keys, me, commands, past, link, clock, out, keeper, disk,
            ),
            ServiceName::Kv => serve_replica::<Kv, L, C, O, D, R>(
                alloc, asked, keys, me, commands, past, link, clock, out, keeper, disk,
            ),
        },
    }
}

/// The keys and the commands that a text spells.
pub(crate) fn read_party(alloc: Global, text: &[u8]) -> Result<(PartyKeys, Commands), Stop>
    requires { length text.now < 2 ^ 31 }
    ensures reads { IfOk result (λ p. node_in (lines_of text.now) ≡ Ok (node_of p.0 (map (λ c. c.items) p.1))) }
    ensures whole { IfOk result (λ p. IsWhole p.0) }
    ensures cause { IfErr result (λ stop. TextCause stop text.now) }
{
    match read_node(alloc, text) {
        Ok(party) => {
            keys_are_whole();
            Ok(party)
        }
        Err(fault) => Err(stop_of(refusal_of(fault))),
    }
}

/// Serves the party that a text sets up. It keeps no journal.
fn serve_node<L: Link, C: Clock, O: Sink>(
    alloc: Global,
    asked: &NodeCommand,
    text: &[u8],
    link: &mut L,
    clock: &mut C,
    out: &mut O,
) -> Result<Served, Stop>
    requires { length text.now < 2 ^ 31 }
    ensures ok { IfOk result (IsServed text.now
        (plain_call asked.now (change (C.state clock.old) (C.state clock.new)) (change (O.state out.old) (O.state out.new)) (change (L.state link.old) (L.state link.new))) no_crash) }
    ensures cause { IfErr result (λ stop. TextStopped stop text.now
        (plain_call asked.now (change (C.state clock.old) (C.state clock.new)) (change (O.state out.old) (O.state out.new)) (change (L.state link.old) (L.state link.new)))) }
{
    let (keys, commands) = match read_party(alloc, text) {
        Ok(party) => party,
        Err(stop) => return Err(stop),
    };
    let past = Past::none(alloc);
    serve_party(
        alloc,
        asked,
        &keys,
        commands,
        past,
        link,
        clock,
        out,
        &mut NoKeeper,
        &mut NoDisk,
    )
}

/// Serves the party that an input sets up. It keeps no journal.
pub fn serve_text<I: Source, L: Link, C: Clock, O: Sink>(
    alloc: Global,
    asked: &NodeCommand,
    input: &mut I,
    link: &mut L,
    clock: &mut C,
    out: &mut O,
) -> Result<Served, Stop>
    ensures ok { IfOk result (λ served. (text : List ℕ) × IsInput (I.state input.old).left text × IsServed text
        (plain_call asked.now (change (C.state clock.old) (C.state clock.new)) (change (O.state out.old) (O.state out.new)) (change (L.state link.old) (L.state link.new))) no_crash served) }
    ensures cause { IfErr result (λ stop. StopCause stop (change (I.state input.old) (I.state input.new))
        (plain_call asked.now (change (C.state clock.old) (C.state clock.new)) (change (O.state out.old) (O.state out.new)) (change (L.state link.old) (L.state link.new)))) }
    ensures later { (I.state input.old).faults ≤ (I.state input.new).faults }
{
    match read_all(alloc, input) {
        Err(ReadFault::Failed) => Err(Stop::Read),
        Err(ReadFault::TooLong) => Err(Stop::TooLong),
        Err(ReadFault::OutOfMemory) => Err(Stop::OutOfMemory),
        Ok(text) => serve_node(alloc, asked, text.as_slice(), link, clock, out),
    }
}
