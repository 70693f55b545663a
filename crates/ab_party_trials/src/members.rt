//! The node of a client, whose four replicas answer.

ghost use Rattle.std.specs.Prelude.{◌≡◌, ◌<◌, IfOk, IsTrue, replicate};
ghost use Rattle.ab_num.specs.declared.plan.Plan.TheVariants.{Quorum as QuorumPlan};
ghost use Rattle.ab_num.specs.declared.plan.ServiceName.TheVariants.{Kv as KvService};
ghost use Rattle.ab_num.specs.declared.plan.Height.TheVariants.{Five};
ghost use Rattle.ab_num.specs.declared.plan.Scheme.TheVariants.{Lms};
ghost use Rattle.ab_keys.specs.Keys.{is_party};
ghost use Rattle.ab_key_text.specs.Derived.{keys_of};

use ab_disk::{DiskFails, MemDisk, NoKeeper};
use ab_hist::array_of;
use ab_io::{MemClock, MemLink, SureSink};
use ab_key_text::{PartyKeys, keys_are_whole};
use ab_kv::Kv;
use ab_loop::{
    Commands, Job, NodeEventRef, NodeSetting, PartyCore, Past, Reaction, ServeFault, Served, serve,
};
use ab_msg::Packet;
use ab_node::{ClientMember, ReplicaMember};
use ab_num::{Cluster, Height, OutOfMemory, Party, Plan, Scheme, ServiceName};
use ab_piece::cut;
use ab_quorum::Quorum;
use std::alloc::Global;

/// The keys of a party of a cluster of four replicas and one client.
fn keys_for(alloc: Global, me: Party) -> Result<PartyKeys, OutOfMemory>
    requires { IsTrue (is_party 1 1 me) }
    ensures { IfOk result (λ k. k ≡ keys_of 1 1 QuorumPlan 0 KvService (Lms Five) (replicate 32 0) me) }
{
    let cluster = Cluster {
        f: 1,
        clients: 1,
        plan: Plan::Quorum,
        every: 0,
    };
    PartyKeys::derive(
        alloc,
        &cluster,
        ServiceName::Kv,
        Scheme::Lms(Height::Five),
        &[0; 32],
        me,
    )
}

fn client(alloc: Global) -> Result<ClientMember, OutOfMemory> {
    keys_are_whole();
    let keys = keys_for(alloc, Party::Client(0))?;
    let made = ClientMember::new(alloc, &keys, 0);
    drop(keys);
    made
}

fn replica(alloc: Global, r: u8) -> Result<ReplicaMember<Kv, Quorum<Kv>>, OutOfMemory>
    requires { r < 4 }
{
    keys_are_whole();
    let keys = keys_for(alloc, Party::Replica(r))?;
    let made = ReplicaMember::new(alloc, &keys, r);
    drop(keys);
    made
}

/// Adds a datagram.
fn add_datagram(
    alloc: Global,
    bytes: &[u8],
    datagrams: &mut Vec<Vec<u8>>,
) -> Result<(), OutOfMemory> {
    datagrams.push(Vec::from_slice(alloc, bytes)?)?;
    Ok(())
}

/// Adds the datagrams of a message of a replica.
fn add_message(
    alloc: Global,
    r: u8,
    bytes: &[u8],
    datagrams: &mut Vec<Vec<u8>>,
) -> Result<(), OutOfMemory>
    requires { r < 4 }
{
    if bytes.is_empty() || bytes.len() > 8192 {
        return Ok(());
    }
    let pieces = cut(alloc, Party::Replica(r), 1, bytes)?;
    let mut added = Ok(());
    for i in 0..pieces.len() {
        if added.is_ok() {
            added = add_datagram(alloc, pieces.get(i), datagrams);
        }
    }
    drop(pieces);
    added
}

/// What the client sends as it takes its first command.
fn asked(alloc: Global) -> Result<Reaction, OutOfMemory> {
    let mut client = client(alloc)?;
    let done = client.step(alloc, &NodeEventRef::Invoke(b"put a 1"));
    drop(client);
    done
}

/// What a replica that has begun sends as these bytes come.
fn told(alloc: Global, r: u8, bytes: &[u8]) -> Result<Reaction, OutOfMemory>
    requires { r < 4 }
{
    let mut replica = replica(alloc, r)?;
    let done = replica.step(alloc, &NodeEventRef::Message(bytes));
    drop(replica);
    done
}

/// Adds what a replica answers to a request that is for it.
fn add_replies(
    alloc: Global,
    request: &Packet,
    datagrams: &mut Vec<Vec<u8>>,
) -> Result<(), OutOfMemory> {
    let Party::Replica(r) = request.to() else {
        return Ok(());
    };
    if r >= 4 {
        return Ok(());
    }
    let told = told(alloc, r, request.bytes())?;
    let mut added = Ok(());
    for reply in told.sends.as_slice() {
        if added.is_ok() {
            added = add_message(alloc, r, reply.bytes(), datagrams);
        }
    }
    drop(told);
    added
}

/// What the replicas answer to the client's first command.
fn replies(alloc: Global) -> Result<Vec<Vec<u8>>, OutOfMemory> {
    let asked = asked(alloc)?;
    let mut datagrams = Vec::new(alloc);
    let mut added = Ok(());
    for request in asked.sends.as_slice() {
        if added.is_ok() {
            added = add_replies(alloc, request, &mut datagrams);
        }
    }
    drop(asked);
    match added {
        Ok(()) => Ok(datagrams),
        Err(fault) => {
            drop(datagrams);
            Err(fault)
        }
    }
}

fn commands(alloc: Global) -> Option<Commands> {
    let mut commands = Commands::new(alloc);
    commands.push(array_of(b"put a 1")).ok()?;
    Some(commands)
}

fn job(alloc: Global, turns: u64) -> Option<Job<ClientMember>> {
    let setting = NodeSetting::new(Party::Client(0), 9000, 50, false)?;
    let commands = commands(alloc)?;
    let Ok(core) = client(alloc) else {
        drop(commands);
        return None;
    };
    Some(Job {
        core,
        setting,
        commands,
        turns,
        past: Past::none(alloc),
    })
}

/// A disk that is empty.
fn disk(alloc: Global) -> MemDisk {
    MemDisk::new(
        alloc,
        Vec::new(alloc),
        DiskFails {
            fail_open: Vec::new(alloc),
            fail_len: Vec::new(alloc),
            fail_read: Vec::new(alloc),
            fail_write: Vec::new(alloc),
            fail_sync: Vec::new(alloc),
        },
    )
}

/// How a client's node ends where these datagrams come, and whether it wrote what is given.
fn served(
    alloc: Global,
    to_come: Vec<Vec<u8>>,
    turns: u64,
    written: &[u8],
) -> Option<(Result<Served, ServeFault>, bool)> {
    let Some(job) = job(alloc, turns) else {
        drop(to_come);
        return None;
    };
    let none = Vec::new(alloc);
    let mut link = MemLink::new(alloc, to_come, none, Vec::new(alloc), Vec::new(alloc));
    let mut clock = MemClock::new(Vec::new(alloc));
    let mut out = SureSink::new(alloc);
    let served = serve(
        alloc,
        job,
        &mut link,
        &mut clock,
        &mut out,
        &mut NoKeeper,
        &mut disk(alloc),
    );
    let is_written = out.bytes() == written;
    drop(link);
    drop(clock);
    drop(out);
    Some((served, is_written))
}

#[test]
fn a_quiet_link_uses_the_turns(rt: HostRuntime) {
    let alloc = rt.alloc();
    let done = served(alloc, Vec::new(alloc), 3, b"end 1 4 0 0\n");
    assert!(rt; done == Some((Err(ServeFault::TurnsSpent(1)), true)));
}

#[test]
fn four_replies_commit(rt: HostRuntime) {
    let alloc = rt.alloc();
    let to_come = replies(alloc).expect(&rt, "memory");
    let done = served(alloc, to_come, 4, b"reply 1 1 1 ok\nend 5 4 0 0\n");
    let ended = Served {
        events: 5,
        sent: 4,
        lost: 0,
        spent: 0,
    };
    assert!(rt; done == Some((Ok(ended), true)));
}
