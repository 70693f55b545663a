//! A node over links and clocks in memory.

ghost use Rattle.std.specs.Prelude.{◌≡◌, [], ◌∷◌, IfOk};
ghost use Rattle.ab_num.specs.declared.party.Party.TheVariants.{Replica};
ghost use Rattle.ab_wire_trials.specs.Toys.{asks};

use ab_disk::{DiskFails, KeepFault, Keeper, MemDisk, NoKeeper};
use ab_hist::array_of;
use ab_io::{MemClock, MemLink, SureSink};
use ab_loop::{
    Commands, Commit, Job, NodeEventRef, NodeSetting, PartyCore, Past, Reaction, ServeFault,
    Served, serve,
};
use ab_msg::Packet;
use ab_num::{OutOfMemory, Party};
use ab_piece::cut;
use arrayvec::ArrayVec;
use std::alloc::Global;
use std::marker::Model;

/// A client whose command goes to four replicas, and which commits at the fourth message.
#[derive(Drop)]
struct ToyCore {
    stamp: u64,
    votes: u64,
}

impl Model for ToyCore {
    ghost use Rattle.ab_wire_trials.specs.Toys.{Toy};

    ghost Value = { Toy };

    ghost view = { λ c. record { stamp = c.stamp; votes = c.votes } };
}

fn ask(alloc: Global, r: u8) -> Result<Packet, OutOfMemory>
    ensures { IfOk result (λ m. m ≡ record { to = Replica r; bytes = 7 ∷ [] }) }
{
    Packet::new(alloc, Party::Replica(r), &[7])
}

fn asks(alloc: Global) -> Result<Vec<Packet>, OutOfMemory>
    ensures { IfOk result (λ v. v.items ≡ asks) }
{
    let mut sends = Vec::new(alloc);
    sends.push(ask(alloc, 0)?)?;
    sends.push(ask(alloc, 1)?)?;
    sends.push(ask(alloc, 2)?)?;
    sends.push(ask(alloc, 3)?)?;
    Ok(sends)
}

impl PartyCore for ToyCore {
    ghost use Rattle.ab_wire_trials.specs.Toys.{toy};

    ghost rules = { toy };

    fn step(&mut self, alloc: Global, input: &NodeEventRef<'_>) -> Result<Reaction, OutOfMemory> {
        match input {
            NodeEventRef::Invoke(_) => {
                let sends = asks(alloc)?;
                self.stamp = self.stamp.saturating_add(1);
                self.votes = 0;
                Ok(Reaction {
                    sends,
                    commit: None,
                    spent: false,
                    opened: true,
                })
            }
            NodeEventRef::Message(_) => {
                self.votes = self.votes.saturating_add(1);
                let commit = if self.votes == 4 {
                    Some(Commit {
                        stamp: self.stamp,
                        instance: 1,
                        n: 1,
                        reply: ArrayVec::new(),
                    })
                } else {
                    None
                };
                Ok(Reaction {
                    sends: Vec::new(alloc),
                    commit,
                    spent: false,
                    opened: true,
                })
            }
            NodeEventRef::Timeout => Ok(Reaction {
                sends: Vec::new(alloc),
                commit: None,
                spent: false,
                opened: true,
            }),
        }
    }

    fn timer(&self) -> Option<u64> {
        None
    }
}

fn job(alloc: Global, turns: u64, trace: bool) -> Option<Job<ToyCore>> {
    let mut commands = Commands::new(alloc);
    commands.push(array_of(b"put a 1")).ok()?;
    Some(Job {
        core: ToyCore { stamp: 0, votes: 0 },
        setting: NodeSetting::new(Party::Client(0), 9000, 50, trace)?,
        commands,
        turns,
        past: Past::none(alloc),
    })
}

fn clock(alloc: Global) -> MemClock {
    MemClock::new(Vec::new(alloc))
}

/// A disk that is empty.
fn disk(alloc: Global) -> MemDisk {
    MemDisk::new(
        alloc,
        Vec::new(alloc),
        DiskFails {
            fail_open: Vec::new(alloc),
            fail_len: Vec::new(alloc),
            fail_read: Vec::new(alloc),
            fail_write: Vec::new(alloc),
            fail_sync: Vec::new(alloc),
        },
    )
}

/// Serves without keeping.
fn serve_plainly(
    alloc: Global,
    job: Job<ToyCore>,
    link: &mut MemLink,
    out: &mut SureSink,
) -> Result<Served, ServeFault> {
    serve(
        alloc,
        job,
        link,
        &mut clock(alloc),
        out,
        &mut NoKeeper,
        &mut disk(alloc),
    )
}

fn is_taken(me: Party, base: u16) -> bool {
    NodeSetting::new(me, base, 50, false).is_some()
}

#[test]
fn a_setting_is_of_a_party_and_leaves_each_a_port(rt: HostRuntime) {
    assert!(rt; is_taken(Party::Replica(6), 65_000));
    assert!(rt; !is_taken(Party::Replica(6), 65_001));
    assert!(rt; !is_taken(Party::Replica(7), 9000));
    assert!(rt; is_taken(Party::Client(15), 1));
    assert!(rt; !is_taken(Party::Client(16), 1));
}

#[test]
fn a_quiet_link_uses_the_turns(rt: HostRuntime) {
    let alloc = rt.alloc();
    let mut link = MemLink::new(
        alloc,
        Vec::new(alloc),
        Vec::new(alloc),
        Vec::new(alloc),
        Vec::new(alloc),
    );
    let mut out = SureSink::new(alloc);
    let job = job(alloc, 3, false).expect(&rt, "memory");
    assert!(rt; serve_plainly(alloc, job, &mut link, &mut out) == Err(ServeFault::TurnsSpent(1)));
    assert!(rt; out.bytes() == b"end 1 4 0 0\n".as_slice());
    assert!(rt; link.sent().len() == 4);
    let last = link.sent().get(3).expect(&rt, "no datagram");
    assert!(rt; last.0 == 9003);
}

#[test]
fn the_second_recv_fails(rt: HostRuntime) {
    let alloc = rt.alloc();
    let second = vec![in alloc; 2u64].expect(&rt, "memory");
    let mut link = MemLink::new(
        alloc,
        Vec::new(alloc),
        Vec::new(alloc),
        second,
        Vec::new(alloc),
    );
    let mut out = SureSink::new(alloc);
    let job = job(alloc, 3, false).expect(&rt, "memory");
    assert!(rt; serve_plainly(alloc, job, &mut link, &mut out) == Err(ServeFault::LinkFailed));
    assert!(rt; out.bytes() == b"".as_slice());
}

#[test]
fn a_lost_datagram_is_counted(rt: HostRuntime) {
    let alloc = rt.alloc();
    let second = vec![in alloc; 2u64].expect(&rt, "memory");
    let mut link = MemLink::new(
        alloc,
        Vec::new(alloc),
        Vec::new(alloc),
        Vec::new(alloc),
        second,
    );
    let mut out = SureSink::new(alloc);
    let job = job(alloc, 3, false).expect(&rt, "memory");
    assert!(rt; serve_plainly(alloc, job, &mut link, &mut out) == Err(ServeFault::TurnsSpent(1)));
    assert!(rt; out.bytes() == b"end 1 4 1 0\n".as_slice());
    assert!(rt; link.sent().len() == 3);
}

/// The first message of each of four replicas.
fn replies(alloc: Global) -> Option<MemLink> {
    let mut to_come = Vec::new(alloc);
    for r in 0..4u8 {
        let pieces = cut(alloc, Party::Replica(r), 1, b"\x01\xfe").ok()?;
        to_come
            .push(Vec::from_slice(alloc, pieces.get(0)).ok()?)
            .ok()?;
    }
    Some(MemLink::new(
        alloc,
        to_come,
        Vec::new(alloc),
        Vec::new(alloc),
        Vec::new(alloc),
    ))
}

#[test]
fn four_replies_commit(rt: HostRuntime) {
    let alloc = rt.alloc();
    let mut link = replies(alloc).expect(&rt, "memory");
    let mut out = SureSink::new(alloc);
    let job = job(alloc, 4, true).expect(&rt, "memory");
    let served = serve_plainly(alloc, job, &mut link, &mut out);
    assert!(rt;
        served
            == Ok(Served {
                events: 5,
                sent: 4,
                lost: 0,
                spent: 0
            })
    );
    let text =
        b"invoke c0 put a 1\ninject c0 01fe\ninject c0 01fe\ninject c0 01fe\ninject c0 01fe\nreply 1 1 1 \nend 5 4 0 0\n";
    assert!(rt; out.bytes() == text.as_slice());
}

#[test]
fn a_command_of_an_earlier_run_is_not_asked_again(rt: HostRuntime) {
    let alloc = rt.alloc();
    let mut link = replies(alloc).expect(&rt, "memory");
    let mut out = SureSink::new(alloc);
    let mut job = job(alloc, 4, false).expect(&rt, "memory");
    let mut bodies = Vec::new(alloc);
    bodies
        .push(Vec::from_slice(alloc, b"\x01put a 1").expect(&rt, "memory"))
        .expect(&rt, "memory");
    job.past = Past::read(bodies).ok().expect(&rt, "events");
    let served = serve_plainly(alloc, job, &mut link, &mut out);
    assert!(rt;
        served
            == Ok(Served {
                events: 5,
                sent: 0,
                lost: 0,
                spent: 0
            })
    );
    assert!(rt; out.bytes() == b"reply 1 1 1 \nend 5 0 0 0\n".as_slice());
    assert!(rt; link.sent().is_empty());
}

/// A keeper that refuses.
#[derive(Drop)]
struct Refuser;

impl Keeper<MemDisk> for Refuser {
    ghost use Rattle.std.specs.Prelude.{None, [], ⊤};

    ghost ready = { λ k d. ⊤ };

    ghost kept = { λ k d. None };

    ghost list_of = { λ c. [] };

    ghost kept_is_left = { λ k d c ready may. tt };

    fn keep(&mut self, _alloc: Global, _disk: &mut MemDisk, _body: &[u8]) -> Result<(), KeepFault> {
        Err(KeepFault::OutOfMemory)
    }
}

#[test]
fn what_is_not_kept_is_not_sent(rt: HostRuntime) {
    let alloc = rt.alloc();
    let mut link = replies(alloc).expect(&rt, "memory");
    let mut out = SureSink::new(alloc);
    let job = job(alloc, 4, false).expect(&rt, "memory");
    let served = serve(
        alloc,
        job,
        &mut link,
        &mut clock(alloc),
        &mut out,
        &mut Refuser,
        &mut disk(alloc),
    );
    assert!(rt; served == Err(ServeFault::OutOfMemory));
    assert!(rt; link.sent().is_empty());
    assert!(rt; out.bytes() == b"".as_slice());
}
