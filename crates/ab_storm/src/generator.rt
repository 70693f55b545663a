//! A storm of events.

ghost use Rattle.std.specs.Prelude.{◌≡◌, ◌+◌, ◌<◌, ◌≤◌, ◌++◌, length};
ghost use Rattle.ab_storm.specs.Storms.{stepped, drawn, turned, core_of, deliver, timeout, client_timeout, replica_timeout, in_turn, put_text, put, fresh, first_idle, any_packet, late_packet, chosen, next_of};

use ab_num::{Cluster, Party};
use ab_text::{Core, Event};
use arrayvec::ArrayVec;
use std::marker::Model;

const MULTIPLIER: u64 = 6_364_136_223_846_793_005;

const INCREMENT: u64 = 1_442_695_040_888_963_407;

/// Of how many of the last packets one is delivered late.
const RECENT: u64 = 64;

/// Draws the events of a random schedule, by a linear congruential generator modulo 2^64 (the multiplier and the
/// increment are Knuth's MMIX), of which the upper 31 bits are used.
#[derive(Debug, Drop)]
pub struct Storm {
    cluster: Cluster,
    state: u64,
    turn: u64,
}

/// It is seen as its cluster, the generator's state, and how many packets were delivered in turn.
impl Model for Storm {
    ghost use Rattle.ab_storm.specs.Storms.{Storm as Drawing};

    ghost Value = { Drawing };

    ghost view = { λ s. record { cluster = s.cluster; state = s.state; turn = s.turn } };
}

fn add<const N: usize>(bytes: &mut ArrayVec<u8, N>, more: &[u8])
    requires { length bytes.old.items + length more.now ≤ N }
    ensures { bytes.new.items ≡ bytes.old.items ++ more.now }
{
    match bytes.try_extend_from_slice(more) {
        Ok(()) => {}
        Err(_) => unreachable!(),
    }
}

/// The command that puts a value.
fn put_command(key: u64, value: u64) -> ArrayVec<u8, 128>
    requires { (key < 10) × (value < 1000) }
    ensures { result.items ≡ put_text key value }
{
    let mut command = ArrayVec::new();
    add(&mut command, b"put k");
    add(&mut command, itoa::Buffer::new().format(key).as_bytes());
    add(&mut command, b" v");
    add(&mut command, itoa::Buffer::new().format(value).as_bytes());
    command
}

/// The number of the lowest idle client.
fn lowest_idle(idle: &[bool]) -> Option<u16>
    requires { length idle.now ≤ 16 }
    ensures { result ≡ first_idle 0 idle.now }
{
    for (c, is_idle) in idle.iter().enumerate() {
        if *is_idle {
            return Some(c as u16);
        }
    }
    None
}

impl Storm {
    /// The storm of a seed, before its first event.
    pub fn new(seed: u64, cluster: &Cluster) -> Storm
        ensures { result ≡ record { cluster = cluster.now; state = seed; turn = 0 } }
    {
        Storm {
            cluster: *cluster,
            state: seed,
            turn: 0,
        }
    }

    /// A number below `bound`.
    fn draw(&mut self, bound: u64) -> u64
        requires { 1 ≤ bound }
        ensures draws { result ≡ drawn bound self.new }
        ensures steps { self.new ≡ stepped self.old }
        ensures below { result < bound }
    {
        self.state = self.state.wrapping_mul(MULTIPLIER).wrapping_add(INCREMENT);
        (self.state >> 33) % bound
    }

    fn timeout_client(&mut self) -> Event
        ensures { (result, self.new) ≡ client_timeout self.old }
    {
        let clients = u64::from(self.cluster.clients);
        let client = self.draw(clients) as u16;
        timeout(Party::Client(client))
    }

    fn timeout_replica(&mut self) -> Event
        ensures { (result, self.new) ≡ replica_timeout self.old }
    {
        let cluster = self.cluster;
        let replica = self.draw(u64::from(cluster.replicas())) as u8;
        timeout(Party::Replica(replica))
    }

    /// Counts the packet in turn, if one is left.
    fn take_turn(&mut self, packets: u64)
        ensures { self.new ≡ turned packets self.old }
    {
        if self.turn < packets {
            self.turn += 1;
        }
    }

    fn next_packet(&mut self, packets: u64) -> Event
        ensures { (result, self.new) ≡ in_turn packets self.old }
    {
        if self.turn < packets {
            self.turn += 1;
            deliver(self.turn)
        } else {
            self.timeout_client()
        }
    }

    fn put(&mut self, client: u16) -> Event
        ensures { (result, self.new) ≡ put client self.old }
    {
        let key = self.draw(10);
        let value = self.draw(1000);
        Event::Invoke {
            core: core(Party::Client(client)),
            command: put_command(key, value),
        }
    }

    fn fresh(&mut self, packets: u64, idle: &[bool; 16]) -> Event
        ensures { (result, self.new) ≡ fresh packets idle.now self.old }
    {
        match lowest_idle(idle) {
            Some(client) => self.put(client),
            None => self.next_packet(packets),
        }
    }

    fn any_packet(&mut self, packets: u64) -> Event
        requires { 1 ≤ packets }
        ensures { (result, self.new) ≡ any_packet packets self.old }
    {
        self.take_turn(packets);
        deliver(1 + self.draw(packets))
    }

    fn late_packet(&mut self, packets: u64) -> Event
        requires { 1 ≤ packets }
        ensures { (result, self.new) ≡ late_packet packets self.old }
    {
        deliver(packets - self.draw(packets.min(RECENT)))
    }

    fn choose(&mut self, n: u64, packets: u64, idle: &[bool; 16]) -> Event
        ensures { (result, self.new) ≡ chosen n packets idle.now self.old }
    {
        if n < 48 {
            if self.turn < packets {
                self.next_packet(packets)
            } else {
                self.fresh(packets, idle)
            }
        } else if n < 52 && packets > 0 {
            self.any_packet(packets)
        } else if n >= 52 && n < 56 && packets > 0 {
            self.late_packet(packets)
        } else if n < 62 {
            self.fresh(packets, idle)
        } else if n == 62 {
            self.timeout_client()
        } else {
            self.timeout_replica()
        }
    }

    /// The next event, where so many packets were sent and these clients are idle. It takes no memory.
    ///
    /// Of 64 draws 48 deliver the packets in turn, four deliver any packet again and four one of the last 64; six let the
    /// lowest idle client put a value, as do the former where there is no packet; one each is a client's and a replica's
    /// timeout.
    pub fn next(&mut self, packets: u64, idle: &[bool; 16]) -> Event
        ensures { (result, self.new) ≡ next_of packets idle.now self.old }
    {
        let n = self.draw(64);
        self.choose(n, packets, idle)
    }
}

/// The party's only core.
fn core(party: Party) -> Core
    ensures { result ≡ core_of party }
{
    Core { party, twin: None }
}

fn deliver(packet: u64) -> Event
    ensures { result ≡ deliver packet }
{
    Event::Deliver { packet, core: None }
}

fn timeout(party: Party) -> Event
    ensures { result ≡ timeout party }
{
    Event::Timeout { core: core(party) }
}
