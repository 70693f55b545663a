//! A link in memory.

ghost use Rattle.std.specs.Prelude.{◌≡◌, ◌≤◌, ◌↔◌, [], length, take, map, IsErr, IsErrOf, IsTrue};
ghost use Rattle.ab_io.specs.Datagrams.{FitsIn, given_of, longest_datagram};
ghost use Rattle.ab_io.specs.States.{Opens, Receives, Sends};
ghost use Rattle.ab_io.specs.Told.{fails_next, link_of, one_call};

use crate::fault::{Failed, Refused};
use crate::link::{Got, LONGEST_DATAGRAM, Link};
use crate::memory::calls::{Calls, one_more};
use std::alloc::Global;
use std::marker::Model;

/// Datagrams in memory. Stated calls fail. Where no datagram is left it is quiet.
#[derive(Drop)]
pub struct MemLink {
    alloc: Global,
    to_come: Vec<Vec<u8>>,
    at: usize,
    sent: Vec<(u16, Vec<u8>)>,
    faults: u64,
    losses: u64,
    opens: Calls,
    recvs: Calls,
    sends: Calls,
}

/// It is seen as what is to come and what was sent, with its faults and its calls.
impl Model for MemLink {
    ghost use Rattle.std.specs.Prelude.{drop, map, ◌≤◌, length};
    ghost use Rattle.ab_io.specs.Told.{ToldLink};

    ghost Value = { ToldLink };

    ghost view = { λ l. record {
      to_come = map (λ d. d.items) (drop l.at l.to_come.items);
      sent = map (λ s. (s.0, s.1.items)) l.sent.items;
      faults = l.faults;
      losses = l.losses;
      opens = l.opens;
      recvs = l.recvs;
      sends = l.sends;
    } };

    ghost invariant = { λ l. l.at ≤ length l.to_come.items };
}

impl MemLink {
    /// A link to which these datagrams come. The calls of each kind with the numbers in its list
    /// fail, counted from 1.
    pub fn new(
        alloc: Global,
        to_come: Vec<Vec<u8>>,
        fail_open: Vec<u64>,
        fail_recv: Vec<u64>,
        fail_send: Vec<u64>,
    ) -> MemLink
        ensures to_come { result.to_come ≡ map (λ d. d.items) to_come.items }
        ensures sent { result.sent ≡ [] }
        ensures counts { (result.faults ≡ 0) × (result.losses ≡ 0) }
        ensures opens { result.opens ≡ record { made = 0; fail = fail_open.items } }
        ensures recvs { result.recvs ≡ record { made = 0; fail = fail_recv.items } }
        ensures sends { result.sends ≡ record { made = 0; fail = fail_send.items } }
    {
        MemLink {
            alloc,
            to_come,
            at: 0,
            sent: Vec::new(alloc),
            faults: 0,
            losses: 0,
            opens: Calls::new(fail_open),
            recvs: Calls::new(fail_recv),
            sends: Calls::new(fail_send),
        }
    }

    /// What was sent, with its ports.
    pub fn sent(&self) -> &[(u16, Vec<u8>)]
        ensures { map (λ s. (s.0, s.1.items)) result.now ≡ self.now.sent }
    {
        self.sent.as_slice()
    }
}

/// Puts the front of a datagram, at most `room` bytes, at the front of the buffer.
fn move_front(datagram: &[u8], room: usize, buf: &mut [u8]) -> usize
    requires { room ≤ length buf.old }
    ensures count { result ≡ length (take room datagram.now) }
    ensures bound { result ≤ room }
    ensures moved { take result buf.new ≡ take room datagram.now }
{
    let count = datagram.len().min(room);
    buf[..count].copy_from_slice(&datagram[..count]);
    count
}

/// Puts what is given of a datagram at the front of the buffer.
#[tactic(auto, unfolding(crate::specs::Datagrams::given_of))]
fn give(datagram: &[u8], buf: &mut [u8]) -> usize
    requires { longest_datagram ≤ length buf.old }
    ensures count { result ≡ length (given_of datagram.now) }
    ensures bound { result ≤ longest_datagram }
    ensures moved { take result buf.new ≡ given_of datagram.now }
{
    move_front(datagram, LONGEST_DATAGRAM, buf)
}

impl Link for MemLink {
    ghost use Rattle.ab_io.specs.Told.{link_of};

    ghost state = { link_of };

    fn open(&mut self, _port: u16) -> Result<(), Failed>
        ensures opens { Opens (link_of self.old) (link_of self.new) result }
        ensures fails { IsErr result ↔ IsTrue (fails_next self.old.opens) }
        ensures calls { (self.new.opens ≡ one_call self.old.opens) × (self.new.recvs ≡ self.old.recvs) × (self.new.sends ≡ self.old.sends) }
    {
        if self.opens.fails() {
            self.faults = one_more(self.faults);
            return Err(Failed);
        }
        Ok(())
    }

    fn recv(&mut self, buf: &mut [u8], _wait_ms: u32) -> Got
        requires { longest_datagram ≤ length buf.old }
        ensures bound { FitsIn longest_datagram result }
        ensures receives { Receives (link_of self.old) (link_of self.new) result buf.new }
        ensures fails { (result ≡ Got.Failed) ↔ IsTrue (fails_next self.old.recvs) }
        ensures calls { (self.new.opens ≡ self.old.opens) × (self.new.recvs ≡ one_call self.old.recvs) × (self.new.sends ≡ self.old.sends) }
    {
        if self.recvs.fails() {
            self.faults = one_more(self.faults);
            return Got::Failed;
        }
        match self.to_come.get(self.at) {
            Some(datagram) => {
                let count = give(datagram, buf);
                self.at += 1;
                Got::Bytes(count)
            }
            None => Got::Quiet,
        }
    }

    fn send(&mut self, port: u16, bytes: &[u8]) -> Result<(), Refused>
        ensures sends { Sends (link_of self.old) (link_of self.new) result port bytes.now }
        ensures fails { IsErrOf result Refused.Failed ↔ IsTrue (fails_next self.old.sends) }
        ensures calls { (self.new.opens ≡ self.old.opens) × (self.new.recvs ≡ self.old.recvs) × (self.new.sends ≡ one_call self.old.sends) }
    {
        if self.sends.fails() {
            self.losses = one_more(self.losses);
            return Err(Refused::Failed);
        }
        let Ok(copy) = Vec::from_slice(self.alloc, bytes) else {
            return Err(Refused::OutOfMemory);
        };
        match self.sent.push((port, copy)) {
            Ok(()) => Ok(()),
            Err(_) => Err(Refused::OutOfMemory),
        }
    }
}
