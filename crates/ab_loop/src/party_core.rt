//! What a node drives.

use ab_msg::Packet;
use ab_num::OutOfMemory;
use arrayvec::ArrayVec;
use std::alloc::Global;

/// What comes to a party's core.
#[derive(Clone, Copy)]
pub enum NodeEventRef<'a> {
    /// A client's command.
    Invoke(&'a [u8]),
    /// The bytes of a message.
    Message(&'a [u8]),
    /// Its timer has run out.
    Timeout,
}

/// A commit of a client: the request's stamp and instance, its number, and the reply.
#[derive(Drop)]
pub struct Commit {
    pub stamp: u64,
    pub instance: u32,
    pub n: u16,
    pub reply: ArrayVec<u8, 72>,
}

/// What a core sends and shows in one event. `opened` is false exactly for a message that it couldn't open.
#[derive(Drop)]
pub struct Reaction {
    pub sends: Vec<Packet>,
    pub commit: Option<Commit>,
    pub spent: bool,
    pub opened: bool,
}

/// One party's state, as functions of what comes to it.
pub trait PartyCore: Sized + Drop {
    ghost use Rattle.std.specs.Prelude.{◌≡◌, ◌⊎◌, All, IfOk, OnErr};
    ghost use Rattle.ab_loop.specs.Cores.{Rules, event_of};
    ghost use Rattle.ab_msg.specs.Packets.{IsSendable};

    /// What each event leaves, sends and shows.
    ghost rules: { Rules Self };

    /// Handles an event. After an `Err` it is as before, or where the event leads it: then what it
    /// sends is lost, as a datagram may be.
    fn step(&mut self, alloc: Global, input: &NodeEventRef<'_>) -> Result<Reaction, OutOfMemory>
        ensures after { IfOk result (λ e. self.new ≡ (rules.step self.old (event_of input.now)).after) }
        ensures sends { IfOk result (λ e. e.sends.items ≡ (rules.step self.old (event_of input.now)).sends) }
        ensures commit { IfOk result (λ e. e.commit ≡ (rules.step self.old (event_of input.now)).commit) }
        ensures spent { IfOk result (λ e. e.spent ≡ (rules.step self.old (event_of input.now)).spent) }
        ensures opened { IfOk result (λ e. e.opened ≡ (rules.step self.old (event_of input.now)).opened) }
        ensures sendable { IfOk result (λ e. All IsSendable e.sends.items) }
        ensures err { OnErr result ((self.new ≡ self.old) ⊎ (self.new ≡ (rules.step self.old (event_of input.now)).after)) };

    /// None where its timer is off; else the timer runs anew whenever the number changes.
    fn timer(&self) -> Option<u64>
        ensures { result ≡ rules.timer self.now };
}
