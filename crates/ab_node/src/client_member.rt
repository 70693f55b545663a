//! One client with its keys.

ghost use Rattle.std.specs.Prelude.{◌≡◌, ◌⊎◌, All, IsTrue, IfOk, OnOk, OnErr, false, true};
ghost use Rattle.ab_num.specs.declared.party.Party.TheVariants.{Client as ClientParty};
ghost use Rattle.ab_keys.specs.Keys.{is_party};
ghost use Rattle.ab_key_text.specs.Keys.{IsWhole};
ghost use Rattle.ab_client.specs.Clients.{told};
ghost use Rattle.ab_run.specs.Forms.{IsDraftOf};
ghost use Rattle.ab_msg.specs.Packets.{IsSendable};
ghost use Rattle.ab_party.specs.Credentials.{IsPartyRing, sealed_all};
ghost use Rattle.ab_party.specs.Cues.{IsCue, cue_of};
ghost use Rattle.ab_party.specs.Parties.{ClientHears, IsClientOf};
ghost use Rattle.ab_node.specs.Reactions.{Reacts};
ghost use Rattle.ab_node.specs.Clients.{Does, IsFirstClient, client_after, client_takes, commit_in, is_command};

use crate::commits::commit_in;
use crate::keys::Keys;
use crate::nothing::nothing;
use ab_client::Client;
use ab_key_text::PartyKeys;
use ab_loop::{NodeEventRef, PartyCore, Reaction};
use ab_num::OutOfMemory;
use ab_party::{CommandFault, Credentials, Cue, hear_client, tell_client};
use ab_replica::Effects;
use std::alloc::Global;
use std::marker::Model;

/// The last stamp that a client gives.
const LAST_STAMP: u64 = 1 << 63;

/// A client of a cluster, and the keys by which it opens what comes and seals what it sends.
#[derive(Drop)]
pub struct ClientMember {
    client: Client,
    keys: Keys,
}

impl Model for ClientMember {
    ghost use Rattle.ab_party.specs.Parties.{IsClientOf};
    ghost use Rattle.ab_node.specs.Clients.{ClientMember as TheMember};

    ghost Value = { TheMember };

    ghost view = { λ m. record { seat = m.client; credentials = m.keys } };

    ghost invariant = { λ m. IsClientOf m.keys m.client };
}

/// A client takes a command. While a request is open nothing comes of it. After an `Err` it is as before.
#[tactic(auto, using(crate::proofs::MemberLemmas::busy_rests))]
fn tell(
    alloc: Global,
    keys: &Credentials<'_>,
    client: &mut Client,
    command: &[u8],
) -> Result<Effects, OutOfMemory>
    requires command { IsTrue (is_command client.old.cli command.now) }
    requires own { IsClientOf keys.now client.old }
    ensures hears { IfOk result (λ e. ClientHears client.old (told command.now) client.new e.outs e.marks.items e.spent) }
    ensures own { OnOk result (IsClientOf keys.now client.new) }
    ensures drafts { IfOk result (λ e. All (IsDraftOf keys.now.ring.f keys.now.ring.me) e.outs) }
    ensures err { OnErr result (client.new ≡ client.old) }
{
    match tell_client(alloc, keys, client, command) {
        Ok(effects) => Ok(effects),
        Err(CommandFault::Busy) => Ok(Effects::none(alloc, false)),
        Err(CommandFault::NoClient) => unreachable!(),
        Err(CommandFault::OutOfMemory) => Err(OutOfMemory),
    }
}

impl ClientMember {
    /// Client `me` of these keys before its first event.
    pub fn new(alloc: Global, keys: &PartyKeys, me: u16) -> Result<Self, OutOfMemory>
        requires whole { IsWhole keys.now }
        requires own { keys.now.me ≡ ClientParty me }
        requires party { IsTrue (is_party keys.now.f keys.now.clients keys.now.me) }
        ensures { IfOk result (IsFirstClient keys.now me) }
    {
        let own = Keys::of(alloc, keys)?;
        let client = Client::new(alloc, keys.cluster(), me);
        Ok(ClientMember { client, keys: own })
    }

    /// Whether a command is in form, and a stamp is left for it.
    fn takes(&self, command: &[u8]) -> bool
        ensures { result ≡ is_command self.now.seat.cli command.now }
    {
        self.client.stamp() < LAST_STAMP && (1 <= command.len() && command.len() <= 128)
    }

    /// It takes a command. After an `Err` it is as before.
    fn tell(&mut self, alloc: Global, command: &[u8]) -> Result<Effects, OutOfMemory>
        requires { IsTrue (is_command self.old.seat.cli command.now) }
        ensures does { IfOk result (λ e. Does self.old (told command.now) self.new e.outs e.marks.items) }
        ensures err { OnErr result (self.new ≡ self.old) }
    {
        let keys = self.keys.lend();
        let effects = tell(alloc, &keys, &mut self.client, command)?;
        Ok(effects)
    }

    /// It takes what comes. After an `Err` it is as before.
    fn hear(&mut self, alloc: Global, cue: Cue<'_>) -> Result<Effects, OutOfMemory>
        requires { IsCue cue }
        ensures does { IfOk result (λ e. Does self.old (cue_of cue.entry) self.new e.outs e.marks.items) }
        ensures err { OnErr result (self.new ≡ self.old) }
    {
        let keys = self.keys.lend();
        let effects = hear_client(alloc, &keys, &mut self.client, cue)?;
        Ok(effects)
    }

    /// Seals what is sent, and tells the commit.
    fn finish(&self, alloc: Global, effects: Effects) -> Result<Reaction, OutOfMemory>
        requires ring { IsPartyRing self.now.credentials.ring }
        requires drafts { All (IsDraftOf self.now.credentials.ring.f self.now.credentials.ring.me) effects.outs }
        ensures sends { IfOk result (λ e. e.sends.items ≡ sealed_all self.now.credentials.ring effects.outs) }
        ensures commit { IfOk result (λ e. e.commit ≡ commit_in effects.marks.items) }
        ensures spent { IfOk result (λ e. e.spent ≡ false) }
        ensures opened { IfOk result (λ e. e.opened ≡ true) }
        ensures sendable { IfOk result (λ e. All IsSendable e.sends.items) }
    {
        let outs = effects.outs.joined(alloc)?;
        let sends = self.keys.lend().seal_all(alloc, outs.as_slice())?;
        Ok(Reaction {
            sends,
            commit: commit_in(effects.marks.as_slice()),
            spent: false,
            opened: true,
        })
    }

    /// It takes a command, and seals what it sends.
    fn ask(&mut self, alloc: Global, command: &[u8]) -> Result<Reaction, OutOfMemory>
        requires { IsTrue (is_command self.old.seat.cli command.now) }
        ensures reacts { IfOk result (Reacts (client_takes self.old (told command.now)) self.new) }
        ensures err { OnErr result ((self.new ≡ self.old) ⊎ (self.new ≡ client_after self.old (told command.now))) }
    {
        let effects = self.tell(alloc, command)?;
        self.finish(alloc, effects)
    }

    /// It takes what comes, and seals what it sends.
    fn react(&mut self, alloc: Global, cue: Cue<'_>) -> Result<Reaction, OutOfMemory>
        requires { IsCue cue }
        ensures reacts { IfOk result (Reacts (client_takes self.old (cue_of cue.entry)) self.new) }
        ensures err { OnErr result ((self.new ≡ self.old) ⊎ (self.new ≡ client_after self.old (cue_of cue.entry))) }
    {
        let effects = self.hear(alloc, cue)?;
        self.finish(alloc, effects)
    }
}

impl PartyCore for ClientMember {
    ghost use Rattle.ab_node.specs.Clients.{client_rules};

    ghost rules = { client_rules };

    fn step(&mut self, alloc: Global, input: &NodeEventRef<'_>) -> Result<Reaction, OutOfMemory> {
        match input {
            NodeEventRef::Invoke(command) => {
                if self.takes(command) {
                    self.ask(alloc, command)
                } else {
                    Ok(nothing(alloc, true))
                }
            }
            NodeEventRef::Message(bytes) => match self.keys.open(alloc, bytes) {
                Some(m) => self.react(alloc, Cue::Message(m)),
                None => Ok(nothing(alloc, false)),
            },
            NodeEventRef::Timeout => self.react(alloc, Cue::Time),
        }
    }

    fn timer(&self) -> Option<u64> {
        self.client.timer()
    }
}
