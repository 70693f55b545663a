//! One replica with its keys.

ghost use Rattle.std.specs.Prelude.{◌≡◌, ◌⊎◌, ℕ, ◌≤◌, All, IsTrue, IfOk, OnOk, OnErr};
ghost use Rattle.ab_num.specs.declared.party.Party.TheVariants.{Replica as ReplicaParty};
ghost use Rattle.ab_num.specs.Places.{kind_of};
ghost use Rattle.ab_keys.specs.Keys.{is_party};
ghost use Rattle.ab_key_text.specs.Keys.{IsWhole};
ghost use Rattle.ab_run.specs.Forms.{IsDraftOf};
ghost use Rattle.ab_run.specs.Local.{rep_sends};
ghost use Rattle.ab_run.specs.Replicas.{is_spent};
ghost use Rattle.ab_party.specs.Credentials.{IsPartyRing};
ghost use Rattle.ab_party.specs.Cues.{IsCue, call_of};
ghost use Rattle.ab_node.specs.Reactions.{Reacts};
ghost use Rattle.ab_node.specs.Replicas.{IsFirstReplica, own_setup, replica_after, replica_takes};

use crate::keys::Keys;
use crate::nothing::nothing;
use ab_abs::Protocol;
use ab_key_text::PartyKeys;
use ab_loop::{NodeEventRef, PartyCore, Reaction};
use ab_num::OutOfMemory;
use ab_party::{Cue, hear_replica};
use ab_replica::{Effects, Replica};
use ab_svc::Service;
use std::alloc::Global;
use std::marker::Model;

/// A replica of a cluster, and the keys by which it opens what comes and seals what it sends.
#[derive(Drop)]
pub struct ReplicaMember<S: Service, P: Protocol<S>> {
    replica: Replica<S, P>,
    keys: Keys,
}

impl<S: Service, P: Protocol<S>> Model for ReplicaMember<S, P> {
    ghost use Rattle.ab_party.specs.Parties.{IsReplicaOf};
    ghost use Rattle.ab_node.specs.Replicas.{ReplicaMember as TheMember};

    ghost Value = { TheMember P };

    ghost view = { λ m. record { site = m.replica; credentials = m.keys } };

    ghost invariant = { λ m. IsReplicaOf P.proto P.serves m.keys m.replica };
}

impl<S: Service, P: Protocol<S>> ReplicaMember<S, P> {
    /// Replica `me` of these keys before its first event. P serves each kind of the plan.
    pub fn new(alloc: Global, keys: &PartyKeys, me: u8) -> Result<Self, OutOfMemory>
        requires whole { IsWhole keys.now }
        requires own { keys.now.me ≡ ReplicaParty me }
        requires party { IsTrue (is_party keys.now.f keys.now.clients keys.now.me) }
        requires served { (i : ℕ) → 1 ≤ i → IsTrue (P.serves (kind_of keys.now.plan i)) }
        ensures { IfOk result (IsFirstReplica P.proto keys.now me) }
    {
        let own = Keys::of(alloc, keys)?;
        let signatures = own.leaves(me);
        let replica = Replica::new(alloc, keys.cluster(), me, signatures)?;
        Ok(ReplicaMember { replica, keys: own })
    }

    /// It takes what comes. After an `Err` it is as before.
    fn hear(&mut self, alloc: Global, cue: Cue<'_>) -> Result<Effects, OutOfMemory>
        requires { IsCue cue }
        ensures after { OnOk result (self.new ≡ replica_after P.proto self.old (call_of cue.entry)) }
        ensures outs { IfOk result (λ e. e.outs ≡ rep_sends (own_setup self.old) P.proto self.old.site.me self.old.site.rep (call_of cue.entry)) }
        ensures spent { IfOk result (λ e. e.spent ≡ is_spent (own_setup self.old) P.proto self.old.site.me self.old.site.rep (call_of cue.entry)) }
        ensures drafts { IfOk result (λ e. All (IsDraftOf self.old.credentials.ring.f self.old.credentials.ring.me) e.outs) }
        ensures ring { IsPartyRing self.new.credentials.ring }
        ensures err { OnErr result (self.new ≡ self.old) }
    {
        let keys = self.keys.lend();
        let effects = hear_replica(alloc, &keys, &mut self.replica, cue)?;
        Ok(effects)
    }

    /// It takes what comes, and seals what it sends.
    fn react(&mut self, alloc: Global, cue: Cue<'_>) -> Result<Reaction, OutOfMemory>
        requires { IsCue cue }
        ensures reacts { IfOk result (Reacts (replica_takes P.proto self.old (call_of cue.entry)) self.new) }
        ensures err { OnErr result ((self.new ≡ self.old) ⊎ (self.new ≡ replica_after P.proto self.old (call_of cue.entry))) }
    {
        let effects = self.hear(alloc, cue)?;
        let outs = effects.outs.joined(alloc)?;
        let sends = self.keys.lend().seal_all(alloc, outs.as_slice())?;
        Ok(Reaction {
            sends,
            commit: None,
            spent: effects.spent,
            opened: true,
        })
    }
}

impl<S: Service, P: Protocol<S>> PartyCore for ReplicaMember<S, P> {
    ghost use Rattle.ab_node.specs.Replicas.{replica_rules};

    ghost rules = { replica_rules P.proto P.counted };

    fn step(&mut self, alloc: Global, input: &NodeEventRef<'_>) -> Result<Reaction, OutOfMemory> {
        match input {
            NodeEventRef::Invoke(_) => Ok(nothing(alloc, true)),
            NodeEventRef::Message(bytes) => match self.keys.open(alloc, bytes) {
                Some(m) => self.react(alloc, Cue::Message(m)),
                None => Ok(nothing(alloc, false)),
            },
            NodeEventRef::Timeout => self.react(alloc, Cue::Time),
        }
    }

    fn timer(&self) -> Option<u64> {
        self.replica.timer()
    }
}
