//! The cores of all parties.

ghost use Rattle.std.specs.Prelude.{option_and_then, ◌≡◌, ◌+◌, ◌*◌, ◌<◌, ◌≤◌, ℕ, IsOkAnd, IfOk, IfErr, IfSome, OnOk, OnErr, Option, Some, None, [], ◌∷◌, length, slice_get};
ghost use Rattle.std.specs.Option.{option_map};
ghost use Rattle.ab_num.specs.declared.party.Party.{Party as TheParty};
ghost use Rattle.ab_num.specs.Limits.{most_events};
ghost use Rattle.ab_abs.specs.declared.seen.Seen.{Seen};
ghost use Rattle.ab_abs.specs.Promises.{ServesAll};
ghost use Rattle.ab_wire.specs.Views.{IsReceived, message as message_of};
ghost use Rattle.ab_run.specs.Local.{cue_command, cue_message, cue_time};
ghost use Rattle.ab_party.specs.Cues.{IsCue, cue_of};
ghost use Rattle.ab_cast.specs.Setups.{place_of, party_at};
ghost use Rattle.ab_cast.specs.Cores.{CommitsAtOnce, Core};
ghost use Rattle.ab_cast.specs.Casts.{AreSeats, IsTaken, core_at, next, first_cast, is_free, command_refusal, CommandCause};

use crate::cores::{
    first_client_twins, first_clients, first_replica_twins, first_replicas, hear_client_at,
    hear_replica_at, tell_client_at,
};
use crate::place::Place;
use crate::setup::Setup;
use ab_abs::Protocol;
use ab_client::Client;
use ab_hist::History;
use ab_num::OutOfMemory;
use ab_party::{CommandFault, Cue};
use ab_replica::{Effects, Replica};
use ab_svc::Service;
use ab_wire::MsgRef;
use std::alloc::Global;
use std::marker::Model;

/// Each party's own core, the further cores of faulty parties, and how many events came to them.
pub struct Cast<S: Service, P: Protocol<S>> {
    setup: Setup,
    replicas: Vec<Replica<S, P>>,
    clients: Vec<Client>,
    replica_twins: Vec<Replica<S, P>>,
    client_twins: Vec<Client>,
    events: u32,
}

impl<S: Service, P: Protocol<S>> Drop for Cast<S, P> {
    fn drop(self) {
        let Cast {
            setup: _,
            replicas: _,
            clients: _,
            replica_twins: _,
            client_twins: _,
            events: _,
        } = self;
    }
}

impl<S: Service, P: Protocol<S>> Model for Cast<S, P> {
    ghost use Rattle.ab_cast.specs.Casts.{Cast as TheCast, IsCast};

    ghost Value = { TheCast P };

    ghost view = { λ x. record {
      setup = x.setup;
      replicas = x.replicas.items;
      clients = x.clients.items;
      replica_twins = x.replica_twins.items;
      client_twins = x.client_twins.items;
      events = x.events;
    } };

    ghost invariant = { λ x. IsCast P.proto P.serves (record {
      setup = x.setup;
      replicas = x.replicas.items;
      clients = x.clients.items;
      replica_twins = x.replica_twins.items;
      client_twins = x.client_twins.items;
      events = x.events;
    }) };
}

impl<S: Service, P: Protocol<S>> Cast<S, P> {
    /// The cores before the first event, where P serves each kind of the plan.
    pub fn new(alloc: Global, setup: Setup) -> Result<Self, OutOfMemory>
        requires { ServesAll P.serves setup.cluster }
        ensures { IfOk result (λ x. x ≡ first_cast P.proto setup) }
    {
        let replicas = first_replicas(alloc, &setup)?;
        let clients = first_clients(alloc, setup.cluster())?;
        let replica_twins = first_replica_twins(alloc, &setup)?;
        let client_twins = first_client_twins(alloc, &setup)?;
        Ok(Cast {
            setup,
            replicas,
            clients,
            replica_twins,
            client_twins,
            events: 0,
        })
    }

    /// What the cluster is set up with.
    pub fn setup(&self) -> &Setup
        ensures { result.now ≡ self.now.setup }
    {
        &self.setup
    }

    /// How many events there were.
    pub fn events(&self) -> u32
        ensures number { result ≡ self.now.events }
        ensures few { result ≤ most_events }
    {
        self.events
    }

    /// The own core of replica `r`. None exactly where there is no such replica.
    fn replica(&self, r: u8) -> Option<&Replica<S, P>>
        ensures { option_map (λ q. q.now) result ≡ slice_get self.now.replicas r }
    {
        self.replicas.get(r as usize)
    }

    /// The log that replica `r` has. None exactly where there is no such replica.
    pub fn log_of(&self, r: u8) -> Option<&History>
        ensures { option_map (λ log. log.now) result ≡ option_map (λ s. (P.proto.state s.rep.value).log) (slice_get self.now.replicas r) }
    {
        let replica = self.replica(r)?;
        Some(replica.log())
    }

    /// How many of the first entries of that log are trimmed.
    pub fn trimmed_of(&self, r: u8) -> Option<u16>
        ensures trimmed { result ≡ option_map (λ s. P.proto.trimmed s.rep.value) (slice_get self.now.replicas r) }
        ensures within { IfSome result (λ n. IfSome (slice_get self.now.replicas r) (λ s. n ≤ length (P.proto.state s.rep.value).log)) }
    {
        let replica = self.replica(r)?;
        Some(replica.trimmed())
    }

    /// The history that replica `r` accepted in slot 0 in its present view. None where there is no
    /// such replica, too.
    pub fn first_of(&self, r: u8) -> Option<&History>
        ensures { option_map (λ h. h.now) result ≡ option_and_then (λ s. (P.proto.state s.rep.value).first) (slice_get self.now.replicas r) }
    {
        let replica = self.replica(r)?;
        replica.first()
    }

    /// The history with which replica `r` entered its instance. None exactly where there is no such
    /// replica.
    pub fn base_of(&self, r: u8) -> Option<&History>
        ensures { option_map (λ h. h.now) result ≡ option_map (λ s. s.rep.entry.base) (slice_get self.now.replicas r) }
    {
        let replica = self.replica(r)?;
        Some(&replica.entry().base)
    }

    /// The instance in which replica `r` is. None exactly where there is no such replica.
    pub fn instance_of(&self, r: u8) -> Option<u32>
        ensures { result ≡ option_map (λ s. s.rep.at) (slice_get self.now.replicas r) }
    {
        let replica = self.replica(r)?;
        Some(replica.instance())
    }

    /// Whether client `c` is there and its own core has no request open.
    fn is_free(&self, c: usize) -> bool
        ensures { result ≡ is_free (slice_get self.now.clients c) }
    {
        match self.clients.get(c) {
            Some(client) => !client.open(),
            None => false,
        }
    }

    /// For each number whether it is that of a client whose own core has no request open.
    pub fn idle(&self) -> [bool; 16]
        ensures { (c : ℕ) → c < 16 → slice_get result c ≡ Some (is_free (slice_get self.now.clients c)) }
    {
        let mut idle = [false; 16];
        for c in 0..16 {
            idle[c] = self.is_free(c);
        }
        idle
    }

    /// An event that changes no core.
    pub fn pass(&mut self)
        requires { self.old.events < most_events }
        ensures { self.new ≡ next self.old }
    {
        self.events += 1;
    }

    /// The core at a place of the cluster takes a message that its party opened. After an `Err` all
    /// is as before.
    pub fn hear(
        &mut self,
        alloc: Global,
        place: Place,
        m: MsgRef<'_>,
    ) -> Result<Effects, OutOfMemory>
        requires few { self.old.events < most_events }
        requires received { IsReceived m }
        requires there { (twin : Option ℕ) × (place_of self.old.setup (party_at place) twin ≡ Some place) }
        ensures taken { (s : Core P) → core_at self.old place ≡ Some s
            → IfOk result (λ e. IsTaken P.proto self.old place s (cue_message (message_of m.entry)) self.new e.outs e.marks.items e.spent) }

        // What makes a client commit at once can't be refused.
        ensures at_once { (s : Core P) (seen : Seen) → core_at self.old place ≡ Some s → CommitsAtOnce s (cue_message (message_of m.entry)) seen
            → IsOkAnd result (λ e. e.marks.items ≡ seen ∷ []) }
        ensures err { OnErr result (self.new ≡ self.old) }
    {
        self.give(alloc, place, Cue::Message(m))
    }

    /// The timer of the core at a place of the cluster runs out. After an `Err` all is as before.
    pub fn ring(&mut self, alloc: Global, place: Place) -> Result<Effects, OutOfMemory>
        requires few { self.old.events < most_events }
        requires there { (twin : Option ℕ) × (place_of self.old.setup (party_at place) twin ≡ Some place) }
        ensures taken { (s : Core P) → core_at self.old place ≡ Some s
            → IfOk result (λ e. IsTaken P.proto self.old place s cue_time self.new e.outs e.marks.items e.spent) }
        ensures err { OnErr result (self.new ≡ self.old) }
    {
        self.give(alloc, place, Cue::Time)
    }

    /// The core at a place of the cluster takes what comes. After an `Err` all is as before.
    fn give(&mut self, alloc: Global, place: Place, cue: Cue<'_>) -> Result<Effects, OutOfMemory>
        requires few { self.old.events < most_events }
        requires cue { IsCue cue }
        requires there { (twin : Option ℕ) × (place_of self.old.setup (party_at place) twin ≡ Some place) }
        ensures taken { (s : Core P) → core_at self.old place ≡ Some s
            → IfOk result (λ e. IsTaken P.proto self.old place s (cue_of cue.entry) self.new e.outs e.marks.items e.spent) }
        ensures at_once { (s : Core P) (seen : Seen) → core_at self.old place ≡ Some s → CommitsAtOnce s (cue_of cue.entry) seen
            → IsOkAnd result (λ e. e.marks.items ≡ seen ∷ []) }
        ensures err { OnErr result (self.new ≡ self.old) }
    {
        match place {
            Place::Replica(r) => {
                let cores = &mut self.replicas;
                let effects = hear_replica_at(alloc, &self.setup, r, cores, r as usize, cue)?;
                self.events += 1;
                Ok(effects)
            }
            Place::Client(c) => {
                let cores = &mut self.clients;
                let effects = hear_client_at(alloc, &self.setup, c, cores, c as usize, cue)?;
                self.events += 1;
                Ok(effects)
            }
            Place::ReplicaTwin(r, at) => {
                let cores = &mut self.replica_twins;
                let effects = hear_replica_at(alloc, &self.setup, r, cores, at, cue)?;
                self.events += 1;
                Ok(effects)
            }
            Place::ClientTwin(c, at) => {
                let cores = &mut self.client_twins;
                let effects = hear_client_at(alloc, &self.setup, c, cores, at, cue)?;
                self.events += 1;
                Ok(effects)
            }
        }
    }

    /// The core at a place of the cluster takes a command of 1 to 128 bytes. After an `Err` all is
    /// as before.
    pub fn invoke(
        &mut self,
        alloc: Global,
        place: Place,
        bytes: &[u8],
    ) -> Result<Effects, CommandFault>
        requires few { self.old.events < most_events }
        requires form { (0 < length bytes.now) × (length bytes.now ≤ 128) }
        requires there { (twin : Option ℕ) × (place_of self.old.setup (party_at place) twin ≡ Some place) }
        ensures taken { (s : Core P) → core_at self.old place ≡ Some s
            → IfOk result (λ e. IsTaken P.proto self.old place s (cue_command (record { items = bytes.now })) self.new e.outs e.marks.items e.spent) }
        ensures idle { (s : Core P) → core_at self.old place ≡ Some s → OnOk result (command_refusal s ≡ None) }
        ensures cause { (s : Core P) → core_at self.old place ≡ Some s → IfErr result (λ e. CommandCause e s) }
        ensures err { OnErr result (self.new ≡ self.old) }
    {
        match place {
            Place::Replica(_) => Err(CommandFault::NoClient),
            Place::ReplicaTwin(_, _) => Err(CommandFault::NoClient),
            Place::Client(c) => {
                let cores = &mut self.clients;
                let effects = tell_client_at(alloc, &self.setup, c, cores, c as usize, bytes)?;
                self.events += 1;
                Ok(effects)
            }
            Place::ClientTwin(c, at) => {
                let cores = &mut self.client_twins;
                let effects = tell_client_at(alloc, &self.setup, c, cores, at, bytes)?;
                self.events += 1;
                Ok(effects)
            }
        }
    }
}

/// Each place that the setup gives has its core.
pub fn places_have_cores<S: Service, P: Protocol<S>>(cast: &Cast<S, P>)
    ensures cores { (p : TheParty) (twin : Option ℕ) (at : _) → place_of cast.now.setup p twin ≡ Some at → (s : Core P) × (core_at cast.now at ≡ Some s) }
    ensures seats { AreSeats cast.now.setup.cluster cast.now.events cast.now.clients }
    ensures sizes { (length cast.now.replicas ≡ 3 * cast.now.setup.cluster.f + 1) × (length cast.now.clients ≡ cast.now.setup.cluster.clients) }
{
    let _ = &cast.events;
}
