//! What ties members and runs.

ghost use Rattle.std.specs.Prelude.{◌≡◌, ◌<◌, ℕ, false, List, [], Contains, Option};
ghost use Rattle.ab_num.specs.declared.cluster.Cluster.{Cluster as TheCluster};
ghost use Rattle.ab_num.specs.declared.party.Party.{Party};
ghost use Rattle.ab_num.specs.declared.party.Party.TheVariants.{Client};
ghost use Rattle.ab_abs.specs.Ensembles.{Proto};
ghost use Rattle.ab_abs.specs.Faults.{is_faulty};
ghost use Rattle.ab_abs.specs.Instances.{EachIsAbstract};
ghost use Rattle.ab_abs.specs.Order.{Ordered};
ghost use Rattle.ab_abs.specs.Promises.{ServesAll};
ghost use Rattle.ab_run.specs.Premises.{RunPremises};
ghost use Rattle.ab_run.specs.Runs.{first_cli, named_by, run};
ghost use Rattle.ab_run.specs.Setups.{RunSetup};
ghost use Rattle.ab_loop.specs.declared.party_core.Commit.{Commit};
ghost use Rattle.ab_loop.specs.Cores.{NodeEvent};
ghost use Rattle.ab_loop.specs.Folds.{commits_in, sends_in};
ghost use Rattle.ab_loop.specs.Lives.{Among, IsLife, StoppedRun, handed_by, kept_by, replied_by};
ghost use Rattle.ab_loop.specs.Nodes.{datagrams_in, parcels_of};
ghost use Rattle.ab_loop.specs.Settings.{NodeSetting as TheSetting};
ghost use Rattle.ab_party.specs.Credentials.{sealed_all};
ghost use Rattle.ab_node.specs.Replicas.{ReplicaMember as Member, replica_rules};
ghost use Rattle.ab_node.specs.Clients.{ClientMember as Customer, client_rules};
ghost use Rattle.ab_node.specs.Locality.{AllStartIn, AreFirst, AreRun, IsLocalClient, IsLocalReplica, IsSeen, Members, StartsIn, all_happens, calls_in, events_at_client, sent_locally, setup_among};
ghost use Rattle.ab_node.specs.Numbers.{SignsOnce};

use ab_abs::Protocol;
use ab_open::opened_messages_are_of_the_grammar;
use ab_run::run_is_ordered;
use ab_svc::Service;

/// Where its events lead a replica and what it sends in them is what a run says of a replica to which
/// the same comes. So in two runs with the same events at it and the same keys it is the same.
pub fn replicas_are_local<P>()
    ensures { (k : RunSetup) (proto : Proto P) (counted : P → Option ℕ) (m : Member P) (events : List NodeEvent) → StartsIn k proto m → IsLocalReplica k proto counted m events }
{}

/// The same of a client.
pub fn clients_are_local()
    ensures { (k : RunSetup) (m : Customer) (events : List NodeEvent) → k.cluster ≡ m.seat.cluster → m.seat.cli ≡ first_cli → IsLocalClient k m events }
{}

/// However often a replica or a client is stopped, at any moment, and started again over what it kept:
/// all datagrams that ever left are, in their order and each at most once, among those of what one core
/// sends in the events that it kept, and a client's replies are among what that core commits. What a
/// replica sent is, sealed, what the run says of one replica to which these events come, and which signs
/// with one index after the other.
pub fn stopped_members_are_one<P>()
    ensures replica { (proto : Proto P) (counted : P → Option ℕ) (s : TheSetting) (m : Member P) (runs : List StoppedRun) → IsLife (replica_rules proto counted) s m [] runs
        → Among (handed_by runs) (datagrams_in (parcels_of s 0 (sends_in (replica_rules proto counted) m (kept_by runs)))) }
    ensures run { (k : RunSetup) (proto : Proto P) (counted : P → Option ℕ) (s : TheSetting) (m : Member P) (runs : List StoppedRun) → StartsIn k proto m → IsLife (replica_rules proto counted) s m [] runs
        → Among (handed_by runs) (datagrams_in (parcels_of s 0 (sealed_all m.credentials.ring (sent_locally k proto m.site.me m.site.rep (calls_in m.credentials (kept_by runs)))))) }
    ensures client { (s : TheSetting) (m : Customer) (runs : List StoppedRun) → IsLife client_rules s m [] runs
        → Among (handed_by runs) (datagrams_in (parcels_of s 0 (sends_in client_rules m (kept_by runs)))) }
    ensures replies { (s : TheSetting) (m : Customer) (runs : List StoppedRun) → IsLife client_rules s m [] runs
        → Among (replied_by runs) (commits_in client_rules m (kept_by runs)) }
{}

/// However often a replica is stopped, at any moment, and started again over what it kept, no number of its
/// key signs two contents that left: the contents that it signs in all that it kept are one list, and each
/// signature in what left is that of its key with a number n for the content at place n.
pub fn numbers_sign_once<S: Service, P: Protocol<S>>()
    ensures { (k : RunSetup) (s : TheSetting) (m : Member P) (runs : List StoppedRun) → StartsIn k P.proto m → IsLife (replica_rules P.proto P.counted) s m [] runs → SignsOnce k P.proto s m runs }
{
    stopped_members_are_one::<P>();
}

/// However often the nodes of a cluster are stopped and started again: where the events that they kept, in
/// some order, are those of a run, each reply of a correct client is a commit that is seen in that run. So
/// replies are ordered as the run's commits are.
pub fn stopped_clients_are_seen<P>()
    ensures { (k : RunSetup) (proto : Proto P) (s : TheSetting) (w : Members P) (xs : List (Party × NodeEvent)) (c : ℕ) (runs : List StoppedRun) → AllStartIn k proto w → c < k.cluster.clients
        → is_faulty k.faulty (Client c) ≡ false → IsLife client_rules s (w.clients c) [] runs → events_at_client c xs ≡ kept_by runs
        → (commit : Commit) → Contains (replied_by runs) commit → IsSeen c commit (run k proto (all_happens proto w xs)).seen }
{
    stopped_members_are_one::<P>();
    members_make_a_run::<P>();
}

/// The parties of a cluster, each before its first event, stand where a run begins, whoever of them is
/// faulty.
pub fn first_members_start_a_run<P>()
    ensures { (proto : Proto P) (c : TheCluster) (faulty : List Party) (signatures : ℕ) (w : Members P) → AreFirst proto c signatures w → AllStartIn (setup_among c faulty signatures w) proto w }
{}

/// The events of all parties of a cluster, in whichever order those of different parties come, are a
/// run: it leaves each party where its own events lead it, and what a correct client commits is seen in
/// it.
pub fn members_make_a_run<P>()
    ensures { (k : RunSetup) (proto : Proto P) (counted : P → Option ℕ) (w : Members P) (xs : List (Party × NodeEvent)) → AllStartIn k proto w → AreRun k proto counted w xs }
{}

/// Whatever comes to the parties of a cluster, and in whichever order: where that run meets the
/// premises, what is seen in it is ordered, and so is what correct clients commit, which is seen there.
/// Each instance keeps its own promises.
pub fn members_are_ordered<S: Service, P: Protocol<S>>()
    ensures ordered { (k : RunSetup) (w : Members P) (xs : List (Party × NodeEvent))
        → let events = all_happens P.proto w xs in
        let v = run k P.proto events in
        ServesAll P.serves k.cluster → RunPremises k P.proto events → Ordered S.machine v.seen (named_by k v) k.faulty }
    ensures instances { (k : RunSetup) (w : Members P) (xs : List (Party × NodeEvent))
        → let events = all_happens P.proto w xs in
        let v = run k P.proto events in
        ServesAll P.serves k.cluster → RunPremises k P.proto events → EachIsAbstract S.machine v.seen (named_by k v) k.faulty }
{
    opened_messages_are_of_the_grammar();
    run_is_ordered::<S, P>();
}
