//! Events of single cores, and the cores before the first event.

ghost use Rattle.std.specs.Prelude.{◌≡◌, ◌+◌, ◌*◌, ◌-◌, ◌^◌, ◌<◌, ◌≤◌, ◌++◌, [], ◌∷◌, None, Some, IsOkAnd, IfErr, IfOk, OnErr, OnOk, length, map, replicate, slice_get, vec_len};
ghost use Rattle.ab_abs.specs.declared.seen.Seen.{Seen};
ghost use Rattle.ab_abs.specs.Promises.{ServesAll};
ghost use Rattle.ab_replica.specs.Sites.{Site};
ghost use Rattle.ab_client.specs.Clients.{Seat, told};
ghost use Rattle.ab_party.specs.Cues.{IsCue, call_of, cue_of};
ghost use Rattle.ab_party.specs.Parties.{ClientCommits, IsCauseOf, seat_refusal};
ghost use Rattle.ab_cast.specs.Setups.{client_twins, replica_twins};
ghost use Rattle.ab_cast.specs.Casts.{IsSeatOf, IsSite, first_seat, first_seats, first_site, first_sites};
ghost use Rattle.ab_cast.specs.Hearing.{CliHears, RepHears};

use crate::setup::Setup;
use ab_abs::Protocol;
use ab_client::Client;
use ab_num::{Cluster, OutOfMemory, Party};
use ab_party::{CommandFault, Cue, hear_client, hear_replica, tell_client};
use ab_replica::{Effects, Replica};
use ab_svc::Service;
use std::alloc::Global;

/// Replica `me` before the first event, with all its signatures left.
fn first_replica<S: Service, P: Protocol<S>>(
    alloc: Global,
    setup: &Setup,
    me: u8,
) -> Result<Replica<S, P>, OutOfMemory>
    requires served { ServesAll P.serves setup.now.cluster }
    requires replica { me < 3 * setup.now.cluster.f + 1 }
    ensures { IfOk result (λ q. q ≡ first_site setup.now P.proto me) }
{
    let signatures = setup.signatures();
    Replica::new(alloc, setup.cluster(), me, signatures)
}

/// The own replicas before the first event.
pub(crate) fn first_replicas<S: Service, P: Protocol<S>>(
    alloc: Global,
    setup: &Setup,
) -> Result<Vec<Replica<S, P>>, OutOfMemory>
    requires { ServesAll P.serves setup.now.cluster }
    ensures { IfOk result (λ v. v.items ≡ first_sites setup.now P.proto (3 * setup.now.cluster.f + 1)) }
{
    let count = setup.cluster().replicas();
    let mut replicas = Vec::with_capacity(alloc, count as usize)?;
    for me in 0..count {
        replicas.push(first_replica(alloc, setup, me)?)?;
    }
    Ok(replicas)
}

/// The own clients before the first event.
pub(crate) fn first_clients(alloc: Global, cluster: &Cluster) -> Result<Vec<Client>, OutOfMemory>
    ensures { IfOk result (λ v. v.items ≡ first_seats cluster.now cluster.now.clients) }
{
    let mut clients = Vec::with_capacity(alloc, cluster.clients as usize)?;
    for me in 0..cluster.clients {
        clients.push(Client::new(alloc, cluster, me))?;
    }
    Ok(clients)
}

/// Adds so many further cores of a replica.
#[tactic(auto, using(std::proofs::lemmas::List::replicate_more))]
fn add_replicas<S: Service, P: Protocol<S>>(
    alloc: Global,
    setup: &Setup,
    me: u8,
    more: u8,
    twins: &mut Vec<Replica<S, P>>,
) -> Result<(), OutOfMemory>
    requires served { ServesAll P.serves setup.now.cluster }
    requires replica { me < 3 * setup.now.cluster.f + 1 }
    ensures { OnOk result (twins.new.items ≡ twins.old.items ++ replicate more (first_site setup.now P.proto me)) }
{
    for _ in 0..more {
        twins.push(first_replica(alloc, setup, me)?)?;
    }
    Ok(())
}

/// Adds so many further cores of a client.
#[tactic(auto, using(std::proofs::lemmas::List::replicate_more))]
fn add_clients(
    alloc: Global,
    cluster: &Cluster,
    me: u16,
    more: u8,
    twins: &mut Vec<Client>,
) -> Result<(), OutOfMemory>
    ensures { OnOk result (twins.new.items ≡ twins.old.items ++ replicate more (first_seat cluster.now me)) }
{
    for _ in 0..more {
        twins.push(Client::new(alloc, cluster, me))?;
    }
    Ok(())
}

/// The further cores of replicas before the first event.
pub(crate) fn first_replica_twins<S: Service, P: Protocol<S>>(
    alloc: Global,
    setup: &Setup,
) -> Result<Vec<Replica<S, P>>, OutOfMemory>
    requires { ServesAll P.serves setup.now.cluster }
    ensures { IfOk result (λ v. v.items ≡ map (λ k. first_site setup.now P.proto k.0) (replica_twins setup.now.faulty)) }
{
    let mut twins = Vec::new(alloc);
    for entry in setup.faulty() {
        if let Party::Replica(r) = entry.0 {
            add_replicas(alloc, setup, r, entry.1.saturating_sub(1), &mut twins)?;
        }
    }
    Ok(twins)
}

/// The further cores of clients before the first event.
pub(crate) fn first_client_twins(alloc: Global, setup: &Setup) -> Result<Vec<Client>, OutOfMemory>
    ensures { IfOk result (λ v. v.items ≡ map (λ k. first_seat setup.now.cluster k.0) (client_twins setup.now.faulty)) }
{
    let mut twins = Vec::new(alloc);
    for entry in setup.faulty() {
        if let Party::Client(c) = entry.0 {
            add_clients(
                alloc,
                setup.cluster(),
                c,
                entry.1.saturating_sub(1),
                &mut twins,
            )?;
        }
    }
    Ok(twins)
}

/// One replica takes what comes, with the signatures that it has left. After an `Err` all are as
/// before.
pub(crate) fn hear_replica_at<S: Service, P: Protocol<S>>(
    alloc: Global,
    setup: &Setup,
    r: u8,
    cores: &mut Vec<Replica<S, P>>,
    at: usize,
    cue: Cue<'_>,
) -> Result<Effects, OutOfMemory>
    requires cue { IsCue cue }
    requires replica { r < 3 * setup.now.cluster.f + 1 }
    requires there { at < vec_len cores.old }
    requires own { (s : Site P) → slice_get cores.old.items at ≡ Some s → IsSite P.proto P.serves setup.now r s }
    ensures heard { (s : Site P) → slice_get cores.old.items at ≡ Some s
        → IfOk result (λ e. RepHears P.proto P.serves setup.now r at s (call_of cue.entry) cores.old.items cores.new.items e.outs e.marks.items e.spent) }
    ensures err { OnErr result (cores.new.items ≡ cores.old.items) }
{
    let keys = setup.credentials(Party::Replica(r));
    hear_replica(alloc, &keys, &mut cores[at], cue)
}

/// One client takes what comes. After an `Err` all are as before.
pub(crate) fn hear_client_at(
    alloc: Global,
    setup: &Setup,
    c: u16,
    cores: &mut Vec<Client>,
    at: usize,
    cue: Cue<'_>,
) -> Result<Effects, OutOfMemory>
    requires cue { IsCue cue }
    requires client { c < setup.now.cluster.clients }
    requires there { at < vec_len cores.old }
    requires own { (s : Seat) → slice_get cores.old.items at ≡ Some s → IsSeatOf setup.now.cluster c s }
    ensures heard { (s : Seat) → slice_get cores.old.items at ≡ Some s
        → IfOk result (λ e. CliHears setup.now c at s (cue_of cue.entry) cores.old.items cores.new.items e.outs e.marks.items e.spent) }
    ensures at_once { (s : Seat) (seen : Seen) → slice_get cores.old.items at ≡ Some s → ClientCommits s (cue_of cue.entry) seen → IsOkAnd result (λ e. e.marks.items ≡ seen ∷ []) }
    ensures err { OnErr result (cores.new.items ≡ cores.old.items) }
{
    let keys = setup.credentials(Party::Client(c));
    hear_client(alloc, &keys, &mut cores[at], cue)
}

/// One client takes a command. After an `Err` all are as before.
pub(crate) fn tell_client_at(
    alloc: Global,
    setup: &Setup,
    c: u16,
    cores: &mut Vec<Client>,
    at: usize,
    command: &[u8],
) -> Result<Effects, CommandFault>
    requires form { (0 < length command.now) × (length command.now ≤ 128) }
    requires client { c < setup.now.cluster.clients }
    requires there { at < vec_len cores.old }
    requires stamp { (s : Seat) → slice_get cores.old.items at ≡ Some s → s.cli.stamp < 2 ^ 63 }
    requires own { (s : Seat) → slice_get cores.old.items at ≡ Some s → IsSeatOf setup.now.cluster c s }
    ensures heard { (s : Seat) → slice_get cores.old.items at ≡ Some s
        → IfOk result (λ e. CliHears setup.now c at s (told command.now) cores.old.items cores.new.items e.outs e.marks.items e.spent) }
    ensures idle { (s : Seat) → slice_get cores.old.items at ≡ Some s → OnOk result (seat_refusal s ≡ None) }
    ensures cause { (s : Seat) → slice_get cores.old.items at ≡ Some s → IfErr result (λ e. IsCauseOf e (seat_refusal s)) }
    ensures err { OnErr result (cores.new.items ≡ cores.old.items) }
{
    let keys = setup.credentials(Party::Client(c));
    tell_client(alloc, &keys, &mut cores[at], command)
}
