//! A replica or a client takes what comes, by its party's credentials.

ghost use Rattle.std.specs.Prelude.{◌≡◌, ◌<◌, ◌≤◌, ◌^◌, ◌∷◌, [], false, None, Ok, Err, All, IfErr, IfOk, IsOkAnd, MatchResult, OnOk, OnErr, length};
ghost use Rattle.ab_sign.specs.Signers.{pen_of};
ghost use Rattle.ab_abs.specs.declared.seen.Seen.{Seen};
ghost use Rattle.ab_run.specs.Forms.{IsDraftOf};
ghost use Rattle.ab_run.specs.Setups.{RunSetup};
ghost use Rattle.ab_replica.specs.Sites.{IsSetupOf};
ghost use Rattle.ab_replica.specs.Doings.{Hears};
ghost use Rattle.ab_client.specs.Clients.{told};
ghost use Rattle.ab_party.specs.Cues.{IsCue, call_of, cue_of};
ghost use Rattle.ab_party.specs.Parties.{ClientCommits, ClientHears, IsCauseOf, IsClientOf, IsReplicaOf, seat_refusal};

use crate::credentials::Credentials;
use crate::cue::Cue;
use crate::fault::CommandFault;
use ab_abs::{Marks, Protocol};
use ab_client::{Client, InvokeFault};
use ab_msg::Outs;
use ab_num::OutOfMemory;
use ab_replica::{Effects, Replica, Sending};
use ab_svc::Service;
use std::alloc::Global;

/// A replica takes what comes, with the signatures that it has left. After an `Err` it is as before.
pub fn hear_replica<S: Service, P: Protocol<S>>(
    alloc: Global,
    keys: &Credentials<'_>,
    replica: &mut Replica<S, P>,
    cue: Cue<'_>,
) -> Result<Effects, OutOfMemory>
    requires cue { IsCue cue }
    requires own { IsReplicaOf P.proto P.serves keys.now replica.old }
    ensures hears { (k : RunSetup) → IsSetupOf k replica.old (pen_of keys.now.keys replica.old.me 0)
        → IfOk result (λ e. Hears P.proto k replica.old (call_of cue.entry) replica.new e.outs e.marks.items e.spent) }
    ensures own { OnOk result (IsReplicaOf P.proto P.serves keys.now replica.new) }
    ensures drafts { IfOk result (λ e. All (IsDraftOf keys.now.ring.f keys.now.ring.me) e.outs) }
    ensures err { OnErr result (replica.new ≡ replica.old) }
{
    let mut pen = keys.pen(replica.used());
    match cue {
        Cue::Message(m) => replica.on(alloc, m, &mut pen),
        Cue::Time => replica.timeout(alloc, &mut pen),
    }
}

/// What a client sends and shows. It has no signatures to spend.
fn unspent(alloc: Global, done: Result<(Outs, Marks), OutOfMemory>) -> Result<Effects, OutOfMemory>
    ensures { MatchResult result (λ e. (done ≡ Ok (e.outs, e.marks)) × (e.spent ≡ false)) (λ e. done ≡ Err e) }
{
    match done {
        Ok((outs, marks)) => Ok(Effects {
            outs: Sending::of(alloc, outs),
            marks,
            spent: false,
        }),
        Err(refused) => Err(refused),
    }
}

/// A client takes what comes. What makes it commit at once can't be refused. After an `Err` it is as
/// before.
pub fn hear_client(
    alloc: Global,
    keys: &Credentials<'_>,
    client: &mut Client,
    cue: Cue<'_>,
) -> Result<Effects, OutOfMemory>
    requires cue { IsCue cue }
    requires own { IsClientOf keys.now client.old }
    ensures hears { IfOk result (λ e. ClientHears client.old (cue_of cue.entry) client.new e.outs e.marks.items e.spent) }
    ensures at_once { (seen : Seen) → ClientCommits client.old (cue_of cue.entry) seen → IsOkAnd result (λ e. e.marks.items ≡ seen ∷ []) }
    ensures own { OnOk result (IsClientOf keys.now client.new) }
    ensures drafts { IfOk result (λ e. All (IsDraftOf keys.now.ring.f keys.now.ring.me) e.outs) }
    ensures err { OnErr result (client.new ≡ client.old) }
{
    match cue {
        Cue::Message(m) => unspent(alloc, client.on(alloc, m)),
        Cue::Time => unspent(alloc, client.timeout(alloc)),
    }
}

/// A client takes a command of 1 to 128 bytes. After an `Err` it is as before.
pub fn tell_client(
    alloc: Global,
    keys: &Credentials<'_>,
    client: &mut Client,
    command: &[u8],
) -> Result<Effects, CommandFault>
    requires form { (0 < length command.now) × (length command.now ≤ 128) }
    requires stamp { client.old.cli.stamp < 2 ^ 63 }
    requires own { IsClientOf keys.now client.old }
    ensures hears { IfOk result (λ e. ClientHears client.old (told command.now) client.new e.outs e.marks.items e.spent) }
    ensures idle { OnOk result (seat_refusal client.old ≡ None) }
    ensures cause { IfErr result (λ e. IsCauseOf e (seat_refusal client.old)) }
    ensures own { OnOk result (IsClientOf keys.now client.new) }
    ensures drafts { IfOk result (λ e. All (IsDraftOf keys.now.ring.f keys.now.ring.me) e.outs) }
    ensures err { OnErr result (client.new ≡ client.old) }
{
    match client.invoke(alloc, command) {
        Ok((outs, marks)) => Ok(Effects {
            outs: Sending::of(alloc, outs),
            marks,
            spent: false,
        }),
        Err(InvokeFault::Busy) => Err(CommandFault::Busy),
        Err(InvokeFault::TooLong) => unreachable!(),
        Err(InvokeFault::Empty) => unreachable!(),
        Err(InvokeFault::OutOfMemory) => Err(CommandFault::OutOfMemory),
    }
}
