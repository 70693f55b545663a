//! The logs that replicas left.

ghost use Rattle.std.specs.Prelude.{◌≡◌, ◌+◌, ◌<◌, ◌≤◌, ℕ, IfOk, OnErr, OnOk, Option, Some, vec_len};
ghost use Rattle.std.specs.Option.{option_map};
ghost use Rattle.std.specs.Vec.{vec_capacity};
ghost use Rattle.ab_num.specs.Limits.{most_events};
ghost use Rattle.ab_wire.specs.Views.{IsReceived, message as message_of};
ghost use Rattle.ab_run.specs.Local.{cue_message};
ghost use Rattle.ab_cast.specs.Setups.{party_at, place_of};
ghost use Rattle.ab_cast.specs.Cores.{Core};
ghost use Rattle.ab_cast.specs.Casts.{IsTaken, core_at};
ghost use Rattle.ab_world.specs.Left.{KeepsLeft, brings, last_left, left_at, may_leave};

use crate::sharing::share;
use ab_abs::Protocol;
use ab_cast::{Cast, Place};
use ab_hist::History;
use ab_num::OutOfMemory;
use ab_replica::Effects;
use ab_run::Noted;
use ab_svc::Service;
use ab_wire::{MsgRef, OfferRef};
use std::alloc::Global;

/// The log that a party's own core had in an instance when it left it.
#[derive(Drop)]
pub(crate) struct LeftLog {
    pub instance: u32,
    pub replica: u8,
    pub log: History,
}

/// The last of these logs that replica `r` left in instance `i`.
pub(crate) fn last_left(left: &[LeftLog], i: u32, r: u8) -> Option<&History>
    ensures { option_map (λ log. log.now) result ≡ last_left left.now i r }
{
    'logs: for n in (0..left.len()).rev() {
        let last = &left[n];
        if r == last.replica && i == last.instance {
            return Some(&last.log);
        }
    }
    None
}

/// Whether a message brings a certificate. By no other does a replica enter an instance.
fn brings(m: &MsgRef<'_>) -> bool
    ensures { result ≡ brings (message_of m.now) }
{
    match m {
        MsgRef::Init { .. } => true,
        MsgRef::PrePrepare {
            offer: OfferRef::Base(_),
            ..
        } => true,
        _ => false,
    }
}

/// The log that an own replica may leave by a message.
fn may_leave<S: Service, P: Protocol<S>>(
    alloc: Global,
    cast: &Cast<S, P>,
    place: Place,
    m: &MsgRef<'_>,
) -> Result<Option<LeftLog>, OutOfMemory>
    ensures { IfOk result (λ log. log ≡ may_leave P.proto cast.now place (message_of m.now)) }
{
    let Place::Replica(replica) = place else {
        return Ok(None);
    };
    if !brings(m) {
        return Ok(None);
    }
    match (cast.instance_of(replica), cast.log_of(replica)) {
        (Some(instance), Some(log)) => {
            let log = log.copy(alloc)?;
            Ok(Some(LeftLog {
                instance,
                replica,
                log,
            }))
        }
        _ => Ok(None),
    }
}

/// Keeps the log, for which there is room, if its replica is in another instance now. Its entries are
/// shared with an observation that has the same ones.
fn keep<S: Service, P: Protocol<S>>(
    alloc: Global,
    cast: &Cast<S, P>,
    left: &mut Vec<LeftLog>,
    seen: &[Noted],
    log: Option<LeftLog>,
)
    requires { vec_len left.old + 1 ≤ vec_capacity left.old }
    ensures { KeepsLeft cast.now log left.old.items left.new.items }
{
    let Some(mut log) = log else {
        return;
    };
    let Some(instance) = cast.instance_of(log.replica) else {
        return;
    };
    if log.instance == instance {
        return;
    }
    share(alloc, seen, &mut log.log);
    match left.push(log) {
        Ok(()) => {}
        Err(_) => unreachable!(),
    }
}

/// The core at a place of the cluster takes a message that its party opened. The log that an own
/// replica leaves by it is kept. After an `Err` all is as before.
pub(crate) fn hear<S: Service, P: Protocol<S>>(
    alloc: Global,
    cast: &mut Cast<S, P>,
    left: &mut Vec<LeftLog>,
    seen: &[Noted],
    place: Place,
    m: MsgRef<'_>,
) -> Result<Effects, OutOfMemory>
    requires few { cast.old.events < most_events }
    requires received { IsReceived m }
    requires there { (twin : Option ℕ) × (place_of cast.old.setup (party_at place) twin ≡ Some place) }
    ensures taken { (s : Core P) → core_at cast.old place ≡ Some s
        → IfOk result (λ e. IsTaken P.proto cast.old place s (cue_message (message_of m.entry)) cast.new e.outs e.marks.items e.spent) }
    ensures left { (s : Core P) → core_at cast.old place ≡ Some s
        → OnOk result (left.new.items ≡ left_at P.proto cast.old.setup place s (message_of m.entry) left.old.items) }
    ensures still { OnErr result (cast.new ≡ cast.old) }
    ensures err { OnErr result (left.new.items ≡ left.old.items) }
{
    let log = may_leave(alloc, cast, place, &m)?;
    left.reserve(1)?;
    let effects = cast.hear(alloc, place, m)?;
    keep(alloc, cast, left, seen, log);
    Ok(effects)
}
