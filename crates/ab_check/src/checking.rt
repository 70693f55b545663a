//! Checking, as a loop over what is to be checked.

ghost use Rattle.std.specs.Prelude.{◌≡◌, ◌≤◌, length};
ghost use Rattle.std.specs.Option.{option_map};
ghost use Rattle.ab_wire.specs.Views.{IsReceived, message, reply_of};
ghost use Rattle.ab_check.specs.Checks.{checked_from, checks, checks_of, is_refused, lacks_reply};
ghost use Rattle.ab_check.specs.Chains.{IsPlaced};

use crate::check_ref::is_right;
use crate::checker::Checker;
use crate::checks::Checks;
use crate::copied::copy_of;
use crate::listing::checks_in;
use ab_num::{Cluster, Party};
use ab_wire::MsgRef;
use std::alloc::Global;

/// Checks these in their order, and gives the place behind them, or that of the first that isn't right.
fn check_each<C: Checker>(alloc: Global, c: &mut C, checks: Checks<'_>) -> Result<u32, u32>
    requires { length checks ≤ 4294967295 }
    ensures checked { result ≡ checked_from (C.judge c.old) 0 checks.entry }
    ensures same { C.judge c.new ≡ C.judge c.old }
{
    let mut place = 0;
    'checks: for check in checks {
        if !is_right(alloc, c, &check) {
            return Err(place);
        }
        place += 1;
    }
    Ok(place)
}

/// Whether a client is handed no reply.
fn lacks_reply(me: Party, reply: &Option<&[u8]>) -> bool
    ensures { result ≡ lacks_reply me (option_map reply_of reply.now) }
{
    match (me, reply) {
        (Party::Client(_), None) => true,
        _ => false,
    }
}

/// Whether the first claim has nothing that could stand for it.
fn is_refused(me: Party, m: &MsgRef<'_>) -> bool
    requires { IsReceived m.now }
    ensures { result ≡ is_refused me (message m.now) }
{
    match m {
        MsgRef::Chain { reply, .. } => lacks_reply(me, reply),
        MsgRef::Prepare { prepare } => Party::Replica(prepare.maker) == me,
        _ => false,
    }
}

/// Checks each claim of a message in its order, and gives the place behind them.
fn check_claims<'a, C: Checker>(
    alloc: Global,
    c: &mut C,
    k: &Cluster,
    me: Party,
    m: &MsgRef<'a>,
) -> Result<u32, u32>
    requires received { IsReceived m.now }
    requires party { IsPlaced k.now.f me }
    ensures checked { result ≡ checked_from (C.judge c.old) 0 (checks_of k.now.f me (message m.now)) }
    ensures same { C.judge c.new ≡ C.judge c.old }
{
    check_each(alloc, c, checks_in(k, me, copy_of(m)))
}

/// Checks what party `me` takes from a message, or gives the place of the first claim for which the
/// tag or the signature isn't there or isn't right.
pub fn check<'a, C: Checker>(
    alloc: Global,
    c: &mut C,
    k: &Cluster,
    me: Party,
    m: &MsgRef<'a>,
) -> Result<(), u32>
    requires received { IsReceived m.now }
    requires party { IsPlaced k.now.f me }
    ensures checked { result ≡ checks (C.judge c.old) k.now.f me (message m.now) }
    ensures same { C.judge c.new ≡ C.judge c.old }
{
    if is_refused(me, m) {
        return Err(0);
    }
    match check_claims(alloc, c, k, me, m) {
        Ok(_) => Ok(()),
        Err(place) => Err(place),
    }
}
