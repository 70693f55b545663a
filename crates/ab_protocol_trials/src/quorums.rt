//! One replica that answers, repeats its answer, and stops. The request's bytes and the digest are of
//! another implementation.

ghost use Rattle.std.specs.Prelude.{IsTrue};
ghost use Rattle.ab_num.specs.Places.{kind_of};

use ab_abs::{Entry, Protocol, ReplyRule};
use ab_hist::History;
use ab_msg::Mute;
use ab_num::{Cluster, Kind, OutOfMemory, Plan};
use ab_open::read;
use ab_quorum::Quorum;
use ab_svc::Echo;
use std::alloc::Global;

/// Client 0's request `put a 1` of stamp 1 in instance 1, with a tag for replica 0.
const REQUEST: [u8; 62] = [
    1, 1, 1, 0, 0, 0, 0, 0, 1, 0, 0, 0, 0, 0, 0, 0, 0, 0, 1, 0, 7, 0x70, 0x75, 0x74, 0x20, 0x61,
    0x20, 0x31, 1, 0, 0, 0, 0, 0, 0, 0, 0, 0, 0, 0, 0, 0, 0, 0, 0, 0, 0, 0, 0, 0, 0, 0, 0, 0, 0, 0,
    0, 0, 0, 0, 0, 0,
];

/// The digest of the history with that request alone.
const DIGEST: [u8; 32] = [
    0x68, 0x8e, 0x05, 0xe3, 0x25, 0x0f, 0x60, 0x3f, 0xe4, 0x24, 0x68, 0xfe, 0x71, 0x56, 0x05, 0x25,
    0x86, 0x8d, 0x0b, 0x25, 0x4b, 0xa6, 0x46, 0x3c, 0x94, 0x98, 0x5b, 0x87, 0xd2, 0x90, 0x9a, 0xc0,
];

/// How many messages a replica sends on the request, None where it takes none.
fn sent<P: Protocol<Echo>>(alloc: Global, replica: &mut P) -> Option<usize> {
    let Ok(m) = read(&REQUEST) else {
        return None;
    };
    match replica.on(alloc, m, &mut Mute) {
        Ok(outs) => Some(outs.len()),
        Err(_) => None,
    }
}

/// Whether a replica answers the request, and again, and logs it once; and answers nothing once it is
/// stopped.
fn answers<P: Protocol<Echo>>(alloc: Global, replica: &mut P) -> bool {
    let first = sent(alloc, replica) == Some(1);
    let again = sent(alloc, replica) == Some(1);
    let log = replica.log();
    let logged = log.len() == 1 && log.digest_at(1) == DIGEST;
    let open = replica.may_panic() && !replica.stopped();
    replica.stop();
    first && again && logged && open && replica.stopped() && sent(alloc, replica) == Some(0)
}

fn keeps_rules<P: Protocol<Echo>>(alloc: Global, c: &Cluster) -> Result<bool, OutOfMemory>
    requires { IsTrue (P.serves (kind_of c.now.plan 1)) }
{
    let entry = Entry {
        base: History::new(alloc),
        trimmed: 0,
        cert: None,
    };
    let mut replica = P::start(alloc, c, 1, 2, &entry)?;
    let numbers = P::need(c, 1) == 3 && P::reply_rule(c, 1) == ReplyRule::All;
    let kinds = P::runs(Kind::Quorum) && !P::runs(Kind::Chain);
    let same = replica.copy(alloc)?;
    let none = same.first().is_none() && same.timer().is_none() && same.log().len() == 0;
    Ok(numbers && kinds && none && answers(alloc, &mut replica))
}

#[test]
fn quorum_answers_until_it_is_stopped(rt: HostRuntime) {
    let kept = match Cluster::new(1, 4, Plan::Quorum, 0) {
        Some(c) => keeps_rules::<Quorum<Echo>>(rt.alloc(), &c),
        None => Ok(false),
    };
    assert!(rt; kept == Ok(true));
}
