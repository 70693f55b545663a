//! The primary orders a request, and another replica follows. The messages and the digest are of
//! another implementation.

ghost use Rattle.std.specs.Prelude.{◌≤◌, IsTrue};
ghost use Rattle.ab_num.specs.Places.{kind_of};

use ab_abs::{Entry, Protocol, ReplyRule};
use ab_hist::History;
use ab_msg::Mute;
use ab_num::{Cluster, Kind, OutOfMemory, Plan};
use ab_open::read;
use ab_svc::Echo;
use ab_zlight::ZLight;
use std::alloc::Global;

/// Client 0's request `put a 1` of stamp 1 in instance 1, with a tag for replica 0.
const REQUEST: [u8; 62] = [
    1, 1, 1, 0, 0, 0, 0, 0, 1, 0, 0, 0, 0, 0, 0, 0, 0, 0, 1, 0, 7, 0x70, 0x75, 0x74, 0x20, 0x61,
    0x20, 0x31, 1, 0, 0, 0, 0, 0, 0, 0, 0, 0, 0, 0, 0, 0, 0, 0, 0, 0, 0, 0, 0, 0, 0, 0, 0, 0, 0, 0,
    0, 0, 0, 0, 0, 0,
];

/// Replica 0's ORDER of that request for replica 1.
const ORDER: [u8; 94] = [
    0x02, 0x02, 0x00, 0x00, 0x00, 0x00, 0x00, 0x00, 0x01, 0x00, 0x01, 0x00, 0x00, 0x00, 0x00, 0x00,
    0x00, 0x00, 0x00, 0x00, 0x01, 0x00, 0x07, 0x70, 0x75, 0x74, 0x20, 0x61, 0x20, 0x31, 0x54, 0x1d,
    0xa9, 0x89, 0xdf, 0x81, 0x55, 0xed, 0x68, 0xb6, 0x6d, 0x86, 0x4f, 0x79, 0x11, 0x8e, 0x91, 0x13,
    0xc8, 0x75, 0x24, 0xf0, 0xcd, 0xe8, 0x3d, 0xd2, 0x1c, 0x67, 0xfb, 0xf7, 0xd6, 0xc1, 0x30, 0xb2,
    0x99, 0x0a, 0xf5, 0x10, 0xfb, 0x9e, 0xd7, 0xb1, 0xdb, 0x29, 0xb8, 0x5b, 0xd4, 0xaa, 0x5c, 0xbd,
    0xe5, 0x42, 0xba, 0x1e, 0x30, 0x00, 0x1a, 0x5b, 0x6c, 0xf2, 0xce, 0xc3, 0x1f, 0x57,
];

/// The digest of the history with that request alone.
const DIGEST: [u8; 32] = [
    0x68, 0x8e, 0x05, 0xe3, 0x25, 0x0f, 0x60, 0x3f, 0xe4, 0x24, 0x68, 0xfe, 0x71, 0x56, 0x05, 0x25,
    0x86, 0x8d, 0x0b, 0x25, 0x4b, 0xa6, 0x46, 0x3c, 0x94, 0x98, 0x5b, 0x87, 0xd2, 0x90, 0x9a, 0xc0,
];

/// How many messages a replica sends on one, None where it takes none.
fn sent<P: Protocol<Echo>>(alloc: Global, replica: &mut P, bytes: &[u8]) -> Option<usize> {
    let Ok(m) = read(bytes) else {
        return None;
    };
    match replica.on(alloc, m, &mut Mute) {
        Ok(outs) => Some(outs.len()),
        Err(_) => None,
    }
}

fn has_logged<P: Protocol<Echo>>(replica: &P) -> bool {
    let log = replica.log();
    log.len() == 1 && log.digest_at(1) == DIGEST
}

fn start<P: Protocol<Echo>>(alloc: Global, c: &Cluster, me: u8) -> Result<P, OutOfMemory>
    requires served { IsTrue (P.serves (kind_of c.now.plan 1)) }
    requires replica { me ≤ 3 }
{
    let entry = Entry {
        base: History::new(alloc),
        trimmed: 0,
        cert: None,
    };
    P::start(alloc, c, 1, me, &entry)
}

/// Whether the primary answers the request and tells the three others its place; and answers nothing
/// once it is stopped.
fn orders<P: Protocol<Echo>>(alloc: Global, c: &Cluster) -> Result<bool, OutOfMemory>
    requires { IsTrue (P.serves (kind_of c.now.plan 1)) }
{
    let mut primary = start::<P>(alloc, c, 0)?;
    let answered = sent(alloc, &mut primary, &REQUEST) == Some(4) && has_logged(&primary);
    primary.stop();
    Ok(answered && sent(alloc, &mut primary, &REQUEST) == Some(0))
}

/// Whether another replica takes the request with its place alone, and repeats its answer.
fn follows<P: Protocol<Echo>>(alloc: Global, c: &Cluster) -> Result<bool, OutOfMemory>
    requires { IsTrue (P.serves (kind_of c.now.plan 1)) }
{
    let mut other = start::<P>(alloc, c, 1)?;
    let idle = sent(alloc, &mut other, &REQUEST) == Some(0) && other.log().len() == 0;
    let first = sent(alloc, &mut other, &ORDER) == Some(1) && has_logged(&other);
    let again = sent(alloc, &mut other, &ORDER) == Some(1) && has_logged(&other);
    Ok(idle && first && again)
}

fn keeps_rules<P: Protocol<Echo>>(alloc: Global, c: &Cluster) -> Result<bool, OutOfMemory>
    requires { IsTrue (P.serves (kind_of c.now.plan 1)) }
{
    let numbers = P::need(c, 1) == 3 && P::reply_rule(c, 1) == ReplyRule::All;
    let kinds = P::runs(Kind::ZLight) && !P::runs(Kind::Quorum);
    let replica = start::<P>(alloc, c, 2)?;
    let same = replica.copy(alloc)?;
    let none = same.first().is_none() && same.timer().is_none() && !same.stopped();
    Ok(numbers && kinds && none && same.may_panic())
}

#[test]
fn the_primary_orders(rt: HostRuntime) {
    let kept = match Cluster::new(1, 4, Plan::ZLight, 0) {
        Some(c) => orders::<ZLight<Echo>>(rt.alloc(), &c),
        None => Ok(false),
    };
    assert!(rt; kept == Ok(true));
}

#[test]
fn the_others_follow(rt: HostRuntime) {
    let kept = match Cluster::new(1, 4, Plan::ZLight, 0) {
        Some(c) => follows::<ZLight<Echo>>(rt.alloc(), &c),
        None => Ok(false),
    };
    assert!(rt; kept == Ok(true));
}

#[test]
fn it_has_the_rules_of_its_kind(rt: HostRuntime) {
    let kept = match Cluster::new(1, 4, Plan::ZLight, 0) {
        Some(c) => keeps_rules::<ZLight<Echo>>(rt.alloc(), &c),
        None => Ok(false),
    };
    assert!(rt; kept == Ok(true));
}
