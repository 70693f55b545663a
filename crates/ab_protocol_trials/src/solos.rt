//! A Backup over it answers what replica 0 orders.

ghost use Rattle.std.specs.Prelude.{◌≤◌, length, IsTrue, IfSome};
ghost use Rattle.ab_num.specs.Places.{kind_of};

use ab_abs::{Entry, Protocol};
use ab_backup::Backup;
use ab_fixtures::Solo;
use ab_hist::{History, Request, array_of};
use ab_msg::{Content, Msg, Mute, Out};
use ab_num::{Cluster, Plan};
use ab_open::read;
use ab_svc::{Echo, Service};
use std::alloc::Global;

/// Client and stamp of a request, and the number in its answer.
type Answer = (u16, u64, u16);

/// A request in instance 2, with a command of one byte and a tag for replica 0.
fn request_bytes(client: u8, stamp: u8) -> [u8; 56] {
    let mut bytes = [0; 56];
    bytes[0] = 1;
    bytes[1] = 1;
    bytes[2] = 1;
    bytes[4] = client;
    bytes[8] = 2;
    bytes[10] = client;
    bytes[18] = stamp;
    bytes[20] = 1;
    bytes[22] = 1;
    bytes
}

/// The only answer among some messages.
fn only_answer(outs: &[Out]) -> Option<Answer> {
    match outs {
        [out] => match &out.msg {
            Msg::Resp {
                content: Content::Resp {
                    client,
                    stamp,
                    n,
                    ..
                },
                ..
            } => Some((*client, *stamp, *n)),
            _ => None,
        },
        _ => None,
    }
}

/// Whether a replica sends this answer and nothing else on a request.
fn answers<S: Service, P: Protocol<S>>(
    alloc: Global,
    replica: &mut P,
    asked: (u8, u8),
    wanted: Option<Answer>,
) -> Option<bool> {
    let bytes = request_bytes(asked.0, asked.1);
    let m = read(&bytes).ok()?;
    let outs = replica.on(alloc, m, &mut Mute).ok()?;
    Some(outs.len() <= 1 && only_answer(outs.as_slice()) == wanted)
}

/// The entry with one request of client 3.
fn entry(alloc: Global) -> Option<Entry>
    ensures { IfSome result (λ e. e.trimmed ≤ length e.base) }
{
    let mut base = History::new(alloc);
    base.push(
        alloc,
        Request {
            client: 3,
            stamp: 1,
            command: array_of(&[0]),
        },
    )
    .ok()?;
    Some(Entry {
        base,
        trimmed: 0,
        cert: None,
    })
}

/// Whether a replica of instance 2, which commits two requests behind its base, answers those and no more.
fn answers_two<S: Service, P: Protocol<S>>(alloc: Global, c: &Cluster) -> Option<bool>
    requires { IsTrue (P.serves (kind_of c.now.plan 2)) }
{
    let entry = entry(alloc)?;
    let mut replica = P::start(alloc, c, 2, 0, &entry).ok()?;
    let mut kept = true;
    for (asked, wanted) in [
        ((3, 1), Some((3, 1, 1))),
        ((0, 1), Some((0, 1, 2))),
        ((0, 1), Some((0, 1, 2))),
        ((1, 1), Some((1, 1, 3))),
        ((1, 1), None),
        ((2, 1), None),
    ] {
        kept = answers::<S, P>(alloc, &mut replica, asked, wanted)? && kept;
    }
    Some(kept && replica.stopped() && replica.log().len() == 3)
}

#[test]
fn a_backup_answers_what_is_ordered(rt: HostRuntime) {
    let kept = match Cluster::new(1, 4, Plan::Backup, 0) {
        Some(c) => answers_two::<Echo, Backup<Echo, Solo>>(rt.alloc(), &c).expect(&rt, "memory"),
        None => false,
    };
    assert!(rt; kept);
}
