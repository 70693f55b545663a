//! Replicas that trim their logs.

ghost use Rattle.std.specs.Prelude.{IsTrue};
ghost use Rattle.ab_num.specs.Places.{kind_of};

use ab_abs::{Entry, Protocol};
use ab_hist::History;
use ab_msg::{Content, Msg, Mute, Outs};
use ab_num::{Cluster, Plan};
use ab_open::read;
use ab_quorum::Quorum;
use ab_svc::Echo;
use std::alloc::Global;
use std::process::Abort;

/// The request `put a 1` of a client in instance 1, with this stamp and a tag for replica 0.
fn request(client: u8, stamp: u16) -> [u8; 62] {
    let [high, low] = stamp.to_be_bytes();
    let mut bytes = [0; 62];
    bytes[0] = 1;
    bytes[1] = 1;
    bytes[2] = 1;
    bytes[4] = client;
    bytes[8] = 1;
    bytes[10] = client;
    bytes[17] = high;
    bytes[18] = low;
    bytes[20] = 7;
    bytes[21..28].copy_from_slice(b"put a 1");
    bytes[28] = 1;
    bytes
}

/// The number in the only message that is sent, None where it is no answer.
fn number_in(outs: &Outs) -> Option<u16> {
    match outs.as_slice() {
        [out] => match &out.msg {
            Msg::Resp {
                content: Content::Resp { n, .. },
                ..
            } => Some(*n),
            _ => None,
        },
        _ => None,
    }
}

/// The number with which a replica answers a request, None where it sends nothing.
fn answered<P: Protocol<Echo>>(
    rt: &impl Abort,
    alloc: Global,
    replica: &mut P,
    client: u8,
    stamp: u16,
) -> Option<u16> {
    let bytes = request(client, stamp);
    let m = read(&bytes).expect(rt, "a request");
    let outs = replica.on(alloc, m, &mut Mute).expect(rt, "memory");
    if outs.len() == 0 {
        return None;
    }
    let n = number_in(&outs);
    assert!(rt; n.is_some());
    n
}

/// Trims the first `n` entries of a replica's log.
fn trim<P: Protocol<Echo>>(rt: &impl Abort, replica: &mut P, n: usize) {
    assert!(rt; replica.trimmed() <= n && n <= replica.log().len());
    replica.trim(n);
    assert!(rt; replica.trimmed() == n);
}

fn start<P: Protocol<Echo>>(rt: &impl Abort, alloc: Global, c: &Cluster) -> P
    requires { IsTrue (P.serves (kind_of c.now.plan 1)) }
{
    let entry = Entry {
        base: History::new(alloc),
        trimmed: 0,
        cert: None,
    };
    P::start(alloc, c, 1, 0, &entry).expect(rt, "memory")
}

/// Of what is trimmed only each client's last request is answered, with a number that isn't below.
fn answers_the_last<P: Protocol<Echo>>(rt: &impl Abort, alloc: Global, c: &Cluster)
    requires { IsTrue (P.serves (kind_of c.now.plan 1)) }
{
    let mut replica = start::<P>(rt, alloc, c);
    assert!(rt; answered(rt, alloc, &mut replica, 0, 1) == Some(1));
    assert!(rt; answered(rt, alloc, &mut replica, 0, 2) == Some(2));
    assert!(rt; answered(rt, alloc, &mut replica, 1, 1) == Some(3));
    assert!(rt; answered(rt, alloc, &mut replica, 0, 1) == Some(1));
    trim(rt, &mut replica, 2);
    assert!(rt; answered(rt, alloc, &mut replica, 0, 1) == None);
    assert!(rt; answered(rt, alloc, &mut replica, 0, 2) == Some(2));
    assert!(rt; answered(rt, alloc, &mut replica, 1, 1) == Some(3));
    trim(rt, &mut replica, 3);
    assert!(rt; answered(rt, alloc, &mut replica, 0, 1) == None);
    assert!(rt; answered(rt, alloc, &mut replica, 0, 2) == Some(3));
    assert!(rt; answered(rt, alloc, &mut replica, 0, 3) == Some(4));
    assert!(rt; answered(rt, alloc, &mut replica, 0, 2) == Some(3));
    trim(rt, &mut replica, 4);
    assert!(rt; answered(rt, alloc, &mut replica, 0, 2) == None);
    assert!(rt; answered(rt, alloc, &mut replica, 0, 3) == Some(4));
    assert!(rt; replica.log().len() == 4);
}

/// A log takes 1,024 requests behind those that are trimmed.
fn takes_one_more<P: Protocol<Echo>>(rt: &impl Abort, alloc: Global, c: &Cluster)
    requires { IsTrue (P.serves (kind_of c.now.plan 1)) }
{
    let mut replica = start::<P>(rt, alloc, c);
    for stamp in 1..1025 {
        assert!(rt; answered(rt, alloc, &mut replica, 0, stamp) == Some(stamp));
    }
    assert!(rt; answered(rt, alloc, &mut replica, 0, 1025) == None);
    trim(rt, &mut replica, 1);
    assert!(rt; answered(rt, alloc, &mut replica, 0, 1025) == Some(1025));
    assert!(rt; answered(rt, alloc, &mut replica, 0, 1026) == None);
    assert!(rt; replica.log().len() == 1025);
}

#[test]
fn last_requests_are_answered(rt: HostRuntime) {
    let c = Cluster::new(1, 4, Plan::Quorum, 0).expect(&rt, "a cluster");
    answers_the_last::<Quorum<Echo>>(&rt, rt.alloc(), &c);
}

#[test]
fn a_trimmed_log_takes_one_more(rt: HostRuntime) {
    let c = Cluster::new(1, 4, Plan::Quorum, 0).expect(&rt, "a cluster");
    takes_one_more::<Quorum<Echo>>(&rt, rt.alloc(), &c);
}
