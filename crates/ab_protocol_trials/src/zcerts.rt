//! A replica of ZCert signs its answers, and keeps certificates of answers. The messages and the
//! digests are of another implementation.

ghost use Rattle.std.specs.Prelude.{◌+◌, ◌≤◌, IsTrue};
ghost use Rattle.ab_num.specs.Places.{kind_of};

use ab_abs::{Entry, Protocol, ReplyRule};
use ab_hist::History;
use ab_msg::{Content, Msg, Mute, Notary, Out, Outs, Sig, SignFault};
use ab_num::{Cluster, Kind, OutOfMemory, Party, Plan};
use ab_open::read;
use ab_svc::Echo;
use ab_zcert::ZCert;
use std::alloc::{AllocError, Global};

/// Client 0's request `put a 1` of stamp 1 in instance 1, with a tag for replica 0.
const FIRST: [u8; 62] = [
    1, 1, 1, 0, 0, 0, 0, 0, 1, 0, 0, 0, 0, 0, 0, 0, 0, 0, 1, 0, 7, 0x70, 0x75, 0x74, 0x20, 0x61,
    0x20, 0x31, 1, 0, 0, 0, 0, 0, 0, 0, 0, 0, 0, 0, 0, 0, 0, 0, 0, 0, 0, 0, 0, 0, 0, 0, 0, 0, 0, 0,
    0, 0, 0, 0, 0, 0,
];

/// Client 1's request `put b 2` of stamp 1 in instance 1, with a tag for replica 0.
const SECOND: [u8; 62] = [
    1, 1, 1, 0, 1, 0, 0, 0, 1, 0, 1, 0, 0, 0, 0, 0, 0, 0, 1, 0, 7, 0x70, 0x75, 0x74, 0x20, 0x62,
    0x20, 0x32, 1, 0, 0, 0, 0, 0, 0, 0, 0, 0, 0, 0, 0, 0, 0, 0, 0, 0, 0, 0, 0, 0, 0, 0, 0, 0, 0, 0,
    0, 0, 0, 0, 0, 0,
];

/// The digest of the history with the first request alone.
const DIGEST: [u8; 32] = [
    0x68, 0x8e, 0x05, 0xe3, 0x25, 0x0f, 0x60, 0x3f, 0xe4, 0x24, 0x68, 0xfe, 0x71, 0x56, 0x05, 0x25,
    0x86, 0x8d, 0x0b, 0x25, 0x4b, 0xa6, 0x46, 0x3c, 0x94, 0x98, 0x5b, 0x87, 0xd2, 0x90, 0x9a, 0xc0,
];

/// The digest of the history with both.
const BOTH: [u8; 32] = [
    0xcc, 0xd0, 0x06, 0x3c, 0x6b, 0xa2, 0xe6, 0x25, 0xab, 0x8c, 0x13, 0x20, 0x72, 0x66, 0x90, 0x9b,
    0xc6, 0x09, 0x62, 0x60, 0x7a, 0x81, 0x60, 0x36, 0xe3, 0xbb, 0xce, 0xc8, 0xa4, 0x21, 0x5f, 0x1f,
];

/// It makes signatures without bytes.
#[derive(Drop)]
struct Blank {
    used: u64,
    left: u64,
    ghost few: { used + left ≤ 255 },
}

impl Notary for Blank {
    ghost use Rattle.std.specs.Prelude.{[]};

    ghost pen = { λ n. record { used = n.used; sig = λ s k. [] } };

    ghost remains = { λ n. n.left };

    fn left(&self) -> u64 {
        self.left
    }

    fn sign(&mut self, alloc: Global, _c: &Content) -> Result<Sig, SignFault> {
        if self.left == 0 {
            return Err(SignFault::Spent);
        }
        let sig = Sig::of(alloc, Vec::new(alloc))?;
        self.left -= 1;
        self.used += 1;
        Ok(sig)
    }
}

/// What a replica sends on a message, None where it takes none.
fn sent<P: Protocol<Echo>, N: Notary>(
    alloc: Global,
    replica: &mut P,
    bytes: &[u8],
    n: &mut N,
) -> Option<Outs> {
    let Ok(m) = read(bytes) else {
        return None;
    };
    match replica.on(alloc, m, n) {
        Ok(outs) => Some(outs),
        Err(_) => None,
    }
}

/// Whether it is replica 0's answer to the first request.
fn is_answer(content: &Content) -> bool {
    match content {
        Content::Spec {
            maker: Party::Replica(0),
            instance: 1,
            client: 0,
            stamp: 1,
            n: 1,
            d,
            reply,
        } => *d == DIGEST && reply.as_slice() == b"put a 1".as_slice(),
        _ => false,
    }
}

/// Whether it is that answer, signed, for client 0.
fn is_spec(out: &Out) -> bool {
    match (&out.to, &out.msg) {
        (Party::Client(0), Msg::Spec { spec }) => spec.maker == 0 && is_answer(&spec.content),
        _ => false,
    }
}

/// Whether a replica sends its signed answer behind the first request's place for three others.
fn answers<P: Protocol<Echo>>(alloc: Global, replica: &mut P, n: &mut Blank) -> bool {
    let Some(outs) = sent(alloc, replica, &FIRST, n) else {
        return false;
    };
    match outs.as_slice() {
        [_, _, _, out] => is_spec(out),
        _ => false,
    }
}

fn start<P: Protocol<Echo>>(alloc: Global, c: &Cluster) -> Result<P, OutOfMemory>
    requires { IsTrue (P.serves (kind_of c.now.plan 1)) }
{
    let entry = Entry {
        base: History::new(alloc),
        trimmed: 0,
        cert: None,
    };
    P::start(alloc, c, 1, 0, &entry)
}

/// Whether a replica signs its answer, and once more as the request comes again, and nothing where it has no
/// signature left: then it logs nothing either.
fn signs<P: Protocol<Echo>>(alloc: Global, c: &Cluster) -> Result<bool, OutOfMemory>
    requires { IsTrue (P.serves (kind_of c.now.plan 1)) }
{
    let mut n = Blank { used: 0, left: 2 };
    let mut primary = start::<P>(alloc, c)?;
    let refused = sent(alloc, &mut primary, &FIRST, &mut Mute);
    let spent = refused.is_none() && primary.log().len() == 0;
    let first = answers(alloc, &mut primary, &mut n) && n.used == 1;
    let again = answers(alloc, &mut primary, &mut n) && n.used == 2;
    Ok(spent && first && again && primary.log().len() == 1)
}

/// A CERT of the answer to the first request by three replicas, as number `n` of a history with the digest `d`. Its
/// signatures are of zeros.
fn cert(alloc: Global, n: u8, d: &[u8; 32], by: &[u8; 3]) -> Result<Vec<u8>, AllocError> {
    let mut bytes = Vec::from_slice(
        alloc,
        &[16, 0, 0, 0, 1, 1, 0, 0, 0, 0, 0, 0, 0, 0, 0, 1, 0, n],
    )?;
    bytes.extend_from_slice(d)?;
    bytes.extend_from_slice(&[7, 0x70, 0x75, 0x74, 0x20, 0x61, 0x20, 0x31, 3])?;
    for r in by {
        bytes.extend_from_slice(&[*r, 9, 44])?;
        bytes.extend_from_slice(&[0; 2348])?;
    }
    Ok(bytes)
}

/// Whether it says that replica 0 keeps a certificate of number `n` or a higher one.
fn is_local_commit(content: &Content, n: u16, d: &[u8; 32]) -> bool {
    match content {
        Content::LocalCommit {
            maker: Party::Replica(0),
            instance: 1,
            client: 0,
            stamp: 1,
            n: number,
            d: digest,
        } => *number == n && *digest == *d,
        _ => false,
    }
}

/// Whether a replica takes a certificate, and tells client 0 nothing but that.
fn tells<P: Protocol<Echo>>(
    alloc: Global,
    replica: &mut P,
    bytes: &[u8],
    n: u16,
    d: &[u8; 32],
) -> bool {
    let Some(outs) = sent(alloc, replica, bytes, &mut Mute) else {
        return false;
    };
    match outs.as_slice() {
        [out] => match (&out.to, &out.msg) {
            (Party::Client(0), Msg::LocalCommit { content, .. }) => is_local_commit(content, n, d),
            _ => false,
        },
        _ => false,
    }
}

/// Whether a replica sends nothing on a message.
fn is_silent<P: Protocol<Echo>>(alloc: Global, replica: &mut P, bytes: &[u8]) -> bool {
    match sent(alloc, replica, bytes, &mut Mute) {
        Some(outs) => outs.len() == 0,
        None => false,
    }
}

/// The number of the certificate that a replica keeps.
fn kept<P: Protocol<Echo>>(replica: &P) -> Option<u16> {
    match replica.zcert() {
        Some(zcert) => Some(zcert.n),
        None => None,
    }
}

/// Whether a replica with both requests keeps a certificate, then a higher one, and not the lower one again, but tells of each; and
/// once it is stopped keeps what it has and tells nothing.
fn keeps<P: Protocol<Echo>>(alloc: Global, c: &Cluster) -> Result<bool, OutOfMemory>
    requires { IsTrue (P.serves (kind_of c.now.plan 1)) }
{
    let low = cert(alloc, 1, &DIGEST, &[1, 2, 3])?;
    let high = cert(alloc, 2, &BOTH, &[0, 1, 2])?;
    let mut n = Blank { used: 0, left: 2 };
    let mut replica = start::<P>(alloc, c)?;
    let early = is_silent(alloc, &mut replica, low.as_slice());
    let _ = sent(alloc, &mut replica, &FIRST, &mut n);
    let _ = sent(alloc, &mut replica, &SECOND, &mut n);
    let none = early && kept(&replica).is_none();
    let first = tells(alloc, &mut replica, low.as_slice(), 1, &DIGEST);
    let one = first && kept(&replica) == Some(1);
    let second = tells(alloc, &mut replica, high.as_slice(), 2, &BOTH);
    let two = second && kept(&replica) == Some(2);
    let again = tells(alloc, &mut replica, low.as_slice(), 1, &DIGEST);
    replica.stop();
    let stopped = is_silent(alloc, &mut replica, low.as_slice());
    Ok(none && one && two && again && stopped && kept(&replica) == Some(2))
}

/// Whether a replica with the first request takes no certificate of two replicas, nor one of another history.
fn refuses<P: Protocol<Echo>>(alloc: Global, c: &Cluster) -> Result<bool, OutOfMemory>
    requires { IsTrue (P.serves (kind_of c.now.plan 1)) }
{
    let twice = cert(alloc, 1, &DIGEST, &[0, 1, 1])?;
    let other = cert(alloc, 1, &BOTH, &[0, 1, 2])?;
    let mut n = Blank { used: 0, left: 1 };
    let mut replica = start::<P>(alloc, c)?;
    let _ = sent(alloc, &mut replica, &FIRST, &mut n);
    let two = is_silent(alloc, &mut replica, twice.as_slice());
    let another = is_silent(alloc, &mut replica, other.as_slice());
    Ok(two && another && kept(&replica).is_none())
}

fn keeps_rules<P: Protocol<Echo>>(alloc: Global, c: &Cluster) -> Result<bool, OutOfMemory>
    requires { IsTrue (P.serves (kind_of c.now.plan 1)) }
{
    let numbers = P::need(c, 1) == 3 && P::reply_rule(c, 1) == ReplyRule::Certified;
    let kinds = P::runs(Kind::ZCert) && !P::runs(Kind::ZLight);
    let replica = start::<P>(alloc, c)?;
    let same = replica.copy(alloc)?;
    let none = same.first().is_none() && same.timer().is_none() && !same.stopped();
    Ok(numbers && kinds && none && same.may_panic())
}

#[test]
fn answers_are_signed(rt: HostRuntime) {
    let kept = match Cluster::new(1, 4, Plan::ZCert, 0) {
        Some(c) => signs::<ZCert<Echo>>(rt.alloc(), &c),
        None => Ok(false),
    };
    assert!(rt; kept == Ok(true));
}

#[test]
fn the_highest_certificate_is_kept(rt: HostRuntime) {
    let kept = match Cluster::new(1, 4, Plan::ZCert, 0) {
        Some(c) => keeps::<ZCert<Echo>>(rt.alloc(), &c),
        None => Ok(false),
    };
    assert!(rt; kept == Ok(true));
}

#[test]
fn others_are_refused(rt: HostRuntime) {
    let kept = match Cluster::new(1, 4, Plan::ZCert, 0) {
        Some(c) => refuses::<ZCert<Echo>>(rt.alloc(), &c),
        None => Ok(false),
    };
    assert!(rt; kept == Ok(true));
}

#[test]
fn it_has_the_rules_of_its_kind(rt: HostRuntime) {
    let kept = match Cluster::new(1, 4, Plan::ZCert, 0) {
        Some(c) => keeps_rules::<ZCert<Echo>>(rt.alloc(), &c),
        None => Ok(false),
    };
    assert!(rt; kept == Ok(true));
}
