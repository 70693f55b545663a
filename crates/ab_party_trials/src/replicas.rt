//! Replicas over `Null`, which takes no request, and over `Quorum`. The bytes of the request are of
//! another implementation.

ghost use Rattle.std.specs.Prelude.{◌≡◌, ◌+◌, ◌≤◌, false, true};
ghost use Rattle.ab_abs.specs.Promises.{ServesAll};
ghost use Rattle.ab_replica.specs.Sites.{IsPenOf};

use ab_abs::{Protocol, Seen};
use ab_fixtures::Null;
use ab_hist::History;
use ab_msg::{Content, Msg, Notary, Out, Outs, Sig, SignFault};
use ab_num::{Cluster, Party, Plan};
use ab_open::read;
use ab_quorum::Quorum;
use ab_replica::{Effects, Replica};
use ab_svc::Echo;
use std::alloc::{AllocError, Global};

/// Client 0's request `put a 1` of stamp 1 in instance 1, with a tag for replica 0.
const REQUEST: [u8; 62] = [
    1, 1, 1, 0, 0, 0, 0, 0, 1, 0, 0, 0, 0, 0, 0, 0, 0, 0, 1, 0, 7, 0x70, 0x75, 0x74, 0x20, 0x61,
    0x20, 0x31, 1, 0, 0, 0, 0, 0, 0, 0, 0, 0, 0, 0, 0, 0, 0, 0, 0, 0, 0, 0, 0, 0, 0, 0, 0, 0, 0, 0,
    0, 0, 0, 0, 0, 0,
];

/// Its next request, of stamp 2.
const NEXT: [u8; 62] = [
    1, 1, 1, 0, 0, 0, 0, 0, 1, 0, 0, 0, 0, 0, 0, 0, 0, 0, 2, 0, 7, 0x70, 0x75, 0x74, 0x20, 0x61,
    0x20, 0x32, 1, 0, 0, 0, 0, 0, 0, 0, 0, 0, 0, 0, 0, 0, 0, 0, 0, 0, 0, 0, 0, 0, 0, 0, 0, 0, 0, 0,
    0, 0, 0, 0, 0, 0,
];

/// Its panic in instance 1.
const PANIC: [u8; 41] = [
    5, 5, 1, 0, 0, 0, 0, 0, 1, 0, 0, 0, 0, 0, 0, 0, 0, 0, 0, 0, 0, 0, 0, 0, 0, 0, 0, 0, 0, 0, 0, 0,
    0, 0, 0, 0, 0, 0, 0, 0, 0,
];

/// Its panic in instance 2.
const NEXT_PANIC: [u8; 41] = [
    5, 5, 1, 0, 0, 0, 0, 0, 2, 0, 0, 0, 0, 0, 0, 0, 0, 0, 0, 0, 0, 0, 0, 0, 0, 0, 0, 0, 0, 0, 0, 0,
    0, 0, 0, 0, 0, 0, 0, 0, 0,
];

/// The digest of the history of the two requests.
const DIGEST_OF_BOTH: [u8; 32] = [
    0x42, 0xd8, 0xbd, 0x86, 0xb3, 0x6a, 0x48, 0xb6, 0xf5, 0x44, 0x66, 0xf8, 0x72, 0x3c, 0x37, 0x61,
    0x82, 0xae, 0x4f, 0xf3, 0x02, 0x4c, 0x0e, 0xa1, 0x7e, 0x64, 0x28, 0x39, 0xc4, 0xc7, 0xd5, 0x4b,
];

/// A history of client 0's request `put a 3` of stamp 3.
const THIRD: [u8; 21] = [
    0, 1, 0, 0, 0, 0, 0, 0, 0, 0, 0, 3, 0, 7, 0x70, 0x75, 0x74, 0x20, 0x61, 0x20, 0x33,
];

/// It makes signatures without bytes.
#[derive(Drop)]
struct Blank {
    used: u64,
    left: u64,
    ghost few: { used + left ≤ 255 },
}

impl Notary for Blank {
    ghost use Rattle.std.specs.Prelude.{[]};

    ghost pen = { λ n. record { used = n.used; sig = λ s k. [] } };

    ghost remains = { λ n. n.left };

    fn left(&self) -> u64 {
        self.left
    }

    fn sign(&mut self, alloc: Global, _c: &Content) -> Result<Sig, SignFault> {
        if self.left == 0 {
            return Err(SignFault::Spent);
        }
        let sig = Sig::of(alloc, Vec::new(alloc))?;
        self.left -= 1;
        self.used += 1;
        Ok(sig)
    }
}

/// Adds ABORTs of instance 1 by replicas 0 to 2, whose logs are empty and whose signatures are of zeros.
fn put_aborts(bytes: &mut Vec<u8>) -> Result<(), AllocError> {
    for r in 0..3u8 {
        bytes.extend_from_slice(&[6, 0, 0, r, 0, 0, 0, 1, 0, 0, 9, 44])?;
        bytes.extend_from_slice(&[0; 2348])?;
    }
    Ok(())
}

/// An INIT with these.
fn init(alloc: Global) -> Result<Vec<u8>, AllocError> {
    let mut bytes = Vec::from_slice(alloc, &[7, 3])?;
    put_aborts(&mut bytes)?;
    Ok(bytes)
}

/// Adds the ABORT of instance 1 by replica r, whose log is two entries with this digest, both trimmed, and the third request, and
/// whose signature is of zeros.
fn put_trimmed(bytes: &mut Vec<u8>, r: u8, digest: &[u8; 32]) -> Result<(), AllocError> {
    bytes.extend_from_slice(&[6, 0, 0, r, 0, 0, 0, 1, 255, 255, 0, 2])?;
    bytes.extend_from_slice(digest)?;
    bytes.extend_from_slice(&THIRD)?;
    bytes.extend_from_slice(&[9, 44])?;
    bytes.extend_from_slice(&[0; 2348])
}

/// An INIT with such ABORTs by replicas 0, 1 and 3.
fn trimmed_init(alloc: Global, digest: &[u8; 32]) -> Result<Vec<u8>, AllocError> {
    let mut bytes = Vec::from_slice(alloc, &[7, 3])?;
    put_trimmed(&mut bytes, 0, digest)?;
    put_trimmed(&mut bytes, 1, digest)?;
    put_trimmed(&mut bytes, 3, digest)?;
    Ok(bytes)
}

/// How long the log is of which the only message is the ABORT of replica 2 to client 0.
fn aborted(outs: &Outs) -> Option<usize> {
    match outs.as_slice() {
        [out] => match (&out.to, &out.msg) {
            (Party::Client(0), Msg::Abort { abort }) => match &abort.content {
                Content::Abort { history, .. } => Some(history.len()),
                _ => None,
            },
            _ => None,
        },
        _ => None,
    }
}

/// How many ABORTs the certificate has that is the only message, to client 0.
fn brought(outs: &Outs) -> Option<usize> {
    match outs.as_slice() {
        [out] => match (&out.to, &out.msg) {
            (Party::Client(0), Msg::Init { cert }) => Some(cert.as_slice().len()),
            _ => None,
        },
        _ => None,
    }
}

/// How many entries are trimmed of the log, and how many aren't, of which the only message is the ABORT to client 0.
fn trimmed(outs: &Outs) -> Option<(u16, usize)> {
    match outs.as_slice() {
        [out] => match (&out.to, &out.msg) {
            (Party::Client(0), Msg::Abort { abort }) => match &abort.content {
                Content::TrimmedAbort { start, rest, .. } => Some((*start, rest.len())),
                _ => None,
            },
            _ => None,
        },
        _ => None,
    }
}

/// Whether it is an answer to client 0.
fn is_answer(out: &Out) -> bool {
    match (&out.to, &out.msg) {
        (Party::Client(0), Msg::Resp { .. }) => true,
        _ => false,
    }
}

/// Whether it is replica 2's CHECKPOINT of two entries of instance 1 to this replica.
fn is_told(out: &Out, to: u8) -> bool {
    match (&out.to, &out.msg) {
        (
            Party::Replica(r),
            Msg::Checkpoint {
                content: Content::Checkpoint {
                    maker: Party::Replica(2),
                    instance: 1,
                    n: 2,
                    ..
                },
                ..
            },
        ) => *r == to,
        _ => false,
    }
}

/// Whether they are an answer, and then replica 2's CHECKPOINT to the three others.
fn is_told_to_all(outs: &Outs) -> bool {
    match outs.as_slice() {
        [answer, a, b, c] => is_answer(answer) && is_told(a, 0) && is_told(b, 1) && is_told(c, 3),
        _ => false,
    }
}

/// Whether the list has forgotten both requests, and has the third behind them.
fn is_third_behind(start: u16, digest: &[u8; 32], rest: &History) -> bool {
    start == 2 && *digest == DIGEST_OF_BOTH && rest.len() == 1 && rest.at(1).stamp == 3
}

/// Whether replica 2 took such a list of a certificate of instance 1, and entered instance 2 with it.
fn is_entry_behind(marks: &[Seen]) -> bool {
    match marks {
        [
            Seen::TrimmedCert {
                i: 1,
                p: Party::Replica(2),
                start: taken,
                digest: d,
                rest: g,
            },
            Seen::TrimmedInit {
                i: 2,
                r: 2,
                start: begun,
                digest: e,
                rest: h,
            },
        ] => is_third_behind(*taken, d, g) && is_third_behind(*begun, e, h),
        _ => false,
    }
}

/// What a replica did: whether it took the message, whether it had no signature left, how many messages and marks there are,
/// whether it entered by the third request alone, and what went to client 0 alone or, behind an answer, to the other replicas.
#[derive(Drop)]
struct Done {
    taken: bool,
    spent: bool,
    outs: usize,
    marks: usize,
    behind: bool,
    aborted: Option<usize>,
    brought: Option<usize>,
    trimmed: Option<(u16, usize)>,
    told: bool,
}

/// What a replica does as these bytes come. Where they spell no message or memory is short, it counts as spent.
fn heard<P: Protocol<Echo>, N: Notary>(
    alloc: Global,
    replica: &mut Replica<Echo, P>,
    n: &mut N,
    bytes: &[u8],
) -> Done
    requires { IsPenOf (N.pen n.old) (N.remains n.old) replica.old }
    ensures { result.spent ≡ false → IsPenOf (N.pen n.new) (N.remains n.new) replica.new }
{
    let mut done = Done {
        taken: false,
        spent: true,
        outs: 0,
        marks: 0,
        behind: false,
        aborted: None,
        brought: None,
        trimmed: None,
        told: false,
    };
    if let Ok(m) = read(bytes) {
        if let Ok(e) = replica.on(alloc, m, n) {
            let Effects { outs, marks, spent } = e;
            if let Ok(outs) = outs.joined(alloc) {
                done = Done {
                    taken: true,
                    spent,
                    outs: outs.len(),
                    marks: marks.len(),
                    behind: is_entry_behind(marks.as_slice()),
                    aborted: aborted(&outs),
                    brought: brought(&outs),
                    trimmed: trimmed(&outs),
                    told: is_told_to_all(&outs),
                };
            }
        }
    }
    done
}

/// Whether replica 2 sends client 0 its ABORT with an empty log twice, and signs it once.
fn aborts_once<P: Protocol<Echo>>(alloc: Global, c: &Cluster) -> Option<bool>
    requires { ServesAll P.serves c.now }
{
    let Ok(mut replica) = Replica::<Echo, P>::new(alloc, c, 2, 1) else {
        return None;
    };
    let mut pen = Blank { used: 0, left: 1 };
    let first = heard(alloc, &mut replica, &mut pen, &REQUEST);
    let mut is_once = false;
    if !first.spent {
        let again = heard(alloc, &mut replica, &mut pen, &REQUEST);
        let same = first.aborted == Some(0) && again.aborted == Some(0);
        is_once = same && !again.spent && replica.used() == 1 && replica.stopped();
    }
    drop(replica);
    Some(is_once)
}

/// Whether the request is spent where no signature is left.
fn is_spent<P: Protocol<Echo>>(alloc: Global, c: &Cluster) -> Option<bool>
    requires { ServesAll P.serves c.now }
{
    let Ok(mut replica) = Replica::<Echo, P>::new(alloc, c, 2, 0) else {
        return None;
    };
    let mut pen = Blank { used: 0, left: 0 };
    let done = heard(alloc, &mut replica, &mut pen, &REQUEST);
    let used = replica.used();
    drop(replica);
    Some(done.taken && done.spent && done.outs == 0 && used == 0)
}

/// Whether replica 2 enters instance 2 by an INIT, and then answers the request of instance 1 with the
/// certificate.
fn enters<P: Protocol<Echo>>(alloc: Global, c: &Cluster) -> Option<bool>
    requires { ServesAll P.serves c.now }
{
    let Ok(init) = init(alloc) else {
        return None;
    };
    let Ok(mut replica) = Replica::<Echo, P>::new(alloc, c, 2, 1) else {
        return None;
    };
    let mut pen = Blank { used: 0, left: 1 };
    let entry = heard(alloc, &mut replica, &mut pen, &init);
    let mut is_there = false;
    if !entry.spent {
        let late = heard(alloc, &mut replica, &mut pen, &REQUEST);
        let rests = replica.log().len() == 0 && replica.timer().is_none();
        is_there = rests && replica.instance() == 2 && late.brought == Some(3);
    }
    drop(replica);
    Some(is_there && entry.marks == 2 && entry.outs == 0)
}

/// Whether replica 2 answers both requests, and sends its CHECKPOINT behind the second answer.
fn hears_both<P: Protocol<Echo>, N: Notary>(
    alloc: Global,
    replica: &mut Replica<Echo, P>,
    n: &mut N,
) -> bool
    requires { IsPenOf (N.pen n.old) (N.remains n.old) replica.old }
    ensures { result ≡ true → IsPenOf (N.pen n.new) (N.remains n.new) replica.new }
{
    let first = heard(alloc, replica, n, &REQUEST);
    if first.spent || first.outs != 1 {
        return false;
    }
    let next = heard(alloc, replica, n, &NEXT);
    !next.spent && next.told
}

/// Replica r's CHECKPOINT in instance 1 of two entries with this digest.
fn checkpoint(alloc: Global, r: u8, digest: &[u8; 32]) -> Result<Vec<u8>, AllocError> {
    let mut bytes = Vec::from_slice(alloc, &[13, 12, 0, 0, r, 0, 0, 0, 1, 0, 2])?;
    bytes.extend_from_slice(digest)?;
    bytes.extend_from_slice(&[0; 32])?;
    Ok(bytes)
}

/// Whether a replica takes replica r's CHECKPOINT of what its own log begins with, and sends nothing.
fn hears_of_two<P: Protocol<Echo>, N: Notary>(
    alloc: Global,
    replica: &mut Replica<Echo, P>,
    n: &mut N,
    r: u8,
) -> bool
    requires { IsPenOf (N.pen n.old) (N.remains n.old) replica.old }
    ensures { result ≡ true → IsPenOf (N.pen n.new) (N.remains n.new) replica.new }
{
    if replica.log().len() < 2 {
        return false;
    }
    let digest = replica.log().digest_at(2);
    let Ok(bytes) = checkpoint(alloc, r, &digest) else {
        return false;
    };
    let done = heard(alloc, replica, n, &bytes);
    !done.spent && done.outs == 0
}

/// Whether a replica answers both requests, and then takes the CHECKPOINTs of the others.
fn hears_all<P: Protocol<Echo>, N: Notary>(
    alloc: Global,
    replica: &mut Replica<Echo, P>,
    n: &mut N,
) -> bool
    requires { IsPenOf (N.pen n.old) (N.remains n.old) replica.old }
    ensures { result ≡ true → IsPenOf (N.pen n.new) (N.remains n.new) replica.new }
{
    if !hears_both(alloc, replica, n) {
        return false;
    }
    if !hears_of_two(alloc, replica, n, 0) {
        return false;
    }
    if !hears_of_two(alloc, replica, n, 1) {
        return false;
    }
    hears_of_two(alloc, replica, n, 3)
}

/// How many entries are trimmed of the log that it states, and how many aren't, as it is stopped after both requests and the
/// others' CHECKPOINTs.
fn stops_after_all<P: Protocol<Echo>, N: Notary>(
    alloc: Global,
    replica: &mut Replica<Echo, P>,
    n: &mut N,
) -> Option<(u16, usize)>
    requires { IsPenOf (N.pen n.old) (N.remains n.old) replica.old }
{
    if !hears_all(alloc, replica, n) {
        return None;
    }
    heard(alloc, replica, n, &PANIC).trimmed
}

/// What comes of a certificate of trimmed logs: in which instance the replica then is, whether it showed the third request alone as
/// it entered, and how many entries are trimmed of the log that it states in instance 2, and how many aren't.
type Led = (u32, bool, Option<(u16, usize)>);

/// The same of an INIT with logs whose two trimmed entries have this digest.
fn enters_by<P: Protocol<Echo>, N: Notary>(
    alloc: Global,
    replica: &mut Replica<Echo, P>,
    n: &mut N,
    digest: &[u8; 32],
) -> Option<Led>
    requires { IsPenOf (N.pen n.old) (N.remains n.old) replica.old }
{
    let Ok(init) = trimmed_init(alloc, digest) else {
        return None;
    };
    let entry = heard(alloc, replica, n, &init);
    if entry.spent {
        return None;
    }
    let there = replica.instance();
    let stated = heard(alloc, replica, n, &NEXT_PANIC).trimmed;
    Some((there, entry.behind, stated))
}

/// The same of a replica that has heard both requests and the others' CHECKPOINTs.
fn enters_after_all<P: Protocol<Echo>, N: Notary>(
    alloc: Global,
    replica: &mut Replica<Echo, P>,
    n: &mut N,
    digest: &[u8; 32],
) -> Option<Led>
    requires { IsPenOf (N.pen n.old) (N.remains n.old) replica.old }
{
    if !hears_all(alloc, replica, n) {
        return None;
    }
    enters_by(alloc, replica, n, digest)
}

/// Whether replica 2 sends its CHECKPOINT of two entries to the others, if each two requests are to have one.
fn tells_others<P: Protocol<Echo>>(alloc: Global, c: &Cluster) -> Option<bool>
    requires { ServesAll P.serves c.now }
{
    let Ok(mut replica) = Replica::<Echo, P>::new(alloc, c, 2, 1) else {
        return None;
    };
    let mut pen = Blank { used: 0, left: 1 };
    let told = hears_both(alloc, &mut replica, &mut pen);
    drop(replica);
    Some(told)
}

/// How replica 2 aborts whose CHECKPOINT each other replica has made too.
fn stops<P: Protocol<Echo>>(alloc: Global, c: &Cluster) -> Option<(u16, usize)>
    requires { ServesAll P.serves c.now }
{
    let Ok(mut replica) = Replica::<Echo, P>::new(alloc, c, 2, 1) else {
        return None;
    };
    let mut pen = Blank { used: 0, left: 1 };
    let stated = stops_after_all(alloc, &mut replica, &mut pen);
    drop(replica);
    stated
}

/// What comes of a certificate of trimmed logs with this digest to replica 2, whose log is both requests.
fn leads_on<P: Protocol<Echo>>(alloc: Global, c: &Cluster, digest: &[u8; 32]) -> Option<Led>
    requires { ServesAll P.serves c.now }
{
    let Ok(mut replica) = Replica::<Echo, P>::new(alloc, c, 2, 1) else {
        return None;
    };
    let mut pen = Blank { used: 0, left: 1 };
    let there = enters_after_all(alloc, &mut replica, &mut pen, digest);
    drop(replica);
    there
}

/// The same of a replica whose log is empty.
fn leads_nobody<P: Protocol<Echo>>(alloc: Global, c: &Cluster) -> Option<Led>
    requires { ServesAll P.serves c.now }
{
    let Ok(mut replica) = Replica::<Echo, P>::new(alloc, c, 2, 1) else {
        return None;
    };
    let mut pen = Blank { used: 0, left: 1 };
    let there = enters_by(alloc, &mut replica, &mut pen, &DIGEST_OF_BOTH);
    drop(replica);
    there
}

#[test]
fn an_abort_is_signed_once(rt: HostRuntime) {
    let alloc = rt.alloc();
    let done = match Cluster::new(1, 4, Plan::Quorum, 0) {
        Some(c) => aborts_once::<Null<Echo>>(alloc, &c),
        None => None,
    };
    assert!(rt; done == Some(true));
}

#[test]
fn an_event_is_spent(rt: HostRuntime) {
    let alloc = rt.alloc();
    let done = match Cluster::new(1, 4, Plan::Quorum, 0) {
        Some(c) => is_spent::<Null<Echo>>(alloc, &c),
        None => None,
    };
    assert!(rt; done == Some(true));
}

#[test]
fn a_certificate_leads_on(rt: HostRuntime) {
    let alloc = rt.alloc();
    let done = match Cluster::new(1, 4, Plan::Quorum, 0) {
        Some(c) => enters::<Null<Echo>>(alloc, &c),
        None => None,
    };
    assert!(rt; done == Some(true));
}

#[test]
fn a_checkpoint_is_told(rt: HostRuntime) {
    let alloc = rt.alloc();
    let done = match Cluster::new(1, 1, Plan::Quorum, 2) {
        Some(c) => tells_others::<Quorum<Echo>>(alloc, &c),
        None => None,
    };
    assert!(rt; done == Some(true));
}

#[test]
fn a_stable_log_is_trimmed(rt: HostRuntime) {
    let alloc = rt.alloc();
    let stated = match Cluster::new(1, 1, Plan::Quorum, 2) {
        Some(c) => stops::<Quorum<Echo>>(alloc, &c),
        None => None,
    };
    assert!(rt; stated == Some((2, 0)));
}

#[test]
fn a_certificate_of_trimmed_logs_leads_on(rt: HostRuntime) {
    let alloc = rt.alloc();
    let there = match Cluster::new(1, 4, Plan::Quorum, 2) {
        Some(c) => leads_on::<Quorum<Echo>>(alloc, &c, &DIGEST_OF_BOTH),
        None => None,
    };
    assert!(rt; there == Some((2, true, Some((2, 1)))));
}

#[test]
fn trimmed_logs_of_another_digest_lead_nowhere(rt: HostRuntime) {
    let alloc = rt.alloc();
    let there = match Cluster::new(1, 4, Plan::Quorum, 2) {
        Some(c) => leads_on::<Quorum<Echo>>(alloc, &c, &[0; 32]),
        None => None,
    };
    assert!(rt; there == Some((1, false, None)));
}

#[test]
fn trimmed_logs_lead_no_empty_replica_on(rt: HostRuntime) {
    let alloc = rt.alloc();
    let there = match Cluster::new(1, 4, Plan::Quorum, 2) {
        Some(c) => leads_nobody::<Quorum<Echo>>(alloc, &c),
        None => None,
    };
    assert!(rt; there == Some((1, false, None)));
}
