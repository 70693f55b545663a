//! Audits of what one replica signs as it stops.

ghost use Rattle.std.specs.Prelude.{◌<◌};

use ab_audit::{Accusation, Added, Audit, audit_text};
use ab_num::{Cluster, Height, OutOfMemory, Plan, Scheme};
use ab_scheme::SecretKey;
use std::alloc::{AllocError, Global};
use std::process::Abort;

/// That replica 0 has stopped in instance 1 with an empty log.
const WHOLE: [u8; 10] = [6, 0, 0, 0, 0, 0, 0, 1, 0, 0];

const FIVE: Scheme = Scheme::Lms(Height::Five);

/// The same, with a log of which the first 3 entries are trimmed. None stands behind them, and their digest is this byte, 32 times.
fn trimmed(alloc: Global, byte: u8) -> Result<Vec<u8>, OutOfMemory> {
    let mut content = Vec::new(alloc);
    content.extend_from_slice(&[6, 0, 0, 0, 0, 0, 0, 1, 255, 255, 0, 3])?;
    content.extend_from_slice(&[byte; 32])?;
    content.extend_from_slice(&[0, 0])?;
    Ok(content)
}

/// The ABORT with this content, under signature number `q`.
fn abort(alloc: Global, q: u64, content: &[u8]) -> Result<Vec<u8>, OutOfMemory>
    requires { q < 32 }
{
    let secret = SecretKey::new(FIVE, [1; 16], [2; 32]);
    let sig = secret.sign_at(alloc, q, content)?;
    let mut message = Vec::new(alloc);
    message.push(6)?;
    message.extend_from_slice(content)?;
    message.extend_from_slice(&2348u16.to_be_bytes())?;
    message.extend_from_slice(&sig)?;
    Ok(message)
}

/// Who is accused by the ABORTs with these two contents.
fn accused(rt: &impl Abort, alloc: Global, one: &[u8], other: &[u8]) -> Vec<Accusation> {
    let cluster = Cluster::new(1, 1, Plan::Quorum, 0).expect(rt, "a cluster");
    let public = SecretKey::new(FIVE, [1; 16], [2; 32]).public();
    let mut audit = Audit::new(alloc, &cluster, &[public; 4]).expect(rt, "memory");
    let one = abort(alloc, 0, one).expect(rt, "memory");
    let other = abort(alloc, 1, other).expect(rt, "memory");
    assert!(rt; audit.add(alloc, 1, &one) == Ok(Added::Taken));
    assert!(rt; audit.add(alloc, 2, &other) == Ok(Added::Taken));
    audit.accusations(alloc).expect(rt, "memory")
}

/// Of what the only replica is accused that signs two ABORTs in instance 1.
const TWO_ABORTS: Accusation = Accusation::Abort {
    replica: 0,
    instance: 1,
};

#[test]
fn a_whole_log_and_a_trimmed_one_accuse(rt: HostRuntime) {
    let alloc = rt.alloc();
    let trimmed = trimmed(alloc, 9).expect(&rt, "memory");
    assert!(rt; accused(&rt, alloc, &WHOLE, &trimmed).as_slice() == [TWO_ABORTS].as_slice());
    assert!(rt; accused(&rt, alloc, &trimmed, &trimmed).is_empty());
}

#[test]
fn two_digests_of_what_is_trimmed_accuse(rt: HostRuntime) {
    let alloc = rt.alloc();
    let nines = trimmed(alloc, 9).expect(&rt, "memory");
    let eights = trimmed(alloc, 8).expect(&rt, "memory");
    assert!(rt; accused(&rt, alloc, &nines, &eights).as_slice() == [TWO_ABORTS].as_slice());
}

/// The text of an audit of these messages, in a cluster of which all replicas have one key.
fn text_of(alloc: Global, one: &[u8], other: &[u8]) -> Result<String, AllocError> {
    let public = SecretKey::new(FIVE, [1; 16], [2; 32]).public();
    let key = hex::encode(alloc, public.as_slice())?;
    let one = hex::encode(alloc, one)?;
    let other = hex::encode(alloc, other)?;
    format!(in alloc;
        "audit 1\nf 1\nlms 5\npublic r0 {key}\npublic r1 {key}\npublic r2 {key}\npublic r3 {key}\nmessage {one}\nmessage {other}\nend\n"
    )
}

/// What shows it. The digests are those of the two contents, as another program made them.
const WHY: &[u8] =
    b"accuse r0 abort 1\nwhy 1 19c99b77df86c05a99ddcb8022761df326e222ea4c7e5128be4b418260ed985e\nlog r0 1 -\nwhy 2 42016bfb59e6cc0faf3d3b642da78a4adc9eac35db8a830e8b7379ebe69a3518\ntrimmed 3 0909090909090909090909090909090909090909090909090909090909090909\nlog r0 1 -\nmessages 2\nbad 0\nend\n";

#[test]
fn what_is_trimmed_is_told(rt: HostRuntime) {
    let alloc = rt.alloc();
    let trimmed = trimmed(alloc, 9).expect(&rt, "memory");
    let one = abort(alloc, 0, &WHOLE).expect(&rt, "memory");
    let other = abort(alloc, 1, &trimmed).expect(&rt, "memory");
    let text = text_of(alloc, &one, &other).expect(&rt, "memory");
    if text.len() >= 1 << 31 {
        panic!(rt; "a short text");
    }
    let audited = audit_text(alloc, text.as_bytes(), true)
        .ok()
        .expect(&rt, "an audit");
    assert!(rt; audited.accuses);
    assert!(rt; audited.report.as_slice() == WHY);
}
