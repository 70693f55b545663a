//! A replica signs, and another finds it right.

use ab_check::Checker;
use ab_keys::KeyRing;
use ab_mac::hash;
use ab_msg::{Content, Notary};
use ab_num::{Cluster, Height, Party, Plan, Scheme};
use ab_scheme::{SecretKey, verify_by};
use ab_sign::{Pen, SignKey, Signers, Verifier};
use ab_write::content_bytes;
use std::alloc::Global;
use std::process::Abort;

const SEED: [u8; 32] = [0; 32];

const FIVE: Scheme = Scheme::Lms(Height::Five);

/// The digest of the empty base.
const BASE: [u8; 32] = [
    0xad, 0xb6, 0x39, 0x7f, 0xd2, 0xc3, 0xce, 0x52, 0xa7, 0xaf, 0xeb, 0xde, 0xd9, 0xdd, 0x2d, 0x39,
    0x68, 0xce, 0x7d, 0x94, 0x52, 0xe0, 0x18, 0x59, 0xb3, 0x97, 0x5e, 0xc0, 0xfe, 0x60, 0x36, 0x71,
];

/// The digest of replica 0's first signature, over its PREPARE of the empty base in slot 0, as an
/// independent implementation made it.
const FIRST: [u8; 32] = [
    0x98, 0xad, 0x56, 0x6c, 0xf9, 0xd6, 0x41, 0x6d, 0x02, 0xe8, 0xea, 0xba, 0x92, 0x93, 0x14, 0xff,
    0xd7, 0x5e, 0x3f, 0xd9, 0xd1, 0xcd, 0x64, 0x15, 0xf5, 0x33, 0x23, 0x25, 0xb0, 0x5f, 0x78, 0x15,
];

fn prepare(replica: u8) -> Content {
    Content::Prepare {
        maker: Party::Replica(replica),
        instance: 1,
        view: 0,
        slot: 0,
        x: BASE,
    }
}

/// Replica 0 signs with its first leaf.
fn expect_first(rt: &impl Abort, alloc: Global, signers: &Signers, content: &Content) {
    let mut pen = Pen::new(signers, 0, 0);
    let Ok(sig) = pen.sign(alloc, content) else {
        panic!(rt; "no signature");
    };
    assert!(rt; hash(sig.as_slice()) == FIRST);
}

#[test]
fn signs_as_others_do(rt: HostRuntime) {
    let cluster = Cluster::new(1, 1, Plan::Backup, 0).expect(&rt, "a cluster");
    let signers = Signers::derive(rt.alloc(), &cluster, FIVE, &SEED).expect(&rt, "memory");
    expect_first(&rt, rt.alloc(), &signers, &prepare(0));
}

/// No leaf is left to sign with.
fn expect_spent(rt: &impl Abort, alloc: Global, pen: &mut Pen<'_>, content: &Content) {
    assert!(rt; (pen.used(), pen.left()) == (32, 0));
    assert!(rt; pen.sign(alloc, content).is_err());
}

/// The signature is replica 1's alone. Without a tag, none is right.
fn expect_right(
    rt: &impl Abort,
    alloc: Global,
    verifier: &mut Verifier<'_>,
    text: &[u8],
    sig: &[u8],
) {
    assert!(rt; verifier.sig(alloc, Party::Replica(1), text, sig));
    assert!(rt; !verifier.sig(alloc, Party::Replica(2), text, sig));
    assert!(rt; !verifier.sig(alloc, Party::Client(1), text, sig));
    assert!(rt; !verifier.tag(Party::Replica(1), text, None));
}

/// Replica 1 signs the content with its last leaf, and the signature is found right.
fn expect_last(rt: &impl Abort, alloc: Global, signers: &Signers, ring: &KeyRing, c: &Content) {
    let mut pen = Pen::new(signers, 1, 31);
    let Ok(sig) = pen.sign(alloc, c) else {
        panic!(rt; "no signature");
    };
    expect_spent(rt, alloc, &mut pen, c);
    let text = content_bytes(alloc, c).expect(rt, "memory");
    let mut verifier = Verifier::new(ring, signers);
    expect_right(rt, alloc, &mut verifier, &text, sig.as_slice());
}

#[test]
fn signed_and_checked(rt: HostRuntime) {
    let alloc = rt.alloc();
    let cluster = Cluster::new(1, 1, Plan::Backup, 0).expect(&rt, "a cluster");
    let ring = KeyRing::derive(alloc, &cluster, &SEED, Party::Client(0)).expect(&rt, "memory");
    let signers = Signers::derive(alloc, &cluster, FIVE, &SEED).expect(&rt, "memory");
    expect_last(&rt, alloc, &signers, &ring, &prepare(1));
}

/// The signature is that of the only key.
fn expect_only(rt: &impl Abort, alloc: Global, signers: &Signers, sig: &[u8]) {
    assert!(rt; signers.leaves(0) == 0);
    assert!(rt; signers.verifies(alloc, 0, b"text", sig));
    assert!(rt; signers.verifies(alloc, 0, b"text", sig));
    assert!(rt; !signers.verifies(alloc, 1, b"text", sig));
}

#[test]
fn public_keys_do_not_sign(rt: HostRuntime) {
    let alloc = rt.alloc();
    let secret = SecretKey::new(FIVE, [1; 16], SEED);
    let sig = secret.sign_at(alloc, 3, b"text").expect(&rt, "memory");
    let public = secret.public();
    assert!(rt; verify_by(public.as_slice(), b"text", &sig));
    let mut keys = Vec::new(alloc);
    keys.push(SignKey::Public(public)).expect(&rt, "memory");
    expect_only(&rt, alloc, &Signers::of(alloc, keys), &sig);
}
