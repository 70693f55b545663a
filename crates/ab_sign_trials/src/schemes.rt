//! Replicas sign in two levels, as others do.

ghost use Rattle.std.specs.Prelude.{◌<◌};
ghost use Rattle.ab_scheme.specs.Schemes.{signatures_in};

use crate::two_levels::{
    FIRST, FIRST_OF_SECOND_TREE, ID, LAST, LAST_OF_FIRST_TREE, MESSAGE, PUBLIC, SEED,
};
use ab_mac::hash;
use ab_msg::{Content, Notary};
use ab_num::{Cluster, Height, Party, Plan, Scheme};
use ab_scheme::{PublicKey, SecretKey, signatures, verify_by};
use ab_sign::{Known, Pen, SignKey, Signers};
use std::alloc::Global;
use std::process::Abort;

/// The signature of this number is this one.
fn expect_signed(rt: &impl Abort, alloc: Global, secret: &SecretKey, q: u64, digest: &[u8; 32])
    requires { q < signatures_in secret.now.scheme }
{
    let sig = secret.sign_at(alloc, q, MESSAGE).expect(rt, "memory");
    assert!(rt; hash(&sig) == *digest);
    assert!(rt; verify_by(&PUBLIC, MESSAGE, &sig));
    assert!(rt; !verify_by(&PUBLIC[4..], MESSAGE, &sig));
}

/// From one bottom tree to the next, over several, and back.
#[test]
fn numbers_in_any_order(rt: HostRuntime) {
    let alloc = rt.alloc();
    let secret = SecretKey::new(Scheme::Hss, ID, SEED);
    expect_signed(&rt, alloc, &secret, 1023, &LAST_OF_FIRST_TREE);
    expect_signed(&rt, alloc, &secret, 1024, &FIRST_OF_SECOND_TREE);
    expect_signed(&rt, alloc, &secret, 1_048_575, &LAST);
    expect_signed(&rt, alloc, &secret, 0, &FIRST);
    assert!(rt; secret.public().as_slice() == PUBLIC.as_slice());
}

#[test]
fn public_keys_are_read(rt: HostRuntime) {
    let five = Scheme::Lms(Height::Five);
    let ten = Scheme::Lms(Height::Ten);
    let two = PublicKey::of(Scheme::Hss, &ID, &SEED);
    let one = PublicKey::of(ten, &ID, &SEED);
    assert!(rt; two.as_slice() == PUBLIC.as_slice());
    assert!(rt; one.as_slice() == &PUBLIC[4..]);
    assert!(rt; !one.is_equal(&two));
    let read = PublicKey::read(Scheme::Hss, &PUBLIC).expect(&rt, "a key");
    assert!(rt; read.is_equal(&two));
    assert!(rt; PublicKey::read(ten, &PUBLIC).is_none());
    assert!(rt; PublicKey::read(five, &PUBLIC[4..]).is_some());
    assert!(rt; PublicKey::read(Scheme::Hss, &PUBLIC[4..]).is_none());
    assert!(rt;
        (signatures(five), signatures(ten), signatures(Scheme::Hss)) == (32, 1024, 1_048_576)
    );
}

/// The top's signature of the bottom's key, which stands in a signature, is known.
fn knows_bottom_key(rt: &impl Abort, known: &Known, sig: &[u8]) -> bool {
    let top = PublicKey::read(Scheme::Lms(Height::Ten), &PUBLIC[4..]).expect(rt, "a key");
    match (sig.get(2512..2568), sig.get(4..2512)) {
        (Some(key), Some(signed)) => known.has(&top, key, signed),
        _ => false,
    }
}

/// Two signatures by one bottom key are known beside each other, and so is its own.
fn expect_known(rt: &impl Abort, alloc: Global, public: &PublicKey, one: &[u8], two: &[u8]) {
    let mut known = Known::new(alloc);
    assert!(rt; !known.check(alloc, public, b"two", one));
    assert!(rt; !known.has(public, b"one", one));
    assert!(rt; known.check(alloc, public, b"one", one));
    assert!(rt; known.check(alloc, public, b"two", two));
    assert!(rt; known.has(public, b"one", one));
    assert!(rt; known.has(public, b"two", two));
    assert!(rt; knows_bottom_key(rt, &known, two));
}

#[test]
fn signatures_of_one_bottom_key_are_known(rt: HostRuntime) {
    let alloc = rt.alloc();
    let secret = SecretKey::new(Scheme::Hss, ID, SEED);
    let one = secret.sign_at(alloc, 0, b"one").expect(&rt, "memory");
    let two = secret.sign_at(alloc, 1, b"two").expect(&rt, "memory");
    expect_known(&rt, alloc, &secret.public(), &one, &two);
}

/// Replica 0 signs with its last number, and none is left.
fn expect_last(rt: &impl Abort, alloc: Global, signers: &Signers) {
    let content = Content::Prepare {
        maker: Party::Replica(0),
        instance: 1,
        view: 0,
        slot: 0,
        x: [0; 32],
    };
    let mut pen = Pen::new(signers, 0, 1_048_575);
    assert!(rt; pen.sign(alloc, &content).is_ok());
    assert!(rt; (pen.used(), pen.left()) == (1_048_576, 0));
    assert!(rt; pen.sign(alloc, &content).is_err());
}

#[test]
fn replicas_sign_in_two_levels(rt: HostRuntime) {
    let alloc = rt.alloc();
    let cluster = Cluster::new(1, 1, Plan::Backup, 0).expect(&rt, "a cluster");
    let derived = Signers::derive(alloc, &cluster, Scheme::Hss, &SEED).expect(&rt, "memory");
    expect_last(&rt, alloc, &derived);
    let secret = SecretKey::new(Scheme::Hss, ID, SEED);
    let sig = secret.sign_at(alloc, 5, b"text").expect(&rt, "memory");
    let mut keys = Vec::new(alloc);
    keys.push(SignKey::Public(secret.public()))
        .expect(&rt, "memory");
    let public = Signers::of(alloc, keys);
    assert!(rt; public.leaves(0) == 0);
    assert!(rt; public.verifies(alloc, 0, b"text", &sig));
    assert!(rt; !public.verifies(alloc, 0, b"texts", &sig));
}
