//! A signature is computed once.

use ab_lms::Signer;
use ab_num::Height;
use ab_scheme::PublicKey;
use ab_sign::Known;
use std::alloc::Global;
use std::process::Abort;

/// Learns a signature of `content`, which isn't known before.
fn expect_learned(
    rt: &impl Abort,
    alloc: Global,
    known: &mut Known,
    public: &PublicKey,
    sig: &[u8],
) {
    assert!(rt; !known.has(public, b"content", sig));
    assert!(rt; known.check(alloc, public, b"content", sig));
    assert!(rt; known.has(public, b"content", sig));
    assert!(rt; known.verifies(public, b"content", sig));
    assert!(rt; !known.has(public, b"contents", sig));
}

#[test]
fn what_is_learned_is_known(rt: HostRuntime) {
    let alloc = rt.alloc();
    let mut signer = Signer::new(alloc, Height::Five, [7; 16], [9; 32]).expect(&rt, "memory");
    let public = PublicKey::one_level(signer.public());
    let signed = signer.sign(alloc, b"content");
    drop(signer);
    let sig = signed.expect(&rt, "memory");
    let mut known = Known::new(alloc);
    expect_learned(&rt, alloc, &mut known, &public, &sig);
}
