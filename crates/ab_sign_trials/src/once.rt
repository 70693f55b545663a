//! One signature, as another implementation made it.

use ab_lms::{candidate, key_once, sign_once};
use ab_mac::hash;
use std::process::Abort;

const ID: [u8; 16] = [
    0x38, 0xe7, 0xfc, 0xc3, 0xd6, 0xfd, 0xee, 0x3c, 0xf5, 0xf5, 0xdf, 0xd2, 0xe3, 0x65, 0xe3, 0x23,
];

const SEED: [u8; 32] = [
    0x13, 0x73, 0x03, 0xd2, 0xab, 0x0e, 0xa5, 0x83, 0xbb, 0x09, 0x50, 0x98, 0xa4, 0x2b, 0x1e, 0xa7,
    0xfe, 0x79, 0x47, 0xf1, 0xd3, 0xa5, 0x9c, 0x9c, 0x2c, 0xc6, 0x46, 0xae, 0x36, 0x5b, 0x01, 0x5a,
];

// The digest of the signature that an independent implementation made with these.
const SIGNATURE_DIGEST: [u8; 32] = [
    0xb4, 0x4b, 0xbf, 0xaa, 0xb2, 0xfb, 0x98, 0x3a, 0x16, 0x99, 0x7c, 0x27, 0x8d, 0xa6, 0xd6, 0xa1,
    0xef, 0x44, 0xe3, 0xdf, 0x19, 0x95, 0x97, 0xdf, 0xa6, 0x07, 0xa8, 0x47, 0x1e, 0x70, 0x11, 0x06,
];

const MSG: &[u8] = b"The powers not delegated";

/// Leaf 31 made the signature, and no other.
fn expect_leaf(rt: &impl Abort, sig: &[u8]) {
    let key = Some(key_once(&ID, 31, &SEED));
    assert!(rt; hash(sig) == SIGNATURE_DIGEST);
    assert!(rt; candidate(&ID, 31, MSG, sig) == key);
    assert!(rt; candidate(&ID, 30, MSG, sig) != key);
}

fn leads_nowhere(sig: &[u8]) -> bool {
    candidate(&ID, 31, MSG, sig).is_none()
}

#[test]
fn signs_as_others_do(rt: HostRuntime) {
    let mut sig = sign_once(rt.alloc(), &ID, 31, &SEED, MSG).expect(&rt, "memory");
    expect_leaf(&rt, &sig);
    let one_less = leads_nowhere(&sig[1..]);
    let pushed = sig.push(0).is_ok();
    let one_more = leads_nowhere(&sig);
    sig.pop();
    sig[3] = 4;
    let other_type = leads_nowhere(&sig);
    drop(sig);
    assert!(rt; one_less);
    assert!(rt; pushed && one_more);
    assert!(rt; other_type);
}
