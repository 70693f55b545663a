//! Two-level keys and signatures that others made.

ghost use Rattle.std.specs.Prelude.{◌≤◌};

use ab_hss::{HssSigner, hss_verify};
use ab_lms::SignFault;
use ab_mac::hash;
use std::alloc::Global;
use std::process::Abort;

pub(crate) const ID: [u8; 16] = [
    0xe9, 0x3c, 0x59, 0x01, 0xf2, 0x93, 0x77, 0x3d, 0x1f, 0x97, 0x94, 0xd0, 0x14, 0x5b, 0xf4, 0x5c,
];

pub(crate) const SEED: [u8; 32] = [
    0x91, 0xc9, 0xab, 0x08, 0xd3, 0x19, 0xe5, 0x72, 0xd8, 0xfc, 0x14, 0xe3, 0x0b, 0xf9, 0xa1, 0x83,
    0x14, 0x9c, 0x2b, 0x3a, 0x47, 0x74, 0x9b, 0xd2, 0x05, 0x1b, 0x23, 0x87, 0xee, 0x85, 0x80, 0x47,
];

/// The public key and, below, the SHA-256 digests of signatures of one message with this key, as an independent
/// implementation of one-level signatures made them.
pub(crate) const PUBLIC: [u8; 60] = [
    0x00, 0x00, 0x00, 0x02, 0x00, 0x00, 0x00, 0x06, 0x00, 0x00, 0x00, 0x03, 0xe9, 0x3c, 0x59, 0x01,
    0xf2, 0x93, 0x77, 0x3d, 0x1f, 0x97, 0x94, 0xd0, 0x14, 0x5b, 0xf4, 0x5c, 0x42, 0x74, 0xc4, 0x83,
    0x91, 0xbc, 0x29, 0xc6, 0xf6, 0x02, 0xb4, 0xd5, 0x1c, 0x57, 0xa0, 0x4c, 0x7d, 0xd7, 0xe3, 0xec,
    0xe4, 0x53, 0x40, 0xfe, 0x4c, 0x86, 0x53, 0x71, 0xe1, 0x40, 0x38, 0xfd,
];

pub(crate) const FIRST: [u8; 32] = [
    0x48, 0x09, 0x00, 0x63, 0xc1, 0xf0, 0xde, 0x53, 0x55, 0x5f, 0x59, 0xf8, 0xab, 0x7b, 0x4d, 0x98,
    0x1f, 0x8b, 0x37, 0x7d, 0xf8, 0xa3, 0x98, 0xa9, 0x11, 0xdd, 0x4c, 0xba, 0x17, 0xcf, 0x83, 0x9e,
];

pub(crate) const LAST_OF_FIRST_TREE: [u8; 32] = [
    0xbd, 0x43, 0x16, 0x64, 0x6c, 0x12, 0xd2, 0x74, 0x90, 0x79, 0xb7, 0x69, 0xcc, 0x14, 0xf1, 0xcb,
    0xe9, 0xfb, 0xdc, 0x7c, 0x84, 0x34, 0x21, 0x5a, 0xae, 0x07, 0xce, 0x1c, 0x21, 0xe6, 0x9b, 0x51,
];

pub(crate) const FIRST_OF_SECOND_TREE: [u8; 32] = [
    0xd6, 0x38, 0x5d, 0x40, 0x0f, 0x9e, 0xf2, 0x91, 0x63, 0xb4, 0x0e, 0xc3, 0xcb, 0xf1, 0x5d, 0xf7,
    0xd2, 0xd2, 0x69, 0x8b, 0x9b, 0x84, 0x09, 0x2e, 0x94, 0xdc, 0x26, 0xbf, 0xed, 0x1f, 0xb1, 0x0c,
];

pub(crate) const LAST: [u8; 32] = [
    0x69, 0x62, 0x01, 0x93, 0xee, 0xbe, 0x61, 0x2b, 0x93, 0x39, 0xef, 0xda, 0x80, 0x7b, 0x5e, 0xb5,
    0xe6, 0xab, 0x58, 0x80, 0x83, 0x50, 0x35, 0x03, 0xa0, 0x75, 0xbc, 0x44, 0xfc, 0x8c, 0x37, 0x27,
];

/// The message.
pub(crate) const MESSAGE: &[u8] = b"abort";

/// The signer after so many signatures.
fn resumed(rt: &impl Abort, alloc: Global, used: u64) -> HssSigner
    requires { used ≤ 1048576 }
{
    let signer = HssSigner::resume(alloc, ID, SEED, used).expect(rt, "memory");
    assert!(rt; signer.public() == PUBLIC);
    assert!(rt; signer.used() == used);
    signer
}

/// The next signature is this one.
fn signed(rt: &impl Abort, alloc: Global, signer: &mut HssSigner, digest: &[u8; 32]) -> Vec<u8> {
    let sig = signer.sign(alloc, MESSAGE).expect(rt, "memory");
    assert!(rt; hash(&sig) == *digest);
    assert!(rt; hss_verify(&PUBLIC, MESSAGE, &sig));
    sig
}

#[test]
fn first_signature(rt: HostRuntime) {
    let alloc = rt.alloc();
    let mut signer = resumed(&rt, alloc, 0);
    signed(&rt, alloc, &mut signer, &FIRST);
    assert!(rt; signer.left() == 1_048_575);
}

/// The signature verifies, and not with a bit turned in this byte.
fn expect_only(rt: &impl Abort, sig: &mut Vec<u8>, at: usize) {
    if let Some(byte) = sig.get_mut(at) {
        *byte ^= 1;
    }
    assert!(rt; !hss_verify(&PUBLIC, MESSAGE, sig));
    if let Some(byte) = sig.get_mut(at) {
        *byte ^= 1;
    }
    assert!(rt; hss_verify(&PUBLIC, MESSAGE, sig));
}

/// Each part of a signature counts: how many keys it signs, the top's leaf, its random bytes and its path; the bottom key's type,
/// name and root; the bottom's leaf and the last node of its path; and that no byte is left.
fn expect_only_whole(rt: &impl Abort, sig: &mut Vec<u8>) {
    for at in [3, 7, 20, 2511, 2515, 2522, 2542, 2571, 5075] {
        expect_only(rt, sig, at);
    }
    assert!(rt; !hss_verify(&PUBLIC, b"abort ", sig));
    assert!(rt; sig.push(0).is_ok());
    assert!(rt; !hss_verify(&PUBLIC, MESSAGE, sig));
    assert!(rt; sig.pop().is_some() && hss_verify(&PUBLIC, MESSAGE, sig));
}

/// A key of one level verifies no signature in two levels, nor does a key of three.
fn expect_two_levels(rt: &impl Abort, sig: &[u8]) {
    let mut public = PUBLIC;
    public[3] = 3;
    assert!(rt; !hss_verify(&public, MESSAGE, sig));
    assert!(rt; !hss_verify(&PUBLIC[4..], MESSAGE, sig));
}

/// The last signature of a bottom tree, and the first of the next, have keys of their own.
#[test]
fn from_tree_to_tree(rt: HostRuntime) {
    let alloc = rt.alloc();
    let mut signer = resumed(&rt, alloc, 1023);
    let mut sig = signed(&rt, alloc, &mut signer, &LAST_OF_FIRST_TREE);
    let next = signed(&rt, alloc, &mut signer, &FIRST_OF_SECOND_TREE);
    assert!(rt; signer.used() == 1025);
    assert!(rt; sig.get(2512..2568) != next.get(2512..2568));
    expect_only_whole(&rt, &mut sig);
    expect_two_levels(&rt, &sig);
}

#[test]
fn last_signature(rt: HostRuntime) {
    let alloc = rt.alloc();
    let mut signer = resumed(&rt, alloc, 1_048_575);
    signed(&rt, alloc, &mut signer, &LAST);
    assert!(rt; matches!(signer.sign(alloc, MESSAGE), Err(SignFault::Spent)));
    assert!(rt; (signer.used(), signer.left()) == (1_048_576, 0));
}
