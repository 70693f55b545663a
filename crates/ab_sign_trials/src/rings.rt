//! Tags under the keys of the seed of 32 zero bytes, as other implementations of SHA-256 and HMAC
//! make them.

use ab_keys::{KeyRing, exchanges, is_party};
use ab_num::{Cluster, Party, Plan};

const SEED: [u8; 32] = [0; 32];

const TEXT: &[u8] = b"put a 1";

/// The tag of the text from c0 to r1.
const C0_TO_R1: [u8; 32] = [
    0x8c, 0x8f, 0x01, 0xc3, 0x7c, 0x78, 0x1e, 0x10, 0xa4, 0xe0, 0xae, 0xd7, 0x77, 0xe0, 0x07, 0x53,
    0x2b, 0x92, 0xf9, 0x3b, 0x22, 0x7c, 0xaf, 0xdb, 0xda, 0xe0, 0xe1, 0x26, 0xe2, 0x26, 0xdd, 0x58,
];

/// The tag of the text from r1 to c0.
const R1_TO_C0: [u8; 32] = [
    0x48, 0x69, 0x66, 0x99, 0x2a, 0x65, 0x2a, 0xf1, 0x0b, 0x6e, 0x01, 0x3c, 0x99, 0x45, 0x71, 0xb0,
    0x3d, 0x34, 0x2c, 0x48, 0x30, 0x8a, 0x58, 0x7b, 0x79, 0x6a, 0xdd, 0x74, 0x47, 0x75, 0x44, 0xb4,
];

/// The tag of the text from r0 to r3.
const R0_TO_R3: [u8; 32] = [
    0x4f, 0xa4, 0x30, 0x4c, 0xe0, 0xfe, 0x66, 0x35, 0x2c, 0x95, 0x7a, 0xd3, 0x65, 0xed, 0x64, 0x7b,
    0x63, 0x53, 0x94, 0x35, 0x76, 0x37, 0x43, 0x14, 0xee, 0xc6, 0x6a, 0xa3, 0x0d, 0x81, 0x00, 0x7e,
];

/// Four replicas and two clients.
fn cluster() -> Option<Cluster> {
    Cluster::new(1, 2, Plan::Quorum, 0)
}

#[test]
fn parties_are_of_the_cluster(rt: HostRuntime) {
    let c = cluster().expect(&rt, "memory");
    assert!(rt; is_party(&c, Party::Replica(3)));
    assert!(rt; !is_party(&c, Party::Replica(4)));
    assert!(rt; is_party(&c, Party::Client(1)));
    assert!(rt; !is_party(&c, Party::Client(2)));
    assert!(rt; exchanges(Party::Client(1), Party::Replica(1)));
    assert!(rt; !exchanges(Party::Replica(1), Party::Replica(1)));
}

#[test]
fn client_and_replica(rt: HostRuntime) {
    let c = cluster().expect(&rt, "memory");
    let client = Party::Client(0);
    let replica = Party::Replica(1);
    if !is_party(&c, client) || !is_party(&c, replica) {
        panic!(rt; "both are parties");
    }
    let of_client = KeyRing::derive(rt.alloc(), &c, &SEED, client).expect(&rt, "memory");
    let of_replica = KeyRing::derive(rt.alloc(), &c, &SEED, replica).expect(&rt, "memory");
    assert!(rt; of_client.tag_for(replica, TEXT) == Some(C0_TO_R1));
    assert!(rt; of_replica.tag_for(client, TEXT) == Some(R1_TO_C0));
    assert!(rt; of_replica.checks(client, TEXT, &C0_TO_R1));
    assert!(rt; of_client.checks(replica, TEXT, &R1_TO_C0));
    assert!(rt; !of_client.checks(replica, TEXT, &C0_TO_R1));
    assert!(rt; !of_replica.checks(Party::Client(1), TEXT, &C0_TO_R1));
    assert!(rt; !of_replica.checks(client, b"put a 2", &C0_TO_R1));
    assert!(rt; of_client.me() == client);
    assert!(rt; *of_replica.cluster() == c);
}

#[test]
fn replicas_and_no_key(rt: HostRuntime) {
    let c = cluster().expect(&rt, "memory");
    let replica = Party::Replica(0);
    let client = Party::Client(0);
    if !is_party(&c, replica) || !is_party(&c, client) {
        panic!(rt; "both are parties");
    }
    let of_replica = KeyRing::derive(rt.alloc(), &c, &SEED, replica).expect(&rt, "memory");
    let of_client = KeyRing::derive(rt.alloc(), &c, &SEED, client).expect(&rt, "memory");
    assert!(rt; of_replica.tag_for(Party::Replica(3), TEXT) == Some(R0_TO_R3));
    assert!(rt; of_replica.tag_for(replica, TEXT) == None);
    assert!(rt; of_replica.tag_for(Party::Replica(4), TEXT) == None);
    assert!(rt; of_replica.tag_for(Party::Client(2), TEXT) == None);
    assert!(rt; !of_replica.checks(replica, TEXT, &R0_TO_R3));
    assert!(rt; of_client.tag_for(client, TEXT) == None);
    assert!(rt; of_client.tag_for(Party::Client(1), TEXT) == None);
    assert!(rt; !of_client.checks(Party::Client(1), TEXT, &C0_TO_R1));
}
