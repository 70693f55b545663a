//! Numbers of packets, statements that are looked up, and whose claims are forged.

use ab_check::Checker;
use ab_keys::is_party;
use ab_msg::{Packet, Tag};
use ab_num::{Cluster, Party, Plan};
use ab_open::{Checked, open};
use ab_premise::{Statements, Watch};
use ab_world::Packets;
use std::alloc::Global;
use std::test::Fail;

fn first_byte(packets: &Packets, number: u64) -> Option<u8> {
    packets.get(number)?.bytes().first().copied()
}

#[test]
fn packets_are_numbered_from_one(rt: HostRuntime) -> Result<(), Fail> {
    let alloc = rt.alloc();
    let mut packets = Packets::new(alloc);
    assert!(rt; packets.len() == 0);
    assert!(rt; packets.get(0).is_none());
    assert!(rt; packets.get(1).is_none());
    let mut two = Vec::new(alloc);
    two.push(Packet::new(alloc, Party::Replica(3), b"a")?)?;
    two.push(Packet::new(alloc, Party::Client(7), b"")?)?;
    packets.send(alloc, two)?;
    packets.send(alloc, Vec::new(alloc))?;
    let mut one = Vec::new(alloc);
    one.push(Packet::new(alloc, Party::Client(0), b"bcd")?)?;
    packets.send(alloc, one)?;
    assert!(rt; packets.len() == 3);
    assert!(rt; packets.get(0).is_none());
    assert!(rt; first_byte(&packets, 1) == Some(b'a'));
    assert!(rt; first_byte(&packets, 2) == None);
    assert!(rt; first_byte(&packets, 3) == Some(b'b'));
    assert!(rt; packets.get(4).is_none());
    assert!(rt; packets.get(u64::MAX).is_none());
    let first = packets.get(1).ok_or("no packet")?;
    assert!(rt; first.to() == Party::Replica(3));
    assert!(rt; first.bytes() == b"a".as_slice());
    Ok(())
}

#[test]
fn statements_are_kept_once(rt: HostRuntime) -> Result<(), Fail> {
    let alloc = rt.alloc();
    let mut statements = Statements::new(alloc);
    assert!(rt; !statements.contains(b""));
    for text in [b"ab".as_slice(), b"a".as_slice(), b"ab".as_slice()] {
        let mut own = Vec::new(alloc);
        own.extend_from_slice(text)?;
        statements.add(alloc, own)?;
        assert!(rt; statements.contains(text));
    }
    assert!(rt; !statements.contains(b"b"));
    assert!(rt; !statements.contains(b"abc"));
    assert!(rt; !statements.contains(b""));
    Ok(())
}

#[test]
fn many_statements_are_quick(rt: HostRuntime) -> Result<(), Fail> {
    let alloc = rt.alloc();
    let mut statements = Statements::new(alloc);
    for n in 0..100_000u32 {
        statements.add(alloc, Vec::from_array(alloc, n.to_be_bytes())?)?;
    }
    let mut all_there = true;
    for n in 0..100_000u32 {
        all_there &= statements.contains(n.to_be_bytes().as_slice());
    }
    assert!(rt; all_there);
    let mut none_more = true;
    for n in 100_000..200_000u32 {
        none_more &= !statements.contains(n.to_be_bytes().as_slice());
    }
    assert!(rt; none_more);
    Ok(())
}

/// A checker that finds all right.
#[derive(Clone, Copy)]
struct Trusting;

impl Checker for Trusting {
    ghost use Rattle.std.specs.Prelude.{true};

    ghost judge = { λ c maker text token. true };

    fn tag(&self, _maker: Party, _text: &[u8], _tag: Option<&Tag>) -> bool {
        true
    }

    fn sig(&mut self, _alloc: Global, _maker: Party, _text: &[u8], _sig: &[u8]) -> bool {
        true
    }
}

/// A CHAIN of client 0's request 1 in instance 1, without reply and tags.
const CHAIN: [u8; 54] = [
    4, 0, 0, 0, 1, 0, 0, 0, 0, 0, 0, 0, 0, 0, 1, 0, 1, 97, 0, 1, 0, 0, 0, 0, 0, 0, 0, 0, 0, 0, 0,
    0, 0, 0, 0, 0, 0, 0, 0, 0, 0, 0, 0, 0, 0, 0, 0, 0, 0, 0, 0, 0, 0, 0,
];

/// Whose claim in a message that a party opened is forged.
fn forged(
    watch: &Watch,
    k: &Cluster,
    faulty: &[(Party, u8)],
    checked: &Checked<'_>,
) -> Option<Party> {
    if is_party(k, checked.me()) {
        watch.forged(k, faulty, checked)
    } else {
        None
    }
}

#[test]
fn a_claim_that_nobody_made_is_forged(rt: HostRuntime) {
    let alloc = rt.alloc();
    let k = Cluster::new(1, 1, Plan::Chain, 0).expect(&rt, "a cluster");
    let me = Party::Replica(1);
    if !is_party(&k, me) {
        panic!(rt; "a party");
    }
    let checked = open(alloc, &k, k.every, me, &mut Trusting, &CHAIN)
        .ok()
        .expect(&rt, "it opens");
    let watch = Watch::new(alloc).expect(&rt, "memory");
    let client = (Party::Client(0), 1);
    let replica = (Party::Replica(0), 1);
    assert!(rt; forged(&watch, &k, &[], &checked) == Some(Party::Client(0)));
    assert!(rt; forged(&watch, &k, &[client], &checked) == Some(Party::Replica(0)));
    assert!(rt; forged(&watch, &k, &[replica, client], &checked) == None);
}
