//! Which tags each position of a chain passes on, at both numbers of faulty replicas; and a message whose history isn't
//! that of the position. A position's own tags are added as its message is sealed.

ghost use Rattle.std.specs.Prelude.{◌<◌, ◌+◌, ◌*◌, IsTrue};
ghost use Rattle.ab_num.specs.Places.{kind_of};

use crate::messages::{Bytes, NONE, OK, Pair, chain_bytes, party_at, request, request_bytes};
use ab_abs::{Entry, Protocol};
use ab_chain::Chain;
use ab_hist::History;
use ab_kv::Kv;
use ab_msg::{Msg, Mute, Out, Outs, TagBetween};
use ab_num::{Cluster, OutOfMemory, Plan};
use ab_open::read;
use ab_svc::Service;
use std::alloc::Global;

/// What comes to each position where one replica may be faulty, and what comes to the client.
const OF_ONE: [&[Pair]; 5] = [
    &[(0, 1), (0, 2)],
    &[(0, 2), (1, 2), (1, 3)],
    &[(1, 3), (2, 3), (2, 4)],
    &[(2, 4), (3, 4), (3, 0)],
    &[(3, 0), (4, 0)],
];

/// The same where two may be.
const OF_TWO: [&[Pair]; 8] = [
    &[(0, 1), (0, 2), (0, 3)],
    &[(0, 2), (0, 3), (1, 2), (1, 3), (1, 4)],
    &[(0, 3), (1, 3), (1, 4), (2, 3), (2, 4), (2, 5)],
    &[(1, 4), (2, 4), (2, 5), (3, 4), (3, 5), (3, 6)],
    &[(2, 5), (3, 5), (3, 6), (4, 5), (4, 6), (4, 7)],
    &[(3, 6), (4, 6), (4, 7), (5, 6), (5, 7), (5, 0)],
    &[(4, 7), (5, 7), (5, 0), (6, 7), (6, 0)],
    &[(5, 0), (6, 0), (7, 0)],
];

fn is_between(tag: &TagBetween, pair: &Pair) -> bool {
    tag.by == party_at(pair.0) && tag.to == party_at(pair.1)
}

/// Whether these are those of the pairs that aren't a position's own, in their order.
fn are_passed(tags: &[TagBetween], position: u8, pairs: &[Pair]) -> bool {
    let mut at = 0;
    for pair in pairs {
        if pair.0 != position {
            match tags.get(at) {
                Some(tag) if is_between(tag, pair) => at += 1,
                _ => return false,
            }
        }
    }
    at == tags.len()
}

/// Whether this is a CHAIN of a position to a place with such tags.
fn passes_tags(out: &Out, position: u8, to: u8, pairs: &[Pair]) -> bool {
    match &out.msg {
        Msg::Chain { tags, .. } => {
            out.to == party_at(to) && are_passed(tags.as_slice(), position, pairs)
        }
        _ => false,
    }
}

/// Whether a position sends one message, to a place, with such tags.
fn passes_on(outs: &Option<Outs>, position: u8, to: u8, pairs: &[Pair]) -> bool {
    match outs {
        Some(outs) => match outs.as_slice() {
            [out] => passes_tags(out, position, to, pairs),
            _ => false,
        },
        None => false,
    }
}

/// What a replica sends on a message, None where it takes none.
fn sent<S: Service, P: Protocol<S>>(alloc: Global, replica: &mut P, bytes: &[u8]) -> Option<Outs> {
    let Ok(m) = read(bytes) else {
        return None;
    };
    match replica.on(alloc, m, &mut Mute) {
        Ok(outs) => Some(outs),
        Err(_) => None,
    }
}

/// What a replica sends on a message as the first of instance 1.
fn sent_first<S: Service, P: Protocol<S>>(
    alloc: Global,
    c: &Cluster,
    me: u8,
    bytes: &[u8],
) -> Result<Option<Outs>, OutOfMemory>
    requires served { IsTrue (P.serves (kind_of c.now.plan 1)) }
    requires replica { me < 3 * c.now.f + 1 }
{
    let entry = Entry {
        base: History::new(alloc),
        trimmed: 0,
        cert: None,
    };
    let mut replica: P = P::start(alloc, c, 1, me, &entry)?;
    Ok(sent::<S, P>(alloc, &mut replica, bytes))
}

/// The digest of the history of client 0's request.
fn digest(alloc: Global) -> Result<[u8; 32], OutOfMemory> {
    let mut log = History::new(alloc);
    let _ = log.push(alloc, request(0));
    Ok(log.digest_at(log.len()))
}

/// The place behind a position.
fn behind(position: u8, last: u8) -> u8 {
    if position < last { position + 1 } else { 0 }
}

/// What comes to a position with these tags, where those above `unreplied` get a reply.
fn message_to(position: u8, unreplied: u8, d: &[u8; 32], tags: &[Pair]) -> Bytes {
    if position == 1 {
        request_bytes(tags)
    } else if position > unreplied {
        chain_bytes(1, 0, 1, d, OK, tags)
    } else {
        chain_bytes(1, 0, 1, d, NONE, tags)
    }
}

/// Whether each position passes on what the table says, where what comes to it is what the one before passes on with its
/// own tags.
fn passes_all<S: Service, P: Protocol<S>>(
    alloc: Global,
    c: &Cluster,
    unreplied: u8,
    table: &[&[Pair]],
) -> Result<bool, OutOfMemory>
    requires served { IsTrue (P.serves (kind_of c.now.plan 1)) }
{
    let d = digest(alloc)?;
    let last = c.replicas();
    for me in 0..last {
        let position = me + 1;
        let at = usize::from(me);
        let (Some(came), Some(next)) = (table.get(at), table.get(at + 1)) else {
            return Ok(false);
        };
        let bytes = message_to(position, unreplied, &d, came);
        let outs = sent_first::<S, P>(alloc, c, me, bytes.as_slice())?;
        if !passes_on(&outs, position, behind(position, last), next) {
            return Ok(false);
        }
    }
    Ok(table.len() == usize::from(last) + 1)
}

#[test]
fn one_may_be_faulty(rt: HostRuntime) {
    let kept = match Cluster::new(1, 4, Plan::Chain, 0) {
        Some(c) => passes_all::<Kv, Chain<Kv>>(rt.alloc(), &c, 3, &OF_ONE),
        None => Ok(false),
    };
    assert!(rt; kept == Ok(true));
}

#[test]
fn two_may_be_faulty(rt: HostRuntime) {
    let kept = match Cluster::new(2, 4, Plan::Chain, 0) {
        Some(c) => passes_all::<Kv, Chain<Kv>>(rt.alloc(), &c, 5, &OF_TWO),
        None => Ok(false),
    };
    assert!(rt; kept == Ok(true));
}

/// The history of these clients' requests.
fn history(alloc: Global, clients: &[u16]) -> History {
    let mut made = History::new(alloc);
    for client in clients {
        let _ = made.push(alloc, request(*client));
    }
    made
}

/// Whether replica 2, at position 2 of instance 2, which entered with client 1's request, takes nothing of a CHAIN for
/// client 2's request behind client 0's.
fn refuses<S: Service, P: Protocol<S>>(alloc: Global, c: &Cluster) -> Result<bool, OutOfMemory>
    requires served { IsTrue (P.serves (kind_of c.now.plan 2)) }
    requires replica { 2 < 3 * c.now.f + 1 }
{
    let other = history(alloc, [0, 2].as_slice());
    let d = other.digest_at(other.len());
    let entry = Entry {
        base: history(alloc, [1].as_slice()),
        trimmed: 0,
        cert: None,
    };
    let mut replica = P::start(alloc, c, 2, 2, &entry)?;
    let bytes = chain_bytes(2, 2, 2, &d, NONE, &[(0, 2), (1, 2), (1, 3)]);
    let silent = match sent::<S, P>(alloc, &mut replica, bytes.as_slice()) {
        Some(outs) => outs.len() == 0,
        None => false,
    };
    Ok(silent && other.len() == 2 && replica.log().len() == 1)
}

#[test]
fn another_history_is_not_logged(rt: HostRuntime) {
    let kept = match Cluster::new(1, 4, Plan::Chain, 0) {
        Some(c) => refuses::<Kv, Chain<Kv>>(rt.alloc(), &c),
        None => Ok(false),
    };
    assert!(rt; kept == Ok(true));
}
