//! Messages along a chain, as bytes, with tags of zeros. Places in a chain are numbers: 0 is the client, p position p.

use ab_hist::Request;
use ab_num::Party;
use arrayvec::ArrayVec;

/// The maker of a tag and its receiver.
pub type Pair = (u8, u8);

/// The bytes of a message. What is beyond its room is left out.
pub type Bytes = ArrayVec<u8, 320>;

/// The command `put a 1`, as it stands in messages.
const COMMAND: [u8; 9] = [0, 7, 0x70, 0x75, 0x74, 0x20, 0x61, 0x20, 0x31];

/// No reply, as it stands in messages.
pub const NONE: &[u8] = &[0];

/// The reply `ok`.
pub const OK: &[u8] = &[1, 2, 0x6f, 0x6b];

/// The party at a place of the chain of instance 1.
pub fn party_at(place: u8) -> Party {
    match place.checked_sub(1) {
        Some(r) => Party::Replica(r),
        None => Party::Client(0),
    }
}

/// The request `put a 1` of stamp 1 of a client.
pub fn request(client: u16) -> Request {
    let mut command = ArrayVec::new();
    let _ = command.try_extend_from_slice(b"put a 1");
    Request {
        client,
        stamp: 1,
        command,
    }
}

fn put(bytes: &mut Bytes, more: &[u8]) {
    let _ = bytes.try_extend_from_slice(more);
}

fn put_count(bytes: &mut Bytes, tags: &[Pair]) {
    let mut count: u8 = 0;
    for _ in tags {
        count = count.saturating_add(1);
    }
    put(bytes, &[count]);
}

/// Adds the name of the party at a place.
fn put_party(bytes: &mut Bytes, place: u8) {
    match place.checked_sub(1) {
        Some(r) => put(bytes, &[0, 0, r]),
        None => put(bytes, &[1, 0, 0]),
    }
}

/// Client 0's request of instance 1, with these tags.
pub fn request_bytes(tags: &[Pair]) -> Bytes {
    let mut bytes = ArrayVec::new();
    put(
        &mut bytes,
        &[1, 1, 1, 0, 0, 0, 0, 0, 1, 0, 0, 0, 0, 0, 0, 0, 0, 0, 1],
    );
    put(&mut bytes, &COMMAND);
    put_count(&mut bytes, tags);
    for tag in tags {
        put(&mut bytes, &[tag.1.saturating_sub(1)]);
        put(&mut bytes, &[0; 32]);
    }
    bytes
}

/// A CHAIN of instance `i` for a client's request, which has number `n` and makes the digest `d`.
pub fn chain_bytes(i: u8, client: u8, n: u8, d: &[u8; 32], reply: &[u8], tags: &[Pair]) -> Bytes {
    let mut bytes = ArrayVec::new();
    put(
        &mut bytes,
        &[4, 0, 0, 0, i, 0, client, 0, 0, 0, 0, 0, 0, 0, 1],
    );
    put(&mut bytes, &COMMAND);
    put(&mut bytes, &[0, n]);
    put(&mut bytes, d);
    put(&mut bytes, reply);
    put_count(&mut bytes, tags);
    for tag in tags {
        put_party(&mut bytes, tag.0);
        put_party(&mut bytes, tag.1);
        put(&mut bytes, &[0; 32]);
    }
    bytes
}
