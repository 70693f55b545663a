//! A client by itself: what it refuses, what it sends, when it commits, and how it switches. The bytes
//! of answers and ABORTs are of another implementation.

use ab_abs::{Marks, Seen};
use ab_client::{Client, InvokeFault, clients_act_by_their_cluster};
use ab_num::{Cluster, OutOfMemory, Plan};
use ab_open::read;
use std::alloc::Global;

/// Replica 3's answer to request 1 of client 0 in instance 1. Its number stands in byte 4, the lower
/// byte of the place in byte 20.
const ANSWER: [u8; 88] = [
    3, 3, 0, 0, 3, 0, 0, 0, 1, 0, 0, 0, 0, 0, 0, 0, 0, 0, 1, 0, 1, 0x68, 0x8e, 0x05, 0xe3, 0x25,
    0x0f, 0x60, 0x3f, 0xe4, 0x24, 0x68, 0xfe, 0x71, 0x56, 0x05, 0x25, 0x86, 0x8d, 0x0b, 0x25, 0x4b,
    0xa6, 0x46, 0x3c, 0x94, 0x98, 0x5b, 0x87, 0xd2, 0x90, 0x9a, 0xc0, 2, 0x6f, 0x6b, 0, 0, 0, 0, 0,
    0, 0, 0, 0, 0, 0, 0, 0, 0, 0, 0, 0, 0, 0, 0, 0, 0, 0, 0, 0, 0, 0, 0, 0, 0, 0, 0,
];

/// That request at the end of its chain, without tags.
const CHAIN: [u8; 63] = [
    4, 0, 0, 0, 1, 0, 0, 0, 0, 0, 0, 0, 0, 0, 1, 0, 7, 0x70, 0x75, 0x74, 0x20, 0x61, 0x20, 0x31, 0,
    1, 0x68, 0x8e, 0x05, 0xe3, 0x25, 0x0f, 0x60, 0x3f, 0xe4, 0x24, 0x68, 0xfe, 0x71, 0x56, 0x05,
    0x25, 0x86, 0x8d, 0x0b, 0x25, 0x4b, 0xa6, 0x46, 0x3c, 0x94, 0x98, 0x5b, 0x87, 0xd2, 0x90, 0x9a,
    0xc0, 1, 2, 0x6f, 0x6b, 0,
];

/// Replica 0's ABORT of instance 1 with that request, without the bytes of its signature. Its number
/// stands in byte 3.
const ABORT: [u8; 31] = [
    6, 0, 0, 0, 0, 0, 0, 1, 0, 1, 0, 0, 0, 0, 0, 0, 0, 0, 0, 1, 0, 7, 0x70, 0x75, 0x74, 0x20, 0x61,
    0x20, 0x31, 9, 0x2c,
];

/// Replica 0's ABORT of instance 1 with a log of which two entries are trimmed, with a digest of zeros and that request behind
/// them, without the bytes of its signature. Its number stands in byte 3, the last byte of the digest in byte 43.
const TRIMMED: [u8; 67] = [
    6, 0, 0, 0, 0, 0, 0, 1, 255, 255, 0, 2, 0, 0, 0, 0, 0, 0, 0, 0, 0, 0, 0, 0, 0, 0, 0, 0, 0, 0,
    0, 0, 0, 0, 0, 0, 0, 0, 0, 0, 0, 0, 0, 0, 0, 1, 0, 0, 0, 0, 0, 0, 0, 0, 0, 1, 0, 7, 0x70, 0x75,
    0x74, 0x20, 0x61, 0x20, 0x31, 9, 0x2c,
];

/// Adds such an ABORT of a replica, whose digest ends with this byte.
fn put_trimmed(bytes: &mut Vec<u8>, by: u8, digest: u8) -> Result<(), OutOfMemory> {
    let mut head = TRIMMED;
    head[3] = by;
    head[43] = digest;
    bytes.extend_from_slice(&head)?;
    bytes.extend_from_slice(&[0; 2348])?;
    Ok(())
}

/// Adds the ABORTs of these replicas.
fn put_aborts(bytes: &mut Vec<u8>, replicas: &[u8]) -> Result<(), OutOfMemory> {
    for by in replicas {
        let mut head = ABORT;
        head[3] = *by;
        bytes.extend_from_slice(&head)?;
        bytes.extend_from_slice(&[0; 2348])?;
    }
    Ok(())
}

/// What begins with this, and has the ABORTs of these replicas.
fn with_aborts(alloc: Global, head: &[u8], replicas: &[u8]) -> Result<Vec<u8>, OutOfMemory> {
    let mut bytes = Vec::from_slice(alloc, head)?;
    put_aborts(&mut bytes, replicas)?;
    Ok(bytes)
}

/// How much a client sends and observes as a message comes, None where the bytes are none.
fn heard(
    alloc: Global,
    client: &mut Client,
    bytes: &[u8],
) -> Result<Option<(usize, usize)>, OutOfMemory> {
    let Ok(m) = read(bytes) else {
        return Ok(None);
    };
    let (outs, marks) = client.on(alloc, m)?;
    Ok(Some((outs.len(), marks.len())))
}

/// Whether the answer of a replica, with this place, commits.
fn commits(alloc: Global, client: &mut Client, by: u8, n: u8) -> bool {
    let mut bytes = ANSWER;
    bytes[4] = by;
    bytes[20] = n;
    matches!(heard(alloc, client, &bytes), Ok(Some((0, 1))))
}

/// How much comes of the ABORT of a replica.
fn aborts(
    alloc: Global,
    client: &mut Client,
    by: u8,
) -> Result<Option<(usize, usize)>, OutOfMemory> {
    let bytes = with_aborts(alloc, &[6], &[by])?;
    heard(alloc, client, &bytes)
}

/// How much comes of a certificate by three replicas.
fn enters(alloc: Global, client: &mut Client) -> Result<Option<(usize, usize)>, OutOfMemory> {
    let bytes = with_aborts(alloc, &[7, 3], &[0, 1, 2])?;
    heard(alloc, client, &bytes)
}

/// How many entries a list has forgotten, and how many not, that a client shows as it enters instance 2.
fn shown(marks: &Marks) -> Option<(u16, usize)> {
    match marks.as_slice() {
        [
            Seen::TrimmedCert {
                i: 1,
                start,
                rest,
                ..
            },
            Seen::Invoked { i: 2, .. },
        ] => Some((*start, rest.len())),
        _ => None,
    }
}

/// How much of a list it shows as a message comes.
fn shows(
    alloc: Global,
    client: &mut Client,
    bytes: &[u8],
) -> Result<Option<(u16, usize)>, OutOfMemory> {
    let Ok(m) = read(bytes) else {
        return Ok(None);
    };
    let (_outs, marks) = client.on(alloc, m)?;
    Ok(shown(&marks))
}

/// The same of the ABORT of a replica whose log is trimmed.
fn aborts_trimmed(
    alloc: Global,
    client: &mut Client,
    by: u8,
    digest: u8,
) -> Result<Option<(u16, usize)>, OutOfMemory> {
    let mut bytes = Vec::from_slice(alloc, &[6])?;
    put_trimmed(&mut bytes, by, digest)?;
    shows(alloc, client, &bytes)
}

/// The same of a certificate by three replicas whose logs are trimmed.
fn enters_trimmed(alloc: Global, client: &mut Client) -> Result<Option<(u16, usize)>, OutOfMemory> {
    let mut bytes = Vec::from_slice(alloc, &[7, 3])?;
    put_trimmed(&mut bytes, 0, 1)?;
    put_trimmed(&mut bytes, 1, 2)?;
    put_trimmed(&mut bytes, 2, 1)?;
    shows(alloc, client, &bytes)
}

/// How much a client sends and observes as its timer runs out.
fn waits(alloc: Global, client: &mut Client) -> Result<(usize, usize), OutOfMemory> {
    let (outs, marks) = client.timeout(alloc)?;
    Ok((outs.len(), marks.len()))
}

/// How much a client sends and observes as it takes a command, or why it takes none.
fn asks(alloc: Global, client: &mut Client, command: &[u8]) -> Result<(usize, usize), InvokeFault> {
    if client.stamp() > 9 {
        return Err(InvokeFault::OutOfMemory);
    }
    match client.invoke(alloc, command) {
        Ok((outs, marks)) => Ok((outs.len(), marks.len())),
        Err(fault) => Err(fault),
    }
}

/// The first client of four replicas.
fn client_of(alloc: Global, plan: Plan) -> Option<Client> {
    let c = Cluster::new(1, 2, plan, 0)?;
    Some(Client::new(alloc, &c, 0))
}

/// To how many replicas a client's first request goes.
fn asked(alloc: Global, plan: Plan) -> Option<usize> {
    let mut client = client_of(alloc, plan)?;
    let asked = asks(alloc, &mut client, b"put a 1");
    drop(client);
    match asked {
        Ok((outs, _)) => Some(outs),
        Err(_) => None,
    }
}

#[test]
fn the_kind_says_how_many_are_asked(rt: HostRuntime) {
    let alloc = rt.alloc();
    assert!(rt; asked(alloc, Plan::Backup) == Some(4));
    assert!(rt; asked(alloc, Plan::ZLight) == Some(1));
    assert!(rt; asked(alloc, Plan::Chain) == Some(1));
}

/// Whether commands are refused for their lengths, and while a request is open.
fn refuses(alloc: Global) -> Option<bool> {
    let mut client = client_of(alloc, Plan::Quorum)?;
    let empty = asks(alloc, &mut client, &[]) == Err(InvokeFault::Empty);
    let long = asks(alloc, &mut client, &[b'x'; 129]) == Err(InvokeFault::TooLong);
    let taken = asks(alloc, &mut client, &[b'x'; 128]) == Ok((4, 1));
    let busy = asks(alloc, &mut client, b"x") == Err(InvokeFault::Busy);
    let stands = client.open() && client.stamp() == 1 && client.instance() == 1;
    drop(client);
    Some(empty && long && taken && busy && stands)
}

#[test]
fn commands_are_refused(rt: HostRuntime) {
    assert!(rt; refuses(rt.alloc()) == Some(true));
}

/// Whether the second of two equal answers commits a client's first request.
fn two_commit(alloc: Global, plan: Plan) -> Option<bool> {
    let mut client = client_of(alloc, plan)?;
    let _asked = asks(alloc, &mut client, b"put a 1");
    let _first = commits(alloc, &mut client, 0, 1);
    let second = commits(alloc, &mut client, 1, 1);
    drop(client);
    Some(second)
}

/// Whether the answer of the fourth replica commits and no earlier one does, the third's second one
/// among them.
fn fourth_commits(alloc: Global, n: u8) -> Option<bool> {
    let mut client = client_of(alloc, Plan::ZLight)?;
    let _asked = asks(alloc, &mut client, b"put a 1");
    let first = commits(alloc, &mut client, 0, 7);
    let second = commits(alloc, &mut client, 1, 7);
    let third = commits(alloc, &mut client, 2, 7);
    let again = commits(alloc, &mut client, 2, 7);
    let fourth = commits(alloc, &mut client, 3, n);
    drop(client);
    Some(!(first || second || third || again) && fourth)
}

#[test]
fn the_kind_says_when_it_commits(rt: HostRuntime) {
    let alloc = rt.alloc();
    assert!(rt; two_commit(alloc, Plan::Backup) == Some(true));
    assert!(rt; two_commit(alloc, Plan::Chain) == Some(false));
    assert!(rt; fourth_commits(alloc, 7) == Some(true));
    assert!(rt; fourth_commits(alloc, 8) == Some(false));
}

/// Whether a chain's end commits.
fn chain_commits(alloc: Global, plan: Plan) -> Option<bool> {
    let mut client = client_of(alloc, plan)?;
    let _asked = asks(alloc, &mut client, b"put a 1");
    let committed = heard(alloc, &mut client, &CHAIN) == Ok(Some((0, 1)));
    let rests = client.timer().is_none();
    drop(client);
    Some(committed && rests)
}

#[test]
fn chains_commit(rt: HostRuntime) {
    let alloc = rt.alloc();
    assert!(rt; chain_commits(alloc, Plan::Chain) == Some(true));
    assert!(rt; chain_commits(alloc, Plan::Quorum) == Some(false));
}

/// Whether a client whose timer runs out asks all to stop.
fn panics(alloc: Global, client: &mut Client) -> bool {
    let _asked = asks(alloc, client, b"put a 1");
    waits(alloc, client) == Ok((4, 0))
}

/// Whether it enters instance 2 on the third ABORT, of which one that comes again is none.
fn enters_by_aborts(alloc: Global, client: &mut Client) -> bool {
    let first = aborts(alloc, client, 3) == Ok(Some((0, 0)));
    let again = aborts(alloc, client, 3) == Ok(Some((0, 0)));
    let second = aborts(alloc, client, 0) == Ok(Some((0, 0)));
    first && again && second && aborts(alloc, client, 1) == Ok(Some((5, 2)))
}

/// Whether a certificate for the instance where it is brings nothing, and its timer sends once more.
fn stays(alloc: Global, client: &mut Client) -> bool {
    let late = enters(alloc, client) == Ok(Some((0, 0)));
    let again = waits(alloc, client) == Ok((8, 0));
    late && again && client.timer() == Some(3) && client.instance() == 2
}

fn switches(alloc: Global) -> Option<bool> {
    let mut client = client_of(alloc, Plan::ZLight)?;
    let left = panics(alloc, &mut client);
    let entered = enters_by_aborts(alloc, &mut client);
    let stayed = stays(alloc, &mut client);
    drop(client);
    Some(left && entered && stayed)
}

#[test]
fn aborts_bring_it_on(rt: HostRuntime) {
    assert!(rt; switches(rt.alloc()) == Some(true));
}

/// Whether a certificate brings a client to instance 2, from where it asks once more in a Backup.
fn is_brought(alloc: Global, plan: Plan) -> Option<(bool, bool)> {
    let mut client = client_of(alloc, plan)?;
    let idle = enters(alloc, &mut client) == Ok(Some((0, 0)));
    let _asked = asks(alloc, &mut client, b"put a 1");
    let here = enters(alloc, &mut client) == Ok(Some((8, 2)));
    let again = waits(alloc, &mut client) == Ok((8, 0));
    let there = client.instance() == 2;
    drop(client);
    Some((idle && here && there, again))
}

#[test]
fn certificates_bring_it_on(rt: HostRuntime) {
    assert!(rt; is_brought(rt.alloc(), Plan::AZyzzyva) == Some((true, true)));
}

/// Whether a certificate of trimmed logs brings a client to instance 2, and how much it shows of their list.
fn is_brought_by_trimmed(alloc: Global, plan: Plan) -> Option<(bool, Option<(u16, usize)>)> {
    let mut client = client_of(alloc, plan)?;
    let _asked = asks(alloc, &mut client, b"put a 1");
    let taken = enters_trimmed(alloc, &mut client);
    let there = client.instance() == 2;
    drop(client);
    match taken {
        Ok(list) => Some((there, list)),
        Err(_) => None,
    }
}

#[test]
fn certificates_of_trimmed_logs_bring_it_on(rt: HostRuntime) {
    let alloc = rt.alloc();
    assert!(rt; is_brought_by_trimmed(alloc, Plan::Chain) == Some((true, Some((2, 1)))));
    assert!(rt; is_brought_by_trimmed(alloc, Plan::Backup) == Some((false, None)));
}

/// Whether three ABORTs of which no two agree bring a client nowhere.
fn stays_by_aborts(alloc: Global, client: &mut Client) -> bool {
    let first = aborts_trimmed(alloc, client, 1, 2) == Ok(None);
    let second = aborts_trimmed(alloc, client, 0, 1) == Ok(None);
    let third = aborts(alloc, client, 3) == Ok(Some((0, 0)));
    first && second && third && client.instance() == 1
}

/// How much a client shows of the list of three ABORTs among four, two of which agree.
fn makes_trimmed(alloc: Global) -> Option<(bool, Option<(u16, usize)>)> {
    let mut client = client_of(alloc, Plan::Quorum)?;
    let left = panics(alloc, &mut client);
    let stayed = stays_by_aborts(alloc, &mut client);
    let taken = aborts_trimmed(alloc, &mut client, 2, 1);
    let there = client.instance() == 2;
    drop(client);
    match taken {
        Ok(list) => Some((left && stayed && there, list)),
        Err(_) => None,
    }
}

#[test]
fn aborts_of_trimmed_logs_bring_it_on(rt: HostRuntime) {
    assert!(rt; makes_trimmed(rt.alloc()) == Some((true, Some((2, 1)))));
}

#[test]
fn laws_are_called() {
    clients_act_by_their_cluster();
}
