//! Messages opened by a checker that answers the same to everything.

ghost use Rattle.ab_wire.specs.Views.{IsReceived};

use ab_check::Checker;
use ab_keys::is_party;
use ab_msg::Tag;
use ab_num::{Cluster, OutOfMemory, Party, Plan};
use ab_open::{Bad, OpenFault, claims, open};
use ab_wire::MsgRef;
use ab_write::put_message;
use std::alloc::Global;
use std::mem::drop;

/// A checker with one answer.
#[derive(Clone, Copy)]
struct Always(bool);

impl Checker for Always {
    ghost judge = { λ c maker text token. c.0 };

    fn tag(&self, _maker: Party, _text: &[u8], _tag: Option<&Tag>) -> bool {
        self.0
    }

    fn sig(&mut self, _alloc: Global, _maker: Party, _text: &[u8], _sig: &[u8]) -> bool {
        self.0
    }
}

/// A PANIC of client 0 in instance 1, with a tag of zeros.
const PANIC: [u8; 41] = [
    5, 5, 1, 0, 0, 0, 0, 0, 1, 0, 0, 0, 0, 0, 0, 0, 0, 0, 0, 0, 0, 0, 0, 0, 0, 0, 0, 0, 0, 0, 0, 0,
    0, 0, 0, 0, 0, 0, 0, 0, 0,
];

/// A CHAIN of client 0's request 1 in instance 1, without reply and tags.
const CHAIN: [u8; 54] = [
    4, 0, 0, 0, 1, 0, 0, 0, 0, 0, 0, 0, 0, 0, 1, 0, 1, 97, 0, 1, 0, 0, 0, 0, 0, 0, 0, 0, 0, 0, 0,
    0, 0, 0, 0, 0, 0, 0, 0, 0, 0, 0, 0, 0, 0, 0, 0, 0, 0, 0, 0, 0, 0, 0,
];

/// Adds a certificate of one answer to client 0's request 1, by this replica.
fn put_zcert(out: &mut Vec<u8>, replica: u8) -> Result<(), OutOfMemory> {
    out.extend_from_slice(&[1, 0, 0, 0, 0, 0, 0, 0, 0, 0, 1, 0, 1])?;
    out.extend_from_slice(&[0; 32])?;
    out.extend_from_slice(&[2, 111, 107, 1, replica])?;
    put_sig(out)
}

/// Adds a signature behind its length.
fn put_sig(out: &mut Vec<u8>) -> Result<(), OutOfMemory> {
    out.extend_from_slice(&2348u16.to_be_bytes())?;
    out.extend_from_slice(&[7; 2348])?;
    Ok(())
}

/// A CERT in instance 1, with an answer of this replica.
fn cert(alloc: Global, replica: u8) -> Result<Vec<u8>, OutOfMemory> {
    let mut out = Vec::new(alloc);
    out.extend_from_slice(&[16, 0, 0, 0, 1])?;
    put_zcert(&mut out, replica)?;
    Ok(out)
}

/// An ABORT of replica 0 in instance 1 with an empty history, which holds an answer of this replica.
fn abort(alloc: Global, replica: u8) -> Result<Vec<u8>, OutOfMemory> {
    let mut out = Vec::new(alloc);
    out.extend_from_slice(&[6, 15, 0, 0, 0, 0, 0, 0, 1, 0, 0])?;
    put_zcert(&mut out, replica)?;
    put_sig(&mut out)?;
    Ok(out)
}

/// Adds a list whose first 3 entries are trimmed, and behind them stands a request of this client.
fn put_list(out: &mut Vec<u8>, client: u8) -> Result<(), OutOfMemory> {
    out.extend_from_slice(&[255, 255, 0, 3])?;
    out.extend_from_slice(&[9; 32])?;
    out.extend_from_slice(&[0, 1, 0, client, 0, 0, 0, 0, 0, 0, 0, 4, 0, 1, 97])?;
    Ok(())
}

/// Adds a signed ABORT of replica 0 in instance 1, whose log is such a list.
fn put_trimmed(out: &mut Vec<u8>, client: u8) -> Result<(), OutOfMemory> {
    out.extend_from_slice(&[6, 0, 0, 0, 0, 0, 0, 1])?;
    put_list(out, client)?;
    put_sig(out)
}

/// A VIEW-CHANGE of replica 0 for view 2 of instance 1, with a PREPARE of replica 1 for such a list as its base.
fn view_change(alloc: Global, client: u8) -> Result<Vec<u8>, OutOfMemory> {
    let mut out = Vec::new(alloc);
    out.extend_from_slice(&[11, 10, 0, 0, 0, 0, 0, 0, 1, 0, 0, 0, 2, 1, 0, 0, 0, 1])?;
    out.extend_from_slice(&[8; 32])?;
    put_sig(&mut out)?;
    put_list(&mut out, client)?;
    out.extend_from_slice(&[1, 1])?;
    put_sig(&mut out)?;
    Ok(out)
}

/// Such an ABORT.
fn trimmed_abort(alloc: Global, client: u8) -> Result<Vec<u8>, OutOfMemory> {
    let mut out = Vec::new(alloc);
    out.push(6)?;
    put_trimmed(&mut out, client)?;
    Ok(out)
}

/// An INIT with an ABORT of replica 1 in instance 1, whose log is empty, and with such an ABORT if asked.
fn init(alloc: Global, trimmed: bool) -> Result<Vec<u8>, OutOfMemory> {
    let mut out = Vec::new(alloc);
    out.extend_from_slice(&[7, 1 + u8::from(trimmed)])?;
    out.extend_from_slice(&[6, 0, 0, 1, 0, 0, 0, 1, 0, 0])?;
    put_sig(&mut out)?;
    if trimmed {
        put_trimmed(&mut out, 0)?;
    }
    Ok(out)
}

/// Why bytes don't open at a party of a cluster of four replicas and one client, without checkpoints.
fn fault(alloc: Global, me: Party, right: bool, bytes: &[u8]) -> Option<OpenFault> {
    fault_every(alloc, 0, me, right, bytes)
}

/// The same where a checkpoint is due after so many requests.
fn fault_every(
    alloc: Global,
    every: u16,
    me: Party,
    right: bool,
    bytes: &[u8],
) -> Option<OpenFault> {
    let k = Cluster::new(1, 1, Plan::Chain, every)?;
    if !is_party(&k, me) {
        return None;
    }
    match open(alloc, &k, k.every, me, &mut Always(right), bytes) {
        Ok(_) => None,
        Err(fault) => Some(fault),
    }
}

#[test]
fn a_panic_opens_at_replicas(rt: HostRuntime) {
    assert!(rt; fault(rt.alloc(), Party::Replica(3), true, &PANIC) == None);
    assert!(rt; fault(rt.alloc(), Party::Replica(3), false, &PANIC) == Some(OpenFault::BadTag(0)));
    assert!(rt; fault(rt.alloc(), Party::Client(0), false, &PANIC) == Some(OpenFault::NotMine));
}

#[test]
fn a_chain_wants_a_reply_at_its_client(rt: HostRuntime) {
    assert!(rt; fault(rt.alloc(), Party::Replica(1), true, &CHAIN) == None);
    assert!(rt; fault(rt.alloc(), Party::Client(0), true, &CHAIN) == Some(OpenFault::BadTag(0)));
}

#[test]
fn what_is_checked_of_a_chain_is_told(rt: HostRuntime) {
    let alloc = rt.alloc();
    let k = Cluster::new(1, 1, Plan::Chain, 0).expect(&rt, "a cluster");
    let me = Party::Replica(1);
    if !is_party(&k, me) {
        panic!(rt; "a party");
    }
    let checked = open(alloc, &k, k.every, me, &mut Always(true), &CHAIN)
        .ok()
        .expect(&rt, "it opens");
    let all = claims(alloc, &k, &checked).expect(&rt, "memory");
    assert!(rt; all.as_slice().len() == 2);
    let mut checks = checked.checks(&k);
    let asked = checks.next().expect(&rt, "the client's request").claim;
    assert!(rt; asked.maker() == Party::Client(0) && asked.text().as_slice().len() == 21);
    let passed = checks.next().expect(&rt, "the tag of position 1").claim;
    assert!(rt; passed.maker() == Party::Replica(0) && passed.text().as_slice().len() == 52);
    assert!(rt; checks.next().is_none());
}

#[test]
fn a_certificate_of_answers_opens_at_replicas(rt: HostRuntime) {
    let bytes = cert(rt.alloc(), 3).expect(&rt, "memory");
    assert!(rt; fault(rt.alloc(), Party::Replica(1), true, bytes.as_slice()) == None);
    assert!(rt;
        fault(rt.alloc(), Party::Replica(1), false, bytes.as_slice()) == Some(OpenFault::BadTag(0))
    );
    assert!(rt;
        fault(rt.alloc(), Party::Client(0), true, bytes.as_slice()) == Some(OpenFault::NotMine)
    );
    let bytes = cert(rt.alloc(), 4).expect(&rt, "memory");
    assert!(rt;
        fault(rt.alloc(), Party::Replica(1), true, bytes.as_slice()) == Some(OpenFault::NotMine)
    );
}

#[test]
fn the_answers_that_an_abort_holds_are_checked_behind_it(rt: HostRuntime) {
    let alloc = rt.alloc();
    let bytes = abort(alloc, 4).expect(&rt, "memory");
    assert!(rt; fault(alloc, Party::Client(0), true, bytes.as_slice()) == Some(OpenFault::NotMine));
    let bytes = abort(alloc, 3).expect(&rt, "memory");
    let k = Cluster::new(1, 1, Plan::Chain, 0).expect(&rt, "a cluster");
    let me = Party::Client(0);
    if !is_party(&k, me) {
        panic!(rt; "a party");
    }
    let checked = open(alloc, &k, k.every, me, &mut Always(true), bytes.as_slice())
        .ok()
        .expect(&rt, "it opens");
    let mut checks = checked.checks(&k);
    let stopped = checks.next().expect(&rt, "the ABORT").claim;
    assert!(rt; stopped.maker() == Party::Replica(0) && stopped.text().as_slice().len() == 2410);
    let answered = checks.next().expect(&rt, "the answer").claim;
    assert!(rt; answered.maker() == Party::Replica(3) && answered.text().as_slice().len() == 55);
    assert!(rt; checks.next().is_none());
}

/// A list that isn't whole.
const NOT_WHOLE: Option<OpenFault> = Some(OpenFault::Bad(Bad::BadLength));

#[test]
fn an_abort_of_a_trimmed_log_needs_checkpoints(rt: HostRuntime) {
    let alloc = rt.alloc();
    let client = Party::Client(0);
    let bytes = trimmed_abort(alloc, 0).expect(&rt, "memory");
    assert!(rt; fault(alloc, client, true, bytes.as_slice()) == NOT_WHOLE);
    assert!(rt; fault(alloc, Party::Replica(1), false, bytes.as_slice()) == NOT_WHOLE);
    assert!(rt; fault_every(alloc, 2, client, true, bytes.as_slice()) == None);
    assert!(rt;
        fault_every(alloc, 2, client, false, bytes.as_slice()) == Some(OpenFault::BadTag(0))
    );
    assert!(rt;
        fault_every(alloc, 2, Party::Replica(1), true, bytes.as_slice()) == Some(OpenFault::NotMine)
    );
    let bytes = trimmed_abort(alloc, 1).expect(&rt, "memory");
    assert!(rt; fault(alloc, client, true, bytes.as_slice()) == NOT_WHOLE);
    assert!(rt; fault_every(alloc, 2, client, true, bytes.as_slice()) == Some(OpenFault::NotMine));
}

#[test]
fn an_init_with_a_trimmed_log_needs_checkpoints(rt: HostRuntime) {
    let alloc = rt.alloc();
    let me = Party::Replica(2);
    let bytes = init(alloc, false).expect(&rt, "memory");
    assert!(rt; fault(alloc, me, true, bytes.as_slice()) == None);
    assert!(rt; fault_every(alloc, 2, me, true, bytes.as_slice()) == None);
    let bytes = init(alloc, true).expect(&rt, "memory");
    assert!(rt; fault(alloc, me, true, bytes.as_slice()) == NOT_WHOLE);
    assert!(rt; fault_every(alloc, 2, me, true, bytes.as_slice()) == None);
    assert!(rt; fault_every(alloc, 2, me, false, bytes.as_slice()) == Some(OpenFault::BadTag(0)));
}

#[test]
fn a_view_change_with_a_trimmed_base_needs_checkpoints(rt: HostRuntime) {
    let alloc = rt.alloc();
    let me = Party::Replica(2);
    let bytes = view_change(alloc, 0).expect(&rt, "memory");
    assert!(rt; fault(alloc, me, true, bytes.as_slice()) == NOT_WHOLE);
    assert!(rt; fault_every(alloc, 2, me, true, bytes.as_slice()) == None);
    assert!(rt; fault_every(alloc, 2, me, false, bytes.as_slice()) == Some(OpenFault::BadTag(0)));
    let bytes = view_change(alloc, 1).expect(&rt, "memory");
    assert!(rt; fault_every(alloc, 2, me, true, bytes.as_slice()) == Some(OpenFault::NotMine));
}

/// The bytes of a message, written from parts of its own.
fn again(alloc: Global, m: MsgRef<'_>) -> Result<Vec<u8>, OutOfMemory>
    requires { IsReceived m }
{
    let own = m.own(alloc)?;
    let mut out = Vec::new(alloc);
    put_message(alloc, &mut out, &own)?;
    drop(own);
    Ok(out)
}

#[test]
fn a_trimmed_base_is_written_as_it_was_read(rt: HostRuntime) {
    let alloc = rt.alloc();
    let bytes = view_change(alloc, 0).expect(&rt, "memory");
    let k = Cluster::new(1, 1, Plan::Chain, 2).expect(&rt, "a cluster");
    let me = Party::Replica(2);
    if !is_party(&k, me) {
        panic!(rt; "a party");
    }
    let checked = open(alloc, &k, k.every, me, &mut Always(true), bytes.as_slice())
        .ok()
        .expect(&rt, "it opens");
    let written = again(alloc, checked.into_msg()).expect(&rt, "memory");
    assert!(rt; written.as_slice() == bytes.as_slice());
}
