//! What received messages tell, with one faulty replica of four.

use crate::coming::Coming::{Offer, Prepare};
use crate::coming::{
    BASE_DIGEST, Coming, REQUEST, REQUEST_DIGEST, bytes_of, put_count, put_maker, put_sig,
    put_signers, put_slot, put_stating, put_tag, put_view, stating,
};
use ab_num::{Cluster, Plan};
use ab_pbft_work::read;
use ab_slots::Reading;
use std::alloc::{AllocError, Global};
use std::mem::drop;
use std::process::Abort;

/// The signed ABORT of a replica in an instance, with a log of the request.
fn put_abort(bytes: &mut Vec<u8>, by: u8, instance: u8) -> Result<(), AllocError> {
    put_maker(bytes, 6, by, instance)?;
    bytes.extend_from_slice(&[0, 1])?;
    bytes.extend_from_slice(&REQUEST)?;
    put_sig(bytes)
}

/// Replica 0's PRE-PREPARE of slot 0 in view 0 of instance 2, with the ABORTs of these replicas in an instance.
fn based(alloc: Global, instance: u8, replicas: &[u8]) -> Result<Vec<u8>, AllocError> {
    let mut bytes = Vec::new(alloc);
    bytes.push(8)?;
    put_maker(&mut bytes, 7, 0, 2)?;
    put_slot(&mut bytes, 0, 0)?;
    put_tag(&mut bytes)?;
    put_count(&mut bytes, replicas)?;
    for by in replicas {
        put_abort(&mut bytes, *by, instance)?;
    }
    Ok(bytes)
}

/// Replica 2's VIEW-CHANGE for view 1, which states the empty base and the request as prepared in view 0, with PREPAREs by
/// these replicas.
fn stating_two(alloc: Global, base: &[u8], request: &[u8]) -> Result<Vec<u8>, AllocError> {
    let mut bytes = Vec::new(alloc);
    bytes.push(11)?;
    put_maker(&mut bytes, 10, 2, 1)?;
    put_view(&mut bytes, 1)?;
    bytes.push(2)?;
    for digest in [&BASE_DIGEST, &REQUEST_DIGEST] {
        put_view(&mut bytes, 0)?;
        bytes.extend_from_slice(digest)?;
    }
    put_sig(&mut bytes)?;
    bytes.extend_from_slice(&[0, 0])?;
    bytes.extend_from_slice(&REQUEST)?;
    put_signers(&mut bytes, base)?;
    put_signers(&mut bytes, request)?;
    Ok(bytes)
}

/// Replica 1's NEW-VIEW for view 1, which rests on a view change of replica 2 with a PREPARE by this replica.
fn leading(alloc: Global, signer: u8) -> Result<Vec<u8>, AllocError> {
    let mut bytes = Vec::new(alloc);
    bytes.push(12)?;
    put_maker(&mut bytes, 11, 1, 1)?;
    put_view(&mut bytes, 1)?;
    put_tag(&mut bytes)?;
    bytes.push(1)?;
    put_stating(&mut bytes, 2, 0, &BASE_DIGEST, &[signer])?;
    Ok(bytes)
}

/// What a message tells in instance `i`.
fn told(
    rt: &impl Abort,
    alloc: Global,
    c: &Cluster,
    i: u32,
    bytes: Result<Vec<u8>, AllocError>,
) -> Reading {
    let bytes = bytes.expect(rt, "memory");
    match ab_open::read(bytes.as_slice()) {
        Ok(m) => read(alloc, c, i, &m).expect(rt, "memory"),
        Err(_) => panic!(rt; "not a message"),
    }
}

/// What one of those that come tells in instance `i`.
fn told_by(rt: &impl Abort, alloc: Global, c: &Cluster, i: u32, coming: Coming) -> Reading {
    told(rt, alloc, c, i, bytes_of(alloc, coming))
}

/// Whether nothing was told. A call lets it go: in place each of its forms would be taken apart.
fn is_other(input: Reading) -> bool {
    let other = matches!(&input, Reading::Other);
    drop(input);
    other
}

/// How many requests are in the base that these ABORTs of an instance give in instance 2, if they give one.
fn base_len(
    rt: &impl Abort,
    alloc: Global,
    c: &Cluster,
    instance: u8,
    replicas: &[u8],
) -> Option<usize> {
    let input = told(rt, alloc, c, 2, based(alloc, instance, replicas));
    let len = match &input {
        Reading::PrePrepareBase { by: 0, base, .. } => Some(base.len()),
        _ => None,
    };
    drop(input);
    len
}

/// Whether it tells a VIEW-CHANGE of replica 2.
fn is_change(
    rt: &impl Abort,
    alloc: Global,
    c: &Cluster,
    bytes: Result<Vec<u8>, AllocError>,
) -> bool {
    let input = told(rt, alloc, c, 1, bytes);
    let is_change = match &input {
        Reading::ViewChange(change) => change.by() == 2,
        _ => false,
    };
    drop(input);
    is_change
}

#[test]
fn what_is_of_others_tells_nothing(rt: HostRuntime) {
    let alloc = rt.alloc();
    let c = Cluster::new(1, 1, Plan::Backup, 0).expect(&rt, "a cluster");
    let ours = told_by(&rt, alloc, &c, 1, Prepare(3, 0, 1));
    let is_ours = matches!(
        &ours,
        Reading::Prepare {
            by: 3,
            view: 0,
            slot: 1,
            ..
        }
    );
    drop(ours);
    assert!(rt; is_ours);
    assert!(rt; is_other(told_by(&rt, alloc, &c, 2, Prepare(3, 0, 1))));
    assert!(rt; is_other(told_by(&rt, alloc, &c, 1, Prepare(4, 0, 1))));
}

#[test]
fn a_base_stands_in_slot_0(rt: HostRuntime) {
    let alloc = rt.alloc();
    let c = Cluster::new(1, 1, Plan::Backup, 0).expect(&rt, "a cluster");
    let first = told_by(&rt, alloc, &c, 1, Offer(0, 0, 0));
    let empty = match &first {
        Reading::PrePrepareBase { by: 0, base, .. } => base.len() == 0,
        _ => false,
    };
    drop(first);
    assert!(rt; empty);
    let order = told_by(&rt, alloc, &c, 1, Offer(0, 0, 5));
    let is_fifth = matches!(&order, Reading::PrePrepare { slot: 5, .. });
    drop(order);
    assert!(rt; is_fifth);
}

#[test]
fn a_certificate_gives_its_history(rt: HostRuntime) {
    let alloc = rt.alloc();
    let c = Cluster::new(1, 1, Plan::Quorum, 0).expect(&rt, "a cluster");
    assert!(rt; base_len(&rt, alloc, &c, 1, &[0, 1, 2]) == Some(1));
}

#[test]
fn what_is_no_certificate_gives_nothing(rt: HostRuntime) {
    let alloc = rt.alloc();
    let c = Cluster::new(1, 1, Plan::Quorum, 0).expect(&rt, "a cluster");
    assert!(rt; base_len(&rt, alloc, &c, 1, &[]) == None);
    assert!(rt; base_len(&rt, alloc, &c, 1, &[0, 1]) == None);
    assert!(rt; base_len(&rt, alloc, &c, 1, &[0, 1, 1]) == None);
    assert!(rt; base_len(&rt, alloc, &c, 1, &[0, 1, 4]) == None);
    assert!(rt; base_len(&rt, alloc, &c, 2, &[0, 1, 2]) == None);
}

#[test]
fn a_view_change_names_replicas_of_the_cluster(rt: HostRuntime) {
    let alloc = rt.alloc();
    let c = Cluster::new(1, 1, Plan::Backup, 0).expect(&rt, "a cluster");
    assert!(rt; is_change(&rt, alloc, &c, stating(alloc, 2, 0, &BASE_DIGEST, &[3])));
    assert!(rt; !is_change(&rt, alloc, &c, stating(alloc, 2, 0, &BASE_DIGEST, &[4])));
    assert!(rt; is_change(&rt, alloc, &c, stating_two(alloc, &[3], &[0, 1])));
    assert!(rt; !is_change(&rt, alloc, &c, stating_two(alloc, &[4], &[0, 1])));
    assert!(rt; !is_change(&rt, alloc, &c, stating_two(alloc, &[3], &[0, 4])));
}

#[test]
fn a_new_view_rests_on_view_changes(rt: HostRuntime) {
    let alloc = rt.alloc();
    let c = Cluster::new(1, 1, Plan::Backup, 0).expect(&rt, "a cluster");
    assert!(rt; is_other(told(&rt, alloc, &c, 1, leading(alloc, 4))));
    let entered = told(&rt, alloc, &c, 1, leading(alloc, 3));
    let count = match &entered {
        Reading::NewView { by: 1, changes, .. } => changes.len(),
        _ => 0,
    };
    drop(entered);
    assert!(rt; count == 1);
}
