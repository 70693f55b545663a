//! Which values three VIEW-CHANGEs choose for a new view, with one faulty replica of four. A value is a letter: `0` is a base
//! that holds the request `c`, and `a`, `b` and `c` are requests.

use ab_hist::{History, Request};
use ab_msg::Value;
use ab_num::{Cluster, Plan};
use ab_slots::{
    Change, ChangeReading, ProvedSlot, Slots, chosen, into_changes, may_enter, slot_digest,
};
use arrayvec::ArrayVec;
use std::alloc::Global;
use std::process::Abort;

/// What a VIEW-CHANGE states of the slots from 0 on: the view in which each is prepared, and its value.
type Stated = &'static [(u32, u8)];

/// What is stated by replicas 0 to 2.
type Three = [Stated; 3];

/// In slot 1 `b` is of view 1 and `a` of view 0, and in slot 2 `b` is of view 0.
const LATER: Three = [
    &[(1, b'0'), (1, b'b')],
    &[(0, b'0'), (0, b'a'), (0, b'b')],
    &[],
];

/// Limits, what is stated, and what is chosen up to that slot.
const ROWS: [(u8, Three, &'static [u8]); 9] = [
    (2, LATER, b"0b"),
    (2, [&[(0, b'0'), (0, b'a'), (0, b'b')], &[], &[]], b"0ab"),
    (1, [&[(0, b'0'), (0, b'a'), (0, b'b')], &[], &[]], b"0a"),
    (2, [&[(0, b'0'), (0, b'a'), (0, b'a')], &[], &[]], b"0a"),
    (2, [&[(0, b'0'), (0, b'c'), (0, b'a')], &[], &[]], b"0"),
    (2, [&[(0, b'0'), (0, b'0'), (0, b'a')], &[], &[]], b"0"),
    (2, [&[(0, b'a'), (0, b'b')], &[], &[]], b""),
    (
        2,
        [&[], &[(0, b'0'), (0, b'b')], &[(0, b'0'), (0, b'a')]],
        b"0b",
    ),
    (2, [&[], &[], &[]], b""),
];

fn request(client: u16) -> Request {
    Request {
        client,
        stamp: 1,
        command: ArrayVec::new(),
    }
}

fn value(alloc: Global, letter: u8) -> Option<Value> {
    match letter {
        b'a'..=b'c' => Some(Value::Request(request(u16::from(letter - b'a')))),
        _ => {
            let mut base = History::new(alloc);
            base.push(alloc, request(2)).ok()?;
            Some(Value::Base(base))
        }
    }
}

fn letter(value: &Value) -> u8 {
    match value {
        Value::Base(_) => b'0',
        Value::Request(m) => match m.client {
            0 => b'a',
            1 => b'b',
            _ => b'c',
        },
    }
}

fn letters(alloc: Global, slots: &Slots) -> Option<Vec<u8>> {
    let mut all = Vec::new(alloc);
    for n in 0..slots.len() {
        if let Some(value) = slots.get(n) {
            all.push(letter(value)).ok()?;
        }
    }
    Some(all)
}

/// A slot with PREPAREs by these replicas.
fn proved(alloc: Global, at: u32, stated: u8, signers: &[u8]) -> Option<ProvedSlot> {
    let by = signers.to_vec(alloc).ok()?;
    let value = value(alloc, stated)?;
    let x = slot_digest(&value);
    Some(ProvedSlot::new(at, x, value, by))
}

/// The VIEW-CHANGE of a replica for a view, each of whose slots has PREPAREs by these replicas.
fn change(
    alloc: Global,
    by: u8,
    view: u32,
    stated: Stated,
    signers: &[u8],
) -> Option<ChangeReading> {
    let mut slots = Vec::new(alloc);
    for (at, letter) in stated {
        slots.push(proved(alloc, *at, *letter, signers)?).ok()?;
    }
    Some(ChangeReading::new(by, view, slots))
}

/// So many VIEW-CHANGEs for a view, by replica 0 and those after it.
fn changes(
    alloc: Global,
    view: u32,
    three: &Three,
    signers: &[u8],
    count: usize,
) -> Option<Vec<ChangeReading>> {
    let mut all = Vec::new(alloc);
    let mut by: u8 = 0;
    for stated in three.iter().take(count) {
        all.push(change(alloc, by, view, *stated, signers)?).ok()?;
        by = by.saturating_add(1);
    }
    Some(all)
}

/// Whether so many VIEW-CHANGEs for a view let a replica enter view 2.
fn lets_enter(alloc: Global, view: u32, signers: &[u8], count: usize) -> Option<bool> {
    let all = changes(alloc, view, &LATER, signers, count)?;
    let may = may_enter(1, 2, &all);
    drop(all);
    Some(may)
}

/// What these choose in slots 0 to `k`.
fn choice(alloc: Global, k: u8, three: &Three) -> Option<Vec<u8>> {
    let all = changes(alloc, 2, three, &[0, 1, 2], 3)?;
    let all: Vec<Change> = into_changes(alloc, all).ok()?;
    let slots = chosen(alloc, k, &all).ok()?;
    drop(all);
    let letters = letters(alloc, &slots);
    drop(slots);
    letters
}

#[test]
fn the_highest_view_is_chosen(rt: HostRuntime) {
    for (k, three, want) in ROWS {
        let found = choice(rt.alloc(), k, &three).expect(&rt, "memory");
        let is_wanted = found.as_slice() == want;
        drop(found);
        assert!(rt; is_wanted, "{k} {three:?}");
    }
    let cluster = Cluster::new(1, 3, Plan::Backup, 0).expect(&rt, "a cluster");
    assert!(rt; (cluster.limit(1), cluster.limit(2)) == (1, 2));
}

#[test]
fn three_that_fit_let_a_replica_enter(rt: HostRuntime) {
    let cases: [(u32, &[u8], usize, bool); 7] = [
        (2, &[0, 1, 2], 3, true),
        (2, &[0, 1, 2], 2, false),
        (2, &[0, 1, 1], 3, false),
        (2, &[0, 1], 3, false),
        (2, &[0, 1, 2, 3], 3, false),
        (1, &[0, 1, 2], 3, false),
        (3, &[0, 1, 2], 3, false),
    ];
    for (view, signers, count, want) in cases {
        let may = lets_enter(rt.alloc(), view, signers, count).expect(&rt, "memory");
        assert!(rt; may == want, "{view} {signers:?} {count}");
    }
}

/// The values that may follow a base and `a`.
#[test]
fn a_repeated_request_cannot_follow(rt: HostRuntime) {
    let alloc = rt.alloc();
    let mut slots = Slots::new(alloc);
    for (letter, may) in [
        (b'a', false),
        (b'0', true),
        (b'0', false),
        (b'c', false),
        (b'a', true),
        (b'a', false),
        (b'b', true),
    ] {
        let next = value(alloc, letter).expect(&rt, "memory");
        let can = slots.can_push(&next);
        assert!(rt; can == may, "{letter}");
        if can && slots.len() < 256 {
            assert!(rt; slots.push(alloc, next).is_ok());
        } else {
            drop(next);
        }
    }
}
