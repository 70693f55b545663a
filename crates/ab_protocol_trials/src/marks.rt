//! CHECKPOINTs that are kept, and what is stable by them.

use ab_ckpt::Marks;
use ab_hist::{History, Request};
use arrayvec::ArrayVec;
use std::alloc::Global;
use std::process::Abort;

/// A log of five requests.
fn five(rt: &impl Abort, alloc: Global) -> History {
    let mut log = History::new(alloc);
    for stamp in 1..6 {
        let command = ArrayVec::new();
        let client = 0;
        let request = Request {
            client,
            stamp,
            command,
        };
        assert!(rt; log.push(alloc, request) == Ok(()));
    }
    log
}

/// The digest of the first `n` entries.
fn digest_at(rt: &impl Abort, log: &History, n: usize) -> [u8; 32] {
    assert!(rt; n <= log.len());
    log.digest_at(n)
}

#[test]
fn checkpoints_are_due_once(rt: HostRuntime) {
    let log = five(&rt, rt.alloc());
    let mut marks = Marks::new();
    assert!(rt; marks.due(2, false, 0, &log) == Some(4));
    assert!(rt; marks.due(3, false, 0, &log) == Some(3));
    assert!(rt; marks.due(5, false, 0, &log) == Some(5));
    assert!(rt; marks.due(6, false, 0, &log) == None);
    assert!(rt; marks.due(0, false, 0, &log) == None);
    assert!(rt; marks.due(2, true, 0, &log) == None);
    marks.sent(4);
    assert!(rt; marks.due(2, false, 0, &log) == None && marks.due(3, false, 0, &log) == None);
    assert!(rt; marks.due(5, false, 0, &log) == Some(5));
}

/// What each replica's last CHECKPOINT is of is stable, until it is trimmed.
#[test]
fn equal_checkpoints_are_stable(rt: HostRuntime) {
    let log = five(&rt, rt.alloc());
    let (two, four) = (digest_at(&rt, &log, 2), digest_at(&rt, &log, 4));
    let mut marks = Marks::new();
    for r in 0..4 {
        marks.keep(r, 2, two);
    }
    assert!(rt; marks.stable(4, 0, &log) == Some(2) && marks.stable(7, 0, &log) == None);
    for r in 0..3 {
        marks.keep(r, 4, four);
        assert!(rt; marks.stable(4, 0, &log) == None);
    }
    marks.keep(0, 2, two);
    marks.keep(1, 4, two);
    assert!(rt; marks.stable(4, 0, &log) == None && marks.stable(3, 0, &log) == Some(4));
    marks.keep(3, 4, four);
    assert!(rt; marks.stable(4, 0, &log) == Some(4) && marks.stable(3, 0, &log) == Some(4));
    assert!(rt; marks.stable(4, 3, &log) == Some(4) && marks.due(2, false, 3, &log) == Some(4));
    assert!(rt; marks.stable(4, 4, &log) == None && marks.due(2, false, 4, &log) == None);
}

/// Entries that the log doesn't have aren't stable.
#[test]
fn other_entries_are_not_stable(rt: HostRuntime) {
    let log = five(&rt, rt.alloc());
    let five = digest_at(&rt, &log, 5);
    let mut marks = Marks::new();
    for r in 0..4 {
        marks.keep(r, 4, five);
    }
    assert!(rt; marks.stable(4, 0, &log) == None);
    for r in 0..4 {
        marks.keep(r, 6, five);
    }
    assert!(rt; marks.stable(4, 0, &log) == None);
}
