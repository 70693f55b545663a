//! Lists that have forgotten their first entries, as bytes that are written out here.

ghost use Rattle.std.specs.Prelude.{◌≡◌};

use ab_content::{
    histories_forget_nothing, trimmed_at, trimmed_lists_are_formats, whole_lists_are_histories,
};
use ab_form::Bad;
use ab_hist::Request;
use ab_trim::{Trimmed, own_trimmed, put_trimmed};
use arrayvec::ArrayVec;
use std::alloc::Global;
use std::process::Abort;

/// The request `ab` of client 5 with stamp 258.
const AB: [u8; 14] = [0, 5, 0, 0, 0, 0, 0, 0, 1, 2, 0, 2, 0x61, 0x62];

/// The request `c` of client 5 with stamp 259.
const C: [u8; 13] = [0, 5, 0, 0, 0, 0, 0, 0, 1, 3, 0, 1, 0x63];

fn request(stamp: u64, command: &[u8]) -> Request
    ensures { result.client ≡ 5 }
{
    let mut text = ArrayVec::new();
    for byte in command {
        let _kept = text.try_push(*byte);
    }
    Request {
        client: 5,
        stamp,
        command: text,
    }
}

/// The parts one after the other.
fn joined(rt: &impl Abort, alloc: Global, parts: &[&[u8]]) -> Vec<u8> {
    let mut bytes = Vec::new(alloc);
    for part in parts {
        bytes.extend_from_slice(part).expect(rt, "memory");
    }
    bytes
}

/// What is wrong with the bytes.
fn defect(forgets: bool, bytes: &[u8]) -> Option<Bad> {
    match trimmed_at(forgets, bytes) {
        Ok(_) => None,
        Err(bad) => Some(bad),
    }
}

/// The list that stands in the bytes, with the two bytes that follow it.
fn read(rt: &impl Abort, alloc: Global, forgets: bool, bytes: &[u8]) -> Trimmed {
    let (list, rest) = trimmed_at(forgets, bytes).expect(rt, "a list");
    assert!(rt; rest == [0xee, 0xff].as_slice());
    own_trimmed(alloc, &list).expect(rt, "memory")
}

/// The bytes of the list.
fn written(rt: &impl Abort, alloc: Global, list: &Trimmed) -> Vec<u8> {
    let mut out = Vec::new(alloc);
    put_trimmed(alloc, &mut out, list).expect(rt, "memory");
    out
}

#[test]
fn lists_are_written_and_read(rt: HostRuntime) {
    let alloc = rt.alloc();
    let bytes = joined(
        &rt,
        alloc,
        &[&[0xff, 0xff, 1, 0x2c], &[7; 32], &[0, 2], &AB, &C],
    );
    let mut list = Trimmed::begin(alloc, 300, [7; 32]);
    assert!(rt; list.push(alloc, request(258, b"ab")) == Ok(()));
    assert!(rt; list.push(alloc, request(259, b"c")) == Ok(()));
    assert!(rt; written(&rt, alloc, &list) == bytes);
    let more = joined(&rt, alloc, &[&bytes, &[0xee, 0xff]]);
    let found = read(&rt, alloc, true, &more);
    assert!(rt; found.is_equal(&list) && found.start() == 300 && found.len() == 302);
    assert!(rt; defect(false, &more) == Some(Bad::BadLength));
    for n in 0..bytes.len() {
        assert!(rt; defect(true, &bytes[..n]) == Some(Bad::Short));
    }
}

#[test]
fn whole_lists_are_as_histories(rt: HostRuntime) {
    let alloc = rt.alloc();
    let bytes = joined(&rt, alloc, &[&[0, 1], &AB]);
    let mut list = Trimmed::new(alloc);
    assert!(rt; list.push(alloc, request(258, b"ab")) == Ok(()));
    assert!(rt; written(&rt, alloc, &list) == bytes);
    let more = joined(&rt, alloc, &[&bytes, &[0xee, 0xff]]);
    assert!(rt; read(&rt, alloc, true, &more).is_equal(&list));
    assert!(rt; read(&rt, alloc, false, &more).is_equal(&list));
    for forgets in [false, true] {
        for n in 0..bytes.len() {
            assert!(rt; defect(forgets, &bytes[..n]) == Some(Bad::Short));
        }
        assert!(rt; defect(forgets, &[4, 1]) == Some(Bad::BadLength));
        assert!(rt; defect(forgets, &[0xff, 0xfe]) == Some(Bad::BadLength));
        let twice = joined(&rt, alloc, &[&[0, 2], &AB, &AB]);
        assert!(rt; defect(forgets, &twice) == Some(Bad::BadField));
    }
}

/// All entries of a list are at most 65,535, and no more than 1,024 of them are there.
#[test]
fn bounds_of_lists_are_kept(rt: HostRuntime) {
    let alloc = rt.alloc();
    let most = joined(
        &rt,
        alloc,
        &[&[0xff, 0xff, 0xff, 0xff], &[7; 32], &[0, 0, 0xee, 0xff]],
    );
    let full = read(&rt, alloc, true, &most);
    assert!(rt; full.start() == 65_535 && full.len() == 65_535 && full.digest() == [7; 32]);
    for (start, count, bad) in [
        ([0xff, 0xff], [0, 1], Bad::BadLength),
        ([0xff, 0xfe], [0, 2], Bad::BadLength),
        ([0xfb, 0xff], [4, 1], Bad::BadLength),
        ([0xfc, 0], [4, 0], Bad::BadLength),
        ([0, 1], [4, 1], Bad::BadLength),
        ([0, 1], [4, 0], Bad::Short),
        ([0xff, 0xfe], [0, 1], Bad::Short),
        ([0xfb, 0xff], [4, 0], Bad::Short),
        ([0, 0], [0, 0], Bad::BadField),
    ] {
        let bytes = joined(&rt, alloc, &[&[0xff, 0xff], &start, &[7; 32], &count]);
        assert!(rt; defect(true, &bytes) == Some(bad));
        assert!(rt; defect(false, &bytes) == Some(Bad::BadLength));
    }
}

/// A part is looked at before those behind it.
#[test]
fn first_defects_are_told(rt: HostRuntime) {
    let alloc = rt.alloc();
    assert!(rt; defect(true, &[0xff]) == Some(Bad::Short));
    assert!(rt; defect(true, &[0xff, 0xff, 0]) == Some(Bad::Short));
    assert!(rt; defect(true, &[0xff, 0xff, 0, 0]) == Some(Bad::BadField));
    assert!(rt; defect(false, &[0xff, 0xff]) == Some(Bad::BadLength));
    let front = joined(&rt, alloc, &[&[0xff, 0xff, 0, 3], &[7; 32]]);
    let twice = joined(&rt, alloc, &[&front, &[0, 2], &AB, &AB]);
    assert!(rt; defect(true, &twice) == Some(Bad::BadField));
    let falls = joined(&rt, alloc, &[&front, &[0, 2], &C, &AB]);
    assert!(rt; defect(true, &falls) == Some(Bad::BadField));
    let many = joined(&rt, alloc, &[&front, &[4, 1], &AB, &AB]);
    assert!(rt; defect(true, &many) == Some(Bad::BadLength));
}

#[test]
fn laws_are_called() {
    trimmed_lists_are_formats();
    whole_lists_are_histories();
    histories_forget_nothing();
}
