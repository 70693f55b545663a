//! ABORTs of trimmed logs, as bytes that are written out here.

ghost use Rattle.ab_wire.specs.Views.{IsReceived};

use ab_msg::{Content, Msg};
use ab_num::OutOfMemory;
use ab_open::{Bad, MsgRef, read};
use ab_write::write;
use std::alloc::Global;
use std::mem::drop;

/// Client 5's requests `ab` with stamp 258 and `c` with stamp 259.
const ENTRIES: [u8; 29] = [
    0, 2, 0, 5, 0, 0, 0, 0, 0, 0, 1, 2, 0, 2, 0x61, 0x62, 0, 5, 0, 0, 0, 0, 0, 0, 1, 3, 0, 1, 0x63,
];

/// A signed ABORT of replica 2 in instance 1 with so many trimmed entries, and behind their digest these bytes.
fn abort(alloc: Global, start: u16, rest: &[u8]) -> Result<Vec<u8>, OutOfMemory> {
    let mut out = Vec::new(alloc);
    out.extend_from_slice(&[6, 6, 0, 0, 2, 0, 0, 0, 1, 0xff, 0xff])?;
    out.extend_from_slice(&start.to_be_bytes())?;
    out.extend_from_slice(&[7; 32])?;
    out.extend_from_slice(rest)?;
    out.extend_from_slice(&2348u16.to_be_bytes())?;
    out.extend_from_slice(&[9; 2348])?;
    Ok(out)
}

/// What is wrong with the bytes.
fn defect(bytes: &[u8]) -> Option<Bad> {
    match read(bytes) {
        Ok(_) => None,
        Err(bad) => Some(bad),
    }
}

/// Whether the content is that of the ABORT of three trimmed entries and the two.
fn is_told(content: &Content) -> bool {
    match content {
        Content::TrimmedAbort {
            instance,
            start,
            digest,
            rest,
            ..
        } => *instance == 1 && *start == 3 && *digest == [7; 32] && rest.len() == 2,
        _ => false,
    }
}

/// Whether the message, owned and copied, is that ABORT and has these bytes.
fn is_written(alloc: Global, m: MsgRef<'_>, bytes: &[u8]) -> Result<bool, OutOfMemory>
    requires { IsReceived m }
{
    let owned = m.own(alloc)?;
    let copy = owned.copy(alloc)?;
    let written = write(alloc, &copy)?;
    let is_same = match &copy {
        Msg::Abort { abort } => abort.maker == 2 && is_told(&abort.content),
        _ => false,
    };
    drop(copy);
    drop(owned);
    Ok(is_same && written.as_slice() == bytes)
}

#[test]
fn aborts_of_trimmed_logs_are_read_and_written(rt: HostRuntime) {
    let alloc = rt.alloc();
    let bytes = abort(alloc, 3, &ENTRIES).expect(&rt, "memory");
    let is_same = match read(bytes.as_slice()) {
        Ok(m) => is_written(alloc, m, bytes.as_slice()).expect(&rt, "memory"),
        Err(_) => false,
    };
    assert!(rt; is_same);
    for n in 0..bytes.len() {
        assert!(rt; defect(&bytes[..n]) == Some(Bad::Short));
    }
}

/// At most 65,535 entries with those that are trimmed, and at most 1,024 behind them.
#[test]
fn bounds_of_trimmed_logs_are_kept(rt: HostRuntime) {
    let alloc = rt.alloc();
    for (start, rest, bad) in [
        (65_535, [0, 0].as_slice(), None),
        (65_533, ENTRIES.as_slice(), None),
        (65_534, ENTRIES.as_slice(), Some(Bad::BadLength)),
        (1, [4, 1].as_slice(), Some(Bad::BadLength)),
        (0, ENTRIES.as_slice(), Some(Bad::BadField)),
    ] {
        let bytes = abort(alloc, start, rest).expect(&rt, "memory");
        assert!(rt; defect(bytes.as_slice()) == bad);
    }
}
