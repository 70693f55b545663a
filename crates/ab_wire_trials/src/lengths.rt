//! The longest NEW-VIEWs, with signatures of 5,076 bytes.

use ab_num::{OutOfMemory, Party};
use ab_open::read;
use ab_piece::cut;
use std::alloc::Global;

/// Adds a signature behind its length.
fn put_sig(out: &mut Vec<u8>) -> Result<(), OutOfMemory> {
    out.extend_from_slice(&5076u16.to_be_bytes())?;
    out.extend_from_slice(&[7; 5076])?;
    Ok(())
}

/// Adds so many requests of client 0, each with a command of 128 bytes.
fn put_requests(out: &mut Vec<u8>, count: u64) -> Result<(), OutOfMemory> {
    for k in 0..count {
        out.extend_from_slice(&[0, 0])?;
        out.extend_from_slice(&k.wrapping_add(1).to_be_bytes())?;
        out.extend_from_slice(&128u16.to_be_bytes())?;
        out.extend_from_slice(&[97; 128])?;
    }
    Ok(())
}

/// Adds the statement of a view change in instance 1: its view is 1, and all 17 slots are prepared in view 0.
fn put_statement(out: &mut Vec<u8>) -> Result<(), OutOfMemory> {
    out.extend_from_slice(&[10, 0, 0, 0, 0, 0, 0, 1, 0, 0, 0, 1, 17])?;
    for _ in 0..17 {
        out.extend_from_slice(&[0; 36])?;
    }
    put_sig(out)
}

/// Adds a view change as long as can be: with a base of 1,024 requests, and seven signatures for each slot.
fn put_change(out: &mut Vec<u8>) -> Result<(), OutOfMemory> {
    put_statement(out)?;
    out.extend_from_slice(&1024u16.to_be_bytes())?;
    put_requests(out, 1024)?;
    put_requests(out, 16)?;
    for _ in 0..17 {
        out.push(7)?;
        for r in 0..7u8 {
            out.push(r)?;
            put_sig(out)?;
        }
    }
    Ok(())
}

/// A NEW-VIEW with so many of them.
fn new_view(alloc: Global, changes: u8) -> Result<Vec<u8>, OutOfMemory> {
    let mut out = Vec::new(alloc);
    out.extend_from_slice(&[12, 11, 0, 0, 0, 0, 0, 0, 1, 0, 0, 0, 1])?;
    out.extend_from_slice(&[0; 32])?;
    out.push(changes)?;
    for _ in 0..changes {
        put_change(&mut out)?;
    }
    Ok(out)
}

#[test]
fn a_new_view_of_five_can_be_sent(rt: HostRuntime) {
    let bytes = new_view(rt.alloc(), 5).expect(&rt, "memory");
    assert!(rt; bytes.len() == 3_778_661);
    assert!(rt; read(bytes.as_slice()).is_ok());
    let pieces = cut(rt.alloc(), Party::Replica(0), 1, bytes.as_slice()).expect(&rt, "memory");
    assert!(rt; pieces.len() == 462);
}

#[test]
fn a_new_view_of_seven_is_read(rt: HostRuntime) {
    let bytes = new_view(rt.alloc(), 7).expect(&rt, "memory");
    assert!(rt; bytes.len() == 5_290_107);
    assert!(rt; read(bytes.as_slice()).is_ok());
}
