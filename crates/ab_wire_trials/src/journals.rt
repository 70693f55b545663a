//! Journals that a party goes on with.

use ab_disk::{DiskFails, MemDisk};
use ab_loop::{NodeEventRef, Past};
use ab_restart::{ResumeFault, resume};
use std::alloc::Global;
use std::process::Abort;

const TEXT: [u8; 4] = *b"end\n";

/// The journal of this text without events, as Python's `hashlib` makes it, with the next gate.
const BEGUN: [u8; 39] = [
    0x01, 0x00, 0x00, 0x00, 0x21, 0x00, 0xd9, 0x16, 0x46, 0xa4, 0x7b, 0x54, 0x55, 0x20, 0x3b, 0xae,
    0x65, 0x03, 0x0c, 0xa6, 0xea, 0xe3, 0x3e, 0xd7, 0x86, 0xd3, 0x75, 0x32, 0xb3, 0xe5, 0x92, 0xaf,
    0x4d, 0xc7, 0x19, 0x05, 0x78, 0x7b, 0x00,
];

/// A command, a message and a timeout as entries, with the next gate.
const EVENTS: [u8; 25] = [
    1, 0, 0, 0, 6, 1, b'g', b'e', b't', b' ', b'a', 1, 0, 0, 0, 2, 2, 0xff, 1, 0, 0, 0, 1, 3, 0,
];

/// A disk with these bytes, at which this sync fails, if it is one.
fn disk_with(rt: &impl Abort, alloc: Global, content: &[u8], sync: u64) -> MemDisk {
    let bytes = if content.len() < 1000 {
        Vec::from_slice(alloc, content).expect(rt, "memory")
    } else {
        Vec::new(alloc)
    };
    let fails = DiskFails {
        fail_open: Vec::new(alloc),
        fail_len: Vec::new(alloc),
        fail_read: Vec::new(alloc),
        fail_write: Vec::new(alloc),
        fail_sync: vec![in alloc; sync].expect(rt, "memory"),
    };
    MemDisk::new(alloc, bytes, fails)
}

/// The events of a journal with these bytes.
fn past_of(rt: &impl Abort, alloc: Global, content: &[u8]) -> Result<Past, ResumeFault> {
    let mut disk = disk_with(rt, alloc, content, 0);
    match resume(alloc, &TEXT, &mut disk) {
        Ok((past, _keeper)) => Ok(past),
        Err(fault) => Err(fault),
    }
}

/// What the disk holds where a journal with these bytes has no events.
fn is_begun(rt: &impl Abort, alloc: Global, content: &[u8]) -> bool {
    let mut disk = disk_with(rt, alloc, content, 0);
    match resume(alloc, &TEXT, &mut disk) {
        Ok((past, _keeper)) => past.is_empty() && disk.content() == BEGUN.as_slice(),
        Err(_) => false,
    }
}

#[test]
fn an_empty_journal_gets_its_first_body(rt: HostRuntime) {
    let alloc = rt.alloc();
    assert!(rt; is_begun(&rt, alloc, &[]));
    assert!(rt; is_begun(&rt, alloc, &[1]));
    assert!(rt; is_begun(&rt, alloc, &BEGUN));
}

#[test]
fn a_sync_that_fails_is_a_fault_of_the_disk(rt: HostRuntime) {
    let alloc = rt.alloc();
    let mut disk = disk_with(&rt, alloc, &[], 1);
    let fault = resume(alloc, &TEXT, &mut disk).err();
    drop(disk);
    assert!(rt; fault == Some(ResumeFault::DiskFailed));
}

#[test]
fn a_journal_of_another_text_is_refused(rt: HostRuntime) {
    let alloc = rt.alloc();
    let mut disk = disk_with(&rt, alloc, &BEGUN, 0);
    let fault = resume(alloc, b"end", &mut disk).err();
    drop(disk);
    assert!(rt; fault == Some(ResumeFault::Foreign(1)));
}

/// The journal of the text with these entries.
fn with_entries(rt: &impl Abort, alloc: Global, entries: &[u8]) -> Vec<u8> {
    let mut content = Vec::from_slice(alloc, &BEGUN[..38]).expect(rt, "memory");
    content.extend_from_slice(entries).expect(rt, "memory");
    content
}

/// The first bytes.
fn front(content: &[u8], count: usize) -> &[u8] {
    if count < content.len() {
        &content[..count]
    } else {
        content
    }
}

/// How many of the events are whole where the journal has so many bytes.
fn whole_events(count: usize) -> usize {
    usize::from(count >= 49) + usize::from(count >= 56) + usize::from(count >= 62)
}

#[test]
fn a_journal_that_is_cut_has_the_entries_that_are_whole(rt: HostRuntime) {
    let alloc = rt.alloc();
    let content = with_entries(&rt, alloc, &EVENTS);
    let mut all = true;
    for count in 38usize..64 {
        all = all
            && match past_of(&rt, alloc, front(&content, count)) {
                Ok(past) => past.len() == whole_events(count),
                Err(_) => false,
            };
    }
    assert!(rt; all);
}

/// Whether these are the three events.
fn are_the_events(past: &Past) -> bool {
    past.len() == 3
        && matches!(past.get(0), NodeEventRef::Invoke(command) if command == b"get a".as_slice())
        && matches!(past.get(1), NodeEventRef::Message(bytes) if bytes == [0xffu8].as_slice())
        && matches!(past.get(2), NodeEventRef::Timeout)
}

#[test]
fn events_come_back_as_they_were_kept(rt: HostRuntime) {
    let alloc = rt.alloc();
    let content = with_entries(&rt, alloc, &EVENTS);
    let past = past_of(&rt, alloc, &content).expect(&rt, "journal");
    let same = are_the_events(&past);
    drop(past);
    assert!(rt; same);
}

#[test]
fn the_first_entry_of_no_form_is_named(rt: HostRuntime) {
    let alloc = rt.alloc();
    // A timeout, and then a message without bytes.
    let content = with_entries(
        &rt,
        alloc,
        &[1, 0, 0, 0, 1, 3, 1, 0, 0, 0, 1, 2, 1, 0, 0, 0, 1, 9, 0],
    );
    let fault = past_of(&rt, alloc, &content).err();
    assert!(rt; fault == Some(ResumeFault::Foreign(3)));
}
