//! A disk over a file.

use ab_disk::Disk;
use ab_io::Failed;
use ab_standard::FileDisk;
use std::fs;

const NAME: &str = "a-file-disk.test";

#[test]
fn a_file_has_what_was_written_and_synced(rt: HostRuntime) {
    let _gone = fs::remove_file(&rt, NAME);
    let mut disk = FileDisk::new(rt.clone().expect(&rt, "memory"));
    let mut buf = [0u8; 8];
    let unopened = disk.len();
    let opened = disk.open(NAME);
    let written = disk.write(0, b"abc");
    let synced = disk.sync();
    let len = disk.len();
    let count = disk.read(1, &mut buf);
    let mut second = FileDisk::new(rt.clone().expect(&rt, "memory"));
    let locked = second.open(NAME);
    drop(disk);
    let free = second.open(NAME);
    let later = second.len();
    let _gone = fs::remove_file(&rt, NAME);
    assert!(rt; unopened == Err(Failed) && opened.is_ok() && written.is_ok() && synced.is_ok());
    assert!(rt; len == Ok(3) && count == Ok(2) && &buf[..2] == b"bc".as_slice());
    assert!(rt; locked == Err(Failed) && free.is_ok() && later == Ok(3));
}
