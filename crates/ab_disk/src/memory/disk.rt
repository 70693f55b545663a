//! A disk in memory, some of whose calls fail.

ghost use Rattle.std.specs.Prelude.{◌≡◌, ◌<◌, ◌≤◌, ◌+◌, ◌^◌, ◌↔◌, ◌⊎◌, [], ◌∷◌, ◌++◌, length, take, drop, IfOk, IfSome, IsErr, IsErrOf, IsTrue, OnOk, OnErr, is_some};
ghost use Rattle.std.specs.declared.option.Option.TheVariants.{Some};
ghost use Rattle.std.specs.Option.{option_map};
ghost use Rattle.ab_disk.specs.Causes.{HasCause, HasRefusalCause};
ghost use Rattle.ab_io.specs.Told.{fails_next, one_call};
ghost use Rattle.ab_disk.specs.Disks.{Elapses, Follows, Only, Rests, Torn, written};
ghost use Rattle.ab_disk.specs.Told.{HasWritten, told};

use crate::disk::Disk;
use crate::memory::calls::{Calls, move_from, one_more};
use ab_io::{Failed, Refused};
use std::alloc::{AllocError, Global};
use std::marker::Model;

/// A disk holds fewer bytes.
const MOST: u64 = 1 << 62;

/// The numbers of the calls of each kind that fail, counted from 1.
#[derive(Drop)]
pub struct DiskFails {
    pub fail_open: Vec<u64>,
    pub fail_len: Vec<u64>,
    pub fail_read: Vec<u64>,
    pub fail_write: Vec<u64>,
    pub fail_sync: Vec<u64>,
}

/// A write: its place and its size, what a read gave before it, and whether that was synced.
#[derive(Drop)]
struct Write {
    at: u64,
    size: u64,
    before: Vec<u8>,
    synced: bool,
}

/// Bytes in memory. Stated calls fail, and a write that fails does nothing. It keeps its writes, since
/// they say what a crash may leave.
#[derive(Drop)]
pub struct MemDisk {
    alloc: Global,
    bytes: Vec<u8>,
    past: Vec<Write>,
    synced: bool,
    faults: u64,
    opens: Calls,
    lens: Calls,
    reads: Calls,
    writes: Calls,
    syncs: Calls,
}

/// It is seen as what a read gives, its writes, the newest first, its faults and its calls.
impl Model for MemDisk {
    ghost use Rattle.std.specs.Prelude.{map, reverse, ◌<◌, ◌^◌, length};
    ghost use Rattle.ab_disk.specs.Told.{ToldDisk};

    ghost Value = { ToldDisk };

    ghost view = { λ d. record {
      bytes = d.bytes.items;
      writes_so_far = reverse (map (λ w. record { at = w.at; size = w.size; before = w.before.items; synced = w.synced }) d.past.items);
      synced = d.synced;
      faults = d.faults;
      opens = d.opens;
      lens = d.lens;
      reads = d.reads;
      writes = d.writes;
      syncs = d.syncs;
    } };

    ghost invariant = { λ d. length d.bytes.items < 2 ^ 62 };
}

impl MemDisk {
    /// A disk with these bytes, all of them synced.
    pub fn new(alloc: Global, content: Vec<u8>, fail: DiskFails) -> MemDisk
        requires { length content.items < 2 ^ 62 }
        ensures bytes { result.bytes ≡ content.items }
        ensures synced { (result.writes_so_far ≡ []) × IsTrue result.synced }
        ensures faults { result.faults ≡ 0 }
        ensures opens { result.opens ≡ record { made = 0; fail = fail.fail_open.items } }
        ensures lens { result.lens ≡ record { made = 0; fail = fail.fail_len.items } }
        ensures reads { result.reads ≡ record { made = 0; fail = fail.fail_read.items } }
        ensures writes { result.writes ≡ record { made = 0; fail = fail.fail_write.items } }
        ensures syncs { result.syncs ≡ record { made = 0; fail = fail.fail_sync.items } }
    {
        MemDisk {
            alloc,
            bytes: content,
            past: Vec::new(alloc),
            synced: true,
            faults: 0,
            opens: Calls::new(fail.fail_open),
            lens: Calls::new(fail.fail_len),
            reads: Calls::new(fail.fail_read),
            writes: Calls::new(fail.fail_write),
            syncs: Calls::new(fail.fail_sync),
        }
    }

    /// What a read gives.
    pub fn content(&self) -> &[u8]
        ensures { result.now ≡ self.now.bytes }
    {
        self.bytes.as_slice()
    }
}

/// These bytes in the place of what stands there, and past the end.
fn with_written(alloc: Global, old: &[u8], at: usize, bytes: &[u8]) -> Result<Vec<u8>, AllocError>
    requires { at ≤ length old.now }
    ensures { IfOk result (λ v. v.items ≡ written at bytes.now old.now) }
{
    let mut next = Vec::from_slice(alloc, &old[..at])?;
    next.extend_from_slice(bytes)?;
    if bytes.len() < old.len() - at {
        next.extend_from_slice(&old[at + bytes.len()..])?;
    }
    Ok(next)
}

/// One write more.
fn add(past: &mut Vec<Write>, write: Write) -> Result<(), AllocError>
    ensures ok { OnOk result (past.new.items ≡ past.old.items ++ write ∷ []) }
    ensures err { OnErr result (past.new.items ≡ past.old.items) }
{
    past.push(write)?;
    Ok(())
}

impl Disk for MemDisk {
    ghost model = { told };

    fn open(&mut self, _name: &str) -> Result<(), Failed>
        ensures rests { Rests told self.old self.new }
        ensures cause { HasCause self.old.faults self.new.faults result }
        ensures fails { IsErr result ↔ IsTrue (fails_next self.old.opens) }
    {
        if self.opens.fails() {
            self.faults = one_more(self.faults);
            return Err(Failed);
        }
        Ok(())
    }

    fn len(&mut self) -> Result<u64, Failed>
        ensures bound { IfOk result (λ n. n < 2 ^ 62) }
        ensures len { IfOk result (λ n. n ≡ length self.old.bytes) }
        ensures rests { Rests told self.old self.new }
        ensures cause { HasCause self.old.faults self.new.faults result }
        ensures fails { IsErr result ↔ IsTrue (fails_next self.old.lens) }
    {
        if self.lens.fails() {
            self.faults = one_more(self.faults);
            return Err(Failed);
        }
        Ok(self.bytes.len() as u64)
    }

    fn read(&mut self, at: u64, buf: &mut [u8]) -> Result<usize, Failed>
        ensures bound { IfOk result (λ n. n ≤ length buf.new) }
        ensures bytes { IfOk result (λ n. take n buf.new ≡ take (length buf.new) (drop at self.old.bytes)) }
        ensures rests { Rests told self.old self.new }
        ensures cause { HasCause self.old.faults self.new.faults result }
        ensures fails { IsErr result ↔ IsTrue (fails_next self.old.reads) }
    {
        if self.reads.fails() {
            self.faults = one_more(self.faults);
            return Err(Failed);
        }
        Ok(read_from(&self.bytes, at as usize, buf))
    }

    fn write(&mut self, at: u64, bytes: &[u8]) -> Result<(), Refused>
        requires within { at ≤ length self.old.bytes }
        ensures told { is_some (Some self.new.bytes) ≡ is_some (Some self.old.bytes) }
        ensures ok { OnOk result (Some self.new.bytes ≡ option_map (written at bytes.now) (Some self.old.bytes)) }
        ensures err { OnErr result (Torn at (length bytes.now) self.old.bytes self.new.bytes) }
        ensures room { OnOk result (at + length bytes.now < 2 ^ 62) }
        ensures crash { Follows (Torn at (length bytes.now)) (told.may_leave self.old) (told.may_leave self.new) }
        ensures time { Elapses told self.old self.new }
        ensures cause { HasRefusalCause self.old.faults self.new.faults result }
        ensures kept { OnOk result (HasWritten self.old self.new at (length bytes.now)) }
        ensures fails { IsErrOf result Refused.Failed ↔ (IsTrue (fails_next self.old.writes) ⊎ (2 ^ 62 ≤ at + length bytes.now)) }
    {
        let size = bytes.len() as u64;
        if self.writes.fails() || size >= MOST - at {
            self.faults = one_more(self.faults);
            return Err(Refused::Failed);
        }
        let Ok(next) = with_written(self.alloc, &self.bytes, at as usize, bytes) else {
            return Err(Refused::OutOfMemory);
        };
        let Ok(before) = Vec::from_slice(self.alloc, &self.bytes) else {
            return Err(Refused::OutOfMemory);
        };
        let write = Write {
            at,
            size,
            before,
            synced: self.synced,
        };
        match add(&mut self.past, write) {
            Ok(()) => {
                self.bytes = next;
                self.synced = false;
                Ok(())
            }
            Err(AllocError) => Err(Refused::OutOfMemory),
        }
    }

    fn sync(&mut self) -> Result<(), Failed>
        ensures durable { OnOk result (Only self.old.bytes (told.may_leave self.new)) }
        ensures kept { self.new.writes_so_far ≡ self.old.writes_so_far }
        ensures rests { Rests told self.old self.new }
        ensures cause { HasCause self.old.faults self.new.faults result }
        ensures fails { IsErr result ↔ IsTrue (fails_next self.old.syncs) }
    {
        if self.syncs.fails() {
            self.faults = one_more(self.faults);
            return Err(Failed);
        }
        self.synced = true;
        Ok(())
    }

    ghost use Rattle.ab_disk.specs.Laws.{seen_is_left as left, counts_now as counts, only_now as only};

    ghost seen_is_left = { left };

    ghost counts_now = { counts };

    ghost only_now = { only };
}

/// Moves what stands from `at` to the front of the buffer, as much as there is room for.
fn read_from(content: &[u8], at: usize, buf: &mut [u8]) -> usize
    ensures bound { result ≤ length buf.new }
    ensures moved { take result buf.new ≡ take (length buf.new) (drop at content.now) }
{
    if at < content.len() {
        move_from(content, at, buf)
    } else {
        0
    }
}
