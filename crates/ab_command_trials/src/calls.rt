//! A call of the command over objects in memory.

ghost use Rattle.std.specs.Prelude.{◌<◌, ◌^◌, length};

use ab_cluster::{Ended, MemSpawner};
use ab_command::run;
use ab_disk::{DiskFails, MemDisk};
use ab_io::{MemClock, MemLink, MemSink, MemSource};
use std::alloc::{AllocError, Global};
use std::process::Abort;

/// The numbers of the calls that fail, of each kind, counted from 1.
#[derive(Clone, Copy)]
pub(crate) struct Failing {
    pub(crate) takes: &'static [u64],
    pub(crate) puts: &'static [u64],
    pub(crate) says: &'static [u64],
    pub(crate) opens: &'static [u64],
    pub(crate) recvs: &'static [u64],
    pub(crate) sends: &'static [u64],
    pub(crate) starts: &'static [u64],
    pub(crate) waits: &'static [u64],
}

/// No call fails.
pub(crate) const NOTHING: Failing = Failing {
    takes: &[],
    puts: &[],
    says: &[],
    opens: &[],
    recvs: &[],
    sends: &[],
    starts: &[],
    waits: &[],
};

/// What the command came to.
#[derive(Drop)]
pub(crate) struct Told {
    pub(crate) status: u8,
    pub(crate) out: MemSink,
    pub(crate) err: MemSink,
    pub(crate) link: MemLink,
    pub(crate) spawner: MemSpawner,
}

/// A sink whose calls with these numbers fail.
fn sink(alloc: Global, fail: &[u64]) -> Result<MemSink, AllocError> {
    Ok(MemSink::new(alloc, Vec::from_slice(alloc, fail)?))
}

fn link(alloc: Global, to_come: Vec<Vec<u8>>, failing: &Failing) -> Result<MemLink, AllocError> {
    let opens = Vec::from_slice(alloc, failing.opens)?;
    let recvs = Vec::from_slice(alloc, failing.recvs)?;
    let sends = Vec::from_slice(alloc, failing.sends)?;
    Ok(MemLink::new(alloc, to_come, opens, recvs, sends))
}

/// A spawner whose children end so.
fn spawner(alloc: Global, ends: Vec<Ended>, failing: &Failing) -> Result<MemSpawner, AllocError> {
    let starts = Vec::from_slice(alloc, failing.starts)?;
    let waits = Vec::from_slice(alloc, failing.waits)?;
    Ok(MemSpawner::new(alloc, ends, starts, waits))
}

/// A disk with this content, of which the syncs with these numbers fail.
pub(crate) fn disk(alloc: Global, content: &[u8], syncs: &[u64]) -> Result<MemDisk, AllocError>
    requires { length content.now < 2 ^ 62 }
{
    let fails = DiskFails {
        fail_open: Vec::new(alloc),
        fail_len: Vec::new(alloc),
        fail_read: Vec::new(alloc),
        fail_write: Vec::new(alloc),
        fail_sync: Vec::from_slice(alloc, syncs)?,
    };
    Ok(MemDisk::new(alloc, Vec::from_slice(alloc, content)?, fails))
}

/// Runs the command over an input, a link to which these datagrams come, a disk, and children that end so, at a clock that stands
/// at 0.
fn call_with(
    alloc: Global,
    words: &[&str],
    content: &[u8],
    to_come: Vec<Vec<u8>>,
    ends: Vec<Ended>,
    disk: &mut MemDisk,
    failing: &Failing,
) -> Result<Told, AllocError> {
    let takes = Vec::from_slice(alloc, failing.takes)?;
    let mut input = MemSource::new(Vec::from_slice(alloc, content)?, takes);
    let mut out = sink(alloc, failing.puts)?;
    let mut err = sink(alloc, failing.says)?;
    let mut link = link(alloc, to_come, failing)?;
    let mut clock = MemClock::new(Vec::new(alloc));
    let mut spawner = spawner(alloc, ends, failing)?;
    let status = run(
        alloc,
        words,
        &mut input,
        &mut out,
        &mut err,
        &mut link,
        &mut clock,
        disk,
        &mut spawner,
    );
    Ok(Told {
        status,
        out,
        err,
        link,
        spawner,
    })
}

/// Runs the command over an input and a link to which these datagrams come.
pub(crate) fn call_over(
    alloc: Global,
    words: &[&str],
    content: &[u8],
    to_come: Vec<Vec<u8>>,
    failing: &Failing,
) -> Result<Told, AllocError> {
    let mut disk = disk(alloc, b"", &[])?;
    call_on(alloc, words, content, to_come, &mut disk, failing)
}

/// Runs the command over an input, a link to which these datagrams come, and a disk.
pub(crate) fn call_on(
    alloc: Global,
    words: &[&str],
    content: &[u8],
    to_come: Vec<Vec<u8>>,
    disk: &mut MemDisk,
    failing: &Failing,
) -> Result<Told, AllocError> {
    let ends = Vec::new(alloc);
    call_with(alloc, words, content, to_come, ends, disk, failing)
}

/// Runs the command over an input, a quiet link and children that end so.
pub(crate) fn call_children(
    alloc: Global,
    words: &[&str],
    content: &[u8],
    ends: Vec<Ended>,
    failing: &Failing,
) -> Result<Told, AllocError> {
    let mut disk = disk(alloc, b"", &[])?;
    let to_come = Vec::new(alloc);
    call_with(alloc, words, content, to_come, ends, &mut disk, failing)
}

/// Runs the command over an input and a quiet link.
pub(crate) fn call(
    alloc: Global,
    words: &[&str],
    content: &[u8],
    failing: &Failing,
) -> Result<Told, AllocError> {
    call_over(alloc, words, content, Vec::new(alloc), failing)
}

/// What a call has to come to.
pub(crate) fn expect(rt: &impl Abort, told: &Told, status: u8, out: &str, err: &str) {
    assert!(rt; told.status == status);
    assert!(rt; told.out.bytes() == out.as_bytes());
    assert!(rt; told.err.bytes() == err.as_bytes());
}
