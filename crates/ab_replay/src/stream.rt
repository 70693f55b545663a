//! Whole inputs and outputs.

ghost use Rattle.std.specs.Prelude.{◌≤◌, length, IfOk, IfErr};
ghost use Rattle.ab_replay.specs.Streams.{IsAllOf, ReadCause, Writes, most_bytes};

use ab_io::{Failed, Refused, Sink, Source};
use std::alloc::Global;
use thiserror::Error;

/// The most bytes that an input may have.
const MOST: usize = 67_108_864;

#[derive(Clone, Copy, Debug, PartialEq, Eq, Error)]
pub enum ReadFault {
    #[error("reading failed")]
    Failed,
    #[error("the input is too long")]
    TooLong,
    #[error("out of memory")]
    OutOfMemory,
}

#[derive(Clone, Copy, Debug, PartialEq, Eq, Error)]
pub enum WriteFault {
    #[error("writing failed")]
    Failed,
    #[error("out of memory")]
    OutOfMemory,
}

/// Reads an input to its end.
pub fn read_all<I: Source>(alloc: Global, input: &mut I) -> Result<Vec<u8>, ReadFault>
    ensures all { IfOk result (λ v. IsAllOf (I.state input.old).left v.items) }
    ensures short { IfOk result (λ v. length v.items ≤ most_bytes) }
    ensures later { (I.state input.old).faults ≤ (I.state input.new).faults }
    ensures cause { IfErr result (λ e. ReadCause e (I.state input.old) (I.state input.new)) }
{
    let mut all = Vec::new(alloc);
    let mut buf = [0u8; 4096];
    'reading: while all.len() <= MOST {
        let count = match input.take(&mut buf) {
            Ok(count) => count,
            Err(Failed) => return Err(ReadFault::Failed),
        };
        if count == 0 {
            return Ok(all);
        }
        if all.extend_from_slice(&buf[..count]).is_err() {
            return Err(ReadFault::OutOfMemory);
        }
    }
    Err(ReadFault::TooLong)
}

/// Writes all of the bytes.
pub fn write_all<K: Sink>(sink: &mut K, bytes: &[u8]) -> Result<(), WriteFault>
    ensures { Writes (K.state sink.old) (K.state sink.new) result bytes.now }
{
    let mut done = 0;
    'writing: while done < bytes.len() {
        match sink.put(&bytes[done..]) {
            Ok(count) => done += count,
            Err(Refused::Failed) => return Err(WriteFault::Failed),
            Err(Refused::OutOfMemory) => return Err(WriteFault::OutOfMemory),
        }
    }
    Ok(())
}
