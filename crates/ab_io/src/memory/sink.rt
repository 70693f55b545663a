//! A sink in memory.

ghost use Rattle.std.specs.Prelude.{◌≡◌, ◌<◌, ◌≤◌, [], length, IfOk, IsErrOf, IsTrue, ◌↔◌};
ghost use Rattle.ab_io.specs.States.{Puts};
ghost use Rattle.ab_io.specs.Told.{fails_next, one_call, sink_of};

use crate::fault::Refused;
use crate::memory::calls::{Calls, one_more};
use crate::sink::Sink;
use std::alloc::Global;
use std::marker::Model;

/// Bytes in memory that grow at the end. Stated calls fail.
#[derive(Drop)]
pub struct MemSink {
    held: Vec<u8>,
    faults: u64,
    calls: Calls,
}

/// It is seen as what it holds, with its faults and its calls.
impl Model for MemSink {
    ghost use Rattle.ab_io.specs.Told.{Told};

    ghost Value = { Told };

    ghost view = { λ s. record { bytes = s.held.items; faults = s.faults; calls = s.calls } };
}

impl MemSink {
    /// An empty sink, whose calls with the numbers in `fail` fail, counted from 1.
    pub fn new(alloc: Global, fail: Vec<u64>) -> MemSink
        ensures { result ≡ record { bytes = []; faults = 0; calls = record { made = 0; fail = fail.items } } }
    {
        MemSink {
            held: Vec::new(alloc),
            faults: 0,
            calls: Calls::new(fail),
        }
    }

    /// What it holds.
    pub fn bytes(&self) -> &[u8]
        ensures { result.now ≡ self.now.bytes }
    {
        self.held.as_slice()
    }
}

impl Sink for MemSink {
    ghost use Rattle.ab_io.specs.Told.{sink_of};

    ghost state = { sink_of };

    fn put(&mut self, bytes: &[u8]) -> Result<usize, Refused>
        requires { 0 < length bytes.now }
        ensures bound { IfOk result (λ n. (0 < n) × (n ≤ length bytes.now)) }
        ensures puts { Puts (sink_of self.old) (sink_of self.new) result bytes.now }
        ensures fails { IsErrOf result Refused.Failed ↔ IsTrue (fails_next self.old.calls) }
        ensures calls { self.new.calls ≡ one_call self.old.calls }
    {
        if self.calls.fails() {
            self.faults = one_more(self.faults);
            return Err(Refused::Failed);
        }
        match self.held.extend_from_slice(bytes) {
            Ok(()) => Ok(bytes.len()),
            Err(_) => Err(Refused::OutOfMemory),
        }
    }
}
