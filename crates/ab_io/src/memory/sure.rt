//! A source and a sink in memory that never fail.

ghost use Rattle.std.specs.Prelude.{◌≡◌, ◌<◌, ◌≤◌, [], length, IfOk, IfErr, IsOk};
ghost use Rattle.ab_io.specs.States.{Puts, Takes};
ghost use Rattle.ab_io.specs.Told.{sure_sink, sure_source};

use crate::fault::{Failed, Refused};
use crate::memory::calls::move_from;
use crate::sink::Sink;
use crate::source::Source;
use std::alloc::Global;
use std::marker::Model;

/// Bytes in memory that are read from the front.
#[derive(Drop)]
pub struct SureSource {
    content: Vec<u8>,
    at: usize,
}

/// It is seen as what is left.
impl Model for SureSource {
    ghost use Rattle.std.specs.Prelude.{List, ℕ, drop, ◌≤◌, length};

    ghost Value = { List ℕ };

    ghost view = { λ s. drop s.at s.content.items };

    ghost invariant = { λ s. s.at ≤ length s.content.items };
}

impl SureSource {
    /// A source of these bytes.
    pub fn new(content: Vec<u8>) -> SureSource
        ensures { result ≡ content.items }
    {
        SureSource { content, at: 0 }
    }
}

impl Source for SureSource {
    ghost use Rattle.ab_io.specs.Told.{sure_source};

    ghost state = { sure_source };

    fn take(&mut self, buf: &mut [u8]) -> Result<usize, Failed>
        ensures bound { IfOk result (λ n. n ≤ length buf.new) }
        ensures takes { Takes (sure_source self.old) (sure_source self.new) result buf.new }
        ensures sure { IsOk result }
    {
        let count = move_from(&self.content, self.at, buf);
        self.at += count;
        Ok(count)
    }
}

/// Bytes in memory that grow at the end.
#[derive(Drop)]
pub struct SureSink {
    held: Vec<u8>,
}

/// It is seen as what it holds.
impl Model for SureSink {
    ghost use Rattle.std.specs.Prelude.{List, ℕ};

    ghost Value = { List ℕ };

    ghost view = { λ s. s.held.items };
}

impl SureSink {
    /// An empty sink.
    pub fn new(alloc: Global) -> SureSink
        ensures { result ≡ [] }
    {
        SureSink {
            held: Vec::new(alloc),
        }
    }

    /// What it holds.
    pub fn bytes(&self) -> &[u8]
        ensures { result.now ≡ self.now }
    {
        self.held.as_slice()
    }
}

impl Sink for SureSink {
    ghost use Rattle.ab_io.specs.Told.{sure_sink};

    ghost state = { sure_sink };

    fn put(&mut self, bytes: &[u8]) -> Result<usize, Refused>
        requires { 0 < length bytes.now }
        ensures bound { IfOk result (λ n. (0 < n) × (n ≤ length bytes.now)) }
        ensures puts { Puts (sure_sink self.old) (sure_sink self.new) result bytes.now }
        ensures sure { IfErr result (λ why. why ≡ Refused.OutOfMemory) }
    {
        match self.held.extend_from_slice(bytes) {
            Ok(()) => Ok(bytes.len()),
            Err(_) => Err(Refused::OutOfMemory),
        }
    }
}
