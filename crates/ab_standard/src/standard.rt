//! A source and a sink over any reader and writer of std, which do not tell their bytes.

ghost use Rattle.std.specs.Prelude.{◌≡◌, ◌<◌, ◌≤◌, length, IfErr, IfOk};
ghost use Rattle.std.specs.Io.KnownBytes.{ReadConsumes, WriteAppends};
ghost use Rattle.ab_io.specs.States.{Puts, Takes};
ghost use Rattle.ab_io.specs.declared.fault.Refused.TheVariants as refused;
ghost use Rattle.ab_standard.specs.Streams.{sink_of, source_of};

use ab_io::{Failed, Refused, Sink, Source};
use std::io::{ErrorKind, Read, Write};
use std::marker::Model;

/// How often a call that is interrupted is tried again.
const TRIES: u64 = u64::MAX;

/// A reader, and how often it has failed.
#[derive(Drop)]
pub struct StdSource<R> {
    inner: R,
    faults: u64,
}

/// It is seen as the reader, with its faults.
impl<R> Model for StdSource<R> {
    ghost use Rattle.ab_standard.specs.Streams.{StdStream};

    ghost Value = { StdStream R };

    ghost view = { λ s. record { stream = s.inner; faults = s.faults } };
}

impl<R> StdSource<R> {
    pub fn new(inner: R) -> StdSource<R>
        ensures { result ≡ record { stream = inner; faults = 0 } }
    {
        StdSource { inner, faults: 0 }
    }
}

impl<R: Read> Source for StdSource<R> {
    ghost use Rattle.ab_standard.specs.Streams.{source_of};

    ghost state = { source_of };

    fn take(&mut self, buf: &mut [u8]) -> Result<usize, Failed>
        ensures bound { IfOk result (λ n. n ≤ length buf.new) }
        ensures takes { Takes (source_of self.old) (source_of self.new) result buf.new }
        // the reader's own word is kept: its end is its end, and a fault isn't
        ensures reader { ReadConsumes (R.remaining self.old.stream) (R.remaining self.new.stream) result buf.new }
    {
        for _ in 0..TRIES {
            match self.inner.read(buf) {
                Ok(count) => return Ok(count),
                Err(fault) if fault.kind() == ErrorKind::Interrupted => {}
                Err(_) => break,
            }
        }
        self.faults = self.faults.saturating_add(1);
        Err(Failed)
    }
}

/// A writer, and how often it has failed.
#[derive(Drop)]
pub struct StdSink<W> {
    inner: W,
    faults: u64,
}

/// It is seen as the writer, with its faults.
impl<W> Model for StdSink<W> {
    ghost use Rattle.ab_standard.specs.Streams.{StdStream};

    ghost Value = { StdStream W };

    ghost view = { λ s. record { stream = s.inner; faults = s.faults } };
}

impl<W> StdSink<W> {
    pub fn new(inner: W) -> StdSink<W>
        ensures { result ≡ record { stream = inner; faults = 0 } }
    {
        StdSink { inner, faults: 0 }
    }
}

impl<W: Write> Sink for StdSink<W> {
    ghost use Rattle.ab_standard.specs.Streams.{sink_of};

    ghost state = { sink_of };

    fn put(&mut self, bytes: &[u8]) -> Result<usize, Refused>
        ensures bound { IfOk result (λ n. (0 < n) × (n ≤ length bytes.now)) }
        ensures puts { Puts (sink_of self.old) (sink_of self.new) result bytes.now }
        ensures refused { IfErr result (λ why. why ≡ refused.Failed) }
        // what the writer says that it took was given to it
        ensures writer { WriteAppends (W.contents self.old.stream) (W.contents self.new.stream) result bytes.now }
    {
        for _ in 0..TRIES {
            match self.inner.write(bytes) {
                Ok(0) => break,
                Ok(count) => return Ok(count),
                Err(fault) if fault.kind() == ErrorKind::Interrupted => {}
                Err(_) => break,
            }
        }
        self.faults = self.faults.saturating_add(1);
        Err(Refused::Failed)
    }
}
