//! A source in memory.

ghost use Rattle.std.specs.Prelude.{◌≡◌, ◌≤◌, length, IsErr, IfOk, IsTrue, ◌↔◌};
ghost use Rattle.ab_io.specs.States.{Takes};
ghost use Rattle.ab_io.specs.Told.{fails_next, one_call, source_of};

use crate::fault::Failed;
use crate::memory::calls::{Calls, move_from, one_more};
use crate::source::Source;
use std::marker::Model;

/// Bytes in memory that are read from the front. Stated calls fail.
#[derive(Drop)]
pub struct MemSource {
    content: Vec<u8>,
    at: usize,
    faults: u64,
    calls: Calls,
}

/// It is seen as what is left, with its faults and its calls.
impl Model for MemSource {
    ghost use Rattle.std.specs.Prelude.{drop, ◌≤◌, length};
    ghost use Rattle.ab_io.specs.Told.{Told};

    ghost Value = { Told };

    ghost view = { λ s. record { bytes = drop s.at s.content.items; faults = s.faults; calls = s.calls } };

    ghost invariant = { λ s. s.at ≤ length s.content.items };
}

impl MemSource {
    /// A source of these bytes, whose calls with the numbers in `fail` fail, counted from 1.
    pub fn new(content: Vec<u8>, fail: Vec<u64>) -> MemSource
        ensures { result ≡ record { bytes = content.items; faults = 0; calls = record { made = 0; fail = fail.items } } }
    {
        MemSource {
            content,
            at: 0,
            faults: 0,
            calls: Calls::new(fail),
        }
    }
}

impl Source for MemSource {
    ghost use Rattle.ab_io.specs.Told.{source_of};

    ghost state = { source_of };

    fn take(&mut self, buf: &mut [u8]) -> Result<usize, Failed>
        ensures bound { IfOk result (λ n. n ≤ length buf.new) }
        ensures takes { Takes (source_of self.old) (source_of self.new) result buf.new }
        ensures fails { IsErr result ↔ IsTrue (fails_next self.old.calls) }
        ensures calls { self.new.calls ≡ one_call self.old.calls }
    {
        if self.calls.fails() {
            self.faults = one_more(self.faults);
            return Err(Failed);
        }
        let count = move_from(&self.content, self.at, buf);
        self.at += count;
        Ok(count)
    }
}
