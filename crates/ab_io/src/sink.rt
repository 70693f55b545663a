//! Bytes that go outside.

ghost use Rattle.std.specs.Prelude.{◌<◌, ◌≤◌, length, IfOk};
ghost use Rattle.ab_io.specs.States.{Puts, SinkState};

use crate::fault::Refused;

/// A stream of bytes that grows at its end.
pub trait Sink {
    /// What it holds, where it is told, and how often it has failed.
    ghost state: { Self → SinkState };

    /// Appends the stated number of bytes from the front, at least one. After an `Err` nothing was
    /// appended.
    fn put(&mut self, bytes: &[u8]) -> Result<usize, Refused>
        requires { 0 < length bytes.now }
        ensures bound { IfOk result (λ n. (0 < n) × (n ≤ length bytes.now)) }
        ensures puts { Puts (state self.old) (state self.new) result bytes.now };
}
