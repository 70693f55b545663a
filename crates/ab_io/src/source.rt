//! Bytes that come from outside.

ghost use Rattle.std.specs.Prelude.{◌<◌, ◌≤◌, length, IfOk};
ghost use Rattle.ab_io.specs.States.{SourceState, Takes};

use crate::fault::Failed;

/// A stream of bytes that is read from its front.
pub trait Source {
    /// What is left, where it is told, and how often it has failed.
    ghost state: { Self → SourceState };

    /// Moves the next bytes to the front of the buffer, at most as many as it has room for, and
    /// returns their number. None are moved only at the end. After a fault nothing was moved.
    fn take(&mut self, buf: &mut [u8]) -> Result<usize, Failed>
        requires { 0 < length buf.old }
        ensures bound { IfOk result (λ n. n ≤ length buf.new) }
        ensures takes { Takes (state self.old) (state self.new) result buf.new };
}
