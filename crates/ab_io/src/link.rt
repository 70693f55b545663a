//! Datagrams that come and go.

ghost use Rattle.std.specs.Prelude.{◌≤◌, length};
ghost use Rattle.ab_io.specs.Datagrams.{FitsIn, longest_datagram};
ghost use Rattle.ab_io.specs.States.{LinkState, Opens, Receives, Sends};

use crate::fault::{Failed, Refused};

/// How many bytes of a datagram are given at most: one more than the longest piece of a message has with its header,
/// so that what is longer than a piece isn't taken for one.
pub const LONGEST_DATAGRAM: usize = 8209;

/// What came.
#[derive(Clone, Copy, Debug, PartialEq, Eq)]
pub enum Got {
    /// A datagram of which so many bytes are given.
    Bytes(usize),
    /// None came in time.
    Quiet,
    /// The outside failed.
    Failed,
}

/// Datagrams from and to the ports of this machine.
pub trait Link {
    /// The datagrams that are to come and those that were sent, where they are told, how often `open`
    /// and `recv` have failed, and how often `send` has.
    ghost state: { Self → LinkState };

    /// Opens the port at which datagrams come.
    fn open(&mut self, port: u16) -> Result<(), Failed>
        ensures { Opens (state self.old) (state self.new) result };

    /// Waits for a datagram for at most so many milliseconds, and puts it at the front of the
    /// buffer. Of a datagram of more than 8,209 bytes the first 8,209 are given.
    fn recv(&mut self, buf: &mut [u8], wait_ms: u32) -> Got
        requires { longest_datagram ≤ length buf.old }
        ensures bound { FitsIn longest_datagram result }
        ensures receives { Receives (state self.old) (state self.new) result buf.new };

    /// Sends a datagram to a port. After `Failed` it is lost, after `OutOfMemory` nothing has
    /// changed.
    fn send(&mut self, port: u16, bytes: &[u8]) -> Result<(), Refused>
        ensures { Sends (state self.old) (state self.new) result port bytes.now };
}
