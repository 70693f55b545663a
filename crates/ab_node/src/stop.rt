//! Why a node stopped.

use ab_loop::ServeFault;
use ab_replay::Refusal;

/// Why a node stopped before all was done.
#[derive(Clone, Copy, Debug, PartialEq, Eq)]
pub enum Stop {
    /// The input failed.
    Read,
    /// The input has more bytes than are taken.
    TooLong,
    /// A line of the input is out of form or missing.
    Refused(Refusal),
    /// The party was served, and this came.
    Serving(ServeFault),
    /// The disk of its journal failed before it was served.
    Disk,
    /// This entry of its journal is of no stated form, or names another text. The first has the number 1.
    Journal(u64),
    /// Memory was refused before it was served.
    OutOfMemory,
}
