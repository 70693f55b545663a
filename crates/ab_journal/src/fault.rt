//! Why a journal was refused.

use thiserror::Error;

/// Why nothing was read or appended. After it the journal has to be opened again.
#[derive(Clone, Copy, Debug, PartialEq, Eq, Error)]
pub enum JournalFault {
    /// The disk's count of faults has risen.
    #[error("the disk failed")]
    DiskFailed,
    #[error("out of memory")]
    OutOfMemory,
}
