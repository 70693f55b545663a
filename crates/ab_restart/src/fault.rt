//! Why a journal can't be gone on with.

ghost use Rattle.std.specs.Prelude.{◌≡◌};
ghost use Rattle.ab_restart.specs.Causes.{fault_of};

use ab_journal::JournalFault;
use thiserror::Error;

/// Why a party's journal can't be gone on with.
#[derive(Clone, Copy, Debug, PartialEq, Eq, Error)]
pub enum ResumeFault {
    /// The disk's count of faults has risen.
    #[error("disk fault")]
    DiskFailed,
    /// The first entry, from 1, that is of no stated form; or 1, where it names another text.
    #[error("journal refused {0}")]
    Foreign(u64),
    #[error("out of memory")]
    OutOfMemory,
}

/// The same fault.
pub(crate) fn fault_of(fault: JournalFault) -> ResumeFault
    ensures { result ≡ fault_of fault }
{
    match fault {
        JournalFault::DiskFailed => ResumeFault::DiskFailed,
        JournalFault::OutOfMemory => ResumeFault::OutOfMemory,
    }
}
