//! How a call of the program ends.

ghost use Rattle.std.specs.Prelude.{◌≡◌, IfOk, string_bytes};
ghost use Rattle.ab_command.specs.Texts.{code_of, journal_text, turns_text};

use ab_replay::Refusal;
use std::alloc::{AllocError, Global};

/// Which of its limits an input passes.
#[derive(Clone, Copy, Debug, PartialEq, Eq)]
pub enum Bound {
    Bytes,
    Events,
    Packets,
}

/// How a call of the program ended.
#[derive(Clone, Copy, Debug, PartialEq, Eq)]
pub enum Status {
    /// A run was told, and its premises held; or keys were; or a node was served to its end; or each child of a cluster ended
    /// with this status.
    Done,
    /// A run was told, and a premise was broken; or a child of a cluster ended with another status than 0.
    Broken,
    Usage,
    Refused(Refusal),
    ReadFault,
    WriteFault,
    LinkFault,
    Limit(Bound),
    /// A client's turns were used, and so many commands are unanswered.
    TurnsSpent(u64),
    OutOfMemory,
    /// The disk of a journal failed.
    DiskFault,
    /// This entry of a journal is of no stated form, or names another party's text. The first has the number 1.
    JournalRefused(u64),
    /// A child of a cluster could not be started or waited for.
    ChildFault,
}

impl Status {
    /// The number that the program ends with.
    pub fn code(self) -> u8
        ensures { result ≡ code_of self }
    {
        match self {
            Status::Done => 0,
            Status::Broken => 1,
            Status::Usage => 2,
            Status::Refused(_) => 3,
            Status::ReadFault => 4,
            Status::WriteFault => 5,
            Status::LinkFault => 6,
            Status::Limit(_) => 7,
            Status::TurnsSpent(_) => 8,
            Status::OutOfMemory => 9,
            Status::DiskFault => 10,
            Status::JournalRefused(_) => 11,
            Status::ChildFault => 12,
        }
    }
}

/// What is said of so many unanswered commands.
pub(crate) fn turns_line(alloc: Global, unanswered: u64) -> Result<String, AllocError>
    ensures { IfOk result (λ s. string_bytes s ≡ turns_text unanswered) }
{
    format!(in alloc; "turns spent {unanswered}\n")
}

/// What is said of a journal of which this entry is refused.
pub(crate) fn journal_line(alloc: Global, entry: u64) -> Result<String, AllocError>
    ensures { IfOk result (λ s. string_bytes s ≡ journal_text entry) }
{
    format!(in alloc; "journal refused {entry}\n")
}
