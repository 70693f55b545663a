//! Why a text is not taken.

use ab_num::OutOfMemory;
use std::alloc::AllocFailed;
use thiserror::Error;

/// What is wrong with a key text. Lines are numbered from 1.
#[derive(Clone, Copy, Debug, PartialEq, Eq, Error)]
pub enum KeyFault {
    /// The first line that is out of form or missing.
    #[error("line {0} is out of form or missing")]
    BadLine(u32),
    #[error("out of memory")]
    OutOfMemory,
}

/// What is wrong with the text of a node. Lines are numbered from 1.
#[derive(Clone, Copy, Debug, PartialEq, Eq, Error)]
pub enum NodeFault {
    /// The first line that is out of form.
    #[error("line {0} is out of form")]
    BadLine(u32),
    /// The text ends before this line, which is wanted.
    #[error("the text ends before line {0}")]
    NoEnd(u32),
    #[error("out of memory")]
    OutOfMemory,
}

impl From<NodeFault> for KeyFault {
    ghost use Rattle.ab_key_text.specs.Faults.{key_fault_of};
    ghost use Rattle.std.specs.Prelude.{◌≡◌};

    ghost from_gives = { λ e k. k ≡ key_fault_of e };

    fn from(fault: NodeFault) -> KeyFault {
        match fault {
            NodeFault::BadLine(n) | NodeFault::NoEnd(n) => KeyFault::BadLine(n),
            NodeFault::OutOfMemory => KeyFault::OutOfMemory,
        }
    }
}

impl From<OutOfMemory> for NodeFault {
    ghost use Rattle.std.specs.Prelude.{◌≡◌};
    ghost use Rattle.ab_key_text.specs.declared.fault.NodeFault.TheVariants.{OutOfMemory as NoMemory};

    ghost from_gives = { λ _ e. e ≡ NoMemory };

    fn from(_refused: OutOfMemory) -> NodeFault {
        NodeFault::OutOfMemory
    }
}

impl<T: Drop> From<AllocFailed<T>> for NodeFault {
    ghost use Rattle.std.specs.Prelude.{◌≡◌};
    ghost use Rattle.ab_key_text.specs.declared.fault.NodeFault.TheVariants.{OutOfMemory as NoMemory};

    ghost from_gives = { λ _ e. e ≡ NoMemory };

    fn from(_refused: AllocFailed<T>) -> NodeFault {
        NodeFault::OutOfMemory
    }
}
