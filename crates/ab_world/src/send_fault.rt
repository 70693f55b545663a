//! Why packets are not kept.

use std::alloc::AllocError;
use thiserror::Error;

/// Why packets were not kept.
#[derive(Clone, Copy, Debug, PartialEq, Eq, Error)]
pub enum SendFault {
    /// There would be more bytes than are kept at most.
    #[error("the packets would pass their limit")]
    Limit,
    #[error("out of memory")]
    OutOfMemory,
}

impl From<AllocError> for SendFault {
    ghost use Rattle.std.specs.Prelude.{◌≡◌};
    ghost use Rattle.ab_world.specs.declared.send_fault.SendFault.TheVariants.{OutOfMemory as NoMemory};

    ghost from_gives = { λ _ e. e ≡ NoMemory };

    fn from(_refused: AllocError) -> SendFault {
        SendFault::OutOfMemory
    }
}
