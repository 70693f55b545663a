//! Why a core takes no command.

use ab_num::OutOfMemory;
use thiserror::Error;

/// Why a core takes no command.
#[derive(Clone, Copy, Debug, PartialEq, Eq, Error)]
pub enum CommandFault {
    /// It is no client's.
    #[error("the core is no client's")]
    NoClient,
    /// The client has a request open.
    #[error("the client has a request open")]
    Busy,
    #[error("out of memory")]
    OutOfMemory,
}

impl From<OutOfMemory> for CommandFault {
    ghost use Rattle.std.specs.Prelude.{◌≡◌};
    ghost use Rattle.ab_party.specs.declared.fault.CommandFault.TheVariants.{OutOfMemory as NoMemory};

    ghost from_gives = { λ _ e. e ≡ NoMemory };

    fn from(_refused: OutOfMemory) -> CommandFault {
        CommandFault::OutOfMemory
    }
}
