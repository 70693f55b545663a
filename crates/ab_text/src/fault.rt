//! Why a text is no schedule.

use ab_num::OutOfMemory;
use thiserror::Error;

/// What is wrong with a text, and in which line. Lines are numbered from 1.
#[derive(Clone, Copy, Debug, PartialEq, Eq, Error)]
pub enum TextFault {
    /// The line is out of form.
    #[error("line {0} is out of form")]
    BadLine(u32),
    /// The text ends before this line, which is wanted.
    #[error("the text ends before line {0}")]
    NoEnd(u32),
    /// The line asks for what isn't built.
    #[error("what line {0} asks for is not built")]
    NotBuilt(u32),
    #[error("out of memory")]
    OutOfMemory,
}

impl From<OutOfMemory> for TextFault {
    ghost use Rattle.std.specs.Prelude.{◌≡◌};
    ghost use Rattle.ab_text.specs.declared.fault.TextFault.TheVariants.{OutOfMemory as NoMemory};

    ghost from_gives = { λ _ e. e ≡ NoMemory };

    fn from(_refused: OutOfMemory) -> TextFault {
        TextFault::OutOfMemory
    }
}
