//! Why bytes are not taken.

ghost use Rattle.std.specs.Prelude.{◌≡◌};
ghost use Rattle.ab_open.specs.declared.fault.OpenFault.TheVariants as variant;

use ab_form::Bad;
use thiserror::Error;

/// Why bytes are not taken, in the order in which it is looked for.
#[derive(Clone, Copy, Debug, PartialEq, Eq, Error)]
pub enum OpenFault {
    /// They are no message, for this defect.
    #[error("no message: {0}")]
    Bad(Bad),
    /// The message doesn't go to this party, or it names a party that the cluster hasn't.
    #[error("the message is not for this party")]
    NotMine,
    /// What stands for the claim at this place, counted from 0, is missing or isn't its maker's.
    #[error("what stands for claim {0} is missing or isn't its maker's")]
    BadTag(u32),
}

impl From<Bad> for OpenFault {
    ghost from_gives = { λ bad fault. fault ≡ variant.Bad bad };

    fn from(bad: Bad) -> OpenFault {
        OpenFault::Bad(bad)
    }
}
