//! Why a replay has no report.

ghost use Rattle.std.specs.Prelude.{◌≡◌};
ghost use Rattle.ab_replay.specs.Replays.{fault_of_text, fault_of_step};

use crate::refusal::{Refusal, RefusalCause};
use ab_num::OutOfMemory;
use ab_text::TextFault;
use ab_world::WorldFault;

/// Why a replay has no report.
#[derive(Clone, Copy, Debug, PartialEq, Eq)]
pub enum ReplayFault {
    Read,
    TooLong,
    Refused(Refusal),
    TooManyEvents,
    /// The bytes of its packets would pass what a world keeps.
    TooManyPackets,
    OutOfMemory,
}

impl From<OutOfMemory> for ReplayFault {
    ghost use Rattle.std.specs.Prelude.{◌≡◌};
    ghost use Rattle.ab_replay.specs.declared.fault.ReplayFault.TheVariants.{OutOfMemory as NoMemory};

    ghost from_gives = { λ _ e. e ≡ NoMemory };

    fn from(_refused: OutOfMemory) -> ReplayFault {
        ReplayFault::OutOfMemory
    }
}

/// Why a text that is no schedule has no report.
pub fn fault_of_text(fault: TextFault) -> ReplayFault
    ensures { result ≡ fault_of_text fault }
{
    match fault {
        TextFault::BadLine(line) => ReplayFault::Refused(Refusal {
            line,
            cause: RefusalCause::BadLine,
        }),
        TextFault::NoEnd(line) => ReplayFault::Refused(Refusal {
            line,
            cause: RefusalCause::NoEnd,
        }),
        TextFault::NotBuilt(line) => ReplayFault::Refused(Refusal {
            line,
            cause: RefusalCause::NotBuilt,
        }),
        TextFault::OutOfMemory => ReplayFault::OutOfMemory,
    }
}

/// Why a schedule has no report whose event in this line was not taken.
pub fn fault_of_step(line: u32, fault: WorldFault) -> ReplayFault
    ensures { result ≡ fault_of_step line fault }
{
    let cause = match fault {
        WorldFault::BadCommand => RefusalCause::BadLine,
        WorldFault::NoPacket => RefusalCause::NoPacket,
        WorldFault::BadParty => RefusalCause::BadParty,
        WorldFault::Busy => RefusalCause::Busy,
        WorldFault::EventLimit => return ReplayFault::TooManyEvents,
        WorldFault::PacketLimit => return ReplayFault::TooManyPackets,
        WorldFault::OutOfMemory => return ReplayFault::OutOfMemory,
    };
    ReplayFault::Refused(Refusal { line, cause })
}
