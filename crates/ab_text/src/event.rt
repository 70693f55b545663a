//! Events of a run.

use crate::items::Items;
use ab_num::Party;
use arrayvec::ArrayVec;

/// A core of a party: its only one, or the twin of this number, from 1.
#[derive(Clone, Copy, Debug, PartialEq, Eq)]
pub struct Core {
    pub party: Party,
    pub twin: Option<u8>,
}

/// What happens next in a run.
#[derive(Debug, Drop)]
pub enum Event {
    /// A client's core is given a command.
    Invoke {
        core: Core,
        command: ArrayVec<u8, 128>,
    },
    /// A packet is handed to its addressee, or to that core of it.
    Deliver {
        packet: u64,
        core: Option<Core>,
    },
    /// The core's timer runs out.
    Timeout {
        core: Core,
    },
    /// Bytes are handed to the core.
    Inject {
        core: Core,
        bytes: Items<u8>,
    },
}
