//! What a report tells.

ghost use Rattle.std.specs.Prelude.{◌≡◌, ◌↔◌, IsTrue};

use crate::items::Items;
use ab_num::Party;
use arrayvec::ArrayVec;

/// Why a message didn't open.
#[derive(Clone, Copy, Debug, PartialEq, Eq)]
pub enum OpenCause {
    /// It is no message.
    Bad,
    /// It is not for this party.
    Kind,
    /// A tag or a signature doesn't check.
    Tag,
}

/// One line of a report, of the event of this number. Entries are client and stamp of each request
/// of a history, or of a list that has forgotten its first `start` requests.
#[derive(Debug, Drop)]
pub enum Line {
    /// A message didn't open at a correct party.
    Refused {
        event: u32,
        party: Party,
        cause: OpenCause,
    },
    /// A correct party took a certificate of the instance.
    Cert {
        event: u32,
        party: Party,
        instance: u32,
        start: u16,
        entries: Items<(u16, u64)>,
    },
    /// A correct replica entered the instance with this history.
    Init {
        event: u32,
        replica: u8,
        instance: u32,
        start: u16,
        entries: Items<(u16, u64)>,
    },
    /// A correct client sent its request in the instance for the first time.
    Invoked {
        event: u32,
        client: u16,
        instance: u32,
        stamp: u64,
    },
    /// A correct client committed.
    Commit {
        event: u32,
        client: u16,
        instance: u32,
        stamp: u64,
        n: u16,
        reply: ArrayVec<u8, 72>,
    },
    /// The event asked for more signatures than the replica has left.
    Spent {
        event: u32,
        replica: u8,
    },
}

/// Which premise of the order properties an event broke.
#[derive(Clone, Copy, Debug, PartialEq, Eq)]
pub enum Breach {
    /// More replicas are faulty than may be.
    Faulty,
    /// A claim names a correct party that didn't make it.
    Forged,
    /// Two links of lists, which is what a history's digest is made of, or two requests have one digest.
    Collision,
}

/// Whether the premises of the order properties held in a run.
#[derive(Clone, Copy, Debug, PartialEq, Eq)]
pub enum Premise {
    Held,
    /// The earliest event that broke one, and the party that is to blame.
    Broken {
        event: u32,
        breach: Breach,
        party: Party,
    },
}

impl Premise {
    /// Whether they held.
    pub fn is_held(&self) -> bool
        ensures { IsTrue result ↔ (self.now ≡ Premise.Held) }
    {
        matches!(self, Premise::Held)
    }
}
