//! Where a core stands.

ghost use Rattle.std.specs.Prelude.{◌≡◌};
ghost use Rattle.ab_cast.specs.Setups.{own_place, party_at};

use ab_num::Party;

/// Where a core stands: a party's own core is its first, and further cores of faulty parties stand
/// in a list, replicas' and clients' apart.
#[derive(Clone, Copy, Debug, PartialEq, Eq)]
pub enum Place {
    Replica(u8),
    Client(u16),
    ReplicaTwin(u8, usize),
    ClientTwin(u16, usize),
}

impl Place {
    /// The first core of a party.
    pub(crate) fn own(party: Party) -> Place
        ensures { result ≡ own_place party }
    {
        match party {
            Party::Replica(r) => Place::Replica(r),
            Party::Client(c) => Place::Client(c),
        }
    }

    /// Whose core it is.
    pub fn party(self) -> Party
        ensures { result ≡ party_at self }
    {
        match self {
            Place::Replica(r) => Party::Replica(r),
            Place::Client(c) => Party::Client(c),
            Place::ReplicaTwin(r, _) => Party::Replica(r),
            Place::ClientTwin(c, _) => Party::Client(c),
        }
    }
}
