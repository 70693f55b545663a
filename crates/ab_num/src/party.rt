//! The parties of a cluster.

ghost use Rattle.std.specs.Prelude.{◌≡◌};
ghost use Rattle.ab_num.specs.Parties.{party_eq};

/// A replica or a client, by its number.
#[derive(Clone, Copy, Debug, PartialEq, Eq)]
pub enum Party {
    Replica(u8),
    Client(u16),
}

impl Party {
    /// Whether the two are one party.
    pub fn is_same(self, other: Party) -> bool
        ensures { result ≡ party_eq self other }
    {
        match (self, other) {
            (Party::Replica(r), Party::Replica(s)) => r == s,
            (Party::Client(c), Party::Client(d)) => c == d,
            (Party::Replica(_), Party::Client(_)) => false,
            (Party::Client(_), Party::Replica(_)) => false,
        }
    }
}
