//! Of what a replica is accused.

ghost use Rattle.std.specs.Prelude.{◌≡◌};
ghost use Rattle.ab_audit.specs.Accusations.{rank};

/// A replica that made two different statements of which a correct one makes one.
#[derive(Clone, Copy, Debug, PartialEq, Eq, Hash)]
pub enum Accusation {
    /// Its ABORTs of an instance.
    Abort {
        replica: u8,
        instance: u32,
    },
    /// Its PREPAREs of a view and a slot.
    Prepare {
        replica: u8,
        instance: u32,
        view: u32,
        slot: u8,
    },
}

impl Accusation {
    /// Its place among others: by replica, then ABORTs before PREPAREs, then by instance, view and slot.
    pub fn rank(&self) -> u128
        ensures { result ≡ rank self.now }
    {
        match self {
            Accusation::Abort { replica, instance } => {
                (u128::from(*replica) * 2 << 72) + (u128::from(*instance) << 40)
            }
            Accusation::Prepare {
                replica,
                instance,
                view,
                slot,
            } => {
                ((u128::from(*replica) * 2 + 1) << 72)
                    + (u128::from(*instance) << 40)
                    + (u128::from(*view) << 8)
                    + u128::from(*slot)
            }
        }
    }
}
