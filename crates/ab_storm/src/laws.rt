//! What holds of every storm.

ghost use Rattle.std.specs.Prelude.{ℕ, List, Bool};
ghost use Rattle.ab_storm.specs.Storms.{Storm, next_of, CanHappen};

/// Each event that is drawn can happen: a packet that was sent is delivered, an idle client is given a command of 1 to 128
/// bytes, or the timer of a party of the cluster runs out.
pub fn storms_can_happen()
    ensures { (s : Storm) (packets : ℕ) (idle : List Bool) → CanHappen s.cluster packets idle (next_of packets idle s).0 }
{}
