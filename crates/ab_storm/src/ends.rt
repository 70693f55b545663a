//! What holds of every storm, whatever the protocol.

ghost use Rattle.std.specs.Prelude.{◌≡◌, ℕ, ◌≤◌, Err, Result};
ghost use Rattle.ab_num.specs.Limits.{most_events};
ghost use Rattle.ab_words.specs.Commands.{StormCommand as Asked};
ghost use Rattle.ab_world.specs.declared.fault.WorldFault.{WorldFault as TheFault};
ghost use Rattle.ab_world.specs.declared.fault.WorldFault.TheVariants.{PacketLimit};
ghost use Rattle.ab_world.specs.Worlds.{World as TheWorld};
ghost use Rattle.ab_storm.specs.Runs.{StormsTo};

use ab_abs::Protocol;
use ab_svc::Service;

/// An event that is drawn is refused for the limit of the bytes of packets, and for nothing else.
pub fn storms_are_not_refused<S: Service, P: Protocol<S>>()
    ensures { (k : Asked) (n : ℕ) (fault : TheFault) → k.events ≤ most_events
        → StormsTo P.proto k (Err (n, fault)) → fault ≡ PacketLimit }
{}

/// A storm comes to one end.
pub fn storms_end_once<S: Service, P: Protocol<S>>()
    ensures { (k : Asked) (one other : Result (TheWorld P) (ℕ × TheFault)) → StormsTo P.proto k one → StormsTo P.proto k other → one ≡ other }
{}
