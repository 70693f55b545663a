//! The replicas for which a client's request has tags.

ghost use Rattle.std.specs.Prelude.{◌≡◌, ◌≤◌, ◌+◌};
ghost use Rattle.ab_num.specs.Places.{kind_of};
ghost use Rattle.ab_seal.specs.Receivers.{is_in_front, is_receiver};

use ab_num::{Cluster, Kind};

/// Whether a replica is at one of the first f + 1 positions of the chain of an instance.
fn is_in_front(c: &Cluster, instance: u32, r: u8) -> bool
    requires { 1 ≤ instance }
    ensures { result ≡ is_in_front c.now.f instance r }
{
    (1..c.f + 2).any(|p| c.at_position(instance, p) == r)
}

/// Whether a request of an instance has a tag for a replica.
pub(crate) fn is_receiver(c: &Cluster, instance: u32, r: u8) -> bool
    requires { 1 ≤ instance }
    ensures { result ≡ is_receiver (kind_of c.now.plan instance) c.now.f instance r }
{
    match c.kind(instance) {
        Kind::Chain => is_in_front(c, instance, r),
        Kind::Quorum | Kind::ZLight | Kind::Backup | Kind::ZCert => true,
    }
}
