//! What the head of a schedule sets up, but for faulty parties.

ghost use Rattle.std.specs.Prelude.{◌≡◌, ◌≤◌};
ghost use Rattle.ab_num.specs.Bounds.{IsInBounds};

use ab_num::{Cluster, Plan, Scheme, ServiceName};

/// A cluster, its service, how its replicas sign, the seed of its keys, and the number of the line after the head.
#[derive(Clone, Copy)]
pub(crate) struct HeadLines {
    pub(crate) cluster: Cluster,
    pub(crate) service: ServiceName,
    pub(crate) lms: Scheme,
    pub(crate) seed: [u8; 32],
    pub(crate) next: u32,
}

/// The cluster of these numbers, which are within its bounds.
pub fn cluster_of(f: u8, clients: u16, plan: Plan, every: u16) -> Cluster
    requires bounds { IsInBounds f clients }
    requires dense { every ≤ 128 }
    ensures f { result.f ≡ f }
    ensures clients { result.clients ≡ clients }
    ensures plan { result.plan ≡ plan }
    ensures every { result.every ≡ every }
{
    Cluster {
        f,
        clients,
        plan,
        every,
    }
}
