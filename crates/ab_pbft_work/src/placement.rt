//! Where a replica runs PBFT.

ghost use Rattle.std.specs.Prelude.{◌≡◌, IfOk, length, nat_le};
ghost use Rattle.ab_lock.specs.Quorums.{quorum};
ghost use Rattle.ab_pbft_rules.specs.Rules.{is_primary_of};
ghost use Rattle.ab_pbft_work.specs.Turns.{seat_of};

use ab_hist::History;
use ab_num::OutOfMemory;
use std::alloc::Global;

/// How many requests a base may have that stands in a VIEW-CHANGE.
const MOST: usize = 1024;

/// Replica `me` of a cluster with f, in an instance of which it orders k requests, with the base that it entered with.
pub struct Placement {
    pub k: u8,
    pub f: u8,
    pub instance: u32,
    pub me: u8,
    pub base: History,
}

impl Drop for Placement {
    fn drop(self) {
        let Placement {
            k: _,
            f: _,
            instance: _,
            me: _,
            base: _,
        } = self;
    }
}

impl Placement {
    /// Whether a replica is the primary of a view.
    pub(crate) fn is_primary(&self, r: u8, view: u32) -> bool
        ensures { result ≡ is_primary_of (seat_of self.now) view r }
    {
        u32::from(r) == view % (3 * u32::from(self.f) + 1)
    }

    /// Whether a VIEW-CHANGE can hold its base.
    pub(crate) fn can_show_base(&self) -> bool
        ensures { result ≡ nat_le (length self.now.base) 1024 }
    {
        self.base.len() <= MOST
    }

    /// How many replicas make a certificate.
    pub(crate) fn quorum(&self) -> usize
        ensures { result ≡ quorum self.now.f }
    {
        2 * usize::from(self.f) + 1
    }

    /// The same seat.
    pub fn copy(&self, alloc: Global) -> Result<Placement, OutOfMemory>
        ensures { IfOk result (λ s. s ≡ self.now) }
    {
        let base = self.base.copy(alloc)?;
        Ok(Placement {
            k: self.k,
            f: self.f,
            instance: self.instance,
            me: self.me,
            base,
        })
    }
}
