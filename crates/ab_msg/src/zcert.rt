//! Certificates of equal answers.

ghost use Rattle.std.specs.Prelude.{◌≡◌, IfOk};

use crate::change::Signatures;
use crate::copies::Copied;
use ab_hist::{Reply, copy_reply};
use ab_num::OutOfMemory;
use std::alloc::Global;

/// The answer that some replicas gave alike to a client's request with this stamp: it is number `n` of a history with the
/// digest `d`. Each of the replicas has its signature.
pub struct Zcert {
    pub client: u16,
    pub stamp: u64,
    pub n: u16,
    pub d: [u8; 32],
    pub reply: Reply,
    pub sigs: Signatures,
}

impl Drop for Zcert {
    fn drop(self) {
        let Zcert {
            client: _,
            stamp: _,
            n: _,
            d: _,
            reply: _,
            sigs: _,
        } = self;
    }
}

impl Zcert {
    /// The same certificate.
    pub fn copy(&self, alloc: Global) -> Result<Zcert, OutOfMemory>
        ensures { IfOk result (λ z. z ≡ self.now) }
    {
        let sigs = self.sigs.copy(alloc)?;
        Ok(Zcert {
            client: self.client,
            stamp: self.stamp,
            n: self.n,
            d: self.d,
            reply: copy_reply(&self.reply),
            sigs,
        })
    }
}

/// The same certificate, if there is one.
pub fn copy_zcert(zcert: &Option<Zcert>, alloc: Global) -> Result<Option<Zcert>, OutOfMemory>
    ensures { IfOk result (λ z. z ≡ zcert.now) }
{
    match zcert {
        Some(zcert) => {
            let zcert = zcert.copy(alloc)?;
            Ok(Some(zcert))
        }
        None => Ok(None),
    }
}
