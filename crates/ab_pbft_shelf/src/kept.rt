//! What is kept of others' signatures and tags.

ghost use Rattle.std.specs.Prelude.{◌≡◌, ◌≤◌, IfOk, length};

use ab_msg::{Copied, Sig, Signatures, Tag, Tags, Value};
use ab_num::OutOfMemory;
use arrayvec::ArrayVec;
use std::alloc::Global;

/// The signed PREPARE of a replica for a slot of the present view, with the digest of the slot's value.
pub struct SignedVote {
    pub by: u8,
    pub slot: u8,
    pub x: [u8; 32],
    pub sig: Sig,
}

// Written out, so that no crate above makes and proves it anew.
impl Drop for SignedVote {
    fn drop(self) {
        let SignedVote {
            by: _,
            slot: _,
            x: _,
            sig: _,
        } = self;
    }
}

/// A value that is prepared in a view, with 2f + 1 PREPAREs of that, by ascending replica.
pub struct Certified {
    pub at: u32,
    pub value: Value,
    pub prepares: Signatures,
}

impl Drop for Certified {
    fn drop(self) {
        let Certified {
            at: _,
            value: _,
            prepares: _,
        } = self;
    }
}

/// The tags of a client's last request.
#[derive(Drop)]
pub struct Tagged {
    pub client: u16,
    pub tags: Tags,
}

impl Copied for SignedVote {
    fn copy(&self, alloc: Global) -> Result<SignedVote, OutOfMemory> {
        let sig = self.sig.copy(alloc)?;
        Ok(SignedVote {
            by: self.by,
            slot: self.slot,
            x: self.x,
            sig,
        })
    }
}

impl Copied for Certified {
    fn copy(&self, alloc: Global) -> Result<Certified, OutOfMemory> {
        let value = self.value.copy(alloc)?;
        let prepares = self.prepares.copy(alloc)?;
        Ok(Certified {
            at: self.at,
            value,
            prepares,
        })
    }
}

/// The same tags.
fn copy_tags(tags: &[(u8, Tag)]) -> Tags
    requires { length tags.now ≤ 7 }
    ensures { result.items ≡ tags.now }
{
    let mut made = ArrayVec::new();
    match made.try_extend_from_slice(tags) {
        Ok(()) => made,
        // There is room for the tags of all replicas.
        Err(_) => unreachable!(),
    }
}

impl Copied for Tagged {
    fn copy(&self, _alloc: Global) -> Result<Tagged, OutOfMemory> {
        Ok(Tagged {
            client: self.client,
            tags: copy_tags(self.tags.as_slice()),
        })
    }
}

/// The same certificate, if there is one.
fn copy_certified(
    alloc: Global,
    certified: &Option<Certified>,
) -> Result<Option<Certified>, OutOfMemory>
    ensures { IfOk result (λ c. c ≡ certified.now) }
{
    // A copy may fail, which `map` has no way to tell.
    match certified {
        Some(certified) => {
            let certified = certified.copy(alloc)?;
            Ok(Some(certified))
        }
        None => Ok(None),
    }
}

/// A copy of each slot's certificate.
pub(crate) fn copy_slots(
    alloc: Global,
    slots: &[Option<Certified>],
) -> Result<Vec<Option<Certified>>, OutOfMemory>
    ensures { IfOk result (λ v. v.items ≡ slots.now) }
{
    let mut copies = Vec::with_capacity(alloc, slots.len())?;
    'slots: for certified in slots {
        let copy = copy_certified(alloc, certified)?;
        copies.push(copy)?;
    }
    Ok(copies)
}
