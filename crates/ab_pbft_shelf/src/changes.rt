//! The VIEW-CHANGEs that are kept, by ascending replica.

ghost use Rattle.std.specs.Prelude.{◌≡◌, ◌<◌, ◌≤◌, ℕ, IfOk, OnOk, length, map, set, slice_index_or};
ghost use Rattle.ab_lock.specs.Quorums.{quorum};
ghost use Rattle.ab_msg.specs.declared.change.Proof.{Proof as ChangeProof};
ghost use Rattle.ab_pbft_shelf.specs.Shelves.{maker_in, view_in, maker_of, view_of, later, put_proof, without_maker, proofs_for, own_proof, certified_front};

use crate::kept::Certified;
use ab_msg::{Content, Copied, Prepares, Proof, Proofs, Signed, Values};
use ab_num::{OutOfMemory, Party};
use std::alloc::Global;

/// The replica that states this VIEW-CHANGE.
fn maker_in(content: &Content) -> u8
    ensures { result ≡ maker_in content.now }
{
    match content {
        Content::ViewChange {
            maker: Party::Replica(r),
            ..
        } => *r,
        _ => 0,
    }
}

/// The view of this VIEW-CHANGE.
fn view_in(content: &Content) -> u32
    ensures { result ≡ view_in content.now }
{
    match content {
        Content::ViewChange { view, .. } => *view,
        _ => 0,
    }
}

fn maker_of(p: &Proof) -> u8
    ensures { result ≡ maker_of p.now }
{
    maker_in(&p.change.content)
}

fn view_of(p: &Proof) -> u32
    ensures { result ≡ view_of p.now }
{
    view_in(&p.change.content)
}

/// The place of the first that isn't of a lower replica.
fn place_of(proofs: &[Proof], maker: u8) -> usize
    ensures within { result ≤ length proofs.now }
    ensures below { (k : ℕ) (p : ChangeProof) → k < result → maker_of (slice_index_or proofs.now k p) < maker }
    ensures here { (p : ChangeProof) → result < length proofs.now → maker ≤ maker_of (slice_index_or proofs.now result p) }
{
    match proofs.iter().position(|q| maker <= maker_of(q)) {
        Some(place) => place,
        None => proofs.len(),
    }
}

/// The later one of the VIEW-CHANGE at a place and this one is kept there.
fn replace_earlier(proofs: &mut Vec<Proof>, place: usize, p: Proof)
    requires { place < length proofs.old.items }
    ensures { proofs.new.items ≡ set proofs.old.items place (later p (slice_index_or proofs.old.items place p)) }
{
    if view_of(&proofs[place]) < view_of(&p) {
        proofs[place] = p;
    }
}

/// Keeps it, if no later one of its replica is there.
pub(crate) fn put_proof(proofs: &mut Vec<Proof>, p: Proof) -> Result<(), OutOfMemory>
    ensures { OnOk result (proofs.new.items ≡ put_proof p proofs.old.items) }
{
    let maker = maker_of(&p);
    let place = place_of(proofs.as_slice(), maker);
    if place < proofs.len() && maker_of(&proofs[place]) == maker {
        replace_earlier(proofs, place, p);
        return Ok(());
    }
    proofs.insert(place, p)?;
    Ok(())
}

/// Drops those of a replica.
pub(crate) fn drop_maker(proofs: &mut Vec<Proof>, maker: u8)
    ensures { proofs.new.items ≡ without_maker maker proofs.old.items }
{
    proofs.retain(|p| maker_of(p) != maker);
}

/// Copies of those for a view of the lowest replicas, at most so many.
pub(crate) fn proofs_for(
    alloc: Global,
    most: usize,
    view: u32,
    proofs: &[Proof],
) -> Result<Proofs, OutOfMemory>
    ensures { (f : ℕ) → most ≡ quorum f → IfOk result (λ v. v ≡ proofs_for f view proofs.now) }
{
    let mut made = Vec::with_capacity(alloc, most)?;
    for p in proofs {
        if made.len() < most && view_of(p) == view {
            let p = p.copy(alloc)?;
            made.push(p)?;
        }
    }
    Ok(Proofs::of(made))
}

/// The values of the slots from slot 0 on that have certificates.
fn front_values(alloc: Global, slots: &[Option<Certified>]) -> Result<Values, OutOfMemory>
    ensures { IfOk result (λ v. v ≡ map (λ c. c.value) (certified_front slots.now)) }
{
    let mut values = Vec::with_capacity(alloc, slots.len())?;
    for slot in slots {
        match slot {
            Some(certified) => {
                let value = certified.value.copy(alloc)?;
                values.push(value)?;
            }
            None => return Ok(Values::of(values)),
        }
    }
    Ok(Values::of(values))
}

/// The PREPAREs of these slots.
fn front_prepares(alloc: Global, slots: &[Option<Certified>]) -> Result<Prepares, OutOfMemory>
    ensures { IfOk result (λ v. v ≡ map (λ c. c.prepares) (certified_front slots.now)) }
{
    let mut prepares = Vec::with_capacity(alloc, slots.len())?;
    for slot in slots {
        match slot {
            Some(certified) => {
                let by = certified.prepares.copy(alloc)?;
                prepares.push(by)?;
            }
            None => return Ok(Prepares::of(prepares)),
        }
    }
    Ok(Prepares::of(prepares))
}

/// The own VIEW-CHANGE with values and PREPAREs of the slots that have certificates.
pub(crate) fn own_proof(
    alloc: Global,
    change: Signed,
    slots: &[Option<Certified>],
) -> Result<Proof, OutOfMemory>
    ensures { IfOk result (λ p. p ≡ own_proof change.maker change.content (certified_front slots.now) change.sig) }
{
    let values = front_values(alloc, slots)?;
    let prepares = front_prepares(alloc, slots)?;
    Ok(Proof {
        change,
        start: 0,
        digest: [0; 32],
        values,
        prepares,
    })
}
