//! The PREPAREs of the present view.

ghost use Rattle.std.specs.Prelude.{◌≡◌, ◌+◌, ◌*◌, [], ◌∷◌, take, IfOk, OnOk, MatchOption};
ghost use Rattle.std.specs.List.{find};
ghost use Rattle.std.specs.Option.{option_map};
ghost use Rattle.ab_lock.specs.Quorums.{quorum};
ghost use Rattle.ab_pbft_shelf.specs.Shelves.{is_of, is_for, has_ballot, put_ballot, signer_in, signers_below, certified_by};

use crate::kept::{Certified, SignedVote};
use ab_msg::{Copied, Sig, Signatures, Value};
use ab_num::{Cluster, OutOfMemory};
use ab_slots::slot_digest;
use std::alloc::Global;

impl SignedVote {
    /// Whether it is of this replica and slot.
    fn is_of(&self, by: u8, slot: u8) -> bool
        ensures { result ≡ is_of by slot self.now }
    {
        self.by == by && self.slot == slot
    }

    /// Whether it is of this replica and slot, and has this digest.
    fn is_for(&self, by: u8, slot: u8, x: &[u8; 32]) -> bool
        ensures { result ≡ is_for by slot x.now self.now }
    {
        self.is_of(by, slot) && self.x == *x
    }
}

/// Whether one of them is of this replica and slot.
pub(crate) fn has_ballot(ballots: &[SignedVote], by: u8, slot: u8) -> bool
    ensures { result ≡ has_ballot ballots.now by slot }
{
    ballots.iter().any(|b| b.is_of(by, slot))
}

/// Keeps it as the newest, if it is the first of its replica for its slot.
pub(crate) fn put_ballot(ballots: &mut Vec<SignedVote>, b: SignedVote) -> Result<(), OutOfMemory>
    ensures { OnOk result (ballots.new.items ≡ put_ballot b ballots.old.items) }
{
    if has_ballot(ballots.as_slice(), b.by, b.slot) {
        return Ok(());
    }
    ballots.insert(0, b)?;
    Ok(())
}

/// The PREPARE of a replica for a slot with this digest.
fn ballot_for<'a>(
    ballots: &'a [SignedVote],
    by: u8,
    slot: u8,
    x: &[u8; 32],
) -> Option<&'a SignedVote>
    ensures { option_map (λ b. b.now) result ≡ find (is_for by slot x.now) ballots.now }
{
    ballots.iter().find(|b| b.is_for(by, slot, x))
}

/// Its signature.
fn signature_for<'a>(ballots: &'a [SignedVote], by: u8, slot: u8, x: &[u8; 32]) -> Option<&'a Sig>
    ensures { MatchOption result (signer_in by slot x.now ballots.now ≡ []) (λ s. signer_in by slot x.now ballots.now ≡ (by, s.now) ∷ []) }
{
    match ballot_for(ballots, by, slot, x) {
        Some(ballot) => Some(&ballot.sig),
        None => None,
    }
}

/// The PREPAREs for a slot with this digest, those of the lowest 2f + 1 replicas.
fn first_signers(
    alloc: Global,
    c: &Cluster,
    ballots: &[SignedVote],
    slot: u8,
    x: &[u8; 32],
) -> Result<Vec<(u8, Sig)>, OutOfMemory>
    ensures { IfOk result (λ v. v.items ≡ take (quorum c.now.f) (signers_below (3 * c.now.f + 1) slot x.now ballots.now)) }
{
    let quorum = usize::from(2 * c.f + 1);
    let mut made = Vec::with_capacity(alloc, quorum)?;
    for by in 0..c.replicas() {
        if made.len() < quorum {
            if let Some(sig) = signature_for(ballots, by, slot, x) {
                let sig = sig.copy(alloc)?;
                made.push((by, sig))?;
            }
        }
    }
    Ok(made)
}

/// The certificate of a value that becomes prepared in a view.
pub(crate) fn certified_by(
    alloc: Global,
    c: &Cluster,
    view: u32,
    slot: u8,
    value: &Value,
    ballots: &[SignedVote],
) -> Result<Certified, OutOfMemory>
    ensures { IfOk result (λ s. s ≡ certified_by c.now.f view slot value.now ballots.now) }
{
    let x = slot_digest(value);
    let by = first_signers(alloc, c, ballots, slot, &x)?;
    let value = value.copy(alloc)?;
    Ok(Certified {
        at: view,
        value,
        prepares: Signatures::of(by),
    })
}
