//! Votes for the values of slots.

ghost use Rattle.std.specs.Prelude.{◌≡◌, ◌==◌, ◌&&◌, OnOk, count_by};
ghost use Rattle.std.specs.List.{list_any};
ghost use Rattle.std.specs.Str.{bytes_eq};
ghost use Rattle.ab_lock.specs.Votes.{keep, is_enough as are_enough};

use ab_num::OutOfMemory;
use std::marker::Model;

/// A PREPARE or a COMMIT of the present view: replica `by` is for the digest `x` in a slot.
#[derive(Clone, Copy)]
pub struct SlotVote {
    by: u8,
    slot: u8,
    x: [u8; 32],
}

impl Model for SlotVote {
    ghost use Rattle.std.specs.Prelude.{List, ℕ};
    ghost use Rattle.ab_lock.specs.Votes.{SlotVote as VoteValue};

    ghost Value = { VoteValue (List ℕ) };

    ghost view = { λ v. record { by = v.by; slot = v.slot; x = v.x } };

    ghost inverse = { λ v. record { by = v.by; slot = v.slot; x = v.x } };
}

impl SlotVote {
    /// The vote of replica `by` for the digest `x` in a slot.
    pub fn new(by: u8, slot: u8, x: [u8; 32]) -> SlotVote
        ensures { result ≡ record { by = by; slot = slot; x = x } }
    {
        SlotVote { by, slot, x }
    }

    /// Whether it is of a replica for a slot.
    fn is_by(&self, by: u8, slot: u8) -> bool
        ensures { result ≡ (self.now.by == by) && (self.now.slot == slot) }
    {
        self.by == by && self.slot == slot
    }

    /// Whether it is for the digest `x` in a slot.
    fn is_for(&self, slot: u8, x: &[u8; 32]) -> bool
        ensures { result ≡ (self.now.slot == slot) && bytes_eq self.now.x x.now }
    {
        self.slot == slot && self.x == *x
    }
}

/// Whether a replica has a vote for a slot.
fn has_voted(votes: &[SlotVote], by: u8, slot: u8) -> bool
    ensures { result ≡ list_any (λ v. (v.by == by) && (v.slot == slot)) votes.now }
{
    votes.iter().any(|v| v.is_by(by, slot))
}

/// Keeps a vote in front of the others, if it is its replica's first for the slot.
pub fn keep(votes: &mut Vec<SlotVote>, vote: SlotVote) -> Result<(), OutOfMemory>
    ensures { OnOk result (votes.new.items ≡ keep vote votes.old.items) }
{
    if !has_voted(votes, vote.by, vote.slot) {
        votes.insert(0, vote)?;
    }
    Ok(())
}

/// How many votes are for the digest `x` in a slot.
fn count_for(votes: &[SlotVote], slot: u8, x: &[u8; 32]) -> usize
    ensures { result ≡ count_by (λ v. (v.slot == slot) && bytes_eq v.x x.now) votes.now }
{
    votes.iter().filter(|v| v.is_for(slot, x)).count()
}

/// Whether 2f + 1 votes are for the digest `x` in a slot.
#[tactic(auto, using(crate::proofs::VoteLemmas::counted))]
pub fn is_enough(f: u8, votes: &[SlotVote], slot: u8, x: &[u8; 32]) -> bool
    ensures { result ≡ are_enough bytes_eq f votes.now slot x.now }
{
    2 * usize::from(f) + 1 <= count_for(votes, slot, x)
}
