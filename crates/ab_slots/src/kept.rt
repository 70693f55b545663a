//! The VIEW-CHANGEs that a replica keeps, by ascending replica.

ghost use Rattle.std.specs.Prelude.{◌≡◌, ◌<◌, ◌≤◌, ◌==◌, Some, IsTrue, IfOk, OnOk, count_by, nat_lt, length, slice_get, slice_set, if◌then◌else◌};
ghost use Rattle.std.specs.List.{take_while};
ghost use Rattle.ab_msg.specs.declared.value.Value.{Value as SlotValue};
ghost use Rattle.ab_lock.specs.ViewChanges.{Kept as KeptOf, lowest as lowest_of, of_view as all_of_view, put as put_kept};
ghost use Rattle.ab_pbft_rules.specs.Rules.{least_above, smaller as smaller_of, without};
ghost use Rattle.ab_slots.specs.Places.{is_by, place_by};

use crate::change::Change;
use ab_msg::Copied;
use ab_num::OutOfMemory;
use std::alloc::Global;
use std::marker::Model;

/// A VIEW-CHANGE with its view.
pub struct Kept {
    view: u32,
    change: Change,
}

impl Drop for Kept {
    fn drop(self) {
        let Kept { view: _, change: _ } = self;
    }
}

impl Model for Kept {
    ghost use Rattle.ab_msg.specs.declared.value.Value.{Value as SlotValue};
    ghost use Rattle.ab_lock.specs.ViewChanges.{Kept as KeptOf};

    ghost Value = { KeptOf SlotValue };

    ghost view = { λ u. record { view = u.view; change = u.change } };
}

impl Kept {
    /// A VIEW-CHANGE for a view.
    pub fn new(view: u32, change: Change) -> Kept
        ensures { result ≡ record { view = view; change = change } }
    {
        Kept { view, change }
    }

    pub fn view(&self) -> u32
        ensures { result ≡ self.now.view }
    {
        self.view
    }

    /// The replica.
    pub fn by(&self) -> u8
        ensures { result ≡ self.now.change.by }
    {
        self.change.by()
    }

    pub fn change(&self) -> &Change
        ensures { result.now ≡ self.now.change }
    {
        &self.change
    }
}

impl Copied for Kept {
    fn copy(&self, alloc: Global) -> Result<Kept, OutOfMemory> {
        let change = self.change.copy(alloc)?;
        Ok(Kept {
            view: self.view,
            change,
        })
    }
}

/// How many in front are of lower replicas.
fn count_lower(kept: &[Kept], by: u8) -> usize
    ensures { result ≡ length (take_while (λ u. nat_lt u.change.by by) kept.now) }
{
    kept.iter().take_while(|u| u.by() < by).count()
}

/// The place of a replica, behind those of lower ones.
#[tactic(auto, using(crate::proofs::KeptLemmas::place_counted, crate::proofs::KeptLemmas::place_within))]
fn place_of(kept: &[Kept], by: u8) -> usize
    ensures place { result ≡ place_by by kept.now }
    ensures within { result ≤ length kept.now }
{
    count_lower(kept, by)
}

/// Whether the one at a place is of a replica.
fn is_at(kept: &[Kept], at: usize, by: u8) -> bool
    ensures says { result ≡ is_by by (slice_get kept.now at) }
    ensures within { IsTrue result → at < length kept.now }
{
    match kept.get(at) {
        Some(u) => u.by() == by,
        None => false,
    }
}

/// Puts a VIEW-CHANGE in place of another of its replica, if that is of a lower view.
fn replace(kept: &mut Vec<Kept>, at: usize, new: Kept)
    requires { at < length kept.old.items }
    ensures { (u : KeptOf SlotValue) → slice_get kept.old.items at ≡ Some u → kept.new.items ≡ (if nat_lt u.view new.view then slice_set kept.old.items at new else kept.old.items) }
{
    if kept[at].view() < new.view() {
        kept[at] = new;
    }
}

/// Puts a VIEW-CHANGE at the place of its replica, if none of this view or a later one is there.
#[tactic(auto, using(crate::proofs::KeptLemmas::put_new))]
pub fn put(kept: &mut Vec<Kept>, new: Kept) -> Result<(), OutOfMemory>
    ensures { OnOk result (kept.new.items ≡ put_kept new kept.old.items) }
{
    let at = place_of(kept, new.by());
    if is_at(kept, at, new.by()) {
        replace(kept, at, new);
    } else {
        kept.insert(at, new)?;
    }
    Ok(())
}

/// Drops the VIEW-CHANGE of a replica.
pub fn remove(kept: &mut Vec<Kept>, by: u8)
    ensures { kept.new.items ≡ without by kept.old.items }
{
    kept.retain(|u| u.by() != by);
}

/// How many are for a later view.
pub fn count_later(kept: &[Kept], view: u32) -> usize
    ensures { result ≡ count_by (λ u. nat_lt view u.view) kept.now }
{
    kept.iter().filter(|u| view < u.view()).count()
}

/// The smaller of a view and another, if there is one.
fn smaller(view: u32, other: Option<u32>) -> Option<u32>
    ensures { result ≡ smaller_of view other }
{
    match other {
        Some(v) => Some(if view < v { view } else { v }),
        None => Some(view),
    }
}

/// The first later view.
pub fn least_later(kept: &[Kept], view: u32) -> Option<u32>
    ensures { result ≡ least_above view kept.now }
{
    let mut least = None;
    let mut i = kept.len();
    'kept: while i > 0 {
        i -= 1;
        let at = kept[i].view();
        if view < at {
            least = smaller(at, least);
        }
    }
    least
}

/// How many are for this view.
#[tactic(auto, using(crate::proofs::KeptLemmas::of_view_counted))]
pub fn count_of(kept: &[Kept], view: u32) -> usize
    ensures { result ≡ length (all_of_view kept.now view) }
{
    kept.iter().filter(|u| u.view() == view).count()
}

/// Those for this view.
#[tactic(auto, using(crate::proofs::KeptLemmas::of_view_more, crate::proofs::KeptLemmas::of_view_same))]
fn of_view(alloc: Global, kept: &[Kept], view: u32) -> Result<Vec<Change>, OutOfMemory>
    ensures { IfOk result (λ v. v.items ≡ all_of_view kept.now view) }
{
    let mut changes = Vec::new(alloc);
    'kept: for u in kept {
        if u.view() == view {
            let copy = u.change().copy(alloc)?;
            changes.push(copy)?;
        }
    }
    Ok(changes)
}

/// The lowest 2f + 1 of those for this view.
pub fn lowest(alloc: Global, f: u8, kept: &[Kept], view: u32) -> Result<Vec<Change>, OutOfMemory>
    ensures { IfOk result (λ v. v.items ≡ lowest_of f kept.now view) }
{
    let mut changes = of_view(alloc, kept, view)?;
    changes.truncate(2 * usize::from(f) + 1);
    Ok(changes)
}
