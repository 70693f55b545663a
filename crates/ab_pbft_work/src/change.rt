//! What a VIEW-CHANGE tells.

ghost use Rattle.std.specs.Prelude.{◌≡◌, ◌≤◌, ℕ, [], length, true, IfOk, map, nat_lt};
ghost use Rattle.std.specs.List.{list_all};
ghost use Rattle.std.specs.Option.{option_map};
ghost use Rattle.ab_form.specs.Readers.{listed};
ghost use Rattle.ab_msg.specs.declared.value.Value.TheVariants as value;
ghost use Rattle.ab_msg.specs.Certs.{AreSlotValues, IsProof};
ghost use Rattle.ab_msg.specs.Fields.{IsWritten};
ghost use Rattle.ab_content.specs.Parts.{any_request_at};
ghost use Rattle.ab_content.specs.Rows.{entry_at};
ghost use Rattle.ab_content.specs.Views.{entry as shown_entry, history, request};
ghost use Rattle.ab_wire.specs.Changes.{prepares_at};
ghost use Rattle.ab_wire.specs.Views.{front, prepares as shown_prepares, proof as shown_proof, proofs as shown_proofs, values as shown_values};
ghost use Rattle.ab_order.specs.Readings.{change_of, changes_of, is_ours, proved_slot, slots_of, with_slot};
ghost use Rattle.ab_pbft_work.specs.Slots.{slot_of};

use ab_check::copy_of;
use ab_form::ListRef;
use ab_msg::Value;
use ab_num::{Cluster, OutOfMemory, Party};
use ab_slots::{ChangeReading, ProvedSlot};
use ab_wire::{ContentRef, EntryRef, HistoryRef, PreparesRef, ProofRef, RequestRef, ValuesRef};
use std::alloc::Global;

/// Whether a content of instance `j` by replica `r` is one of the cluster in instance `i`.
pub(crate) fn is_ours(c: &Cluster, i: u32, j: u32, r: u8) -> bool
    ensures { result ≡ is_ours c.now.f i j r }
{
    j == i && r < c.replicas()
}

/// Whether each PREPARE is of one of so many replicas.
fn are_members<'a>(prepares: &PreparesRef<'a>, replicas: u8) -> bool
    ensures { result ≡ list_all (λ s. nat_lt s.0 replicas) (shown_prepares prepares.now) }
{
    'signers: for s in copy_of(&prepares.by) {
        if s.replica >= replicas {
            return false;
        }
    }
    true
}

/// The replicas of these PREPAREs.
fn signers<'a>(alloc: Global, prepares: &PreparesRef<'a>) -> Result<Vec<u8>, OutOfMemory>
    ensures { IfOk result (λ v. v.items ≡ map (λ s. s.0) (shown_prepares prepares.now)) }
{
    let mut all = Vec::new(alloc);
    'signers: for s in copy_of(&prepares.by) {
        all.push(s.replica)?;
    }
    Ok(all)
}

/// A slot with its value.
fn proved_slot<'a>(
    alloc: Global,
    entry: &EntryRef<'a>,
    value: Value,
    prepares: &PreparesRef<'a>,
) -> Result<ProvedSlot, OutOfMemory>
    ensures { IfOk result (λ s. s ≡ proved_slot (shown_entry entry.now) value (shown_prepares prepares.now)) }
{
    let by = signers(alloc, prepares)?;
    Ok(ProvedSlot::new(entry.view, *entry.x, value, by))
}

/// Slot 0 of a VIEW-CHANGE, if its signers are of the cluster. Else nothing is copied.
fn base_slot<'a>(
    alloc: Global,
    c: &Cluster,
    entry: &EntryRef<'a>,
    base: &HistoryRef<'a>,
    prepares: &PreparesRef<'a>,
) -> Result<Option<ProvedSlot>, OutOfMemory>
    requires { IsWritten (history base.now) }
    ensures { IfOk result (λ o. o ≡ slot_of c.now.f 0 (shown_entry entry.now) (value.Base (history base.now)) (shown_prepares prepares.now)) }
{
    if !are_members(prepares, c.replicas()) {
        return Ok(None);
    }
    let base = base.own(alloc)?;
    let slot = proved_slot(alloc, entry, Value::Base(base), prepares)?;
    Ok(Some(slot))
}

/// Slot `t` of a VIEW-CHANGE, from 1 on, if its signers are of the cluster.
fn request_slot<'a>(
    alloc: Global,
    c: &Cluster,
    t: usize,
    entry: &EntryRef<'a>,
    m: &RequestRef<'a>,
    prepares: &PreparesRef<'a>,
) -> Result<Option<ProvedSlot>, OutOfMemory>
    requires place { 1 ≤ t }
    requires short { length m.now.command.now ≤ 128 }
    ensures { IfOk result (λ o. o ≡ slot_of c.now.f t (shown_entry entry.now) (value.Request (request m.now)) (shown_prepares prepares.now)) }
{
    if !are_members(prepares, c.replicas()) {
        return Ok(None);
    }
    let slot = proved_slot(alloc, entry, Value::Request(m.own()), prepares)?;
    Ok(Some(slot))
}

/// Slots of a VIEW-CHANGE from the first on, if behind that there are a request and PREPAREs for each entry, and all signers
/// are of the cluster.
fn slots_from<'a>(
    alloc: Global,
    c: &Cluster,
    first: ProvedSlot,
    entries: ListRef<'a, EntryRef<'a>>,
    mut requests: ListRef<'a, RequestRef<'a>>,
    mut prepares: ListRef<'a, PreparesRef<'a>>,
) -> Result<Option<Vec<ProvedSlot>>, OutOfMemory>
    ensures { IfOk result (λ o. option_map (λ v. v.items) o ≡ with_slot true first (slots_of c.now.f 1 (listed entry_at entries.entry.count entries.entry.bytes.now) (map value.Request (listed any_request_at requests.entry.count requests.entry.bytes.now)) (listed prepares_at prepares.entry.count prepares.entry.bytes.now))) }
{
    let mut slots = Vec::new(alloc);
    slots.push(first)?;
    'entries: for entry in entries {
        let Some(m) = requests.next() else {
            return Ok(None);
        };
        let Some(by) = prepares.next() else {
            return Ok(None);
        };
        match request_slot(alloc, c, slots.len(), &entry, &m, &by)? {
            Some(slot) => slots.push(slot)?,
            None => return Ok(None),
        }
    }
    if requests.next().is_some() || prepares.next().is_some() {
        return Ok(None);
    }
    Ok(Some(slots))
}

/// No slots, if there are neither entries nor PREPAREs.
fn no_slots<'a>(
    alloc: Global,
    mut entries: ListRef<'a, EntryRef<'a>>,
    mut prepares: ListRef<'a, PreparesRef<'a>>,
) -> Option<Vec<ProvedSlot>>
    ensures { (f : ℕ) → option_map (λ v. v.items) result ≡ slots_of f 0 (listed entry_at entries.entry.count entries.entry.bytes.now) [] (listed prepares_at prepares.entry.count prepares.entry.bytes.now) }
{
    if entries.next().is_some() || prepares.next().is_some() {
        return None;
    }
    Some(Vec::new(alloc))
}

/// The slots of a VIEW-CHANGE, if there is a value and PREPAREs for each entry, and all signers are of the cluster.
fn slots_of<'a>(
    alloc: Global,
    c: &Cluster,
    mut entries: ListRef<'a, EntryRef<'a>>,
    values: ValuesRef<'a>,
    mut prepares: ListRef<'a, PreparesRef<'a>>,
) -> Result<Option<Vec<ProvedSlot>>, OutOfMemory>
    requires { AreSlotValues (front values).0 (front values).1 (shown_values values) }
    ensures { IfOk result (λ o. option_map (λ v. v.items) o ≡ slots_of c.now.f 0 (listed entry_at entries.entry.count entries.entry.bytes.now) (shown_values values.entry) (listed prepares_at prepares.entry.count prepares.entry.bytes.now)) }
{
    let ValuesRef::Slots { base, requests } = values else {
        return Ok(no_slots(alloc, entries, prepares));
    };
    let Some(entry) = entries.next() else {
        return Ok(None);
    };
    let Some(by) = prepares.next() else {
        return Ok(None);
    };
    match base_slot(alloc, c, &entry, &base.rest, &by)? {
        Some(first) => slots_from(alloc, c, first, entries, requests, prepares),
        None => Ok(None),
    }
}

/// A VIEW-CHANGE of a replica of the cluster in instance `i`.
pub(crate) fn change_of<'a>(
    alloc: Global,
    c: &Cluster,
    i: u32,
    proof: &ProofRef<'a>,
) -> Result<Option<ChangeReading>, OutOfMemory>
    requires { IsProof (shown_proof proof.now) }
    ensures { IfOk result (λ o. o ≡ change_of c.now.f i (shown_proof proof.now)) }
{
    let (start, _) = proof.values.front();
    if start > 0 {
        return Ok(None);
    }
    let ContentRef::ViewChange {
        maker: Party::Replica(by),
        instance,
        view,
        entries,
    } = &proof.change.content
    else {
        return Ok(None);
    };
    if !is_ours(c, i, *instance, *by) {
        return Ok(None);
    }
    let values = copy_of(&proof.values);
    let prepares = copy_of(&proof.prepares);
    match slots_of(alloc, c, copy_of(entries), values, prepares)? {
        Some(slots) => Ok(Some(ChangeReading::new(*by, *view, slots))),
        None => Ok(None),
    }
}

/// The VIEW-CHANGEs of replicas of the cluster, if all are such.
pub(crate) fn changes_of<'a>(
    alloc: Global,
    c: &Cluster,
    i: u32,
    proofs: ListRef<'a, ProofRef<'a>>,
) -> Result<Option<Vec<ChangeReading>>, OutOfMemory>
    ensures { IfOk result (λ o. option_map (λ v. v.items) o ≡ changes_of c.now.f i (shown_proofs proofs.entry)) }
{
    let mut changes = Vec::new(alloc);
    'proofs: for proof in proofs {
        match change_of(alloc, c, i, &proof)? {
            Some(change) => changes.push(change)?,
            None => return Ok(None),
        }
    }
    Ok(Some(changes))
}
