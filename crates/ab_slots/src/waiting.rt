//! The requests that wait, the last one of each client, by ascending client.

ghost use Rattle.std.specs.Prelude.{◌≡◌, ◌<◌, ◌≤◌, IsTrue, OnOk, length, nat_lt, slice_get};
ghost use Rattle.std.specs.List.{take_while};
ghost use Rattle.ab_order.specs.Backups.{keep as keep_last};
ghost use Rattle.ab_pbft_rules.specs.Rules.{first_fit as first_that_fits};
ghost use Rattle.ab_slots.specs.Places.{is_of, place_of as place_in};
ghost use Rattle.ab_slots.specs.Waits.{lacks_some};

use crate::slots::Slots;
use ab_hist::{History, Request};
use ab_num::OutOfMemory;
use std::alloc::Global;

/// How many in front are of lower clients.
fn count_lower(kept: &[Request], client: u16) -> usize
    ensures { result ≡ length (take_while (λ m. nat_lt m.client client) kept.now) }
{
    kept.iter().take_while(|m| m.client < client).count()
}

/// The place of a client, behind those of lower ones.
#[tactic(auto, using(crate::proofs::WaitingLemmas::client_counted, crate::proofs::WaitingLemmas::client_within))]
fn place_of(kept: &[Request], client: u16) -> usize
    ensures place { result ≡ place_in client kept.now }
    ensures within { result ≤ length kept.now }
{
    count_lower(kept, client)
}

/// Whether the one at a place is of a client.
fn is_at(kept: &[Request], at: usize, client: u16) -> bool
    ensures says { result ≡ is_of client (slice_get kept.now at) }
    ensures within { IsTrue result → at < length kept.now }
{
    match kept.get(at) {
        Some(m) => m.client == client,
        None => false,
    }
}

/// Keeps a request as the last one of its client.
#[tactic(auto, using(crate::proofs::WaitingLemmas::keep_new, crate::proofs::WaitingLemmas::keep_there))]
pub fn keep(kept: &mut Vec<Request>, m: Request) -> Result<(), OutOfMemory>
    ensures { OnOk result (kept.new.items ≡ keep_last m kept.old.items) }
{
    let at = place_of(kept, m.client);
    if is_at(kept, at, m.client) {
        kept[at] = m;
    } else {
        kept.insert(at, m)?;
    }
    Ok(())
}

/// The request of the lowest client that may follow values.
pub fn first_fit(kept: &[Request], accepted: &Slots) -> Option<Request>
    ensures { result ≡ first_that_fits accepted.now kept.now }
{
    'kept: for m in kept {
        if accepted.can_push_request(m) {
            return Some(m.copy());
        }
    }
    None
}

/// Whether one of them is missing from a list.
pub fn lacks_some(list: &History, kept: &[Request]) -> bool
    ensures { result ≡ lacks_some list.now kept.now }
{
    kept.iter().any(|m| list.place_of(m).is_none())
}
