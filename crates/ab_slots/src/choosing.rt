//! The values that VIEW-CHANGEs choose.

ghost use Rattle.std.specs.Prelude.{◌≡◌, ℕ, ◌+◌, ◌<◌, ◌≤◌, IfOk, OnOk, length, slice_get, suc, if◌then◌else◌};
ghost use Rattle.std.specs.Option.{option_map};
ghost use Rattle.ab_abs.specs.Values.{goes};
ghost use Rattle.ab_lock.specs.Choosing.{beats as beats_in, best_in, better as better_of, chosen_from, chosen_of};
ghost use Rattle.ab_slots.specs.Offers.{offer_of};

use crate::change::{Cert, Change};
use crate::slots::Slots;
use ab_msg::Copied;
use ab_num::OutOfMemory;
use std::alloc::Global;

/// A certificate of a replica.
#[derive(Clone, Copy)]
pub(crate) struct Offer<'a> {
    by: u8,
    cert: &'a Cert,
}

/// Whether the first is of a higher view, or of the same and of a replica no higher.
fn beats(a: &Offer<'_>, b: &Offer<'_>) -> bool
    ensures { result ≡ beats_in (offer_of a.now) (offer_of b.now) }
{
    b.cert.at() < a.cert.at() || (b.cert.at() == a.cert.at() && a.by <= b.by)
}

/// The better one of a certificate, if there is one, and an offer, if there is one.
fn better<'a>(by: u8, cert: Option<&'a Cert>, rest: Option<Offer<'a>>) -> Option<Offer<'a>>
    ensures { option_map offer_of result ≡ better_of by (option_map (λ c. c.now) cert.entry) (option_map offer_of rest.entry) }
{
    let Some(cert) = cert else {
        return rest;
    };
    let offer = Offer { by, cert };
    match rest {
        Some(other) => {
            if beats(&offer, &other) {
                Some(offer)
            } else {
                Some(other)
            }
        }
        None => Some(offer),
    }
}

/// The certificate that a VIEW-CHANGE has for slot `t`.
fn cert_in(change: &Change, t: usize) -> Option<&Cert>
    ensures { option_map (λ c. c.now) result ≡ slice_get change.now.certs t }
{
    change.certs().get(t)
}

/// The certificate of the highest view for slot `t`, the lowest replica's at a tie.
fn best(changes: &[Change], t: usize) -> Option<Offer<'_>>
    ensures { option_map offer_of result ≡ best_in changes.now t }
{
    let mut best = None;
    let mut i = changes.len();
    'changes: while i > 0 {
        i -= 1;
        let change = &changes[i];
        best = better(change.by(), cert_in(change, t), best);
    }
    best
}

/// Adds the value that VIEW-CHANGEs choose for the next slot, and tells whether there is one.
fn choose_next(alloc: Global, chosen: &mut Slots, changes: &[Change]) -> Result<bool, OutOfMemory>
    requires { length chosen.old < 256 }
    ensures next { IfOk result (λ went. (n : ℕ) → chosen_from goes changes.now (suc n) chosen.old ≡ (if went then chosen_from goes changes.now n chosen.new else chosen.new)) }
    ensures longer { OnOk result (length chosen.new ≤ length chosen.old + 1) }
{
    let Some(offer) = best(changes, chosen.len()) else {
        return Ok(false);
    };
    let value = offer.cert.value();
    if !chosen.can_push(value) {
        return Ok(false);
    }
    let copy = value.copy(alloc)?;
    chosen.push(alloc, copy)?;
    Ok(true)
}

/// The values of slots 0 to `k` that VIEW-CHANGEs choose, up to the first slot without a certificate or whose value may
/// not follow.
pub fn chosen(alloc: Global, k: u8, changes: &[Change]) -> Result<Slots, OutOfMemory>
    ensures { IfOk result (λ s. s ≡ chosen_of goes k changes.now) }
{
    let mut chosen = Slots::new(alloc);
    'slots: for _n in 0..u16::from(k) + 1 {
        if !choose_next(alloc, &mut chosen, changes)? {
            return Ok(chosen);
        }
    }
    Ok(chosen)
}
