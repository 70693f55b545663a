//! What came is put on the shelf.

ghost use Rattle.std.specs.Prelude.{◌≡◌, ℕ, ◌≤◌, IfOk, OnOk, length};
ghost use Rattle.ab_msg.specs.declared.content.Content.{Content};
ghost use Rattle.ab_msg.specs.declared.message.Msg.TheVariants as msg;
ghost use Rattle.ab_msg.specs.Certs.{IsProof};
ghost use Rattle.ab_wire.specs.Views.{IsReceived, message, proof as shown_proof, signed as shown_signed, tags as shown_tags};
ghost use Rattle.ab_abs.specs.Messages.{took};
ghost use Rattle.ab_slots.specs.Inputs.{input_of};
ghost use Rattle.ab_pbft_shelf.specs.Signing.{puts};

use ab_check::copy_of;
use ab_form::ListRef;
use ab_msg::Tags;
use ab_num::OutOfMemory;
use ab_pbft_shelf::Shelf;
use ab_slots::Reading;
use ab_wire::{MsgRef, ProofRef, SignedRef, SignerRef, TagRef};
use std::alloc::Global;

/// The tags, with memory of their own.
fn own_tags<'a>(given: ListRef<'a, TagRef<'a>>) -> Tags
    requires { length (shown_tags given) ≤ 7 }
    ensures { result.items ≡ shown_tags given.entry }
{
    let mut all = Tags::new();
    'tags: for entry in given {
        all.push((entry.replica, *entry.tag));
    }
    all
}

/// The tags of a request that is told.
fn put_tags<'a>(
    shelf: &mut Shelf,
    tags: ListRef<'a, TagRef<'a>>,
    input: &Reading,
) -> Result<(), OutOfMemory>
    requires { length (shown_tags tags) ≤ 7 }
    ensures { OnOk result ((f : ℕ) (s : Content) → shelf.new ≡ puts f (took (msg.Req s (record { items = shown_tags tags.entry }))) (input_of input.now) shelf.old) }
{
    match input {
        Reading::Request(m) => shelf.keep_tags(m.client, own_tags(tags)),
        _ => Ok(()),
    }
}

/// A PREPARE that is told.
fn put_ballot(
    alloc: Global,
    shelf: &mut Shelf,
    prepare: &SignedRef<'_>,
    input: &Reading,
) -> Result<(), OutOfMemory>
    ensures { OnOk result ((f : ℕ) → shelf.new ≡ puts f (took (msg.Prepare (shown_signed prepare.now))) (input_of input.now) shelf.old) }
{
    match input {
        Reading::Prepare { by, view, slot, x } => {
            let signer = SignerRef {
                replica: *by,
                sig: prepare.sig,
            };
            shelf.keep_ballot(alloc, *view, *slot, x, signer)
        }
        _ => Ok(()),
    }
}

/// A VIEW-CHANGE that is told and fits.
fn put_proof(
    alloc: Global,
    f: u8,
    shelf: &mut Shelf,
    proof: &ProofRef<'_>,
    input: &Reading,
) -> Result<(), OutOfMemory>
    requires { IsProof (shown_proof proof.now) }
    ensures { OnOk result (shelf.new ≡ puts f (took (msg.ViewChange (shown_proof proof.now))) (input_of input.now) shelf.old) }
{
    match input {
        Reading::ViewChange(change) => {
            if change.fits(f) {
                let own = copy_of(proof).own(alloc)?;
                shelf.keep_proof(own)
            } else {
                Ok(())
            }
        }
        _ => Ok(()),
    }
}

/// Keeps what a received message brings, which tells a replica this: a request's tags, a PREPARE of the present view, and
/// a VIEW-CHANGE that fits where f replicas may be faulty. Nothing else of it is copied. After an `Err` the shelf may be
/// anything.
fn put(
    alloc: Global,
    f: u8,
    shelf: &mut Shelf,
    m: &MsgRef<'_>,
    input: &Reading,
) -> Result<(), OutOfMemory>
    requires { IsReceived m.now }
    ensures { OnOk result (shelf.new ≡ puts f (took (message m.now)) (input_of input.now) shelf.old) }
{
    match m {
        MsgRef::Req { tags, .. } => put_tags(shelf, copy_of(tags), input),
        MsgRef::Prepare { prepare } => put_ballot(alloc, shelf, prepare, input),
        MsgRef::ViewChange { change } => put_proof(alloc, f, shelf, change, input),
        _ => Ok(()),
    }
}

/// A shelf once what a received message brings is on it.
pub(crate) fn shelve(
    alloc: Global,
    f: u8,
    mut shelf: Shelf,
    m: &MsgRef<'_>,
    input: &Reading,
) -> Result<Shelf, OutOfMemory>
    requires { IsReceived m.now }
    ensures { IfOk result (λ held. held ≡ puts f (took (message m.now)) (input_of input.now) shelf) }
{
    put(alloc, f, &mut shelf, m, input)?;
    Ok(shelf)
}
