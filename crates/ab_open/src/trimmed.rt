//! Messages with lists of which a beginning is trimmed.

ghost use Rattle.std.specs.Prelude.{◌≡◌, IfOk};
ghost use Rattle.std.specs.List.{list_any};
ghost use Rattle.ab_form.specs.Readers.{Gives};
ghost use Rattle.ab_content.specs.Views.{content as shown};
ghost use Rattle.ab_wire.specs.Views.{IsReceived, aborts as shown_aborts, message, offered, proof, proofs};
ghost use Rattle.ab_open.specs.Messages.{message_of};
ghost use Rattle.ab_open.specs.Trimmed.{allowed, any_trimmed, has_front, holds_trimmed, is_trimmed, offers_trimmed, shows_trimmed, states_trimmed};

use crate::reading::read;
use ab_check::copy_of;
use ab_content::ContentRef;
use ab_form::{Bad, ListRef};
use ab_wire::{MsgRef, OfferRef, ProofRef, SignedRef};

fn is_trimmed(content: &ContentRef<'_>) -> bool
    ensures { result ≡ is_trimmed (shown content.now) }
{
    matches!(content, ContentRef::TrimmedAbort { .. })
}

fn any_trimmed<'a>(aborts: ListRef<'a, SignedRef<'a>>) -> bool
    ensures { result ≡ any_trimmed (shown_aborts aborts.entry) }
{
    'aborts: for abort in aborts {
        if is_trimmed(&abort.content) {
            return true;
        }
    }
    false
}

fn offers_trimmed(offer: &OfferRef<'_>) -> bool
    ensures { result ≡ offers_trimmed (offered offer.now) }
{
    match offer {
        OfferRef::Base(aborts) => any_trimmed(copy_of(aborts)),
        OfferRef::Request { .. } => false,
    }
}

fn has_front(change: &ProofRef<'_>) -> bool
    ensures { result ≡ has_front (proof change.now) }
{
    let (start, _) = change.values.front();
    start > 0
}

fn any_front<'a>(changes: ListRef<'a, ProofRef<'a>>) -> bool
    ensures { result ≡ list_any has_front (proofs changes.entry) }
{
    'changes: for change in changes {
        if has_front(&change) {
            return true;
        }
    }
    false
}

/// Whether an ABORT in a message states a trimmed log.
fn states_trimmed(m: &MsgRef<'_>) -> bool
    ensures { result ≡ states_trimmed (message m.now) }
{
    match m {
        MsgRef::Abort { abort } => is_trimmed(&abort.content),
        MsgRef::Init { cert } => any_trimmed(copy_of(cert)),
        MsgRef::PrePrepare { offer, .. } => offers_trimmed(offer),
        _ => false,
    }
}

/// Whether the base of a view change in a message is trimmed.
fn shows_trimmed(m: &MsgRef<'_>) -> bool
    ensures { result ≡ shows_trimmed (message m.now) }
{
    match m {
        MsgRef::ViewChange { change } => has_front(change),
        MsgRef::NewView { changes, .. } => any_front(copy_of(changes)),
        _ => false,
    }
}

/// Whether a message holds a trimmed list.
fn holds_trimmed(m: &MsgRef<'_>) -> bool
    ensures { result ≡ holds_trimmed (message m.now) }
{
    states_trimmed(m) || shows_trimmed(m)
}

/// The message that all of the bytes spell where a checkpoint is due after each `every` requests. If none ever is, its lists are whole.
pub(crate) fn read_in(every: u16, bytes: &[u8]) -> Result<MsgRef<'_>, Bad>
    ensures exact { Gives message result (allowed every (message_of bytes.now)) }
    ensures received { IfOk result IsReceived }
{
    let m = read(bytes)?;
    if every == 0 && holds_trimmed(&m) {
        return Err(Bad::BadLength);
    }
    Ok(m)
}
