//! What a message asks of a replica.

ghost use Rattle.std.specs.Prelude.{◌≡◌};
ghost use Rattle.ab_content.specs.Views.{content as shown};
ghost use Rattle.ab_wire.specs.Views.{message};
ghost use Rattle.ab_run.specs.Checkpoints.{mark_in};
ghost use Rattle.ab_run.specs.Replicas.{client_of};
ghost use Rattle.ab_replica.specs.Purposes.{purpose_of, purpose_of_mark};

use ab_content::ContentRef;
use ab_num::Party;
use ab_wire::{MsgRef, OfferRef};

/// What a message asks for, as far as a replica looks before its protocol does.
#[derive(Clone, Copy, Debug, PartialEq, Eq)]
pub(crate) enum Purpose {
    /// A client asks for an answer.
    Request(u16),
    /// A client asks it to stop.
    Panic(u16),
    /// A replica offers a base, with the certificate that gives it.
    Base,
    /// A replica tells what its log begins with.
    Checkpoint { by: u8, n: u16, d: [u8; 32] },
    /// Nothing: it is for others, or for nobody.
    Nothing,
    Other,
}

/// The number of a client.
fn client_of(party: Party) -> u16
    ensures { result ≡ client_of party }
{
    match party {
        Party::Replica(_) => 0,
        Party::Client(c) => c,
    }
}

/// What a CHECKPOINT tells.
fn purpose_of_mark(content: &ContentRef<'_>) -> Purpose
    ensures { result ≡ purpose_of_mark (mark_in (shown content.now)) }
{
    match content {
        ContentRef::Checkpoint {
            maker: Party::Replica(by),
            n,
            d,
            ..
        } => Purpose::Checkpoint {
            by: *by,
            n: *n,
            d: **d,
        },
        _ => Purpose::Nothing,
    }
}

/// What the message asks for.
pub(crate) fn purpose_of(m: &MsgRef<'_>) -> Purpose
    ensures { result ≡ purpose_of (message m.now) }
{
    match m {
        MsgRef::Req { content, .. } => Purpose::Request(client_of(content.maker())),
        MsgRef::Panic { content, .. } => Purpose::Panic(client_of(content.maker())),
        MsgRef::PrePrepare {
            offer: OfferRef::Base(_),
            ..
        } => Purpose::Base,
        MsgRef::Checkpoint { content, .. } => purpose_of_mark(content),
        MsgRef::LocalCommit { .. } => Purpose::Nothing,
        MsgRef::Spec { .. } => Purpose::Nothing,
        _ => Purpose::Other,
    }
}
