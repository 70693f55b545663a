//! Which ABORTs in received bytes the instances of a kind have.

ghost use Rattle.std.specs.Prelude.{◌≡◌, ◌≤◌, ◌<◌, map, length, IfSome, IsNone};
ghost use Rattle.std.specs.Option.{option_map};
ghost use Rattle.ab_form.specs.Readers.{listed};
ghost use Rattle.ab_hist.specs.Digests.{link as linked};
ghost use Rattle.ab_content.specs.Parts.{signer_at};
ghost use Rattle.ab_content.specs.Views.{content as shown, history, request, zcert as kept};
ghost use Rattle.ab_wire.specs.Views.{aborts};
ghost use Rattle.ab_abs.specs.Certificates.{is_beside, is_quorum};
ghost use Rattle.ab_abs.specs.Kinds.{is_zcert};
ghost use Rattle.ab_abs.specs.Observations.{has_front};
ghost use Rattle.ab_extract.specs.Certs.{first_bad, is_fit};

use crate::beside::{MOST, are_quorum, keeps_answers};
use crate::heads::again;
use ab_content::SignerRef;
use ab_form::ListRef;
use ab_num::Kind;
use ab_wire::{ContentRef, HistoryRef, RequestRef, SignedRef, ZcertRef};
use arrayvec::ArrayVec;

/// Who signed. None if they are over seven.
fn signers_in<'a>(sigs: &ListRef<'a, SignerRef<'a>>) -> Option<ArrayVec<u8, 7>>
    ensures some { IfSome result (λ by. by.items ≡ map (λ s. s.0) (listed signer_at sigs.now.count sigs.now.bytes.now)) }
    ensures none { IsNone result → 7 < length (listed signer_at sigs.now.count sigs.now.bytes.now) }
{
    let mut by = ArrayVec::new();
    'sigs: for sig in again(sigs) {
        if by.len() == MOST {
            return None;
        }
        by.push(sig.replica);
    }
    Some(by)
}

/// Whether the answers in it are those of 2f + 1 different replicas.
fn is_quorum(zcert: &ZcertRef<'_>, f: u8) -> bool
    requires { f ≤ 2 }
    ensures { result ≡ is_quorum f (kept zcert.now) }
{
    match signers_in(&zcert.sigs) {
        Some(by) => are_quorum(by.as_slice(), f),
        None => false,
    }
}

/// The digest of a history that ends with `m`, where `d` is that of the entries before it.
#[tactic(auto, unfolding(ab_hist::specs::Digests::link))]
fn link(d: &[u8; 32], m: &RequestRef<'_>) -> [u8; 32]
    requires { length m.now.command.now ≤ 128 }
    ensures { result ≡ linked d.now (request m.now) }
{
    ab_mac::link(d, m.own().bytes().as_slice())
}

/// Whether the log has so many entries, and those this digest.
fn has_front(log: &HistoryRef<'_>, n: u16, d: &[u8; 32]) -> bool
    ensures { result ≡ has_front (history log.now) n d.now }
{
    let mut left = n;
    let mut digest = [0; 32];
    'entries: for m in log.entries() {
        if left == 0 {
            return digest == *d;
        }
        digest = link(&digest, &m);
        left -= 1;
    }
    left == 0 && digest == *d
}

/// Whether it may be held beside this log.
fn is_beside(log: &HistoryRef<'_>, zcert: &Option<ZcertRef<'_>>, f: u8) -> bool
    requires { f ≤ 2 }
    ensures { result ≡ is_beside f (history log.now) (option_map kept zcert.now) }
{
    match zcert {
        Some(zcert) => has_front(log, zcert.n, zcert.d) && is_quorum(zcert, f),
        None => true,
    }
}

/// Whether instances of the kind have such ABORTs: those of whole logs, and where replicas keep certificates of answers, with one
/// that fits the log, or with none. Nothing is allocated.
pub fn is_fit_view(content: &ContentRef<'_>, kind: Kind, f: u8) -> bool
    requires { f ≤ 2 }
    ensures { result ≡ is_fit (is_zcert kind) f (shown content.now) }
{
    let keeps = keeps_answers(kind);
    match content {
        ContentRef::Abort { .. } => !keeps,
        ContentRef::AbortZ { history, zcert, .. } => keeps && is_beside(history, zcert, f),
        _ => false,
    }
}

/// The first signer whose ABORT isn't as instances of the kind have it.
pub(crate) fn bad_view<'a>(cert: &ListRef<'a, SignedRef<'a>>, kind: Kind, f: u8) -> Option<u8>
    requires { f ≤ 2 }
    ensures { result ≡ first_bad kind f (aborts cert.now) }
{
    'aborts: for abort in again(cert) {
        if !is_fit_view(&abort.content, kind, f) {
            return Some(abort.maker);
        }
    }
    None
}
