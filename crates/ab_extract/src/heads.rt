//! Who signed the ABORTs of a certificate, of which instances they are, and which certificates of answers they hold.

ghost use Rattle.std.specs.Prelude.{◌≡◌, ◌<◌, ◌≤◌, length, map, IfSome, IsNone, Some};
ghost use Rattle.std.specs.Option.{option_map};
ghost use Rattle.ab_content.specs.Views.{content as shown};
ghost use Rattle.ab_wire.specs.Views.{aborts};
ghost use Rattle.ab_extract.specs.Certs.{zcert_in};
ghost use Rattle.ab_extract.specs.Heads.{before_of, foreign_in, head_of, is_among, is_before, lead_in, repeat_in};

use ab_form::{ListRef, Part};
use ab_msg::{Content, Signed};
use ab_wire::{ContentRef, SignedRef};
use arrayvec::ArrayVec;

/// How many ABORTs are looked at. No certificate needs more.
const MOST: usize = 7;

/// Who signed an ABORT, of which instance it is, and the number of the certificate of answers in it.
#[derive(Clone, Copy, Debug, Default)]
pub(crate) struct Head {
    pub signer: u8,
    pub instance: u32,
    pub kept: Option<u16>,
}

/// The number of a certificate of answers, with who signed its ABORT and the place of that.
#[derive(Clone, Copy, Debug)]
pub(crate) struct Lead {
    pub by: u8,
    pub at: usize,
    pub n: u16,
}

/// The list once more. It is gone over from its front again.
pub(crate) fn again<'a, P: Part<'a>>(list: &ListRef<'a, P>) -> ListRef<'a, P>
    ensures count { result.count ≡ list.now.count }
    ensures bytes { result.bytes ≡ list.now.bytes }
{
    *list
}

/// The number of the certificate of answers in an ABORT.
fn kept_in(content: &ContentRef<'_>) -> Option<u16>
    ensures { result ≡ option_map (λ z. z.n) (zcert_in (shown content.now)) }
{
    match content {
        ContentRef::AbortZ {
            zcert: Some(zcert),
            ..
        } => Some(zcert.n),
        _ => None,
    }
}

/// The heads of these ABORTs. None if there are over seven.
pub(crate) fn heads_of<'a>(cert: &ListRef<'a, SignedRef<'a>>) -> Option<ArrayVec<Head, 7>>
    ensures some { IfSome result (λ heads. heads.items ≡ map head_of (aborts cert.now)) }
    ensures none { IsNone result → 7 < length (aborts cert.now) }
{
    let mut heads = ArrayVec::new();
    'aborts: for abort in again(cert) {
        if heads.len() == MOST {
            return None;
        }
        heads.push(Head {
            signer: abort.maker,
            instance: abort.content.instance(),
            kept: kept_in(&abort.content),
        });
    }
    Some(heads)
}

/// The number of the certificate of answers that stands in a content.
fn kept_by(content: &Content) -> Option<u16>
    ensures { result ≡ option_map (λ z. z.n) (zcert_in content.now) }
{
    match content {
        Content::AbortZ {
            zcert: Some(zcert),
            ..
        } => Some(zcert.n),
        _ => None,
    }
}

/// The same of ABORTs with parts of their own.
pub(crate) fn heads_by(cert: &[Signed]) -> ArrayVec<Head, 7>
    requires { length cert.now ≤ 7 }
    ensures { result.items ≡ map head_of cert.now }
{
    let mut heads = ArrayVec::new();
    for abort in cert {
        heads.push(Head {
            signer: abort.maker,
            instance: abort.content.instance(),
            kept: kept_by(&abort.content),
        });
    }
    heads
}

/// Whether `r` signed one of these.
fn is_among(heads: &[Head], r: u8) -> bool
    ensures { result ≡ is_among heads.now r }
{
    heads.iter().any(|t| t.signer == r)
}

/// The first signer that signs again.
pub(crate) fn repeated(heads: &[Head]) -> Option<u8>
    ensures { result ≡ repeat_in heads.now }
{
    for k in 0..heads.len() {
        let r = heads[k].signer;
        if is_among(&heads[k + 1..], r) {
            return Some(r);
        }
    }
    None
}

/// The first instance that is named and isn't `i`.
pub(crate) fn foreign(heads: &[Head], i: u32) -> Option<u32>
    ensures { result ≡ foreign_in i heads.now }
{
    for s in heads {
        if s.instance != i {
            return Some(s.instance);
        }
    }
    None
}

/// Whether the first has the higher number, or the same and the lower replica.
fn is_before(a: &Lead, b: &Lead) -> bool
    ensures { result ≡ is_before a.now b.now }
{
    a.n > b.n || (a.n == b.n && a.by < b.by)
}

/// The one of the two that goes before the other.
fn first_of(a: Lead, b: Option<Lead>) -> Lead
    ensures { Some result ≡ before_of a b }
{
    match b {
        Some(b) => { if is_before(&a, &b) { a } else { b } }
        None => a,
    }
}

/// Of the certificates of answers in these ABORTs the one of the highest number, the lowest replica's at a tie.
pub(crate) fn leading(heads: &[Head]) -> Option<Lead>
    ensures { result ≡ lead_in 0 heads.now }
{
    let mut best = None;
    'heads: for at in (0..heads.len()).rev() {
        let head = heads[at];
        if let Some(n) = head.kept {
            let by = head.signer;
            best = Some(first_of(Lead { by, at, n }, best));
        }
    }
    best
}
