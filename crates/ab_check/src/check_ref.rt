//! One check of a message, without memory.

ghost use Rattle.std.specs.Prelude.{◌≡◌};
ghost use Rattle.ab_check.specs.Checks.{is_right};
ghost use Rattle.ab_check.specs.Listing.{IsClaim, checked};

use crate::checker::Checker;
use crate::claim_ref::ClaimRef;
use ab_msg::Tag;
use std::alloc::Global;

/// What stands for a claim: a tag, if there is one, or a signature.
#[derive(Clone, Copy, Debug)]
pub enum TokenRef<'a> {
    Tag(Option<&'a Tag>),
    Sig(&'a [u8]),
}

/// A claim, and what stands for it.
#[derive(Clone, Copy, Debug)]
pub struct CheckRef<'a> {
    pub claim: ClaimRef<'a>,
    pub token: TokenRef<'a>,
}

/// Whether what stands for a claim is right.
pub(crate) fn is_right<C: Checker>(alloc: Global, c: &mut C, check: &CheckRef<'_>) -> bool
    requires { IsClaim check.now.claim }
    ensures right { result ≡ is_right (C.judge c.old) (checked check.now) }
    ensures same { C.judge c.new ≡ C.judge c.old }
{
    let maker = check.claim.maker();
    let text = check.claim.text();
    match &check.token {
        TokenRef::Tag(tag) => c.tag(maker, text.as_slice(), *tag),
        TokenRef::Sig(sig) => c.sig(alloc, maker, text.as_slice(), sig),
    }
}
