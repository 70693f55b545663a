//! One signature that was tried.

ghost use Rattle.std.specs.Prelude.{◌≡◌, IfOk, IfSome};
ghost use Rattle.ab_scheme.specs.Schemes.{verified_by};

use ab_num::OutOfMemory;
use ab_scheme::PublicKey;
use std::alloc::Global;
use std::marker::Model;

/// A public key, a content and a signature over it, and whether it verifies under the key.
pub(crate) struct Verdict {
    public: PublicKey,
    content: Vec<u8>,
    sig: Vec<u8>,
    right: bool,
}

impl Drop for Verdict {
    fn drop(self) {
        let Verdict {
            public: _,
            content: _,
            sig: _,
            right: _,
        } = self;
    }
}

/// It is seen as key, content and signature, and says whether these verify.
impl Model for Verdict {
    ghost use Rattle.std.specs.Prelude.{◌≡◌};
    ghost use Rattle.ab_scheme.specs.Schemes.{verified_by};
    ghost use Rattle.ab_sign.specs.Kept.{Signature};

    ghost Value = { Signature };

    ghost view = { λ v. (v.public, (v.content.items, v.sig.items)) };

    ghost invariant = { λ v. v.right ≡ verified_by v.public v.content.items v.sig.items };
}

impl Verdict {
    /// What was found of a signature.
    pub(crate) fn of(
        alloc: Global,
        public: &PublicKey,
        content: &[u8],
        sig: &[u8],
        right: bool,
    ) -> Result<Verdict, OutOfMemory>
        requires { right ≡ verified_by public.now content.now sig.now }
        ensures { IfOk result (λ v. v ≡ (public.now, (content.now, sig.now))) }
    {
        let content = Vec::from_slice(alloc, content)?;
        let sig = Vec::from_slice(alloc, sig)?;
        Ok(Verdict {
            public: *public,
            content,
            sig,
            right,
        })
    }

    /// Whether the signature verifies, if it is this one.
    pub(crate) fn on(&self, public: &PublicKey, content: &[u8], sig: &[u8]) -> Option<bool>
        ensures { IfSome result (λ right. right ≡ verified_by public.now content.now sig.now) }
    {
        let same = self.public.is_equal(public)
            && self.sig.as_slice() == sig
            && self.content.as_slice() == content;
        if same { Some(self.right) } else { None }
    }
}
