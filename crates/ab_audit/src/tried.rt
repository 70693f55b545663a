//! Signatures that were tried, right or wrong, so that none is computed twice.

ghost use Rattle.std.specs.Prelude.{◌≡◌, ◌≤◌, IfOk, IfSome};
ghost use Rattle.ab_scheme.specs.Schemes.{verified_by};
ghost use Rattle.ab_sign.specs.Kept.{bytes_in};

use crate::verdict::Verdict;
use ab_mac::{hash, link};
use ab_num::OutOfMemory;
use ab_scheme::{PublicKey, verify_by};
use ab_sign::{LONGEST_CONTENT, LONGEST_SIGNATURE};
use indexmap::IndexMap;
use std::alloc::Global;

/// How many bytes of contents and signatures are held at most.
const LIMIT: usize = 8_388_608;

/// Signatures that were tried. Each is found by the digest of all that it is of, and then compared, so that looking one up
/// takes no longer the more there are. If the bytes of contents and signatures would pass their limit, all are let go.
pub(crate) struct Tried {
    verdicts: IndexMap<[u8; 32], Verdict>,
    held: usize,
    ghost counted: { bytes_in verdicts.entries ≤ held },
    ghost few: { held ≤ 8388608 },
}

impl Drop for Tried {
    fn drop(self) {
        let Tried {
            verdicts: _,
            held: _,
        } = self;
    }
}

/// The digest by which a signature is kept. Nothing is asked of it.
fn name_of(public: &PublicKey, content: &[u8], sig: &[u8]) -> [u8; 32] {
    link(&link(&hash(public.as_slice()), content), sig)
}

impl Tried {
    /// No signature was tried.
    pub(crate) fn new(alloc: Global) -> Tried {
        Tried {
            verdicts: IndexMap::new(alloc),
            held: 0,
        }
    }

    /// Whether the signature verifies, if it was tried.
    fn known(&self, public: &PublicKey, content: &[u8], sig: &[u8]) -> Option<bool>
        ensures { IfSome result (λ right. right ≡ verified_by public.now content.now sig.now) }
    {
        match self.verdicts.get(&name_of(public, content, sig)) {
            Some(verdict) => verdict.on(public, content, sig),
            None => None,
        }
    }

    /// Keeps whether a signature verifies. If memory is refused, it isn't kept.
    fn learn(
        &mut self,
        alloc: Global,
        public: &PublicKey,
        content: &[u8],
        sig: &[u8],
        right: bool,
    ) -> Result<(), OutOfMemory>
        requires { right ≡ verified_by public.now content.now sig.now }
    {
        if content.len() > LONGEST_CONTENT || sig.len() > LONGEST_SIGNATURE {
            return Ok(());
        }
        let size = content.len() + sig.len();
        if self.held + size > LIMIT {
            self.verdicts.clear();
            self.held = 0;
        }
        let verdict = Verdict::of(alloc, public, content, sig, right)?;
        self.verdicts
            .insert(name_of(public, content, sig), verdict)?;
        self.held += size;
        Ok(())
    }

    /// Whether the signature verifies. It is computed only if it wasn't tried, and then kept if there is memory for it.
    pub(crate) fn check(
        &mut self,
        alloc: Global,
        public: &PublicKey,
        content: &[u8],
        sig: &[u8],
    ) -> bool
        ensures { result ≡ verified_by public.now content.now sig.now }
    {
        if let Some(right) = self.known(public, content, sig) {
            return right;
        }
        let right = verify_by(public.as_slice(), content, sig);
        let _ = self.learn(alloc, public, content, sig, right);
        right
    }
}
