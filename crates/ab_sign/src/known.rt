//! A bounded set of signatures that verify.

ghost use Rattle.std.specs.Prelude.{◌≡◌, ◌≤◌, ◌+◌, ◌↔◌, IsTrue, length};
ghost use Rattle.ab_lms.specs.Signatures.{Verifies};
ghost use Rattle.ab_hss.specs.TwoLevels.{HssVerifies};
ghost use Rattle.ab_scheme.specs.Schemes.{VerifiesBy};
ghost use Rattle.ab_sign.specs.Kept.{bytes_in};

use crate::sure::Sure;
use ab_hss::has_two_levels;
use ab_lms::verify;
use ab_num::OutOfMemory;
use ab_scheme::{PublicKey, verify_by};
use indexmap::IndexMap;
use std::alloc::Global;

/// How many bytes of contents and signatures are held at most.
const LIMIT: usize = 8_388_608;

/// The most bytes of a content that is kept.
pub const LONGEST_CONTENT: usize = 262_144;

/// The most bytes of a signature that is kept.
pub const LONGEST_SIGNATURE: usize = 8_192;

/// The bytes of a signature in two levels.
const TWO_LEVELS: usize = 5076;

/// Signatures that verify. A signature is found by the 32 bytes that its maker chose for it, so
/// looking one up takes no longer the more there are. Where the bytes of contents and signatures would
/// pass their limit, all are let go.
pub struct Known {
    sure: IndexMap<[u8; 32], Sure>,
    held: usize,
    ghost counted: { bytes_in sure.entries ≤ held },
    ghost few: { held ≤ 8388608 },
}

impl Drop for Known {
    fn drop(self) {
        let Known { sure: _, held: _ } = self;
    }
}

/// The value C of the signature of the content, by which it is kept. In two levels it stands behind the
/// signed key of the bottom, which is the same for 1,024 signatures. Nothing is asked of it.
fn key_of(sig: &[u8]) -> Option<[u8; 32]> {
    let at = if sig.len() == TWO_LEVELS { 2576 } else { 8 };
    let behind = sig.get(at..)?;
    let (key, _) = behind.split_first_chunk::<32>()?;
    Some(*key)
}

/// The public key of one level that these bytes are.
fn one_level(bytes: &[u8]) -> PublicKey
    requires { length bytes.now ≡ 56 }
    ensures { result ≡ bytes.now }
{
    let mut own = [0; 56];
    own.copy_from_slice(bytes);
    PublicKey::one_level(own)
}

impl Known {
    /// No signature is known.
    pub fn new(alloc: Global) -> Known {
        Known {
            sure: IndexMap::new(alloc),
            held: 0,
        }
    }

    /// Whether the signature is known to verify.
    pub fn has(&self, public: &PublicKey, content: &[u8], sig: &[u8]) -> bool
        ensures { IsTrue result → VerifiesBy public.now content.now sig.now }
    {
        let Some(key) = key_of(sig) else {
            return false;
        };
        match self.sure.get(&key) {
            Some(sure) => sure.is(public, content, sig),
            None => false,
        }
    }

    /// Whether the signature verifies. It is computed only where it isn't known. No memory is taken.
    pub fn verifies(&self, public: &PublicKey, content: &[u8], sig: &[u8]) -> bool
        ensures { IsTrue result ↔ VerifiesBy public.now content.now sig.now }
    {
        self.has(public, content, sig) || verify_by(public.as_slice(), content, sig)
    }

    /// Whether the signature verifies. It is computed only where it isn't known, and then kept where
    /// there is memory for it.
    pub fn check(&mut self, alloc: Global, public: &PublicKey, content: &[u8], sig: &[u8]) -> bool
        ensures { IsTrue result ↔ VerifiesBy public.now content.now sig.now }
    {
        if self.has(public, content, sig) {
            return true;
        }
        if !self.computed(alloc, public.as_slice(), content, sig) {
            return false;
        }
        let _ = self.learn(alloc, public, content, sig);
        true
    }

    /// Whether the top's key signed the bottom's, both of one level. It is computed only where it isn't
    /// known, and then kept.
    fn check_key(&mut self, alloc: Global, top: &[u8], key: &[u8], sig: &[u8]) -> bool
        requires { length top.now ≡ 56 }
        ensures { IsTrue result ↔ Verifies top.now key.now sig.now }
    {
        let public = one_level(top);
        if self.has(&public, key, sig) {
            return true;
        }
        if !verify(top, key, sig) {
            return false;
        }
        let _ = self.learn(alloc, &public, key, sig);
        true
    }

    /// Whether the signature verifies in two levels. The signed key of the bottom is the same for 1,024
    /// signatures, so it is known for most of them.
    fn computed_below(&mut self, alloc: Global, public: &[u8], content: &[u8], sig: &[u8]) -> bool
        ensures { IsTrue result ↔ HssVerifies public.now content.now sig.now }
    {
        if !has_two_levels(public, sig) {
            return false;
        }
        let key = &sig[2512..2568];
        self.check_key(alloc, &public[4..60], key, &sig[4..2512])
            && verify(key, content, &sig[2568..5076])
    }

    /// Whether the signature verifies, where it isn't known.
    fn computed(&mut self, alloc: Global, public: &[u8], content: &[u8], sig: &[u8]) -> bool
        ensures { IsTrue result ↔ VerifiesBy public.now content.now sig.now }
    {
        verify(public, content, sig) || self.computed_below(alloc, public, content, sig)
    }

    /// Keeps a signature that verifies. Where memory is refused, it isn't kept.
    pub fn learn(
        &mut self,
        alloc: Global,
        public: &PublicKey,
        content: &[u8],
        sig: &[u8],
    ) -> Result<(), OutOfMemory>
        requires { VerifiesBy public.now content.now sig.now }
    {
        let Some(key) = key_of(sig) else {
            return Ok(());
        };
        if self.has(public, content, sig)
            || content.len() > LONGEST_CONTENT
            || sig.len() > LONGEST_SIGNATURE
        {
            return Ok(());
        }
        let size = content.len() + sig.len();
        if self.held + size > LIMIT {
            self.sure.clear();
            self.held = 0;
        }
        let sure = Sure::of(alloc, public, content, sig)?;
        self.sure.insert(key, sure)?;
        self.held += size;
        Ok(())
    }
}
