//! A replica's secret.

ghost use Rattle.std.specs.Prelude.{◌≡◌, ◌<◌, IfOk, IfSome, length};
ghost use Rattle.ab_num.specs.declared.plan.Height.TheVariants.{Ten};
ghost use Rattle.ab_hss.specs.TwoLevels.{hss_signature};
ghost use Rattle.ab_scheme.specs.Schemes.{VerifiesBy, public_by, signature_by, signature_length, signatures_in, top_height};

use crate::public::PublicKey;
use crate::published::Published;
use crate::scheme::height_of;
use ab_hss::Bottom;
use ab_lms::Tree;
use ab_num::{Height, OutOfMemory, Scheme};
use std::alloc::Global;
use std::cell::{OnceCell, RefCell};
use std::marker::Model;

/// The leaves of a bottom tree.
const LEAVES: u64 = 1024;

/// The secret of a replica: its scheme, the name of its tree at the top, and the seed of its private
/// values. Its public key and its trees are made when they are first needed, and then kept. No proof
/// knows what a cell holds, so what was kept is used only where it is of this secret.
pub struct SecretKey {
    scheme: Scheme,
    id: [u8; 16],
    seed: [u8; 32],
    public: OnceCell<Published>,
    top: OnceCell<Tree>,
    bottom: RefCell<Option<Bottom>>,
}

impl Drop for SecretKey {
    fn drop(self) {
        let SecretKey {
            scheme: _,
            id: _,
            seed: _,
            public: _,
            top: _,
            bottom: _,
        } = self;
    }
}

impl Model for SecretKey {
    ghost use Rattle.std.specs.Prelude.{◌≡◌, length};
    ghost use Rattle.ab_scheme.specs.Schemes.{SchemeKey};

    ghost Value = { SchemeKey };

    ghost view = { λ k. record { scheme = k.scheme; id = k.id; seed = k.seed } };

    ghost invariant = { λ k. length k.id ≡ 16 };
}

impl SecretKey {
    /// The secret of these parts.
    pub fn new(scheme: Scheme, id: [u8; 16], seed: [u8; 32]) -> SecretKey
        ensures { result ≡ record { scheme = scheme; id = id; seed = seed } }
    {
        SecretKey {
            scheme,
            id,
            seed,
            public: OnceCell::new(),
            top: OnceCell::new(),
            bottom: RefCell::new(None),
        }
    }

    /// How it signs.
    pub fn scheme(&self) -> Scheme
        ensures { result ≡ self.now.scheme }
    {
        self.scheme
    }

    /// The tree of this height, if it was made.
    fn kept_top(&self, height: Height) -> Option<&Tree>
        ensures { IfSome result (λ t. t.now ≡ record { height = height; id = self.now.id; seed = self.now.seed }) }
    {
        let tree = self.top.get()?;
        if tree.is_of(height, &self.id, &self.seed) {
            Some(tree)
        } else {
            None
        }
    }

    /// The public key, if it was computed.
    fn kept_public(&self) -> Option<PublicKey>
        ensures { IfSome result (λ p. p ≡ public_by self.now.scheme self.now.id self.now.seed) }
    {
        self.public.get()?.key_of(self.scheme, &self.id, &self.seed)
    }

    /// The public key, from the tree at the top.
    fn public_from(&self, top: &Tree) -> PublicKey
        requires { top.now ≡ record { height = top_height self.now.scheme; id = self.now.id; seed = self.now.seed } }
        ensures { result ≡ public_by self.now.scheme self.now.id self.now.seed }
    {
        match self.scheme {
            Scheme::Lms(_) => PublicKey::one_level(top.public()),
            Scheme::Hss => PublicKey::two_levels(&top.public()),
        }
    }

    /// The public key, from the tree at the top if it was made.
    fn made_public(&self) -> PublicKey
        ensures { result ≡ public_by self.now.scheme self.now.id self.now.seed }
    {
        match self.kept_top(height_of(self.scheme)) {
            Some(top) => self.public_from(top),
            None => PublicKey::of(self.scheme, &self.id, &self.seed),
        }
    }

    /// The public key.
    pub fn public(&self) -> PublicKey
        ensures { result ≡ public_by self.now.scheme self.now.id self.now.seed }
    {
        if let Some(public) = self.kept_public() {
            return public;
        }
        let public = self.made_public();
        let _ = self
            .public
            .set(Published::of(self.scheme, self.id, self.seed, public));
        public
    }

    /// The trees of the bottom level that were kept. They aren't kept any more.
    fn taken(&self) -> Option<Bottom> {
        match self.bottom.try_borrow_mut() {
            Ok(mut kept) => kept.take(),
            Err(_) => None,
        }
    }

    /// Keeps the trees of the bottom level.
    fn keep(&self, bottom: Bottom) {
        if let Ok(mut kept) = self.bottom.try_borrow_mut() {
            *kept = Some(bottom);
        }
    }

    /// Signature number `q` in two levels, below this tree.
    fn below(&self, alloc: Global, top: &Tree, q: u64, text: &[u8]) -> Result<Vec<u8>, OutOfMemory>
        requires top { top.now ≡ record { height = Ten; id = self.now.id; seed = self.now.seed } }
        requires number { q < 1048576 }
        ensures { IfOk result (λ v. v.items ≡ hss_signature self.now.id self.now.seed q text.now) }
    {
        let tree = (q / LEAVES) as u32;
        let mut bottom = Bottom::reached(alloc, self.taken(), &self.id, &self.seed, tree)?;
        let sig = bottom.sign_at(alloc, top, q, text)?;
        if bottom.made() <= q % LEAVES {
            bottom.grow();
        }
        self.keep(bottom);
        Ok(sig)
    }

    /// Signature number `q`, by the tree at the top or below it.
    fn signed_by(
        &self,
        alloc: Global,
        top: &Tree,
        q: u64,
        text: &[u8],
    ) -> Result<Vec<u8>, OutOfMemory>
        requires top { top.now ≡ record { height = top_height self.now.scheme; id = self.now.id; seed = self.now.seed } }
        requires number { q < signatures_in self.now.scheme }
        ensures { IfOk result (λ v. v.items ≡ signature_by self.now.scheme self.now.id self.now.seed q text.now) }
    {
        match self.scheme {
            Scheme::Lms(_) => top.sign_at(alloc, q, text),
            Scheme::Hss => self.below(alloc, top, q, text),
        }
    }

    /// Signature number `q`. The tree at the top has this height. It is made if it isn't kept.
    fn signed(
        &self,
        alloc: Global,
        height: Height,
        q: u64,
        text: &[u8],
    ) -> Result<Vec<u8>, OutOfMemory>
        requires height { height ≡ top_height self.now.scheme }
        requires number { q < signatures_in self.now.scheme }
        ensures { IfOk result (λ v. v.items ≡ signature_by self.now.scheme self.now.id self.now.seed q text.now) }
    {
        if let Some(top) = self.kept_top(height) {
            return self.signed_by(alloc, top, q, text);
        }
        let top = Tree::new(alloc, height, self.id, self.seed)?;
        let sig = self.signed_by(alloc, &top, q, text);
        let _ = self.top.set(top);
        sig
    }

    /// Signature number `q` of `text`: 2,348 bytes by a tree of height 5, 2,508 by one of height 10, and
    /// 5,076 in two levels. Each number must sign one text only. In two levels it costs least where the
    /// numbers come in their order.
    pub fn sign_at(&self, alloc: Global, q: u64, text: &[u8]) -> Result<Vec<u8>, OutOfMemory>
        requires { q < signatures_in self.now.scheme }
        ensures signature { IfOk result (λ v. v.items ≡ signature_by self.now.scheme self.now.id self.now.seed q text.now) }
        ensures verifies { IfOk result (λ v. VerifiesBy (public_by self.now.scheme self.now.id self.now.seed) text.now v.items) }
        ensures long { IfOk result (λ v. length v.items ≡ signature_length self.now.scheme) }
    {
        let height = height_of(self.scheme);
        let sig = self.signed(alloc, height, q, text)?;
        Ok(sig)
    }
}
