//! The signature keys of a cluster's replicas.

ghost use Rattle.std.specs.Prelude.{◌≡◌, ◌<◌, IfOk, slice_get};
ghost use Rattle.std.specs.Option.{option_copied};
ghost use Rattle.ab_scheme.specs.Schemes.{verified_by};
ghost use Rattle.ab_sign.specs.Signers.{derived_key, derived_keys, leaves_of, public_of, signature_of};

use crate::key::SignKey;
use crate::known::Known;
use ab_keys::{tree_name, tree_seed};
use ab_num::{Cluster, OutOfMemory, Scheme};
use ab_scheme::{PublicKey, SecretKey, verify_by};
use std::alloc::Global;
use std::cell::RefCell;
use std::marker::Model;

/// The signature keys of a cluster's replicas as one process keeps them, with the signatures that are
/// known to verify, so that none is computed twice. What is made or learned on the way changes nothing
/// that can be seen, so it is shared by all who sign and check.
#[derive(Drop)]
pub struct Signers {
    keys: Vec<SignKey>,
    known: RefCell<Known>,
}

/// It is seen as the list of the keys, from replica 0 on.
impl Model for Signers {
    ghost use Rattle.std.specs.Prelude.{List};
    ghost use Rattle.ab_sign.specs.declared.key.SignKey.{SignKey as Key};

    ghost Value = { List Key };

    ghost view = { λ s. s.keys.items };
}

/// The key that a seed gives to replica `r`.
fn derived_key(scheme: Scheme, seed: &[u8; 32], r: u8) -> SignKey
    ensures { result ≡ derived_key scheme seed.now r }
{
    SignKey::Secret(SecretKey::new(scheme, tree_name(seed, r), tree_seed(seed, r)))
}

impl Signers {
    /// These keys, from replica 0 on.
    pub fn of(alloc: Global, keys: Vec<SignKey>) -> Signers
        ensures { result ≡ keys.items }
    {
        Signers {
            keys,
            known: RefCell::new(Known::new(alloc)),
        }
    }

    /// The keys that a seed gives to the replicas of a cluster.
    pub fn derive(
        alloc: Global,
        c: &Cluster,
        scheme: Scheme,
        seed: &[u8; 32],
    ) -> Result<Signers, OutOfMemory>
        ensures { IfOk result (λ s. s ≡ derived_keys c.now.f scheme seed.now) }
    {
        let mut keys = Vec::with_capacity(alloc, usize::from(c.replicas()))?;
        'replicas: for r in 0..c.replicas() {
            keys.push(derived_key(scheme, seed, r))?;
        }
        Ok(Signers::of(alloc, keys))
    }

    /// The key of replica `r`.
    fn key(&self, r: u8) -> Option<&SignKey>
        ensures { option_copied result ≡ slice_get self.now r }
    {
        self.keys.get(usize::from(r))
    }

    /// How many signatures replica `r` can make.
    pub fn leaves(&self, r: u8) -> u64
        ensures { result ≡ leaves_of self.now r }
    {
        match self.key(r) {
            Some(key) => key.leaves(),
            None => 0,
        }
    }

    /// Whether the signature verifies under a public key.
    fn checks(&self, alloc: Global, public: &PublicKey, text: &[u8], sig: &[u8]) -> bool
        ensures { result ≡ verified_by public.now text.now sig.now }
    {
        match self.known.try_borrow_mut() {
            Ok(mut known) => known.check(alloc, public, text, sig),
            Err(_) => verify_by(public.as_slice(), text, sig),
        }
    }

    /// Whether it is replica `r`'s signature over the text. It is computed only where it isn't known.
    pub fn verifies(&self, alloc: Global, r: u8, text: &[u8], sig: &[u8]) -> bool
        ensures { result ≡ verified_by (public_of self.now r) text.now sig.now }
    {
        match self.key(r) {
            Some(key) => self.checks(alloc, &key.public(), text, sig),
            None => false,
        }
    }

    /// Signature number `q` of replica `r`, which is of a text. It is then known to verify.
    pub fn sign_at(&self, alloc: Global, r: u8, q: u64, text: &[u8]) -> Result<Vec<u8>, OutOfMemory>
        requires { q < leaves_of self.now r }
        ensures { IfOk result (λ v. v.items ≡ signature_of self.now r q text.now) }
    {
        let Some(key) = self.key(r) else {
            unreachable!();
        };
        let sig = key.sign_at(alloc, q, text)?;
        if let Ok(mut known) = self.known.try_borrow_mut() {
            let _ = known.learn(alloc, &key.public(), text, &sig);
        }
        Ok(sig)
    }
}
