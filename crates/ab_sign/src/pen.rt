//! A replica that signs.

ghost use Rattle.std.specs.Prelude.{◌≡◌, ◌<◌, IfOk};
ghost use Rattle.ab_msg.specs.Contents.{spell_content};
ghost use Rattle.ab_sign.specs.Signers.{leaves_of, signature_of};

use crate::signers::Signers;
use ab_msg::{Content, Notary, Sig, SignFault};
use ab_num::OutOfMemory;
use ab_write::content_bytes;
use std::alloc::Global;
use std::marker::Model;

/// Replica `replica` with the leaves of its tree that `used` leaves over. How many are used is a number
/// of its own, so that cores of one replica share the tree.
#[derive(Drop)]
pub struct Pen<'a> {
    signers: &'a Signers,
    replica: u8,
    used: u64,
}

/// It is seen as the keys, the replica and how often it has signed.
impl<'a> Model for Pen<'a> {
    ghost use Rattle.ab_sign.specs.Signers.{Signing};

    ghost Value = { Signing };

    ghost view = { λ p. record { keys = p.signers.now; replica = p.replica; used = p.used } };
}

impl<'a> Pen<'a> {
    /// A replica that has signed so often.
    pub fn new(signers: &'a Signers, replica: u8, used: u64) -> Pen<'a>
        ensures { result ≡ record { keys = signers.now; replica = replica; used = used } }
    {
        Pen {
            signers,
            replica,
            used,
        }
    }

    /// How often it has signed.
    pub fn used(&self) -> u64
        ensures { result ≡ self.now.used }
    {
        self.used
    }

    /// The signature of a content by the next leaf.
    fn next(&self, alloc: Global, c: &Content) -> Result<Sig, OutOfMemory>
        requires { self.now.used < leaves_of self.now.keys self.now.replica }
        ensures { IfOk result (λ s. s ≡ signature_of self.now.keys self.now.replica self.now.used (spell_content c.now)) }
    {
        let text = content_bytes(alloc, c)?;
        let sig = self.signers.sign_at(alloc, self.replica, self.used, &text)?;
        Sig::of(alloc, sig)
    }
}

impl Notary for Pen<'_> {
    ghost use Rattle.std.specs.Prelude.{◌-◌};
    ghost use Rattle.ab_sign.specs.Signers.{leaves_of, pen_of};

    ghost pen = { λ p. pen_of p.keys p.replica p.used };

    ghost remains = { λ p. leaves_of p.keys p.replica - p.used };

    fn left(&self) -> u64 {
        self.signers.leaves(self.replica).saturating_sub(self.used)
    }

    fn sign(&mut self, alloc: Global, c: &Content) -> Result<Sig, SignFault> {
        if self.left() == 0 {
            return Err(SignFault::Spent);
        }
        let sig = self.next(alloc, c)?;
        self.used += 1;
        Ok(sig)
    }
}
