//! Who tells whether a tag or a signature is right.

ghost use Rattle.std.specs.Prelude.{◌≡◌};

use crate::signers::Signers;
use ab_check::Checker;
use ab_keys::KeyRing;
use ab_msg::Tag;
use ab_num::Party;
use std::alloc::Global;
use std::marker::Model;

/// The key ring of a party, by which it checks tags, and the keys by which signatures are checked.
#[derive(Drop)]
pub struct Verifier<'a> {
    ring: &'a KeyRing,
    signers: &'a Signers,
}

/// It is seen as the ring and the keys.
impl<'a> Model for Verifier<'a> {
    ghost use Rattle.ab_sign.specs.Judges.{Checking};

    ghost Value = { Checking };

    ghost view = { λ v. record { ring = v.ring.now; keys = v.signers.now } };
}

impl<'a> Verifier<'a> {
    /// One who checks by these keys.
    pub fn new(ring: &'a KeyRing, signers: &'a Signers) -> Verifier<'a>
        ensures { result ≡ record { ring = ring.now; keys = signers.now } }
    {
        Verifier { ring, signers }
    }
}

impl Checker for Verifier<'_> {
    ghost use Rattle.ab_sign.specs.Judges.{judge_of};

    ghost judge = { λ v. judge_of v.ring v.keys };

    fn tag(&self, maker: Party, text: &[u8], tag: Option<&Tag>) -> bool {
        self.ring.accepts(maker, text, tag)
    }

    fn sig(&mut self, alloc: Global, maker: Party, text: &[u8], sig: &[u8]) -> bool {
        match maker {
            Party::Replica(r) => self.signers.verifies(alloc, r, text, sig),
            Party::Client(_) => false,
        }
    }
}
