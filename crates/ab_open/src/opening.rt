//! Opening messages.

ghost use Rattle.std.specs.Prelude.{◌≡◌, Ok, Err, IfOk, IsTrue, MatchResult};
ghost use Rattle.ab_keys.specs.Keys.{is_party};
ghost use Rattle.ab_open.specs.Opening.{opening};

use crate::checked::Checked;
use crate::fault::OpenFault;
use crate::taking::takes;
use crate::trimmed::read_in;
use ab_check::{Checker, check};
use ab_num::{Cluster, Party};
use std::alloc::Global;

/// Opens bytes that came to a party of a cluster in which a checkpoint is due after each `every` requests, or never if that is 0. Memory is
/// taken only for what the checker remembers.
#[tactic(auto, using(crate::proofs::OpenLemmas::placed))]
pub fn open<'a, C: Checker>(
    alloc: Global,
    k: &Cluster,
    every: u16,
    me: Party,
    c: &mut C,
    bytes: &'a [u8],
) -> Result<Checked<'a>, OpenFault>
    requires { IsTrue (is_party k.now.f k.now.clients me) }
    ensures opening { MatchResult result (λ m. opening (C.judge c.old) k.now.f k.now.clients every me bytes.now ≡ Ok m.msg) (λ e. opening (C.judge c.old) k.now.f k.now.clients every me bytes.now ≡ Err e) }
    ensures me { IfOk result (λ m. m.me ≡ me) }
    ensures same { C.judge c.new ≡ C.judge c.old }
{
    let msg = read_in(every, bytes)?;
    if !takes(k, me, &msg) {
        return Err(OpenFault::NotMine);
    }
    match check(alloc, c, k, me, &msg) {
        Ok(()) => Ok(Checked::of(msg, me)),
        Err(place) => Err(OpenFault::BadTag(place)),
    }
}
