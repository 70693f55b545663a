//! The contents that a party checked, as contents of their own.

ghost use Rattle.std.specs.Prelude.{◌≡◌, IfOk, IsTrue};
ghost use Rattle.ab_keys.specs.Keys.{is_party};
ghost use Rattle.ab_open.specs.Claimed.{claims_by_maker};

use crate::checked::Checked;
use crate::claimed::Claims;
use ab_num::{Cluster, OutOfMemory};
use std::alloc::Global;

/// The contents that the receiver of a message has checked in its cluster, in their order, each with its
/// maker.
pub fn claims(alloc: Global, k: &Cluster, m: &Checked<'_>) -> Result<Claims, OutOfMemory>
    requires { IsTrue (is_party k.now.f k.now.clients m.now.me) }
    ensures { IfOk result (λ c. c ≡ claims_by_maker k.now.f m.now.me m.now.msg) }
{
    Claims::of(alloc, m.checks(k))
}
