//! Copies of what is borrowed, and lists of no parts.

ghost use Rattle.std.specs.Prelude.{◌≡◌, []};
ghost use Rattle.ab_form.specs.Readers.{listed};

use ab_form::{ListRef, Part};

/// The same value, without the loan. It takes the place of `*x`: the borrow checker has no rule for that where `T` has a
/// lifetime and the function that wants the copy has others.
pub fn copy_of<T: Copy>(x: &T) -> T
    ensures { result ≡ x.now }
{
    *x
}

/// No parts.
#[tactic(auto, unfolding(ab_form::specs::Readers::listed))]
pub(crate) fn none<'a, P: Part<'a>>() -> ListRef<'a, P>
    ensures { listed P.reader result.count result.bytes.now ≡ [] }
{
    ListRef::of(0, &[])
}
