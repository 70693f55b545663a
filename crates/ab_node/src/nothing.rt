//! What a party answers to what it does not take.

ghost use Rattle.std.specs.Prelude.{◌≡◌, [], None, false};

use ab_loop::Reaction;
use std::alloc::Global;

/// Nothing comes of an event.
pub(crate) fn nothing(alloc: Global, opened: bool) -> Reaction
    ensures sends { result.sends.items ≡ [] }
    ensures commit { result.commit ≡ None }
    ensures spent { result.spent ≡ false }
    ensures opened { result.opened ≡ opened }
{
    Reaction {
        sends: Vec::new(alloc),
        commit: None,
        spent: false,
        opened,
    }
}
