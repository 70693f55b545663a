//! What an event brings about beside the state of the party that it comes to.

ghost use Rattle.std.specs.Prelude.{◌≡◌, [], false};

use crate::sending::Sending;
use ab_abs::Marks;
use ab_msg::Outs;
use std::alloc::Global;

/// What a party sends in an event, what is seen of it if it is correct, and whether the event is
/// spent: it asks for more signatures than the party has left, and nothing comes of it.
#[derive(Drop)]
pub struct Effects {
    pub outs: Sending,
    pub marks: Marks,
    pub spent: bool,
}

impl Effects {
    /// These messages are sent.
    pub fn sent(alloc: Global, outs: Outs) -> Effects
        ensures outs { result.outs ≡ outs }
        ensures marks { result.marks.items ≡ [] }
        ensures spent { result.spent ≡ false }
    {
        Effects {
            outs: Sending::of(alloc, outs),
            marks: Marks::new_in(alloc),
            spent: false,
        }
    }

    /// Nothing comes of the event.
    pub fn none(alloc: Global, spent: bool) -> Effects
        ensures outs { result.outs ≡ [] }
        ensures marks { result.marks.items ≡ [] }
        ensures spent { result.spent ≡ spent }
    {
        Effects {
            outs: Sending::none(alloc),
            marks: Marks::new_in(alloc),
            spent,
        }
    }
}
