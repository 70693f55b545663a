//! Parts of bytes, of which lists are made.

ghost use Rattle.std.specs.Prelude.{◌≡◌, IfOk, ⊤};
ghost use Rattle.ab_form.specs.Readers.{Gives, Reader};

use crate::bad::Bad;
use ab_num::OutOfMemory;
use std::alloc::Global;

/// A value that borrows its parts from the bytes that it is read from.
pub trait Part<'a>: Copy {
    /// The same with parts of its own.
    type Owned: Drop;

    /// What it is seen as.
    ghost Seen: { Type 0 };

    ghost seen: { Self → Seen };

    /// What a copy is seen as.
    ghost shown: { Self.Owned → Seen };

    /// The reader of what it is seen as.
    ghost reader: { Reader Seen };

    /// What is known of each value that was read, beyond what it is seen as.
    ghost Kept: { Self → Type 0 } = { λ _. ⊤ };

    /// The value at the front of the bytes, and the bytes behind it.
    fn read_part(bytes: &'a [u8]) -> Result<(Self, &'a [u8]), Bad>
        ensures exact { Gives (λ x. (seen x.0, x.1.now)) result (reader bytes.now) }
        ensures kept { IfOk result (λ x. Kept x.0) };

    /// A copy, with parts of its own.
    fn owned(self, alloc: Global) -> Result<Self::Owned, OutOfMemory>
        requires { Kept self }
        ensures { IfOk result (λ x. shown x ≡ seen self) };
}
