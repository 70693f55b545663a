//! What a party sends in an event.

ghost use Rattle.std.specs.Prelude.{◌≡◌, [], ◌++◌, IfOk, length};

use ab_msg::{Out, Outs};
use ab_num::OutOfMemory;
use std::alloc::Global;
use std::marker::Model;

/// What a party sends in one event, in the order of sending: what its protocol sends, and then its CHECKPOINT, which has room of
/// its own.
pub struct Sending {
    outs: Outs,
    last: Vec<Out>,
}

// Written out, so that no crate above makes and proves it anew.
impl Drop for Sending {
    fn drop(self) {
        let Sending { outs: _, last: _ } = self;
    }
}

/// It is seen as the list of all that is sent.
impl Model for Sending {
    ghost use Rattle.std.specs.Prelude.{List, ◌++◌};
    ghost use Rattle.ab_msg.specs.declared.message.Out.{Out as OutMessage};

    ghost Value = { List OutMessage };

    ghost view = { λ s. s.outs ++ s.last.items };
}

impl Sending {
    /// These messages.
    pub fn of(alloc: Global, outs: Outs) -> Sending
        ensures { result ≡ outs }
    {
        Sending {
            outs,
            last: Vec::new(alloc),
        }
    }

    /// Nothing.
    pub fn none(alloc: Global) -> Sending
        ensures { result ≡ [] }
    {
        Sending {
            outs: Outs::new(alloc),
            last: Vec::new(alloc),
        }
    }

    /// These messages, and then the last ones.
    pub(crate) fn with_last(outs: Outs, last: Vec<Out>) -> Sending
        ensures { result ≡ outs ++ last.items }
    {
        Sending { outs, last }
    }

    /// How many messages there are.
    pub fn len(&self) -> usize
        ensures { result ≡ length self.now }
    {
        self.outs.as_slice().len() + self.last.len()
    }

    /// All messages in one list. It takes memory only where there are last ones.
    pub fn joined(self, alloc: Global) -> Result<Outs, OutOfMemory>
        ensures { IfOk result (λ o. o ≡ self) }
    {
        let Sending { outs, mut last } = self;
        if last.is_empty() {
            return Ok(outs);
        }
        let mut all = Vec::with_capacity(alloc, outs.as_slice().len() + last.len())?;
        outs.append_to(&mut all);
        all.append(&mut last)?;
        Ok(Outs::of(all))
    }
}
