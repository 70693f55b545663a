//! What a replica does before an event ends.

ghost use Rattle.std.specs.Prelude.{◌≡◌, ◌≤◌, ◌++◌, [], false, IfOk, length};
ghost use Rattle.ab_hist.specs.Trimmed.{trim};
ghost use Rattle.ab_replica.specs.Entries.{with_entry};

use crate::accepted::init_marks;
use crate::effects::Effects;
use crate::sending::Sending;
use ab_abs::Marks;
use ab_hist::History;
use ab_msg::{Out, Outs};
use ab_num::OutOfMemory;
use std::alloc::Global;

/// What its protocol sends, what is seen of it, and whether the event is spent.
#[derive(Drop)]
pub(crate) struct Done {
    pub outs: Outs,
    pub marks: Marks,
    pub spent: bool,
}

impl Done {
    /// These messages are sent.
    pub(crate) fn sent(alloc: Global, outs: Outs) -> Done
        ensures outs { result.outs ≡ outs }
        ensures marks { result.marks.items ≡ [] }
        ensures spent { result.spent ≡ false }
    {
        Done {
            outs,
            marks: Marks::new_in(alloc),
            spent: false,
        }
    }

    /// Nothing is sent.
    pub(crate) fn none(alloc: Global, spent: bool) -> Done
        ensures outs { result.outs ≡ [] }
        ensures marks { result.marks.items ≡ [] }
        ensures spent { result.spent ≡ spent }
    {
        Done {
            outs: Outs::new(alloc),
            marks: Marks::new_in(alloc),
            spent,
        }
    }

    /// The same of replica `me`, which entered instance `i` with this base by a list that has forgotten its first `start` entries:
    /// that is seen before the rest, unless the event is spent.
    pub(crate) fn with_entry(
        self,
        alloc: Global,
        i: u32,
        me: u8,
        start: usize,
        base: History,
    ) -> Result<Done, OutOfMemory>
        requires instance { 1 ≤ i }
        requires within { start ≤ length base }
        requires few { length self.marks.items ≤ 2 }
        ensures outs { IfOk result (λ e. e.outs ≡ self.outs) }
        ensures marks { IfOk result (λ e. e.marks.items ≡ with_entry i me (trim start base) self.marks.items self.spent) }
        ensures spent { IfOk result (λ e. e.spent ≡ self.spent) }
    {
        if self.spent {
            return Ok(self);
        }
        let Done { outs, marks, spent } = self;
        let marks = init_marks(alloc, i, me, start, base, marks)?;
        Ok(Done { outs, marks, spent })
    }

    /// The event ends, and these are the last messages that are sent.
    pub(crate) fn with_last(self, last: Vec<Out>) -> Effects
        ensures outs { result.outs ≡ self.outs ++ last.items }
        ensures marks { result.marks.items ≡ self.marks.items }
        ensures spent { result.spent ≡ self.spent }
    {
        let Done { outs, marks, spent } = self;
        Effects {
            outs: Sending::with_last(outs, last),
            marks,
            spent,
        }
    }
}
