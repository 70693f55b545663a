//! Lists on the heap.

ghost use Rattle.std.specs.Prelude.{◌≡◌, [], ◌∷◌, ◌++◌, List, OnOk, OnErr};

use ab_num::OutOfMemory;
use std::alloc::Global;
use std::marker::Model;

/// A list of values, which contracts see as a list.
#[derive(Debug)]
pub struct Items<T> {
    values: Vec<T>,
}

// Written out, so that no crate above makes and proves it anew.
impl<T: Drop> Drop for Items<T> {
    fn drop(self) {
        let Items { values: _ } = self;
    }
}

impl<T> Model for Items<T> {
    ghost Value = { List T };

    ghost view = { λ s. s.values.items };
}

impl<T: Drop> Items<T> {
    /// No values. Nothing is allocated.
    pub fn new(alloc: Global) -> Items<T>
        ensures { result ≡ [] }
    {
        Items {
            values: Vec::new(alloc),
        }
    }

    /// Adds a value at the end. Where memory is refused nothing changes.
    pub fn push(&mut self, value: T) -> Result<(), OutOfMemory>
        ensures ok { OnOk result (self.new ≡ self.old ++ value ∷ []) }
        ensures err { OnErr result (self.new ≡ self.old) }
    {
        self.values.push(value)?;
        Ok(())
    }

    /// The values in their order.
    pub fn as_slice(&self) -> &[T]
        ensures { result.now ≡ self.now }
    {
        self.values.as_slice()
    }
}

impl<T> From<Vec<T>> for Items<T> {
    ghost use Rattle.std.specs.Prelude.{◌≡◌};

    ghost from_gives = { λ v s. s ≡ v.items };

    fn from(values: Vec<T>) -> Items<T> {
        Items { values }
    }
}
