//! What correct parties stated.

ghost use Rattle.std.specs.Prelude.{◌≡◌, [], OnOk, OnErr};
ghost use Rattle.std.specs.List.{list_any};
ghost use Rattle.std.specs.Str.{bytes_eq};
ghost use Rattle.ab_run.specs.Stages.{keep};

use ab_num::OutOfMemory;
use indexmap::IndexSet;
use std::alloc::Global;
use std::marker::Model;

/// The bytes of each statement, once, in the order of first making. Looking one up takes no longer
/// the more there are.
#[derive(Drop)]
pub struct Statements {
    made: IndexSet<Vec<u8>>,
}

/// It is seen as the list of the statements' bytes.
impl Model for Statements {
    ghost use Rattle.std.specs.Prelude.{List, ℕ, map};

    ghost Value = { List (List ℕ) };

    ghost view = { λ s. map (λ bytes. bytes.items) s.made.keys };
}

impl Statements {
    /// Nothing is stated.
    pub fn new(alloc: Global) -> Statements
        ensures { result ≡ [] }
    {
        Statements {
            made: IndexSet::new(alloc),
        }
    }

    /// Whether a statement has these bytes.
    pub fn contains(&self, bytes: &[u8]) -> bool
        ensures { result ≡ list_any (bytes_eq bytes.now) self.now }
    {
        self.made.contains(bytes)
    }

    /// Adds a statement's bytes, unless they are there.
    pub fn add(&mut self, _alloc: Global, bytes: Vec<u8>) -> Result<(), OutOfMemory>
        ensures ok { OnOk result (self.new ≡ keep self.old bytes.items) }
        ensures err { OnErr result (self.new ≡ self.old) }
    {
        self.made.insert(bytes)?;
        Ok(())
    }
}
