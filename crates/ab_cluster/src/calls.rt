//! Which calls fail.

ghost use Rattle.std.specs.Prelude.{◌≡◌};
ghost use Rattle.ab_io.specs.Told.{fails_next, one_call, one_more as after_one};

use std::marker::Model;

/// Calls of one kind: how many there were, and the numbers of those that fail, counted from 1.
#[derive(Drop)]
pub(crate) struct Calls {
    made: u64,
    fail: Vec<u64>,
}

impl Model for Calls {
    ghost use Rattle.ab_io.specs.Told.{CallPlan};

    ghost Value = { CallPlan };

    ghost view = { λ c. record { made = c.made; fail = c.fail.items } };
}

impl Calls {
    /// No call yet.
    pub(crate) fn new(fail: Vec<u64>) -> Calls
        ensures { result ≡ record { made = 0; fail = fail.items } }
    {
        Calls { made: 0, fail }
    }

    /// Counts one more call. Whether it fails.
    pub(crate) fn fails(&mut self) -> bool
        ensures answer { result ≡ fails_next self.old }
        ensures counted { self.new ≡ one_call self.old }
    {
        self.made = one_more(self.made);
        self.fail.contains(&self.made)
    }
}

/// The count after one more call or fault.
pub(crate) fn one_more(count: u64) -> u64
    ensures { result ≡ after_one count }
{
    count.saturating_add(1)
}
