//! The system's clock.

ghost use Rattle.std.specs.Prelude.{◌≡◌, ◌≤◌};

use std::marker::Model;
use std::time::Instant;

/// Milliseconds since it was made. Where the system gives no time, the last reading comes again.
#[derive(Drop)]
pub struct StdClock<R: std::time::Clock + Drop> {
    system: R,
    start: Option<Instant>,
    last: u64,
}

/// It is seen as its last reading.
impl<R: std::time::Clock + Drop> Model for StdClock<R> {
    ghost use Rattle.std.specs.Prelude.{ℕ};

    ghost Value = { ℕ };

    ghost view = { λ c. c.last };
}

impl<R: std::time::Clock + Drop> StdClock<R> {
    /// A clock that begins with 0.
    pub fn new(system: R) -> Self
        ensures { result ≡ 0 }
    {
        let start = Instant::now(&system).ok();
        StdClock {
            system,
            start,
            last: 0,
        }
    }

    /// How many milliseconds have passed, if the system gives its time.
    fn passed(&self) -> Option<u64> {
        let start = self.start?;
        let since = start.elapsed(&self.system).ok()?;
        Some(since.as_millis().min(u128::from(u64::MAX)) as u64)
    }
}

impl<R: std::time::Clock + Drop> ab_io::Clock for StdClock<R> {
    ghost use Rattle.std.specs.declared.option.Option.TheVariants.{None};

    ghost state = { λ _. record { readings = None } };

    /// Readings never fall.
    fn now(&mut self) -> u64
        ensures reading { result ≡ self.new }
        ensures later { self.old ≤ self.new }
    {
        if let Some(millis) = self.passed() {
            self.last = self.last.max(millis);
        }
        self.last
    }
}
