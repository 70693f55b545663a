//! A clock in memory.

ghost use Rattle.std.specs.Prelude.{◌≡◌};
ghost use Rattle.ab_io.specs.Readings.{last_of};

use crate::clock::Clock;
use std::marker::Model;

/// Readings in memory. After their end the last one is repeated, or 0 where there was none.
#[derive(Drop)]
pub struct MemClock {
    readings: Vec<u64>,
    at: usize,
    last: u64,
}

/// It is seen as its readings to come.
impl Model for MemClock {
    ghost use Rattle.std.specs.Prelude.{drop, ◌≤◌, length};
    ghost use Rattle.ab_io.specs.Readings.{Readings};

    ghost Value = { Readings };

    ghost view = { λ c. record { to_come = drop c.at c.readings.items; last = c.last } };

    ghost invariant = { λ c. c.at ≤ length c.readings.items };
}

impl MemClock {
    /// A clock with these readings.
    pub fn new(readings: Vec<u64>) -> MemClock
        ensures { result ≡ record { to_come = readings.items; last = last_of readings.items } }
    {
        let last = readings.last().copied().unwrap_or(0);
        MemClock {
            readings,
            at: 0,
            last,
        }
    }
}

impl Clock for MemClock {
    ghost use Rattle.std.specs.declared.option.Option.TheVariants.{Some};

    ghost state = { λ c. record { readings = Some c } };

    fn now(&mut self) -> u64 {
        match self.readings.get(self.at) {
            Some(reading) => {
                self.at += 1;
                *reading
            }
            None => self.last,
        }
    }
}
