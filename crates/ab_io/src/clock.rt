//! The time.

ghost use Rattle.ab_io.specs.States.{ClockState, Reads};

/// A clock that counts milliseconds.
pub trait Clock {
    /// The readings to come, where they are told.
    ghost state: { Self → ClockState };

    /// The next reading, in milliseconds. It can't fail.
    fn now(&mut self) -> u64
        ensures { Reads (state self.old) (state self.new) result };
}
