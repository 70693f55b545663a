//! Limits that several crates name.

/// The most events of a run.
pub const MOST_EVENTS: usize = 100_000;

/// The most bytes of a message.
pub const LONGEST_MESSAGE: usize = 4_194_304;
