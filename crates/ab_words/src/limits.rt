//! Limits of what a node is asked.

/// The highest port of replica 0.
pub(crate) const HIGHEST_BASE: u64 = 65_000;

/// How long a turn may wait, in milliseconds.
pub(crate) const LONGEST_WAIT: u64 = 60_000;

/// The most turns of a node.
pub(crate) const MOST_TURNS: u64 = 1_000_000_000;
