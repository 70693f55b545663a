//! The outside of a program as traits with their meaning, and objects in memory that meet them.
#![tactic(auto)]

mod clock;
mod fault;
mod link;
mod memory;
mod sink;
mod source;

pub use clock::Clock;
pub use fault::{Failed, Refused};
pub use link::{Got, LONGEST_DATAGRAM, Link};
pub use memory::{MemClock, MemLink, MemSink, MemSource, SureSink, SureSource};
pub use sink::Sink;
pub use source::Source;
