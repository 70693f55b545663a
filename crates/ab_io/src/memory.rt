//! Objects in memory. Those whose name begins with `Mem` fail at stated calls, the others never.

mod calls;
mod clock;
mod link;
mod sink;
mod source;
mod sure;

pub use clock::MemClock;
pub use link::MemLink;
pub use sink::MemSink;
pub use source::MemSource;
pub use sure::{SureSink, SureSource};
