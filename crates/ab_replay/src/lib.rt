//! Replays of schedules: all plans as one protocol, a run of it, and the report of the run.
#![tactic(auto)]

mod fault;
mod playing;
mod refusal;
mod report;
mod running;
mod stream;

pub use fault::{ReplayFault, fault_of_step, fault_of_text};
pub use playing::{Played, play};
pub use refusal::{Refusal, RefusalCause, refusal_line};
pub use running::{AnyProtocol, Replayed, replay};
pub use stream::{ReadFault, WriteFault, read_all, write_all};
