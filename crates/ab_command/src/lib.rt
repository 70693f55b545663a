//! What the programs do over any objects of input, output, link, clock and spawner: the command that words ask for, and the schedule of a storm.
#![tactic(auto)]

mod audit;
mod cluster;
mod keys;
mod saying;
mod schedule;
mod schedule_top;
mod status;
mod top;

pub use saying::{say, say_no_memory, say_replay_fault, say_usage, write_or_say};
pub use schedule_top::serve;
pub use status::{Bound, Status};
pub use top::{refuse_memory, run};
