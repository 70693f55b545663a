//! Storms: random events drawn from a seed, a cluster that runs them, its summary, and the events that were drawn.
#![tactic(auto)]

mod ends;
mod generator;
mod laws;
mod running;
mod summary;

pub use ends::{storms_are_not_refused, storms_end_once};
pub use generator::Storm;
pub use laws::storms_can_happen;
pub use running::{StormFault, Stormed, ended_by, idle_clients, storm, storm_events};
pub use summary::{Summed, sum_up};
