//! Programs that are started by the system. They don't tell what they do.
#![tactic(auto)]

mod running;
mod spawner;

pub use spawner::ProcSpawner;
