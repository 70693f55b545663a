//! The premises of a run: which event breaks one first, and how a program tells.
#![tactic(auto)]

mod breach;
mod forging;
mod laws;
mod line;
mod looking;
mod statements;
mod stating;
mod watch;

pub use breach::{Collision, Forgery};
pub use laws::{collisions_are_told, few_are_faulty, premise_is_told, spelled_runs_are_apart};
pub use statements::Statements;
pub use watch::Watch;
