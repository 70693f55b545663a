//! A replica over all instances, whatever the protocols that they run.
#![tactic(auto)]

mod accepted;
mod answers;
mod checkpoint;
mod crossing;
mod done;
mod effects;
mod purpose;
mod replica;
mod rest;
mod sending;

pub use effects::Effects;
pub use replica::Replica;
pub use sending::Sending;
