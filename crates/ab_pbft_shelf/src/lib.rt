//! What a replica of PBFT keeps beside what its rules speak of, and what it sends.
#![tactic(auto)]

mod author;
mod ballots;
mod changes;
mod kept;
mod laws;
mod posting;
mod sending;
mod shelf;

pub use author::Author;
pub use kept::{Certified, SignedVote, Tagged};
pub use laws::{replicas_obey, replicas_send_their_own};
pub use shelf::Shelf;
