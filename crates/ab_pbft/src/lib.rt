//! PBFT at one replica: messages are read, what came is kept, the rules are done, and what others hear of is sent.
#![tactic(auto)]

mod pbft;
mod putting;

pub use pbft::Pbft;
