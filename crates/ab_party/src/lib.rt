//! A party of a cluster: a replica or a client takes what comes, opened, signed and sealed by its keys.
#![tactic(auto)]

mod credentials;
mod cue;
mod fault;
mod hearing;
mod laws;

pub use credentials::Credentials;
pub use cue::Cue;
pub use fault::CommandFault;
pub use hearing::{hear_client, hear_replica, tell_client};
pub use laws::sealed_messages_open;
