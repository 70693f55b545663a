//! What a message tells a replica of PBFT, and what the replica does then.
#![tactic(auto)]

mod certificate;
mod change;
mod memory;
mod placement;
mod progress;
mod reading;

pub use memory::Memory;
pub use placement::Placement;
pub use progress::Progress;
pub use reading::read;
